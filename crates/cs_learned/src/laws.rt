// Laws of the definitions. These functions do nothing.
ghost use Rattle.cs_learned.specs.Fresh.{IsFresh};
ghost use Rattle.cs_learned.specs.LaterSearches.{LaterSearchesAreFresh};

use cs_known::laws::a_skipped_file_prints_nothing;

/// A search over a state that earlier runs learned is a search of every file as it is now.
pub fn a_search_is_fresh()
    ensures { IsFresh }
{
    a_skipped_file_prints_nothing();
}

/// The same after a run that learned files which a search noted.
pub fn a_later_search_is_fresh()
    ensures { LaterSearchesAreFresh }
{
    a_search_is_fresh();
}
