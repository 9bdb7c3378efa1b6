// Laws of the definitions. These functions do nothing.
ghost use Rattle.std.specs.Prelude.{◌≡◌, map};
ghost use Rattle.cs_listing.specs.Listing.{ListsAsBelow};
ghost use Rattle.cs_listing.specs.Types.{file_types};
ghost use Rattle.cs_listing.specs.Walk.{GivesInOrder};
ghost use Rattle.cs_listing.specs.WholeWalks.{WalksList, WalksReportOnce, WalksReportAll};

use crate::types::TYPES;

/// Below a folder that it enters, a search lists what a search of that folder lists.
pub fn lists_as_below()
    ensures { ListsAsBelow }
{}

/// What a walk gives from its beginning to its end is ascending, and exactly the files that were
/// left at its beginning.
pub fn gives_in_order()
    ensures { GivesInOrder }
{}

/// A walk that has begun at a folder gives the files that a search of the folder lists, each once,
/// and no other ones.
pub fn walks_list()
    ensures { WalksList }
{}

/// A walk gives each path that could not be read once.
pub fn walks_report_once()
    ensures { WalksReportOnce }
{}

/// A walk gives each path that a search of its folder cannot read, and no other one as such.
pub fn walks_report_all()
    ensures { WalksReportAll }
{}

/// The table of the types is the one of the definitions.
pub fn types_are_listed()
    ensures { map (λ row. (row.0.now, row.1.now)) TYPES ≡ file_types }
{}
