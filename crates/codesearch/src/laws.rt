// Laws of the program. None of these functions does anything.
ghost use Rattle.codesearch.specs.Program.{RunsKeepHistory};

/// A run of `cindex` leaves the index of the earlier jobs, and of its own job if the exit status is
/// 0.
pub(crate) fn runs_keep_history()
    ensures { RunsKeepHistory }
{}
