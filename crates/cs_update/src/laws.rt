// Laws of the definitions. These functions do nothing.
ghost use Rattle.cs_update.specs.Updates.{LeftStatesAreLearned, UpdatesKeepLearned};

/// An update keeps the premise of the next search.
pub fn an_update_keeps_what_was_learned()
    ensures { UpdatesKeepLearned }
{}

/// What a state knows that runs left was learned in these runs.
pub fn states_that_runs_leave_are_learned()
    ensures { LeftStatesAreLearned }
{}
