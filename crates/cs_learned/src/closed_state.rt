// The types of a state file before it is opened. They have a module of their own because
// `specs/ClosedStates.antt` cites them.

use cs_known::SkipOptions;
use cs_state::StateKey;
use cs_trigram::Query;

/// A state file that is not read yet.
#[derive(Drop)]
pub struct ClosedState<S> {
    pub file: S,
    /// The key of the user.
    pub key: StateKey,
}

/// A state file that is not read yet, and the search that asks for it.
#[derive(Drop)]
pub(crate) struct PreparedState<S> {
    pub(crate) closed: ClosedState<S>,
    pub(crate) options: SkipOptions,
    pub(crate) query: Query,
}
