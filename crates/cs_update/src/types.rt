// The types that definitions cite. They have a module of their own because these definitions are
// cited by contracts.
ghost use Rattle.std.specs.Prelude.{◌≤◌};

use cs_known::SeenFile;
use cs_state::StateKey;
use std::alloc::Global;

/// Files below a root that a run is to learn, and the moment of the run.
#[derive(Drop)]
pub struct UpdateCall<'a> {
    pub alloc: Global,
    /// The key of the user, with which the new state is sealed.
    pub key: StateKey,
    /// The file at a name has this path before the name.
    pub root: &'a str,
    pub files: &'a [SeenFile],
    /// In nanoseconds since 1970. No file was read before.
    pub moment: u64,
}

/// What is found in a file that can be read to its end.
pub(crate) enum Found<'a> {
    /// A text that an index can hold, by its trigrams, each once.
    Text(&'a [u32]),
    Binary,
    /// Each search reads it.
    Apart,
}

/// A source that is watched for a NUL and counted: whether a NUL was among its first bytes, and
/// whether it has as many bytes as are expected.
#[derive(Drop)]
pub(crate) struct Watched<R> {
    pub(crate) rest: R,
    /// How many of the first bytes are still to be read.
    pub(crate) left: usize,
    pub(crate) has_nul: bool,
    /// How many of the expected bytes are still to be read. None if there were more.
    pub(crate) missing: Option<u64>,
    ghost within: { left ≤ 8000 },
}
