// The types of a key and of a seal. They have a module of their own because `specs/Sums.antt` cites
// them.

use std::hash::DefaultHasher;

/// The key of the sums of a user's states.
#[derive(Clone, Copy)]
pub struct StateKey {
    /// By which the words of a piece are multiplied, both odd.
    pub(crate) first: u64,
    pub(crate) second: u64,
    /// SipHash-1-3 after the rest of the secret.
    pub(crate) hasher: DefaultHasher,
}

/// The key of the sums of one state: that of its user, and its moment.
#[derive(Clone, Copy)]
pub struct StateSeal {
    pub(crate) key: StateKey,
    pub(crate) moment: u64,
}
