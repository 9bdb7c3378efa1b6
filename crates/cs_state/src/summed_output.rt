// The type of an output whose bytes are summed. It has a module of its own because
// `specs/SummedOutputs.antt` cites it.
ghost use Rattle.std.specs.Prelude.{◌≤◌, vec_len};

use crate::state_key::StateSeal;

/// An output that sends its bytes on in pieces of 64 KiB, and keeps the sum of each.
#[derive(Drop)]
pub struct SummedOutput<O> {
    pub(crate) out: O,
    pub(crate) seal: StateSeal,
    pub(crate) piece: Vec<u8>,
    pub(crate) sums: Vec<u8>,
    /// The number of bytes that it was given.
    pub(crate) len: u64,
    /// Whether no append has failed.
    pub(crate) whole: bool,
    ghost within: { vec_len piece ≤ 65536 },
}
