// The type of bytes that are tested by sums. It has a module of its own because
// `specs/SummedStores.antt` cites it.
ghost use Rattle.std.specs.Prelude.{◌≡◌, ◌<◌, ◌^◌, ℕ, List, Some, vec_len};
ghost use Rattle.cs_state.specs.Sums.{IsTested};

use crate::state_key::StateSeal;
use cs_tree::Store;
use std::alloc::Global;

/// The first bytes of a store, behind which the sums of their pieces stand. A piece is read and
/// tested when a byte of it is read; the read fails if its sum is wrong. The piece that was tested
/// last is in memory, and reads are answered from there: what is read is what was tested.
#[derive(Drop)]
pub struct SummedBytes<S: Store> {
    pub(crate) store: S,
    pub(crate) len: usize,
    pub(crate) seal: StateSeal,
    /// The piece that was tested last. None has no bytes.
    pub(crate) piece: Vec<u8>,
    /// Its number.
    pub(crate) number: usize,
    pub(crate) failed: u64,
    pub(crate) alloc: Global,
    ghost short: { len < 2 ^ 32 },
    ghost tested: { (all : List ℕ) → S.model store ≡ Some all → 0 < vec_len piece →
        IsTested seal all len number piece.items },
}
