// An open state file.
ghost use Rattle.std.specs.Prelude.{◌≡◌, ℕ, List, Some, IfOk, IfSome};
ghost use Rattle.cs_state.specs.Cited.{HasIndex, IsSealed};

use crate::opening::read_form;
use crate::state_key::StateKey;
use crate::summed_bytes::SummedBytes;
use cs_index::StoredIndex;
use cs_tree::{IoFault, Store};
use std::alloc::Global;

/// The index in a state file that is open.
#[derive(Drop)]
pub struct StateFile<S: Store> {
    pub index: StoredIndex,
    /// The bytes of the index, for its calls. Each is tested by a sum when it is read.
    pub bytes: SummedBytes<S>,
}

impl<S: Store + Drop> StateFile<S> {
    /// Opens a state file. None if it does not have the form of one that was sealed with the key,
    /// if a sum or the index is wrong, or if a read of the index fails.
    pub fn open(alloc: Global, mut store: S, key: StateKey) -> Result<Option<StateFile<S>>, IoFault>
        ensures index { (bytes : List ℕ) → S.model store ≡ Some bytes → IfOk result (λ found. IfSome found
            (λ file. HasIndex bytes (⟦<SummedBytes<S> as Store>⟧.model file.bytes) file.index)) }
        ensures sealed { (bytes : List ℕ) → S.model store ≡ Some bytes →
            IfOk result (λ found. IfSome found (λ _. IsSealed key bytes)) }
    {
        let Some((index_len, seal)) = read_form(alloc, &mut store, key)? else {
            return Ok(None);
        };
        let mut bytes = SummedBytes::new(alloc, store, index_len, seal);
        match StoredIndex::open(alloc, &mut bytes) {
            Ok(Ok(index)) => Ok(Some(StateFile { index, bytes })),
            Err(IoFault::Memory) => Err(IoFault::Memory),
            _ => Ok(None),
        }
    }
}
