// Bytes of a store that are tested by sums as they are read.
ghost use Rattle.std.specs.Prelude.{◌≡◌, ◌≤◌, ◌<◌, ◌^◌, ℕ, List, Some, IfOk, OnOk, length, min, option_map, take};
ghost use Rattle.cs_state.specs.Cited.{count_after, ReadShows, is_io_failure, IsTested, KeepsBytes, ReadsSummed};

use crate::state_key::StateSeal;
use crate::summed_bytes::SummedBytes;
use crate::sums::{PIECE_LEN, SUM_LEN};
use cs_tree::{IoFault, Store, read_part};
use std::alloc::Global;

impl<S: Store> SummedBytes<S> {
    /// The first `len` bytes, with no piece in memory.
    pub(crate) fn new(alloc: Global, store: S, len: usize, seal: StateSeal) -> SummedBytes<S>
        requires { len < 2 ^ 32 }
        ensures store { result.store ≡ store }
        ensures len { result.len ≡ len }
        ensures seal { result.seal ≡ seal }
    {
        SummedBytes {
            store,
            len,
            seal,
            piece: Vec::new(alloc),
            number: 0,
            failed: 0,
            alloc,
        }
    }

    /// Reads the piece with this number, and its sum.
    fn tested(&mut self, number: usize) -> Result<Vec<u8>, IoFault>
        requires { number < 2 ^ 32 }
        ensures tested { (all : List ℕ) → S.model self.old.store ≡ Some all →
            IfOk result (λ piece. IsTested self.old.seal all self.old.len number piece.items) }
        ensures keeps { KeepsBytes self.old self.new }
    {
        let at = number * PIECE_LEN;
        let len = PIECE_LEN.min(self.len.saturating_sub(at));
        let piece = read_part(self.alloc, &mut self.store, at, len)?;
        let at = self.len + SUM_LEN * number;
        let sum = read_part(self.alloc, &mut self.store, at, SUM_LEN)?;
        if sum.as_slice() != self.seal.sum(number, false, &piece).as_slice() {
            return Err(IoFault::Failed);
        }
        Ok(piece)
    }

    /// Has the piece with this number in memory.
    fn reach(&mut self, number: usize) -> Result<(), IoFault>
        requires { number < 2 ^ 32 }
        ensures tested { (all : List ℕ) → S.model self.old.store ≡ Some all →
            OnOk result (IsTested self.old.seal all self.old.len number self.new.piece.items) }
        ensures keeps { KeepsBytes self.old self.new }
    {
        if number == self.number && !self.piece.is_empty() {
            return Ok(());
        }
        self.piece = self.tested(number)?;
        self.number = number;
        Ok(())
    }

    /// Reads within one piece.
    fn read_piece(&mut self, buf: &mut [u8], at: usize) -> Result<usize, IoFault>
        ensures within { IfOk result (λ n. n ≤ length buf.new) }
        ensures bytes { ReadShows (option_map (take self.old.len) (S.model self.old.store)) at
            result buf.new }
        ensures keeps { KeepsBytes self.old self.new }
        ensures sums { ReadsSummed self.old.seal (S.model self.old.store) self.old.len at result }
    {
        if at >= self.len {
            return Ok(0);
        }
        self.reach(at / PIECE_LEN)?;
        let rest = &self.piece[self.piece.len().min(at % PIECE_LEN)..];
        let n = rest.len().min(buf.len());
        buf[..n].copy_from_slice(&rest[..n]);
        Ok(n)
    }
}

impl<S: Store> Store for SummedBytes<S> {
    ghost model = { λ s. option_map (take s.len) (S.model s.store) };

    ghost size = { λ s. min s.len (S.size s.store) };

    ghost failed = { λ s. s.failed };

    fn len(&self) -> usize {
        self.len.min(self.store.len())
    }

    fn read_at(&mut self, buf: &mut [u8], at: usize) -> Result<usize, IoFault>
        ensures within { IfOk result (λ n. n ≤ length buf.new) }
        ensures bytes { ReadShows (⟦<SummedBytes<S> as Store>⟧.model self.old) at result buf.new }
        ensures keeps { ⟦<SummedBytes<S> as Store>⟧.model self.new
            ≡ ⟦<SummedBytes<S> as Store>⟧.model self.old }
        ensures size { ⟦<SummedBytes<S> as Store>⟧.size self.new
            ≡ ⟦<SummedBytes<S> as Store>⟧.size self.old }
        ensures failed { ⟦<SummedBytes<S> as Store>⟧.failed self.new
            ≡ count_after is_io_failure result (⟦<SummedBytes<S> as Store>⟧.failed self.old) }
        ensures sums { ReadsSummed self.old.seal (S.model self.old.store) self.old.len at result }
        ensures seal { self.new.seal ≡ self.old.seal }
    {
        let answer = self.read_piece(buf, at);
        self.failed = failures_after(answer, self.failed);
        answer
    }

    fn failures(&self) -> u64 {
        self.failed
    }
}

/// The number of failures after a read.
fn failures_after(answer: Result<usize, IoFault>, failed: u64) -> u64
    ensures { result ≡ count_after is_io_failure answer failed }
{
    match answer {
        Err(IoFault::Failed) => failed.saturating_add(1),
        _ => failed,
    }
}
