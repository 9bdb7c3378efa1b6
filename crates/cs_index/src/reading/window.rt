// The bytes of a store that are in memory, from an offset on.
ghost use Rattle.std.specs.Prelude.{◌≡◌, ◌≤◌, ◌<◌, ◌^◌, ◌+◌, ◌-◌, ℕ, List, [], true, false, Some, drop, length, take, IfOk, OnOk};
ghost use Rattle.cs_index.specs.Cited.{KeepsStore, part_of, HasFrom, IsPiece, StandAt, IsWindow};

use cs_tree::{IoFault, Store, fill_at};
use std::alloc::Global;

/// The most bytes of a piece of a section, unless a string is longer than half of it.
const PIECE_LEN: usize = 65536;

/// The bytes of a store from the offset `start` on, as far as they are in memory.
#[derive(Drop)]
pub(crate) struct Window {
    pub(crate) piece: Vec<u8>,
    pub(crate) start: usize,
}

impl Window {
    /// No bytes, at an offset.
    pub(crate) fn new(alloc: Global, start: usize) -> Window
        ensures piece { (bytes : List ℕ) → IsPiece bytes result }
        ensures empty { result.piece.items ≡ [] }
        ensures start { result.start ≡ start }
    {
        Window {
            piece: Vec::new(alloc),
            start,
        }
    }

    /// Goes to the `len` bytes from the offset `at` on, or to fewer if the store ends first. Those
    /// of them that are in memory are not read again.
    pub(crate) fn read<S: Store>(
        &mut self,
        store: &mut S,
        at: usize,
        len: usize,
    ) -> Result<(), IoFault>
        requires { at + len < 2 ^ 64 }
        ensures start { self.new.start ≡ at }
        ensures bound { length self.new.piece.items ≤ len }
        ensures piece { (bytes : List ℕ) → S.model store.old ≡ Some bytes → HasFrom bytes self.old at →
            OnOk result (self.new.piece.items ≡ part_of bytes at len) }
        ensures store { KeepsStore S.model S.size S.failed store.old store.new result }
    {
        let kept = self.keep(at, len);
        // (What is in memory after these bytes is read over, and is not cleared before.)
        self.piece.resize(len, 0)?;
        let n = fill_at(store, &mut self.piece.as_mut_slice()[kept..], at + kept)?;
        self.piece.truncate(kept + n);
        Ok(())
    }

    /// Has `len` bytes from the offset `at` on, unless the store ends first. Where one of them is
    /// not in memory, it goes to the `most` bytes from there on.
    pub(crate) fn reach<S: Store>(
        &mut self,
        store: &mut S,
        at: usize,
        len: usize,
        most: usize,
    ) -> Result<(), IoFault>
        requires len { len ≤ most }
        requires short { at + most < 2 ^ 63 }
        ensures from { OnOk result (self.new.start ≤ at) }
        ensures within { OnOk result (at ≤ self.new.start + length self.new.piece.items) }
        ensures bound { (stop : ℕ) → self.old.start + length self.old.piece.items ≤ stop → at + most ≤ stop →
            self.new.start + length self.new.piece.items ≤ stop }
        ensures piece { (bytes : List ℕ) → S.model store.old ≡ Some bytes → IsPiece bytes self.old →
            OnOk result (IsPiece bytes self.new) }
        ensures long { (bytes : List ℕ) → S.model store.old ≡ Some bytes → IsPiece bytes self.old →
            at + len ≤ length bytes → OnOk result (at + len ≤ self.new.start + length self.new.piece.items) }
        ensures store { KeepsStore S.model S.size S.failed store.old store.new result }
    {
        if self.start <= at && at - self.start + len <= self.piece.len() {
            return Ok(());
        }
        self.read(store, at, most)
    }

    /// Goes to an offset, and moves the first `most` of its bytes from there on to the start of the
    /// piece, whose length stays. Returns their number.
    fn keep(&mut self, at: usize, most: usize) -> usize
        ensures start { self.new.start ≡ at }
        ensures few { result ≤ most }
        ensures within { result ≤ length self.new.piece.items }
        ensures piece { (bytes : List ℕ) → HasFrom bytes self.old at →
            StandAt bytes at (take result self.new.piece.items) }
    {
        let start = self.start;
        self.start = at;
        if at < start || at - start >= self.piece.len() {
            return 0;
        }
        let kept = (self.piece.len() - (at - start)).min(most);
        move_down(&mut self.piece, at - start, kept);
        kept
    }

    /// Goes to an offset without bytes, if it has bytes past `stop`.
    pub(crate) fn stop_at(&mut self, at: usize, stop: usize)
        requires order { at ≤ stop }
        requires short { self.old.start + length self.old.piece.items < 2 ^ 64 }
        ensures within { self.new.start + length self.new.piece.items ≤ stop }
        ensures piece { (bytes : List ℕ) → IsPiece bytes self.old → IsPiece bytes self.new }
    {
        if self.start + self.piece.len() > stop {
            self.piece.clear();
            self.start = at;
        }
    }

    /// Passes `used` bytes of a section that ends at `stop`, and reads the next piece. It begins
    /// with the bytes that are left of this one, and has at least twice as many, so a long string
    /// is read a few times. Returns whether any byte is new.
    pub(crate) fn read_on<S: Store>(
        &mut self,
        store: &mut S,
        used: usize,
        stop: usize,
    ) -> Result<bool, IoFault>
        requires window { IsWindow self.old stop }
        requires used { used ≤ length self.old.piece.items }
        ensures window { IsWindow self.new stop }
        ensures start { IfOk result (λ _. self.new.start ≡ self.old.start + used) }
        ensures grows { IfOk result (λ more. more ≡ true → self.old.start + length self.old.piece.items
            < self.new.start + length self.new.piece.items) }
        ensures piece { (bytes : List ℕ) → S.model store.old ≡ Some bytes → IsPiece bytes self.old →
            IfOk result (λ _. IsPiece bytes self.new) }
        ensures end { (bytes : List ℕ) → S.model store.old ≡ Some bytes → IsPiece bytes self.old →
            stop ≤ length bytes → IfOk result (λ more. more ≡ false →
            self.new.piece.items ≡ part_of bytes self.new.start (stop - self.new.start)) }
        ensures store { KeepsStore S.model S.size S.failed store.old store.new result }
    {
        let left = self.piece.len() - used;
        let start = self.start + used;
        let len = (stop - start).min(PIECE_LEN.max(2 * left));
        self.read(store, start, len)?;
        Ok(self.piece.len() > left)
    }
}

/// Moves the `n` bytes from an offset on to the start.
fn move_down(bytes: &mut Vec<u8>, from: usize, n: usize)
    requires { from + n ≤ length bytes.old.items }
    ensures items { take n bytes.new.items ≡ take n (drop from bytes.old.items) }
    ensures len { length bytes.new.items ≡ length bytes.old.items }
{
    bytes.as_mut_slice().copy_within(from..from + n, 0);
}
