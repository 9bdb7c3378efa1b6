// The names of an index in a store, by their ids.
ghost use Rattle.std.specs.Prelude.{◌≡◌, ◌≤◌, ◌<◌, ◌+◌, ◌-◌, ◌++◌, ◌^◌, ℕ, List, Some, drop, take, length, slice_get, IfSome, IfNone, IfOk};
ghost use Rattle.std.specs.List.{AllByRecursion};
ghost use Rattle.cs_index.specs.Cited.{KeepsStore, Parts, HasName, IsName, ReadsNames, StandsIn, HasText, IsPiece, StandsAt, with_nul, number_at, AreAscendingOffsets};
ghost use Rattle.std.specs.Result.{IsOkAnd};

use crate::fault::IndexFault;
use crate::reading::bytes::read_number;
use crate::reading::section_offsets::SectionOffsets;
use crate::reading::window::Window;
use cs_tree::{IoFault, Store};
use memchr::memchr;
use std::alloc::Global;

/// The number of bytes that a read asks for, unless a name is longer.
const NAMES_LEN: usize = 1 << 13;

/// Reads the names of an index in a store. Where ids ascend, each byte of the names is read once,
/// except those of the last name of a piece. The name that was read last has `len` bytes at the
/// offset `at` of the store.
#[derive(Drop)]
pub struct NameReader {
    start: u32,
    end: u32,
    name_index: u32,
    name_count: u32,
    offsets: Window,
    names: Window,
    at: usize,
    len: usize,
}

impl NameReader {
    /// A reader of the names of the sections at these offsets.
    pub(crate) fn new(alloc: Global, starts: SectionOffsets, name_count: u32) -> NameReader
        requires { AreAscendingOffsets starts }
        ensures { (bytes : List ℕ) (parts : Parts) (paths : List (List ℕ)) →
            StandsIn bytes (record { paths = paths; name_count = name_count; starts = starts }) parts →
            ReadsNames bytes parts result }
    {
        NameReader {
            start: starts.names as u32,
            end: starts.postings as u32,
            name_index: starts.name_index as u32,
            name_count,
            offsets: Window::new(alloc, 0),
            names: Window::new(alloc, 0),
            at: 0,
            len: 0,
        }
    }

    /// Reads the name with an id, which is `name` until the next call. Without one, or where the
    /// store changes while it is read, the answer may be an error.
    pub fn read<S: Store>(
        &mut self,
        _alloc: Global,
        store: &mut S,
        id: u32,
    ) -> Result<Result<(), IndexFault>, IoFault>
        ensures name { (bytes : List ℕ) → S.model store.old ≡ Some bytes → (parts : Parts) →
            ReadsNames bytes parts self.old →
            IfOk result (λ answer. IsName (slice_get parts.names id) answer self.new
            × ReadsNames bytes parts self.new) }
        ensures store { KeepsStore S.model S.size S.failed store.old store.new result }
    {
        if id >= self.name_count {
            return Ok(Err(IndexFault::BadNames));
        }
        let at = self.name_index as usize + 4 * id as usize;
        let offset = self.offsets.number(store, at)?;
        let at = self.start as usize + offset as usize;
        let Some(len) = self.names.find_text(store, at, self.end as usize)? else {
            return Ok(Err(IndexFault::BadNames));
        };
        self.at = at;
        self.len = len;
        Ok(Ok(()))
    }

    /// The name that was read last.
    pub fn name(&self) -> Result<&str, IndexFault>
        ensures { (name : List ℕ) → HasName self.now name → IsOkAnd result (λ text. text.now ≡ name) }
    {
        self.names.text(self.at, self.len)
    }
}

impl Window {
    /// The big-endian number at an offset; 0 if the store ends first.
    fn number<S: Store>(&mut self, store: &mut S, at: usize) -> Result<u32, IoFault>
        requires { at < 2 ^ 62 }
        ensures number { (bytes : List ℕ) → S.model store.old ≡ Some bytes → IsPiece bytes self.old →
            at + 4 ≤ length bytes → IfOk result (λ n. n ≡ number_at bytes at) }
        ensures piece { (bytes : List ℕ) → S.model store.old ≡ Some bytes → IsPiece bytes self.old →
            IfOk result (λ _. IsPiece bytes self.new) }
        ensures store { KeepsStore S.model S.size S.failed store.old store.new result }
    {
        self.reach(store, at, 4, NAMES_LEN)?;
        let part = self.from(at);
        if part.len() < 4 {
            return Ok(0);
        }
        Ok(read_number(part, 0))
    }

    /// Reads up to the first NUL from an offset on, which stands before `end`: the length of the
    /// text before it.
    fn find_text<S: Store>(
        &mut self,
        store: &mut S,
        at: usize,
        end: usize,
    ) -> Result<Option<usize>, IoFault>
        requires { end < 2 ^ 62 }
        ensures text { (bytes : List ℕ) → S.model store.old ≡ Some bytes → IsPiece bytes self.old →
            (text : List ℕ) → StandsAt bytes at end text → IfOk result (HasText self.new at text) }
        ensures piece { (bytes : List ℕ) → S.model store.old ≡ Some bytes → IsPiece bytes self.old →
            IfOk result (λ _. IsPiece bytes self.new) }
        ensures store { KeepsStore S.model S.size S.failed store.old store.new result }
    {
        let room = end.saturating_sub(at);
        let mut searched = 0;
        'pieces: while searched < room {
            let len = (2 * searched).max(1).min(room);
            self.reach(store, at, len, len.max(NAMES_LEN))?;
            let part = self.from(at);
            if let Some(text) = before_nul(part) {
                return Ok(Some(text.len()));
            }
            if part.len() < len {
                return Ok(None);
            }
            searched = part.len();
        }
        Ok(None)
    }

    /// The text of `len` bytes at an offset, if the window has it.
    fn text(&self, at: usize, len: usize) -> Result<&str, IndexFault>
        ensures { (text : List ℕ) → HasText self.now at text (Some len) →
            IsOkAnd result (λ found. found.now ≡ text) }
    {
        let Some(start) = at.checked_sub(self.start) else {
            return Err(IndexFault::BadNames);
        };
        if start > self.piece.len() || len > self.piece.len() - start {
            return Err(IndexFault::BadNames);
        }
        match std::str::from_utf8(&self.piece[start..start + len]) {
            Ok(text) => Ok(text),
            Err(_) => Err(IndexFault::BadNames),
        }
    }

    /// The bytes from an offset on.
    fn from(&self, at: usize) -> &[u8]
        requires from { self.now.start ≤ at }
        requires within { at ≤ self.now.start + length self.now.piece.items }
        ensures { result.now ≡ drop (at - self.now.start) self.now.piece.items }
    {
        &self.piece[at - self.start..]
    }
}

/// The bytes before the first NUL.
fn before_nul(bytes: &[u8]) -> Option<&[u8]>
    ensures some { (text more : List ℕ) (n : ℕ) → AllByRecursion (λ b. 0 < b) text →
        bytes.now ≡ take n (with_nul text ++ more) → IfSome result (λ found. found.now ≡ text) }
    ensures none { (text more : List ℕ) (n : ℕ) → AllByRecursion (λ b. 0 < b) text →
        bytes.now ≡ take n (with_nul text ++ more) → IfNone result (length bytes.now ≤ length text) }
    ensures within { IfSome result (λ found. length found.now ≤ length bytes.now) }
    ensures prefix { IfSome result (λ found. take (length found.now) bytes.now ≡ found.now) }
{
    let end = memchr(0, bytes)?;
    Some(&bytes[..end])
}
