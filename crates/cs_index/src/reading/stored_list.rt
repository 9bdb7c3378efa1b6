// Posting lists of a store, decoded id by id from pieces of its bytes (Go: `postReader` in
// index/read.go).
ghost use Rattle.std.specs.Prelude.{◌≡◌, ◌≤◌, ◌<◌, ◌+◌, ℕ, Bool, true, List, [], Some, length, take, IfSome, IfNone, IfOk, OnOk, bytes_eq};
ghost use Rattle.cs_index.specs.Cited.{KeepsStore, AreAscendingOffsets, max_ids, sections_at, three_bytes, Ids, read_list, BeginsFrom, entry_read, RowSoFar, GivesBelow, Holds, IsReady, SkipsBelow, ids_left, with_piece};

use crate::encoded_run::{extent, marked_extent};
use crate::reading::entries::Entry;
use crate::reading::postings::{ListDecoder, Step};
use crate::reading::section_offsets::SectionOffsets;
use crate::reading::window::Window;
use cs_tree::{IoFault, Store};
use std::alloc::Global;
use std::marker::Model;

/// The bytes of a trigram.
pub(crate) const TRIGRAM_LEN: usize = 3;

/// The most bytes of a varint.
pub(crate) const VARINT_LEN: usize = 5;

/// A posting list of a store. Its ids are decoded from a piece of its bytes, and the next piece is
/// read where fewer bytes are left than a varint may have. So each byte of a list is read once.
#[derive(Drop)]
pub(crate) struct StoredList {
    window: Window,
    used: usize,
    stop: usize,
    size: usize,
    decoder: ListDecoder,
    has_ended: bool,
    is_whole: bool,
}

impl Model for StoredList {
    ghost use Rattle.cs_index.specs.StoredLists.{IsStoredList, ListState, state_of};

    ghost Value = { ListState };

    ghost view = { state_of };

    ghost invariant = { IsStoredList };
}

impl StoredList {
    /// The posting list of an entry. Pieces have at most `size` bytes.
    pub(crate) fn open<S: Store>(
        alloc: Global,
        store: &mut S,
        starts: &SectionOffsets,
        name_count: u32,
        entry: &Entry,
        size: usize,
    ) -> Result<StoredList, IoFault>
        requires order { AreAscendingOffsets starts.now }
        requires few { name_count < max_ids }
        requires longest { 8 ≤ size }
        ensures holds { (bytes : List ℕ) → S.model store.old ≡ Some bytes → IfOk result (Holds bytes) }
        ensures ids { (bytes : List ℕ) → S.model store.old ≡ Some bytes →
            IfOk result (λ list. ids_left bytes list
            ≡ read_list (sections_at bytes starts.now).postings name_count (entry_read entry.now)) }
        ensures store { KeepsStore S.model S.size S.failed store.old store.new result }
    {
        let offset = entry.offset as usize;
        let room = starts.name_index - starts.postings;
        if room < offset + TRIGRAM_LEN + 1 {
            return Ok(StoredList::ended(alloc, false));
        }
        let start = starts.postings + offset;
        let most = TRIGRAM_LEN + VARINT_LEN * (entry.count as usize + 1);
        let len = (room - offset).min(size).min(most);
        let mut window = Window::new(alloc, 0);
        window.read(store, start, len)?;
        if !is_list_of(&window.piece, entry.trigram) {
            return Ok(StoredList::ended(alloc, false));
        }
        Ok(StoredList {
            window,
            used: TRIGRAM_LEN,
            stop: starts.name_index,
            size,
            decoder: ListDecoder {
                left: entry.count,
                next: 0,
                name_count,
            },
            has_ended: false,
            is_whole: false,
        })
    }

    /// A list without ids, whole or damaged.
    pub(crate) fn ended(alloc: Global, is_whole: bool) -> StoredList
        ensures holds { (bytes : List ℕ) → Holds bytes result }
        ensures ids { (bytes : List ℕ) → ids_left bytes result ≡ record { ids = []; whole = is_whole } }
    {
        StoredList {
            window: Window::new(alloc, 0),
            used: 0,
            stop: 0,
            size: VARINT_LEN,
            decoder: ListDecoder {
                left: 0,
                next: 0,
                name_count: 0,
            },
            has_ended: true,
            is_whole,
        }
    }

    /// The next id, if it is less than `end`; without one, the list stays as it is.
    pub(crate) fn next_below<S: Store>(
        &mut self,
        store: &mut S,
        end: u32,
    ) -> Result<Option<u32>, IoFault>
        ensures gives { (bytes : List ℕ) → S.model store.old ≡ Some bytes → Holds bytes self.old →
            IfOk result (GivesBelow bytes end self.old self.new) }
        ensures below { IfOk result (λ found. IfSome found (λ id. id < end)) }
        ensures left { IfOk result (λ found. IfSome found (λ _. self.new.left < self.old.left)) }
        ensures ended { IfOk result (λ found. IfNone found (self.old.name_count ≤ end →
            self.new.has_ended ≡ true)) }
        ensures names { self.new.name_count ≡ self.old.name_count }
        ensures store { KeepsStore S.model S.size S.failed store.old store.new result }
    {
        if self.has_ended {
            return Ok(None);
        }
        self.fill(store)?;
        Ok(self.take_below(end))
    }

    /// Reads the list to its end. Returns whether it is whole.
    pub(crate) fn finish<S: Store>(&mut self, store: &mut S) -> Result<bool, IoFault>
        ensures whole { (bytes : List ℕ) → S.model store.old ≡ Some bytes → Holds bytes self.old →
            IfOk result (λ whole. whole ≡ (ids_left bytes self.old).whole) }
        ensures store { KeepsStore S.model S.size S.failed store.old store.new result }
    {
        let end = self.decoder.name_count;
        self.skip_below(store, end)?;
        Ok(self.is_whole)
    }

    /// Skips the ids that are less than `start`. No id that is left is less than the result, which
    /// is the next id if there is one.
    pub(crate) fn skip_to<S: Store>(&mut self, store: &mut S, start: u32) -> Result<u32, IoFault>
        ensures skips { (bytes : List ℕ) → S.model store.old ≡ Some bytes → Holds bytes self.old →
            IfOk result (λ next. SkipsBelow bytes start self.old self.new
            × BeginsFrom next (ids_left bytes self.new).ids) }
        ensures store { KeepsStore S.model S.size S.failed store.old store.new result }
    {
        self.skip_below(store, start)?;
        self.fill(store)?;
        Ok(self.first_left())
    }

    /// The next id of the piece; without one, a number past the ids.
    fn first_left(&self) -> u32
        ensures { (bytes : List ℕ) → IsReady bytes self.now →
            BeginsFrom result (ids_left bytes self.now).ids }
    {
        if self.has_ended {
            return self.decoder.name_count;
        }
        match self.decoder.step(&self.window.piece[self.used..]) {
            Step::Id(id, _) => id,
            Step::End(_) => self.decoder.name_count,
        }
    }

    /// The number of ids that are left, as the entry counts them.
    pub(crate) fn len(&self) -> u32 {
        self.decoder.left
    }

    /// Skips the ids that are less than `end`.
    pub(crate) fn skip_below<S: Store>(&mut self, store: &mut S, end: u32) -> Result<(), IoFault>
        ensures skips { (bytes : List ℕ) → S.model store.old ≡ Some bytes → Holds bytes self.old →
            OnOk result (SkipsBelow bytes end self.old self.new
            × BeginsFrom end (ids_left bytes self.new).ids) }
        ensures ended { OnOk result (self.old.name_count ≤ end → self.new.has_ended ≡ true) }
        ensures store { KeepsStore S.model S.size S.failed store.old store.new result }
    {
        'ids: while let Some(_id) = self.next_below(store, end)? {
            self.skip_short(end);
        }
        Ok(())
    }

    /// Skips ids of the piece that are less than `end`, up to the first delta that is longer than
    /// two bytes.
    #[inline(always)]
    fn skip_short(&mut self, end: u32)
        ensures skips { (bytes : List ℕ) → Holds bytes self.old → SkipsBelow bytes end self.old self.new }
        ensures left { self.new.left ≤ self.old.left }
        ensures names { self.new.name_count ≡ self.old.name_count }
    {
        if self.has_ended {
            return;
        }
        let end = end.min(self.decoder.name_count);
        if end < self.decoder.next {
            return;
        }
        let piece = &self.window.piece[self.used..];
        let ids = extent(piece, self.decoder.left, end - self.decoder.next);
        self.used += ids.len;
        self.decoder.left -= ids.count;
        self.decoder.next += ids.next;
    }

    /// `skip_short`, which sets the flags of the ids in the row of the window from `start` to
    /// `end`.
    #[inline(always)]
    pub(crate) fn mark_short(&mut self, row: &mut [bool], start: u32, end: u32)
        requires { start + length row.old ≡ end }
        ensures skips { (bytes : List ℕ) → Holds bytes self.old → SkipsBelow bytes end self.old self.new }
        ensures row { (bytes : List ℕ) (list : Ids) → Holds bytes self.old →
            RowSoFar start end list row.old (ids_left bytes self.old) →
            RowSoFar start end list row.new (ids_left bytes self.new) }
        ensures width { length row.new ≡ length row.old }
        ensures left { self.new.left ≤ self.old.left }
        ensures names { self.new.name_count ≡ self.old.name_count }
    {
        if self.has_ended || self.decoder.next < start {
            return;
        }
        let end = end.min(self.decoder.name_count);
        if end < self.decoder.next {
            return;
        }
        let at = (self.decoder.next - start) as usize;
        let piece = &self.window.piece[self.used..];
        let ids = marked_extent(piece, self.decoder.left, end - self.decoder.next, row, at);
        self.used += ids.len;
        self.decoder.left -= ids.count;
        self.decoder.next += ids.next;
    }

    /// Reads the next piece if the one that is there may end inside a varint.
    fn fill<S: Store>(&mut self, store: &mut S) -> Result<(), IoFault>
        ensures ready { (bytes : List ℕ) → S.model store.old ≡ Some bytes → Holds bytes self.old →
            OnOk result (IsReady bytes self.new) }
        ensures same { self.new ≡ with_piece self.old self.new.piece }
        ensures store { KeepsStore S.model S.size S.failed store.old store.new result }
    {
        let at = self.window.start + self.used;
        let len = self.window.piece.len();
        if len - self.used >= VARINT_LEN || self.window.start + len == self.stop {
            return Ok(());
        }
        let most = VARINT_LEN * (self.decoder.left as usize + 1);
        let len = (self.stop - at).min(self.size).min(most);
        self.used = 0;
        self.window.read(store, at, len)
    }

    /// The next id of the piece, if it is less than `end`; without one, the list stays as it is, or
    /// ends.
    #[inline(never)]
    fn take_below(&mut self, end: u32) -> Option<u32>
        ensures gives { (bytes : List ℕ) → IsReady bytes self.old →
            GivesBelow bytes end self.old self.new result }
        ensures below { IfSome result (λ id. id < end) }
        ensures left { IfSome result (λ _. self.new.left < self.old.left) }
        ensures ended { IfNone result (self.old.name_count ≤ end → self.new.has_ended ≡ true) }
        ensures names { self.new.name_count ≡ self.old.name_count }
    {
        if self.has_ended {
            return None;
        }
        match self.decoder.step(&self.window.piece[self.used..]) {
            Step::End(is_whole) => {
                self.has_ended = true;
                self.is_whole = is_whole;
                None
            }
            Step::Id(id, len) => {
                if id >= end {
                    return None;
                }
                self.used += len;
                self.decoder.left -= 1;
                self.decoder.next = id + 1;
                Some(id)
            }
        }
    }
}

/// Whether a piece begins with a trigram.
pub(crate) fn is_list_of(piece: &[u8], trigram: u32) -> bool
    ensures named { result ≡ bytes_eq (take TRIGRAM_LEN piece.now) (three_bytes trigram) }
    ensures long { result ≡ true → TRIGRAM_LEN ≤ length piece.now }
{
    if piece.len() < TRIGRAM_LEN {
        return false;
    }
    piece[..TRIGRAM_LEN] == trigram.to_be_bytes()[1..]
}
