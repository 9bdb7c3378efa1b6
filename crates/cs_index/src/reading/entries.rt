// The name index and the list index, and the entries of a list index in a store, found by their
// trigrams.
ghost use Rattle.std.specs.Prelude.{◌≡◌, ◌==◌, ◌≤◌, ◌<◌, ◌+◌, ◌^◌, ◌++◌, [], ◌≢◌, ◌-◌, List, true, false, length, slice_index, IfSome, IfNone, IsTrue, ◌*◌, ◌/◌, ℕ, Some, option_map, slice_get, IfOk};
ghost use Rattle.cs_index.specs.Cited.{are_entries, has_starts, ListEntry, entries_in, entry_at, trigram_at, is_list_index, is_section, texts_of, rises, KeepsStore, AreAscendingOffsets, entry_of, entry_read, HasEntries};

use crate::reading::bytes::{read_number, read_trigram};
use crate::reading::section_offsets::SectionOffsets;
use cs_tree::{IoFault, Store, fill_at};

/// An entry of a list index: a trigram, the number of its ids, and the offset of its posting list.
#[derive(Clone, Copy, Drop)]
pub(crate) struct Entry {
    pub(crate) trigram: u32,
    pub(crate) count: u32,
    pub(crate) offset: u32,
}

pub(crate) const ENTRY_LEN: usize = 11;

/// Reads the entry of a trigram from the list index of a store, by binary search.
pub(crate) fn find_entry<S: Store>(
    store: &mut S,
    starts: &SectionOffsets,
    trigram: u32,
) -> Result<Option<Entry>, IoFault>
    requires { AreAscendingOffsets starts.now }
    ensures found { (bytes : List ℕ) → S.model store.old ≡ Some bytes → (entries : List ListEntry) →
        HasEntries bytes starts.now entries → IfOk result (λ found.
        option_map entry_read found ≡ entry_of entries trigram) }
    ensures same { IfOk result (λ found. IfSome found (λ e. e.trigram ≡ trigram)) }
    ensures store { KeepsStore S.model S.size S.failed store.old store.new result }
{
    let mut low = 0;
    let mut high = (starts.trailer - starts.list_index) / ENTRY_LEN;
    'halves: while low < high {
        let middle = low + (high - low) / 2;
        let entry = read_entry(store, starts.list_index + ENTRY_LEN * middle)?;
        if entry.trigram == trigram {
            return Ok(Some(entry));
        }
        if entry.trigram < trigram {
            low = middle + 1;
        } else {
            high = middle;
        }
    }
    Ok(None)
}

/// Whether the numbers are the offsets of `count` strings, the first at `start`, and one more
/// number. No NUL is searched for: offsets that ascend, each after a NUL, are those of all strings
/// if there are as many.
pub(crate) fn has_offsets(numbers: &[u8], names: &[u8], start: usize, count: usize) -> bool
    requires names { is_section [] names.now ≡ true }
    requires count { count ≡ length (texts_of names.now) }
    requires fits { start + length names.now < 2 ^ 64 }
    ensures { result ≡ has_starts numbers.now 0 start (texts_of names.now) }
{
    let Some(end) = numbers.len().checked_sub(4) else {
        return false;
    };
    if end % 4 != 0 || end / 4 != count {
        return false;
    }
    if end == 0 {
        return true;
    }
    if read_number(numbers, 0) as usize != start {
        return false;
    }
    let mut from = 0;
    let mut at = 0;
    'names: while at + 4 < end {
        at += 4;
        let to = (read_number(numbers, at) as usize).saturating_sub(start);
        if !begins_later(names, from, to) {
            return false;
        }
        from = to;
    }
    from < names.len()
}

/// Whether the list index is entries of ascending trigrams that fit a section of `room` bytes.
pub(crate) fn has_entries(list_index: &[u8], room: usize) -> bool
    ensures { result ≡ is_list_index room list_index.now }
{
    list_index.len() % ENTRY_LEN == 0 && test_entries(list_index, 0, room).is_some()
}

/// The least trigram after some entries, if their trigrams are strictly ascending from `least` on
/// and each entry fits a section of `room` bytes.
pub(crate) fn test_entries(entries: &[u8], least: usize, room: usize) -> Option<usize>
    ensures some { IfSome result (λ next. (more : List ListEntry) →
        are_entries room least (entries_in entries.now ++ more) ≡ are_entries room next more) }
    ensures none { IfNone result ((more : List ListEntry) →
        are_entries room least (entries_in entries.now ++ more) ≡ false) }
{
    let count = entries.len() / ENTRY_LEN;
    if count == 0 {
        return Some(least);
    }
    if (entry_trigram(entries, 0) as usize) < least {
        return None;
    }
    let mut disorder = 0;
    let mut largest = read_number(entries, 7);
    // (No branch, so that the compiler makes vectors.)
    for at in 1..count {
        let before = entry_trigram(entries, ENTRY_LEN * (at - 1));
        let trigram = entry_trigram(entries, ENTRY_LEN * at);
        disorder = disorder.max(u32::from(trigram <= before));
        largest = largest.max(read_number(entries, ENTRY_LEN * at + 7));
    }
    if disorder != 0 || largest as usize + 4 > room {
        return None;
    }
    // Trigrams ascend, so only the last one may be the greatest of all.
    let last = ENTRY_LEN * (count - 1);
    let trigram = entry_trigram(entries, last);
    if trigram == 0xffffff && read_number(entries, last + 3) != 0 {
        return None;
    }
    Some(trigram as usize + 1)
}

/// The entry at a position of a list index.
pub(crate) fn nth_entry(list_index: &[u8], position: u32) -> Option<Entry>
    ensures { option_map entry_read result ≡ slice_get (entries_in list_index.now) position }
{
    if position as usize >= list_index.len() / ENTRY_LEN {
        return None;
    }
    Some(entry_in(list_index, ENTRY_LEN * position as usize))
}

/// The entry of a trigram in a list index.
pub(crate) fn entry_with(list_index: &[u8], trigram: u32) -> Option<Entry>
    requires { rises (entries_in list_index.now) ≡ true }
    ensures { option_map entry_read result ≡ entry_of (entries_in list_index.now) trigram }
{
    let (entries, _) = list_index.as_chunks::<ENTRY_LEN>();
    match entries.binary_search_by_key(&trigram, |entry| read_trigram(entry, 0)) {
        Ok(position) => Some(entry_in(&entries[position], 0)),
        Err(_) => None,
    }
}

/// Whether a string may begin at an offset after `from`: the byte before it is a NUL.
fn begins_later(names: &[u8], from: usize, to: usize) -> bool
    ensures yes { IsTrue result →
        (from < to) × (to ≤ length names.now) × (slice_index names.now (to - 1) ≡ 0) }
    ensures no { result ≡ false → from < to → to ≤ length names.now →
        slice_index names.now (to - 1) ≢ 0 }
{
    from < to && to <= names.len() && names[to - 1] == 0
}

/// The trigram of the entry at an offset: four bytes are read at once.
#[tactic(auto, unfolding(crate::specs::Opening::number_at, crate::specs::Opening::trigram_at))]
fn entry_trigram(list_index: &[u8], at: usize) -> u32
    requires { at + ENTRY_LEN ≤ length list_index.now }
    ensures value { result ≡ trigram_at list_index.now at }
    ensures bound { result ≤ 0xffffff }
{
    read_number(list_index, at) / 256
}

/// Reads the entry at an offset.
fn read_entry<S: Store>(store: &mut S, at: usize) -> Result<Entry, IoFault>
    requires { at + ENTRY_LEN < 2 ^ 64 }
    ensures entry { (bytes : List ℕ) → S.model store.old ≡ Some bytes → at + ENTRY_LEN ≤ length bytes →
        IfOk result (λ entry. entry_read entry ≡ entry_at bytes at) }
    ensures store { KeepsStore S.model S.size S.failed store.old store.new result }
{
    let mut bytes = [0u8; ENTRY_LEN];
    fill_at(store, &mut bytes, at)?;
    Ok(entry_in(&bytes, 0))
}

/// The entry at an offset of a list index.
fn entry_in(list_index: &[u8], at: usize) -> Entry
    requires { at + ENTRY_LEN ≤ length list_index.now }
    ensures { entry_read result ≡ entry_at list_index.now at }
{
    Entry {
        trigram: read_trigram(list_index, at),
        count: read_number(list_index, at + 3),
        offset: read_number(list_index, at + 7),
    }
}
