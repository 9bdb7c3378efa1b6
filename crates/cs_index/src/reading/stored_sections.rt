// The sections of an index in a store, which are tested piece by piece.
ghost use Rattle.std.specs.Prelude.{◌≡◌, ◌≤◌, ◌<◌, ◌^◌, ◌+◌, ◌*◌, ◌-◌, ◌∷◌, ◌++◌, [], ℕ, List, Some, length, IfOk, IfSome, IfNone, true, false};
ghost use Rattle.cs_index.specs.Cited.{KeepsStore, part_of, is_list_index, is_section, AreNamesTested, ArePathsRead, AreAscendingOffsets};

use crate::reading::bytes::{first_texts, is_closed, is_ending};
use crate::reading::entries::{ENTRY_LEN, has_offsets, test_entries};
use crate::reading::section_offsets::SectionOffsets;
use crate::reading::window::Window;
use cs_tree::{IoFault, Store, read_part};
use std::alloc::{AllocError, Global};

/// The most bytes of a piece of the list index: as many as entries of 64 KiB have.
const ENTRIES_LEN: usize = 5957 * ENTRY_LEN;

/// What the test of names found: their number, and whether the name index has their offsets.
#[derive(Clone, Copy, Drop)]
pub(crate) struct NameTest {
    pub(crate) count: usize,
    pub(crate) have_offsets: bool,
}

/// The section of paths; each piece is kept after its test. `None` if the section is not valid.
pub(crate) fn read_paths<S: Store>(
    alloc: Global,
    store: &mut S,
    starts: &SectionOffsets,
) -> Result<Option<Vec<u8>>, IoFault>
    requires { AreAscendingOffsets starts.now }
    ensures paths { (bytes : List ℕ) → S.model store.old ≡ Some bytes → starts.now.trailer ≤ length bytes →
        IfOk result (ArePathsRead (part_of bytes starts.now.paths (starts.now.names - starts.now.paths))) }
    ensures closed { IfOk result (λ found. IfSome found (λ paths. is_section (0 ∷ []) paths.items ≡ true)) }
    ensures store { KeepsStore S.model S.size S.failed store.old store.new result }
{
    let mut paths = Vec::new(alloc);
    let mut window = Window::new(alloc, starts.paths);
    let mut used = 0;
    'pieces: while window.read_on(store, used, starts.names)? {
        let Some(run) = first_texts(&window.piece) else {
            return Ok(None);
        };
        paths.extend_from_slice(&window.piece[..run.len])?;
        used = run.len;
    }
    Ok(with_last_piece(paths, &window.piece)?)
}

/// The paths with the last piece of their section; `None` if this is not strings and one final NUL.
fn with_last_piece(mut paths: Vec<u8>, piece: &[u8]) -> Result<Option<Vec<u8>>, AllocError>
    ensures paths { IfOk result (λ found. IfSome found (λ all. all.items ≡ paths.items ++ piece.now)) }
    ensures closed { IfOk result (λ found. IfSome found (λ _. is_section (0 ∷ []) piece.now ≡ true)) }
    ensures none { IfOk result (λ found. IfNone found (is_section (0 ∷ []) piece.now ≡ false)) }
{
    if !is_closed(piece) {
        return Ok(None);
    }
    paths.extend_from_slice(piece)?;
    Ok(Some(paths))
}

/// Tests the names, and whether the name index has the offset of each; `None` if the names are not
/// valid.
pub(crate) fn test_names<S: Store>(
    alloc: Global,
    store: &mut S,
    starts: &SectionOffsets,
) -> Result<Option<NameTest>, IoFault>
    requires { AreAscendingOffsets starts.now }
    ensures names { (bytes : List ℕ) → S.model store.old ≡ Some bytes → starts.now.trailer ≤ length bytes →
        IfOk result (AreNamesTested (part_of bytes starts.now.names (starts.now.postings - starts.now.names))
        (part_of bytes starts.now.name_index (starts.now.list_index - starts.now.name_index))) }
    ensures few { IfOk result (λ found. IfSome found (λ test. test.have_offsets ≡ true →
        starts.now.list_index - starts.now.name_index ≡ 4 * (test.count + 1))) }
    ensures store { KeepsStore S.model S.size S.failed store.old store.new result }
{
    let mut window = Window::new(alloc, starts.names);
    let mut used = 0;
    let mut count = 0;
    let mut have_offsets = true;
    let mut more = true;
    'pieces: while more {
        more = window.read_on(store, used, starts.postings)?;
        let Some(run) = first_texts(&window.piece) else {
            return Ok(None);
        };
        let numbers = read_numbers(alloc, store, starts, count, run.count)?;
        let start = window.start - starts.names;
        have_offsets &= has_offsets(&numbers, &window.piece[..run.len], start, run.count);
        count += run.count;
        used = run.len;
    }
    if !is_ending(&window.piece[used..]) {
        return Ok(None);
    }
    have_offsets &= starts.list_index - starts.name_index == 4 * (count + 1);
    Ok(Some(NameTest {
        count,
        have_offsets,
    }))
}

/// The offsets of `count` names after the first `done`, and one more number, as far as the name
/// index has them.
fn read_numbers<S: Store>(
    alloc: Global,
    store: &mut S,
    starts: &SectionOffsets,
    done: usize,
    count: usize,
) -> Result<Vec<u8>, IoFault>
    requires order { AreAscendingOffsets starts.now }
    requires fits { done + count < 2 ^ 33 }
    ensures numbers { (bytes : List ℕ) → S.model store.old ≡ Some bytes →
        IfOk result (λ numbers. numbers.items ≡ part_of
        (part_of bytes starts.now.name_index (starts.now.list_index - starts.now.name_index)) (4 * done)
        (4 * (count + 1))) }
    ensures store { KeepsStore S.model S.size S.failed store.old store.new result }
{
    let room = (starts.list_index - starts.name_index).saturating_sub(4 * done);
    read_part(
        alloc,
        store,
        starts.name_index + 4 * done,
        room.min(4 * (count + 1)),
    )
}

/// Whether the list index is entries of ascending trigrams that fit the section of posting lists.
pub(crate) fn has_stored_entries<S: Store>(
    alloc: Global,
    store: &mut S,
    starts: &SectionOffsets,
) -> Result<bool, IoFault>
    requires { AreAscendingOffsets starts.now }
    ensures entries { (bytes : List ℕ) → S.model store.old ≡ Some bytes → starts.now.trailer ≤ length bytes →
        IfOk result (λ has. has ≡ is_list_index (starts.now.name_index - starts.now.postings)
        (part_of bytes starts.now.list_index (starts.now.trailer - starts.now.list_index))) }
    ensures store { KeepsStore S.model S.size S.failed store.old store.new result }
{
    let room = starts.name_index - starts.postings;
    let mut window = Window::new(alloc, starts.list_index);
    let mut at = starts.list_index;
    let mut least = 0;
    if (starts.trailer - at) % ENTRY_LEN != 0 {
        return Ok(false);
    }
    'pieces: while at < starts.trailer {
        let len = (starts.trailer - at).min(ENTRIES_LEN);
        window.read(store, at, len)?;
        // (A store that has changed may end here.)
        if window.piece.len() < len {
            return Ok(false);
        }
        let Some(next) = test_entries(&window.piece, least, room) else {
            return Ok(false);
        };
        least = next;
        at += len;
    }
    Ok(true)
}
