// The offsets of the sections of an index, in a store or in memory.
ghost use Rattle.std.specs.Prelude.{◌≡◌, ◌+◌, ◌-◌, ◌≤◌, ◌<◌, ◌^◌, List, ℕ, length, IfOk, IfErr, IfSome, IsTrue};
ghost use Rattle.cs_index.specs.Cited.{KeepsStore, AreBytes, part_of, are_section_offsets, AreDisorderedOffsets, AreTrailerOffsets, AreAscendingOffsets, IsSplitAt, is_tail};

use crate::fault::IndexFault;
use crate::format::{MAGIC, TRAILER_LEN, TRAILER_MAGIC};
use crate::reading::bytes::read_number;
use cs_tree::{IoFault, Store, read_part};
use std::alloc::Global;

/// The offset of each section and of the trailer.
#[derive(Clone, Copy, Drop)]
pub(crate) struct SectionOffsets {
    pub(crate) paths: usize,
    pub(crate) names: usize,
    pub(crate) postings: usize,
    pub(crate) name_index: usize,
    pub(crate) list_index: usize,
    pub(crate) trailer: usize,
}

/// Reads the section offsets from the first 16 and the last 36 bytes.
pub(crate) fn find_offsets<S: Store>(
    alloc: Global,
    store: &mut S,
) -> Result<Result<SectionOffsets, IndexFault>, IoFault>
    ensures slices { IfSome (S.model store.old) (λ bytes. IfOk result (IsSplitAt bytes)) }
    ensures order { IfOk result (λ answer. IfOk answer AreAscendingOffsets) }
    ensures bytes { IfOk result (λ _. IfSome (S.model store.old) AreBytes) }
    ensures store { KeepsStore S.model S.size S.failed store.old store.new result }
{
    let header = read_part(alloc, store, 0, MAGIC.len())?;
    let len = store.len();
    let tail = read_part(alloc, store, len.saturating_sub(TRAILER_LEN), TRAILER_LEN)?;
    Ok(offsets_of(&header, &tail, len))
}

/// The section offsets of the bytes of an index.
pub(crate) fn offsets_in_bytes(bytes: &[u8]) -> Result<SectionOffsets, IndexFault>
    ensures slices { IsSplitAt bytes.now result }
    ensures order { IfOk result AreAscendingOffsets }
    ensures within { IfOk result (λ s. s.trailer ≤ length bytes.now) }
{
    let len = bytes.len();
    let header = &bytes[..len.min(MAGIC.len())];
    let tail = &bytes[len.saturating_sub(TRAILER_LEN)..];
    offsets_of(header, tail, len)
}

/// The section offsets of an index of `len` bytes, by its first and last bytes.
fn offsets_of(header: &[u8], tail: &[u8], len: usize) -> Result<SectionOffsets, IndexFault>
    ensures slices { (bytes : List ℕ) → length bytes ≡ len → header.now ≡ part_of bytes 0 16 →
        tail.now ≡ part_of bytes (len - TRAILER_LEN) TRAILER_LEN → IsSplitAt bytes result }
    ensures order { IfOk result AreAscendingOffsets }
    ensures within { IfOk result (λ s. s.trailer ≤ len) }
{
    if !header.starts_with(MAGIC) {
        return Err(IndexFault::BadMagic);
    }
    if !is_trailer(tail, len) {
        return Err(IndexFault::BadTrailer);
    }
    offsets_in(tail, len - TRAILER_LEN)
}

/// Whether the length is allowed and the last bytes are a trailer.
fn is_trailer(tail: &[u8], len: usize) -> bool
    ensures value { result ≡ is_tail tail.now len }
    ensures enough { IsTrue result → 52 ≤ len }
    ensures short { IsTrue result → len < 2 ^ 32 }
    ensures long { IsTrue result → TRAILER_LEN ≤ length tail.now }
{
    len >= 52 && len < 1 << 32 && tail.len() >= TRAILER_LEN && tail.ends_with(TRAILER_MAGIC)
}

/// The section offsets in a trailer that begins at `at`.
fn offsets_in(trailer: &[u8], at: usize) -> Result<SectionOffsets, IndexFault>
    requires { 20 ≤ length trailer.now }
    ensures offsets { IfOk result (AreTrailerOffsets trailer.now at) }
    ensures fault { IfErr result (AreDisorderedOffsets trailer.now at) }
{
    let paths = read_number(trailer, 0) as usize;
    let names = read_number(trailer, 4) as usize;
    let postings = read_number(trailer, 8) as usize;
    let name_index = read_number(trailer, 12) as usize;
    let list_index = read_number(trailer, 16) as usize;
    if !rise(paths, names, postings, name_index, list_index, at) {
        return Err(IndexFault::BadOffsets);
    }
    Ok(SectionOffsets {
        paths,
        names,
        postings,
        name_index,
        list_index,
        trailer: at,
    })
}

/// Whether the section offsets are ascending, from 16 to the trailer.
fn rise(a: usize, b: usize, c: usize, d: usize, e: usize, trailer: usize) -> bool
    ensures value { result ≡ are_section_offsets a b c d e trailer }
    ensures rise { IsTrue result → (a ≤ b) × (b ≤ c) × (c ≤ d) × (d ≤ e) × (e ≤ trailer) }
{
    a == 16 && a <= b && b <= c && c <= d && d <= e && e <= trailer
}
