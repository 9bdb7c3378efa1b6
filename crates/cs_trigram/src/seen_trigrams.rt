// The set of the trigrams of a file: a bitmap of all 2^24 numbers, and the list of the members,
// like `sparse.Set` in Go's codesearch, with a bitmap in place of the sparse array. A direct-mapped
// cache keeps 6-grams, so that repeated text is not looked up in the bitmap again.
ghost use Rattle.std.specs.Prelude.{◌≡◌, ◌+◌, ◌*◌, ◌-◌, ◌<◌, ◌≤◌, ◌^◌, ℕ, List, [], ◌∷◌, ◌++◌, length, vec_len, IfOk, IsTrue, ◌↔◌, nat_lt, take, drop};
ghost use Rattle.cs_trigram.specs.Trigram.{set_of_numbers, trigram_sequence};
ghost use Rattle.cs_trigram.specs.TrigramSets.{trigram_count};
ghost use Rattle.cs_trigram.specs.TrigramBitmap.{IsBitmapOf, CollectsOn};
ghost use Rattle.cs_trigram.specs.declared.seen_trigrams.TheConstants.{WITH_TWO};
ghost use Rattle.cs_trigram.specs.Sixgrams.{sixgram_trigrams, trigrams_of_sixgrams, file_of, CachesOnly, HasNoLaterFile, AreMisses, IsEmptyCache};

use crate::queries::trigram;
use std::alloc::{AllocError, Global};

/// The trigrams of the bytes so far. The bits of `bitmap` and the first `len` numbers of `list` are
/// the same set, the list in the order of first occurrence. If there are more trigrams than the
/// limit, the set says so and its members are unspecified.
#[derive(Drop)]
pub(crate) struct SeenTrigrams {
    bitmap: Vec<u64>,
    list: Vec<u32>,
    len: usize,
    sixgrams: SixgramCache,
    ghost all_numbers: { vec_len bitmap ≡ 262144 },
    ghost room: { WITH_TWO ≤ vec_len list },
    ghost within: { len ≤ vec_len list },
    ghost fits: { vec_len list < 2 ^ 33 },
}

impl SeenTrigrams {
    ghost use Rattle.cs_trigram.specs.SeenTrigrams.{HasSeen, HasSeenBytes, SeesMore, IsSound, numbers_of};

    /// An empty set, with room for `most` trigrams.
    pub(crate) fn new(alloc: Global, most: usize) -> Result<SeenTrigrams, AllocError>
        requires { most < 2 ^ 32 }
        ensures { IfOk result (λ found. HasSeenBytes most found []) }
    {
        Ok(SeenTrigrams {
            bitmap: zero_bitmap(alloc, 262_144)?,
            list: vec![in alloc; 0u32; most + WITH_TWO]?,
            len: 0,
            sixgrams: SixgramCache::new(alloc)?,
        })
    }

    /// Adds the trigrams of a block, given with the two bytes before it.
    pub(crate) fn add_block(&mut self, bytes: &[u8])
        requires { length bytes.now ≤ WITH_TWO }
        ensures { SeesMore self.old self.new (trigram_sequence bytes.now) }
    {
        if self.is_over_limit() {
            return;
        }
        let split = self.sixgrams.split(bytes);
        let misses = self.sixgrams.misses(split.count);
        let rest = &bytes[split.offset..];
        self.len = insert_split(&mut self.bitmap, &mut self.list, self.len, misses, rest);
    }

    /// Whether there are more trigrams than the limit.
    pub(crate) fn is_over_limit(&self) -> bool
        ensures over { (most : ℕ) (trigrams : List ℕ) → HasSeen most self.now trigrams →
            IsTrue result ↔ (most < length (set_of_numbers trigrams)) }
        ensures room { result ≡ nat_lt (length self.now.list.items) (self.now.len + WITH_TWO) }
    {
        self.list.len() < self.len + WITH_TWO
    }

    /// The trigrams in the order of first occurrence, if they are within the limit.
    pub(crate) fn numbers(&self) -> &[u32]
        ensures { result.now ≡ numbers_of self.now }
    {
        &self.list[..self.len]
    }

    /// Empties the set, in time linear in its size.
    pub(crate) fn clear(&mut self)
        requires { IsSound self.old }
        ensures { (most : ℕ) → length self.old.list.items ≡ most + WITH_TWO →
            HasSeenBytes most self.new [] }
    {
        clear_bits(&mut self.bitmap, &self.list[..self.len]);
        self.len = 0;
        self.sixgrams.next_file();
    }
}

/// The number of 6-grams that were not cached, and the offset of the first trigram that is in none
/// of the 6-grams.
#[derive(Clone, Copy)]
pub(crate) struct Split {
    pub(crate) count: usize,
    pub(crate) offset: usize,
}

/// The cache. A slot has a 6-gram and the number of its file, so that a new file invalidates all
/// slots at once.
#[derive(Drop)]
pub(crate) struct SixgramCache {
    tags: Vec<u64>,
    misses: Vec<u64>,
    file: u64,
    ghost slots: { vec_len tags ≡ 4096 },
    ghost room: { vec_len misses ≡ 16384 },
    ghost first: { 0 < file },
    ghost last: { file < 65536 },
}

impl SixgramCache {
    /// An empty cache, for the first file.
    pub(crate) fn new(alloc: Global) -> Result<SixgramCache, AllocError>
        ensures { IfOk result (λ sixgrams. IsEmptyCache sixgrams.file sixgrams.tags.items) }
    {
        Ok(SixgramCache {
            tags: empty_slots(alloc, 4096)?,
            misses: vec![in alloc; 0u64; 16_384]?,
            file: 1,
        })
    }

    /// Splits bytes of the file into 6-grams that were cached, misses, and the bytes at the end.
    pub(crate) fn split(&mut self, bytes: &[u8]) -> Split
        requires { length bytes.now ≤ WITH_TWO }
        ensures misses { (earlier : List ℕ) → CachesOnly self.old.file self.old.tags.items earlier →
            AreMisses self.old.file earlier self.new.tags.items bytes.now result.offset
            (take result.count self.new.misses.items) }
        ensures file { self.new.file ≡ self.old.file }
        ensures last { HasNoLaterFile self.old.file self.old.tags.items →
            HasNoLaterFile self.old.file self.new.tags.items }
        ensures counted { 4 * result.count ≤ result.offset }
        ensures within { result.offset ≤ length bytes.now }
    {
        split_bytes(&mut self.tags, &mut self.misses, self.file, bytes)
    }

    /// The first `count` misses of the last `split`.
    pub(crate) fn misses(&self, count: usize) -> &[u64]
        requires { count ≤ 16384 }
        ensures { result.now ≡ take count self.now.misses.items }
    {
        &self.misses[..count]
    }

    /// Starts the next file.
    pub(crate) fn next_file(&mut self)
        requires { HasNoLaterFile self.old.file self.old.tags.items }
        ensures { IsEmptyCache self.new.file self.new.tags.items }
    {
        let mut last = self.file;
        if last == 65_535 {
            clear_slots(&mut self.tags);
            last = 0;
        }
        self.file = last + 1;
    }
}

/// The most bytes of a read.
pub(crate) const BLOCK: usize = 65_536;

/// A block and the two bytes before it.
const WITH_TWO: usize = BLOCK + 2;

/// Inserts a number, and returns the new length of the list. To avoid a branch, the number is
/// always written after the list, and counted only if its bit was clear.
#[inline(always)]
fn insert(bitmap: &mut [u64], list: &mut [u32], len: usize, number: u32) -> usize
    requires bitmap { length bitmap.old ≡ 262144 }
    requires room { len < length list.old }
    requires number { number < trigram_count }
    ensures collects { CollectsOn bitmap.old list.old len bitmap.new list.new result (number ∷ []) }
    ensures counted { result ≤ len + 1 }
{
    let index = (number / 64) as usize;
    let old_bits = bitmap[index];
    let with = old_bits | (1u64 << (number % 64));
    bitmap[index] = with;
    list[len] = number;
    len + (old_bits != with) as usize
}

/// Inserts the four trigrams of a 6-gram.
#[inline(always)]
fn insert_sixgram(bitmap: &mut [u64], list: &mut [u32], len: usize, sixgram: u64) -> usize
    requires bitmap { length bitmap.old ≡ 262144 }
    requires room { len + 4 ≤ length list.old }
    ensures collects { CollectsOn bitmap.old list.old len bitmap.new list.new result
        (sixgram_trigrams sixgram) }
    ensures counted { result ≤ len + 4 }
{
    let mut len = len;
    len = insert(bitmap, list, len, ((sixgram >> 24) % 0x100_0000) as u32);
    len = insert(bitmap, list, len, ((sixgram >> 16) % 0x100_0000) as u32);
    len = insert(bitmap, list, len, ((sixgram >> 8) % 0x100_0000) as u32);
    insert(bitmap, list, len, (sixgram % 0x100_0000) as u32)
}

/// Inserts the trigrams of some 6-grams.
fn insert_sixgrams(bitmap: &mut [u64], list: &mut [u32], len: usize, sixgrams: &[u64]) -> usize
    requires bitmap { length bitmap.old ≡ 262144 }
    requires room { len + 4 * length sixgrams.now ≤ length list.old }
    ensures collects { CollectsOn bitmap.old list.old len bitmap.new list.new result
        (trigrams_of_sixgrams sixgrams.now) }
    ensures counted { result ≤ len + 4 * length sixgrams.now }
{
    let mut len = len;
    for sixgram in sixgrams {
        len = insert_sixgram(bitmap, list, len, *sixgram);
    }
    len
}

/// Inserts the trigrams of some bytes, from left to right.
fn insert_trigrams(bitmap: &mut [u64], list: &mut [u32], len: usize, bytes: &[u8]) -> usize
    requires bitmap { length bitmap.old ≡ 262144 }
    requires room { len + length bytes.now ≤ length list.old }
    ensures collects { CollectsOn bitmap.old list.old len bitmap.new list.new result
        (trigram_sequence bytes.now) }
    ensures counted { result ≤ len + length bytes.now }
{
    let mut len = len;
    let mut offset = 0;
    'trigrams: while bytes.len() - offset > 2 {
        len = insert(
            bitmap,
            list,
            len,
            trigram(bytes[offset], bytes[offset + 1], bytes[offset + 2]),
        );
        offset += 1;
    }
    len
}

/// Inserts the trigrams of some 6-grams, and then those of some bytes.
fn insert_split(
    bitmap: &mut [u64],
    list: &mut [u32],
    len: usize,
    sixgrams: &[u64],
    bytes: &[u8],
) -> usize
    requires bitmap { length bitmap.old ≡ 262144 }
    requires room { len + 4 * length sixgrams.now + length bytes.now ≤ length list.old }
    ensures collects { CollectsOn bitmap.old list.old len bitmap.new list.new result
        (trigrams_of_sixgrams sixgrams.now ++ trigram_sequence bytes.now) }
    ensures counted { result ≤ length list.old }
{
    let len = insert_sixgrams(bitmap, list, len, sixgrams);
    insert_trigrams(bitmap, list, len, bytes)
}

/// A bitmap with no bit set.
fn zero_bitmap(alloc: Global, count: usize) -> Result<Vec<u64>, AllocError>
    ensures { IfOk result (λ bitmap. (length bitmap.items ≡ count) × IsBitmapOf bitmap.items []) }
{
    Ok(vec![in alloc; 0u64; count]?)
}

/// Clears the bits of these numbers, which are all that are set.
fn clear_bits(bitmap: &mut [u64], numbers: &[u32])
    requires { IsBitmapOf bitmap.old numbers.now }
    ensures { IsBitmapOf bitmap.new [] }
{
    for number in numbers {
        bitmap[(*number / 64) as usize] = 0;
    }
}

/// The 6-gram at an offset, as a number of 48 bits.
#[inline(always)]
fn sixgram_at(bytes: &[u8], offset: usize) -> u64
    requires { offset + 6 ≤ length bytes.now }
    ensures trigrams { sixgram_trigrams result ≡ trigram_sequence (take 6 (drop offset bytes.now)) }
    ensures small { result < 2 ^ 48 }
{
    // Two loads of neighbouring bytes.
    let high = u32::from_be_bytes([
        bytes[offset],
        bytes[offset + 1],
        bytes[offset + 2],
        bytes[offset + 3],
    ]);
    let low = u16::from_be_bytes([bytes[offset + 4], bytes[offset + 5]]);
    u64::from(high) * 65_536 + u64::from(low)
}

/// The slot of a 6-gram: the top bits of a multiplicative hash.
#[inline(always)]
fn slot_of(sixgram: u64) -> usize
    ensures { result < 4096 }
{
    (sixgram.wrapping_mul(0x9e37_79b9_7f4a_7c15) >> 52) as usize
}

/// Caches a 6-gram, and returns the new number of misses. To avoid a branch, the 6-gram is always
/// written after the first `count` misses, and counted only if it was not cached.
#[inline(always)]
fn cache_sixgram(tags: &mut [u64], misses: &mut [u64], count: usize, sixgram: u64) -> usize
    requires tags { length tags.old ≡ 4096 }
    requires room { count < length misses.old }
    ensures misses { (file : ℕ) (earlier bytes : List ℕ) (offset : ℕ) → file_of sixgram ≡ file →
        sixgram_trigrams sixgram ≡ trigram_sequence (take 6 (drop offset bytes)) → offset + 6 ≤ length bytes →
        AreMisses file earlier tags.old bytes offset (take count misses.old) →
        AreMisses file earlier tags.new bytes (offset + 4) (take result misses.new) }
    ensures last { HasNoLaterFile (file_of sixgram) tags.old → HasNoLaterFile (file_of sixgram) tags.new }
    ensures counted { result ≤ count + 1 }
{
    let slot = slot_of(sixgram);
    let was = tags[slot];
    tags[slot] = sixgram;
    misses[count] = sixgram;
    count + (was != sixgram) as usize
}

/// Looks up and caches the 6-gram at every fourth byte, and collects those that were not cached. A
/// 6-gram has four trigrams, so every trigram before the returned offset is in one of them.
fn split_bytes(tags: &mut [u64], misses: &mut [u64], file: u64, bytes: &[u8]) -> Split
    requires tags { length tags.old ≡ 4096 }
    requires room { length bytes.now ≤ 4 * length misses.old + 2 }
    requires file { file < 65536 }
    ensures misses { (earlier : List ℕ) → CachesOnly file tags.old earlier →
        AreMisses file earlier tags.new bytes.now result.offset (take result.count misses.new) }
    ensures last { HasNoLaterFile file tags.old → HasNoLaterFile file tags.new }
    ensures counted { 4 * result.count ≤ result.offset }
    ensures within { result.offset ≤ length bytes.now }
{
    let epoch = file << 48;
    let mut count = 0;
    let mut offset = 0;
    'sixgrams: while bytes.len() - offset >= 6 {
        count = cache_sixgram(tags, misses, count, epoch + sixgram_at(bytes, offset));
        offset += 4;
    }
    Split { count, offset }
}

/// Slots without a 6-gram.
fn empty_slots(alloc: Global, count: usize) -> Result<Vec<u64>, AllocError>
    ensures { IfOk result (λ tags. (length tags.items ≡ count) × HasNoLaterFile 0 tags.items) }
{
    Ok(vec![in alloc; 0u64; count]?)
}

/// Clears all slots.
fn clear_slots(tags: &mut [u64])
    ensures { HasNoLaterFile 0 tags.new }
{
    tags.fill(0);
}
