// Probes: tests of 64 offsets at once, by vectors of 32 bytes. The two kinds are pairs of bytes
// (the packed pairs of memchr's memmem), two rare bytes of a word, compared at their distance; and
// nibble masks (shufti) with a bit for each bucket of class trigrams (Teddy).
ghost use Rattle.std.specs.Prelude.{◌≡◌, ◌+◌, ◌≤◌, ℕ, IsTrue, length, ◌≢◌, ◌↔◌, ◌/◌, ◌%◌, slice_index, bit_and, bit_or, IfSome, ◌<◌, true};
ghost use Rattle.std.specs.Int.{bit_at};
ghost use Rattle.cs_prefilter.specs.declared.word.Word.{Word};
ghost use Rattle.cs_prefilter.specs.Probe.{MarksLanes, MarksBits, MarksBuckets, NoneFrom};
ghost use Rattle.cs_prefilter.specs.Lanes.{HasLanes, full_if_equal};
ghost use Rattle.cs_prefilter.specs.ByteTest.{IsTestOf, used_mask};
ghost use Rattle.cs_syntax.specs.Matching.{member};
ghost use Rattle.cs_prefilter.specs.OffsetWork.{most_words};
ghost use Rattle.cs_prefilter.specs.Buckets.{buckets, looked_up, IsInBucket, KeepsByteBuckets, KeepsBuckets, HasBucket};
ghost use Rattle.cs_prefilter.specs.WordBuckets.{AreFound};

use crate::comparing::{BUCKETS, bucket_of};
use crate::rarity::{MOST_SETS, NIBBLE_FREQUENCIES, rarest_pair};
use crate::word::Word;
use cs_syntax::ByteSet;
use std::simd::prelude::*;

/// The number of offsets that are decided at once.
pub(crate) const STRIDE: usize = 64;

/// At least this many bytes are left where offsets are decided at once: the last offset, and the
/// word there.
pub(crate) const REACH: usize = 96;

/// A test that each offset at which a word occurs passes, and few others. Words are in buckets, one
/// of 8 each.
pub(crate) trait Probe {
    /// The probe finds the word in this bucket.
    ghost Finds: { Self → ℕ → Word → Type 0 };

    /// For the next 32 offsets, a value that is not 0 if the offset passes.
    fn lanes(&self, text: &[u8], offset: usize) -> u8x32
        requires { offset + 64 ≤ length text.now }
        ensures { MarksLanes (Finds self.now) text.now offset result };

    /// The buckets of the words that may occur at the offset, a bit for each.
    fn buckets(&self, text: &[u8], offset: usize) -> u8
        requires { offset + 8 ≤ length text.now }
        ensures { MarksBuckets (Finds self.now) text.now offset result };
}

/// The bit in which the two cases of a letter differ.
const CASE: u8 = 0x20;

/// A byte passes the test if it is `byte` once the bits of `mask` are set.
#[derive(Clone, Copy, Drop)]
pub(crate) struct ByteTest {
    pub(crate) mask: u8,
    pub(crate) byte: u8,
}

impl ByteTest {
    /// The test that the members of the set pass, and no other byte, if there is one.
    pub(crate) fn of(set: &ByteSet) -> Option<ByteTest>
        ensures { IfSome result (IsTestOf set.now) }
    {
        if let Some(byte) = set.single() {
            return Some(ByteTest { mask: 0, byte });
        }
        if set.len() != 2 {
            return None;
        }
        for byte in b'A'..=b'Z' {
            if set.contains(byte) && set.contains(byte | CASE) {
                return Some(ByteTest {
                    mask: CASE,
                    byte: byte | CASE,
                });
            }
        }
        None
    }

    /// For 32 bytes, 255 if the byte passes and 0 if not. Without FOLDED the mask is not used.
    #[inline(always)]
    pub(crate) fn lanes<const FOLDED: bool>(&self, text: &[u8], offset: usize) -> u8x32
        requires { offset + 32 ≤ length text.now }
        ensures { HasLanes result (λ k. full_if_equal
            (bit_or (slice_index text.now (offset + k)) (used_mask FOLDED self.now)) self.now.byte) }
    {
        let bytes = load(text, offset);
        if FOLDED {
            equal_to(bytes | u8x32::splat(self.mask), self.byte)
        } else {
            equal_to(bytes, self.byte)
        }
    }
}

/// Tests of two bytes of a word. They are the same test if the word has only one that can be
/// tested.
#[derive(Clone, Copy, Drop)]
pub(crate) struct Pair {
    pub(crate) first: ByteTest,
    pub(crate) first_at: usize,
    pub(crate) second: ByteTest,
    pub(crate) second_at: usize,
    ghost near: { first_at < 32 },
    ghost second_near: { second_at < 32 },
}

impl Pair {
    ghost use Rattle.cs_prefilter.specs.Pairs.{IsPairOf, HasMasks, MarksPair};

    /// The rarest pair of the word, if it is rare enough.
    pub(crate) fn of(word: &Word) -> Option<Pair>
        ensures { IfSome result (λ pair. IsPairOf pair word.now) }
    {
        let (first_at, second_at) = rarest_pair(&word.sets)?;
        if first_at >= MOST_SETS || second_at >= MOST_SETS {
            return None;
        }
        Some(Pair {
            first: ByteTest::of(word.sets.get(first_at)?)?,
            first_at,
            second: ByteTest::of(word.sets.get(second_at)?)?,
            second_at,
        })
    }

    /// Whether a test has a mask.
    pub(crate) fn is_folded(&self) -> bool
        ensures { HasMasks result self.now }
    {
        self.first.mask != 0 || self.second.mask != 0
    }

    /// For the next 32 offsets, a value that is not 0 if both tests pass.
    #[inline(always)]
    fn lanes<const FOLDED: bool>(&self, text: &[u8], offset: usize) -> u8x32
        requires { offset + 64 ≤ length text.now }
        ensures { MarksPair FOLDED self.now text.now offset result }
    {
        both(
            self.first.lanes::<FOLDED>(text, offset + self.first_at),
            self.second.lanes::<FOLDED>(text, offset + self.second_at),
        )
    }
}

/// The pair of one word, or with TWO the pairs of two words. Without FOLDED no test has a mask.
#[derive(Clone, Copy, Drop)]
pub(crate) struct Pairs<const FOLDED: bool, const TWO: bool> {
    pub(crate) first: Pair,
    pub(crate) second: Pair,
}

impl<const FOLDED: bool, const TWO: bool> Probe for Pairs<FOLDED, TWO> {
    ghost use Rattle.cs_prefilter.specs.Pairs.{HasPair};

    ghost Finds = { λ pairs bucket word. HasPair FOLDED TWO pairs.first pairs.second bucket word };

    #[inline(always)]
    fn lanes(&self, text: &[u8], offset: usize) -> u8x32 {
        let lanes = self.first.lanes::<FOLDED>(text, offset);
        if TWO {
            either(lanes, self.second.lanes::<FOLDED>(text, offset))
        } else {
            lanes
        }
    }

    #[inline(always)]
    fn buckets(&self, _text: &[u8], _offset: usize) -> u8 {
        if TWO { 0b10001 } else { 1 }
    }
}

/// The nibble masks of an offset of words: a table of buckets by the low nibble of a byte, and one
/// by the high nibble. A byte is in the buckets that both of its entries contain.
#[derive(Clone, Copy, Drop)]
pub(crate) struct NibbleMasks {
    low: [u8; 16],
    high: [u8; 16],
}

/// The masks by which no byte is in a bucket.
const NONE: NibbleMasks = NibbleMasks {
    low: [0; 16],
    high: [0; 16],
};

impl NibbleMasks {
    /// Adds the byte to the bucket.
    fn add_byte(&mut self, byte: u8, bucket: usize)
        requires { bucket < BUCKETS }
        ensures has { IsInBucket self.new byte bucket }
        ensures keeps { KeepsByteBuckets self.old self.new }
    {
        let bit = 1u8 << bucket;
        self.low[(byte % 16) as usize] |= bit;
        self.high[(byte / 16) as usize] |= bit;
    }

    /// Adds the bytes of the set to the bucket.
    fn add(&mut self, set: &ByteSet, bucket: usize)
        requires { bucket < BUCKETS }
        ensures has { (b : ℕ) → b < 256 → member set.now b ≡ true → IsInBucket self.new b bucket }
        ensures keeps { KeepsByteBuckets self.old self.new }
    {
        for byte in 0..=255u8 {
            if set.contains(byte) {
                self.add_byte(byte, bucket);
            }
        }
    }

    /// The buckets of a byte.
    #[inline(always)]
    fn of(&self, byte: u8) -> u8
        ensures { result ≡ buckets self.now byte }
    {
        self.low[(byte % 16) as usize] & self.high[(byte / 16) as usize]
    }

    /// The buckets of 32 bytes; without ALL those of their low nibbles, which are some more.
    #[inline(always)]
    fn lanes<const ALL: bool>(&self, text: &[u8], offset: usize) -> u8x32
        requires { offset + 32 ≤ length text.now }
        ensures { HasLanes result (λ k. looked_up ALL self.now (slice_index text.now (offset + k))) }
    {
        let bytes = load(text, offset);
        let low = by_low_nibble(&self.low, bytes);
        if ALL {
            both(low, by_high_nibble(&self.high, bytes))
        } else {
            low
        }
    }

    /// The frequency of the bytes that have the bucket by their low nibbles, per 10,000.
    fn low_frequency(&self, bucket: usize) -> u64
        requires { bucket < BUCKETS }
    {
        let mut sum = 0u64;
        for (i, frequency) in NIBBLE_FREQUENCIES.iter().enumerate() {
            if self.low[i] >> bucket & 1 == 1 {
                sum = sum.saturating_add(*frequency);
            }
        }
        sum
    }
}

/// The number of offsets of a word that have nibble masks.
pub(crate) const MASKED: usize = 5;

/// The nibble masks of the first offsets of words.
#[derive(Clone, Copy, Drop)]
pub(crate) struct WordMasks {
    at: [NibbleMasks; MASKED],
}

impl WordMasks {
    /// Distributes the words over the buckets by the sets that they begin with.
    pub(crate) fn of(words: &[Word]) -> WordMasks
        requires { length words.now ≤ most_words }
        ensures { AreFound (HasBucket result) words.now }
    {
        let mut word_masks = WordMasks { at: [NONE; MASKED] };
        for (i, word) in words.iter().enumerate() {
            word_masks.add(word, bucket_of(i, words.len()));
        }
        word_masks
    }

    /// Adds the sets that the word begins with to the bucket. Behind its end any byte follows.
    fn add(&mut self, word: &Word, bucket: usize)
        requires { bucket < BUCKETS }
        ensures has { HasBucket self.new bucket word.now }
        ensures keeps { KeepsBuckets self.old self.new }
    {
        for i in 0..MASKED {
            match word.sets.get(i) {
                Some(set) => self.at[i].add(set, bucket),
                None => self.at[i].add(&ByteSet::all(), bucket),
            }
        }
    }

    /// The share of offsets that so many low nibbles are expected to let pass, in units of 10^-12.
    pub(crate) fn low_share(&self, len: usize) -> u64 {
        let mut sum = 0u64;
        for bucket in 0..BUCKETS {
            let mut share = 1_000_000_000_000u64;
            for masks in self.at.iter().take(len) {
                share = share.saturating_mul(masks.low_frequency(bucket)) / 10_000;
            }
            sum = sum.saturating_add(share);
        }
        sum
    }
}

/// A probe by the nibbles of LEN bytes; without ALL a vector test by their low nibbles.
#[derive(Clone, Copy, Drop)]
pub(crate) struct Nibbles<const LEN: usize, const ALL: bool> {
    pub(crate) masks: WordMasks,
}

impl<const LEN: usize, const ALL: bool> Probe for Nibbles<LEN, ALL> {
    ghost use Rattle.cs_prefilter.specs.Buckets.{HasBucket};

    ghost Finds = { λ nibbles bucket word. HasBucket nibbles.masks bucket word };

    #[inline(always)]
    fn lanes(&self, text: &[u8], offset: usize) -> u8x32 {
        let mut lanes = self.masks.at[0].lanes::<ALL>(text, offset);
        for i in 1..LEN.min(MASKED) {
            lanes = both(lanes, self.masks.at[i].lanes::<ALL>(text, offset + i));
        }
        lanes
    }

    #[inline(always)]
    fn buckets(&self, text: &[u8], offset: usize) -> u8 {
        let mut buckets = self.masks.at[0].of(text[offset]);
        for i in 1..LEN.min(MASKED) {
            buckets &= self.masks.at[i].of(text[offset + i]);
        }
        buckets
    }
}

/// Whether none of the next 64 offsets passes.
#[inline(always)]
pub(crate) fn none_passes<P: Probe>(probe: &P, text: &[u8], offset: usize) -> bool
    requires { offset + REACH ≤ length text.now }
    ensures { IsTrue result → NoneFrom (P.Finds probe.now) text.now offset (offset + STRIDE) }
{
    nonzero(either(probe.lanes(text, offset), probe.lanes(text, offset + 32))) == 0
}

/// A bit for each of the next 64 offsets, set if it passes.
#[inline(always)]
pub(crate) fn marks<P: Probe>(probe: &P, text: &[u8], offset: usize) -> u64
    requires { offset + REACH ≤ length text.now }
    ensures { MarksBits (P.Finds probe.now) text.now offset result }
{
    nonzero(probe.lanes(text, offset)) | nonzero(probe.lanes(text, offset + 32)) << 32
}

/// The 32 bytes at the offset.
#[inline(always)]
fn load(text: &[u8], offset: usize) -> u8x32
    requires { offset + 32 ≤ length text.now }
    ensures { HasLanes result (λ k. slice_index text.now (offset + k)) }
{
    u8x32::from_slice(&text[offset..])
}

/// The bitwise and.
#[inline(always)]
fn both(a: u8x32, b: u8x32) -> u8x32
    ensures { HasLanes result (λ k. bit_and (slice_index a k) (slice_index b k)) }
{
    a & b
}

/// The bitwise or.
#[inline(always)]
fn either(a: u8x32, b: u8x32) -> u8x32
    ensures { HasLanes result (λ k. bit_or (slice_index a k) (slice_index b k)) }
{
    a | b
}

/// The entries of the table at the low nibbles of the bytes.
#[inline(always)]
fn by_low_nibble(table: &[u8; 16], bytes: u8x32) -> u8x32
    ensures { HasLanes result (λ k. slice_index table.now (slice_index bytes k % 16)) }
{
    in_each_half(table).swizzle_dyn_within::<16>(bytes & u8x32::splat(15))
}

/// The entries of the table at the high nibbles of the bytes.
#[inline(always)]
fn by_high_nibble(table: &[u8; 16], bytes: u8x32) -> u8x32
    ensures { HasLanes result (λ k. slice_index table.now (slice_index bytes k / 16)) }
{
    in_each_half(table).swizzle_dyn_within::<16>(bytes >> u8x32::splat(4))
}

/// A vector with the table in both of its 16-byte halves: a look-up stays within a half (AVX2's
/// `vpshufb`).
#[inline(always)]
fn in_each_half(table: &[u8; 16]) -> u8x32
    ensures { HasLanes result (λ k. slice_index table.now (k % 16)) }
{
    u8x16::from_array(*table).swizzle([
        0, 1, 2, 3, 4, 5, 6, 7, 8, 9, 10, 11, 12, 13, 14, 15, 0, 1, 2, 3, 4, 5, 6, 7, 8, 9, 10, 11,
        12, 13, 14, 15,
    ])
}

/// A bit for each lane, set if the lane is not 0.
#[inline(always)]
fn nonzero(v: u8x32) -> u64
    ensures { (k : ℕ) → (bit_at result k ≡ 1) ↔ (slice_index v k ≢ 0) }
{
    v.simd_ne(u8x32::splat(0)).to_bitmask()
}

/// 255 for each lane that is the byte, and 0 for the others.
#[inline(always)]
fn equal_to(v: u8x32, byte: u8) -> u8x32
    ensures { HasLanes result (λ k. full_if_equal (slice_index v k) byte) }
{
    v.simd_eq(u8x32::splat(byte))
        .select(u8x32::splat(255), u8x32::splat(0))
}
