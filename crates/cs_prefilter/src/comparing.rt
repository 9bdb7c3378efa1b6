// Lists of words in buckets, with their prefixes, and comparisons of words with the bytes at an
// offset.
ghost use Rattle.std.specs.Prelude.{◌≡◌, ◌≤◌, ◌<◌, ◌↔◌, ◌+◌, ◌*◌, ◌-◌, false, length, slice_index_or, vec_len, Any, IfOk, IsTrue, ℕ, bit_or};
ghost use Rattle.cs_prefilter.specs.declared.word.Word.{Word};
ghost use Rattle.cs_prefilter.specs.Prefixes.{HavePrefixes, IsPrefixOf, MayFollowAny, TestsByte, eight};
ghost use Rattle.cs_prefilter.specs.WordAt.{WordAt};
ghost use Rattle.cs_prefilter.specs.WordBuckets.{AreInBuckets, NoneOfBucket, bucket_work, IsInPart, StartsPart};
ghost use Rattle.cs_prefilter.specs.OffsetWork.{most_words, most_sets, word_work, candidate_work};
ghost use Rattle.cs_tree.specs.CountsAtMost.{CountsAtMost};

use crate::probe::ByteTest;
use crate::word::Word;
use cs_tree::Steps;
use std::alloc::{AllocError, Global};

/// Words, and the prefix of each.
#[derive(Drop)]
pub(crate) struct WordList {
    pub(crate) words: Vec<Word>,
    pub(crate) prefixes: Vec<Prefix>,
    ghost few: { vec_len words ≤ most_words },
    ghost prefixed: { HavePrefixes words.items prefixes.items },
}

impl WordList {
    /// The words with their prefixes.
    pub(crate) fn of(alloc: Global, words: Vec<Word>) -> Result<WordList, AllocError>
        requires { vec_len words ≤ most_words }
        ensures { IfOk result (λ list. list.words ≡ words) }
    {
        let mut prefixes = Vec::new(alloc);
        for word in &words {
            prefixes.push(Prefix::of(word))?;
        }
        Ok(WordList { words, prefixes })
    }

    /// Whether a word occurs at the offset. Only the words of some buckets are compared, those of
    /// all words that occur there among them.
    #[inline(always)]
    pub(crate) fn occur(&self, buckets: u8, text: &[u8], offset: usize, steps: &mut Steps) -> bool
        requires within { offset + 8 ≤ length text.now }
        requires buckets { AreInBuckets self.now.words.items buckets text.now offset }
        ensures found { IsTrue result ↔ Any (WordAt text.now offset) self.now.words.items }
        ensures work { CountsAtMost candidate_work steps.old steps.new }
    {
        let mut rest = buckets;
        'buckets: while rest != 0 {
            let bucket = rest.trailing_zeros() as usize;
            if self.occurs_in(bucket, text, offset, steps) {
                return true;
            }
            rest &= !(1 << bucket);
        }
        false
    }

    /// Whether a word of the bucket occurs at the offset.
    #[inline(always)]
    fn occurs_in(&self, bucket: usize, text: &[u8], offset: usize, steps: &mut Steps) -> bool
        requires bucket { bucket < BUCKETS }
        requires within { offset + 8 ≤ length text.now }
        ensures found { IsTrue result → Any (WordAt text.now offset) self.now.words.items }
        ensures none { result ≡ false → NoneOfBucket self.now.words.items bucket text.now offset }
        ensures work { CountsAtMost bucket_work steps.old steps.new }
    {
        let len = self.words.len();
        let first = first_in(bucket, len);
        let end = first_in(bucket + 1, len);
        for i in first..end {
            if self.occurs_at(i, text, offset, steps) {
                return true;
            }
        }
        false
    }

    /// Whether the word of this index occurs at the offset. Its prefix is compared first.
    #[inline(always)]
    fn occurs_at(&self, index: usize, text: &[u8], offset: usize, steps: &mut Steps) -> bool
        requires index { index < length self.now.words.items }
        requires within { offset + 8 ≤ length text.now }
        ensures found { (d : Word) →
            IsTrue result ↔ WordAt text.now offset (slice_index_or self.now.words.items index d) }
        ensures work { CountsAtMost word_work steps.old steps.new }
    {
        steps.add(1);
        let prefix = &self.prefixes[index];
        if eight_at(text, offset) | prefix.mask != prefix.bytes {
            return false;
        }
        if prefix.is_whole {
            return true;
        }
        self.words[index].occurs(text, offset, steps)
    }
}

impl Word {
    /// Whether the word occurs at the offset.
    pub(crate) fn occurs(&self, text: &[u8], offset: usize, steps: &mut Steps) -> bool
        requires { offset ≤ length text.now }
        ensures found { IsTrue result ↔ WordAt text.now offset self.now }
        ensures work { CountsAtMost most_sets steps.old steps.new }
    {
        if text.len() - offset < self.sets.len()
            || offset > 0 && !self.before.contains(text[offset - 1])
        {
            return false;
        }
        for (i, set) in self.sets.iter().enumerate() {
            steps.add(1);
            if !set.contains(text[offset + i]) {
                return false;
            }
        }
        true
    }
}

/// Where the word occurs, the next eight bytes, with the bits of the mask set, are `bytes`.
#[derive(Clone, Copy, Drop)]
pub(crate) struct Prefix {
    mask: u64,
    bytes: u64,
    /// Whether the word occurs wherever these bytes do.
    pub(crate) is_whole: bool,
}

impl Prefix {
    pub(crate) fn of(word: &Word) -> Prefix
        ensures { IsPrefixOf word.now result }
    {
        let mut mask = [255u8; 8];
        let mut bytes = [255u8; 8];
        let mut is_whole = word.sets.len() <= 8 && word.before.len() == 256;
        for index in 0..8 {
            let (test, is_exact) = byte_test(word, index);
            mask[index] = test.mask;
            bytes[index] = test.byte;
            is_whole = is_whole && is_exact;
        }
        Prefix {
            mask: u64::from_le_bytes(mask),
            bytes: u64::from_le_bytes(bytes),
            is_whole,
        }
    }
}

/// Whether one of the words occurs at the offset.
pub(crate) fn occurs(words: &[Word], text: &[u8], offset: usize, steps: &mut Steps) -> bool
    requires { offset ≤ length text.now }
    ensures found { IsTrue result ↔ Any (WordAt text.now offset) words.now }
    ensures work { CountsAtMost (length words.now * word_work) steps.old steps.new }
{
    for word in words {
        steps.add(1);
        if word.occurs(text, offset, steps) {
            return true;
        }
    }
    false
}

/// The number of buckets. Each has one bit of a byte.
pub(crate) const BUCKETS: usize = 8;

/// The bucket of a word of a list of so many words.
pub(crate) fn bucket_of(index: usize, len: usize) -> usize
    requires within { index < len }
    requires few { len ≤ most_words }
    ensures is { IsInPart len result index }
    ensures bound { result < BUCKETS }
{
    index * BUCKETS / len
}

/// The index of the first word in the bucket or after it.
#[inline(always)]
fn first_in(bucket: usize, len: usize) -> usize
    requires within { bucket ≤ BUCKETS }
    requires few { len ≤ most_words }
    ensures { StartsPart len bucket result }
{
    (bucket * len + 7) / BUCKETS
}

/// A test of the byte at this index of the word, and whether only bytes that the word may have
/// there pass it. Behind the end of the word each byte does.
fn byte_test(word: &Word, index: usize) -> (ByteTest, bool)
    ensures { TestsByte word.now index result }
{
    let any = ByteTest {
        mask: 255,
        byte: 255,
    };
    match word.sets.get(index) {
        Some(set) => match ByteTest::of(set) {
            Some(test) => (test, true),
            None => (any, false),
        },
        None => (any, true),
    }
}

/// The eight bytes at the offset.
#[inline(always)]
fn eight_at(text: &[u8], offset: usize) -> u64
    requires { offset + 8 ≤ length text.now }
    ensures { result ≡ eight text.now offset }
{
    u64::from_le_bytes([
        text[offset],
        text[offset + 1],
        text[offset + 2],
        text[offset + 3],
        text[offset + 4],
        text[offset + 5],
        text[offset + 6],
        text[offset + 7],
    ])
}
