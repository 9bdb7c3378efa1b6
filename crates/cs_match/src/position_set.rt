// Sets of Glushkov positions as bit vectors.
ghost use Rattle.std.specs.Prelude.{◌≡◌, ℕ, ◌+◌, ◌*◌, ◌<◌, ◌≤◌, ◌∷◌, ◌++◌, ◌==◌, ◌&&◌, nat_le, true, false, IfOk, length, take, drop, replicate, slice_index_or, if◌then◌else◌};
ghost use Rattle.std.specs.Int.{bit_at};
ghost use Rattle.cs_match.specs.Cited.{positions_of, IsPositionSet, has_from, has_bit_from, intersect, HasRoom, is_moved, is_selected, words};

use crate::position::Mask;
use cs_tree::Steps;
use std::alloc::{AllocError, Global};
use std::marker::Model;

/// A set of positions, one bit each. Contracts see a list of truth values.
#[derive(Drop)]
pub(crate) struct PositionSet {
    words: Vec<u64>,
    count: usize,
}

impl Model for PositionSet {
    ghost use Rattle.std.specs.Prelude.{List, Bool};
    ghost use Rattle.cs_match.specs.PositionSet.{positions_of, IsPositionSet};

    ghost Value = { List Bool };

    ghost view = { λ positions. positions_of positions.words.items positions.count };

    ghost invariant = { λ positions. IsPositionSet positions.words.items positions.count };
}

impl PositionSet {
    /// The empty set for this many positions.
    pub(crate) fn none(alloc: Global, count: usize) -> Result<PositionSet, AllocError>
        ensures { IfOk result (λ positions. positions ≡ replicate count false) }
    {
        let words = vec![in alloc; 0u64; count.div_ceil(64)]?;
        Ok(PositionSet { words, count })
    }

    /// The set of the positions whose flag is set.
    pub(crate) fn of(alloc: Global, flags: &[bool]) -> Result<PositionSet, AllocError>
        ensures { IfOk result (λ positions. positions ≡ flags.now) }
    {
        let mut positions = PositionSet::none(alloc, flags.len())?;
        for index in 0..flags.len() {
            positions.put(index, flags[index]);
        }
        Ok(positions)
    }

    /// The number of positions of the tree, whether they are in the set or not.
    pub(crate) fn len(&self) -> usize
        ensures { result ≡ length self.now }
    {
        self.count
    }

    pub(crate) fn get(&self, index: usize) -> bool
        requires { index < length self.now }
        ensures { result ≡ slice_index_or self.now index false }
    {
        self.words[index / 64] >> (index % 64) & 1 == 1
    }

    /// Adds the position to the set or removes it.
    pub(crate) fn put(&mut self, index: usize, on: bool)
        requires { index < length self.old }
        ensures { self.new ≡ take index self.old ++ on ∷ drop (index + 1) self.old }
    {
        self.words[index / 64] = with_bits(self.words[index / 64], 1 << (index % 64), on);
    }

    pub(crate) fn clear(&mut self)
        ensures { self.new ≡ replicate (length self.old) false }
    {
        self.words.fill(0);
    }

    pub(crate) fn words(&self) -> &[u64]
        ensures set { IsPositionSet result.now (length self.now) }
        ensures same { positions_of result.now (length self.now) ≡ self.now }
    {
        &self.words
    }

    /// Makes this the set with these words.
    pub(crate) fn copy_from(&mut self, words: &[u64])
        requires { IsPositionSet words.now (length self.old) }
        ensures { self.new ≡ positions_of words.now (length self.old) }
    {
        self.words.copy_from_slice(words);
    }

    /// Adds the positions of `which`, a set that begins at position `from`, or removes them.
    pub(crate) fn put_all(&mut self, from: usize, which: &PositionSet, on: bool)
        requires { from + length which.now ≤ length self.old }
        ensures length { length self.new ≡ length self.old }
        ensures each { (k : ℕ) → k < length self.old → slice_index_or self.new k false
            ≡ (if has_from which.now from k then on else slice_index_or self.old k false) }
    {
        let first = from / 64;
        let end = (first + which.words.len() + 1).min(self.words.len());
        for index in first..end {
            let bits = word_from(&which.words, from % 64, index - first);
            self.words[index] = with_bits(self.words[index], bits, on);
        }
    }

    /// Whether the set has a position in common with a set that begins at position `from`.
    pub(crate) fn meets(&self, from: usize, other: &PositionSet) -> bool
        requires { from + length other.now ≤ length self.now }
        ensures { result ≡ intersect (drop from self.now) other.now }
    {
        for index in 0..other.words.len() + 1 {
            let word = word_at(&self.words, from / 64 + index);
            if word & word_from(&other.words, from % 64, index) != 0 {
                return true;
            }
        }
        false
    }

    /// The first position of the set from `from` up to `end` whose bit `which` has, or `end`.
    pub(crate) fn first_in(&self, from: usize, end: usize, which: u64) -> usize
        requires { end ≤ length self.now }
        ensures within { result ≤ end }
        ensures found { result < end
            → (is_selected which from end result && slice_index_or self.now result false) ≡ true }
        ensures first { (k : ℕ) → k < result
            → (is_selected which from end k && slice_index_or self.now k false) ≡ false }
    {
        for index in from / 64..end.div_ceil(64) {
            let found = self.words[index] & range_bits(which, from, end, index);
            if found != 0 {
                return index * 64 + found.trailing_zeros() as usize;
            }
        }
        end
    }

    /// Adds the positions from `from` up to `end` whose bit `which` has.
    pub(crate) fn fill(&mut self, from: usize, end: usize, which: u64)
        requires { end ≤ length self.old }
        ensures length { length self.new ≡ length self.old }
        ensures each { (k : ℕ) → k < length self.old → slice_index_or self.new k false
            ≡ (if is_selected which from end k then true else slice_index_or self.old k false) }
    {
        for index in from / 64..end.div_ceil(64) {
            let bits = range_bits(which, from, end, index);
            self.words[index] = with_bits(self.words[index], bits, true);
        }
    }

    /// Makes this the set, with one position more, in which each one is moved to the next.
    pub(crate) fn shift_from(&mut self, from: &PositionSet, steps: &mut Steps)
        requires { length self.old ≡ length from.now + 1 }
        ensures shifted { self.new ≡ false ∷ from.now }
        ensures cost { steps.new.count ≡ steps.old.count + words (length self.old) }
    {
        let mut carried = 0;
        for index in 0..self.words.len() {
            steps.add(1);
            let word = word_at(&from.words, index);
            self.words[index] = word << 1 | carried;
            carried = word >> 63;
        }
    }

    /// Moves the set over the input of a mask: a position is in it afterwards if it was entered, if
    /// the one before it was entered, or if it was in the set, as the mask says.
    pub(crate) fn move_over(&mut self, entries: &PositionSet, mask: &Mask, steps: &mut Steps)
        requires entries { length entries.now ≡ length self.old + 1 }
        requires mask { HasRoom (length self.old) mask.now }
        ensures length { length self.new ≡ length self.old }
        ensures each { (k : ℕ) → k < length self.old → slice_index_or self.new k false
            ≡ is_moved entries.now mask.now.entered mask.now.previous mask.now.kept self.old k }
        ensures cost { steps.new.count ≡ steps.old.count + words (length self.old) }
    {
        let (entered, previous, kept) = (&mask.entered, &mask.previous, &mask.kept);
        let mut carried = 0;
        for index in 0..self.words.len() {
            steps.add(1);
            let entry = entries.words[index];
            self.words[index] = entry & entered.words[index]
                | (entry << 1 | carried) & previous.words[index]
                | self.words[index] & kept.words[index];
            carried = entry >> 63;
        }
    }

    /// A hash of the set and of the seed.
    pub(crate) fn hash(&self, seed: u64) -> u64 {
        // The high bits of a product depend on all bits of its factors: they become the low.
        self.words.iter().fold(seed, |mixed, word| {
            (mixed ^ *word)
                .wrapping_mul(0x9e37_79b9_7f4a_7c15)
                .swap_bytes()
        })
    }
}

/// The word at an index, or 0 past the end.
fn word_at(words: &[u64], index: usize) -> u64
    ensures { result ≡ slice_index_or words.now index 0 }
{
    if index < words.len() { words[index] } else { 0 }
}

/// The word with these bits set or cleared.
fn with_bits(word: u64, bits: u64, on: bool) -> u64
    ensures { (i : ℕ) → i < 64 →
        (bit_at result i == 1) ≡ (if bit_at bits i == 1 then on else bit_at word i == 1) }
{
    if on {
        word | bits
    } else {
        (word | bits) ^ bits
    }
}

/// The word at an index of a set that begins at the bit `by` of its first word.
fn word_from(words: &[u64], by: usize, index: usize) -> u64
    requires { by < 64 }
    ensures { (i : ℕ) → i < 64 → (bit_at result i == 1) ≡ has_bit_from words.now by (index * 64 + i) }
{
    if by == 0 {
        return word_at(words, index);
    }
    let low = word_at(words, index) << by;
    if index == 0 {
        return low;
    }
    low | word_at(words, index - 1) >> 1 >> (63 - by)
}

/// The bits of `which` for the positions from `from` up to `end` that are in the word at an index.
fn range_bits(which: u64, from: usize, end: usize, index: usize) -> u64
    requires { index * 64 < end }
    ensures { (i : ℕ) → i < 64 → (bit_at result i == 1) ≡ is_selected which from end (index * 64 + i) }
{
    let start = index * 64;
    let bits = bits_from(which, from.saturating_sub(start));
    with_bits(bits, bits_from(which, end - start), false)
}

/// The bits of a word from `from` on.
fn bits_from(word: u64, from: usize) -> u64
    ensures { (i : ℕ) → i < 64 → (bit_at result i == 1) ≡ (nat_le from i && bit_at word i == 1) }
{
    if from < 64 { word >> from << from } else { 0 }
}
