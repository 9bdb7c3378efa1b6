// Sets of characters, as canonical lists of ranges (as in Rust's `regex-syntax`).
ghost use Rattle.std.specs.Prelude.{◌≡◌, ◌+◌, ◌<◌, ◌&&◌, ℕ, Bool, not, List, All, IfOk};
ghost use Rattle.std.specs.Bool.{xor};
ghost use Rattle.std.specs.Char.{scalar_index};
ghost use Rattle.std.specs.List.Sorted.{IsNonDecreasingBy};
ghost use Rattle.cs_syntax.specs.Cited.{is_in_ranges, is_scalar, has_char, canonical_ranges, IsCharRange, AreCanonical, nth_scalar, scalar_ceil, scalar_floor};

use std::alloc::{AllocError, Global};
use std::marker::Model;

/// The number of characters.
const ALL: u32 = 0x10_F800;

/// The last character.
const LAST: u32 = 0x10_FFFF;

/// A set of characters. A character is a Unicode scalar value: a number up to 0x10ffff that is not
/// a surrogate (0xd800 to 0xdfff).
#[derive(Drop)]
pub struct CharSet {
    ranges: Vec<(u32, u32)>,
}

impl Model for CharSet {
    ghost use Rattle.std.specs.Prelude.{ℕ, List};
    ghost use Rattle.cs_syntax.specs.CharRanges.{AreCanonical};

    ghost Value = { List (ℕ × ℕ) };

    ghost view = { λ set. set.ranges.items };

    ghost invariant = { λ set. AreCanonical set.ranges.items };
}

impl CharSet {
    /// The characters of inclusive ranges, which may overlap and come in any order. Numbers that
    /// are not characters are ignored, and so is a range whose ends are swapped.
    pub fn from_ranges(alloc: Global, ranges: &[(u32, u32)]) -> Result<CharSet, AllocError>
        ensures members { IfOk result
            (λ set. (c : ℕ) → has_char set c ≡ has_char ranges.now c) }
        ensures maximal { IfOk result AreCanonical }
    {
        let mut sorted = scalar_ranges(alloc, ranges)?;
        sorted.sort_unstable_by_key(|range| range.0);
        let ranges = merge_ranges(alloc, &sorted)?;
        Ok(CharSet { ranges })
    }

    /// Whether the number is a member. False for a number that is not a character.
    pub fn contains(&self, char: u32) -> bool
        ensures { result ≡ has_char self.now char }
    {
        is_scalar(char) && is_in_canonical_ranges(&self.ranges, char)
    }

    /// The members as ascending, maximal ranges, each with its first and last member. 0xd7ff and
    /// 0xe000 are adjacent, because no character lies between them.
    pub fn runs(&self) -> &[(u32, u32)]
        ensures runs { result.now ≡ self.now }
        ensures maximal { AreCanonical self.now }
    {
        self.ranges.as_slice()
    }

    /// A copy of the set.
    pub fn copy(&self, alloc: Global) -> Result<CharSet, AllocError>
        ensures { IfOk result (λ set. set ≡ self.now) }
    {
        let ranges = Vec::from_slice(alloc, &self.ranges)?;
        Ok(CharSet { ranges })
    }

    /// The characters that are not members.
    pub fn complement(&self, alloc: Global) -> Result<CharSet, AllocError>
        ensures members { IfOk result
            (λ set. (c : ℕ) → has_char set c ≡ (is_scalar c && not (has_char self.now c))) }
        ensures maximal { IfOk result AreCanonical }
    {
        let ranges = complement_ranges(alloc, &self.ranges)?;
        Ok(CharSet { ranges })
    }

    /// The characters of the ranges, or with `negated` all others.
    pub(crate) fn of_ranges(
        alloc: Global,
        negated: bool,
        ranges: &[(u32, u32)],
    ) -> Result<CharSet, AllocError>
        ensures { IfOk result (λ set. (test : ℕ → Bool)
            → ((c : ℕ) → has_char ranges.now c ≡ (is_scalar c && test c))
            → set ≡ canonical_ranges (λ c. xor negated (test c))) }
    {
        let set = CharSet::from_ranges(alloc, ranges)?;
        if negated {
            set.complement(alloc)
        } else {
            Ok(set)
        }
    }
}

/// Whether the number is a Unicode scalar value.
pub(crate) fn is_scalar(n: u32) -> bool
    ensures { result ≡ is_scalar n }
{
    n < 0xD800 || (0xE000 <= n && n <= LAST)
}

/// Whether the number is in one of the ranges, by a binary search.
fn is_in_canonical_ranges(ranges: &[(u32, u32)], n: u32) -> bool
    requires { AreCanonical ranges.now }
    ensures { result ≡ is_in_ranges ranges.now n }
{
    let index = ranges.partition_point(|range| range.1 < n);
    index < ranges.len() && ranges[index].0 <= n
}

/// The index of a character in the list of all characters.
fn scalar_index(char: u32) -> u32
    ensures { result ≡ scalar_index char }
{
    char.min(0xD800) + char.saturating_sub(0xE000)
}

/// The character at an index of the list of all characters.
fn nth_scalar(index: u32) -> u32
    requires { index < ALL }
    ensures { result ≡ nth_scalar index }
{
    if index < 0xD800 { index } else { index + 0x800 }
}

/// The least character that is not below the number.
fn scalar_ceil(n: u32) -> u32
    ensures { result ≡ scalar_ceil n }
{
    if 0xD800 <= n && n < 0xE000 { 0xE000 } else { n }
}

/// The greatest character that is not above the number.
fn scalar_floor(n: u32) -> u32
    ensures { result ≡ scalar_floor n }
{
    if 0xD800 <= n && n < 0xE000 {
        0xD7FF
    } else {
        n.min(LAST)
    }
}

/// The ranges, with their ends moved inwards to characters. Ranges without characters are dropped.
fn scalar_ranges(alloc: Global, given: &[(u32, u32)]) -> Result<Vec<(u32, u32)>, AllocError>
    ensures ranges { IfOk result (λ ranges. All IsCharRange ranges.items) }
    ensures members { IfOk result
        (λ ranges. (c : ℕ) → has_char ranges.items c ≡ has_char given.now c) }
{
    let mut ranges = Vec::new(alloc);
    for pair in given {
        let range = (scalar_ceil(pair.0), scalar_floor(pair.1));
        if range.0 <= range.1 {
            ranges.push(range)?;
        }
    }
    Ok(ranges)
}

/// Merges overlapping and adjacent ranges, which are sorted by their first character.
fn merge_ranges(alloc: Global, ranges: &[(u32, u32)]) -> Result<Vec<(u32, u32)>, AllocError>
    requires ranges { All IsCharRange ranges.now }
    requires ascending { IsNonDecreasingBy (λ (range : ℕ × ℕ). range.0) ranges.now }
    ensures ranges { IfOk result (λ maximal. AreCanonical maximal.items) }
    ensures members { IfOk result
        (λ maximal. (c : ℕ) → has_char maximal.items c ≡ has_char ranges.now c) }
{
    let mut maximal = Vec::new(alloc);
    let Some(first) = ranges.first() else {
        return Ok(maximal);
    };
    let mut last = *first;
    for range in ranges {
        if scalar_index(range.0) <= scalar_index(last.1) + 1 {
            last = (last.0, last.1.max(range.1));
        } else {
            maximal.push(last)?;
            last = *range;
        }
    }
    maximal.push(last)?;
    Ok(maximal)
}

/// The gaps between the ranges, which are the ranges of the complement.
fn complement_ranges(alloc: Global, ranges: &[(u32, u32)]) -> Result<Vec<(u32, u32)>, AllocError>
    requires { AreCanonical ranges.now }
    ensures ranges { IfOk result (λ gaps. AreCanonical gaps.items) }
    ensures members { IfOk result
        (λ gaps. (c : ℕ) → has_char gaps.items c ≡ (is_scalar c && not (has_char ranges.now c))) }
{
    let mut gaps = Vec::new(alloc);
    let mut next = 0;
    for range in ranges {
        let start = scalar_index(range.0);
        if next < start {
            gaps.push((nth_scalar(next), nth_scalar(start - 1)))?;
        }
        next = scalar_index(range.1) + 1;
    }
    if next < ALL {
        gaps.push((nth_scalar(next), LAST))?;
    }
    Ok(gaps)
}
