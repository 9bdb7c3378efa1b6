// Sets of bytes, as bitmaps of 256 bits.
ghost use Rattle.std.specs.Prelude.{⊤, ◌≡◌, ◌+◌, ◌-◌, ◌<◌, ◌==◌, ◌||◌, ◌&&◌, nat_eq, nat_lt, ℕ, List, Bool, Option, IfSome, IfNone, length};
ghost use Rattle.std.specs.Char.{is_ascii_alphabetic};
ghost use Rattle.cs_syntax.specs.Cited.{count, IsOnly, member, set_of, all_bytes, other_case, is_in_folded, char_set, union, TestsAs, is_in_ranges};

use std::marker::Model;

/// A set of bytes, stored as a bitmap of 256 bits. Contracts see it as the list of its 256
/// membership values.
#[derive(Drop)]
pub struct ByteSet {
    words: [u64; 4],
}

impl Model for ByteSet {
    ghost use Rattle.std.specs.Prelude.{◌≡◌, List, Bool};
    ghost use Rattle.cs_syntax.specs.SetWords.{set_of_bits, set_words};

    ghost Value = { List Bool };

    ghost view = { λ s. set_of_bits s.words };

    ghost invariant = { λ s. set_words (set_of_bits s.words) ≡ s.words };

    ghost inverse = { λ v. record { words = set_words v } };

    ghost inverse_ok = { λ s h i. record { words = h i } };
}

impl Clone for ByteSet {
    ghost is_clone = { λ set copy. copy ≡ set };

    ghost is_infallible = { λ _. ⊤ };

    fn clone(&self) -> Result<Self, std::alloc::AllocError> {
        Ok(*self)
    }
}

impl Copy for ByteSet {}

impl ByteSet {
    /// Whether the byte is a member.
    pub fn contains(&self, byte: u8) -> bool
        ensures { result ≡ member self.now byte }
    {
        self.words[(byte / 64) as usize] >> (byte % 64) & 1 == 1
    }

    /// The number of members. The clause `bytes` bounds it by 256 for the crates above, which see
    /// only the list.
    pub fn len(&self) -> u32
        ensures members { result ≡ count self.now }
        ensures bytes { length self.now ≡ 256 }
    {
        self.words[0].count_ones()
            + self.words[1].count_ones()
            + self.words[2].count_ones()
            + self.words[3].count_ones()
    }

    /// The only member of a set of one byte; `None` for all other sets.
    pub fn single(&self) -> Option<u8>
        ensures some { IfSome result (IsOnly self.now) }
        ensures none { IfNone result ((b : ℕ) → IsOnly self.now b → ⊥) }
    {
        if !self.has_one() {
            return None;
        }
        for (k, word) in self.words.iter().enumerate() {
            if *word != 0 {
                return Some((64 * k) as u8 + word.trailing_zeros() as u8);
            }
        }
        None
    }

    /// The bytes that are members of either set.
    pub fn union(&self, other: &ByteSet) -> ByteSet
        ensures { result ≡ union self.now other.now }
    {
        // By their invariants, both have 256 values.
        let (_, _) = (&self.words, &other.words);
        ByteSet::of(|b| self.contains(b as u8) || other.contains(b as u8))
    }

    fn has_one(&self) -> bool
        ensures { result ≡ nat_eq (count self.now) 1 }
    {
        self.len() == 1
    }

    /// The bytes that satisfy a predicate.
    pub fn of<F: Fn(usize) -> bool>(test: F) -> ByteSet
        requires { (b : ℕ) → b < 256 → F.pre test b }
        ensures { (f : ℕ → Bool) → TestsAs (F.post test) f → result ≡ set_of f }
    {
        let mut words = [0u64; 4];
        for b in 0..256 {
            if test(b) {
                words[b / 64] |= 1 << (b % 64);
            }
        }
        ByteSet { words }
    }

    /// All bytes.
    #[tactic(auto, unfolding(crate::specs::ByteSet::all_bytes))]
    pub fn all() -> ByteSet
        ensures { result ≡ all_bytes }
    {
        ByteSet::of(|_| true)
    }

    /// The set of an ASCII character; with `fold` also of its other case.
    #[tactic(auto, unfolding(crate::specs::ByteSet::char_set))]
    pub(crate) fn of_char(fold: bool, char: u8) -> ByteSet
        ensures { result ≡ char_set fold char }
    {
        ByteSet::of(|b| is_in_folded(fold, &[(char, char)], b))
    }

    /// The ASCII characters of the ranges.
    pub(crate) fn of_ascii(ranges: &[(u32, u32)]) -> ByteSet
        ensures { result ≡ set_of (λ b. nat_lt b 128 && is_in_ranges ranges.now b) }
    {
        ByteSet::of(|b| b < 128 && is_in_char_ranges(ranges, b as u32))
    }
}

/// Whether the number is in one of the ranges.
fn is_in_char_ranges(ranges: &[(u32, u32)], n: u32) -> bool
    ensures { result ≡ is_in_ranges ranges.now n }
{
    ranges.iter().any(|range| range.0 <= n && n <= range.1)
}

/// Whether the byte is an ASCII letter.
pub(crate) fn is_letter(b: usize) -> bool
    ensures { result ≡ is_ascii_alphabetic b }
{
    (65 <= b && b <= 90) || (97 <= b && b <= 122)
}

fn is_in_folded(fold: bool, ranges: &[(u8, u8)], byte: usize) -> bool
    requires { byte < 256 }
    ensures { result ≡ is_in_folded fold ranges.now byte }
{
    is_in_ranges(ranges, byte)
        || (fold && is_letter(byte) && is_in_ranges(ranges, other_case(byte)))
}

fn is_in_ranges(ranges: &[(u8, u8)], byte: usize) -> bool
    ensures { result ≡ is_in_ranges ranges.now byte }
{
    ranges
        .iter()
        .any(|r| r.0 as usize <= byte && byte <= r.1 as usize)
}

fn other_case(byte: usize) -> usize
    requires { byte < 256 }
    ensures { result ≡ other_case byte }
{
    if 97 <= byte { byte - 32 } else { byte + 32 }
}
