// Exact strings, bounded lists of distinct ones, and exact sets (`exact` in Go's codesearch), those
// of character classes and repeats by expansion.
ghost use Rattle.std.specs.Prelude.{◌≡◌, true, not, IfOk, MatchOption, nat_lt, ◌≤◌, ◌++◌, IsTrue, [], OnOk, length, map, reverse, ◌+◌, ℕ, List, ◌∷◌, if◌then◌else◌, encode_utf8, Some};
ghost use Rattle.std.specs.List.{list_all};
ghost use Rattle.cs_trigram.specs.Cited.{Tree, Trees, cat, alt, more, member, one_of, one_char, rep, is_finite, HasFewExactStrings, AreExactStrings, EnumeratesTree, with_string, with_strings, concatenations, IsEnumeration, IsExactSetOf, TellsEmpty, is_among, are_distinct, MayMatch, IsCharRange, is_scalar};

use cs_syntax::{ByteSet, CharSet};
use std::alloc::{AllocError, Global};
use std::marker::Model;

/// The exact strings of a tree. More than twenty are not kept, so that those of a long sequence are
/// not copied for each of its parts.
#[derive(Drop)]
pub(crate) enum ExactSet {
    /// At most twenty.
    Strings(Vec<ExactString>),
    /// More than twenty, of a finite tree.
    Many,
    /// The tree is not finite.
    Infinite,
}

impl ExactSet {
    /// The set of these strings, if they are at most twenty.
    pub(crate) fn of(strings: Vec<ExactString>) -> ExactSet
        ensures { (t : Tree) → EnumeratesTree strings.items t → IsExactSetOf result t }
    {
        if strings.len() > MAX_EXACT {
            return ExactSet::Many;
        }
        ExactSet::Strings(strings)
    }

    /// Whether the tree is not finite.
    pub(crate) fn is_infinite(&self) -> bool
        ensures { (t : Tree) → IsExactSetOf self.now t → is_finite t ≡ not result }
    {
        matches!(self, ExactSet::Infinite)
    }

    /// Whether the tree is finite and has no exact string.
    fn is_empty(&self) -> bool
        ensures { (t : Tree) → IsExactSetOf self.now t → is_finite t ≡ true → TellsEmpty result t }
    {
        let ExactSet::Strings(strings) = self else {
            return false;
        };
        strings.len() == 0
    }

    /// The strings, if they are one to twenty.
    pub(crate) fn few_strings(&self) -> Option<&[ExactString]>
        ensures { MatchOption result ((t : Tree) → IsExactSetOf self.now t → ¬ HasFewExactStrings t)
            (λ strings. (t : Tree) → IsExactSetOf self.now t → AreExactStrings strings.now t) }
    {
        let ExactSet::Strings(strings) = self else {
            return None;
        };
        if strings.len() == 0 {
            return None;
        }
        Some(strings.as_slice())
    }

    /// The cross product: each of these prefixes followed by each of the suffixes.
    pub(crate) fn concatenate(
        &self,
        alloc: Global,
        suffixes: &ExactSet,
    ) -> Result<ExactSet, AllocError>
        ensures { IfOk result (λ exact. (t : Tree) (ts : Trees) → IsExactSetOf self.now t →
            IsExactSetOf suffixes.now (cat ts) → IsExactSetOf exact (cat (more t ts))) }
    {
        if self.is_infinite() || suffixes.is_infinite() {
            return Ok(ExactSet::Infinite);
        }
        if self.is_empty() || suffixes.is_empty() {
            return Ok(ExactSet::Strings(Vec::new(alloc)));
        }
        let ExactSet::Strings(prefixes) = self else {
            return Ok(ExactSet::Many);
        };
        let ExactSet::Strings(suffixes) = suffixes else {
            return Ok(ExactSet::Many);
        };
        Ok(ExactSet::of(cross_product(alloc, prefixes, suffixes)?))
    }

    /// The union.
    pub(crate) fn union(&self, alloc: Global, others: &ExactSet) -> Result<ExactSet, AllocError>
        ensures { IfOk result (λ exact. (t : Tree) (ts : Trees) → IsExactSetOf self.now t →
            IsExactSetOf others.now (alt ts) → IsExactSetOf exact (alt (more t ts))) }
    {
        if self.is_infinite() || others.is_infinite() {
            return Ok(ExactSet::Infinite);
        }
        let ExactSet::Strings(strings) = self else {
            return Ok(ExactSet::Many);
        };
        let ExactSet::Strings(others) = others else {
            return Ok(ExactSet::Many);
        };
        let mut all = prepended(alloc, &[], others)?;
        add_concatenations(alloc, &[], strings, &mut all)?;
        Ok(ExactSet::of(all))
    }
}

/// The most strings of an exact set that is kept (`maxExact` in Go's codesearch, which has 7).
pub(crate) const MAX_EXACT: usize = 20;

/// A string of bytes.
#[derive(Drop)]
pub(crate) struct ExactString {
    bytes: Vec<u8>,
}

impl Model for ExactString {
    ghost use Rattle.std.specs.Prelude.{List, ℕ};

    ghost Value = { List ℕ };

    ghost view = { λ string. string.bytes.items };
}

impl ExactString {
    /// The concatenation of two texts.
    pub(crate) fn concatenation(
        alloc: Global,
        prefix: &[u8],
        suffix: &[u8],
    ) -> Result<ExactString, AllocError>
        ensures { IfOk result (λ string. string ≡ prefix.now ++ suffix.now) }
    {
        let mut bytes = Vec::with_capacity(alloc, prefix.len() + suffix.len())?;
        bytes.extend_from_slice(prefix)?;
        bytes.extend_from_slice(suffix)?;
        Ok(ExactString { bytes })
    }

    /// The string of a text.
    pub(crate) fn of(alloc: Global, text: &[u8]) -> Result<ExactString, AllocError>
        ensures { IfOk result (λ string. string ≡ text.now) }
    {
        ExactString::concatenation(alloc, text, &[])
    }

    /// The string read backward.
    pub(crate) fn reversed(&self, alloc: Global) -> Result<ExactString, AllocError>
        ensures { IfOk result (λ string. string ≡ reverse self.now) }
    {
        let mut bytes = Vec::from_slice(alloc, &self.bytes)?;
        bytes.reverse();
        Ok(ExactString { bytes })
    }

    /// The bytes of the string.
    pub(crate) fn bytes(&self) -> &[u8]
        ensures { result.now ≡ self.now }
    {
        &self.bytes
    }
}

/// The strings read backward.
pub(crate) fn reversed(
    alloc: Global,
    strings: &[ExactString],
) -> Result<Vec<ExactString>, AllocError>
    ensures { IfOk result (λ backward. backward.items ≡ map reverse strings.now) }
{
    let mut backward = Vec::with_capacity(alloc, strings.len())?;
    for string in strings {
        backward.push(string.reversed(alloc)?)?;
    }
    Ok(backward)
}

/// Whether each string has more than `len` bytes.
pub(crate) fn are_longer(strings: &[ExactString], len: usize) -> bool
    ensures { result ≡ list_all (λ w. nat_lt len (length w)) strings.now }
{
    strings.iter().all(|string| string.bytes().len() > len)
}

/// Adds the concatenations of the prefix with each of the suffixes that are not in the list, up to
/// 21 strings.
pub(crate) fn add_concatenations(
    alloc: Global,
    prefix: &[u8],
    suffixes: &[ExactString],
    strings: &mut Vec<ExactString>,
) -> Result<(), AllocError>
    ensures { OnOk result (strings.new.items ≡
        with_strings strings.old.items (map (λ v. prefix.now ++ v) suffixes.now)) }
{
    for suffix in suffixes {
        if strings.len() > MAX_EXACT {
            return Ok(());
        }
        let string = ExactString::concatenation(alloc, prefix, suffix.bytes())?;
        add_string(strings, string)?;
    }
    Ok(())
}

/// The prefix followed by each of the suffixes.
pub(crate) fn prepended(
    alloc: Global,
    prefix: &[u8],
    suffixes: &[ExactString],
) -> Result<Vec<ExactString>, AllocError>
    ensures { IfOk result (λ strings. strings.items ≡ map (λ v. prefix.now ++ v) suffixes.now) }
{
    let mut strings = Vec::with_capacity(alloc, suffixes.len())?;
    for suffix in suffixes {
        strings.push(ExactString::concatenation(alloc, prefix, suffix.bytes())?)?;
    }
    Ok(strings)
}

/// The cross product of the two lists, up to 21 strings. After a single prefix, the strings are not
/// compared: they are as distinct as the suffixes.
#[tactic(auto, using(crate::proofs::EnumerationLemmas::with_strings_append))]
pub(crate) fn cross_product(
    alloc: Global,
    prefixes: &[ExactString],
    suffixes: &[ExactString],
) -> Result<Vec<ExactString>, AllocError>
    ensures { IfOk result (λ strings. IsTrue (are_distinct suffixes.now) → length suffixes.now ≤ 20 →
        strings.items ≡ with_strings [] (concatenations prefixes.now suffixes.now)) }
{
    if prefixes.len() == 1 {
        return prepended(alloc, prefixes[0].bytes(), suffixes);
    }
    let mut strings = Vec::new(alloc);
    for prefix in prefixes {
        if strings.len() > MAX_EXACT {
            return Ok(strings);
        }
        add_concatenations(alloc, prefix.bytes(), suffixes, &mut strings)?;
    }
    Ok(strings)
}

/// The empty string alone.
pub(crate) fn empty_string(alloc: Global) -> Result<Vec<ExactString>, AllocError>
    ensures { IfOk result (λ strings. strings.items ≡ [] ∷ []) }
{
    let mut strings = Vec::new(alloc);
    strings.push(ExactString::of(alloc, &[])?)?;
    Ok(strings)
}

/// The strings of the members of a byte set, up to 21.
pub(crate) fn strings_of_set(alloc: Global, set: &ByteSet) -> Result<Vec<ExactString>, AllocError>
    ensures { IfOk result (λ strings.
        IsEnumeration strings.items (MayMatch true (one_of set.now))) }
{
    let count = set.len() as usize;
    let mut strings = Vec::with_capacity(alloc, count.min(MAX_EXACT + 1))?;
    for byte in 0..256usize {
        if strings.len() > MAX_EXACT {
            return Ok(strings);
        }
        add_byte(alloc, set, byte as u8, &mut strings)?;
    }
    Ok(strings)
}

/// The encodings of the members of a character set, up to 21.
pub(crate) fn strings_of_chars(alloc: Global, set: &CharSet) -> Result<Vec<ExactString>, AllocError>
    ensures { IfOk result (λ strings.
        IsEnumeration strings.items (MayMatch true (one_char set.now))) }
{
    let mut strings = Vec::new(alloc);
    for range in set.runs() {
        add_range(alloc, *range, &mut strings)?;
    }
    Ok(strings)
}

/// The exact set of a repeat, from its last iteration to its first: the last ones are optional.
pub(crate) fn strings_of_repeat(
    alloc: Global,
    once: &ExactSet,
    least: u32,
    most: Option<u32>,
) -> Result<ExactSet, AllocError>
    ensures { IfOk result (λ strings. (t : Tree) → IsExactSetOf once.now t →
        IsExactSetOf strings (rep t least most)) }
{
    let Some(most) = most else {
        return Ok(ExactSet::Infinite);
    };
    if most < least || once.is_infinite() {
        return Ok(ExactSet::Infinite);
    }
    let mut strings = ExactSet::of(empty_string(alloc)?);
    for iteration in 0..most {
        strings = once.concatenate(alloc, &strings)?;
        if iteration < most - least {
            strings = strings.union(alloc, &ExactSet::of(empty_string(alloc)?))?;
        }
    }
    Ok(strings)
}

/// Whether the string is in the list.
fn has_string(strings: &[ExactString], string: &ExactString) -> bool
    ensures { result ≡ is_among strings.now string.now }
{
    strings.iter().any(|w| w.bytes() == string.bytes())
}

/// Adds a string that is not in the list, up to 21 strings.
fn add_string(strings: &mut Vec<ExactString>, string: ExactString) -> Result<(), AllocError>
    ensures { OnOk result (strings.new.items ≡ with_string strings.old.items string) }
{
    if strings.len() <= MAX_EXACT && !has_string(strings, &string) {
        strings.push(string)?;
    }
    Ok(())
}

/// Adds the string of a byte, if the set has the byte.
fn add_byte(
    alloc: Global,
    set: &ByteSet,
    byte: u8,
    strings: &mut Vec<ExactString>,
) -> Result<(), AllocError>
    ensures { OnOk result (strings.new.items ≡
        (if member set.now byte then with_string strings.old.items (byte ∷ []) else strings.old.items)) }
{
    if set.contains(byte) {
        add_string(strings, ExactString::of(alloc, &[byte])?)?;
    }
    Ok(())
}

/// Adds the UTF-8 encoding of a scalar value.
fn add_char(alloc: Global, n: u32, strings: &mut Vec<ExactString>) -> Result<(), AllocError>
    ensures { OnOk result (strings.new.items ≡
        (if is_scalar n then with_string strings.old.items (encode_utf8 n) else strings.old.items)) }
{
    let Some(char) = char::from_u32(n) else {
        return Ok(());
    };
    let mut buffer = [0; 4];
    let text = char.encode_utf8(&mut buffer);
    let string = ExactString::of(alloc, text.as_bytes())?;
    add_string(strings, string)?;
    Ok(())
}

/// Adds the encodings of the characters of a range, as long as there are at most twenty.
fn add_range(
    alloc: Global,
    range: (u32, u32),
    strings: &mut Vec<ExactString>,
) -> Result<(), AllocError>
    requires { IsCharRange range }
    ensures { OnOk result ((ranges : List (ℕ × ℕ)) →
        IsEnumeration strings.old.items (MayMatch true (one_char ranges)) →
        IsEnumeration strings.new.items (MayMatch true (one_char (ranges ++ range ∷ [])))) }
{
    for n in range.0..range.1 + 1 {
        if strings.len() > MAX_EXACT {
            return Ok(());
        }
        add_char(alloc, n, strings)?;
    }
    Ok(())
}
