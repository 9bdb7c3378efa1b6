// Prefixes and suffixes of matches, at most three bytes each: their cross product, union and
// truncation (`cross`, `union` and `simplifySet` in Go's codesearch), and the trigrams across two
// neighbouring parts (`concat`). A suffix is stored reversed, so that both are end strings: the
// first bytes of a match, read forward or backward. Of two adjacent texts, the *near* one is read
// first.
ghost use Rattle.std.specs.Prelude.{◌≡◌, ◌<◌, ◌≤◌, ◌++◌, [], ◌∷◌, length, IfOk, MatchOption, OnOk, Option, ℕ, ◌+◌, ◌-◌, ◌*◌, ◌^◌, Bool, true, map, min, reverse};
ghost use Rattle.std.specs.List.{list_any};
ghost use Rattle.cs_trigram.specs.Cited.{Tree, rep, Direction, subsumes, AreCoarser, AreConcatenations, AreEndStrings, truncated, with_end_string, with_end_strings, concatenated, end_product, all_truncated, whole_ends, AreShort, matches_set, query_size, cross_size, has_any, IsCrossQuery, HasPairs, pairs};

use crate::exact_set::ExactString;
use crate::queries::{Query, add_conjunct, any_string};
use std::alloc::{AllocError, Global};
use std::mem;

/// The most end strings of a set (`maxSet` in Go's codesearch).
const MAX_SET: usize = 20;

/// The most bytes of an end string.
const MAX_LEN: usize = 3;

/// The most iterations that a repeat is unrolled to: an end string has at most three bytes.
const MAX_ITERATIONS: u32 = 3;

/// The first bytes of a text.
#[derive(Drop)]
pub(crate) struct EndString {
    pub(crate) string: ExactString,
    /// Whether the text is this string and nothing else.
    pub(crate) whole: bool,
}

/// The cross product, truncated to the greatest length that leaves at most `MAX_SET` members.
pub(crate) fn concatenate_end_strings(
    alloc: Global,
    nears: &[EndString],
    fars: &[EndString],
) -> Result<Vec<EndString>, AllocError>
    ensures all { IfOk result (λ end_strings. AreConcatenations nears.now fars.now end_strings.items) }
    ensures long { IfOk result (λ end_strings. (n : ℕ) → 0 < n → n ≤ 3 →
        length (end_product n nears.now fars.now) ≤ 20 →
        (m : ℕ) × n ≤ m × end_strings.items ≡ end_product m nears.now fars.now) }
{
    let mut longest = MAX_LEN;
    'cut: while longest > 0 {
        if let Some(end_strings) = few_concatenations(alloc, nears, fars, longest)? {
            return Ok(end_strings);
        }
        longest -= 1;
    }
    bare_end_string(alloc, false)
}

/// Adds the other end strings, as `union_of_end_strings` does.
pub(crate) fn add_end_strings(
    alloc: Global,
    end_strings: &mut Vec<EndString>,
    more: Vec<EndString>,
) -> Result<(), AllocError>
    ensures { OnOk result (AreCoarser end_strings.new.items (end_strings.old.items ++ more.items)) }
{
    let before = mem::replace(end_strings, Vec::new(alloc));
    let both = union_of_end_strings(alloc, before, more)?;
    *end_strings = both;
    Ok(())
}

/// The end string without bytes: if it is not whole, every text has it, otherwise the empty text.
pub(crate) fn bare_end_string(alloc: Global, whole: bool) -> Result<Vec<EndString>, AllocError>
    ensures { IfOk result (λ end_strings. end_strings.items ≡ (record { string = []; whole = whole }) ∷ []) }
{
    let string = ExactString::of(alloc, &[])?;
    let mut end_strings = Vec::new(alloc);
    end_strings.push(EndString { string, whole })?;
    Ok(end_strings)
}

/// The end strings of these texts.
pub(crate) fn end_strings_of(
    alloc: Global,
    strings: &[ExactString],
) -> Result<Vec<EndString>, AllocError>
    ensures { IfOk result (λ end_strings. end_strings.items ≡ whole_ends strings.now) }
{
    let mut end_strings = Vec::with_capacity(alloc, strings.len())?;
    for string in strings {
        let end_string = truncated_end_string(alloc, string.bytes(), true, MAX_LEN)?;
        add_end_string(&mut end_strings, end_string)?;
    }
    Ok(end_strings)
}

/// The end strings of at least `least` iterations.
pub(crate) fn end_strings_of_repeat(
    alloc: Global,
    once: &[EndString],
    least: u32,
) -> Result<Vec<EndString>, AllocError>
    ensures { IfOk result (λ end_strings. (direction : Direction) (t : Tree) →
        AreEndStrings direction once.now t →
        (most : Option ℕ) → AreEndStrings direction end_strings.items (rep t least most)) }
{
    let begun = concatenate_end_strings(alloc, once, &bare_end_string(alloc, false)?)?;
    let mut end_strings = union_of_end_strings(alloc, begun, bare_end_string(alloc, true)?)?;
    for _iteration in 0..least.min(MAX_ITERATIONS) {
        end_strings = concatenate_end_strings(alloc, once, &end_strings)?;
    }
    Ok(end_strings)
}

/// Requires, for some pair, the trigrams that have bytes of both parts.
pub(crate) fn cross_product_query(
    alloc: Global,
    suffixes: &[EndString],
    prefixes: &[EndString],
) -> Result<Query, AllocError>
    ensures across { IfOk result (λ query. IsCrossQuery query suffixes.now prefixes.now) }
    ensures asked { IfOk result (λ query. (set : ℕ → Bool) → matches_set query set ≡ true →
        HasPairs set suffixes.now prefixes.now) }
    ensures small { IfOk result (λ query. query_size query ≤ cross_size) }
{
    let suffixes = truncated_end_strings(alloc, suffixes, 2)?;
    let prefixes = truncated_end_strings(alloc, prefixes, 2)?;
    if count_concatenations(&suffixes, &prefixes) > MAX_WHOLE_CONCATENATIONS {
        return split_product_query(alloc, &suffixes, &prefixes);
    }
    product_query(alloc, &suffixes, &prefixes)
}

/// The end string of the texts with these first bytes, or if `whole` of this text alone, truncated
/// to `longest` bytes.
fn truncated_end_string(
    alloc: Global,
    text: &[u8],
    whole: bool,
    longest: usize,
) -> Result<EndString, AllocError>
    ensures { IfOk result (λ end_string.
        end_string ≡ truncated longest (record { string = text.now; whole = whole })) }
{
    let string = ExactString::of(alloc, &text[..longest.min(text.len())])?;
    Ok(EndString {
        string,
        whole: whole && text.len() <= longest,
    })
}

/// Whether each text with the other end string certainly has this one: the strings are equal, and
/// the other one is whole if this one is.
fn subsumes(end_string: &EndString, other: &EndString) -> bool
    ensures { result ≡ subsumes end_string.now other.now }
{
    end_string.string.bytes() == other.string.bytes() && (!end_string.whole || other.whole)
}

/// Whether one of the end strings subsumes this one.
fn has_subsuming(end_strings: &[EndString], end_string: &EndString) -> bool
    ensures { result ≡ list_any (λ other. subsumes other end_string.now) end_strings.now }
{
    end_strings.iter().any(|other| subsumes(other, end_string))
}

/// Adds an end string, unless one subsumes it.
fn add_end_string(end_strings: &mut Vec<EndString>, end_string: EndString) -> Result<(), AllocError>
    ensures { OnOk result (end_strings.new.items ≡ with_end_string end_strings.old.items end_string) }
{
    if !has_subsuming(end_strings, &end_string) {
        end_strings.push(end_string)?;
    }
    Ok(())
}

/// The end strings, each truncated to `longest` bytes.
fn truncated_end_strings(
    alloc: Global,
    end_strings: &[EndString],
    longest: usize,
) -> Result<Vec<EndString>, AllocError>
    ensures { IfOk result (λ short. short.items ≡ all_truncated longest end_strings.now) }
{
    let mut short = Vec::with_capacity(alloc, end_strings.len())?;
    for end_string in end_strings {
        let text = end_string.string.bytes();
        let shorter = truncated_end_string(alloc, text, end_string.whole, longest)?;
        add_end_string(&mut short, shorter)?;
    }
    Ok(short)
}

/// Truncates the end strings until there are at most `MAX_SET` (`simplifySet` in Go's codesearch).
fn simplify_set(alloc: Global, end_strings: Vec<EndString>) -> Result<Vec<EndString>, AllocError>
    ensures { IfOk result (λ short. AreCoarser short.items end_strings.items) }
{
    let mut longest = MAX_LEN;
    let mut short = end_strings;
    'cut: while short.len() > MAX_SET && longest > 0 {
        longest -= 1;
        short = truncated_end_strings(alloc, &short, longest)?;
    }
    Ok(short)
}

/// Adds the concatenations of an end string with each of the far ones, truncated to `longest`
/// bytes, until there are more than `MAX_SET`. If it is not whole, the far ones make no difference.
fn add_concatenations(
    alloc: Global,
    near: &EndString,
    fars: &[EndString],
    longest: usize,
    end_strings: &mut Vec<EndString>,
) -> Result<(), AllocError>
    ensures few { OnOk result (length end_strings.new.items ≤ 20 → end_strings.new.items ≡
        with_end_strings end_strings.old.items (concatenated longest near.now fars.now)) }
    ensures many { OnOk result (20 < length end_strings.new.items → 20 < length
        (with_end_strings end_strings.old.items (concatenated longest near.now fars.now))) }
{
    if !near.whole {
        let alone = truncated_end_string(alloc, near.string.bytes(), near.whole, longest)?;
        add_end_string(end_strings, alone)?;
        return Ok(());
    }
    for far in fars {
        if end_strings.len() > MAX_SET {
            return Ok(());
        }
        let string = ExactString::concatenation(alloc, near.string.bytes(), far.string.bytes())?;
        let both = truncated_end_string(alloc, string.bytes(), far.whole, longest)?;
        add_end_string(end_strings, both)?;
    }
    Ok(())
}

/// The cross product, truncated to `longest` bytes; `None` if it has more than `MAX_SET` members.
fn few_concatenations(
    alloc: Global,
    nears: &[EndString],
    fars: &[EndString],
    longest: usize,
) -> Result<Option<Vec<EndString>>, AllocError>
    ensures { IfOk result (λ found. MatchOption found
        (20 < length (end_product longest nears.now fars.now))
        (λ end_strings. end_strings.items ≡ end_product longest nears.now fars.now)) }
{
    let mut end_strings = Vec::with_capacity(alloc, MAX_SET + 1)?;
    for near in nears {
        add_concatenations(alloc, near, fars, longest, &mut end_strings)?;
        if end_strings.len() > MAX_SET {
            return Ok(None);
        }
    }
    Ok(Some(end_strings))
}

/// The union of the two sets, truncated to at most `MAX_SET` members.
fn union_of_end_strings(
    alloc: Global,
    end_strings: Vec<EndString>,
    more: Vec<EndString>,
) -> Result<Vec<EndString>, AllocError>
    ensures { IfOk result (λ both. AreCoarser both.items (end_strings.items ++ more.items)) }
{
    let mut both = end_strings;
    for end_string in more {
        add_end_string(&mut both, end_string)?;
    }
    simplify_set(alloc, both)
}

/// The most pairs for which a query has all trigrams of each pair.
const MAX_WHOLE_CONCATENATIONS: usize = 64;

/// The most pairs for which a query is made, so that its size is bounded.
const MAX_CONCATENATIONS: usize = 256;

/// Adds the suffix, which is stored reversed, followed by each prefix.
fn add_pairs(
    alloc: Global,
    suffix: &EndString,
    prefixes: &[EndString],
    strings: &mut Vec<ExactString>,
) -> Result<(), AllocError>
    ensures { OnOk result (strings.new.items ≡
        strings.old.items ++ map (λ prefix. reverse suffix.now.string ++ prefix.string) prefixes.now) }
{
    let first = suffix.string.reversed(alloc)?;
    for prefix in prefixes {
        let last = prefix.string.bytes();
        strings.push(ExactString::concatenation(alloc, first.bytes(), last)?)?;
    }
    Ok(())
}

/// Each suffix followed by each prefix.
fn all_pairs(
    alloc: Global,
    suffixes: &[EndString],
    prefixes: &[EndString],
) -> Result<Vec<ExactString>, AllocError>
    ensures { IfOk result (λ strings. strings.items ≡ pairs suffixes.now prefixes.now) }
{
    let mut strings = Vec::with_capacity(alloc, count_concatenations(suffixes, prefixes))?;
    for suffix in suffixes {
        add_pairs(alloc, suffix, prefixes, &mut strings)?;
    }
    Ok(strings)
}

/// The number of pairs.
fn count_concatenations(suffixes: &[EndString], prefixes: &[EndString]) -> usize
    ensures { result ≡ min (length suffixes.now * length prefixes.now) (2 ^ 64 - 1) }
{
    suffixes.len().saturating_mul(prefixes.len())
}

/// Requires the trigrams of some pair; `All` if some pair is too short, or if there are too many.
fn product_query(
    alloc: Global,
    suffixes: &[EndString],
    prefixes: &[EndString],
) -> Result<Query, AllocError>
    ensures across { IfOk result (λ query. IsCrossQuery query suffixes.now prefixes.now) }
    ensures asked { IfOk result (λ query. (set : ℕ → Bool) → matches_set query set ≡ true →
        length suffixes.now * length prefixes.now ≤ 256 →
        has_any set (pairs suffixes.now prefixes.now) ≡ true) }
    ensures small { IfOk result (λ query. (a b : ℕ) → AreShort a suffixes.now →
        AreShort b prefixes.now → query_size query ≤ 1 + 256 * (a + b - 1)) }
{
    if count_concatenations(suffixes, prefixes) > MAX_CONCATENATIONS {
        return Ok(Query::All);
    }
    any_string(alloc, &all_pairs(alloc, suffixes, prefixes)?)
}

/// Requires, for some pair, the trigram of two bytes of the suffix and one of the prefix, and
/// separately, for some pair, that of one byte of the suffix and two of the prefix.
fn split_product_query(
    alloc: Global,
    suffixes: &[EndString],
    prefixes: &[EndString],
) -> Result<Query, AllocError>
    ensures across { IfOk result (λ query. IsCrossQuery query suffixes.now prefixes.now) }
    ensures asked { IfOk result (λ query. (set : ℕ → Bool) → matches_set query set ≡ true →
        length suffixes.now * length prefixes.now ≤ 256 →
        has_any set (pairs suffixes.now (all_truncated 1 prefixes.now)) ≡ true ×
        has_any set (pairs (all_truncated 1 suffixes.now) prefixes.now) ≡ true) }
    ensures small { IfOk result (λ query. AreShort 2 suffixes.now → AreShort 2 prefixes.now →
        query_size query ≤ cross_size) }
{
    let last = truncated_end_strings(alloc, suffixes, 1)?;
    let first = truncated_end_strings(alloc, prefixes, 1)?;
    let mut conjuncts = Vec::new(alloc);
    add_conjunct(&mut conjuncts, product_query(alloc, suffixes, &first)?)?;
    add_conjunct(&mut conjuncts, product_query(alloc, &last, prefixes)?)?;
    Ok(Query::And(conjuncts))
}
