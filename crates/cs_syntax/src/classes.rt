// Bracket classes, such as `[a-z]` and `[^[:digit:]]`, and the character sets of classes and dots.
ghost use Rattle.std.specs.Prelude.{◌≡◌, ◌+◌, ◌-◌, ◌*◌, ◌≤◌, ◌<◌, ◌^◌, ◌&&◌, ◌∷◌, not, nat_eq, true, ℕ, List, length, chars, slice_index, MatchResult, IfOk, IfSome, ◌||◌, [], false, OnOk};
ghost use Rattle.cs_syntax.specs.Cited.{class_escape, class_char, range_to, range_from, span, name_length, class_by_name, posix_class, after_colon, after_backslash, class_token, items_from, class, IsParsedClass, is_other_case, StaysWithin, IsTokenOf, class_token_view, class_char_view, is_in_ranges, is_in_folded, is_scalar, has_char, canonical_ranges, ranges_of, is_in_item};

use crate::char_set::CharSet;
use crate::escapes::{escaped_char, escaped_class, is_unsupported_escape};
use crate::fault::PatternFault;
use crate::items::{Atom, ClassItem, Item, ItemError, NamedClass};
use crate::lookahead::{count_continuation, starts_with_byte};
use std::alloc::{AllocError, Global};

/// The class that begins with `[`. `rest` follows the bracket.
pub(crate) fn class(alloc: Global, fold: bool, rest: &[u8]) -> Result<(Item, usize), ItemError>
    ensures value { (lexeme : List ℕ) → IsTokenOf lexeme result (class fold rest.now) }
    ensures within { StaysWithin (length rest.now) (length rest.now + 1) result }
{
    if starts_with_byte(b'^', rest) {
        let (ranges, len) = items(alloc, fold, 2, &rest[1..])?;
        let set = CharSet::of_ranges(alloc, true, &ranges)?;
        return Ok((Item::Atom(Atom::Chars(set)), len));
    }
    let (ranges, len) = items(alloc, fold, 1, rest)?;
    let set = CharSet::of_ranges(alloc, false, &ranges)?;
    Ok((Item::Atom(Atom::Chars(set)), len))
}

const CAPITAL: u32 = 'A' as u32;

const SMALL: u32 = 'a' as u32;

/// All characters; without `dot_all` all except the newline.
pub(crate) fn dot(alloc: Global, dot_all: bool) -> Result<CharSet, AllocError>
    ensures { IfOk result (λ set. set ≡ canonical_ranges (λ c. dot_all || not (nat_eq c 10))) }
{
    if dot_all {
        CharSet::of_ranges(alloc, true, &[])
    } else {
        CharSet::of_ranges(alloc, true, &[('\n' as u32, '\n' as u32)])
    }
}

/// The set of an item outside brackets, such as `\d`. It is not case-folded.
pub(crate) fn one_item(alloc: Global, item: ClassItem) -> Result<CharSet, AllocError>
    ensures { IfOk result (λ set. set ≡ canonical_ranges (is_in_item false item)) }
{
    let mut ranges = Vec::new(alloc);
    add_item(alloc, false, item, &mut ranges)?;
    CharSet::of_ranges(alloc, false, &ranges)
}

/// The character of an escape in a class. The text follows the backslash.
fn class_escape(text: &[u8]) -> Result<(u32, usize), PatternFault>
    ensures value { class_char_view result ≡ class_escape text.now }
    ensures within { IfOk result (λ r. r.1 ≤ length text.now) }
{
    let Some((&letter, _)) = text.split_first() else {
        return Err(PatternFault::LoneBackslash);
    };
    if is_unsupported_escape(letter) {
        return Err(PatternFault::NotInProfile);
    }
    let Some(escaped) = escaped_char(text) else {
        return Err(PatternFault::BadEscape);
    };
    Ok((escaped.char as u32, escaped.len))
}

/// Decodes a multi-byte UTF-8 sequence: its lead byte and its continuation bytes.
fn decode_multibyte(first: u8, others: &[u8]) -> u32
    requires { 128 ≤ first }
    ensures { result ≡ slice_index (chars (first ∷ others.now)) 0 }
{
    if first < 0xE0 {
        let [a, ..] = others else {
            return 0;
        };
        return with_continuation(first.saturating_sub(0xC0) as u32, *a);
    }
    if first < 0xF0 {
        let [a, b, ..] = others else {
            return 0;
        };
        return with_continuation(with_continuation((first - 0xE0) as u32, *a), *b);
    }
    let [a, b, c, ..] = others else {
        return 0;
    };
    with_continuation(
        with_continuation(with_continuation((first - 0xF0) as u32, *a), *b),
        *c,
    )
}

/// Appends the six bits of a continuation byte.
fn with_continuation(number: u32, byte: u8) -> u32
    requires { number < 2 ^ 20 }
    ensures { result ≡ number * 64 + (byte - 128) }
{
    number * 64 + byte.saturating_sub(0x80) as u32
}

/// One character, and the number of its bytes after the first.
fn class_char(byte: u8, rest: &[u8]) -> Result<(u32, usize), PatternFault>
    ensures value { class_char_view result ≡ class_char byte rest.now }
    ensures within { IfOk result (λ r. r.1 ≤ length rest.now) }
{
    if byte == b'\\' {
        return class_escape(rest);
    }
    if byte < 128 {
        return Ok((byte as u32, 0));
    }
    let len = count_continuation(rest);
    Ok((decode_multibyte(byte, &rest[..len]), len))
}

/// The range from `low` to `high`. `len` is the number of its bytes between its first and `high`.
fn range_to(
    low: u32,
    len: usize,
    high: Result<(u32, usize), PatternFault>,
) -> Result<(ClassItem, usize), ItemError>
    requires { IfOk high (λ r. len + r.1 < 2 ^ 64) }
    ensures value { class_token_view result ≡ range_to low len (class_char_view high) }
    ensures within { MatchResult result
        (λ r. IfOk high (λ h. r.1 ≤ len + h.1)) (λ m. m.distance ≤ len) }
{
    match high {
        Err(fault) => Err(ItemError {
            fault,
            distance: len,
        }),
        Ok((high, more)) => {
            if high < low {
                return Err(ItemError::at_start(PatternFault::BadRange));
            }
            Ok((ClassItem::Range(low, high), len + more))
        }
    }
}

/// The range that begins with `low` if a `-` follows, otherwise `low` alone.
fn range_from(low: u32, len: usize, rest: &[u8]) -> Result<(ClassItem, usize), ItemError>
    requires { len + length rest.now < 2 ^ 63 }
    ensures value { class_token_view result ≡ range_from low len rest.now }
    ensures within { StaysWithin (len + length rest.now) (len + length rest.now) result }
{
    match rest {
        [b'-', c, after @ ..] if *c != b']' => range_to(low, len + 2, class_char(*c, after)),
        _ => Ok((ClassItem::Range(low, low), len)),
    }
}

/// A character, or the range that begins with it.
fn span(
    low: Result<(u32, usize), PatternFault>,
    rest: &[u8],
) -> Result<(ClassItem, usize), ItemError>
    requires { IfOk low (λ l. l.1 ≤ length rest.now) }
    ensures value { class_token_view result ≡ span (class_char_view low) rest.now }
    ensures within { StaysWithin (length rest.now) (length rest.now) result }
{
    match low {
        Err(fault) => Err(ItemError { fault, distance: 0 }),
        Ok((low, len)) => range_from(low, len, &rest[len..]),
    }
}

/// The number of bytes before the first `:]`, if there is one.
fn name_length(text: &[u8]) -> Option<usize>
    ensures value { result ≡ name_length text.now }
    ensures within { IfSome result (λ n. n + 2 ≤ length text.now) }
{
    for offset in 0..text.len() {
        if text[offset..].starts_with(b":]") {
            return Some(offset);
        }
    }
    None
}

/// The POSIX classes.
const NAMED: [(&str, NamedClass); 14] = [
    ("alnum", NamedClass::Alnum),
    ("alpha", NamedClass::Alpha),
    ("ascii", NamedClass::Ascii),
    ("blank", NamedClass::Blank),
    ("cntrl", NamedClass::Cntrl),
    ("digit", NamedClass::Digit),
    ("graph", NamedClass::Graph),
    ("lower", NamedClass::Lower),
    ("print", NamedClass::Print),
    ("punct", NamedClass::Punct),
    ("space", NamedClass::Space),
    ("upper", NamedClass::Upper),
    ("word", NamedClass::Word),
    ("xdigit", NamedClass::Xdigit),
];

/// The POSIX class of a name.
fn class_by_name(name: &[u8]) -> Option<NamedClass>
    ensures { result ≡ class_by_name name.now }
{
    for (word, class) in &NAMED {
        if name == word.as_bytes() {
            return Some(*class);
        }
    }
    None
}

/// The POSIX class `[:name:]` or `[:^name:]`. `name` includes the `^`.
fn posix_class(name: &[u8]) -> Result<(ClassItem, usize), ItemError>
    requires { length name.now + 3 < 2 ^ 64 }
    ensures value { class_token_view result ≡ posix_class name.now }
    ensures within { StaysWithin (length name.now + 3) 0 result }
{
    let negated = starts_with_byte(b'^', name);
    let word = if negated { &name[1..] } else { name };
    match class_by_name(word) {
        Some(class) => Ok((ClassItem::Named(class, negated), name.len() + 3)),
        None => Err(ItemError::at_start(PatternFault::BadRange)),
    }
}

/// The item that begins with `[:`. The text follows the colon; without a `:]` the `[` is a literal.
fn after_colon(text: &[u8]) -> Result<(ClassItem, usize), ItemError>
    requires { length text.now + 1 < 2 ^ 63 }
    ensures value { class_token_view result ≡ after_colon text.now }
    ensures within { StaysWithin (length text.now + 1) (length text.now + 1) result }
{
    match name_length(text) {
        Some(n) => posix_class(&text[..n]),
        None => Ok((ClassItem::Range('[' as u32, '[' as u32), 0)),
    }
}

/// The item that begins with a backslash. `rest` follows it.
fn after_backslash(rest: &[u8]) -> Result<(ClassItem, usize), ItemError>
    ensures value { class_token_view result ≡ after_backslash rest.now }
    ensures within { StaysWithin (length rest.now) (length rest.now) result }
{
    let Some((&letter, _)) = rest.split_first() else {
        return Err(ItemError::at_start(PatternFault::LoneBackslash));
    };
    match escaped_class(letter) {
        Some(item) => Ok((item, 1)),
        None => span(class_escape(rest), rest),
    }
}

/// The item that begins with `byte`.
fn class_token(byte: u8, rest: &[u8]) -> Result<(ClassItem, usize), ItemError>
    ensures value { class_token_view result ≡ class_token byte rest.now }
    ensures within { StaysWithin (length rest.now) (length rest.now) result }
{
    if byte == b'[' && starts_with_byte(b':', rest) {
        return after_colon(&rest[1..]);
    }
    if byte == b'\\' {
        return after_backslash(rest);
    }
    span(class_char(byte, rest), rest)
}

/// Whether the byte closes the class. A `]` at the start is a literal.
fn closes(byte: u8, start: bool) -> bool
    ensures { result ≡ (nat_eq byte 93 && not start) }
{
    byte == b']' && !start
}

/// The ranges of the items up to the `]`, and the distance of the `]` from the `[`. The text begins
/// `distance` bytes after the `[`.
fn items(
    alloc: Global,
    fold: bool,
    distance: usize,
    text: &[u8],
) -> Result<(Vec<(u32, u32)>, usize), ItemError>
    requires { distance + length text.now < 2 ^ 64 }
    ensures value { IsParsedClass fold (items_from 0 distance true text.now) result }
    ensures within { MatchResult result (λ r. r.1 < distance + length text.now)
        (λ m. m.distance ≤ distance + length text.now) }
{
    let mut ranges = Vec::new(alloc);
    let mut offset = 0;
    'items: while offset < text.len() {
        if closes(text[offset], offset == 0) {
            return Ok((ranges, distance + offset));
        }
        match class_token(text[offset], &text[offset + 1..]) {
            Ok((item, len)) => {
                add_item(alloc, fold, item, &mut ranges)?;
                offset += 1 + len;
            }
            Err(m) => {
                return Err(ItemError {
                    fault: m.fault,
                    distance: distance + offset + m.distance,
                });
            }
        }
    }
    Err(ItemError::at_start(PatternFault::OpenClass))
}

/// Adds the characters of a class item to the ranges.
fn add_item(
    alloc: Global,
    fold: bool,
    item: ClassItem,
    ranges: &mut Vec<(u32, u32)>,
) -> Result<(), AllocError>
    ensures { OnOk result ((c : ℕ) → has_char ranges.new.items c
        ≡ (has_char ranges.old.items c || (is_scalar c && is_in_item fold item c))) }
{
    match item {
        ClassItem::Range(low, high) => add_folded(fold, &[(low, high)], ranges),
        ClassItem::Named(class, negated) => {
            if negated {
                add_others(alloc, fold, ranges_of(class), ranges)
            } else {
                add_folded(fold, ranges_of(class), ranges)
            }
        }
    }
}

/// Adds the complement of the named ranges. With `fold` they are case-folded first.
fn add_others(
    alloc: Global,
    fold: bool,
    named: &[(u32, u32)],
    ranges: &mut Vec<(u32, u32)>,
) -> Result<(), AllocError>
    ensures { OnOk result ((c : ℕ) → has_char ranges.new.items c
        ≡ (has_char ranges.old.items c || (is_scalar c && not (is_in_folded fold named.now c)))) }
{
    let mut folded = Vec::new(alloc);
    add_folded(fold, named, &mut folded)?;
    let others = CharSet::of_ranges(alloc, true, &folded)?;
    ranges.extend_from_slice(others.runs())?;
    Ok(())
}

/// Adds ranges; with `fold` also the other case of their ASCII letters.
fn add_folded(
    fold: bool,
    more: &[(u32, u32)],
    ranges: &mut Vec<(u32, u32)>,
) -> Result<(), AllocError>
    ensures { OnOk result ((c : ℕ) → is_in_ranges ranges.new.items c
        ≡ (is_in_ranges ranges.old.items c || is_in_folded fold more.now c)) }
{
    for range in more {
        add_range(fold, *range, ranges)?;
    }
    Ok(())
}

fn add_range(fold: bool, range: (u32, u32), ranges: &mut Vec<(u32, u32)>) -> Result<(), AllocError>
    ensures { OnOk result ((c : ℕ) → is_in_ranges ranges.new.items c
        ≡ (is_in_ranges ranges.old.items c || is_in_folded fold (range ∷ []) c)) }
{
    ranges.push(range)?;
    if fold {
        add_letters(range, SMALL, CAPITAL, ranges)?;
        add_letters(range, CAPITAL, SMALL, ranges)?;
        return Ok(());
    }
    Ok(())
}

/// Adds the letters of the range that are in one case, converted to the other case. `from` and `to`
/// are the first letters (`a` or `A`) of the two cases.
fn add_letters(
    range: (u32, u32),
    from: u32,
    to: u32,
    ranges: &mut Vec<(u32, u32)>,
) -> Result<(), AllocError>
    requires from { from ≤ 97 }
    requires to { to ≤ 97 }
    ensures { OnOk result ((c : ℕ) → is_in_ranges ranges.new.items c
        ≡ (is_in_ranges ranges.old.items c || is_other_case range from to c)) }
{
    let low = range.0.max(from);
    let high = range.1.min(from + 25);
    if low <= high {
        ranges.push((low - from + to, high - from + to))?;
    }
    Ok(())
}

/// The ranges of a named class.
fn ranges_of(class: NamedClass) -> &'static [(u32, u32)]
    ensures { result.now ≡ ranges_of class }
{
    match class {
        NamedClass::Alnum => &[(48, 57), (65, 90), (97, 122)],
        NamedClass::Alpha => &[(65, 90), (97, 122)],
        NamedClass::Ascii => &[(0, 127)],
        NamedClass::Blank => &[(9, 9), (32, 32)],
        NamedClass::Cntrl => &[(0, 31), (127, 127)],
        NamedClass::Digit => &[(48, 57)],
        NamedClass::Graph => &[(33, 126)],
        NamedClass::Lower => &[(97, 122)],
        NamedClass::Print => &[(32, 126)],
        NamedClass::Punct => &[(33, 47), (58, 64), (91, 96), (123, 126)],
        NamedClass::Space => &[(9, 13), (32, 32)],
        NamedClass::Upper => &[(65, 90)],
        NamedClass::Word => &[(48, 57), (65, 90), (95, 95), (97, 122)],
        NamedClass::Xdigit => &[(48, 57), (65, 70), (97, 102)],
        NamedClass::White => &[(9, 10), (12, 13), (32, 32)],
    }
}
