// The text rules, byte by byte, and a fast path: chunks of bytes are tested without a branch for
// each byte, and only a chunk that fails is tested byte by byte.
ghost use Rattle.std.specs.Prelude.{◌≡◌, ◌+◌, ◌<◌, ◌≤◌, ◌^◌, ◌&&◌, nat_le, ℕ, List, [], ◌∷◌, ◌++◌, None, length, IfOk, ◌-◌, IsTrue, IfSome, Ok};
ghost use Rattle.std.specs.List.{AllByRecursion};
ghost use Rattle.cs_trigram.specs.Cited.{valid_utf8_pair, rule_broken, AreSmallLimits, IsPositionAfter, IsAdvancedBy, ValidatesFrom, LinesFit, column_after, AreValidPairs};

use crate::scan::{Limits, Reason};
use memchr::{memchr, memrchr};

/// The state of a scan at an offset of a file: the number of bytes before it in the file and in its
/// line, and the last byte before it (00 at the start).
#[derive(Clone, Copy)]
pub(crate) struct TextPosition {
    pub(crate) count: u64,
    pub(crate) column: usize,
    pub(crate) before: u8,
}

impl TextPosition {
    /// The start of a file.
    pub(crate) const START: TextPosition = TextPosition {
        count: 0,
        column: 0,
        before: 0,
    };
}

/// The number of bytes that are tested at a time.
const CHUNK: usize = 1024;

/// The position after some more bytes, or the first broken rule.
pub(crate) fn validate(
    limits: &Limits,
    position: TextPosition,
    bytes: &[u8],
) -> Result<TextPosition, Reason>
    requires small { AreSmallLimits limits.now }
    requires count { position.count ≤ limits.now.bytes }
    requires column { position.column ≤ limits.now.line }
    ensures rule { ValidatesFrom limits.now position bytes.now result }
    ensures count { IfOk result (IsAdvancedBy limits.now position (length bytes.now)) }
    ensures column { IfOk result (λ next. next.column ≤ limits.now.line) }
{
    let mut position = position;
    let mut offset = 0;
    'chunks: while offset < bytes.len() {
        let end = offset + CHUNK.min(bytes.len() - offset);
        position = validate_chunk(limits, position, &bytes[offset..end])?;
        offset = end;
    }
    Ok(position)
}

/// Whether the byte is a UTF-8 lead byte.
fn is_lead(byte: u8) -> bool
    ensures { result ≡ (nat_le 192 byte && nat_le byte 247) }
{
    0xc0 <= byte && byte <= 0xf7
}

/// Whether a byte may follow another one in UTF-8 (`validUTF8` in Go's codesearch). Only pairs of
/// bytes are tested, so this is weaker than UTF-8 validation.
fn valid_utf8_pair(before: u8, byte: u8) -> bool
    ensures { result ≡ valid_utf8_pair before byte }
{
    if before < 0x80 {
        byte < 0x80 || is_lead(byte)
    } else if before < 0xc0 {
        byte <= 0xf7
    } else if before < 0xf8 {
        0x80 <= byte && byte < 0xc0
    } else {
        false
    }
}

/// The rule that a byte breaks at this position.
fn rule_broken(limits: &Limits, position: TextPosition, byte: u8) -> Option<Reason>
    ensures rule { (prefix : List ℕ) → IsPositionAfter position prefix →
        result ≡ rule_broken limits.now prefix byte }
    ensures within { result ≡ None →
        (position.count < limits.now.bytes) × (position.column < limits.now.line) }
{
    if byte == 0 {
        Some(Reason::Nul)
    } else if !valid_utf8_pair(position.before, byte) {
        Some(Reason::Utf8)
    } else if limits.bytes <= position.count {
        Some(Reason::TooLong)
    } else if limits.line <= position.column {
        Some(Reason::LongLine)
    } else {
        None
    }
}

/// The position after one more byte.
fn advance(position: TextPosition, byte: u8) -> TextPosition
    requires count { position.count < 2 ^ 32 }
    requires column { position.column < 2 ^ 32 }
    ensures is_after { (prefix : List ℕ) → IsPositionAfter position prefix
        → IsPositionAfter result (prefix ++ byte ∷ []) }
    ensures count { result.count ≡ position.count + 1 }
    ensures column { result.column ≤ position.column + 1 }
{
    TextPosition {
        count: position.count + 1,
        column: if byte == b'\n' {
            0
        } else {
            position.column + 1
        },
        before: byte,
    }
}

/// The position after one more byte, or the rule that the byte breaks.
fn step(limits: &Limits, position: TextPosition, byte: u8) -> Result<TextPosition, Reason>
    requires { AreSmallLimits limits.now }
    ensures rule { ValidatesFrom limits.now position (byte ∷ []) result }
    ensures count { IfOk result (IsAdvancedBy limits.now position 1) }
    ensures column { IfOk result (λ next. next.column ≤ limits.now.line) }
{
    match rule_broken(limits, position, byte) {
        Some(reason) => Err(reason),
        None => Ok(advance(position, byte)),
    }
}

/// The position after some more bytes, or the first broken rule. Tests byte by byte.
fn validate_bytes(
    limits: &Limits,
    position: TextPosition,
    bytes: &[u8],
) -> Result<TextPosition, Reason>
    requires small { AreSmallLimits limits.now }
    requires count { position.count ≤ limits.now.bytes }
    requires column { position.column ≤ limits.now.line }
    ensures rule { ValidatesFrom limits.now position bytes.now result }
    ensures count { IfOk result (IsAdvancedBy limits.now position (length bytes.now)) }
    ensures column { IfOk result (λ next. next.column ≤ limits.now.line) }
{
    let mut position = position;
    for byte in bytes {
        position = step(limits, position, *byte)?;
    }
    Ok(position)
}

/// Whether all bytes are ASCII and not 00.
fn is_ascii(bytes: &[u8]) -> bool
    ensures { IsTrue result → AllByRecursion (λ b. (0 < b) × (b < 128)) bytes.now }
{
    bytes.is_ascii() && memchr(0, bytes).is_none()
}

/// Whether no byte is 00 and each byte may follow the one before it. The loop has no early exit, so
/// that it can be vectorised.
fn pairs_are_valid(before: u8, bytes: &[u8]) -> bool
    ensures { IsTrue result → AreValidPairs before bytes.now }
{
    let mut fit = true;
    let mut last = before;
    for byte in bytes {
        fit = fit & (*byte != 0) & valid_utf8_pair(last, *byte);
        last = *byte;
    }
    fit
}

/// Whether the bytes pass the tests of 00 and of pairs, with a faster test for ASCII.
#[tactic(auto, using(crate::proofs::FastPathLemmas::ascii_pairs_valid))]
fn are_plainly_valid(before: u8, bytes: &[u8]) -> bool
    ensures { IsTrue result → AreValidPairs before bytes.now }
{
    before < 0xc0 && is_ascii(bytes) || pairs_are_valid(before, bytes)
}

/// The column after the bytes, or `None` if some line is too long.
fn column_after(most: usize, column: usize, bytes: &[u8]) -> Option<usize>
    requires most { most < 2 ^ 32 }
    requires column { column ≤ most }
    ensures fit { IfSome result (λ end_column.
        LinesFit most column bytes.now × (end_column ≡ column_after column bytes.now)) }
    ensures within { IfSome result (λ end_column. end_column ≤ most) }
{
    let mut column = column;
    let mut rest = bytes;
    // The search is for the last newline within the limit, so it skips the newlines before that.
    'lines: while most - column < rest.len() {
        let (near, _) = rest.split_at(most - column);
        let offset = memrchr(b'\n', near)?;
        let (_, after) = rest.split_at(offset + 1);
        rest = after;
        column = 0;
    }
    Some(last_column(column, rest))
}

/// The column after the bytes.
fn last_column(column: usize, bytes: &[u8]) -> usize
    requires { column + length bytes.now < 2 ^ 33 }
    ensures end_column { result ≡ column_after column bytes.now }
    ensures within { result ≤ column + length bytes.now }
{
    match memrchr(b'\n', bytes) {
        Some(offset) => bytes.len() - (offset + 1),
        None => column + bytes.len(),
    }
}

/// The position after the bytes, if they pass the fast tests. Bytes that fail these may still break
/// no rule.
fn validate_fast(limits: &Limits, position: TextPosition, bytes: &[u8]) -> Option<TextPosition>
    requires small { AreSmallLimits limits.now }
    requires count { position.count ≤ limits.now.bytes }
    requires column { position.column ≤ limits.now.line }
    ensures rule { IfSome result (λ next. ValidatesFrom limits.now position bytes.now (Ok next)) }
    ensures count { IfSome result (IsAdvancedBy limits.now position (length bytes.now)) }
    ensures column { IfSome result (λ next. next.column ≤ limits.now.line) }
{
    let last = bytes.last()?;
    let count = position.count + bytes.len() as u64;
    if limits.bytes < count || !are_plainly_valid(position.before, bytes) {
        return None;
    }
    let column = column_after(limits.line, position.column, bytes)?;
    Some(TextPosition {
        count,
        column,
        before: *last,
    })
}

/// The position after a chunk, or the first broken rule.
fn validate_chunk(
    limits: &Limits,
    position: TextPosition,
    bytes: &[u8],
) -> Result<TextPosition, Reason>
    requires small { AreSmallLimits limits.now }
    requires count { position.count ≤ limits.now.bytes }
    requires column { position.column ≤ limits.now.line }
    ensures rule { ValidatesFrom limits.now position bytes.now result }
    ensures count { IfOk result (IsAdvancedBy limits.now position (length bytes.now)) }
    ensures column { IfOk result (λ next. next.column ≤ limits.now.line) }
{
    match validate_fast(limits, position, bytes) {
        Some(next) => Ok(next),
        None => validate_bytes(limits, position, bytes),
    }
}
