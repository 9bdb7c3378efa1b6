// Big-endian numbers and NUL-terminated strings in the bytes of an index. NULs are found many bytes
// at a time.
ghost use Rattle.std.specs.Prelude.{◌≡◌, ◌≢◌, ◌≤◌, ◌<◌, ◌+◌, ◌++◌, [], ◌∷◌, ℕ, List, Option, length, IfSome, IfNone, true, false, ◌||◌, bytes_eq, count_by};
ghost use Rattle.std.specs.List.{AllByRecursion};
ghost use Rattle.cs_index.specs.Cited.{are_ascending, HasNoText, IsNoSection, IsTextRun, with_nul, number_at, trigram_at, is_names_section, is_section, texts_of, AreTextsTo, IsPairAt, is_nul};

use memchr::{memchr, memrchr};

/// The strings at the start of bytes: their length in bytes, each with its NUL, and their number.
#[derive(Clone, Copy, Drop)]
pub(crate) struct TextRun {
    pub(crate) len: usize,
    pub(crate) count: usize,
}

/// The big-endian number in the four bytes at an offset.
#[tactic(auto, unfolding(crate::specs::Opening::number_at))]
pub(crate) fn read_number(bytes: &[u8], at: usize) -> u32
    requires { at + 4 ≤ length bytes.now }
    ensures { result ≡ number_at bytes.now at }
{
    u32::from_be_bytes([bytes[at], bytes[at + 1], bytes[at + 2], bytes[at + 3]])
}

/// The big-endian number in the three bytes at an offset.
#[tactic(auto, unfolding(crate::specs::Opening::trigram_at))]
pub(crate) fn read_trigram(bytes: &[u8], at: usize) -> u32
    requires { at + 3 ≤ length bytes.now }
    ensures { result ≡ trigram_at bytes.now at }
{
    u32::from_be_bytes([0, bytes[at], bytes[at + 1], bytes[at + 2]])
}

/// The first string of a section and the bytes after its NUL; `None` if the string is empty or has
/// no NUL.
pub(crate) fn first_text(section: &[u8]) -> Option<(&[u8], &[u8])>
    ensures text { IfSome result (λ found. section.now ≡ with_nul found.0.now ++ found.1.now) }
    ensures some { IfSome result (λ found. found.0.now ≢ []) }
    ensures above { IfSome result (λ found. AllByRecursion (λ b. 0 < b) found.0.now) }
    ensures none { IfNone result (HasNoText section.now) }
{
    let end = memchr(0, section)?;
    if end == 0 {
        return None;
    }
    Some((&section[..end], &section[end + 1..]))
}

/// The strings at the start of a section, by its first bytes; `None` if the section is not valid.
pub(crate) fn first_texts(piece: &[u8]) -> Option<TextRun>
    ensures run { IfSome result (IsTextRun piece.now) }
    ensures none { IfNone result ((more : List ℕ) → IsNoSection (piece.now ++ more)) }
{
    let (texts, rest) = piece.split_at(texts_len(piece));
    // A NUL is a character, so the strings are UTF-8 if all these bytes are.
    if std::str::from_utf8(texts).is_err() {
        return None;
    }
    // A NUL without a string ends the section.
    if rest.len() > 1 && rest[0] == 0 {
        return None;
    }
    Some(TextRun {
        len: texts.len(),
        count: count_nuls(texts),
    })
}

/// Whether a section is strings and one final NUL.
pub(crate) fn is_closed(section: &[u8]) -> bool
    ensures { result ≡ is_section (0 ∷ []) section.now }
{
    match first_texts(section) {
        Some(run) => &section[run.len..] == b"\0".as_slice(),
        None => false,
    }
}

/// The strings of a section of names; `None` if it is not strings and at most one final NUL.
pub(crate) fn names_run(section: &[u8]) -> Option<TextRun>
    ensures run { IfSome result (IsTextRun section.now) }
    ensures some { IfSome result (λ _. is_names_section section.now ≡ true) }
    ensures none { IfNone result (is_names_section section.now ≡ false) }
{
    let Some(run) = first_texts(section) else {
        return None;
    };
    if !is_ending(&section[run.len..]) {
        return None;
    }
    Some(run)
}

/// Whether the bytes are at most one NUL.
pub(crate) fn is_ending(bytes: &[u8]) -> bool
    ensures { result ≡ (bytes_eq bytes.now (0 ∷ []) || bytes_eq bytes.now []) }
{
    bytes == b"\0".as_slice() || bytes.is_empty()
}

/// Whether the strings of a section are strictly ascending.
pub(crate) fn ascend(section: &[u8]) -> bool
    requires { is_names_section section.now ≡ true }
    ensures { result ≡ are_ascending (texts_of section.now) }
{
    let mut rest = section;
    let mut last = &section[..0];
    'texts: while let Some((text, next)) = first_text(rest) {
        if last.cmp(&text).is_ge() {
            return false;
        }
        last = text;
        rest = next;
    }
    true
}

/// The bytes of a part, whose NULs are counted in one byte, so that the compiler makes vectors.
const PART: usize = 240;

/// The bytes of a span, which is tested for two NULs in a row as a whole.
const SPAN: usize = 4096;

/// The length of the strings at the start of bytes, each with its NUL.
fn texts_len(bytes: &[u8]) -> usize
    ensures { AreTextsTo bytes.now result }
{
    if bytes.is_empty() || bytes[0] == 0 {
        return 0;
    }
    let last = match first_pair(bytes) {
        Some(pair) => Some(pair),
        None => memrchr(0, bytes),
    };
    match last {
        Some(nul) => nul + 1,
        None => 0,
    }
}

/// The first NUL that another one follows.
fn first_pair(bytes: &[u8]) -> Option<usize>
    ensures some { IfSome result (IsPairAt bytes.now) }
    ensures first { IfSome result (λ pair. (k : ℕ) → k < pair → IsPairAt bytes.now k → ⊥) }
    ensures none { IfNone result ((k : ℕ) → IsPairAt bytes.now k → ⊥) }
{
    let mut at = 0;
    'spans: while at < bytes.len() && !has_pair(&bytes[at..bytes.len().min(at + SPAN + 1)]) {
        at += SPAN;
    }
    first_pair_from(bytes, at)
}

/// The first NUL at or after an offset that another one follows.
fn first_pair_from(bytes: &[u8], from: usize) -> Option<usize>
    ensures some { IfSome result (IsPairAt bytes.now) }
    ensures first { IfSome result (λ pair. (k : ℕ) → from ≤ k → k < pair → IsPairAt bytes.now k → ⊥) }
    ensures none { IfNone result ((k : ℕ) → from ≤ k → IsPairAt bytes.now k → ⊥) }
{
    let mut at = from;
    'bytes: while at < bytes.len() && bytes.len() - at > 1 {
        if bytes[at] == 0 && bytes[at + 1] == 0 {
            return Some(at);
        }
        at += 1;
    }
    None
}

/// Whether a NUL follows another one.
fn has_pair(span: &[u8]) -> bool
    ensures { result ≡ false → (k : ℕ) → IsPairAt span.now k → ⊥ }
{
    let mut least = 1;
    for at in 1..span.len() {
        least = span[at - 1].max(span[at]).min(least);
    }
    least == 0
}

/// The number of NULs.
fn count_nuls(bytes: &[u8]) -> usize
    ensures { result ≡ count_by is_nul bytes.now }
{
    let mut count = 0;
    let mut rest = bytes;
    'parts: while rest.len() > PART {
        let (part, more) = rest.split_at(PART);
        count += count_in_part(part) as usize;
        rest = more;
    }
    count + count_in_part(rest) as usize
}

/// The number of NULs in a part.
fn count_in_part(part: &[u8]) -> u8
    requires { length part.now ≤ PART }
    ensures { result ≡ count_by is_nul part.now }
{
    let mut count = 0u8;
    for b in part {
        count += u8::from(*b == 0);
    }
    count
}
