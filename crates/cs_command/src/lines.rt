// The lines of errors.
ghost use Rattle.std.specs.Prelude.{◌≡◌, ◌++◌, ◌≤◌, map, string_bytes, take, length, count_by, replicate, codes, nat_lt, IfOk, OnOk};
ghost use Rattle.std.specs.List.{list_any};
ghost use Rattle.cs_command.specs.Lines.{line_about, line_of, unknown_line, item_line, begins_char, is_short, pattern_head, offset_line, caret_lines, pattern_lines, lines_of};
ghost use Rattle.cs_command.specs.Options.{part_of};
ghost use Rattle.cs_command.specs.Values.{text_of};

use crate::fault::RequestFault;
use crate::options::WordPart;
use crate::values::text_of;
use crate::words::ItemFault;
use cs_syntax::{PatternError, PatternFault};
use itoa::Buffer;
use std::alloc::{AllocError, Global};

/// The most characters of a pattern that is printed.
const WIDTH: usize = 72;

/// The lines of an error.
pub fn fault_line(
    alloc: Global,
    words: &[String],
    fault: RequestFault,
) -> Result<String, AllocError>
    ensures { IfOk result (λ lines. string_bytes lines ≡ lines_of (map string_bytes words.now) fault) }
{
    match fault {
        RequestFault::Item(fault) => item_line(alloc, words, fault),
        RequestFault::NoNumber(part) => { line_about(alloc, "not a number", text_of(words, part)) }
        RequestFault::NoColour(part) => {
            line_about(alloc, "not always, never or auto", text_of(words, part))
        }
        RequestFault::NoType(part) => {
            line_about(alloc, "no such type (cs --type-list)", text_of(words, part))
        }
        RequestFault::NoGlob(part) => {
            line_about(
                alloc,
                "not a glob that matches anything",
                text_of(words, part),
            )
        }
        RequestFault::NoPattern => line_of(alloc, "no pattern (cs --help)"),
        RequestFault::BadPattern(part, error) => pattern_lines(alloc, text_of(words, part), error),
        RequestFault::Memory => line_of(alloc, "out of memory"),
    }
}

/// What is wrong.
fn line_of(alloc: Global, what: &str) -> Result<String, AllocError>
    ensures { IfOk result (λ line. string_bytes line ≡ line_of what.now) }
{
    let mut line = String::from_str(alloc, "cs: ")?;
    line.push_str(what)?;
    line.push_str("\n")?;
    Ok(line)
}

/// What is wrong, and with what.
fn line_about(alloc: Global, what: &str, text: &str) -> Result<String, AllocError>
    ensures { IfOk result (λ line. string_bytes line ≡ line_about what.now text.now) }
{
    let mut line = String::from_str(alloc, "cs: ")?;
    line.push_str(what)?;
    line.push_str(": ")?;
    line.push_str(text)?;
    line.push_str("\n")?;
    Ok(line)
}

/// The line of words that are no options and operands.
fn item_line(alloc: Global, words: &[String], fault: ItemFault) -> Result<String, AllocError>
    ensures { IfOk result (λ line. string_bytes line ≡ item_line (map string_bytes words.now) fault) }
{
    match fault {
        ItemFault::Unknown(word, _) => unknown_line(alloc, whole_word(words, word)),
        ItemFault::LeftOut(word, _) => {
            line_about(
                alloc,
                "an option of rg that cs does not have",
                whole_word(words, word),
            )
        }
        ItemFault::ExtraValue(word) => {
            line_about(
                alloc,
                "an option that takes no value",
                whole_word(words, word),
            )
        }
        ItemFault::NoValue(_) => line_of(alloc, "the last option needs a value"),
        ItemFault::Memory => line_of(alloc, "out of memory"),
    }
}

/// The line of an option that does not exist.
fn unknown_line(alloc: Global, option: &str) -> Result<String, AllocError>
    ensures { IfOk result (λ line. string_bytes line ≡ unknown_line option.now) }
{
    let mut line = String::from_str(alloc, "cs: unknown option: ")?;
    line.push_str(option)?;
    line.push_str(" (cs --help)\n")?;
    Ok(line)
}

/// The word with an index.
fn whole_word<'w>(words: &'w [String], word: usize) -> &'w str
    ensures { result.now ≡ text_of (map string_bytes words.now) (part_of word 0) }
{
    text_of(words, WordPart { word, from: 0 })
}

/// Whether a text has one line, no tab and few characters.
fn is_short(text: &str) -> bool
    ensures { result ≡ is_short text.now }
{
    count_chars(text.as_bytes()) <= WIDTH && !has_control(text.as_bytes())
}

/// Whether there is a tab, a newline or the like.
fn has_control(bytes: &[u8]) -> bool
    ensures { result ≡ list_any (λ byte. nat_lt byte 32) bytes.now }
{
    bytes.iter().any(|byte| *byte < 32)
}

/// How many characters of a text begin in these bytes.
fn count_chars(bytes: &[u8]) -> usize
    ensures { result ≡ count_by begins_char bytes.now }
{
    bytes
        .iter()
        .filter(|byte| **byte < 128 || **byte >= 192)
        .count()
}

/// The lines of an error of a pattern: what is wrong, the pattern, and a caret below the character.
/// If the pattern is not short, they have only the offset.
fn pattern_lines(alloc: Global, text: &str, error: PatternError) -> Result<String, AllocError>
    ensures { IfOk result (λ lines. string_bytes lines ≡ pattern_lines text.now error) }
{
    let head = pattern_head(alloc, error.fault)?;
    if is_short(text) {
        with_caret(head, text, error.at)
    } else {
        with_offset(head, error.at)
    }
}

/// What is wrong with a pattern.
fn pattern_head(alloc: Global, fault: PatternFault) -> Result<String, AllocError>
    ensures { IfOk result (λ line. string_bytes line ≡ pattern_head fault) }
{
    let mut line = String::from_str(alloc, "cs: bad pattern: ")?;
    line.push_str(fault.text())?;
    Ok(line)
}

/// The offset of an error.
fn with_offset(head: String, at: usize) -> Result<String, AllocError>
    ensures { IfOk result (λ line. string_bytes line ≡ string_bytes head ++ offset_line at) }
{
    let mut line = head;
    line.push_str(", at byte ")?;
    line.push_str(Buffer::new().format(at))?;
    line.push_str("\n")?;
    Ok(line)
}

/// A pattern, and a caret below the character at an offset.
fn with_caret(head: String, text: &str, at: usize) -> Result<String, AllocError>
    ensures { IfOk result (λ lines. string_bytes lines ≡ string_bytes head ++ caret_lines text.now at) }
{
    let mut lines = head;
    lines.push_str("\n  ")?;
    lines.push_str(text)?;
    lines.push_str("\n  ")?;
    push_spaces(&mut lines, count_chars(bytes_before(text.as_bytes(), at)))?;
    lines.push_str("^\n")?;
    Ok(lines)
}

/// The bytes before an offset.
fn bytes_before(bytes: &[u8], at: usize) -> &[u8]
    ensures { result.now ≡ take at bytes.now }
{
    if at <= bytes.len() {
        &bytes[..at]
    } else {
        bytes
    }
}

/// Adds spaces.
fn push_spaces(line: &mut String, count: usize) -> Result<(), AllocError>
    ensures { OnOk result (string_bytes line.new ≡ string_bytes line.old ++ replicate count 32) }
{
    'spaces: for _index in 0..count {
        line.push_str(" ")?;
    }
    Ok(())
}
