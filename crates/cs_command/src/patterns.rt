// What is searched for.
ghost use Rattle.std.specs.Prelude.{◌≡◌, ◌≢◌, map, string_bytes, Ok, Err, IfOk, IfErr};
ghost use Rattle.cs_syntax.specs.Joining.{either, pattern_of};
ghost use Rattle.cs_syntax.specs.declared.fault.PatternFault.TheVariants.{Memory as PatternMemory};
ghost use Rattle.cs_command.specs.Patterns.{is_capital, escapes, has_capital, folds, has_capitals, parsed_text, parsed, located, located_at, pattern_at, joined, pattern_by, pattern_in};
ghost use Rattle.cs_command.specs.WordLines.{line_view};
ghost use Rattle.cs_command.specs.declared.fault.RequestFault.TheVariants.{Memory};

use crate::fault::RequestFault;
use crate::letter_case::LetterCase;
use crate::options::WordPart;
use crate::settings::PatternStyle;
use crate::values::text_of;
use crate::word_lines::{WordLine, lines_in};
use cs_syntax::{Pattern, PatternError, PatternFault, parse};
use std::alloc::Global;

/// Whether a byte is a capital letter that a backslash does not escape.
fn is_capital(escaped: bool, byte: u8) -> bool
    ensures { result ≡ is_capital escaped byte }
{
    !escaped && byte.is_ascii_uppercase()
}

/// Whether a byte is a backslash that escapes the next one.
fn escapes(literal: bool, escaped: bool, byte: u8) -> bool
    ensures { result ≡ escapes literal escaped byte }
{
    !literal && !escaped && byte == b'\\'
}

/// Whether a text has a capital letter; in a regular expression one that is not escaped.
fn has_capital(literal: bool, text: &[u8]) -> bool
    ensures { result ≡ has_capital literal text.now }
{
    let mut escaped = false;
    let mut rest = text;
    'bytes: while let Some((byte, behind)) = rest.split_first() {
        if is_capital(escaped, *byte) {
            return true;
        }
        escaped = escapes(literal, escaped, *byte);
        rest = behind;
    }
    false
}

/// Whether letters match in either case, for patterns that have a capital letter or have none.
fn folds(case: LetterCase, capital: bool) -> bool
    ensures { result ≡ folds case capital }
{
    match case {
        LetterCase::Exact => false,
        LetterCase::Fold => true,
        LetterCase::Smart => !capital,
    }
}

/// Whether one of the patterns has a capital letter.
fn has_capitals(words: &[String], literal: bool, parts: &[WordPart]) -> bool
    ensures { result ≡ has_capitals (map string_bytes words.now) literal parts.now }
{
    parts.iter().any(|part| has_capital(literal, text_of(words, *part).as_bytes()))
}

/// The pattern of a text.
fn parsed(
    alloc: Global,
    style: PatternStyle,
    fold: bool,
    text: &str,
) -> Result<Pattern, PatternError>
    ensures pattern { IfOk result (λ p. parsed style fold text.now ≡ Ok p) }
    ensures fault { IfErr result (λ e. e.fault ≢ PatternMemory → parsed style fold text.now ≡ Err e) }
{
    let pattern = parsed_text(alloc, style.literal, fold, text)?;
    if style.lines {
        pattern.whole_line(alloc)
    } else {
        Ok(pattern)
    }
}

/// The pattern of a text, which is literal or a regular expression.
fn parsed_text(
    alloc: Global,
    literal: bool,
    fold: bool,
    text: &str,
) -> Result<Pattern, PatternError>
    ensures pattern { IfOk result (λ p. parsed_text literal fold text.now ≡ Ok p) }
    ensures fault { IfErr result
        (λ e. e.fault ≢ PatternMemory → parsed_text literal fold text.now ≡ Err e) }
{
    if literal {
        Pattern::literal(alloc, text, fold)
    } else {
        parse(alloc, text, fold)
    }
}

/// The error of the pattern that a line is.
fn located(line: &WordLine<'_>, error: PatternError) -> RequestFault
    ensures { result ≢ Memory →
        (result ≡ located_at (line_view line.now) error) × (error.fault ≢ PatternMemory) }
{
    match (error.fault, line.at.checked_add(error.at)) {
        // The offset of an error is in its line, so the sum is always there.
        (PatternFault::Memory, _) | (_, None) => RequestFault::Memory,
        (fault, Some(at)) => RequestFault::BadPattern(line.part, PatternError { fault, at }),
    }
}

/// The pattern that a line is.
fn pattern_at(
    alloc: Global,
    style: PatternStyle,
    fold: bool,
    line: &WordLine<'_>,
) -> Result<Pattern, RequestFault>
    ensures pattern { IfOk result (λ p. pattern_at style fold (line_view line.now) ≡ Ok p) }
    ensures fault { IfErr result
        (λ fault. fault ≢ Memory → pattern_at style fold (line_view line.now) ≡ Err fault) }
{
    match parsed(alloc, style, fold, line.text) {
        Ok(pattern) => Ok(pattern),
        Err(error) => Err(located(line, error)),
    }
}

/// The lines that match one of two patterns. `line` is the second.
fn either_at(
    alloc: Global,
    first: Pattern,
    second: Pattern,
    line: &WordLine<'_>,
) -> Result<Pattern, RequestFault>
    ensures pattern { IfOk result
        (λ p. located (line_view line.now) (pattern_of (either first second)) ≡ Ok p) }
    ensures fault { IfErr result (λ fault. fault ≢ Memory →
        located (line_view line.now) (pattern_of (either first second)) ≡ Err fault) }
{
    match first.either(alloc, second) {
        Ok(pattern) => Ok(pattern),
        Err(error) => Err(located(line, error)),
    }
}

/// The lines that match the first pattern or one of more.
fn joined(
    alloc: Global,
    style: PatternStyle,
    fold: bool,
    first: Pattern,
    more: &[WordLine<'_>],
) -> Result<Pattern, RequestFault>
    ensures pattern { IfOk result (λ p. joined style fold first (map line_view more.now) ≡ Ok p) }
    ensures fault { IfErr result
        (λ fault. fault ≢ Memory → joined style fold first (map line_view more.now) ≡ Err fault) }
{
    let mut all = first;
    'patterns: for line in more {
        let other = pattern_at(alloc, style, fold, line)?;
        all = either_at(alloc, all, other, line)?;
    }
    Ok(all)
}

/// The lines that match one of the patterns.
fn pattern_by(
    alloc: Global,
    style: PatternStyle,
    fold: bool,
    lines: &[WordLine<'_>],
) -> Result<Pattern, RequestFault>
    ensures pattern { IfOk result (λ p. pattern_by style fold (map line_view lines.now) ≡ Ok p) }
    ensures fault { IfErr result
        (λ fault. fault ≢ Memory → pattern_by style fold (map line_view lines.now) ≡ Err fault) }
{
    let Some((first, more)) = lines.split_first() else {
        return Err(RequestFault::NoPattern);
    };
    let pattern = pattern_at(alloc, style, fold, first)?;
    joined(alloc, style, fold, pattern, more)
}

/// The pattern of the lines that match one line of the parts of words.
pub(crate) fn pattern_in(
    alloc: Global,
    words: &[String],
    style: PatternStyle,
    case: LetterCase,
    parts: &[WordPart],
) -> Result<Pattern, RequestFault>
    ensures pattern { IfOk result (λ p. pattern_in (map string_bytes words.now) style case parts.now ≡ Ok p) }
    ensures fault { IfErr result (λ fault. fault ≢ Memory →
        pattern_in (map string_bytes words.now) style case parts.now ≡ Err fault) }
{
    let fold = folds(case, has_capitals(words, style.literal, parts));
    let lines = lines_in(alloc, words, parts)?;
    pattern_by(alloc, style, fold, &lines)
}
