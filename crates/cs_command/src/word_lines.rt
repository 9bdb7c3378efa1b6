// The lines of words: each line of a text of patterns is a pattern, as in grep(1).
ghost use Rattle.std.specs.Prelude.{◌≡◌, ◌++◌, map, string_bytes, IfOk, OnOk};
ghost use Rattle.cs_command.specs.WordLines.{line_view, part_lines, lines_in};

use crate::options::WordPart;
use crate::values::text_of;
use std::alloc::{AllocError, Global};

/// A line of a part of a word.
#[derive(Clone, Copy, Drop)]
pub(crate) struct WordLine<'w> {
    pub(crate) part: WordPart,
    /// The offset of the line in the part.
    pub(crate) at: usize,
    pub(crate) text: &'w str,
}

/// Adds the lines of a text, which is that of a part of a word. A newline separates two lines.
fn push_lines<'w>(
    lines: &mut Vec<WordLine<'w>>,
    part: WordPart,
    text: &'w str,
) -> Result<(), AllocError>
    ensures { OnOk result
        (map line_view lines.new.items ≡ map line_view lines.old.items ++ part_lines part text.now) }
{
    let mut at = 0;
    let mut rest = text;
    'lines: while let Some((text, behind)) = rest.split_once('\n') {
        lines.push(WordLine { part, at, text })?;
        at += text.len() + 1;
        rest = behind;
    }
    lines.push(WordLine {
        part,
        at,
        text: rest,
    })?;
    Ok(())
}

/// The lines of parts of words.
pub(crate) fn lines_in<'w>(
    alloc: Global,
    words: &'w [String],
    parts: &[WordPart],
) -> Result<Vec<WordLine<'w>>, AllocError>
    ensures { IfOk result
        (λ lines. map line_view lines.items ≡ lines_in (map string_bytes words.now) parts.now) }
{
    let mut lines = Vec::new(alloc);
    'parts: for part in parts {
        push_lines(&mut lines, *part, text_of(words, *part))?;
    }
    Ok(lines)
}
