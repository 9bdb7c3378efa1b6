// Lines at the start and at the end of a block of whole lines.
ghost use Rattle.std.specs.Prelude.{◌≡◌, ◌≤◌, ◌<◌, ◌-◌, ◌+◌, ◌∷◌, length, take, drop, slice_range};
ghost use Rattle.cs_lines.specs.Cited.{newline, terminated_lines, HasNoNewline, AreWholeLines, IsFirstLines};

use cs_match::whole_lines_len;
use memchr::memchr;

/// The offset of the first newline at or after `from`.
pub(crate) fn line_end(block: &[u8], from: usize) -> usize
    requires within { from < length block.now }
    requires whole { AreWholeLines (drop from block.now) }
    ensures low { from ≤ result }
    ensures high { result < length block.now }
    ensures part { HasNoNewline (slice_range block.now from result) }
    ensures newline { drop result block.now ≡ newline ∷ drop (result + 1) block.now }
{
    match memchr(b'\n', &block[from..]) {
        Some(offset) => from + offset,
        None => unreachable!(),
    }
}

/// The offset of the last `count` lines of a block, or 0 if it has fewer.
pub(crate) fn last_lines(block: &[u8], count: usize) -> usize
    requires whole { AreWholeLines block.now }
    ensures within { result ≤ length block.now }
    ensures whole { AreWholeLines (take result block.now) }
    ensures last { terminated_lines (drop result block.now)
        ≡ drop (length (terminated_lines block.now) - count) (terminated_lines block.now) }
{
    let mut start = block.len();
    let mut left = count;
    'lines: while left > 0 && start > 0 {
        start = whole_lines_len(&block[..start - 1]);
        left -= 1;
    }
    start
}

/// The length of the first `count` lines of a block, or of all if it has fewer.
pub(crate) fn first_lines(block: &[u8], count: usize) -> usize
    requires whole { AreWholeLines block.now }
    ensures { IsFirstLines count block.now result }
{
    let mut offset = 0;
    let mut left = count;
    'lines: while left > 0 && offset < block.len() {
        offset = line_end(block, offset) + 1;
        left -= 1;
    }
    offset
}

// The number of newlines in this many bytes fits in one byte, so the count vectorizes with lanes of
// one byte.
const PART: usize = 240;

/// The number of lines of a block of whole lines.
pub fn line_count(block: &[u8]) -> usize
    ensures exact { result ≡ length (terminated_lines block.now) }
    ensures within { result ≤ length block.now }
{
    let mut count = 0;
    let mut rest = block;
    'parts: while rest.len() > PART {
        let (part, more) = rest.split_at(PART);
        count += usize::from(count_newlines(part));
        rest = more;
    }
    count + usize::from(count_newlines(rest))
}

/// The number of newlines in a part.
fn count_newlines(part: &[u8]) -> u8
    requires { length part.now ≤ PART }
    ensures { result ≡ length (terminated_lines part.now) }
{
    let mut count = 0u8;
    for b in part {
        count += u8::from(*b == b'\n');
    }
    count
}
