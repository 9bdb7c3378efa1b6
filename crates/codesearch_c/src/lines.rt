// Lines of a block, whose last line may have no newline.
ghost use Rattle.std.specs.Prelude.{◌≡◌, ◌≤◌, ◌<◌, ◌++◌, ℕ, List, IfSome, MatchOption, length, drop, slice_set, count_by};
ghost use Rattle.codesearch_c.specs.Cited.{lines, HasNoNewline, matching_ends, AreLinesBetween, ForEachTest, IsFirstLine, IsListing, AreListedTo, IsLineFrom};
ghost use Rattle.codesearch_c.specs.declared.lines.LineBounds.{LineBounds};

use cs_match::{Matcher, line_to, whole_lines_len};
use memchr::memchr;
use std::ops::Range;

/// A line of a block: its bytes, without the newline, are those from `start` to `end`.
#[repr(C)]
#[derive(Clone, Copy)]
pub struct LineBounds {
    pub start: usize,
    pub end: usize,
}

/// The most bytes of a part of a block, unless it is one line.
const PART: usize = 1 << 17;

/// The first matching line from an offset on. The block is searched in parts, so that a search that
/// finds a line reads little of what is after it.
pub(crate) fn first_line(matcher: &mut Matcher<'_>, block: &[u8], from: usize) -> Option<LineBounds>
    ensures found { IsFirstLine matcher.old.tree block.now from result }
    ensures line { IfSome result (λ line. IsLineFrom block.now from line.start line.end) }
    ensures same { matcher.new.tree ≡ matcher.old.tree }
{
    let mut start = from;
    'parts: while start < block.len() {
        let Some(end) = part_end(block, start) else {
            return last_line(matcher, block, start);
        };
        if let Some(line) = matcher.next_match(&block[..end], start) {
            return Some(LineBounds {
                start: line.start,
                end: line.end,
            });
        }
        start = end;
    }
    None
}

/// The end of some whole lines from an offset on. There are none where no newline follows.
fn part_end(block: &[u8], start: usize) -> Option<usize>
    requires within { start < length block.now }
    ensures { MatchOption result (HasNoNewline (drop start block.now))
        (λ end. (start < end) × AreLinesBetween block.now start end) }
{
    let most = PART.min(block.len() - start);
    let len = whole_lines_len(&block[start..start + most]);
    if len > 0 {
        return Some(start + len);
    }
    match memchr(b'\n', &block[start..]) {
        Some(offset) => Some(start + offset + 1),
        None => None,
    }
}

/// The line without a newline from an offset on, if it matches.
fn last_line(matcher: &mut Matcher<'_>, block: &[u8], from: usize) -> Option<LineBounds>
    requires part { HasNoNewline (drop from block.now) }
    ensures found { IsFirstLine matcher.old.tree block.now from result }
    ensures last { IfSome result (λ line. (from < length block.now) × (line.end ≡ length block.now)
        × (line.start ≡ from)) }
    ensures same { matcher.new.tree ≡ matcher.old.tree }
{
    if from >= block.len() {
        return None;
    }
    if matcher.is_match(&block[from..]) {
        Some(LineBounds {
            start: from,
            end: block.len(),
        })
    } else {
        None
    }
}

/// The number of matching lines. Those for which there is room are written.
pub(crate) fn list_lines(matcher: &mut Matcher<'_>, block: &[u8], lines: &mut [LineBounds]) -> usize
    ensures listed { IsListing matcher.old.tree block.now lines.old lines.new result }
    ensures same { matcher.new.tree ≡ matcher.old.tree }
{
    let whole = whole_lines_len(block);
    let text = &block[..whole];
    let mut count = 0;
    let mut offset = 0;
    'lists: while offset < whole {
        let to = matcher.list_lines(text, offset);
        count = put_listed(matcher, text, offset..to, lines, count);
        offset = to;
    }
    match last_line(matcher, block, whole) {
        Some(line) => {
            put_line(lines, count, line);
            count + 1
        }
        None => count,
    }
}

/// Writes the matching lines between two offsets of a text, which the matcher has listed, after
/// `count` others. Returns the number of both.
fn put_listed(
    matcher: &Matcher<'_>,
    text: &[u8],
    part: Range<usize>,
    lines: &mut [LineBounds],
    mut count: usize,
) -> usize
    requires lines { AreLinesBetween text.now part.start part.end }
    requires ends { ForEachTest matcher.now.tree (λ has_match.
        matcher.now.ends ≡ matching_ends has_match text.now part.start part.end) }
    requires fewer { count ≤ part.start }
    ensures listed { ForEachTest matcher.now.tree (λ has_match.
        (rest : List ℕ) → (old : List LineBounds) →
        AreListedTo has_match (text.now ++ rest) old lines.old count part.start →
        AreListedTo has_match (text.now ++ rest) old lines.new result part.end) }
    ensures fewer { result ≤ part.end }
{
    let mut offset = part.start;
    for end in matcher.listed() {
        let line = line_to(text, offset, *end);
        put_line(
            lines,
            count,
            LineBounds {
                start: line.start,
                end: line.end,
            },
        );
        count += 1;
        offset = line.end + 1;
    }
    count
}

/// Writes a line, if there is room for it.
fn put_line(lines: &mut [LineBounds], count: usize, line: LineBounds)
    ensures { lines.new ≡ slice_set lines.old count line }
{
    if count < lines.len() {
        lines[count] = line;
    }
}

/// The number of matching lines.
pub(crate) fn count_lines(matcher: &mut Matcher<'_>, block: &[u8]) -> u64
    ensures found { ForEachTest matcher.old.tree (λ has_match.
        result ≡ count_by has_match (lines block.now)) }
    ensures same { matcher.new.tree ≡ matcher.old.tree }
{
    let whole = whole_lines_len(block);
    let count = matcher.count(&block[..whole]);
    match last_line(matcher, block, whole) {
        Some(_) => count + 1,
        None => count,
    }
}
