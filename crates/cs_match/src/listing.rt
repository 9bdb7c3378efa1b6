// Lists of the matching lines of a block. The search of a block is a loop over such lists. Lines
// that contain none of the required words are skipped.
ghost use Rattle.std.specs.Prelude.{◌≡◌, ◌≤◌, ◌<◌, ◌+◌, ◌-◌, ◌*◌, length, drop, ◌∷◌, take, slice_index, slice_range};
ghost use Rattle.cs_match.specs.Cited.{CountsWithin, AreWholeLines, IsLineAfter, IsListedTo, ListsLines, byte_work, list_work, searched_bytes, CountsAtMost, HasNoNewline, newline, IsCandidate, offset_work};

use crate::dfa::{EndList, LazyDfa};
use crate::matcher::Line;
use crate::pacing::Pacing;
use cs_prefilter::{Listed, Prefilter};
use cs_tree::Steps;
use memchr::{memchr, memrchr};

/// The first line that may contain a word of a prefilter, or none if no line contains one.
#[derive(Clone, Copy)]
pub(crate) struct Candidate {
    pub(crate) line: Option<Line>,
    /// What candidates that are no words cost, in bytes that the DFA scans in their time.
    pub(crate) wasted: usize,
}

/// The line that ends at an offset, after whole lines from another offset on. It looks back for a
/// newline, and there is one before those lines, unless they begin the block.
pub fn line_to(block: &[u8], from: usize, end: usize) -> Line
    requires low { from ≤ end }
    requires within { end < length block.now }
    requires newline { slice_index block.now end ≡ newline }
    ensures line { IsLineAfter block.now from result.start result.end }
    ensures end { result.end ≡ end }
{
    let start = whole_lines_len(&block[..end]).max(from);
    Line { start, end }
}

/// The length of the terminated lines of the text.
pub fn whole_lines_len(text: &[u8]) -> usize
    ensures within { result ≤ length text.now }
    ensures whole { AreWholeLines (take result text.now) }
    ensures rest { HasNoNewline (drop result text.now) }
{
    match memrchr(b'\n', text) {
        Some(offset) => offset + 1,
        None => 0,
    }
}

/// The shortest list that the lanes fill.
const SHORT: usize = 256;

/// The length of a sample.
const SAMPLE: usize = 1024;

/// A lazy DFA, what guesses how it is fastest, and the steps taken.
#[derive(Drop)]
pub(crate) struct Lister<'a> {
    pub(crate) dfa: LazyDfa<'a>,
    pub(crate) pacing: Pacing,
    pub(crate) steps: Steps,
}

impl Lister<'_> {
    /// Lists the ends of the matching lines from an offset on: part by part, up to the end of the
    /// block or until the list may have no room for another part.
    pub(crate) fn list_lines(&mut self, block: &[u8], from: usize, ends: &mut [usize]) -> EndList
        requires within { from ≤ length block.now }
        requires whole { AreWholeLines (drop from block.now) }
        requires room { 0 < length ends.old }
        ensures lists { ListsLines self.old.dfa.tree block.now from result ends.new }
        ensures all { result.count ≡ 0 → result.to ≡ length block.now }
        ensures work { CountsWithin (list_work self.old.dfa.tree (result.to - from)) self.old self.new }
    {
        let room = (ends.len() / 2).max(1);
        let mut to = from;
        let mut count = 0;
        'parts: while to < block.len() && count < room {
            let part = self.list_part(block, to, &mut ends[count..]);
            to = part.to;
            count += part.count;
        }
        EndList { count, to }
    }

    /// Lists those of the next part: the lines with a word of an exact prefilter, those up to a
    /// candidate of another one, or what is scanned at once.
    fn list_part(&mut self, block: &[u8], from: usize, ends: &mut [usize]) -> EndList
        requires within { from < length block.now }
        requires whole { AreWholeLines (drop from block.now) }
        requires room { 0 < length ends.old }
        ensures lists { ListsLines self.old.dfa.tree block.now from result ends.new }
        ensures work { CountsWithin (list_work self.old.dfa.tree (result.to - from)) self.old self.new }
    {
        let prefilter = match self.dfa.program.prefilter() {
            Some(prefilter) if self.pacing.prefilter.is_over() => prefilter,
            _ => return self.scan_part(block, from, ends),
        };
        if prefilter.is_exact() {
            let listed = prefilter.list(block, from, ends, &mut self.steps);
            let passed = listed.to.saturating_sub(from);
            self.pacing.note(true, listed.wasted, passed, 0);
            return self.finish(block, from, listed, ends);
        }
        let candidate = next_candidate(prefilter, block, from, &mut self.steps);
        let to = block.len();
        let listed = match candidate.line {
            Some(line) => self.list_line(block, line, ends),
            None => EndList { count: 0, to },
        };
        self.pacing.note_candidate(from, candidate, listed);
        listed
    }

    /// Completes a list of lines by their words. If it was given up within a line, the line is
    /// scanned.
    fn finish(&mut self, block: &[u8], from: usize, words: Listed, ends: &mut [usize]) -> EndList
        requires whole { AreWholeLines (drop from block.now) }
        requires listed { IsListedTo self.old.dfa.tree block.now from words ends.old }
        requires room { 0 < length ends.old }
        ensures lists { ListsLines self.old.dfa.tree block.now from result ends.new }
        ensures all { words.to ≤ result.to }
        ensures work { CountsWithin ((byte_work self.old.dfa.tree + 2) * (result.to - from))
            self.old self.new }
    {
        let Listed { count, to, .. } = words;
        let start = from + whole_lines_len(&block[from..to]);
        // The bytes of the line before the offset are read, and the newline before them.
        self.steps.add(to - start + 1);
        if start == to {
            return EndList { count, to };
        }
        let end = line_end(block, to, &mut self.steps);
        let last = self.list_line(block, Line { start, end }, &mut ends[count..]);
        EndList {
            count: count + last.count,
            to: last.to,
        }
    }

    /// Lists the end of a line, if it matches.
    fn list_line(&mut self, block: &[u8], line: Line, ends: &mut [usize]) -> EndList
        requires line { IsLineAfter block.now line.start line.start line.end }
        requires room { 0 < length ends.old }
        ensures lists { ListsLines self.old.dfa.tree block.now line.start result ends.new }
        ensures all { result.to ≡ line.end + 1 }
        ensures work { CountsWithin (byte_work self.old.dfa.tree * (line.end + 1 - line.start))
            self.old self.new }
    {
        let part = line.start..line.end + 1;
        self.dfa.list_ends(block, part, ends, &mut self.steps)
    }

    /// Lists those of the next lines without a prefilter: of four chunks by four lanes, or of the
    /// rest of the block by one. It is a function of its own, so that the loop over parts has
    /// registers.
    #[inline(never)]
    fn scan_part(&mut self, block: &[u8], from: usize, ends: &mut [usize]) -> EndList
        requires within { from ≤ length block.now }
        requires whole { AreWholeLines (drop from block.now) }
        requires room { 0 < length ends.old }
        ensures lists { ListsLines self.old.dfa.tree block.now from result ends.new }
        ensures work { CountsWithin (1024 + (byte_work self.old.dfa.tree + 2) * (result.to - from))
            self.old self.new }
    {
        if ends.len() >= SHORT {
            if self.pacing.sampling.is_over() {
                let sample = &block[from..block.len().min(from + SAMPLE)];
                self.steps.add(sample.len());
                let undecided = self.dfa.table().undecided(sample);
                self.pacing.note_sample(undecided, sample.len());
            }
            if !self.pacing.one_lane {
                return self.list_chunks(block, from, ends);
            }
        }
        let part = from..block.len();
        self.dfa.list_ends(block, part, ends, &mut self.steps)
    }
}

/// The offset of the first newline at or after `from`.
pub(crate) fn line_end(block: &[u8], from: usize, steps: &mut Steps) -> usize
    requires within { from < length block.now }
    requires whole { AreWholeLines (drop from block.now) }
    ensures low { from ≤ result }
    ensures high { result < length block.now }
    ensures part { HasNoNewline (slice_range block.now from result) }
    ensures newline { drop result block.now ≡ newline ∷ drop (result + 1) block.now }
    ensures work { steps.new.count ≡ steps.old.count + (result + 1 - from) }
{
    match memchr(b'\n', &block[from..]) {
        Some(offset) => {
            steps.add(offset + 1);
            from + offset
        }
        None => unreachable!(),
    }
}

/// The first line at or after `from` with a word of the prefilter, unless it is given up before.
fn next_candidate(prefilter: &Prefilter, block: &[u8], from: usize, steps: &mut Steps) -> Candidate
    requires within { from < length block.now }
    requires whole { AreWholeLines (drop from block.now) }
    ensures candidate { IsCandidate prefilter.now.0 block.now from result.line }
    ensures work { CountsAtMost (2 * offset_work * searched_bytes from (length block.now) result.line)
        steps.old steps.new }
{
    let rest = &block[from..];
    let stop = prefilter.skip(rest, 0, steps);
    let wasted = stop.wasted;
    if stop.offset == rest.len() {
        return Candidate { line: None, wasted };
    }
    let len = whole_lines_len(&rest[..stop.offset]);
    // The bytes of the line before the offset are read, and the newline before them.
    steps.add(stop.offset - len + 1);
    let start = from + len;
    let end = line_end(block, from + stop.offset, steps);
    let line = Some(Line { start, end });
    Candidate { line, wasted }
}
