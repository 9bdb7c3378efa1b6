// Passes of the position automaton over a line, without the DFA. In a pass a match may begin only
// before a given offset: so one pass says whether a match begins there. The start is found by
// passes through ever shorter parts of the line.
ghost use Rattle.std.specs.Prelude.{◌≡◌, ◌≤◌, ◌<◌, ◌+◌, ◌-◌, ◌*◌, ◌^◌, ℕ, IfSome, MatchOption, length, replicate, Bool, true, false, ◌&&◌, nat_le, nat_lt, slice_index};
ghost use Rattle.cs_match.specs.Cited.{IsPassAt, IsPassOf, HasRead, ends_in, may_begin, may_end, IsMatchOf, IsFirstOf, HasNoMatchOf, IsListing, IsSpent, BeginFrom, BeginsAt, BeginsBy, EndsAt, pass_bytes, find_bytes, finished, unfinished_after, Tree, is_at_word_boundary, is_word, word_before, word_after, char_step_of, look_around, unfinished_before};

use super::{ListedSpans, Span};
use crate::glushkov::{Offset, Scratch, enter, step_over};
use crate::position::Input;
use crate::position_set::PositionSet;
use crate::program::Program;
use crate::state::LookAround;
use cs_syntax::Unfinished;
use cs_tree::Steps;

/// A pass over a part of a line.
#[derive(Drop)]
pub struct Pass {
    /// The positions that can match the last byte before the offset.
    pub(crate) positions: PositionSet,
    /// The character that is unfinished before the offset.
    pub(crate) unfinished: Unfinished,
    pub(crate) scratch: Scratch,
    /// How many bytes more the budget has.
    pub(crate) left: usize,
    /// The bytes that the passes have read.
    pub(crate) read: Steps,
    /// The steps of the passes. A finder has a counter of its own, since it is no part of a search,
    /// whose bound counts its steps.
    pub(crate) steps: Steps,
}

/// The matches that are searched for.
#[derive(Clone, Copy, Drop)]
pub struct Wanted {
    /// They are whole words: no word byte stands before them, and none after them.
    pub whole: bool,
    /// They begin at or after this offset.
    pub from: usize,
    /// They end at or after this offset.
    pub least: usize,
}

/// Those of them that begin in a part of the line.
#[derive(Clone, Copy, Drop)]
struct WantedPart {
    whole: bool,
    /// They begin at or after this offset ..
    from: usize,
    /// .. and before this one.
    until: usize,
    least: usize,
}

/// The end of a match.
#[derive(Clone, Copy, Drop)]
struct FirstEnd {
    end: usize,
    /// No match that is wanted begins before this offset.
    since: usize,
}

impl Pass {
    /// Lists the matches of the line, while there is room for them and the budget has bytes left.
    pub(crate) fn list(
        &mut self,
        program: &Program,
        line: &[u8],
        whole: bool,
        spans: &mut [Span],
    ) -> ListedSpans
        requires ready { IsPassOf program.now self.old }
        ensures listed { IsListing whole program.now line.now spans.old spans.new result }
        ensures stopped { result.stopped ≡ true → IsSpent (length spans.old) result.count self.new }
        ensures read { (k : ℕ) → length line.now < 2 ^ k →
            HasRead program.now (self.old.left + find_bytes k (length line.now)) self.old self.new }
        ensures ready { IsPassOf program.now self.new }
    {
        let mut wanted = Wanted {
            whole,
            from: 0,
            least: 0,
        };
        let mut count = 0;
        'spans: while count < spans.len() && self.left > 0 {
            let Some(span) = self.find(program, line, wanted) else {
                return ListedSpans {
                    count,
                    stopped: false,
                };
            };
            spans[count] = span;
            count += 1;
            wanted.from = span.end;
            wanted.least = span.end + 1;
        }
        ListedSpans {
            count,
            stopped: true,
        }
    }

    /// The first match that is wanted.
    pub(crate) fn find(&mut self, program: &Program, line: &[u8], wanted: Wanted) -> Option<Span>
        requires within { wanted.from ≤ length line.now }
        requires ready { IsPassOf program.now self.old }
        ensures found { MatchOption result (HasNoMatchOf wanted.whole program.now line.now wanted.from
            wanted.least) (λ span. IsFirstOf wanted.whole program.now line.now wanted.from wanted.least
            span.start span.end) }
        ensures read { (k : ℕ) → length line.now < 2 ^ k →
            HasRead program.now (find_bytes k (length line.now)) self.old self.new }
        ensures ready { IsPassOf program.now self.new }
    {
        if line.len() < wanted.least {
            return None;
        }
        if program.is_short_word() {
            return self.find_word(program, line, wanted);
        }
        let all = WantedPart {
            whole: wanted.whole,
            from: wanted.from,
            until: line.len() + 1,
            least: wanted.least,
        };
        let first = self.first_end(program, line, all)?;
        let since = Wanted {
            whole: wanted.whole,
            from: first.since,
            least: wanted.least,
        };
        let start = match self.last_end(program, line, since) {
            Some(end) => {
                return Some(Span {
                    start: first.since,
                    end,
                });
            }
            None => {
                let later = Wanted {
                    whole: wanted.whole,
                    from: first.since + 1,
                    least: wanted.least,
                };
                self.first_start(program, line, later, first.end)
            }
        };
        let here = Wanted {
            whole: wanted.whole,
            from: start,
            least: wanted.least,
        };
        let end = self.last_end(program, line, here)?;
        Some(Span { start, end })
    }

    /// The least start of a match, by bisection. One begins at or before `last`.
    fn first_start(&mut self, program: &Program, line: &[u8], wanted: Wanted, last: usize) -> usize
        requires within { (last ≤ length line.now) × (wanted.least ≤ length line.now) }
        requires some { BeginsBy wanted.whole program.now line.now wanted.from wanted.least last }
        requires ready { IsPassOf program.now self.old }
        ensures least { BeginFrom wanted.whole program.now line.now wanted.from wanted.least result }
        ensures some { BeginsAt wanted.whole program.now line.now wanted.from wanted.least result }
        ensures read { (k : ℕ) → last - wanted.from < 2 ^ k →
            HasRead program.now (k * pass_bytes (length line.now)) self.old self.new }
        ensures ready { IsPassOf program.now self.new }
    {
        let mut low = wanted.from;
        let mut high = last;
        'halves: while low < high {
            let until = low + (high - low).div_ceil(2);
            let part = WantedPart {
                whole: wanted.whole,
                from: low,
                until,
                least: wanted.least,
            };
            match self.first_end(program, line, part) {
                Some(_) => high = until - 1,
                None => low = until,
            }
        }
        low
    }

    /// The first end of a match that begins in the part.
    fn first_end(&mut self, program: &Program, line: &[u8], part: WantedPart) -> Option<FirstEnd>
        requires within { (part.from ≤ length line.now) × (part.least ≤ length line.now) }
        requires ready { IsPassOf program.now self.old }
        ensures none { MatchOption result
            (BeginFrom part.whole program.now line.now part.from part.least part.until)
            (λ first. BeginFrom part.whole program.now line.now part.from part.least first.since) }
        ensures after { IfSome result (λ first. part.from ≤ first.since) }
        ensures ends { IfSome result (λ first.
            EndsAt part.whole program.now line.now part.from part.least part.until first.end) }
        ensures read { HasRead program.now (pass_bytes (length line.now)) self.old self.new }
        ensures ready { IsPassOf program.now self.new }
    {
        let mut since = part.from;
        self.begin(program, line, part.from);
        for offset in part.from..line.len() {
            if self.step(program, line, part, offset) && part.least <= offset {
                return Some(FirstEnd { end: offset, since });
            }
            if self.is_empty() {
                since = offset + 1;
                if part.until <= since {
                    return None;
                }
            }
        }
        if self.is_end(program, line, part) {
            return Some(FirstEnd {
                end: line.len(),
                since,
            });
        }
        None
    }

    /// The last end of a match that begins at the offset.
    fn last_end(&mut self, program: &Program, line: &[u8], wanted: Wanted) -> Option<usize>
        requires within { (wanted.from ≤ length line.now) × (wanted.least ≤ length line.now) }
        requires ready { IsPassOf program.now self.old }
        ensures ends { MatchOption result
            (BeginFrom wanted.whole program.now line.now wanted.from wanted.least (wanted.from + 1))
            (IsMatchOf wanted.whole program.now line.now wanted.from wanted.least wanted.from) }
        ensures last { IfSome result (λ last. (end : ℕ) → IsMatchOf wanted.whole program.now line.now
            wanted.from wanted.least wanted.from end → end ≤ last) }
        ensures read { HasRead program.now (pass_bytes (length line.now)) self.old self.new }
        ensures ready { IsPassOf program.now self.new }
    {
        let part = WantedPart {
            whole: wanted.whole,
            from: wanted.from,
            until: wanted.from + 1,
            least: wanted.least,
        };
        let mut last = None;
        self.begin(program, line, part.from);
        for offset in part.from..line.len() {
            if self.step(program, line, part, offset) && part.least <= offset {
                last = Some(offset);
            }
            if self.is_empty() {
                return last;
            }
        }
        if self.is_end(program, line, part) {
            return Some(line.len());
        }
        last
    }

    /// Begins a pass at an offset of the line.
    fn begin(&mut self, program: &Program, line: &[u8], from: usize)
        requires within { from ≤ length line.now }
        requires ready { IsPassOf program.now self.old }
        ensures at { (whole : Bool) (until : ℕ) →
            IsPassAt whole program.now line.now from until from self.new }
        ensures read { HasRead program.now (from + 1) self.old self.new }
    {
        let before = unfinished_before(program, line, from);
        self.unfinished = before.unfinished;
        self.positions.clear();
        self.left = self.left.saturating_sub(before.read + 1);
        self.read.add(before.read + 1);
        // A byte is read twice: to find where the character begins, and from there on.
        self.steps.add(before.read);
        self.steps.add(before.read);
        self.steps.add(self.positions.len().div_ceil(64) + 1);
    }

    /// Whether no match has begun that may still end.
    fn is_empty(&self) -> bool
        ensures { result ≡ true → self.now.positions ≡ replicate (length self.now.positions) false }
    {
        !self.positions.meets(0, &self.positions)
    }

    /// Moves over the byte at the offset, and returns whether a match ends before it.
    fn step(&mut self, program: &Program, line: &[u8], part: WantedPart, offset: usize) -> bool
        requires within { offset < length line.now }
        requires at { IsPassAt part.whole program.now line.now part.from part.until offset self.old }
        ensures ends { result ≡ ends_in part.whole line.now program.now part.from part.until offset }
        ensures at { IsPassAt part.whole program.now line.now part.from part.until (offset + 1) self.new }
        ensures read { HasRead program.now 1 self.old self.new }
    {
        let byte = line[offset];
        let char = program.char_step(self.unfinished, byte);
        let here = look_around(program, line, offset);
        self.unfinished = char.unfinished();
        let at = Offset {
            begins: may_begin(line, part, offset),
            here,
        };
        let accepts = step_over(
            program,
            at,
            &mut self.positions,
            &mut self.scratch,
            Input { byte, char },
            &mut self.steps,
        );
        self.left = self.left.saturating_sub(1);
        self.read.add(1);
        // The set is tested for emptiness.
        self.steps.add(self.positions.len().div_ceil(64) + 1);
        let may_end = may_end(line, part.whole, offset);
        accepts & may_end
    }

    /// Whether a match ends at the end of the line.
    fn is_end(&mut self, program: &Program, line: &[u8], part: WantedPart) -> bool
        requires { IsPassAt part.whole program.now line.now part.from part.until (length line.now) self.old }
        ensures ends { result
            ≡ ends_in part.whole line.now program.now part.from part.until (length line.now) }
        ensures at { IsPassAt part.whole program.now line.now part.from part.until
            (length line.now) self.new }
        ensures read { HasRead program.now 1 self.old self.new }
    {
        let here = look_around(program, line, line.len());
        let begins = may_begin(line, part, line.len());
        self.left = self.left.saturating_sub(1);
        self.read.add(1);
        self.steps.add(1);
        let at = Offset { begins, here };
        let accepts = enter(
            program,
            at,
            &self.positions,
            &mut self.scratch,
            &mut self.steps,
        );
        let may_end = may_end(line, part.whole, line.len());
        accepts & may_end
    }
}

/// The unfinished character before an offset, and how many bytes were read for it.
#[derive(Clone, Copy, Drop)]
pub(super) struct UnfinishedBefore {
    pub(super) unfinished: Unfinished,
    pub(super) read: usize,
}

/// The unfinished character before an offset of the line.
pub(super) fn unfinished_before(program: &Program, line: &[u8], offset: usize) -> UnfinishedBefore
    requires { offset ≤ length line.now }
    ensures is { result.unfinished ≡ unfinished_before program.now line.now offset }
    ensures read { result.read ≤ offset }
{
    let from = character_start(line, offset);
    let mut unfinished = Unfinished::none();
    for index in from..offset {
        unfinished = program.char_step(unfinished, line[index]).unfinished();
    }
    UnfinishedBefore {
        unfinished,
        read: offset - from,
    }
}

/// The look-around at an offset of the line.
pub(super) fn look_around(program: &Program, line: &[u8], offset: usize) -> LookAround
    requires { offset ≤ length line.now }
    ensures { result ≡ look_around program.now line.now offset }
{
    let bits = program.look_behind();
    LookAround {
        first: offset == 0 && bits.first,
        last: offset == line.len(),
        edge: is_word_edge(line, offset) && bits.word,
    }
}

#[tactic(auto, unfolding(cs_syntax::specs::Matching::word_before))]
pub(super) fn is_word_before(line: &[u8], offset: usize) -> bool
    requires { offset ≤ length line.now }
    ensures { result ≡ word_before line.now offset }
{
    if offset == 0 {
        return false;
    }
    is_word(line[offset - 1])
}

#[tactic(auto, unfolding(cs_syntax::specs::Matching::word_after))]
pub(super) fn is_word_after(line: &[u8], offset: usize) -> bool
    requires { offset ≤ length line.now }
    ensures { result ≡ word_after line.now offset }
{
    if offset == line.len() {
        return false;
    }
    is_word(line[offset])
}

/// Whether a match of the part may begin at the offset.
fn may_begin(line: &[u8], part: WantedPart, offset: usize) -> bool
    requires { offset ≤ length line.now }
    ensures { result ≡ may_begin part.whole line.now part.from part.until offset }
{
    (part.from <= offset) & (offset < part.until) & !(part.whole && is_word_before(line, offset))
}

/// Whether a match may end at the offset.
fn may_end(line: &[u8], whole: bool, offset: usize) -> bool
    requires { offset ≤ length line.now }
    ensures { result ≡ may_end whole line.now offset }
{
    !(whole && is_word_after(line, offset))
}

/// An offset before this one, if there is one, at which no character goes on that began before it.
fn character_start(line: &[u8], offset: usize) -> usize
    requires { offset ≤ length line.now }
    ensures before { result < offset → (t : Tree) → unfinished_after (char_step_of t finished (slice_index
        line.now result)) ≡ unfinished_before t line.now (result + 1) }
    ensures none { offset ≤ result → result ≡ 0 }
    ensures within { result ≤ offset }
{
    let mut start = offset;
    while start > 0 {
        start -= 1;
        if !is_continuation(line[start]) {
            return start;
        }
    }
    0
}

/// Whether a character may go on with the byte.
fn is_continuation(byte: u8) -> bool
    ensures { result ≡ (nat_le 0x80 byte && nat_lt byte 0xc0) }
{
    0x80 <= byte && byte < 0xc0
}

/// Whether exactly one of the bytes around the offset is a word byte.
fn is_word_edge(line: &[u8], offset: usize) -> bool
    requires { offset ≤ length line.now }
    ensures { result ≡ is_at_word_boundary line.now offset }
{
    is_word_before(line, offset) ^ is_word_after(line, offset)
}

/// Whether the byte is an ASCII word character.
fn is_word(byte: u8) -> bool
    ensures { result ≡ is_word byte }
{
    byte.is_ascii_alphanumeric() | (byte == b'_')
}
