// The rows of one text as they are printed.
ghost use Rattle.std.specs.Prelude.{◌≡◌, ◌≤◌, ◌<◌, ◌+◌, ◌-◌, ◌^◌, ◌∷◌, ◌++◌, ℕ, List, [], true, length, take, drop, slice_range};
ghost use Rattle.cs_lines.specs.Cited.{newline, terminated_lines, AreWholeLines, is_open, one_less, row_at, Keeps, Prints, given, row_of, AreOrdered, pairs, rows_at, Fits, IsPassed, IsMarkShown, gap, line_gap, heading, name_bytes, IsFirstLines, ShowsRow, IsPrinted, KeepsScan, before_row, opening_of, fresh_rows, has_numbers, is_plain, Finding, printed_by, progress_of};
ghost use Rattle.cs_lines.specs.Forms.{Span as A_span};

use crate::form::ShowOptions;
use crate::found::FoundRow;
use crate::lines::{last_lines, line_count, line_end};
use crate::row::LineRow;
use cs_match::Span;
use cs_tree::{Sink, SinkOutput};

/// A text that is printed, and how.
#[derive(Clone, Copy, Drop)]
pub struct Page<'a> {
    pub options: &'a ShowOptions,
    pub name: &'a str,
    /// Something was printed for a text before.
    pub begun: bool,
}

/// How far a text is printed.
#[derive(Clone, Copy, Drop)]
pub(crate) struct Rows<'a> {
    pub(crate) page: Page<'a>,
    /// The number of the first line that is not passed yet, or is held.
    pub(crate) number: u64,
    /// How many lines may still be marked.
    pub(crate) most: Option<u64>,
    /// How many of the next lines are shown since they are after a marked one.
    pub(crate) left: usize,
    /// A line was shown.
    pub(crate) shown: bool,
    /// The number after that of the last line that was shown.
    pub(crate) next: u64,
}

/// Lines that were shown.
#[derive(Clone, Copy, Drop)]
struct Passed {
    /// Their length.
    len: usize,
    /// Their number.
    count: usize,
}

impl ShowOptions {
    /// Whether only marked lines are shown, and not where their matches are.
    pub(crate) fn is_plain(&self) -> bool
        ensures { result ≡ is_plain self.now }
    {
        self.before == 0 && self.after == 0 && !self.form.needs_spans()
    }

    /// Whether the numbers of lines matter: they are printed, or say whether rows are neighbours.
    fn has_numbers(&self) -> bool
        ensures { result ≡ has_numbers self.now }
    {
        self.form.number || self.before > 0 || self.after > 0
    }
}

impl Page<'_> {
    /// The name, and what ends it unless a NUL does.
    #[tactic(auto, using(crate::proofs::Printing::printing))]
    pub(crate) fn print_name<O: Sink>(&self, end: &[u8], out: &mut SinkOutput<'_, O>)
        ensures { Prints O.model O.failed out.old out.new
            (name_bytes self.now.options.now self.now.name.now end.now) }
    {
        self.options
            .form
            .print_dyed(b"35", self.name.as_bytes(), out);
        if self.options.form.nul {
            out.print(b"\0");
        } else {
            out.print(end);
        }
    }

    /// What is between groups of lines.
    #[tactic(auto, using(crate::proofs::Printing::printing))]
    fn print_gap<O: Sink>(&self, out: &mut SinkOutput<'_, O>)
        ensures { Prints O.model O.failed out.old out.new (gap self.now.options.now) }
    {
        if self.options.before == 0 && self.options.after == 0 {
            return;
        }
        self.options.form.print_dyed(b"36", b"--", out);
        out.print(b"\n");
    }

    /// What is between the lines of two texts.
    #[tactic(auto, using(crate::proofs::Printing::printing))]
    pub(crate) fn print_between<O: Sink>(&self, out: &mut SinkOutput<'_, O>)
        ensures { Prints O.model O.failed out.old out.new (line_gap self.now.options.now) }
    {
        if self.options.form.heading {
            out.print(b"\n");
        } else {
            self.print_gap(out);
        }
    }

    /// The name above the lines, under `--heading`.
    #[tactic(auto, using(crate::proofs::Printing::printing))]
    fn print_heading<O: Sink>(&self, out: &mut SinkOutput<'_, O>)
        ensures { Prints O.model O.failed out.old out.new
            (heading self.now.options.now self.now.name.now) }
    {
        if self.options.form.heading && !self.options.form.bare {
            self.print_name(b"\n", out);
        }
    }

    /// What is before the first line of the text.
    #[tactic(auto, using(crate::proofs::Printing::printing))]
    #[inline(never)]
    fn print_opening<O: Sink>(&self, out: &mut SinkOutput<'_, O>)
        ensures { Prints O.model O.failed out.old out.new (opening_of self.now) }
    {
        if self.begun {
            self.print_between(out);
        }
        self.print_heading(out);
    }
}

impl<'a> Rows<'a> {
    /// No line of the text is shown yet.
    pub(crate) fn new(page: Page<'a>) -> Rows<'a>
        ensures { result ≡ fresh_rows page.entry }
    {
        Rows {
            page,
            number: 1,
            most: page.options.most,
            left: 0,
            shown: false,
            next: 1,
        }
    }

    /// The number of lines of a block, if numbers matter.
    pub(crate) fn counted(&self, block: &[u8]) -> u64
        ensures exact { has_numbers self.now.page.options.now ≡ true →
            result ≡ length (terminated_lines block.now) }
        ensures within { result ≤ length block.now }
    {
        if self.page.options.has_numbers() {
            line_count(block) as u64
        } else {
            0
        }
    }

    /// What is before the line with this number.
    #[tactic(auto, using(crate::proofs::Printing::printing))]
    fn print_before<O: Sink>(&self, number: u64, out: &mut SinkOutput<'_, O>)
        ensures { Prints O.model O.failed out.old out.new
            (before_row (opening_of self.now.page) (gap self.now.page.options.now) self.now.shown
            self.now.next number) }
    {
        if !self.shown {
            self.page.print_opening(out);
        } else if number != self.next {
            self.page.print_gap(out);
        }
    }

    /// Shows the next line; if it is marked, with these matches.
    #[tactic(auto, using(crate::proofs::Printing::printing))]
    #[inline(never)]
    fn show<O: Sink>(&mut self, row: &LineRow<'_>, spans: &[Span], out: &mut SinkOutput<'_, O>)
        requires number { row.now.number + 1 < 2 ^ 64 }
        requires ordered { AreOrdered 0 (length row.now.line.now) (pairs spans.now) }
        ensures row { ShowsRow self.old self.new (given out.old) (given out.new) (row_of row.now)
            (pairs spans.now) }
        ensures keeps { Keeps O.model O.failed out.old out.new }
    {
        self.print_before(row.number, out);
        let found = FoundRow {
            name: self.page.name,
            row: *row,
            spans,
        };
        self.page.options.form.print_found(&found, out);
        self.next = row.number + 1;
        self.shown = true;
    }

    /// Shows the first `count` lines of a block, which are not marked. The first has this number.
    #[inline(never)]
    fn show_lines<O: Sink>(
        &mut self,
        number: u64,
        count: usize,
        block: &[u8],
        out: &mut SinkOutput<'_, O>,
    ) -> Passed
        requires whole { AreWholeLines block.now }
        requires room { number + length block.now < 2 ^ 64 }
        ensures rows { IsPrinted self.old self.new (given out.old) (given out.new)
            (rows_at number (take count (terminated_lines block.now))) }
        ensures scan { KeepsScan self.old self.new }
        ensures count { result.count ≡ length (take count (terminated_lines block.now)) }
        ensures len { IsFirstLines count block.now result.len }
        ensures keeps { Keeps O.model O.failed out.old out.new }
    {
        let mut offset = 0;
        let mut left = count;
        let mut next = number;
        'lines: while left > 0 && offset < block.len() {
            let end = line_end(block, offset);
            let row = LineRow {
                number: next,
                line: &block[offset..end],
                marked: false,
            };
            self.show(&row, &[], out);
            next += 1;
            left -= 1;
            offset = end + 1;
        }
        Passed {
            len: offset,
            count: count - left,
        }
    }

    /// Passes lines that are not marked, from `from` on: shows those that are after a marked one.
    /// The lines before, from `held` on, are held. Returns where the lines begin that are held
    /// then.
    pub(crate) fn pass<O: Sink>(
        &mut self,
        block: &[u8],
        held: usize,
        from: usize,
        out: &mut SinkOutput<'_, O>,
    ) -> usize
        requires within { (held ≤ from) × (from ≤ length block.now) }
        requires whole { AreWholeLines (drop held block.now) × AreWholeLines
            (slice_range block.now held from) }
        requires fits { Fits (terminated_lines (slice_range block.now held from)) self.old.left }
        requires room { self.old.number + (length block.now - from) < 2 ^ 64 }
        ensures rows { IsPrinted self.old self.new (given out.old) (given out.new)
            (rows_at self.old.number (take self.old.left (terminated_lines (drop from block.now)))) }
        ensures passed { IsPassed self.old self.new block.now held from result }
        ensures keeps { Keeps O.model O.failed out.old out.new }
    {
        if self.left == 0 {
            return held;
        }
        let number = self.number;
        let left = self.left;
        let passed = self.show_lines(number, left, &block[from..], out);
        self.number = number + passed.count as u64;
        self.left = left - passed.count;
        from + passed.len
    }

    /// Shows the last line, which is not marked, if it is after a marked one.
    pub(crate) fn show_last<O: Sink>(&mut self, line: &[u8], out: &mut SinkOutput<'_, O>)
        requires room { self.old.number + 1 < 2 ^ 64 }
        ensures rows { IsPrinted self.old self.new (given out.old) (given out.new)
            (rows_at self.old.number (take self.old.left (line.now ∷ []))) }
        ensures keeps { Keeps O.model O.failed out.old out.new }
    {
        if self.left == 0 {
            return;
        }
        let row = LineRow {
            number: self.number,
            line,
            marked: false,
        };
        self.show(&row, &[], out);
        self.number += 1;
        self.left -= 1;
    }

    /// Shows a marked line, and the last of the lines that are held before it.
    pub(crate) fn show_mark<O: Sink>(
        &mut self,
        held: &[u8],
        line: &[u8],
        spans: &[Span],
        out: &mut SinkOutput<'_, O>,
    )
        requires whole { AreWholeLines held.now }
        requires room { self.old.number + length held.now + 1 < 2 ^ 64 }
        requires ordered { AreOrdered 0 (length line.now) (pairs spans.now) }
        requires open { is_open self.old.most ≡ true }
        ensures rows { IsMarkShown self.old self.new (given out.old) (given out.new)
            (terminated_lines held.now) line.now (pairs spans.now) }
        ensures room { self.new.number ≤ self.old.number + length held.now + 1 }
        ensures keeps { Keeps O.model O.failed out.old out.new }
    {
        let before = self.page.options.before;
        let start = last_lines(held, before);
        let number = self.number + self.counted(&held[..start]);
        let passed = self.show_lines(number, before, &held[start..], out);
        let row = LineRow {
            number: number + passed.count as u64,
            line,
            marked: true,
        };
        self.show(&row, spans, out);
        self.number = row.number + 1;
        self.left = self.page.options.after;
        self.most = one_less(self.most);
    }

    /// The same for a line with its newline, where its row is plain.
    #[inline(always)]
    pub(crate) fn show_plain<O: Sink>(
        &mut self,
        held: &[u8],
        ended: &[u8],
        out: &mut SinkOutput<'_, O>,
    )
        requires plain { is_plain self.old.page.options.now ≡ true }
        requires room { self.old.number + length held.now + 1 < 2 ^ 64 }
        requires open { is_open self.old.most ≡ true }
        ensures rows { (line : List ℕ) → ended.now ≡ line ++ newline ∷ [] → (spans : List A_span) →
            IsMarkShown self.old self.new (given out.old) (given out.new)
            (terminated_lines held.now) line spans }
        ensures room { self.new.number ≤ self.old.number + length held.now + 1 }
        ensures keeps { Keeps O.model O.failed out.old out.new }
    {
        self.number += self.counted(held);
        if !self.shown {
            self.page.print_opening(out);
        }
        let form = &self.page.options.form;
        form.print_name(self.page.name, true, out);
        form.print_number(self.number, true, out);
        out.print(ended);
        self.number += 1;
        self.left = 0;
        self.most = one_less(self.most);
        self.shown = true;
        self.next = self.number;
    }
}

/// One less of what may still be marked.
fn one_less(most: Option<u64>) -> Option<u64>
    requires { is_open most ≡ true }
    ensures { result ≡ one_less most }
{
    match most {
        None => None,
        Some(most) => Some(most - 1),
    }
}
