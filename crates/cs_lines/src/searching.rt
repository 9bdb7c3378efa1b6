// The search of the lines of a text for those that are marked.
ghost use Rattle.std.specs.Prelude.{◌≡◌, ◌≤◌, ◌<◌, ◌+◌, ◌-◌, ◌*◌, ◌^◌, ℕ, Bool, ◌&&◌, List, [], true, not, length, take, drop, slice_range, IfOk, OnOk, OnErr, if◌then◌else◌};
ghost use Rattle.std.specs.List.{AllByRecursion};
ghost use Rattle.cs_lines.specs.Cited.{last_line, terminated_lines, matching_ends, AreWholeLines, AreLinesBetween, IsLineAfter, is_open, Keeps, given, listed_ends, Tests, TestsMatches, HasMatchBy, KeepsSearch, StopsBySpans, has_stopped, Fits, BeginsMarks, BeginsRows, IsPlaced, Marks, Searches, SearchesLast, AreOrdered, is_plain, is_wanted, pairs, Takes, has_context, line_weight, line_work, search_work, walks};
ghost use Rattle.cs_lines.specs.Forms.{Span as A_span};

use crate::form::ShowOptions;
use crate::lines::line_end;
use crate::rows::Rows;
use crate::search::LineSearch;
use cs_match::{Line, Span, line_to};
use cs_tree::{Sink, SinkOutput};
use std::alloc::AllocError;
use std::ops::Range;

/// Whether a line is wanted: it matches, or with `-v` does not.
pub(crate) fn is_wanted(options: &ShowOptions, line: &[u8], search: &mut LineSearch<'_>) -> bool
    ensures wanted { (test : List ℕ → Bool) → Tests test search.old →
        result ≡ is_wanted options.now test line.now }
    ensures same { KeepsSearch search.old search.new }
    ensures budget { has_stopped search.new ≡ has_stopped search.old }
    ensures work { Takes (line_work (line_weight search.old) (length line.now)) search.old search.new }
{
    let matched = search.is_match(line);
    if options.invert { !matched } else { matched }
}

/// Where the search of a block of whole lines is.
#[derive(Clone, Copy, Drop)]
pub(crate) struct Place<'b> {
    pub(crate) block: &'b [u8],
    /// Where the lines begin that are held.
    pub(crate) held: usize,
    /// Where the lines begin that were not passed.
    pub(crate) at: usize,
}

impl Place<'_> {
    /// After the line that ends at an offset. No line is held.
    fn after(&self, end: usize) -> Self
        requires { end < length self.now.block.now }
        ensures block { result.block ≡ self.now.block }
        ensures held { result.held ≡ end + 1 }
        ensures at { result.at ≡ end + 1 }
    {
        Place {
            block: self.block,
            held: end + 1,
            at: end + 1,
        }
    }
}

impl ShowOptions {
    /// Whether lines around marked ones are shown.
    pub(crate) fn has_context(&self) -> bool
        ensures { result ≡ has_context self.now }
    {
        self.before > 0 || self.after > 0
    }

    /// Counts the steps for so many bytes that are passed to show a line, and those around it.
    pub(crate) fn count_walks(&self, bytes: usize, search: &mut LineSearch<'_>)
        ensures listed { listed_ends search.new ≡ listed_ends search.old }
        ensures same { KeepsSearch search.old search.new }
        ensures budget { has_stopped search.new ≡ has_stopped search.old }
        ensures work { Takes (walks self.now * bytes) search.old search.new }
    {
        search.add_steps(bytes);
        if self.invert {
            search.add_steps(bytes);
        }
        if self.has_context() {
            search.add_steps(bytes);
            search.add_steps(bytes);
        }
    }

    /// Counts the steps for lines that are held: so many bytes of them are new, and so many are
    /// dropped.
    pub(crate) fn count_held(&self, new: usize, dropped: usize, search: &mut LineSearch<'_>)
        ensures same { KeepsSearch search.old search.new }
        ensures budget { has_stopped search.new ≡ has_stopped search.old }
        ensures work { Takes ((if has_context self.now then new else 0) + walks self.now * dropped)
            search.old search.new }
    {
        self.count_walks(dropped, search);
        if self.has_context() {
            search.add_steps(new);
        }
    }
}

impl Rows<'_> {
    /// Whether another line may be marked.
    fn is_open(&self) -> bool
        ensures { result ≡ is_open self.now.most }
    {
        match self.most {
            None => true,
            Some(most) => most > 0,
        }
    }

    /// Searches the lines of a block from `from` on; those before are held. Returns where the lines
    /// begin that are held then.
    pub(crate) fn search_block<O: Sink>(
        &mut self,
        block: &[u8],
        from: usize,
        search: &mut LineSearch<'_>,
        out: &mut SinkOutput<'_, O>,
    ) -> Result<usize, AllocError>
        requires within { from ≤ length block.now }
        requires whole { AreWholeLines (take from block.now) × AreWholeLines (drop from block.now) }
        requires fits { Fits (terminated_lines (take from block.now)) self.old.left }
        requires room { self.old.number + length block.now < 2 ^ 64 }
        ensures within { IfOk result (λ held. held ≤ length block.now) }
        ensures whole { IfOk result (λ held. AreWholeLines (drop held block.now)) }
        ensures fits { IfOk result (λ held. Fits (terminated_lines (drop held block.now)) self.new.left) }
        ensures room { IfOk result (λ held. self.new.number ≤ self.old.number + held) }
        ensures page { OnOk result (self.new.page ≡ self.old.page) }
        ensures rows { IfOk result (λ held. Searches search.old search.new self.old self.new
            (given out.old) (given out.new)
            (terminated_lines (take from block.now)) (terminated_lines (drop from block.now))
            (terminated_lines (drop held block.now))) }
        ensures begins { OnErr result (BeginsRows search.old search.new self.old (given out.old)
            (given out.new) (terminated_lines (take from block.now)) (terminated_lines (drop from
            block.now))) }
        ensures same { KeepsSearch search.old search.new }
        ensures budget { StopsBySpans self.old.page.options.now.form search.old search.new }
        ensures work { IfOk result (λ held. Takes (search_work (line_weight search.old) (length
            block.now - from)
            + walks self.old.page.options.now * held) search.old search.new) }
        ensures cut { OnErr result (Takes (search_work (line_weight search.old) (length block.now - from)
            + walks self.old.page.options.now * length block.now) search.old search.new) }
        ensures keeps { Keeps O.model O.failed out.old out.new }
    {
        let mut place = Place {
            block,
            held: 0,
            at: from,
        };
        let mut offset = from;
        'lists: while offset < block.len() && self.is_open() {
            let to = search.list_lines(block, offset);
            place = self.mark_listed(place, offset..to, search, out)?;
            offset = to;
        }
        let held = self.pass(block, place.held, place.at, out);
        search.add_steps(held - place.held);
        Ok(held)
    }

    /// Marks the lines of a part that are wanted; the search has listed those that have a match.
    fn mark_listed<'b, O: Sink>(
        &mut self,
        place: Place<'b>,
        part: Range<usize>,
        search: &mut LineSearch<'_>,
        out: &mut SinkOutput<'_, O>,
    ) -> Result<Place<'b>, AllocError>
        requires placed { IsPlaced search.old self.old place part.start }
        requires lines { AreLinesBetween place.block.now part.start part.end }
        requires listed { (test : List ℕ → Bool) → TestsMatches test search.old →
            listed_ends search.old ≡ matching_ends test place.block.now part.start part.end }
        requires room { self.old.number + (length place.block.now - place.held) < 2 ^ 64 }
        ensures marks { IfOk result (λ place'. Marks search.old search.new self.old self.new
            (given out.old) (given out.new) place.entry place' part.end) }
        ensures begins { OnErr result (BeginsMarks search.old search.new self.old (given out.old)
            (given out.new) place.entry) }
        ensures same { KeepsSearch search.old search.new }
        ensures budget { StopsBySpans self.old.page.options.now.form search.old search.new }
        ensures work { IfOk result (λ place'. Takes (part.end - part.start + walks self.old.page.options.now
            * (place'.held - place.entry.held)) search.old search.new) }
        ensures cut { OnErr result (Takes (part.end - part.start + walks self.old.page.options.now
            * (part.end - place.entry.held)) search.old search.new) }
        ensures keeps { Keeps O.model O.failed out.old out.new }
    {
        // The starts of the lines are looked for.
        search.add_steps(part.end - part.start);
        let mut place = place;
        let mut offset = part.start;
        for k in 0..search.listed().len() {
            let line = line_to(place.block, offset, search.listed()[k]);
            place = self.mark_missed(place, offset..line.start, search, out)?;
            place = self.mark_matched(place, line, search, out)?;
            offset = line.end + 1;
        }
        self.mark_missed(place, offset..part.end, search, out)
    }

    /// Marks the lines of a part, if lines without a match are wanted: the part has no others.
    #[inline(always)]
    fn mark_missed<'b, O: Sink>(
        &mut self,
        place: Place<'b>,
        part: Range<usize>,
        search: &mut LineSearch<'_>,
        out: &mut SinkOutput<'_, O>,
    ) -> Result<Place<'b>, AllocError>
        requires placed { IsPlaced search.old self.old place part.start }
        requires lines { AreLinesBetween place.block.now part.start part.end }
        requires missed { (test : List ℕ → Bool) → TestsMatches test search.old →
            matching_ends test place.block.now part.start part.end ≡ [] }
        requires room { self.old.number + (length place.block.now - place.held) < 2 ^ 64 }
        ensures marks { IfOk result (λ place'. Marks search.old search.new self.old self.new
            (given out.old) (given out.new) place.entry place' part.end) }
        ensures begins { OnErr result (BeginsMarks search.old search.new self.old (given out.old)
            (given out.new) place.entry) }
        ensures listed { listed_ends search.new ≡ listed_ends search.old }
        ensures same { KeepsSearch search.old search.new }
        ensures budget { StopsBySpans self.old.page.options.now.form search.old search.new }
        ensures work { IfOk result (λ place'. Takes (walks self.old.page.options.now
            * (place'.held - place.entry.held)) search.old search.new) }
        ensures cut { OnErr result (Takes (walks self.old.page.options.now * (part.end - place.entry.held))
            search.old search.new) }
        ensures keeps { Keeps O.model O.failed out.old out.new }
    {
        if self.page.options.invert {
            self.mark_each(place, part, search, out)
        } else {
            Ok(place)
        }
    }

    /// Marks each line of a part. All are wanted.
    #[inline(never)]
    fn mark_each<'b, O: Sink>(
        &mut self,
        place: Place<'b>,
        part: Range<usize>,
        search: &mut LineSearch<'_>,
        out: &mut SinkOutput<'_, O>,
    ) -> Result<Place<'b>, AllocError>
        requires placed { IsPlaced search.old self.old place part.start }
        requires lines { AreLinesBetween place.block.now part.start part.end }
        requires wanted { (test : List ℕ → Bool) → Tests test search.old →
            AllByRecursion (λ line. is_wanted self.old.page.options.now test line ≡ true)
            (terminated_lines (slice_range place.block.now part.start part.end)) }
        requires room { self.old.number + (length place.block.now - place.held) < 2 ^ 64 }
        ensures marks { IfOk result (λ place'. Marks search.old search.new self.old self.new
            (given out.old) (given out.new) place.entry place' part.end) }
        ensures begins { OnErr result (BeginsMarks search.old search.new self.old (given out.old)
            (given out.new) place.entry) }
        ensures listed { listed_ends search.new ≡ listed_ends search.old }
        ensures same { KeepsSearch search.old search.new }
        ensures budget { StopsBySpans self.old.page.options.now.form search.old search.new }
        ensures work { IfOk result (λ place'. Takes (walks self.old.page.options.now
            * (place'.held - place.entry.held)) search.old search.new) }
        ensures cut { OnErr result (Takes (walks self.old.page.options.now * (part.end - place.entry.held))
            search.old search.new) }
        ensures keeps { Keeps O.model O.failed out.old out.new }
    {
        let mut place = place;
        let mut start = part.start;
        'lines: while start < part.end {
            let end = line_end(place.block, start);
            place = self.mark(place, Line { start, end }, search, out)?;
            start = end + 1;
        }
        Ok(place)
    }

    /// Marks a line that has a match, if it is wanted.
    #[inline(always)]
    fn mark_matched<'b, O: Sink>(
        &mut self,
        place: Place<'b>,
        line: Line,
        search: &mut LineSearch<'_>,
        out: &mut SinkOutput<'_, O>,
    ) -> Result<Place<'b>, AllocError>
        requires placed { IsPlaced search.old self.old place line.start }
        requires line { IsLineAfter place.block.now line.start line.start line.end }
        requires matched { HasMatchBy search.old (slice_range place.block.now line.start line.end) }
        requires room { self.old.number + (length place.block.now - place.held) < 2 ^ 64 }
        ensures marks { IfOk result (λ place'. Marks search.old search.new self.old self.new
            (given out.old) (given out.new) place.entry place' (line.end + 1)) }
        ensures begins { OnErr result (BeginsMarks search.old search.new self.old (given out.old)
            (given out.new) place.entry) }
        ensures listed { listed_ends search.new ≡ listed_ends search.old }
        ensures same { KeepsSearch search.old search.new }
        ensures budget { StopsBySpans self.old.page.options.now.form search.old search.new }
        ensures work { IfOk result (λ place'. Takes (walks self.old.page.options.now
            * (place'.held - place.entry.held)) search.old search.new) }
        ensures cut { OnErr result (Takes (walks self.old.page.options.now * (line.end + 1 -
            place.entry.held))
            search.old search.new) }
        ensures keeps { Keeps O.model O.failed out.old out.new }
    {
        if search.is_wanted(&place.block[line.start..line.end]) == self.page.options.invert {
            return Ok(place);
        }
        self.mark(place, line, search, out)
    }

    /// Marks a line that is wanted, if another line may be marked: shows it, and the lines around
    /// it.
    #[inline(always)]
    fn mark<'b, O: Sink>(
        &mut self,
        place: Place<'b>,
        line: Line,
        search: &mut LineSearch<'_>,
        out: &mut SinkOutput<'_, O>,
    ) -> Result<Place<'b>, AllocError>
        requires placed { IsPlaced search.old self.old place line.start }
        requires line { IsLineAfter place.block.now line.start line.start line.end }
        requires wanted { (test : List ℕ → Bool) → Tests test search.old →
            is_wanted self.old.page.options.now test (slice_range place.block.now line.start
            line.end) ≡ true }
        requires room { self.old.number + (length place.block.now - place.held) < 2 ^ 64 }
        ensures marks { IfOk result (λ place'. Marks search.old search.new self.old self.new
            (given out.old) (given out.new) place.entry place' (line.end + 1)) }
        ensures begins { OnErr result (BeginsMarks search.old search.new self.old (given out.old)
            (given out.new) place.entry) }
        ensures listed { listed_ends search.new ≡ listed_ends search.old }
        ensures same { KeepsSearch search.old search.new }
        ensures budget { StopsBySpans self.old.page.options.now.form search.old search.new }
        ensures work { IfOk result (λ place'. Takes (walks self.old.page.options.now
            * (place'.held - place.entry.held)) search.old search.new) }
        ensures cut { OnErr result (Takes (walks self.old.page.options.now * (line.end + 1 -
            place.entry.held))
            search.old search.new) }
        ensures keeps { Keeps O.model O.failed out.old out.new }
    {
        if !self.is_open() {
            return Ok(place);
        }
        self.page
            .options
            .count_walks(line.end + 1 - place.held, search);
        let block = place.block;
        if self.page.options.is_plain() {
            let held = self.pass(&block[..line.start], place.held, place.at, out);
            let ended = &block[line.start..line.end + 1];
            self.show_plain(&block[held..line.start], ended, out);
            return Ok(place.after(line.end));
        }
        let text = &block[line.start..line.end];
        search.find(&self.page.options.form, text)?;
        let held = self.pass(&block[..line.start], place.held, place.at, out);
        self.show_mark(&block[held..line.start], text, search.spans(), out);
        Ok(place.after(line.end))
    }

    /// Whether a line is marked.
    fn is_marked(&self, line: &[u8], search: &mut LineSearch<'_>) -> bool
        ensures marked { (test : List ℕ → Bool) → Tests test search.old →
            result ≡ (is_wanted self.now.page.options.now test line.now && is_open self.now.most) }
        ensures may { result ≡ true → is_open self.now.most ≡ true }
        ensures same { KeepsSearch search.old search.new }
        ensures budget { has_stopped search.new ≡ has_stopped search.old }
        ensures work { Takes (line_work (line_weight search.old) (length line.now)) search.old search.new }
    {
        if !self.is_open() {
            return false;
        }
        is_wanted(self.page.options, line, search)
    }

    /// Searches the bytes after the last newline of a text, if there are any. The lines before are
    /// held.
    pub(crate) fn search_last<O: Sink>(
        &mut self,
        held: &[u8],
        last: &[u8],
        search: &mut LineSearch<'_>,
        out: &mut SinkOutput<'_, O>,
    ) -> Result<(), AllocError>
        requires whole { AreWholeLines held.now }
        requires fits { Fits (terminated_lines held.now) self.old.left }
        requires room { self.old.number + length held.now + 1 < 2 ^ 64 }
        ensures rows { OnOk result (SearchesLast search.old search.new self.old self.new (given out.old)
            (given out.new) (terminated_lines held.now) (last_line last.now)) }
        ensures begins { OnErr result (given out.new ≡ given out.old) }
        ensures same { KeepsSearch search.old search.new }
        ensures budget { StopsBySpans self.old.page.options.now.form search.old search.new }
        ensures work { Takes (line_work (line_weight search.old) (length last.now)
            + walks self.old.page.options.now * length held.now) search.old search.new }
        ensures keeps { Keeps O.model O.failed out.old out.new }
    {
        if last.is_empty() {
            return Ok(());
        }
        if self.is_marked(last, search) {
            self.page.options.count_walks(held.len(), search);
            search.find(&self.page.options.form, last)?;
            self.show_mark(held, last, search.spans(), out);
        } else {
            self.show_last(last, out);
        }
        Ok(())
    }
}
