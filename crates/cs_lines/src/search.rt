// A search for the lines that match, and where in them the matches are.
ghost use Rattle.std.specs.Prelude.{◌≡◌, ◌≤◌, ◌<◌, ◌||◌, vec_len};
ghost use Rattle.cs_lines.specs.Printing.{needs_spans};

use crate::form::LineForm;
use cs_match::laws::{matching_is_decidable, passes_find_ends};
use cs_match::{Finder, Line, Matcher, Pass, Program, Span, Wanted};
use std::alloc::{AllocError, Global};

/// How many bytes the search for the matches of a line may read, besides eight times the line.
const BUDGET: usize = 1 << 24;

/// A search for the matches of a line, and those that it found last.
#[derive(Drop)]
pub(crate) struct SpanSearch<'p> {
    pub(crate) finder: Finder<'p>,
    /// Room for the matches of a line.
    pub(crate) spans: Vec<Span>,
    /// How many matches of the last line were found.
    pub(crate) count: usize,
    /// A line may have more matches than were found, since its budget was used up.
    pub(crate) stopped: bool,
    ghost within: { count ≤ vec_len spans },
}

impl<'p> SpanSearch<'p> {
    ghost use Rattle.std.specs.Prelude.{◌↔◌, IsTrue, false, length, OnOk};
    ghost use Rattle.cs_lines.specs.Findings.{HasWord, AreSpansIn, KeepsFinder, spans_of};
    ghost use Rattle.cs_lines.specs.Ordered.{AreOrdered, pairs};

    /// Whether a match of the line is a whole word.
    fn has_word(&mut self, line: &[u8]) -> bool
        ensures found { IsTrue result ↔ HasWord self.old.finder.tree line.now }
        ensures same { KeepsFinder self.old self.new }
        ensures budget { self.new.stopped ≡ self.old.stopped }
    {
        let wanted = Wanted {
            whole: true,
            from: 0,
            least: 0,
        };
        self.finder.search(line, wanted).is_some()
    }

    /// Finds the matches of a line, with `whole` those that are whole words: all of them, unless
    /// its budget is used up.
    fn find(&mut self, line: &[u8], whole: bool) -> Result<(), AllocError>
        ensures spans { OnOk result (self.new.stopped ≡ false →
            AreSpansIn self.old.finder.tree whole line.now (spans_of self.new)) }
        ensures ordered { OnOk result (AreOrdered 0 (length line.now) (spans_of self.new)) }
        ensures same { KeepsFinder self.old self.new }
    {
        self.count = 0;
        // There is room for one match more than a line can have, since a full list counts as
        // stopped.
        make_room(&mut self.spans, line.len().saturating_add(2))?;
        let budget = line.len().saturating_mul(8).saturating_add(BUDGET);
        let listed = self.finder.list(line, whole, budget, &mut self.spans);
        self.count = listed.count;
        self.stopped = either(self.stopped, listed.stopped);
        Ok(())
    }
}

/// A matcher that finds lines, and a search for their matches if there is one.
#[derive(Drop)]
pub struct LineSearch<'p> {
    pub(crate) matcher: Matcher<'p>,
    pub(crate) found: Option<SpanSearch<'p>>,
    /// Only a line with a match that is a whole word matches, and only such matches are shown
    /// (`-w`).
    pub(crate) whole: bool,
}

impl<'p> LineSearch<'p> {
    ghost use Rattle.std.specs.Prelude.{◌↔◌, ℕ, Bool, List, IsTrue, None, Some, true, false, length, drop, count_by, ◌-◌, IfOk, IfSome, OnOk};
    ghost use Rattle.cs_match.specs.Lines.{terminated_lines};
    ghost use Rattle.cs_match.specs.Skipping.{AreWholeLines, IsLineAfter};
    ghost use Rattle.cs_match.specs.MatchingEnds.{matching_ends};
    ghost use Rattle.cs_match.specs.Skipped.{AreLinesBetween};
    ghost use Rattle.cs_match.specs.Work.{searched_bytes};
    ghost use Rattle.cs_lines.specs.Blocks.{IsNext};
    ghost use Rattle.cs_lines.specs.Findings.{HasFinding, HasWordBy, HasMatchBy, Matches, Tests, TestsMatches, AreSpansBy, found_spans, found_tree, has_stopped, listed_ends, KeepsSearch, SearchesLines, StopsBySpans};
    ghost use Rattle.cs_lines.specs.Ordered.{AreOrdered, pairs};
    ghost use Rattle.cs_lines.specs.Work.{Takes, line_weight, line_work, list_work, search_work};

    /// A search for a program; if `whole`, for its matches that are whole words.
    pub fn new(
        alloc: Global,
        program: &'p Program,
        whole: bool,
    ) -> Result<LineSearch<'p>, AllocError>
        ensures lines { IfOk result (λ search. search.matcher.tree ≡ program.now) }
        ensures spans { IfOk result (λ search. found_tree search ≡ Some program.now) }
        ensures whole { IfOk result (λ search. search.whole ≡ whole) }
        ensures begun { IfOk result (λ search. has_stopped search ≡ false) }
        ensures exists { IfOk result HasFinding }
    {
        let matcher = Matcher::new(alloc, program)?;
        // Each line has a list of its matches.
        passes_find_ends();
        let pass = Pass::new(alloc, program)?;
        Ok(LineSearch {
            matcher,
            found: Some(SpanSearch {
                finder: Finder::resume(program, pass),
                spans: Vec::new(alloc),
                count: 0,
                stopped: false,
            }),
            whole,
        })
    }

    /// A search for lines alone: for forms that do not show where the matches are.
    pub fn of_lines(matcher: Matcher<'p>) -> LineSearch<'p>
        ensures { SearchesLines result matcher.entry.tree }
    {
        LineSearch {
            matcher,
            found: None,
            whole: false,
        }
    }

    /// The matcher, with what it has cached.
    pub fn into_matcher(self) -> Matcher<'p>
        ensures { result ≡ self.entry.matcher }
    {
        self.matcher
    }

    /// Whether the matches of some line were not all found, since its budget was used up.
    pub fn has_stopped(&self) -> bool
        ensures { result ≡ has_stopped self.now }
    {
        match &self.found {
            Some(found) => found.stopped,
            None => false,
        }
    }

    /// Counts so many steps more, which a caller took for its search of the text. Does nothing when
    /// it runs.
    pub(crate) fn add_steps(&mut self, count: usize)
        ensures listed { listed_ends self.new ≡ listed_ends self.old }
        ensures same { KeepsSearch self.old self.new }
        ensures budget { has_stopped self.new ≡ has_stopped self.old }
        ensures work { Takes count self.old self.new }
    {
        self.matcher.add_steps(count);
    }

    /// Whether a line matches.
    #[tactic(auto, unfolding(crate::specs::Work::line_weight))]
    pub(crate) fn is_match(&mut self, line: &[u8]) -> bool
        ensures found { IsTrue result ↔ Matches self.old line.now }
        ensures same { KeepsSearch self.old self.new }
        ensures budget { has_stopped self.new ≡ has_stopped self.old }
        ensures work { Takes (line_work (line_weight self.old) (length line.now)) self.old self.new }
    {
        self.matcher.is_match(line) && self.is_wanted(line)
    }

    /// Whether a line that has a match has one that is wanted: with `-w` a whole word.
    pub(crate) fn is_wanted(&mut self, line: &[u8]) -> bool
        ensures found { IsTrue result ↔ HasWordBy self.old line.now }
        ensures matcher { self.new.matcher ≡ self.old.matcher }
        ensures same { KeepsSearch self.old self.new }
        ensures budget { has_stopped self.new ≡ has_stopped self.old }
    {
        if !self.whole {
            return true;
        }
        match &mut self.found {
            Some(found) => found.has_word(line),
            None => true,
        }
    }

    /// The first line at or after `from` that matches.
    pub(crate) fn next_match(&mut self, block: &[u8], from: usize) -> Option<Line>
        requires within { from ≤ length block.now }
        requires whole { AreWholeLines (drop from block.now) }
        ensures line { IfSome result (λ line. IsLineAfter block.now from line.start line.end) }
        ensures next { (test : List ℕ → Bool) → Tests test self.old →
            IsNext test block.now from result }
        ensures same { KeepsSearch self.old self.new }
        ensures budget { has_stopped self.new ≡ has_stopped self.old }
        ensures work { Takes (search_work (line_weight self.old) (searched_bytes from (length
            block.now) result))
            self.old self.new }
    {
        matching_is_decidable();
        let mut start = from;
        'lines: while let Some(line) = self.matcher.next_match(block, start) {
            if self.is_wanted(&block[line.start..line.end]) {
                return Some(line);
            }
            start = line.end + 1;
        }
        None
    }

    /// How many lines of a block of whole lines match.
    #[tactic(auto, unfolding(crate::specs::Work::line_weight))]
    pub(crate) fn count(&mut self, block: &[u8]) -> u64
        requires whole { AreWholeLines block.now }
        ensures count { (test : List ℕ → Bool) → Tests test self.old →
            result ≡ count_by test (terminated_lines block.now) }
        ensures bound { result ≤ length (terminated_lines block.now) }
        ensures same { KeepsSearch self.old self.new }
        ensures budget { has_stopped self.new ≡ has_stopped self.old }
        ensures work { Takes (search_work (line_weight self.old) (length block.now)) self.old self.new }
    {
        if self.whole {
            return self.count_words(block);
        }
        self.matcher.count(block)
    }

    /// How many lines of a block of whole lines match, one after another.
    fn count_words(&mut self, block: &[u8]) -> u64
        requires whole { AreWholeLines block.now }
        ensures count { (test : List ℕ → Bool) → Tests test self.old →
            result ≡ count_by test (terminated_lines block.now) }
        ensures bound { result ≤ length (terminated_lines block.now) }
        ensures same { KeepsSearch self.old self.new }
        ensures budget { has_stopped self.new ≡ has_stopped self.old }
        ensures work { Takes (search_work (line_weight self.old) (length block.now)) self.old self.new }
    {
        let mut count = 0;
        let mut offset = 0;
        'lines: while let Some(line) = self.next_match(block, offset) {
            offset = line.end + 1;
            count += 1;
        }
        count
    }

    /// Lists the lines from an offset on that have a match, up to the offset that it returns.
    #[tactic(auto, unfolding(crate::specs::Work::line_weight))]
    pub(crate) fn list_lines(&mut self, block: &[u8], from: usize) -> usize
        requires within { from < length block.now }
        requires whole { AreWholeLines (drop from block.now) }
        ensures lines { AreLinesBetween block.now from result }
        ensures moves { from < result }
        ensures listed { (test : List ℕ → Bool) → TestsMatches test self.old →
            listed_ends self.new ≡ matching_ends test block.now from result }
        ensures same { KeepsSearch self.old self.new }
        ensures budget { has_stopped self.new ≡ has_stopped self.old }
        ensures work { Takes (list_work (line_weight self.old) (result - from)) self.old self.new }
    {
        self.matcher.list_lines(block, from)
    }

    /// The lines that were listed last, by the offsets of their newlines.
    pub(crate) fn listed(&self) -> &[usize]
        ensures { result.now ≡ listed_ends self.now }
    {
        self.matcher.listed()
    }

    /// Finds the matches of a line, if the form needs them.
    pub(crate) fn find(&mut self, form: &LineForm, line: &[u8]) -> Result<(), AllocError>
        ensures spans { OnOk result (has_stopped self.new ≡ false → needs_spans form.now ≡ true →
            AreSpansBy self.old line.now (found_spans self.new)) }
        ensures ordered { OnOk result (AreOrdered 0 (length line.now) (found_spans self.new)) }
        ensures matcher { self.new.matcher ≡ self.old.matcher }
        ensures same { KeepsSearch self.old self.new }
        ensures budget { StopsBySpans form.now self.old self.new }
    {
        let whole = self.whole;
        match &mut self.found {
            Some(found) => {
                if form.needs_spans() {
                    return found.find(line, whole);
                }
                found.count = 0;
                Ok(())
            }
            None => Ok(()),
        }
    }

    /// The matches that were found.
    pub(crate) fn spans(&self) -> &[Span]
        ensures { pairs result.now ≡ found_spans self.now }
    {
        match &self.found {
            Some(found) => &found.spans[..found.count],
            None => &[],
        }
    }
}

/// Makes room for so many matches.
fn make_room(spans: &mut Vec<Span>, room: usize) -> Result<(), AllocError> {
    if spans.len() < room {
        spans.resize(room, Span { start: 0, end: 0 })?;
    }
    Ok(())
}

/// Whether one of two holds.
fn either(first: bool, second: bool) -> bool
    ensures { result ≡ (first || second) }
{
    first || second
}

impl LineForm {
    /// Whether the form shows where matches are.
    pub(crate) fn needs_spans(&self) -> bool
        ensures { result ≡ needs_spans self.now }
    {
        self.column || self.only || self.each || self.colour
    }
}
