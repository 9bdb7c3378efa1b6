// Where in a line a match is: the leftmost one, and of those that begin there the longest. Passes
// of the automaton find it (`pass`), or, if the program is one word, the bytes are compared with it
// (`word`).
ghost use Rattle.std.specs.Prelude.{◌≡◌, ◌≤◌, ◌+◌, IfOk, MatchOption, length, true, false};
ghost use Rattle.cs_match.specs.Cited.{IsPassOf, IsFirstOf, HasNoMatchOf, IsFirstSpan, HasNoMatchFrom, IsListing, IsUsedUp, SearchesWithin, ListsWithin};

mod pass;
mod word;

use crate::glushkov::Scratch;
use crate::position_set::PositionSet;
use crate::program::Program;
use cs_syntax::Unfinished;
use cs_tree::Steps;
pub use pass::{Pass, Wanted};
use std::alloc::{AllocError, Global};
use std::marker::Model;
pub(crate) use word::is_one_word;

/// A part of a line: its bytes from `start` to `end`.
#[repr(C)]
#[derive(Clone, Copy, Drop)]
pub struct Span {
    pub start: usize,
    pub end: usize,
}

/// The spans of a line that are in a buffer.
#[derive(Clone, Copy, Drop)]
pub struct ListedSpans {
    /// How many there are.
    pub count: usize,
    /// The budget or the buffer was used up, so that there may be more.
    pub stopped: bool,
}

/// A program with the memory of a search for spans. Contracts see the program's tree, the bytes
/// read and the steps taken.
#[derive(Drop)]
pub struct Finder<'a> {
    program: &'a Program,
    pass: Pass,
}

impl<'a> Model for Finder<'a> {
    ghost use Rattle.cs_match.specs.SpanWork.{Finding, finding_code};
    ghost use Rattle.cs_match.specs.SpanList.{finding_of};

    ghost Value = { Finding };

    ghost coded = { finding_code };

    ghost use Rattle.cs_match.specs.Passes.{IsPassOf};

    ghost view = { λ finder. finding_of finder.program.now finder.pass };

    ghost invariant = { λ finder. IsPassOf finder.program.now finder.pass };
}

impl<'a> Finder<'a> {
    /// A finder for the program. It allocates all memory that its calls use.
    pub fn new(alloc: Global, program: &'a Program) -> Result<Finder<'a>, AllocError>
        ensures tree { IfOk result (λ finder. finder.tree ≡ program.now) }
        ensures bytes { IfOk result (λ finder. finder.bytes ≡ 0) }
        ensures steps { IfOk result (λ finder. finder.steps ≡ 0) }
    {
        let pass = Pass {
            positions: PositionSet::none(alloc, program.positions().len())?,
            unfinished: Unfinished::none(),
            scratch: Scratch::new(alloc, program)?,
            left: 0,
            read: Steps::new(),
            steps: Steps::new(),
        };
        Ok(Finder { program, pass })
    }

    /// A finder that goes on with the pass of an earlier finder of this program. It allocates
    /// nothing.
    pub fn resume(program: &'a Program, pass: Pass) -> Finder<'a>
        requires pass { IsPassOf program.now pass }
        ensures tree { result.tree ≡ program.now }
    {
        Finder { program, pass }
    }

    /// The memory of the passes, for a later finder of the same program.
    pub fn into_pass(self) -> Pass
        ensures { IsPassOf self.entry.tree result }
    {
        let Finder { program: _, pass } = self;
        pass
    }

    /// The first match of the line that begins at or after `from`. It allocates nothing.
    pub fn find(&mut self, line: &[u8], from: usize) -> Option<Span>
        requires within { from ≤ length line.now }
        ensures found { MatchOption result (HasNoMatchFrom self.old.tree line.now from from)
            (λ span. IsFirstSpan self.old.tree line.now from from span.start span.end) }
        ensures same { self.new.tree ≡ self.old.tree }
        ensures work { SearchesWithin (length line.now) self.old self.new }
    {
        let wanted = Wanted {
            whole: false,
            from,
            least: from,
        };
        self.search(line, wanted)
    }

    /// The first match that begins at or after the end of this one, and ends after it.
    pub fn find_after(&mut self, line: &[u8], last: Span) -> Option<Span>
        requires within { last.end ≤ length line.now }
        ensures found { MatchOption result (HasNoMatchFrom self.old.tree line.now last.end (last.end + 1))
            (λ span. IsFirstSpan self.old.tree line.now last.end (last.end + 1) span.start span.end) }
        ensures same { self.new.tree ≡ self.old.tree }
        ensures work { SearchesWithin (length line.now) self.old self.new }
    {
        let wanted = Wanted {
            whole: false,
            from: last.end,
            least: last.end + 1,
        };
        self.search(line, wanted)
    }

    /// The first match that is wanted, as one that is a whole word.
    pub fn search(&mut self, line: &[u8], wanted: Wanted) -> Option<Span>
        requires within { wanted.from ≤ length line.now }
        ensures found { MatchOption result (HasNoMatchOf wanted.whole self.old.tree line.now wanted.from
            wanted.least) (λ span. IsFirstOf wanted.whole self.old.tree line.now wanted.from wanted.least
            span.start span.end) }
        ensures same { self.new.tree ≡ self.old.tree }
        ensures work { SearchesWithin (length line.now) self.old self.new }
    {
        self.pass.find(self.program, line, wanted)
    }

    /// Lists the matches of the line in their order, or those that are whole words, while there is
    /// room for them and the passes have read fewer bytes than the budget. A search that has begun
    /// is finished.
    pub fn list(
        &mut self,
        line: &[u8],
        whole: bool,
        budget: usize,
        spans: &mut [Span],
    ) -> ListedSpans
        ensures listed { IsListing whole self.old.tree line.now spans.old spans.new result }
        ensures stopped { result.stopped ≡ true →
            IsUsedUp budget (length spans.old) result.count self.old self.new }
        ensures same { self.new.tree ≡ self.old.tree }
        ensures work { ListsWithin budget (length line.now) self.old self.new }
    {
        self.pass.left = budget;
        self.pass.list(self.program, line, whole, spans)
    }
}

impl Pass {
    /// The pass of a new finder of the program.
    pub fn new(alloc: Global, program: &Program) -> Result<Pass, AllocError>
        ensures { IfOk result (IsPassOf program.now) }
    {
        Ok(Finder::new(alloc, program)?.into_pass())
    }
}
