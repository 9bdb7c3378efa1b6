// Lines as they are printed with their matches.
ghost use Rattle.std.specs.Prelude.{◌≡◌, ◌≤◌, ◌<◌, ◌+◌, ◌^◌, ◌++◌, ◌∷◌, ℕ, [], List, length};
ghost use Rattle.std.specs.List.{flat_map};
ghost use Rattle.cs_lines.specs.Cited.{newline, column_part, first_column, match_bytes, whole_bytes, painted, painted_from, prefix_of, row_bytes, AreOrdered, pairs, pair_of, Keeps, Prints, given, row_of};
ghost use Rattle.cs_lines.specs.Forms.{Span as A_span};

use crate::form::LineForm;
use crate::row::LineRow;
use cs_match::Span;
use cs_tree::{Sink, SinkOutput};
use itoa::Buffer;

/// A line that is shown, and its matches.
#[derive(Clone, Copy, Drop)]
pub(crate) struct FoundRow<'a> {
    pub(crate) name: &'a str,
    pub(crate) row: LineRow<'a>,
    pub(crate) spans: &'a [Span],
}

impl LineForm {
    /// The column, if the form has columns.
    #[tactic(auto, using(crate::proofs::Printing::printing))]
    fn print_column<O: Sink>(
        &self,
        column: Option<usize>,
        marked: bool,
        out: &mut SinkOutput<'_, O>,
    )
        ensures { Prints O.model O.failed out.old out.new (column_part self.now marked column) }
    {
        let Some(column) = column else {
            return;
        };
        if !self.column {
            return;
        }
        let mut digits = Buffer::new();
        out.print(digits.format(column).as_bytes());
        self.print_separator(marked, out);
    }

    /// The line from `at` up to the end of a match, which is in colours. Returns where the rest of
    /// the line begins.
    fn print_match<O: Sink>(
        &self,
        line: &[u8],
        at: usize,
        span: Span,
        out: &mut SinkOutput<'_, O>,
    ) -> usize
        requires within { (at ≤ span.start) × (span.start ≤ span.end) × (span.end ≤ length line.now) }
        ensures next { result ≤ span.end }
        ensures painted { (spans : List A_span) →
            given out.old ++ painted_from self.now line.now at ((span.start, span.end) ∷ spans)
            ≡ given out.new ++ painted_from self.now line.now result spans }
        ensures keeps { Keeps O.model O.failed out.old out.new }
    {
        if span.start >= span.end {
            return at;
        }
        out.print(&line[at..span.start]);
        self.print_dyed(b"1;31", &line[span.start..span.end], out);
        span.end
    }

    /// The line from an offset on, its matches in colours.
    #[tactic(auto, using(crate::proofs::Printing::printing))]
    fn print_from<O: Sink>(
        &self,
        line: &[u8],
        from: usize,
        spans: &[Span],
        out: &mut SinkOutput<'_, O>,
    )
        requires ordered { AreOrdered from (length line.now) (pairs spans.now) }
        ensures { Prints O.model O.failed out.old out.new (painted_from self.now line.now from
            (pairs spans.now)) }
    {
        let mut at = from;
        for span in spans {
            at = self.print_match(line, at, *span, out);
        }
        out.print(&line[at..]);
    }

    /// The line, its matches in colours if the form has them.
    #[tactic(auto, using(crate::proofs::Printing::printing))]
    fn print_painted<O: Sink>(&self, line: &[u8], spans: &[Span], out: &mut SinkOutput<'_, O>)
        requires ordered { AreOrdered 0 (length line.now) (pairs spans.now) }
        ensures { Prints O.model O.failed out.old out.new (painted self.now line.now
            (pairs spans.now)) }
    {
        if self.colour {
            self.print_from(line, 0, spans, out);
        } else {
            out.print(line);
        }
    }

    /// The name, the number and the column, as far as the form has them.
    #[tactic(auto, using(crate::proofs::Printing::printing))]
    fn print_start<O: Sink>(
        &self,
        found: &FoundRow<'_>,
        column: Option<usize>,
        out: &mut SinkOutput<'_, O>,
    )
        ensures { Prints O.model O.failed out.old out.new
            (prefix_of self.now found.now.name.now (row_of found.now.row) column) }
    {
        self.print_name(found.name, found.row.marked, out);
        self.print_number(found.row.number, found.row.marked, out);
        self.print_column(column, found.row.marked, out);
    }

    /// A marked line and its prefix, with this column.
    #[tactic(auto, using(crate::proofs::Printing::printing))]
    fn print_line<O: Sink>(
        &self,
        found: &FoundRow<'_>,
        column: Option<usize>,
        out: &mut SinkOutput<'_, O>,
    )
        requires ordered { AreOrdered 0 (length found.now.row.line.now) (pairs found.now.spans.now) }
        ensures { Prints O.model O.failed out.old out.new
            (prefix_of self.now found.now.name.now (row_of found.now.row) column
            ++ (painted self.now found.now.row.line.now (pairs found.now.spans.now) ++ newline ∷ [])) }
    {
        self.print_start(found, column, out);
        self.print_painted(found.row.line, found.spans, out);
        out.print(b"\n");
    }

    /// A match by itself under `-o`, else its line.
    #[tactic(auto, using(crate::proofs::Printing::printing))]
    fn print_each<O: Sink>(&self, found: &FoundRow<'_>, span: Span, out: &mut SinkOutput<'_, O>)
        requires within { (span.start ≤ span.end) × (span.end ≤ length found.now.row.line.now) }
        requires ordered { AreOrdered 0 (length found.now.row.line.now) (pairs found.now.spans.now) }
        ensures { Prints O.model O.failed out.old out.new
            (match_bytes self.now found.now.name.now (row_of found.now.row) (pairs found.now.spans.now)
            (span.start, span.end)) }
    {
        if !self.only {
            self.print_line(found, Some(span.start + 1), out);
            return;
        }
        if span.start >= span.end {
            return;
        }
        self.print_start(found, Some(span.start + 1), out);
        self.print_dyed(b"1;31", &found.row.line[span.start..span.end], out);
        out.print(b"\n");
    }

    /// Each match of a marked line.
    #[tactic(auto, using(crate::proofs::Printing::printing))]
    fn print_matches<O: Sink>(&self, found: &FoundRow<'_>, out: &mut SinkOutput<'_, O>)
        requires ordered { AreOrdered 0 (length found.now.row.line.now) (pairs found.now.spans.now) }
        ensures { Prints O.model O.failed out.old out.new
            (flat_map (match_bytes self.now found.now.name.now (row_of found.now.row)
            (pairs found.now.spans.now))
            (pairs found.now.spans.now)) }
    {
        let spans = found.spans;
        for span in spans {
            self.print_each(found, *span, out);
        }
    }

    /// A marked line after its prefix.
    #[tactic(auto, using(crate::proofs::Printing::printing))]
    fn print_whole<O: Sink>(&self, found: &FoundRow<'_>, out: &mut SinkOutput<'_, O>)
        requires ordered { AreOrdered 0 (length found.now.row.line.now) (pairs found.now.spans.now) }
        ensures { Prints O.model O.failed out.old out.new
            (whole_bytes self.now found.now.name.now (row_of found.now.row)
            (pairs found.now.spans.now)) }
    {
        self.print_start(found, first_column(found.spans), out);
        self.print_painted(found.row.line, found.spans, out);
        out.print(b"\n");
    }

    /// A line that is shown.
    #[tactic(auto, using(crate::proofs::Printing::printing))]
    pub(crate) fn print_found<O: Sink>(&self, found: &FoundRow<'_>, out: &mut SinkOutput<'_, O>)
        requires ordered { AreOrdered 0 (length found.now.row.line.now) (pairs found.now.spans.now) }
        ensures { Prints O.model O.failed out.old out.new
            (row_bytes self.now found.now.name.now (row_of found.now.row)
            (pairs found.now.spans.now)) }
    {
        if !found.row.marked {
            self.print_start(found, None, out);
            out.print(found.row.line);
            out.print(b"\n");
        } else if !found.spans.is_empty() && (self.only || self.each) {
            self.print_matches(found, out);
        } else {
            self.print_whole(found, out);
        }
    }
}

/// The column of the first match.
fn first_column(spans: &[Span]) -> Option<usize>
    requires within { AreOrdered 0 18446744073709551614 (pairs spans.now) }
    ensures { result ≡ first_column (pairs spans.now) }
{
    match spans {
        [] => None,
        [span, ..] => Some(span.start + 1),
    }
}
