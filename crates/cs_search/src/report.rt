// Searches of one input, and of a text in memory (Go: `Grep` in regexp/match.go). cs_lines searches
// and prints, by the options of the style.
ghost use Rattle.std.specs.Prelude.{◌≡◌, ◌<◌, ◌+◌, ◌^◌, []};
ghost use Rattle.cs_search.specs.Cited.{ConsumesAtMost, count_after, Tree, SearchesLines, Takes, TakesRead, input_work, line_weight, ReportsBy, max_searched, input_report, CountsBoth, is_grep_failure, has_read_failed, text_report, IsReportedBy, answer_of as answer_of', streamed_as};

use crate::status::{GrepFault, Grepped, ReadFault};
use crate::styles::{Printer, options_of};
use cs_args::Style;
use cs_lines::{Ended, LineBuffer, LineSearch, Page, Streamed, print_input, print_text};
use cs_tree::{IoFault, Sink, SinkOutput, Source};
use std::alloc::{AllocError, Global};

/// The maximum number of bytes of an input that are searched: 2^30.
pub const MAX_SEARCHED: usize = 1073741824;

/// Searches the input line by line and prints its matching lines in the given style. Returns
/// whether some line matched, and why the search stopped before the end of the input. It flushes
/// nothing. With `-l` it reads nothing after the read that completed the first matching line.
/// `input_work` of what was read bounds the matcher's steps. Not counted are the system's own work,
/// the growth of the buffer, and the moves of an unfinished line to its start.
///
/// # Errors
///
/// `Write` if the output fails, `Memory` if an allocation fails. Then a prefix of the report was
/// printed.
pub fn grep<R: Source, O: Sink>(
    alloc: Global,
    name: &str,
    input: &mut R,
    search: &mut LineSearch<'_>,
    style: Style,
    out: &mut O,
) -> Result<Grepped, GrepFault>
    ensures report { (tree : Tree) → SearchesLines search.old tree → ReportsBy tree (R.model input.old)
        (input_report max_searched style name.now) (O.model out.old) (O.model out.new) result }
    ensures counts { CountsBoth has_read_failed R.failed O.failed input.old input.new out.old out.new result }
    ensures loses { ConsumesAtMost (max_searched + 1) (R.model input.old) (R.model input.new) }
    ensures same { (tree : Tree) → SearchesLines search.old tree → SearchesLines search.new tree }
    ensures keeps { R.Keeps input.old input.new }
    ensures work { TakesRead (input_work (line_weight search.old)) [] max_searched
        (R.model input.old) (R.model input.new) search.old search.new }
{
    let mut buffer = LineBuffer::new(alloc)?;
    grep_within(
        &Printer { name, style },
        input,
        MAX_SEARCHED,
        &mut buffer,
        search,
        out,
    )
}

/// `grep` with a limit and a buffer from the caller. The buffer is cleared first.
pub fn grep_within<R: Source, O: Sink>(
    printer: &Printer<'_>,
    input: &mut R,
    limit: usize,
    buffer: &mut LineBuffer,
    search: &mut LineSearch<'_>,
    out: &mut O,
) -> Result<Grepped, GrepFault>
    requires { limit < 2 ^ 32 }
    ensures report { (tree : Tree) → SearchesLines search.old tree → ReportsBy tree (R.model input.old)
        (input_report limit printer.now.style printer.now.name.now)
        (O.model out.old) (O.model out.new) result }
    ensures counts { CountsBoth has_read_failed R.failed O.failed input.old input.new out.old out.new result }
    ensures loses { ConsumesAtMost (limit + 1) (R.model input.old) (R.model input.new) }
    ensures same { (tree : Tree) → SearchesLines search.old tree → SearchesLines search.new tree }
    ensures keeps { R.Keeps input.old input.new }
    ensures work { TakesRead (input_work (line_weight search.old)) [] limit
        (R.model input.old) (R.model input.new) search.old search.new }
{
    let options = options_of(printer.style);
    let page = Page {
        options: &options,
        name: printer.name,
        begun: false,
    };
    let mut sink = SinkOutput::new(out);
    let printed = print_input(&page, limit, input, buffer, search, &mut sink);
    answer_of(sink.fault(), printed)
}

/// `grep` of a text in memory, which is neither copied nor limited. The answer has no fault.
pub fn grep_text<O: Sink>(
    printer: &Printer<'_>,
    text: &[u8],
    search: &mut LineSearch<'_>,
    out: &mut O,
) -> Result<Grepped, GrepFault>
    ensures report { (tree : Tree) → SearchesLines search.old tree → IsReportedBy tree (λ has_match.
        text_report printer.now.style printer.now.name.now has_match text.now)
        (O.model out.old) (O.model out.new) result }
    ensures failed { O.failed out.new ≡ count_after is_grep_failure result (O.failed out.old) }
    ensures same { (tree : Tree) → SearchesLines search.old tree → SearchesLines search.new tree }
    ensures work { Takes (input_work (line_weight search.old) text.now) search.old search.new }
{
    let options = options_of(printer.style);
    let page = Page {
        options: &options,
        name: printer.name,
        begun: false,
    };
    let mut sink = SinkOutput::new(out);
    let printed = whole(print_text(&page, text, search, &mut sink));
    answer_of(sink.fault(), printed)
}

/// What became of a text that was searched to its end.
fn whole(marked: Result<bool, AllocError>) -> Result<Streamed, AllocError>
    ensures { result ≡ streamed_as marked }
{
    let marked = marked?;
    Ok(Streamed {
        marked,
        ended: Ended::Whole,
    })
}

/// The answer of a search, given why a write has failed, if one has.
fn answer_of(
    fault: Option<IoFault>,
    printed: Result<Streamed, AllocError>,
) -> Result<Grepped, GrepFault>
    ensures { result ≡ answer_of' fault printed }
{
    if let Some(fault) = fault {
        return Err(GrepFault::from(fault));
    }
    let streamed = printed?;
    Ok(Grepped {
        matched: streamed.marked,
        fault: ReadFault::of(streamed.ended),
    })
}
