// The printing of a text: one that is read from a source, and one in memory.
ghost use Rattle.std.specs.Prelude.{◌≡◌, ◌<◌, ◌+◌, ◌^◌, [], nat_lt, true, false, IfOk, OnErr, length};
ghost use Rattle.cs_syntax.specs.Matching.{Tree};
ghost use Rattle.cs_tree.specs.StreamModels.{ends};
ghost use Rattle.cs_tree.specs.ConsumesAtMost.{ConsumesAtMost};
ghost use Rattle.cs_tree.specs.Transfers.{IsAt};
ghost use Rattle.cs_lines.specs.Buffer.{pending_bytes};
ghost use Rattle.cs_lines.specs.Cited.{count_if, limit_by, Keeps, KeepsSearch, StopsBySpans, has_stopped, Prints, given, between, following, total_groups, BeginsFile, BeginsInput, BeginsText, FindsInFile, PrintsFile, ReadsToEnd, SearchesLines, ShowsBegun, ShowsLines, ShowsSome, ShowsText, StreamsInput, StreamsText, StreamsTotal, Takes, TakesRead, file_work, line_weight, shown_work, has_failed_read, is_failed, FailsAlone};

use crate::binary::{BinaryFiles, searched_as};
use crate::buffer::{LONGEST, LineBuffer};
use crate::counting::{stream_count, text_count};
use crate::form::{Mode, ShowOptions};
use crate::rows::{Page, Rows};
use crate::search::LineSearch;
use crate::stream::{Ended, Streamed, stream_lines, unread};
use cs_match::whole_lines_len;
use cs_tree::{Sink, SinkOutput, Source};
use std::alloc::AllocError;

impl ShowOptions {
    /// How many lines have to be counted, where none is printed.
    fn limit(&self) -> Option<u64>
        ensures { result ≡ limit_by self.now.mode self.now.most }
    {
        match self.mode {
            Mode::Lines | Mode::Names | Mode::Others => Some(self.at_most(1)),
            Mode::Counts => self.most,
        }
    }
}

impl Page<'_> {
    /// What is printed for a text with so many marked lines, where none is printed.
    fn print_total<O: Sink>(&self, count: u64, out: &mut SinkOutput<'_, O>)
        ensures { Prints O.model O.failed out.old out.new
            (following (between self.now.options.now) self.now.begun (total_groups self.now.options.now
            self.now.name.now self.now.options.now.mode count)) }
    {
        match self.options.mode {
            Mode::Lines => self.print_binary(count > 0, out),
            Mode::Counts => self.print_count(count, out),
            Mode::Names => self.print_listed(count > 0, out),
            Mode::Others => self.print_listed(count == 0, out),
        }
    }
}

/// Whether a count is not 0.
fn has_some(count: u64) -> bool
    ensures { result ≡ nat_lt 0 count }
{
    count > 0
}

/// Prints what is to be printed for a text without its lines: nothing, if it was not read to its
/// end. The buffer has its first bytes, and the source the rest.
fn stream_total<R: Source, O: Sink>(
    page: &Page<'_>,
    input: &mut R,
    buffer: &mut LineBuffer,
    search: &mut LineSearch<'_>,
    out: &mut SinkOutput<'_, O>,
) -> Result<Streamed, AllocError>
    requires room { length (pending_bytes buffer.old) + buffer.old.left < 2 ^ 63 }
    requires ended { buffer.old.ended ≡ true → IsAt ends (R.model input.old) }
    ensures text { IfOk result (StreamsTotal search.old search.new page.now buffer.old.left
        (R.model input.old) (pending_bytes buffer.old) (given out.old) (given out.new)) }
    ensures begins { OnErr result (given out.new ≡ given out.old) }
    ensures ended { IfOk result (λ streamed. ReadsToEnd buffer.old.left (R.model input.old) streamed.ended) }
    ensures failed { R.failed input.new ≡ count_if (has_failed_read result) (R.failed input.old) }
    ensures alone { FailsAlone out.old out.new result }
    ensures same { KeepsSearch search.old search.new }
    ensures budget { has_stopped search.new ≡ has_stopped search.old }
    ensures work { TakesRead (shown_work page.now.options.now (line_weight search.old))
        (pending_bytes buffer.old) buffer.old.left (R.model input.old) (R.model input.new)
        search.old search.new }
    ensures keeps { R.Keeps input.old input.new }
    ensures handed { Keeps O.model O.failed out.old out.new }
{
    let counted = stream_count(page.options, page.options.limit(), input, buffer, search)?;
    let count = page.options.at_most(counted.count);
    if counted.ended.is_whole() {
        page.print_total(count, out);
    }
    Ok(Streamed {
        marked: has_some(count),
        ended: counted.ended,
    })
}

/// Prints what is to be printed for a text. The buffer has its first bytes, and the source the
/// rest.
fn print_source<R: Source, O: Sink>(
    page: &Page<'_>,
    input: &mut R,
    buffer: &mut LineBuffer,
    search: &mut LineSearch<'_>,
    out: &mut SinkOutput<'_, O>,
) -> Result<Streamed, AllocError>
    requires room { 1 + length (pending_bytes buffer.old) + buffer.old.left < 2 ^ 63 }
    requires ended { buffer.old.ended ≡ true → IsAt ends (R.model input.old) }
    ensures text { IfOk result (StreamsText search.old search.new page.now buffer.old.left
        (R.model input.old) (pending_bytes buffer.old) (given out.old) (given out.new)) }
    ensures begins { BeginsText search.old search.new page.now buffer.old.left (R.model input.old)
        (pending_bytes buffer.old) (given out.old) (given out.new) result }
    ensures ended { IfOk result (λ streamed. ReadsToEnd buffer.old.left (R.model input.old) streamed.ended) }
    ensures failed { R.failed input.new ≡ count_if (has_failed_read result) (R.failed input.old) }
    ensures alone { FailsAlone out.old out.new result }
    ensures same { KeepsSearch search.old search.new }
    ensures budget { StopsBySpans page.now.options.now.form search.old search.new }
    ensures work { TakesRead (shown_work page.now.options.now (line_weight search.old))
        (pending_bytes buffer.old) buffer.old.left (R.model input.old) (R.model input.new)
        search.old search.new }
    ensures keeps { R.Keeps input.old input.new }
    ensures handed { Keeps O.model O.failed out.old out.new }
{
    match page.options.mode {
        Mode::Lines => stream_lines(page, input, buffer, search, out),
        Mode::Counts | Mode::Names | Mode::Others => {
            stream_total(page, input, buffer, search, out)
        }
    }
}

/// Prints what is to be printed for a text that is read from a source. Its first bytes are enough
/// to see whether it is binary.
pub fn print_file<R: Source, O: Sink>(
    page: &Page<'_>,
    binary: BinaryFiles,
    input: &mut R,
    buffer: &mut LineBuffer,
    search: &mut LineSearch<'_>,
    out: &mut SinkOutput<'_, O>,
) -> Result<Streamed, AllocError>
    ensures text { IfOk result (PrintsFile search.old search.new page.now binary (R.model input.old)
        (given out.old) (given out.new)) }
    ensures begins { BeginsFile search.old search.new page.now binary (R.model input.old)
        (given out.old) (given out.new) }
    ensures found { IfOk result (FindsInFile search.old search.new page.now binary
        (R.model input.old)) }
    ensures ended { IfOk result (λ streamed. ReadsToEnd (2 ^ 62) (R.model input.old) streamed.ended) }
    ensures failed { R.failed input.new ≡ count_if (has_failed_read result) (R.failed input.old) }
    ensures same { KeepsSearch search.old search.new }
    ensures budget { StopsBySpans page.now.options.now.form search.old search.new }
    ensures work { TakesRead (file_work page.now.options.now (line_weight search.old)) [] (2 ^ 62)
        (R.model input.old) (R.model input.new) search.old search.new }
    ensures keeps { R.Keeps input.old input.new }
    ensures handed { Keeps O.model O.failed out.old out.new }
{
    let begun = buffer.begin_with(input, LONGEST);
    search.add_steps(buffer.pending().len() + 1);
    match begun {
        Ok(()) => {}
        Err(fault) => {
            let ended = unread(fault)?;
            return Ok(Streamed {
                marked: false,
                ended,
            });
        }
    }
    match searched_as(binary, buffer.pending()) {
        BinaryFiles::WithoutMatch => Ok(Streamed {
            marked: false,
            ended: Ended::Whole,
        }),
        BinaryFiles::Binary => stream_total(page, input, buffer, search, out),
        BinaryFiles::Text => print_source(page, input, buffer, search, out),
    }
}

/// Prints what is to be printed for an input, searching at most `limit` bytes of it, by a
/// search for lines.
pub fn print_input<R: Source, O: Sink>(
    page: &Page<'_>,
    limit: usize,
    input: &mut R,
    buffer: &mut LineBuffer,
    search: &mut LineSearch<'_>,
    out: &mut SinkOutput<'_, O>,
) -> Result<Streamed, AllocError>
    requires limit { limit + 1 < 2 ^ 63 }
    ensures text { (tree : Tree) → SearchesLines search.old tree → IfOk result (StreamsInput tree
        page.now limit (R.model input.old) (given out.old) (given out.new)) }
    ensures begins { (tree : Tree) → SearchesLines search.old tree → BeginsInput tree page.now limit
        (R.model input.old) (given out.old) (given out.new) result }
    ensures failed { R.failed input.new ≡ count_if (has_failed_read result) (R.failed input.old) }
    ensures alone { FailsAlone out.old out.new result }
    ensures same { (tree : Tree) → SearchesLines search.old tree → SearchesLines search.new tree }
    ensures budget { StopsBySpans page.now.options.now.form search.old search.new }
    ensures loses { ConsumesAtMost (limit + 1) (R.model input.old) (R.model input.new) }
    ensures work { TakesRead (shown_work page.now.options.now (line_weight search.old)) [] limit
        (R.model input.old) (R.model input.new) search.old search.new }
    ensures keeps { R.Keeps input.old input.new }
    ensures handed { Keeps O.model O.failed out.old out.new }
{
    buffer.begin(limit);
    print_source(page, input, buffer, search, out)
}

/// The same for a text in memory, which is neither copied nor limited. Returns whether a line is
/// marked.
pub fn print_text<O: Sink>(
    page: &Page<'_>,
    text: &[u8],
    search: &mut LineSearch<'_>,
    out: &mut SinkOutput<'_, O>,
) -> Result<bool, AllocError>
    ensures text { (tree : Tree) → SearchesLines search.old tree → IfOk result (ShowsText tree
        page.now text.now (given out.old) (given out.new)) }
    ensures begins { (tree : Tree) → SearchesLines search.old tree → OnErr result (ShowsBegun tree
        page.now text.now (given out.old) (given out.new)) }
    ensures same { (tree : Tree) → SearchesLines search.old tree → SearchesLines search.new tree }
    ensures budget { StopsBySpans page.now.options.now.form search.old search.new }
    ensures work { Takes (shown_work page.now.options.now (line_weight search.old) text.now) search.old
        search.new }
    ensures handed { Keeps O.model O.failed out.old out.new }
{
    match page.options.mode {
        Mode::Lines => print_lines(page, text, search, out),
        Mode::Counts | Mode::Names | Mode::Others => {
            let count = text_count(page.options, page.options.limit(), text, search);
            let count = page.options.at_most(count);
            page.print_total(count, out);
            Ok(has_some(count))
        }
    }
}

/// Prints the lines of a text in memory that are to be shown.
fn print_lines<O: Sink>(
    page: &Page<'_>,
    text: &[u8],
    search: &mut LineSearch<'_>,
    out: &mut SinkOutput<'_, O>,
) -> Result<bool, AllocError>
    ensures text { IfOk result (ShowsLines search.old search.new page.now text.now (given out.old)
        (given out.new)) }
    ensures begins { OnErr result (ShowsSome search.old search.new page.now text.now (given out.old)
        (given out.new)) }
    ensures same { KeepsSearch search.old search.new }
    ensures budget { StopsBySpans page.now.options.now.form search.old search.new }
    ensures work { Takes (shown_work page.now.options.now (line_weight search.old) text.now) search.old
        search.new }
    ensures handed { Keeps O.model O.failed out.old out.new }
{
    let mut rows = Rows::new(*page);
    search.add_steps(text.len());
    let end = whole_lines_len(text);
    let held = rows.search_block(&text[..end], 0, search, out)?;
    rows.search_last(&text[held..end], &text[end..], search, out)?;
    out.check()?;
    Ok(rows.shown)
}
