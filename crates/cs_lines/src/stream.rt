// The printing of the lines of a text that is read from a source, block by block.
ghost use Rattle.std.specs.Prelude.{◌≡◌, ◌≤◌, ◌<◌, ◌+◌, ◌-◌, ◌*◌, ◌^◌, [], true, false, IfOk, MatchOption, OnOk, OnErr, length, take, drop, slice_range};
ghost use Rattle.cs_tree.specs.StreamModels.{ends};
ghost use Rattle.cs_tree.specs.Transfers.{IsAt};
ghost use Rattle.cs_lines.specs.Buffer.{pending_bytes};
ghost use Rattle.cs_lines.specs.Cited.{last_line, terminated_lines, HasNoNewline, AreWholeLines, count_if, Keeps, given, KeepsSearch, StopsBySpans, Fits, SearchesLast, EndsAt, EndsBy, ReadsToEnd, IsReady, IsTrimmed, BeginsBytes, BeginsLines, IsCounted, no_held, Takes, TakesRead, line_weight, line_work, part_work, shown_work, walks, StreamsRows, StreamsLines, has_failed_read, is_failure, is_whole, FailsAlone};

use crate::buffer::{FillFault, LineBuffer};
use crate::lines::{first_lines, line_count};
use crate::rows::{Page, Rows};
use crate::search::LineSearch;
use cs_tree::{Sink, SinkOutput, Source};
use memchr::memrchr;
use std::alloc::AllocError;

/// How far a text was read.
#[derive(Clone, Copy, Drop)]
pub enum Ended {
    /// To its end.
    Whole,
    /// A read failed.
    Failed,
    /// The text is too long.
    TooLong,
}

impl Ended {
    /// Whether the text was read to its end.
    pub fn is_whole(&self) -> bool
        ensures { result ≡ is_whole self.now }
    {
        match self {
            Ended::Whole => true,
            Ended::Failed | Ended::TooLong => false,
        }
    }
}

/// What became of a text.
#[derive(Clone, Copy, Drop)]
pub struct Streamed {
    /// A line of it is marked.
    pub marked: bool,
    pub ended: Ended,
}

/// The length of the lines that have ended. The bytes from `from` to `scanned` have no newline.
/// None if no line has ended since.
pub(crate) fn ended_len(text: &[u8], from: usize, scanned: usize) -> Option<usize>
    requires low { from ≤ scanned }
    requires high { scanned ≤ length text.now }
    requires scanned { HasNoNewline (slice_range text.now from scanned) }
    ensures { MatchOption result (HasNoNewline (drop from text.now)) (EndsAt text.now from) }
{
    match memrchr(b'\n', &text[scanned..]) {
        None => None,
        Some(offset) => Some(scanned + offset + 1),
    }
}

/// Lines that are held.
#[derive(Clone, Copy, Drop)]
pub(crate) struct HeldLines {
    pub(crate) len: usize,
    /// How many these are. It is counted only where lines around marked ones are shown.
    pub(crate) lines: usize,
}

impl HeldLines {
    /// Those that are held from an offset on: all or, if some were shown or dropped, none.
    fn from(self, start: usize) -> HeldLines
        ensures same { start ≡ 0 → result ≡ self }
        ensures none { (start ≡ 0 → ⊥) → result ≡ no_held }
    {
        if start == 0 {
            self
        } else {
            HeldLines { len: 0, lines: 0 }
        }
    }
}

impl Rows<'_> {
    /// Forgets lines that are held and that no later line can show: the first ones. `known` are the
    /// first ones that were held before. Returns those that are held then.
    fn trim(&mut self, held: &[u8], known: HeldLines) -> HeldLines
        requires whole { AreWholeLines held.now }
        requires fits { Fits (terminated_lines held.now) self.old.left }
        requires room { self.old.number + length held.now < 2 ^ 64 }
        requires known { IsCounted self.old.page.options.now held.now known }
        ensures trimmed { IsTrimmed self.old self.new held.now (length held.now - result.len) }
        ensures within { result.len ≤ length held.now }
        ensures counted { IsCounted self.old.page.options.now (drop (length held.now - result.len)
            held.now) result }
    {
        if !self.page.options.has_context() {
            self.number += self.counted(held);
            return HeldLines { len: 0, lines: 0 };
        }
        let lines = known.lines + line_count(&held[known.len..]);
        let extra = lines.saturating_sub(self.page.options.before);
        let start = first_lines(held, extra);
        self.number += extra as u64;
        HeldLines {
            len: held.len() - start,
            lines: lines - extra,
        }
    }

    /// Searches the pending lines that have ended, and drops those that are not held then. The
    /// first are held, and the bytes from there to `scanned` are no whole line. Returns those that
    /// are held then.
    fn search_pending<O: Sink>(
        &mut self,
        buffer: &mut LineBuffer,
        held: HeldLines,
        scanned: usize,
        search: &mut LineSearch<'_>,
        out: &mut SinkOutput<'_, O>,
    ) -> Result<HeldLines, AllocError>
        requires ready { IsReady self.old (pending_bytes buffer.old) held.len scanned }
        requires known { IsCounted self.old.page.options.now (pending_bytes buffer.old) held }
        requires room { self.old.number + length (pending_bytes buffer.old) + buffer.old.left < 2 ^ 63 }
        ensures ready { IfOk result (λ kept. IsReady self.new (pending_bytes buffer.new) kept.len
            (length (pending_bytes buffer.new))) }
        ensures known { IfOk result (IsCounted self.old.page.options.now (pending_bytes buffer.new)) }
        ensures room { OnOk result (self.new.number + length (pending_bytes buffer.new)
            + buffer.new.left < 2 ^ 63) }
        ensures rows { IfOk result (λ kept. StreamsRows search.old search.new self.old self.new
            (given out.old) (given out.new) held.len (pending_bytes buffer.old)
            (pending_bytes buffer.new) kept.len) }
        ensures begins { OnErr result (BeginsBytes search.old search.new self.old (given out.old)
            (given out.new) held.len (pending_bytes buffer.old)) }
        ensures left { buffer.new.left ≡ buffer.old.left }
        ensures ended { buffer.new.ended ≡ buffer.old.ended }
        ensures same { KeepsSearch search.old search.new }
        ensures budget { StopsBySpans self.old.page.options.now.form search.old search.new }
        ensures work { IfOk result (λ kept. Takes (length (pending_bytes buffer.old) - scanned
            + part_work self.old.page.options.now (line_weight search.old)
            (length (pending_bytes buffer.old) - held.len - (length (pending_bytes buffer.new) - kept.len))
            (length (pending_bytes buffer.old) - length (pending_bytes buffer.new))) search.old search.new) }
        ensures cut { OnErr result (Takes (length (pending_bytes buffer.old) - scanned
            + part_work self.old.page.options.now (line_weight search.old)
            (length (pending_bytes buffer.old) - held.len) (length (pending_bytes buffer.old)))
            search.old search.new) }
        ensures keeps { Keeps O.model O.failed out.old out.new }
    {
        let text = buffer.pending();
        search.add_steps(text.len() - scanned);
        let Some(end) = ended_len(text, held.len, scanned) else {
            return Ok(held);
        };
        let start = self.search_block(&text[..end], held.len, search, out)?;
        let kept = self.trim(&text[start..end], held.from(start));
        self.page
            .options
            .count_held(end - held.len, end - start - kept.len, search);
        buffer.skip(end - kept.len);
        Ok(kept)
    }

    /// Searches the bytes after the last newline of a text. The lines before are held.
    fn search_rest<O: Sink>(
        &mut self,
        text: &[u8],
        from: usize,
        search: &mut LineSearch<'_>,
        out: &mut SinkOutput<'_, O>,
    ) -> Result<(), AllocError>
        requires within { from ≤ length text.now }
        requires whole { AreWholeLines (take from text.now) }
        requires fits { Fits (terminated_lines (take from text.now)) self.old.left }
        requires room { self.old.number + length text.now < 2 ^ 63 }
        ensures rows { OnOk result (SearchesLast search.old search.new self.old self.new (given out.old)
            (given out.new) (terminated_lines (take from text.now)) (last_line (drop from text.now))) }
        ensures begins { OnErr result (given out.new ≡ given out.old) }
        ensures same { KeepsSearch search.old search.new }
        ensures budget { StopsBySpans self.old.page.options.now.form search.old search.new }
        ensures work { Takes (line_work (line_weight search.old) (length (drop from text.now))
            + walks self.old.page.options.now * from) search.old search.new }
        ensures keeps { Keeps O.model O.failed out.old out.new }
    {
        self.search_last(&text[..from], &text[from..], search, out)
    }
}

/// Prints the lines of a text that are to be shown. The buffer has its first bytes, and the source
/// the rest. Nothing is read after a write that failed.
pub(crate) fn stream_lines<R: Source, O: Sink>(
    page: &Page<'_>,
    input: &mut R,
    buffer: &mut LineBuffer,
    search: &mut LineSearch<'_>,
    out: &mut SinkOutput<'_, O>,
) -> Result<Streamed, AllocError>
    requires room { 1 + length (pending_bytes buffer.old) + buffer.old.left < 2 ^ 63 }
    requires ended { buffer.old.ended ≡ true → IsAt ends (R.model input.old) }
    ensures lines { IfOk result (StreamsLines search.old search.new page.now buffer.old.left
        (R.model input.old) (pending_bytes buffer.old) (given out.old) (given out.new)) }
    ensures begins { BeginsLines search.old search.new page.now buffer.old.left (R.model input.old)
        (pending_bytes buffer.old) (given out.old) (given out.new) }
    ensures ended { IfOk result (λ streamed. ReadsToEnd buffer.old.left (R.model input.old) streamed.ended) }
    ensures failed { R.failed input.new ≡ count_if (has_failed_read result) (R.failed input.old) }
    ensures alone { FailsAlone out.old out.new result }
    ensures same { KeepsSearch search.old search.new }
    ensures budget { StopsBySpans page.now.options.now.form search.old search.new }
    ensures work { TakesRead (shown_work page.now.options.now (line_weight search.old))
        (pending_bytes buffer.old) buffer.old.left (R.model input.old) (R.model input.new)
        search.old search.new }
    ensures keeps { R.Keeps input.old input.new }
    ensures handed { Keeps O.model O.failed out.old out.new }
{
    let mut rows = Rows::new(*page);
    let mut held = HeldLines { len: 0, lines: 0 };
    let mut scanned = 0;
    'pieces: loop {
        held = rows.search_pending(buffer, held, scanned, search, out)?;
        search.add_steps(1);
        out.check()?;
        scanned = buffer.pending().len();
        match buffer.fill(input) {
            Ok(0) => break,
            Ok(_) => {}
            Err(fault) => {
                let ended = unread(fault)?;
                return Ok(Streamed {
                    marked: rows.shown,
                    ended,
                });
            }
        }
    }
    rows.search_rest(buffer.pending(), held.len, search, out)?;
    out.check()?;
    Ok(Streamed {
        marked: rows.shown,
        ended: Ended::Whole,
    })
}

/// The end of a text that cannot be read on.
pub(crate) fn unread(fault: FillFault) -> Result<Ended, AllocError>
    ensures ended { IfOk result (EndsBy fault) }
    ensures memory { OnErr result (is_failure fault ≡ false) }
{
    match fault {
        FillFault::Failed => Ok(Ended::Failed),
        FillFault::TooLong => Ok(Ended::TooLong),
        FillFault::Memory => Err(AllocError),
    }
}
