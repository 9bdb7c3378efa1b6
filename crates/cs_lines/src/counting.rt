// The number of wanted lines of a text, up to a limit.
ghost use Rattle.std.specs.Prelude.{◌≡◌, ◌≤◌, ◌<◌, ◌+◌, ◌^◌, true, IfOk, length, take};
ghost use Rattle.cs_tree.specs.StreamModels.{ends};
ghost use Rattle.cs_tree.specs.Transfers.{IsAt};
ghost use Rattle.cs_lines.specs.Buffer.{pending_bytes};
ghost use Rattle.cs_lines.specs.Cited.{HasNoNewline, AreWholeLines, count_if, CountsBlock, CountsPending, CountsStream, CountsText, is_enough, ReadsToEnd, KeepsSearch, has_stopped, has_failed_count, Takes, TakesRead, input_work, line_weight, pending_work, searched_work};

use crate::buffer::LineBuffer;
use crate::form::ShowOptions;
use crate::search::LineSearch;
use crate::stream::{Ended, ended_len, unread};
use crate::text::{ended_count, ended_some, last_count};
use cs_match::whole_lines_len;
use cs_tree::Source;
use std::alloc::AllocError;

/// How many lines of a text are wanted.
#[derive(Clone, Copy, Drop)]
pub(crate) struct Counted {
    pub(crate) count: u64,
    pub(crate) ended: Ended,
}

/// How many lines of a block of whole lines are wanted: enough of them, if so many are enough.
fn count_block(
    options: &ShowOptions,
    most: Option<u64>,
    block: &[u8],
    search: &mut LineSearch<'_>,
) -> u64
    requires whole { AreWholeLines block.now }
    ensures count { CountsBlock options.now most search.old block.now result }
    ensures bound { result ≤ length block.now }
    ensures same { KeepsSearch search.old search.new }
    ensures budget { has_stopped search.new ≡ has_stopped search.old }
    ensures work { Takes (searched_work (line_weight search.old) (length block.now)) search.old search.new }
{
    match most {
        Some(1) => ended_some(options, block, search),
        _ => ended_count(options, block, search),
    }
}

/// Counts the wanted pending lines that have ended, and drops all that have. The first `scanned`
/// bytes have no newline.
fn count_pending(
    options: &ShowOptions,
    most: Option<u64>,
    buffer: &mut LineBuffer,
    scanned: usize,
    search: &mut LineSearch<'_>,
) -> u64
    requires within { scanned ≤ length (pending_bytes buffer.old) }
    requires scanned { HasNoNewline (take scanned (pending_bytes buffer.old)) }
    ensures count { CountsPending options.now most search.old (pending_bytes buffer.old)
        (pending_bytes buffer.new) result }
    ensures left { buffer.new.left ≡ buffer.old.left }
    ensures ended { buffer.new.ended ≡ buffer.old.ended }
    ensures same { KeepsSearch search.old search.new }
    ensures budget { has_stopped search.new ≡ has_stopped search.old }
    ensures work { Takes (pending_work (line_weight search.old) (pending_bytes buffer.old) scanned) search.old
        search.new }
{
    let text = buffer.pending();
    search.add_steps(text.len() - scanned);
    let Some(len) = ended_len(text, 0, scanned) else {
        return 0;
    };
    let count = count_block(options, most, &text[..len], search);
    buffer.skip(len);
    count
}

/// Whether no more lines need to be counted.
fn is_enough(most: Option<u64>, count: u64) -> bool
    ensures { result ≡ is_enough most count }
{
    match most {
        None => false,
        Some(most) => most <= count,
    }
}

/// How many lines of a text are wanted, up to `most`. The buffer has its first bytes, and the
/// source the rest.
pub(crate) fn stream_count<R: Source>(
    options: &ShowOptions,
    most: Option<u64>,
    input: &mut R,
    buffer: &mut LineBuffer,
    search: &mut LineSearch<'_>,
) -> Result<Counted, AllocError>
    requires room { length (pending_bytes buffer.old) + buffer.old.left < 2 ^ 63 }
    requires ended { buffer.old.ended ≡ true → IsAt ends (R.model input.old) }
    ensures count { IfOk result (CountsStream search.old options.now most buffer.old.left
        (R.model input.old) (pending_bytes buffer.old)) }
    ensures ended { IfOk result (λ counted. ReadsToEnd buffer.old.left (R.model input.old) counted.ended) }
    ensures failed { R.failed input.new ≡ count_if (has_failed_count result) (R.failed input.old) }
    ensures same { KeepsSearch search.old search.new }
    ensures budget { has_stopped search.new ≡ has_stopped search.old }
    ensures work { TakesRead (input_work (line_weight search.old)) (pending_bytes buffer.old) buffer.old.left
        (R.model input.old) (R.model input.new) search.old search.new }
    ensures keeps { R.Keeps input.old input.new }
{
    let mut count = 0;
    let mut scanned = 0;
    'pieces: loop {
        count += count_pending(options, most, buffer, scanned, search);
        if is_enough(most, count) {
            return Ok(Counted {
                count,
                ended: Ended::Whole,
            });
        }
        scanned = buffer.pending().len();
        search.add_steps(1);
        match buffer.fill(input) {
            Ok(0) => break,
            Ok(_) => {}
            Err(fault) => {
                let ended = unread(fault)?;
                return Ok(Counted { count, ended });
            }
        }
    }
    count += last_count(options, buffer.pending(), search);
    Ok(Counted {
        count,
        ended: Ended::Whole,
    })
}

/// The same of a text in memory.
pub(crate) fn text_count(
    options: &ShowOptions,
    most: Option<u64>,
    text: &[u8],
    search: &mut LineSearch<'_>,
) -> u64
    requires room { length text.now < 2 ^ 63 }
    ensures count { CountsText search.old options.now most text.now result }
    ensures same { KeepsSearch search.old search.new }
    ensures budget { has_stopped search.new ≡ has_stopped search.old }
    ensures work { Takes (input_work (line_weight search.old) text.now) search.old search.new }
{
    search.add_steps(text.len());
    let end = whole_lines_len(text);
    let count = count_block(options, most, &text[..end], search);
    if is_enough(most, count) {
        return count;
    }
    count + last_count(options, &text[end..], search)
}
