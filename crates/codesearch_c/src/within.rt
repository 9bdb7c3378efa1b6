// Exports that search a block within a budget of bytes, and stop where a line begins.
ghost use Rattle.std.specs.Prelude.{◌≡◌, MatchOption};
ghost use Rattle.codesearch_c.specs.Cited.{IsAnswered, budget_of, IsNextWithinCode, IsCountWithinCode, IsStop, HasNoStop};

use crate::codes::{MISUSE, OK, STOPPED};
use crate::lines::LineBounds;
use crate::slot::{Held, HeldPattern, Slot};
use memchr::memchr;
use std::alloc::Global;

/// The lines that a call searches: those that begin in so many bytes from an offset on.
#[derive(Clone, Copy)]
pub(crate) struct Budget {
    pub(crate) from: usize,
    pub(crate) bytes: usize,
}

impl HeldPattern {
    /// The first matching line that begins within the budget: 1, 0 if there is none, or a code.
    pub(crate) fn next_within_code(
        &mut self,
        alloc: Global,
        block: &[u8],
        budget: Budget,
        line: &mut LineBounds,
        reached: &mut usize,
    ) -> i32
        ensures code { IsNextWithinCode self.old.pattern block.now budget line.old line.new
            reached.old reached.new result }
        ensures same { self.new ≡ self.old }
    {
        let Some(stop) = stop_of(block, budget) else {
            return self.next_code(alloc, block, budget.from, line);
        };
        let code = self.next_code(alloc, &block[..stop], budget.from, line);
        if code != 0 {
            return code;
        }
        *reached = stop;
        STOPPED
    }

    /// The number of matching lines that begin within the budget.
    pub(crate) fn count_within_code(
        &mut self,
        alloc: Global,
        block: &[u8],
        budget: Budget,
        count: &mut u64,
        reached: &mut usize,
    ) -> i32
        ensures code { IsCountWithinCode self.old.pattern block.now budget count.old count.new
            reached.old reached.new result }
        ensures same { self.new ≡ self.old }
    {
        let Some(end) = stop_of(block, budget) else {
            let from = budget.from.min(block.len());
            return self.count_code(alloc, &block[from..], count);
        };
        let code = self.count_code(alloc, &block[budget.from..end], count);
        if code != OK {
            return code;
        }
        *reached = end;
        STOPPED
    }
}

/// The first matching line of those that begin in so many bytes from an offset on: 1, 0 if there is
/// none in the block, or a code.
#[unsafe(no_mangle)]
pub extern "C" fn cs_pattern_next_within(
    alloc: Global,
    slot: &mut Slot,
    block: &[u8],
    from: usize,
    bytes: usize,
    line: &mut LineBounds,
    reached: &mut usize,
) -> i32
    ensures { IsAnswered slot.old slot.new result ((line.new ≡ line.old) × (reached.new ≡ reached.old))
        (λ held. IsNextWithinCode held.pattern block.now (budget_of from bytes)
        line.old line.new reached.old reached.new result) }
{
    let Some(mut held) = slot.take(alloc) else {
        return MISUSE;
    };
    let budget = Budget { from, bytes };
    let code = match &mut *held {
        Held::Pattern(pattern) => pattern.next_within_code(alloc, block, budget, line, reached),
        _ => MISUSE,
    };
    slot.fill(held);
    code
}

/// The number of matching lines of those that begin in so many bytes from an offset on.
#[unsafe(no_mangle)]
pub extern "C" fn cs_pattern_count_within(
    alloc: Global,
    slot: &mut Slot,
    block: &[u8],
    from: usize,
    bytes: usize,
    count: &mut u64,
    reached: &mut usize,
) -> i32
    ensures { IsAnswered slot.old slot.new result ((count.new ≡ count.old) × (reached.new ≡ reached.old))
        (λ held. IsCountWithinCode held.pattern block.now (budget_of from bytes)
        count.old count.new reached.old reached.new result) }
{
    let Some(mut held) = slot.take(alloc) else {
        return MISUSE;
    };
    let budget = Budget { from, bytes };
    let code = match &mut *held {
        Held::Pattern(pattern) => pattern.count_within_code(alloc, block, budget, count, reached),
        _ => MISUSE,
    };
    slot.fill(held);
    code
}

/// Where the first line begins that the budget leaves out, if there is one.
fn stop_of(block: &[u8], budget: Budget) -> Option<usize>
    ensures { MatchOption result (HasNoStop block.now budget) (IsStop block.now budget) }
{
    let left = block.len().saturating_sub(budget.from);
    if left <= budget.bytes {
        return None;
    }
    if budget.bytes == 0 {
        return Some(budget.from);
    }
    // A line begins after each newline.
    let least = budget.from + budget.bytes;
    let Some(offset) = memchr(b'\n', &block[least - 1..]) else {
        return None;
    };
    let start = least + offset;
    if start < block.len() {
        Some(start)
    } else {
        None
    }
}
