// Exports that say where in a line a pattern matches.
ghost use Rattle.std.specs.Prelude.{◌≡◌, ◌+◌, true, false, nat_eq, count_by};
ghost use Rattle.codesearch_c.specs.Cited.{newline, IsAnswered, IsSpanCode, IsSpansCode, IsNewlinesCode};

use crate::codes::{MISUSE, OK, list_code};
use crate::slot::{Held, HeldPattern, Slot};
use cs_match::{Finder, Span, Wanted};
use std::alloc::Global;

/// The first match of a line from an offset on: 1, 0 if there is none, or a code.
#[unsafe(no_mangle)]
pub extern "C" fn cs_pattern_find(
    alloc: Global,
    slot: &mut Slot,
    line: &[u8],
    from: usize,
    span: &mut Span,
) -> i32
    ensures { IsAnswered slot.old slot.new result (span.new ≡ span.old)
        (λ held. IsSpanCode false held.pattern line.now from from span.old span.new result) }
{
    let Some(mut held) = slot.take(alloc) else {
        return MISUSE;
    };
    let wanted = Wanted {
        whole: false,
        from,
        least: from,
    };
    let code = match &mut *held {
        Held::Pattern(pattern) => pattern.find_code(line, wanted, span),
        _ => MISUSE,
    };
    slot.fill(held);
    code
}

/// The first match from the end of another on that ends after it: 1, 0 if there is none, or a code.
#[unsafe(no_mangle)]
pub extern "C" fn cs_pattern_find_after(
    alloc: Global,
    slot: &mut Slot,
    line: &[u8],
    last: &Span,
    span: &mut Span,
) -> i32
    ensures { IsAnswered slot.old slot.new result (span.new ≡ span.old)
        (λ held. IsSpanCode false held.pattern line.now last.now.end (last.now.end + 1)
        span.old span.new result) }
{
    let Some(mut held) = slot.take(alloc) else {
        return MISUSE;
    };
    let code = match &mut *held {
        Held::Pattern(pattern) => pattern.after_code(line, false, *last, span),
        _ => MISUSE,
    };
    slot.fill(held);
    code
}

/// The matches of a line, as far as room and budget go, and how many are listed.
#[unsafe(no_mangle)]
pub extern "C" fn cs_pattern_spans(
    alloc: Global,
    slot: &mut Slot,
    line: &[u8],
    budget: usize,
    spans: &mut [Span],
    count: &mut usize,
) -> i32
    ensures { IsAnswered slot.old slot.new result ((spans.new ≡ spans.old) × (count.new ≡ count.old))
        (λ held. IsSpansCode false held.pattern line.now spans.old spans.new count.new result) }
{
    let Some(mut held) = slot.take(alloc) else {
        return MISUSE;
    };
    let order = Order {
        whole: false,
        budget,
    };
    let code = match &mut *held {
        Held::Pattern(pattern) => pattern.spans_code(line, order, spans, count),
        _ => MISUSE,
    };
    slot.fill(held);
    code
}

/// The first match from an offset on that is a whole word: 1, 0 if there is none, or a code.
#[unsafe(no_mangle)]
pub extern "C" fn cs_pattern_find_word(
    alloc: Global,
    slot: &mut Slot,
    line: &[u8],
    from: usize,
    span: &mut Span,
) -> i32
    ensures { IsAnswered slot.old slot.new result (span.new ≡ span.old)
        (λ held. IsSpanCode true held.pattern line.now from from span.old span.new result) }
{
    let Some(mut held) = slot.take(alloc) else {
        return MISUSE;
    };
    let word = Wanted {
        whole: true,
        from,
        least: from,
    };
    let code = match &mut *held {
        Held::Pattern(pattern) => pattern.find_code(line, word, span),
        _ => MISUSE,
    };
    slot.fill(held);
    code
}

/// The first such match from the end of another on that ends after it: 1, 0 if there is none, or a
/// code.
#[unsafe(no_mangle)]
pub extern "C" fn cs_pattern_find_word_after(
    alloc: Global,
    slot: &mut Slot,
    line: &[u8],
    last: &Span,
    span: &mut Span,
) -> i32
    ensures { IsAnswered slot.old slot.new result (span.new ≡ span.old)
        (λ held. IsSpanCode true held.pattern line.now last.now.end (last.now.end + 1)
        span.old span.new result) }
{
    let Some(mut held) = slot.take(alloc) else {
        return MISUSE;
    };
    let code = match &mut *held {
        Held::Pattern(pattern) => pattern.after_code(line, true, *last, span),
        _ => MISUSE,
    };
    slot.fill(held);
    code
}

/// The matches of a line that are whole words, as far as room and budget go, and how many are
/// listed.
#[unsafe(no_mangle)]
pub extern "C" fn cs_pattern_word_spans(
    alloc: Global,
    slot: &mut Slot,
    line: &[u8],
    budget: usize,
    spans: &mut [Span],
    count: &mut usize,
) -> i32
    ensures { IsAnswered slot.old slot.new result ((spans.new ≡ spans.old) × (count.new ≡ count.old))
        (λ held. IsSpansCode true held.pattern line.now spans.old spans.new count.new result) }
{
    let Some(mut held) = slot.take(alloc) else {
        return MISUSE;
    };
    let words = Order {
        whole: true,
        budget,
    };
    let code = match &mut *held {
        Held::Pattern(pattern) => pattern.spans_code(line, words, spans, count),
        _ => MISUSE,
    };
    slot.fill(held);
    code
}

/// The number of newlines between two offsets of a text.
#[unsafe(no_mangle)]
pub extern "C" fn cs_count_lines(text: &[u8], from: usize, to: usize, count: &mut usize) -> i32
    ensures { IsNewlinesCode text.now from to count.old count.new result }
{
    if to < from {
        return MISUSE;
    }
    if text.len() < to {
        return MISUSE;
    }
    *count = newlines(&text[from..to]);
    OK
}

/// The number of newlines of a text.
fn newlines(text: &[u8]) -> usize
    ensures { result ≡ count_by (λ b. nat_eq b newline) text.now }
{
    text.iter().filter(|byte| **byte == b'\n').count()
}

// ---- finding: Calls over a held pattern that say where in a line it matches. They take no memory.
/// Which spans of a line are listed, and how far.
#[derive(Clone, Copy)]
pub(crate) struct Order {
    /// Those that are whole words.
    pub(crate) whole: bool,
    /// The bytes that passes may read.
    pub(crate) budget: usize,
}

impl HeldPattern {
    /// The first match that is wanted: 1, 0 if there is none, or a code.
    pub(crate) fn find_code(&mut self, line: &[u8], wanted: Wanted, span: &mut Span) -> i32
        ensures code { IsSpanCode wanted.whole self.old.pattern line.now wanted.from wanted.least
            span.old span.new result }
        ensures same { self.new ≡ self.old }
    {
        if line.len() < wanted.from {
            return MISUSE;
        }
        let pass = self.pass.take().unwrap();
        let mut finder = Finder::resume(&self.program, pass);
        let found = finder.search(line, wanted);
        self.pass = Some(finder.into_pass());
        let Some(first) = found else {
            return 0;
        };
        *span = first;
        1
    }

    /// The first one that begins at or after the end of a match, and ends after it.
    pub(crate) fn after_code(
        &mut self,
        line: &[u8],
        whole: bool,
        last: Span,
        span: &mut Span,
    ) -> i32
        ensures code { IsSpanCode whole self.old.pattern line.now last.end (last.end + 1)
            span.old span.new result }
        ensures same { self.new ≡ self.old }
    {
        if line.len() < last.end {
            return MISUSE;
        }
        let wanted = Wanted {
            whole,
            from: last.end,
            least: last.end + 1,
        };
        self.find_code(line, wanted, span)
    }

    /// Lists the matches of a line, and how many are listed.
    pub(crate) fn spans_code(
        &mut self,
        line: &[u8],
        order: Order,
        spans: &mut [Span],
        count: &mut usize,
    ) -> i32
        ensures code { IsSpansCode order.whole self.old.pattern line.now spans.old spans.new
            count.new result }
        ensures same { self.new ≡ self.old }
    {
        let pass = self.pass.take().unwrap();
        let mut finder = Finder::resume(&self.program, pass);
        let listed = finder.list(line, order.whole, order.budget, spans);
        self.pass = Some(finder.into_pass());
        *count = listed.count;
        list_code(listed.stopped)
    }
}
