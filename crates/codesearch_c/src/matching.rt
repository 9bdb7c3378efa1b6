// Exports over a pattern. The calls over the held pattern answer a code; the cache of its matcher
// is kept from one call to the next.
ghost use Rattle.std.specs.Prelude.{◌≡◌, ◌≢◌, true, false, Some, None, IsOk, IfOk, IfErr, pos, IfSome};
ghost use Rattle.codesearch_c.specs.Cited.{ParsesAs, IsQueryOf, opening, done, is_filled, OnPattern, IsRefusal, IsCompiled, IsMisuse, IsMatchCode, IsNextCode, IsLinesCode, IsCountCode, IsCandidatesCode, IsPageCode, Keeps, IsAnswered, IsCacheOf, IsLineFrom, IsReportCode};

use crate::codes::{
    MEMORY, MISUSE, NOT_UTF8, OK, ROOM, copy_first, copy_items, index_code, pattern_code,
};
use crate::lines::{LineBounds, count_lines, first_line, list_lines};
use crate::reports::{GrepInput, style_of};
use crate::slot::{Held, HeldPattern, Slot};
use cs_index::Index;
use cs_lines::LineSearch;
use cs_match::{Cache, Matcher, Pass, Program};
use cs_search::{Printer, grep_text};
use cs_syntax::{Pattern, parse};
use cs_tree::MemSink;
use cs_trigram::query;
use std::alloc::{AllocError, Global};
use std::str::from_utf8;

impl HeldPattern {
    /// Whether the line has a match: 1, 0, or a code.
    pub(crate) fn match_code(&mut self, alloc: Global, line: &[u8]) -> i32
        ensures code { IsMatchCode self.old.pattern line.now result }
        ensures same { self.new ≡ self.old }
    {
        let Ok(mut matcher) = matcher_of(alloc, &mut self.cache, &self.program) else {
            return MEMORY;
        };
        let found = matcher.is_match(line);
        self.cache = Some(matcher.into_cache());
        i32::from(found)
    }

    /// The first matching line from an offset on: 1, 0 if there is none, or a code.
    pub(crate) fn next_code(
        &mut self,
        alloc: Global,
        block: &[u8],
        from: usize,
        line: &mut LineBounds,
    ) -> i32
        ensures code { IsNextCode self.old.pattern block.now from line.old line.new result }
        ensures line { result ≡ pos 1 → IsLineFrom block.now from line.new.start line.new.end }
        ensures same { self.new ≡ self.old }
    {
        let Ok(mut matcher) = matcher_of(alloc, &mut self.cache, &self.program) else {
            return MEMORY;
        };
        let found = first_line(&mut matcher, block, from);
        self.cache = Some(matcher.into_cache());
        match found {
            Some(found) => {
                *line = found;
                1
            }
            None => 0,
        }
    }

    /// The number of matching lines of a block. Those for which there is room are written.
    pub(crate) fn lines_code(
        &mut self,
        alloc: Global,
        block: &[u8],
        lines: &mut [LineBounds],
        count: &mut usize,
    ) -> i32
        ensures code { IsLinesCode self.old.pattern block.now lines.old lines.new
            count.old count.new result }
        ensures same { self.new ≡ self.old }
    {
        let Ok(mut matcher) = matcher_of(alloc, &mut self.cache, &self.program) else {
            return MEMORY;
        };
        let found = list_lines(&mut matcher, block, lines);
        self.cache = Some(matcher.into_cache());
        *count = found;
        if found > lines.len() { ROOM } else { OK }
    }

    /// The number of matching lines of a block.
    pub(crate) fn count_code(&mut self, alloc: Global, block: &[u8], count: &mut u64) -> i32
        ensures code { IsCountCode self.old.pattern block.now count.old count.new result }
        ensures same { self.new ≡ self.old }
    {
        let Ok(mut matcher) = matcher_of(alloc, &mut self.cache, &self.program) else {
            return MEMORY;
        };
        *count = count_lines(&mut matcher, block);
        self.cache = Some(matcher.into_cache());
        OK
    }

    /// What cgrep prints for an input.
    pub(crate) fn report_code(
        &mut self,
        alloc: Global,
        input: &GrepInput<'_>,
        out: &mut [u8],
        len: &mut usize,
    ) -> i32
        ensures code { IsReportCode self.old.pattern input.now.name.now input.now.text.now
            input.now.style out.old out.new len.old len.new result }
        ensures same { self.new ≡ self.old }
    {
        let Ok(name) = from_utf8(input.name) else {
            return NOT_UTF8;
        };
        let Ok(matcher) = matcher_of(alloc, &mut self.cache, &self.program) else {
            return MEMORY;
        };
        let printer = Printer {
            name,
            style: style_of(input.style),
        };
        let mut search = LineSearch::of_lines(matcher);
        let mut report = MemSink::new(alloc, usize::MAX);
        let answer = grep_text(&printer, input.text, &mut search, &mut report);
        self.cache = Some(search.into_matcher().into_cache());
        match answer {
            Ok(_) => copy_items(report.bytes(), out, len),
            Err(_) => MEMORY,
        }
    }

    /// The ids of the candidates in an index, and how many they are.
    pub(crate) fn candidates_code(
        &self,
        alloc: Global,
        index: &[u8],
        ids: &mut [u32],
        count: &mut usize,
    ) -> i32
        requires opened { IsOk (opening index.now) }
        ensures { IfOk (opening index.now) (λ parts.
            IsCandidatesCode parts self.now.query ids.old ids.new count.old count.new result) }
    {
        match Index::reopen(index) {
            Ok(index) => match index.candidates(alloc, &self.query) {
                Ok(found) => copy_items(&found, ids, count),
                Err(fault) => index_code(fault),
            },
            Err(fault) => index_code(fault),
        }
    }
    /// The ids of the candidates from an id on, as many as there is room for.
    pub(crate) fn page_code(
        &self,
        alloc: Global,
        index: &[u8],
        from: u32,
        ids: &mut [u32],
        count: &mut usize,
    ) -> i32
        requires opened { IsOk (opening index.now) }
        ensures { IfOk (opening index.now) (λ parts.
            IsPageCode parts self.now.query from ids.old ids.new count.old count.new result) }
    {
        match Index::reopen(index) {
            // One id more than there is room for says whether there are more.
            Ok(opened) => match opened.candidates_from(alloc, &self.query, from, ids.len() + 1) {
                Ok(found) => copy_first(&found, ids, count),
                Err(fault) => index_code(fault),
            },
            Err(fault) => index_code(fault),
        }
    }
}

/// Fills an empty slot with a pattern. On a syntax error `at` is its offset.
#[unsafe(no_mangle)]
pub extern "C" fn cs_pattern_compile(
    alloc: Global,
    text: &[u8],
    fold: bool,
    slot: &mut Slot,
    at: &mut usize,
) -> i32
    ensures misuse { is_filled slot.old.handle.value ≡ true →
        IsMisuse slot.old.handle.value slot.new.handle.value result × (at.new ≡ at.old) }
    ensures compiled { is_filled slot.old.handle.value ≡ false →
        IsCompiled text.now fold at.old slot.new.handle.value result at.new }
    ensures refused { is_filled slot.old.handle.value ≡ false → result ≢ done →
        slot.new.handle.value ≡ None }
{
    if slot.is_filled() {
        return MISUSE;
    }
    match compile(alloc, text, fold) {
        Ok(held) => {
            slot.fill(held);
            OK
        }
        Err((code, offset)) => {
            *at = offset;
            code
        }
    }
}

/// Empties a slot, and frees what it holds.
#[unsafe(no_mangle)]
pub extern "C" fn cs_pattern_free(alloc: Global, slot: &mut Slot)
    ensures { slot.new.handle.value ≡ None }
{
    let _held = slot.take(alloc);
}

/// Whether the line has a match: 1, 0, or a code.
#[unsafe(no_mangle)]
pub extern "C" fn cs_pattern_is_match(alloc: Global, slot: &mut Slot, line: &[u8]) -> i32
    ensures { OnPattern slot.old.handle.value
        (IsMisuse slot.old.handle.value slot.new.handle.value result)
        (λ held. IsMatchCode held.pattern line.now result × Keeps held slot.new.handle.value) }
{
    let Some(mut held) = slot.take(alloc) else {
        return MISUSE;
    };
    let code = match &mut *held {
        Held::Pattern(pattern) => pattern.match_code(alloc, line),
        _ => MISUSE,
    };
    slot.fill(held);
    code
}

/// The first matching line from an offset on: 1, 0 if there is none, or a code.
#[unsafe(no_mangle)]
pub extern "C" fn cs_pattern_next(
    alloc: Global,
    slot: &mut Slot,
    block: &[u8],
    from: usize,
    line: &mut LineBounds,
) -> i32
    ensures { IsAnswered slot.old slot.new result (line.new ≡ line.old)
        (λ held. IsNextCode held.pattern block.now from line.old line.new result) }
{
    let Some(mut held) = slot.take(alloc) else {
        return MISUSE;
    };
    let code = match &mut *held {
        Held::Pattern(pattern) => pattern.next_code(alloc, block, from, line),
        _ => MISUSE,
    };
    slot.fill(held);
    code
}

/// The matching lines of a block, and how many they are.
#[unsafe(no_mangle)]
pub extern "C" fn cs_pattern_lines(
    alloc: Global,
    slot: &mut Slot,
    block: &[u8],
    lines: &mut [LineBounds],
    count: &mut usize,
) -> i32
    ensures { IsAnswered slot.old slot.new result ((lines.new ≡ lines.old) × (count.new ≡ count.old))
        (λ held. IsLinesCode held.pattern block.now lines.old lines.new count.old count.new result) }
{
    let Some(mut held) = slot.take(alloc) else {
        return MISUSE;
    };
    let code = match &mut *held {
        Held::Pattern(pattern) => pattern.lines_code(alloc, block, lines, count),
        _ => MISUSE,
    };
    slot.fill(held);
    code
}

/// The number of matching lines of a block.
#[unsafe(no_mangle)]
pub extern "C" fn cs_pattern_count(
    alloc: Global,
    slot: &mut Slot,
    block: &[u8],
    count: &mut u64,
) -> i32
    ensures { IsAnswered slot.old slot.new result (count.new ≡ count.old)
        (λ held. IsCountCode held.pattern block.now count.old count.new result) }
{
    let Some(mut held) = slot.take(alloc) else {
        return MISUSE;
    };
    let code = match &mut *held {
        Held::Pattern(pattern) => pattern.count_code(alloc, block, count),
        _ => MISUSE,
    };
    slot.fill(held);
    code
}

/// The ids of the names whose files may have a matching line, ascending, and how many they are.
#[unsafe(no_mangle)]
pub extern "C" fn cs_pattern_candidates(
    alloc: Global,
    slot: &mut Slot,
    index: &[u8],
    ids: &mut [u32],
    count: &mut usize,
) -> i32
    requires opened { IsOk (opening index.now) }
    ensures { IsAnswered slot.old slot.new result ((ids.new ≡ ids.old) × (count.new ≡ count.old))
        (λ held. IfOk (opening index.now) (λ parts.
        IsCandidatesCode parts held.query ids.old ids.new count.old count.new result)) }
{
    let Some(held) = slot.take(alloc) else {
        return MISUSE;
    };
    let code = match &*held {
        Held::Pattern(pattern) => pattern.candidates_code(alloc, index, ids, count),
        _ => MISUSE,
    };
    slot.fill(held);
    code
}

/// The ids of the candidates from an id on, as many as there is room for, and how many they are.
#[unsafe(no_mangle)]
pub extern "C" fn cs_pattern_candidates_from(
    alloc: Global,
    slot: &mut Slot,
    index: &[u8],
    from: u32,
    ids: &mut [u32],
    count: &mut usize,
) -> i32
    requires opened { IsOk (opening index.now) }
    ensures { IsAnswered slot.old slot.new result ((ids.new ≡ ids.old) × (count.new ≡ count.old))
        (λ held. IfOk (opening index.now) (λ parts.
        IsPageCode parts held.query from ids.old ids.new count.old count.new result)) }
{
    let Some(held) = slot.take(alloc) else {
        return MISUSE;
    };
    let code = match &*held {
        Held::Pattern(pattern) => pattern.page_code(alloc, index, from, ids, count),
        _ => MISUSE,
    };
    slot.fill(held);
    code
}

/// A box with the pattern of a text; or a code and an offset.
fn compile(alloc: Global, text: &[u8], fold: bool) -> Result<Box<Held>, (i32, usize)>
    ensures compiled { IfOk result (λ held.
        OnPattern (Some held.value) (false ≡ true) (λ p.
        ParsesAs text.now fold p.pattern × IsQueryOf false p.pattern p.query)) }
    ensures refused { IfErr result (λ (code, at). IsRefusal text.now fold code at) }
{
    let pattern = parsed(alloc, text, fold)?;
    match prepared(alloc, pattern) {
        Ok(held) => Ok(held),
        Err(AllocError) => Err((MEMORY, 0)),
    }
}

/// The pattern of a text; or a code and an offset.
fn parsed(alloc: Global, text: &[u8], fold: bool) -> Result<Pattern, (i32, usize)>
    ensures parsed { IfOk result (λ pattern. ParsesAs text.now fold pattern) }
    ensures refused { IfErr result (λ (code, at). IsRefusal text.now fold code at) }
{
    let Ok(text) = from_utf8(text) else {
        return Err((NOT_UTF8, 0));
    };
    match parse(alloc, text, fold) {
        Ok(pattern) => Ok(pattern),
        Err(error) => Err((pattern_code(error.fault), error.at)),
    }
}

/// A box with the pattern, its program and its query.
fn prepared(alloc: Global, pattern: Pattern) -> Result<Box<Held>, AllocError>
    ensures { IfOk result (λ held.
        OnPattern (Some held.value) (false ≡ true) (λ p.
        (p.pattern ≡ pattern) × IsQueryOf false p.pattern p.query)) }
{
    let query = query(alloc, &pattern)?;
    let program = Program::compile(alloc, &pattern)?;
    let pass = Pass::new(alloc, &program)?;
    let held = HeldPattern {
        pattern,
        query,
        program,
        cache: None,
        pass: Some(pass),
    };
    match Box::new(alloc, Held::Pattern(held)) {
        Ok(held) => Ok(held),
        Err(_) => Err(AllocError),
    }
}

/// A matcher of the program that goes on with the kept cache, or a new one.
fn matcher_of<'a>(
    alloc: Global,
    kept: &mut Option<Cache>,
    program: &'a Program,
) -> Result<Matcher<'a>, AllocError>
    requires { IfSome kept.old (IsCacheOf program.now) }
    ensures tree { IfOk result (λ matcher. matcher.tree ≡ program.now) }
    ensures none { kept.new ≡ None }
{
    match kept.take() {
        Some(cache) => Ok(Matcher::resume(program, cache)),
        None => Matcher::new(alloc, program),
    }
}
