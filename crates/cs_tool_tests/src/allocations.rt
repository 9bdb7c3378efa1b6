// Calls that do not allocate, each made zero times, once and a thousand times.
// `tests/runs/library_allocations.py` checks that the three tests have the same number of
// allocations. With an `is_match` that also copies its table, the second has 6 more than the first,
// and the third 4,334 more.
use crate::fixtures::{PLAIN, program_of, tree_of};
use cs_args::{Style, ToolFault};
use cs_fakes::{FuseTree, MemTree, ONE_FILE, strings};
use cs_index::{Index, Postings, Sections};
use cs_lines::LineSearch;
use cs_match::Matcher;
use cs_search::{GrepFault, grep};
use cs_syntax::{CharSet, Node, Pattern, parse};
use cs_tree::{
    DiskTree, Kind, MemSink, MemSource, Sink, Source, StdSink, StdSource, Tree, TreeReader, covers,
};
use std::alloc::{AllocError, Global};
use std::io;
use std::io::{Read, Write};
use std::test::Fail;

/// A thousand different lines of eleven letters, so that a matcher computes new DFA states.
fn lines_of(alloc: Global) -> Result<Vec<u8>, AllocError> {
    let mut text = Vec::new(alloc);
    for number in 0..1000u32 {
        for bit in 0..11u32 {
            text.push(if number >> bit & 1 == 0 { b'a' } else { b'b' })?;
        }
        text.push(b'\n')?;
    }
    Ok(text)
}

/// A source without bytes, and a sink that accepts all.
#[derive(Drop)]
struct Void;

impl Read for Void {
    fn read(&mut self, _buf: &mut [u8]) -> io::Result<usize> {
        Ok(0)
    }
}

impl Write for Void {
    fn write(&mut self, buf: &[u8]) -> io::Result<usize> {
        Ok(buf.len())
    }

    fn flush(&mut self) -> io::Result<()> {
        Ok(())
    }
}

const COUNT: Style = Style {
    count: true,
    ..PLAIN
};

/// The number of lines of eleven letters that match.
fn match_count(matcher: &mut Matcher<'_>, lines: &[u8]) -> u32 {
    let mut matches = 0u32;
    for line in lines.chunks(12) {
        if matcher.is_match(line.get(..11).unwrap_or(line)) {
            matches = matches.wrapping_add(1);
        }
    }
    matches
}

/// Whether some line matches, and prints or counts those that do.
fn prints(
    alloc: Global,
    search: &mut LineSearch<'_>,
    lines: &[u8],
    style: Style,
) -> Result<bool, GrepFault> {
    let mut input = MemSource::new(lines, 1000, false);
    let mut out = StdSink::new(Void);
    Ok(grep(alloc, "t", &mut input, search, style, &mut out)?.matched)
}

/// The number of matching lines of the pattern, which are also printed, and counted.
fn found(alloc: Global, pattern: &str, lines: &[u8]) -> Result<u32, ToolFault> {
    let program = program_of(alloc, pattern)?;
    let mut search = LineSearch::of_lines(Matcher::new(alloc, &program)?);
    let _printed = prints(alloc, &mut search, lines, PLAIN)?;
    let _counted = prints(alloc, &mut search, lines, COUNT)?;
    let mut matcher = search.into_matcher();
    Ok(match_count(&mut matcher, lines))
}

/// Whether the calls on character sets and byte sets give the right answers.
fn are_sets(chars: &CharSet, pattern: &Pattern) -> bool {
    let Node::Set(bytes) = pattern.tree() else {
        return false;
    };
    bytes.contains(b'a')
        && bytes.len() == 2
        && bytes.single().is_none()
        && chars.contains(0xE001)
        && chars.runs().len() == 2
}

/// Whether the list has the first file alone.
fn has_first(ids: Option<Postings<'_>>) -> bool {
    match ids {
        Some(mut ids) => ids.next() == Some(Ok(0)) && ids.next().is_none(),
        None => false,
    }
}

/// Whether an index opens and gives the right answers.
fn is_index(bytes: &[u8]) -> bool {
    let Ok(index) = Index::open(bytes) else {
        return false;
    };
    index.len() == 1
        && !index.is_empty()
        && index.in_order()
        && index.lists() == 3
        && index.count(0x616263) == 1
        && index.path(0) == Some("/a")
        && index.name(0) == Some("/a/x")
        && index.paths().next() == Some("/a")
        && index.names().next() == Some("/a/x")
        && has_first(index.postings(0x616263))
        && index.list_at(0).is_some()
}

/// Whether each kind of source and sink gives the right answers.
fn are_streams(alloc: Global) -> bool {
    let mut buf = [0u8; 8];
    let mut sink = MemSink::new(alloc, 8);
    let mut source = MemSource::new(b"abc", 2, false);
    let mut reader = StdSource::new(Void);
    let mut writer = StdSink::new(Void);
    source.read(&mut buf) == Ok(2)
        && source.failures() == 0
        && sink.flush() == Ok(())
        && sink.bytes().is_empty()
        && sink.failures() == 0
        && reader.read(&mut buf) == Ok(0)
        && reader.failures() == 0
        && writer.write(b"abc") == Ok(3)
        && writer.flush() == Ok(())
        && writer.failures() == 0
}

/// Whether a tree with the file `/t/p` gives the right answers.
fn is_tree(tree: &mut MemTree) -> bool {
    let mut buf = [0u8; 2];
    let opens = tree.kind("/t") == Ok(Kind::Folder) && tree.open("/t/p") == Ok(());
    let reads = tree.read(&mut buf) == Ok(2) && TreeReader::new(tree).read(&mut buf) == Ok(1);
    opens && reads && tree.failures() == 0 && !tree.remove("/x") && covers("/t", "/t/p")
}

/// The number of the first lines that match two patterns.
fn matches_of(alloc: Global, count: usize) -> Result<[u32; 2], ToolFault> {
    let text = lines_of(alloc)?;
    let lines = text.get(..count.saturating_mul(12)).unwrap_or(b"");
    Ok([
        found(alloc, "a(a|b){9}$", lines)?,
        found(alloc, "bbabb", lines)?,
    ])
}

/// The number of rounds in which the other calls give the right answers.
fn rounds(alloc: Global, count: usize, tree: &mut MemTree) -> Result<usize, ToolFault> {
    let pattern = parse(alloc, "[ab]", false)?;
    let chars = CharSet::from_ranges(alloc, &[(0xE000, 0xE00F), (0x61, 0x7A)])?;
    let mut right = 0usize;
    for _ in 0..count {
        if are_sets(&chars, &pattern) && is_index(ONE_FILE) && are_streams(alloc) && is_tree(tree) {
            right = right.wrapping_add(1);
        }
    }
    Ok(right)
}

/// Whether the calls that consume a value, or need an order, give the right answers.
fn ends(rt: HostRuntime, tree: MemTree) -> bool {
    let mut tree = tree;
    let disk = FuseTree::new(DiskTree::new(rt), 1);
    tree.remove("/t") && disk.failures() == 0
}

/// Begins a list of an index, unless no call is made.
fn begin_list(alloc: Global, count: usize) -> Result<(), Fail> {
    let mut sections = Sections::new(alloc, &strings(alloc, &["/a"])?)?;
    if count > 0 {
        sections.list(7);
    }
    Ok(())
}

/// Whether all calls give the right answers, each made this often.
fn answer(rt: &HostRuntime, count: usize, counts: [u32; 2]) -> Result<bool, Fail> {
    let alloc = rt.alloc();
    let mut tree = tree_of(alloc, &[("/t", None), ("/t/p", Some("one"))])?;
    let other = rt.clone()?;
    begin_list(alloc, count)?;
    let is_right = matches_of(alloc, count)? == counts && rounds(alloc, count, &mut tree)? == count;
    Ok(is_right && (count == 0 || ends(other, tree)))
}

#[test]
fn none(rt: HostRuntime) -> Result<(), Fail> {
    assert!(rt; answer(&rt, 0, [0, 0])?);
    Ok(())
}

#[test]
fn one(rt: HostRuntime) -> Result<(), Fail> {
    assert!(rt; answer(&rt, 1, [1, 0])?);
    Ok(())
}

#[test]
fn many(rt: HostRuntime) -> Result<(), Fail> {
    assert!(rt; answer(&rt, 1000, [500, 168])?);
    Ok(())
}
