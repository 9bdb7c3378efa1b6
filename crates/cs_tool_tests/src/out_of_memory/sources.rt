// Paths, trees, sinks and stores.
use crate::fixtures::{TreeItem, item_of};
use crate::out_of_memory::{Outcome, at_most_one_fails};
use cs_fakes::{MemTree, PutFault, strings};
use cs_tree::{
    DiskTree, IoFault, Kind, MemSink, MemStore, PathFault, Sink, Tree, TreeFault, clean, read_part,
    reduce, walk,
};
use std::alloc::{AllocError, Global};
use std::test::Fail;

fn cleaned(alloc: Global) -> Outcome {
    match clean(alloc, "/w", "a/../b/c") {
        Ok(path) => Outcome::of(path.as_str() == "/w/b/c"),
        Err(PathFault::Memory) => Outcome::OutOfMemory,
        Err(_) => Outcome::Wrong,
    }
}

fn reduced(alloc: Global) -> Outcome {
    Outcome::of_answer(are_reduced(alloc))
}

fn are_reduced(alloc: Global) -> Result<bool, AllocError> {
    let kept = reduce(alloc, &strings(alloc, &["/b/c", "/b", "/a"])?)?;
    Ok(kept == strings(alloc, &["/a", "/b"])?)
}

fn part_is_read(alloc: Global) -> Outcome {
    match read_part(alloc, &mut MemStore::new(b"abcdefgh", 2), 2, 5) {
        Ok(part) => Outcome::of(part.as_slice() == b"cdefg".as_slice()),
        Err(IoFault::Memory) => Outcome::OutOfMemory,
        Err(IoFault::Failed) => Outcome::Wrong,
    }
}

#[test]
fn paths_and_parts(rt: HostRuntime) -> Result<(), Fail> {
    let alloc = rt.alloc();
    let calls = [
        cleaned(alloc),
        cleaned(alloc),
        reduced(alloc),
        reduced(alloc),
        part_is_read(alloc),
        part_is_read(alloc),
    ];
    at_most_one_fails(&rt, &calls)
}

/// Whether an item is put, again after an allocation failure.
fn is_put(
    alloc: Global,
    tree: &mut MemTree,
    path: &str,
    text: Option<&str>,
) -> Result<bool, AllocError> {
    match tree.put(path, item_of(alloc, text)?) {
        Err(PutFault::Memory) => Ok(tree.put(path, item_of(alloc, text)?) == Ok(())),
        answer => Ok(answer == Ok(())),
    }
}

const ITEMS: [TreeItem<'static>; 4] = [
    ("/b", None),
    ("/b/y", Some("one\n")),
    ("/b/x", Some("two\n")),
    ("/b/y", Some("six\n")),
];

/// Whether a walk finds the names.
fn walks(alloc: Global, tree: &mut MemTree) -> Result<bool, AllocError> {
    let walked = walk(alloc, tree, &strings(alloc, &["/b", "/c"])?)?;
    Ok(walked.names == strings(alloc, &["/b/x", "/b/y"])? && walked.faults.len() == 1)
}

/// The puts of a tree, and two walks of it.
fn put_and_walked(alloc: Global) -> Result<[Outcome; 3], AllocError> {
    let mut tree = MemTree::new(alloc, 3)?;
    let mut are_put = true;
    for (path, text) in ITEMS {
        are_put = is_put(alloc, &mut tree, path, text)? && are_put;
    }
    let first = Outcome::of_answer(walks(alloc, &mut tree));
    let second = Outcome::of_answer(walks(alloc, &mut tree));
    Ok([Outcome::of(are_put), first, second])
}

#[test]
fn trees_in_memory(rt: HostRuntime) -> Result<(), Fail> {
    let came = put_and_walked(rt.alloc())?;
    at_most_one_fails(&rt, &came)
}

/// Writes a piece, again after an allocation failure, which must have written nothing.
fn is_written(sink: &mut MemSink, piece: &[u8]) -> bool {
    let len_before = sink.bytes().len();
    match sink.write(piece) {
        Err(IoFault::Memory) => {
            sink.bytes().len() == len_before && sink.write(piece) == Ok(piece.len())
        }
        answer => answer == Ok(piece.len()),
    }
}

const PIECES: &[&[u8]] = &[b"one", b" and two", b" and many more letters"];

/// Whether a sink accepts the pieces. An allocation failure is not counted.
fn takes_pieces(alloc: Global) -> bool {
    let mut sink = MemSink::new(alloc, 100);
    for piece in PIECES {
        if !is_written(&mut sink, piece) {
            return false;
        }
    }
    sink.bytes() == b"one and two and many more letters".as_slice() && sink.failures() == 0
}

#[test]
fn sinks_in_memory(rt: HostRuntime) {
    assert!(rt; takes_pieces(rt.alloc()));
}

fn has_kind<T: Tree>(tree: &mut T, path: &str) -> Outcome {
    match tree.kind(path) {
        Ok(kind) => Outcome::of(kind == Kind::Folder),
        Err(TreeFault::Memory) => Outcome::OutOfMemory,
        Err(_) => Outcome::Wrong,
    }
}

fn has_entries<T: Tree>(alloc: Global, tree: &mut T, path: &str) -> Outcome {
    match tree.entries(alloc, path) {
        Ok(listing) => Outcome::of(!listing.unnamed),
        Err(TreeFault::Memory) => Outcome::OutOfMemory,
        Err(_) => Outcome::Wrong,
    }
}

fn is_opened<T: Tree>(tree: &mut T, path: &str) -> Outcome {
    match tree.open(path) {
        Ok(()) => Outcome::Usual,
        Err(TreeFault::Memory) => Outcome::OutOfMemory,
        Err(_) => Outcome::Wrong,
    }
}

/// The calls on a tree that has a folder and a file. An allocation failure is not counted.
fn called<T: Tree>(alloc: Global, tree: &mut T) -> [Outcome; 7] {
    [
        has_kind(tree, "."),
        has_kind(tree, "."),
        has_entries(alloc, tree, "."),
        has_entries(alloc, tree, "."),
        is_opened(tree, "/dev/null"),
        is_opened(tree, "/dev/null"),
        Outcome::of(tree.failures() == 0),
    ]
}

fn called_on_the_disk(rt: &HostRuntime) -> Result<[Outcome; 7], AllocError> {
    Ok(called(rt.alloc(), &mut DiskTree::new(rt.clone()?)))
}

#[test]
fn the_real_disk(rt: HostRuntime) -> Result<(), Fail> {
    let came = called_on_the_disk(&rt)?;
    at_most_one_fails(&rt, &came)
}
