// Whole tools in memory: on error a prefix of the output was printed.
use crate::fixtures::indexed::{FIRST, GOOGLE, search};
use crate::fixtures::jobs::{index_of, run_three};
use crate::fixtures::{TreeItem, files, tree_of};
use crate::out_of_memory::{Outcome, at_most_one_fails};
use cs_args::{CindexFault, Reply, ToolFault};
use cs_search::Status;
use cs_tree::MemSink;
use std::alloc::Global;
use std::test::Fail;

/// The outcome of a search that has to match and print these texts on both outputs, or a prefix of
/// each if an allocation fails.
fn came(
    answer: Result<Status, ToolFault>,
    out: &MemSink,
    err: &MemSink,
    want: (&[u8], &[u8]),
) -> Outcome {
    match answer {
        Ok(status) => Outcome::of(
            status == Status::Matched && out.bytes() == want.0 && err.bytes() == want.1,
        ),
        Err(ToolFault::Memory)
            if want.0.starts_with(out.bytes()) && want.1.starts_with(err.bytes()) => {
            Outcome::OutOfMemory
        }
        Err(_) => Outcome::Wrong,
    }
}

/// A search of files, one of them missing.
fn grepped(alloc: Global) -> Result<Outcome, Fail> {
    let mut out = MemSink::new(alloc, 1000);
    let mut err = MemSink::new(alloc, 1000);
    let answer = files::run(alloc, "-n one /t/p /t/x /t/p", &mut out, &mut err)?;
    let lines = b"/t/p:1:one\n/t/p:3:one\n/t/p:1:one\n/t/p:3:one\n";
    let missing = b"cgrep: /t/x: no such file\n";
    Ok(came(answer, &out, &err, (lines, missing)))
}

#[test]
fn cgrep(rt: HostRuntime) -> Result<(), Fail> {
    let calls = [grepped(rt.alloc())?, grepped(rt.alloc())?];
    at_most_one_fails(&rt, &calls)
}

/// A search of the index over a tree without one of its files.
fn searched(alloc: Global, index: &[u8]) -> Result<Outcome, Fail> {
    let mut tree = tree_of(alloc, FIRST)?;
    let mut out = MemSink::new(alloc, 1000);
    let mut err = MemSink::new(alloc, 1000);
    let args = "-f g -n Goo.*";
    let answer = search(alloc, args, Some(index), &mut tree, &mut out, &mut err)?;
    let missing = b"csearch: /g/2: no such file\n";
    Ok(came(answer, &out, &err, (b"/g/1:1:Google Search\n", missing)))
}

fn searched_twice(alloc: Global) -> Result<[Outcome; 2], Fail> {
    let index = index_of(alloc, &["/g"], GOOGLE)?;
    Ok([searched(alloc, &index)?, searched(alloc, &index)?])
}

#[test]
fn csearch(rt: HostRuntime) -> Result<(), Fail> {
    let came = searched_twice(rt.alloc())?;
    at_most_one_fails(&rt, &came)
}

/// The items of a tree, and three jobs.
const FOLDERS: &[TreeItem<'static>] = &[
    ("/a", None),
    ("/a/f", Some("one\n")),
    ("/b", None),
    ("/b/g", Some("two\n")),
];

const JOBS: [&[&str]; 3] = [&["/a"], &["/b"], &[]];

/// The outcome of three jobs: a job without a path has no index if those before it failed.
fn jobs_came(replies: &[Reply; 3]) -> Outcome {
    let mut came = Outcome::Usual;
    for at in 0..3 {
        match replies[at] {
            Reply::Done => {}
            Reply::Refused(CindexFault::Memory) => came = Outcome::OutOfMemory,
            Reply::Refused(CindexFault::NoIndex) if at == 2 => came = Outcome::OutOfMemory,
            Reply::Refused(_) => return Outcome::Wrong,
        }
    }
    came
}

/// Three jobs twice, and whether they leave the same index if they have the same replies.
fn indexed_twice(alloc: Global) -> Result<[Outcome; 3], Fail> {
    let first = run_three(alloc, JOBS, FOLDERS)?;
    let second = run_three(alloc, JOBS, FOLDERS)?;
    let agree = first.replies != second.replies
        || first.index.as_deref() == second.index.as_deref();
    Ok([
        jobs_came(&first.replies),
        jobs_came(&second.replies),
        Outcome::of(agree),
    ])
}

#[test]
fn cindex(rt: HostRuntime) -> Result<(), Fail> {
    let came = indexed_twice(rt.alloc())?;
    at_most_one_fails(&rt, &came)
}
