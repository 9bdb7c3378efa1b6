// Indexes that are written, read and merged.
use crate::out_of_memory::{Outcome, at_most_one_fails};
use cs_fakes::{UNSORTED, strings};
use cs_index::{BuildFault, Builder, Index, IndexFault, StoredIndex};
use cs_merge::{MergeFault, merge};
use cs_tree::{IoFault, MemStore};
use cs_trigram::Query;
use std::alloc::{AllocError, Global};
use std::test::Fail;

/// The trigrams `abc` and `bcd`.
const ABC: u32 = 0x616263;

const BCD: u32 = 0x626364;

/// Adds a name that has one of them or both.
fn add(builder: &mut Builder, name: &str, both: bool) -> Result<u32, BuildFault> {
    if both {
        builder.add(name, &[ABC, BCD])
    } else {
        builder.add(name, &[ABC])
    }
}

/// Adds a name, again after an allocation failure.
fn add_again(builder: &mut Builder, name: &str) -> Result<u32, BuildFault> {
    match add(builder, name, true) {
        Err(BuildFault::Memory) => add(builder, name, true),
        answer => answer,
    }
}

/// Adds 300 names. Each gets its id, also after a failed one.
fn add_many(alloc: Global, builder: &mut Builder) -> Result<bool, AllocError> {
    for id in 0..300u32 {
        let name = format!(in alloc; "/a/{}", 1000 + id)?;
        if add_again(builder, &name) != Ok(id) {
            return Ok(false);
        }
    }
    Ok(true)
}

/// Whether the index has 300 names, each with both trigrams.
fn has_many(bytes: &[u8]) -> bool {
    match Index::open(bytes) {
        Ok(index) => index.len() == 300 && index.count(ABC) == 300 && index.lists() == 2,
        Err(_) => false,
    }
}

/// Whether an index of many names is made.
fn indexes_many(alloc: Global) -> Result<bool, Fail> {
    let mut builder = Builder::new(alloc, &strings(alloc, &["/a"])?)?;
    Ok(add_many(alloc, &mut builder)? && has_many(&builder.finish()?))
}

/// A name that failed is not in the index, also if several batches are sorted.
#[test]
fn many_names(rt: HostRuntime) -> Result<(), Fail> {
    assert!(rt; indexes_many(rt.alloc())?);
    Ok(())
}

/// Names, each with one trigram or with both.
type Names<'a> = &'a [(&'a str, bool)];

const FILES: Names<'static> = &[("/g/1", false), ("/g/2", true), ("/g/3", false)];

/// The second of them with one trigram.
const SECOND: Names<'static> = &[("/g/2", false)];

/// All three.
const MERGED: Names<'static> = &[("/g/1", false), ("/g/2", false), ("/g/3", false)];

/// The index of a path with these files.
fn index_of(alloc: Global, path: &str, names: Names<'_>) -> Result<Vec<u8>, BuildFault> {
    let mut builder = Builder::new(alloc, &strings(alloc, &[path])?)?;
    for (name, both) in names {
        let _id = add(&mut builder, *name, *both)?;
    }
    builder.finish()
}

/// The outcome of a query for two trigrams.
fn called(alloc: Global, index: &Index<'_>, query: &Query) -> Outcome {
    match index.candidates(alloc, query) {
        Ok(ids) => Outcome::of(ids.as_slice() == [1].as_slice()),
        Err(IndexFault::Memory) => Outcome::OutOfMemory,
        Err(_) => Outcome::Wrong,
    }
}

/// A query for two trigrams.
fn both(alloc: Global) -> Result<Query, AllocError> {
    let mut members = Vec::new(alloc);
    members.push(Query::Tri(ABC))?;
    members.push(Query::Tri(BCD))?;
    Ok(Query::And(members))
}

fn called_twice(alloc: Global) -> Result<[Outcome; 2], Fail> {
    let bytes = index_of(alloc, "/g", FILES)?;
    let query = both(alloc)?;
    let index = Index::open(&bytes)?;
    Ok([called(alloc, &index, &query), called(alloc, &index, &query)])
}

#[test]
fn candidates(rt: HostRuntime) -> Result<(), Fail> {
    let came = called_twice(rt.alloc())?;
    at_most_one_fails(&rt, &came)
}

/// The same by a store.
fn called_on_a_store(alloc: Global, bytes: &[u8], query: &Query) -> Outcome {
    let mut store = MemStore::new(bytes, 7);
    match StoredIndex::open(alloc, &mut store) {
        Ok(Ok(index)) => match index.candidates(alloc, &mut store, query) {
            Ok(Ok(ids)) => Outcome::of(ids.as_slice() == [1].as_slice()),
            Ok(Err(_)) => Outcome::Wrong,
            Err(IoFault::Memory) => Outcome::OutOfMemory,
            Err(IoFault::Failed) => Outcome::Wrong,
        },
        Ok(Err(_)) => Outcome::Wrong,
        Err(IoFault::Memory) => Outcome::OutOfMemory,
        Err(IoFault::Failed) => Outcome::Wrong,
    }
}

fn store_called_twice(alloc: Global) -> Result<[Outcome; 2], Fail> {
    let bytes = index_of(alloc, "/g", FILES)?;
    let query = both(alloc)?;
    let first = called_on_a_store(alloc, &bytes, &query);
    Ok([first, called_on_a_store(alloc, &bytes, &query)])
}

#[test]
fn candidates_of_a_store(rt: HostRuntime) -> Result<(), Fail> {
    let came = store_called_twice(rt.alloc())?;
    at_most_one_fails(&rt, &came)
}

/// The outcome of merging two indexes, which has to give this one.
fn merged(alloc: Global, old: &Index<'_>, newer: &Index<'_>, want: &[u8]) -> Outcome {
    match merge(alloc, old, newer) {
        Ok(index) => Outcome::of(index.as_slice() == want),
        Err(MergeFault::Memory) => Outcome::OutOfMemory,
        Err(_) => Outcome::Wrong,
    }
}

fn merged_twice(alloc: Global) -> Result<[Outcome; 2], Fail> {
    let old = index_of(alloc, "/g", FILES)?;
    let part = index_of(alloc, "/g/2", SECOND)?;
    let want = index_of(alloc, "/g", MERGED)?;
    let (old, part) = (Index::open(&old)?, Index::open(&part)?);
    let first = merged(alloc, &old, &part, &want);
    Ok([first, merged(alloc, &old, &part, &want)])
}

#[test]
fn merges(rt: HostRuntime) -> Result<(), Fail> {
    let came = merged_twice(rt.alloc())?;
    at_most_one_fails(&rt, &came)
}

/// The outcome of sorting the ids by name.
fn ordered(alloc: Global, index: &Index<'_>) -> Outcome {
    match index.order(alloc) {
        Ok(Some(ids)) => Outcome::of(ids.as_slice() == [1, 0].as_slice()),
        Ok(None) => Outcome::Wrong,
        Err(_) => Outcome::OutOfMemory,
    }
}

#[test]
fn orders(rt: HostRuntime) -> Result<(), Fail> {
    let alloc = rt.alloc();
    let index = Index::open(UNSORTED)?;
    at_most_one_fails(&rt, &[ordered(alloc, &index), ordered(alloc, &index)])
}
