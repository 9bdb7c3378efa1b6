//! Fakes for tests: a tree of files and a folder of the index file in memory, a tree in which one
//! call fails, and a store whose bytes change; and fixtures of several crates of tests
//! (`fixtures.rt`). Read `specs/MemTrees.antt`, `specs/Changes.antt` and `specs/Puts.antt` first:
//! the model of a tree in memory, and how it changes; then `specs/Fuses.antt` and
//! `specs/MemFolders.antt`.
//!
//! `MemTree` is a tree in memory, whose model is its snapshot. `FuseTree` wraps another tree and
//! fails one of its calls. `MemFolder` is a folder of the index file in memory, which can crash
//! after any call, and in which another process can act. Each has the contract of its trait, `Tree`
//! or `IndexFolder`, so the proofs also show that something keeps these contracts. `MemSource`,
//! `MemStore` and `MemSink`, which the program or the library uses, are in `cs_tree`. The fixtures
//! that several crates of tests use are here too (`fixtures.rt`), and a store of an index whose
//! reads fail, or whose bytes change, after some reads (`ChangingStore`). The fixtures have no
//! contract, since no proof depends on what they return.
#![tactic(auto)]

mod fixtures;
mod fuse_tree;
mod mem_folder;
mod mem_items;
mod mem_tree;
mod types;

pub use fixtures::{
    ChangingStore, Files, ONE_FILE, UNSORTED, builder_of, changed, index_of, number,
    one_file_until, strings,
};
pub use fuse_tree::FuseTree;
pub use mem_tree::{Item, PutFault};
pub use types::{MemFolder, MemIndex, MemLeft, MemTree};
