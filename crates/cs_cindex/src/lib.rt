//! `cindex`: runs lists of jobs, each over its own tree, on the bytes of the old index. Read
//! `specs/Headline.antt` of `cs_history` first: the main promise. Then `specs/Refusals.antt`: why a
//! job fails, for any bytes of the old index; `specs/Next.antt`: what a job walks, and the index
//! after it; and `specs/Steps.antt`: what one job does to the index and to the outputs.
//!
//! `cindex` runs one job after another. A job cleans its paths, opens the old index and tests what
//! it needs of it, builds the index of what it walks, merges the two, and flushes. If the walked
//! paths cover the old index, the index of the walk is the result, and the old lists are only read
//! for damage. The bytes of the new index go to an `Output` of `cs_tree` as they are made; only
//! an index that has to be merged is in memory as a whole. Each contract is stated for every
//! history whose index is the old bytes, so a call needs no record of earlier jobs.
//!
//! `cindex_stored` is one job over an old index in a store, and `cindex` runs it over the bytes in
//! memory, with a `Vec` as the output. Its answer is what becomes of the index, the `IndexUpdate`
//! of `cs_storage`. A job that updates an index has the paths, the names and the tables of the old
//! one in memory (`OldIndex` of `cs_index`), and reads each posting list once, after the walk,
//! through one window (`merge_stored` and `is_whole_stored` of `cs_merge`). `-list` and `-reset`
//! read no posting list. A read that fails ends the job, before it has printed anything or after
//! all diagnostics of its walk; what cannot be allocated is an error of the job as any other.
//!
//! The inner function `index_paths` builds the index of a walk. It walks, prints a diagnostic for
//! each path that cannot be read, and then opens, scans and adds one file after another, with one
//! scanner for all of them. A file that cannot be read has a diagnostic and is skipped. A non-text
//! file is skipped too, and has a diagnostic only under `-logskip`.
#![tactic(auto)]

mod indexer;
mod job;
mod old;
mod printing;
mod walked;

pub use job::{JobCall, cindex, cindex_stored};
