// The types that definitions cite.

use cs_index::NameReader;
use cs_state::FileKind;
use cs_tree::Stamp;
use std::alloc::Global;

/// A file of a project, with the stamp that was seen before it is read.
#[derive(Drop)]
pub struct SeenFile {
    /// Its path from the root of the project, which counts as `/`: `/src/a.c`.
    pub name: String,
    pub stamp: Stamp,
}

/// The options of a search that files are skipped by.
#[derive(Clone, Copy, PartialEq, Eq)]
pub struct SkipOptions {
    /// Something is printed of a text without a match (`-v`, `-L`).
    pub prints_unmatched: bool,
    /// Nothing is printed of a binary file.
    pub leaves_out_binary: bool,
}

/// What is known of a file by its name and stamp.
#[derive(Clone, Copy, PartialEq, Eq)]
pub enum FileLookup {
    /// It is known, and prints nothing.
    Skipped,
    /// It is known, and has to be read.
    Known,
    /// No known file with this name and stamp was found.
    Unknown,
}

/// How a name of a state compares with the path and stamp of a file.
#[derive(Clone, Copy)]
pub(crate) enum NameMatch {
    /// It is less than the path.
    Before,
    /// It is the stamped name of the file.
    Found(FileKind),
    /// It is another name, and not less than the path.
    Other,
}

/// The files that an open state knows, for one search that asks for them by ascending names.
#[derive(Drop)]
pub struct KnownFiles<S> {
    pub(crate) alloc: Global,
    pub(crate) options: SkipOptions,
    /// The bytes of the index.
    pub(crate) bytes: S,
    pub(crate) names: NameReader,
    /// The id of the first name that is not passed.
    pub(crate) id: u32,
    /// The number of names. After a read that failed it is 0.
    pub(crate) count: u32,
    pub(crate) candidates: Vec<u32>,
}
