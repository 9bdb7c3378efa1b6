// The types of a tree and of a folder in memory. They have a module of their own because
// `specs/MemTrees.antt` and `specs/MemFolders.antt` cite them.
ghost use Rattle.std.specs.Prelude.{◌≡◌, ◌≤◌, ◌<◌, true, map, string_bytes, vec_len};
ghost use Rattle.std.specs.Option.{ForNone, ForSome};
ghost use Rattle.cs_tree.specs.Folders.{are_elements};
ghost use Rattle.cs_tree.specs.Cover.{is_absolute};

use cs_storage::StorageFault;
use cs_tree::Sent;
use std::alloc::Global;

/// A tree in memory. Its model is its snapshot.
#[derive(Drop)]
pub struct MemTree {
    pub(crate) items: Vec<MemEntry>,
    pub(crate) opened: Option<usize>,
    pub(crate) consumed: usize,
    pub(crate) longest_requested: usize,
    pub(crate) most_read: usize,
    pub(crate) lookups: u64,
    pub(crate) step: usize,
    pub(crate) failed: u64,
    pub(crate) alloc: Global,
    ghost some: { 0 < step },
}

/// The distinct names of a folder, in insertion order.
#[derive(Drop)]
pub(crate) struct Names {
    pub(crate) list: Vec<String>,
    ghost named: { are_elements (map string_bytes list.items) ≡ true },
}

#[derive(Drop)]
pub(crate) enum MemItem {
    Folder(Names),
    File(Vec<u8>),
    Cut(Vec<u8>),
    Other,
    Denied,
}

#[derive(Drop)]
pub(crate) struct MemEntry {
    pub(crate) path: String,
    pub(crate) item: MemItem,
    ghost rooted: { is_absolute (string_bytes path) ≡ true },
}

/// An index file in memory, with FILE~ beside it. It can crash after any call, and another run can
/// act before any call for which FILE~ is not held.
#[derive(Drop)]
pub struct MemFolder {
    pub(crate) alloc: Global,
    pub(crate) file: Option<Vec<u8>>,
    /// What stood at FILE when it was opened, or why it could not be opened.
    pub(crate) seen: Option<Result<Option<Vec<u8>>, StorageFault>>,
    pub(crate) own: Option<MemFile>,
    /// The bytes that FILE~ was given.
    pub(crate) given: Sent,
    /// Why the first append that failed did so.
    pub(crate) failure: Option<StorageFault>,
    /// What a crash may have left at FILE, in order of time.
    pub(crate) lefts: Vec<MemLeft>,
    /// Where in `lefts` the outcomes of a crash at this moment begin.
    pub(crate) now_at: usize,
    /// Where in `lefts` the outcomes since the claim begin.
    pub(crate) since_at: usize,
    pub(crate) stuck: u64,
    /// What this run replaced at FILE when it last changed FILE, if it did.
    pub(crate) replaced: Option<Option<Vec<u8>>>,
    /// What the changes of FILE by this run have added to what a crash may leave there.
    pub(crate) added: Vec<MemLeft>,
    /// Why the last call failed that was to change FILE or FILE~, or to find FILE unchanged.
    pub(crate) refused: Option<StorageFault>,
    /// Whether another run holds FILE~.
    pub(crate) taken: bool,
    /// What another run does next.
    pub(crate) next: Option<MemVisit>,
    /// The number of calls before the crash, from which on every call fails.
    pub(crate) calls: usize,
    ghost now_within: { now_at ≤ vec_len lefts },
    ghost own_whole: { ForNone failure (ForSome own (λ own. own.bytes.items ≡ given.bytes)) },
    ghost since_within: { since_at ≤ vec_len lefts },
}

/// Two copies of FILE: what is compared later, and what the caller gets.
#[derive(Drop)]
pub(crate) struct MemOpened {
    pub(crate) seen: Option<Vec<u8>>,
    pub(crate) index: Option<MemIndex>,
}

/// FILE~, if it is held.
#[derive(Drop)]
pub(crate) struct MemFile {
    pub(crate) bytes: Vec<u8>,
    pub(crate) synced: bool,
}

/// What another run leaves at FILE, synced.
#[derive(Drop)]
pub(crate) struct MemVisit {
    pub(crate) file: Option<Vec<u8>>,
    pub(crate) left: MemLeft,
}

/// What a crash may leave at FILE.
#[derive(PartialEq, Drop)]
pub enum MemLeft {
    /// No file.
    Absent,
    /// A file with these bytes.
    Whole(Vec<u8>),
    /// A file with any bytes.
    Torn,
}

/// The opened file of a folder in memory.
#[derive(Drop)]
pub struct MemIndex {
    pub(crate) bytes: Vec<u8>,
}
