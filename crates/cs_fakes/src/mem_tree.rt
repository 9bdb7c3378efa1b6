// A tree in memory.
ghost use Rattle.std.specs.Prelude.{◌≡◌, ◌≢◌, ◌≤◌, ◌<◌, ◌↔◌, ℕ, List, [], ◌∷◌, Option, Some, None, true, false, ◌&&◌, not, length, max, drop, Ok, Err, IfSome, IfOk, IfErr, OnOk, OnErr, IsSome, IsTrue, MatchOption, bytes_eq};
ghost use Rattle.std.specs.Path.{slash};
ghost use Rattle.cs_tree.specs.Folders.{IsModelled, last_element, are_elements};
ghost use Rattle.cs_tree.specs.Failures.{next_count};
ghost use Rattle.cs_tree.specs.FailureCount.{count_after};
ghost use Rattle.std.specs.FinMap as map';
ghost use Rattle.cs_tree.specs.Snapshot.{item_at};
ghost use Rattle.cs_fakes.specs.Changes.{root_alone, is_folder, parent_of, with_item, left_without, is_removed_with};
ghost use Rattle.cs_tree.specs.Clean.{is_clean as is_clean', has_nul as has_nul'};
ghost use Rattle.cs_fakes.specs.Puts.{put_fault, PutAnswers};
ghost use Rattle.cs_fakes.specs.MemTrees.{mem_snapshot, left_open, mem_tree_step, mem_read_counts, left_at, item_put, no_reads};
ghost use Rattle.cs_tree.specs.MemStreams.{source_step};
ghost use Rattle.cs_tree.specs.ReadCounts.{after_lookup, after_open, after_read};
ghost use Rattle.cs_tree.specs.Trees.{Answers, RequestsPath, OpensFile, TreeReadGives, IsReadFault, is_tree_failure, kind_of, listing_of, listing_value, listing_names};
ghost use Rattle.cs_tree.specs.Looks.{kind_seen};
ghost use Rattle.cs_fakes.specs.declared.mem_tree.PutFault.TheVariants as put;

use crate::mem_items::{
    drop_below, folder_at, kind_at, list_in, listing_at, opening_at, put_entry, removes_any,
    split_name, unlist_all,
};
use crate::types::{MemEntry, MemItem, MemTree, Names};
use cs_tree::{
    Kind, Listing, Look, MemSource, Seen, Source, Stamp, Tree, TreeFault, counted_answer, has_nul,
    is_clean,
};
use std::alloc::{AllocError, AllocFailed, Global};
use thiserror::Error;

/// An item to put into a tree in memory.
#[derive(Drop)]
pub enum Item {
    /// An empty folder.
    Folder,
    /// A file with these bytes.
    File(Vec<u8>),
    /// A file whose reads give these bytes and then fail.
    Cut(Vec<u8>),
    /// Neither a folder nor a file, such as a symbolic link.
    Other,
    /// An item whose look-up is denied.
    Denied,
}

/// Why an item was not put into a tree in memory.
#[derive(Clone, Copy, Debug, PartialEq, Eq, Error)]
pub enum PutFault {
    /// The path is not absolute and clean, has a NUL, or is the root. Examples: `a`, `/a/`, `/`.
    #[error("bad path")]
    BadPath,
    /// The parent is not an existing folder, for example that of `/b/c` in an empty tree.
    #[error("no folder")]
    NoFolder,
    /// The path is a folder with entries, and the item is not a folder.
    #[error("the folder has entries")]
    HasEntries,
    /// An allocation failed.
    #[error("out of memory")]
    Memory,
}

impl From<AllocError> for PutFault {
    ghost from_gives = { λ _ fault. fault ≡ put.Memory };

    fn from(_refused: AllocError) -> PutFault {
        PutFault::Memory
    }
}

impl MemTree {
    /// A tree with the folder `/` alone. A read gives at most `step` bytes.
    pub fn new(alloc: Global, step: usize) -> Result<MemTree, AllocError>
        requires { 0 < step }
        ensures tree { IfOk result (λ tree. mem_snapshot tree ≡ root_alone) }
        ensures modelled { IfOk result (λ tree. IsModelled (⟦<MemTree as Tree>⟧.snapshot tree)) }
        ensures closed { IfOk result (λ tree. left_open tree ≡ None) }
        ensures failed { IfOk result (λ tree. ⟦<MemTree as Tree>⟧.failed tree ≡ 0) }
        ensures step { IfOk result (λ tree. mem_tree_step tree ≡ step) }
        ensures requested { IfOk result
            (λ tree. ⟦<MemTree as Tree>⟧.longest_requested tree ≡ Some 0) }
        ensures counts { IfOk result (λ tree. mem_read_counts tree ≡ no_reads) }
    {
        let path = String::from_str(alloc, "/")?;
        let item = MemItem::Folder(Names::new(alloc));
        let mut items = Vec::new(alloc);
        items.push(MemEntry { path, item })?;
        Ok(MemTree {
            items,
            opened: None,
            consumed: 0,
            longest_requested: 0,
            most_read: 0,
            lookups: 0,
            step,
            failed: 0,
            alloc,
        })
    }

    /// Puts an item at a path, and adds it to the parent folder. On error nothing changes.
    pub fn put(&mut self, path: &str, item: Item) -> Result<(), PutFault>
        ensures answer { PutAnswers (put_fault (mem_snapshot self.old) path.now (item_put item))
            result }
        ensures tree { OnOk result (mem_snapshot self.new
            ≡ with_item (mem_snapshot self.old) path.now (item_put item)) }
        ensures closed { OnOk result (left_open self.new ≡ None) }
        ensures refused { OnErr result (mem_snapshot self.new ≡ mem_snapshot self.old) }
        ensures opened { OnErr result (left_open self.new ≡ left_open self.old) }
        ensures modelled { IsModelled (⟦<MemTree as Tree>⟧.snapshot self.new) }
        ensures step { mem_tree_step self.new ≡ mem_tree_step self.old }
        ensures requested { ⟦<MemTree as Tree>⟧.longest_requested self.new
            ≡ ⟦<MemTree as Tree>⟧.longest_requested self.old }
        ensures counts { mem_read_counts self.new ≡ mem_read_counts self.old }
        ensures failed { ⟦<MemTree as Tree>⟧.failed self.new ≡ ⟦<MemTree as Tree>⟧.failed self.old }
    {
        let Some((folder, name)) = split_name(path) else {
            return Err(PutFault::BadPath);
        };
        if path == "/" || !is_clean(path) || has_nul(path) {
            return Err(PutFault::BadPath);
        }
        if !folder_at(&self.items, folder).0 {
            return Err(PutFault::NoFolder);
        }
        self.put_listed(path, folder, name, item)
    }

    /// Puts an item at a clean path whose parent is an existing folder.
    #[tactic(auto, using(cs_tree::proofs::NormalizedLemmas::clean_starts))]
    fn put_listed(
        &mut self,
        path: &str,
        folder: &str,
        name: &str,
        item: Item,
    ) -> Result<(), PutFault>
        requires folder { folder.now ≡ parent_of path.now }
        requires name { name.now ≡ last_element path.now }
        requires below_root { bytes_eq path.now (slash ∷ []) ≡ false }
        requires clean { is_clean' path.now ≡ true }
        requires no_nul { has_nul' path.now ≡ false }
        requires is_folder { is_folder (item_at (mem_snapshot self.old) folder.now) ≡ true }
        ensures answer { PutAnswers (put_fault (mem_snapshot self.old) path.now (item_put item))
            result }
        ensures tree { OnOk result (mem_snapshot self.new
            ≡ with_item (mem_snapshot self.old) path.now (item_put item)) }
        ensures closed { OnOk result (left_open self.new ≡ None) }
        ensures refused { OnErr result (mem_snapshot self.new ≡ mem_snapshot self.old) }
        ensures opened { OnErr result (left_open self.new ≡ left_open self.old) }
        ensures step { mem_tree_step self.new ≡ mem_tree_step self.old }
        ensures requested { ⟦<MemTree as Tree>⟧.longest_requested self.new
            ≡ ⟦<MemTree as Tree>⟧.longest_requested self.old }
        ensures counts { mem_read_counts self.new ≡ mem_read_counts self.old }
        ensures failed { ⟦<MemTree as Tree>⟧.failed self.new ≡ ⟦<MemTree as Tree>⟧.failed self.old }
    {
        let item = MemItem::new(self.alloc, item);
        let (was_folder, had_entries) = folder_at(&self.items, path);
        if had_entries && !item.is_folder() {
            return Err(PutFault::HasEntries);
        }
        let entry = MemEntry {
            path: String::from_str(self.alloc, path)?,
            item,
        };
        self.items.reserve(1)?;
        list_in(&mut self.items, self.alloc, folder, name)?;
        self.opened = None;
        if was_folder && entry.item.is_folder() {
            return Ok(());
        }
        put_entry(&mut self.items, entry);
        Ok(())
    }

    /// Removes a path and everything below it, except the root, and returns whether anything was
    /// removed. Allocates nothing.
    pub fn remove(&mut self, path: &str) -> bool
        ensures left { (at : List ℕ)
            → map'.get (mem_snapshot self.new) at
            ≡ left_without (mem_snapshot self.old) path.now at }
        ensures answer { IsTrue result
            ↔ ((at : List ℕ) × (is_removed_with path.now at ≡ true)
            × IsSome (map'.get (mem_snapshot self.old) at)) }
        ensures closed { left_open self.new ≡ None }
        ensures modelled { IsModelled (⟦<MemTree as Tree>⟧.snapshot self.new) }
        ensures step { mem_tree_step self.new ≡ mem_tree_step self.old }
        ensures requested { ⟦<MemTree as Tree>⟧.longest_requested self.new
            ≡ ⟦<MemTree as Tree>⟧.longest_requested self.old }
        ensures counts { mem_read_counts self.new ≡ mem_read_counts self.old }
        ensures failed { ⟦<MemTree as Tree>⟧.failed self.new ≡ ⟦<MemTree as Tree>⟧.failed self.old }
    {
        let found = removes_any(&self.items, path);
        drop_below(&mut self.items, path);
        unlist_all(&mut self.items, path);
        self.opened = None;
        found
    }

    /// The length in bytes of the longest path that `kind`, `entries` or `open` was called with.
    pub fn longest_requested(&self) -> usize
        ensures { ⟦<MemTree as Tree>⟧.longest_requested self.now ≡ Some result }
    {
        self.longest_requested
    }

    /// The largest number of bytes that were read from one opened file.
    pub fn most_read(&self) -> usize
        ensures { result ≡ (mem_read_counts self.now).most }
    {
        self.most_read
    }
}

impl Tree for MemTree {
    ghost snapshot = { λ t. Some (mem_snapshot t) };

    ghost opened = { λ t. left_open t };

    ghost longest_requested = { λ t. Some t.longest_requested };

    ghost read_counts = { λ t. Some (mem_read_counts t) };

    ghost counts_modelled = { λ _ model. model };

    ghost failed = { λ t. t.failed };

    /// Allocates nothing.
    fn kind(&mut self, path: &str) -> Result<Kind, TreeFault>
        ensures answer { result ≡ kind_of (item_at (mem_snapshot self.old) path.now) }
        ensures answers { Answers (λ kind. kind) (Some (mem_snapshot self.old)) kind_of path.now
            result }
        ensures keeps { Some (mem_snapshot self.new) ≡ Some (mem_snapshot self.old) }
        ensures open { left_open self.new ≡ left_open self.old }
        ensures step { mem_tree_step self.new ≡ mem_tree_step self.old }
        ensures requested { RequestsPath (⟦<MemTree as Tree>⟧.longest_requested self.old)
            (⟦<MemTree as Tree>⟧.longest_requested self.new) path.now }
        ensures counts { Some (mem_read_counts self.new)
            ≡ Some (after_lookup (mem_read_counts self.old)) }
        ensures failed { ⟦<MemTree as Tree>⟧.failed self.new
            ≡ count_after is_tree_failure result (⟦<MemTree as Tree>⟧.failed self.old) }
    {
        note(&mut self.longest_requested, path);
        count_lookup(&mut self.lookups);
        let answer = kind_at(&self.items, path);
        counted_answer(&mut self.failed, answer)
    }

    fn entries(&mut self, alloc: Global, path: &str) -> Result<Listing, TreeFault>
        ensures answer { Answers listing_value (Some (mem_snapshot self.old)) listing_of path.now
            result }
        ensures names { IfOk result (λ listing. are_elements (listing_names listing) ≡ true) }
        ensures keeps { Some (mem_snapshot self.new) ≡ Some (mem_snapshot self.old) }
        ensures open { left_open self.new ≡ left_open self.old }
        ensures step { mem_tree_step self.new ≡ mem_tree_step self.old }
        ensures requested { RequestsPath (⟦<MemTree as Tree>⟧.longest_requested self.old)
            (⟦<MemTree as Tree>⟧.longest_requested self.new) path.now }
        ensures counts { Some (mem_read_counts self.new)
            ≡ Some (after_lookup (mem_read_counts self.old)) }
        ensures failed { ⟦<MemTree as Tree>⟧.failed self.new
            ≡ count_after is_tree_failure result (⟦<MemTree as Tree>⟧.failed self.old) }
    {
        note(&mut self.longest_requested, path);
        count_lookup(&mut self.lookups);
        let answer = listing_at(alloc, &self.items, path);
        counted_answer(&mut self.failed, answer)
    }

    /// Allocates nothing.
    fn open(&mut self, path: &str) -> Result<(), TreeFault>
        ensures answer { OpensFile (Some (mem_snapshot self.old)) path.now result
            (left_open self.new) }
        ensures keeps { Some (mem_snapshot self.new) ≡ Some (mem_snapshot self.old) }
        ensures step { mem_tree_step self.new ≡ mem_tree_step self.old }
        ensures requested { RequestsPath (⟦<MemTree as Tree>⟧.longest_requested self.old)
            (⟦<MemTree as Tree>⟧.longest_requested self.new) path.now }
        ensures counts { Some (mem_read_counts self.new)
            ≡ Some (after_open (mem_read_counts self.old)) }
        ensures failed { ⟦<MemTree as Tree>⟧.failed self.new
            ≡ count_after is_tree_failure result (⟦<MemTree as Tree>⟧.failed self.old) }
        ensures no_memory { result ≢ Err TreeFault.Memory }
    {
        note(&mut self.longest_requested, path);
        self.consumed = 0;
        self.opened = None;
        match opening_at(&self.items, path) {
            Ok(at) => {
                self.opened = Some(at);
                Ok(())
            }
            Err(fault) => counted_answer(&mut self.failed, Err(fault)),
        }
    }

    /// Allocates nothing.
    fn read(&mut self, buf: &mut [u8]) -> Result<usize, TreeFault>
        ensures within { IfOk result (λ n. n ≤ length buf.new) }
        ensures fault { IfErr result IsReadFault }
        ensures bytes { TreeReadGives (Some (mem_snapshot self.old))
            (left_open self.old) (left_open self.new) result buf.new }
        ensures keeps { Some (mem_snapshot self.new) ≡ Some (mem_snapshot self.old) }
        ensures step { mem_tree_step self.new ≡ mem_tree_step self.old }
        ensures requested { ⟦<MemTree as Tree>⟧.longest_requested self.new
            ≡ ⟦<MemTree as Tree>⟧.longest_requested self.old }
        ensures counts { Some (mem_read_counts self.new)
            ≡ Some (after_read result (mem_read_counts self.old)) }
        ensures failed { ⟦<MemTree as Tree>⟧.failed self.new
            ≡ count_after is_tree_failure result (⟦<MemTree as Tree>⟧.failed self.old) }
        ensures no_memory { result ≢ Err TreeFault.Memory }
        ensures size { IfOk result (λ n. n ≤ mem_tree_step self.old) }
    {
        let Some(mut source) = open_source(&self.items, self.opened, self.consumed, self.step)
        else {
            return counted_answer(&mut self.failed, Err(TreeFault::Failed));
        };
        match source.read(buf) {
            Ok(n) => {
                self.consumed += n;
                self.most_read = self.most_read.max(self.consumed);
                Ok(n)
            }
            Err(_) => counted_answer(&mut self.failed, Err(TreeFault::Failed)),
        }
    }

    fn failures(&self) -> u64 {
        self.failed
    }
}

impl Look for MemTree {
    /// A tree in memory has no stamps. Allocates nothing.
    fn look(&mut self, path: &str) -> Result<Seen, TreeFault>
        ensures answer { Answers kind_seen (Some (mem_snapshot self.old)) kind_of path.now result }
        ensures stamp { IfOk result (λ seen. seen.stamp ≡ None) }
        ensures keeps { Some (mem_snapshot self.new) ≡ Some (mem_snapshot self.old) }
        ensures open { left_open self.new ≡ left_open self.old }
        ensures step { mem_tree_step self.new ≡ mem_tree_step self.old }
        ensures requested { RequestsPath (⟦<MemTree as Tree>⟧.longest_requested self.old)
            (⟦<MemTree as Tree>⟧.longest_requested self.new) path.now }
        ensures counts { Some (mem_read_counts self.new)
            ≡ Some (after_lookup (mem_read_counts self.old)) }
        ensures failed { ⟦<MemTree as Tree>⟧.failed self.new
            ≡ count_after is_tree_failure result (⟦<MemTree as Tree>⟧.failed self.old) }
    {
        let kind = self.kind(path)?;
        Ok(Seen { kind, stamp: None })
    }

    /// Allocates nothing.
    fn open_file(&mut self, path: &str) -> Result<Option<Stamp>, TreeFault>
        ensures answer { OpensFile (Some (mem_snapshot self.old)) path.now result
            (left_open self.new) }
        ensures stamp { IfOk result (λ stamp. stamp ≡ None) }
        ensures keeps { Some (mem_snapshot self.new) ≡ Some (mem_snapshot self.old) }
        ensures step { mem_tree_step self.new ≡ mem_tree_step self.old }
        ensures requested { RequestsPath (⟦<MemTree as Tree>⟧.longest_requested self.old)
            (⟦<MemTree as Tree>⟧.longest_requested self.new) path.now }
        ensures counts { Some (mem_read_counts self.new)
            ≡ Some (after_open (mem_read_counts self.old)) }
        ensures failed { ⟦<MemTree as Tree>⟧.failed self.new
            ≡ count_after is_tree_failure result (⟦<MemTree as Tree>⟧.failed self.old) }
    {
        self.open(path)?;
        Ok(None)
    }
}

/// Records the length of a path if it is the longest.
fn note(longest: &mut usize, path: &str)
    ensures { longest.new ≡ max longest.old (length path.now) }
{
    *longest = (*longest).max(path.len());
}

/// Counts a call that looks a path up.
fn count_lookup(lookups: &mut u64)
    ensures { lookups.new ≡ next_count lookups.old }
{
    *lookups = lookups.saturating_add(1);
}

/// The remaining bytes of the open file, as a source.
fn open_source<'a>(
    items: &'a [MemEntry],
    opened: Option<usize>,
    consumed: usize,
    step: usize,
) -> Option<MemSource<'a>>
    requires { 0 < step }
    ensures model { MatchOption result
        (left_at items.now consumed opened ≡ None)
        (λ source. ⟦<MemSource<'a> as Source>⟧.model source ≡ left_at items.now consumed opened) }
    ensures step { IfSome result (λ source. source_step source ≡ step) }
{
    match &items.get(opened?)?.item {
        MemItem::File(bytes) => Some(MemSource::new(after(bytes, consumed), step, false)),
        MemItem::Cut(bytes) => Some(MemSource::new(after(bytes, consumed), step, true)),
        _ => None,
    }
}

/// The bytes from an offset on.
fn after(bytes: &[u8], consumed: usize) -> &[u8]
    ensures { result.now ≡ drop consumed bytes.now }
{
    &bytes[consumed.min(bytes.len())..]
}
