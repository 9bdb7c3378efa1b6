// The items of a tree in memory, the names in a folder, and the parts of paths.
ghost use Rattle.std.specs.Prelude.{◌≡◌, ◌≢◌, ◌<◌, ◌∷◌, [], string_bytes, true, false, ◌&&◌, ◌||◌, not, ℕ, Option, Some, None, Ok, Err, MatchOption, MatchResult, OnOk, OnErr, map, filter, vec_len, vec_capacity, IfOk, ◌++◌, length, nat_eq, if◌then◌else◌, bytes_eq, List};
ghost use Rattle.std.specs.List.{list_any};
ghost use Rattle.std.specs.FinMap as map';
ghost use Rattle.cs_tree.specs.TreeAnswers.{opening_of};
ghost use Rattle.cs_tree.specs.Folders.{is_element, are_elements, stem_of, child, last_element};
ghost use Rattle.cs_tree.specs.Snapshot.{item_at};
ghost use Rattle.cs_fakes.specs.Changes.{is_folder as is_folder', has_entries as has_entries', without_listed_names, with_name, is_removed_with as is_removed_with', names_with, names_left, parent_of};
ghost use Rattle.cs_tree.specs.Trees.{Answers, listing_value, listing_names, kind_of, listing_of};
ghost use Rattle.cs_fakes.specs.MemTrees.{item_of, item_put, pair_of, snapshot_of, left_at, left_of, mem_names};
ghost use Rattle.cs_fakes.specs.MemItems.{entry_index, unlisted_pair, IsOpening};
ghost use Rattle.cs_tree.specs.Cover.{is_absolute};
ghost use Rattle.cs_tree.specs.Clean.{is_clean as is_clean'};

use crate::mem_tree::Item;
use crate::types::{MemEntry, MemItem, Names};
use cs_tree::{Kind, Listing, TreeFault, covers};
use std::alloc::{AllocError, Global};

impl MemItem {
    /// The stored form of an item. A new folder is empty.
    pub(crate) fn new(alloc: Global, item: Item) -> MemItem
        ensures { item_of result ≡ item_put item }
    {
        match item {
            Item::Folder => MemItem::Folder(Names::new(alloc)),
            Item::File(bytes) => MemItem::File(bytes),
            Item::Cut(bytes) => MemItem::Cut(bytes),
            Item::Other => MemItem::Other,
            Item::Denied => MemItem::Denied,
        }
    }

    pub(crate) fn is_folder(&self) -> bool
        ensures { result ≡ is_folder' (item_of self.now) }
    {
        matches!(self, MemItem::Folder(_))
    }

    /// Whether the item can be opened, or why not.
    fn opening(&self) -> Result<(), TreeFault>
        ensures { IsOpening (opening_of (item_of self.now)) (λ _. left_of 0 self.now) result }
    {
        match self {
            MemItem::File(_) | MemItem::Cut(_) => Ok(()),
            MemItem::Denied => Err(TreeFault::Denied),
            MemItem::Folder(_) | MemItem::Other => Err(TreeFault::Failed),
        }
    }

    fn has_entries(&self) -> bool
        ensures { result ≡ has_entries' (item_of self.now) }
    {
        match self {
            MemItem::Folder(names) => !names.is_empty(),
            _ => false,
        }
    }
}

impl MemEntry {
    /// Removes the names whose paths the path covers.
    fn unlist(&mut self, path: &str)
        ensures path { self.new.path ≡ self.old.path }
        ensures item { item_of self.new.item
            ≡ without_listed_names path.now (string_bytes self.old.path) (item_of self.old.item) }
    {
        if let MemItem::Folder(names) = &mut self.item {
            names.remove(self.path.as_str(), path);
        }
    }
}

impl Names {
    pub(crate) fn new(alloc: Global) -> Names
        ensures { mem_names result ≡ [] }
    {
        Names {
            list: Vec::new(alloc),
        }
    }

    pub(crate) fn is_empty(&self) -> bool
        ensures { result ≡ nat_eq (length (mem_names self.now)) 0 }
    {
        self.list.is_empty()
    }

    fn lists(&self, name: &str) -> bool
        ensures { result
            ≡ list_any (λ listed. bytes_eq (string_bytes listed) name.now) self.now.list.items }
    {
        self.list.iter().any(|listed| listed.as_str() == name)
    }

    /// Adds the name, unless the folder has it.
    pub(crate) fn add(&mut self, alloc: Global, name: &str) -> Result<(), AllocError>
        requires { is_element name.now ≡ true }
        ensures ok { OnOk result (mem_names self.new
            ≡ names_with name.now (mem_names self.old)) }
        ensures err { OnErr result (mem_names self.new ≡ mem_names self.old) }
    {
        if self.lists(name) {
            return Ok(());
        }
        let name = String::from_str(alloc, name)?;
        self.list.push(name)?;
        Ok(())
    }

    /// Removes each name whose path the path covers.
    pub(crate) fn remove(&mut self, folder: &str, path: &str)
        requires { is_absolute folder.now ≡ true }
        ensures { mem_names self.new
            ≡ names_left path.now folder.now (mem_names self.old) }
    {
        if covers(path, folder) {
            self.list.clear();
        } else {
            self.list
                .retain(|name| !is_child(path, folder, name.as_str()));
        }
    }

    /// A copy of the names, in their order.
    pub(crate) fn copy(&self, alloc: Global) -> Result<Vec<String>, AllocError>
        ensures { IfOk result (λ names. map string_bytes names.items ≡ mem_names self.now) }
    {
        let mut names = Vec::new(alloc);
        for name in &self.list {
            names.push(name.clone()?)?;
        }
        Ok(names)
    }
}

/// Whether there is a folder at the path, and whether it has entries.
pub(crate) fn folder_at(items: &[MemEntry], path: &str) -> (bool, bool)
    ensures folder { result.0 ≡ is_folder' (item_at (snapshot_of items.now) path.now) }
    ensures entries { result.1 ≡ has_entries' (item_at (snapshot_of items.now) path.now) }
{
    match find_item(items, path) {
        Some(item) => (item.is_folder(), item.has_entries()),
        None => (false, false),
    }
}

/// The answer of `kind`.
pub(crate) fn kind_at(items: &[MemEntry], path: &str) -> Result<Kind, TreeFault>
    ensures { result ≡ kind_of (item_at (snapshot_of items.now) path.now) }
{
    match find_item(items, path) {
        Some(MemItem::Folder(_)) => Ok(Kind::Folder),
        Some(MemItem::File(_) | MemItem::Cut(_)) => Ok(Kind::File),
        Some(MemItem::Other) => Ok(Kind::Other),
        Some(MemItem::Denied) => Err(TreeFault::Denied),
        None => Err(TreeFault::Missing),
    }
}

/// The answer of `entries`.
pub(crate) fn listing_at(
    alloc: Global,
    items: &[MemEntry],
    path: &str,
) -> Result<Listing, TreeFault>
    ensures answer { Answers listing_value (Some (snapshot_of items.now)) listing_of path.now
        result }
    ensures names { IfOk result (λ listing. are_elements (listing_names listing) ≡ true) }
{
    match find_item(items, path) {
        Some(MemItem::Folder(names)) => Ok(Listing {
            names: names.copy(alloc)?,
            unnamed: false,
        }),
        Some(MemItem::Denied) => Err(TreeFault::Denied),
        Some(_) => Err(TreeFault::Failed),
        None => Err(TreeFault::Missing),
    }
}

/// The index of the file that `open` opens.
pub(crate) fn opening_at(items: &[MemEntry], path: &str) -> Result<usize, TreeFault>
    ensures { IsOpening (opening_of (item_at (snapshot_of items.now) path.now))
        (λ at. left_at items.now 0 (Some at)) result }
{
    let Some(at) = find_entry(items, path) else {
        return Err(TreeFault::Missing);
    };
    match items[at].item.opening() {
        Ok(()) => Ok(at),
        Err(fault) => Err(fault),
    }
}

/// Adds the name to the folder. On error nothing changes.
pub(crate) fn list_in(
    items: &mut Vec<MemEntry>,
    alloc: Global,
    folder: &str,
    name: &str,
) -> Result<(), AllocError>
    requires name { is_element name.now ≡ true }
    requires folder { is_folder' (item_at (snapshot_of items.old.items) folder.now) ≡ true }
    ensures ok { OnOk result (snapshot_of items.new.items
        ≡ with_name (snapshot_of items.old.items) folder.now name.now) }
    ensures err { OnErr result (snapshot_of items.new.items ≡ snapshot_of items.old.items) }
    ensures files { (consumed : ℕ) (opened : Option ℕ)
        → left_at items.new.items consumed opened ≡ left_at items.old.items consumed opened }
    ensures len { vec_len items.new ≡ vec_len items.old }
    ensures capacity { vec_capacity items.new ≡ vec_capacity items.old }
{
    if let Some(at) = find_entry(items, folder) {
        if let MemItem::Folder(names) = &mut items[at].item {
            if let Err(refused) = names.add(alloc, name) {
                return Err(refused);
            }
        }
    }
    Ok(())
}

/// Replaces the item at the same path, or appends the item if there is none.
pub(crate) fn put_entry(items: &mut Vec<MemEntry>, entry: MemEntry)
    requires { vec_len items.old < vec_capacity items.old }
    ensures { snapshot_of items.new.items
        ≡ map'.insert (snapshot_of items.old.items) (string_bytes entry.path)
        (item_of entry.item) }
{
    match find_entry(items, entry.path.as_str()) {
        Some(at) => items[at] = entry,
        None => items.push(entry).unwrap(),
    }
}

/// Whether removing the path removes some item.
pub(crate) fn removes_any(items: &[MemEntry], path: &str) -> bool
    ensures { result
        ≡ list_any (λ entry. is_removed_with' path.now (string_bytes entry.path)) items.now }
{
    items
        .iter()
        .any(|entry| is_removed_with(path, entry.path.as_str()))
}

/// Removes the items that the path covers, except the root.
pub(crate) fn drop_below(items: &mut Vec<MemEntry>, path: &str)
    ensures { items.new.items
        ≡ filter (λ entry. not (is_removed_with' path.now (string_bytes entry.path)))
        items.old.items }
{
    items.retain(|entry| !is_removed_with(path, entry.path.as_str()));
}

/// Removes from each folder the names whose paths the path covers.
pub(crate) fn unlist_all(items: &mut Vec<MemEntry>, path: &str)
    ensures { map pair_of items.new.items
        ≡ map (unlisted_pair path.now) (map pair_of items.old.items) }
{
    for i in 0..items.len() {
        items[i].unlist(path);
    }
}

/// The parent folder of a path, and its last element.
pub(crate) fn split_name(path: &str) -> Option<(&str, &str)>
    ensures { MatchOption result
        (is_clean' path.now ≡ false)
        (λ parts. (parts.0.now ≡ parent_of path.now) × (parts.1.now ≡ last_element path.now)) }
{
    let Some((prefix, name)) = path.rsplit_once('/') else {
        return None;
    };
    if prefix.is_empty() {
        return Some(("/", name));
    }
    Some((prefix, name))
}

/// The index of the path among the items.
fn find_entry(items: &[MemEntry], path: &str) -> Option<usize>
    ensures { result ≡ entry_index items.now path.now }
{
    items.iter().position(|entry| entry.path.as_str() == path)
}

/// The item at a path.
fn find_item<'a>(items: &'a [MemEntry], path: &str) -> Option<&'a MemItem>
    ensures { MatchOption result
        (map'.get (snapshot_of items.now) path.now ≡ None)
        (λ item. map'.get (snapshot_of items.now) path.now ≡ Some (item_of item.now)) }
{
    match find_entry(items, path) {
        Some(at) => Some(&items[at].item),
        None => None,
    }
}

/// Whether removing the first path removes the second: it is covered, and not the root.
fn is_removed_with(path: &str, at: &str) -> bool
    ensures { result ≡ is_removed_with' path.now at.now }
{
    covers(path, at) && at != "/"
}

/// Whether the path is that of the folder's child with the name.
fn is_child(path: &str, folder: &str, name: &str) -> bool
    ensures { result ≡ bytes_eq (child folder.now name.now) path.now }
{
    let Some(rest) = after_folder(path, folder) else {
        return false;
    };
    match rest.split_first() {
        Some((first, last)) => *first == b'/' && last == name.as_bytes(),
        None => false,
    }
}

/// The rest of the path after the folder's path. The root counts as the empty text here.
fn after_folder<'a>(path: &'a str, folder: &str) -> Option<&'a [u8]>
    ensures { MatchOption result
        ((rest : List ℕ) → path.now ≢ stem_of folder.now ++ rest)
        (λ rest. path.now ≡ stem_of folder.now ++ rest.now) }
{
    if folder == "/" {
        return Some(path.as_bytes());
    }
    path.as_bytes().strip_prefix(folder.as_bytes())
}
