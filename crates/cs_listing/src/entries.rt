// Reading a folder: what it lists, its rule files, and which of its entries are taken.
ghost use Rattle.std.specs.Prelude.{◌≡◌, ◌≤◌, ◌<◌, ◌+◌, nat_lt, unwrap_or, ◌∷◌, ◌++◌, [], true, false, reverse, map, length, option_map, is_some, if◌then◌else◌, ◌&&◌, codes, string_bytes, IfOk, IfSome, OnOk};
ghost use Rattle.std.specs.Option.{option_to_list};
ghost use Rattle.std.specs.List.{All, Contains};
ghost use Rattle.cs_tree.specs.Elements.{are_elements};
ghost use Rattle.cs_tree.specs.Folders.{names_listed};
ghost use Rattle.cs_tree.specs.NamesAscending.{are_ascending};
ghost use Rattle.cs_tree.specs.Looks.{kind_seen};
ghost use Rattle.cs_tree.specs.Elements.{is_among};
ghost use Rattle.cs_listing.specs.Models.{names, names_in, folder_of, folders_in, IsInDeepest};
ghost use Rattle.cs_listing.specs.Layers.{is_left_out, last_name};
ghost use Rattle.cs_listing.specs.GitFolders.{bytes_of_item, is_there, root_at};
ghost use Rattle.cs_listing.specs.Listing.{exclude_bytes, bytes_within, name_there, names_there, rule_names};
ghost use Rattle.cs_listing.specs.FolderReads.{InTree, folder_path as folder_path', entry_path, bytes_among as bytes_among', rule_files_read, folder_read, out_by, kind_at, taken_as, key_of, key_taken, keys_taken};
ghost use Rattle.cs_listing.specs.Unreadable.{is_unlisted, unread_file, unread_within, unread_among, unread_exclude, unread_root, unread_files, unread_rules, only_if, unseen, unseen_entry, unseen_entries};
ghost use Rattle.cs_listing.specs.ReportsAll.{paths_noted, Notes, unlisted_path};
ghost use Rattle.cs_listing.specs.RuleTexts.{bytes_of_texts, folder_of_texts};
ghost use Rattle.cs_listing.specs.SettingReads.{bytes_if};
ghost use Rattle.cs_listing.specs.Stamps.{InStamps, IsFileKey, IsStamped};
ghost use Rattle.cs_listing.specs.Entries.{names_for_rules, repository_folders, taken_folder, entry_key, entry_keys, left_out_by, AreKeysOf, IsNameOf};

use crate::fault::{ListFault, Unread};
use crate::git_folders::GitFolders;
use crate::layers::{FolderRules, Layers, RuleTexts};
use crate::whole_files::WholeFile;
use cs_tree::{Kind, LONGEST_PATH, Look, Seen, Stamp, Steps, TreeFault};
use std::alloc::{AllocError, Global};

/// An entry that is still to come.
#[derive(Drop)]
pub(crate) struct Entry {
    /// The name, and a slash after that of a folder, so that the order of entries is that of the
    /// paths below them.
    pub(crate) key: String,
    pub(crate) stamp: Option<Stamp>,
}

/// How an entry is taken.
#[derive(Clone, Copy)]
struct Taken {
    is_folder: bool,
    stamp: Option<Stamp>,
}

impl Entry {
    /// The name, without the slash.
    pub(crate) fn name(&self) -> &str
        ensures name { IsNameOf (entry_key self.now) result.now }
        ensures file { length result.now ≡ length (entry_key self.now) →
            (result.now ≡ entry_key self.now) × IsFileKey (entry_key self.now) }
    {
        self.key.strip_suffix('/').unwrap_or(self.key.as_str())
    }
}

/// A folder whose entries are read: its rule files and those of the folders above, and the text
/// before the slash in the paths of its entries, which is empty for `/`.
#[derive(Clone, Copy)]
pub(crate) struct Place<'a> {
    pub(crate) layers: &'a Layers<'a>,
    pub(crate) stem: &'a str,
}

/// What a folder lists.
#[derive(Drop)]
pub(crate) struct FolderNames {
    pub(crate) names: Vec<String>,
    /// If the folder cannot be listed, the names of its files for rules that are there.
    there: Option<Vec<String>>,
    /// Why the folder, or the name of one of its entries, cannot be read.
    pub(crate) fault: Option<ListFault>,
}

impl FolderNames {
    /// Whether the folder has a file for rules with this name.
    fn may_have(&self, name: &str) -> bool
        ensures { result ≡ is_among (names_for_rules self.now) name.now }
    {
        match &self.there {
            Some(names) => is_listed(names, name),
            None => is_listed(&self.names, name),
        }
    }
}

/// Reads folders and their rule files, and notes what cannot be read.
#[derive(Drop)]
pub(crate) struct FolderReader {
    pub(crate) alloc: Global,
    pub(crate) unread: Vec<Unread>,
}

/// The path of an entry.
pub(crate) fn child_path(alloc: Global, stem: &str, name: &str) -> Result<String, AllocError>
    ensures { IfOk result (λ path. string_bytes path ≡ entry_path stem.now name.now) }
{
    let mut path = String::with_capacity(alloc, stem.len() + 1 + name.len())?;
    set_child_path(&mut path, stem, name)?;
    Ok(path)
}

/// Makes a text the path of an entry. It keeps its room, so that the next one allocates nothing.
fn set_child_path(path: &mut String, stem: &str, name: &str) -> Result<(), AllocError>
    ensures { OnOk result (string_bytes path.new ≡ entry_path stem.now name.now) }
{
    path.clear();
    path.push_str(stem)?;
    path.push('/')?;
    path.push_str(name)
}

/// The path of a folder.
fn folder_path(stem: &str) -> &str
    ensures { result.now ≡ folder_path' stem.now }
{
    if stem.is_empty() { "/" } else { stem }
}

/// The length of a rule file that may not be there.
fn length_of(bytes: &Option<Vec<u8>>) -> usize
    ensures { result ≡ length (unwrap_or (bytes_if bytes.now) []) }
{
    match bytes {
        Some(bytes) => bytes.len(),
        None => 0,
    }
}

/// Whether the name is among these.
fn is_listed(names: &[String], name: &str) -> bool
    ensures { result ≡ is_among (map string_bytes names.now) name.now }
{
    names.iter().any(|one| one.as_str() == name)
}

/// Whether something is at a path. What cannot be looked up is not there.
fn is_seen<T: Look>(tree: &mut T, path: &str) -> Result<bool, AllocError>
    ensures seen { IfOk result (λ seen. InTree (T.snapshot tree.old)
        (λ items. seen ≡ is_there items path.now)) }
    ensures keeps { T.snapshot tree.new ≡ T.snapshot tree.old }
{
    if LONGEST_PATH < path.len() {
        return Ok(false);
    }
    match tree.look(path) {
        Ok(_) => Ok(true),
        Err(TreeFault::Memory) => Err(AllocError),
        Err(_) => Ok(false),
    }
}

/// Adds the entry, if there is one.
fn push_if_some(entries: &mut Vec<Entry>, entry: Option<Entry>) -> Result<(), AllocError>
    ensures { OnOk result (entries.new.items ≡ entries.old.items ++ option_to_list entry) }
{
    if let Some(entry) = entry {
        entries.push(entry)?;
    }
    Ok(())
}

/// Sorts the entries so that the first one is last, and keeps one for each key.
fn order_entries(entries: &mut Vec<Entry>)
    ensures ascend { are_ascending (map entry_key (reverse entries.new.items)) ≡ true }
    ensures same { AreKeysOf (map entry_key (reverse entries.new.items)) (map entry_key entries.old.items) }
    ensures members { All (Contains entries.old.items) entries.new.items }
{
    entries.sort_unstable_by(|a, b| a.key.cmp(&b.key));
    entries.dedup_by(|a, b| a.key == b.key);
    entries.reverse();
}

/// Whether an entry is left out as what it is, if one knows whether it is left out as a file.
fn is_out(layers: &Layers<'_>, path: &[&[u8]], is_folder: bool, file_is_out: bool) -> bool
    requires deepest { IsInDeepest layers.now path.now }
    requires file { file_is_out ≡ left_out_by layers.now path.now false }
    ensures { result ≡ left_out_by layers.now path.now is_folder }
{
    if is_folder {
        layers.is_left_out(path, true, &mut Steps::new())
    } else {
        file_is_out
    }
}

impl FolderReader {
    pub(crate) fn new(alloc: Global) -> FolderReader
        ensures { paths_noted result ≡ [] }
    {
        FolderReader {
            alloc,
            unread: Vec::new(alloc),
        }
    }

    /// Notes that a path could not be read.
    pub(crate) fn note(&mut self, path: &str, fault: ListFault) -> Result<(), AllocError>
        ensures { OnOk result (paths_noted self.new ≡ paths_noted self.old ++ path.now ∷ []) }
    {
        let path = String::from_str(self.alloc, path)?;
        self.unread.push(Unread { path, fault })?;
        Ok(())
    }

    /// What a folder lists: no names if it cannot be listed.
    pub(crate) fn list<T: Look>(&self, tree: &mut T, stem: &str) -> Result<FolderNames, AllocError>
        ensures names { IfOk result (λ listed. are_elements (map string_bytes listed.names.items) ≡ true) }
        ensures listed { IfOk result (λ listed. InTree (T.snapshot tree.old)
            (λ items. map string_bytes listed.names.items ≡ names_listed (items (folder_path' stem.now)))) }
        ensures rules { IfOk result (λ listed. InTree (T.snapshot tree.old)
            (λ items. names_for_rules listed ≡ rule_names items stem.now (items (folder_path' stem.now)))) }
        ensures fault { IfOk result (λ listed. InTree (T.snapshot tree.old)
            (λ items. is_some listed.fault ≡ is_unlisted (items (folder_path' stem.now)))) }
        ensures keeps { T.snapshot tree.new ≡ T.snapshot tree.old }
    {
        match tree.entries(self.alloc, folder_path(stem)) {
            Ok(listing) => Ok(FolderNames {
                names: listing.names,
                there: None,
                fault: if listing.unnamed {
                    Some(ListFault::Unnamed)
                } else {
                    None
                },
            }),
            Err(TreeFault::Memory) => Err(AllocError),
            Err(fault) => self.unlisted(tree, stem, fault),
        }
    }

    /// A folder that cannot be listed.
    fn unlisted<T: Look>(
        &self,
        tree: &mut T,
        stem: &str,
        fault: TreeFault,
    ) -> Result<FolderNames, AllocError>
        ensures names { IfOk result (λ listed. listed.names.items ≡ []) }
        ensures rules { IfOk result (λ listed. InTree (T.snapshot tree.old)
            (λ items. names_for_rules listed ≡ names_there items stem.now)) }
        ensures fault { IfOk result (λ listed. listed.fault ≡ Some (ListFault.Tree fault)) }
        ensures keeps { T.snapshot tree.new ≡ T.snapshot tree.old }
    {
        let mut there = Vec::new(self.alloc);
        self.add_if_there(tree, stem, ".ignore", &mut there)?;
        self.add_if_there(tree, stem, ".gitignore", &mut there)?;
        self.add_if_there(tree, stem, ".git", &mut there)?;
        Ok(FolderNames {
            names: Vec::new(self.alloc),
            there: Some(there),
            fault: Some(ListFault::Tree(fault)),
        })
    }

    /// Adds the name of a file, if something is there.
    fn add_if_there<T: Look>(
        &self,
        tree: &mut T,
        stem: &str,
        name: &str,
        there: &mut Vec<String>,
    ) -> Result<(), AllocError>
        ensures added { OnOk result (InTree (T.snapshot tree.old) (λ items. map string_bytes there.new.items
            ≡ map string_bytes there.old.items ++ name_there items stem.now name.now)) }
        ensures keeps { T.snapshot tree.new ≡ T.snapshot tree.old }
    {
        let path = child_path(self.alloc, stem, name)?;
        if is_seen(tree, path.as_str())? {
            there.push(String::from_str(self.alloc, name)?)?;
        }
        Ok(())
    }

    /// Notes what of a folder could not be listed.
    pub(crate) fn note_listed(&mut self, stem: &str, listed: &FolderNames) -> Result<(), AllocError>
        ensures { OnOk result
            (paths_noted self.new ≡ paths_noted self.old ++ unlisted_path stem.now listed.now) }
    {
        if let Some(fault) = listed.fault {
            self.note(folder_path(stem), fault)?;
        }
        Ok(())
    }

    /// The folder of this name, within what is left of the limit of rule files. Without, none is
    /// read.
    pub(crate) fn folder<T: Look>(
        &mut self,
        tree: &mut T,
        stem: &str,
        listed: &FolderNames,
        name: String,
        room: Option<usize>,
    ) -> Result<FolderRules, AllocError>
        ensures folder { IfOk result (λ folder. InTree (T.snapshot tree.old) (λ items.
            folder_of folder ≡ folder_read room items stem.now (names_for_rules listed.now))) }
        ensures name { IfOk result (λ folder. folder.name ≡ name) }
        ensures unread { OnOk result (Notes (T.snapshot tree.old) self.old self.new
            (λ items. unread_rules room items stem.now (names_for_rules listed.now))) }
        ensures keeps { T.snapshot tree.new ≡ T.snapshot tree.old }
    {
        let repository = self.root(tree, stem, listed)?;
        let Some(room) = room else {
            let is_root = repository.is_some();
            return Ok(FolderRules::without_rules(self.alloc, name, is_root));
        };
        let texts = self.texts(tree, stem, listed, repository, room)?;
        FolderRules::parse(self.alloc, name, &texts)
    }

    /// The folders of the repository that begins in a folder, if one does.
    fn root<T: Look>(
        &mut self,
        tree: &mut T,
        stem: &str,
        listed: &FolderNames,
    ) -> Result<Option<GitFolders>, AllocError>
        ensures root { IfOk result (λ folders. InTree (T.snapshot tree.old) (λ items.
            option_map repository_folders folders ≡ root_at items stem.now (names_for_rules listed.now))) }
        ensures unread { OnOk result (Notes (T.snapshot tree.old) self.old self.new
            (λ items. unread_root items stem.now (names_for_rules listed.now))) }
        ensures keeps { T.snapshot tree.new ≡ T.snapshot tree.old }
    {
        if !listed.may_have(".git") {
            return Ok(None);
        }
        self.repository(tree, stem)
    }

    /// The rule files of a folder in which this repository begins, if one does, within what is left
    /// of the limit.
    fn texts<T: Look>(
        &mut self,
        tree: &mut T,
        stem: &str,
        listed: &FolderNames,
        repository: Option<GitFolders>,
        room: usize,
    ) -> Result<RuleTexts, AllocError>
        ensures texts { IfOk result (λ texts. InTree (T.snapshot tree.old) (λ items. folder_of_texts texts
            ≡ rule_files_read room items stem.now (names_for_rules listed.now)
            (option_map repository_folders repository))) }
        ensures bytes { IfOk result (λ texts. texts.bytes ≡ bytes_of_texts texts) }
        ensures unread { OnOk result (Notes (T.snapshot tree.old) self.old self.new
            (λ items. unread_files room items stem.now (names_for_rules listed.now)
            (option_map repository_folders repository))) }
        ensures keeps { T.snapshot tree.new ≡ T.snapshot tree.old }
    {
        let ignore = self.bytes_among(tree, stem, listed, ".ignore", room)?;
        let rest = room - ignore.len();
        let gitignore = self.bytes_among(tree, stem, listed, ".gitignore", rest)?;
        let last = rest - gitignore.len();
        let exclude = self.exclude(tree, repository, last)?;
        let bytes = room - last + length_of(&exclude);
        Ok(RuleTexts {
            ignore,
            gitignore,
            exclude,
            bytes,
        })
    }

    /// The bytes of the file with this name, if it is looked up.
    fn bytes_among<T: Look>(
        &mut self,
        tree: &mut T,
        stem: &str,
        listed: &FolderNames,
        name: &str,
        room: usize,
    ) -> Result<Vec<u8>, AllocError>
        ensures bytes { IfOk result (λ bytes. InTree (T.snapshot tree.old) (λ items.
            bytes.items ≡ bytes_within room
            (bytes_among' items stem.now (names_for_rules listed.now) name.now))) }
        ensures within { IfOk result (λ bytes. length bytes.items ≤ room) }
        ensures unread { OnOk result (Notes (T.snapshot tree.old) self.old self.new
            (λ items. unread_among room items stem.now (names_for_rules listed.now) name.now)) }
        ensures keeps { T.snapshot tree.new ≡ T.snapshot tree.old }
    {
        if !listed.may_have(name) {
            return Ok(Vec::new(self.alloc));
        }
        let path = child_path(self.alloc, stem, name)?;
        let bytes = self.read(tree, path.as_str())?;
        self.fitting(path.as_str(), bytes, room)
    }

    /// The bytes of the rules that a repository has for itself.
    fn exclude<T: Look>(
        &mut self,
        tree: &mut T,
        repository: Option<GitFolders>,
        room: usize,
    ) -> Result<Option<Vec<u8>>, AllocError>
        ensures bytes { IfOk result (λ exclude. InTree (T.snapshot tree.old) (λ items. bytes_if exclude
            ≡ option_map (bytes_within room)
            (option_map (exclude_bytes items) (option_map repository_folders repository)))) }
        ensures within { IfOk result (λ exclude. length (unwrap_or (bytes_if exclude) []) ≤ room) }
        ensures unread { OnOk result (Notes (T.snapshot tree.old) self.old self.new
            (λ items. unread_exclude room items (option_map repository_folders repository))) }
        ensures keeps { T.snapshot tree.new ≡ T.snapshot tree.old }
    {
        let Some(folders) = repository else {
            return Ok(None);
        };
        let bytes = self.bytes_linked(tree, folders.shared.as_str(), "info/exclude", room)?;
        Ok(Some(bytes))
    }

    /// The bytes of a file below a folder, within what is left of the limit. A link is followed.
    fn bytes_linked<T: Look>(
        &mut self,
        tree: &mut T,
        stem: &str,
        name: &str,
        room: usize,
    ) -> Result<Vec<u8>, AllocError>
        ensures bytes { IfOk result (λ bytes. InTree (T.snapshot tree.old) (λ items.
            bytes.items ≡ bytes_within room (bytes_of_item (items (entry_path stem.now name.now))))) }
        ensures within { IfOk result (λ bytes. length bytes.items ≤ room) }
        ensures unread { OnOk result (Notes (T.snapshot tree.old) self.old self.new
            (λ items. unread_within room items (entry_path stem.now name.now))) }
        ensures keeps { T.snapshot tree.new ≡ T.snapshot tree.old }
    {
        let path = child_path(self.alloc, stem, name)?;
        let bytes = self.read_linked(tree, path.as_str())?;
        self.fitting(path.as_str(), bytes, room)
    }

    /// The bytes of a rule file if they are within what is left of the limit. Else that is noted.
    fn fitting(&mut self, path: &str, bytes: Vec<u8>, room: usize) -> Result<Vec<u8>, AllocError>
        ensures bytes { IfOk result (λ fitting. fitting.items ≡ bytes_within room bytes.items) }
        ensures within { IfOk result (λ fitting. length fitting.items ≤ room) }
        ensures unread { OnOk result (paths_noted self.new
            ≡ paths_noted self.old ++ only_if (nat_lt room (length bytes.items)) path.now) }
    {
        if bytes.len() > room {
            self.note(path, ListFault::ManyRules)?;
            return Ok(Vec::new(self.alloc));
        }
        Ok(bytes)
    }

    /// The bytes of a file. What cannot be read is noted.
    pub(crate) fn read<T: Look>(&mut self, tree: &mut T, path: &str) -> Result<Vec<u8>, AllocError>
        ensures bytes { IfOk result (λ bytes. InTree (T.snapshot tree.old)
            (λ items. bytes.items ≡ bytes_of_item (items path.now))) }
        ensures unread { OnOk result (Notes (T.snapshot tree.old) self.old self.new
            (λ items. unread_file items path.now)) }
        ensures keeps { T.snapshot tree.new ≡ T.snapshot tree.old }
    {
        let read = WholeFile::read(self.alloc, tree, path)?;
        self.bytes(path, read)
    }

    /// The same, but a link is followed to a file. In a snapshot a link has no bytes.
    pub(crate) fn read_linked<T: Look>(
        &mut self,
        tree: &mut T,
        path: &str,
    ) -> Result<Vec<u8>, AllocError>
        ensures bytes { IfOk result (λ bytes. InTree (T.snapshot tree.old)
            (λ items. bytes.items ≡ bytes_of_item (items path.now))) }
        ensures unread { OnOk result (Notes (T.snapshot tree.old) self.old self.new
            (λ items. unread_file items path.now)) }
        ensures keeps { T.snapshot tree.new ≡ T.snapshot tree.old }
    {
        let read = WholeFile::read_linked(self.alloc, tree, path)?;
        self.bytes(path, read)
    }

    /// The bytes that were read. Why a file has none is noted.
    fn bytes(&mut self, path: &str, read: WholeFile) -> Result<Vec<u8>, AllocError>
        ensures bytes { IfOk result (λ bytes. bytes.items ≡ read.bytes.items) }
        ensures unread { OnOk result (paths_noted self.new
            ≡ paths_noted self.old ++ only_if (is_some read.fault) path.now) }
    {
        if let Some(fault) = read.fault {
            self.note(path, fault)?;
        }
        Ok(read.bytes)
    }

    /// The entries of the folder that are taken, the first one last.
    pub(crate) fn entries<T: Look>(
        &mut self,
        tree: &mut T,
        place: &Place<'_>,
        names: &[String],
    ) -> Result<Vec<Entry>, AllocError>
        requires { 0 < length (folders_in place.now.layers.now) }
        ensures taken { IfOk result (λ entries. InTree (T.snapshot tree.old)
            (λ items. AreKeysOf (entry_keys entries.items)
            (keys_taken place.now.layers.now items place.now.stem.now (map string_bytes names.now)))) }
        ensures ascend { IfOk result (λ entries. are_ascending (entry_keys entries.items) ≡ true) }
        ensures stamps { IfOk result (λ entries. InStamps (T.snapshot tree.old) T.stamps
            (λ stamps. All (IsStamped stamps place.now.stem.now) entries.items)) }
        ensures unread { OnOk result (Notes (T.snapshot tree.old) self.old self.new
            (λ items. unseen_entries (out_by place.now.layers.now) items place.now.stem.now
            (map string_bytes names.now))) }
        ensures keeps { T.snapshot tree.new ≡ T.snapshot tree.old }
    {
        let mut path = place.layers.names(self.alloc)?;
        let mut at = String::new(self.alloc);
        let mut entries = Vec::new(self.alloc);
        'names: for name in names {
            let entry = self.entry(tree, place, &mut path, &mut at, name.as_str())?;
            push_if_some(&mut entries, entry)?;
        }
        order_entries(&mut entries);
        Ok(entries)
    }

    /// The entry with this name, if it is taken. The path is that of the folder, and the text is
    /// room for that of the entry.
    fn entry<'n, T: Look>(
        &mut self,
        tree: &mut T,
        place: &Place<'_>,
        path: &mut Vec<&'n [u8]>,
        at: &mut String,
        name: &'n str,
    ) -> Result<Option<Entry>, AllocError>
        requires deepest { length (folders_in place.now.layers.now) ≡ length path.old.items + 1 }
        requires path { names path.old.items ≡ names_in place.now.layers.now }
        ensures key { IfOk result (λ entry. InTree (T.snapshot tree.old) (λ items. option_map entry_key entry
            ≡ key_taken place.now.layers.now items place.now.stem.now name.now)) }
        ensures stamp { IfOk result (λ entry. IfSome entry (λ entry. InStamps (T.snapshot tree.old) T.stamps
            (λ stamps. IsStamped stamps place.now.stem.now entry))) }
        ensures path { OnOk result (names path.new.items ≡ names_in place.now.layers.now) }
        ensures unread { OnOk result (Notes (T.snapshot tree.old) self.old self.new
            (λ items. unseen_entry (out_by place.now.layers.now) items place.now.stem.now name.now)) }
        ensures keeps { T.snapshot tree.new ≡ T.snapshot tree.old }
    {
        path.push(name.as_bytes())?;
        set_child_path(at, place.stem, name)?;
        let taken = self.taken(tree, place.layers, path, at.as_str())?;
        path.pop();
        let Some(taken) = taken else {
            return Ok(None);
        };
        let mut key = String::from_str(self.alloc, name)?;
        if taken.is_folder {
            key.push('/')?;
        }
        Ok(Some(Entry {
            key,
            stamp: taken.stamp,
        }))
    }

    /// How the entry is taken that has this path, given by its elements and as a text.
    fn taken<T: Look>(
        &mut self,
        tree: &mut T,
        layers: &Layers<'_>,
        path: &[&[u8]],
        at: &str,
    ) -> Result<Option<Taken>, AllocError>
        requires { IsInDeepest layers.now path.now }
        ensures taken { IfOk result (λ taken. InTree (T.snapshot tree.old)
            (λ items. option_map taken_folder taken
            ≡ taken_as (left_out_by layers.now path.now) (kind_at items at.now))) }
        ensures stamp { IfOk result (λ taken. IfSome taken (λ taken. InStamps (T.snapshot tree.old) T.stamps
            (λ stamps. taken.stamp ≡ stamps at.now))) }
        ensures unread { OnOk result (Notes (T.snapshot tree.old) self.old self.new
            (λ items. if left_out_by layers.now path.now false && left_out_by layers.now path.now true then []
            else unseen items at.now)) }
        ensures keeps { T.snapshot tree.new ≡ T.snapshot tree.old }
    {
        let file_is_out = layers.is_left_out(path, false, &mut Steps::new());
        if file_is_out && layers.is_left_out(path, true, &mut Steps::new()) {
            return Ok(None);
        }
        let Some(seen) = self.look(tree, at)? else {
            return Ok(None);
        };
        let is_folder = match seen.kind {
            Kind::Folder => true,
            Kind::File => false,
            Kind::Other => return Ok(None),
        };
        if is_out(layers, path, is_folder, file_is_out) {
            return Ok(None);
        }
        Ok(Some(Taken {
            is_folder,
            stamp: seen.stamp,
        }))
    }

    /// What is at a path. What is gone by now is not noted.
    #[inline(always)]
    pub(crate) fn look<T: Look>(
        &mut self,
        tree: &mut T,
        path: &str,
    ) -> Result<Option<Seen>, AllocError>
        ensures seen { IfOk result (λ seen. InTree (T.snapshot tree.old)
            (λ items. option_map kind_seen seen ≡ kind_at items path.now)) }
        ensures stamp { IfOk result (λ seen. IfSome seen (λ seen. InStamps (T.snapshot tree.old) T.stamps
            (λ stamps. seen.stamp ≡ stamps path.now))) }
        ensures unread { OnOk result (Notes (T.snapshot tree.old) self.old self.new
            (λ items. unseen items path.now)) }
        ensures keeps { T.snapshot tree.new ≡ T.snapshot tree.old }
    {
        if path.len() > LONGEST_PATH {
            self.note(path, ListFault::LongPath)?;
            return Ok(None);
        }
        match tree.look(path) {
            Ok(seen) => Ok(Some(seen)),
            Err(TreeFault::Memory) => Err(AllocError),
            Err(TreeFault::Missing) => Ok(None),
            Err(fault) => {
                self.note(path, ListFault::Tree(fault))?;
                Ok(None)
            }
        }
    }
}
