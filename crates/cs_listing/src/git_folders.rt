// Where a repository keeps its own files, and which folder is the root of one, as git finds it: the
// files `.git` and `commondir` name folders, and `HEAD`, `objects` and `refs` are there.
ghost use Rattle.std.specs.Prelude.{◌≡◌, ◌++◌, codes, map, reverse, option_map, nat_eq, string_bytes, IfOk, OnOk};
ghost use Rattle.std.specs.List.{before_first};
ghost use Rattle.cs_listing.specs.GitFolders.{first_line as first_line', path_after as path_after', joined as joined', git_folder as git_folder', shared_folder as shared_folder', is_there as is_there', are_of_repository as are_of_repository', repository_at, repository_begun, repository_above as repository_above'};
ghost use Rattle.cs_listing.specs.Rules.{or_else};
ghost use Rattle.cs_listing.specs.FolderReads.{InTree, entry_path};
ghost use Rattle.cs_listing.specs.Entries.{repository_found, repository_folders};
ghost use Rattle.cs_listing.specs.PathNames.{names_along};
ghost use Rattle.cs_listing.specs.Unreadable.{unread_file, unread_repository, unseen, unseen_parts};
ghost use Rattle.cs_listing.specs.ReportsAll.{Notes};
ghost use Rattle.cs_listing.specs.Reading.{lent};

use crate::classes::begins_with;
use crate::entries::{FolderReader, child_path};
use crate::paths::path_names;
use crate::rule_lines::{before, without_last};
use cs_tree::Look;
use std::alloc::{AllocError, Global};
use std::str::from_utf8;

/// The folders of a repository's own files.
#[derive(Drop)]
pub(crate) struct GitFolders {
    /// `.git`, or the one that the file `.git` names, of a worktree or a submodule.
    own: String,
    /// The one that all worktrees share.
    pub(crate) shared: String,
}

/// A repository that was found.
#[derive(Drop)]
pub struct FoundRepository {
    /// The text before the slash in the paths of its root's entries, which is empty for `/`.
    pub root: String,
    /// `.git` there, or the folder that the file `.git` names, of a worktree or a submodule.
    pub git: String,
}

/// The path that a text names after a beginning.
fn path_after<'t>(beginning: &[u8], text: &'t [u8]) -> Option<&'t str>
    ensures { lent result ≡ path_after' beginning.now text.now }
{
    let line = first_line(text.strip_prefix(beginning)?);
    if line.is_empty() {
        return None;
    }
    match from_utf8(line) {
        Ok(path) => Some(path),
        Err(_) => None,
    }
}

/// The first line of a text.
fn first_line(text: &[u8]) -> &[u8]
    ensures { result.now ≡ first_line' text.now }
{
    without_last(b'\r', before(b'\n', text))
}

/// A path that may be relative to a folder.
fn joined(alloc: Global, folder: &str, path: &str) -> Result<String, AllocError>
    ensures { IfOk result (λ all. string_bytes all ≡ joined' folder.now path.now) }
{
    let mut all = String::new(alloc);
    if !begins_with(b'/', path.as_bytes()) {
        all.push_str(folder)?;
        all.push('/')?;
    }
    all.push_str(path)?;
    Ok(all)
}

/// The nearest repository at or above a folder.
pub fn repository_above<T: Look>(
    alloc: Global,
    tree: &mut T,
    folder: &str,
) -> Result<Option<FoundRepository>, AllocError>
    ensures nearest { IfOk result (λ found. InTree (T.snapshot tree.old)
        (λ items. option_map repository_found found
        ≡ repository_above' items (reverse (names_along folder.now)))) }
    ensures keeps { T.snapshot tree.new ≡ T.snapshot tree.old }
{
    let names = path_names(alloc, folder)?;
    nearest_repository(alloc, tree, &names)
}

/// The same of the folder that these names lead to from `/`.
fn nearest_repository<T: Look>(
    alloc: Global,
    tree: &mut T,
    names: &[String],
) -> Result<Option<FoundRepository>, AllocError>
    ensures nearest { IfOk result (λ found. InTree (T.snapshot tree.old)
        (λ items. option_map repository_found found
        ≡ repository_above' items (reverse (map string_bytes names.now)))) }
    ensures keeps { T.snapshot tree.new ≡ T.snapshot tree.old }
{
    let mut reader = FolderReader::new(alloc);
    let mut stem = String::new(alloc);
    let mut nearest = reader.repository_begun(tree, stem.as_str())?;
    'below: for name in names {
        stem = child_path(alloc, stem.as_str(), name.as_str())?;
        let found = reader.repository_begun(tree, stem.as_str())?;
        nearest = found_or(found, nearest);
    }
    Ok(nearest)
}

/// What is found, or else the other.
fn found_or(
    found: Option<FoundRepository>,
    other: Option<FoundRepository>,
) -> Option<FoundRepository>
    ensures { option_map repository_found result ≡ or_else (option_map repository_found found)
        (option_map repository_found other) }
{
    match found {
        Some(repository) => Some(repository),
        None => other,
    }
}

impl FolderReader {
    /// The repository that begins in a folder, if one does.
    fn repository_begun<T: Look>(
        &mut self,
        tree: &mut T,
        stem: &str,
    ) -> Result<Option<FoundRepository>, AllocError>
        ensures begun { IfOk result (λ found. InTree (T.snapshot tree.old)
            (λ items. option_map repository_found found ≡ repository_begun items stem.now)) }
        ensures keeps { T.snapshot tree.new ≡ T.snapshot tree.old }
    {
        let Some(folders) = self.repository(tree, stem)? else {
            return Ok(None);
        };
        let root = String::from_str(self.alloc, stem)?;
        let git = folders.own;
        Ok(Some(FoundRepository { root, git }))
    }

    /// The folders of the repository that begins in a folder, if one does.
    pub(crate) fn repository<T: Look>(
        &mut self,
        tree: &mut T,
        stem: &str,
    ) -> Result<Option<GitFolders>, AllocError>
        ensures folders { IfOk result (λ folders. InTree (T.snapshot tree.old)
            (λ items. option_map repository_folders folders ≡ repository_at items stem.now)) }
        ensures unread { OnOk result (Notes (T.snapshot tree.old) self.old self.new
            (λ items. unread_repository items stem.now)) }
        ensures keeps { T.snapshot tree.new ≡ T.snapshot tree.old }
    {
        let own = self.git_folder(tree, stem)?;
        let shared = self.shared_folder(tree, own.as_str())?;
        if self.are_of_repository(tree, own.as_str(), shared.as_str())? {
            return Ok(Some(GitFolders { own, shared }));
        }
        Ok(None)
    }

    /// Whether a git folder and its shared folder are those of a repository.
    fn are_of_repository<T: Look>(
        &mut self,
        tree: &mut T,
        own: &str,
        shared: &str,
    ) -> Result<bool, AllocError>
        ensures are { IfOk result (λ are. InTree (T.snapshot tree.old)
            (λ items. are ≡ are_of_repository' items own.now shared.now)) }
        ensures unread { OnOk result (Notes (T.snapshot tree.old) self.old self.new
            (λ items. unseen_parts items own.now shared.now)) }
        ensures keeps { T.snapshot tree.new ≡ T.snapshot tree.old }
    {
        let head = self.is_there(tree, own, "HEAD")?;
        let objects = self.is_there(tree, shared, "objects")?;
        let refs = self.is_there(tree, shared, "refs")?;
        Ok(head && objects && refs)
    }

    /// Whether something is below a folder. A look-up that is refused is noted.
    fn is_there<T: Look>(
        &mut self,
        tree: &mut T,
        folder: &str,
        name: &str,
    ) -> Result<bool, AllocError>
        ensures there { IfOk result (λ there. InTree (T.snapshot tree.old)
            (λ items. there ≡ is_there' items (entry_path folder.now name.now))) }
        ensures unread { OnOk result (Notes (T.snapshot tree.old) self.old self.new
            (λ items. unseen items (entry_path folder.now name.now))) }
        ensures keeps { T.snapshot tree.new ≡ T.snapshot tree.old }
    {
        let path = child_path(self.alloc, folder, name)?;
        let seen = self.look(tree, path.as_str())?;
        Ok(seen.is_some())
    }

    /// The git folder: `.git`, or the one that the file `.git` names, of a worktree or a submodule.
    fn git_folder<T: Look>(&mut self, tree: &mut T, stem: &str) -> Result<String, AllocError>
        ensures folder { IfOk result (λ folder. InTree (T.snapshot tree.old)
            (λ items. string_bytes folder ≡ git_folder' items stem.now)) }
        ensures unread { OnOk result (Notes (T.snapshot tree.old) self.old self.new
            (λ items. unread_file items (entry_path stem.now (codes ".git")))) }
        ensures keeps { T.snapshot tree.new ≡ T.snapshot tree.old }
    {
        let path = child_path(self.alloc, stem, ".git")?;
        let bytes = self.read(tree, path.as_str())?;
        match path_after(b"gitdir: ", &bytes) {
            Some(folder) => joined(self.alloc, stem, folder),
            None => Ok(path),
        }
    }

    /// The folder that all worktrees of a repository share: the one that the file `commondir` in
    /// its git folder names, or the git folder.
    fn shared_folder<T: Look>(&mut self, tree: &mut T, own: &str) -> Result<String, AllocError>
        ensures folder { IfOk result (λ shared. InTree (T.snapshot tree.old)
            (λ items. string_bytes shared ≡ shared_folder' items own.now)) }
        ensures unread { OnOk result (Notes (T.snapshot tree.old) self.old self.new
            (λ items. unread_file items (entry_path own.now (codes "commondir")))) }
        ensures keeps { T.snapshot tree.new ≡ T.snapshot tree.old }
    {
        let path = child_path(self.alloc, own, "commondir")?;
        let bytes = self.read(tree, path.as_str())?;
        match path_after(b"", &bytes) {
            Some(common) => joined(self.alloc, own, common),
            None => String::from_str(self.alloc, own),
        }
    }
}
