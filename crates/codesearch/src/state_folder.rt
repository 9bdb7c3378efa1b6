// Where the state of a project is kept.
//
// A project may be hostile, so nothing of another user is read or written: the folder `.git`, that
// of the state, and the state itself are the user's own, and no links, and nobody else may write to
// the last two. What a file `.git` names is not written to.

use crate::own_tree::user_of;
use cs_listing::repository_above;
use cs_storage::IndexPaths;
use cs_tree::Look;
use hex::encode;
use sha1::Sha1;
use std::alloc::{AllocError, Global};
use std::fs::{self, DirBuilder, Metadata};
use std::os::unix::fs::{DirBuilderExt, MetadataExt};

/// The mode of a folder that is made for a state.
const PRIVATE: u32 = 0o700;

/// The owner may write.
const OWNER_WRITES: u32 = 0o200;

/// Others may write.
const OTHERS_WRITE: u32 = 0o022;

/// A folder for the state of a project.
#[derive(Drop)]
pub(crate) struct StateFolder {
    path: String,
    /// Whether others may write to the state there, which then counts as none.
    pub(crate) is_shared: bool,
}

/// The project of a folder.
#[derive(Drop)]
pub(crate) struct Project {
    /// The path of its folder. It is empty for `/`, so that it stands before the names of the
    /// project.
    pub(crate) root: String,
    pub(crate) is_repository: bool,
}

impl Project {
    /// The nearest repository, or else the folder itself.
    pub(crate) fn above<T: Look>(
        alloc: Global,
        tree: &mut T,
        folder: &str,
    ) -> Result<Project, AllocError> {
        let found = repository_above(alloc, tree, folder)?;
        let is_repository = found.is_some();
        let root = match found {
            Some(found) => found.root,
            None if folder == "/" => String::new(alloc),
            None => String::from_str(alloc, folder)?,
        };
        Ok(Project {
            root,
            is_repository,
        })
    }
}

impl StateFolder {
    /// The folders for the state of a project, the best first: a folder in `.git`, and one in the
    /// folder for caches, if there is one.
    pub(crate) fn of_project(
        rt: &HostRuntime,
        root: &str,
        cache: Option<&str>,
    ) -> Result<Vec<StateFolder>, AllocError> {
        let alloc = rt.alloc();
        let mut folders = Vec::new(alloc);
        let Some(user) = user_of(rt) else {
            return Ok(folders);
        };
        let git = format!(in alloc; "{root}/.git")?;
        if is_own_folder(rt, git.as_str(), user) {
            let folder = format!(in alloc; "{root}/.git/codesearch")?;
            add_folder(rt, folder, user, &mut folders)?;
        }
        if let Some(cache) = cache {
            let digest = encode(alloc, Sha1::digest(root.as_bytes()).as_slice())?;
            let digest = digest.as_str();
            let above = format!(in alloc; "{cache}/codesearch")?;
            if is_free(rt, above.as_str(), user) {
                let folder = format!(in alloc; "{cache}/codesearch/{digest}")?;
                add_folder(rt, folder, user, &mut folders)?;
            }
        }
        Ok(folders)
    }

    /// The paths of the state file.
    pub(crate) fn paths(&self, alloc: Global) -> Result<IndexPaths, AllocError> {
        let folder = self.path.as_str();
        let file = format!(in alloc; "{folder}/state")?;
        IndexPaths::of_file(alloc, file.as_str())
    }

    /// Whether there is neither a state nor one that a run makes.
    pub(crate) fn is_empty(&self, rt: &HostRuntime) -> Result<bool, AllocError> {
        let folder = self.path.as_str();
        let file = format!(in rt.alloc(); "{folder}/state")?;
        let temp = format!(in rt.alloc(); "{folder}/state~")?;
        Ok(!is_there(rt, file.as_str()) && !is_there(rt, temp.as_str()))
    }

    /// Takes away a state that others may write to.
    pub(crate) fn remove_shared(&self, rt: &HostRuntime) -> Result<(), AllocError> {
        if self.is_shared {
            let folder = self.path.as_str();
            let file = format!(in rt.alloc(); "{folder}/state")?;
            let _ = fs::remove_file(rt, file.as_str());
        }
        Ok(())
    }

    /// Makes the folder, if it is not there. Whether that works shows when the file is made.
    pub(crate) fn make(&self, rt: &HostRuntime) {
        let mut maker = DirBuilder::new();
        maker.recursive(true);
        maker.mode(PRIVATE);
        let _ = maker.create(rt, self.path.as_str());
    }
}

/// Adds a folder, if it is missing or the user's own, and so is the state file in it. Others may
/// not write to the folder.
fn add_folder(
    rt: &HostRuntime,
    folder: String,
    user: u32,
    folders: &mut Vec<StateFolder>,
) -> Result<(), AllocError> {
    let path = folder.as_str();
    let file = format!(in rt.alloc(); "{path}/state")?;
    if !is_free(rt, path, user) || !is_own_file(rt, file.as_str(), user) {
        return Ok(());
    }
    let is_shared = fs::symlink_metadata(rt, file.as_str()).is_ok_and(|there| is_shared(&there));
    folders.push(StateFolder {
        path: folder,
        is_shared,
    })?;
    Ok(())
}

/// Whether there is anything at a path, as far as can be seen.
fn is_there(rt: &HostRuntime, path: &str) -> bool {
    fs::symlink_metadata(rt, path).is_ok()
}

/// Whether others may write there.
fn is_shared(there: &Metadata) -> bool {
    there.mode() & OTHERS_WRITE != 0
}

/// What is at a path, if it is no link and the user's own.
pub(crate) fn own_item(rt: &HostRuntime, path: &str, user: u32) -> Option<Metadata> {
    let there = fs::symlink_metadata(rt, path).ok()?;
    if there.uid() == user {
        Some(there)
    } else {
        None
    }
}

/// Whether the user has a folder there, and may write to it.
fn is_own_folder(rt: &HostRuntime, path: &str, user: u32) -> bool {
    own_item(rt, path, user).is_some_and(|there| there.is_dir() && there.mode() & OWNER_WRITES != 0)
}

/// Whether the user has a folder there that nobody else may write to, or nothing is there.
pub(crate) fn is_free(rt: &HostRuntime, path: &str, user: u32) -> bool {
    match fs::symlink_metadata(rt, path) {
        Ok(there) => is_own_folder(rt, path, user) && !is_shared(&there),
        Err(_) => true,
    }
}

/// Whether the user has a regular file there, or nothing is there.
fn is_own_file(rt: &HostRuntime, path: &str, user: u32) -> bool {
    fs::symlink_metadata(rt, path).is_err()
        || own_item(rt, path, user).is_some_and(|there| there.is_file())
}
