// The paths of the index file and of FILE~.
use crate::folder::StorageFault;
use cs_tree::{covers, is_absolute};
use std::alloc::{AllocError, Global};
use std::env::{self, VarError};
use std::fs;
use std::path::Path;

/// The maximum number of links from FILE on, as in Linux.
const MOST_LINKS: usize = 40;

/// The names of the index file.
#[derive(Drop)]
pub struct IndexPaths {
    /// What the environment names, for an error line.
    pub name: String,
    /// The path of FILE~.
    pub temp: String,
    /// The path of FILE, which is no link; an error if there is none.
    file: Result<String, StorageFault>,
}

impl IndexPaths {
    /// The index file that the environment names, or if that is a link, the file that it leads to.
    #[inline(never)]
    pub fn of_environment(rt: &HostRuntime) -> Result<IndexPaths, AllocError> {
        let name = match index_file_name(rt) {
            Ok(name) => name,
            Err(fault) => return IndexPaths::unusable(rt, "CSEARCHINDEX", fault),
        };
        match follow_links(rt, name.as_str()) {
            Ok(file) => Ok(IndexPaths {
                name,
                temp: format!(in rt.alloc(); "{file}~")?,
                file: Ok(file),
            }),
            Err(fault) => IndexPaths::unusable(rt, name.as_str(), fault),
        }
    }

    /// A file with this path. It is for a path that leads through no link that another user made.
    pub fn of_file(alloc: Global, file: &str) -> Result<IndexPaths, AllocError> {
        Ok(IndexPaths {
            name: String::from_str(alloc, file)?,
            temp: format!(in alloc; "{file}~")?,
            file: Ok(String::from_str(alloc, file)?),
        })
    }

    fn unusable(
        rt: &HostRuntime,
        name: &str,
        fault: StorageFault,
    ) -> Result<IndexPaths, AllocError> {
        Ok(IndexPaths {
            name: String::from_str(rt.alloc(), name)?,
            temp: String::new(rt.alloc()),
            file: Err(fault),
        })
    }

    /// The path of FILE.
    pub(crate) fn file(&self) -> Result<&str, StorageFault> {
        match &self.file {
            Ok(file) => Ok(file.as_str()),
            Err(fault) => Err(*fault),
        }
    }
}

/// The name of the index file: the value of `CSEARCHINDEX`, or if that is unset or empty
/// `.csearchindex` in the folder that `HOME` names.
fn index_file_name(rt: &HostRuntime) -> Result<String, StorageFault> {
    let mut file = variable(rt, "CSEARCHINDEX")?;
    if file.is_empty() {
        file = variable(rt, "HOME")?;
        file.push_str("/.csearchindex")?;
    }
    Ok(file)
}

/// The value of an environment variable; empty if it is not set.
fn variable(rt: &HostRuntime, name: &str) -> Result<String, StorageFault> {
    match env::var(rt, name) {
        Ok(value) => Ok(value),
        Err(VarError::NotPresent) => Ok(String::new(rt.alloc())),
        Err(VarError::NotUnicode) => Err(StorageFault::Failed),
        Err(VarError::OutOfMemory) => Err(StorageFault::Memory),
    }
}

/// The path that a path leads to, if it is a link, and the path itself otherwise.
fn follow_links(rt: &HostRuntime, name: &str) -> Result<String, StorageFault> {
    let mut path = String::from_str(rt.alloc(), name)?;
    for _ in 0..MOST_LINKS {
        match fs::symlink_metadata(rt, path.as_str()) {
            Ok(there) if there.is_symlink() => path = target_of(rt, path.as_str())?,
            _ => return Ok(path),
        }
    }
    Err(StorageFault::Failed)
}

/// The path that a link leads to. Returns an error for a link of the system, such as /dev/stdout,
/// which leads to whatever a process has opened.
fn target_of(rt: &HostRuntime, link: &str) -> Result<String, StorageFault> {
    let folder = fs::canonicalize(rt, folder_of(link))?;
    if covers("/dev", folder.as_str()) || covers("/proc", folder.as_str()) {
        return Err(StorageFault::Failed);
    }
    let target = fs::read_link(rt, link)?;
    if is_absolute(target.as_str()) {
        return Ok(String::from_str(rt.alloc(), target.as_str())?);
    }
    let folder = folder.as_str();
    let target = target.as_str();
    Ok(format!(in rt.alloc(); "{folder}/{target}")?)
}

/// The path of the folder of a file.
pub(crate) fn folder_of(file: &str) -> &str {
    match Path::new(file).parent() {
        Some(folder) if !folder.as_str().is_empty() => folder.as_str(),
        _ => ".",
    }
}
