// The real surroundings of the program: the index file, the disk and the standard streams.

use crate::call::Call;
use crate::own_tree::OwnTree;
use crate::progress::{ClearedSink, CountedTree, ProgressLine};
use crate::running::World;
use crate::watched::WatchedWriter;
use cs_args::Tool;
use cs_storage::{DiskFolder, IndexPaths};
use cs_tree::{BufferedSink, DiskTree, StdSink, StdSource, is_absolute};
use std::alloc::AllocError;
use std::cell::Cell;
use std::env::VarError;
use std::io::{Stderr, Stdin, Stdout};
use std::os::unix::fs::FileTypeExt;
use std::{env, fs};

/// The size of the buffer of standard output, in bytes.
const OUTPUT_BYTES: usize = 65536;

/// The file that standard input comes from.
const INPUT: &str = "/proc/self/fd/0";

/// The disk and the standard streams.
pub(crate) type DiskWorld<'p> = World<
    CountedTree<'p, DiskTree<HostRuntime>>,
    StdSource<Stdin>,
    BufferedSink<StdSink<Stdout>>,
    ClearedSink<'p, StdSink<Stderr>>,
>;

/// The disk and the standard streams, as the tool uses them. What is read is counted.
pub(crate) fn disk_world<'p>(
    rt: &HostRuntime,
    call: &Call<'_>,
    progress: &'p ProgressLine,
) -> Result<DiskWorld<'p>, AllocError> {
    let inner = tree_for(rt, call)?;
    Ok(World {
        alloc: rt.alloc(),
        tree: CountedTree { inner, progress },
        input: StdSource::new(rt.stdin()),
        out: BufferedSink::new(rt.alloc(), OUTPUT_BYTES, StdSink::new(rt.stdout()))?,
        err: ClearedSink {
            inner: StdSink::new(rt.stderr()),
            progress,
        },
    })
}

/// The disk without the file that standard output goes to, and without the repositories of
/// strangers, for a search of a project below a folder.
pub(crate) fn project_tree(rt: &HostRuntime, folder: &str) -> Result<OwnTree, AllocError> {
    let mut tree = DiskTree::new(rt.clone()?);
    tree.shorten_paths()?;
    tree.exclude_output();
    Ok(OwnTree::new(rt.clone()?, tree, folder))
}

/// The folders of a user: the home folder, that of settings, as git finds it, and that of caches.
#[derive(Drop)]
pub(crate) struct SettingFolders {
    pub(crate) home: String,
    pub(crate) config: String,
    pub(crate) cache: String,
    /// The file that takes the place of git's settings of the user.
    pub(crate) global: Option<String>,
}

impl SettingFolders {
    /// Those that the environment names, if there is a home folder.
    pub(crate) fn of_environment(rt: &HostRuntime) -> Result<Option<SettingFolders>, AllocError> {
        let Some(home) = folder_in(rt, "HOME")? else {
            return Ok(None);
        };
        let config = folder_or(rt, "XDG_CONFIG_HOME", home.as_str(), ".config")?;
        let cache = folder_or(rt, "XDG_CACHE_HOME", home.as_str(), ".cache")?;
        let global = match env::var(rt, "GIT_CONFIG_GLOBAL") {
            Ok(file) => Some(file),
            Err(VarError::OutOfMemory) => return Err(AllocError),
            Err(_) => None,
        };
        Ok(Some(SettingFolders {
            home,
            config,
            cache,
            global,
        }))
    }
}

/// The folder that a variable of the environment names, or else one in the home folder.
fn folder_or(
    rt: &HostRuntime,
    variable: &str,
    home: &str,
    name: &str,
) -> Result<String, AllocError> {
    match folder_in(rt, variable)? {
        Some(folder) => Ok(folder),
        None => format!(in rt.alloc(); "{home}/{name}"),
    }
}

/// The folder that a variable of the environment names, if it begins with `/`.
fn folder_in(rt: &HostRuntime, name: &str) -> Result<Option<String>, AllocError> {
    match env::var(rt, name) {
        Ok(folder) if is_absolute(folder.as_str()) => Ok(Some(folder)),
        Err(VarError::OutOfMemory) => Err(AllocError),
        _ => Ok(None),
    }
}

/// Whether standard input is a pipe.
pub(crate) fn is_input_piped(rt: &HostRuntime) -> bool {
    match fs::metadata(rt, INPUT) {
        Ok(metadata) => metadata.file_type().is_fifo(),
        Err(_) => false,
    }
}

/// The buffer before standard output, which says whether its reader has gone.
pub(crate) fn watched_output<'c>(
    rt: &HostRuntime,
    is_closed: &'c Cell<bool>,
) -> Result<BufferedSink<StdSink<WatchedWriter<'c, Stdout>>>, AllocError> {
    let inner = rt.stdout();
    let writer = WatchedWriter { inner, is_closed };
    BufferedSink::new(rt.alloc(), OUTPUT_BYTES, StdSink::new(writer))
}

/// The disk, as the tree of the tool.
fn tree_for(rt: &HostRuntime, call: &Call<'_>) -> Result<DiskTree<HostRuntime>, AllocError> {
    let mut tree = match call.tool {
        Tool::Cgrep => DiskTree::new(rt.clone()?),
        // A file that was indexed may be a pipe by now.
        Tool::Cindex | Tool::Csearch => DiskTree::of_files(rt.clone()?),
    };
    // A file that the lines are written to would grow as it is read.
    if call.prints_lines() {
        tree.exclude_output();
    }
    Ok(tree)
}

/// The index file on the disk, and its names for an error line.
pub(crate) struct DiskIndexFile {
    pub(crate) name: String,
    pub(crate) temp: String,
    pub(crate) folder: DiskFolder,
}

impl DiskIndexFile {
    /// The index file that the environment names.
    pub(crate) fn of_environment(rt: &HostRuntime) -> Result<DiskIndexFile, AllocError> {
        let paths = IndexPaths::of_environment(rt)?;
        let name = String::from_str(rt.alloc(), paths.name.as_str())?;
        let temp = String::from_str(rt.alloc(), paths.temp.as_str())?;
        Ok(DiskIndexFile {
            name,
            temp,
            folder: DiskFolder::new(rt.clone()?, paths),
        })
    }
}

// A body that owns the file drops it by a call.
impl Drop for DiskIndexFile {
    fn drop(self) {
        let DiskIndexFile {
            name: _name,
            temp: _temp,
            folder: _folder,
        } = self;
    }
}
