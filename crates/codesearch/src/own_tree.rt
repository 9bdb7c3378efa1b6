// The disk, on which a repository of a stranger counts as none, as for git: its rules would decide
// which files are searched. A stranger is neither this user, nor root, nor the owner of the folder
// where the search starts (as of the checkout that a container's root searches). Owners are in no
// model: tests show this.
ghost use Rattle.std.specs.Prelude.{◌≡◌};

use cs_tree::{DiskTree, Kind, Listing, Look, Seen, Stamp, StdSink, Tree, TreeFault, write_all};
use std::alloc::Global;
use std::cell::Cell;
use std::fs;
use std::io::IsTerminal;
use std::os::unix::fs::MetadataExt;

/// The super-user.
const ROOT: u32 = 0;

/// The disk without the repositories of strangers.
#[derive(Drop)]
pub(crate) struct OwnTree {
    rt: HostRuntime,
    inner: DiskTree<HostRuntime>,
    /// The user of this process. None if the system does not tell it: then nobody is a stranger.
    user: Option<u32>,
    /// The owner of the folder where the search starts.
    owner: Option<u32>,
    /// Whether a line has named such a repository.
    has_said: Cell<bool>,
}

impl OwnTree {
    pub(crate) fn new(rt: HostRuntime, inner: DiskTree<HostRuntime>, folder: &str) -> OwnTree {
        let user = user_of(&rt);
        let owner = owner_of(&rt, folder);
        OwnTree {
            rt,
            inner,
            user,
            owner,
            has_said: Cell::new(false),
        }
    }

    /// From now on the device of the folder at a path is 0 in stamps.
    pub(crate) fn count_from(&mut self, path: &str) {
        self.inner.count_from(path);
    }

    /// Whether a path, at which a repository is looked for, is that of a stranger's.
    fn is_strange(&self, path: &str) -> bool {
        let Some(git) = git_path(path) else {
            return false;
        };
        let (Some(user), Some(owner)) = (self.user, owner_of(&self.rt, git)) else {
            return false;
        };
        if owner == user || owner == ROOT || self.owner == Some(owner) {
            return false;
        }
        self.say(git);
        true
    }

    /// Says on a terminal, once, that the rules of a repository do not count.
    fn say(&self, git: &str) {
        if self.has_said.replace(true) || !self.rt.stderr().is_terminal() {
            return;
        }
        let alloc = self.rt.alloc();
        let line = format!(in alloc;
            "cs: {git} belongs to another user, so its rules do not count\n"
        );
        if let Ok(line) = line {
            let _ = write_all(&mut StdSink::new(self.rt.stderr()), line.as_bytes());
        }
    }
}

/// The path of what `.git` is or names, at whose `HEAD` a repository is looked for. No other file
/// below a folder `.git` is looked at by this name, since no walk enters one.
fn git_path(path: &str) -> Option<&str> {
    if path.ends_with("/.git") {
        return Some(path);
    }
    let git = path.strip_suffix("/HEAD")?;
    if git.ends_with("/.git") || git.contains("/.git/") {
        Some(git)
    } else {
        None
    }
}

/// The user of this process.
pub(crate) fn user_of(rt: &HostRuntime) -> Option<u32> {
    Some(fs::metadata(rt, "/proc/self").ok()?.uid())
}

/// The owner of what is at a path.
fn owner_of(rt: &HostRuntime, path: &str) -> Option<u32> {
    Some(fs::symlink_metadata(rt, path).ok()?.uid())
}

impl Tree for OwnTree {
    ghost failed = { λ t. ⟦<DiskTree<HostRuntime> as Tree>⟧.failed t.inner };

    ghost counts_modelled = { λ _ model. model };

    fn kind(&mut self, path: &str) -> Result<Kind, TreeFault> {
        self.inner.kind(path)
    }

    fn entries(&mut self, alloc: Global, path: &str) -> Result<Listing, TreeFault> {
        self.inner.entries(alloc, path)
    }

    fn open(&mut self, path: &str) -> Result<(), TreeFault> {
        self.inner.open(path)
    }

    fn read(&mut self, buf: &mut [u8]) -> Result<usize, TreeFault> {
        self.inner.read(buf)
    }

    fn failures(&self) -> u64 {
        self.inner.failures()
    }
}

impl Look for OwnTree {
    fn look(&mut self, path: &str) -> Result<Seen, TreeFault> {
        if self.is_strange(path) {
            // Nothing has the empty path.
            return self.inner.look("");
        }
        self.inner.look(path)
    }

    fn open_file(&mut self, path: &str) -> Result<Option<Stamp>, TreeFault> {
        self.inner.open_file(path)
    }
}
