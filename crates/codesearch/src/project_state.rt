// The state of a project on the disk.
ghost use Rattle.std.specs.Prelude.{◌≡◌, []};

use crate::own_tree::OwnTree;
use crate::progress::{CountedTree, ProgressLine};
use crate::secret::SecretFile;
use crate::state_folder::{Project, StateFolder};
use cs_learned::{ClosedState, StateKnowledge};
use cs_state::{StateFile, StateKey};
use cs_storage::{
    DiskFolder, DiskIndex, IndexFolder, IndexUpdate, NewFile, StorageFault, begin_update,
    finish_update, replace_file,
};
use cs_tree::{DiskTree, Look, Output, StdSink, Store, write_all};
use cs_update::{SeenFile, UpdateCall, UpdateFault, batch_len, first_state, is_due, update_state};
use std::alloc::{AllocError, Global};
use std::io::IsTerminal;
use std::time::SystemTime;

/// The bytes of the files that a search learns, so that it ends soon after its output.
const BUDGET: u64 = 150_000_000;

/// The bytes of the files of a batch, unless there are too many batches: each is merged with the
/// state of those before. Their postings take a fifth of that in memory.
const BATCH: u64 = 300_000_000;

/// About the most batches.
const MOST_BATCHES: u64 = 16;

/// A folder for the state of a project, and the state file that was opened there.
#[derive(Drop)]
struct FoundState {
    home: StateFolder,
    storage: DiskFolder,
    file: Option<DiskIndex>,
    /// Whether it is known what stood there when the run began.
    is_seen: bool,
    /// The key of the user, if there is a secret.
    key: Option<StateKey>,
}

impl FoundState {
    fn open(rt: &HostRuntime, home: StateFolder) -> Result<FoundState, AllocError> {
        let mut storage = DiskFolder::private(rt.clone()?, home.paths(rt.alloc())?);
        if home.is_shared {
            return Ok(FoundState {
                home,
                storage,
                file: None,
                is_seen: false,
                key: None,
            });
        }
        // What cannot be opened counts as none.
        let seen = storage.look();
        let is_seen = seen.is_ok();
        Ok(FoundState {
            home,
            storage,
            file: seen.unwrap_or(None),
            is_seen,
            key: None,
        })
    }

    /// Why nothing can be stored there: `Locked` if another run stores its own state, or has stored
    /// it since this run began.
    fn cause_of(&mut self, fault: StorageFault) -> StorageFault {
        if self.is_seen && !self.storage.is_unchanged() {
            StorageFault::Locked
        } else {
            fault
        }
    }

    /// The file that was opened, once more, if there is a key.
    fn closed(&self) -> Option<ClosedState<DiskIndex>> {
        let _opened = self.file.as_ref()?;
        Some(ClosedState {
            file: self.storage.open_again().ok()?,
            key: self.key?,
        })
    }

    /// Stores what is learned of files over the old state, or as a first one.
    fn learn(
        &mut self,
        rt: &HostRuntime,
        root: &str,
        files: &[SeenFile],
        is_open: bool,
    ) -> Result<(), StorageFault> {
        self.home.make(rt);
        self.home.remove_shared(rt)?;
        let progress = ProgressLine::new(rt, "cs: learning", true)?;
        let mut inner = DiskTree::of_files(rt.clone()?);
        inner.count_from(root);
        let mut tree = CountedTree {
            inner,
            progress: &progress,
        };
        let learned = self.store_all(rt.alloc(), root, files, is_open, &mut tree);
        progress.erase();
        learned
    }

    /// Stores it a batch of files at a time, each over the state of those before, so that little
    /// memory is taken, and a run that is interrupted keeps the batches that it has stored.
    fn store_all<T: Look>(
        &mut self,
        alloc: Global,
        root: &str,
        files: &[SeenFile],
        is_open: bool,
        tree: &mut T,
    ) -> Result<(), StorageFault> {
        let most = batch_size(files);
        let mut rest = files;
        let mut is_open = is_open;
        for _ in 0..=files.len() {
            let (batch, later) = rest.split_at(batch_len(rest, most));
            let old = if is_open { self.closed() } else { None };
            if is_open && old.is_none() {
                return Err(StorageFault::Failed);
            }
            self.store(alloc, root, batch, old, tree)?;
            rest = later;
            if rest.is_empty() {
                break;
            }
            self.file = self.storage.look()?;
            is_open = true;
        }
        Ok(())
    }

    /// Stores what is learned of files over the old state, or as a first one. A damaged state is
    /// taken away, and nothing is stored.
    fn store<T: Look>(
        &mut self,
        alloc: Global,
        root: &str,
        files: &[SeenFile],
        old: Option<ClosedState<DiskIndex>>,
        tree: &mut T,
    ) -> Result<(), StorageFault> {
        let Some(key) = self.key else {
            return Err(StorageFault::Failed);
        };
        if let Err(fault) = begin_update(&mut self.storage) {
            return Err(self.cause_of(fault));
        }
        let written = match self.storage.moment() {
            Some(moment) => {
                let call = UpdateCall {
                    alloc,
                    key,
                    root,
                    files,
                    moment,
                };
                let out = NewFile::new(&mut self.storage);
                write_state(&call, old, tree, out)
            }
            None => Err(UpdateFault::Memory),
        };
        match written {
            Ok(()) => replace_file(&mut self.storage),
            Err(UpdateFault::BadState) => {
                finish_update(&mut self.storage, &IndexUpdate::Remove)?;
                Err(StorageFault::Failed)
            }
            Err(_) => {
                self.storage.release();
                Err(StorageFault::Failed)
            }
        }
    }
}

/// Gives an output the old state, updated by what is learned of files, or a first one.
fn write_state<T: Look, O: Output + Drop>(
    call: &UpdateCall<'_>,
    old: Option<ClosedState<DiskIndex>>,
    tree: &mut T,
    out: O,
) -> Result<(), UpdateFault>
    requires { O.given out ≡ [] }
{
    let Some(old) = old else {
        let _out = first_state(call, tree, out)?;
        return Ok(());
    };
    let Some(state) = StateFile::open(call.alloc, old.file, old.key)? else {
        return Err(UpdateFault::BadState);
    };
    let _out = update_state(call, state, tree, out)?;
    Ok(())
}

/// The number of bytes of a batch of files.
fn batch_size(files: &[SeenFile]) -> u64 {
    let mut len: u64 = 0;
    for file in files {
        len = len.saturating_add(file.stamp.size);
    }
    BATCH.max(len / MOST_BATCHES)
}

/// The state of a project on the disk.
#[derive(Drop)]
pub(crate) struct DiskState {
    /// Whether the current folder is that of the project.
    is_at_root: bool,
    /// Whether the project is a repository.
    is_repository: bool,
    /// Where the state is, or where one may be made; the best first.
    found: Vec<FoundState>,
    /// None without a folder for caches.
    secret: Option<SecretFile>,
}

impl DiskState {
    /// The state of the project of a folder, and what it knows.
    pub(crate) fn open(
        rt: &HostRuntime,
        tree: &mut OwnTree,
        folder: &str,
        cache: Option<&str>,
    ) -> Result<(DiskState, StateKnowledge<DiskIndex>), AllocError> {
        let alloc = rt.alloc();
        let Project {
            root,
            is_repository,
        } = Project::above(alloc, tree, folder)?;
        tree.count_from(root.as_str());
        let mut found = Vec::new(alloc);
        for home in StateFolder::of_project(rt, root.as_str(), cache)? {
            let state = FoundState::open(rt, home)?;
            let is_there = state.file.is_some();
            if is_there {
                found.clear();
            }
            found.push(state)?;
            if is_there {
                break;
            }
        }
        let secret = match cache {
            Some(cache) => Some(SecretFile::below(alloc, cache)?),
            None => None,
        };
        let closed = match found.first_mut() {
            Some(state) if state.file.is_some() => {
                state.key = secret.as_ref().and_then(|secret| secret.key(rt));
                state.closed()
            }
            _ => None,
        };
        let is_at_root = root.as_str() == folder || (root.is_empty() && folder == "/");
        let known = StateKnowledge::new(alloc, root, closed);
        let state = DiskState {
            is_at_root,
            is_repository,
            found,
            secret,
        };
        Ok((state, known))
    }

    /// The state file that was opened.
    fn file(&self) -> Option<&DiskIndex> {
        self.found.first()?.file.as_ref()
    }

    /// Whether the files that were not known are to be learned. A damaged state counts as one
    /// without bytes. Outside of a repository only `--update` makes a first one.
    fn is_due(&self, rt: &HostRuntime, known: &StateKnowledge<DiskIndex>) -> bool {
        let files = known.unknown();
        if known.is_update() {
            // A state that knows all stays.
            return !known.is_open() || !files.is_empty();
        }
        let len = match self.file() {
            Some(file) if known.is_open() => file.len() as u64,
            None if !self.is_repository => return false,
            _ => 0,
        };
        is_due(files, len, now(rt))
    }

    /// Learns the files that were not known, if that is due: a search so many that it ends soon. If
    /// the search has ended by itself, a state most of whose texts are no longer in the project is
    /// made anew. A search that can have no secret learns nothing.
    pub(crate) fn learn(
        &mut self,
        rt: &HostRuntime,
        known: &StateKnowledge<DiskIndex>,
        is_ended: bool,
    ) -> Result<(), StorageFault> {
        let unknown = known.unknown();
        let is_outdated = self.is_at_root && known.is_outdated(is_ended) && !known.is_update();
        if !is_outdated && !self.is_due(rt, known) {
            return Ok(());
        }
        let Some(key) = self.secret.as_ref().and_then(|secret| secret.made_key(rt)) else {
            return if known.is_update() {
                Err(StorageFault::Failed)
            } else {
                Ok(())
            };
        };
        for state in &mut self.found {
            state.key = Some(key);
        }
        let most = if known.is_update() { u64::MAX } else { BUDGET };
        let (files, rest) = unknown.split_at(batch_len(unknown, most));
        self.store(rt, known.root(), files, known.is_open() && !is_outdated)?;
        say_rest(rt, known.met(), rest.len())?;
        Ok(())
    }

    /// Learns files, in the best folder that can be written to. Where there is a state that this
    /// run cannot replace, or another run makes one, it stores nothing.
    fn store(
        &mut self,
        rt: &HostRuntime,
        root: &str,
        files: &[SeenFile],
        is_open: bool,
    ) -> Result<(), StorageFault> {
        let mut stored = Err(StorageFault::Failed);
        for state in &mut self.found {
            stored = state.learn(rt, root, files, is_open);
            match stored {
                Ok(()) | Err(StorageFault::Locked) => return stored,
                Err(_) if !state.home.is_empty(rt)? => return stored,
                Err(_) => {}
            }
        }
        stored
    }
}

/// Says on a terminal how many of the files that a search has met are known, if some are not.
fn say_rest(rt: &HostRuntime, met: usize, rest: usize) -> Result<(), AllocError> {
    if rest == 0 || !rt.stderr().is_terminal() {
        return Ok(());
    }
    let alloc = rt.alloc();
    let known = with_commas(alloc, met.saturating_sub(rest))?;
    let met = with_commas(alloc, met)?;
    let (known, met) = (known.as_str(), met.as_str());
    let line = format!(in alloc;
        "cs: {known} of {met} files are known; cs --update learns the others\n"
    )?;
    let _ = write_all(&mut StdSink::new(rt.stderr()), line.as_bytes());
    Ok(())
}

/// A number with a comma before its last three digits, and before the three above.
fn with_commas(alloc: Global, number: usize) -> Result<String, AllocError> {
    let (thousands, units) = (number / 1000, number % 1000);
    if thousands == 0 {
        return format!(in alloc; "{units}");
    }
    let (millions, thousands) = (thousands / 1000, thousands % 1000);
    if millions == 0 {
        return format!(in alloc; "{thousands},{units:03}");
    }
    format!(in alloc; "{millions},{thousands:03},{units:03}")
}

/// The time of the clock in nanoseconds since 1970, to the second.
fn now(rt: &HostRuntime) -> u64 {
    match SystemTime::now(rt) {
        Ok(time) => match time.duration_since(SystemTime::UNIX_EPOCH) {
            Ok(past) => past.as_secs().saturating_mul(1_000_000_000),
            Err(_) => 0,
        },
        Err(_) => 0,
    }
}
