// The index file on the disk, its rights, FILE~ beside it, and a FILE~ that a killed run left.
ghost use Rattle.std.specs.Prelude.{◌≡◌, length, ◌<◌};
ghost use Rattle.cs_storage.specs.Rights.{IsKeptMode};

use crate::folder::{IndexFolder, StorageFault};
use crate::index_paths::{IndexPaths, folder_of};
use cs_tree::{DiskStore, IoFault, Sent, Store};
use std::fs::{self, File, Metadata, Permissions, TryLockError};
use std::io::{self, ErrorKind, Read, Write};
use std::os::unix::fs::{MetadataExt, OpenOptionsExt, PermissionsExt, fchown};

/// One more than the maximum size of an index. A file of this size is not opened.
const TOO_LONG: u64 = 1 << 32;

/// The mode of a first index, before the umask.
const NEW_MODE: u32 = 0o666;

/// The rights that the owner has to FILE~, at least, until it is renamed, and the mode of a private
/// file.
const OWNER_WRITES: u32 = 0o600;

/// The bits of a mode that say who may read, write and execute.
const MODE_BITS: u32 = 0o777;

/// The super-user, who may change the owner of a file.
const ROOT: u32 = 0;

/// The index file on the disk. It is unmodelled.
#[derive(Drop)]
pub struct DiskFolder {
    rt: HostRuntime,
    paths: IndexPaths,
    /// Whether only its owner may read and write what is stored.
    is_private: bool,
    /// The metadata of FILE when it was opened.
    seen: Option<Metadata>,
    /// FILE~, if this process made it and locked it.
    temp: Option<File>,
    /// The bytes that FILE~ was given.
    given: Sent,
    /// Their number.
    written: u64,
    /// Why the first append that failed did so. After it nothing more is written.
    failure: Option<StorageFault>,
}

impl DiskFolder {
    /// A first file has the mode that the umask leaves, and a later one that of the file before.
    pub fn new(rt: HostRuntime, paths: IndexPaths) -> DiskFolder {
        DiskFolder::of_mode(rt, paths, false)
    }

    /// Each file that is stored is readable and writable by its owner alone.
    pub fn private(rt: HostRuntime, paths: IndexPaths) -> DiskFolder {
        DiskFolder::of_mode(rt, paths, true)
    }

    fn of_mode(rt: HostRuntime, paths: IndexPaths, is_private: bool) -> DiskFolder {
        DiskFolder {
            rt,
            paths,
            is_private,
            seen: None,
            temp: None,
            given: Sent::new(),
            written: 0,
            failure: None,
        }
    }

    /// The time that the file system gave FILE~ when it was made, in nanoseconds since 1970. None
    /// if FILE~ is not held, or was made before 1970.
    pub fn moment(&self) -> Option<u64> {
        let made = self.temp().ok()?.metadata().ok()?;
        let seconds = u64::try_from(made.mtime()).ok()?;
        let nanoseconds = u64::try_from(made.mtime_nsec()).ok()?;
        seconds.checked_mul(1_000_000_000)?.checked_add(nanoseconds)
    }

    /// Opens FILE once more. Returns an error unless it is the file that `look` opened.
    pub fn open_again(&self) -> Result<DiskIndex, StorageFault> {
        let opened = fs::open(&self.rt, self.paths.file()?)?;
        match &self.seen {
            Some(seen) if is_same(&opened.metadata()?, seen) => {
                Ok(DiskIndex(DiskStore::new(opened)?))
            }
            _ => Err(StorageFault::Failed),
        }
    }

    /// The file whose rights the next one keeps.
    fn kept(&self) -> Option<&Metadata> {
        if self.is_private {
            None
        } else {
            self.seen.as_ref()
        }
    }

    /// The mode with which FILE~ is made, before the umask.
    fn temp_mode(&self) -> u32 {
        match self.kept() {
            Some(seen) => kept_mode(seen.mode()) | OWNER_WRITES,
            None if self.is_private => OWNER_WRITES,
            None => NEW_MODE,
        }
    }

    /// FILE~, which has to be held.
    fn temp(&self) -> Result<&File, StorageFault> {
        self.temp.as_ref().ok_or(StorageFault::Failed)
    }

    /// Appends bytes to FILE~, which has to be held.
    fn write(&self, bytes: &[u8]) -> Result<(), StorageFault> {
        write_bytes(self.temp()?, bytes)?;
        Ok(())
    }

    /// Renames FILE~, which has to be held, to FILE.
    fn rename_temp(&self) -> Result<(), StorageFault> {
        let (file, path) = (self.paths.file()?, self.paths.temp.as_str());
        check_same_file(&self.rt, path, self.temp()?)?;
        fs::rename(&self.rt, path, file)?;
        sync_folder(&self.rt, file);
        Ok(())
    }
}

impl IndexFolder for DiskFolder {
    type Index = DiskIndex;

    ghost given = { λ d. d.given.bytes };

    /// Only a regular file is opened: opening a pipe would block, and opening a device may have
    /// side effects.
    fn look(&mut self) -> Result<Option<DiskIndex>, StorageFault> {
        let file = self.paths.file()?;
        match fs::metadata(&self.rt, file) {
            Ok(there) if is_readable(&there) => {}
            Ok(_) => return Err(StorageFault::Failed),
            Err(error) if error.kind() == ErrorKind::NotFound => return Ok(None),
            Err(error) => return Err(StorageFault::from(error)),
        }
        let opened = fs::open(&self.rt, file)?;
        let seen = opened.metadata()?;
        if !is_readable(&seen) {
            return Err(StorageFault::Failed);
        }
        let store = DiskStore::new(opened)?;
        self.seen = Some(seen);
        Ok(Some(DiskIndex(store)))
    }

    /// A file system without locks is accepted, since no other process can create FILE~ while it
    /// exists.
    fn claim(&mut self) -> Result<(), StorageFault> {
        let mode = self.temp_mode();
        let path = self.paths.temp.as_str();
        remove_stale(&self.rt, path, self.seen.as_ref())?;
        let temp = make_file(&self.rt, path, mode)?;
        if let Err(TryLockError::WouldBlock) = temp.try_lock() {
            return Err(StorageFault::Locked);
        }
        check_same_file(&self.rt, path, &temp)?;
        self.temp = Some(temp);
        self.given = Sent::new();
        self.written = 0;
        self.failure = None;
        Ok(())
    }

    fn is_unchanged(&mut self) -> bool {
        let Ok(file) = self.paths.file() else {
            return false;
        };
        match (fs::metadata(&self.rt, file), &self.seen) {
            (Ok(there), Some(seen)) => {
                is_same(&there, seen)
                    && there.len() == seen.len()
                    && (there.mtime(), there.mtime_nsec()) == (seen.mtime(), seen.mtime_nsec())
                    && (there.ctime(), there.ctime_nsec()) == (seen.ctime(), seen.ctime_nsec())
            }
            (Err(error), None) => error.kind() == ErrorKind::NotFound,
            _ => false,
        }
    }

    fn append(&mut self, bytes: &[u8]) {
        if self.failure.is_none() {
            self.failure = self.write(bytes).err();
        }
        self.given.push(bytes);
        self.written = self.written.saturating_add(bytes.len() as u64);
    }

    /// FILE~ is opened for appending, so each byte that is given stays after those before it, and a
    /// program that knows nothing of locks and empties the file, such as Google's cindex, makes it
    /// shorter.
    fn sync(&mut self) -> Result<(), StorageFault> {
        if let Some(fault) = self.failure {
            return Err(fault);
        }
        let temp = self.temp()?;
        copy_rights(temp, self.kept())?;
        temp.sync_all()?;
        if temp.metadata()?.len() == self.written {
            Ok(())
        } else {
            Err(StorageFault::Failed)
        }
    }

    fn rename(&mut self) -> Result<(), StorageFault> {
        self.rename_temp()?;
        self.temp = None;
        Ok(())
    }

    fn remove(&mut self) -> Result<(), StorageFault> {
        let file = self.paths.file()?;
        match fs::remove_file(&self.rt, file) {
            Err(error) if error.kind() != ErrorKind::NotFound => Err(StorageFault::from(error)),
            _ => {
                sync_folder(&self.rt, file);
                Ok(())
            }
        }
    }

    fn release(&mut self) {
        if let Some(temp) = self.temp.take() {
            let path = self.paths.temp.as_str();
            if check_same_file(&self.rt, path, &temp).is_ok() {
                let _ = fs::remove_file(&self.rt, path);
            }
        }
    }
}

/// The opened index file.
#[derive(Drop)]
pub struct DiskIndex(DiskStore<File>);

impl Store for DiskIndex {
    ghost size = { λ s. ⟦<DiskStore<File> as Store>⟧.size s.0 };

    ghost failed = { λ s. ⟦<DiskStore<File> as Store>⟧.failed s.0 };

    fn len(&self) -> usize {
        self.0.len()
    }

    fn read_at(&mut self, buf: &mut [u8], at: usize) -> Result<usize, IoFault> {
        self.0.read_at(buf, at)
    }

    fn failures(&self) -> u64 {
        self.0.failures()
    }
}

/// The mode of a file that replaces one with this mode: its owner keeps their rights, and nobody
/// else gets more than everybody had.
pub fn kept_mode(mode: u32) -> u32
    ensures kept { IsKeptMode mode result }
    ensures bound { result < 512 }
{
    let owner = mode / 64 % 8;
    let common = owner & (mode / 8 % 8) & (mode % 8);
    owner * 64 + common * 8 + common
}

/// Whether it is a regular file that is not too long for an index.
fn is_readable(there: &Metadata) -> bool {
    there.is_file() && there.len() < TOO_LONG
}

/// Makes FILE~. Where there is one by now, another run has made it.
fn make_file(rt: &HostRuntime, path: &str, mode: u32) -> Result<File, StorageFault> {
    let made = File::options()
        .append(true)
        .create_new(true)
        .mode(mode)
        .open(rt, path);
    match made {
        Ok(file) => Ok(file),
        Err(error) if error.kind() == ErrorKind::AlreadyExists => Err(StorageFault::Locked),
        Err(error) => Err(StorageFault::from(error)),
    }
}

fn write_bytes(mut temp: &File, bytes: &[u8]) -> io::Result<()> {
    temp.write_all(bytes)
}

/// Gives FILE~ the rights of the index that it replaces, and as root also its owner. A mode that is
/// right is not set, since some file systems refuse to set any.
fn copy_rights(temp: &File, seen: Option<&Metadata>) -> io::Result<()> {
    let Some(seen) = seen else {
        return Ok(());
    };
    let own = temp.metadata()?;
    if own.uid() == ROOT && (own.uid(), own.gid()) != (seen.uid(), seen.gid()) {
        fchown(temp, Some(seen.uid()), Some(seen.gid()))?;
    }
    let mode = kept_mode(seen.mode());
    if own.mode() & MODE_BITS == mode {
        return Ok(());
    }
    temp.set_permissions(Permissions::from_mode(mode))
}

/// Syncs the folder of a renamed file. If that fails, the index is whole all the same.
fn sync_folder(rt: &HostRuntime, file: &str) {
    if let Ok(opened) = fs::open(rt, folder_of(file)) {
        let _ = opened.sync_all();
    }
}

/// The first bytes of an index.
const MAGIC: &[u8] = b"csearch index 1\n";

/// Removes a FILE~ that a killed process left, if it is not locked. Nothing else is removed: a
/// regular file that is not ours, or does not begin as an index, is `Leftover`, whose line asks for
/// its removal.
fn remove_stale(rt: &HostRuntime, path: &str, seen: Option<&Metadata>) -> Result<(), StorageFault> {
    match fs::symlink_metadata(rt, path) {
        Ok(there) if there.is_file() => {
            let stale = open_unlocked(rt, path, &there)?;
            if !is_stale(rt, &there, seen) || !begins_as_index(&stale)? {
                return Err(StorageFault::Leftover);
            }
            check_same_file(rt, path, &stale)?;
            Ok(fs::remove_file(rt, path)?)
        }
        Ok(_) => Err(StorageFault::Failed),
        Err(error) if error.kind() == ErrorKind::NotFound => Ok(()),
        Err(error) => Err(StorageFault::from(error)),
    }
}

/// Opens and locks a file that is at FILE~. It is `Leftover` if that fails, unless another process
/// has locked it. The file is opened for reading and writing, since the opening of a pipe, which
/// may be there by now, then does not block.
fn open_unlocked(rt: &HostRuntime, path: &str, there: &Metadata) -> Result<File, StorageFault> {
    let opened = match File::options().read(true).write(true).open(rt, path) {
        Ok(opened) => opened,
        Err(error) if error.kind() == ErrorKind::PermissionDenied => {
            return Err(StorageFault::Leftover);
        }
        Err(error) => return Err(StorageFault::from(error)),
    };
    let found = opened.metadata()?;
    // A pipe may have the number of the removed file, and its read would wait.
    if !found.is_file() || !is_same(there, &found) {
        return Err(StorageFault::Failed);
    }
    match opened.try_lock() {
        Ok(()) => Ok(opened),
        Err(TryLockError::WouldBlock) => Err(StorageFault::Locked),
        Err(TryLockError::Error(_)) => Err(StorageFault::Leftover),
    }
}

/// Whether a process of this user may have left the file: one with one link that belongs to the
/// user of this process, by `/proc/self`, or to the owner of FILE: to whom root gives the file, or
/// a file system that maps owners.
fn is_stale(rt: &HostRuntime, there: &Metadata, seen: Option<&Metadata>) -> bool {
    let is_left = there.nlink() <= 1;
    let is_ours = match fs::metadata(rt, "/proc/self") {
        Ok(process) => there.uid() == process.uid(),
        Err(_) => false,
    };
    is_left && (is_ours || seen.is_some_and(|seen| there.uid() == seen.uid()))
}

/// Whether a killed run may have left these bytes: none, the first bytes of an index, or zeros,
/// where the system kept the length of a file and lost its bytes.
fn begins_as_index(mut stale: &File) -> io::Result<bool> {
    let mut first = [0u8; MAGIC.len()];
    let len = stale.read(&mut first)?;
    let first = &first[..len];
    Ok(MAGIC.starts_with(first) || first.iter().all(|byte| *byte == 0))
}

/// Fails unless the open file still has this name: another process may have removed it before the
/// lock was taken, and in a folder that is open to all anybody may at any time.
fn check_same_file(rt: &HostRuntime, path: &str, opened: &File) -> io::Result<()> {
    let there = fs::symlink_metadata(rt, path)?;
    if !is_same(&there, &opened.metadata()?) {
        return Err(io::Error::from(ErrorKind::WouldBlock));
    }
    Ok(())
}

fn is_same(one: &Metadata, other: &Metadata) -> bool {
    one.dev() == other.dev() && one.ino() == other.ino()
}
