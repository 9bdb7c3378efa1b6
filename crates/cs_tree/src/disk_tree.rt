// The real disk as a tree.
ghost use Rattle.std.specs.Prelude.{◌≡◌, ◌≤◌, ◌≢◌, ◌⊎◌, ◌↔◌, ◌++◌, ◌∷◌, ◌||◌, not, if◌then◌else◌, pos, ℕ, [], IfOk, IfErr, OnOk, Err, Some, length, map, string_bytes, true, false, None, IsUtf8};
ghost use Rattle.std.specs.IoError.{error_kind, raw_os_error};
ghost use Rattle.std.specs.Fs.{file_type, IsDir, IsFile};
ghost use Rattle.std.specs.Path.{slash};
ghost use Rattle.std.specs.List.{list_all};
ghost use Rattle.std.specs.Io.KnownBytes.{ReadConsumes};
ghost use Rattle.cs_tree.specs.Dots.{are_dots as are_dots'};
ghost use Rattle.cs_tree.specs.Elements.{is_element as is_element', are_elements};
ghost use Rattle.cs_tree.specs.Trees.{listing_names, IsReadFault, is_tree_failure};
ghost use Rattle.cs_tree.specs.Cover.{is_absolute as is_absolute'};
ghost use Rattle.cs_tree.specs.DiskFiles.{DiskFileGives};
ghost use Rattle.cs_tree.specs.FailureCount.{count_after};
ghost use Rattle.cs_tree.specs.Looks.{kind_seen, nanoseconds_of};

use crate::fault::{TreeFault, counted_answer};
use crate::paths::{is_absolute, is_element, order_names};
use crate::std_io::{gave_up, is_interrupted, retry_read};
use crate::tree::{Kind, Listing, Look, Seen, Stamp, Tree};
use memchr::memchr;
use std::alloc::{AllocError, Global};
use std::fs::{Metadata, OpenFile};
use std::io::{ErrorKind, Read};
use std::os::unix::fs::MetadataExt;
use std::rt::{Env, Files};
use std::str::from_utf8;
use std::{env, fs, io};

/// The real disk, by a runtime. It has no model. A relative path is relative to the current folder.
/// An interrupted call is retried.
#[derive(Drop)]
pub struct DiskTree<R: Files + Drop> {
    rt: R,
    /// Whether `open` accepts only regular files. Otherwise it accepts anything except folders, and
    /// to open or read a pipe or a terminal may block.
    only_files: bool,
    output: Option<FileId>,
    /// The current folder with a slash at its end, or an empty text. A path goes to the system
    /// without it, so that the system looks fewer names up.
    current: String,
    /// The device that counts as 0 in stamps.
    home: Option<u64>,
    /// What a read of a folder fills with names. Empty until the first one.
    names: Vec<u8>,
    opened: DiskFile<R::File>,
    failed: u64,
}

/// What a read of the disk reads.
#[derive(Drop)]
enum DiskFile<F: Drop> {
    /// No file is open.
    Closed,
    /// The open file has no bytes. The system is not asked for any.
    Empty,
    Open(F),
}

/// The identity of a file, its device and inode: names with the same identity are links to one
/// file.
#[derive(Clone, Copy, PartialEq, Eq)]
struct FileId {
    device: u64,
    node: u64,
}

/// The path of standard output (Linux).
const OUTPUT: &str = "/proc/self/fd/1";

/// How many bytes of names a read of a folder gives at most.
const NAMES_LEN: usize = 16384;

/// The error of the system if the process can open no more files (EMFILE).
const PROCESS_DESCRIPTORS: i32 = 24;

/// The error of the system if no process can open more files (ENFILE).
const SYSTEM_DESCRIPTORS: i32 = 23;

impl<R: Files + AllocGlobal + Clone + Drop> DiskTree<R> {
    /// The disk. `open` accepts anything except folders, and blocks on a pipe until it is written
    /// to. Allocates nothing.
    pub fn new(rt: R) -> DiskTree<R>
        ensures { ⟦<DiskTree<R> as Tree>⟧.failed result ≡ 0 }
    {
        DiskTree::of_kind(rt, false)
    }

    /// The disk. `open` accepts regular files and links to them. Everything else is `Failed`, and a
    /// pipe does not block. Allocates nothing.
    pub fn of_files(rt: R) -> DiskTree<R>
        ensures { ⟦<DiskTree<R> as Tree>⟧.failed result ≡ 0 }
    {
        DiskTree::of_kind(rt, true)
    }

    fn of_kind(rt: R, only_files: bool) -> DiskTree<R>
        ensures { ⟦<DiskTree<R> as Tree>⟧.failed result ≡ 0 }
    {
        let current = String::new(rt.alloc());
        let names = Vec::new(rt.alloc());
        DiskTree {
            rt,
            only_files,
            output: None,
            current,
            home: None,
            names,
            opened: DiskFile::Closed,
            failed: 0,
        }
    }

    /// From now on `open` returns `Output` for the file that standard output goes to, under any of
    /// its names. Only a regular file is excluded, so a terminal can still be opened. Nothing is
    /// excluded if the system does not name the output (no `/proc`). No clause covers this; tests
    /// show that the output is excluded, and no other file.
    pub fn exclude_output(&mut self)
        ensures { ⟦<DiskTree<R> as Tree>⟧.failed self.new
            ≡ ⟦<DiskTree<R> as Tree>⟧.failed self.old }
    {
        self.output = match fs::metadata(&self.rt, OUTPUT) {
            Ok(metadata) if metadata.is_file() => Some(id_of(&metadata)),
            _ => None,
        };
    }

    /// From now on the device of the folder at a path is 0 in stamps, as far as it can be asked for
    /// (the empty path is `/`): the system may give it another number at each start, and a
    /// container another one than its host.
    pub fn count_from(&mut self, path: &str)
        ensures { ⟦<DiskTree<R> as Tree>⟧.failed self.new
            ≡ ⟦<DiskTree<R> as Tree>⟧.failed self.old }
    {
        let folder = if path.is_empty() { "/" } else { path };
        self.home = match fs::metadata(&self.rt, folder) {
            Ok(metadata) => Some(metadata.dev()),
            Err(_) => None,
        };
    }
}

impl<R: Env + Files + AllocGlobal + Clone + Drop> DiskTree<R> {
    /// From now on the system is asked for paths below the current folder by their text from there
    /// on, which is shorter. The process may not change its current folder after this.
    pub fn shorten_paths(&mut self) -> Result<(), AllocError>
        ensures { ⟦<DiskTree<R> as Tree>⟧.failed self.new
            ≡ ⟦<DiskTree<R> as Tree>⟧.failed self.old }
    {
        if let Ok(folder) = env::current_dir(&self.rt) {
            self.current = folder_path(self.rt.alloc(), folder.as_str())?;
        }
        Ok(())
    }
}

/// A path without the text of the folder at its start, if a relative path is left.
fn path_from<'p>(folder: &str, path: &'p str) -> &'p str
    ensures { (result.now ≡ path.now) ⊎ ((path.now ≡ folder.now ++ result.now)
        × (result.now ≢ []) × (is_absolute' result.now ≡ false)) }
{
    match path.strip_prefix(folder) {
        Some(rest) if !rest.is_empty() && !is_absolute(rest) => rest,
        _ => path,
    }
}

impl<R: Files + AllocGlobal + Clone + Drop> Tree for DiskTree<R> {
    ghost failed = { λ t. t.failed };

    ghost counts_modelled = { λ _ model. model };

    /// Does not follow a symbolic link.
    fn kind(&mut self, path: &str) -> Result<Kind, TreeFault> {
        let answer = match fs::symlink_metadata(&self.rt, path_from(self.current.as_str(), path)) {
            Ok(metadata) => Ok(kind_of(&metadata)),
            Err(error) => Err(fault_of(&error)),
        };
        counted_answer(&mut self.failed, answer)
    }

    fn entries(&mut self, alloc: Global, path: &str) -> Result<Listing, TreeFault> {
        if self.names.is_empty() && self.names.resize(NAMES_LEN, 0).is_err() {
            return Err(TreeFault::Memory);
        }
        let from = path_from(self.current.as_str(), path);
        let answer = match list_folder(alloc, &self.rt, from, &mut self.names) {
            Ok(listing) => Ok(listing),
            Err(error) => Err(fault_of(&error)),
        };
        counted_answer(&mut self.failed, answer)
    }

    /// Follows symbolic links.
    fn open(&mut self, path: &str) -> Result<(), TreeFault> {
        self.opened = DiskFile::Closed;
        let from = path_from(self.current.as_str(), path);
        match open_file(&self.rt, self.only_files, self.output, from) {
            Ok(file) => {
                self.opened = file;
                Ok(())
            }
            Err(fault) => counted_answer(&mut self.failed, Err(fault)),
        }
    }

    fn read(&mut self, buf: &mut [u8]) -> Result<usize, TreeFault>
        ensures within { IfOk result (λ n. n ≤ length buf.new) }
        ensures fault { IfErr result IsReadFault }
        ensures bytes { DiskFileGives R.File.remaining self.old.opened self.new.opened
            result buf.new }
        ensures failed { ⟦<DiskTree<R> as Tree>⟧.failed self.new
            ≡ count_after is_tree_failure result (⟦<DiskTree<R> as Tree>⟧.failed self.old) }
    {
        let answer = match &mut self.opened {
            DiskFile::Open(file) => read_some(file, buf),
            DiskFile::Empty => Ok(0),
            DiskFile::Closed => Err(TreeFault::Failed),
        };
        counted_answer(&mut self.failed, answer)
    }

    fn failures(&self) -> u64 {
        self.failed
    }
}

impl<R: Files + AllocGlobal + Clone + Drop> Look for DiskTree<R> {
    /// Makes one call of the system.
    fn look(&mut self, path: &str) -> Result<Seen, TreeFault> {
        let answer = match fs::symlink_metadata(&self.rt, path_from(self.current.as_str(), path)) {
            Ok(metadata) => Ok(seen_of(&metadata, self.home)),
            Err(error) => Err(fault_of(&error)),
        };
        counted_answer(&mut self.failed, answer)
    }

    /// Follows symbolic links. Everything that is no regular file is `Failed`.
    fn open_file(&mut self, path: &str) -> Result<Option<Stamp>, TreeFault> {
        self.opened = DiskFile::Closed;
        let from = path_from(self.current.as_str(), path);
        match open_stamped(&self.rt, self.output, self.home, from) {
            Ok((file, stamp)) => {
                self.opened = file;
                Ok(stamp)
            }
            Err(fault) => counted_answer(&mut self.failed, Err(fault)),
        }
    }
}

fn seen_of(metadata: &Metadata, home: Option<u64>) -> Seen
    ensures folder { kind_seen result ≡ Kind.Folder ↔ IsDir (file_type metadata.now) }
    ensures file { kind_seen result ≡ Kind.File ↔ IsFile (file_type metadata.now) }
{
    Seen {
        kind: kind_of(metadata),
        stamp: stamp_of(metadata, home),
    }
}

fn stamp_of(metadata: &Metadata, home: Option<u64>) -> Option<Stamp> {
    let device = metadata.dev();
    Some(Stamp {
        device: if home == Some(device) { 0 } else { device },
        inode: metadata.ino(),
        size: metadata.size(),
        modified: nanoseconds(metadata.mtime(), metadata.mtime_nsec())?,
        changed: nanoseconds(metadata.ctime(), metadata.ctime_nsec())?,
    })
}

/// A time in nanoseconds since 1970. None if it is before 1970 or after 2554.
fn nanoseconds(seconds: i64, rest: i64) -> Option<u64>
    ensures { result ≡ nanoseconds_of seconds rest }
{
    let seconds = u64::try_from(seconds).ok()?;
    let rest = u64::try_from(rest).ok()?;
    seconds.checked_mul(1_000_000_000)?.checked_add(rest)
}

fn kind_of(metadata: &Metadata) -> Kind
    ensures folder { result ≡ Kind.Folder ↔ IsDir (file_type metadata.now) }
    ensures file { result ≡ Kind.File ↔ IsFile (file_type metadata.now) }
{
    if metadata.is_dir() {
        Kind::Folder
    } else if metadata.is_file() {
        Kind::File
    } else {
        Kind::Other
    }
}

fn id_of(metadata: &Metadata) -> FileId {
    FileId {
        device: metadata.dev(),
        node: metadata.ino(),
    }
}

/// Maps errors of the system to errors of a tree. A missing descriptor is no fault of the tree:
/// like memory, the process or the system lacks it.
pub(crate) fn fault_of(error: &io::Error) -> TreeFault
    ensures missing { result ≡ TreeFault.Missing →
        (error_kind error.now ≡ ErrorKind.NotFound) ⊎ (error_kind error.now ≡ ErrorKind.NotADirectory) }
    ensures denied { result ≡ TreeFault.Denied → error_kind error.now ≡ ErrorKind.PermissionDenied }
    ensures failed { result ≡ TreeFault.Failed → (error_kind error.now ≢ ErrorKind.NotFound)
        × (error_kind error.now ≢ ErrorKind.PermissionDenied)
        × (error_kind error.now ≢ ErrorKind.OutOfMemory) }
    ensures memory { result ≡ TreeFault.Memory → (error_kind error.now ≡ ErrorKind.OutOfMemory)
        ⊎ ((raw_os_error error.now ≡ Some (pos 23)) ⊎ (raw_os_error error.now ≡ Some (pos 24))) }
    ensures output { result ≢ TreeFault.Output }
{
    if let Some(PROCESS_DESCRIPTORS | SYSTEM_DESCRIPTORS) = error.raw_os_error() {
        return TreeFault::Memory;
    }
    match error.kind() {
        ErrorKind::NotFound | ErrorKind::NotADirectory => TreeFault::Missing,
        ErrorKind::PermissionDenied => TreeFault::Denied,
        ErrorKind::OutOfMemory => TreeFault::Memory,
        _ => TreeFault::Failed,
    }
}

/// The entries of a folder. After an interrupted call the folder is read again from its start.
fn list_folder<R: Files + AllocGlobal + Clone + Drop>(
    alloc: Global,
    rt: &R,
    path: &str,
    buffer: &mut [u8],
) -> io::Result<Listing>
    ensures names { IfOk result (λ listing. are_elements (listing_names listing) ≡ true) }
    ensures retried { IfErr result (λ error. error_kind error ≢ ErrorKind.Interrupted) }
{
    'tries: for _ in 0..u64::MAX {
        match list_once(alloc, rt, path, buffer) {
            Err(error) if is_interrupted(&error) => {}
            answer => return answer,
        }
    }
    Err(gave_up())
}

/// Reads a folder once. The buffer has to hold any name.
fn list_once<R: Files + AllocGlobal + Clone + Drop>(
    alloc: Global,
    rt: &R,
    path: &str,
    buffer: &mut [u8],
) -> io::Result<Listing>
    ensures { IfOk result (λ listing. are_elements (listing_names listing) ≡ true) }
{
    let mut listing = Listing {
        names: Vec::new(alloc),
        unnamed: false,
    };
    let mut folder = rt.open_dir(folder_path(alloc, path)?.as_str())?;
    'reads: for _ in 0..u64::MAX {
        let len = folder.read(buffer)?;
        if len == 0 {
            // A folder that changes during the read may list a name twice.
            order_names(&mut listing.names);
            return Ok(listing);
        }
        list_names(alloc, &mut listing, &buffer[..len])?;
    }
    Err(gave_up())
}

/// The path of a folder with a slash at its end, so that the system follows a link.
fn folder_path(alloc: Global, path: &str) -> Result<String, AllocError>
    ensures { IfOk result (λ folder. string_bytes folder ≡ path.now ++ slash ∷ []) }
{
    let mut folder = String::with_capacity(alloc, path.len() + 1)?;
    folder.push_str(path)?;
    folder.push('/')?;
    Ok(folder)
}

/// Adds the names that a read of a folder gave. A NUL follows each.
fn list_names(alloc: Global, listing: &mut Listing, names: &[u8]) -> Result<(), AllocError>
    requires { list_all is_element' (listing_names listing.old) ≡ true }
    ensures { OnOk result (list_all is_element' (listing_names listing.new) ≡ true) }
{
    let mut rest = names;
    'names: while let Some(len) = memchr(0, rest) {
        let (name, after) = rest.split_at(len);
        list_entry(alloc, listing, name)?;
        rest = &after[1..];
    }
    Ok(())
}

/// Adds the name of an entry, unless it is `.` or `..`. A name that is not text only sets
/// `unnamed`.
fn list_entry(alloc: Global, listing: &mut Listing, name: &[u8]) -> Result<(), AllocError>
    requires { list_all is_element' (listing_names listing.old) ≡ true }
    ensures elements { OnOk result (list_all is_element' (listing_names listing.new) ≡ true) }
    ensures dots { OnOk result (are_dots' name.now ≡ true → listing.new ≡ listing.old) }
    ensures added { OnOk result (are_dots' name.now ≡ false → IsUtf8 name.now →
        (listing_names listing.new ≡ (if is_element' name.now
        then listing_names listing.old ++ name.now ∷ [] else listing_names listing.old))
        × (listing.new.unnamed ≡ (listing.old.unnamed || not (is_element' name.now)))) }
    ensures unnamed { OnOk result (are_dots' name.now ≡ false → ¬ (IsUtf8 name.now) →
        (listing_names listing.new ≡ listing_names listing.old) × (listing.new.unnamed ≡ true)) }
{
    if are_dots(name) {
        return Ok(());
    }
    let Ok(name) = from_utf8(name) else {
        listing.unnamed = true;
        return Ok(());
    };
    list_name(alloc, listing, name)
}

/// Whether a name is `.` or `..`, which each folder has.
fn are_dots(name: &[u8]) -> bool
    ensures { result ≡ are_dots' name.now }
{
    name == b".".as_slice() || name == b"..".as_slice()
}

/// Adds a name to the listing. A name that is no element only sets `unnamed`.
fn list_name(alloc: Global, listing: &mut Listing, name: &str) -> Result<(), AllocError>
    requires { list_all is_element' (listing_names listing.old) ≡ true }
    ensures elements { OnOk result (list_all is_element' (listing_names listing.new) ≡ true) }
    ensures added { OnOk result (listing_names listing.new ≡ (if is_element' name.now
        then listing_names listing.old ++ name.now ∷ [] else listing_names listing.old)) }
    ensures unnamed { OnOk result
        (listing.new.unnamed ≡ (listing.old.unnamed || not (is_element' name.now))) }
{
    if is_element(name) {
        listing.names.push(String::from_str(alloc, name)?)?;
    } else {
        listing.unnamed = true;
    }
    Ok(())
}

/// Opens a path, unless it is the output or a folder. With `only_files` it opens only regular
/// files, and looks the path up before it opens it, so that a pipe does not block. If the file
/// becomes a folder in between, the open succeeds and the reads fail. A regular file of length 0 is
/// opened and closed again: in /proc such a file may have content, and its read may wait for ever.
fn open_file<R: Files + Drop>(
    rt: &R,
    only_files: bool,
    output: Option<FileId>,
    path: &str,
) -> Result<DiskFile<R::File>, TreeFault> {
    let mut is_empty = false;
    if only_files {
        is_empty = opened_len(fs::metadata(rt, path), true, output)? == 0;
    }
    let file = match fs::open(rt, path) {
        Ok(file) => file,
        Err(error) => return Err(fault_of(&error)),
    };
    if !only_files {
        opened_len(file.metadata(), false, output)?;
    }
    if is_empty {
        return Ok(DiskFile::Empty);
    }
    Ok(DiskFile::Open(file))
}

/// Opens a regular file, unless it is the output, and returns its stamp. The path is looked up
/// before, so that a pipe does not block.
fn open_stamped<R: Files + Drop>(
    rt: &R,
    output: Option<FileId>,
    home: Option<u64>,
    path: &str,
) -> Result<(DiskFile<R::File>, Option<Stamp>), TreeFault> {
    opened_len(fs::metadata(rt, path), true, output)?;
    let file = match fs::open(rt, path) {
        Ok(file) => file,
        Err(error) => return Err(fault_of(&error)),
    };
    let metadata = match file.metadata() {
        Ok(metadata) => metadata,
        Err(error) => return Err(fault_of(&error)),
    };
    let stamp = stamp_of(&metadata, home);
    if opened_len(Ok(metadata), true, output)? == 0 {
        return Ok((DiskFile::Empty, stamp));
    }
    Ok((DiskFile::Open(file), stamp))
}

/// The length of a file that may be opened, and an error for any other.
fn opened_len(
    metadata: io::Result<Metadata>,
    only_files: bool,
    output: Option<FileId>,
) -> Result<u64, TreeFault> {
    match metadata {
        Ok(metadata) if output == Some(id_of(&metadata)) => Err(TreeFault::Output),
        Ok(metadata) if metadata.is_file() => Ok(metadata.len()),
        Ok(metadata) if !only_files && !metadata.is_dir() => Ok(metadata.len()),
        Ok(_) => Err(TreeFault::Failed),
        Err(error) => Err(fault_of(&error)),
    }
}

/// Reads some bytes. Every error of the system is `Failed`, except `Memory` if it is out of memory.
fn read_some<F: Read>(file: &mut F, buf: &mut [u8]) -> Result<usize, TreeFault>
    ensures within { IfOk result (λ n. n ≤ length buf.new) }
    ensures fault { IfErr result IsReadFault }
    ensures bytes { ReadConsumes (F.remaining file.old) (F.remaining file.new) result buf.new }
{
    match retry_read(file, buf) {
        Ok(n) => Ok(n),
        Err(error) if error.kind() == ErrorKind::OutOfMemory => Err(TreeFault::Memory),
        Err(_) => Err(TreeFault::Failed),
    }
}
