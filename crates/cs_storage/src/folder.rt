// The index file and its surroundings, why it cannot be read or written, and FILE~ as an output.
ghost use Rattle.std.specs.Prelude.{◌≡◌, ◌++◌, ℕ, List, [], Option, None, IfOk, IfSome, OnOk, ◌≢◌, ◌⊎◌, ◌↔◌, Some, pos, refl};
ghost use Rattle.std.specs.IoError.{error_kind, raw_os_error};
ghost use Rattle.std.proofs.Common.{◌∙◌};
ghost use Rattle.cs_storage.specs.Storing.{Folder, Moves, Looks, Claims, Compares, Fills, Syncs, Renames, Removes, Releases, IsHeld};
ghost use Rattle.cs_storage.specs.declared.folder.StorageFault.TheVariants.{Memory};
ghost use Rattle.cs_storage.specs.NewFiles.{folder_filled, reference_filled, FillsOn};

use cs_tree::{Output, Store, TreeFault};
use std::alloc::{AllocError, AllocFailed};
use std::io::{self, ErrorKind};

/// The index file and its surroundings: FILE, and FILE~ beside it, as one run sees and changes
/// them.
pub trait IndexFolder {
    /// The opened index file.
    type Index: Store + Drop;

    /// The model. None if the type is unmodelled.
    ghost model: { Self → Option Folder } = { λ _. None };

    /// The bytes that FILE~ was given since it was made.
    ghost given: { Self → List ℕ };

    /// Opens FILE; None if there is no file. No read of it has failed.
    fn look(&mut self) -> Result<Option<Self::Index>, StorageFault>
        ensures looks { Moves (Looks Self.Index.model result) (model self.old) (model self.new) }
        ensures fresh { IfOk result (λ opened. IfSome opened (λ index. Self.Index.failed index ≡ 0)) };

    /// Makes FILE~ and locks it. Returns an error if another run holds it, or if it cannot be made.
    fn claim(&mut self) -> Result<(), StorageFault>
        ensures claims { Moves (Claims result) (model self.old) (model self.new) }
        ensures given { OnOk result (given self.new ≡ []) };

    /// Whether FILE is still what `look` opened, or is still missing.
    fn is_unchanged(&mut self) -> bool
        ensures compares { Moves (Compares result) (model self.old) (model self.new) }
        ensures given { given self.new ≡ given self.old };

    /// Appends bytes to FILE~. The first error is kept for `sync`.
    fn append(&mut self, bytes: &[u8])
        ensures fills { Moves Fills (model self.old) (model self.new) }
        ensures given { given self.new ≡ given self.old ++ bytes.now };

    /// Syncs FILE~. Returns an error also if an append failed.
    fn sync(&mut self) -> Result<(), StorageFault>
        requires { IsHeld (model self.old) }
        ensures { Moves (Syncs (given self.old) result) (model self.old) (model self.new) };

    /// Renames FILE~ to FILE.
    fn rename(&mut self) -> Result<(), StorageFault>
        requires { IsHeld (model self.old) }
        ensures { Moves (Renames result) (model self.old) (model self.new) };

    /// Removes FILE; succeeds if there is none.
    fn remove(&mut self) -> Result<(), StorageFault>
        requires { IsHeld (model self.old) }
        ensures { Moves (Removes result) (model self.old) (model self.new) };

    /// Takes FILE~ away.
    fn release(&mut self)
        ensures { Moves Releases (model self.old) (model self.new) };
}

/// Why the index file cannot be read or written.
#[derive(Clone, Copy, Debug, PartialEq, Eq)]
pub enum StorageFault {
    /// A call of the system failed, or FILE has changed since it was opened.
    Failed,
    /// Another run holds FILE~.
    Locked,
    /// At FILE~ there is a file that this run may not take away.
    Leftover,
    /// The process or the system can open no more files.
    Descriptors,
    /// An allocation failed.
    Memory,
}

/// The error of the system if the process can open no more files (EMFILE).
const PROCESS_DESCRIPTORS: i32 = 24;

/// The error of the system if no process can open more files (ENFILE).
const SYSTEM_DESCRIPTORS: i32 = 23;

impl From<io::Error> for StorageFault {
    fn from(error: io::Error) -> StorageFault
        ensures descriptors { result ≡ StorageFault.Descriptors ↔
            ((raw_os_error error ≡ Some (pos 24)) ⊎ (raw_os_error error ≡ Some (pos 23))) }
        ensures memory { result ≡ StorageFault.Memory → error_kind error ≡ ErrorKind.OutOfMemory }
        ensures failed { result ≡ StorageFault.Failed → error_kind error ≢ ErrorKind.OutOfMemory }
        ensures leftover { result ≢ StorageFault.Leftover }
        ensures locked { result ≢ StorageFault.Locked }
    {
        if let Some(PROCESS_DESCRIPTORS | SYSTEM_DESCRIPTORS) = error.raw_os_error() {
            return StorageFault::Descriptors;
        }
        match error.kind() {
            ErrorKind::OutOfMemory => StorageFault::Memory,
            _ => StorageFault::Failed,
        }
    }
}

impl From<TreeFault> for StorageFault {
    fn from(fault: TreeFault) -> StorageFault
        ensures memory { fault ≡ TreeFault.Memory → result ≡ StorageFault.Memory }
        ensures failed { fault ≢ TreeFault.Memory → result ≡ StorageFault.Failed }
    {
        match fault {
            TreeFault::Memory => StorageFault::Memory,
            _ => StorageFault::Failed,
        }
    }
}

impl From<AllocError> for StorageFault {
    ghost from_gives = { λ _ fault. fault ≡ Memory };

    fn from(_refused: AllocError) -> StorageFault {
        StorageFault::Memory
    }
}

impl<T: Drop> From<AllocFailed<T>> for StorageFault {
    ghost from_gives = { λ _ fault. fault ≡ Memory };

    fn from(_refused: AllocFailed<T>) -> StorageFault {
        StorageFault::Memory
    }
}

/// FILE~ of a folder as an output.
#[derive(Drop)]
pub struct NewFile<'a, F> {
    folder: &'a mut F,
}

impl<'a, F: IndexFolder> NewFile<'a, F> {
    /// An output that appends to FILE~. Allocates nothing.
    pub fn new(folder: &'a mut F) -> NewFile<'a, F>
        ensures same_reference { reference_filled result ≡ folder.entry.ghost_name }
        ensures same_folder { folder_filled result ≡ folder.old }
    {
        NewFile { folder }
    }
}

impl<'a, F: IndexFolder> Output for NewFile<'a, F> {
    ghost given = { λ f. F.given (folder_filled f) };

    ghost Keeps = { λ f g. (reference_filled g ≡ reference_filled f)
        × FillsOn (F.model (folder_filled f)) (F.model (folder_filled g)) };

    ghost keeps_refl = { λ _. (refl, λ start fills. fills) };

    ghost keeps_trans = { λ x y z first next. (
      next.0 ∙ first.0,
      λ start fills. next.1 start (first.1 start fills),
    ) };

    /// An error of the file is reported by `sync`.
    fn append(&mut self, bytes: &[u8]) -> Result<(), AllocError> {
        self.folder.append(bytes);
        Ok(())
    }
}
