// A folder in memory, and its opened index file.
ghost use Rattle.std.specs.Prelude.{◌≡◌, ◌<◌, ◌++◌, ◌∷◌, [], ◌↔◌, Some, None, Ok, IfOk, OnOk, OnErr, IsOk, IsErr, IsSome, IsTrue, map, option_map, unwrap_or, length};
ghost use Rattle.cs_storage.specs.Storing.{Moves, Compares, ChangesNothing, HasBytesOf, Renames, Removes, left_renamed, left_whole};
ghost use Rattle.cs_fakes.specs.MemFolders.{folder_view, bytes_view, left_view, own_view, mem_bytes, answered, no_plan, plan_of, plan_after, file_met};
ghost use Rattle.cs_tree.specs.ByteList.{AreBytes};

use crate::types::{MemFile, MemFolder, MemIndex, MemLeft, MemOpened, MemVisit};
use cs_storage::{IndexFolder, StorageFault};
use cs_tree::{IoFault, Sent, Store};
use std::alloc::{AllocError, Global};

impl MemFolder {
    /// A folder with this file, which is on the disk, or with none.
    pub fn new(alloc: Global, file: Option<Vec<u8>>) -> Result<MemFolder, AllocError>
        ensures file { IfOk result (λ folder. (folder_view folder).file ≡ bytes_view file) }
        ensures now { IfOk result (λ folder. (folder_view folder).now
            ≡ left_whole (bytes_view file) ∷ []) }
        ensures free { IfOk result (λ folder. (folder_view folder).own ≡ None) }
        ensures fresh { IfOk result (λ folder. (folder_view folder).replaced ≡ None) }
        ensures plan { IfOk result (λ folder. plan_of folder ≡ no_plan) }
    {
        let mut lefts = Vec::new(alloc);
        lefts.push(left_of_file(alloc, &file)?)?;
        Ok(MemFolder {
            alloc,
            file,
            seen: None,
            own: None,
            given: Sent::new(),
            failure: None,
            lefts,
            now_at: 0,
            since_at: 0,
            stuck: 0,
            replaced: None,
            added: Vec::new(alloc),
            refused: None,
            taken: false,
            next: None,
            calls: usize::MAX,
        })
    }

    /// The bytes at FILE, if there is a file.
    pub fn file(&self) -> Option<&[u8]>
        ensures { option_map (λ bytes. bytes.now) result ≡ (folder_view self.now).file }
    {
        self.file.as_deref()
    }

    /// What a crash since the claim may have left at FILE.
    pub fn lefts(&self) -> &[MemLeft]
        ensures { map left_view result.now ≡ (folder_view self.now).since }
    {
        self.lefts.split_at(self.since_at).1
    }

    /// Whether FILE~ is held.
    pub fn is_held(&self) -> bool
        ensures { IsTrue result ↔ IsSome (folder_view self.now).own }
    {
        self.own.is_some()
    }

    /// After this number of calls the run crashes: every later call fails, and changes nothing.
    pub fn crash_after(&mut self, calls: usize)
        ensures keeps { folder_view self.new ≡ folder_view self.old }
        ensures plan { plan_of self.new ≡ record (plan_of self.old) { calls = calls } }
    {
        self.calls = calls;
    }

    /// Another run holds FILE~, or no other run does.
    pub fn set_taken(&mut self, taken: bool)
        ensures keeps { folder_view self.new ≡ folder_view self.old }
        ensures plan { plan_of self.new ≡ record (plan_of self.old) { taken = taken } }
    {
        self.taken = taken;
    }

    /// Before the next call for which FILE~ is not held, another run changes FILE to this.
    pub fn let_other_run(&mut self, file: Option<Vec<u8>>) -> Result<(), AllocError>
        ensures keeps { folder_view self.new ≡ folder_view self.old }
        ensures plan { OnOk result
            (plan_of self.new ≡ record (plan_of self.old) { visit = Some (bytes_view file) }) }
        ensures refused { OnErr result (plan_of self.new ≡ plan_of self.old) }
    {
        let left = left_of_file(self.alloc, &file)?;
        self.next = Some(MemVisit { file, left });
        Ok(())
    }

    /// Another run acts, unless FILE~ is held. After the crash, returns an error.
    fn step(&mut self) -> Result<(), StorageFault>
        ensures changes { ChangesNothing (folder_view self.old) (folder_view self.new) }
        ensures given { self.new.given ≡ self.old.given }
        ensures plan { plan_of self.new ≡ plan_after self.old }
        ensures met { OnOk result (bytes_view self.new.file ≡ file_met self.old) }
        ensures crash { self.old.calls ≡ 0 → IsErr result }
        ensures acts { IsSome self.old.own → 0 < self.old.calls → IsOk result }
    {
        let crashed = self.calls == 0;
        self.calls = self.calls.saturating_sub(1);
        if self.own.is_none() {
            self.be_visited()?;
        }
        if crashed {
            return Err(StorageFault::Failed);
        }
        Ok(())
    }

    /// Copies FILE, for the caller and for the comparisons to come.
    fn open(&mut self) -> Result<MemOpened, StorageFault>
        ensures changes { ChangesNothing (folder_view self.old) (folder_view self.new) }
        ensures seen { IfOk result
            (λ opened. bytes_view opened.seen ≡ (folder_view self.new).file) }
        ensures index { IfOk result (λ opened.
            HasBytesOf mem_bytes opened.index (folder_view self.new).file) }
    {
        self.step()?;
        let Some(bytes) = &self.file else {
            return Ok(MemOpened {
                seen: None,
                index: None,
            });
        };
        Ok(MemOpened {
            seen: Some(bytes.to_vec(self.alloc)?),
            index: Some(MemIndex {
                bytes: bytes.to_vec(self.alloc)?,
            }),
        })
    }

    /// Whether FILE is what was opened.
    fn is_seen(&self) -> bool
        ensures { IsTrue result
            ↔ ((folder_view self.now).seen ≡ Some (Ok (folder_view self.now).file)) }
    {
        match &self.seen {
            Some(Ok(seen)) => is_same(&self.file, seen),
            Some(Err(_)) | None => false,
        }
    }

    /// Another run changes FILE.
    fn be_visited(&mut self) -> Result<(), AllocError>
        requires { (folder_view self.old).own ≡ None }
        ensures changes { ChangesNothing (folder_view self.old) (folder_view self.new) }
        ensures given { self.new.given ≡ self.old.given }
        ensures plan { plan_of self.new ≡ record (plan_of self.old) { visit = None } }
        ensures met { OnOk result (bytes_view self.new.file
            ≡ unwrap_or (plan_of self.old).visit (bytes_view self.old.file)) }
    {
        if let Some(MemVisit { file, left }) = self.next.take() {
            self.now_at = self.lefts.len();
            self.lefts.push(left)?;
            self.file = file;
        }
        Ok(())
    }

    /// Renames FILE~ to FILE.
    fn replace(&mut self) -> Result<(), StorageFault>
        requires { IsSome (folder_view self.old).own }
        ensures { Renames result (folder_view self.old) (answered result (folder_view self.new)) }
    {
        self.step()?;
        let Some(own) = &self.own else {
            return Err(StorageFault::Failed);
        };
        let left = left_of_temp(self.alloc, own)?;
        let added = left_of_temp(self.alloc, own)?;
        self.added.reserve(1)?;
        self.lefts.push(left)?;
        self.added.push(added)?;
        self.replaced = Some(self.file.take());
        self.file = self.own.take().map(|own| own.bytes);
        Ok(())
    }

    /// Removes FILE.
    fn clear(&mut self) -> Result<(), StorageFault>
        requires { IsSome (folder_view self.old).own }
        ensures { Removes result (folder_view self.old) (answered result (folder_view self.new)) }
    {
        self.step()?;
        self.added.reserve(1)?;
        self.lefts.push(MemLeft::Absent)?;
        self.added.push(MemLeft::Absent)?;
        self.replaced = Some(self.file.take());
        Ok(())
    }
}

impl IndexFolder for MemFolder {
    type Index = MemIndex;

    ghost model = { λ m. Some (folder_view m) };

    ghost given = { λ m. m.given.bytes };

    fn look(&mut self) -> Result<Option<MemIndex>, StorageFault> {
        match self.open() {
            Ok(opened) => {
                self.seen = Some(Ok(opened.seen));
                Ok(opened.index)
            }
            Err(fault) => {
                self.seen = Some(Err(fault));
                Err(fault)
            }
        }
    }

    fn claim(&mut self) -> Result<(), StorageFault> {
        let claimed = self.step();
        if claimed.is_err() || self.taken {
            self.own = None;
            self.refused = Some(StorageFault::Failed);
            return Err(StorageFault::Failed);
        }
        self.refused = None;
        self.own = Some(MemFile {
            bytes: Vec::new(self.alloc),
            synced: false,
        });
        self.given = Sent::new();
        self.failure = None;
        self.since_at = self.now_at;
        Ok(())
    }

    fn is_unchanged(&mut self) -> bool
        ensures compares { Moves (Compares result)
            (⟦<MemFolder as IndexFolder>⟧.model self.old)
            (⟦<MemFolder as IndexFolder>⟧.model self.new) }
        ensures given { ⟦<MemFolder as IndexFolder>⟧.given self.new
            ≡ ⟦<MemFolder as IndexFolder>⟧.given self.old }
        ensures plan { plan_of self.new ≡ plan_after self.old }
        ensures answer { IsSome (folder_view self.old).own → (IsTrue result
            ↔ ((0 < (plan_of self.old).calls)
            × ((folder_view self.old).seen ≡ Some (Ok (folder_view self.old).file)))) }
    {
        let unchanged = self.step().is_ok() && self.is_seen();
        if !unchanged {
            self.refused = Some(StorageFault::Failed);
        }
        unchanged
    }

    fn append(&mut self, bytes: &[u8]) {
        let stepped = self.step();
        let mut failure = self.failure.or(stepped.err());
        if let (Some(own), None) = (&mut self.own, failure) {
            own.synced = false;
            failure = own
                .bytes
                .extend_from_slice(bytes)
                .err()
                .map(StorageFault::from);
        }
        self.given.push(bytes);
        self.failure = failure;
    }

    fn sync(&mut self) -> Result<(), StorageFault> {
        self.refused = self.step().err().or(self.failure);
        if let Some(fault) = self.refused {
            return Err(fault);
        }
        if let Some(own) = &mut self.own {
            own.synced = true;
        }
        Ok(())
    }

    fn rename(&mut self) -> Result<(), StorageFault> {
        let renamed = self.replace();
        self.refused = renamed.err();
        renamed
    }

    fn remove(&mut self) -> Result<(), StorageFault> {
        let removed = self.clear();
        self.refused = removed.err();
        removed
    }

    fn release(&mut self) {
        if self.step().is_ok() {
            self.own = None;
        } else if self.own.is_some() {
            self.stuck = self.stuck.saturating_add(1);
        }
    }
}

impl Store for MemIndex {
    ghost model = { λ s. Some s.bytes.items };

    ghost size = { λ s. length s.bytes.items };

    ghost failed = { λ _. 0 };

    fn len(&self) -> usize {
        count(&self.bytes)
    }

    fn read_at(&mut self, buf: &mut [u8], at: usize) -> Result<usize, IoFault> {
        let rest = &self.bytes[at.min(self.bytes.len())..];
        let n = buf.len().min(rest.len());
        buf[..n].copy_from_slice(&rest[..n]);
        Ok(n)
    }

    fn failures(&self) -> u64 {
        0
    }
}

/// What a crash leaves of a file that is on the disk, or of none.
fn left_of_file(alloc: Global, file: &Option<Vec<u8>>) -> Result<MemLeft, AllocError>
    ensures { IfOk result (λ left. left_view left ≡ left_whole (bytes_view file.now)) }
{
    match file {
        Some(bytes) => Ok(MemLeft::Whole(bytes.to_vec(alloc)?)),
        None => Ok(MemLeft::Absent),
    }
}

/// What a crash leaves of FILE~ once it is renamed.
fn left_of_temp(alloc: Global, own: &MemFile) -> Result<MemLeft, AllocError>
    ensures { IfOk result (λ left. left_view left ≡ left_renamed (own_view own.now)) }
{
    if own.synced {
        Ok(MemLeft::Whole(own.bytes.to_vec(alloc)?))
    } else {
        Ok(MemLeft::Torn)
    }
}

/// Whether both are missing, or have the same bytes.
fn is_same(one: &Option<Vec<u8>>, other: &Option<Vec<u8>>) -> bool
    ensures { IsTrue result ↔ (bytes_view one.now ≡ bytes_view other.now) }
{
    one == other
}

fn count(bytes: &[u8]) -> usize
    ensures count { result ≡ length bytes.now }
    ensures bytes { AreBytes bytes.now }
{
    bytes.len()
}
