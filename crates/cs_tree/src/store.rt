// Stores: bytes that are read by offset, of memory or of a file of the real disk.
ghost use Rattle.std.specs.Prelude.{◌≡◌, ◌≤◌, ◌<◌, ◌+◌, ◌^◌, vec_len, ℕ, List, Option, None, IfOk, IfSome, length, ◌≢◌, ◌↔◌, IsOk, Err};
ghost use Rattle.std.specs.Fs.{metadata_len, file_type, IsFile};
ghost use Rattle.cs_tree.specs.KeepsStore.{KeepsStore};
ghost use Rattle.cs_tree.specs.Transfers.{is_io_failure};
ghost use Rattle.cs_tree.specs.WholeReads.{items_of, FillShows, PartShows};
ghost use Rattle.cs_tree.specs.FailureCount.{count_after};
ghost use Rattle.cs_tree.specs.ByteList.{AreBytes};
ghost use Rattle.cs_tree.specs.Store.{HasLength, ReadShows};

use crate::disk_tree::fault_of;
use crate::fault::{IoFault, TreeFault};
use crate::std_io::{counted_call, retry_read_at};
use std::alloc::Global;
use std::fs::{Metadata, OpenFile};
use std::os::unix::fs::FileExt;

/// Bytes that are read by offset: an open file, or memory.
pub trait Store {
    /// The model: the bytes. None if the type is unmodelled.
    ghost model: { Self → Option (List ℕ) } = { λ _. None };

    /// The length in bytes; for a file, its length when it was opened.
    ghost size: { Self → ℕ };

    /// The number of failed reads, at most 2^64 - 1.
    ghost failed: { Self → ℕ };

    /// The length in bytes; for a file, its length when it was opened. No read changes it.
    fn len(&self) -> usize
        ensures size { result ≡ size self.now }
        ensures model { HasLength (model self.now) result }
        ensures bytes { IfSome (model self.now) AreBytes };

    /// Reads some bytes from the offset `at` on into the start of `buf` and returns their number,
    /// which is 0 only if there is no byte at `at` or `buf` is empty.
    fn read_at(&mut self, buf: &mut [u8], at: usize) -> Result<usize, IoFault>
        ensures within { IfOk result (λ n. n ≤ length buf.new) }
        ensures bytes { ReadShows (model self.old) at result buf.new }
        ensures keeps { model self.new ≡ model self.old }
        ensures size { size self.new ≡ size self.old }
        ensures failed { failed self.new ≡ count_after is_io_failure result (failed self.old) };

    /// The number of reads that returned `Failed`. It saturates at 2^64 - 1.
    fn failures(&self) -> u64
        ensures { result ≡ failed self.now };
}

/// An open file of the disk. Later changes of the name do not affect it. It has no model. A file
/// that has shrunk gives fewer bytes than its length says. Every error of the system is `Failed`,
/// except that an interrupted read is retried.
#[derive(Drop)]
pub struct DiskStore<F: Drop> {
    file: F,
    len: usize,
    failed: u64,
}

impl<F: OpenFile + FileExt + Drop> DiskStore<F> {
    /// Wraps an open file, with its current length. Returns an error unless it is a regular file,
    /// since a pipe cannot be read by offset.
    pub fn new(file: F) -> Result<DiskStore<F>, TreeFault>
        ensures { IfOk result (λ store. ⟦<DiskStore<F> as Store>⟧.failed store ≡ 0) }
    {
        match file.metadata() {
            Ok(metadata) => DiskStore::of_metadata(file, &metadata),
            Err(error) => Err(fault_of(&error)),
        }
    }

    fn of_metadata(file: F, metadata: &Metadata) -> Result<DiskStore<F>, TreeFault>
        ensures size { IfOk result (λ store. store.len ≡ metadata_len metadata.now) }
        ensures regular { IsOk result ↔ IsFile (file_type metadata.now) }
        ensures failed { IfOk result (λ store. ⟦<DiskStore<F> as Store>⟧.failed store ≡ 0) }
    {
        if !metadata.is_file() {
            return Err(TreeFault::Failed);
        }
        Ok(DiskStore {
            file,
            len: metadata.len() as usize,
            failed: 0,
        })
    }
}

impl<F: OpenFile + FileExt + Drop> Store for DiskStore<F> {
    ghost size = { λ s. s.len };

    ghost failed = { λ s. s.failed };

    fn len(&self) -> usize {
        self.len
    }

    fn read_at(&mut self, buf: &mut [u8], at: usize) -> Result<usize, IoFault>
        ensures within { IfOk result (λ n. n ≤ length buf.new) }
        ensures size { ⟦<DiskStore<F> as Store>⟧.size self.new
            ≡ ⟦<DiskStore<F> as Store>⟧.size self.old }
        ensures failed { ⟦<DiskStore<F> as Store>⟧.failed self.new
            ≡ count_after is_io_failure result (⟦<DiskStore<F> as Store>⟧.failed self.old) }
        ensures no_memory { result ≢ Err IoFault.Memory }
    {
        let answer = retry_read_at(&self.file, buf, at as u64);
        counted_call(&mut self.failed, answer)
    }

    fn failures(&self) -> u64 {
        self.failed
    }
}

/// Fills `buf` with the bytes from the offset `at` on and returns their number, which is less than
/// the length of `buf` only if the store ends first.
pub fn fill_at<S: Store>(store: &mut S, buf: &mut [u8], at: usize) -> Result<usize, IoFault>
    requires { at + length buf.old < 2 ^ 64 }
    ensures len { length buf.new ≡ length buf.old }
    ensures within { IfOk result (λ n. n ≤ length buf.new) }
    ensures bytes { FillShows (S.model store.old) at result buf.new }
    ensures store { KeepsStore S.model S.size S.failed store.old store.new result }
{
    let mut filled = 0;
    'reads: while filled < buf.len() {
        let n = store.read_at(&mut buf[filled..], at + filled)?;
        if n == 0 {
            return Ok(filled);
        }
        filled += n;
    }
    Ok(filled)
}

/// The `len` bytes from the offset `at` on, or fewer if the store ends first.
pub fn read_part<S: Store>(
    alloc: Global,
    store: &mut S,
    at: usize,
    len: usize,
) -> Result<Vec<u8>, IoFault>
    requires { at + len < 2 ^ 64 }
    ensures bound { IfOk result (λ part. vec_len part ≤ len) }
    ensures bytes { PartShows (S.model store.old) at len (items_of result) }
    ensures store { KeepsStore S.model S.size S.failed store.old store.new result }
{
    let mut part: Vec<u8> = Vec::new(alloc);
    part.resize(len, 0)?;
    let n = fill_at(store, &mut part, at)?;
    part.truncate(n);
    Ok(part)
}
