// Sources, stores and sinks in memory.
ghost use Rattle.std.specs.Prelude.{◌≡◌, ◌≢◌, ◌≤◌, ◌<◌, ◌+◌, ◌-◌, ◌↔◌, ℕ, List, [], Option, Some, None, IfOk, IsOk, Ok, Err, length, min, refl, if◌then◌else◌};
ghost use Rattle.cs_tree.specs.Transfers.{ReadGives, is_io_failure};
ghost use Rattle.cs_tree.specs.Sinks.{Writes, Flushes, Grows};
ghost use Rattle.cs_tree.specs.FailureCount.{count_after};
ghost use Rattle.cs_tree.specs.ByteList.{AreBytes};
ghost use Rattle.std.proofs.Common.{◌∙◌};
ghost use Rattle.cs_tree.specs.StreamModels.{SourceModel, source_model};
ghost use Rattle.cs_tree.specs.MemStreams.{source_step, read_size, count_at, room_of, room_left, sink_model, empty_sink};
ghost use Rattle.cs_tree.specs.Store.{HasLength, ReadShows};

use crate::fault::{IoFault, io_failure};
use crate::mem_types::{MemSink, MemSource, MemStore};
use crate::sink::{Sink, Source};
use crate::store::Store;
use std::alloc::Global;

impl<'a> MemSource<'a> {
    /// A source of the bytes; a read returns at most `step` of them. After the last byte every read
    /// returns 0, or `Failed` if `cut` is set.
    pub fn new(bytes: &'a [u8], step: usize, cut: bool) -> MemSource<'a>
        requires { 0 < step }
        ensures model { ⟦<MemSource<'a> as Source>⟧.model result
            ≡ Some (source_model bytes.now cut) }
        ensures failed { ⟦<MemSource<'a> as Source>⟧.failed result ≡ 0 }
        ensures step { source_step result ≡ step }
    {
        MemSource {
            rest: bytes,
            step,
            cut,
            read_failures: 0,
        }
    }
}

impl<'a> Source for MemSource<'a> {
    ghost model = { λ s. Some (source_model s.rest.now s.cut) };

    ghost failed = { λ s. s.read_failures };

    ghost Keeps = { λ old new. source_step new ≡ source_step old };

    ghost keeps_refl = { λ _. refl };

    ghost keeps_trans = { λ _ _ _ first next. next ∙ first };

    /// Allocates nothing.
    fn read(&mut self, buf: &mut [u8]) -> Result<usize, IoFault>
        ensures within { IfOk result (λ n. n ≤ length buf.new) }
        ensures bytes { ReadGives (⟦<MemSource<'a> as Source>⟧.model self.old)
            (⟦<MemSource<'a> as Source>⟧.model self.new) result buf.new }
        ensures failed { ⟦<MemSource<'a> as Source>⟧.failed self.new
            ≡ count_after is_io_failure result (⟦<MemSource<'a> as Source>⟧.failed self.old) }
        ensures keeps { source_step self.new ≡ source_step self.old }
        ensures size { IfOk result (λ n. n ≡ read_size self.old (length buf.new)) }
        ensures no_memory { result ≢ Err IoFault.Memory }
    {
        if self.rest.is_empty() && self.cut {
            return Err(io_failure(&mut self.read_failures));
        }
        let n = self.step.min(buf.len()).min(self.rest.len());
        let (prefix, rest) = self.rest.split_at(n);
        buf[..n].copy_from_slice(prefix);
        self.rest = rest;
        Ok(n)
    }

    fn failures(&self) -> u64 {
        self.read_failures
    }
}

fn count(bytes: &[u8]) -> usize
    ensures count { result ≡ length bytes.now }
    ensures bytes { AreBytes bytes.now }
{
    bytes.len()
}

impl<'a> MemStore<'a> {
    /// A store of the bytes; a read returns at most `step` of them.
    pub fn new(bytes: &'a [u8], step: usize) -> MemStore<'a>
        requires { 0 < step }
        ensures model { ⟦<MemStore<'a> as Store>⟧.model result ≡ Some bytes.now }
        ensures count { (at : ℕ) (room : ℕ)
            → count_at result at room ≡ min (min step room) (length bytes.now - at) }
    {
        MemStore { bytes, step }
    }
}

impl<'a> Store for MemStore<'a> {
    ghost model = { λ s. Some s.bytes.now };

    ghost size = { λ s. length s.bytes.now };

    ghost failed = { λ _. 0 };

    fn len(&self) -> usize {
        count(self.bytes)
    }

    /// Succeeds, allocates nothing, and does not change the store.
    fn read_at(&mut self, buf: &mut [u8], at: usize) -> Result<usize, IoFault>
        ensures within { IfOk result (λ n. n ≤ length buf.new) }
        ensures bytes { ReadShows (⟦<MemStore<'a> as Store>⟧.model self.old) at result buf.new }
        ensures keeps { ⟦<MemStore<'a> as Store>⟧.model self.new
            ≡ ⟦<MemStore<'a> as Store>⟧.model self.old }
        ensures size { ⟦<MemStore<'a> as Store>⟧.size self.new
            ≡ ⟦<MemStore<'a> as Store>⟧.size self.old }
        ensures failed { ⟦<MemStore<'a> as Store>⟧.failed self.new
            ≡ count_after is_io_failure result (⟦<MemStore<'a> as Store>⟧.failed self.old) }
        ensures count { result ≡ Ok (count_at self.old at (length buf.new)) }
        ensures same { self.new ≡ self.old }
    {
        let rest = &self.bytes[at.min(self.bytes.len())..];
        let n = self.step.min(buf.len()).min(rest.len());
        buf[..n].copy_from_slice(&rest[..n]);
        Ok(n)
    }

    fn failures(&self) -> u64 {
        0
    }
}

impl MemSink {
    /// An empty sink with a capacity of `room` bytes.
    pub fn new(alloc: Global, room: usize) -> MemSink
        ensures model { ⟦<MemSink as Sink>⟧.model result ≡ Some empty_sink }
        ensures failed { ⟦<MemSink as Sink>⟧.failed result ≡ 0 }
        ensures room { room_of result ≡ room }
    {
        MemSink {
            bytes: Vec::new(alloc),
            room,
            flushed: 0,
            flushes: 0,
            failed: 0,
        }
    }

    /// The bytes that were written.
    pub fn bytes(&self) -> &[u8]
        ensures { result.now ≡ (sink_model self.now).bytes }
    {
        &self.bytes
    }

    /// The number of flushed bytes: those that were written before the last flush.
    pub fn flushed(&self) -> usize
        ensures { result ≡ (sink_model self.now).flushed }
    {
        self.flushed
    }

    /// The number of flushes, at most 2^64 - 1.
    pub fn flushes(&self) -> u64
        ensures { result ≡ (sink_model self.now).flushes }
    {
        self.flushes
    }
}

impl Sink for MemSink {
    ghost model = { λ s. Some (sink_model s) };

    ghost failed = { λ s. s.failed };

    /// Writes as many of the bytes as fit. Returns `Failed` if `buf` is not empty and no byte fits.
    fn write(&mut self, buf: &[u8]) -> Result<usize, IoFault>
        ensures within { IfOk result (λ n. n ≤ length buf.now) }
        ensures some { IfOk result (λ n. 0 < length buf.now → 0 < n) }
        ensures bytes { Writes (⟦<MemSink as Sink>⟧.model self.old)
            (⟦<MemSink as Sink>⟧.model self.new) result buf.now }
        ensures fitting { IfOk result (λ n. n ≡ min (room_left self.old) (length buf.now)) }
        ensures full { (result ≡ Err IoFault.Failed)
            ↔ ((room_left self.old ≡ 0) × (0 < length buf.now)) }
        ensures room { room_of self.new ≡ room_of self.old }
        ensures failed { ⟦<MemSink as Sink>⟧.failed self.new
            ≡ count_after is_io_failure result (⟦<MemSink as Sink>⟧.failed self.old) }
    {
        let free = self.room.saturating_sub(self.bytes.len());
        if free == 0 && !buf.is_empty() {
            return Err(io_failure(&mut self.failed));
        }
        let n = free.min(buf.len());
        self.bytes.extend_from_slice(&buf[..n])?;
        Ok(n)
    }

    /// Succeeds.
    fn flush(&mut self) -> Result<(), IoFault>
        ensures bytes { Flushes (⟦<MemSink as Sink>⟧.model self.old)
            (⟦<MemSink as Sink>⟧.model self.new) result }
        ensures room { room_of self.new ≡ room_of self.old }
        ensures failed { ⟦<MemSink as Sink>⟧.failed self.new
            ≡ count_after is_io_failure result (⟦<MemSink as Sink>⟧.failed self.old) }
        ensures succeeds { IsOk result }
    {
        self.flushed = self.bytes.len();
        self.flushes = self.flushes.saturating_add(1);
        Ok(())
    }

    fn failures(&self) -> u64 {
        self.failed
    }
}
