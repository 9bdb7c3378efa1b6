// Sources and sinks over std's `Read` and `Write`. A call that an interrupt (EINTR) ends is made
// again.
ghost use Rattle.std.specs.Prelude.{◌≡◌, ◌≢◌, ◌≤◌, ◌<◌, ℕ, List, [], Option, None, Ok, Err, IfOk, MatchResult, length, take, ◌↔◌, IfErr, IsTrue};
ghost use Rattle.std.specs.Io.KnownBytes.{Keeps, ReadConsumes, WriteAppends};
ghost use Rattle.std.specs.IoError.{error_kind};
ghost use Rattle.cs_tree.specs.Transfers.{ReadGives, is_io_failure};
ghost use Rattle.cs_tree.specs.Sinks.{Writes, Grows};
ghost use Rattle.cs_tree.specs.FailureCount.{count_after};
ghost use Rattle.cs_tree.specs.Writers.{reader_of, writer_of};
ghost use Rattle.cs_tree.specs.StreamModels.{SourceModel};

use crate::fault::{IoFault, io_failure};
use crate::sink::{Sink, Source};
use std::io::{self, ErrorKind, Read, Write};
use std::os::unix::fs::FileExt;

/// A source over a reader of std. It has no model. Every error of the reader is `Failed`, except
/// that an interrupted read is retried.
#[derive(Drop)]
pub struct StdSource<R: Drop> {
    inner: R,
    read_failures: u64,
}

impl<R: Read + Drop> StdSource<R> {
    /// A source over the reader, with no failure so far. Allocates nothing.
    pub fn new(inner: R) -> StdSource<R>
        ensures { ⟦<StdSource<R> as Source>⟧.failed result ≡ 0 }
    {
        StdSource {
            inner,
            read_failures: 0,
        }
    }
}

impl<R: Read + Drop> Source for StdSource<R> {
    ghost failed = { λ s. s.read_failures };

    ghost keeps_refl = { λ _. tt };

    ghost keeps_trans = { λ _ _ _ _ _. tt };

    fn read(&mut self, buf: &mut [u8]) -> Result<usize, IoFault>
        ensures within { IfOk result (λ n. n ≤ length buf.new) }
        ensures bytes { ReadConsumes (R.remaining (reader_of self.old))
            (R.remaining (reader_of self.new)) result buf.new }
        ensures failed { ⟦<StdSource<R> as Source>⟧.failed self.new
            ≡ count_after is_io_failure result (⟦<StdSource<R> as Source>⟧.failed self.old) }
        ensures no_memory { result ≢ Err IoFault.Memory }
    {
        let answer = retry_read(&mut self.inner, buf);
        counted_call(&mut self.read_failures, answer)
    }

    fn failures(&self) -> u64 {
        self.read_failures
    }
}

/// A sink over a writer of std. It has no model. Every error of the writer is `Failed`, and so is a
/// write that returns 0 for a `buf` that is not empty. An interrupted call is retried.
#[derive(Drop)]
pub struct StdSink<W: Drop> {
    inner: W,
    failed: u64,
}

impl<W: Write + Drop> StdSink<W> {
    /// A sink over the writer, with no failure so far. Allocates nothing.
    pub fn new(inner: W) -> StdSink<W>
        ensures { ⟦<StdSink<W> as Sink>⟧.failed result ≡ 0 }
    {
        StdSink { inner, failed: 0 }
    }
}

impl<W: Write + Drop> Sink for StdSink<W> {
    ghost failed = { λ s. s.failed };

    fn write(&mut self, buf: &[u8]) -> Result<usize, IoFault>
        ensures within { IfOk result (λ n. n ≤ length buf.now) }
        ensures some { IfOk result (λ n. 0 < length buf.now → 0 < n) }
        ensures bytes { WriteAppends (W.contents (writer_of self.old))
            (W.contents (writer_of self.new)) result buf.now }
        ensures failed { ⟦<StdSink<W> as Sink>⟧.failed self.new
            ≡ count_after is_io_failure result (⟦<StdSink<W> as Sink>⟧.failed self.old) }
        ensures no_memory { result ≢ Err IoFault.Memory }
    {
        match retry_write(&mut self.inner, buf) {
            Ok(n) if n > 0 || buf.is_empty() => Ok(n),
            _ => Err(io_failure(&mut self.failed)),
        }
    }

    fn flush(&mut self) -> Result<(), IoFault>
        ensures bytes { Keeps (W.contents (writer_of self.old)) (W.contents (writer_of self.new)) }
        ensures failed { ⟦<StdSink<W> as Sink>⟧.failed self.new
            ≡ count_after is_io_failure result (⟦<StdSink<W> as Sink>⟧.failed self.old) }
        ensures no_memory { result ≢ Err IoFault.Memory }
    {
        let answer = retry_flush(&mut self.inner);
        counted_call(&mut self.failed, answer)
    }

    fn failures(&self) -> u64 {
        self.failed
    }
}

/// The system's answer to a call. An error is `Failed`, and is counted.
pub(crate) fn counted_call<A: Drop>(failed: &mut u64, answer: io::Result<A>) -> Result<A, IoFault>
    ensures answer { MatchResult answer
        (λ value. result ≡ Ok value) (λ _. result ≡ Err IoFault.Failed) }
    ensures failed { failed.new ≡ count_after is_io_failure result failed.old }
{
    match answer {
        Ok(value) => Ok(value),
        Err(_) => Err(io_failure(failed)),
    }
}

/// A read, retried while it is interrupted.
pub(crate) fn retry_read<R: Read>(reader: &mut R, buf: &mut [u8]) -> io::Result<usize>
    ensures within { IfOk result (λ n. n ≤ length buf.new) }
    ensures retried { IfErr result (λ error. error_kind error ≢ ErrorKind.Interrupted) }
    ensures bytes { ReadConsumes (R.remaining reader.old) (R.remaining reader.new) result buf.new }
{
    'tries: for _ in 0..u64::MAX {
        match reader.read(buf) {
            Err(error) if is_interrupted(&error) => {}
            answer => return answer,
        }
    }
    Err(gave_up())
}

/// A read by offset, retried while it is interrupted.
pub(crate) fn retry_read_at<F: FileExt>(file: &F, buf: &mut [u8], at: u64) -> io::Result<usize>
    ensures within { IfOk result (λ n. n ≤ length buf.new) }
    ensures retried { IfErr result (λ error. error_kind error ≢ ErrorKind.Interrupted) }
{
    'tries: for _ in 0..u64::MAX {
        match file.read_at(buf, at) {
            Err(error) if is_interrupted(&error) => {}
            answer => return answer,
        }
    }
    Err(gave_up())
}

/// Whether the error is an interrupt.
pub(crate) fn is_interrupted(error: &io::Error) -> bool
    ensures { IsTrue result ↔ (error_kind error.now ≡ ErrorKind.Interrupted) }
{
    error.kind() == ErrorKind::Interrupted
}

/// The error after 2^64 - 1 interrupted calls.
pub(crate) fn gave_up() -> io::Error
    ensures { error_kind result ≢ ErrorKind.Interrupted }
{
    io::Error::from(ErrorKind::TimedOut)
}

/// A write, retried while it is interrupted.
fn retry_write<W: Write>(writer: &mut W, buf: &[u8]) -> io::Result<usize>
    ensures within { IfOk result (λ n. n ≤ length buf.now) }
    ensures retried { IfErr result (λ error. error_kind error ≢ ErrorKind.Interrupted) }
    ensures bytes { WriteAppends (W.contents writer.old) (W.contents writer.new) result buf.now }
{
    'tries: for _ in 0..u64::MAX {
        match writer.write(buf) {
            Err(error) if is_interrupted(&error) => {}
            answer => return answer,
        }
    }
    Err(gave_up())
}

/// A flush, retried while it is interrupted.
fn retry_flush<W: Write>(writer: &mut W) -> io::Result<()>
    ensures retried { IfErr result (λ error. error_kind error ≢ ErrorKind.Interrupted) }
    ensures bytes { Keeps (W.contents writer.old) (W.contents writer.new) }
{
    'tries: for _ in 0..u64::MAX {
        match writer.flush() {
            Err(error) if is_interrupted(&error) => {}
            answer => return answer,
        }
    }
    Err(gave_up())
}
