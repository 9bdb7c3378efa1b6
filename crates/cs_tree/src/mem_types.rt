// The types of streams in memory. They have a module of their own because `specs/MemStreams.antt`
// cites them.
ghost use Rattle.std.specs.Prelude.{◌<◌};

/// A source in memory. Its model is the remaining bytes.
#[derive(Drop)]
pub struct MemSource<'a> {
    pub(crate) rest: &'a [u8],
    pub(crate) step: usize,
    pub(crate) cut: bool,
    pub(crate) read_failures: u64,
    ghost some: { 0 < step },
}

/// A store in memory. Its model is its bytes.
#[derive(Drop)]
pub struct MemStore<'a> {
    pub(crate) bytes: &'a [u8],
    pub(crate) step: usize,
    ghost some: { 0 < step },
}

/// A sink into memory with a fixed capacity. Its model is the bytes that were written, and the
/// flushes.
#[derive(Drop)]
pub struct MemSink {
    pub(crate) bytes: Vec<u8>,
    pub(crate) room: usize,
    /// The number of flushed bytes: those that were written before the last flush.
    pub(crate) flushed: usize,
    /// The number of flushes, at most 2^64 - 1.
    pub(crate) flushes: u64,
    pub(crate) failed: u64,
}
