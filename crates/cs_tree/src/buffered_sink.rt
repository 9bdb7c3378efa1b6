// The type of a sink with a buffer. It has a module of its own because `specs/BufferedSinks.antt`
// cites it.
ghost use Rattle.std.specs.Prelude.{◌≤◌, vec_len};

/// A sink that collects what is written, and writes it to an inner sink when its buffer is full or
/// flushed. Bytes that the inner sink refused stay in the buffer, and the next call that empties
/// the buffer writes them. Nothing is written when it is dropped.
#[derive(Drop)]
pub struct BufferedSink<O: Drop> {
    pub(crate) bytes: Vec<u8>,
    /// The bytes from `start` to `end` are those that the inner sink has still to get.
    pub(crate) start: usize,
    pub(crate) end: usize,
    pub(crate) inner: O,
    ghost within: { (start ≤ end) × (end ≤ vec_len bytes) },
}
