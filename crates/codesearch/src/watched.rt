// Standard output and standard error of `cs`, by what happened to them.

use cs_project::INPUT_LINE;
use cs_tree::{IoFault, Sink};
use std::cell::Cell;
use std::io::{self, ErrorKind, Write};

/// A writer that remembers whether its reader has gone (EPIPE).
#[derive(Drop)]
pub(crate) struct WatchedWriter<'c, W: Drop> {
    pub(crate) inner: W,
    pub(crate) is_closed: &'c Cell<bool>,
}

impl<W: Write + Drop> Write for WatchedWriter<'_, W> {
    ghost contents = { λ w. W.contents w.inner };

    fn write(&mut self, buf: &[u8]) -> io::Result<usize> {
        let answer = self.inner.write(buf);
        if let Err(error) = &answer {
            if error.kind() == ErrorKind::BrokenPipe {
                self.is_closed.set(true);
            }
        }
        answer
    }

    fn flush(&mut self) -> io::Result<()> {
        self.inner.flush()
    }
}

/// A sink that remembers whether anything was written to it but the line about the input. It has
/// the model of the inner sink.
#[derive(Drop)]
pub(crate) struct WatchedSink<O: Drop> {
    pub(crate) inner: O,
    pub(crate) is_used: bool,
}

impl<O: Drop> WatchedSink<O> {
    pub(crate) fn new(inner: O) -> WatchedSink<O> {
        WatchedSink {
            inner,
            is_used: false,
        }
    }
}

impl<O: Sink + Drop> Sink for WatchedSink<O> {
    ghost model = { λ s. O.model s.inner };

    ghost failed = { λ s. O.failed s.inner };

    fn write(&mut self, buf: &[u8]) -> Result<usize, IoFault> {
        self.is_used |= buf != INPUT_LINE;
        self.inner.write(buf)
    }

    fn flush(&mut self) -> Result<(), IoFault> {
        self.inner.flush()
    }

    fn failures(&self) -> u64 {
        self.inner.failures()
    }
}

/// A sink that is flushed at the end of each line if `by_lines`, as for a terminal. It is
/// unmodelled.
#[derive(Drop)]
pub(crate) struct LineSink<O: Drop> {
    pub(crate) inner: O,
    pub(crate) by_lines: bool,
}

impl<O: Sink + Drop> Sink for LineSink<O> {
    ghost failed = { λ s. O.failed s.inner };

    #[inline(always)]
    fn write(&mut self, buf: &[u8]) -> Result<usize, IoFault> {
        let n = self.inner.write(buf)?;
        if self.by_lines && buf[..n].ends_with(b"\n") {
            self.inner.flush()?;
        }
        Ok(n)
    }

    fn flush(&mut self) -> Result<(), IoFault> {
        self.inner.flush()
    }

    fn failures(&self) -> u64 {
        self.inner.failures()
    }
}
