// A line on a terminal that says how far an index is, for a person who waits. It belongs to no
// output of the tool: it is written past the sinks, and is removed before one of them is written
// to.

use cs_tree::{
    IoFault, Kind, Listing, Look, Seen, Sink, Stamp, StdSink, Tree, TreeFault, write_all,
};
use std::alloc::{AllocError, Global};
use std::cell::Cell;
use std::io::IsTerminal;
use std::time::{Duration, Instant};

/// The milliseconds between two lines.
const PERIOD: u64 = 250;

/// Removes a line of so many characters.
const ERASE: &str = "\r                                                  \r";

/// What was read so far, and the line that says it.
#[derive(Drop)]
pub(crate) struct ProgressLine {
    rt: HostRuntime,
    /// The name of the tool.
    tool: String,
    /// When a line was written last, or the start. None if none is ever written.
    last: Cell<Option<Instant>>,
    is_shown: Cell<bool>,
    paths: Cell<u64>,
    files: Cell<u64>,
    bytes: Cell<u64>,
}

impl ProgressLine {
    /// The progress of a job. Lines are written if they are wanted and standard error is a
    /// terminal.
    pub(crate) fn new(
        rt: &HostRuntime,
        tool: &str,
        wanted: bool,
    ) -> Result<ProgressLine, AllocError> {
        let start = if wanted && rt.stderr().is_terminal() {
            Instant::now(rt).ok()
        } else {
            None
        };
        Ok(ProgressLine {
            rt: rt.clone()?,
            tool: String::from_str(rt.alloc(), tool)?,
            last: Cell::new(start),
            is_shown: Cell::new(false),
            paths: Cell::new(0),
            files: Cell::new(0),
            bytes: Cell::new(0),
        })
    }

    /// Removes the line, if there is one.
    pub(crate) fn erase(&self) {
        if self.is_shown.replace(false) {
            self.print(ERASE);
        }
    }

    /// Counts so many more, and writes the line if it is time to.
    fn count(&self, counter: &Cell<u64>, more: u64) {
        counter.set(counter.get().saturating_add(more));
        let Some(last) = self.last.get() else {
            return;
        };
        let Ok(now) = Instant::now(&self.rt) else {
            return;
        };
        if now.duration_since(last) < Duration::from_millis(PERIOD) {
            return;
        }
        self.last.set(Some(now));
        if let Ok(line) = self.line() {
            self.is_shown.set(true);
            self.print(line.as_str());
        }
    }

    /// The line: how many paths were found, or how much was read.
    fn line(&self) -> Result<String, AllocError> {
        let (paths, files, bytes) = (self.paths.get(), self.files.get(), self.bytes.get());
        let megabytes = bytes / 1_000_000;
        let tool = self.tool.as_str();
        if files == 0 {
            format!(in self.rt.alloc(); "{ERASE}{tool}: {paths} paths found")
        } else {
            format!(in self.rt.alloc(); "{ERASE}{tool}: {files} files, {megabytes} MB read")
        }
    }

    /// Nothing is lost if the terminal cannot be written to.
    fn print(&self, text: &str) {
        let _ = write_all(&mut StdSink::new(self.rt.stderr()), text.as_bytes());
    }
}

/// A tree whose calls are counted. It has the model of the inner tree.
#[derive(Drop)]
pub(crate) struct CountedTree<'p, T: Drop> {
    pub(crate) inner: T,
    pub(crate) progress: &'p ProgressLine,
}

impl<T: Tree + Drop> Tree for CountedTree<'_, T> {
    ghost snapshot = { λ t. T.snapshot t.inner };

    ghost opened = { λ t. T.opened t.inner };

    ghost longest_requested = { λ t. T.longest_requested t.inner };

    ghost read_counts = { λ t. T.read_counts t.inner };

    ghost failed = { λ t. T.failed t.inner };

    ghost counts_modelled = { λ t. T.counts_modelled t.inner };

    fn kind(&mut self, path: &str) -> Result<Kind, TreeFault> {
        self.progress.count(&self.progress.paths, 1);
        self.inner.kind(path)
    }

    fn entries(&mut self, alloc: Global, path: &str) -> Result<Listing, TreeFault> {
        self.inner.entries(alloc, path)
    }

    fn open(&mut self, path: &str) -> Result<(), TreeFault> {
        self.progress.count(&self.progress.files, 1);
        self.inner.open(path)
    }

    fn read(&mut self, buf: &mut [u8]) -> Result<usize, TreeFault> {
        let n = self.inner.read(buf)?;
        self.progress.count(&self.progress.bytes, n as u64);
        Ok(n)
    }

    fn failures(&self) -> u64 {
        self.inner.failures()
    }
}

impl<T: Look + Drop> Look for CountedTree<'_, T> {
    ghost stamps = { T.stamps };

    fn look(&mut self, path: &str) -> Result<Seen, TreeFault> {
        self.progress.count(&self.progress.paths, 1);
        self.inner.look(path)
    }

    fn open_file(&mut self, path: &str) -> Result<Option<Stamp>, TreeFault> {
        self.progress.count(&self.progress.files, 1);
        self.inner.open_file(path)
    }
}

/// A sink that shares the terminal with the line. It has the model of the inner sink, which gets
/// what is written, and nothing else.
#[derive(Drop)]
pub(crate) struct ClearedSink<'p, O: Drop> {
    pub(crate) inner: O,
    pub(crate) progress: &'p ProgressLine,
}

impl<O: Sink + Drop> Sink for ClearedSink<'_, O> {
    ghost model = { λ s. O.model s.inner };

    ghost failed = { λ s. O.failed s.inner };

    fn write(&mut self, buf: &[u8]) -> Result<usize, IoFault> {
        self.progress.erase();
        self.inner.write(buf)
    }

    fn flush(&mut self) -> Result<(), IoFault> {
        self.inner.flush()
    }

    fn failures(&self) -> u64 {
        self.inner.failures()
    }
}
