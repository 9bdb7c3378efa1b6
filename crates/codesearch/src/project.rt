// A search of the project over the disk and the standard streams, and then what it learns.
ghost use Rattle.std.specs.Prelude.{◌≡◌, true};
ghost use Rattle.cs_tree.specs.Cover.{is_absolute};

use crate::call::absolute_folder;
use crate::disk::{SettingFolders, is_input_piped, project_tree, watched_output};
use crate::given::Given;
use crate::project_state::DiskState;
use crate::watched::{LineSink, WatchedSink};
use cs_listing::UserFiles;
use cs_project::{FreshFault, ProjectCall, run_project};
use cs_storage::StorageFault;
use cs_tree::{IoFault, Sink, SinkOutput, StdSink, StdSource, write_all};
use std::alloc::AllocError;
use std::cell::Cell;
use std::io::IsTerminal;

/// Does what the arguments of `cs` ask for, and returns the exit status.
#[inline(never)]
pub(crate) fn search_on_disk(
    rt: &HostRuntime,
    given: &Given,
    words: &[String],
) -> Result<u8, AllocError> {
    if given.has_non_text {
        let number = words.len() + 1;
        let line = format!(in rt.alloc(); "cs: word {number} is not text\n")?;
        return Ok(refuse(rt, line.as_str()));
    }
    let Some(folder) = absolute_folder(given) else {
        return Ok(refuse(rt, "cs: no current folder\n"));
    };
    let settings = SettingFolders::of_environment(rt)?;
    run_on_disk(rt, words, folder, &settings)
}

/// Prints the line of an error, and returns the exit status.
pub(crate) fn refuse(rt: &HostRuntime, line: &str) -> u8 {
    let _ = write_all(&mut StdSink::new(rt.stderr()), line.as_bytes());
    2
}

/// Does what the arguments of `cs` ask for, and returns the exit status. What was not known is
/// learned after the output, also after one that was closed.
#[inline(never)]
fn run_on_disk<'a>(
    rt: &HostRuntime,
    words: &'a [String],
    folder: &'a str,
    settings: &'a Option<SettingFolders>,
) -> Result<u8, AllocError>
    requires { is_absolute folder.now ≡ true }
{
    let user = match settings {
        Some(folders) => Some(UserFiles {
            home: folders.home.as_str(),
            config: folders.config.as_str(),
            global: match &folders.global {
                Some(file) => Some(file.as_str()),
                None => None,
            },
        }),
        None => None,
    };
    let cache = match settings {
        Some(folders) => Some(folders.cache.as_str()),
        None => None,
    };
    let terminal = rt.stdout().is_terminal();
    let call = ProjectCall {
        alloc: rt.alloc(),
        words,
        folder,
        user,
        terminal,
        piped: is_input_piped(rt) && rt.stderr().is_terminal(),
    };
    let mut tree = project_tree(rt, folder)?;
    let (mut state, mut known) = DiskState::open(rt, &mut tree, folder, cache)?;
    let mut input = StdSource::new(rt.stdin());
    let is_closed = Cell::new(false);
    let mut lines = LineSink {
        inner: watched_output(rt, &is_closed)?,
        by_lines: terminal,
    };
    let mut err = WatchedSink::new(StdSink::new(rt.stderr()));
    let (answer, fault) = {
        let mut out = SinkOutput::new(&mut lines);
        let answer = run_project(&call, &mut tree, &mut input, &mut known, &mut out, &mut err);
        (answer, out.fault())
    };
    let is_flushed = lines.flush().is_ok();
    let end = RunEnd {
        answer,
        is_printed: is_flushed && fault != Some(IoFault::Failed),
        is_closed: is_closed.get(),
        has_errors: err.is_used,
    };
    let status = end.status(rt)?;
    let learned = state.learn(rt, &known, end.is_printed && end.answer.is_ok());
    Ok(status_after_learning(rt, known.is_update(), learned, status))
}

/// How a run ends.
#[derive(Clone, Copy, Drop)]
struct RunEnd {
    answer: Result<u8, FreshFault>,
    /// Whether all output was written.
    is_printed: bool,
    /// Whether the reader of the output has gone.
    is_closed: bool,
    /// Whether the line of an error was printed.
    has_errors: bool,
}

impl RunEnd {
    /// The exit status. Where the reader of the output has gone, it is as if the rest had been
    /// printed: something was found, since something was printed.
    fn status(&self, rt: &HostRuntime) -> Result<u8, AllocError> {
        if !self.is_printed && !self.is_closed {
            return Ok(refuse(rt, "cs: output failed\n"));
        }
        match self.answer {
            Ok(status) => Ok(status),
            Err(_) if !self.is_printed => Ok(if self.has_errors { 2 } else { 0 }),
            Err(FreshFault::Write) => Ok(2),
            Err(FreshFault::Memory) => Err(AllocError),
        }
    }
}

/// The exit status after what was learned is stored, or not. A failure only makes later searches
/// slower; `--update` that stores nothing fails.
fn status_after_learning(
    rt: &HostRuntime,
    is_update: bool,
    learned: Result<(), StorageFault>,
    status: u8,
) -> u8 {
    match learned {
        Err(fault) if is_update => refuse(rt, unstored_line(fault)),
        _ => status,
    }
}

/// The line for what was learned and is not stored.
fn unstored_line(fault: StorageFault) -> &'static str {
    match fault {
        StorageFault::Locked => "cs: another run stores what is known of the project\n",
        _ => "cs: what is known of the project cannot be stored\n",
    }
}
