//! The program: its arguments, the standard streams, the disk, the index file and the exit status.
//! What it does is `Call::read` and then `execute`, or `execute_cgrep` for `cgrep`, over any
//! implementation of these. Read `specs/Program.antt` and then `specs/Execution.antt` first.
//!
//! `Call::read` reads the arguments, once: a tool, which is the one whose name the program is run
//! by, as through a link, or else the one that the first argument names, and what its arguments
//! parse as. `execute` does that over any folder of the index file, tree, source and sinks
//! (`specs/Execution.antt`): it opens the file, calls `begin_update` for a job that may change it,
//! then `run`, and at the end `finish_update`. `run` works over the opened file, and appends a new
//! index to `FILE~` (`NewFile`) as it is made; the tree, the source and the sinks travel together
//! as a `World`. `cgrep` opens no index file: `execute_cgrep` is over a `World` alone. They return
//! an `Outcome`: a job that is done, with the update of the index file; the status of a search; or
//! an error, whose line `Outcome::report` prints. An error carries no update, so that it leaves the
//! index file alone.
//!
//! `main` gives them the arguments, the disk, the standard streams (`disk.rt`) and the `DiskFolder`
//! of `cs_storage`, whose file is opened once as a `DiskStore`.
//!
//! `cs` is `run_project` of `cs_project` over the disk (`project.rt`), with the state of the
//! project as its knowledge: `state_folder.rt` says where that is, and `project_state.rt` makes it
//! after the output, a batch of files at a time, or takes it away.
#![tactic(auto)]

ghost use Rattle.std.specs.Prelude.{◌≡◌};
ghost use Rattle.codesearch.specs.Program.{IsCall, exit_status};

mod args;
mod call;
mod disk;
mod execution;
mod given;
mod laws;
mod outcome;
mod own_tree;
mod progress;
mod project;
mod project_state;
mod running;
mod secret;
mod state_folder;
mod streams;
mod watched;

use args::{program_path, read_args};
use call::{Call, asks_for_help, project_args};
use cs_args::Tool;
use cs_tree::{Sink, StdSink, write_all};
use disk::{DiskIndexFile, disk_world};
use execution::{execute, execute_cgrep};
use given::Given;
use outcome::{Outcome, ProgramFault};
use progress::ProgressLine;
use project::{refuse, search_on_disk};
use running::FoundFile;
use std::alloc::AllocError;
use std::env;
use std::io::ErrorKind;
use std::process::ExitCode;
use streams::hold_streams;

/// What `codesearch --help` prints.
const HELP: &str = "\
usage: codesearch cs [OPTION..] PATTERN [PATH..]     searches a project as it is now
       codesearch cindex [OPTION..] [PATH..]         indexes trees of files
       codesearch csearch [OPTION..] PATTERN         searches the indexed files
       codesearch cgrep [OPTION..] PATTERN [FILE..]  searches files or standard input
Each tool has a manual page, and is called by its own name through a link.
";

fn main(rt: HostRuntime) -> ExitCode {
    let status = match read_given(&rt) {
        Ok(given) => hold_and_start(&rt, &given),
        Err(AllocError) => report(&rt, &Outcome::Refused(ProgramFault::Memory)),
    };
    ExitCode::from(status)
}

/// What the program is given by the system.
fn read_given(rt: &HostRuntime) -> Result<Given, AllocError> {
    let mut args = Vec::new(rt.alloc());
    let has_non_text = read_args(rt.alloc(), rt, &mut args)?;
    Ok(Given {
        program: program_path(rt.alloc(), rt)?,
        args,
        has_non_text,
        folder: current_folder(rt)?,
    })
}

/// Does what the arguments mean, and returns the exit status.
fn hold_and_start(rt: &HostRuntime, given: &Given) -> u8 {
    let words = project_args(given);
    let fault = match hold_streams(rt) {
        // What is held is closed after the run.
        Ok(_held) => match start(rt, given, words) {
            Ok(status) => return status,
            Err(AllocError) => ProgramFault::Memory,
        },
        Err(fault) => ProgramFault::of_reading("/", fault),
    };
    match words {
        Some(_) => refuse(rt, project_line(&fault)),
        None => report(rt, &Outcome::Refused(fault)),
    }
}

/// The line of `cs` for what ends it before its own errors.
fn project_line(fault: &ProgramFault<'_>) -> &'static str {
    match fault {
        ProgramFault::Descriptors => "cs: too many open files\n",
        ProgramFault::Memory => "cs: out of memory\n",
        _ => "cs: cannot read /\n",
    }
}

/// Does what the arguments mean; `words` are those of `cs`.
fn start(rt: &HostRuntime, given: &Given, words: Option<&[String]>) -> Result<u8, AllocError> {
    if let Some(words) = words {
        return search_on_disk(rt, given, words);
    }
    if asks_for_help(given) {
        return Ok(print_help(rt));
    }
    match Call::read(rt.alloc(), given) {
        Ok(call) => execute_on_disk(rt, &call),
        Err(fault) => Ok(report(rt, &Outcome::Refused(fault))),
    }
}

/// Prints the four tools, and returns the exit status.
fn print_help(rt: &HostRuntime) -> u8 {
    match write_all(&mut StdSink::new(rt.stdout()), HELP.as_bytes()) {
        Ok(()) => 0,
        Err(_) => 2,
    }
}

/// The current folder, if it is UTF-8.
#[inline(never)]
fn current_folder(rt: &HostRuntime) -> Result<Option<String>, AllocError> {
    match env::current_dir(rt) {
        Ok(folder) => Ok(Some(String::from_str(rt.alloc(), folder.as_str())?)),
        Err(error) if error.kind() == ErrorKind::OutOfMemory => Err(AllocError),
        Err(_) => Ok(None),
    }
}

/// Does what the arguments mean over the disk and the standard streams, and returns the exit
/// status.
#[inline(never)]
fn execute_on_disk(rt: &HostRuntime, call: &Call<'_>) -> Result<u8, AllocError>
    requires { IsCall call.now }
{
    let progress = ProgressLine::new(rt, "cindex", call.tool == Tool::Cindex)?;
    let mut world = disk_world(rt, call, &progress)?;
    if call.tool == Tool::Cgrep {
        let outcome = execute_cgrep(call, &mut world);
        return Ok(end(rt, &mut world.out, &outcome));
    }
    let mut disk = DiskIndexFile::of_environment(rt)?;
    let mut file = FoundFile {
        name: disk.name.as_str(),
        temp: disk.temp.as_str(),
        index: None,
    };
    let outcome = execute(call, &mut disk.folder, &mut file, &mut world);
    progress.erase();
    Ok(end(rt, &mut world.out, &outcome))
}

/// Ends a run: prints what is left in the buffer of standard output, and the line of an error.
/// Returns the exit status.
fn end<O: Sink>(rt: &HostRuntime, out: &mut O, outcome: &Outcome<'_>) -> u8
    ensures { result ≡ exit_status outcome.now }
{
    // A search that failed has not flushed the lines that it printed before.
    let _ = out.flush();
    report(rt, outcome)
}

/// Prints the line of an error, and returns the exit status. If the line cannot be printed, there
/// is nothing left to report that on.
fn report(rt: &HostRuntime, outcome: &Outcome<'_>) -> u8
    ensures { result ≡ exit_status outcome.now }
{
    let _ = outcome.report(rt.alloc(), &mut StdSink::new(rt.stderr()));
    outcome.status()
}
