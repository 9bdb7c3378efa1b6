// How a call of the program ends: its exit status, the update of the index file, and the line of an
// error.
ghost use Rattle.std.specs.Prelude.{◌≡◌, IfOk, string_bytes};
ghost use Rattle.cs_tree.specs.FailureCount.{count_after};
ghost use Rattle.cs_tree.specs.TakesPrefix.{EndsAfter};
ghost use Rattle.cs_tree.specs.Transfers.{is_io_failure};
ghost use Rattle.codesearch.specs.Program.{exit_status, fault_line, reading_line, writing_line, ReportsOutcome, PrintsErrorLine};

use cs_args::{Refusal, Tool, message};
use cs_search::Status;
use cs_storage::{IndexUpdate, StorageFault};
use cs_tree::{IoFault, Sink, write_all};
use std::alloc::{AllocError, Global};

/// An error that ends the program. Its line is printed on standard error.
#[derive(Clone, Copy, Drop)]
pub(crate) enum ProgramFault<'a> {
    /// No tool is named.
    FirstArg,
    /// The argument with this number, counted from 1 after the name of the tool, is not UTF-8.
    NonText(Tool, usize),
    /// `cindex` finds no current folder that is UTF-8 and begins with `/`.
    NoFolder,
    /// The index file with this name cannot be opened or read.
    Unreadable(&'a str),
    /// The index file with this name cannot be written or removed.
    Unwritable(&'a str),
    /// The index file with the first name cannot be written, because of a file with the second
    /// name, at FILE~.
    Leftover(&'a str, &'a str),
    /// No more files can be opened.
    Descriptors,
    /// An error of the arguments or of the tool, and the argument or path that it points at.
    Refusal(Tool, Refusal, &'a str),
    /// An allocation failed.
    Memory,
}

impl<'a> ProgramFault<'a> {
    /// The index file with this name cannot be opened or read.
    pub(crate) fn of_reading(file: &'a str, fault: StorageFault) -> ProgramFault<'a>
        ensures { fault_line result ≡ reading_line file.now fault }
    {
        match fault {
            StorageFault::Failed | StorageFault::Locked | StorageFault::Leftover => {
                ProgramFault::Unreadable(file)
            }
            StorageFault::Descriptors => ProgramFault::Descriptors,
            StorageFault::Memory => ProgramFault::Memory,
        }
    }

    /// The index file with this name cannot be claimed, written or removed; `temp` is the name of
    /// FILE~.
    pub(crate) fn of_writing(file: &'a str, temp: &'a str, fault: StorageFault) -> ProgramFault<'a>
        ensures { fault_line result ≡ writing_line file.now temp.now fault }
    {
        match fault {
            StorageFault::Failed | StorageFault::Locked => ProgramFault::Unwritable(file),
            StorageFault::Leftover => ProgramFault::Leftover(file, temp),
            StorageFault::Descriptors => ProgramFault::Descriptors,
            StorageFault::Memory => ProgramFault::Memory,
        }
    }
}

/// How a call of the program ends.
#[derive(Drop)]
pub(crate) enum Outcome<'a> {
    /// A job of `cindex` is done, and the index file gets this update.
    Done(IndexUpdate),
    /// A search is done.
    Searched(Status),
    /// An error, whose line is still to be printed.
    Refused(ProgramFault<'a>),
}

impl Outcome<'_> {
    /// The exit status: 0 if some line matched or a job is done, 1 if no line matched, 2 after an
    /// error.
    pub(crate) fn status(&self) -> u8
        ensures { result ≡ exit_status self.now }
    {
        match self {
            Outcome::Done(_) | Outcome::Searched(Status::Matched) => 0,
            Outcome::Searched(Status::NoMatch) => 1,
            Outcome::Refused(_) => 2,
        }
    }

    /// Prints the line of an error; other outcomes have none.
    pub(crate) fn report<E: Sink>(&self, alloc: Global, err: &mut E) -> Result<(), IoFault>
        ensures printed { ReportsOutcome self.now (E.model err.old) (E.model err.new) result }
        ensures counted { E.failed err.new ≡ count_after is_io_failure result (E.failed err.old) }
    {
        match self {
            Outcome::Refused(fault) => print_fault(alloc, fault, err),
            Outcome::Done(_) | Outcome::Searched(_) => Ok(()),
        }
    }
}

/// Prints the line of an error, or that there is no memory for the line.
fn print_fault<E: Sink>(alloc: Global, fault: &ProgramFault<'_>, err: &mut E) -> Result<(), IoFault>
    ensures printed { PrintsErrorLine fault.now (E.model err.old) (E.model err.new) result }
    ensures counted { E.failed err.new ≡ count_after is_io_failure result (E.failed err.old) }
{
    match line(alloc, fault) {
        Ok(line) => print_line(line.as_str(), err),
        Err(AllocError) => print_line("codesearch: out of memory\n", err),
    }
}

/// The line of an error.
fn line(alloc: Global, fault: &ProgramFault<'_>) -> Result<String, AllocError>
    ensures { IfOk result (λ line. string_bytes line ≡ fault_line fault.now) }
{
    match fault {
        ProgramFault::FirstArg => {
            String::from_str(
                alloc,
                "codesearch: first word must be cindex, csearch or cgrep\n",
            )
        }
        ProgramFault::NonText(tool, number) => non_text_line(alloc, *tool, *number),
        ProgramFault::NoFolder => String::from_str(alloc, "codesearch: no current folder\n"),
        ProgramFault::Unreadable(file) => { format!(in alloc; "codesearch: cannot read {file}\n") }
        ProgramFault::Unwritable(file) => { format!(in alloc; "codesearch: cannot write {file}\n") }
        ProgramFault::Leftover(file, temp) => leftover_line(alloc, file, temp),
        ProgramFault::Descriptors => String::from_str(alloc, "codesearch: too many open files\n"),
        ProgramFault::Refusal(tool, refusal, arg) => message(alloc, *tool, refusal, arg),
        ProgramFault::Memory => String::from_str(alloc, "codesearch: out of memory\n"),
    }
}

/// The line for an argument that is not UTF-8.
fn non_text_line(alloc: Global, tool: Tool, number: usize) -> Result<String, AllocError>
    ensures { IfOk result
        (λ line. string_bytes line ≡ fault_line (ProgramFault.NonText tool number)) }
{
    let name = match tool {
        Tool::Cindex => "cindex",
        Tool::Csearch => "csearch",
        Tool::Cgrep => "cgrep",
    };
    format!(in alloc; "{name}: word {number} is not text\n")
}

/// The line for a file at FILE~ that is to be removed by hand.
fn leftover_line(alloc: Global, file: &str, temp: &str) -> Result<String, AllocError>
    ensures { IfOk result
        (λ line. string_bytes line ≡ fault_line (ProgramFault.Leftover file.entry temp.entry)) }
{
    let advice = format!(in alloc; ": remove {temp}\n")?;
    format!(in alloc; "codesearch: cannot write {file}{advice}")
}

/// Prints a line at once.
fn print_line<E: Sink>(line: &str, err: &mut E) -> Result<(), IoFault>
    ensures printed { EndsAfter line.now (E.model err.old) (E.model err.new) result }
    ensures counted { E.failed err.new ≡ count_after is_io_failure result (E.failed err.old) }
{
    write_all(err, line.as_bytes())?;
    err.flush()
}
