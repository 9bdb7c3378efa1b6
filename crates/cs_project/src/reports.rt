// The lines of errors.
ghost use Rattle.std.specs.Prelude.{◌≡◌, ◌≤◌, true, false, OnOk};
ghost use Rattle.cs_project.specs.Cited.{status_by, MayReport};

use crate::fault::FreshFault;
use cs_listing::{ListFault, Unread};
use cs_tree::{Sink, TreeFault, write_all};
use std::alloc::Global;

/// Whether the line of an error was printed.
#[derive(Clone, Copy, Drop)]
pub struct Reports {
    alloc: Global,
    pub(crate) wrong: bool,
}

impl Reports {
    /// No line yet.
    pub(crate) fn new(alloc: Global) -> Reports
        ensures { result.wrong ≡ false }
    {
        Reports {
            alloc,
            wrong: false,
        }
    }

    /// Prints the line of an error of a file.
    pub(crate) fn print<E: Sink>(
        &mut self,
        name: &str,
        why: &str,
        err: &mut E,
    ) -> Result<(), FreshFault>
        ensures reported { self.new.wrong ≡ true }
    {
        self.wrong = true;
        let line = format!(in self.alloc; "cs: {name}: {why}\n")?;
        write_all(err, line.as_bytes())?;
        Ok(())
    }

    /// Reports a file that cannot be opened, unless it is gone or is the output.
    pub(crate) fn unopened<E: Sink>(
        &mut self,
        name: &str,
        fault: TreeFault,
        err: &mut E,
    ) -> Result<(), FreshFault>
        ensures reported { OnOk result (MayReport fault self.old.wrong self.new.wrong) }
        ensures stays { self.new.wrong ≡ false → self.old.wrong ≡ false }
    {
        match fault {
            TreeFault::Missing | TreeFault::Output => Ok(()),
            TreeFault::Denied => self.print(name, "permission denied", err),
            TreeFault::Failed => self.print(name, "cannot be read", err),
            TreeFault::Memory => Err(FreshFault::Memory),
        }
    }

    /// Reports a word of the command line at whose path nothing can be read.
    pub(crate) fn unnamed<E: Sink>(
        &mut self,
        word: &str,
        fault: TreeFault,
        err: &mut E,
    ) -> Result<(), FreshFault>
        ensures reported { self.new.wrong ≡ true }
    {
        self.print(word, reason(fault), err)
    }

    /// Reports what a walk could not read.
    pub(crate) fn unlisted<E: Sink>(
        &mut self,
        name: &str,
        fault: ListFault,
        err: &mut E,
    ) -> Result<(), FreshFault>
        ensures reported { self.new.wrong ≡ true }
    {
        let why = match fault {
            ListFault::Tree(fault) => reason(fault),
            ListFault::Unnamed => "the name of an entry is not UTF-8",
            ListFault::LongPath => "the path is too long",
            ListFault::LongRules => "the rule file is too long",
            ListFault::ManyRules => "the rule files along the path are too long",
        };
        self.print(name, why, err)
    }
}

/// Why a path cannot be read.
fn reason(fault: TreeFault) -> &'static str {
    match fault {
        TreeFault::Missing => "no such file",
        TreeFault::Denied => "permission denied",
        _ => "cannot be read",
    }
}

/// The exit status: 2 after an error, else 0 if a line is marked, else 1.
pub(crate) fn status_of(wrong: bool, marked: bool) -> u8
    ensures status { result ≡ status_by wrong marked }
    ensures within { result ≤ 2 }
{
    if wrong {
        2
    } else if marked {
        0
    } else {
        1
    }
}

/// Prints a line for each path that could not be read. Returns whether there is one.
pub(crate) fn print_unread<E: Sink>(
    alloc: Global,
    unread: &[Unread],
    err: &mut E,
) -> Result<bool, FreshFault> {
    let mut reports = Reports::new(alloc);
    'unread: for one in unread {
        reports.unlisted(one.path.as_str(), one.fault, err)?;
    }
    Ok(reports.wrong)
}
