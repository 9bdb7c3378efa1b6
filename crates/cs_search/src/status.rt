// What a search answers: its status, the result of one input, and its errors.
ghost use Rattle.std.specs.Prelude.{◌≡◌, if◌then◌else◌};

use cs_args::ToolFault;
use cs_lines::Ended;
use cs_tree::IoFault;
use std::alloc::AllocError;
use thiserror::Error;

/// How a search ends.
#[derive(Clone, Copy, PartialEq, Eq, Drop)]
pub enum Status {
    /// Some tested line matched.
    Matched,
    /// No line matched.
    NoMatch,
}

impl Status {
    /// The status of a search in which some line matched, or none.
    pub(crate) fn of(matched: bool) -> Status
        ensures { result ≡ (if matched then Status.Matched else Status.NoMatch) }
    {
        if matched {
            Status::Matched
        } else {
            Status::NoMatch
        }
    }
}

/// What a search of one input found.
#[derive(Clone, Copy, PartialEq, Eq, Drop)]
pub struct Grepped {
    /// Some tested line matched.
    pub matched: bool,
    /// Why the search stopped before the end of the input. With `-l` a matching line ends the
    /// search, and this is `None`.
    pub fault: Option<ReadFault>,
}

/// Why a search stops before the end of its input.
#[derive(Clone, Copy, Debug, PartialEq, Eq, Drop, Error)]
pub enum ReadFault {
    /// A read failed.
    #[error("a read has failed")]
    Read,
    /// The input has more than `MAX_SEARCHED` bytes, or more than the limit of the caller.
    #[error("the input is too long")]
    TooLong,
}

impl ReadFault {
    ghost use Rattle.std.specs.Prelude.{Option};
    ghost use Rattle.cs_search.specs.GrepFaults.{fault_of};

    /// Why the search of an input stopped that was read so far.
    pub(crate) fn of(ended: Ended) -> Option<ReadFault>
        ensures { result ≡ fault_of ended }
    {
        match ended {
            Ended::Whole => None,
            Ended::Failed => Some(ReadFault::Read),
            Ended::TooLong => Some(ReadFault::TooLong),
        }
    }
}

/// Why a search of an input fails.
#[derive(Clone, Copy, Debug, PartialEq, Eq, Drop, Error)]
pub enum GrepFault {
    /// A write to the output failed.
    #[error("a write has failed")]
    Write,
    /// An allocation failed: for a longer line, or in a read or a write.
    #[error("out of memory")]
    Memory,
}

/// The error of a failed write.
impl From<IoFault> for GrepFault {
    ghost use Rattle.cs_search.specs.GrepFaults.{write_fault};

    ghost from_gives = { λ io fault. fault ≡ write_fault io };

    fn from(io: IoFault) -> GrepFault {
        match io {
            IoFault::Failed => GrepFault::Write,
            IoFault::Memory => GrepFault::Memory,
        }
    }
}

impl From<AllocError> for GrepFault {
    ghost use Rattle.cs_search.specs.declared.status.GrepFault.TheVariants.{Memory};

    ghost from_gives = { λ _ fault. fault ≡ Memory };

    fn from(_refused: AllocError) -> GrepFault {
        GrepFault::Memory
    }
}

impl From<GrepFault> for ToolFault {
    ghost use Rattle.cs_search.specs.GrepFaults.{searched_fault};

    ghost from_gives = { λ grep fault. fault ≡ searched_fault grep };

    fn from(grep: GrepFault) -> ToolFault {
        match grep {
            GrepFault::Write => ToolFault::Write,
            GrepFault::Memory => ToolFault::Memory,
        }
    }
}
