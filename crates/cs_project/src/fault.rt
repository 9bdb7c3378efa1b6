// Why a search of a project ends before its end.
use cs_tree::IoFault;
use std::alloc::{AllocError, AllocFailed};

/// Why a search of a project ends before its end.
#[derive(Clone, Copy, Debug, PartialEq, Eq, Drop)]
pub enum FreshFault {
    /// A line of an error cannot be written.
    Write,
    /// An allocation failed, or the output takes no more bytes.
    Memory,
}

impl From<IoFault> for FreshFault {
    fn from(io: IoFault) -> FreshFault {
        match io {
            IoFault::Failed => FreshFault::Write,
            IoFault::Memory => FreshFault::Memory,
        }
    }
}

impl From<AllocError> for FreshFault {
    fn from(_refused: AllocError) -> FreshFault {
        FreshFault::Memory
    }
}

impl<T: Drop> From<AllocFailed<T>> for FreshFault {
    fn from(_refused: AllocFailed<T>) -> FreshFault {
        FreshFault::Memory
    }
}
