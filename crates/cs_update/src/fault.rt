// Why files are not learned.
ghost use Rattle.std.specs.Prelude.{◌≡◌};
ghost use Rattle.cs_update.specs.declared.fault.UpdateFault.TheVariants.{Memory};

use cs_index::BuildFault;
use cs_merge::MergeFault;
use cs_state::SealFault;
use cs_tree::IoFault;
use std::alloc::{AllocError, AllocFailed};
use thiserror::Error;

/// Why files are not learned.
#[derive(Clone, Copy, Debug, PartialEq, Eq, Drop, Error)]
pub enum UpdateFault {
    /// The stamped name of a file is not above that of the file before; or the paths are not those
    /// of an index.
    #[error("bad name")]
    BadName,
    /// The old state cannot be read, or is damaged: it counts as none.
    #[error("bad state")]
    BadState,
    /// There are more files than an index can have, or the state would have 2^32 bytes.
    #[error("too large")]
    TooLarge,
    /// An allocation failed.
    #[error("out of memory")]
    Memory,
}

impl From<AllocError> for UpdateFault {
    ghost from_gives = { λ _ fault. fault ≡ Memory };

    fn from(_refused: AllocError) -> UpdateFault {
        UpdateFault::Memory
    }
}

impl<T: Drop> From<AllocFailed<T>> for UpdateFault {
    ghost from_gives = { λ _ fault. fault ≡ Memory };

    fn from(_refused: AllocFailed<T>) -> UpdateFault {
        UpdateFault::Memory
    }
}

/// A failed read of the old state.
impl From<IoFault> for UpdateFault {
    fn from(fault: IoFault) -> UpdateFault {
        match fault {
            IoFault::Failed => UpdateFault::BadState,
            IoFault::Memory => UpdateFault::Memory,
        }
    }
}

impl From<BuildFault> for UpdateFault {
    fn from(fault: BuildFault) -> UpdateFault {
        match fault {
            BuildFault::Memory => UpdateFault::Memory,
            BuildFault::TooLarge => UpdateFault::TooLarge,
            _ => UpdateFault::BadName,
        }
    }
}

impl From<SealFault> for UpdateFault {
    fn from(fault: SealFault) -> UpdateFault {
        match fault {
            SealFault::Memory => UpdateFault::Memory,
            SealFault::TooLarge => UpdateFault::TooLarge,
        }
    }
}

/// A failed merge of indexes. An old index that cannot be merged is damaged.
impl From<MergeFault> for UpdateFault {
    fn from(fault: MergeFault) -> UpdateFault {
        match fault {
            MergeFault::Memory => UpdateFault::Memory,
            MergeFault::TooLarge => UpdateFault::TooLarge,
            _ => UpdateFault::BadState,
        }
    }
}
