// Why two indexes cannot be merged.
ghost use Rattle.std.specs.Prelude.{◌≡◌};
ghost use Rattle.cs_merge.specs.declared.fault.MergeFault.TheVariants.{Memory};

use cs_index::{BuildFault, IndexFault};
use std::alloc::{AllocError, AllocFailed};
use thiserror::Error;

/// Why two indexes cannot be merged.
#[derive(Clone, Copy, Debug, PartialEq, Eq, Drop, Error)]
pub enum MergeFault {
    /// A name occurs twice in an index. Names may be in any order.
    #[error("index holds a name twice")]
    Unsorted,
    /// No path of the newer index covers one of its names: for example, `/b` if `/a` is the only
    /// path.
    #[error("name outside the paths")]
    Uncovered,
    /// A posting list of either index is damaged. The inner error is always `BadList`.
    #[error("bad index: {0}")]
    Index(IndexFault),
    /// The merged index would have more than 2^32 - 1 bytes.
    #[error("too large")]
    TooLarge,
    /// An allocation failed.
    #[error("out of memory")]
    Memory,
}

impl From<AllocError> for MergeFault {
    ghost from_gives = { λ _ fault. fault ≡ Memory };

    fn from(_refused: AllocError) -> MergeFault {
        MergeFault::Memory
    }
}

impl<T: Drop> From<AllocFailed<T>> for MergeFault {
    ghost from_gives = { λ _ fault. fault ≡ Memory };

    fn from(_refused: AllocFailed<T>) -> MergeFault {
        MergeFault::Memory
    }
}

/// An error of building the merged index, whose paths and names are valid.
impl From<BuildFault> for MergeFault {
    ghost use Rattle.cs_merge.specs.MergeResult.{build_refusal};

    ghost from_gives = { λ build fault. fault ≡ build_refusal build };

    fn from(build: BuildFault) -> MergeFault {
        match build {
            BuildFault::TooLarge => MergeFault::TooLarge,
            _ => MergeFault::Memory,
        }
    }
}

/// The error of a damaged list; an allocation failure becomes `Memory`.
impl From<IndexFault> for MergeFault {
    ghost use Rattle.cs_merge.specs.ListsFault.{merge_fault_of};

    ghost from_gives = { λ index fault. fault ≡ merge_fault_of index };

    fn from(index: IndexFault) -> MergeFault {
        match index {
            IndexFault::Memory => MergeFault::Memory,
            _ => MergeFault::Index(index),
        }
    }
}
