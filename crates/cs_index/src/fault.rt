// The error types of the crate.
ghost use Rattle.std.specs.Prelude.{◌≡◌};
ghost use Rattle.cs_index.specs.declared.fault.BuildFault.TheVariants.{Memory};

use std::alloc::{AllocError, AllocFailed};
use thiserror::Error;

/// Why an index cannot be built.
#[derive(Clone, Copy, Debug, PartialEq, Eq, Drop, Error)]
pub enum BuildFault {
    /// The name is empty or contains a NUL, as in `add("", &[])`.
    #[error("bad name")]
    BadName,
    /// The name is not greater than the last one: for example, `/b` is added twice.
    #[error("name out of order")]
    OutOfOrder,
    /// A path is empty or contains a NUL, the paths are not ascending, or one path covers another:
    /// `/a` covers `/a/b`.
    #[error("bad paths")]
    BadPaths,
    /// There are 2^30 names already, or the index would be longer than 2^32 - 1 bytes.
    #[error("too large")]
    TooLarge,
    /// An allocation failed.
    #[error("out of memory")]
    Memory,
}

impl From<AllocError> for BuildFault {
    ghost from_gives = { λ _ fault. fault ≡ Memory };

    fn from(_refused: AllocError) -> BuildFault {
        BuildFault::Memory
    }
}

/// Why bytes do not open as an index, or why a posting list cannot be read.
#[derive(Clone, Copy, Debug, PartialEq, Eq, Drop, Error)]
pub enum IndexFault {
    /// The first 16 bytes are not `csearch index 1` and a newline.
    #[error("magic")]
    BadMagic,
    /// The length is less than 52 bytes or more than 2^32 - 1, or the last 16 bytes are not the
    /// trailer's magic.
    #[error("trailer")]
    BadTrailer,
    /// The section offsets are not ascending, from 16 to the start of the trailer.
    #[error("offsets")]
    BadOffsets,
    /// The section of paths is not a sequence of nonempty UTF-8 strings, each followed by a NUL,
    /// and a final NUL.
    #[error("paths")]
    BadPaths,
    /// The section of names is not a sequence of nonempty UTF-8 strings, each followed by a NUL,
    /// and at most one final NUL.
    #[error("names")]
    BadNames,
    /// The name index is not the offset of each name and one more number.
    #[error("name index")]
    BadNameIndex,
    /// The list index is not a sequence of entries with ascending trigrams whose offsets lie in the
    /// section of posting lists.
    #[error("list index")]
    BadListIndex,
    /// A posting list is damaged: the bytes at its offset are not its trigram, as many ascending
    /// ids of names as its entry counts, and a zero.
    #[error("list")]
    BadList,
    /// An allocation failed.
    #[error("out of memory")]
    Memory,
}

impl From<AllocError> for IndexFault {
    ghost use Rattle.cs_index.specs.declared.fault.IndexFault.TheVariants.{Memory};

    ghost from_gives = { λ _ fault. fault ≡ Memory };

    fn from(_refused: AllocError) -> IndexFault {
        IndexFault::Memory
    }
}

impl<T: Drop> From<AllocFailed<T>> for IndexFault {
    ghost use Rattle.std.specs.Prelude.{◌≡◌};
    ghost use Rattle.cs_index.specs.declared.fault.IndexFault.TheVariants.{Memory};

    ghost from_gives = { λ _ fault. fault ≡ Memory };

    fn from(_refused: AllocFailed<T>) -> IndexFault {
        IndexFault::Memory
    }
}
