// The error type of the crate.
ghost use Rattle.std.specs.Prelude.{◌≡◌};
ghost use Rattle.cs_state.specs.declared.fault.SealFault.TheVariants.{Memory};

use std::alloc::AllocError;
use thiserror::Error;

/// Why a state cannot be sealed.
#[derive(Clone, Copy, Debug, PartialEq, Eq, Error)]
pub enum SealFault {
    /// The state would have 2^32 bytes or more.
    #[error("too large")]
    TooLarge,
    /// An allocation failed.
    #[error("out of memory")]
    Memory,
}

impl From<AllocError> for SealFault {
    ghost from_gives = { λ _ fault. fault ≡ Memory };

    fn from(_refused: AllocError) -> SealFault {
        SealFault::Memory
    }
}
