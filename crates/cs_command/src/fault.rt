// Why words ask for nothing.

use crate::options::WordPart;
use crate::words::ItemFault;
use cs_syntax::PatternError;
use std::alloc::{AllocError, AllocFailed};

/// Why words ask for nothing.
#[derive(Clone, Copy, Drop)]
pub enum RequestFault {
    /// They are no options and operands.
    Item(ItemFault),
    /// A value is no decimal number below 2^64, as in `-m x`.
    NoNumber(WordPart),
    /// A value of `--color` is none of `always`, `never` and `auto`.
    NoColour(WordPart),
    /// There is no such type of files, as in `-t zz`.
    NoType(WordPart),
    /// A glob matches nothing, as in `-g '{a'`, `-g '['` or `-g /`, or has too many alternatives.
    NoGlob(WordPart),
    /// There is no pattern.
    NoPattern,
    /// A pattern has an error, or is too large beside those before it.
    BadPattern(WordPart, PatternError),
    /// An allocation failed.
    Memory,
}

impl From<AllocError> for RequestFault {
    ghost use Rattle.std.specs.Prelude.{◌≡◌};
    ghost use Rattle.cs_command.specs.declared.fault.RequestFault.TheVariants.{Memory};

    ghost from_gives = { λ _ fault. fault ≡ Memory };

    fn from(_refused: AllocError) -> RequestFault {
        RequestFault::Memory
    }
}

impl<T: Drop> From<AllocFailed<T>> for RequestFault {
    ghost use Rattle.std.specs.Prelude.{◌≡◌};
    ghost use Rattle.cs_command.specs.declared.fault.RequestFault.TheVariants.{Memory};

    ghost from_gives = { λ _ fault. fault ≡ Memory };

    fn from(_refused: AllocFailed<T>) -> RequestFault {
        RequestFault::Memory
    }
}
