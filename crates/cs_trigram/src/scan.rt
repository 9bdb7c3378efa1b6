// The limits and the results of a scan.
ghost use Rattle.std.specs.Prelude.{◌≡◌};
ghost use Rattle.cs_trigram.specs.declared.scan.ScanFault.TheVariants as fault;

use std::alloc::{AllocError, AllocFailed};
use thiserror::Error;

/// Why a file is skipped. The first byte that breaks a rule gives the reason; if it breaks several,
/// the first of them in this order.
#[derive(Clone, Copy, PartialEq, Eq)]
pub enum Reason {
    /// A byte is `00`, as in `61 00`.
    Nul,
    /// A byte may not follow the one before it in UTF-8, as in `e9 61`. The start of the file
    /// counts as `00`.
    Utf8,
    /// The file has more than 2^30 bytes.
    TooLong,
    /// A line has more than 2000 bytes, its newline included.
    LongLine,
    /// The file has more than 20000 distinct trigrams. This is the reason only if no byte breaks a
    /// rule.
    ManyTrigrams,
}

/// The result of a scan. A text has its trigrams, each the number `65536 * a + 256 * b + c` of its
/// three bytes: `Scanner::scan` returns them strictly ascending, and `Scanner::gather` lends them,
/// each once, in the order of their first occurrence.
#[derive(Drop, PartialEq, Eq)]
pub enum Scan<T = Vec<u32>> {
    /// Text: its trigrams, and its length in bytes.
    Text { trigrams: T, bytes: u64 },
    /// The file is skipped.
    Skip(Reason),
}

/// Why a scan failed.
#[derive(Clone, Copy, Debug, PartialEq, Eq, Error)]
pub enum ScanFault {
    /// A read failed, and the bytes before it break no rule.
    #[error("the input failed")]
    Read,
    /// An allocation failed.
    #[error("out of memory")]
    Memory,
}

impl From<AllocError> for ScanFault {
    ghost from_gives = { λ _ refusal. refusal ≡ fault.Memory };

    fn from(_refused: AllocError) -> ScanFault {
        ScanFault::Memory
    }
}

impl<T: Drop> From<AllocFailed<T>> for ScanFault {
    ghost from_gives = { λ _ refusal. refusal ≡ fault.Memory };

    fn from(_refused: AllocFailed<T>) -> ScanFault {
        ScanFault::Memory
    }
}

/// The most bytes of a file, the most bytes of a line with its newline, and the most distinct
/// trigrams.
#[derive(Clone, Copy, PartialEq, Eq)]
pub struct Limits {
    pub bytes: u64,
    pub line: usize,
    pub trigrams: usize,
}

/// The limits of an indexed file.
pub(crate) const LIMITS: Limits = Limits {
    bytes: 1 << 30,
    line: 2000,
    trigrams: 20_000,
};
