// Reading a source that is watched for a NUL and counted.
ghost use Rattle.std.specs.Prelude.{◌≡◌, ◌+◌, ◌-◌, ◌||◌, ℕ, false, Some, length, take};
ghost use Rattle.cs_update.specs.Reads.{KeepsAhead, has_nul, is_missing, nul_ahead, whole_ahead};

use crate::types::Watched;
use cs_lines::is_binary;
use cs_tree::{IoFault, Source};

/// A NUL in so many bytes at the start makes a file binary.
const PREFIX: usize = 8000;

impl<R> Watched<R> {
    /// A source before its first read. It is to have so many bytes.
    pub(crate) fn new(rest: R, size: u64) -> Watched<R>
        ensures rest { result.rest ≡ rest }
        ensures left { result.left ≡ 8000 }
        ensures seen { result.has_nul ≡ false }
        ensures missing { result.missing ≡ Some size }
    {
        Watched {
            rest,
            left: PREFIX,
            has_nul: false,
            missing: Some(size),
        }
    }

    /// Looks at bytes that were read.
    fn watch(&mut self, bytes: &[u8])
        ensures rest { self.new.rest ≡ self.old.rest }
        ensures left { self.new.left ≡ self.old.left - length bytes.now }
        ensures seen { self.new.has_nul ≡ (self.old.has_nul || has_nul (take self.old.left bytes.now)) }
        ensures missing { (rest : ℕ) → is_missing self.new.missing rest
            ≡ is_missing self.old.missing (length bytes.now + rest) }
    {
        let len = self.left.min(bytes.len());
        self.has_nul |= is_binary(&bytes[..len]);
        self.left -= len;
        self.missing = fewer(self.missing, bytes.len() as u64);
    }

    /// Whether the bytes that were read are as many as were expected.
    pub(crate) fn is_whole(&self) -> bool
        ensures { result ≡ is_missing self.now.missing 0 }
    {
        self.missing == Some(0)
    }
}

/// How many bytes are missing after a read of so many.
fn fewer(missing: Option<u64>, len: u64) -> Option<u64>
    ensures { (rest : ℕ) → is_missing result rest ≡ is_missing missing (len + rest) }
{
    missing?.checked_sub(len)
}

impl<R: Source> Source for Watched<R> {
    ghost model = { λ w. R.model w.rest };

    ghost failed = { λ w. R.failed w.rest };

    ghost Keeps = { λ old new. R.Keeps old.rest new.rest
        × KeepsAhead (nul_ahead R.model) old new × KeepsAhead (whole_ahead R.model) old new };

    ghost keeps_refl = { λ w. (R.keeps_refl w.rest, λ b is. is, λ b is. is) };

    ghost keeps_trans = { λ x y z first next. (
      R.keeps_trans x.rest y.rest z.rest first.0 next.0,
      λ b is. next.1 b (first.1 b is),
      λ b is. next.2 b (first.2 b is),
    ) };

    fn read(&mut self, buf: &mut [u8]) -> Result<usize, IoFault> {
        let n = self.rest.read(buf)?;
        self.watch(&buf[..n]);
        Ok(n)
    }

    fn failures(&self) -> u64 {
        self.rest.failures()
    }
}
