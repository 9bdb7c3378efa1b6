// Outputs whose bytes are summed piece by piece.
ghost use Rattle.std.proofs.Common.{◌∙◌};
ghost use Rattle.std.specs.Prelude.{◌≡◌, ◌<◌, ◌≤◌, ◌^◌, ◌++◌, [], Err, IfOk, OnOk, length, refl};
ghost use Rattle.cs_state.specs.Sums.{piece_count};
ghost use Rattle.cs_state.specs.Cited.{end_of, seal_of, sealed, sums_of, IsSummed, IsSummedIfWhole, KeepsSeal, bytes_given};

use crate::fault::SealFault;
use crate::opening::{END_LEN, MAGIC};
use crate::state_key::{StateKey, StateSeal};
use crate::summed_output::SummedOutput;
use crate::sums::{PIECE_LEN, SUM_LEN};
use cs_tree::Output;
use std::alloc::{AllocError, Global};

impl<O: Output> SummedOutput<O> {
    /// An output before another one, which was given nothing. The sums are made with a key and the
    /// moment of the state.
    pub fn new(alloc: Global, out: O, key: StateKey, moment: u64) -> SummedOutput<O>
        requires { O.given out ≡ [] }
        ensures out { result.out ≡ out }
        ensures seal { result.seal ≡ seal_of key moment }
        ensures given { bytes_given O.given result ≡ [] }
        ensures summed { IsSummed O.given result }
    {
        SummedOutput {
            out,
            seal: StateSeal { key, moment },
            piece: Vec::new(alloc),
            sums: Vec::new(alloc),
            len: 0,
            whole: true,
        }
    }

    /// Sends the piece on, and keeps its sum.
    fn send(&mut self) -> Result<(), AllocError>
        requires { 0 < length self.old.piece.items }
        ensures piece { OnOk result (self.new.piece.items ≡ []) }
        ensures given { OnOk result (O.given self.new.out ≡ bytes_given O.given self.old) }
        ensures sums { IsSummed O.given self.old →
            OnOk result (self.new.sums.items ≡ sums_of self.old.seal (bytes_given O.given self.old)) }
        ensures summed { length self.old.piece.items ≡ 65536 → IsSummed O.given self.old →
            OnOk result (IsSummed O.given self.new) }
        ensures same { KeepsSeal self.old self.new }
        ensures keeps { O.Keeps self.old.out self.new.out }
    {
        let number = self.sums.len() / SUM_LEN;
        let sum = self.seal.sum(number, false, &self.piece);
        self.sums.extend_from_slice(&sum)?;
        self.out.append(&self.piece)?;
        self.piece.clear();
        Ok(())
    }

    /// Sends the last piece on, if there is one.
    fn complete(&mut self) -> Result<(), AllocError>
        ensures given { OnOk result (O.given self.new.out ≡ bytes_given O.given self.old) }
        ensures sums { IsSummed O.given self.old →
            OnOk result (self.new.sums.items ≡ sums_of self.old.seal (bytes_given O.given self.old)) }
        ensures same { KeepsSeal self.old self.new }
    {
        if self.piece.is_empty() {
            return Ok(());
        }
        self.send()
    }

    /// Takes bytes up to the end of the piece, and sends a full one on before. Returns the others.
    fn take<'b>(&mut self, bytes: &'b [u8]) -> Result<&'b [u8], AllocError>
        ensures given { IfOk result (λ rest. bytes_given O.given self.new ++ rest.now
            ≡ bytes_given O.given self.old ++ bytes.now) }
        ensures fewer { IfOk result (λ rest. 0 < length bytes.now → length rest.now < length bytes.now) }
        ensures summed { IsSummed O.given self.old → OnOk result (IsSummed O.given self.new) }
        ensures whole { self.new.whole ≡ self.old.whole }
        ensures seal { self.new.seal ≡ self.old.seal }
        ensures keeps { O.Keeps self.old.out self.new.out }
    {
        if self.piece.len() == PIECE_LEN {
            self.send()?;
        }
        let (some, rest) = bytes.split_at(bytes.len().min(PIECE_LEN - self.piece.len()));
        self.piece.extend_from_slice(some)?;
        self.len = self.len.saturating_add(some.len() as u64);
        Ok(rest)
    }
}

impl<O: Output + Drop> SummedOutput<O> {
    /// Sends the rest of the bytes, and then their sums and the end of a state. Gives the output
    /// back. `TooLarge` if the state would have 2^32 bytes or more.
    pub fn finish(mut self) -> Result<O, SealFault>
        ensures bytes { IsSummedIfWhole O.given self →
            IfOk result (λ out. O.given out ≡ sealed self.seal (bytes_given O.given self)) }
        ensures short { IsSummedIfWhole O.given self → IfOk result (λ out. length (O.given out) < 2 ^ 32) }
        ensures too_large { IsSummedIfWhole O.given self → result ≡ Err SealFault.TooLarge →
            2 ^ 32 ≤ length (sealed self.seal (bytes_given O.given self)) }
    {
        if !self.whole {
            return Err(SealFault::Memory);
        }
        self.complete()?;
        let SummedOutput {
            mut out,
            seal,
            sums,
            len,
            ..
        } = self;
        if len > u32::MAX as u64 || sums.len() + END_LEN > u32::MAX as usize - len as usize {
            return Err(SealFault::TooLarge);
        }
        out.append(&sums)?;
        append_end(&mut out, seal, len, sums.len() / SUM_LEN)?;
        Ok(out)
    }
}

/// Appends the end of a state, by the length of its index and the number of the last piece.
fn append_end<O: Output>(
    out: &mut O,
    seal: StateSeal,
    index_len: u64,
    number: usize,
) -> Result<(), AllocError>
    ensures { number ≡ piece_count index_len →
        OnOk result (O.given out.new ≡ O.given out.old ++ end_of seal index_len) }
{
    let last = index_len.to_be_bytes();
    out.append(&last)?;
    out.append(&seal.sum(number, true, &last))?;
    out.append(&seal.moment.to_be_bytes())?;
    out.append(MAGIC)
}

impl<O: Output> Output for SummedOutput<O> {
    ghost use Rattle.cs_state.specs.SummedOutputs.{IsSummedIfWhole, bytes_given};

    ghost given = { λ s. bytes_given O.given s };

    ghost Keeps = { λ old new. O.Keeps old.out new.out
        × (IsSummedIfWhole O.given old → IsSummedIfWhole O.given new) × (new.seal ≡ old.seal) };

    ghost keeps_refl = { λ x. (O.keeps_refl x.out, λ summed. summed, refl) };

    ghost keeps_trans = { λ x y z first next. (
      O.keeps_trans x.out y.out z.out first.0 next.0,
      λ summed. next.1 (first.1 summed),
      next.2 ∙ first.2,
    ) };

    fn append(&mut self, bytes: &[u8]) -> Result<(), AllocError> {
        let whole = self.whole;
        self.whole = false;
        let mut rest = bytes;
        'pieces: while !rest.is_empty() {
            rest = self.take(rest)?;
        }
        self.whole = whole;
        Ok(())
    }
}
