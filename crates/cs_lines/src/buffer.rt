// The bytes of a text that were read from a source and are not yet searched.
ghost use Rattle.std.specs.Prelude.{◌≡◌, ◌≤◌, ◌<◌, ◌+◌, ◌^◌, ℕ, List, [], true, false, vec_len, length, take, drop, IfOk, IfErr, OnOk};
ghost use Rattle.cs_tree.specs.Failures.{count_if};
ghost use Rattle.cs_tree.specs.FailureCount.{count_after};
ghost use Rattle.cs_tree.specs.StreamModels.{ends};
ghost use Rattle.cs_tree.specs.Transfers.{IsAt, ReadGives, is_io_failure};
ghost use Rattle.cs_lines.specs.Reads.{IsCutBy, ReadsAtMost, ReadsBehind, ReadsFirst, has_failed};

use crate::binary::PREFIX;
use cs_tree::{IoFault, Source};
use std::alloc::{AllocError, Global};

/// The initial size in bytes.
const FIRST_SIZE: usize = 65536;

/// A text of so many bytes is too long, so that line numbers fit.
pub(crate) const LONGEST: usize = 1 << 62;

/// Why a source cannot be read on.
#[derive(Clone, Copy, Drop)]
pub enum FillFault {
    /// A read failed.
    Failed,
    /// The text is longer than its limit.
    TooLong,
    /// An allocation failed.
    Memory,
}

impl From<AllocError> for FillFault {
    ghost use Rattle.std.specs.Prelude.{◌≡◌};
    ghost use Rattle.cs_lines.specs.declared.buffer.FillFault.TheVariants.{Memory};

    ghost from_gives = { λ _ fault. fault ≡ Memory };

    fn from(_refused: AllocError) -> FillFault {
        FillFault::Memory
    }
}

/// A read buffer, reused for one text after another. It is searched in place, and grows only for
/// lines that are longer than the buffer.
#[derive(Drop)]
pub struct LineBuffer {
    bytes: Vec<u8>,
    start: usize,
    end: usize,
    /// How many bytes of the text may still be read.
    pub(crate) left: usize,
    /// The source has ended.
    pub(crate) ended: bool,
    ghost ordered: { start ≤ end },
    ghost within: { end ≤ vec_len bytes },
    ghost some: { 0 < vec_len bytes },
}

impl LineBuffer {
    ghost use Rattle.cs_lines.specs.Buffer.{pending_bytes, size_of, GrowsIfFull};

    /// An empty buffer.
    #[tactic(auto, unfolding(crate::specs::Buffer::pending_bytes))]
    pub fn new(alloc: Global) -> Result<LineBuffer, AllocError>
        ensures { IfOk result (λ buffer. pending_bytes buffer ≡ []) }
    {
        LineBuffer::of_size(alloc, FIRST_SIZE)
    }

    /// An empty buffer of `size` bytes.
    #[tactic(auto, unfolding(crate::specs::Buffer::pending_bytes))]
    pub fn of_size(alloc: Global, size: usize) -> Result<LineBuffer, AllocError>
        requires { 0 < size }
        ensures empty { IfOk result (λ buffer. pending_bytes buffer ≡ []) }
        ensures size { IfOk result (λ buffer. size_of buffer ≡ size) }
    {
        let bytes = vec![in alloc; 0u8; size]?;
        Ok(LineBuffer {
            bytes,
            start: 0,
            end: 0,
            left: 0,
            ended: false,
        })
    }

    /// Begins with another text, and reads at most so many bytes of it.
    #[tactic(auto, unfolding(crate::specs::Buffer::pending_bytes))]
    pub(crate) fn begin(&mut self, limit: usize)
        ensures pending { pending_bytes self.new ≡ [] }
        ensures left { self.new.left ≡ limit }
        ensures ended { self.new.ended ≡ false }
    {
        self.start = 0;
        self.end = 0;
        self.left = limit;
        self.ended = false;
    }

    /// The bytes that were read and are not yet searched.
    #[tactic(auto, unfolding(crate::specs::Buffer::pending_bytes))]
    pub(crate) fn pending(&self) -> &[u8]
        ensures { result.now ≡ pending_bytes self.now }
    {
        &self.bytes[self.start..self.end]
    }

    /// Drops the first `n` pending bytes.
    #[tactic(auto, unfolding(crate::specs::Buffer::pending_bytes))]
    pub(crate) fn skip(&mut self, n: usize)
        requires { n ≤ length (pending_bytes self.old) }
        ensures pending { pending_bytes self.new ≡ drop n (pending_bytes self.old) }
        ensures left { self.new.left ≡ self.old.left }
        ensures ended { self.new.ended ≡ self.old.ended }
    {
        self.start += n;
    }

    /// Moves the pending bytes to the start of the buffer.
    #[tactic(auto, unfolding(crate::specs::Buffer::pending_bytes))]
    fn move_to_start(&mut self)
        ensures same { pending_bytes self.new ≡ pending_bytes self.old }
        ensures size { vec_len self.new.bytes ≡ vec_len self.old.bytes }
        ensures end { self.new.end + self.old.start ≡ self.old.end }
        ensures left { self.new.left ≡ self.old.left }
        ensures ended { self.new.ended ≡ self.old.ended }
    {
        let start = self.start;
        let end = self.end;
        self.bytes.copy_within(start..end, 0);
        self.start = 0;
        self.end = end - start;
    }

    /// Makes room after the pending bytes: moves them to the start, or doubles the buffer.
    #[tactic(auto, unfolding(crate::specs::Buffer::pending_bytes))]
    fn make_room(&mut self) -> Result<(), AllocError>
        requires { length (pending_bytes self.old) < 2 ^ 63 }
        ensures room { OnOk result (self.new.end < vec_len self.new.bytes) }
        ensures left { self.new.left ≡ self.old.left }
        ensures ended { self.new.ended ≡ self.old.ended }
        ensures same { pending_bytes self.new ≡ pending_bytes self.old }
        ensures size { GrowsIfFull self.old self.new }
    {
        if self.end < self.bytes.len() {
            return Ok(());
        }
        if self.start > 0 {
            self.move_to_start();
            return Ok(());
        }
        let size = self.bytes.len() * 2;
        self.bytes.resize(size, 0)?;
        Ok(())
    }

    /// Reads some of the bytes that may still be read, after the pending ones, and returns their
    /// number, which is 0 only at the end of the source.
    #[tactic(auto, unfolding(crate::specs::Buffer::pending_bytes))]
    fn read<R: Source>(&mut self, input: &mut R) -> Result<usize, FillFault>
        requires some { 0 < self.old.left }
        requires bound { length (pending_bytes self.old) < 2 ^ 63 }
        ensures text { ReadsBehind self.old.left (R.model input.old) (R.model input.new) result
            (pending_bytes self.old) (pending_bytes self.new) }
        ensures left { IfOk result (λ n. self.new.left + n ≡ self.old.left) }
        ensures ended { self.new.ended ≡ self.old.ended }
        ensures size { GrowsIfFull self.old self.new }
        ensures failed { R.failed input.new ≡ count_if (has_failed result) (R.failed input.old) }
        ensures keeps { R.Keeps input.old input.new }
    {
        self.make_room()?;
        let n = match read_behind(input, &mut self.bytes, self.end, self.left) {
            Ok(n) => n,
            Err(IoFault::Failed) => return Err(FillFault::Failed),
            Err(IoFault::Memory) => return Err(FillFault::Memory),
        };
        self.end += n;
        self.left -= n;
        Ok(n)
    }

    /// Reads some bytes after the pending ones, and returns how many: 0 only at the end of the
    /// source, which is not read again.
    pub(crate) fn fill<R: Source>(&mut self, input: &mut R) -> Result<usize, FillFault>
        requires ended { self.old.ended ≡ true → IsAt ends (R.model input.old) }
        requires bound { length (pending_bytes self.old) < 2 ^ 63 }
        ensures text { ReadsBehind self.old.left (R.model input.old) (R.model input.new) result
            (pending_bytes self.old) (pending_bytes self.new) }
        ensures left { IfOk result (λ n. self.new.left + n ≡ self.old.left) }
        ensures ended { IfOk result (λ _. self.new.ended ≡ true → IsAt ends (R.model input.new)) }
        ensures size { GrowsIfFull self.old self.new }
        ensures failed { R.failed input.new ≡ count_if (has_failed result) (R.failed input.old) }
        ensures keeps { R.Keeps input.old input.new }
    {
        if self.ended {
            return Ok(0);
        }
        if self.left == 0 {
            return probe_end(input);
        }
        let n = self.read(input)?;
        self.ended = n == 0;
        Ok(n)
    }

    /// Begins with another text, and reads at most so many bytes of it: at first as many of its
    /// first bytes as show whether it is binary, unless it ends before.
    pub(crate) fn begin_with<R: Source>(
        &mut self,
        input: &mut R,
        limit: usize,
    ) -> Result<(), FillFault>
        requires limit { limit < 2 ^ 63 }
        ensures first { ReadsFirst (R.model input.old) (R.model input.new) result (pending_bytes self.new) }
        ensures cut { IfErr result (IsCutBy limit (R.model input.old)) }
        ensures room { IfOk result (λ _. length (pending_bytes self.new) + self.new.left ≡ limit) }
        ensures read { ReadsAtMost limit (R.model input.old) (R.model input.new) (pending_bytes self.new) }
        ensures ended { IfOk result (λ _. self.new.ended ≡ true → IsAt ends (R.model input.new)) }
        ensures failed { R.failed input.new ≡ count_if (has_failed result) (R.failed input.old) }
        ensures keeps { R.Keeps input.old input.new }
    {
        self.begin(limit);
        'pieces: while self.pending().len() < PREFIX {
            if self.fill(input)? == 0 {
                return Ok(());
            }
        }
        Ok(())
    }
}

/// Reads up to `limit` bytes into `bytes`, from `end` on.
fn read_behind<R: Source>(
    input: &mut R,
    bytes: &mut [u8],
    end: usize,
    limit: usize,
) -> Result<usize, IoFault>
    requires some { 0 < limit }
    requires room { end < length bytes.old }
    ensures within { IfOk result (λ n. n ≤ limit) }
    ensures size { IfOk result (λ n. end + n ≤ length bytes.new) }
    ensures before { take end bytes.new ≡ take end bytes.old }
    ensures model { ReadGives (R.model input.old) (R.model input.new) result (drop end bytes.new) }
    ensures failed { R.failed input.new ≡ count_after is_io_failure result (R.failed input.old) }
    ensures keeps { R.Keeps input.old input.new }
{
    let stop = end + limit.min(bytes.len() - end);
    let n = input.read(&mut bytes[end..stop])?;
    Ok(n)
}

/// Reads one byte more, to learn whether a text ends at its limit.
fn probe_end<R: Source>(input: &mut R) -> Result<usize, FillFault>
    ensures none { IfOk result (λ n. n ≡ 0) }
    ensures text { (text : List ℕ) → ReadsBehind 0 (R.model input.old) (R.model input.new) result text text }
    ensures failed { R.failed input.new ≡ count_if (has_failed result) (R.failed input.old) }
    ensures keeps { R.Keeps input.old input.new }
{
    let mut next = [0u8; 1];
    match input.read(&mut next) {
        Ok(0) => Ok(0),
        Ok(_) => Err(FillFault::TooLong),
        Err(IoFault::Failed) => Err(FillFault::Failed),
        Err(IoFault::Memory) => Err(FillFault::Memory),
    }
}
