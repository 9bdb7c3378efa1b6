// The scanner of indexed files: reads a file block by block, tests the text rules and collects the
// trigrams.
ghost use Rattle.std.specs.Prelude.{◌≡◌, ◌+◌, IfOk, ◌<◌, ◌≤◌, ℕ, List, ◌++◌, length, take, drop, [], None, Ok};
ghost use Rattle.cs_trigram.specs.Cited.{ConsumesAtMost, AreDistinctTrigrams, IfText, IsScanOf, is_scan_failure, ReportsScan, scan_outcome_of, set_of_numbers, IsTrigramSet, AreDistinct, count_after, limits, first_broken, ReadGives, is_io_failure, last_two, Carries, ends, AreSmallLimits, HasSeenBytes, IsSound, numbers_of};
ghost use Rattle.cs_trigram.specs.declared.seen_trigrams.TheConstants.{WITH_TWO};

use crate::position::{TextPosition, validate};
use crate::scan::{LIMITS, Limits, Reason, Scan, ScanFault};
use crate::seen_trigrams::{BLOCK, SeenTrigrams};
use cs_tree::{IoFault, Source};
use std::alloc::{AllocError, Global};
use std::marker::Model;

/// A scanner of files, reusable for one file after another. Each result depends only on its file,
/// so contracts see nothing of the scanner itself.
#[derive(Drop)]
pub struct Scanner {
    alloc: Global,
    gatherer: Gatherer,
}

impl Model for Scanner {
    ghost use Rattle.cs_trigram.specs.Text.{limits};
    ghost use Rattle.cs_trigram.specs.Scanning.{IsPreparedFor};

    ghost Value = { Unit {0} };

    ghost view = { λ _. tt };

    ghost invariant = { λ s. IsPreparedFor limits s.gatherer };
}

impl Scanner {
    /// A scanner with its buffer and its bitmap, about 2.6 MB in all.
    pub fn new(alloc: Global) -> Result<Scanner, AllocError> {
        Ok(Scanner {
            alloc,
            gatherer: Gatherer::new(alloc, LIMITS)?,
        })
    }

    /// Scans a file. Returns its trigrams if it is text, otherwise the reason to skip it. Reading
    /// stops after the block with the first byte that breaks a rule.
    ///
    /// # Errors
    ///
    /// `Read` if a read fails, after bytes that break no rule; `Memory` if an allocation fails.
    pub fn scan<R: Source>(&mut self, source: &mut R) -> Result<Scan, ScanFault>
        ensures model { IsScanOf limits (R.model source.old) result (λ trigrams. trigrams.items) }
        ensures trigrams { IfOk result (λ scan. IfText scan (λ trigrams. IsTrigramSet trigrams.items)) }
        ensures failed { R.failed source.new ≡
            count_after is_scan_failure result (R.failed source.old) }
        ensures bounded { ConsumesAtMost (limits.bytes + 1) (R.model source.old) (R.model source.new) }
        ensures keeps { R.Keeps source.old source.new }
    {
        match self.gatherer.read(source)? {
            Scan::Text {
                trigrams: (),
                bytes,
            } => {
                let trigrams = set_of(self.alloc, self.gatherer.numbers())?;
                Ok(Scan::Text { trigrams, bytes })
            }
            Scan::Skip(reason) => Ok(Scan::Skip(reason)),
        }
    }

    /// Scans a file as `scan` does. The trigrams of the result are borrowed from the scanner, in
    /// the order of their first occurrence: nothing is sorted or allocated.
    ///
    /// # Errors
    ///
    /// Those of `scan`.
    pub fn gather<R: Source>(&mut self, source: &mut R) -> Result<Scan<&[u32]>, ScanFault>
        ensures model { IsScanOf limits (R.model source.old) result
            (λ trigrams. set_of_numbers trigrams.now) }
        ensures trigrams { IfOk result
            (λ scan. IfText scan (λ trigrams. AreDistinctTrigrams trigrams.now)) }
        ensures failed { R.failed source.new ≡
            count_after is_scan_failure result (R.failed source.old) }
        ensures bounded { ConsumesAtMost (limits.bytes + 1) (R.model source.old) (R.model source.new) }
        ensures keeps { R.Keeps source.old source.new }
    {
        Ok(match self.gatherer.read(source)? {
            Scan::Text {
                trigrams: (),
                bytes,
            } => Scan::Text {
                trigrams: self.gatherer.numbers(),
                bytes,
            },
            Scan::Skip(reason) => Scan::Skip(reason),
        })
    }
}

/// Reads files, one after another. The trigrams of the last file stay until the next one is read.
#[derive(Drop)]
pub(crate) struct Gatherer {
    limits: Limits,
    buffer: Vec<u8>,
    found: SeenTrigrams,
}

impl Gatherer {
    ghost use Rattle.cs_trigram.specs.Scanning.{IsPrepared, IsPreparedFor};

    /// A gatherer with its buffer and its bitmap, about 2.6 MB in all.
    pub(crate) fn new(alloc: Global, limits: Limits) -> Result<Gatherer, AllocError>
        requires { AreSmallLimits limits }
        ensures { IfOk result (IsPreparedFor limits) }
    {
        Ok(Gatherer {
            limits,
            buffer: vec![in alloc; 0u8; BLOCK + 2]?,
            found: SeenTrigrams::new(alloc, limits.trigrams)?,
        })
    }

    /// Reads a file.
    pub(crate) fn read<R: Source>(&mut self, source: &mut R) -> Result<Scan<()>, ScanFault>
        requires { IsPrepared self.old }
        ensures model { IsScanOf self.old.limits (R.model source.old) result
            (λ _. set_of_numbers (numbers_of self.new.found)) }
        ensures trigrams { IfOk result
            (λ scan. IfText scan (λ _. AreDistinctTrigrams (numbers_of self.new.found))) }
        ensures failed { R.failed source.new ≡
            count_after is_scan_failure result (R.failed source.old) }
        ensures bounded { ConsumesAtMost (self.old.limits.bytes + 1)
            (R.model source.old) (R.model source.new) }
        ensures keeps { R.Keeps source.old source.new }
        ensures ready { IsPreparedFor self.old.limits self.new }
    {
        self.found.clear();
        read_to_end(&self.limits, &mut self.buffer, &mut self.found, source)
    }

    /// The trigrams of the last file, in the order of their first occurrence.
    pub(crate) fn numbers(&self) -> &[u32]
        ensures { result.now ≡ numbers_of self.now.found }
    {
        self.found.numbers()
    }
}

/// The block of `len` bytes in the buffer.
pub(crate) fn block(buffer: &[u8], len: usize) -> &[u8]
    requires { len + 2 ≤ length buffer.now }
    ensures { result.now ≡ take len (drop 2 buffer.now) }
{
    let (_, rest) = buffer.split_at(2);
    &rest[..len]
}

/// Reads a block of at most `room` bytes into the buffer, after its first two bytes.
fn read_block<R: Source>(buffer: &mut [u8], room: usize, source: &mut R) -> Result<usize, IoFault>
    requires some { 0 < room }
    requires within { room + 2 ≤ length buffer.old }
    ensures within { IfOk result (λ n. n ≤ room) }
    ensures bytes { ReadGives (R.model source.old) (R.model source.new) result (drop 2 buffer.new) }
    ensures prefix { take 2 buffer.new ≡ take 2 buffer.old }
    ensures failed { R.failed source.new ≡ count_after is_io_failure result (R.failed source.old) }
    ensures keeps { R.Keeps source.old source.new }
{
    let (_, space) = buffer.split_at_mut(2);
    source.read(&mut space[..room])
}

/// The block of `len` bytes, with the two bytes of the file before it, or as many as there are.
/// `count` is the number of bytes of the file before the block.
fn with_two_before(buffer: &[u8], count: u64, len: usize) -> &[u8]
    requires { len + 2 ≤ length buffer.now }
    ensures bytes { (prefix : List ℕ) → count ≡ length prefix → Carries buffer.now prefix →
        result.now ≡ last_two prefix ++ take len (drop 2 buffer.now) }
    ensures short { length result.now ≤ len + 2 }
{
    let from = 2u64.saturating_sub(count) as usize;
    &buffer[from..len + 2]
}

/// Copies the last two bytes of the block to the start of the buffer.
fn carry(buffer: &mut [u8], len: usize)
    requires some { 0 < len }
    requires within { len + 2 ≤ length buffer.old }
    ensures { (prefix : List ℕ) → Carries buffer.old prefix →
        Carries buffer.new (prefix ++ take len (drop 2 buffer.old)) }
{
    buffer[0] = buffer[len];
    buffer[1] = buffer[len + 1];
}

/// The result for a file whose bytes break no rule. The trigrams stay with those that were seen.
fn result_at_end(found: &SeenTrigrams, bytes: u64) -> Scan<()>
    ensures reports { (most : Limits) (prefix : List ℕ) → HasSeenBytes most.trigrams found.now prefix →
        first_broken most [] prefix ≡ None → bytes ≡ length prefix →
        ReportsScan (Ok result) (λ _. set_of_numbers (numbers_of found.now))
        (scan_outcome_of most prefix ends) }
    ensures trigrams { (most : Limits) (prefix : List ℕ) → HasSeenBytes most.trigrams found.now prefix →
        first_broken most [] prefix ≡ None →
        IfText result (λ _. AreDistinctTrigrams (numbers_of found.now)) }
{
    if found.is_over_limit() {
        return Scan::Skip(Reason::ManyTrigrams);
    }
    Scan::Text {
        trigrams: (),
        bytes,
    }
}

/// Reads a file to its end, or to the first byte that breaks a rule.
fn read_to_end<R: Source>(
    limits: &Limits,
    buffer: &mut [u8],
    found: &mut SeenTrigrams,
    source: &mut R,
) -> Result<Scan<()>, ScanFault>
    requires small { AreSmallLimits limits.now }
    requires room { length buffer.old ≡ WITH_TWO }
    requires empty { HasSeenBytes limits.now.trigrams found.old [] }
    ensures model { IsScanOf limits.now (R.model source.old) result
        (λ _. set_of_numbers (numbers_of found.new)) }
    ensures trigrams { IfOk result
        (λ scan. IfText scan (λ _. AreDistinctTrigrams (numbers_of found.new))) }
    ensures failed { R.failed source.new ≡
        count_after is_scan_failure result (R.failed source.old) }
    ensures bounded { ConsumesAtMost (limits.now.bytes + 1) (R.model source.old) (R.model source.new) }
    ensures keeps { R.Keeps source.old source.new }
    ensures sound { IsSound found.new }
    ensures list { length found.new.list.items ≡ limits.now.trigrams + WITH_TWO }
{
    let mut position = TextPosition::START;
    'chunks: loop {
        let room = (limits.bytes + 1 - position.count).min(BLOCK as u64) as usize;
        let n = match read_block(buffer, room, source) {
            Ok(n) => n,
            Err(IoFault::Failed) => return Err(ScanFault::Read),
            Err(IoFault::Memory) => return Err(ScanFault::Memory),
        };
        if n == 0 {
            return Ok(result_at_end(found, position.count));
        }
        match validate(limits, position, block(buffer, n)) {
            Ok(next) => {
                found.add_block(with_two_before(buffer, position.count, n));
                carry(buffer, n);
                position = next;
            }
            Err(reason) => return Ok(Scan::Skip(reason)),
        }
    }
}

/// Sorts distinct numbers.
fn sort_distinct(numbers: &mut [u32])
    requires { AreDistinct numbers.old }
    ensures { numbers.new ≡ set_of_numbers numbers.old }
{
    numbers.sort_unstable();
}

/// The sorted set of distinct numbers.
fn set_of(alloc: Global, numbers: &[u32]) -> Result<Vec<u32>, AllocError>
    requires { AreDistinct numbers.now }
    ensures { IfOk result (λ set. set.items ≡ set_of_numbers numbers.now) }
{
    let mut set = Vec::from_slice(alloc, numbers)?;
    sort_distinct(&mut set);
    Ok(set)
}
