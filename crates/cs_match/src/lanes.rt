// Lanes: four scans of chunks of a block at once, each of which lists the ends of the matching
// lines of its chunk; the four lists become one. A lane has one branch for a byte, which is taken
// at the end of a matching line, and stays in the state unknown where a transition is not known.
ghost use Rattle.std.specs.Prelude.{◌≡◌, ◌≤◌, ◌<◌, ◌+◌, ◌/◌, ℕ, List, [], ◌∷◌, ◌++◌, length, take, ◌-◌, ◌*◌, drop, slice_index};
ghost use Rattle.cs_match.specs.Cited.{HasRows, next_number, unknown, table_start, IsRow, newlines_between, IsLane, AreChunks, AreLanes, IsCut, IsChunk, AreListed, CountsWithin, AreWholeLines, Decides, byte_work, CountsAtMost};
ghost use Rattle.cs_match.specs.Lanes.{AreCuts};

use crate::dfa::EndList;
use crate::listing::{Lister, line_end};
use cs_tree::Steps;
use std::ops::Range;

/// A lane. The ends of the matching lines that it has seen are the first `count` of its list.
#[derive(Clone, Copy)]
pub(crate) struct Lane {
    /// Where its chunk begins.
    pub(crate) from: usize,
    pub(crate) number: u16,
    pub(crate) count: usize,
}

impl Lane {
    /// A lane at the start of its chunk.
    fn new(table: Table<'_>, from: usize) -> Lane
        requires { HasRows table }
        ensures from { result.from ≡ from }
        ensures lane { (block ends : List ℕ) → IsLane table.entry block from result ends }
    {
        Lane {
            from,
            number: table.start(),
            count: 0,
        }
    }

    /// Moves over the byte at an offset, and lists the offset if a matching line ends there.
    #[inline(always)]
    fn step(&mut self, table: Table<'_>, block: &[u8], at: usize, ends: &mut [usize])
        requires rows { HasRows table }
        requires within { at < length block.now }
        requires lane { IsLane table block.now at self.old ends.old }
        requires room { newlines_between block.now self.old.from (at + 1) ≤ length ends.old }
        ensures from { self.new.from ≡ self.old.from }
        ensures lane { IsLane table.entry block.now (at + 1) self.new ends.new }
    {
        self.number = table.next(self.number, block[at]);
        if self.number == Table::FOUND {
            self.note(at, ends);
        }
    }

    #[cold]
    fn note(&mut self, at: usize, ends: &mut [usize])
        requires { self.old.count < length ends.old }
        ensures same { (self.new.from ≡ self.old.from) × (self.new.number ≡ self.old.number) }
        ensures count { self.new.count ≡ self.old.count + 1 }
        ensures listed { take self.new.count ends.new ≡ take self.old.count ends.old ++ at ∷ [] }
    {
        ends[self.count] = at;
        self.count += 1;
    }

    /// Moves over the bytes between two offsets.
    fn scan(&mut self, table: Table<'_>, block: &[u8], part: Range<usize>, ends: &mut [usize])
        requires rows { HasRows table }
        requires order { (part.start ≤ part.end) × (part.end ≤ length block.now) }
        requires lane { IsLane table block.now part.start self.old ends.old }
        requires room { newlines_between block.now self.old.from part.end ≤ length ends.old }
        ensures from { self.new.from ≡ self.old.from }
        ensures lane { IsLane table.entry block.now part.end self.new ends.new }
    {
        for at in part.start..part.end {
            self.step(table, block, at, ends);
        }
    }
}

/// A transition table: a row for each state, with a transition for each class of bytes. The number
/// of a state is the index of its row's first transition. Row 0 is that of *found*, the start state
/// after a matching line. The next three are special: *unknown*, the transition is not computed
/// yet; *match*, the line matches whatever follows in it; *dead*, it does not. The next is that of
/// the start state.
#[derive(Clone, Copy)]
pub(crate) struct Table<'a> {
    pub(crate) transitions: &'a [u16],
    /// The class of each byte. The newline is alone in its class.
    pub(crate) of: &'a [u8; 256],
    pub(crate) count: usize,
}

impl<'a> Table<'a> {
    pub(crate) const FOUND: u16 = 0;

    #[inline(always)]
    pub(crate) fn start(self) -> u16
        requires { HasRows self }
        ensures { result ≡ table_start self.entry }
    {
        (4 * self.count) as u16
    }

    /// The transition of a state over a byte. The column of the byte does not depend on the state,
    /// so that a step waits for one load alone.
    #[inline(always)]
    pub(crate) fn next(self, number: u16, byte: u8) -> u16
        requires rows { HasRows self }
        requires row { IsRow self number }
        ensures { result ≡ next_number self.entry number byte }
    {
        let column = &self.transitions[self.of[byte as usize] as usize..];
        column[number as usize]
    }

    /// How many bytes of the text are read before their line is decided: those before which the
    /// state is neither the match state nor the dead one.
    #[cold]
    #[inline(never)]
    pub(crate) fn undecided(self, text: &[u8]) -> usize
        requires { HasRows self }
        ensures { result ≤ length text.now }
    {
        let mut number = self.start();
        let mut count = 0;
        for b in text {
            if number as usize <= self.count || number >= self.start() {
                count += 1;
            }
            number = self.next(number, *b);
        }
        count
    }
}

/// The least size of a chunk in bytes, except at the end of a block.
const LEAST: usize = 64;

/// The end of the chunk that begins at `from`: after the first newline at least so many bytes on,
/// or the end of the block. It has at most one line more than these bytes.
pub(crate) fn cut(block: &[u8], from: usize, size: usize, steps: &mut Steps) -> usize
    requires within { from ≤ length block.now }
    requires whole { AreWholeLines (drop from block.now) }
    ensures cut { IsCut block.now size from result }
    ensures chunk { IsChunk block.now (size + 1) from result }
    ensures moves { from < length block.now → from < result }
    ensures work { CountsAtMost (result - from) steps.old steps.new }
{
    if block.len() - from <= size {
        return block.len();
    }
    line_end(block, from + size, steps) + 1
}

impl Lister<'_> {
    /// Lists the ends of the matching lines of four chunks, at least of one line. A chunk with an
    /// unknown transition is scanned once more, by one lane.
    pub(crate) fn list_chunks(&mut self, block: &[u8], from: usize, ends: &mut [usize]) -> EndList
        requires within { from ≤ length block.now }
        requires whole { AreWholeLines (drop from block.now) }
        requires room { 4 ≤ length ends.old }
        ensures listed { AreListed (λ has_match. Decides has_match self.old.dfa.tree)
            block.now from result.to result.count ends.new }
        ensures moves { from < length block.now → from < result.to }
        ensures work { CountsWithin ((byte_work self.old.dfa.tree + 2) * (result.to - from))
            self.old self.new }
    {
        let quarter = ends.len() / 4;
        let size = (quarter - 1).min((block.len() - from) / 4 + LEAST);
        let cuts = four_chunks(block, from, size, &mut self.steps);
        self.steps.add(cuts[4] - from);
        let table = self.dfa.table();
        let unknown = table.count;
        let lanes = four_lanes(table, block, cuts, ends);
        let mut count = 0;
        for k in 0..4usize {
            let lane = lanes[k];
            if lane.number as usize == unknown {
                let own = &mut ends[count..(k + 1) * quarter];
                let part = cuts[k]..cuts[k + 1];
                let listed = self.dfa.list_ends(block, part, own, &mut self.steps);
                count += listed.count;
            } else {
                self.steps.add(lane.count);
                ends.copy_within(k * quarter..k * quarter + lane.count, count);
                count += lane.count;
            }
        }
        EndList { count, to: cuts[4] }
    }
}

/// Scans the four chunks between these offsets. Each lane lists the ends of the matching lines of
/// its chunk in its quarter of `ends`.
#[inline(never)]
fn four_lanes(table: Table<'_>, block: &[u8], cuts: [usize; 5], ends: &mut [usize]) -> [Lane; 4]
    requires rows { HasRows table }
    requires chunks { AreChunks block.now (length ends.old / 4) cuts }
    ensures lanes { AreLanes table.entry block.now cuts result ends.new }
    ensures len { length ends.new ≡ length ends.old }
{
    let quarter = ends.len() / 4;
    let (p, rest) = ends.split_at_mut(quarter);
    let (q, rest) = rest.split_at_mut(quarter);
    let (r, rest) = rest.split_at_mut(quarter);
    let (s, _) = rest.split_at_mut(quarter);
    let [from, to_a, to_b, to_c, to_d] = cuts;
    let mut a = Lane::new(table, from);
    let mut b = Lane::new(table, to_a);
    let mut c = Lane::new(table, to_b);
    let mut d = Lane::new(table, to_c);
    let n = (to_a - from)
        .min(to_b - to_a)
        .min(to_c - to_b)
        .min(to_d - to_c);
    for i in 0..n {
        a.step(table, block, from + i, p);
        b.step(table, block, to_a + i, q);
        c.step(table, block, to_b + i, r);
        d.step(table, block, to_c + i, s);
    }
    a.scan(table, block, from + n..to_a, p);
    b.scan(table, block, to_a + n..to_b, q);
    c.scan(table, block, to_b + n..to_c, r);
    d.scan(table, block, to_c + n..to_d, s);
    [a, b, c, d]
}

/// Four chunks of the block, from `from` on. They are empty past the end of the block.
fn four_chunks(block: &[u8], from: usize, size: usize, steps: &mut Steps) -> [usize; 5]
    requires within { from ≤ length block.now }
    requires whole { AreWholeLines (drop from block.now) }
    ensures cuts { AreCuts block.now size from result }
    ensures chunks { AreChunks block.now (size + 1) result }
    ensures moves { from < length block.now → from < slice_index result 4 }
    ensures work { CountsAtMost (slice_index result 4 - from) steps.old steps.new }
{
    let a = cut(block, from, size, steps);
    let b = cut(block, a, size, steps);
    let c = cut(block, b, size, steps);
    let d = cut(block, c, size, steps);
    [from, a, b, c, d]
}
