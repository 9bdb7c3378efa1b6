// Characters of a line, found byte by byte: their steps, and the cuts of their numbers.
ghost use Rattle.std.specs.Prelude.{◌≡◌, ℕ, ◌+◌, ◌*◌, ◌-◌, ◌^◌, ◌<◌, ◌≤◌, ◌++◌, IfOk, OnOk, length, slice_index};
ghost use Rattle.cs_syntax.specs.Cited.{finished, unfinished_after, char_step, continued, is_split, unfinished_in, least_with, tree_of, AreCutsOf, floor, range_cuts, char_ranges, AreCanonical};

use crate::char_set::is_scalar;
use crate::node::Node;
use std::alloc::{AllocError, Global};
use std::marker::Model;

/// The unfinished character before an offset of a line. All characters that it can become lie in a
/// block of `64^needed` numbers, or in an interval between two cuts.
#[derive(Clone, Copy, PartialEq, Eq)]
pub struct Unfinished {
    /// How many continuation bytes it needs, at most 3. If it is 0, no character is unfinished.
    pub needed: u8,
    /// Where the block begins, or the interval if that has the whole block.
    pub low: u32,
}

impl Unfinished {
    /// No character is unfinished.
    pub fn none() -> Unfinished
        ensures { result ≡ finished }
    {
        Unfinished { needed: 0, low: 0 }
    }
}

/// What a byte does to the unfinished character.
#[derive(Clone, Copy, PartialEq, Eq)]
pub enum CharStep {
    /// An ASCII byte, a character by itself.
    Single(u8),
    /// A lead byte begins a character.
    Begins(Unfinished),
    /// A continuation byte, and the character needs more.
    Inside(Unfinished),
    /// The last byte of a character, with where the interval of the character begins.
    Completes(u32),
    /// The byte belongs to no character.
    Nothing,
}

impl CharStep {
    /// The unfinished character after the step.
    pub fn unfinished(self) -> Unfinished
        ensures { result ≡ unfinished_after self }
    {
        match self {
            CharStep::Begins(at) | CharStep::Inside(at) => at,
            CharStep::Single(_) | CharStep::Completes(_) | CharStep::Nothing => Unfinished::none(),
        }
    }
}

/// The last character.
const LAST: u32 = 0x10_FFFF;

/// The cuts that UTF-8 asks for.
const UTF8_CUTS: [u32; 7] = [0, 0x80, 0x800, 0xD800, 0xE000, 0x1_0000, 0x11_0000];

/// Cuts of the numbers into intervals: all numbers of an interval are in the same sets of
/// characters of a tree.
#[derive(Drop)]
pub struct Cuts {
    cuts: Vec<u32>,
}

impl Model for Cuts {
    ghost use Rattle.std.specs.Prelude.{ℕ, List};
    ghost use Rattle.cs_syntax.specs.Cuts.{AreCuts};

    ghost Value = { List ℕ };

    ghost view = { λ cuts. cuts.cuts.items };

    ghost invariant = { λ cuts. AreCuts cuts.cuts.items };
}

impl Cuts {
    /// The cuts of the sets of characters of a tree.
    pub fn of_tree(alloc: Global, tree: &Node) -> Result<Cuts, AllocError>
        ensures { IfOk result (AreCutsOf (tree_of tree.now)) }
    {
        let mut cuts = Vec::from_slice(alloc, &UTF8_CUTS)?;
        add_tree(tree, &mut cuts)?;
        cuts.sort_unstable();
        cuts.dedup();
        Ok(Cuts { cuts })
    }

    /// The cuts in ascending order. An interval begins at each of them.
    pub fn as_slice(&self) -> &[u32]
        ensures { result.now ≡ self.now }
    {
        self.cuts.as_slice()
    }

    /// The number of the interval of n; the first is 0.
    pub fn interval(&self, n: u32) -> usize
        ensures within { result < length self.now }
        ensures begins { slice_index self.now result ≡ floor self.now n }
    {
        self.cuts.partition_point(|cut| *cut <= n) - 1
    }

    /// The step over a byte after the unfinished character `at`.
    pub fn step(&self, at: Unfinished, byte: u8) -> CharStep
        ensures { result ≡ char_step self.now at byte }
    {
        match byte {
            0x00..=0x7F => CharStep::Single(byte),
            0x80..=0xBF => self.continued(at, byte),
            0xC2..=0xDF => CharStep::Begins(self.unfinished_in(1, u32::from(byte - 0xC0) << 6)),
            0xE0..=0xEF => CharStep::Begins(self.unfinished_in(2, u32::from(byte - 0xE0) << 12)),
            0xF0..=0xF4 => CharStep::Begins(self.unfinished_in(3, u32::from(byte - 0xF0) << 18)),
            _ => CharStep::Nothing,
        }
    }

    /// The step over a continuation byte.
    fn continued(&self, at: Unfinished, byte: u8) -> CharStep
        ensures { result ≡ continued self.now at.needed at.low byte }
    {
        if at.needed == 0 || at.needed > 3 || at.low > LAST {
            return CharStep::Nothing;
        }
        let needed = at.needed - 1;
        let mut start = at.low;
        if self.is_split(at.needed, start) {
            start += u32::from(byte % 64) * block_size(needed);
        }
        if !is_scalar(start) || start < least_with(at.needed) {
            CharStep::Nothing
        } else if needed == 0 {
            CharStep::Completes(self.floor(start))
        } else {
            CharStep::Inside(self.unfinished_in(needed, start))
        }
    }

    /// A character that needs this many bytes and lies in the block from `start` on.
    fn unfinished_in(&self, needed: u8, start: u32) -> Unfinished
        requires few { needed ≤ 3 }
        requires small { start < 2 ^ 31 }
        ensures { result ≡ unfinished_in self.now needed start }
    {
        let low = if self.is_split(needed, start) {
            start
        } else {
            self.floor(start)
        };
        Unfinished { needed, low }
    }

    /// Whether a cut lies inside the block from `start` on.
    fn is_split(&self, needed: u8, start: u32) -> bool
        requires few { needed ≤ 3 }
        requires small { start < 2 ^ 31 }
        ensures { result ≡ is_split self.now needed start }
    {
        self.floor(start) != self.floor(start + (block_size(needed) - 1))
    }

    /// The greatest cut that is not above n.
    fn floor(&self, n: u32) -> u32
        ensures { result ≡ floor self.now n }
    {
        self.cuts[self.interval(n)]
    }
}

/// The size of a block of characters that need this many bytes.
fn block_size(needed: u8) -> u32
    requires { needed ≤ 3 }
    ensures size { result ≡ 64 ^ needed }
    ensures some { 0 < result }
    ensures most { result ≤ 2 ^ 18 }
{
    match needed {
        0 => 1,
        1 => 1 << 6,
        2 => 1 << 12,
        _ => 1 << 18,
    }
}

/// The least character with this many continuation bytes.
fn least_with(count: u8) -> u32
    requires { count ≤ 3 }
    ensures { result ≡ least_with count }
{
    match count {
        0 => 0,
        1 => 0x80,
        2 => 0x800,
        _ => 0x1_0000,
    }
}

/// Adds the cuts of the sets of characters of the tree.
fn add_tree(tree: &Node, cuts: &mut Vec<u32>) -> Result<(), AllocError>
    ensures { OnOk result (cuts.new.items ≡ cuts.old.items ++ range_cuts (char_ranges (tree_of tree.now))) }
{
    match tree {
        Node::Cat(parts) | Node::Alt(parts) => {
            for part in parts {
                add_tree(part, cuts)?;
            }
        }
        Node::Rep(x, _, _) => add_tree(x, cuts)?,
        Node::Chars(set) => add_ranges(set.runs(), cuts)?,
        _ => {}
    }
    Ok(())
}

fn add_ranges(ranges: &[(u32, u32)], cuts: &mut Vec<u32>) -> Result<(), AllocError>
    requires { AreCanonical ranges.now }
    ensures { OnOk result (cuts.new.items ≡ cuts.old.items ++ range_cuts ranges.now) }
{
    for range in ranges {
        cuts.push(range.0)?;
        cuts.push(range.1 + 1)?;
    }
    Ok(())
}
