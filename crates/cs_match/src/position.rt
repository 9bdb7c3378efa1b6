// The positions of a tree, and what each does over a byte: one bit each in the masks, which are
// computed when an input is seen first. All bytes of a class do the same, so each class has one
// mask, that of its first byte.
ghost use Rattle.std.specs.Prelude.{◌≡◌, ◌++◌, OnOk, ◌+◌, ◌<◌, IfOk, Some, length, slice_index_or};
ghost use Rattle.cs_match.specs.Cited.{tree_of, position_count, position_list, if_entered, if_previous, if_kept, IsMask, HasRoom, AreMasks, CountsAtMost};

use crate::position_set::PositionSet;
use crate::program::Program;
use cs_syntax::{ByteSet, CharSet, CharStep, Node};
use cs_tree::Steps;
use std::alloc::{AllocError, Global};

/// A byte of a line, and what it does to the unfinished character.
#[derive(Clone, Copy, PartialEq, Drop)]
pub(crate) struct Input {
    pub(crate) byte: u8,
    pub(crate) char: CharStep,
}

/// A position of the automaton.
#[derive(Drop)]
pub(crate) enum Position {
    /// A set of bytes.
    Bytes(ByteSet),
    /// A set of characters that was entered where the unfinished character begins.
    Begun,
    /// A set of characters, one of which has just ended.
    Taken(CharSet),
}

impl Position {
    /// Whether the position is in the set after the input if it was entered, if the one before it
    /// was entered, and if it was in the set.
    fn over(&self, input: Input) -> (bool, bool, bool)
        ensures entered { result.0 ≡ if_entered input self.now }
        ensures previous { result.1 ≡ if_previous input self.now }
        ensures kept { result.2 ≡ if_kept input self.now }
    {
        match (self, input.char) {
            (Position::Bytes(set), _) => (set.contains(input.byte), false, false),
            (Position::Begun, CharStep::Begins(_)) => (true, false, false),
            (Position::Begun, CharStep::Inside(_)) => (false, false, true),
            (Position::Taken(set), CharStep::Single(byte)) => {
                (false, set.contains(u32::from(byte)), false)
            }
            (Position::Taken(set), CharStep::Completes(low)) => (set.contains(low), false, false),
            _ => (false, false, false),
        }
    }
}

/// The number of masks for the last bytes of characters.
const LAST_BYTES: usize = 64;

/// What each position does over an input.
#[derive(Drop)]
pub(crate) struct Mask {
    /// None if it is not computed.
    pub(crate) input: Option<Input>,
    /// The positions that are in the set after the input if they were entered.
    pub(crate) entered: PositionSet,
    /// The positions that are in it if the one before was entered.
    pub(crate) previous: PositionSet,
    /// The positions that are in it if they were in it before.
    pub(crate) kept: PositionSet,
}

impl Mask {
    /// Computes the mask of the input.
    fn fill(&mut self, positions: &[Position], input: Input, steps: &mut Steps)
        requires { HasRoom (length positions.now) self.old }
        ensures room { HasRoom (length positions.now) self.new }
        ensures mask { IsMask positions.now input self.new }
        ensures input { self.new.input ≡ Some input }
        ensures cost { steps.new.count ≡ steps.old.count + length positions.now }
    {
        self.input = Some(input);
        for (index, position) in positions.iter().enumerate() {
            steps.add(1);
            let (entered, previous, kept) = position.over(input);
            self.entered.put(index, entered);
            self.previous.put(index, previous);
            self.kept.put(index, kept);
        }
    }
}

/// The masks of the inputs that were seen last.
#[derive(Drop)]
pub(crate) struct Masks {
    pub(crate) slots: Vec<Mask>,
}

impl Masks {
    /// Memory for the masks of a program: one for each class of bytes, and some for the last bytes
    /// of characters. None is computed.
    pub(crate) fn new(alloc: Global, program: &Program) -> Result<Masks, AllocError>
        ensures { IfOk result (AreMasks (position_list program.now)) }
    {
        let mut count = program.byte_classes().count as usize;
        if program.look_behind().char {
            count += LAST_BYTES;
        }
        let positions = program.positions().len();
        let mut slots = Vec::with_capacity(alloc, count)?;
        for slot in 0..count {
            slots.push(Mask {
                input: None,
                entered: PositionSet::none(alloc, positions)?,
                previous: PositionSet::none(alloc, positions)?,
                kept: PositionSet::none(alloc, positions)?,
            })?;
        }
        Ok(Masks { slots })
    }

    /// The index of the mask of an input, computed first if it is not there.
    pub(crate) fn find(&mut self, program: &Program, input: Input, steps: &mut Steps) -> usize
        requires { AreMasks (position_list program.now) self.old }
        ensures masks { AreMasks (position_list program.now) self.new }
        ensures within { result < length self.new.slots.items }
        ensures mask { (other : Mask) →
            IsMask (position_list program.now) input (slice_index_or self.new.slots.items result other) }
        ensures cost { CountsAtMost (position_count program.now) steps.old steps.new }
    {
        let classes = program.byte_classes();
        let byte = input.byte as usize;
        let own = match input.char {
            CharStep::Completes(low) => classes.count as usize + (low as usize ^ byte) % LAST_BYTES,
            _ => classes.of[byte] as usize,
        };
        let slot = own.min(self.slots.len() - 1);
        if self.slots[slot].input != Some(input) {
            self.slots[slot].fill(program.positions(), input, steps);
        }
        slot
    }
}

/// Adds the positions of the tree.
pub(crate) fn add_positions(
    alloc: Global,
    node: &Node,
    positions: &mut Vec<Position>,
) -> Result<(), AllocError>
    ensures { OnOk result (positions.new.items ≡ positions.old.items ++ position_list (tree_of node.now)) }
{
    match node {
        Node::Set(set) => positions.push(Position::Bytes(*set))?,
        Node::Chars(set) => {
            let set = set.copy(alloc)?;
            positions.push(Position::Begun)?;
            positions.push(Position::Taken(set))?;
        }
        Node::Cat(parts) | Node::Alt(parts) => {
            for part in parts {
                add_positions(alloc, part, positions)?;
            }
        }
        Node::Rep(x, _, _) => add_positions(alloc, x, positions)?,
        _ => {}
    }
    Ok(())
}
