// States of the DFA, and look-around at an offset of a line.
ghost use Rattle.std.specs.Prelude.{◌≡◌, ◌+◌, ◌*◌, ◌↔◌, IfOk, IsTrue, length, replicate, true, false, ◌&&◌};
ghost use Rattle.cs_match.specs.Cited.{HasMatch, is_word, position_count, accepts, cuts_of, IsExpanded, IsBlock, IsScratch, nodes, words, step_work, start, ahead, look_at_end, next_state, successor, accepts_before, CountsAtMost, tree_of, look_behind, is_anchored};

use crate::glushkov::{Offset, Scratch, enter, step_over};
use crate::position::Input;
use crate::position_set::PositionSet;
use crate::program::Program;
use cs_syntax::{Node, Unfinished};
use cs_tree::Steps;
use std::alloc::{AllocError, Global};

/// A DFA state is a set of positions, two look-behind bits and the unfinished character.
#[derive(Drop)]
pub(crate) struct State {
    /// The positions that can match the last byte before the offset.
    pub(crate) positions: PositionSet,
    pub(crate) behind: Behind,
}

/// What a state keeps of the bytes before the offset, besides its positions.
#[derive(Clone, Copy, PartialEq, Drop)]
pub(crate) struct Behind {
    pub(crate) first: bool,
    pub(crate) word: bool,
    pub(crate) unfinished: Unfinished,
}

impl Behind {
    /// At the start of a line of the program.
    fn start(program: &Program) -> Behind
        ensures { result ≡ (start program.now).behind }
    {
        Behind {
            first: program.look_behind().first,
            word: false,
            unfinished: Unfinished::none(),
        }
    }
}

impl State {
    /// The start state of the program.
    pub(crate) fn new(alloc: Global, program: &Program) -> Result<State, AllocError>
        ensures { IfOk result (λ state. state ≡ start program.now) }
    {
        let positions = PositionSet::none(alloc, program.positions().len())?;
        let behind = Behind::start(program);
        Ok(State { positions, behind })
    }

    /// Makes this the start state.
    fn begin(&mut self, program: &Program, steps: &mut Steps)
        requires { length self.old.positions ≡ position_count program.now }
        ensures start { self.new ≡ start program.now }
        ensures cost { steps.new.count ≡ steps.old.count + words (position_count program.now) }
    {
        steps.add(self.positions.len().div_ceil(64));
        self.positions.clear();
        self.behind = Behind::start(program);
    }

    /// Whether the state has no positions, and no character is unfinished.
    pub(crate) fn is_empty(&self, steps: &mut Steps) -> bool
        ensures none { result ≡ true → self.now.positions ≡ replicate (length self.now.positions) false }
        ensures cost { steps.new.count ≡ steps.old.count + words (length self.now.positions) }
    {
        steps.add(self.positions.len().div_ceil(64));
        self.behind.unfinished == Unfinished::none() && !self.positions.meets(0, &self.positions)
    }

    pub(crate) fn hash(&self) -> u64 {
        let behind = self.behind;
        let bits = u64::from(behind.first) << 1 | u64::from(behind.word);
        let char = u64::from(behind.unfinished.low) << 2 | u64::from(behind.unfinished.needed);
        self.positions.hash(char << 2 | bits)
    }

    /// Whether the line has a match, simulated byte by byte.
    #[cold]
    #[inline(never)]
    pub(crate) fn search(
        &mut self,
        program: &Program,
        scratch: &mut Scratch,
        line: &[u8],
        steps: &mut Steps,
    ) -> bool
        requires one_each { length self.old.positions ≡ position_count program.now }
        requires scratch { IsScratch program.now scratch.old }
        requires expanded { IsExpanded program.now }
        ensures found { IsTrue result ↔ HasMatch program.now line.now }
        ensures one_each { length self.new.positions ≡ position_count program.now }
        ensures scratch { IsScratch program.now scratch.new }
        ensures cost { CountsAtMost ((length line.now + 1) * step_work program.now) steps.old steps.new }
    {
        self.begin(program, steps);
        for b in line {
            if self.step_in_line(program, scratch, *b, steps) {
                return true;
            }
        }
        self.end(program, scratch, steps)
    }

    /// Moves over a byte, or the end of the line, and returns whether the state accepts before it.
    pub(crate) fn step_over(
        &mut self,
        program: &Program,
        scratch: &mut Scratch,
        byte: u8,
        steps: &mut Steps,
    ) -> bool
        requires one_each { length self.old.positions ≡ position_count program.now }
        requires scratch { IsScratch program.now scratch.old }
        requires block { IsBlock (cuts_of program.now) self.old.behind.unfinished }
        ensures accepting { result ≡ accepts_before program.now self.old byte }
        ensures moved { self.new ≡ successor program.now self.old byte }
        ensures scratch { IsScratch program.now scratch.new }
        ensures cost { CountsAtMost (step_work program.now) steps.old steps.new }
    {
        // All bytes of the class have the same successor, so that one mask serves them.
        let first = program.byte_classes().first(byte);
        if first == b'\n' {
            self.end(program, scratch, steps)
        } else {
            self.step_in_line(program, scratch, first, steps)
        }
    }

    /// Moves over a byte of the line, and returns whether the state accepts before it.
    fn step_in_line(
        &mut self,
        program: &Program,
        scratch: &mut Scratch,
        byte: u8,
        steps: &mut Steps,
    ) -> bool
        requires one_each { length self.old.positions ≡ position_count program.now }
        requires scratch { IsScratch program.now scratch.old }
        ensures accepting { result
            ≡ accepts program.now true self.old.positions (ahead program.now self.old byte) }
        ensures moved { self.new ≡ next_state program.now self.old byte }
        ensures scratch { IsScratch program.now scratch.new }
        ensures cost { CountsAtMost (step_work program.now) steps.old steps.new }
    {
        let bits = program.look_behind();
        let is_word = bits.is_word(byte);
        let here = LookAround {
            first: self.behind.first,
            last: false,
            edge: self.behind.word ^ is_word,
        };
        let at = Offset { begins: true, here };
        let char = program.char_step(self.behind.unfinished, byte);
        let input = Input { byte, char };
        let accepting = step_over(program, at, &mut self.positions, scratch, input, steps);
        self.behind = Behind {
            first: false,
            word: is_word,
            unfinished: char.unfinished(),
        };
        accepting
    }

    /// Moves over the end of the line to the start state. Returns whether the state accepts before.
    fn end(&mut self, program: &Program, scratch: &mut Scratch, steps: &mut Steps) -> bool
        requires one_each { length self.old.positions ≡ position_count program.now }
        requires scratch { IsScratch program.now scratch.old }
        ensures accepting { result ≡ accepts program.now true self.old.positions (look_at_end self.old) }
        ensures moved { self.new ≡ start program.now }
        ensures scratch { IsScratch program.now scratch.new }
        ensures cost { CountsAtMost (2 * nodes program.now + 2 * words (position_count program.now) + 1)
            steps.old steps.new }
    {
        let here = LookAround {
            first: self.behind.first,
            last: true,
            edge: self.behind.word,
        };
        let at = Offset { begins: true, here };
        let accepting = enter(program, at, &self.positions, scratch, steps);
        self.begin(program, steps);
        accepting
    }
}

/// What the assertions `^`, `$`, `\b` and `\B` test at an offset of a line.
#[derive(Clone, Copy, Drop)]
pub(crate) struct LookAround {
    /// The offset is the start of the line.
    pub(crate) first: bool,
    /// The offset is the end of the line.
    pub(crate) last: bool,
    /// The offset is a word boundary.
    pub(crate) edge: bool,
}

/// What a tree reads of the bytes before an offset.
#[derive(Clone, Copy, Drop)]
pub(crate) struct LookBehind {
    /// Whether the offset is the start of the line, for `^`.
    pub(crate) first: bool,
    /// Whether the byte before the offset is a word byte, for `\b` and `\B`.
    pub(crate) word: bool,
    /// Which character is unfinished, for sets of characters.
    pub(crate) char: bool,
}

impl LookBehind {
    /// Whether the byte is an ASCII word character, if there is a bit for them.
    pub(crate) fn is_word(self, byte: u8) -> bool
        ensures { result ≡ (is_word byte && self.word) }
    {
        (byte.is_ascii_alphanumeric() | (byte == b'_')) & self.word
    }
}

/// The look-behind bits that the tree reads.
pub(crate) fn look_behind(node: &Node) -> LookBehind
    ensures { result ≡ look_behind (tree_of node.now) }
{
    let mut bits = LookBehind {
        first: false,
        word: false,
        char: false,
    };
    match node {
        Node::Cat(parts) | Node::Alt(parts) => {
            for part in parts {
                let part = look_behind(part);
                bits.first |= part.first;
                bits.word |= part.word;
                bits.char |= part.char;
            }
        }
        Node::Rep(x, _, _) => bits = look_behind(x),
        Node::Chars(_) => bits.char = true,
        Node::LineStart => bits.first = true,
        Node::WordEdge | Node::NotWordEdge => bits.word = true,
        _ => {}
    }
    bits
}

/// Whether each match begins at the start of the line.
pub(crate) fn is_anchored(node: &Node) -> bool
    ensures { result ≡ is_anchored (tree_of node.now) }
{
    match node {
        Node::Cat(parts) => match &parts[..] {
            [first, ..] => is_anchored(first),
            [] => false,
        },
        Node::Alt(parts) => {
            for part in parts {
                if !is_anchored(part) {
                    return false;
                }
            }
            true
        }
        Node::Rep(x, least, _) => *least > 0 && is_anchored(x),
        Node::LineStart => true,
        _ => false,
    }
}
