// The parser: one pass over the text, with an explicit stack of the open groups (as in RE2), and
// the trees of groups and atoms.
ghost use Rattle.std.specs.Prelude.{◌≡◌, ◌+◌, ◌<◌, ◌≤◌, ℕ, OnOk, IfOk, IfErr, length, Option};
ghost use Rattle.cs_syntax.specs.Cited.{atom, repeat, bar, group_start, group_end, flags_from_here, sequence, bytes_tree, tree_of, ParsesAs, parse_result, tree, IsParseError, atom_tree, item_view, max_weight, weight, trees_of, with_last_atom, with_last_atom_repeated, with_last_branch, tree_so_far, empty_group, are_ascii, ranges_tree, IsErrorOf};

use crate::byte_set::ByteSet;
use crate::char_set::CharSet;
use crate::classes::{dot, one_item};
use crate::fault::{PatternError, PatternFault};
use crate::items::{Atom, Before, Flags, Item, read_token};
use crate::node::{Node, Pattern};
use std::alloc::{AllocError, Global};
use std::mem;

/// The greatest number of groups that are open at once.
const MAX_OPEN_GROUPS: usize = 200;

/// A stack frame: an enclosing group, the offset of the `(` at which it was suspended, and the
/// flags there.
#[derive(Drop)]
struct GroupFrame {
    offset: usize,
    flags: Flags,
    outer: GroupBuilder,
}

/// The state of the parser after a prefix of the text.
#[derive(Drop)]
struct Parser {
    open: Vec<GroupFrame>,
    builder: GroupBuilder,
    before: Before,
    flags: Flags,
}

impl Parser {
    ghost use Rattle.cs_syntax.specs.ParserState.{parse_from, parse_at_end, state_of, at_start, HasOperand, IsErrorOf, Advances, FailsWith};

    /// The state at the start of the text.
    #[tactic(auto, unfolding(crate::specs::ParserState::state_of))]
    fn new(alloc: Global, fold: bool) -> Parser
        ensures { state_of result ≡ at_start fold }
    {
        Parser {
            open: Vec::new(alloc),
            builder: GroupBuilder::new(alloc),
            before: Before::Start,
            flags: Flags {
                fold,
                dot_all: false,
            },
        }
    }

    #[tactic(auto, unfolding(crate::specs::ParserState::state_of))]
    fn atom(&mut self, alloc: Global, operand: Atom, lexeme: &[u8]) -> Result<(), AllocError>
        ensures { OnOk result ((offset : ℕ)
            → Advances (atom (atom_tree lexeme.now operand)) offset self.old self.new) }
    {
        let node = atom_node(alloc, operand, lexeme)?;
        self.builder.add(node)?;
        self.before = Before::Operand;
        Ok(())
    }

    #[tactic(auto, unfolding(crate::specs::ParserState::state_of))]
    fn repeat(
        &mut self,
        alloc: Global,
        least: u32,
        most: Option<u32>,
        offset: usize,
    ) -> Result<(), PatternError>
        requires { HasOperand (state_of self.old) }
        ensures goes_on { OnOk result (Advances (repeat least most) offset self.old self.new) }
        ensures rejected { IfErr result (FailsWith (repeat least most) offset self.old) }
    {
        match self.before {
            Before::Start => Err(PatternError {
                fault: PatternFault::NoOperand,
                at: offset,
            }),
            Before::Repeated => Err(PatternError {
                fault: PatternFault::StackedRepeat,
                at: offset,
            }),
            Before::Operand => {
                self.builder.repeat(alloc, least, most)?;
                self.before = Before::Repeated;
                Ok(())
            }
        }
    }

    #[tactic(auto, unfolding(crate::specs::ParserState::state_of))]
    fn bar(&mut self, alloc: Global) -> Result<(), AllocError>
        ensures { OnOk result ((offset : ℕ) → Advances bar offset self.old self.new) }
    {
        self.builder.bar(alloc)?;
        self.before = Before::Start;
        Ok(())
    }

    /// Pushes the current group on the stack and begins a new one.
    #[tactic(auto, unfolding(crate::specs::ParserState::state_of))]
    fn open_group(&mut self, alloc: Global, flags: Flags, offset: usize) -> Result<(), PatternError>
        ensures goes_on { OnOk result (Advances (group_start flags) offset self.old self.new) }
        ensures rejected { IfErr result (FailsWith (group_start flags) offset self.old) }
    {
        if self.open.len() == MAX_OPEN_GROUPS {
            return Err(PatternError {
                fault: PatternFault::TooDeep,
                at: offset,
            });
        }
        let outer = mem::replace(&mut self.builder, GroupBuilder::new(alloc));
        self.open.push(GroupFrame {
            offset,
            flags: self.flags,
            outer,
        })?;
        self.before = Before::Start;
        self.flags = flags;
        Ok(())
    }

    #[tactic(auto, unfolding(crate::specs::ParserState::state_of))]
    fn close_group(&mut self, offset: usize) -> Result<(), PatternError>
        ensures goes_on { OnOk result (Advances group_end offset self.old self.new) }
        ensures rejected { IfErr result (FailsWith group_end offset self.old) }
    {
        let Some(
            GroupFrame {
                offset: _,
                flags,
                outer,
            },
        ) = self.open.pop()
        else {
            return Err(PatternError {
                fault: PatternFault::StrayClose,
                at: offset,
            });
        };
        let group = mem::replace(&mut self.builder, outer).finish()?;
        self.builder.add(group)?;
        self.before = Before::Operand;
        self.flags = flags;
        Ok(())
    }

    #[tactic(auto, unfolding(crate::specs::ParserState::state_of))]
    fn set_flags(&mut self, flags: Flags)
        ensures { (offset : ℕ) → Advances (flags_from_here flags) offset self.old self.new }
    {
        self.before = Before::Start;
        self.flags = flags;
    }

    /// Applies the item at `offset`, whose text is `lexeme`.
    fn apply(
        &mut self,
        alloc: Global,
        item: Item,
        lexeme: &[u8],
        offset: usize,
    ) -> Result<(), PatternError>
        requires { HasOperand (state_of self.old) }
        ensures goes_on { OnOk result (Advances (item_view lexeme.now item) offset self.old self.new) }
        ensures rejected { IfErr result (FailsWith (item_view lexeme.now item) offset self.old) }
    {
        match item {
            Item::Atom(operand) => Ok(self.atom(alloc, operand, lexeme)?),
            Item::Repeat(least, most) => self.repeat(alloc, least, most, offset),
            Item::Bar => Ok(self.bar(alloc)?),
            Item::GroupStart(flags) => self.open_group(alloc, flags, offset),
            Item::GroupEnd => self.close_group(offset),
            Item::FlagsFromHere(flags) => {
                self.set_flags(flags);
                Ok(())
            }
        }
    }

    /// Reads and applies the item at `offset`, and returns the offset of the next one.
    fn read_item(
        &mut self,
        alloc: Global,
        text: &[u8],
        offset: usize,
    ) -> Result<usize, PatternError>
        requires inside { offset < length text.now }
        requires kept { HasOperand (state_of self.old) }
        ensures same { IfOk result
            (λ next. parse_from self.new text.now next ≡ parse_from self.old text.now offset) }
        ensures onward { IfOk result (λ next. (offset < next) × (next ≤ length text.now)) }
        ensures still { OnOk result (HasOperand (state_of self.new)) }
        ensures rejected { IfErr result (IsErrorOf (parse_from self.old text.now offset)) }
    {
        match read_token(alloc, self.flags, text[offset], &text[offset + 1..]) {
            Ok((item, len)) => {
                let next = offset + 1 + len;
                self.apply(alloc, item, &text[offset..next], offset)?;
                Ok(next)
            }
            Err(m) => Err(PatternError {
                fault: m.fault,
                at: if m.fault == PatternFault::Memory {
                    0
                } else {
                    offset + m.distance
                },
            }),
        }
    }

    /// The tree of the pattern at the end of its text.
    fn end(self) -> Result<Node, PatternError>
        ensures reads { IfOk result (λ n. parse_at_end (state_of self) ≡ tree (tree_of n)) }
        ensures syntax { IfErr result (IsErrorOf (parse_at_end (state_of self))) }
    {
        let Parser {
            mut open,
            builder,
            before: _,
            flags: _,
        } = self;
        if let Some(group) = open.pop() {
            return Err(PatternError {
                fault: PatternFault::OpenGroup,
                at: group.offset,
            });
        }
        Ok(builder.finish()?)
    }
}

/// The finished branches of a group, and the atoms of the current branch.
#[derive(Drop)]
pub(crate) struct GroupBuilder {
    branches: Vec<Node>,
    atoms: Vec<Node>,
}

impl GroupBuilder {
    ghost use Rattle.cs_syntax.specs.ParserState.{partial_group};

    pub(crate) fn new(alloc: Global) -> GroupBuilder
        ensures { partial_group result ≡ empty_group }
    {
        GroupBuilder {
            branches: Vec::new(alloc),
            atoms: Vec::new(alloc),
        }
    }

    /// Appends an atom to the current branch.
    #[tactic(auto, using(crate::proofs::TreeLemmas::trees_last))]
    pub(crate) fn add(&mut self, atom: Node) -> Result<(), AllocError>
        ensures more { OnOk result (partial_group self.new
            ≡ with_last_atom (partial_group self.old) (tree_of atom)) }
        ensures some { OnOk result (0 < length self.new.atoms.items) }
    {
        self.atoms.push(atom)?;
        Ok(())
    }

    /// Wraps the last atom in a repeat.
    #[tactic(auto, using(crate::proofs::TreeLemmas::trees_last))]
    pub(crate) fn repeat(
        &mut self,
        alloc: Global,
        least: u32,
        most: Option<u32>,
    ) -> Result<(), AllocError>
        requires { 0 < length self.old.atoms.items }
        ensures { OnOk result (partial_group self.new
            ≡ with_last_atom_repeated least most (partial_group self.old)) }
    {
        let atom = match self.atoms.pop() {
            Some(atom) => atom,
            None => unreachable!(),
        };
        self.atoms
            .push(Node::Rep(Box::new(alloc, atom)?, least, most))?;
        Ok(())
    }

    /// Ends the current branch at a `|`.
    #[tactic(auto, using(crate::proofs::TreeLemmas::trees_last))]
    pub(crate) fn bar(&mut self, alloc: Global) -> Result<(), AllocError>
        ensures { OnOk result (partial_group self.new ≡ with_last_branch (partial_group self.old)) }
    {
        let atoms = mem::replace(&mut self.atoms, Vec::new(alloc));
        self.branches.push(sequence_of(atoms))?;
        Ok(())
    }

    /// The tree of the group.
    #[tactic(auto, using(crate::proofs::TreeLemmas::branches_last))]
    pub(crate) fn finish(self) -> Result<Node, AllocError>
        ensures { IfOk result (λ n. tree_of n ≡ tree_so_far (partial_group self)) }
    {
        let GroupBuilder {
            mut branches,
            atoms,
        } = self;
        let last = sequence_of(atoms);
        if branches.is_empty() {
            return Ok(last);
        }
        branches.push(last)?;
        Ok(Node::Alt(branches))
    }
}

/// Parses a pattern. The syntax is RE2's, with the differences that docs/PATTERNS.md lists. With
/// `fold` an ASCII letter matches both of its cases, until a flag clears that. The error is the
/// leftmost syntax error, or `TooLarge` if there is none; it is `Memory` only if an allocation
/// fails.
pub fn parse(alloc: Global, text: &str, fold: bool) -> Result<Pattern, PatternError>
    ensures reads { IfOk result (λ p. ParsesAs text.now fold p) }
    ensures light { IfOk result (λ p. weight p ≤ max_weight) }
    ensures rejected { IfErr result (IsParseError text.now fold) }
{
    let root = read(alloc, text, fold)?;
    Pattern::new(root)
}

/// The tree of a sequence: empty, a single node, or `Cat`.
#[tactic(auto, using(crate::proofs::TreeLemmas::several))]
pub(crate) fn sequence_of(mut atoms: Vec<Node>) -> Node
    ensures { tree_of result ≡ sequence (trees_of atoms.items) }
{
    if atoms.len() != 1 {
        return if atoms.is_empty() {
            Node::Empty
        } else {
            Node::Cat(atoms)
        };
    }
    match atoms.pop() {
        Some(atom) => atom,
        None => unreachable!(),
    }
}

/// The tree of an atom, whose text is `lexeme`.
pub(crate) fn atom_node(alloc: Global, atom: Atom, lexeme: &[u8]) -> Result<Node, AllocError>
    ensures { IfOk result (λ n. tree_of n ≡ atom_tree lexeme.now atom) }
{
    match atom {
        Atom::Set(set) => Ok(Node::Set(set)),
        Atom::Chars(set) => Ok(chars_node(set)),
        Atom::Class(item) => Ok(chars_node(one_item(alloc, item)?)),
        Atom::Dot(dot_all) => Ok(chars_node(dot(alloc, dot_all)?)),
        Atom::Char(char) => {
            let mut buffer = [0; 4];
            let bytes = char.encode_utf8(&mut buffer);
            bytes_node(alloc, bytes.as_bytes())
        }
        Atom::Verbatim => bytes_node(alloc, lexeme),
        Atom::LineStart => Ok(Node::LineStart),
        Atom::LineEnd => Ok(Node::LineEnd),
        Atom::WordEdge => Ok(Node::WordEdge),
        Atom::NotWordEdge => Ok(Node::NotWordEdge),
    }
}

fn read(alloc: Global, text: &str, fold: bool) -> Result<Node, PatternError>
    ensures reads { IfOk result (λ n. ParsesAs text.now fold (tree_of n)) }
    ensures syntax { IfErr result (IsErrorOf (parse_result text.now fold)) }
{
    let bytes = text.as_bytes();
    let mut parser = Parser::new(alloc, fold);
    let mut offset = 0;
    'text: while offset < bytes.len() {
        offset = parser.read_item(alloc, bytes, offset)?;
    }
    parser.end()
}

/// The sequence of the bytes.
fn bytes_node(alloc: Global, bytes: &[u8]) -> Result<Node, AllocError>
    ensures { IfOk result (λ n. tree_of n ≡ bytes_tree bytes.now) }
{
    let mut sets = Vec::new(alloc);
    for &byte in bytes {
        sets.push(Node::Set(ByteSet::of_char(false, byte)))?;
    }
    Ok(sequence_of(sets))
}

/// Whether all characters of the ranges are ASCII.
fn are_ascii(ranges: &[(u32, u32)]) -> bool
    ensures { result ≡ are_ascii ranges.now }
{
    ranges.iter().all(|range| range.1 < 0x80)
}

/// The node of a set of characters: `Set` if all are ASCII, otherwise `Chars`.
fn chars_node(set: CharSet) -> Node
    ensures { tree_of result ≡ ranges_tree set }
{
    if are_ascii(set.runs()) {
        Node::Set(ByteSet::of_ascii(set.runs()))
    } else {
        Node::Chars(set)
    }
}
