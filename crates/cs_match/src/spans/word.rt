// Programs that are one word: a byte set for each of some neighbouring bytes. Their matches are the
// places where the word occurs, so that no pass of the automaton is needed.
ghost use Rattle.std.specs.Prelude.{◌≡◌, ◌≤◌, ◌+◌, ◌↔◌, IsTrue, MatchOption, length, true};
ghost use Rattle.cs_match.specs.Cited.{tree_of, trees_of, is_one_word, are_one_word, has_byte, OccursAt, IsPassOf, HasRead, IsFirstOf, HasNoMatchOf, IsWholeWord, pass_bytes};

use super::Span;
use super::pass::{Pass, Wanted, is_word_after, is_word_before};
use crate::position::Position;
use crate::program::Program;
use cs_syntax::Node;

/// Whether the tree is one word.
#[cycle(is_one_word)]
pub(crate) fn is_one_word(node: &Node) -> bool
    ensures { result ≡ is_one_word (tree_of node.now) }
{
    match node {
        Node::Empty | Node::Set(_) => true,
        Node::Cat(parts) => are_one_word(parts),
        _ => false,
    }
}

#[cycle(is_one_word)]
fn are_one_word(parts: &[Node]) -> bool
    ensures { result ≡ are_one_word (trees_of parts.now) }
{
    for part in parts {
        if !is_one_word(part) {
            return false;
        }
    }
    true
}

impl Pass {
    /// The first match that is wanted of a program that is one word.
    pub(super) fn find_word(
        &mut self,
        program: &Program,
        line: &[u8],
        wanted: Wanted,
    ) -> Option<Span>
        requires within { (wanted.from ≤ length line.now) × (wanted.least ≤ length line.now) }
        requires word { is_one_word program.now ≡ true }
        requires ready { IsPassOf program.now self.old }
        ensures found { MatchOption result (HasNoMatchOf wanted.whole program.now line.now wanted.from
            wanted.least) (λ span. IsFirstOf wanted.whole program.now line.now wanted.from wanted.least
            span.start span.end) }
        ensures read { HasRead program.now (pass_bytes (length line.now)) self.old self.new }
        ensures ready { IsPassOf program.now self.new }
    {
        let word = program.positions();
        let mut start = wanted.from.max(wanted.least.saturating_sub(word.len()));
        'offsets: while start + word.len() <= line.len() {
            let end = start + word.len();
            self.left = self.left.saturating_sub(1);
            self.read.add(1);
            self.steps.add(word.len() + 1);
            if occurs(word, line, start) && may_stand(line, wanted.whole, start, end) {
                return Some(Span { start, end });
            }
            start += 1;
        }
        None
    }
}

impl Position {
    /// Whether the byte is in the set of the position.
    fn has_byte(&self, byte: u8) -> bool
        ensures { result ≡ has_byte self.now byte }
    {
        match self {
            Position::Bytes(set) => set.contains(byte),
            _ => false,
        }
    }
}

/// Whether the word occurs at the offset.
fn occurs(word: &[Position], line: &[u8], offset: usize) -> bool
    requires { offset + length word.now ≤ length line.now }
    ensures { IsTrue result ↔ OccursAt line.now word.now offset }
{
    for (index, position) in word.iter().enumerate() {
        if !position.has_byte(line[offset + index]) {
            return false;
        }
    }
    true
}

/// Whether the bytes from the start to the end are a whole word, if they have to be one.
fn may_stand(line: &[u8], whole: bool, start: usize, end: usize) -> bool
    requires { (start ≤ length line.now) × (end ≤ length line.now) }
    ensures { IsTrue result ↔ (whole ≡ true → IsWholeWord line.now start end) }
{
    if !whole {
        return true;
    }
    let is_before = is_word_before(line, start);
    let is_after = is_word_after(line, end);
    !(is_before | is_after)
}
