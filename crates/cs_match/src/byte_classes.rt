// Byte classes (RE2's byte map): one partition of the bytes into ranges that no state of a program
// tells apart. A transition is computed once for the bytes of a class.
ghost use Rattle.std.specs.Prelude.{◌≡◌, ◌+◌, ◌<◌, ◌≤◌, ℕ, length, true, false, slice_index};
ghost use Rattle.cs_match.specs.Cited.{member, AreCutsOf, tree_of, look_behind, AreClasses, AreNumbered, HaveFirsts, StepAlike, begins_at, HaveBoth, AddsMarks, IsNoDigit};
ghost use Rattle.cs_syntax.specs.Cuts.{AreCuts};

use crate::state::LookBehind;
use cs_syntax::{ByteSet, CharStep, Cuts, Node, Unfinished};

/// The classes of the bytes, numbered in ascending order.
#[derive(Clone, Copy, Drop)]
pub(crate) struct ByteClasses {
    /// The class of each byte.
    pub(crate) of: [u8; 256],
    /// The first byte of the class of each byte.
    pub(crate) firsts: [u8; 256],
    pub(crate) count: u16,
}

impl ByteClasses {
    /// The classes of a tree with these look-behind bits and cuts.
    pub(crate) fn of_tree(root: &Node, bits: LookBehind, cuts: &Cuts) -> ByteClasses
        requires bits { bits ≡ look_behind (tree_of root.now) }
        requires cuts { AreCutsOf (tree_of root.now) cuts.now }
        ensures { AreClasses (tree_of root.now) result }
    {
        let mut begins = [0; 256];
        begins[b'\n' as usize] = 1;
        begins[b'\n' as usize + 1] = 1;
        // Most text is ASCII: transitions over other bytes would be stored in vain.
        begins[0x80] = 1;
        mark_set(&ByteSet::of(|byte| bits.is_word(byte as u8)), &mut begins);
        mark_sets(root, &mut begins);
        if bits.char {
            mark_digits(&mut begins, cuts.as_slice());
            mark_leads(&mut begins, cuts);
        }
        number_classes(&begins)
    }

    pub(crate) fn first(&self, byte: u8) -> u8
        requires { HaveFirsts self.now }
        ensures low { result ≤ byte }
        ensures class { slice_index self.now.of result ≡ slice_index self.now.of byte }
    {
        self.firsts[byte as usize]
    }
}

/// Numbers the classes that begin at the marked bytes.
fn number_classes(begins: &[u8; 256]) -> ByteClasses
    ensures { AreNumbered begins.now result }
{
    let mut of = [0; 256];
    let mut firsts = [0; 256];
    let mut last = 0u8;
    let mut first = 0u8;
    for byte in 1..256usize {
        if begins[byte] == 1 {
            last += 1;
            first = byte as u8;
        }
        of[byte] = last;
        firsts[byte] = first;
    }
    let count = u16::from(last) + 1;
    ByteClasses { of, firsts, count }
}

/// Marks where the members of each set of the tree begin and end.
fn mark_sets(node: &Node, begins: &mut [u8])
    requires { length begins.old ≡ 256 }
    ensures { AddsMarks (HaveBoth (tree_of node.now)) begins.old begins.new }
{
    match node {
        Node::Set(set) => mark_set(set, begins),
        // Among the numbers below 256.
        Node::Chars(set) => mark_set(&ByteSet::of(|byte| set.contains(byte as u32)), begins),
        Node::Cat(parts) | Node::Alt(parts) => {
            for part in parts {
                mark_sets(part, begins);
            }
        }
        Node::Rep(x, _, _) => mark_sets(x, begins),
        _ => {}
    }
}

/// Marks where the members of the set begin and end.
fn mark_set(set: &ByteSet, begins: &mut [u8])
    requires { length begins.old ≡ 256 }
    ensures { AddsMarks (λ b c. member set.now b ≡ member set.now c) begins.old begins.new }
{
    if let Some(byte) = set.single() {
        mark(begins, byte, false, true);
        mark(begins, byte.saturating_add(1), false, true);
        return;
    }
    for byte in 0..255u8 {
        mark(begins, byte + 1, set.contains(byte), set.contains(byte + 1));
    }
}

/// Marks the byte if it is in a set and the byte before it is not, or the other way round.
fn mark(begins: &mut [u8], byte: u8, before: bool, here: bool)
    requires { length begins.old ≡ 256 }
    ensures bytes { length begins.new ≡ length begins.old }
    ensures kept { (b : ℕ) → begins_at begins.new b ≡ false → begins_at begins.old b ≡ false }
    ensures marked { begins_at begins.new byte ≡ false → before ≡ here }
{
    if before != here {
        begins[byte as usize] = 1;
    }
}

/// Marks the continuation bytes that do not do the same to each unfinished character as the bytes
/// before them. A continuation byte is a digit of base 64 of the character, so it begins a class if
/// it is a digit of a cut, and the next one does if the cut has lower digits too.
fn mark_digits(begins: &mut [u8], cuts: &[u32])
    requires bytes { length begins.old ≡ 256 }
    requires cuts { AreCuts cuts.now }
    ensures { AddsMarks (λ b c. c < 192 → StepAlike cuts.now b c) begins.old begins.new }
{
    mark(begins, 0x80, true, false);
    for cut in cuts {
        mark_digit(begins, *cut, 1);
        mark_digit(begins, *cut, 64);
        mark_digit(begins, *cut, 4096);
    }
}

/// Marks the digit of base 64 of a cut for blocks of this size, and the next byte if others follow.
#[inline(always)]
fn mark_digit(begins: &mut [u8], cut: u32, size: u32)
    requires bytes { length begins.old ≡ 256 }
    requires some { 0 < size }
    ensures { AddsMarks (λ b c. IsNoDigit cut size c) begins.old begins.new }
{
    let digit = (0x80 + cut / size % 64) as u8;
    mark(begins, digit, true, false);
    mark(begins, digit + 1, cut % size == 0, true);
}

/// Marks the first bytes of characters that do not do the same as the bytes before them. What they
/// do does not depend on the unfinished character.
fn mark_leads(begins: &mut [u8], cuts: &Cuts)
    requires { length begins.old ≡ 256 }
    ensures { AddsMarks (λ b c. 192 ≤ c → StepAlike cuts.now b c) begins.old begins.new }
{
    mark(begins, 0xC0, true, false);
    for byte in 0xC0..255u8 {
        let before = cuts.step(Unfinished::none(), byte);
        let here = cuts.step(Unfinished::none(), byte + 1);
        mark(begins, byte + 1, is_same(before, here), true);
    }
}

/// Whether the steps are equal.
fn is_same(step: CharStep, other: CharStep) -> bool
    ensures { result ≡ true → step ≡ other }
{
    step == other
}
