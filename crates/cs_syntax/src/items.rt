// The items (tokens) of a pattern: the tokenizer, repeat operators, and what follows a `(`.
ghost use Rattle.std.specs.Prelude.{◌≡◌, ◌+◌, ◌∷◌, length, ◌≤◌, ◌<◌, ◌^◌, ℕ, List, codes, IfSome};
ghost use Rattle.std.specs.List.{prefix_len};
ghost use Rattle.std.specs.Option.{option_map};
ghost use Rattle.cs_syntax.specs.Cited.{next_token, StaysWithin, IsTokenOf, token_view, item_view, is_word, has, name, with_set, with_cleared, after_flags, cleared_flags, set_flags, head, group, item, number, counts_to, counts_from, counts, is_bad, brace, lazy};

use crate::byte_set::ByteSet;
use crate::char_set::CharSet;
use crate::classes::class;
use crate::escapes::escape;
use crate::fault::PatternFault;
use crate::lookahead::{count_continuation, count_digits, starts_with_byte, value_in};
use std::alloc::{AllocError, Global};

/// The kind of a byte at the start of an item.
#[derive(Clone, Copy, Drop)]
pub(crate) enum ByteKind {
    Star,
    Plus,
    Question,
    Brace,
    Dot,
    Caret,
    Dollar,
    Bar,
    Open,
    Close,
    Class,
    Backslash,
    NonAscii,
    Literal,
}

impl ByteKind {
    ghost use Rattle.cs_syntax.specs.ByteKinds.{byte_kind_of};

    /// The kind of the byte.
    #[tactic(auto, unfolding(crate::specs::ByteKinds::byte_kind_of))]
    pub(crate) fn of(byte: u8) -> ByteKind
        ensures { result ≡ byte_kind_of byte }
    {
        match byte {
            b'*' => ByteKind::Star,
            b'+' => ByteKind::Plus,
            b'?' => ByteKind::Question,
            b'{' => ByteKind::Brace,
            b'.' => ByteKind::Dot,
            b'^' => ByteKind::Caret,
            b'$' => ByteKind::Dollar,
            b'|' => ByteKind::Bar,
            b'(' => ByteKind::Open,
            b')' => ByteKind::Close,
            b'[' => ByteKind::Class,
            b'\\' => ByteKind::Backslash,
            0x80.. => ByteKind::NonAscii,
            _ => ByteKind::Literal,
        }
    }
}

/// The flags in effect at an offset of a pattern. `m` and `U` are accepted and have no effect.
#[derive(Clone, Copy, Drop)]
pub(crate) struct Flags {
    /// `i`: an ASCII letter matches both of its cases.
    pub(crate) fold: bool,
    /// `s`: a dot matches a newline too.
    pub(crate) dot_all: bool,
}

/// A POSIX class, or the class of `\s`.
#[derive(Clone, Copy, Drop)]
pub(crate) enum NamedClass {
    Alnum,
    Alpha,
    Ascii,
    Blank,
    Cntrl,
    Digit,
    Graph,
    Lower,
    Print,
    Punct,
    Space,
    Upper,
    Word,
    Xdigit,
    /// The class of `\s`: tab, newline, form feed, carriage return and space.
    White,
}

/// An item of a bracket class.
#[derive(Clone, Copy, Drop)]
pub(crate) enum ClassItem {
    /// The characters from the first to the second, both included.
    Range(u32, u32),
    /// A named class, or with `true` its complement.
    Named(NamedClass, bool),
}

/// An item that can be the operand of a repeat.
#[derive(Drop)]
pub(crate) enum Atom {
    Set(ByteSet),
    Chars(CharSet),
    /// A class escape outside brackets, such as `\d`.
    Class(ClassItem),
    /// A dot: all characters except the newline, or with `true` all.
    Dot(bool),
    /// A non-ASCII character, from an escape.
    Char(char),
    /// A non-ASCII character, written as itself: the lexeme of the item.
    Verbatim,
    LineStart,
    LineEnd,
    WordEdge,
    NotWordEdge,
}

/// An item of a pattern.
#[derive(Drop)]
pub(crate) enum Item {
    Atom(Atom),
    /// A repeat operator, with its least and its greatest count.
    Repeat(u32, Option<u32>),
    Bar,
    /// A group begins. These flags are in effect inside it.
    GroupStart(Flags),
    GroupEnd,
    /// These flags are in effect from here to the end of the group.
    FlagsFromHere(Flags),
}

/// What precedes an item of a pattern. A repeat operator needs an operand there.
#[derive(Clone, Copy, Drop)]
pub(crate) enum Before {
    /// The start of the text, a group or a branch, or flags: nothing to repeat.
    Start,
    /// An atom or a group.
    Operand,
    /// A repeat operator.
    Repeated,
}

/// An error in an item, and its distance in bytes from the start of the item; or an allocation
/// failure.
#[derive(Clone, Copy, Drop)]
pub(crate) struct ItemError {
    pub(crate) fault: PatternFault,
    pub(crate) distance: usize,
}

impl ItemError {
    ghost use Rattle.std.specs.Prelude.{◌≡◌};

    /// An error at the start of the item.
    pub(crate) fn at_start(fault: PatternFault) -> ItemError
        ensures { result ≡ record { fault = fault; distance = 0 } }
    {
        ItemError { fault, distance: 0 }
    }
}

impl From<AllocError> for ItemError {
    ghost use Rattle.std.specs.Prelude.{◌≡◌};
    ghost use Rattle.cs_syntax.specs.declared.fault.PatternFault.TheVariants.{Memory};

    ghost from_gives = { λ _ m. m ≡ record { fault = Memory; distance = 0 } };

    fn from(_refused: AllocError) -> ItemError {
        ItemError::at_start(PatternFault::Memory)
    }
}

/// The greatest count of a repeat, as in RE2.
const MAX_REPEAT: u32 = 1000;

/// A decimal number, and the number of its digits.
#[derive(Clone, Copy, Drop)]
struct Number {
    value: u32,
    len: usize,
}

/// The least and the greatest count of a repeat, and the length of their text.
#[derive(Clone, Copy, Drop)]
struct RepeatCounts {
    least: u32,
    most: Option<u32>,
    len: usize,
}

/// The item that begins with `byte`, and the number of its bytes after the first.
#[tactic(auto, using(crate::proofs::ParserStepLemmas::token_is), unfolding(crate::specs::Items::next_token))]
pub(crate) fn read_token(
    alloc: Global,
    flags: Flags,
    byte: u8,
    rest: &[u8],
) -> Result<(Item, usize), ItemError>
    ensures value { IsTokenOf (byte ∷ rest.now) result (next_token flags byte rest.now) }
    ensures within { StaysWithin (length rest.now) (length rest.now + 1) result }
{
    match ByteKind::of(byte) {
        ByteKind::Star => Ok(lazy(0, None, 0, rest)),
        ByteKind::Plus => Ok(lazy(1, None, 0, rest)),
        ByteKind::Question => Ok(lazy(0, Some(1), 0, rest)),
        ByteKind::Brace => brace(rest),
        ByteKind::Dot => Ok((Item::Atom(Atom::Dot(flags.dot_all)), 0)),
        ByteKind::Caret => Ok((Item::Atom(Atom::LineStart), 0)),
        ByteKind::Dollar => Ok((Item::Atom(Atom::LineEnd), 0)),
        ByteKind::Bar => Ok((Item::Bar, 0)),
        ByteKind::Open => group(flags, rest),
        ByteKind::Close => Ok((Item::GroupEnd, 0)),
        ByteKind::Class => class(alloc, flags.fold, rest),
        ByteKind::Backslash => escape(flags.fold, rest),
        ByteKind::NonAscii => Ok((Item::Atom(Atom::Verbatim), count_continuation(rest))),
        ByteKind::Literal => Ok((Item::Atom(Atom::Set(ByteSet::of_char(flags.fold, byte))), 0)),
    }
}

/// The group that begins with `(`. `rest` follows the parenthesis.
pub(crate) fn group(flags: Flags, rest: &[u8]) -> Result<(Item, usize), ItemError>
    ensures value { (lexeme : List ℕ) → token_view lexeme result ≡ group flags rest.now }
    ensures within { StaysWithin (length rest.now) 0 result }
{
    if starts_with_byte(b'?', rest) {
        return head(flags, &rest[1..]);
    }
    Ok((Item::GroupStart(flags), 0))
}

/// The item that begins with `{`: a repeat operator, or a literal if no counts follow.
pub(crate) fn brace(rest: &[u8]) -> Result<(Item, usize), ItemError>
    ensures value { (text : List ℕ) → token_view text result ≡ brace rest.now }
    ensures within { StaysWithin (length rest.now) (length rest.now) result }
{
    let Some(counts) = read_counts(rest) else {
        return Ok((Item::Atom(Atom::Set(ByteSet::of_char(false, b'{'))), 0));
    };
    if is_bad(counts) {
        return Err(ItemError::at_start(PatternFault::BadRepeat));
    }
    Ok(lazy(counts.least, counts.most, counts.len, rest))
}

/// Whether the byte is an ASCII digit, an ASCII letter or `_`.
fn is_word(byte: u8) -> bool
    ensures { result ≡ is_word byte }
{
    matches!(byte, b'0'..=b'9' | b'A'..=b'Z' | b'a'..=b'z' | b'_')
}

fn is_flag(byte: u8) -> bool
    ensures { result ≡ has (codes "imsU") byte }
{
    matches!(byte, b'i' | b'm' | b's' | b'U')
}

fn is_cleared_flag(byte: u8) -> bool
    ensures { result ≡ has (codes "isU") byte }
{
    matches!(byte, b'i' | b's' | b'U')
}

fn has(letters: &[u8], letter: u8) -> bool
    ensures { result ≡ has letters.now letter }
{
    letters.iter().any(|c| *c == letter)
}

fn with_set(letters: &[u8], flags: Flags) -> Flags
    ensures { result ≡ with_set letters.now flags }
{
    Flags {
        fold: flags.fold || has(letters, b'i'),
        dot_all: flags.dot_all || has(letters, b's'),
    }
}

fn with_cleared(letters: &[u8], flags: Flags) -> Flags
    ensures { result ≡ with_cleared letters.now flags }
{
    Flags {
        fold: flags.fold && !has(letters, b'i'),
        dot_all: flags.dot_all && !has(letters, b's'),
    }
}

/// The length of the leading name.
fn name_len(text: &[u8]) -> usize
    ensures count { result ≡ prefix_len is_word text.now }
    ensures within { result ≤ length text.now }
{
    text.iter().take_while(|b| is_word(**b)).count()
}

/// The number of leading flags that can be set.
fn set_len(text: &[u8]) -> usize
    ensures count { result ≡ prefix_len (has (codes "imsU")) text.now }
    ensures within { result ≤ length text.now }
{
    text.iter().take_while(|b| is_flag(**b)).count()
}

/// The number of leading flags that can be cleared.
fn cleared_len(text: &[u8]) -> usize
    ensures count { result ≡ prefix_len (has (codes "isU")) text.now }
    ensures within { result ≤ length text.now }
{
    text.iter().take_while(|b| is_cleared_flag(**b)).count()
}

/// The name of a group. `len` is the number of bytes between the parenthesis and the text.
fn name(flags: Flags, len: usize, text: &[u8]) -> Result<(Item, usize), ItemError>
    requires { len + length text.now ≤ 2 ^ 63 }
    ensures value { (lexeme : List ℕ) → token_view lexeme result ≡ name flags len text.now }
    ensures within { StaysWithin (len + length text.now) 0 result }
{
    let n = name_len(text);
    if n == 0 || !starts_with_byte(b'>', &text[n..]) {
        return Err(ItemError::at_start(PatternFault::BadGroup));
    }
    Ok((Item::GroupStart(flags), len + n + 1))
}

/// The `:` or `)` after the flags.
fn after_flags(flags: Flags, len: usize, rest: &[u8]) -> Result<(Item, usize), ItemError>
    requires { len + length rest.now ≤ 2 ^ 63 }
    ensures value { (lexeme : List ℕ) → token_view lexeme result ≡ after_flags flags len rest.now }
    ensures within { StaysWithin (len + length rest.now) 0 result }
{
    if starts_with_byte(b':', rest) {
        return Ok((Item::GroupStart(flags), len + 1));
    }
    if starts_with_byte(b')', rest) {
        return Ok((Item::FlagsFromHere(flags), len + 1));
    }
    Err(ItemError::at_start(PatternFault::BadGroup))
}

/// The flags after a `-`, which are cleared.
fn cleared_flags(flags: Flags, len: usize, text: &[u8]) -> Result<(Item, usize), ItemError>
    requires { len + length text.now ≤ 2 ^ 63 }
    ensures value { (lexeme : List ℕ) → token_view lexeme result ≡ cleared_flags flags len text.now }
    ensures within { StaysWithin (len + length text.now) 0 result }
{
    let n = cleared_len(text);
    if starts_with_byte(b'm', &text[n..]) {
        return Err(ItemError::at_start(PatternFault::NotInProfile));
    }
    if n == 0 {
        return Err(ItemError::at_start(PatternFault::BadGroup));
    }
    after_flags(with_cleared(&text[..n], flags), len + n, &text[n..])
}

/// The flags after `(?`.
fn set_flags(flags: Flags, text: &[u8]) -> Result<(Item, usize), ItemError>
    ensures value { (lexeme : List ℕ) → token_view lexeme result ≡ set_flags flags text.now }
    ensures within { StaysWithin (1 + length text.now) 0 result }
{
    let n = set_len(text);
    let set = with_set(&text[..n], flags);
    if starts_with_byte(b'-', &text[n..]) {
        return cleared_flags(set, n + 2, &text[n + 1..]);
    }
    after_flags(set, n + 1, &text[n..])
}

/// The name or the flags after `(?`.
fn head(flags: Flags, text: &[u8]) -> Result<(Item, usize), ItemError>
    ensures value { (lexeme : List ℕ) → token_view lexeme result ≡ head flags text.now }
    ensures within { StaysWithin (1 + length text.now) 0 result }
{
    if starts_with_byte(b'<', text) {
        return name(flags, 2, &text[1..]);
    }
    if starts_with_byte(b'P', text) && starts_with_byte(b'<', &text[1..]) {
        return name(flags, 3, &text[2..]);
    }
    set_flags(flags, text)
}

ghost use Rattle.cs_syntax.specs.U32Numbers.{u32_number, u32_counts};
ghost use Rattle.cs_syntax.specs.declared.items.Number.{Number};

/// The leading number, saturated at `u32::MAX`. A number has no leading zero.
fn read_number(text: &[u8]) -> Option<Number>
    ensures value { result ≡ option_map u32_number (number text.now) }
    ensures within { IfSome result (λ n. n.len ≤ length text.now) }
{
    let len = count_digits(10, text);
    if len == 0 || (len > 1 && starts_with_byte(b'0', text)) {
        return None;
    }
    Some(Number {
        value: value_in(10, &text[..len]),
        len,
    })
}

/// The counts after `{n,`.
fn counts_to(n: Number, rest: &[u8]) -> Option<RepeatCounts>
    requires { n.len + length rest.now < 2 ^ 63 }
    ensures value { (real : Number) → n ≡ u32_number real → result
        ≡ option_map u32_counts (counts_to real rest.now) }
    ensures within { IfSome result (λ c. c.len ≤ n.len + 1 + length rest.now) }
{
    if starts_with_byte(b'}', rest) {
        return Some(RepeatCounts {
            least: n.value,
            most: None,
            len: n.len + 2,
        });
    }
    let m = read_number(rest)?;
    if !starts_with_byte(b'}', &rest[m.len..]) {
        return None;
    }
    Some(RepeatCounts {
        least: n.value,
        most: Some(m.value),
        len: n.len + 2 + m.len,
    })
}

/// The counts after `{n`.
fn counts_from(n: Number, rest: &[u8]) -> Option<RepeatCounts>
    requires { n.len + length rest.now < 2 ^ 63 }
    ensures value { (real : Number) → n ≡ u32_number real → result
        ≡ option_map u32_counts (counts_from real rest.now) }
    ensures within { IfSome result (λ c. c.len ≤ n.len + length rest.now) }
{
    if starts_with_byte(b'}', rest) {
        return Some(RepeatCounts {
            least: n.value,
            most: Some(n.value),
            len: n.len + 1,
        });
    }
    if !starts_with_byte(b',', rest) {
        return None;
    }
    counts_to(n, &rest[1..])
}

/// The counts after `{`.
fn read_counts(text: &[u8]) -> Option<RepeatCounts>
    ensures value { result ≡ option_map u32_counts (counts text.now) }
    ensures within { IfSome result (λ c. c.len ≤ length text.now) }
{
    let n = read_number(text)?;
    counts_from(n, &text[n.len..])
}

/// A repeat operator with `len` bytes after its first, then an optional `?` (lazy), which does not
/// change the tree.
fn lazy(least: u32, most: Option<u32>, len: usize, rest: &[u8]) -> (Item, usize)
    requires { len ≤ length rest.now }
    ensures value { (text : List ℕ)
        → item (item_view text result.0) result.1 ≡ lazy least most len rest.now }
    ensures within { result.1 ≤ length rest.now }
{
    let len = if starts_with_byte(b'?', &rest[len..]) {
        len + 1
    } else {
        len
    };
    (Item::Repeat(least, most), len)
}

fn is_bad(c: RepeatCounts) -> bool
    ensures { result ≡ is_bad c }
{
    match c.most {
        None => c.least > MAX_REPEAT,
        Some(most) => c.least > MAX_REPEAT || most > MAX_REPEAT || most < c.least,
    }
}
