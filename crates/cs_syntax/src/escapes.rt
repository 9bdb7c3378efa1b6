// Parses escapes. Each function is given the text after the backslash.
ghost use Rattle.std.specs.Prelude.{◌≡◌, ◌+◌, ◌≤◌, ◌<◌, ℕ, List, length, min, IfSome};
ghost use Rattle.std.specs.Option.{option_map};
ghost use Rattle.cs_syntax.specs.Cited.{char_tree, StaysWithin, token_view, atom_tree, char_by_number, octal_char, hex_char_in_braces, hex_char, control_char, escaped_char, escaped_class, is_unsupported_escape, escaped_tree, char_token, escape};

use crate::byte_set::{ByteSet, is_letter};
use crate::fault::PatternFault;
use crate::items::{Atom, ClassItem, Item, ItemError, NamedClass};
use crate::lookahead::{count_digits, is_digit, starts_with_byte, value_in};

/// The character of an escape, and the number of bytes after the backslash.
#[derive(Clone, Copy, Drop)]
pub(crate) struct EscapedChar {
    pub(crate) char: char,
    pub(crate) len: usize,
}

/// The character with a number, which is saturated at `u32::MAX`.
fn char_by_number(number: u32, len: usize) -> Option<EscapedChar>
    ensures { (real : ℕ) → number ≡ min real u32.MAX → result ≡ char_by_number real len }
{
    let char = char::from_u32(number)?;
    Some(EscapedChar { char, len })
}

fn octal_char(text: &[u8]) -> Option<EscapedChar>
    ensures value { result ≡ octal_char text.now }
    ensures within { IfSome result (λ c. c.len ≤ length text.now) }
{
    let len = count_digits(8, text).min(3);
    if !starts_with_byte(b'0', text) && len < 2 {
        return None;
    }
    char_by_number(value_in(8, &text[..len]), len)
}

/// A hexadecimal number in braces. The text follows `\x{`.
fn hex_char_in_braces(text: &[u8]) -> Option<EscapedChar>
    ensures value { result ≡ hex_char_in_braces text.now }
    ensures within { IfSome result (λ c. c.len ≤ 2 + length text.now) }
{
    let len = count_digits(16, text);
    if len == 0 || !starts_with_byte(b'}', &text[len..]) {
        return None;
    }
    char_by_number(value_in(16, &text[..len]), len + 3)
}

/// A hexadecimal escape. The text follows `\x`.
fn hex_char(text: &[u8]) -> Option<EscapedChar>
    ensures value { result ≡ hex_char text.now }
    ensures within { IfSome result (λ c. c.len ≤ 1 + length text.now) }
{
    if starts_with_byte(b'{', text) {
        return hex_char_in_braces(&text[1..]);
    }
    if count_digits(16, text) < 2 {
        return None;
    }
    char_by_number(value_in(16, &text[..2]), 3)
}

fn control_char(letter: u8) -> Option<char>
    ensures { result ≡ control_char letter }
{
    match letter {
        b'a' => Some('\u{7}'),
        b'f' => Some('\u{c}'),
        b't' => Some('\t'),
        b'n' => Some('\n'),
        b'r' => Some('\r'),
        b'v' => Some('\u{b}'),
        _ => None,
    }
}

/// An escape for one character.
pub(crate) fn escaped_char(text: &[u8]) -> Option<EscapedChar>
    ensures value { result ≡ escaped_char text.now }
    ensures within { IfSome result (λ c. c.len ≤ length text.now) }
{
    let (&e, rest) = text.split_first()?;
    if let Some(char) = control_char(e) {
        return Some(EscapedChar { char, len: 1 });
    }
    if e == b'x' {
        return hex_char(rest);
    }
    if is_digit(8, e) {
        return octal_char(text);
    }
    if e < 128 && !is_letter(e as usize) && !is_digit(10, e) {
        return Some(EscapedChar {
            char: e as char,
            len: 1,
        });
    }
    None
}

/// The class of `\d`, `\s`, `\w` and their complements.
#[tactic(auto, unfolding(crate::specs::Escapes::escaped_class))]
pub(crate) fn escaped_class(letter: u8) -> Option<ClassItem>
    ensures { result ≡ escaped_class letter }
{
    match letter {
        b'd' => Some(ClassItem::Named(NamedClass::Digit, false)),
        b'D' => Some(ClassItem::Named(NamedClass::Digit, true)),
        b's' => Some(ClassItem::Named(NamedClass::White, false)),
        b'S' => Some(ClassItem::Named(NamedClass::White, true)),
        b'w' => Some(ClassItem::Named(NamedClass::Word, false)),
        b'W' => Some(ClassItem::Named(NamedClass::Word, true)),
        _ => None,
    }
}

/// Whether RE2 supports the escape and this parser does not.
pub(crate) fn is_unsupported_escape(letter: u8) -> bool
    ensures { result ≡ is_unsupported_escape letter }
{
    matches!(letter, b'A' | b'z' | b'Q' | b'p' | b'P')
}

/// The atom of a character.
fn char_atom(fold: bool, char: char) -> Atom
    ensures { (text : List ℕ) → atom_tree text result ≡ char_tree fold char }
{
    if char.is_ascii() {
        Atom::Set(ByteSet::of_char(fold, char as u8))
    } else {
        Atom::Char(char)
    }
}

/// An escape outside a class that stands for one character.
#[tactic(auto, unfolding(crate::specs::Escapes::char_token))]
fn char_token(fold: bool, text: &[u8]) -> Result<(Item, usize), ItemError>
    ensures value { (lexeme : List ℕ) → token_view lexeme result ≡ char_token fold text.now }
    ensures within { StaysWithin (length text.now) 0 result }
{
    let Some(escaped) = escaped_char(text) else {
        return Err(ItemError::at_start(PatternFault::BadEscape));
    };
    Ok((Item::Atom(char_atom(fold, escaped.char)), escaped.len))
}

/// The atom of an escape outside a class that does not stand for one character.
#[tactic(auto, unfolding(crate::specs::Escapes::escaped_tree))]
fn escaped_atom(letter: u8) -> Option<Atom>
    ensures { (text : List ℕ) → option_map (atom_tree text) result ≡ escaped_tree letter }
{
    match letter {
        b'b' => Some(Atom::WordEdge),
        b'B' => Some(Atom::NotWordEdge),
        b'C' => Some(Atom::Set(ByteSet::all())),
        _ => {
            let item = escaped_class(letter)?;
            Some(Atom::Class(item))
        }
    }
}

/// An escape outside a class.
pub(crate) fn escape(fold: bool, text: &[u8]) -> Result<(Item, usize), ItemError>
    ensures value { (lexeme : List ℕ) → token_view lexeme result ≡ escape fold text.now }
    ensures within { StaysWithin (length text.now) 0 result }
{
    let Some((&letter, _)) = text.split_first() else {
        return Err(ItemError::at_start(PatternFault::LoneBackslash));
    };
    if is_unsupported_escape(letter) {
        return Err(ItemError::at_start(PatternFault::NotInProfile));
    }
    match escaped_atom(letter) {
        Some(atom) => Ok((Item::Atom(atom), 1)),
        None => char_token(fold, text),
    }
}
