// Marks (superimposed coding): a number of 64 bits for a name, one for each byte that it has, one
// for its first and one for its last byte. A glob whose last element has a mark that the last name
// of a path lacks does not match the path. This test, of one number for each glob, leaves few.
ghost use Rattle.std.specs.Prelude.{◌≡◌};
ghost use Rattle.cs_listing.specs.Marks.{of_first, of_last, has_mark as has_mark', first_mark as first_mark', last_mark as last_mark', name_marks as name_marks', token_mark as token_mark', tokens_marks as tokens_marks', element_marks as element_marks', glob_marks as glob_marks'};

use crate::glob::{Element, Token};

/// The mark of a byte of a name.
fn has_mark(byte: u8) -> u64
    ensures { result ≡ has_mark' byte }
{
    1 << (byte % 32)
}

/// The mark of a first byte.
fn first_mark(byte: u8) -> u64
    ensures { result ≡ first_mark' byte }
{
    1 << (32 + byte % 16)
}

/// The mark of a last byte.
fn last_mark(byte: u8) -> u64
    ensures { result ≡ last_mark' byte }
{
    1 << (48 + byte % 16)
}

fn first_marks(name: &[u8]) -> u64
    ensures { result ≡ of_first first_mark' name.now }
{
    match name.split_first() {
        Some((byte, _)) => first_mark(*byte),
        None => 0,
    }
}

fn last_marks(name: &[u8]) -> u64
    ensures { result ≡ of_last last_mark' name.now }
{
    match name.split_last() {
        Some((byte, _)) => last_mark(*byte),
        None => 0,
    }
}

/// The marks of a name.
pub(crate) fn name_marks(name: &[u8]) -> u64
    ensures { result ≡ name_marks' name.now }
{
    let mut marks = first_marks(name) | last_marks(name);
    for byte in name {
        marks |= has_mark(*byte);
    }
    marks
}

/// The mark that a token gives each name it is in.
fn token_mark(token: &Token) -> u64
    ensures { result ≡ token_mark' has_mark' token.now }
{
    match token {
        Token::Byte(byte) => has_mark(*byte),
        Token::Any | Token::Class { .. } | Token::Star => 0,
    }
}

fn first_token_marks(tokens: &[Token]) -> u64
    ensures { result ≡ of_first (token_mark' first_mark') tokens.now }
{
    match tokens.split_first() {
        Some((Token::Byte(byte), _)) => first_mark(*byte),
        _ => 0,
    }
}

/// The mark that a last token gives each name.
fn last_token_mark(token: &Token) -> u64
    ensures { result ≡ token_mark' last_mark' token.now }
{
    match token {
        Token::Byte(byte) => last_mark(*byte),
        Token::Any | Token::Class { .. } | Token::Star => 0,
    }
}

fn last_token_marks(tokens: &[Token]) -> u64
    ensures { result ≡ of_last (token_mark' last_mark') tokens.now }
{
    match tokens.split_last() {
        Some((token, _)) => last_token_mark(token),
        None => 0,
    }
}

/// The marks that each name has which the tokens match.
fn tokens_marks(tokens: &[Token]) -> u64
    ensures { result ≡ tokens_marks' tokens.now }
{
    let mut marks = first_token_marks(tokens) | last_token_marks(tokens);
    for token in tokens {
        marks |= token_mark(token);
    }
    marks
}

fn element_marks(element: &Element) -> u64
    ensures { result ≡ element_marks' element.now }
{
    match element {
        Element::Folders => 0,
        Element::One(tokens) => tokens_marks(tokens),
    }
}

/// The marks that the last name of each path has which the glob matches.
pub(crate) fn glob_marks(glob: &[Element]) -> u64
    ensures { result ≡ glob_marks' glob.now }
{
    match glob.split_last() {
        Some((element, _)) => element_marks(element),
        None => 0,
    }
}
