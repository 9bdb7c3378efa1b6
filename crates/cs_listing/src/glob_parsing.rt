// The globs of rules: from text to elements.
ghost use Rattle.std.specs.Prelude.{◌≡◌, ◌++◌, ◌<◌, ◌||◌, IfOk, OnOk, length, drop, if◌then◌else◌};
ghost use Rattle.cs_listing.specs.GlobText.{glob_in, elements_in, first_token as first_token', class_of, nothing as nothing', element as element', last_element, is_slash as is_slash', is_star as is_star', is_double_star as is_double_star'};
ghost use Rattle.std.specs.Path.{slash};
ghost use Rattle.cs_listing.specs.Globs.{one as one'};
ghost use Rattle.cs_listing.specs.Classes.{begins_with as begins_with'};
ghost use Rattle.cs_listing.specs.Models.{token_of, tokens_of, element_of, glob_of};
ghost use Rattle.cs_listing.specs.Reading.{ReadsToken};

use crate::classes::{begins_with, class_items, quoted};
use crate::glob::{Element, Token};
use std::alloc::{AllocError, Global};
use std::mem;

/// The glob of a rule's text, without the `!` and the slash at its end.
pub(crate) fn parse_glob(alloc: Global, text: &[u8]) -> Result<Vec<Element>, AllocError>
    ensures { IfOk result (λ glob. glob_of glob.items ≡ glob_in text.now) }
{
    let mut glob = Vec::new(alloc);
    if !text.contains(&b'/') {
        glob.push(Element::Folders)?;
        add_elements(alloc, &mut glob, text)?;
        return Ok(fitted(glob));
    }
    add_elements(alloc, &mut glob, without_slash(text))?;
    Ok(fitted(glob))
}

/// The same elements, without memory for more of them: a rule file may have a million globs.
fn fitted(mut glob: Vec<Element>) -> Vec<Element>
    ensures { result.items ≡ glob.items }
{
    glob.shrink_to_fit();
    glob
}

/// The text without a slash that it begins with.
fn without_slash(text: &[u8]) -> &[u8]
    ensures { result.now ≡ (if begins_with' slash text.now then drop 1 text.now else text.now) }
{
    match text.split_first() {
        Some((b'/', rest)) => rest,
        _ => text,
    }
}

/// Adds the elements of a text.
fn add_elements(alloc: Global, glob: &mut Vec<Element>, text: &[u8]) -> Result<(), AllocError>
    ensures { OnOk result (glob_of glob.new.items
        ≡ glob_of glob.old.items ++ elements_in text.now) }
{
    let mut tokens = Vec::new(alloc);
    let mut rest = text;
    'tokens: while !rest.is_empty() {
        let (token, len) = first_token(alloc, rest)?;
        rest = &rest[len..];
        if is_slash(&token) {
            let ended = mem::replace(&mut tokens, Vec::new(alloc));
            glob.push(element(ended))?;
        } else {
            tokens.push(token)?;
        }
    }
    add_last(alloc, glob, tokens)
}

/// The token that a text begins with, and its length.
pub(crate) fn first_token(alloc: Global, text: &[u8]) -> Result<(Token, usize), AllocError>
    requires { 0 < length text.now }
    ensures { IfOk result (λ read. ReadsToken (first_token' text.now) text.now read) }
{
    if begins_with(b'*', text) {
        return Ok((Token::Star, 1));
    }
    if begins_with(b'?', text) {
        return Ok((Token::Any, 1));
    }
    if begins_with(b'[', text) {
        return class(alloc, text);
    }
    Ok(match quoted(text) {
        Some((byte, len)) => (Token::Byte(byte), len),
        None => (nothing(alloc), 1),
    })
}

/// A token that matches nothing.
fn nothing(alloc: Global) -> Token
    ensures { token_of result ≡ nothing' }
{
    Token::Class {
        negated: false,
        ranges: Vec::new(alloc),
    }
}

/// The class that a text begins with. One that does not end takes the whole text.
fn class(alloc: Global, text: &[u8]) -> Result<(Token, usize), AllocError>
    requires { 0 < length text.now }
    ensures { IfOk result (λ read. ReadsToken (class_of text.now) text.now read) }
{
    let negated = is_negated(&text[1..]);
    let start = if negated { 2 } else { 1 };
    match class_items(alloc, &text[start..])? {
        Some((ranges, len)) => Ok((Token::Class { negated, ranges }, start + len)),
        None => Ok((nothing(alloc), text.len())),
    }
}

/// Whether the text after the `[` of a class begins with `!` or `^`.
fn is_negated(text: &[u8]) -> bool
    ensures { result ≡ (begins_with' 33 text.now || begins_with' 94 text.now) }
{
    begins_with(b'!', text) || begins_with(b'^', text)
}

fn is_slash(token: &Token) -> bool
    ensures { result ≡ is_slash' (token_of token.now) }
{
    match token {
        Token::Byte(byte) => *byte == b'/',
        _ => false,
    }
}

fn is_star(token: &Token) -> bool
    ensures { result ≡ is_star' (token_of token.now) }
{
    match token {
        Token::Star => true,
        _ => false,
    }
}

fn is_double_star(tokens: &[Token]) -> bool
    ensures { result ≡ is_double_star' (tokens_of tokens.now) }
{
    tokens.len() >= 2 && tokens.iter().all(is_star)
}

fn element(tokens: Vec<Token>) -> Element
    ensures { element_of result ≡ element' (tokens_of tokens.items) }
{
    if is_double_star(&tokens) {
        return Element::Folders;
    }
    one(tokens)
}

/// An element of these tokens, without memory for more of them.
fn one(mut tokens: Vec<Token>) -> Element
    ensures { element_of result ≡ one' (tokens_of tokens.items) }
{
    tokens.shrink_to_fit();
    Element::One(tokens)
}

/// Adds the last element. A `**` there is `**/*`.
fn add_last(alloc: Global, glob: &mut Vec<Element>, tokens: Vec<Token>) -> Result<(), AllocError>
    ensures { OnOk result (glob_of glob.new.items
        ≡ glob_of glob.old.items ++ last_element (tokens_of tokens.items)) }
{
    if !is_double_star(&tokens) {
        glob.push(one(tokens))?;
        return Ok(());
    }
    let mut all = Vec::new(alloc);
    all.push(Token::Star)?;
    glob.push(Element::Folders)?;
    glob.push(one(all))?;
    Ok(())
}
