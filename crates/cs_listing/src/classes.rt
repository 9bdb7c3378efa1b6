// Classes in the text of a glob, as in `[a-z]` and `[[:alpha:]]`.
ghost use Rattle.std.specs.Prelude.{◌≡◌, ◌≤◌, length, drop, IfOk};
ghost use Rattle.cs_listing.specs.Classes.{begins_with as begins_with', quoted as quoted', class_name as class_name', ranges_named as ranges_named', is_range as is_range'};
ghost use Rattle.cs_listing.specs.Reading.{lent, ReadsRange, ReadsName, HasNoName, AddsItem, ReadsClass};

use crate::class_names::{CLASSES, ranges_among};
use crate::rule_lines::before;
use std::alloc::{AllocError, Global};

/// Whether a text begins with the byte.
pub(crate) fn begins_with(byte: u8, text: &[u8]) -> bool
    ensures { result ≡ begins_with' byte text.now }
{
    match text.split_first() {
        Some((first, _)) => *first == byte,
        None => false,
    }
}

/// The byte that a text begins with, which a backslash may quote, and the length of its text.
pub(crate) fn quoted(text: &[u8]) -> Option<(u8, usize)>
    ensures { result ≡ quoted' text.now }
{
    let (byte, rest) = text.split_first()?;
    if *byte != b'\\' {
        return Some((*byte, 1));
    }
    let (escaped, _) = rest.split_first()?;
    Some((*escaped, 2))
}

/// The ranges of a class after its `[` and `!`, and the length of its text with its `]`. None if it
/// does not end, or has an unknown name in it.
pub(crate) fn class_items(
    alloc: Global,
    text: &[u8],
) -> Result<Option<(Vec<(u8, u8)>, usize)>, AllocError>
    ensures { IfOk result (λ read. ReadsClass text.now read) }
{
    let mut ranges = Vec::new(alloc);
    let mut at = 0;
    let mut plain = 0;
    'items: loop {
        let name = name_at(text, at, &mut plain);
        let Some(len) = add_item(&text[at..], name, &mut ranges)? else {
            return Ok(None);
        };
        at += len;
        if begins_with(b']', &text[at..]) {
            return Ok(Some((ranges, at + 1)));
        }
    }
}

/// The name that begins at an offset. None begins before the offset `plain`, which is moved on, so
/// that a byte is not looked at again and again for its name.
fn name_at<'t>(text: &'t [u8], at: usize, plain: &mut usize) -> Option<&'t [u8]>
    requires within { at ≤ length text.now }
    requires before { HasNoName text.now at plain.old }
    ensures name { class_name' (drop at text.now) ≡ lent result }
    ensures before { HasNoName text.now at plain.new }
{
    if at < *plain {
        return None;
    }
    match class_name(&text[at..]) {
        Ok(name) => Some(name),
        Err(len) => {
            *plain = at.saturating_add(len);
            None
        }
    }
}

/// Adds the ranges of the item that a text begins with, which may be a name, and returns its
/// length. None if there is none.
fn add_item(
    text: &[u8],
    name: Option<&[u8]>,
    ranges: &mut Vec<(u8, u8)>,
) -> Result<Option<usize>, AllocError>
    requires { class_name' text.now ≡ lent name }
    ensures { IfOk result (λ read. AddsItem text.now ranges.old.items ranges.new.items read) }
{
    if let Some(name) = name {
        let Some(named) = ranges_named(name) else {
            return Ok(None);
        };
        ranges.extend_from_slice(named)?;
        return Ok(Some(name.len() + 4));
    }
    let Some((range, len)) = range(text) else {
        return Ok(None);
    };
    ranges.push(range)?;
    Ok(Some(len))
}

/// The range that a text begins with, or its first byte, and the length.
fn range(text: &[u8]) -> Option<((u8, u8), usize)>
    ensures { ReadsRange text.now result }
{
    let (low, len) = quoted(text)?;
    if !is_range(&text[len..]) {
        return Some(((low, low), len));
    }
    let (high, more) = quoted(&text[len + 1..])?;
    Some(((low, low.max(high)), len + 1 + more))
}

/// Whether a range goes on here: at `-` and another byte than `]`.
fn is_range(text: &[u8]) -> bool
    ensures { result ≡ is_range' text.now }
{
    match text {
        [first, second, ..] => *first == b'-' && *second != b']',
        _ => false,
    }
}

/// The name of a class, as in `[:alpha:]`. Otherwise a number of bytes in which no name begins.
fn class_name(text: &[u8]) -> Result<&[u8], usize>
    ensures { ReadsName text.now result }
{
    let Some(rest) = text.strip_prefix(b"[:") else {
        return Err(1);
    };
    let inner = before(b']', rest);
    match inner.split_last() {
        Some((b':', name)) if inner.len() < rest.len() => Ok(name),
        _ => Err(inner.len() + 1),
    }
}

/// The ASCII characters of a named class.
fn ranges_named(name: &[u8]) -> Option<&'static [(u8, u8)]>
    ensures { ranges_named' name.now ≡ lent result }
{
    ranges_among(&CLASSES, name)
}
