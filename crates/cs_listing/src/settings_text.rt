// The text of git's settings, as git-config(1) says in "Syntax".
ghost use Rattle.std.specs.Prelude.{◌≡◌, ◌≤◌, ◌<◌, ◌++◌, ◌∷◌, [], false, length, option_map, string_bytes, IfOk, IfSome, OnOk};
ghost use Rattle.std.specs.Option.{option_to_list};
ghost use Rattle.std.specs.Char.{to_ascii_lowercase};
ghost use Rattle.cs_listing.specs.Settings.{is_blank as is_blank', without_blanks as without_blanks', is_comment as is_comment', after_line as after_line', without_returns as without_returns', is_name_byte as is_name_byte', name_from, closed_head as closed', subsection_from, with_subsection as with_subsection', head_in, escape as escape', with_byte, with_mark, with_space, after_escape, after_byte, ended as ended', begins_comment as begins_comment', value_from, no_value, setting_in as setting_in', assigned as assigned', text_of as text_of', inclusion as inclusion', directive_for as directive_for', directive_of as directive_of', head_piece as head_piece', piece_of, piece_in as piece_in', said_in as said_in'};
ghost use Rattle.cs_listing.specs.SettingReads.{text_if, part_of, part_if, value_of, setting_read, setting_if, directive_if, piece_if, said_read, ReadsByte};

use crate::classes::begins_with;
use crate::rule_lines::without_mark;
use std::alloc::{AllocError, Global};
use std::str::from_utf8;

/// What settings say of the rules of a user.
#[derive(Drop)]
pub(crate) enum Directive {
    /// The file of the rules.
    Excludes(String),
    /// A file of settings to be read here, if the condition holds.
    Includes(Option<String>, String),
}

/// What a text of settings says up to its first bad line.
#[derive(Drop)]
pub(crate) struct Said {
    pub(crate) directives: Vec<Directive>,
    pub(crate) is_bad: bool,
}

/// What is read of a text at once: what it says, the section that it begins, and the rest.
#[derive(Drop)]
struct Piece<'t> {
    directive: Option<Directive>,
    section: Option<Vec<u8>>,
    rest: &'t [u8],
}

/// A name and its value, if it has one.
#[derive(Drop)]
struct Setting<'t> {
    name: Vec<u8>,
    value: Option<Vec<u8>>,
    rest: &'t [u8],
}

/// What is read of a text, and the rest of it.
#[derive(Drop)]
struct ReadPart<'t> {
    bytes: Vec<u8>,
    rest: &'t [u8],
}

/// A value so far.
#[derive(Drop)]
struct Value {
    bytes: Vec<u8>,
    /// Spaces after the bytes, which count if more of the value follows.
    spaces: Vec<u8>,
    /// Whether the next byte is between quotation marks.
    is_quoted: bool,
    /// Whether the next byte is after a backslash.
    is_escaped: bool,
}

/// What the text of a file of settings says.
pub(crate) fn said_in(alloc: Global, bytes: &[u8]) -> Result<Said, AllocError>
    ensures { IfOk result (λ said. said_read said ≡ said_in' bytes.now) }
{
    let text = without_returns(alloc, without_mark(bytes))?;
    let mut directives = Vec::new(alloc);
    let mut section = Vec::new(alloc);
    let mut rest = text.as_slice();
    'pieces: while !rest.is_empty() {
        let Some(piece) = piece_in(alloc, &section, rest)? else {
            return Ok(Said {
                directives,
                is_bad: true,
            });
        };
        let Piece {
            directive,
            section: begun,
            rest: later,
        } = piece;
        push_if_some(&mut directives, directive)?;
        section = begun.unwrap_or(section);
        rest = later;
    }
    Ok(Said {
        directives,
        is_bad: false,
    })
}

/// Adds the directive, if there is one.
fn push_if_some(
    directives: &mut Vec<Directive>,
    directive: Option<Directive>,
) -> Result<(), AllocError>
    ensures { OnOk result (directives.new.items ≡ directives.old.items ++ option_to_list directive) }
{
    if let Some(directive) = directive {
        directives.push(directive)?;
    }
    Ok(())
}

/// The text without the carriage returns before newlines.
fn without_returns(alloc: Global, text: &[u8]) -> Result<Vec<u8>, AllocError>
    ensures { IfOk result (λ plain. plain.items ≡ without_returns' text.now) }
{
    let mut plain = Vec::new(alloc);
    let mut rest = text;
    'bytes: while let Some((byte, more)) = rest.split_first() {
        if !(*byte == b'\r' && begins_with(b'\n', more)) {
            plain.push(*byte)?;
        }
        rest = more;
    }
    Ok(plain)
}

/// The piece that a text in a section begins with. None if its line is bad.
fn piece_in<'t>(
    alloc: Global,
    section: &[u8],
    text: &'t [u8],
) -> Result<Option<Piece<'t>>, AllocError>
    ensures piece { IfOk result (λ piece. piece_if piece ≡ piece_in' section.now text.now) }
    ensures shorter { IfOk result (λ piece. IfSome piece (λ piece. length piece.rest.now < length text.now)) }
{
    let Some((byte, more)) = text.split_first() else {
        return Ok(None);
    };
    if *byte == b'\n' || is_blank(true, *byte) {
        return Ok(Some(Piece {
            directive: None,
            section: None,
            rest: more,
        }));
    }
    if is_comment(*byte) {
        return Ok(Some(Piece {
            directive: None,
            section: None,
            rest: after_line(more),
        }));
    }
    if *byte == b'[' {
        return head_piece(alloc, more);
    }
    if byte.is_ascii_alphabetic() {
        return setting_piece(alloc, section, *byte, more);
    }
    Ok(None)
}

fn is_blank(returns: bool, byte: u8) -> bool
    ensures { result ≡ is_blank' returns byte }
{
    byte == b' ' || (byte == b'\t' || (returns && byte == b'\r'))
}

fn is_comment(byte: u8) -> bool
    ensures { result ≡ is_comment' byte }
{
    byte == b'#' || byte == b';'
}

/// The text without the blanks at its beginning.
fn without_blanks(returns: bool, text: &[u8]) -> &[u8]
    ensures rest { result.now ≡ without_blanks' returns text.now }
    ensures shorter { length result.now ≤ length text.now }
{
    let mut rest = text;
    'blanks: while let Some((byte, more)) = rest.split_first() {
        if !is_blank(returns, *byte) {
            return rest;
        }
        rest = more;
    }
    rest
}

/// What follows the line that a text begins in.
fn after_line(text: &[u8]) -> &[u8]
    ensures rest { result.now ≡ after_line' text.now }
    ensures shorter { length result.now ≤ length text.now }
{
    let mut rest = text;
    'bytes: while let Some((byte, more)) = rest.split_first() {
        if *byte == b'\n' {
            return more;
        }
        rest = more;
    }
    rest
}

fn is_name_byte(dots: bool, byte: u8) -> bool
    ensures { result ≡ is_name_byte' dots byte }
{
    byte.is_ascii_alphanumeric() || (byte == b'-' || (dots && byte == b'.'))
}

/// The name that goes on in a text, in small letters. It may have dots in it.
fn name<'t>(dots: bool, begun: Vec<u8>, text: &'t [u8]) -> Result<ReadPart<'t>, AllocError>
    ensures name { IfOk result (λ name. part_of name ≡ name_from dots begun.items text.now) }
    ensures shorter { IfOk result (λ name. length name.rest.now ≤ length text.now) }
{
    let mut bytes = begun;
    let mut rest = text;
    'bytes: while let Some((byte, more)) = rest.split_first() {
        if !is_name_byte(dots, *byte) {
            return Ok(ReadPart { bytes, rest });
        }
        bytes.push(byte.to_ascii_lowercase())?;
        rest = more;
    }
    Ok(ReadPart { bytes, rest })
}

/// The piece of the head of a section after its `[`.
fn head_piece<'t>(alloc: Global, text: &'t [u8]) -> Result<Option<Piece<'t>>, AllocError>
    ensures piece { IfOk result (λ piece. piece_if piece ≡ option_map head_piece' (head_in text.now)) }
    ensures shorter { IfOk result (λ piece. IfSome piece (λ piece. length piece.rest.now ≤ length text.now)) }
{
    let Some(head) = head(alloc, text)? else {
        return Ok(None);
    };
    Ok(Some(Piece {
        directive: None,
        section: Some(head.bytes),
        rest: head.rest,
    }))
}

/// The section whose head goes on here, after its `[`. None if it does not end.
fn head<'t>(alloc: Global, text: &'t [u8]) -> Result<Option<ReadPart<'t>>, AllocError>
    ensures head { IfOk result (λ head. part_if head ≡ head_in text.now) }
    ensures shorter { IfOk result (λ head. IfSome head (λ head. length head.rest.now ≤ length text.now)) }
{
    let name = name(true, Vec::new(alloc), text)?;
    if begins_with(b'"', name.rest) {
        return Ok(None);
    }
    if begins_with(b']', name.rest) {
        if name.bytes.is_empty() {
            return Ok(None);
        }
        return Ok(closed(name.bytes, name.rest));
    }
    with_subsection(name.bytes, without_blanks(true, name.rest))
}

/// A section whose name ends here.
fn closed<'t>(name: Vec<u8>, text: &'t [u8]) -> Option<ReadPart<'t>>
    ensures head { part_if result ≡ closed' name.items text.now }
    ensures shorter { IfSome result (λ head. length head.rest.now ≤ length text.now) }
{
    match text.split_first() {
        Some((b']', rest)) => Some(ReadPart { bytes: name, rest }),
        _ => None,
    }
}

/// A section with a subsection between quotation marks.
fn with_subsection<'t>(name: Vec<u8>, text: &'t [u8]) -> Result<Option<ReadPart<'t>>, AllocError>
    ensures head { IfOk result (λ head. part_if head ≡ with_subsection' name.items text.now) }
    ensures shorter { IfOk result (λ head. IfSome head (λ head. length head.rest.now ≤ length text.now)) }
{
    let Some((b'"', rest)) = text.split_first() else {
        return Ok(None);
    };
    let mut bytes = name;
    bytes.push(b'.')?;
    subsection(bytes, rest)
}

/// A section whose subsection goes on here.
fn subsection<'t>(name: Vec<u8>, text: &'t [u8]) -> Result<Option<ReadPart<'t>>, AllocError>
    ensures head { IfOk result (λ head. part_if head ≡ subsection_from name.items false text.now) }
    ensures shorter { IfOk result (λ head. IfSome head (λ head. length head.rest.now ≤ length text.now)) }
{
    let mut bytes = name;
    let mut is_escaped = false;
    let mut rest = text;
    'bytes: while let Some((byte, more)) = rest.split_first() {
        if *byte == b'\n' {
            return Ok(None);
        }
        if !is_escaped && *byte == b'"' {
            return Ok(closed(bytes, more));
        }
        if !is_escaped && *byte == b'\\' {
            is_escaped = true;
        } else {
            bytes.push(*byte)?;
            is_escaped = false;
        }
        rest = more;
    }
    Ok(None)
}

/// What a byte after a backslash stands for.
fn escape(byte: u8) -> Option<u8>
    ensures { result ≡ escape' byte }
{
    if byte == b't' {
        return Some(b'\t');
    }
    if byte == b'n' {
        return Some(b'\n');
    }
    if byte == b'b' {
        return Some(8);
    }
    if byte == b'\\' || byte == b'"' {
        return Some(byte);
    }
    None
}

impl Value {
    /// Reads a byte that does not end the value. False if git does not know the escape.
    fn read(&mut self, byte: u8) -> Result<bool, AllocError>
        ensures { IfOk result (λ is_known.
            ReadsByte (after_byte (value_of self.old) byte) self.new is_known) }
    {
        if self.is_escaped {
            return self.read_escaped(byte);
        }
        if byte == b'\\' {
            self.mark(self.is_quoted, true)?;
            return Ok(true);
        }
        if byte == b'"' {
            self.mark(!self.is_quoted, false)?;
            return Ok(true);
        }
        if is_blank(true, byte) && !self.is_quoted {
            self.push_space()?;
            return Ok(true);
        }
        self.push(byte)?;
        Ok(true)
    }

    /// The same after a backslash.
    fn read_escaped(&mut self, byte: u8) -> Result<bool, AllocError>
        ensures { IfOk result (λ is_known.
            ReadsByte (after_escape (value_of self.old) byte) self.new is_known) }
    {
        if byte == b'\n' {
            self.mark(self.is_quoted, false)?;
            return Ok(true);
        }
        match escape(byte) {
            Some(byte) => {
                self.push(byte)?;
                Ok(true)
            }
            None => Ok(false),
        }
    }

    /// Adds a byte.
    fn push(&mut self, byte: u8) -> Result<(), AllocError>
        ensures { OnOk result (value_of self.new ≡ with_byte (value_of self.old) byte) }
    {
        self.bytes.extend_from_slice(&self.spaces)?;
        self.bytes.push(byte)?;
        self.spaces.clear();
        self.is_escaped = false;
        Ok(())
    }

    /// Goes on at a mark.
    fn mark(&mut self, is_quoted: bool, is_escaped: bool) -> Result<(), AllocError>
        ensures { OnOk result (value_of self.new ≡ with_mark (value_of self.old) is_quoted is_escaped) }
    {
        self.bytes.extend_from_slice(&self.spaces)?;
        self.spaces.clear();
        self.is_quoted = is_quoted;
        self.is_escaped = is_escaped;
        Ok(())
    }

    /// Adds a space, which does not count before a value.
    fn push_space(&mut self) -> Result<(), AllocError>
        ensures { OnOk result (value_of self.new ≡ with_space (value_of self.old)) }
    {
        if self.bytes.is_empty() {
            self.spaces.clear();
        } else {
            self.spaces.push(b' ')?;
        }
        Ok(())
    }

    /// The value, which ends here.
    fn ended<'t>(self, rest: &'t [u8]) -> Option<ReadPart<'t>>
        ensures { part_if result ≡ ended' (value_of self) rest.now }
    {
        if self.is_quoted {
            return None;
        }
        Some(ReadPart {
            bytes: self.bytes,
            rest,
        })
    }

    /// Whether a byte begins a comment.
    fn begins_comment(&self, byte: u8) -> bool
        ensures { result ≡ begins_comment' (value_of self.now) byte }
    {
        is_comment(byte) && !(self.is_quoted || self.is_escaped)
    }
}

/// The value that a text begins with, and the text after its line. None if the line is bad.
fn value_in<'t>(alloc: Global, text: &'t [u8]) -> Result<Option<ReadPart<'t>>, AllocError>
    ensures value { IfOk result (λ value. part_if value ≡ value_from no_value text.now) }
    ensures shorter { IfOk result (λ value. IfSome value (λ value. length value.rest.now ≤ length text.now)) }
{
    let mut value = Value {
        bytes: Vec::new(alloc),
        spaces: Vec::new(alloc),
        is_quoted: false,
        is_escaped: false,
    };
    let mut rest = text;
    'bytes: while let Some((byte, more)) = rest.split_first() {
        if *byte == b'\n' && !value.is_escaped {
            return Ok(value.ended(more));
        }
        if value.begins_comment(*byte) {
            return Ok(value.ended(after_line(more)));
        }
        if !value.read(*byte)? {
            return Ok(None);
        }
        rest = more;
    }
    Ok(value.ended(rest))
}

/// The piece of a setting of a section, after the first letter of its name.
fn setting_piece<'t>(
    alloc: Global,
    section: &[u8],
    first: u8,
    text: &'t [u8],
) -> Result<Option<Piece<'t>>, AllocError>
    ensures piece { IfOk result (λ piece. piece_if piece
        ≡ option_map (piece_of section.now) (setting_in' first text.now)) }
    ensures shorter { IfOk result (λ piece. IfSome piece (λ piece. length piece.rest.now ≤ length text.now)) }
{
    let Some(setting) = setting_in(alloc, first, text)? else {
        return Ok(None);
    };
    let rest = setting.rest;
    let directive = directive_of(alloc, section, &setting)?;
    Ok(Some(Piece {
        directive,
        section: None,
        rest,
    }))
}

/// The setting whose name begins with a letter, and goes on here. None if its line is bad.
fn setting_in<'t>(
    alloc: Global,
    first: u8,
    text: &'t [u8],
) -> Result<Option<Setting<'t>>, AllocError>
    ensures setting { IfOk result (λ setting. setting_if setting ≡ setting_in' first text.now) }
    ensures shorter { IfOk result (λ setting.
        IfSome setting (λ setting. length setting.rest.now ≤ length text.now)) }
{
    let mut begun = Vec::new(alloc);
    begun.push(first.to_ascii_lowercase())?;
    let name = name(false, begun, text)?;
    assigned(alloc, name.bytes, without_blanks(false, name.rest))
}

/// A setting whose name and the blanks after it are read.
fn assigned<'t>(
    alloc: Global,
    name: Vec<u8>,
    text: &'t [u8],
) -> Result<Option<Setting<'t>>, AllocError>
    ensures setting { IfOk result (λ setting. setting_if setting ≡ assigned' name.items text.now) }
    ensures shorter { IfOk result (λ setting.
        IfSome setting (λ setting. length setting.rest.now ≤ length text.now)) }
{
    let Some((byte, more)) = text.split_first() else {
        return Ok(Some(Setting {
            name,
            value: None,
            rest: text,
        }));
    };
    if *byte == b'=' {
        let Some(value) = value_in(alloc, more)? else {
            return Ok(None);
        };
        return Ok(Some(Setting {
            name,
            value: Some(value.bytes),
            rest: value.rest,
        }));
    }
    if *byte == b'\n' {
        return Ok(Some(Setting {
            name,
            value: None,
            rest: text,
        }));
    }
    Ok(None)
}

/// What a setting of a section says.
fn directive_of(
    alloc: Global,
    section: &[u8],
    setting: &Setting<'_>,
) -> Result<Option<Directive>, AllocError>
    ensures { IfOk result (λ directive.
        directive_if directive ≡ directive_of' section.now (setting_read setting.now)) }
{
    let Some(value) = &setting.value else {
        return Ok(None);
    };
    let Some(path) = text_of(alloc, value)? else {
        return Ok(None);
    };
    directive_for(alloc, section, &setting.name, path)
}

/// The same with a value that is text.
fn directive_for(
    alloc: Global,
    section: &[u8],
    name: &[u8],
    path: String,
) -> Result<Option<Directive>, AllocError>
    ensures { IfOk result (λ directive.
        directive_if directive ≡ directive_for' section.now name.now (string_bytes path)) }
{
    if name == b"path".as_slice() {
        return inclusion(alloc, section, path);
    }
    if name == b"excludesfile".as_slice() && section == b"core".as_slice() {
        return Ok(Some(Directive::Excludes(path)));
    }
    Ok(None)
}

/// What `path` in a section says.
fn inclusion(alloc: Global, section: &[u8], path: String) -> Result<Option<Directive>, AllocError>
    ensures { IfOk result (λ directive. directive_if directive ≡ inclusion' section.now (string_bytes path)) }
{
    if section == b"include".as_slice() {
        return Ok(Some(Directive::Includes(None, path)));
    }
    let Some(condition) = section.strip_prefix(b"includeif.") else {
        return Ok(None);
    };
    let Some(condition) = text_of(alloc, condition)? else {
        return Ok(None);
    };
    Ok(Some(Directive::Includes(Some(condition), path)))
}

/// A path or a condition, which is text.
fn text_of(alloc: Global, bytes: &[u8]) -> Result<Option<String>, AllocError>
    ensures { IfOk result (λ text. text_if text ≡ text_of' bytes.now) }
{
    match from_utf8(bytes) {
        Ok(text) => Ok(Some(String::from_str(alloc, text)?)),
        Err(_) => Ok(None),
    }
}
