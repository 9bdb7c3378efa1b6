// Braces in the globs of a user.
ghost use Rattle.std.specs.Prelude.{◌≡◌, ◌++◌, [], IfOk, OnOk, option_map};
ghost use Rattle.std.specs.List.{list_all};
ghost use Rattle.cs_listing.specs.Braces.{alternatives as alternatives', is_glob as is_glob', at_beginning, opened, closed, separated, with_text, with_piece, texts_at_end};
ghost use Rattle.cs_listing.specs.Models.{texts_of, texts_in, around_in, expansion_of};
ghost use Rattle.cs_listing.specs.Reading.{ReadsPiece};

use crate::glob::can_match;
use crate::glob_parsing::{first_token, parse_glob};
use crate::rule_lines::without_last;
use std::alloc::{AllocError, Global};

/// The most texts that a glob stands for.
const MOST_TEXTS: usize = 1000;

/// Braces around a place of a glob.
#[derive(Drop)]
struct OpenBraces {
    /// What the glob stands for up to them.
    before: Vec<Vec<u8>>,
    /// What it stands for up to the end of each alternative before the place.
    ended: Vec<Vec<u8>>,
}

/// What a glob stands for up to a place.
#[derive(Drop)]
struct Expansion {
    alloc: Global,
    /// In the alternative of the place.
    texts: Vec<Vec<u8>>,
    /// The braces around the place, the innermost last.
    around: Vec<OpenBraces>,
}

/// The texts that a glob stands for. None if its braces do not match, or stand for too many texts.
pub(crate) fn alternatives(alloc: Global, glob: &[u8]) -> Result<Option<Vec<Vec<u8>>>, AllocError>
    ensures { IfOk result (λ texts. texts_in texts ≡ alternatives' glob.now) }
{
    let mut expansion = Expansion::new(alloc)?;
    let mut rest = glob;
    'pieces: while !rest.is_empty() {
        let (_, len) = first_token(alloc, rest)?;
        if !expansion.read(&rest[..len])? {
            return Ok(None);
        }
        rest = &rest[len..];
    }
    Ok(expansion.finish())
}

impl Expansion {
    /// What a glob stands for up to its beginning.
    fn new(alloc: Global) -> Result<Expansion, AllocError>
        ensures { IfOk result (λ at. expansion_of at ≡ at_beginning) }
    {
        let mut texts = Vec::new(alloc);
        texts.push(Vec::new(alloc))?;
        Ok(Expansion {
            alloc,
            texts,
            around: Vec::new(alloc),
        })
    }

    /// Reads a piece. False if it does not fit.
    fn read(&mut self, piece: &[u8]) -> Result<bool, AllocError>
        ensures { IfOk result
            (λ fits. ReadsPiece (with_piece piece.now (expansion_of self.old)) self.new fits) }
    {
        if piece == b"{".as_slice() {
            self.open()?;
            return Ok(true);
        }
        if piece == b"}".as_slice() {
            return self.close();
        }
        if piece == b",".as_slice() {
            return self.separate();
        }
        push_to_each(&mut self.texts, piece)?;
        Ok(true)
    }

    fn open(&mut self) -> Result<(), AllocError>
        ensures { OnOk result (expansion_of self.new ≡ opened (expansion_of self.old)) }
    {
        let before = copies(self.alloc, &self.texts)?;
        let ended = Vec::new(self.alloc);
        self.around.push(OpenBraces { before, ended })?;
        Ok(())
    }

    /// Goes on after each alternative of the innermost braces. False if there are none, or if they
    /// have too many.
    fn close(&mut self) -> Result<bool, AllocError>
        ensures { IfOk result (λ fits. ReadsPiece
            (closed (texts_of self.old.texts.items) (around_in self.old)) self.new fits) }
    {
        let Some(mut inner) = self.around.pop() else {
            return Ok(false);
        };
        inner.ended.append(&mut self.texts)?;
        self.texts = inner.ended;
        Ok(self.texts.len() <= MOST_TEXTS)
    }

    /// Begins another alternative of the innermost braces. Without any, a comma is text.
    fn separate(&mut self) -> Result<bool, AllocError>
        ensures { IfOk result (λ fits. ReadsPiece
            (separated (texts_of self.old.texts.items) (around_in self.old)) self.new fits) }
    {
        let Some(mut inner) = self.around.pop() else {
            push_to_each(&mut self.texts, b",")?;
            return Ok(true);
        };
        inner.ended.append(&mut self.texts)?;
        self.texts = copies(self.alloc, &inner.before)?;
        let fits = inner.ended.len() <= MOST_TEXTS;
        self.around.push(inner)?;
        Ok(fits)
    }

    /// What the whole glob stands for. None inside of braces.
    fn finish(self) -> Option<Vec<Vec<u8>>>
        ensures { texts_in result ≡ texts_at_end (expansion_of self) }
    {
        if self.around.is_empty() {
            Some(self.texts)
        } else {
            None
        }
    }
}

/// Adds the text to each of these.
fn push_to_each(texts: &mut Vec<Vec<u8>>, text: &[u8]) -> Result<(), AllocError>
    ensures { OnOk result (texts_of texts.new.items ≡ with_text text.now (texts_of texts.old.items)) }
{
    for one in texts.iter_mut() {
        one.extend_from_slice(text)?;
    }
    Ok(())
}

fn copies(alloc: Global, texts: &[Vec<u8>]) -> Result<Vec<Vec<u8>>, AllocError>
    ensures { IfOk result (λ copied. texts_of copied.items ≡ texts_of texts.now) }
{
    let mut copied = Vec::new(alloc);
    for text in texts {
        let mut copy = Vec::new(alloc);
        copy.extend_from_slice(text)?;
        copied.push(copy)?;
    }
    Ok(copied)
}

/// Whether each of the texts is that of a glob.
pub(crate) fn are_globs(alloc: Global, texts: &[Vec<u8>]) -> Result<bool, AllocError>
    ensures { IfOk result (λ are. are ≡ list_all is_glob' (texts_of texts.now)) }
{
    for text in texts {
        if !is_glob(alloc, text)? {
            return Ok(false);
        }
    }
    Ok(true)
}

/// Whether a text is that of a glob that can match something.
fn is_glob(alloc: Global, text: &[u8]) -> Result<bool, AllocError>
    ensures { IfOk result (λ is. is ≡ is_glob' text.now) }
{
    let glob = parse_glob(alloc, without_last(b'/', text))?;
    Ok(can_match(&glob))
}
