// The names of an index by their ids, in order too, and an iterator over the strings of a section.
ghost use Rattle.std.specs.Prelude.{◌≡◌, ◌++◌, length, slice_get, string_bytes, IfOk, OnOk, List, ℕ, option_map, map, ◌||◌, ◌∷◌, [], true};
ghost use Rattle.std.specs.Option.{option_copied};
ghost use Rattle.std.specs.Iterator.{YieldsFirstRef, item_count};
ghost use Rattle.cs_index.specs.Cited.{are_ascending, texts_of, is_names_section, IsNameTable, IsOrderOf, with_ids, name_in, id_in, borrowed_names};

use crate::reading::bytes::{ascend, first_text, read_number};
use std::alloc::{AllocError, Global};
use std::marker::Model;

/// The names of an index, found by their ids.
#[derive(Drop)]
pub struct NameTable<'a> {
    names: &'a [u8],
    offsets: &'a [u8],
}

impl<'a> Model for NameTable<'a> {
    ghost use Rattle.std.specs.Prelude.{ℕ, List};

    ghost Value = { List (List ℕ) };

    ghost use Rattle.cs_index.specs.Opening.{texts_of};
    ghost use Rattle.cs_index.specs.ValidSections.{IsNameTable};

    ghost view = { λ s. texts_of s.names.now };

    ghost invariant = { λ s. IsNameTable s.names.now s.offsets.now };
}

impl<'a> NameTable<'a> {
    /// The names of a section, with its name index.
    pub(crate) fn new(names: &'a [u8], offsets: &'a [u8]) -> NameTable<'a>
        requires { IsNameTable names.now offsets.now }
        ensures { result ≡ texts_of names.now }
    {
        NameTable { names, offsets }
    }

    /// The names, in the order of their ids.
    pub(crate) fn names(&self) -> Texts<'a>
        ensures { result ≡ self.now }
    {
        Texts::new(self.names)
    }

    /// Whether the names are strictly ascending.
    pub fn in_order(&self) -> bool
        ensures { result ≡ are_ascending self.now }
    {
        ascend(self.names)
    }

    /// The number of names.
    pub fn len(&self) -> u32
        ensures { result ≡ length self.now }
    {
        (self.offsets.len() / 4 - 1) as u32
    }

    /// The name with an id.
    pub fn name(&self, id: u32) -> Option<&'a str>
        ensures { option_copied result ≡ slice_get self.now id }
    {
        if id >= self.len() {
            return None;
        }
        let start = read_number(self.offsets, 4 * id as usize) as usize;
        Texts::new(&self.names[start..]).next()
    }
}

impl<'a> NameTable<'a> {
    /// The ids in ascending order of their names, or `None` if two names are equal.
    pub fn order(&self, alloc: Global) -> Result<Option<Vec<u32>>, AllocError>
        ensures { IfOk result (λ order. IsOrderOf self.now (option_map (λ ids. ids.items) order)) }
    {
        let mut named = self.names_with_ids(alloc)?;
        named.sort_unstable_by(|a, b| a.0.cmp(b.0));
        if !names_ascend(&named) {
            return Ok(None);
        }
        let ids = ids_in_order(alloc, &named)?;
        Ok(Some(ids))
    }

    /// The names with their ids.
    fn names_with_ids(&self, alloc: Global) -> Result<Vec<(&'a str, u32)>, AllocError>
        ensures { IfOk result (λ named. borrowed_names named.items ≡ with_ids self.now) }
    {
        let count = self.len();
        let mut named = Vec::with_capacity(alloc, count as usize)?;
        'names: for name in self.names() {
            let id = named.len() as u32;
            named.push((name, id))?;
        }
        Ok(named)
    }
}

/// The names of an index, by id, or its paths; each is borrowed from the bytes of the index.
#[derive(Drop)]
pub struct Texts<'a> {
    section: &'a [u8],
}

impl<'a> Model for Texts<'a> {
    ghost use Rattle.std.specs.Prelude.{ℕ, List};

    ghost Value = { List (List ℕ) };

    ghost use Rattle.std.specs.Prelude.{◌≡◌, ◌||◌, ◌∷◌, [], true};
    ghost use Rattle.cs_index.specs.Opening.{is_names_section, texts_of};

    ghost view = { λ s. texts_of s.section.now };

    ghost invariant = { λ s. is_names_section s.section.now ≡ true };
}

impl<'a> Texts<'a> {
    /// The strings of a section.
    pub(crate) fn new(section: &'a [u8]) -> Texts<'a>
        requires { is_names_section section.now ≡ true }
        ensures { result ≡ texts_of section.now }
    {
        Texts { section }
    }

    /// Appends a copy of each string.
    pub fn append_to(self, alloc: Global, copies: &mut Vec<String>) -> Result<(), AllocError>
        ensures { OnOk result (map string_bytes copies.new.items ≡
            map string_bytes copies.old.items ++ self.entry) }
    {
        'texts: for text in self {
            copies.push(String::from_str(alloc, text)?)?;
        }
        Ok(())
    }
}

impl<'a> Iterator for Texts<'a> {
    type Item = &'a str;

    ghost next_gives = { YieldsFirstRef (λ texts. texts) };

    ghost remaining = { item_count (λ texts. texts) };

    fn next(&mut self) -> Option<&'a str> {
        let (text, rest) = first_text(self.section)?;
        self.section = rest;
        std::str::from_utf8(text).ok()
    }
}

/// Whether the names are strictly ascending.
fn names_ascend(named: &[(&str, u32)]) -> bool
    ensures { result ≡ are_ascending (map name_in (borrowed_names named.now)) }
{
    for at in 1..named.len() {
        if named[at - 1].0.cmp(named[at].0).is_ge() {
            return false;
        }
    }
    true
}

/// The ids of the pairs.
fn ids_in_order(alloc: Global, named: &[(&str, u32)]) -> Result<Vec<u32>, AllocError>
    ensures { IfOk result (λ ids. ids.items ≡ map id_in (borrowed_names named.now)) }
{
    let mut ids = Vec::with_capacity(alloc, named.len())?;
    for (_, id) in named {
        ids.push(*id)?;
    }
    Ok(ids)
}
