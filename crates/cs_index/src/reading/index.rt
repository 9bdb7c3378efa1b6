// An index that is read in place.
ghost use Rattle.std.specs.Prelude.{◌≡◌, ◌==◌, ◌<◌, ℕ, List, Ok, Err, IsOk, IfOk, IfErr, length, slice_get, option_map};
ghost use Rattle.cs_index.specs.Cited.{entry_of, are_ascending, AreValidSections, ListEntry, opening, read_sections, DecodesAs, Fails, ids_read, AreValidParts, entry_read, with_lists, IsOrderOf};
ghost use Rattle.std.specs.Option.{option_copied, option_map_or};

use crate::fault::IndexFault;
use crate::reading::bytes::{is_closed, names_run};
use crate::reading::entries::{Entry, has_entries, has_offsets};
use crate::reading::list_reader::postings_of;
use crate::reading::name_table::{NameTable, Texts};
use crate::reading::postings::Postings;
use crate::reading::section_offsets::offsets_in_bytes;
use crate::reading::tables::Tables;
use std::alloc::{AllocError, Global};
use std::marker::Model;

/// An index that borrows its bytes. No method allocates, except those with an allocator.
#[derive(Drop)]
pub struct Index<'a> {
    pub(crate) bytes: &'a [u8],
    pub(crate) tables: Tables<'a>,
}

impl<'a> Model for Index<'a> {
    ghost use Rattle.cs_index.specs.OpenedParts.{Parts};

    ghost Value = { Parts };

    ghost use Rattle.cs_index.specs.Tables.{TablesIn, parts_with};

    ghost view = { λ s. parts_with s.bytes.now s.tables };

    ghost invariant = { λ s. TablesIn s.bytes.now s.tables (parts_with s.bytes.now s.tables) };
}

impl<'a> Index<'a> {
    /// Opens the bytes of an index. The posting lists are tested when they are read.
    pub fn open(bytes: &'a [u8]) -> Result<Index<'a>, IndexFault>
        ensures opens { result ≡ opening bytes.now }
        ensures decodes { IfOk result (DecodesAs bytes.now) }
        ensures fails { IfErr result (Fails bytes.now) }
    {
        let starts = match offsets_in_bytes(bytes) {
            Ok(starts) => starts,
            Err(fault) => return Err(fault),
        };
        let room = starts.name_index - starts.postings;
        match test_sections(
            &bytes[starts.paths..starts.names],
            &bytes[starts.names..starts.postings],
            &bytes[starts.name_index..starts.list_index],
            &bytes[starts.list_index..starts.trailer],
            room,
        ) {
            Ok(()) => Index::reopen(bytes),
            Err(fault) => Err(fault),
        }
    }

    /// Opens bytes that have opened before, in constant time: only the magics and the trailer are
    /// read again.
    pub fn reopen(bytes: &'a [u8]) -> Result<Index<'a>, IndexFault>
        requires opened { IsOk (opening bytes.now) }
        ensures { result ≡ opening bytes.now }
    {
        Ok(Index {
            bytes,
            tables: Tables::of(bytes),
        })
    }

    /// The bytes that were opened.
    pub fn bytes(&self) -> &'a [u8]
        ensures { opening result.now ≡ Ok self.now }
    {
        self.bytes
    }

    /// States the invariant of every opened index, for callers that use its names and lists.
    pub fn are_valid(&self)
        ensures { AreValidParts self.now }
    {
        self.tables.are_valid();
    }

    /// The number of names.
    pub fn len(&self) -> u32
        ensures { result ≡ length self.now.names }
    {
        self.tables.name_count()
    }

    /// Whether there are no names.
    pub fn is_empty(&self) -> bool
        ensures { result ≡ (length self.now.names == 0) }
    {
        self.len() == 0
    }

    /// The path at a position.
    pub fn path(&self, position: u32) -> Option<&'a str>
        ensures { option_copied result ≡ slice_get self.now.paths position }
    {
        self.paths().nth(position as usize)
    }

    /// The paths, in the order of the index.
    pub fn paths(&self) -> Texts<'a>
        ensures { result ≡ self.now.paths }
    {
        self.tables.paths()
    }

    /// The name with an id.
    pub fn name(&self, id: u32) -> Option<&'a str>
        ensures { option_copied result ≡ slice_get self.now.names id }
    {
        self.name_table().name(id)
    }

    /// The names by their ids.
    pub fn name_table(&self) -> NameTable<'a>
        ensures { result ≡ self.now.names }
    {
        self.tables.name_table()
    }

    /// The names, in the order of their ids.
    pub fn names(&self) -> Texts<'a>
        ensures { result ≡ self.now.names }
    {
        self.tables.names()
    }

    /// Whether the names are strictly ascending. The clause `parts` is that of `are_valid`.
    pub fn in_order(&self) -> bool
        ensures order { result ≡ are_ascending self.now.names }
        ensures parts { AreValidParts self.now }
    {
        self.are_valid();
        self.name_table().in_order()
    }

    /// The ids in ascending order of their names, or `None` if two names are equal.
    pub fn order(&self, alloc: Global) -> Result<Option<Vec<u32>>, AllocError>
        ensures { IfOk result (λ order.
            IsOrderOf self.now.names (option_map (λ ids. ids.items) order)) }
    {
        self.name_table().order(alloc)
    }

    /// The number of posting lists.
    pub fn lists(&self) -> u32
        ensures { result ≡ length self.now.entries }
    {
        self.tables.lists()
    }

    /// The trigram and the ids of the list at a position of the list index.
    pub fn list_at(&self, position: u32) -> Option<(u32, Postings<'a>)>
        ensures { result ≡
            option_map (λ (e : ListEntry). (e.trigram, ids_read self.now e))
            (slice_get self.now.entries position) }
    {
        let entry = self.tables.entry_at(position)?;
        Some((entry.trigram, self.list_of(&entry)))
    }

    /// The ids of a trigram, if it has an entry.
    pub fn postings(&self, trigram: u32) -> Option<Postings<'a>>
        ensures { result ≡ option_map (ids_read self.now) (entry_of self.now.entries trigram) }
    {
        let entry = self.tables.find(trigram)?;
        Some(self.list_of(&entry))
    }

    /// The number of ids of a trigram, as its entry says; 0 if it has no entry.
    pub fn count(&self, trigram: u32) -> u32
        ensures { result ≡
            option_map_or (λ (e : ListEntry). e.count) (entry_of self.now.entries trigram) 0 }
    {
        match self.tables.find(trigram) {
            Some(entry) => entry.count,
            None => 0,
        }
    }

    /// The ids of the list of an entry.
    fn list_of(&self, entry: &Entry) -> Postings<'a>
        ensures { result ≡ ids_read self.now (entry_read entry.now) }
    {
        let starts = self.tables.starts();
        let postings = &self.bytes[starts.postings..starts.name_index];
        let offset = entry.offset as usize;
        if offset > postings.len() {
            return Postings::damage();
        }
        postings_of(&postings[offset..], entry, self.tables.name_count())
    }
}

/// Tests the sections, in the order of the variants of `IndexFault`. The posting lists are not
/// read; `room` is their length in bytes.
pub(crate) fn test_sections(
    paths: &[u8],
    names: &[u8],
    name_index: &[u8],
    list_index: &[u8],
    room: usize,
) -> Result<(), IndexFault>
    ensures read { IfOk result
        (λ _. AreValidSections paths.now names.now name_index.now list_index.now room) }
    ensures fault { IfErr result (λ fault. (postings : List ℕ) → length postings ≡ room →
        read_sections (with_lists paths.now names.now name_index.now list_index.now postings)
        ≡ Err fault) }
{
    if !is_closed(paths) {
        return Err(IndexFault::BadPaths);
    }
    let Some(run) = names_run(names) else {
        return Err(IndexFault::BadNames);
    };
    if !has_offsets(name_index, &names[..run.len], 0, run.count) {
        return Err(IndexFault::BadNameIndex);
    }
    if !has_entries(list_index, room) {
        return Err(IndexFault::BadListIndex);
    }
    Ok(())
}
