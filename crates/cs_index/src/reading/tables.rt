// The tables of an index, which are in memory. Its posting lists may be in a store.
ghost use Rattle.std.specs.Prelude.{◌≡◌, ◌≤◌, ◌<◌, ◌+◌, ◌-◌, ℕ, List, Ok, length, option_map, slice_get, IfSome, IsOk};
ghost use Rattle.cs_index.specs.Cited.{max_ids, ListEntry, Parts, entry_of, opening, entry_read, AreAscendingOffsets, AreValidTables, TablesIn, lists_room, AreValidParts};

use crate::reading::entries::{ENTRY_LEN, Entry, entry_with, nth_entry};
use crate::reading::name_table::{NameTable, Texts};
use crate::reading::section_offsets::{SectionOffsets, offsets_in_bytes};
use std::marker::Model;

/// The paths, the names and both tables of an index, borrowed from an `Index` or an `OldIndex`.
#[derive(Drop)]
pub struct Tables<'a> {
    pub(crate) paths: &'a [u8],
    pub(crate) names: &'a [u8],
    pub(crate) name_index: &'a [u8],
    pub(crate) list_index: &'a [u8],
    pub(crate) starts: SectionOffsets,
}

impl<'a> Model for Tables<'a> {
    ghost use Rattle.cs_index.specs.Tables.{TableParts};

    ghost Value = { TableParts };

    ghost use Rattle.std.specs.Prelude.{◌-◌};
    ghost use Rattle.cs_index.specs.Tables.{tables_of};
    ghost use Rattle.cs_index.specs.ValidSections.{AreBoundedSections};
    ghost use Rattle.cs_index.specs.StoredOpening.{AreAscendingOffsets};

    ghost view = { λ s. tables_of s.paths.now s.names.now s.list_index.now s.starts };

    ghost invariant = { λ s. AreAscendingOffsets s.starts
        × AreBoundedSections s.paths.now s.names.now s.name_index.now s.list_index.now
        (s.starts.name_index - s.starts.postings) };
}

impl<'a> Tables<'a> {
    /// The tables of bytes that have opened, as those of an `Index`, in constant time: only the
    /// magics and the trailer are read again.
    pub fn of(bytes: &'a [u8]) -> Tables<'a>
        requires opened { IsOk (opening bytes.now) }
        ensures { (parts : Parts) → opening bytes.now ≡ Ok parts → TablesIn bytes.now result parts }
    {
        match offsets_in_bytes(bytes) {
            Ok(starts) => Tables {
                paths: &bytes[starts.paths..starts.names],
                names: &bytes[starts.names..starts.postings],
                name_index: &bytes[starts.name_index..starts.list_index],
                list_index: &bytes[starts.list_index..starts.trailer],
                starts,
            },
            // The bytes have opened.
            Err(_) => unreachable!(),
        }
    }

    /// The paths, in the order of the index.
    pub fn paths(&self) -> Texts<'a>
        ensures { result ≡ self.now.paths }
    {
        Texts::new(self.paths)
    }

    /// The names, in the order of their ids.
    pub fn names(&self) -> Texts<'a>
        ensures { result ≡ self.now.names }
    {
        Texts::new(self.names)
    }

    /// The names by their ids.
    pub fn name_table(&self) -> NameTable<'a>
        ensures { result ≡ self.now.names }
    {
        NameTable::new(self.names, self.name_index)
    }

    /// The number of posting lists.
    pub fn lists(&self) -> u32
        ensures { result ≡ length self.now.entries }
    {
        (self.list_index.len() / ENTRY_LEN) as u32
    }

    /// The trigram of the list at a position of the list index.
    pub fn trigram_at(&self, position: u32) -> Option<u32>
        ensures { result ≡ option_map (λ (e : ListEntry). e.trigram) (slice_get self.now.entries position) }
    {
        let entry = self.entry_at(position)?;
        Some(entry.trigram)
    }

    /// States the invariant, for callers that use the names and the lists.
    pub fn are_valid(&self)
        ensures tables { AreValidTables self.now }
        ensures parts { (bytes : List ℕ) (parts : Parts) →
            TablesIn bytes self.now parts → AreValidParts parts }
    {
        let _paths = self.paths;
    }

    /// The entry at a position of the list index.
    pub(crate) fn entry_at(&self, position: u32) -> Option<Entry>
        ensures entry { option_map entry_read result ≡ slice_get self.now.entries position }
        ensures fits { IfSome result (λ e. e.offset + 4 ≤ lists_room self.now) }
    {
        self.are_valid();
        nth_entry(self.list_index, position)
    }

    /// The entry of a trigram.
    pub(crate) fn find(&self, trigram: u32) -> Option<Entry>
        ensures { option_map entry_read result ≡ entry_of self.now.entries trigram }
    {
        self.are_valid();
        entry_with(self.list_index, trigram)
    }

    /// The number of names.
    pub(crate) fn name_count(&self) -> u32
        ensures count { result ≡ length self.now.names }
        ensures bound { result < max_ids }
    {
        self.are_valid();
        self.name_table().len()
    }

    /// The offset of each section.
    pub(crate) fn starts(&self) -> SectionOffsets
        ensures starts { result ≡ self.now.starts }
        ensures order { AreAscendingOffsets result }
    {
        self.starts
    }
}
