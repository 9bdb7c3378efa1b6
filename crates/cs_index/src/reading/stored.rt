// An index in a store. It is tested in pieces when it is opened, and read by position.
ghost use Rattle.std.specs.Prelude.{◌≡◌, ◌≤◌, ◌<◌, ◌^◌, length, Ok, IfOk, IfSome, List, ℕ};
ghost use Rattle.cs_index.specs.Cited.{KeepsStore, AreBytes, Parts, split_of, AreAscendingOffsets, DecodesOrFails, StandsIn, sections_at, OpensAs, ReadsNames};

use crate::fault::IndexFault;
use crate::reading::name_reader::NameReader;
use crate::reading::name_table::Texts;
use crate::reading::section_offsets::{SectionOffsets, find_offsets};
use crate::reading::stored_sections::{has_stored_entries, read_paths, test_names};
use cs_tree::{IoFault, Store};
use std::alloc::Global;
use std::marker::Model;

/// An index in a store. Its paths are in memory; its names, its tables and its posting lists are
/// not.
#[derive(Drop)]
pub struct StoredIndex {
    pub(crate) paths: Vec<u8>,
    pub(crate) name_count: u32,
    pub(crate) starts: SectionOffsets,
}

impl Model for StoredIndex {
    ghost use Rattle.cs_index.specs.Stored.{StoredParts};

    ghost Value = { StoredParts };

    ghost use Rattle.std.specs.Prelude.{◌≡◌, ◌<◌, ◌^◌, ◌||◌, ◌∷◌, [], true};
    ghost use Rattle.cs_index.specs.Opening.{texts_of, is_names_section};
    ghost use Rattle.cs_index.specs.AscendingIds.{max_ids};
    ghost use Rattle.cs_index.specs.StoredOpening.{AreAscendingOffsets};

    ghost view = { λ s. record {
      paths = texts_of s.paths.items;
      name_count = s.name_count;
      starts = s.starts;
    } };

    ghost invariant = { λ s. (is_names_section s.paths.items ≡ true)
        × AreAscendingOffsets s.starts
        × (s.name_count < max_ids) };
}

impl StoredIndex {
    /// Opens the index in a store, by the tests of `Index::open` in the same order. Reads no
    /// posting list.
    pub fn open<S: Store>(
        alloc: Global,
        store: &mut S,
    ) -> Result<Result<StoredIndex, IndexFault>, IoFault>
        ensures opens { IfSome (S.model store.old) (λ bytes. IfOk result (OpensAs bytes)) }
        ensures decodes { IfSome (S.model store.old) (λ bytes. IfOk result (DecodesOrFails bytes)) }
        ensures store { KeepsStore S.model S.size S.failed store.old store.new result }
    {
        match find_offsets(alloc, store)? {
            Ok(starts) => read_stored(alloc, store, starts),
            Err(fault) => Ok(Err(fault)),
        }
    }

    /// The paths, in the order of the index.
    pub fn paths(&self) -> Texts<'_>
        ensures { result ≡ self.now.paths }
    {
        Texts::new(&self.paths)
    }

    /// The number of its names.
    pub fn name_count(&self) -> u32
        ensures { result ≡ self.now.name_count }
    {
        self.name_count
    }

    /// A reader of its names by their ids.
    pub fn name_reader(&self, alloc: Global) -> NameReader
        ensures { (bytes : List ℕ) (parts : Parts) → StandsIn bytes self.now parts →
            ReadsNames bytes parts result }
    {
        NameReader::new(alloc, self.starts, self.name_count)
    }
}

/// Tests all sections except the posting lists, in the order of the variants of `IndexFault`, and
/// keeps the paths.
fn read_stored<S: Store>(
    alloc: Global,
    store: &mut S,
    starts: SectionOffsets,
) -> Result<Result<StoredIndex, IndexFault>, IoFault>
    requires { AreAscendingOffsets starts }
    ensures opens { IfSome (S.model store.old) (λ bytes. AreBytes bytes →
        starts.trailer ≤ length bytes → split_of bytes ≡ Ok (sections_at bytes starts) →
        IfOk result (OpensAs bytes)) }
    ensures store { KeepsStore S.model S.size S.failed store.old store.new result }
{
    let Some(paths) = read_paths(alloc, store, &starts)? else {
        return Ok(Err(IndexFault::BadPaths));
    };
    let Some(names) = test_names(alloc, store, &starts)? else {
        return Ok(Err(IndexFault::BadNames));
    };
    if !names.have_offsets {
        return Ok(Err(IndexFault::BadNameIndex));
    }
    if !has_stored_entries(alloc, store, &starts)? {
        return Ok(Err(IndexFault::BadListIndex));
    }
    Ok(Ok(StoredIndex {
        paths,
        name_count: names.count as u32,
        starts,
    }))
}
