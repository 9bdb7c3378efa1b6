// The old index of a merge: an index in a store, whose tables are in memory.
ghost use Rattle.std.specs.Prelude.{◌≡◌, ◌≤◌, ◌<◌, IfOk, IfSome};
ghost use Rattle.cs_index.specs.Cited.{KeepsStore, OpensAsTables};

use crate::fault::IndexFault;
use crate::reading::index::test_sections;
use crate::reading::section_offsets::{SectionOffsets, find_offsets};
use crate::reading::tables::Tables;
use cs_tree::{IoFault, Store, read_part};
use std::alloc::Global;
use std::marker::Model;

/// An index in a store. All sections are in memory except the posting lists.
#[derive(Drop)]
pub struct OldIndex {
    paths: Vec<u8>,
    names: Vec<u8>,
    name_index: Vec<u8>,
    list_index: Vec<u8>,
    starts: SectionOffsets,
}

impl Model for OldIndex {
    ghost use Rattle.cs_index.specs.Tables.{TableParts};

    ghost Value = { TableParts };

    ghost use Rattle.std.specs.Prelude.{◌-◌};
    ghost use Rattle.cs_index.specs.Tables.{tables_of};
    ghost use Rattle.cs_index.specs.ValidSections.{AreBoundedSections};
    ghost use Rattle.cs_index.specs.StoredOpening.{AreAscendingOffsets};

    ghost view = { λ s. tables_of s.paths.items s.names.items s.list_index.items s.starts };

    ghost invariant = { λ s. AreAscendingOffsets s.starts
        × AreBoundedSections s.paths.items s.names.items s.name_index.items s.list_index.items
        (s.starts.name_index - s.starts.postings) };
}

impl OldIndex {
    /// Opens the index in a store, by the tests of `Index::open` in the same order. Reads no
    /// posting list.
    pub fn open<S: Store>(
        alloc: Global,
        store: &mut S,
    ) -> Result<Result<OldIndex, IndexFault>, IoFault>
        ensures opens { IfSome (S.model store.old) (λ bytes. IfOk result (OpensAsTables bytes)) }
        ensures store { KeepsStore S.model S.size S.failed store.old store.new result }
    {
        let starts = match find_offsets(alloc, store)? {
            Ok(starts) => starts,
            Err(fault) => return Ok(Err(fault)),
        };
        let paths = read_part(alloc, store, starts.paths, starts.names - starts.paths)?;
        let names = read_part(alloc, store, starts.names, starts.postings - starts.names)?;
        let len = starts.list_index - starts.name_index;
        let name_index = read_part(alloc, store, starts.name_index, len)?;
        let len = starts.trailer - starts.list_index;
        let list_index = read_part(alloc, store, starts.list_index, len)?;
        let room = starts.name_index - starts.postings;
        let answer = match test_sections(&paths, &names, &name_index, &list_index, room) {
            Ok(()) => Ok(OldIndex {
                paths,
                names,
                name_index,
                list_index,
                starts,
            }),
            Err(fault) => Err(fault),
        };
        Ok(answer)
    }

    /// The paths, the names and both tables.
    pub fn tables(&self) -> Tables<'_>
        ensures { result ≡ self.now }
    {
        Tables {
            paths: &self.paths,
            names: &self.names,
            name_index: &self.name_index,
            list_index: &self.list_index,
            starts: self.starts,
        }
    }
}
