// The posting lists of an index in a store, read one after another.
ghost use Rattle.std.specs.Prelude.{◌≡◌, ◌<◌, ◌^◌, ◌+◌, ℕ, List, Some, length, option_map, slice_get, OnOk};
ghost use Rattle.cs_index.specs.Cited.{KeepsStore, max_ids, ListEntry, AreBytesOf, HasList, known_ids, list_in, Parts, entry_read, TablesIn};

use crate::reading::entries::Entry;
use crate::reading::postings::Postings;
use crate::reading::stored_list::{TRIGRAM_LEN, VARINT_LEN, is_list_of};
use crate::reading::tables::Tables;
use crate::reading::window::Window;
use cs_tree::{IoFault, Store};
use std::alloc::Global;
use std::marker::Model;

/// Reads the posting lists of an index in a store. It has one list as a whole, and bytes that were
/// read after it. Where the lists are read in their order, each byte is read once.
#[derive(Drop)]
pub struct ListReader {
    window: Window,
}

impl Model for ListReader {
    ghost use Rattle.cs_index.specs.ListReading.{BytesAt};

    ghost Value = { BytesAt };

    ghost use Rattle.std.specs.Prelude.{◌+◌, ◌<◌, ◌^◌, length};

    ghost view = { λ s. record {
      at = s.window.start;
      bytes = s.window.piece.items;
    } };

    ghost invariant = { λ s. s.window.start + length s.window.piece.items < 2 ^ 63 };
}

impl ListReader {
    /// A reader without bytes.
    pub fn new(alloc: Global) -> ListReader
        ensures { (bytes : List ℕ) → AreBytesOf bytes result }
    {
        ListReader {
            window: Window::new(alloc, 0),
        }
    }

    /// Reads until the whole list at a position of the list index is in memory. A read asks for at
    /// least `least` bytes, unless the lists end first.
    pub fn read<S: Store>(
        &mut self,
        store: &mut S,
        tables: &Tables<'_>,
        position: u32,
        least: usize,
    ) -> Result<(), IoFault>
        ensures list { (bytes : List ℕ) → S.model store.old ≡ Some bytes → AreBytesOf bytes self.old →
            (parts : Parts) → TablesIn bytes tables.now parts →
            OnOk result (HasList tables.now self.new parts position) }
        ensures bytes { (bytes : List ℕ) → S.model store.old ≡ Some bytes → AreBytesOf bytes self.old →
            OnOk result (AreBytesOf bytes self.new) }
        ensures store { KeepsStore S.model S.size S.failed store.old store.new result }
    {
        let Some(entry) = tables.entry_at(position) else {
            return Ok(());
        };
        let starts = tables.starts();
        let stop = starts.name_index;
        let at = starts.postings + entry.offset as usize;
        let most = TRIGRAM_LEN + VARINT_LEN * (entry.count as usize + 1);
        let len = most.min(stop - at);
        // The bytes of another index may go on past the lists of this one.
        self.window.stop_at(at, stop);
        self.window
            .reach(store, at, len, len.max(least).min(stop - at))
    }

    /// The trigram and the ids of the list at a position of the list index, which was read last.
    pub fn list_at(&self, tables: &Tables<'_>, position: u32) -> Option<(u32, Postings<'_>)>
        ensures { result ≡ option_map (λ (e : ListEntry). (e.trigram, known_ids tables.now self.now e))
            (slice_get tables.now.entries position) }
    {
        let entry = tables.entry_at(position)?;
        let at = tables.starts().postings + entry.offset as usize;
        let passed = at
            .saturating_sub(self.window.start)
            .min(self.window.piece.len());
        let bytes = &self.window.piece[passed..];
        Some((
            entry.trigram,
            postings_of(bytes, &entry, tables.name_count()),
        ))
    }
}

/// The ids of the list of an entry, which the bytes begin with.
pub(crate) fn postings_of<'a>(bytes: &'a [u8], entry: &Entry, name_count: u32) -> Postings<'a>
    requires { name_count < max_ids }
    ensures { result ≡ list_in bytes.now name_count (entry_read entry.now) }
{
    if !is_list_of(bytes, entry.trigram) {
        return Postings::damage();
    }
    Postings::new(&bytes[TRIGRAM_LEN..], entry.count, name_count)
}
