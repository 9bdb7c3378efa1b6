// Which names the paths of an index cover, and where the merge is the newer index as a whole.
ghost use Rattle.std.specs.Prelude.{◌≡◌, ℕ, List, true, Some, IfOk, ◌∷◌, [], is_some, IfSome, map, string_bytes};
ghost use Rattle.std.specs.List.{list_all, list_any};
ghost use Rattle.std.specs.Option.{option_map_or};
ghost use Rattle.cs_merge.specs.Cited.{KeepsStore, is_covered, Parts, are_whole, are_covered, Ids, TablesIn, AreRead, IsStored, are_ascending, are_whole_from, AreAmong};
ghost use Rattle.cs_tree.specs.Cover.{covers as covers', is_covered as is_covered'};
ghost use Rattle.cs_tree.specs.PathSet as set;
ghost use Rattle.cs_merge.specs.Replacing.{is_replaced as is_replaced'};

use cs_index::{Index, ListReader, Postings, Tables, Texts};
use cs_tree::{IoFault, Store, covers, is_covered};
use std::alloc::{AllocError, Global};
use std::marker::Model;

/// The paths of an index, sorted and without duplicates, so that a cover is found by binary search.
#[derive(Drop)]
pub(crate) struct Cover<'a> {
    paths: Vec<&'a str>,
}

impl<'a> Model for Cover<'a> {
    ghost use Rattle.cs_tree.specs.NamesAscending.{are_ascending};
    ghost use Rattle.cs_tree.specs.PathParts.{texts};
    ghost use Rattle.std.specs.Prelude.{◌≡◌, true, ℕ, List};

    ghost Value = { List (List ℕ) };

    ghost view = { λ s. texts s.paths.items };

    ghost invariant = { λ s. are_ascending (texts s.paths.items) ≡ true };
}

impl<'a> Cover<'a> {
    /// Sorts the paths of an index.
    pub(crate) fn new(alloc: Global, texts: Texts<'a>) -> Result<Cover<'a>, AllocError>
        ensures { IfOk result (λ cover. set.from_list cover ≡ set.from_list texts.entry) }
    {
        let mut paths = Vec::new(alloc);
        'paths: for path in texts {
            paths.push(path)?;
        }
        paths.sort_unstable();
        paths.dedup();
        Ok(Cover { paths })
    }

    /// Whether some path covers the name.
    pub(crate) fn covers(&self, name: &str) -> bool
        ensures { result ≡ is_covered' (set.from_list self.now) name.now }
    {
        is_covered(&self.paths, name)
    }
}

/// The least number of bytes that a read of old lists asks for.
pub(crate) const READ_LEN: usize = 1 << 18;

/// Whether the newer paths, which ascend, cover all paths and names of the old index. Then the
/// merge is the newer index, as `laws::what_is_covered_is_replaced` says, unless a list is damaged:
/// see `is_whole_stored`.
pub fn is_replaced(old: &Tables<'_>, newer: &[String]) -> bool
    requires { are_ascending (map string_bytes newer.now) ≡ true }
    ensures { (bytes : List ℕ) (parts : Parts) → TablesIn bytes old.now parts →
        result ≡ is_replaced' (set.from_list (map string_bytes newer.now)) parts }
{
    covers_all(newer, old.paths()) && covers_all(newer, old.names())
}

/// Whether no posting list of an index in a store is damaged. Each list is read to its end; no id
/// is kept.
pub fn is_whole_stored<S: Store>(
    alloc: Global,
    store: &mut S,
    tables: &Tables<'_>,
) -> Result<bool, IoFault>
    ensures whole { (bytes : List ℕ) → S.model store.old ≡ Some bytes → (parts : Parts) →
        TablesIn bytes tables.now parts → IfOk result (λ whole. whole ≡ are_whole parts) }
    ensures store { KeepsStore S.model S.size S.failed store.old store.new result }
{
    let mut reader = ListReader::new(alloc);
    is_whole_from(store, tables, &mut reader, 0)
}

/// Whether the lists of a store from a position on are whole.
pub(crate) fn is_whole_from<S: Store>(
    store: &mut S,
    tables: &Tables<'_>,
    reader: &mut ListReader,
    start: u32,
) -> Result<bool, IoFault>
    ensures whole { AreRead (S.model store.old) reader.old → (parts : Parts) →
        IsStored (S.model store.old) tables.now parts →
        IfOk result (λ whole. whole ≡ are_whole_from parts start) }
    ensures store { KeepsStore S.model S.size S.failed store.old store.new result }
{
    'positions: for position in start..tables.lists() {
        reader.read(store, tables, position, READ_LEN)?;
        if !is_whole_list(reader.list_at(tables, position)) {
            return Ok(false);
        }
    }
    Ok(true)
}

/// Whether the lists of an index in memory from a position on are whole.
pub(crate) fn is_newer_whole_from(index: &Index<'_>, start: u32) -> bool
    ensures { result ≡ are_whole_from index.now start }
{
    'positions: for position in start..index.lists() {
        if !is_whole_list(index.list_at(position)) {
            return false;
        }
    }
    true
}

/// Whether some path of the index covers each of its names. Allocates nothing.
pub(crate) fn is_under(index: &Index<'_>) -> bool
    ensures { result ≡ are_covered index.now }
{
    let mut rest = index.paths();
    let mut last = None;
    'names: for name in index.names() {
        let Some(path) = next_cover(index, &mut rest, last, name) else {
            return false;
        };
        last = Some(path);
    }
    true
}

/// Whether the paths cover each text.
fn covers_all(paths: &[String], texts: Texts<'_>) -> bool
    requires { are_ascending (map string_bytes paths.now) ≡ true }
    ensures { result ≡ list_all (is_covered (set.from_list (map string_bytes paths.now))) texts.entry }
{
    'texts: for text in texts {
        if !is_covered(paths, text) {
            return false;
        }
    }
    true
}

/// Whether the list is whole, if there is one. Most of it is skipped without decoding.
fn is_whole_list(list: Option<(u32, Postings<'_>)>) -> bool
    ensures { result ≡ option_map_or (λ (found : ℕ × Ids). found.1.whole) list.entry true }
{
    let Some((_trigram, mut rest)) = list else {
        return true;
    };
    'ids: while let Some(answer) = rest.next() {
        let Ok(id) = answer else {
            return false;
        };
        let _skipped = rest.encoded_run(id, u32::MAX);
    }
    true
}

/// A path of the index that covers the name. Sorted names that one path covers are adjacent, so the
/// last path is tried first, then the paths after it, and only then all of them.
fn next_cover<'a>(
    index: &Index<'a>,
    rest: &mut Texts<'a>,
    last: Option<&'a str>,
    name: &str,
) -> Option<&'a str>
    requires rest { AreAmong rest.old index.now.paths }
    requires last { IfSome last (λ path. AreAmong (path.now ∷ []) index.now.paths) }
    ensures rest { AreAmong rest.new index.now.paths }
    ensures last { IfSome result (λ path. AreAmong (path.now ∷ []) index.now.paths) }
    ensures covers { is_some result ≡ list_any (λ path. covers' path name.now) index.now.paths }
{
    if let Some(path) = last {
        if covers(path, name) {
            return Some(path);
        }
    }
    if let Some(path) = first_cover(rest, name) {
        return Some(path);
    }
    *rest = index.paths();
    first_cover(rest, name)
}

/// The first remaining path that covers the name.
fn first_cover<'a>(rest: &mut Texts<'a>, name: &str) -> Option<&'a str>
    ensures rest { AreAmong rest.new rest.old }
    ensures path { IfSome result (λ path. AreAmong (path.now ∷ []) rest.old) }
    ensures covers { is_some result ≡ list_any (λ path. covers' path name.now) rest.old }
{
    'paths: while let Some(path) = rest.next() {
        if covers(path, name) {
            return Some(path);
        }
    }
    None
}
