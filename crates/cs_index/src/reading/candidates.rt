// Candidates: the files whose trigrams match a query (Go: `PostingQuery` in index/read.go). The
// query's form is evaluated over windows of ids, so that each posting list is read once.
ghost use Rattle.std.specs.Prelude.{◌≡◌, ◌<◌, ◌≤◌, ◌+◌, ◌-◌, ◌⊎◌, ◌^◌, ◌++◌, ℕ, List, Some, map, take, true, false, filter, length, slice_index_or, IfOk, IfErr, OnOk, ◌*◌, ◌||◌};
ghost use Rattle.std.specs.List.{AllByRecursion, AllZip, range_with_len, list_any};
ghost use Rattle.cs_index.specs.Cited.{KeepsStore, has, Ascends, ListEntry, Parts, read_list, IsListFault, candidates_of, AreCandidates, max_ids, is_answerable, mentions, candidates_from, AreOnPage, IsForm, number_matches, lists_are_whole, have_id, IsLeft, IsReadOn, StandsIn, AreAscendingOffsets, AreListed, entry_read, trigrams_listed, HasEntries, Holds, ids_left, sections_at};

use crate::fault::IndexFault;
use crate::reading::entries::{Entry, find_entry};
use crate::reading::form::{Form, NOTHING, form_of};
use crate::reading::index::Index;
use crate::reading::rows::{IdWindow, next_start, rarest_list, row_at, rows_of};
use crate::reading::section_offsets::SectionOffsets;
use crate::reading::stored::StoredIndex;
use crate::reading::stored_list::StoredList;
use cs_tree::{IoFault, MemStore, Store};
use cs_trigram::Query;
use std::alloc::{AllocError, Global};

/// The most flags of all rows of a window.
const FLAGS: usize = 1 << 20;
/// But a window has at least as many ids.
const LEAST_WINDOW: usize = 1024;
/// And it has at most as many.
const LONGEST_WINDOW: usize = 1 << 16;
/// The most bytes of the pieces of all lists.
const PIECES: usize = 1 << 20;
/// But a piece may have at least as many bytes.
const LEAST_PIECE: usize = 64;
/// And it has at most as many.
const LONGEST_PIECE: usize = 1 << 16;

/// Which candidates are listed: the first `most` of those from the id `from` on.
#[derive(Clone, Copy)]
pub(crate) struct Page {
    from: u32,
    most: usize,
}

impl<'a> Index<'a> {
    /// The ids of the names whose trigrams match the query, ascending. Each posting list that the
    /// query mentions is read to its end, so that damage is always found.
    pub fn candidates(&self, alloc: Global, query: &Query) -> Result<Vec<u32>, IndexFault>
        ensures ids { IfOk result (λ ids. ids.items ≡ candidates_of self.now query.now) }
        ensures whole { IfOk result (λ _. is_answerable self.now query.now ≡ true) }
        ensures fault { IfErr result (IsListFault (is_answerable self.now query.now)) }
    {
        self.candidates_from(alloc, query, 0, self.len() as usize)
    }

    /// The first `most` of the candidates from an id on. The lists are read to their ends, but rows
    /// are made only from that id on, and no more once there are so many.
    pub fn candidates_from(
        &self,
        alloc: Global,
        query: &Query,
        from: u32,
        most: usize,
    ) -> Result<Vec<u32>, IndexFault>
        ensures ids { IfOk result (λ ids. ids.items ≡ take most (candidates_from self.now query.now from)) }
        ensures whole { IfOk result (λ _. is_answerable self.now query.now ≡ true) }
        ensures fault { IfErr result (IsListFault (is_answerable self.now query.now)) }
    {
        let mut store = MemStore::new(self.bytes, usize::MAX);
        let starts = self.tables.starts();
        let name_count = self.tables.name_count();
        let page = Page { from, most };
        // No read of bytes in memory fails.
        match candidates_in(alloc, &mut store, &starts, name_count, query, page) {
            Ok(answer) => answer,
            Err(_) => Err(IndexFault::Memory),
        }
    }
}

impl StoredIndex {
    /// The ids of the names whose trigrams match the query, ascending, or `BadList`. Each posting
    /// list that the query mentions is read to its end, once, and no other.
    pub fn candidates<S: Store>(
        &self,
        alloc: Global,
        store: &mut S,
        query: &Query,
    ) -> Result<Result<Vec<u32>, IndexFault>, IoFault>
        ensures answers { (bytes : List ℕ) → S.model store.old ≡ Some bytes → (parts : Parts) →
            StandsIn bytes self.now parts → IfOk result (AreCandidates query.now parts) }
        ensures store { KeepsStore S.model S.size S.failed store.old store.new result }
    {
        let all = Page {
            from: 0,
            most: self.name_count as usize,
        };
        candidates_in(alloc, store, &self.starts, self.name_count, query, all)
    }
}

/// A page of the ids of the names whose trigrams match the query, in the index of the store whose
/// sections are at these offsets.
fn candidates_in<S: Store>(
    alloc: Global,
    store: &mut S,
    starts: &SectionOffsets,
    name_count: u32,
    query: &Query,
    page: Page,
) -> Result<Result<Vec<u32>, IndexFault>, IoFault>
    requires order { AreAscendingOffsets starts.now }
    requires few { name_count < max_ids }
    ensures answers { (bytes : List ℕ) → S.model store.old ≡ Some bytes → (parts : Parts) →
        (paths : List (List ℕ)) →
        StandsIn bytes (record { paths = paths; name_count = name_count; starts = starts.now }) parts →
        IfOk result (AreOnPage page query.now parts) }
    ensures store { KeepsStore S.model S.size S.failed store.old store.new result }
{
    let listed = listed_entries(alloc, store, starts, query)?;
    let trigrams = trigrams_of(alloc, &listed)?;
    let form = form_of(alloc, &trigrams, query)?;
    let mut lists = lists_of(alloc, store, starts, name_count, &listed)?;
    let all = IdWindow {
        start: page.from.min(name_count),
        end: name_count,
    };
    let ids = meet(alloc, store, &form, &mut lists, all, page.most)?;
    let answer = if finish_all(store, lists)? {
        Ok(ids)
    } else {
        Err(IndexFault::BadList)
    };
    Ok(answer)
}

/// The trigrams of entries.
fn trigrams_of(alloc: Global, entries: &[Entry]) -> Result<Vec<u32>, AllocError>
    ensures { IfOk result (λ trigrams. trigrams.items ≡ trigrams_listed entries.now) }
{
    let mut trigrams = Vec::with_capacity(alloc, entries.len())?;
    for entry in entries {
        trigrams.push(entry.trigram)?;
    }
    Ok(trigrams)
}

/// The posting list of each entry.
fn lists_of<S: Store>(
    alloc: Global,
    store: &mut S,
    starts: &SectionOffsets,
    name_count: u32,
    entries: &[Entry],
) -> Result<Vec<StoredList>, IoFault>
    requires order { AreAscendingOffsets starts.now }
    requires few { name_count < max_ids }
    ensures lists { (bytes : List ℕ) → S.model store.old ≡ Some bytes →
        IfOk result (λ lists. map (ids_left bytes) lists.items ≡ map (λ e.
        read_list (sections_at bytes starts.now).postings name_count (entry_read e)) entries.now) }
    ensures count { IfOk result (λ lists. length lists.items ≡ length entries.now) }
    ensures holds { (bytes : List ℕ) → S.model store.old ≡ Some bytes →
        IfOk result (λ lists. AllByRecursion (Holds bytes) lists.items) }
    ensures store { KeepsStore S.model S.size S.failed store.old store.new result }
{
    let size = piece_size(entries.len());
    let mut lists = Vec::with_capacity(alloc, entries.len())?;
    for entry in entries {
        lists.push(StoredList::open(alloc, store, starts, name_count, entry, size)?)?;
    }
    Ok(lists)
}

/// The most bytes of a piece, for this number of lists.
fn piece_size(lists: usize) -> usize
    ensures { 8 ≤ result }
{
    (PIECES / lists.saturating_add(1)).clamp(LEAST_PIECE, LONGEST_PIECE)
}

/// The first `most` of some ids that match a form, window by window. A window begins at an id of
/// the rarest list that the form requires.
fn meet<S: Store>(
    alloc: Global,
    store: &mut S,
    form: &Form,
    lists: &mut [StoredList],
    all: IdWindow,
    most: usize,
) -> Result<Vec<u32>, IoFault>
    requires form { IsForm (length lists.old) form.now.nodes.items }
    requires order { all.start ≤ all.end }
    ensures ids { (bytes : List ℕ) → S.model store.old ≡ Some bytes →
        AllByRecursion (IsLeft bytes) lists.old → IfOk result (λ ids. ids.items ≡ take most
        (filter (λ id. number_matches (have_id bytes lists.old id) form.now.nodes.items form.now.root)
        (range_with_len all.start (all.end - all.start)))) }
    ensures lists { (bytes : List ℕ) → S.model store.old ≡ Some bytes →
        AllByRecursion (IsLeft bytes) lists.old →
        IfOk result (λ _. AllZip (IsReadOn bytes all.end) lists.old lists.new) }
    ensures store { KeepsStore S.model S.size S.failed store.old store.new result }
{
    let mut ids = Vec::new(alloc);
    if form.root == NOTHING {
        return Ok(ids);
    }
    let width = window_width(form.nodes.len(), lists.len(), most);
    let rarest = rarest_list(form, lists);
    let mut start = next_start(store, lists, rarest, all)?;
    'windows: while start < all.end && ids.len() < most {
        let end = start + width.min(all.end - start);
        meet_window(alloc, store, form, lists, IdWindow { start, end }, &mut ids)?;
        let rest = IdWindow {
            start: end,
            end: all.end,
        };
        start = next_start(store, lists, rarest, rest)?;
    }
    ids.truncate(most);
    Ok(ids)
}

/// Appends the ids of a window that match a form. The lists are read up to the window's end.
fn meet_window<S: Store>(
    alloc: Global,
    store: &mut S,
    form: &Form,
    lists: &mut [StoredList],
    window: IdWindow,
    ids: &mut Vec<u32>,
) -> Result<(), IoFault>
    requires order { window.start < window.end }
    ensures ids { (bytes : List ℕ) → S.model store.old ≡ Some bytes →
        AllByRecursion (IsLeft bytes) lists.old → OnOk result (ids.new.items ≡ ids.old.items ++
        filter (λ id. number_matches (have_id bytes lists.old id) form.now.nodes.items form.now.root)
        (range_with_len window.start (window.end - window.start))) }
    ensures lists { (bytes : List ℕ) → S.model store.old ≡ Some bytes →
        AllByRecursion (IsLeft bytes) lists.old →
        OnOk result (AllZip (IsReadOn bytes window.end) lists.old lists.new) }
    ensures store { KeepsStore S.model S.size S.failed store.old store.new result }
{
    let rows = rows_of(alloc, store, &form.nodes, lists, window)?;
    push_ids(ids, row_at(&rows, form.root), window.start, window.end)?;
    Ok(())
}

/// The number of ids of a window, for a form with these numbers of nodes and lists, and for so many
/// ids that match.
fn window_width(nodes: usize, lists: usize, most: usize) -> u32
    ensures { 0 < result }
{
    let rows = nodes.saturating_add(lists).saturating_add(1);
    (FLAGS / rows).min(most).clamp(LEAST_WINDOW, LONGEST_WINDOW) as u32
}

/// Appends the ids of a window that have a flag.
fn push_ids(ids: &mut Vec<u32>, row: &[bool], start: u32, end: u32) -> Result<(), AllocError>
    requires order { start ≤ end }
    requires width { (length row.now ≡ 0) ⊎ (length row.now ≡ end - start) }
    ensures { OnOk result (ids.new.items ≡ ids.old.items ++
        filter (λ id. slice_index_or row.now (id - start) false) (range_with_len start (end - start))) }
{
    let mut id = start;
    for is_marked in row {
        if *is_marked {
            ids.push(id)?;
        }
        id += 1;
    }
    Ok(())
}

/// Reads the lists to their ends. Returns whether all of them are whole.
fn finish_all<S: Store>(store: &mut S, mut lists: Vec<StoredList>) -> Result<bool, IoFault>
    ensures whole { (bytes : List ℕ) → S.model store.old ≡ Some bytes →
        AllByRecursion (Holds bytes) lists.items →
        IfOk result (λ whole. whole ≡ lists_are_whole bytes lists.items) }
    ensures store { KeepsStore S.model S.size S.failed store.old store.new result }
{
    'lists: while let Some(mut list) = lists.pop() {
        if !list.finish(store)? {
            return Ok(false);
        }
    }
    Ok(true)
}

// ---- reading/query_trigrams: The trigrams of a query.
/// The entries of the trigrams that a query mentions, ascending. A trigram without an entry has
/// none.
pub(crate) fn listed_entries<S: Store>(
    alloc: Global,
    store: &mut S,
    starts: &SectionOffsets,
    query: &Query,
) -> Result<Vec<Entry>, IoFault>
    requires { AreAscendingOffsets starts.now }
    ensures listed { (bytes : List ℕ) → S.model store.old ≡ Some bytes → (entries : List ListEntry) →
        HasEntries bytes starts.now entries →
        IfOk result (λ listed. AreListed query.now entries listed.items) }
    ensures ascend { IfOk result (λ listed. Ascends (trigrams_listed listed.items)) }
    ensures store { KeepsStore S.model S.size S.failed store.old store.new result }
{
    let trigrams = mentioned_trigrams(alloc, query)?;
    let mut listed = Vec::new(alloc);
    for trigram in &trigrams {
        if let Some(entry) = find_entry(store, starts, *trigram)? {
            listed.push(entry)?;
        }
    }
    Ok(listed)
}

/// The trigrams that a query mentions, ascending.
fn mentioned_trigrams(alloc: Global, query: &Query) -> Result<Vec<u32>, AllocError>
    ensures mentioned { IfOk result (λ trigrams. (g : ℕ) → has trigrams.items g ≡ mentions query.now g) }
    ensures ascend { IfOk result (λ trigrams. Ascends trigrams.items) }
{
    let mut trigrams = Vec::new(alloc);
    gather(&mut trigrams, query)?;
    trigrams.sort_unstable();
    trigrams.dedup();
    Ok(trigrams)
}

/// Appends the trigrams that a query mentions.
#[cycle(gather)]
fn gather(trigrams: &mut Vec<u32>, query: &Query) -> Result<(), AllocError>
    ensures { OnOk result ((g : ℕ) →
        has trigrams.new.items g ≡ (has trigrams.old.items g || mentions query.now g)) }
{
    match query {
        Query::All | Query::Nothing => Ok(()),
        Query::Tri(trigram) => {
            trigrams.push(*trigram)?;
            Ok(())
        }
        Query::And(members) | Query::Or(members) => gather_each(trigrams, members),
    }
}

/// Appends the trigrams that the members mention.
#[cycle(gather)]
fn gather_each(trigrams: &mut Vec<u32>, members: &[Query]) -> Result<(), AllocError>
    ensures { OnOk result ((g : ℕ) → has trigrams.new.items g
        ≡ (has trigrams.old.items g || list_any (λ q. mentions q g) members.now)) }
{
    for member in members {
        gather(trigrams, member)?;
    }
    Ok(())
}
