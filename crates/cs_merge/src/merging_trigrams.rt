// The merge of the posting lists: a two-way merge by trigram, which reads the lists of each index
// in their order.
ghost use Rattle.std.specs.Prelude.{◌≡◌, ◌<◌, ◌^◌, ◌+◌, ◌&&◌, ℕ, List, Option, [], true, false, Some, None, length, IfErr, IfOk, MatchResult, OnOk};
ghost use Rattle.cs_merge.specs.Cited.{KeepsStore, Parts, AreValidParts, IsListFault, IsSentOn, IsSentEarly, Written, new_ids_of, new_ids_read, AreIdMaps, list_ids, list_trigram, position_after, AreLeft, IsListAnswer, IsMergedList, known_parts, next_trigram, old_ids, AreAllMerged, AreRead, IsMergingLists, IsStored, are_whole_from, rest_fault, IsListsFault, both_whole};

use crate::fault::MergeFault;
use crate::id_map::IdRuns;
use crate::mapped_postings::MappedPostings;
use crate::merging_lists::{BothLists, BothRuns, lower, merge_list};
use crate::replacing::{READ_LEN, is_newer_whole_from, is_whole_from};
use cs_index::{Index, IndexFault, ListReader, Sections, Tables};
use cs_tree::{IoFault, Output, Store};
use std::alloc::Global;

/// Both indexes, and the id maps of both.
#[derive(Drop)]
pub(crate) struct Sides<'a> {
    pub(crate) older: &'a Tables<'a>,
    pub(crate) newer: &'a Index<'a>,
    pub(crate) runs: BothRuns<'a>,
}

/// The position of the next list of each index, and the reader of the old lists.
#[derive(Drop)]
struct Progress {
    reader: ListReader,
    older: u32,
    newer: u32,
}

/// Writes the merged posting lists in ascending order of trigrams, and sends them as they are made.
/// Each list is read once and to its end, even if all of its files are dropped, so that damage is
/// always found. Once the lists have more than `most` bytes, the others are only read for damage.
pub(crate) fn merge_lists<S: Store, O: Output>(
    alloc: Global,
    store: &mut S,
    sections: &mut Sections,
    sides: &Sides<'_>,
    most: u32,
    out: &mut O,
) -> Result<Result<(), MergeFault>, IoFault>
    requires ids { AreIdMaps (length sections.old.names) sides.now.runs.older sides.now.runs.newer }
    requires unlisted { sections.old.lists ≡ [] }
    ensures paths { IfOk result (λ merged. OnOk merged (sections.new.paths ≡ sections.old.paths)) }
    ensures names { IfOk result (λ merged. OnOk merged (sections.new.names ≡ sections.old.names)) }
    ensures merged { (parts : Parts) → IsStored (S.model store.old) sides.now.older.now parts →
        IfOk result (λ merged. MatchResult merged (λ _. AreAllMerged parts sides.now.newer.now
        sides.now.runs.older sides.now.runs.newer sections.new.lists) (IsListsFault parts sides.now.newer.now
        sides.now.runs.older sides.now.runs.newer sections.old most)) }
    ensures given { IfOk result (λ merged. OnOk merged
        (IsSentOn sections.old.sent sections.new.sent (O.given out.old) (O.given out.new))) }
    ensures early { IfOk result (λ merged. OnOk merged (IsSentEarly sections.new)) }
    ensures keeps_out { O.Keeps out.old out.new }
    ensures store { KeepsStore S.model S.size S.failed store.old store.new result }
{
    are_valid(sides.older);
    sides.newer.are_valid();
    let mut progress = Progress {
        reader: ListReader::new(alloc),
        older: 0,
        newer: 0,
    };
    'lists: while sections.list_bytes() <= most as usize {
        match send_next(alloc, store, sections, sides, &mut progress, out)? {
            Ok(true) => {}
            Ok(false) => return Ok(Ok(())),
            Err(fault) => return Ok(Err(fault)),
        }
    }
    let fault = fault_of_rest(store, sides, &mut progress)?;
    Ok(Err(fault))
}

/// Merges the lists of the next trigram, and sends them with those before if they are long enough.
/// False if no list remains.
fn send_next<S: Store, O: Output>(
    alloc: Global,
    store: &mut S,
    sections: &mut Sections,
    sides: &Sides<'_>,
    progress: &mut Progress,
    out: &mut O,
) -> Result<Result<bool, MergeFault>, IoFault>
    requires ids { AreIdMaps (length sections.old.names) sides.now.runs.older sides.now.runs.newer }
    requires so_far { IsMergingLists (S.model store.old) sides.now.older.now progress.old.reader
        sides.now.newer.now sides.now.runs.older sides.now.runs.newer sections.old sections.old
        progress.old.older progress.old.newer }
    requires early { IsSentEarly sections.old }
    ensures so_far { IfOk result (λ sent. OnOk sent (IsMergingLists (S.model store.old)
        sides.now.older.now progress.new.reader sides.now.newer.now
        sides.now.runs.older sides.now.runs.newer sections.old sections.new
        progress.new.older progress.new.newer)) }
    ensures more { IfOk result (λ sent. IfOk sent (λ more. more ≡ true →
        progress.old.older + progress.old.newer < progress.new.older + progress.new.newer)) }
    ensures all { IfOk result (λ sent. IfOk sent (λ more. more ≡ false →
        next_trigram sides.now.older.now sides.now.newer.now progress.new.older progress.new.newer ≡ None)) }
    ensures given { IfOk result (λ sent. OnOk sent
        (IsSentOn sections.old.sent sections.new.sent (O.given out.old) (O.given out.new))) }
    ensures early { IfOk result (λ sent. OnOk sent (IsSentEarly sections.new)) }
    ensures fault { (old : Parts) → IsStored (S.model store.old) sides.now.older.now old →
        (before : Written) (most : ℕ) → IfOk result (λ sent. IfErr sent (IsListsFault old sides.now.newer.now
        sides.now.runs.older sides.now.runs.newer before most)) }
    ensures keeps_out { O.Keeps out.old out.new }
    ensures store { KeepsStore S.model S.size S.failed store.old store.new result }
{
    match merge_next(alloc, store, sections, sides, progress)? {
        Ok(true) => {}
        Ok(false) => return Ok(Ok(false)),
        Err(fault) => return Ok(Err(MergeFault::from(fault))),
    }
    let Ok(()) = sections.send(out) else {
        return Ok(Err(MergeFault::Memory));
    };
    Ok(Ok(true))
}

/// Merges the lists of the next trigram. False if no list remains; then the index is unchanged.
fn merge_next<S: Store>(
    alloc: Global,
    store: &mut S,
    sections: &mut Sections,
    sides: &Sides<'_>,
    progress: &mut Progress,
) -> Result<Result<bool, IndexFault>, IoFault>
    requires ids { AreIdMaps (length sections.old.names) sides.now.runs.older sides.now.runs.newer }
    requires so_far { IsMergingLists (S.model store.old) sides.now.older.now progress.old.reader
        sides.now.newer.now sides.now.runs.older sides.now.runs.newer sections.old sections.old
        progress.old.older progress.old.newer }
    ensures so_far { IfOk result (λ merged. OnOk merged (IsMergingLists (S.model store.old)
        sides.now.older.now progress.new.reader sides.now.newer.now
        sides.now.runs.older sides.now.runs.newer sections.old sections.new
        progress.new.older progress.new.newer)) }
    ensures more { IfOk result (λ merged. IfOk merged (λ more. more ≡ true →
        progress.old.older + progress.old.newer < progress.new.older + progress.new.newer)) }
    ensures sent { IfOk result (λ merged. OnOk merged (sections.new.sent ≡ sections.old.sent)) }
    ensures same { IfOk result (λ merged. IfOk merged (λ more. more ≡ false → sections.new ≡ sections.old)) }
    ensures all { IfOk result (λ merged. IfOk merged (λ more. more ≡ false →
        next_trigram sides.now.older.now sides.now.newer.now progress.new.older progress.new.newer ≡ None)) }
    ensures fault { (old : Parts) → IsStored (S.model store.old) sides.now.older.now old →
        IfOk result (λ merged. IfErr merged (IsListFault (both_whole old sides.now.newer.now))) }
    ensures store { KeepsStore S.model S.size S.failed store.old store.new result }
{
    are_valid(sides.older);
    sides.newer.are_valid();
    let older_trigram = sides.older.trigram_at(progress.older);
    let newer_trigram = trigram_at(sides.newer, progress.newer);
    let Some(trigram) = lower(older_trigram, newer_trigram) else {
        return Ok(Ok(false));
    };
    progress
        .reader
        .read(store, sides.older, progress.older, READ_LEN)?;
    match merge_trigram(alloc, sections, trigram, sides, progress) {
        Ok(()) => Ok(Ok(true)),
        Err(fault) => Ok(Err(fault)),
    }
}

/// States the invariant of the tables, for callers that use their names and lists.
pub(crate) fn are_valid(tables: &Tables<'_>)
    ensures known { AreValidParts (known_parts tables.now) }
    ensures parts { (model : Option (List ℕ)) (parts : Parts) →
        IsStored model tables.now parts → AreValidParts parts }
{
    tables.are_valid();
}

/// Merges the lists of a trigram. The old one was read.
fn merge_trigram(
    alloc: Global,
    sections: &mut Sections,
    trigram: u32,
    sides: &Sides<'_>,
    progress: &mut Progress,
) -> Result<(), IndexFault>
    requires ids { AreIdMaps (length sections.old.names) sides.now.runs.older sides.now.runs.newer }
    requires next { next_trigram sides.now.older.now sides.now.newer.now progress.old.older progress.old.newer
        ≡ Some trigram }
    requires left { AreLeft (known_parts sides.now.older.now).entries sides.now.newer.now.entries
        sections.old.lists progress.old.older progress.old.newer }
    ensures ok { OnOk result (IsMergedList trigram sections.old sections.new (new_ids_of sides.now.runs.older
        (old_ids sides.now.older.now progress.old.reader progress.old.older trigram).ids)
        (new_ids_of sides.now.runs.newer
        (list_ids sides.now.newer.now progress.old.newer trigram).ids) [] []) }
    ensures fault { IsListAnswer
        ((old_ids sides.now.older.now progress.old.reader progress.old.older trigram).whole
        && (list_ids sides.now.newer.now progress.old.newer trigram).whole) result }
    ensures reader { OnOk result (progress.new.reader ≡ progress.old.reader) }
    ensures older { OnOk result (progress.new.older
        ≡ position_after (known_parts sides.now.older.now) progress.old.older trigram) }
    ensures newer { OnOk result (progress.new.newer
        ≡ position_after sides.now.newer.now progress.old.newer trigram) }
{
    are_valid(sides.older);
    sides.newer.are_valid();
    let reader = &progress.reader;
    let older = older_list(
        sides.older,
        reader,
        progress.older,
        trigram,
        &sides.runs.older,
    )?;
    let newer = newer_list(sides.newer, progress.newer, trigram, &sides.runs.newer)?;
    let lists = BothLists { older, newer };
    merge_list(alloc, sections, trigram, lists, &sides.runs)?;
    progress.older = next_older(sides.older, progress.older, trigram);
    progress.newer = next_newer(sides.newer, progress.newer, trigram);
    Ok(())
}

/// The new ids of the old list at the position, which was read; no ids if it has another trigram.
fn older_list<'a, 'b>(
    tables: &Tables<'_>,
    reader: &'a ListReader,
    position: u32,
    trigram: u32,
    runs: &'b IdRuns<'b>,
) -> Result<MappedPostings<'a, 'b>, IndexFault>
    ensures { MatchResult result
        (λ ids. ids ≡ new_ids_read runs.now (old_ids tables.now reader.now position trigram))
        (λ fault. (fault ≡ IndexFault.BadList)
        × ((old_ids tables.now reader.now position trigram).whole ≡ false)) }
{
    are_valid(tables);
    if let Some((found, ids)) = reader.list_at(tables, position) {
        if found == trigram {
            return MappedPostings::new(ids, runs);
        }
    }
    Ok(MappedPostings::none(runs))
}

/// The new ids of the newer list at the position; no ids if it has another trigram.
fn newer_list<'a, 'b>(
    index: &Index<'a>,
    position: u32,
    trigram: u32,
    runs: &'b IdRuns<'b>,
) -> Result<MappedPostings<'a, 'b>, IndexFault>
    ensures { MatchResult result
        (λ ids. ids ≡ new_ids_read runs.now (list_ids index.now position trigram))
        (λ fault. (fault ≡ IndexFault.BadList) × ((list_ids index.now position trigram).whole ≡ false)) }
{
    index.are_valid();
    if let Some((found, ids)) = index.list_at(position) {
        if found == trigram {
            return MappedPostings::new(ids, runs);
        }
    }
    Ok(MappedPostings::none(runs))
}

/// The trigram of the list at a position of the list index.
fn trigram_at(index: &Index<'_>, position: u32) -> Option<u32>
    ensures { result ≡ list_trigram index.now position }
{
    match index.list_at(position) {
        Some((trigram, _ids)) => Some(trigram),
        None => None,
    }
}

/// The next position of the old lists if the one at this position has the trigram, else this one.
pub(crate) fn next_older(tables: &Tables<'_>, position: u32, trigram: u32) -> u32
    ensures { result ≡ position_after (known_parts tables.now) position trigram }
{
    if position < tables.lists() {
        if let Some(found) = tables.trigram_at(position) {
            if found == trigram {
                return position + 1;
            }
        }
    }
    position
}

/// The same for the newer lists.
fn next_newer(index: &Index<'_>, position: u32, trigram: u32) -> u32
    ensures { result ≡ position_after index.now position trigram }
{
    if position < index.lists() {
        if let Some(found) = trigram_at(index, position) {
            if found == trigram {
                return position + 1;
            }
        }
    }
    position
}

/// The error if the lists so far are too long: a damaged list goes before.
fn fault_of_rest<S: Store>(
    store: &mut S,
    sides: &Sides<'_>,
    progress: &mut Progress,
) -> Result<MergeFault, IoFault>
    ensures fault { AreRead (S.model store.old) progress.old.reader → (old : Parts) →
        IsStored (S.model store.old) sides.now.older.now old → IfOk result (λ fault. fault ≡ rest_fault
        (are_whole_from old progress.old.older && are_whole_from sides.now.newer.now progress.old.newer)) }
    ensures store { KeepsStore S.model S.size S.failed store.old store.new result }
{
    let reader = &mut progress.reader;
    let older_whole = is_whole_from(store, sides.older, reader, progress.older)?;
    if older_whole && is_newer_whole_from(sides.newer, progress.newer) {
        Ok(MergeFault::TooLarge)
    } else {
        Ok(MergeFault::Index(IndexFault::BadList))
    }
}
