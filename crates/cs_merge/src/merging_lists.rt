// The merge of the posting lists of one trigram: a two-way merge by id that copies long runs.
ghost use Rattle.std.specs.Prelude.{◌≡◌, ◌≢◌, ◌⊎◌, ◌<◌, ◌^◌, ◌&&◌, ◌++◌, ◌≤◌, [], ◌∷◌, true, false, Some, None, drop, length, take, slice_get, IfErr, IfOk, OnOk};
ghost use Rattle.std.specs.List.{AllByRecursion};
ghost use Rattle.cs_merge.specs.Cited.{closing_trigram, AllBelow, IsListFault, AscendWithin, MayFollow, IsIncreasing, lower_of, AreDistinctIds, IsWrittenBelow, BeginFrom, IsBelow, IsListAnswer, IsMergedList, without_number};

use crate::id_map::{IdMaps, IdRuns};
use crate::mapped_postings::MappedPostings;
use cs_index::{IndexFault, Sections};
use std::alloc::{AllocError, Global};

/// Runs are long if they have this many ids in the mean. Shorter ones are quicker id by id.
const LONG: u32 = 64;

/// The id maps of both indexes, with their runs, and whether these are long.
#[derive(Drop)]
pub(crate) struct BothRuns<'a> {
    pub(crate) older: IdRuns<'a>,
    pub(crate) newer: IdRuns<'a>,
    are_long: bool,
}

impl<'a> BothRuns<'a> {
    /// Finds the runs of both maps.
    pub(crate) fn new(alloc: Global, ids: &'a IdMaps) -> Result<BothRuns<'a>, AllocError>
        requires older_bound { length ids.now.older < 2 ^ 32 }
        requires newer_bound { length ids.now.newer < 2 ^ 32 }
        ensures older { IfOk result (λ runs. runs.older ≡ ids.now.older) }
        ensures newer { IfOk result (λ runs. runs.newer ≡ ids.now.newer) }
    {
        let older = IdRuns::new(alloc, &ids.older)?;
        let newer = IdRuns::new(alloc, &ids.newer)?;
        let runs = older.count().saturating_add(newer.count());
        let ids = ids.older.len().saturating_add(ids.newer.len());
        Ok(BothRuns {
            older,
            newer,
            are_long: ids / LONG >= runs,
        })
    }

    /// Whether both maps are increasing: the new ids of ascending ids ascend.
    fn are_increasing(&self) -> bool
        ensures older { result ≡ true → IsIncreasing self.now.older }
        ensures newer { result ≡ true → IsIncreasing self.now.newer }
    {
        self.older.is_increasing() && self.newer.is_increasing()
    }
}

/// The new ids of both lists of a trigram.
#[derive(Drop)]
pub(crate) struct BothLists<'a, 'b> {
    pub(crate) older: MappedPostings<'a, 'b>,
    pub(crate) newer: MappedPostings<'a, 'b>,
}

/// Writes the merged list of one trigram. If the runs are short, the new ids of both lists are read
/// first. If a map is not increasing, they are sorted.
pub(crate) fn merge_list(
    alloc: Global,
    sections: &mut Sections,
    trigram: u32,
    lists: BothLists<'_, '_>,
    runs: &BothRuns<'_>,
) -> Result<(), IndexFault>
    requires above { AllBelow sections.old.lists trigram }
    requires older_rise { IsIncreasing runs.now.older →
        AscendWithin (length sections.old.names) 0 lists.older.ids }
    requires newer_rise { IsIncreasing runs.now.newer →
        AscendWithin (length sections.old.names) 0 lists.newer.ids }
    requires ids { AreDistinctIds (length sections.old.names) (lists.older.ids ++ lists.newer.ids) }
    requires below { (trigram < closing_trigram) ⊎ ((lists.older.ids ≡ []) × (lists.newer.ids ≡ [])) }
    ensures ok { OnOk result (IsMergedList
        trigram sections.old sections.new lists.entry.older.ids lists.entry.newer.ids [] []) }
    ensures fault { IsListAnswer (lists.entry.older.whole && lists.entry.newer.whole) result }
{
    // If both maps are increasing, the new ids of each list ascend.
    if runs.are_increasing() && runs.are_long {
        return merge_ascending(sections, trigram, lists);
    }
    let mut older = Vec::new(alloc);
    lists.older.append_to(&mut older)?;
    if !runs.are_increasing() {
        lists.newer.append_to(&mut older)?;
        // Most of the ids ascend already, which a stable sort makes use of.
        older.sort()?;
        write_both(sections, trigram, &older, &[])?;
        return Ok(());
    }
    let mut newer = Vec::new(alloc);
    lists.newer.append_to(&mut newer)?;
    write_both(sections, trigram, &older, &newer)?;
    Ok(())
}

/// Writes the merged list of one trigram from the ascending ids of both lists.
fn write_both(
    sections: &mut Sections,
    trigram: u32,
    older: &[u32],
    newer: &[u32],
) -> Result<(), AllocError>
    requires above { AllBelow sections.old.lists trigram }
    requires older_rise { AscendWithin (length sections.old.names) 0 older.now }
    requires newer_rise { AscendWithin (length sections.old.names) 0 newer.now }
    requires below { (trigram < closing_trigram) ⊎ ((older.now ≡ []) × (newer.now ≡ [])) }
    ensures { OnOk result (IsMergedList trigram sections.old sections.new older.now newer.now [] []) }
{
    if older.is_empty() && newer.is_empty() {
        return Ok(());
    }
    sections.list(trigram);
    let mut at = 0;
    'ids: for id in newer {
        let end = write_ids(sections, older, at, Some(*id))?;
        sections.id(*id)?;
        at = after_number(older, end, *id);
    }
    write_ids(sections, older, at, None)?;
    Ok(())
}

/// Writes the ids from a position on that are below the limit, or all if there is none. Returns the
/// position after them.
fn write_ids(
    sections: &mut Sections,
    ids: &[u32],
    at: usize,
    limit: Option<u32>,
) -> Result<usize, AllocError>
    requires within { at ≤ length ids.now }
    requires begun { sections.old.last_trigram ≢ None }
    requires rise { MayFollow sections.old (drop at ids.now) }
    ensures ok { IfOk result (λ end. IsWrittenBelow limit sections.old sections.new
        (drop at ids.now) (drop end ids.now)) }
    ensures left { IfOk result (λ end. BeginFrom limit (drop end ids.now)) }
    ensures within { IfOk result (λ end. end ≤ length ids.now) }
{
    let end = at + count_within(&ids[at..], limit);
    sections.ids(&ids[at..end])?;
    Ok(end)
}

/// The number of ids before the first one that is not below the limit.
fn count_within(ids: &[u32], limit: Option<u32>) -> usize
    ensures within { result ≤ length ids.now }
    ensures below { AllByRecursion (IsBelow limit) (take result ids.now) }
    ensures left { BeginFrom limit (drop result ids.now) }
{
    'ids: for at in 0..ids.len() {
        if !is_within(ids[at], limit) {
            return at;
        }
    }
    ids.len()
}

/// The position after the number if it is at this one, else this position.
fn after_number(ids: &[u32], at: usize, number: u32) -> usize
    requires { at ≤ length ids.now }
    ensures after { drop result ids.now ≡ without_number number (drop at ids.now) }
    ensures within { result ≤ length ids.now }
{
    if at < ids.len() && ids[at] == number {
        return at + 1;
    }
    at
}

/// Writes the merged list of one trigram by a two-way merge. A list without ids leaves no entry.
fn merge_ascending(
    sections: &mut Sections,
    trigram: u32,
    lists: BothLists<'_, '_>,
) -> Result<(), IndexFault>
    requires above { AllBelow sections.old.lists trigram }
    requires older_rise { AscendWithin (length sections.old.names) 0 lists.older.ids }
    requires newer_rise { AscendWithin (length sections.old.names) 0 lists.newer.ids }
    requires below { (trigram < closing_trigram) ⊎ ((lists.older.ids ≡ []) × (lists.newer.ids ≡ [])) }
    ensures ok { OnOk result (IsMergedList
        trigram sections.old sections.new lists.entry.older.ids lists.entry.newer.ids [] []) }
    ensures fault { IsListAnswer (lists.entry.older.whole && lists.entry.newer.whole) result }
{
    let mut older = lists.older;
    let mut newer = lists.newer;
    if lower(older.first(), newer.first()).is_none() {
        return Ok(());
    }
    sections.list(trigram);
    'ids: while let Some(id) = newer.first() {
        write_below(sections, &mut older, Some(id))?;
        sections.id(id)?;
        older.advance(id)?;
        newer.advance(id)?;
        write_below(sections, &mut newer, older.first())?;
    }
    write_below(sections, &mut older, None)?;
    Ok(())
}

/// Writes the ids of a list that are below the limit, or all ids if there is none.
fn write_below(
    sections: &mut Sections,
    list: &mut MappedPostings<'_, '_>,
    limit: Option<u32>,
) -> Result<(), IndexFault>
    requires begun { sections.old.last_trigram ≢ None }
    requires rise { MayFollow sections.old list.old.ids }
    ensures ok { OnOk result (IsWrittenBelow limit sections.old sections.new list.old.ids list.new.ids) }
    ensures left { OnOk result (BeginFrom limit list.new.ids) }
    ensures whole { OnOk result (list.new.whole ≡ list.old.whole) }
    ensures end { OnOk result (list.new.ids ≡ [] → list.new.whole ≡ true) }
    ensures fault { IfErr result (IsListFault list.old.whole) }
{
    'ids: while let Some(id) = list.first() {
        if !is_within(id, limit) {
            return Ok(());
        }
        write_next(sections, list, id, limit)?;
    }
    Ok(())
}

/// Writes the first id of a list, and the rest of its run as far as it is below the limit, if that
/// is expected to have more than a few ids.
#[inline(always)]
fn write_next(
    sections: &mut Sections,
    list: &mut MappedPostings<'_, '_>,
    id: u32,
    limit: Option<u32>,
) -> Result<(), IndexFault>
    requires first { slice_get list.old.ids 0 ≡ Some id }
    requires within { IsBelow limit id }
    requires begun { sections.old.last_trigram ≢ None }
    requires rise { MayFollow sections.old list.old.ids }
    ensures ok { OnOk result (IsWrittenBelow limit sections.old sections.new list.old.ids list.new.ids) }
    ensures fewer { OnOk result (length list.new.ids < length list.old.ids) }
    ensures whole { OnOk result (list.new.whole ≡ list.old.whole) }
    ensures fault { IfErr result (IsListFault list.old.whole) }
{
    sections.id(id)?;
    if list.has_long_run() {
        let run = list.run(id, limit);
        sections.encoded_run(&run)?;
    }
    list.advance(id)?;
    Ok(())
}

/// Whether the number is below the limit, if there is one.
fn is_within(id: u32, limit: Option<u32>) -> bool
    ensures below { result ≡ true → IsBelow limit id }
    ensures above { result ≡ false → BeginFrom limit (id ∷ []) }
{
    match limit {
        None => true,
        Some(limit) => id < limit,
    }
}

/// The minimum of two optional numbers.
pub(crate) fn lower(one: Option<u32>, other: Option<u32>) -> Option<u32>
    ensures { result ≡ lower_of one other }
{
    match (one, other) {
        (None, _) => other,
        (Some(_), None) => one,
        (Some(first), Some(second)) => if second < first { other } else { one },
    }
}
