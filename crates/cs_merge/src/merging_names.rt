// The merge of the names of both indexes: a two-way merge in ascending order, whatever order their
// ids have.
ghost use Rattle.std.specs.Prelude.{◌≡◌, ◌<◌, ◌≤◌, ◌+◌, ◌^◌, ◌∷◌, ◌++◌, [], true, false, Some, length, IfOk, OnOk, option_copied, slice_get, IfErr, MatchOption};
ghost use Rattle.std.specs.Option.{option_map_or};
ghost use Rattle.std.specs.Ordering.{is_lt};
ghost use Rattle.cs_merge.specs.Cited.{bytes_cmp, is_above, is_storable, with_written_name, is_covered, sorted_names, AreSortedNames, AreIndexNames, AreDropped, AreMergedNames, IsMergingNames, AreByRank, max_ids, are_distinct, are_ascending};
ghost use Rattle.cs_tree.specs.PathSet as set;

use crate::id_map::{IdMap, IdMaps};
use crate::replacing::Cover;
use cs_index::{NameTable, Sections};
use std::alloc::{AllocError, Global};
use std::marker::Model;

/// The names of an index, and the permutation that sorts them if they do not ascend.
#[derive(Drop)]
pub(crate) struct SortedNames<'a> {
    names: NameTable<'a>,
    order: Option<Vec<u32>>,
}

impl<'a> Model for SortedNames<'a> {
    ghost use Rattle.std.specs.Prelude.{option_map};
    ghost use Rattle.cs_merge.specs.SortedNames.{SortedNames as SortedNames'};

    ghost Value = { SortedNames' };

    ghost view = { λ s. record {
      names = s.names;
      order = option_map (λ ids. ids.items) s.order;
    } };
}

impl<'a> SortedNames<'a> {
    /// Sorts the names; `None` if a name occurs twice. Allocates nothing if the names ascend.
    pub(crate) fn of(
        alloc: Global,
        names: NameTable<'a>,
    ) -> Result<Option<SortedNames<'a>>, AllocError>
        requires { AreIndexNames names }
        ensures sorted { IfOk result (λ found. MatchOption found (are_distinct names.entry ≡ false)
            (λ ordered. (ordered.names ≡ names.entry) × AreSortedNames ordered)) }
        ensures refused { IfErr result (λ _. are_ascending names.entry ≡ false) }
    {
        if names.in_order() {
            return Ok(Some(SortedNames { names, order: None }));
        }
        match names.order(alloc)? {
            None => Ok(None),
            Some(ids) => Ok(Some(SortedNames {
                names,
                order: Some(ids),
            })),
        }
    }

    /// The name of a rank, which is the number of names below it.
    pub(crate) fn name(&self, rank: u32) -> Option<&'a str>
        requires { AreSortedNames self.now }
        ensures { option_copied result ≡ slice_get (sorted_names self.now) rank }
    {
        match &self.order {
            None => self.names.name(rank),
            Some(ids) => self.names.name(*ids.get(rank as usize)?),
        }
    }

    /// Turns a map of ranks into a map of ids.
    pub(crate) fn by_id(&self, alloc: Global, ranks: IdMap) -> Result<IdMap, AllocError>
        requires sorted { AreSortedNames self.now }
        requires all { length ranks ≡ length self.now.names }
        ensures { IfOk result (λ new_ids. AreByRank self.now ranks new_ids) }
    {
        match &self.order {
            None => Ok(ranks),
            Some(ids) => ranks.scatter(alloc, ids),
        }
    }
}

/// Writes the merged names in order, and returns the new id of each old id. Old names that a path
/// of the cover, which are the newer paths, covers are dropped.
pub(crate) fn merge_names(
    alloc: Global,
    sections: &mut Sections,
    old: &SortedNames<'_>,
    newer: &SortedNames<'_>,
    cover: &Cover<'_>,
) -> Result<IdMaps, AllocError>
    requires old_sorted { AreSortedNames old.now }
    requires newer_sorted { AreSortedNames newer.now }
    requires covered { AreDropped (is_covered (set.from_list cover.now)) newer.now.names }
    requires unnamed { sections.old.names ≡ [] }
    requires unlisted { sections.old.lists ≡ [] }
    ensures paths { OnOk result (sections.new.paths ≡ sections.old.paths) }
    ensures unlisted { OnOk result (sections.new.lists ≡ []) }
    ensures sent { OnOk result (sections.new.sent ≡ sections.old.sent) }
    ensures ids { IfOk result (λ ids. AreMergedNames (is_covered (set.from_list cover.now))
        old.now.names newer.now.names sections.new.names ids.older ids.newer) }
{
    let mut ranks = IdMaps {
        older: IdMap::new(alloc),
        newer: IdMap::new(alloc),
    };
    'names: while merge_next_name(sections, old, newer, cover, &mut ranks)? {}
    Ok(IdMaps {
        older: old.by_id(alloc, ranks.older)?,
        newer: newer.by_id(alloc, ranks.newer)?,
    })
}

/// Writes or drops the lowest remaining name. False if none remains.
fn merge_next_name(
    sections: &mut Sections,
    old: &SortedNames<'_>,
    newer: &SortedNames<'_>,
    cover: &Cover<'_>,
    ranks: &mut IdMaps,
) -> Result<bool, AllocError>
    requires old_sorted { AreSortedNames old.now }
    requires newer_sorted { AreSortedNames newer.now }
    requires covered { AreDropped (is_covered (set.from_list cover.now)) newer.now.names }
    requires so_far { IsMergingNames (is_covered (set.from_list cover.now)) old.now newer.now
        sections.old sections.old ranks.old.older ranks.old.newer }
    ensures so_far { OnOk result (IsMergingNames (is_covered (set.from_list cover.now))
        old.now newer.now sections.old sections.new ranks.new.older ranks.new.newer) }
    ensures more { IfOk result (λ more. more ≡ true → length ranks.new.older + length ranks.new.newer
        ≡ length ranks.old.older + length ranks.old.newer + 1) }
    ensures all { IfOk result (λ more. more ≡ false → (length (sorted_names old.now) ≤ length ranks.new.older)
        × (length (sorted_names newer.now) ≤ length ranks.new.newer)) }
{
    let next = newer.name(ranks.newer.len());
    if let Some(name) = old.name(ranks.older.len()) {
        if is_below(name, next) {
            if cover.covers(name) {
                ranks.older.push(None)?;
            } else {
                write_name(sections, &mut ranks.older, name)?;
            }
            return Ok(true);
        }
    }
    let Some(name) = next else {
        return Ok(false);
    };
    write_name(sections, &mut ranks.newer, name)?;
    Ok(true)
}

/// Whether the name is below the next one, if there is one.
fn is_below(name: &str, next: Option<&str>) -> bool
    ensures { result
        ≡ option_map_or (λ text. is_lt (bytes_cmp name.now text)) (option_copied next.entry) true }
{
    match next {
        None => true,
        Some(next) => name < next,
    }
}

/// Writes the name and maps its rank to the id that it gets.
fn write_name(sections: &mut Sections, new_ids: &mut IdMap, name: &str) -> Result<(), AllocError>
    requires unlisted { sections.old.lists ≡ [] }
    requires storable { is_storable name.now ≡ true }
    requires above { is_above sections.old.names name.now ≡ true }
    requires bound { length sections.old.names < max_ids }
    ensures sections { OnOk result (sections.new ≡ with_written_name sections.old name.now) }
    ensures ids { OnOk result (new_ids.new ≡ new_ids.old ++ Some (length sections.old.names) ∷ []) }
{
    let id = sections.name(name)?;
    new_ids.push(Some(id))
}
