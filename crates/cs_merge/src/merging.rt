// The merge of an index with a newer one.
ghost use Rattle.std.specs.Prelude.{◌≡◌, ℕ, List, [], Some, map, string_bytes, IfErr, IfOk, MatchResult};
ghost use Rattle.std.specs.List.{AllByRecursion};
ghost use Rattle.cs_merge.specs.Cited.{KeepsStore, is_covered, least, IsString, encoding_of, Parts, paths_in, TablesIn, IsSentOn, entries_written, AreMergedNames, IsBegun, IsBegunWith, known_parts, IsStored, merge_paths, AreTested, most_bytes, IsBuildFault, IsGivenIndex, IsIndexWithin, IsMerged, IsMergeAnswer, IsMergeFault, AreIndexNames, AreTestedNames};
ghost use Rattle.cs_tree.specs.PathSet as set;

use crate::fault::MergeFault;
use crate::id_map::IdMaps;
use crate::merging_lists::BothRuns;
use crate::merging_names::{SortedNames, merge_names};
use crate::merging_trigrams::{Sides, are_valid, merge_lists};
use crate::replacing::{Cover, is_under};
use cs_index::{BuildFault, Index, NameTable, Sections, Tables, Texts};
use cs_tree::{IoFault, MemStore, Output, Sent, Store, reduce};
use std::alloc::{AllocError, Global};

/// Merges two indexes. At a name that a newer path covers, the newer index takes precedence; other
/// names stay as they are. The paths are those of both indexes that no other path covers. Names may
/// be in any order.
///
/// Errors, in this order: `Unsorted` for a name that occurs twice in an index, `Uncovered` for a
/// newer name under no newer path, `Index(BadList)` for a damaged list, `TooLarge` for more than
/// 2^32 - 1 bytes. `Memory` if an allocation fails: the test for `Unsorted` allocates only if the
/// names of an index do not ascend, and the test for `Uncovered` allocates nothing.
pub fn merge(alloc: Global, old: &Index<'_>, newer: &Index<'_>) -> Result<Vec<u8>, MergeFault>
    ensures { MatchResult result (λ index. IsMerged old.now newer.now most_bytes index.items)
        (λ fault. IsMergeFault old.now newer.now most_bytes fault) }
{
    let bytes = old.bytes();
    let mut store = MemStore::new(bytes, usize::MAX);
    let tables = Tables::of(bytes);
    let mut index = Vec::new(alloc);
    match merge_stored(alloc, &mut store, u32::MAX, &tables, newer, &mut index) {
        Ok(Ok(_sent)) => Ok(index),
        Ok(Err(fault)) => Err(fault),
        // Bytes in memory can be read; an allocation failed.
        Err(_) => Err(MergeFault::Memory),
    }
}

/// Does what `merge` does, with an old index in a store: only its tables are in memory. Each of its
/// lists is read once and to its end, in the order of the list index, so that each byte is read
/// once. The merged index is sent to an output as it is made, and has at most `most` bytes.
///
/// A failed read is an error of its own, and so is an allocation that fails while a list is read.
/// Both come after the tests for `Unsorted` and `Uncovered`.
pub fn merge_stored<'a, S: Store, O: Output>(
    alloc: Global,
    store: &mut S,
    most: u32,
    old: &'a Tables<'a>,
    newer: &'a Index<'a>,
    out: &mut O,
) -> Result<Result<Sent, MergeFault>, IoFault>
    ensures merged { (bytes : List ℕ) → S.model store.old ≡ Some bytes → (parts : Parts) →
        TablesIn bytes old.now parts → IfOk result (IsMergeAnswer parts newer.now most) }
    ensures tested { (bytes : List ℕ) → S.model store.old ≡ Some bytes → (parts : Parts) →
        TablesIn bytes old.now parts → IfErr result (λ _. AreTested parts newer.now) }
    ensures given { IfOk result (IsGivenIndex (O.given out.old) (O.given out.new)) }
    ensures keeps_out { O.Keeps out.old out.new }
    ensures store { KeepsStore S.model S.size S.failed store.old store.new result }
{
    are_valid(old);
    newer.are_valid();
    let (sections, ids) = match begin_merge(alloc, old, newer) {
        Ok(begun) => begun,
        Err(fault) => return Ok(Err(fault)),
    };
    let runs = BothRuns::new(alloc, &ids)?;
    let sides = Sides {
        older: old,
        newer,
        runs,
    };
    merge_begun(alloc, store, sections, &sides, most, out)
}

/// Merges the lists of both indexes into one that has their paths and names, and sends it.
fn merge_begun<S: Store, O: Output>(
    alloc: Global,
    store: &mut S,
    mut sections: Sections,
    sides: &Sides<'_>,
    most: u32,
    out: &mut O,
) -> Result<Result<Sent, MergeFault>, IoFault>
    requires begun { IsBegun (known_parts sides.now.older.now) sides.now.newer.now sections
        sides.now.runs.older sides.now.runs.newer }
    requires unlisted { sections.lists ≡ [] }
    requires sent { sections.sent ≡ [] }
    ensures merged { (parts : Parts) → IsStored (S.model store.old) sides.now.older.now parts →
        IfOk result (IsMergeAnswer parts sides.now.newer.now most) }
    ensures given { IfOk result (IsGivenIndex (O.given out.old) (O.given out.new)) }
    ensures keeps_out { O.Keeps out.old out.new }
    ensures store { KeepsStore S.model S.size S.failed store.old store.new result }
{
    match merge_lists(alloc, store, &mut sections, sides, most, out)? {
        Ok(()) => Ok(finish(sections, most, out)),
        Err(fault) => Ok(Err(fault)),
    }
}

/// An index of the merged paths and names, which has no lists yet, and the id maps of both indexes.
/// Tests that no name occurs twice and that the newer paths cover the newer names.
fn begin_merge(
    alloc: Global,
    old: &Tables<'_>,
    newer: &Index<'_>,
) -> Result<(Sections, IdMaps), MergeFault>
    ensures begun { IfOk result
        (λ begun. IsBegun (known_parts old.now) newer.now begun.0 begun.1.older begun.1.newer) }
    ensures unlisted { IfOk result (λ begun. begun.0.lists ≡ []) }
    ensures sent { IfOk result (λ begun. begun.0.sent ≡ []) }
    ensures fault { IfErr result (λ fault. (most : ℕ) (parts : Parts) →
        parts.names ≡ (known_parts old.now).names → IsMergeFault parts newer.now most fault) }
{
    are_valid(old);
    let names = sort_names(alloc, old.name_table(), newer)?;
    begin_merged(alloc, old.paths(), newer, &names)
}

/// The names of both indexes in ascending order.
#[derive(Drop)]
struct BothNames<'a, 'b> {
    old: SortedNames<'a>,
    newer: SortedNames<'b>,
}

/// Sorts the names of both indexes, and tests that no name occurs twice and that the newer paths
/// cover the newer names.
fn sort_names<'a, 'b>(
    alloc: Global,
    old: NameTable<'a>,
    newer: &Index<'b>,
) -> Result<BothNames<'a, 'b>, MergeFault>
    requires { AreIndexNames old }
    ensures tested { IfOk result (λ names. AreTestedNames old.entry newer.now names.old names.newer) }
    ensures fault { IfErr result (λ fault. (most : ℕ) (parts : Parts) → parts.names ≡ old.entry →
        IsMergeFault parts newer.now most fault) }
{
    newer.are_valid();
    let Some(old_names) = SortedNames::of(alloc, old)? else {
        return Err(MergeFault::Unsorted);
    };
    let Some(newer_names) = SortedNames::of(alloc, newer.name_table())? else {
        return Err(MergeFault::Unsorted);
    };
    if !is_under(newer) {
        return Err(MergeFault::Uncovered);
    }
    Ok(BothNames {
        old: old_names,
        newer: newer_names,
    })
}

/// An index of the merged paths and names, which has no lists yet, and the id maps of both indexes.
/// The newer paths cover the newer names.
fn begin_merged(
    alloc: Global,
    paths: Texts<'_>,
    newer: &Index<'_>,
    names: &BothNames<'_, '_>,
) -> Result<(Sections, IdMaps), MergeFault>
    requires paths { AllByRecursion IsString paths }
    requires tested { AreTestedNames names.now.old.names newer.now names.now.old names.now.newer }
    ensures paths { IfOk result (λ begun. begun.0.paths
        ≡ set.items (merge_paths (set.from_list paths.entry) (paths_in newer.now))) }
    ensures unlisted { IfOk result (λ begun. begun.0.lists ≡ []) }
    ensures sent { IfOk result (λ begun. begun.0.sent ≡ []) }
    ensures ids { IfOk result (λ begun. AreMergedNames (is_covered (paths_in newer.now))
        names.now.old.names newer.now.names begun.0.names begun.1.older begun.1.newer) }
    ensures fault { IfErr result (λ fault. fault ≡ MergeFault.Memory) }
{
    newer.are_valid();
    let mut sections = begin_paths(alloc, paths, newer.paths())?;
    let cover = Cover::new(alloc, newer.paths())?;
    let ids = merge_names(alloc, &mut sections, &names.old, &names.newer, &cover)?;
    Ok((sections, ids))
}

/// An index of the merged paths, which has no names and no lists yet.
fn begin_paths(alloc: Global, old: Texts<'_>, newer: Texts<'_>) -> Result<Sections, AllocError>
    requires old { AllByRecursion IsString old }
    requires newer { AllByRecursion IsString newer }
    ensures { IfOk result (IsBegunWith
        (set.items (merge_paths (set.from_list old.entry) (set.from_list newer.entry)))) }
{
    let mut paths = Vec::new(alloc);
    old.append_to(alloc, &mut paths)?;
    newer.append_to(alloc, &mut paths)?;
    begin_least(alloc, &paths)
}

/// An index of the paths that no other path covers, which has no names and no lists yet.
pub(crate) fn begin_least(alloc: Global, paths: &[String]) -> Result<Sections, AllocError>
    requires { AllByRecursion IsString (map string_bytes paths.now) }
    ensures { IfOk result (IsBegunWith (set.items (least (set.from_list (map string_bytes paths.now))))) }
{
    let kept = reduce(alloc, paths)?;
    match Sections::new(alloc, &kept) {
        Ok(sections) => Ok(sections),
        // Of valid paths, those that no other covers are valid paths of an index.
        Err(BuildFault::BadPaths) => unreachable!(),
        Err(_) => Err(AllocError),
    }
}

/// Encodes the index and sends what is not sent yet. `TooLarge` if it has more than `most` bytes.
pub(crate) fn finish<O: Output>(
    sections: Sections,
    most: u32,
    out: &mut O,
) -> Result<Sent, MergeFault>
    ensures ok { IfOk result (λ index. IsIndexWithin most
        (encoding_of sections.paths (entries_written sections)) index.bytes) }
    ensures fault { IfErr result (λ fault. IsBuildFault most
        (encoding_of sections.paths (entries_written sections)) fault) }
    ensures given { IfOk result
        (λ index. IsSentOn sections.sent index.bytes (O.given out.old) (O.given out.new)) }
    ensures keeps { O.Keeps out.old out.new }
{
    let index = sections.finish_into(out, most)?;
    Ok(index)
}
