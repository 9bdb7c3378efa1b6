// The base index: the index that a job updates.
ghost use Rattle.std.specs.Prelude.{◌≡◌, ℕ, List, Some, false, IfErr, IfOk};
ghost use Rattle.std.specs.List.{list_all};
ghost use Rattle.cs_cindex.specs.Cited.{OpensAsTables, AreIndexNames, are_distinct, KeepsStore, OnlyReads, OpensBase, IsFit, is_failed_write};
ghost use Rattle.cs_tree.specs.Cleaning.{is_normalized as is_normalized'};

use cs_args::CindexFault;
use cs_index::{IndexFault, NameTable, OldIndex, Texts};
use cs_tree::{IoFault, Store, is_normalized};
use std::alloc::{AllocError, Global};

/// Opens a base index in a store. No posting list is read.
pub(crate) fn open_old<S: Store>(
    alloc: Global,
    store: &mut S,
) -> Result<Result<OldIndex, CindexFault>, IoFault>
    ensures opened { (bytes : List ℕ) → S.model store.old ≡ Some bytes →
        IfOk result (OpensBase bytes) }
    ensures fit { IfOk result (λ opened. IfOk opened IsFit) }
    ensures reads { OnlyReads result }
    ensures store { KeepsStore S.model S.size S.failed store.old store.new result }
{
    match OldIndex::open(alloc, store) {
        Ok(opened) => Ok(tested(alloc, opened)),
        Err(IoFault::Memory) => Ok(Err(CindexFault::Memory)),
        Err(IoFault::Failed) => Err(IoFault::Failed),
    }
}

/// An index that can be a base: its paths are normalized, and its names are distinct. Allocates
/// only if the names do not ascend.
fn tested(alloc: Global, opened: Result<OldIndex, IndexFault>) -> Result<OldIndex, CindexFault>
    ensures opened { (bytes : List ℕ) → OpensAsTables bytes opened → OpensBase bytes result }
    ensures fit { IfOk result IsFit }
    ensures writes { IfErr result (λ fault. is_failed_write fault ≡ false) }
{
    let base = opened?;
    let tables = base.tables();
    if !are_normalized(tables.paths()) {
        return Err(CindexFault::BadIndex(IndexFault::BadPaths));
    }
    tables.are_valid();
    if !are_distinct(alloc, tables.name_table())? {
        return Err(CindexFault::Unsorted);
    }
    Ok(base)
}

/// Whether the names are distinct. Allocates only if they do not ascend.
fn are_distinct(alloc: Global, names: NameTable<'_>) -> Result<bool, AllocError>
    requires { AreIndexNames names }
    ensures { IfOk result (λ distinct. distinct ≡ are_distinct names.entry) }
{
    if names.in_order() {
        return Ok(true);
    }
    let order = names.order(alloc)?;
    Ok(order.is_some())
}

/// Whether each path is normalized.
fn are_normalized(paths: Texts<'_>) -> bool
    ensures { result ≡ list_all is_normalized' paths.entry }
{
    'paths: for path in paths {
        if !is_normalized(path) {
            return false;
        }
    }
    true
}
