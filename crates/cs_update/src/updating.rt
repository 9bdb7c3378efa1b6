// A first state, and the update of one.
ghost use Rattle.std.specs.Prelude.{◌≡◌, ◌∷◌, [], true, ℕ, List, Some, IfOk, map, string_bytes};
ghost use Rattle.cs_state.specs.Sums.{seal_of};
ghost use Rattle.cs_update.specs.Cited.{are_ascending, DecodesAs, Snapshot, Parts, TablesIn, IsOpenState, IsFirstState, IsUpdatedState, run_of, seen_by, IsMergedState, IsWritten};

use crate::fault::UpdateFault;
use crate::learning::learn_files;
use crate::own_paths::own_paths;
use crate::types::UpdateCall;
use cs_index::{Builder, Index, OldIndex};
use cs_merge::merge_stored;
use cs_state::{StateFile, SummedBytes, SummedOutput};
use cs_tree::{Look, Output, Store};
use std::alloc::{AllocError, Global};

/// Gives an output the first state of a project: what the run learns of its files.
///
/// # Errors
///
/// `TooLarge` if the state would have 2^32 bytes; and those of `learn_files`.
pub fn first_state<T: Look, O: Output + Drop>(
    call: &UpdateCall<'_>,
    tree: &mut T,
    out: O,
) -> Result<O, UpdateFault>
    requires { O.given out ≡ [] }
    ensures first { (items : Snapshot) → T.snapshot tree.old ≡ Some items → IfOk result (λ out.
        IsFirstState call.now.key (run_of call.now items (T.stamps items)) (seen_by call.now) (O.given out)) }
    ensures keeps { T.snapshot tree.new ≡ T.snapshot tree.old }
{
    let paths = root_path(call.alloc)?;
    let own = learn_files(call, tree, &paths)?;
    let out = write_learned(call, own, out)?;
    Ok(out)
}

/// The path of an index of a whole project.
fn root_path(alloc: Global) -> Result<Vec<String>, AllocError>
    ensures { IfOk result (λ paths. map string_bytes paths.items ≡ (47 ∷ []) ∷ []) }
{
    let mut paths = Vec::new(alloc);
    paths.push(String::from_str(alloc, "/")?)?;
    Ok(paths)
}

/// Gives an output the state of what was learned.
fn write_learned<O: Output + Drop>(
    call: &UpdateCall<'_>,
    own: Builder,
    out: O,
) -> Result<O, UpdateFault>
    requires { O.given out ≡ [] }
    ensures { IfOk result (λ out. IsWritten (seal_of call.now.key call.now.moment) own (O.given out)) }
{
    let mut out = SummedOutput::new(call.alloc, out, call.key, call.moment);
    own.finish_into(&mut out, u32::MAX)?;
    let out = out.finish()?;
    Ok(out)
}

/// Gives an output the old state, updated by what the run learns: what is known of the files that
/// it saw is replaced.
///
/// # Errors
///
/// `BadState` if the old state is damaged, or its names do not ascend; `TooLarge` if the new one
/// would have 2^32 bytes; and those of `learn_files`.
pub fn update_state<S: Store + Drop, T: Look, O: Output + Drop>(
    call: &UpdateCall<'_>,
    state: StateFile<S>,
    tree: &mut T,
    out: O,
) -> Result<O, UpdateFault>
    requires { O.given out ≡ [] }
    ensures updated { (items : Snapshot) (old : Parts) → T.snapshot tree.old ≡ Some items →
        IsOpenState (⟦<SummedBytes<S> as Store>⟧.model state.bytes) state.index old →
        IfOk result (λ out. IsUpdatedState call.now.key (run_of call.now items (T.stamps items))
        (seen_by call.now) old (O.given out)) }
    ensures keeps { T.snapshot tree.new ≡ T.snapshot tree.old }
{
    let StateFile { mut bytes, .. } = state;
    let paths = own_paths(call.alloc, call.files)?;
    let own = learn_files(call, tree, &paths)?;
    let out = merge_learned(call, &mut bytes, own, out)?;
    Ok(out)
}

/// Gives an output the state of the index in a store, merged with what was learned.
fn merge_learned<S: Store, O: Output + Drop>(
    call: &UpdateCall<'_>,
    store: &mut S,
    own: Builder,
    out: O,
) -> Result<O, UpdateFault>
    requires { O.given out ≡ [] }
    ensures { (index : List ℕ) (old : Parts) → S.model store.old ≡ Some index → DecodesAs index old →
        IfOk result (λ out. IsMergedState (seal_of call.now.key call.now.moment) own old (O.given out)) }
{
    let own = own.finish_within(u32::MAX)?;
    let Ok(newer) = Index::open(&own) else {
        return Err(UpdateFault::Memory);
    };
    let base = open_base(call.alloc, store)?;
    let tables = base.tables();
    let mut new = SummedOutput::new(call.alloc, out, call.key, call.moment);
    merge_stored(call.alloc, store, u32::MAX, &tables, &newer, &mut new)??;
    let out = new.finish()?;
    Ok(out)
}

/// Opens the index of an old state, whose names have to ascend.
fn open_base<S: Store>(alloc: Global, store: &mut S) -> Result<OldIndex, UpdateFault>
    ensures base { (index : List ℕ) → S.model store.old ≡ Some index → IfOk result (λ base.
        (parts : Parts) × TablesIn index base parts × (are_ascending parts.names ≡ true)) }
    ensures store { S.model store.new ≡ S.model store.old }
{
    let Ok(base) = OldIndex::open(alloc, store)? else {
        return Err(UpdateFault::BadState);
    };
    if !base.tables().name_table().in_order() {
        return Err(UpdateFault::BadState);
    }
    Ok(base)
}
