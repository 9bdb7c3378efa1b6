// Jobs that walk, and their cleaned paths.
ghost use Rattle.std.specs.Prelude.{◌≡◌, false, Some, None, map, string_bytes, IfOk, IfErr, true, MatchResult};
ghost use Rattle.cs_cindex.specs.Cited.{count_after, KeepsStore, HasAbsoluteFolder, MergesOver, OnlyReads, effects, AreCleaned, walk_starts, IsCleanFault, AreCleanFault, KeepsOldIndex, KeepsTree, refusal_of, IsReducedIndex, ReplacesBase, IsFit, IsIndex, is_failed_write, base, base_fault, early_walk_fault, Sends, SendsOver, AnswersWalk, WalksOver, is_absolute, clean_path, clean_fault, first_bad};
ghost use Rattle.cs_tree.specs.PathSet as set;

use crate::indexer::index_paths;
use crate::job::JobCall;
use crate::old::open_old;
use cs_args::{CindexFault, IndexJob};
use cs_index::{Index, IndexFault, Tables};
use cs_merge::{MergeFault, is_replaced, is_whole_stored, merge_stored};
use cs_tree::{IoFault, Output, PathFault, Sent, Sink, Store, Tree, clean, reduce};
use std::alloc::{AllocError, Global};

/// Sends the index after a job that walks, over the old index, or over none with `-reset`.
pub(crate) fn walked_index<S: Store, T: Tree, W: Output, E: Sink>(
    call: JobCall<'_>,
    old: &mut Option<S>,
    tree: &mut T,
    new: &mut W,
    err: &mut E,
) -> Result<Result<Sent, CindexFault>, IoFault>
    requires { HasAbsoluteFolder call.job.now }
    ensures walk { WalksOver call.entry.job.now (IsIndex S.model old.old)
        (base call.entry.job.now) (early_walk_fault call.entry.job.now)
        (effects T.snapshot T.failed E.model E.failed tree.old tree.new err.old err.new) result }
    ensures unread { IfErr result (λ _. call.entry.job.now.reset ≡ false) }
    ensures sends { SendsOver W.given W.Keeps new.old new.new result }
    ensures store { KeepsOldIndex S.model S.size S.failed old.old old.new result }
    ensures tree { KeepsTree T.snapshot T.longest_requested T.read_counts tree.old tree.new }
{
    let JobCall { alloc, job } = call;
    let given = match clean_all(alloc, &job.cwd, &job.paths) {
        Ok(given) => given,
        Err(fault) => return Ok(Err(fault)),
    };
    match old {
        Some(store) if !job.reset => extended_index(call, store, &given, tree, new, err),
        _ => Ok(new_index(alloc, &given, job, tree, new, err)),
    }
}

/// Cleans the paths: makes each absolute and lexically clean.
///
/// # Errors
///
/// `BadPath` with the index of the first path that cannot be cleaned.
pub(crate) fn clean_all(
    alloc: Global,
    folder: &str,
    paths: &[String],
) -> Result<Vec<String>, CindexFault>
    requires { is_absolute folder.now ≡ true }
    ensures cleaned { IfOk result (λ given. map string_bytes given.items ≡
        map (λ text. clean_path folder.now text) (map string_bytes paths.now)) }
    ensures fault { MatchResult result (λ _. first_bad folder.now (map string_bytes paths.now) ≡ None)
        (λ fault. AreCleanFault folder.now (map string_bytes paths.now) fault) }
{
    let mut given = Vec::new(alloc);
    'paths: for (path_index, path) in paths.iter().enumerate() {
        let cleaned = clean_one(alloc, folder, path, path_index)?;
        given.push(cleaned)?;
    }
    Ok(given)
}

/// Sends the index of what the job finds below its cleaned paths, without a base index.
#[tactic(auto, using(crate::proofs::JobOutputLemmas::nothing_printed))]
fn new_index<T: Tree, W: Output, E: Sink>(
    alloc: Global,
    given: &[String],
    job: &IndexJob,
    tree: &mut T,
    new: &mut W,
    err: &mut E,
) -> Result<Sent, CindexFault>
    requires { AreCleaned job.now (map string_bytes given.now) }
    ensures walk { AnswersWalk job.now None (base_fault job.now None)
        (effects T.snapshot T.failed E.model E.failed tree.old tree.new err.old err.new) result }
    ensures writes { E.failed err.new ≡ count_after is_failed_write result (E.failed err.old) }
    ensures sends { Sends W.given W.Keeps new.old new.new result }
    ensures tree { KeepsTree T.snapshot T.longest_requested T.read_counts tree.old tree.new }
{
    if given.is_empty() {
        return Err(CindexFault::NoIndex);
    }
    let paths = reduce(alloc, given)?;
    let index = index_paths(alloc, tree, &paths, job.log_skip, new, err)?;
    Ok(index)
}

/// Sends the base index, merged with what the job finds below its cleaned paths, or, if it has
/// none, below those of the base index. Where these cover the base index, the index of what is
/// found is the merged one, and is sent as it is made.
fn extended_index<S: Store, T: Tree, W: Output, E: Sink>(
    call: JobCall<'_>,
    store: &mut S,
    given: &[String],
    tree: &mut T,
    new: &mut W,
    err: &mut E,
) -> Result<Result<Sent, CindexFault>, IoFault>
    requires { AreCleaned call.job.now (map string_bytes given.now) }
    ensures walk { WalksOver call.entry.job.now (IsIndex S.model (Some store.old))
        (λ index. index) (base_fault call.entry.job.now)
        (effects T.snapshot T.failed E.model E.failed tree.old tree.new err.old err.new) result }
    ensures sends { SendsOver W.given W.Keeps new.old new.new result }
    ensures store { KeepsStore S.model S.size S.failed store.old store.new result }
    ensures tree { KeepsTree T.snapshot T.longest_requested T.read_counts tree.old tree.new }
{
    let JobCall { alloc, job } = call;
    let base = match open_old(alloc, store) {
        Ok(Ok(base)) => base,
        Ok(Err(fault)) => return Ok(Err(fault)),
        Err(fault) => return Err(fault),
    };
    let tables = base.tables();
    let paths = match paths_to_walk(alloc, &tables, given) {
        Ok(paths) => paths,
        Err(AllocError) => return Ok(Err(CindexFault::Memory)),
    };
    if is_replaced(&tables, &paths) {
        return match index_paths(alloc, tree, &paths, job.log_skip, new, err) {
            Ok(index) => replace_old(alloc, store, &tables, index),
            Err(fault) => Ok(Err(fault)),
        };
    }
    let mut newer = Vec::new(alloc);
    match index_paths(alloc, tree, &paths, job.log_skip, &mut newer, err) {
        Ok(_) => merge_old(alloc, store, &tables, &newer, new),
        Err(fault) => Ok(Err(fault)),
    }
}

/// The reduced paths that a job walks: its own, or, if it has none, those of the index.
fn paths_to_walk(
    alloc: Global,
    tables: &Tables<'_>,
    given: &[String],
) -> Result<Vec<String>, AllocError>
    ensures { IfOk result (λ paths. map string_bytes paths.items ≡
        set.items (walk_starts (map string_bytes given.now) tables.now.paths)) }
{
    if !given.is_empty() {
        let paths = reduce(alloc, given)?;
        return Ok(paths);
    }
    let mut recorded = Vec::new(alloc);
    tables.paths().append_to(alloc, &mut recorded)?;
    let paths = reduce(alloc, &recorded)?;
    Ok(paths)
}

/// The index of a walk whose paths cover the base index, unless a list of that is damaged.
fn replace_old<S: Store>(
    alloc: Global,
    store: &mut S,
    old: &Tables<'_>,
    index: Sent,
) -> Result<Result<Sent, CindexFault>, IoFault>
    requires fit { IsFit old.now }
    requires newer { ReplacesBase index.bytes old.now }
    ensures merged { MergesOver (S.model store.old) old.now index.bytes result }
    ensures same { IfOk result (λ answer. IfOk answer (λ sent. sent ≡ index)) }
    ensures reads { OnlyReads result }
    ensures store { KeepsStore S.model S.size S.failed store.old store.new result }
{
    match is_whole_stored(alloc, store, old) {
        Ok(true) => Ok(Ok(index)),
        Ok(false) => Ok(Err(CindexFault::BadIndex(IndexFault::BadList))),
        Err(IoFault::Memory) => Ok(Err(CindexFault::Memory)),
        Err(IoFault::Failed) => Err(IoFault::Failed),
    }
}

/// Sends the base index, merged with that of a walk.
fn merge_old<S: Store, W: Output>(
    alloc: Global,
    store: &mut S,
    old: &Tables<'_>,
    newer: &[u8],
    new: &mut W,
) -> Result<Result<Sent, CindexFault>, IoFault>
    requires fit { IsFit old.now }
    requires newer { IsReducedIndex newer.now }
    ensures merged { MergesOver (S.model store.old) old.now newer.now result }
    ensures reads { OnlyReads result }
    ensures sends { SendsOver W.given W.Keeps new.old new.new result }
    ensures store { KeepsStore S.model S.size S.failed store.old store.new result }
{
    let index = match Index::open(newer) {
        Ok(index) => index,
        Err(fault) => return Ok(Err(CindexFault::from(fault))),
    };
    match merge_stored(alloc, store, u32::MAX, old, &index, new) {
        Ok(Ok(index)) => Ok(Ok(index)),
        Ok(Err(fault)) => Ok(Err(merge_refusal(fault))),
        Err(IoFault::Memory) => Ok(Err(CindexFault::Memory)),
        Err(IoFault::Failed) => Err(IoFault::Failed),
    }
}

/// An error of the merge, as that of a job. `Unsorted` and `Uncovered` do not occur: the names of
/// the base index were tested, and the newer index is that of a walk.
fn merge_refusal(fault: MergeFault) -> CindexFault
    ensures { result ≡ refusal_of fault }
{
    match fault {
        MergeFault::Unsorted => CindexFault::Unsorted,
        MergeFault::Uncovered => CindexFault::BadIndex(IndexFault::BadNames),
        MergeFault::Index(fault) => CindexFault::from(fault),
        MergeFault::TooLarge => CindexFault::TooLarge,
        MergeFault::Memory => CindexFault::Memory,
    }
}

/// Cleans the path with this index.
fn clean_one(
    alloc: Global,
    folder: &str,
    path: &str,
    path_index: usize,
) -> Result<String, CindexFault>
    requires { is_absolute folder.now ≡ true }
    ensures cleaned { IfOk result (λ given. string_bytes given ≡ clean_path folder.now path.now) }
    ensures fault { MatchResult result (λ _. clean_fault folder.now path.now ≡ None)
        (λ fault. IsCleanFault folder.now path.now path_index fault) }
{
    match clean(alloc, folder, path) {
        Ok(given) => Ok(given),
        Err(PathFault::Memory) => Err(CindexFault::Memory),
        Err(_) => Err(CindexFault::BadPath(path_index)),
    }
}
