// Jobs: one, and lists of them.
ghost use Rattle.std.specs.Prelude.{ℕ, List, Option, option_map, vec_items, IfOk, option_copied, ◌≡◌, map, length, All, zip};
ghost use Rattle.cs_cindex.specs.Cited.{KeepsOldIndex, KeepsTree, KeepsTrees, IsIndex, IsStepTo, IsWholeStepTo, RightAfter, reply_of, job_tree, RunsJob, SendsUpdate, IsWholeStep, LeavesFlushed, outputs, state, RightAll, Steps, job_trees, HasAbsoluteFolder, Indexes};

use crate::printing::list_old;
use crate::walked::walked_index;
use cs_args::{CindexFault, IndexJob, Reply};
use cs_storage::IndexUpdate;
use cs_tree::{IoFault, MemStore, Output, Sink, Store, Tree};
use std::alloc::Global;

/// A job to run, and the allocator for its work.
#[derive(Clone, Copy, Drop)]
pub struct JobCall<'a> {
    pub alloc: Global,
    pub job: &'a IndexJob,
}

/// Runs a job as `cindex` does, over an old index in a store, and sends the bytes of the new index
/// to `new`. Only the paths, names and tables of the old index are in memory. Each of its posting
/// lists is read once, after the walk; `-list` and `-reset` read none. A job that fails may have
/// sent any bytes.
///
/// # Errors
///
/// The outer result is that of the store. If a read of it fails, nothing was printed, or all
/// diagnostics of the walk; the outputs are not flushed then.
pub fn cindex_stored<S: Store, T: Tree, W: Output, O: Sink, E: Sink>(
    call: JobCall<'_>,
    old: &mut Option<S>,
    tree: &mut T,
    new: &mut W,
    out: &mut O,
    err: &mut E,
) -> Result<Result<IndexUpdate, CindexFault>, IoFault>
    requires { HasAbsoluteFolder call.job.now }
    ensures replies { (index : Option (List ℕ)) → IsIndex S.model old.old index →
        IfOk result (λ update.
        RightAfter (T.snapshot tree.old) index call.entry.job.now (reply_of update)) }
    ensures runs { RunsJob IsWholeStepTo call.entry.job.now
        (job_tree T.snapshot T.failed tree.old tree.new) (IsIndex S.model old.old)
        (outputs O.model O.failed E.model E.failed out.old err.old)
        (outputs O.model O.failed E.model E.failed out.new err.new) result }
    ensures flushed { IfOk result (λ update. LeavesFlushed (reply_of update)
        (outputs O.model O.failed E.model E.failed out.new err.new)) }
    ensures sends { SendsUpdate W.given W.Keeps new.old new.new result }
    ensures store { KeepsOldIndex S.model S.size S.failed old.old old.new result }
    ensures tree { KeepsTree T.snapshot T.longest_requested T.read_counts tree.old tree.new }
{
    let update = match update_of(call, old, tree, new, out, err) {
        Ok(Ok(update)) => update,
        Ok(Err(fault)) => return Ok(Err(fault)),
        Err(fault) => return Err(fault),
    };
    // At the end the outputs are flushed, before the new bytes are kept.
    if let Err(fault) = out.flush() {
        return Ok(Err(CindexFault::from(fault)));
    }
    if let Err(fault) = err.flush() {
        return Ok(Err(CindexFault::from(fault)));
    }
    Ok(Ok(update))
}

/// Runs the jobs in order, each over its tree, and returns the index after them; `None` is no
/// index. Each reply is the result of its job: a job that fails leaves the index unchanged, and the
/// next job runs. Paths of the index are printed on `out`, and diagnostics of skipped paths and
/// files on `err`. Each job that has not failed by then ends by flushing `out`, then `err`, once
/// each, before its index is kept.
pub fn cindex<T: Tree, O: Sink, E: Sink>(
    alloc: Global,
    old: Option<Vec<u8>>,
    jobs: &[IndexJob],
    trees: &mut [T],
    replies: &mut [Reply],
    out: &mut O,
    err: &mut E,
) -> Option<Vec<u8>>
    requires trees { length trees.old ≡ length jobs.now }
    requires replies { length replies.old ≡ length jobs.now }
    requires folders { All HasAbsoluteFolder jobs.now }
    ensures indexes { Indexes jobs.now (map T.snapshot trees.old) replies.new
        (option_map vec_items old) (option_map vec_items result) }
    ensures replies { RightAll (map T.snapshot trees.old) (option_map vec_items old)
        jobs.now replies.new }
    ensures steps { Steps (zip jobs.now (zip (job_trees T.snapshot T.failed trees.old trees.new) replies.new))
        (state O.model O.failed E.model E.failed (option_map vec_items old) out.old err.old)
        (state O.model O.failed E.model E.failed (option_map vec_items result) out.new err.new) }
    ensures trees { KeepsTrees T.snapshot T.longest_requested T.read_counts trees.old trees.new }
{
    let mut index = old;
    'jobs: for i in 0..jobs.len() {
        let (next, reply) = do_job(alloc, index, &jobs[i], &mut trees[i], out, err);
        index = next;
        replies[i] = reply;
    }
    index
}

/// Runs a job over the bytes of the old index, and returns the index after it and its reply.
fn do_job<T: Tree, O: Sink, E: Sink>(
    alloc: Global,
    old: Option<Vec<u8>>,
    job: &IndexJob,
    tree: &mut T,
    out: &mut O,
    err: &mut E,
) -> (Option<Vec<u8>>, Reply)
    requires { HasAbsoluteFolder job.now }
    ensures replies { RightAfter (T.snapshot tree.old) (option_map vec_items old) job.now result.1 }
    ensures step { IsWholeStep job.now (job_tree T.snapshot T.failed tree.old tree.new) result.1
        (state O.model O.failed E.model E.failed (option_map vec_items old) out.old err.old)
        (state O.model O.failed E.model E.failed (option_map vec_items result.0) out.new err.new) }
    ensures tree { KeepsTree T.snapshot T.longest_requested T.read_counts tree.old tree.new }
{
    let mut store = stored(old.as_deref());
    let mut new = Vec::new(alloc);
    match cindex_stored(JobCall { alloc, job }, &mut store, tree, &mut new, out, err) {
        Ok(Ok(IndexUpdate::Keep)) => (old, Reply::Done),
        Ok(Ok(IndexUpdate::Remove)) => (None, Reply::Done),
        Ok(Ok(IndexUpdate::Write(_))) => (Some(new), Reply::Done),
        // A job that fails leaves the old index.
        Ok(Err(fault)) => (old, Reply::Refused(fault)),
        // No read of a store in memory fails.
        Err(_) => unreachable!(),
    }
}

/// A store of the bytes of an index, if there is one.
fn stored<'a>(old: Option<&'a [u8]>) -> Option<MemStore<'a>>
    ensures { IsIndex ⟦<MemStore<'a> as Store>⟧.model result (option_copied old.entry) }
{
    match old {
        Some(bytes) => Some(MemStore::new(bytes, usize::MAX)),
        None => None,
    }
}

/// The change of the index by a job, before the outputs are flushed.
fn update_of<S: Store, T: Tree, W: Output, O: Sink, E: Sink>(
    call: JobCall<'_>,
    old: &mut Option<S>,
    tree: &mut T,
    new: &mut W,
    out: &mut O,
    err: &mut E,
) -> Result<Result<IndexUpdate, CindexFault>, IoFault>
    requires { HasAbsoluteFolder call.job.now }
    ensures runs { RunsJob IsStepTo call.entry.job.now
        (job_tree T.snapshot T.failed tree.old tree.new) (IsIndex S.model old.old)
        (outputs O.model O.failed E.model E.failed out.old err.old)
        (outputs O.model O.failed E.model E.failed out.new err.new) result }
    ensures sends { SendsUpdate W.given W.Keeps new.old new.new result }
    ensures store { KeepsOldIndex S.model S.size S.failed old.old old.new result }
    ensures tree { KeepsTree T.snapshot T.longest_requested T.read_counts tree.old tree.new }
{
    let JobCall { alloc, job } = call;
    if job.list {
        return match list_old(alloc, old, out) {
            Ok(Ok(())) => Ok(Ok(IndexUpdate::Keep)),
            Ok(Err(fault)) => Ok(Err(fault)),
            Err(fault) => Err(fault),
        };
    }
    if job.reset && job.paths.is_empty() {
        return Ok(Ok(IndexUpdate::Remove));
    }
    match walked_index(call, old, tree, new, err) {
        Ok(Ok(index)) => Ok(Ok(IndexUpdate::Write(index))),
        Ok(Err(fault)) => Ok(Err(fault)),
        Err(fault) => Err(fault),
    }
}
