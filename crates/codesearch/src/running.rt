// The program over any tree, input and outputs, and any store of the index file.
ghost use Rattle.std.specs.Prelude.{◌≡◌, ◌≢◌, ℕ, List, [], map, slice_get, unwrap_or, string_bytes, Bool, Option, true, false, IfOk};
ghost use Rattle.cs_tree.specs.Failures.{count_if};
ghost use Rattle.cs_storage.specs.FileAfter.{IsGiven};
ghost use Rattle.cs_history.specs.Jobs.{HasAbsoluteFolder};
ghost use Rattle.cs_cindex.specs.OldIndex.{IsIndex, IsUnreadable, has_failed};
ghost use Rattle.codesearch.specs.Program.{Between, IsCall, opened_file, Runs, DoesGrep, EndsSearch, may_update, update_of, exit_status, arg_at, path_at};
ghost use Rattle.codesearch.specs.Running.{AnswersJob, EndsRead, RefusesArgs};

use crate::call::Call;
use crate::outcome::{Outcome, ProgramFault};
use cs_args::{
    CindexFault, GrepJob, IndexJob, Job, Refusal, SearchJob, Tool, ToolFault, WordFault,
};
use cs_cindex::{JobCall, cindex_stored};
use cs_index::StoredIndex;
use cs_search::{SearchCall, Status, cgrep, csearch, csearch_stored};
use cs_storage::IndexUpdate;
use cs_tree::{IoFault, Output, Sink, Source, Store, Tree, read_part};
use std::alloc::Global;

/// The index file as it was found.
#[derive(Drop)]
pub(crate) struct FoundFile<'a, S> {
    /// Its name, for an error line.
    pub(crate) name: &'a str,
    /// The name of FILE~, for an error line.
    pub(crate) temp: &'a str,
    /// The opened file, if there is one.
    pub(crate) index: Option<S>,
}

/// What surrounds the program, except the index file.
pub(crate) struct World<T, R, O, E> {
    pub(crate) alloc: Global,
    pub(crate) tree: T,
    pub(crate) input: R,
    pub(crate) out: O,
    pub(crate) err: E,
}

// A body that owns a world drops it by a call.
impl<T: Drop, R: Drop, O: Drop, E: Drop> Drop for World<T, R, O, E> {
    fn drop(self) {
        let World {
            alloc: _alloc,
            tree: _tree,
            input: _input,
            out: _out,
            err: _err,
        } = self;
    }
}

/// Does what the arguments mean. Nothing but the job of the tool is printed; the line of an error
/// is still to be printed, and the index file to be updated. A new index goes to `new`.
pub(crate) fn run<'a, S: Store, T: Tree, R: Source, O: Sink, E: Sink, W: Output>(
    call: &'a Call<'a>,
    file: &mut FoundFile<'a, S>,
    world: &mut World<T, R, O, E>,
    new: &mut W,
) -> Outcome<'a>
    requires call { IsCall call.now }
    ensures runs { (unreadable : Bool)
        × IsUnreadable S.failed file.old.index file.new.index unreadable
        × Between T.snapshot T.failed R.model R.failed O.model O.failed E.model E.failed
        world.old world.new (λ old new.
        Runs call.now.given.now (opened_file file.old unreadable)
        (IsIndex S.model file.old.index) old new result) }
    ensures unclaimed { may_update call.now.job ≡ false → update_of result ≡ IndexUpdate.Keep }
    ensures kept { exit_status result ≢ 0 → update_of result ≡ IndexUpdate.Keep }
    ensures given { IsGiven (update_of result) (W.given new.old) (W.given new.new) }
    ensures keeps_new { W.Keeps new.old new.new }
{
    let name = file.name;
    match &call.job {
        Ok(Job::Index(job)) => ended(run_index(job, &mut file.index, world, new), name),
        Ok(Job::Search(job)) => ended(search_index(job, &mut file.index, world), name),
        Ok(Job::Grep(job)) => search_files(job, world),
        Err(fault) => ended(refuse(call, *fault, world.alloc, &mut file.index), name),
    }
}

/// How a run over the index file with this name ends, where reads of the file may fail.
fn ended<'a>(answer: Result<Outcome<'a>, IoFault>, name: &'a str) -> Outcome<'a>
    ensures { EndsRead name.now answer.entry result }
{
    match answer {
        Ok(outcome) => outcome,
        Err(IoFault::Failed) => Outcome::Refused(ProgramFault::Unreadable(name)),
        Err(IoFault::Memory) => Outcome::Refused(ProgramFault::Memory),
    }
}

/// An error of the arguments. The index file is read first, whatever the other arguments are.
fn refuse<'a, S: Store>(
    call: &'a Call<'a>,
    fault: WordFault,
    alloc: Global,
    index: &mut Option<S>,
) -> Result<Outcome<'a>, IoFault>
    ensures refused { IfOk result (RefusesArgs call.now fault) }
    ensures counted { IsUnreadable S.failed index.old index.new (has_failed result) }
{
    read_index(alloc, call.tool, index)?;
    Ok(refused(call, fault))
}

/// An error of the arguments.
pub(crate) fn refused<'a>(call: &'a Call<'a>, fault: WordFault) -> Outcome<'a>
    ensures { RefusesArgs call.now fault result }
{
    let arg = arg_at(fault, call.args);
    Outcome::Refused(ProgramFault::Refusal(call.tool, Refusal::Word(fault), arg))
}

/// Reads the index file as the tool does, if it is there.
fn read_index<S: Store>(alloc: Global, tool: Tool, index: &mut Option<S>) -> Result<(), IoFault>
    ensures { IsUnreadable S.failed index.old index.new (has_failed result) }
{
    match index {
        Some(store) => read_store(alloc, tool, store),
        None => Ok(()),
    }
}

/// Reads an index as the tool does.
fn read_store<S: Store>(alloc: Global, tool: Tool, store: &mut S) -> Result<(), IoFault>
    ensures { S.failed store.new ≡ count_if (has_failed result) (S.failed store.old) }
{
    if tool == Tool::Csearch {
        let _ = StoredIndex::open(alloc, store)?;
    } else {
        let len = store.len();
        let _ = read_part(alloc, store, 0, len)?;
    }
    Ok(())
}

/// A job of `cgrep`.
pub(crate) fn search_files<'a, T: Tree, R: Source, O: Sink, E: Sink>(
    job: &GrepJob,
    world: &mut World<T, R, O, E>,
) -> Outcome<'a>
    ensures { Between T.snapshot T.failed R.model R.failed O.model O.failed E.model E.failed
        world.old world.new (λ old new. DoesGrep job.now old new result) }
{
    let alloc = world.alloc;
    let answer = cgrep(
        alloc,
        job,
        &mut world.tree,
        &mut world.input,
        &mut world.out,
        &mut world.err,
    );
    searched(Tool::Cgrep, answer)
}

/// A job of `csearch`. Of an index in a store only the posting lists that it needs are read.
fn search_index<'a, S: Store, T: Tree, R: Source, O: Sink, E: Sink>(
    job: &SearchJob,
    index: &mut Option<S>,
    world: &mut World<T, R, O, E>,
) -> Result<Outcome<'a>, IoFault>
    ensures answers { Between T.snapshot T.failed R.model R.failed O.model O.failed E.model E.failed
        world.old world.new (AnswersJob (IsIndex S.model index.old) (Job.Search job.now) result) }
    ensures kept { IfOk result (λ outcome. update_of outcome ≡ IndexUpdate.Keep) }
    ensures counted { IsUnreadable S.failed index.old index.new (has_failed result) }
{
    match index {
        Some(store) => {
            let alloc = world.alloc;
            let opened = StoredIndex::open(alloc, store)?;
            let (tree, out, err) = (&mut world.tree, &mut world.out, &mut world.err);
            let answer = csearch_stored(SearchCall { alloc, job }, opened, store, tree, out, err)?;
            Ok(searched(Tool::Csearch, answer))
        }
        None => {
            let (tree, out, err) = (&mut world.tree, &mut world.out, &mut world.err);
            let answer = csearch(world.alloc, job, None, tree, out, err);
            Ok(searched(Tool::Csearch, answer))
        }
    }
}

/// How a search with this answer ends.
fn searched<'a>(tool: Tool, answer: Result<Status, ToolFault>) -> Outcome<'a>
    ensures { EndsSearch tool answer result }
{
    match answer {
        Ok(status) => Outcome::Searched(status),
        Err(fault) => Outcome::Refused(ProgramFault::Refusal(tool, Refusal::Tool(fault), "")),
    }
}

/// A job of `cindex`. Of an index in a store each posting list is read at most once, and none for
/// `-list` and `-reset`. A new index goes to `new`.
fn run_index<'a, S: Store, T: Tree, R: Source, O: Sink, E: Sink, W: Output>(
    job: &'a IndexJob,
    index: &mut Option<S>,
    world: &mut World<T, R, O, E>,
    new: &mut W,
) -> Result<Outcome<'a>, IoFault>
    requires folder { HasAbsoluteFolder job.now }
    ensures answers { Between T.snapshot T.failed R.model R.failed O.model O.failed E.model E.failed
        world.old world.new (AnswersJob (IsIndex S.model index.old) (Job.Index job.now) result) }
    ensures unclaimed { IfOk result
        (λ outcome. job.now.list ≡ true → update_of outcome ≡ IndexUpdate.Keep) }
    ensures counted { IsUnreadable S.failed index.old index.new (has_failed result) }
    ensures given { IfOk result
        (λ outcome. IsGiven (update_of outcome) (W.given new.old) (W.given new.new)) }
    ensures keeps_new { W.Keeps new.old new.new }
{
    let alloc = world.alloc;
    let (tree, out, err) = (&mut world.tree, &mut world.out, &mut world.err);
    match cindex_stored(JobCall { alloc, job }, index, tree, new, out, err) {
        Ok(Ok(update)) => Ok(Outcome::Done(update)),
        Ok(Err(fault)) => {
            let refusal = Refusal::Index(fault);
            let path = path_at(fault, job);
            Ok(Outcome::Refused(ProgramFault::Refusal(Tool::Cindex, refusal, path)))
        }
        Err(fault) => Err(fault),
    }
}

/// The argument that an error points at, or an empty text.
fn arg_at(fault: WordFault, args: &[String]) -> &str
    ensures { result.now ≡ arg_at fault (map string_bytes args.now) }
{
    match fault {
        WordFault::UnknownOption(position)
        | WordFault::NoValue(position)
        | WordFault::BadTruth(position)
        | WordFault::ExtraWord(position) => text_at(args, position),
        WordFault::NoPattern | WordFault::Memory => "",
    }
}

/// The path that an error points at, or an empty text.
fn path_at(fault: CindexFault, job: &IndexJob) -> &str
    ensures { result.now ≡ path_at fault job.now }
{
    match fault {
        CindexFault::BadPath(position) => text_at(&job.paths, position),
        _ => "",
    }
}

/// The text at a position, or an empty one.
fn text_at(texts: &[String], position: usize) -> &str
    ensures { result.now ≡ unwrap_or (slice_get (map string_bytes texts.now) position) [] }
{
    match texts.get(position) {
        Some(text) => text.as_str(),
        None => "",
    }
}
