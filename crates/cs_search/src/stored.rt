// Search by a trigram index (Cox), in memory or in a store: a query of the pattern selects
// candidates, which are searched line by line. The plan of a job is compiled before the index or a
// file is read.
ghost use Rattle.std.specs.Prelude.{◌≡◌, IfOk, IfErr, false, None, option_copied, ◌≤◌, ℕ, List, Option, string_bytes};
ghost use Rattle.cs_search.specs.Cited.{KeepsStore, CountsOne, has_write_failed, SilentOnError, IsSound, AreAccepted, IsQueryOf, IsPlan, SelectsOrRefuses, RefusesPlan, AreSelected, SearchesTree, HasNotBegun, EndsBoth, SearchesBy, IsOpened, IfRead, IsUnopened, ParsesAs, weight, max_weight};

use crate::searching::{Searcher, finish};
use crate::selection::{compile_file, selected_names};
use crate::status::Status;
use cs_args::{SearchJob, Tool, ToolFault};
use cs_index::{IndexFault, StoredIndex};
use cs_match::Program;
use cs_match::laws::matching_is_decidable;
use cs_syntax::{Pattern, parse};
use cs_tree::{IoFault, MemStore, Sink, Store, Tree};
use cs_trigram::{Query, query};
use std::alloc::{AllocError, Global};

/// A job of `csearch`, and the allocator for its work.
#[derive(Clone, Copy, Drop)]
pub struct SearchCall<'a> {
    pub alloc: Global,
    pub job: &'a SearchJob,
}

/// The query of a job, and the programs of both patterns.
pub(crate) struct Plan {
    pub(crate) query: Query,
    program: Program,
    pub(crate) file: Option<Program>,
}

// A body that owns a plan drops it by a call. A derived `drop` would stand there with each field of
// both programs.
impl Drop for Plan {
    fn drop(self) {
        let Plan {
            query: _query,
            program: _program,
            file: _file,
        } = self;
    }
}

impl Plan {
    /// Compiles the job. An error of the pattern comes before one of the `-f` pattern.
    pub(crate) fn new(alloc: Global, job: &SearchJob) -> Result<Plan, ToolFault>
        ensures plan { IfOk result (IsPlan job.now) }
        ensures refused { IfErr result (λ why. (index : Option (List ℕ)) → RefusesPlan job.now index why) }
    {
        let pattern = parse(alloc, job.pattern.as_str(), job.fold)?;
        Plan::of_pattern(alloc, job, &pattern)
    }

    /// Compiles the job, whose pattern is parsed.
    fn of_pattern(alloc: Global, job: &SearchJob, pattern: &Pattern) -> Result<Plan, ToolFault>
        requires reads { ParsesAs (string_bytes job.now.pattern) job.now.fold pattern.now }
        requires light { weight pattern.now ≤ max_weight }
        ensures plan { IfOk result (IsPlan job.now) }
        ensures refused { IfErr result (λ why. (index : Option (List ℕ)) → RefusesPlan job.now index why) }
    {
        let query = query_of(alloc, job.brute, pattern)?;
        let program = Program::compile(alloc, pattern)?;
        let file = compile_file(alloc, job)?;
        Ok(Plan {
            query,
            program,
            file,
        })
    }
}

/// A job of `csearch` with its plan.
#[derive(Clone, Copy, Drop)]
pub(crate) struct PlannedJob<'a> {
    pub(crate) alloc: Global,
    pub(crate) job: &'a SearchJob,
    pub(crate) plan: &'a Plan,
}

impl PlannedJob<'_> {
    /// Searches the files with these names, which the plan selects.
    pub(crate) fn run<T: Tree, O: Sink, E: Sink>(
        &self,
        names: &[String],
        tree: &mut T,
        out: &mut O,
        err: &mut E,
    ) -> Result<Status, ToolFault>
        requires { IsPlan self.now.job.now self.now.plan.now }
        ensures searches { (bytes : Option (List ℕ)) → AreSelected self.now.plan.now bytes names.now →
            SearchesBy IsQueryOf T.snapshot T.failed O.model E.model self.now.job.now bytes
            tree.old tree.new out.old out.new err.old err.new result }
        ensures silent { SilentOnError result (HasNotBegun O.model E.model T.failed T.longest_requested
            out.old out.new err.old err.new tree.old tree.new) }
        ensures tree { SearchesTree T.snapshot T.read_counts tree.old tree.new }
        ensures outputs { EndsBoth O.model O.failed E.model E.failed out.old out.new err.old err.new result }
    {
        // The names are those that some test keeps.
        matching_is_decidable();
        let mut searcher = Searcher::new(
            self.alloc,
            Tool::Csearch,
            self.job.style,
            &self.plan.program,
        )?;
        let matched = searcher.search_files(tree, names, out, err)?;
        finish(matched, out, err)
    }
}

/// `csearch` over the bytes of a store; `opened` is what `StoredIndex::open` returned for it. Only
/// the posting lists that the query requires and the names of the candidates are read, before
/// anything is printed.
///
/// # Errors
///
/// The outer result is that of the store: if it cannot be read, nothing was printed, and both
/// patterns were accepted. Errors of the patterns, and then of the index, come before that, in the
/// inner result.
pub fn csearch_stored<S: Store, T: Tree, O: Sink, E: Sink>(
    call: SearchCall<'_>,
    opened: Result<StoredIndex, IndexFault>,
    store: &mut S,
    tree: &mut T,
    out: &mut O,
    err: &mut E,
) -> Result<Result<Status, ToolFault>, IoFault>
    requires { IsOpened (S.model store.old) opened }
    ensures searches { IfRead (S.model store.old) result (λ index. SearchesBy IsSound T.snapshot T.failed
        O.model E.model call.entry.job.now index tree.old tree.new out.old out.new err.old err.new) }
    ensures selective { IfRead (S.model store.old) result (λ index. SearchesBy IsQueryOf T.snapshot T.failed
        O.model E.model call.entry.job.now index tree.old tree.new out.old out.new err.old err.new) }
    ensures unopened { IfErr opened (λ fault. IsUnopened call.entry.job.now fault result) }
    ensures silent { IfOk result (λ answer. SilentOnError answer (HasNotBegun O.model E.model
        T.failed T.longest_requested out.old out.new err.old err.new tree.old tree.new)) }
    ensures unread { IfErr result (λ _. AreAccepted call.entry.job.now × HasNotBegun O.model E.model
        T.failed T.longest_requested out.old out.new err.old err.new tree.old tree.new
        × CountsOne false (O.failed out.old) (O.failed out.new) (E.failed err.old) (E.failed err.new)) }
    ensures tree { SearchesTree T.snapshot T.read_counts tree.old tree.new }
    ensures outputs { IfOk result
        (EndsBoth O.model O.failed E.model E.failed out.old out.new err.old err.new) }
    ensures store { KeepsStore S.model S.size S.failed store.old store.new result }
{
    let plan = match Plan::new(call.alloc, call.job) {
        Ok(plan) => plan,
        Err(fault) => return Ok(Err(fault)),
    };
    let planned = PlannedJob {
        alloc: call.alloc,
        job: call.job,
        plan: &plan,
    };
    match select(&planned, opened, store)? {
        Ok(names) => {
            let answer = planned.run(&names, tree, out, err);
            Ok(answer)
        }
        Err(fault) => Ok(Err(fault)),
    }
}

/// Prints the lines that match the job's pattern, in the indexed files that may have one, in the
/// order of their ids. Each file that cannot be searched to its end has a line on `err`. On success
/// both outputs are flushed, `out` first, once each.
///
/// # Errors
///
/// Before any output, in this order: `Pattern`, `FilePattern`, `NoIndex`, `BadIndex`. After `Write`
/// and `Memory` each output has a prefix of what the search prints, `err` was not flushed, and each
/// fault line reports a failure that the tree counted.
pub fn csearch<T: Tree, O: Sink, E: Sink>(
    alloc: Global,
    job: &SearchJob,
    index: Option<&[u8]>,
    tree: &mut T,
    out: &mut O,
    err: &mut E,
) -> Result<Status, ToolFault>
    ensures searches { SearchesBy IsSound T.snapshot T.failed O.model E.model job.now
        (option_copied index.entry) tree.old tree.new out.old out.new err.old err.new result }
    ensures selective { SearchesBy IsQueryOf T.snapshot T.failed O.model E.model job.now
        (option_copied index.entry) tree.old tree.new out.old out.new err.old err.new result }
    ensures silent { SilentOnError result (HasNotBegun O.model E.model T.failed T.longest_requested
        out.old out.new err.old err.new tree.old tree.new) }
    ensures tree { SearchesTree T.snapshot T.read_counts tree.old tree.new }
    ensures outputs { EndsBoth O.model O.failed E.model E.failed out.old out.new err.old err.new result }
{
    let Some(bytes) = index else {
        return Err(without_index(alloc, job));
    };
    let mut store = MemStore::new(bytes, usize::MAX);
    // No read of bytes in memory fails.
    let Ok(opened) = StoredIndex::open(alloc, &mut store) else {
        return Err(ToolFault::Memory);
    };
    match csearch_stored(
        SearchCall { alloc, job },
        opened,
        &mut store,
        tree,
        out,
        err,
    ) {
        Ok(answer) => answer,
        Err(_) => Err(ToolFault::Memory),
    }
}

/// The names that the plan selects.
fn select<S: Store>(
    planned: &PlannedJob<'_>,
    opened: Result<StoredIndex, IndexFault>,
    store: &mut S,
) -> Result<Result<Vec<String>, ToolFault>, IoFault>
    requires plan { IsPlan planned.now.job.now planned.now.plan.now }
    requires opened { IsOpened (S.model store.old) opened }
    ensures answers { IfRead (S.model store.old) result (SelectsOrRefuses planned.now) }
    ensures unopened { IfErr opened (λ fault. IsUnopened planned.now.job.now fault result) }
    ensures unwritten { IfOk result (λ answer. has_write_failed answer ≡ false) }
    ensures store { KeepsStore S.model S.size S.failed store.old store.new result }
{
    let index = match opened {
        Ok(index) => index,
        Err(fault) => return Ok(Err(ToolFault::from(fault))),
    };
    match selected_names(planned.alloc, planned.plan, &index, store)? {
        Ok(names) => Ok(Ok(names)),
        Err(fault) => Ok(Err(ToolFault::from(fault))),
    }
}

/// The error of a search without an index.
fn without_index(alloc: Global, job: &SearchJob) -> ToolFault
    ensures { RefusesPlan job.now None result }
{
    let _plan = match Plan::new(alloc, job) {
        Ok(plan) => plan,
        Err(fault) => return fault,
    };
    ToolFault::NoIndex
}

/// The query of a pattern; with `-brute` the query that every file matches.
fn query_of(alloc: Global, brute: bool, pattern: &Pattern) -> Result<Query, AllocError>
    ensures { IfOk result (IsQueryOf brute pattern.now) }
{
    if brute {
        return Ok(Query::All);
    }
    let query = query(alloc, pattern)?;
    Ok(query)
}
