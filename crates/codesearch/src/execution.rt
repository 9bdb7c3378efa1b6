// The program over any folder of the index file, any tree, input and outputs: what `main` calls.
ghost use Rattle.std.specs.Prelude.{◌≡◌, ◌≢◌, ℕ, List, [], Option, IfErr};
ghost use Rattle.cs_storage.specs.FileAfter.{IsGiven, IsChange};
ghost use Rattle.cs_storage.specs.Storing.{Folder, Moves, IsHeld, Updates};
ghost use Rattle.cs_cindex.specs.OldIndex.{IsIndex, IsUnreadable};
ghost use Rattle.codesearch.specs.Program.{Between, IsCall, exit_status, update_of};
ghost use Rattle.codesearch.specs.Execution.{Executes, EndsWith, LeavesFile, failed_reads};
ghost use Rattle.codesearch.specs.Opened.{ExecutesOpened, Finishes};

use crate::call::Call;
use crate::outcome::{Outcome, ProgramFault};
use crate::running::{FoundFile, World, refused, run, search_files};
use cs_args::{Job, Tool};
use cs_storage::{IndexFolder, IndexUpdate, NewFile, StorageFault, begin_update, finish_update};
use cs_tree::{Sink, Source, Tree};

/// Does what the arguments of `cgrep` mean. It opens no index file, so what is said of the file
/// holds in any folder.
pub(crate) fn execute_cgrep<'a, T: Tree, R: Source, O: Sink, E: Sink>(
    call: &'a Call<'a>,
    world: &mut World<T, R, O, E>,
) -> Outcome<'a>
    requires call { IsCall call.now }
    requires tool { call.now.tool ≡ Tool.Cgrep }
    ensures { Between T.snapshot T.failed R.model R.failed O.model O.failed E.model E.failed
        world.old world.new (λ old new.
        (name temp : List ℕ) (folder : Option Folder) (failed : ℕ) →
        Executes call.now name temp folder folder failed old new result) }
{
    match &call.job {
        Ok(Job::Grep(job)) => search_files(job, world),
        Err(fault) => refused(call, *fault),
        // The arguments of `cgrep` mean no other job.
        Ok(Job::Index(_) | Job::Search(_)) => unreachable!(),
    }
}

/// Does what the arguments of a tool with an index mean: opens the index file, claims it if the job
/// may update it, does the job, and updates the file. So a second run, and a folder that cannot be
/// written, are found before the job. The line of an error is still to be printed.
pub(crate) fn execute<'a, F: IndexFolder, T: Tree, R: Source, O: Sink, E: Sink>(
    call: &'a Call<'a>,
    folder: &mut F,
    file: &mut FoundFile<'a, F::Index>,
    world: &mut World<T, R, O, E>,
) -> Outcome<'a>
    requires call { IsCall call.now }
    requires tool { call.now.tool ≢ Tool.Cgrep }
    ensures executes { Between T.snapshot T.failed R.model R.failed O.model O.failed E.model E.failed
        world.old world.new (λ old new.
        Executes call.now file.old.name.now file.old.temp.now
        (F.model folder.old) (F.model folder.new)
        (failed_reads F.Index.failed file.new.index) old new result) }
    ensures kept { exit_status result ≢ 0 →
        Moves LeavesFile (F.model folder.old) (F.model folder.new) }
{
    match folder.look() {
        Ok(index) => {
            file.index = index;
            execute_opened(call, folder, file, world)
        }
        Err(fault) => Outcome::Refused(ProgramFault::of_reading(file.name, fault)),
    }
}

/// The same, over the opened index file. A new index is given to FILE~ as it is made.
fn execute_opened<'a, F: IndexFolder, T: Tree, R: Source, O: Sink, E: Sink>(
    call: &'a Call<'a>,
    folder: &mut F,
    file: &mut FoundFile<'a, F::Index>,
    world: &mut World<T, R, O, E>,
) -> Outcome<'a>
    requires call { IsCall call.now }
    ensures executes { Between T.snapshot T.failed R.model R.failed O.model O.failed E.model E.failed
        world.old world.new (λ old new.
        ExecutesOpened call.now file.old.name.now file.old.temp.now
        (IsIndex F.Index.model file.old.index)
        (IsUnreadable F.Index.failed file.old.index file.new.index)
        (F.model folder.old) (F.model folder.new) old new result) }
    ensures kept { exit_status result ≢ 0 →
        Moves LeavesFile (F.model folder.old) (F.model folder.new) }
{
    if !call.may_update() {
        return run(call, file, world, &mut NewFile::new(folder));
    }
    let (name, temp) = (file.name, file.temp);
    if let Err(fault) = begin_update(folder) {
        return Outcome::Refused(ProgramFault::of_writing(name, temp, fault));
    }
    let outcome = run(call, file, world, &mut NewFile::new(folder));
    updated(outcome, name, temp, folder)
}

/// Updates the claimed index file as the outcome says, and returns how the run ends.
#[tactic(auto, using(crate::proofs::ExecutionLemmas::finish_done, crate::proofs::ExecutionLemmas::finish_failed))]
fn updated<'a, F: IndexFolder>(
    outcome: Outcome<'a>,
    file: &'a str,
    temp: &'a str,
    folder: &mut F,
) -> Outcome<'a>
    requires held { IsHeld (F.model folder.old) }
    requires given { IsGiven (update_of outcome) [] (F.given folder.old) }
    ensures ends { EndsWith file.now temp.now (F.model folder.new) outcome.entry result }
    ensures stores { Moves (Finishes (update_of result)) (F.model folder.old) (F.model folder.new) }
{
    match finish(&outcome, folder) {
        Ok(()) => outcome,
        Err(fault) => Outcome::Refused(ProgramFault::of_writing(file, temp, fault)),
    }
}

/// Updates the claimed index file as the outcome says.
fn finish<F: IndexFolder>(outcome: &Outcome<'_>, folder: &mut F) -> Result<(), StorageFault>
    requires held { IsHeld (F.model folder.old) }
    requires given { IsGiven (update_of outcome.now) [] (F.given folder.old) }
    ensures tried { IfErr result (λ _. IsChange (update_of outcome.now)) }
    ensures updates { Moves (Updates (update_of outcome.now) result)
        (F.model folder.old) (F.model folder.new) }
{
    match outcome {
        Outcome::Done(update) => finish_update(folder, update),
        Outcome::Searched(_) | Outcome::Refused(_) => finish_update(folder, &IndexUpdate::Keep),
    }
}
