// What the arguments of `cs` ask for is done.
ghost use Rattle.std.specs.Prelude.{◌≡◌, ◌≢◌, ◌⊎◌, true, false, [], map, slice_index_or, string_bytes, IfOk};
ghost use Rattle.cs_project.specs.Cited.{Keeps, Prints, given, has_stopped, texts, InTree, chosen_in, AnswersRequest, BeginsFor, BeginsList, BeginsProject, BeginsTask, DoesProject, HasBase, InInput, IsProgramFor, IsScopeOf, IsSearchFor, ListsFor, SearchesFor, HoldsFor, asked_as, NotesSeen, types_printed};
ghost use Rattle.cs_project.specs.Calls.{name_end as name_end', rules_of_user as rules_of_user', words_at as words_at'};
ghost use Rattle.cs_listing.specs.Models.{rules_in};

use crate::call::ProjectCall;
use crate::fault::FreshFault;
use crate::file_search::FileSearch;
use crate::knowledge::{AskedSearch, Knowledge, NoKnowledge};
use crate::project::{find_in_project, for_names, list_project};
use crate::reports::print_unread;
use crate::scope::Scope;
use crate::unprinted::Unprinted;
use cs_command::{HELP, Request, RequestFault, Surroundings, Task, fault_line, read_request};
use cs_lines::{LineSearch, ShowOptions};
use cs_listing::{
    Choices, Rules, TYPES, UserFiles, UserRules, path_names, repository_above, user_rules,
};
use cs_match::Program;
use cs_tree::{IoFault, Look, Sink, SinkOutput, Source, write_all};
use std::alloc::{AllocError, Global};

/// The line that says that a piped input is not searched.
pub const INPUT_LINE: &[u8] = b"cs: standard input is not searched; use: cs PATTERN -\n";

/// What `--version` prints.
const VERSION: &[u8] = b"cs 0.9.1\n";

/// The choices without options: the rules of the user, and globs relative to the current folder.
#[derive(Drop)]
struct Base {
    choices: Choices,
    /// The line of an error was printed.
    wrong: bool,
}

/// Does what the arguments of `cs` ask for, and returns the exit status: 2 after an error, else 0
/// if a line is marked, else 1. Files that are known to print nothing are not read.
#[tactic(auto, using(crate::proofs::PrintLemmas::printing, crate::proofs::NotedLemmas::notes_more))]
pub fn run_project<T: Look, R: Source, K: Knowledge, O: Sink, E: Sink>(
    call: &ProjectCall<'_>,
    tree: &mut T,
    input: &mut R,
    known: &mut K,
    out: &mut SinkOutput<'_, O>,
    err: &mut E,
) -> Result<u8, FreshFault>
    ensures does { IfOk result (λ status. InInput (R.model input.old) (λ input. InTree (T.snapshot tree.old)
        (λ items. DoesProject (HoldsFor (K.Holds known.old) T.stamps (T.snapshot tree.old)) items input
        call.now (given out.old) (given out.new) status))) }
    ensures begins { InTree (T.snapshot tree.old) (λ items. BeginsProject
        (HoldsFor (K.Holds known.old) T.stamps (T.snapshot tree.old)) items (R.model input.old)
        call.now (given out.old) (given out.new)) }
    ensures keeps { T.snapshot tree.new ≡ T.snapshot tree.old }
    ensures handed { Keeps O.model O.failed out.old out.new }
    ensures notes { NotesSeen T.stamps (T.snapshot tree.old) (K.noted known.old) (K.noted known.new) }
{
    let base = base_of(call, tree, err)?;
    match read_request(call.alloc, base.choices, call.words) {
        Ok(request) => {
            let status = call.answer(&request, tree, input, known, out, err)?;
            Ok(status_after(base.wrong, status))
        }
        Err(RequestFault::Memory) => Err(FreshFault::Memory),
        Err(fault) => refuse(call, fault, err),
    }
}

/// The exit status after the line of an error, or after none.
fn status_after(wrong: bool, status: u8) -> u8
    ensures { result ≢ 2 → result ≡ status }
{
    if wrong { 2 } else { status }
}

fn base_of<T: Look, E: Sink>(
    call: &ProjectCall<'_>,
    tree: &mut T,
    err: &mut E,
) -> Result<Base, FreshFault>
    ensures base { IfOk result (λ base. InTree (T.snapshot tree.old)
        (λ items. HasBase items call.now (chosen_in base.choices))) }
    ensures keeps { T.snapshot tree.new ≡ T.snapshot tree.old }
{
    let folder = path_names(call.alloc, call.folder)?;
    let Some(user) = &call.user else {
        return Ok(Base {
            choices: Choices::new(call.alloc, Rules::none(call.alloc), folder),
            wrong: false,
        });
    };
    let read = rules_of_user(call, tree, user)?;
    let wrong = print_unread(call.alloc, &read.unread, err)?;
    Ok(Base {
        choices: Choices::new(call.alloc, read.rules, folder),
        wrong,
    })
}

/// The rules of the user for a search that begins in the current folder.
fn rules_of_user<T: Look>(
    call: &ProjectCall<'_>,
    tree: &mut T,
    user: &UserFiles<'_>,
) -> Result<UserRules, AllocError>
    ensures rules { IfOk result (λ read. InTree (T.snapshot tree.old)
        (λ items. rules_in read.rules ≡ rules_of_user' items call.now.folder.now (Some user.now))) }
    ensures keeps { T.snapshot tree.new ≡ T.snapshot tree.old }
{
    match repository_above(call.alloc, tree, call.folder)? {
        Some(found) => user_rules(call.alloc, tree, user, Some(found.git.as_str())),
        None => user_rules(call.alloc, tree, user, None),
    }
}

/// Says that a piped input is not searched, if no word names what is.
fn say_unsearched<E: Sink>(
    call: &ProjectCall<'_>,
    request: &Request,
    err: &mut E,
) -> Result<(), IoFault> {
    if call.piped && request.paths.is_empty() {
        return write_all(err, INPUT_LINE);
    }
    Ok(())
}

/// Prints the line of arguments that ask for nothing.
fn refuse<E: Sink>(
    call: &ProjectCall<'_>,
    fault: RequestFault,
    err: &mut E,
) -> Result<u8, FreshFault>
    ensures { IfOk result (λ status. status ≡ 2) }
{
    let line = fault_line(call.alloc, call.words, fault)?;
    write_all(err, line.as_bytes())?;
    Ok(2)
}

/// Prints a text, and returns the exit status 0.
#[tactic(auto, using(crate::proofs::PrintLemmas::printing))]
fn print_answer<O: Sink>(text: &[u8], out: &mut SinkOutput<'_, O>) -> Result<u8, AllocError>
    ensures status { IfOk result (λ status. status ≡ 0) }
    ensures printed { Prints O.model O.failed out.old out.new text.now }
{
    out.print(text);
    out.check()?;
    Ok(0)
}

/// Prints the types of files with their globs, and returns the exit status 0.
#[tactic(auto, using(crate::proofs::PrintLemmas::printing))]
fn print_types<O: Sink>(out: &mut SinkOutput<'_, O>) -> Result<u8, AllocError>
    ensures status { IfOk result (λ status. status ≡ 0) }
    ensures printed { Prints O.model O.failed out.old out.new (types_printed
        (map (λ row. (row.0.now, row.1.now)) TYPES)) }
{
    print_rows(&TYPES, out);
    out.check()?;
    Ok(0)
}

/// Prints types with their globs.
#[tactic(auto, using(crate::proofs::PrintLemmas::printing))]
fn print_rows<O: Sink>(types: &[(&str, &str)], out: &mut SinkOutput<'_, O>)
    ensures { Prints O.model O.failed out.old out.new (types_printed
        (map (λ row. (row.0.now, row.1.now)) types.now)) }
{
    'types: for row in types {
        out.print(row.0.as_bytes());
        out.print(b": ");
        out.print(row.1.as_bytes());
        out.print(b"\n");
    }
}

/// The word with this index.
fn word_at(words: &[String], index: usize) -> &str
    ensures { result.now ≡ slice_index_or (map string_bytes words.now) index [] }
{
    match words.get(index) {
        Some(word) => word.as_str(),
        None => "",
    }
}

/// The words with these indices.
fn words_at<'a>(
    alloc: Global,
    words: &'a [String],
    indices: &[usize],
) -> Result<Vec<&'a str>, AllocError>
    ensures { IfOk result (λ chosen. texts chosen.items
        ≡ words_at' (map string_bytes words.now) indices.now) }
{
    let mut chosen = Vec::new(alloc);
    'indices: for index in indices {
        chosen.push(word_at(words, *index))?;
    }
    Ok(chosen)
}

/// Where a request looks.
fn scope_of<'a>(call: &ProjectCall<'a>, request: &'a Request, words: &'a [&'a str]) -> Scope<'a>
    requires { texts words.now ≡ words_at' (map string_bytes call.now.words.now) request.now.paths.items }
    ensures { IsScopeOf call.now request.now result }
{
    Scope::new(call.alloc, call.folder, &request.choices, words)
}

/// What ends a name.
fn name_end(request: &Request) -> &'static [u8]
    ensures { result.now ≡ name_end' request.now }
{
    if request.switches.form.nul {
        b"\0"
    } else {
        b"\n"
    }
}

/// Prints the names of the files, and asks for each of them whether it is known.
#[tactic(auto, using(crate::proofs::PrintLemmas::printing, crate::proofs::CallLemmas::lists_for, crate::proofs::NotedLemmas::notes_more))]
fn list<T: Look, K: Knowledge, O: Sink, E: Sink>(
    call: &ProjectCall<'_>,
    request: &Request,
    tree: &mut T,
    known: &mut K,
    out: &mut SinkOutput<'_, O>,
    err: &mut E,
) -> Result<u8, FreshFault>
    ensures lists { IfOk result (λ status. InTree (T.snapshot tree.old)
        (λ items. ListsFor items call.now request.now (given out.old) (given out.new) status)) }
    ensures begins { InTree (T.snapshot tree.old) (λ items. (given out.new ≡ given out.old)
        ⊎ BeginsList items call.now request.now (given out.old) (given out.new)) }
    ensures keeps { T.snapshot tree.new ≡ T.snapshot tree.old }
    ensures handed { Keeps O.model O.failed out.old out.new }
    ensures notes { NotesSeen T.stamps (T.snapshot tree.old) (K.noted known.old) (K.noted known.new) }
{
    let words = words_at(call.alloc, call.words, &request.paths)?;
    let scope = scope_of(call, request, &words);
    list_project(&scope, name_end(request), tree, known, out, err)
}

/// Asks for each file whether it is known, so that the others are learned, and prints nothing.
fn update<T: Look, K: Knowledge, E: Sink>(
    call: &ProjectCall<'_>,
    request: &Request,
    tree: &mut T,
    known: &mut K,
    err: &mut E,
) -> Result<u8, FreshFault>
    ensures status { IfOk result (λ status. InTree (T.snapshot tree.old)
        (λ items. status ≢ 2 → status ≡ 0)) }
    ensures keeps { T.snapshot tree.new ≡ T.snapshot tree.old }
    ensures notes { NotesSeen T.stamps (T.snapshot tree.old) (K.noted known.old) (K.noted known.new) }
{
    if request.updates {
        known.begin_update(request.paths.is_empty())?;
    }
    let mut nothing = Unprinted;
    let mut out = SinkOutput::new(&mut nothing);
    list(call, request, tree, known, &mut out, err)
}

/// The search for the pattern of a request.
fn files_for<'p, T: Look>(
    call: &ProjectCall<'_>,
    request: &Request,
    scope: &Scope<'_>,
    program: &'p Program,
    tree: &mut T,
) -> Result<FileSearch<'p>, AllocError>
    requires scope { IsScopeOf call.now request.now scope.now }
    requires program { IsProgramFor request.now program.now }
    ensures files { IfOk result (λ search. InTree (T.snapshot tree.old)
        (λ items. IsSearchFor items call.now request.now scope.now search)) }
    ensures begun { IfOk result (λ search. has_stopped search.search ≡ false) }
    ensures keeps { T.snapshot tree.new ≡ T.snapshot tree.old }
{
    let place = Surroundings {
        terminal: call.terminal,
        several: scope.is_of_several(tree)?,
    };
    let switches = &request.switches;
    let options = switches.shown_in(&request.limits, request.colour, place);
    let lines = LineSearch::new(call.alloc, program, switches.pattern.whole)?;
    FileSearch::new(call.alloc, options, switches.files.binary, lines)
}

/// The options that knowledge is asked with.
fn asked_options(silent: bool, files: &FileSearch<'_>) -> ShowOptions
    ensures { result ≡ (asked_as silent files.now).options }
{
    if silent {
        for_names(files.options)
    } else {
        files.options
    }
}

impl ProjectCall<'_> {
    /// Does what is asked for.
    #[tactic(auto, using(crate::proofs::PrintLemmas::printing, crate::proofs::NotedLemmas::notes_more))]
    fn answer<T: Look, R: Source, K: Knowledge, O: Sink, E: Sink>(
        &self,
        request: &Request,
        tree: &mut T,
        input: &mut R,
        known: &mut K,
        out: &mut SinkOutput<'_, O>,
        err: &mut E,
    ) -> Result<u8, FreshFault>
        ensures answers { IfOk result (λ status. InInput (R.model input.old) (λ input.
            InTree (T.snapshot tree.old) (λ items.
            AnswersRequest (HoldsFor (K.Holds known.old) T.stamps (T.snapshot tree.old)) items input
            self.now request.now (given out.old) (given out.new) status))) }
        ensures begins { InTree (T.snapshot tree.old) (λ items. BeginsTask
            (HoldsFor (K.Holds known.old) T.stamps (T.snapshot tree.old)) items (R.model input.old)
            self.now request.now request.now.switches.task (given out.old) (given out.new)) }
        ensures keeps { T.snapshot tree.new ≡ T.snapshot tree.old }
        ensures handed { Keeps O.model O.failed out.old out.new }
        ensures notes { NotesSeen T.stamps (T.snapshot tree.old) (K.noted known.old) (K.noted known.new) }
    {
        match request.switches.task {
            Task::Help => Ok(print_answer(HELP.as_bytes(), out)?),
            Task::Version => Ok(print_answer(VERSION, out)?),
            Task::Types => Ok(print_types(out)?),
            Task::Files => list(self, request, tree, &mut NoKnowledge, out, err),
            Task::Update => update(self, request, tree, known, err),
            Task::Search => {
                if request.switches.state.read {
                    self.search(request, tree, input, known, out, err)
                } else {
                    self.search(request, tree, input, &mut NoKnowledge, out, err)
                }
            }
        }
    }

    /// Searches the files. With `-q` only the status says whether a line is marked.
    #[tactic(auto, using(crate::proofs::PrintLemmas::printing, crate::proofs::NotedLemmas::notes_more, crate::proofs::NotedLemmas::notes_nothing))]
    fn search<T: Look, R: Source, K: Knowledge, O: Sink, E: Sink>(
        &self,
        request: &Request,
        tree: &mut T,
        input: &mut R,
        known: &mut K,
        out: &mut SinkOutput<'_, O>,
        err: &mut E,
    ) -> Result<u8, FreshFault>
        ensures searches { IfOk result (λ status. InInput (R.model input.old) (λ input.
            InTree (T.snapshot tree.old) (λ items.
            SearchesFor (HoldsFor (K.Holds known.old) T.stamps (T.snapshot tree.old)) items input self.now
            request.now request.now.switches.silent (given out.old) (given out.new) status))) }
        ensures begins { InTree (T.snapshot tree.old) (λ items. BeginsFor
            (HoldsFor (K.Holds known.old) T.stamps (T.snapshot tree.old)) items (R.model input.old)
            self.now request.now request.now.switches.silent (given out.old) (given out.new)) }
        ensures keeps { T.snapshot tree.new ≡ T.snapshot tree.old }
        ensures handed { Keeps O.model O.failed out.old out.new }
        ensures notes { NotesSeen T.stamps (T.snapshot tree.old) (K.noted known.old) (K.noted known.new) }
    {
        let Some(pattern) = &request.pattern else {
            return refuse(self, RequestFault::NoPattern, err);
        };
        say_unsearched(self, request, err)?;
        let words = words_at(self.alloc, self.words, &request.paths)?;
        let scope = scope_of(self, request, &words);
        let program = Program::compile(self.alloc, pattern)?;
        let mut files = files_for(self, request, &scope, &program, tree)?;
        known.begin(&AskedSearch {
            options: asked_options(request.switches.silent, &files),
            binary: files.binary,
            pattern,
            updates: request.updates,
            whole: request.paths.is_empty() && !request.switches.silent,
        })?;
        if request.switches.silent {
            return find_in_project(&scope, files, tree, input, known, err);
        }
        scope.search_project(&mut files, tree, input, known, out, err)
    }
}
