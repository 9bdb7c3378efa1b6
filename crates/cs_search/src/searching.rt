// The tool `cgrep`, and the state that a tool searches its inputs with.
ghost use Rattle.std.specs.Prelude.{◌≡◌, ◌+◌, [], IfOk, IfErr, MatchResult, string_bytes, if◌then◌else◌, ◌∷◌, map};
ghost use Rattle.cs_search.specs.Cited.{GrowsFlushed, ConsumesAtMost, EndsAfter, MayEnd, WritesBytes, max_searched, cgrep_printed, PrintsFaultsOf, IsGrep, SilentOnError, has_write_failed, SearchesTree, HasNotBegun, EndsBoth, IsProgramOf, RefusesPattern, PrintsResult, CountsSearchFault, input_shown, file_shown, files_shown, PrintsAllFaults, search_outputs, fault_line_of, count_if, IsSearchFault};
ghost use Rattle.cs_args.specs.declared.fault.FileFault.TheVariants.{Failed, InputTooLong};
ghost use Rattle.cs_search.specs.declared.status.ReadFault.TheVariants.{Read, TooLong};

use crate::report::{MAX_SEARCHED, grep_within};
use crate::status::{ReadFault, Status};
use crate::styles::Printer;
use cs_args::{FileFault, GrepJob, Style, Tool, ToolFault, fault_line};
use cs_lines::{LineBuffer, LineSearch};
use cs_match::{Matcher, Program};
use cs_syntax::parse;
use cs_tree::{Sink, Source, Tree, TreeReader, write_all};
use std::alloc::{AllocError, Global};

/// The program of a job's pattern.
struct Compiled {
    program: Program,
}

// A body that owns a program drops it by a call, as it does a `Plan`.
impl Drop for Compiled {
    fn drop(self) {
        let Compiled { program: _program } = self;
    }
}

/// A tool's search for lines and read buffer, reused for one input after another.
pub(crate) struct Searcher<'p> {
    alloc: Global,
    tool: Tool,
    style: Style,
    lines: LineSearch<'p>,
    buffer: LineBuffer,
}

// A body that owns a searcher drops it by a call, as it does a `Plan`.
impl Drop for Searcher<'_> {
    fn drop(self) {
        let Searcher {
            alloc: _alloc,
            tool: _tool,
            style: _style,
            lines: _lines,
            buffer: _buffer,
        } = self;
    }
}

impl<'p> Searcher<'p> {
    ghost use Rattle.cs_search.specs.Searcher.{IsKept, IsSearcherOf};

    pub(crate) fn new(
        alloc: Global,
        tool: Tool,
        style: Style,
        program: &'p Program,
    ) -> Result<Searcher<'p>, AllocError>
        ensures { IfOk result (IsSearcherOf tool style program.now) }
    {
        let matcher = Matcher::new(alloc, program)?;
        let buffer = LineBuffer::new(alloc)?;
        Ok(Searcher {
            alloc,
            tool,
            style,
            lines: LineSearch::of_lines(matcher),
            buffer,
        })
    }

    /// Prints the matching lines of an input, and its fault line. Returns whether some line
    /// matched.
    pub(crate) fn search<R: Source, O: Sink, E: Sink>(
        &mut self,
        name: &str,
        input: &mut R,
        out: &mut O,
        err: &mut E,
    ) -> Result<bool, ToolFault>
        ensures prints { PrintsResult self.old (input_shown self.old name.now (R.model input.old))
            (search_outputs O.model E.model out.old out.new err.old err.new) result }
        ensures faults { PrintsAllFaults self.old.tool (name.now ∷ [])
            (R.failed input.old) (R.failed input.new) (E.model err.old) (E.model err.new) result }
        ensures counts { CountsSearchFault O.failed E.failed out.old out.new err.old err.new result }
        ensures loses { ConsumesAtMost (max_searched + 1) (R.model input.old) (R.model input.new) }
        ensures kept { IsKept self.old self.new }
        ensures keeps { R.Keeps input.old input.new }
    {
        let printer = Printer {
            name,
            style: self.style,
        };
        let answer = grep_within(
            &printer,
            input,
            MAX_SEARCHED,
            &mut self.buffer,
            &mut self.lines,
            out,
        )?;
        if let Some(fault) = answer.fault {
            self.print_fault(name, of_input(fault), err)?;
        }
        Ok(answer.matched)
    }

    /// The same for the item at this name in the tree.
    pub(crate) fn search_file<T: Tree, O: Sink, E: Sink>(
        &mut self,
        tree: &mut T,
        name: &str,
        out: &mut O,
        err: &mut E,
    ) -> Result<bool, ToolFault>
        ensures prints { PrintsResult self.old (file_shown self.old name.now (T.snapshot tree.old))
            (search_outputs O.model E.model out.old out.new err.old err.new) result }
        ensures faults { PrintsAllFaults self.old.tool (name.now ∷ [])
            (T.failed tree.old) (T.failed tree.new) (E.model err.old) (E.model err.new) result }
        ensures counts { CountsSearchFault O.failed E.failed out.old out.new err.old err.new result }
        ensures tree { SearchesTree T.snapshot T.read_counts tree.old tree.new }
        ensures kept { IsKept self.old self.new }
    {
        if let Err(fault) = tree.open(name) {
            let fault = FileFault::of_tree(fault)?;
            self.print_fault(name, fault, err)?;
            return Ok(false);
        }
        let mut reader = TreeReader::new(tree);
        let matched = self.search(name, &mut reader, out, err)?;
        Ok(matched)
    }

    /// The same for each name in turn. Returns whether some line of some file matched.
    pub(crate) fn search_files<T: Tree, O: Sink, E: Sink>(
        &mut self,
        tree: &mut T,
        names: &[String],
        out: &mut O,
        err: &mut E,
    ) -> Result<bool, ToolFault>
        ensures prints { PrintsResult self.old (files_shown self.old (map string_bytes names.now)
            (T.snapshot tree.old)) (search_outputs O.model E.model out.old out.new err.old err.new) result }
        ensures faults { PrintsAllFaults self.old.tool (map string_bytes names.now)
            (T.failed tree.old) (T.failed tree.new) (E.model err.old) (E.model err.new) result }
        ensures counts { CountsSearchFault O.failed E.failed out.old out.new err.old err.new result }
        ensures tree { SearchesTree T.snapshot T.read_counts tree.old tree.new }
        ensures kept { IsKept self.old self.new }
    {
        let mut matched = false;
        for name in names {
            matched |= self.search_file(tree, name.as_str(), out, err)?;
        }
        Ok(matched)
    }

    /// Prints a fault line.
    fn print_fault<E: Sink>(
        &self,
        name: &str,
        fault: FileFault,
        err: &mut E,
    ) -> Result<(), ToolFault>
        ensures written { WritesBytes (fault_line_of self.now.tool name.now fault)
            (E.model err.old) (E.model err.new) result }
        ensures failed { E.failed err.new ≡ count_if (has_write_failed result) (E.failed err.old) }
        ensures only { IsSearchFault result }
    {
        let line = fault_line(self.alloc, self.tool, name, fault)?;
        write_all(err, line.as_bytes())?;
        Ok(())
    }
}

/// Prints the lines that match the job's pattern: those of standard input, or of the job's files in
/// the order of the arguments. Each input that cannot be searched to its end has a line on `err`.
/// On success both outputs are flushed, `out` first, once each.
///
/// # Errors
///
/// `Pattern` comes before anything is read or printed. After `Write` and `Memory` each output has a
/// prefix of what the search prints, `err` was not flushed, and each fault line reports a failure
/// that its input counted.
pub fn cgrep<T: Tree, R: Source, O: Sink, E: Sink>(
    alloc: Global,
    job: &GrepJob,
    tree: &mut T,
    input: &mut R,
    out: &mut O,
    err: &mut E,
) -> Result<Status, ToolFault>
    ensures searches { IsGrep job.now (T.snapshot tree.old) (T.failed tree.old) (T.failed tree.new)
        (R.model input.old) (R.model input.new) (R.failed input.old) (R.failed input.new)
        (search_outputs O.model E.model out.old out.new err.old err.new) result }
    ensures silent { SilentOnError result (HasNotBegun O.model E.model T.failed T.longest_requested
        out.old out.new err.old err.new tree.old tree.new
        × (R.failed input.new ≡ R.failed input.old) × (R.model input.new ≡ R.model input.old)) }
    ensures tree { SearchesTree T.snapshot T.read_counts tree.old tree.new }
    ensures outputs { EndsBoth O.model O.failed E.model E.failed out.old out.new err.old err.new result }
    ensures input_keeps { R.Keeps input.old input.new }
{
    let program = compile(alloc, job)?;
    let compiled = Compiled { program };
    let mut searcher = Searcher::new(alloc, Tool::Cgrep, job.style, &compiled.program)?;
    let matched = search_inputs(&mut searcher, job, tree, input, out, err)?;
    finish(matched, out, err)
}

/// Ends a search: flushes both outputs.
pub(crate) fn finish<O: Sink, E: Sink>(
    matched: bool,
    out: &mut O,
    err: &mut E,
) -> Result<Status, ToolFault>
    ensures status { IfOk result (λ status. status ≡ (if matched then Status.Matched else Status.NoMatch)) }
    ensures out { MatchResult result (λ _. GrowsFlushed (O.model out.old) (O.model out.new) [])
        (λ _. MayEnd [] (O.model out.old) (O.model out.new)) }
    ensures err { EndsAfter [] (E.model err.old) (E.model err.new) result }
    ensures counts { CountsSearchFault O.failed E.failed out.old out.new err.old err.new result }
{
    out.flush()?;
    err.flush()?;
    Ok(Status::of(matched))
}

/// Compiles the job's pattern.
fn compile(alloc: Global, job: &GrepJob) -> Result<Program, ToolFault>
    ensures compiled { IfOk result (IsProgramOf (string_bytes job.now.pattern) job.now.fold) }
    ensures refused { IfErr result (RefusesPattern (string_bytes job.now.pattern) job.now.fold) }
{
    let pattern = parse(alloc, job.pattern.as_str(), job.fold)?;
    let program = Program::compile(alloc, &pattern)?;
    Ok(program)
}

/// Searches standard input, or the files of the job.
fn search_inputs<T: Tree, R: Source, O: Sink, E: Sink>(
    searcher: &mut Searcher<'_>,
    job: &GrepJob,
    tree: &mut T,
    input: &mut R,
    out: &mut O,
    err: &mut E,
) -> Result<bool, ToolFault>
    requires { (searcher.old.tool ≡ Tool.Cgrep) × (searcher.old.style ≡ job.now.style) }
    ensures prints { PrintsResult searcher.old (λ has_match.
        cgrep_printed max_searched job.now has_match (T.snapshot tree.old) (R.model input.old))
        (search_outputs O.model E.model out.old out.new err.old err.new) result }
    ensures faults { PrintsFaultsOf job.now (T.failed tree.old) (T.failed tree.new) (R.failed input.old)
        (R.failed input.new) (λ lines. WritesBytes lines (E.model err.old) (E.model err.new) result) }
    ensures counts { CountsSearchFault O.failed E.failed out.old out.new err.old err.new result }
    ensures loses { ConsumesAtMost (max_searched + 1) (R.model input.old) (R.model input.new) }
    ensures tree { SearchesTree T.snapshot T.read_counts tree.old tree.new }
    ensures input_keeps { R.Keeps input.old input.new }
{
    if job.standard {
        let matched = searcher.search("<standard input>", input, out, err)?;
        return Ok(matched);
    }
    let matched = searcher.search_files(tree, &job.files, out, err)?;
    Ok(matched)
}

/// The fault of an input, as that of a file.
fn of_input(fault: ReadFault) -> FileFault
    ensures { result ≡ elim fault [ Read ↦ Failed | TooLong ↦ InputTooLong ] }
{
    match fault {
        ReadFault::Read => FileFault::Failed,
        ReadFault::TooLong => FileFault::InputTooLong,
    }
}
