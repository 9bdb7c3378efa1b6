// What the arguments of the program mean: a tool, and its job.
ghost use Rattle.std.specs.Prelude.{◌≡◌, [], Some, None, true, false, map, unwrap_or, IfOk, IfErr, IfSome, IsNone, MatchOption, option_copied, option_map, string_bytes};
ghost use Rattle.codesearch.specs.ProjectArgs.{asks_for_help as asks_for_help', project_args as project_args'};
ghost use Rattle.codesearch.specs.Program.{IndexFile, tool_named, own_tool, tool_of, tool_args, absolute_folder, lacks_folder, IsCall, early_line, fault_line, is_of_lines, prints_lines, may_update};

use crate::given::Given;
use crate::outcome::ProgramFault;
use cs_args::{GrepJob, Job, SearchJob, Style, Tool, WordFault, read_words};
use cs_tree::is_absolute;
use std::alloc::Global;
use std::path::Path;

/// A call of a tool.
#[derive(Drop)]
pub(crate) struct Call<'a> {
    pub(crate) given: &'a Given,
    /// The arguments of the tool.
    pub(crate) args: &'a [String],
    pub(crate) tool: Tool,
    /// What the arguments parse as.
    pub(crate) job: Result<Job, WordFault>,
}

impl<'a> Call<'a> {
    /// Reads the arguments, once.
    ///
    /// # Errors
    ///
    /// In this order: neither the program nor the first argument has the name of a tool, an
    /// argument is not UTF-8, and `cindex` has no current folder.
    pub(crate) fn read(alloc: Global, given: &'a Given) -> Result<Call<'a>, ProgramFault<'a>>
        ensures call { IfOk result (λ call. (call.given.now ≡ given.now) × IsCall call) }
        ensures refused { IfErr result
            (λ fault. (file : IndexFile) → early_line given.now file ≡ Some (fault_line fault)) }
    {
        let Some((tool, args)) = called(given) else {
            return Err(ProgramFault::FirstArg);
        };
        if given.has_non_text {
            return Err(ProgramFault::NonText(tool, args.len() + 1));
        }
        let Some(folder) = folder_for(given, tool) else {
            return Err(ProgramFault::NoFolder);
        };
        Ok(Call {
            given,
            args,
            tool,
            job: read_words(alloc, tool, folder, args),
        })
    }

    /// Whether the job prints matching lines, rather than names or counts.
    pub(crate) fn prints_lines(&self) -> bool
        ensures { result ≡ prints_lines self.now.job }
    {
        match &self.job {
            Ok(Job::Search(SearchJob { style, .. }) | Job::Grep(GrepJob { style, .. })) => {
                is_of_lines(style)
            }
            Ok(Job::Index(_)) | Err(_) => false,
        }
    }

    /// Whether the job may change the index file, so that this has to be claimed before.
    pub(crate) fn may_update(&self) -> bool
        ensures { result ≡ may_update self.now.job }
    {
        match &self.job {
            Ok(Job::Index(job)) => !job.list,
            _ => false,
        }
    }
}

/// The arguments of `cs`, if it is called: the program is run by its name, as through a link, or by
/// that of no tool, and the first argument is its name.
pub(crate) fn project_args(given: &Given) -> Option<&[String]>
    ensures { option_map (λ args. map string_bytes args.now) result ≡ project_args' given.now }
{
    if Path::new(given.program.as_str()).file_name() == Some("cs") {
        return Some(given.args.as_slice());
    }
    if own_tool(given).is_some() {
        return None;
    }
    match given.args.split_first() {
        Some((first, args)) if first.as_str() == "cs" => Some(args),
        _ => None,
    }
}

/// Whether the tools are asked for: the program is run by the name of no tool, and the first
/// argument is `--help`.
pub(crate) fn asks_for_help(given: &Given) -> bool
    ensures { result ≡ asks_for_help' given.now }
{
    own_tool(given).is_none()
        && given
            .args
            .first()
            .is_some_and(|first| first.as_str() == "--help")
}

/// The tool that is called, and its arguments. If the program is run by the name of a tool, as
/// through a link, that tool is called, otherwise the one that the first argument names.
fn called(given: &Given) -> Option<(Tool, &[String])>
    ensures { MatchOption result (tool_of given.now ≡ None) (λ call. (tool_of given.now ≡ Some call.0)
        × (map string_bytes call.1.now ≡ tool_args given.now)) }
{
    if let Some(tool) = own_tool(given) {
        return Some((tool, given.args.as_slice()));
    }
    let (first, args) = given.args.split_first()?;
    Some((tool_named(first.as_str())?, args))
}

/// The tool whose name the program is run by.
fn own_tool(given: &Given) -> Option<Tool>
    ensures { result ≡ own_tool given.now }
{
    tool_named(Path::new(given.program.as_str()).file_name()?)
}

/// The tool with this name.
fn tool_named(name: &str) -> Option<Tool>
    ensures { result ≡ tool_named name.now }
{
    match name {
        "cindex" => Some(Tool::Cindex),
        "csearch" => Some(Tool::Csearch),
        "cgrep" => Some(Tool::Cgrep),
        _ => None,
    }
}

/// The current folder for the arguments of the tool, which only `cindex` needs.
fn folder_for(given: &Given, tool: Tool) -> Option<&str>
    ensures none { IsNone result → lacks_folder given.now tool ≡ true }
    ensures some { IfSome result (λ folder. lacks_folder given.now tool ≡ false) }
    ensures folder { IfSome result (λ folder.
        folder.now ≡ unwrap_or (absolute_folder given.now) []) }
{
    match (absolute_folder(given), tool) {
        (Some(folder), _) => Some(folder),
        (None, Tool::Cindex) => None,
        (None, Tool::Csearch | Tool::Cgrep) => Some(""),
    }
}

/// The current folder, if it begins with `/`.
pub(crate) fn absolute_folder(given: &Given) -> Option<&str>
    ensures { option_copied result ≡ absolute_folder given.now }
{
    match &given.folder {
        Some(folder) if is_absolute(folder.as_str()) => Some(folder.as_str()),
        _ => None,
    }
}

/// Whether lines are printed in this style.
fn is_of_lines(style: &Style) -> bool
    ensures { result ≡ is_of_lines style.now }
{
    !style.count && !style.list
}
