// Reads command line arguments as a job, by the rules of Go's package `flag`: options, and the
// settings that they give.
ghost use Rattle.std.specs.Prelude.{◌≡◌, ◌∷◌, ◌≤◌, ◌↔◌, ◌≢◌, List, None, Some, Ok, Err, true, length, map, string_bytes, option_map, option_copied, IfOk, IfErr, IsOk};
ghost use Rattle.cs_args.specs.JobView.{job_view, GivesJob};
ghost use Rattle.cs_args.specs.Args.{OptionItem, is_option, option_items, operands, without_terminator, first_fault, index_job as index_by, search_job as search_by, grep_job as grep_by, job_by, parse_args, option_text, name_of, value_of, parse_bool};
ghost use Rattle.cs_args.specs.Settings.{IsNextItem, BreaksRule, AreSettingsOf, IsFlag};
ghost use Rattle.cs_args.specs.declared.fault.WordFault.{WordFault as A_fault};
ghost use Rattle.cs_args.specs.declared.fault.WordFault.TheVariants.{Memory};
ghost use Rattle.cs_args.specs.declared.jobs.Tool.TheVariants.{Cindex, Cgrep};
ghost use Rattle.cs_args.specs.declared.args.Flag.TheVariants.{Switch as A_switch};

use crate::fault::WordFault;
use crate::jobs::{GrepJob, IndexJob, Job, SearchJob, Style, Tool};
use std::alloc::{AllocError, Global};

/// An option, and the number of arguments that it takes.
#[derive(Clone, Copy, Drop)]
struct ReadItem<'a> {
    setting: Setting<'a>,
    len: usize,
}

/// All options, and the arguments after them.
#[derive(Clone, Copy, Drop)]
struct ReadOptions<'a> {
    settings: Settings<'a>,
    rest: &'a [String],
}

/// A Boolean option.
#[derive(Clone, Copy, Drop)]
pub(crate) enum Switch {
    List,
    Reset,
    LogSkip,
    Count,
    Bare,
    Fold,
    ListFiles,
    Number,
    Brute,
}

/// An option of a tool.
#[derive(Clone, Copy, Drop)]
pub(crate) enum Flag {
    Switch(Switch),
    File,
}

/// An option argument, split at its first `=`.
#[derive(Clone, Copy, Drop)]
pub(crate) struct OptionArg<'a> {
    pub(crate) name: &'a str,
    pub(crate) value: Option<&'a str>,
}

/// What one option sets.
#[derive(Clone, Copy, Drop)]
pub(crate) enum Setting<'a> {
    Boolean(Switch, bool),
    File(&'a str),
}

/// What all options so far set.
#[derive(Clone, Copy, Drop)]
pub(crate) struct Settings<'a> {
    pub(crate) list: bool,
    pub(crate) reset: bool,
    pub(crate) log_skip: bool,
    pub(crate) style: Style,
    pub(crate) fold: bool,
    pub(crate) brute: bool,
    pub(crate) file: Option<&'a str>,
}

/// The settings without options.
const DEFAULT: Settings<'static> = Settings {
    list: false,
    reset: false,
    log_skip: false,
    style: Style {
        count: false,
        list: false,
        number: false,
        bare: false,
    },
    fold: false,
    brute: false,
    file: None,
};

impl<'a> Settings<'a> {
    ghost use Rattle.std.specs.Prelude.{◌≡◌};
    ghost use Rattle.cs_args.specs.Settings.{with_switch, with_setting};

    /// Applies one more option. It replaces an earlier setting of the same option.
    pub(crate) fn set(&mut self, setting: Setting<'a>)
        ensures { self.new ≡ with_setting setting.entry self.old }
    {
        match setting {
            Setting::Boolean(switch, on) => self.set_boolean(switch, on),
            Setting::File(pattern) => self.file = Some(pattern),
        }
    }

    /// Sets a switch.
    fn set_boolean(&mut self, switch: Switch, on: bool)
        ensures { self.new ≡ with_switch switch on self.old }
    {
        match switch {
            Switch::List => self.list = on,
            Switch::Reset => self.reset = on,
            Switch::LogSkip => self.log_skip = on,
            Switch::Count => self.style.count = on,
            Switch::Bare => self.style.bare = on,
            Switch::Fold => self.fold = on,
            Switch::ListFiles => self.style.list = on,
            Switch::Number => self.style.number = on,
            Switch::Brute => self.brute = on,
        }
    }
}

/// Reads the arguments of a tool: options first, as Go's package `flag` reads them, and then
/// operands. `cwd` is the current folder, which goes into an `IndexJob`.
///
/// The error is that of the first bad argument from the left. It is found before anything is
/// allocated, so `Memory` is returned only for arguments without an error.
pub fn read_words(alloc: Global, tool: Tool, cwd: &str, args: &[String]) -> Result<Job, WordFault>
    ensures job { IfOk result
        (λ job. parse_args tool cwd.now (map string_bytes args.now) ≡ Ok (job_view job)) }
    ensures fault { (fault : A_fault) → fault ≢ Memory →
        (result ≡ Err fault) ↔ (parse_args tool cwd.now (map string_bytes args.now) ≡ Err fault) }
    ensures memory { result ≡ Err Memory →
        IsOk (parse_args tool cwd.now (map string_bytes args.now)) }
{
    let options = read_options(tool, args)?;
    make_job(alloc, tool, cwd, &options, args.len())
}

/// The job by the settings and the operands. `all` is the number of all arguments.
fn make_job(
    alloc: Global,
    tool: Tool,
    cwd: &str,
    options: &ReadOptions<'_>,
    all: usize,
) -> Result<Job, WordFault>
    requires { length options.now.rest.now ≤ all }
    ensures { (items : List OptionItem) → AreSettingsOf options.now.settings items →
        GivesJob (job_by tool cwd.now all items (map string_bytes options.now.rest.now)) result }
{
    match tool {
        Tool::Cindex => index_job(alloc, &options.settings, cwd, options.rest),
        Tool::Csearch => search_job(alloc, &options.settings, options.rest, all),
        Tool::Cgrep => grep_job(alloc, &options.settings, options.rest),
    }
}

/// All options, up to the first argument that is not an option, or up to `--`.
fn read_options<'a>(tool: Tool, args: &'a [String]) -> Result<ReadOptions<'a>, WordFault>
    ensures settings { IfOk result
        (λ options. AreSettingsOf options.settings (option_items tool (map string_bytes args.now))) }
    ensures rest { IfOk result
        (λ options. map string_bytes options.rest.now
        ≡ operands tool (map string_bytes args.now)) }
    ensures within { IfOk result (λ options. length options.rest.now ≤ length args.now) }
    ensures sound { IfOk result
        (λ _. first_fault tool (option_items tool (map string_bytes args.now)) ≡ None) }
    ensures fault { IfErr result
        (λ fault. first_fault tool (option_items tool (map string_bytes args.now)) ≡ Some fault) }
{
    let mut settings = DEFAULT;
    let mut arg_index = 0;
    while let Some(item) = next_item(tool, &args[arg_index..], arg_index)? {
        settings.set(item.setting);
        arg_index += item.len;
    }
    Ok(ReadOptions {
        settings,
        rest: without_terminator(&args[arg_index..]),
    })
}

/// The arguments without a `--` at their start.
fn without_terminator(args: &[String]) -> &[String]
    ensures rest { map string_bytes result.now ≡ without_terminator (map string_bytes args.now) }
    ensures within { length result.now ≤ length args.now }
{
    match args.split_first() {
        Some((arg, behind)) if arg.as_str() == "--" => behind,
        _ => args,
    }
}

/// The option at the start of the arguments, which begin at `arg_index`.
fn next_item<'a>(
    tool: Tool,
    args: &'a [String],
    arg_index: usize,
) -> Result<Option<ReadItem<'a>>, WordFault>
    ensures item { IfOk result (λ next. IsNextItem tool arg_index (map string_bytes args.now) next) }
    ensures fault { IfErr result (λ fault. BreaksRule tool arg_index (map string_bytes args.now) fault) }
{
    match args.split_first() {
        Some((arg, behind)) if is_option(arg.as_str()) => {
            read_item(tool, arg.as_str(), behind, arg_index).map(Some)
        }
        _ => Ok(None),
    }
}

/// The option that begins with this argument; the arguments after it may begin with its value.
fn read_item<'a>(
    tool: Tool,
    arg: &'a str,
    behind: &'a [String],
    arg_index: usize,
) -> Result<ReadItem<'a>, WordFault>
    requires { is_option arg.now ≡ true }
    ensures item { IfOk result
        (λ item. IsNextItem tool arg_index (arg.now ∷ map string_bytes behind.now) (Some item)) }
    ensures fault { IfErr result
        (λ fault. BreaksRule tool arg_index (arg.now ∷ map string_bytes behind.now) fault) }
{
    let option = split_option(arg);
    match flag_named(tool, option.name) {
        None => Err(WordFault::UnknownOption(arg_index)),
        Some(Flag::Switch(switch)) => {
            let on = option
                .value
                .map_or(Some(true), parse_bool)
                .ok_or(WordFault::BadTruth(arg_index))?;
            Ok(ReadItem {
                setting: Setting::Boolean(switch, on),
                len: 1,
            })
        }
        Some(Flag::File) => match option.value {
            Some(pattern) => Ok(ReadItem {
                setting: Setting::File(pattern),
                len: 1,
            }),
            None => Ok(ReadItem {
                setting: Setting::File(
                    behind
                        .first()
                        .ok_or(WordFault::NoValue(arg_index))?
                        .as_str(),
                ),
                len: 2,
            }),
        },
    }
}

fn index_job(
    alloc: Global,
    settings: &Settings<'_>,
    cwd: &str,
    paths: &[String],
) -> Result<Job, WordFault>
    ensures { (items : List OptionItem) → AreSettingsOf settings.now items →
        GivesJob (index_by cwd.now items (map string_bytes paths.now)) result }
{
    Ok(Job::Index(IndexJob {
        list: settings.list,
        reset: settings.reset,
        log_skip: settings.log_skip,
        cwd: String::from_str(alloc, cwd)?,
        paths: copies(alloc, paths)?,
    }))
}

fn search_job(
    alloc: Global,
    settings: &Settings<'_>,
    rest: &[String],
    all: usize,
) -> Result<Job, WordFault>
    requires { length rest.now ≤ all }
    ensures { (items : List OptionItem) → AreSettingsOf settings.now items →
        GivesJob (search_by all items (map string_bytes rest.now)) result }
{
    match rest {
        [] => Err(WordFault::NoPattern),
        [pattern] => Ok(Job::Search(SearchJob {
            style: settings.style,
            fold: settings.fold,
            brute: settings.brute,
            file: copy_of(alloc, settings.file)?,
            pattern: pattern.clone()?,
        })),
        [_, extra @ ..] => Err(WordFault::ExtraWord(all - extra.len())),
    }
}

fn grep_job(alloc: Global, settings: &Settings<'_>, rest: &[String]) -> Result<Job, WordFault>
    ensures { (items : List OptionItem) → AreSettingsOf settings.now items →
        GivesJob (grep_by items (map string_bytes rest.now)) result }
{
    match rest.split_first() {
        None => Err(WordFault::NoPattern),
        Some((pattern, files)) => Ok(Job::Grep(GrepJob {
            style: settings.style,
            fold: settings.fold,
            pattern: pattern.clone()?,
            standard: files.is_empty(),
            files: copies(alloc, files)?,
        })),
    }
}

fn copy_of(alloc: Global, text: Option<&str>) -> Result<Option<String>, AllocError>
    ensures { IfOk result (λ copy. option_map string_bytes copy ≡ option_copied text.entry) }
{
    match text {
        None => Ok(None),
        Some(text) => Ok(Some(String::from_str(alloc, text)?)),
    }
}

fn copies(alloc: Global, texts: &[String]) -> Result<Vec<String>, AllocError>
    ensures { IfOk result
        (λ copies. map string_bytes copies.items ≡ map string_bytes texts.now) }
{
    let mut copies = Vec::with_capacity(alloc, texts.len())?;
    for text in texts {
        copies.push(text.clone()?)?;
    }
    Ok(copies)
}

/// Whether an argument is an option. `-`, `--` and the empty argument are not.
fn is_option(arg: &str) -> bool
    ensures { result ≡ is_option arg.now }
{
    arg.starts_with("-") && arg != "-" && arg != "--"
}

/// The option without its one or two dashes.
fn option_text(arg: &str) -> &str
    requires { is_option arg.now ≡ true }
    ensures { result.now ≡ option_text arg.now }
{
    match arg.strip_prefix("--") {
        Some(text) => text,
        None => arg.strip_prefix("-").unwrap(),
    }
}

/// Splits an option into its name and its value.
fn split_option(arg: &str) -> OptionArg<'_>
    requires { is_option arg.now ≡ true }
    ensures name { result.name.now ≡ name_of arg.now }
    ensures value { option_copied result.value ≡ value_of arg.now }
{
    let text = option_text(arg);
    match text.split_once('=') {
        Some((name, value)) => OptionArg {
            name,
            value: Some(value),
        },
        None => OptionArg {
            name: text,
            value: None,
        },
    }
}

/// Parses the value of a switch, as Go's `strconv.ParseBool`.
fn parse_bool(value: &str) -> Option<bool>
    ensures { result ≡ parse_bool value.now }
{
    match value {
        "1" | "t" | "T" | "true" | "TRUE" | "True" => Some(true),
        "0" | "f" | "F" | "false" | "FALSE" | "False" => Some(false),
        _ => None,
    }
}

/// The option of the tool with this name.
fn flag_named(tool: Tool, name: &str) -> Option<Flag>
    ensures { IsFlag tool name.now result }
{
    match (tool, name) {
        (Tool::Cindex, _) => index_switch(name).map(Flag::Switch),
        (Tool::Csearch, "brute") => Some(Flag::Switch(Switch::Brute)),
        (Tool::Csearch, "f") => Some(Flag::File),
        _ => line_switch(name).map(Flag::Switch),
    }
}

/// The options of `cindex`.
fn index_switch(name: &str) -> Option<Switch>
    ensures { IsFlag Cindex name.now (option_map (λ switch. A_switch switch) result) }
{
    match name {
        "list" => Some(Switch::List),
        "reset" => Some(Switch::Reset),
        "logskip" => Some(Switch::LogSkip),
        _ => None,
    }
}

/// The options of `csearch` and `cgrep`.
fn line_switch(name: &str) -> Option<Switch>
    ensures { IsFlag Cgrep name.now (option_map (λ switch. A_switch switch) result) }
{
    match name {
        "c" => Some(Switch::Count),
        "h" => Some(Switch::Bare),
        "i" => Some(Switch::Fold),
        "l" => Some(Switch::ListFiles),
        "n" => Some(Switch::Number),
        _ => None,
    }
}
