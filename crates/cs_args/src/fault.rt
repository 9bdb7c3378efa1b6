// Errors of the tools, why a file or a path is skipped, and the lines that are printed for them.
ghost use Rattle.std.specs.Prelude.{◌≡◌, ◌++◌, codes, string_bytes, IfOk};
ghost use Rattle.cs_args.specs.SkipLines.{reason_text, skip_line_of};
ghost use Rattle.cs_args.specs.FileFaults.{tool_name, file_fault_text, fault_line_of};
ghost use Rattle.cs_args.specs.Appends.{Appends};
ghost use Rattle.cs_args.specs.Messages.{pattern_fault_text, pattern_error_text, index_fault_text, word_fault_text, tool_fault_text, cindex_fault_text, refusal_text, line_of};

use crate::jobs::Tool;
use cs_index::IndexFault;
use cs_syntax::{PatternError, PatternFault};
use cs_tree::{IoFault, TreeFault};
use cs_trigram::Reason;
use itoa::Buffer;
use std::alloc::{AllocError, AllocFailed, Global};
use thiserror::Error;

/// Why arguments do not parse as a job. Indexes of arguments start at 0.
#[derive(Clone, Copy, Debug, PartialEq, Eq, Drop, Error)]
pub enum WordFault {
    /// The tool has no such option, as `-x`, `-cn`, `---c` or `-=v`. The index is that of the
    /// argument.
    #[error("unknown option")]
    UnknownOption(usize),
    /// An option that needs a value is the last argument, as `-f`. The index is that of the
    /// argument.
    #[error("an option needs a value")]
    NoValue(usize),
    /// The value of a switch is not a Boolean, as in `-n=yes` and `-n=`. The index is that of the
    /// argument.
    #[error("bad truth value")]
    BadTruth(usize),
    /// There is no argument for the pattern, as in `csearch -n`.
    #[error("no pattern")]
    NoPattern,
    /// `csearch` has an argument after its pattern, as in `csearch x y`. The index is that of the
    /// first such argument.
    #[error("extra word")]
    ExtraWord(usize),
    /// An allocation failed.
    #[error("out of memory")]
    Memory,
}

impl From<AllocError> for WordFault {
    ghost use Rattle.std.specs.Prelude.{◌≡◌};
    ghost use Rattle.cs_args.specs.declared.fault.WordFault.TheVariants.{Memory};

    ghost from_gives = { λ _ fault. fault ≡ Memory };

    fn from(_refused: AllocError) -> WordFault {
        WordFault::Memory
    }
}

impl<T: Drop> From<AllocFailed<T>> for WordFault {
    ghost use Rattle.std.specs.Prelude.{◌≡◌};
    ghost use Rattle.cs_args.specs.declared.fault.WordFault.TheVariants.{Memory};

    ghost from_gives = { λ _ fault. fault ≡ Memory };

    fn from(_refused: AllocFailed<T>) -> WordFault {
        WordFault::Memory
    }
}

/// Errors of `csearch` and `cgrep`. The first four are checked in this order, before any output.
#[derive(Clone, Copy, Debug, PartialEq, Eq, Drop, Error)]
pub enum ToolFault {
    /// The pattern has an error, as in `cgrep '(a'`.
    #[error("a fault of the pattern")]
    Pattern(PatternError),
    /// The pattern of `-f` has an error, as in `csearch -f '(a' x`.
    #[error("a fault of the pattern for names")]
    FilePattern(PatternError),
    /// There is no index, as before the first job of `cindex`.
    #[error("no index")]
    NoIndex,
    /// The index is damaged, as when its last byte is cut off.
    #[error("bad index: {0}")]
    BadIndex(IndexFault),
    /// A write failed, as on a full disk.
    #[error("output failed")]
    Write,
    /// An allocation failed.
    #[error("out of memory")]
    Memory,
}

/// A failed write, or an allocation that failed in one.
impl From<IoFault> for ToolFault {
    ghost use Rattle.std.specs.Prelude.{◌≡◌};
    ghost use Rattle.cs_args.specs.Faults.{tool_write_fault};

    ghost from_gives = { λ io fault. fault ≡ tool_write_fault io };

    fn from(io: IoFault) -> ToolFault {
        match io {
            IoFault::Failed => ToolFault::Write,
            IoFault::Memory => ToolFault::Memory,
        }
    }
}

impl From<AllocError> for ToolFault {
    ghost use Rattle.std.specs.Prelude.{◌≡◌};
    ghost use Rattle.cs_args.specs.declared.fault.ToolFault.TheVariants.{Memory};

    ghost from_gives = { λ _ fault. fault ≡ Memory };

    fn from(_refused: AllocError) -> ToolFault {
        ToolFault::Memory
    }
}

/// The error of a pattern; an allocation failure becomes `Memory`.
impl From<PatternError> for ToolFault {
    ghost use Rattle.std.specs.Prelude.{◌≡◌};
    ghost use Rattle.cs_args.specs.Faults.{pattern_fault};

    ghost from_gives = { λ error fault. fault ≡ pattern_fault error };

    fn from(error: PatternError) -> ToolFault {
        match error.fault {
            PatternFault::Memory => ToolFault::Memory,
            _ => ToolFault::Pattern(error),
        }
    }
}

/// The error of opening an index; an allocation failure becomes `Memory`.
impl From<IndexFault> for ToolFault {
    ghost use Rattle.std.specs.Prelude.{◌≡◌};
    ghost use Rattle.cs_args.specs.Faults.{index_fault};

    ghost from_gives = { λ index fault. fault ≡ index_fault index };

    fn from(index: IndexFault) -> ToolFault {
        match index {
            IndexFault::Memory => ToolFault::Memory,
            _ => ToolFault::BadIndex(index),
        }
    }
}

/// Errors of a job of `cindex`. A job that fails leaves the index as it was.
#[derive(Clone, Copy, Debug, PartialEq, Eq, Drop, Error)]
pub enum CindexFault {
    /// There is no index, and the job has no path.
    #[error("no index")]
    NoIndex,
    /// The old index is damaged, or one of its paths is not clean.
    #[error("bad index: {0}")]
    BadIndex(IndexFault),
    /// A name occurs twice in the old index.
    #[error("index holds a name twice")]
    Unsorted,
    /// The new index would have more than 2^32 - 1 bytes.
    #[error("index too large")]
    TooLarge,
    /// A path is empty, has a NUL or is too long. The index is that of the path in the job.
    #[error("bad path")]
    BadPath(usize),
    /// A write failed.
    #[error("output failed")]
    Write,
    /// An allocation failed.
    #[error("out of memory")]
    Memory,
}

/// A failed write, or an allocation that failed in one.
impl From<IoFault> for CindexFault {
    ghost use Rattle.std.specs.Prelude.{◌≡◌};
    ghost use Rattle.cs_args.specs.Faults.{write_refusal};

    ghost from_gives = { λ io fault. fault ≡ write_refusal io };

    fn from(io: IoFault) -> CindexFault {
        match io {
            IoFault::Failed => CindexFault::Write,
            IoFault::Memory => CindexFault::Memory,
        }
    }
}

impl From<AllocError> for CindexFault {
    ghost use Rattle.std.specs.Prelude.{◌≡◌};
    ghost use Rattle.cs_args.specs.declared.fault.CindexFault.TheVariants.{Memory};

    ghost from_gives = { λ _ fault. fault ≡ Memory };

    fn from(_refused: AllocError) -> CindexFault {
        CindexFault::Memory
    }
}

impl<T: Drop> From<AllocFailed<T>> for CindexFault {
    ghost use Rattle.std.specs.Prelude.{◌≡◌};
    ghost use Rattle.cs_args.specs.declared.fault.CindexFault.TheVariants.{Memory};

    ghost from_gives = { λ _ fault. fault ≡ Memory };

    fn from(_refused: AllocFailed<T>) -> CindexFault {
        CindexFault::Memory
    }
}

/// The error of opening an index; an allocation failure becomes `Memory`.
impl From<IndexFault> for CindexFault {
    ghost use Rattle.std.specs.Prelude.{◌≡◌};
    ghost use Rattle.cs_args.specs.Faults.{index_refusal};

    ghost from_gives = { λ index fault. fault ≡ index_refusal index };

    fn from(index: IndexFault) -> CindexFault {
        match index {
            IndexFault::Memory => CindexFault::Memory,
            _ => CindexFault::BadIndex(index),
        }
    }
}

/// The error of a tool: of its arguments, or of its job.
#[derive(Clone, Copy, Debug, PartialEq, Eq, Drop, Error)]
pub enum Refusal {
    #[error("{0}")]
    Word(WordFault),
    #[error("{0}")]
    Tool(ToolFault),
    #[error("{0}")]
    Index(CindexFault),
}

/// Why a file or a path is skipped. The tool continues.
#[derive(Clone, Copy, Debug, PartialEq, Eq, Drop)]
pub enum FileFault {
    /// There is no such file.
    Missing,
    /// The system denies access to the file.
    Denied,
    /// The file is the output itself.
    Output,
    /// A read failed.
    Failed,
    /// A folder has an entry whose name is not UTF-8. The message names the folder.
    Unnamed,
    /// A path of a walk has more than 4095 bytes.
    PathTooLong,
    /// An input of a search has more than 2^30 bytes.
    InputTooLong,
}

impl FileFault {
    ghost use Rattle.std.specs.Prelude.{◌≡◌, ◌≢◌, IfOk, IfErr};
    ghost use Rattle.cs_args.specs.FileFaults.{file_fault_of};

    /// The error of a file for an error of the tree. An allocation failure is not an error of the
    /// file, and is returned as `Err`.
    pub fn of_tree(fault: TreeFault) -> Result<FileFault, AllocError>
        ensures file { IfOk result
            (λ file. (file ≡ file_fault_of fault) × (fault ≢ TreeFault.Memory)) }
        ensures memory { IfErr result (λ _. fault ≡ TreeFault.Memory) }
    {
        match fault {
            TreeFault::Missing => Ok(FileFault::Missing),
            TreeFault::Denied => Ok(FileFault::Denied),
            TreeFault::Output => Ok(FileFault::Output),
            TreeFault::Failed => Ok(FileFault::Failed),
            TreeFault::Memory => Err(AllocError),
        }
    }
}

/// The line for an error of a tool, with its newline. `arg` is the argument or the path that the
/// error points at, or empty.
pub fn message(
    alloc: Global,
    tool: Tool,
    refusal: &Refusal,
    arg: &str,
) -> Result<String, AllocError>
    ensures { IfOk result (λ line. string_bytes line ≡ line_of tool refusal.now arg.now) }
{
    let mut line = line_start(alloc, tool)?;
    push_refusal(&mut line, refusal, arg)?;
    line.push_str("\n")?;
    Ok(line)
}

/// The line for a file or a path that is skipped.
pub fn fault_line(
    alloc: Global,
    tool: Tool,
    name: &str,
    fault: FileFault,
) -> Result<String, AllocError>
    ensures { IfOk result (λ line. string_bytes line ≡ fault_line_of tool name.now fault) }
{
    let mut line = line_start(alloc, tool)?;
    push_both(&mut line, name, ": ")?;
    push_both(&mut line, file_fault_text(fault), "\n")?;
    Ok(line)
}

/// The line of `cindex -logskip` for a file that is not indexed.
pub fn skip_line(alloc: Global, name: &str, reason: Reason) -> Result<String, AllocError>
    ensures { IfOk result (λ line. string_bytes line ≡ skip_line_of name.now reason) }
{
    let mut line = line_start(alloc, Tool::Cindex)?;
    push_both(&mut line, name, ": not indexed: ")?;
    push_both(&mut line, reason_text(reason), "\n")?;
    Ok(line)
}

/// The start of a line, which is the name of the tool.
fn line_start(alloc: Global, tool: Tool) -> Result<String, AllocError>
    ensures { IfOk result (λ line. string_bytes line ≡ tool_name tool ++ codes ": ") }
{
    let mut line = String::from_str(alloc, name_of(tool))?;
    line.push_str(": ")?;
    Ok(line)
}

fn name_of(tool: Tool) -> &'static str
    ensures { result.now ≡ tool_name tool }
{
    match tool {
        Tool::Cindex => "cindex",
        Tool::Csearch => "csearch",
        Tool::Cgrep => "cgrep",
    }
}

fn push_refusal(line: &mut String, refusal: &Refusal, arg: &str) -> Result<(), AllocError>
    ensures { Appends line.old line.new (refusal_text refusal.now arg.now) result }
{
    match refusal {
        Refusal::Word(fault) => push_word_fault(line, *fault, arg),
        Refusal::Tool(fault) => push_tool_fault(line, *fault),
        Refusal::Index(fault) => push_cindex_fault(line, *fault, arg),
    }
}

fn push_word_fault(line: &mut String, fault: WordFault, arg: &str) -> Result<(), AllocError>
    ensures { Appends line.old line.new (word_fault_text fault arg.now) result }
{
    match fault {
        WordFault::UnknownOption(_) => push_both(line, "unknown option ", arg),
        WordFault::NoValue(_) => {
            push_both(line, "option ", arg)?;
            line.push_str(" needs a value")
        }
        WordFault::BadTruth(_) => push_both(line, "bad truth value in ", arg),
        WordFault::NoPattern => line.push_str("no pattern"),
        WordFault::ExtraWord(_) => push_both(line, "extra word ", arg),
        WordFault::Memory => line.push_str("out of memory"),
    }
}

fn push_tool_fault(line: &mut String, fault: ToolFault) -> Result<(), AllocError>
    ensures { Appends line.old line.new (tool_fault_text fault) result }
{
    match fault {
        ToolFault::Pattern(error) => push_pattern_error(line, "pattern at ", error),
        ToolFault::FilePattern(error) => push_pattern_error(line, "file pattern at ", error),
        ToolFault::NoIndex => line.push_str("no index"),
        ToolFault::BadIndex(fault) => line.push_str(index_fault_text(fault)),
        ToolFault::Write => line.push_str("output failed"),
        ToolFault::Memory => line.push_str("out of memory"),
    }
}

fn push_cindex_fault(line: &mut String, fault: CindexFault, arg: &str) -> Result<(), AllocError>
    ensures { Appends line.old line.new (cindex_fault_text fault arg.now) result }
{
    match fault {
        CindexFault::NoIndex => line.push_str("no index"),
        CindexFault::BadIndex(fault) => line.push_str(index_fault_text(fault)),
        CindexFault::Unsorted => line.push_str("index holds a name twice"),
        CindexFault::TooLarge => line.push_str("index too large"),
        CindexFault::BadPath(_) => push_both(line, "bad path ", arg),
        CindexFault::Write => line.push_str("output failed"),
        CindexFault::Memory => line.push_str("out of memory"),
    }
}

/// Appends the text of a pattern error. Out of memory has no offset in the pattern.
fn push_pattern_error(line: &mut String, what: &str, error: PatternError) -> Result<(), AllocError>
    ensures { Appends line.old line.new (pattern_error_text what.now error) result }
{
    if error.fault != PatternFault::Memory {
        push_both(line, what, Buffer::new().format(error.at))?;
        line.push_str(": ")?;
    }
    line.push_str(pattern_fault_text(error.fault))
}

fn push_both(line: &mut String, first: &str, second: &str) -> Result<(), AllocError>
    ensures { Appends line.old line.new (first.now ++ second.now) result }
{
    line.push_str(first)?;
    line.push_str(second)
}

fn pattern_fault_text(fault: PatternFault) -> &'static str
    ensures { result.now ≡ pattern_fault_text fault }
{
    match fault {
        PatternFault::NoOperand => "nothing to repeat",
        PatternFault::StackedRepeat => "stacked repeat",
        PatternFault::BadRepeat => "bad repeat count",
        PatternFault::OpenGroup => "group not closed",
        PatternFault::StrayClose => "unexpected )",
        PatternFault::BadGroup => "bad group",
        PatternFault::OpenClass => "class not closed",
        PatternFault::BadRange => "bad range",
        PatternFault::BadEscape => "bad escape",
        PatternFault::LoneBackslash => "lone backslash",
        PatternFault::NotInProfile => "not in this profile",
        PatternFault::TooDeep => "nested too deep",
        PatternFault::TooLarge => "pattern too large",
        PatternFault::Memory => "out of memory",
    }
}

fn index_fault_text(fault: IndexFault) -> &'static str
    ensures { result.now ≡ index_fault_text fault }
{
    match fault {
        IndexFault::BadMagic => "bad index: magic",
        IndexFault::BadTrailer => "bad index: trailer",
        IndexFault::BadOffsets => "bad index: offsets",
        IndexFault::BadPaths => "bad index: paths",
        IndexFault::BadNames => "bad index: names",
        IndexFault::BadNameIndex => "bad index: name index",
        IndexFault::BadListIndex => "bad index: list index",
        IndexFault::BadList => "bad index: list",
        IndexFault::Memory => "out of memory",
    }
}

fn file_fault_text(fault: FileFault) -> &'static str
    ensures { result.now ≡ file_fault_text fault }
{
    match fault {
        FileFault::Missing => "no such file",
        FileFault::Denied => "permission denied",
        FileFault::Output => "is the output",
        FileFault::Failed => "cannot be read",
        FileFault::Unnamed => "name is not text",
        FileFault::PathTooLong => "path too long",
        FileFault::InputTooLong => "input too long",
    }
}

fn reason_text(reason: Reason) -> &'static str
    ensures { result.now ≡ reason_text reason }
{
    match reason {
        Reason::Nul => "NUL byte",
        Reason::Utf8 => "bad UTF-8",
        Reason::TooLong => "file too long",
        Reason::LongLine => "line too long",
        Reason::ManyTrigrams => "too many trigrams",
    }
}
