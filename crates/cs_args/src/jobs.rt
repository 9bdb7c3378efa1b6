// The jobs of the three tools, and the replies of `cindex`.
use crate::fault::CindexFault;

/// One of the three tools.
#[derive(Clone, Copy, PartialEq, Eq, Drop)]
pub enum Tool {
    Cindex,
    Csearch,
    Cgrep,
}

/// The job of a tool.
#[derive(PartialEq, Eq, Drop)]
pub enum Job {
    Index(IndexJob),
    Search(SearchJob),
    Grep(GrepJob),
}

/// How the matching lines of a file are printed.
#[derive(Clone, Copy, PartialEq, Eq, Drop)]
pub struct Style {
    /// `-c`: the number of matching lines instead of the lines.
    pub count: bool,
    /// `-l`: the name of the file, once, instead of the lines.
    pub list: bool,
    /// `-n`: each line with its number.
    pub number: bool,
    /// `-h`: each line without the name of its file.
    pub bare: bool,
}

/// A job of `cindex`.
#[derive(PartialEq, Eq, Drop)]
pub struct IndexJob {
    /// `-list`: print the paths of the index, and do nothing else.
    pub list: bool,
    /// `-reset`: ignore the old index.
    pub reset: bool,
    /// `-logskip`: print a line for each file that is not indexed.
    pub log_skip: bool,
    /// The current folder, to which a relative path is joined.
    pub cwd: String,
    /// The paths, as given.
    pub paths: Vec<String>,
}

/// A job of `csearch`.
#[derive(PartialEq, Eq, Drop)]
pub struct SearchJob {
    pub style: Style,
    /// `-i`: ASCII letters of the pattern match in upper and lower case.
    pub fold: bool,
    /// `-brute`: search all indexed files.
    pub brute: bool,
    /// `-f`: a pattern that the name of a file has to match.
    pub file: Option<String>,
    pub pattern: String,
}

/// A job of `cgrep`.
#[derive(PartialEq, Eq, Drop)]
pub struct GrepJob {
    pub style: Style,
    /// `-i`: ASCII letters of the pattern match in upper and lower case.
    pub fold: bool,
    pub pattern: String,
    /// Whether to search standard input, as when no file is given.
    pub standard: bool,
    /// The files, as given.
    pub files: Vec<String>,
}

/// The outcome of a job of `cindex`.
#[derive(Clone, Copy, PartialEq, Eq, Drop)]
pub enum Reply {
    Done,
    Refused(CindexFault),
}
