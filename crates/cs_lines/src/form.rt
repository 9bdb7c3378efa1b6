// How lines are printed, and what is printed of a text.

/// What is printed beside a line, and how.
#[derive(Clone, Copy, Drop)]
pub struct LineForm {
    /// No name (`-h`).
    pub bare: bool,
    /// The name stands above the lines of a text, not beside each (`--heading`).
    pub heading: bool,
    /// The number of the line (`-n`).
    pub number: bool,
    /// The column of the first match (`--column`).
    pub column: bool,
    /// Each match by itself, in place of its line (`-o`).
    pub only: bool,
    /// The line once for each match (`--vimgrep`).
    pub each: bool,
    /// A NUL after the name (`-0`).
    pub nul: bool,
    /// Names, numbers, separators and matches in colours.
    pub colour: bool,
    /// A count is `NAME: COUNT`, also where lines have no names, as in Go's csearch.
    pub spaced: bool,
}

/// What is printed of a text.
#[derive(Clone, Copy, Drop)]
pub enum Mode {
    /// Its lines.
    Lines,
    /// The number of its marked lines (`-c`).
    Counts,
    /// Its name, if a line is marked (`-l`).
    Names,
    /// Its name, if no line is marked (`-L`).
    Others,
}

/// What is printed of texts, and how.
#[derive(Clone, Copy, Drop)]
pub struct ShowOptions {
    pub mode: Mode,
    /// At most so many lines of a text are marked (`-m`).
    pub most: Option<u64>,
    /// So many lines before a marked line are shown (`-B`).
    pub before: usize,
    /// So many lines after a marked line are shown (`-A`).
    pub after: usize,
    /// Lines without a match are marked (`-v`).
    pub invert: bool,
    pub form: LineForm,
}
