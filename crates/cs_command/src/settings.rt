// What the options of `cs` ask for.
ghost use Rattle.std.specs.Prelude.{◌≡◌, Some, None};
ghost use Rattle.cs_command.specs.Settings.{no_switches, counted, with_form, with_switch, form_in, shown_in};

use crate::named::Switch;
use cs_lines::{LineForm, Mode, ShowOptions};

/// What is done.
#[derive(Clone, Copy, Drop)]
pub enum Task {
    /// Lines are searched.
    Search,
    /// The names of the files are printed (`--files`).
    Files,
    /// The types of files are printed (`--type-list`).
    Types,
    /// What later searches know of the files is updated (`--update`).
    Update,
    /// The options are printed (`--help`).
    Help,
    /// The version is printed (`--version`).
    Version,
}

/// How a text is made a pattern.
#[derive(Clone, Copy, Drop)]
pub struct PatternStyle {
    /// It is no regular expression (`-F`).
    pub literal: bool,
    /// Matches are whole words (`-w`).
    pub whole: bool,
    /// A match is a whole line (`-x`).
    pub lines: bool,
}

/// Which files are searched.
#[derive(Clone, Copy, Drop)]
pub struct FileChoice {
    /// Also hidden ones (`--hidden`).
    pub hidden: bool,
    /// Also ignored ones (`-u`).
    pub ignored: bool,
    /// Also binary ones (`-a`).
    pub binary: bool,
}

/// What is done with the state of a project: what earlier runs learned of its files.
#[derive(Clone, Copy, Drop)]
pub struct StateUse {
    /// It is read (not with `--no-state`).
    pub read: bool,
    /// It is updated (neither with `--no-state` nor with `--no-update`).
    pub updated: bool,
}

/// How many lines are marked and shown around.
#[derive(Clone, Copy, Drop)]
pub struct Limits {
    pub most: Option<u64>,
    pub before: Option<usize>,
    pub after: Option<usize>,
    pub around: Option<usize>,
}

/// What the switches ask for.
#[derive(Clone, Copy, Drop)]
pub struct Switches {
    pub task: Task,
    pub mode: Mode,
    /// Nothing is printed (`-q`).
    pub silent: bool,
    /// Lines without a match are marked (`-v`).
    pub invert: bool,
    pub pattern: PatternStyle,
    pub files: FileChoice,
    pub state: StateUse,
    /// `-n` or `-N`.
    pub number: Option<bool>,
    /// `-H` or `-h`.
    pub named: Option<bool>,
    pub form: LineForm,
}

/// What surrounds a search.
#[derive(Clone, Copy, Drop)]
pub struct Surroundings {
    /// The output is a terminal.
    pub terminal: bool,
    /// More than one file may be searched.
    pub several: bool,
}

impl Switches {
    /// Without options.
    pub fn new() -> Switches
        ensures { result ≡ no_switches }
    {
        Switches {
            task: Task::Search,
            mode: Mode::Lines,
            silent: false,
            invert: false,
            pattern: PatternStyle {
                literal: false,
                whole: false,
                lines: false,
            },
            files: FileChoice {
                hidden: false,
                ignored: false,
                binary: false,
            },
            state: StateUse {
                read: true,
                updated: true,
            },
            number: None,
            named: None,
            form: LineForm {
                bare: false,
                heading: false,
                number: false,
                column: false,
                only: false,
                each: false,
                nul: false,
                colour: false,
                spaced: false,
            },
        }
    }

    /// With one more switch.
    pub fn set(&mut self, switch: Switch)
        ensures { self.new ≡ with_switch self.old switch }
    {
        match switch {
            Switch::Literal => self.pattern.literal = true,
            Switch::Words => self.pattern.whole = true,
            Switch::Lines => self.pattern.lines = true,
            Switch::Invert => self.invert = true,
            Switch::Count => self.mode = counted(self.mode),
            Switch::Names => self.mode = Mode::Names,
            Switch::Others => self.mode = Mode::Others,
            Switch::Silent => self.silent = true,
            Switch::Text => self.files.binary = true,
            Switch::Hidden => self.files.hidden = true,
            Switch::Unrestricted => self.files.ignored = true,
            Switch::Number => self.number = Some(true),
            Switch::NoNumber => self.number = Some(false),
            Switch::WithName => self.named = Some(true),
            Switch::Bare => self.named = Some(false),
            Switch::NoUpdate => self.state.updated = false,
            Switch::NoState => {
                self.state.read = false;
                self.state.updated = false;
            }
            Switch::Files => self.task = Task::Files,
            Switch::TypeList => self.task = Task::Types,
            Switch::Update => self.task = Task::Update,
            Switch::Help => self.task = Task::Help,
            Switch::Version => self.task = Task::Version,
            _ => self.set_form(switch),
        }
    }

    /// With one more switch that says what is beside a line.
    fn set_form(&mut self, switch: Switch)
        ensures { self.new ≡ with_form self.old switch }
    {
        match switch {
            Switch::Only => self.form.only = true,
            Switch::Nul => self.form.nul = true,
            Switch::Column => self.form.column = true,
            Switch::Each => {
                self.form.each = true;
                self.form.column = true;
            }
            Switch::Heading => self.form.heading = true,
            _ => {}
        }
    }
}

/// The mode with `-c`, which `-l` and `-L` override.
fn counted(mode: Mode) -> Mode
    ensures { result ≡ counted mode }
{
    match mode {
        Mode::Lines => Mode::Counts,
        _ => mode,
    }
}

impl Switches {
    /// How lines are printed.
    fn form_in(&self, colour: Option<bool>, place: Surroundings) -> LineForm
        ensures { result ≡ form_in self.now colour place }
    {
        LineForm {
            bare: !self.named.unwrap_or(place.several || self.form.each),
            heading: self.form.heading && !self.form.each,
            number: self.number.unwrap_or(self.form.column || place.terminal),
            column: self.form.column,
            only: self.form.only,
            each: self.form.each,
            nul: self.form.nul,
            colour: colour.unwrap_or(place.terminal),
            spaced: false,
        }
    }

    /// What is printed, and how.
    pub fn shown_in(
        &self,
        limits: &Limits,
        colour: Option<bool>,
        place: Surroundings,
    ) -> ShowOptions
        ensures { result ≡ shown_in self.now limits.now colour place }
    {
        ShowOptions {
            mode: self.mode,
            most: limits.most,
            before: limits.before.or(limits.around).unwrap_or(0),
            after: limits.after.or(limits.around).unwrap_or(0),
            invert: self.invert,
            form: self.form_in(colour, place),
        }
    }
}
