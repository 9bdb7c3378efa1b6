// The options of `cs`, by their letters and names.
ghost use Rattle.std.specs.Prelude.{◌≡◌};
ghost use Rattle.cs_command.specs.Named.{letter_option, name_option, search_name, line_name, form_name, file_name, about_name, left_out};

/// An option without a value.
#[derive(Clone, Copy, Drop)]
pub enum Switch {
    /// `-F`
    Literal,
    /// `-i`
    Fold,
    /// `-S`
    Smart,
    /// `-s`
    Exact,
    /// `-w`
    Words,
    /// `-x`
    Lines,
    /// `-v`
    Invert,
    /// `-c`
    Count,
    /// `-l`
    Names,
    /// `-L`
    Others,
    /// `-o`
    Only,
    /// `-q`
    Silent,
    /// `-a`
    Text,
    /// `-n`
    Number,
    /// `-N`
    NoNumber,
    /// `-H`
    WithName,
    /// `-h`
    Bare,
    /// `-0`
    Nul,
    /// `--column`
    Column,
    /// `--vimgrep`
    Each,
    /// `--heading`
    Heading,
    /// `--files`
    Files,
    /// `--type-list`
    TypeList,
    /// `-u`
    Unrestricted,
    /// `--hidden`
    Hidden,
    /// `--update`
    Update,
    /// `--no-update`
    NoUpdate,
    /// `--no-state`
    NoState,
    /// `--help`
    Help,
    /// `--version`
    Version,
}

/// An option with a value.
#[derive(Clone, Copy, Drop)]
pub enum Valued {
    /// `-e`
    Pattern,
    /// `-A`
    After,
    /// `-B`
    Before,
    /// `-C`
    Around,
    /// `-m`
    Most,
    /// `--color`
    Colour,
    /// `-g`
    Glob,
    /// `-t`
    FileType,
    /// `-T`
    NotType,
    /// `-d`
    Depth,
}

/// What a letter or a name stands for.
#[derive(Clone, Copy, Drop)]
pub enum Named {
    Switch(Switch),
    Valued(Valued),
    /// An option of rg that `cs` does not have.
    LeftOut,
    Unknown,
}

/// The option with this letter.
pub(crate) fn letter_option(letter: u8) -> Named
    ensures { result ≡ letter_option letter }
{
    match letter {
        b'e' => Named::Valued(Valued::Pattern),
        b'A' => Named::Valued(Valued::After),
        b'B' => Named::Valued(Valued::Before),
        b'C' => Named::Valued(Valued::Around),
        b'm' => Named::Valued(Valued::Most),
        b'g' => Named::Valued(Valued::Glob),
        b't' => Named::Valued(Valued::FileType),
        b'T' => Named::Valued(Valued::NotType),
        b'd' => Named::Valued(Valued::Depth),
        b'F' => Named::Switch(Switch::Literal),
        b'i' => Named::Switch(Switch::Fold),
        b'S' => Named::Switch(Switch::Smart),
        b's' => Named::Switch(Switch::Exact),
        b'w' => Named::Switch(Switch::Words),
        b'x' => Named::Switch(Switch::Lines),
        b'v' => Named::Switch(Switch::Invert),
        b'c' => Named::Switch(Switch::Count),
        b'l' => Named::Switch(Switch::Names),
        b'L' => Named::Switch(Switch::Others),
        b'o' => Named::Switch(Switch::Only),
        b'q' => Named::Switch(Switch::Silent),
        b'a' => Named::Switch(Switch::Text),
        b'n' => Named::Switch(Switch::Number),
        b'N' => Named::Switch(Switch::NoNumber),
        b'H' => Named::Switch(Switch::WithName),
        b'h' => Named::Switch(Switch::Bare),
        b'0' => Named::Switch(Switch::Nul),
        b'u' => Named::Switch(Switch::Unrestricted),
        b'r' | b'U' => Named::LeftOut,
        _ => Named::Unknown,
    }
}

/// The option with this name.
pub(crate) fn name_option(name: &str) -> Named
    ensures { result ≡ name_option name.now }
{
    search_name(name)
        .or(line_name(name))
        .or(form_name(name))
        .or(file_name(name))
        .or(about_name(name))
        .or(left_out(name))
        .unwrap_or(Named::Unknown)
}

/// Names of options that say what matches.
fn search_name(name: &str) -> Option<Named>
    ensures { result ≡ search_name name.now }
{
    match name {
        "regexp" => Some(Named::Valued(Valued::Pattern)),
        "fixed-strings" => Some(Named::Switch(Switch::Literal)),
        "ignore-case" => Some(Named::Switch(Switch::Fold)),
        "smart-case" => Some(Named::Switch(Switch::Smart)),
        "case-sensitive" => Some(Named::Switch(Switch::Exact)),
        "word-regexp" => Some(Named::Switch(Switch::Words)),
        "line-regexp" => Some(Named::Switch(Switch::Lines)),
        "invert-match" => Some(Named::Switch(Switch::Invert)),
        "text" => Some(Named::Switch(Switch::Text)),
        "max-count" => Some(Named::Valued(Valued::Most)),
        "silent" => Some(Named::Switch(Switch::Silent)),
        _ => None,
    }
}

/// Names of options that say what is printed of a text.
fn line_name(name: &str) -> Option<Named>
    ensures { result ≡ line_name name.now }
{
    match name {
        "count" => Some(Named::Switch(Switch::Count)),
        "files-with-matches" => Some(Named::Switch(Switch::Names)),
        "files-without-match" => Some(Named::Switch(Switch::Others)),
        "only-matching" => Some(Named::Switch(Switch::Only)),
        "after-context" => Some(Named::Valued(Valued::After)),
        "before-context" => Some(Named::Valued(Valued::Before)),
        "context" => Some(Named::Valued(Valued::Around)),
        "line-number" => Some(Named::Switch(Switch::Number)),
        "no-line-number" => Some(Named::Switch(Switch::NoNumber)),
        _ => None,
    }
}

/// Names of options that say what is beside a line.
fn form_name(name: &str) -> Option<Named>
    ensures { result ≡ form_name name.now }
{
    match name {
        "with-filename" => Some(Named::Switch(Switch::WithName)),
        "no-filename" => Some(Named::Switch(Switch::Bare)),
        "null" => Some(Named::Switch(Switch::Nul)),
        "column" => Some(Named::Switch(Switch::Column)),
        "vimgrep" => Some(Named::Switch(Switch::Each)),
        "heading" => Some(Named::Switch(Switch::Heading)),
        "color" => Some(Named::Valued(Valued::Colour)),
        _ => None,
    }
}

/// Names of options that say which files are searched, and of the state.
fn file_name(name: &str) -> Option<Named>
    ensures { result ≡ file_name name.now }
{
    match name {
        "files" => Some(Named::Switch(Switch::Files)),
        "glob" => Some(Named::Valued(Valued::Glob)),
        "type" => Some(Named::Valued(Valued::FileType)),
        "type-not" => Some(Named::Valued(Valued::NotType)),
        "type-list" => Some(Named::Switch(Switch::TypeList)),
        "unrestricted" => Some(Named::Switch(Switch::Unrestricted)),
        "hidden" => Some(Named::Switch(Switch::Hidden)),
        "max-depth" => Some(Named::Valued(Valued::Depth)),
        "update" => Some(Named::Switch(Switch::Update)),
        "no-update" => Some(Named::Switch(Switch::NoUpdate)),
        "no-state" => Some(Named::Switch(Switch::NoState)),
        _ => None,
    }
}

/// Names of options that ask about the program.
fn about_name(name: &str) -> Option<Named>
    ensures { result ≡ about_name name.now }
{
    match name {
        "help" => Some(Named::Switch(Switch::Help)),
        "version" => Some(Named::Switch(Switch::Version)),
        _ => None,
    }
}

/// Names of options that `cs` does not have.
fn left_out(name: &str) -> Option<Named>
    ensures { result ≡ left_out name.now }
{
    match name {
        "replace" | "sort" | "sortr" | "stats" | "multiline" | "json" => { Some(Named::LeftOut) }
        _ => None,
    }
}
