// A call of `cs`.
ghost use Rattle.std.specs.Prelude.{◌≡◌, true};
ghost use Rattle.cs_tree.specs.Cover.{is_absolute};

use cs_listing::UserFiles;
use std::alloc::Global;

/// A call of `cs`, and what it finds around it.
#[derive(Clone, Copy, Drop)]
pub struct ProjectCall<'a> {
    pub alloc: Global,
    /// The arguments after the name of the tool.
    pub words: &'a [String],
    /// The current folder.
    pub folder: &'a str,
    pub user: Option<UserFiles<'a>>,
    /// Standard output is a terminal.
    pub terminal: bool,
    /// Standard input is a pipe, and there is a terminal to say that it is not searched.
    pub piped: bool,
    ghost absolute: { is_absolute folder.now ≡ true },
}
