// Where a search looks.
ghost use Rattle.std.specs.Prelude.{◌≡◌, true};
ghost use Rattle.cs_tree.specs.Cover.{is_absolute};

use cs_listing::Choices;
use std::alloc::Global;

/// Where a search looks: the files and folders that the words name, or the current folder if there
/// are no words. A word is joined to the current folder, and cleaned as text, unless one of its
/// `..` follows a link. Then it leads where the system says, and the rule files are those of the
/// folders along the word as it is.
#[derive(Clone, Copy, Drop)]
pub struct Scope<'a> {
    pub(crate) alloc: Global,
    /// The current folder.
    pub(crate) folder: &'a str,
    /// Which files below a folder are searched.
    pub(crate) choices: &'a Choices,
    pub(crate) words: &'a [&'a str],
    ghost absolute: { is_absolute folder.now ≡ true },
}

impl<'a> Scope<'a> {
    /// What these words name, or the folder if there are none.
    pub fn new(
        alloc: Global,
        folder: &'a str,
        choices: &'a Choices,
        words: &'a [&'a str],
    ) -> Scope<'a>
        requires { is_absolute folder.now ≡ true }
        ensures folder { result.folder.now ≡ folder.now }
        ensures choices { result.choices.now ≡ choices.now }
        ensures words { result.words.now ≡ words.now }
    {
        Scope {
            alloc,
            folder,
            choices,
            words,
        }
    }
}
