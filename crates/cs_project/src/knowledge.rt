// What is known of files without reading them.
ghost use Rattle.std.specs.Prelude.{[], List, IfOk, OnOk};
ghost use Rattle.cs_project.specs.Knowledge.{HoldsAsBefore, HoldsIfAsked, SearchedTree, SkipsNothingShown};
ghost use Rattle.cs_project.specs.Noted.{NotedFile, NotesNothing, NotesStamp};

use cs_lines::ShowOptions;
use cs_syntax::Pattern;
use cs_tree::Stamp;
use std::alloc::AllocError;

/// A search that knowledge is asked for.
#[derive(Clone, Copy, Drop)]
pub struct AskedSearch<'a> {
    pub options: ShowOptions,
    /// Binary files are searched as text (`-a`).
    pub binary: bool,
    pub pattern: &'a Pattern,
    /// What is learned of the files may be kept.
    pub updates: bool,
    /// All files below the current folder are searched: with `-q` a search may end before the last.
    pub whole: bool,
}

/// What is known of the files of a project without reading them.
pub trait Knowledge {
    /// What the knowledge holds for: a search of a tree.
    ghost Holds: { Self → SearchedTree → Type 0 };

    /// The files that are noted, since they are not known, each with the stamp that was seen.
    ghost noted: { Self → List NotedFile };

    /// Prepares for a search.
    fn begin(&mut self, asked: &AskedSearch<'_>) -> Result<(), AllocError>
        ensures begun { OnOk result (HoldsIfAsked asked.now (Holds self.old) (Holds self.new)) }
        ensures notes { NotesNothing (noted self.old) (noted self.new) };

    /// Prepares for a walk that searches nothing, so that the files that are not known are learned.
    /// `whole` says whether it gives all files below the current folder.
    fn begin_update(&mut self, whole: bool) -> Result<(), AllocError>
        ensures notes { NotesNothing (noted self.old) (noted self.new) };

    /// Whether the file at a path is skipped, since nothing is printed for it. Its stamp is the one
    /// that it has now.
    fn skips(&mut self, path: &str, stamp: Option<Stamp>) -> Result<bool, AllocError>
        ensures skips { IfOk result (SkipsNothingShown (Holds self.old) path.now stamp) }
        ensures holds { HoldsAsBefore (Holds self.old) (Holds self.new) }
        ensures notes { NotesStamp path.now stamp (noted self.old) (noted self.new) };
}

/// Nothing is known, so no file is skipped.
#[derive(Clone, Copy, Drop)]
pub struct NoKnowledge;

impl Knowledge for NoKnowledge {
    ghost Holds = { λ _ _. Unit {0} };

    ghost noted = { λ _. [] };

    fn begin(&mut self, _asked: &AskedSearch<'_>) -> Result<(), AllocError> {
        Ok(())
    }

    fn begin_update(&mut self, _whole: bool) -> Result<(), AllocError> {
        Ok(())
    }

    fn skips(&mut self, _path: &str, _stamp: Option<Stamp>) -> Result<bool, AllocError> {
        Ok(false)
    }
}
