// What a state knows of a project, as the knowledge of a search.
ghost use Rattle.std.specs.Prelude.{◌≡◌, ◌<◌, ◌++◌, [], Some, IfOk, string_bytes};
ghost use Rattle.std.specs.List.{All};
ghost use Rattle.cs_project.specs.Knowledge.{SkipsNothingShown};
ghost use Rattle.cs_project.specs.Noted.{NotesStamp};
ghost use Rattle.cs_learned.specs.KnownProjects.{IsFoundIn, IsKnownFor, KeepsFiles};
ghost use Rattle.cs_learned.specs.Learnable.{IsToLearn};

use cs_known::laws::a_skipped_path_prints_nothing;
use cs_known::{FileLookup, KnownFiles, SeenFile};
use cs_state::takes_name;
use cs_tree::{Stamp, Store, is_absolute};
use std::alloc::{AllocError, Global};

/// The files that an open state knows, for a search that skips those that print nothing, and notes
/// those that are unknown.
#[derive(Drop)]
pub(crate) struct KnownProject<S> {
    pub(crate) alloc: Global,
    /// The folder of the project, whose path precedes each name. It is empty for `/`.
    pub(crate) root: String,
    /// None if there is no state.
    pub(crate) files: Option<KnownFiles<S>>,
    /// The files below the folder that have a stamp, can be learned and are not known.
    pub(crate) unknown: Vec<SeenFile>,
    ghost learnable: { All IsToLearn unknown.items },
}

impl<S> KnownProject<S> {
    ghost use Rattle.cs_learned.specs.NotedFiles.{noted_in};

    /// Nothing is noted yet.
    pub(crate) fn new(alloc: Global, root: String, files: Option<KnownFiles<S>>) -> KnownProject<S>
        ensures root { result.root ≡ root }
        ensures files { result.files ≡ files }
        ensures noted { result.unknown.items ≡ [] }
    {
        KnownProject {
            alloc,
            root,
            files,
            unknown: Vec::new(alloc),
        }
    }

    /// Notes a file, unless its name cannot be learned, or does not ascend, as below a folder that
    /// is searched twice.
    fn note(&mut self, name: &str, stamp: Stamp) -> Result<(), AllocError>
        requires size { 0 < stamp.size }
        ensures files { self.new.files ≡ self.old.files }
        ensures root { self.new.root ≡ self.old.root }
        ensures notes { NotesStamp (string_bytes self.old.root ++ name.now) (Some stamp)
            (noted_in self.old) (noted_in self.new) }
    {
        if !takes_name(name) {
            return Ok(());
        }
        if let Some(last) = self.unknown.last() {
            if last.name.as_str() >= name {
                return Ok(());
            }
        }
        let name = String::from_str(self.alloc, name)?;
        self.unknown.push(SeenFile { name, stamp })?;
        Ok(())
    }
}

impl<S: Store> KnownProject<S> {
    /// What is known of the file with a name, by its stamp.
    fn find(&mut self, name: &str, stamp: &Stamp) -> Result<FileLookup, AllocError>
        ensures found { IfOk result (IsFoundIn S.model self.old.files name.now stamp.now) }
        ensures keeps { KeepsFiles S.model self.old.files self.new.files }
        ensures root { self.new.root ≡ self.old.root }
        ensures noted { self.new.unknown ≡ self.old.unknown }
    {
        match &mut self.files {
            Some(files) => files.find(name, stamp),
            None => Ok(FileLookup::Unknown),
        }
    }
}

impl<S: Store> KnownProject<S> {
    ghost use Rattle.cs_learned.specs.NotedFiles.{noted_in};

    /// Whether the file at a path is skipped, since nothing is printed for it. One that is unknown
    /// is noted, if it can be learned.
    pub(crate) fn skips(&mut self, path: &str, stamp: Option<Stamp>) -> Result<bool, AllocError>
        ensures skips { IfOk result (SkipsNothingShown
            (IsKnownFor S.model (string_bytes self.old.root) self.old.files) path.now stamp) }
        ensures keeps { KeepsFiles S.model self.old.files self.new.files }
        ensures root { self.new.root ≡ self.old.root }
        ensures notes { NotesStamp path.now stamp (noted_in self.old) (noted_in self.new) }
    {
        a_skipped_path_prints_nothing();
        let Some(stamp) = stamp else {
            return Ok(false);
        };
        let Some(name) = path.strip_prefix(self.root.as_str()) else {
            return Ok(false);
        };
        // A folder beside the project may have a longer name, whose rest passes all names of the
        // state, and files of /proc say that they are empty.
        if !is_absolute(name) || stamp.size == 0 {
            return Ok(false);
        }
        match self.find(name, &stamp)? {
            FileLookup::Skipped => Ok(true),
            FileLookup::Known => Ok(false),
            FileLookup::Unknown => {
                self.note(name, stamp)?;
                Ok(false)
            }
        }
    }
}
