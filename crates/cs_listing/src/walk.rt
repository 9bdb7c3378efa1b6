// The walk of a project: its files one after another, in the order of their paths. A stack has the
// open folders; each is listed once, when the walk comes to it, and its entries are sorted by their
// names, with a slash after those of folders, so that a depth-first walk goes in the order of whole
// paths.
ghost use Rattle.std.specs.Prelude.{◌≡◌, ◌<◌, ◌∷◌, ◌++◌, [], map, length, string_bytes, IfOk, OnOk};
ghost use Rattle.cs_listing.specs.Choices.{within_depth};
ghost use Rattle.cs_listing.specs.Models.{chosen_in, folders_in, all_names};
ghost use Rattle.cs_listing.specs.FolderReads.{InTree};
ghost use Rattle.cs_listing.specs.Walk.{settings_in, IsWalkIn, Gives, Begins, StepGives, ComesNearer, StepComesNearer, HasReportedNone, ReportsOnce, StepReportsOnce, TakesUnread, IsVisit, Visits, OpensAtMostOne, Enters, Opens};
ghost use Rattle.cs_listing.specs.ReportsAll.{BeginsToReport, ReportsAll, StepReportsAll, VisitsNoting, EntersNoting, OpensNoting};
ghost use Rattle.cs_listing.specs.Stamps.{InStamps, AreStamped, KeepsStamped, GivesStamped, StepGivesStamped};

use crate::choices::Choices;
use crate::entries::{Entry, FolderNames, FolderReader, Place, child_path};
use crate::fault::{ListFault, Unread};
use crate::layers::Layers;
use cs_tree::{LONGEST_PATH, Look, Stamp};
use std::alloc::{AllocError, Global};
use std::collections::BTreeSet;

/// A file of the project.
#[derive(Drop)]
pub struct File {
    /// The path, from `/` on.
    pub path: String,
    pub stamp: Option<Stamp>,
}

/// What a walk comes to.
#[derive(Drop)]
pub enum Found {
    File(File),
    /// What could not be read. The walk goes on.
    Unread(Unread),
}

/// What one step of a walk comes to.
#[derive(Drop)]
enum Step {
    /// Something to tell, or the end.
    Done(Option<Found>),
    /// A folder was entered or left.
    More,
}

/// A folder whose entries are still to come.
#[derive(Drop)]
struct Frame {
    /// The text before the slash in the paths of its entries, which is empty for `/`.
    stem: String,
    /// The entries, the next one last.
    entries: Vec<Entry>,
}

/// A walk of the files of a project below a folder.
#[derive(Drop)]
pub struct Walk<'a> {
    alloc: Global,
    /// The rule files of the folders from `/` down to the deepest open one.
    layers: Layers<'a>,
    /// The open folders, the deepest last.
    frames: Vec<Frame>,
    reader: FolderReader,
    /// The paths that were given as ones that could not be read.
    reported: BTreeSet<String>,
}

impl<'a> Walk<'a> {
    /// The walk below the folder that these names lead to from `/`, by the choices of the user and
    /// the rules of all folders along it.
    pub fn begin<T: Look>(
        alloc: Global,
        tree: &mut T,
        choices: &'a Choices,
        start: &[String],
    ) -> Result<Walk<'a>, AllocError>
        ensures begins { IfOk result (λ walk. InTree (T.snapshot tree.old)
            (λ items. Begins items (map string_bytes start.now) walk)) }
        ensures settings { IfOk result (λ walk. settings_in walk
            ≡ within_depth (chosen_in choices.now) (length start.now)) }
        ensures reported { IfOk result (λ walk. HasReportedNone walk) }
        ensures unread { IfOk result (λ walk. InTree (T.snapshot tree.old)
            (λ items. BeginsToReport items (map string_bytes start.now) walk)) }
        ensures stamps { IfOk result (λ walk. InStamps (T.snapshot tree.old) T.stamps
            (λ stamps. AreStamped stamps walk)) }
        ensures keeps { T.snapshot tree.new ≡ T.snapshot tree.old }
    {
        let mut walk = Walk {
            alloc,
            layers: Layers::new(alloc, choices, start.len().saturating_add(choices.depth)),
            frames: Vec::new(alloc),
            reader: FolderReader::new(alloc),
            reported: BTreeSet::new(alloc),
        };
        let mut stem = String::new(alloc);
        let mut listed = walk.enter(tree, "", stem.as_str())?;
        'start: for name in start {
            stem = child_path(alloc, stem.as_str(), name.as_str())?;
            listed = walk.enter(tree, name.as_str(), stem.as_str())?;
        }
        walk.open(tree, stem, &listed)?;
        Ok(walk)
    }

    /// The next file, or the next path that could not be read, each once. None at the end, to which
    /// each other answer comes nearer.
    pub fn next<T: Look>(&mut self, tree: &mut T) -> Result<Option<Found>, AllocError>
        ensures gives { IfOk result (λ found. InTree (T.snapshot tree.old)
            (λ items. IsWalkIn items self.old → Gives items self.old self.new found)) }
        ensures nearer { IfOk result (λ found. ComesNearer self.old self.new found) }
        ensures once { IfOk result (λ found. ReportsOnce self.old self.new found) }
        ensures settings { OnOk result (settings_in self.new ≡ settings_in self.old) }
        ensures all { IfOk result (λ found. InTree (T.snapshot tree.old)
            (λ items. IsWalkIn items self.old → ReportsAll items self.old self.new found)) }
        ensures stamps { IfOk result (λ found. InStamps (T.snapshot tree.old) T.stamps
            (λ stamps. GivesStamped stamps self.old self.new found)) }
        ensures keeps { T.snapshot tree.new ≡ T.snapshot tree.old }
    {
        'steps: loop {
            if let Step::Done(found) = self.step(tree)? {
                return Ok(found);
            }
        }
    }

    /// One step: an answer is found, or a folder is entered or left.
    fn step<T: Look>(&mut self, tree: &mut T) -> Result<Step, AllocError>
        ensures steps { IfOk result (λ step. InTree (T.snapshot tree.old)
            (λ items. IsWalkIn items self.old → StepGives items self.old self.new step)) }
        ensures settings { OnOk result (settings_in self.new ≡ settings_in self.old) }
        ensures nearer { IfOk result (λ step. StepComesNearer self.old self.new step) }
        ensures once { IfOk result (λ step. StepReportsOnce self.old self.new step) }
        ensures all { IfOk result (λ step. InTree (T.snapshot tree.old)
            (λ items. IsWalkIn items self.old → StepReportsAll items self.old self.new step)) }
        ensures stamps { IfOk result (λ step. InStamps (T.snapshot tree.old) T.stamps
            (λ stamps. StepGivesStamped stamps self.old self.new step)) }
        ensures keeps { T.snapshot tree.new ≡ T.snapshot tree.old }
    {
        let next = next_unread(self.alloc, &mut self.reader.unread, &mut self.reported)?;
        if let Some(unread) = next {
            return Ok(Step::Done(Some(Found::Unread(unread))));
        }
        let Some(mut frame) = self.frames.pop() else {
            return Ok(Step::Done(None));
        };
        let Some(entry) = frame.entries.pop() else {
            self.layers.leave();
            return Ok(Step::More);
        };
        let name = entry.name();
        let path = child_path(self.alloc, frame.stem.as_str(), name)?;
        self.frames.push(frame)?;
        if name.len() == entry.key.len() {
            let stamp = entry.stamp;
            return Ok(Step::Done(Some(Found::File(File { path, stamp }))));
        }
        self.visit(tree, name, path)?;
        Ok(Step::More)
    }

    /// Visits a folder of the deepest one. One that is deeper than a path is long is not entered.
    fn visit<T: Look>(&mut self, tree: &mut T, name: &str, path: String) -> Result<(), AllocError>
        ensures visits { OnOk result (InTree (T.snapshot tree.old)
            (λ items. IsVisit items name.now path self.old → Visits items name.now self.old self.new)) }
        ensures settings { OnOk result (settings_in self.new ≡ settings_in self.old) }
        ensures frames { OnOk result (OpensAtMostOne self.old self.new) }
        ensures reported { self.new.reported ≡ self.old.reported }
        ensures unread { OnOk result (InTree (T.snapshot tree.old)
            (λ items. IsVisit items name.now path self.old → VisitsNoting items name.now self.old self.new)) }
        ensures stamps { OnOk result (InStamps (T.snapshot tree.old) T.stamps
            (λ stamps. KeepsStamped stamps self.old self.new)) }
        ensures keeps { T.snapshot tree.new ≡ T.snapshot tree.old }
    {
        if self.frames.len() > LONGEST_PATH {
            return self.reader.note(path.as_str(), ListFault::LongPath);
        }
        let listed = self.enter(tree, name, path.as_str())?;
        self.open(tree, path, &listed)
    }

    /// Enters a folder of the deepest one, and returns what it lists.
    fn enter<T: Look>(
        &mut self,
        tree: &mut T,
        name: &str,
        stem: &str,
    ) -> Result<FolderNames, AllocError>
        ensures enters { IfOk result (λ listed. InTree (T.snapshot tree.old)
            (λ items. Enters items stem.now (map string_bytes listed.names.items) self.old self.new)) }
        ensures names { OnOk result (all_names self.new.layers ≡ all_names self.old.layers ++ name.now ∷ []) }
        ensures frames { self.new.frames ≡ self.old.frames }
        ensures reported { self.new.reported ≡ self.old.reported }
        ensures settings { OnOk result (settings_in self.new ≡ settings_in self.old) }
        ensures unread { IfOk result (λ listed. EntersNoting (T.snapshot tree.old) stem.now
            listed self.old self.new) }
        ensures keeps { T.snapshot tree.new ≡ T.snapshot tree.old }
    {
        let listed = self.reader.list(tree, stem)?;
        let name = String::from_str(self.alloc, name)?;
        let room = self.layers.room();
        let folder = self.reader.folder(tree, stem, &listed, name, room)?;
        self.layers.enter(folder)?;
        Ok(listed)
    }

    /// Makes the entries of the deepest folder the next ones to come.
    fn open<T: Look>(
        &mut self,
        tree: &mut T,
        stem: String,
        listed: &FolderNames,
    ) -> Result<(), AllocError>
        requires { 0 < length (folders_in self.old.layers) }
        ensures opens { OnOk result (Opens (T.snapshot tree.old) stem
            (map string_bytes listed.now.names.items)
            self.old self.new) }
        ensures layers { self.new.layers ≡ self.old.layers }
        ensures reported { self.new.reported ≡ self.old.reported }
        ensures unread { OnOk result (OpensNoting (T.snapshot tree.old) (string_bytes stem)
            (map string_bytes listed.now.names.items) listed.now self.old self.new) }
        ensures stamps { OnOk result (InStamps (T.snapshot tree.old) T.stamps
            (λ stamps. KeepsStamped stamps self.old self.new)) }
        ensures keeps { T.snapshot tree.new ≡ T.snapshot tree.old }
    {
        let text = stem.as_str();
        self.reader.note_listed(text, listed)?;
        let place = Place {
            layers: &self.layers,
            stem: text,
        };
        let entries = self.reader.entries(tree, &place, &listed.names)?;
        self.frames.push(Frame { stem, entries })?;
        Ok(())
    }
}

/// Takes the next of these that was not reported before.
fn next_unread(
    alloc: Global,
    unread: &mut Vec<Unread>,
    reported: &mut BTreeSet<String>,
) -> Result<Option<Unread>, AllocError>
    ensures { IfOk result (λ next. TakesUnread
        unread.old.items unread.new.items reported.old reported.new next) }
{
    'unread: while let Some(next) = unread.pop() {
        let path = String::from_str(alloc, next.path.as_str())?;
        if reported.insert(path)? {
            return Ok(Some(next));
        }
    }
    Ok(None)
}
