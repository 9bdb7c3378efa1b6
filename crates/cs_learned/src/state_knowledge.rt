// The state file of a project as the knowledge of a search.
ghost use Rattle.std.specs.Prelude.{◌≡◌, if◌then◌else◌, ℕ, List, [], false, IfOk, IfSome, string_bytes};
ghost use Rattle.std.specs.List.{All};
ghost use Rattle.cs_project.specs.Knowledge.{HoldsAsBefore, SearchedTree};
ghost use Rattle.cs_project.specs.Noted.{NotesNothing};
ghost use Rattle.cs_project.specs.Searched.{binary_as};
ghost use Rattle.cs_learned.specs.ClosedStates.{AsksFor, IsPreparedFor, IsStillKnown, IsUnread};
ghost use Rattle.cs_learned.specs.KnownProjects.{AreKnownFor};
ghost use Rattle.cs_learned.specs.Learnable.{IsToLearn};
ghost use Rattle.cs_learned.specs.NotedFiles.{AreSeenBelow, noted_in};
ghost use Rattle.cs_learned.specs.Thresholds.{files_before as files_before', learns_now, length_of as length_of'};

use crate::closed_state::{ClosedState, PreparedState};
use crate::known_project::KnownProject;
use cs_known::{KnownFiles, SeenFile, SkipOptions};
use cs_lines::BinaryFiles;
use cs_project::{AskedSearch, Knowledge};
use cs_state::{StateFile, SummedBytes};
use cs_tree::{IoFault, Stamp, Store};
use cs_trigram::{Query, query};
use std::alloc::{AllocError, Global};

/// The number of files from which on a search learns.
const MANY: usize = 500;

/// A state of fewer bytes is opened in less than 1 ms.
const SHORT: usize = 2_000_000;

/// The number of files from which on a short state is opened.
const FEW: usize = 100;

/// The least number of files from which on another one is opened, in 2 ms and more.
const SOME: usize = 600;

/// In the time in which so many bytes of a state are opened a file is read.
const FILE_BYTES: usize = 100_000;

/// The state file of a project as the knowledge of a search. The file is opened when the search has
/// come to as many files as are read in the time that this takes.
#[derive(Drop)]
pub struct StateKnowledge<S: Store> {
    alloc: Global,
    /// The file before a search is asked for.
    closed: Option<ClosedState<S>>,
    /// The file of a search that has come to few files.
    prepared: Option<PreparedState<S>>,
    known: KnownProject<SummedBytes<S>>,
    /// The number of files from which on the file is opened.
    few: usize,
    /// How many files the search has come to.
    met: usize,
    /// Whether what is unknown is to be learned.
    learns: bool,
    /// Whether it is, however little it is.
    is_update: bool,
    /// Whether the search meets all files of the project.
    is_whole: bool,
}

impl<S: Store + Drop> StateKnowledge<S> {
    /// The state of the project of a folder, if there is one.
    pub fn new(alloc: Global, root: String, closed: Option<ClosedState<S>>) -> StateKnowledge<S>
        ensures root { result.known.root ≡ root }
        ensures closed { result.closed ≡ closed }
        ensures noted { ⟦<StateKnowledge<S> as Knowledge>⟧.noted result ≡ [] }
        ensures few { result.few ≡ files_before' (length_of' S.size closed) }
    {
        StateKnowledge {
            alloc,
            few: files_before(length_of(&closed)),
            closed,
            prepared: None,
            known: KnownProject::new(alloc, root, None),
            met: 0,
            learns: false,
            is_update: false,
            is_whole: false,
        }
    }

    /// How many files the search has come to.
    pub fn met(&self) -> usize {
        self.met
    }

    /// Whether the search was over a state that is no damaged file.
    pub fn is_open(&self) -> bool {
        self.known.files.is_some()
    }

    /// Whether the files that are unknown are to be learned even if they are few.
    pub fn is_update(&self) -> bool {
        self.is_update
    }

    /// Whether the state is to be made anew: of the files that it knows most are not in the
    /// project, or have another stamp by now. Only a search shows it that has met all files, and
    /// has ended by itself.
    pub fn is_outdated(&self, is_ended: bool) -> bool {
        let files = match &self.known.files {
            Some(files) => files.file_count() as usize,
            None => 0,
        };
        let found = self.met.saturating_sub(self.known.unknown.len());
        let is_shown = is_ended && self.is_whole;
        self.learns && is_shown && files > found.saturating_mul(2).saturating_add(1000)
    }

    /// The folder of the project.
    pub fn root(&self) -> &str
        ensures { result.now ≡ string_bytes self.now.known.root }
    {
        self.known.root.as_str()
    }

    /// The files that are to be learned, by ascending names: none before the state is read, which
    /// may know them.
    #[tactic(auto, using(crate::proofs::NotedLemmas::seen_below))]
    pub fn unknown(&self) -> &[SeenFile]
        ensures seen { AreSeenBelow (string_bytes self.now.known.root)
            (⟦<StateKnowledge<S> as Knowledge>⟧.noted self.now) result.now }
        ensures learnable { All IsToLearn result.now }
        ensures which { result.now ≡ (if learns_now self.now.is_update self.now.learns self.now.met
            self.now.prepared then self.now.known.unknown.items else []) }
    {
        let is_many = self.learns && self.met >= MANY && self.prepared.is_none();
        if self.is_update || is_many {
            &self.known.unknown
        } else {
            &[]
        }
    }

    /// Keeps what is asked for until the file is read.
    fn prepare(&mut self, options: SkipOptions, query: Query)
        ensures unread { (root : List ℕ) (tree : SearchedTree) → AsksFor options query tree →
            IsUnread S.model root self.old.closed self.old.prepared tree →
            IsUnread S.model root self.new.closed self.new.prepared tree }
        ensures known { self.new.known ≡ self.old.known }
    {
        if let Some(closed) = self.closed.take() {
            self.prepared = Some(PreparedState {
                closed,
                options,
                query,
            });
        }
    }

    /// Opens the file. What the search has met before is read, so it need not be known.
    fn open(&mut self) -> Result<(), AllocError>
        ensures holds { HoldsAsBefore (⟦<StateKnowledge<S> as Knowledge>⟧.Holds self.old)
            (⟦<StateKnowledge<S> as Knowledge>⟧.Holds self.new) }
        ensures notes { NotesNothing (⟦<StateKnowledge<S> as Knowledge>⟧.noted self.old)
            (⟦<StateKnowledge<S> as Knowledge>⟧.noted self.new) }
    {
        let Some(prepared) = self.prepared.take() else {
            return Ok(());
        };
        self.known.files = open_files(self.alloc, prepared)?;
        if self.is_open() {
            self.known.unknown = Vec::new(self.alloc);
        }
        Ok(())
    }

    /// Counts a file. The last of a few files opens the state.
    fn meet(&mut self) -> Result<(), AllocError>
        ensures holds { HoldsAsBefore (⟦<StateKnowledge<S> as Knowledge>⟧.Holds self.old)
            (⟦<StateKnowledge<S> as Knowledge>⟧.Holds self.new) }
        ensures notes { NotesNothing (⟦<StateKnowledge<S> as Knowledge>⟧.noted self.old)
            (⟦<StateKnowledge<S> as Knowledge>⟧.noted self.new) }
    {
        self.met = self.met.saturating_add(1);
        if self.met == self.few {
            return self.open();
        }
        Ok(())
    }
}

/// The length of a state; 0 if there is none.
fn length_of<S: Store>(closed: &Option<ClosedState<S>>) -> usize
    ensures { result ≡ length_of' S.size closed.now }
{
    match closed {
        Some(state) => state.file.len(),
        None => 0,
    }
}

/// The number of files from which on a state of this length is opened: without it, fewer are read
/// sooner.
fn files_before(len: usize) -> usize
    ensures { result ≡ files_before' len }
{
    if len < SHORT {
        FEW
    } else {
        SOME.max(len / FILE_BYTES)
    }
}

/// What binary files that a walk meets are searched as.
fn met_binaries(binary: bool) -> BinaryFiles
    ensures { result ≡ binary_as binary false }
{
    if binary {
        BinaryFiles::Text
    } else {
        BinaryFiles::WithoutMatch
    }
}

/// The files that a state file knows. None if it is damaged.
fn open_files<S: Store + Drop>(
    alloc: Global,
    prepared: PreparedState<S>,
) -> Result<Option<KnownFiles<SummedBytes<S>>>, AllocError>
    ensures { (root : List ℕ) (tree : SearchedTree) → IsPreparedFor S.model root tree prepared → IfOk result
        (λ found. IfSome found (AreKnownFor ⟦<SummedBytes<S> as Store>⟧.model root tree)) }
{
    let PreparedState {
        closed,
        options,
        query,
    } = prepared;
    match StateFile::open(alloc, closed.file, closed.key) {
        Ok(Some(state)) => KnownFiles::open(alloc, options, &query, state),
        Err(IoFault::Memory) => Err(AllocError),
        _ => Ok(None),
    }
}

impl<S: Store + Drop> Knowledge for StateKnowledge<S> {
    ghost Holds = { λ k tree. IsStillKnown S.model ⟦<SummedBytes<S> as Store>⟧.model
        (string_bytes k.known.root) k.closed k.prepared k.known.files tree };

    ghost noted = { λ k. noted_in k.known };

    fn begin(&mut self, asked: &AskedSearch<'_>) -> Result<(), AllocError> {
        self.learns = asked.updates;
        self.is_whole = asked.whole;
        let query = query(self.alloc, asked.pattern)?;
        self.prepare(
            SkipOptions::new(&asked.options, met_binaries(asked.binary)),
            query,
        );
        Ok(())
    }

    /// Each file that the state knows is skipped, so no posting list is read.
    fn begin_update(&mut self, whole: bool) -> Result<(), AllocError> {
        self.learns = true;
        self.is_update = true;
        self.is_whole = whole;
        let options = SkipOptions {
            prints_unmatched: false,
            leaves_out_binary: true,
        };
        self.prepare(options, Query::Nothing);
        self.open()
    }

    fn skips(&mut self, path: &str, stamp: Option<Stamp>) -> Result<bool, AllocError> {
        self.meet()?;
        self.known.skips(path, stamp)
    }
}
