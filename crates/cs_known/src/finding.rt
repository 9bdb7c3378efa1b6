// The names of an open state, one after another, and what is known of a file.
ghost use Rattle.std.specs.Prelude.{◌≡◌, ℕ, List, Some, true, IfOk, IfSome, OnOk, slice_get, take};
ghost use Rattle.cs_trigram.specs.Trigram.{Ascends, has};
ghost use Rattle.cs_trigram.specs.declared.queries.Query.{Query};
ghost use Rattle.cs_index.specs.Candidates.{candidates_of};
ghost use Rattle.cs_index.specs.NameReading.{ReadsNames};
ghost use Rattle.cs_index.specs.OpenedParts.{Parts};
ghost use Rattle.cs_lines.specs.declared.binary.BinaryFiles.{BinaryFiles};
ghost use Rattle.cs_lines.specs.declared.form.ShowOptions.{ShowOptions};
ghost use Rattle.cs_state.specs.Cited.{HasIndex, IsState, kept_of};
ghost use Rattle.cs_state.specs.declared.state_key.StateKey.{StateKey};
ghost use Rattle.cs_known.specs.KnownFiles.{AreBelow, AreOptions, IsFound, IsMatchOf, IsReached};
ghost use Rattle.cs_known.specs.KnownFiles.{KeepsParts, KeepsRest, ReadsParts};
ghost use Rattle.cs_known.specs.Skipped.{prints_nothing};

use crate::name_match::match_of;
use crate::types::{FileLookup, KnownFiles, NameMatch, SkipOptions};
use cs_state::laws::opened_states_have_their_index;
use cs_state::{FileKind, StateFile, SummedBytes};
use cs_tree::{IoFault, Stamp, Store};
use cs_trigram::Query;
use std::alloc::{AllocError, Global};

impl<S: Store + Drop> KnownFiles<SummedBytes<S>> {
    /// The files that an open state knows. None if a posting list that the query requires is
    /// damaged, or if a read of one fails.
    pub fn open(
        alloc: Global,
        options: SkipOptions,
        query: &Query,
        state: StateFile<S>,
    ) -> Result<Option<KnownFiles<SummedBytes<S>>>, AllocError>
        ensures reads { (key : StateKey) (bytes : List ℕ) (parts : Parts) →
            HasIndex bytes (⟦<SummedBytes<S> as Store>⟧.model state.bytes) state.index →
            IsState key bytes parts → IfOk result (λ found. IfSome found
            (ReadsParts ⟦<SummedBytes<S> as Store>⟧.model query.now parts)) }
        ensures options { IfOk result (λ found. IfSome found (λ files. files.options ≡ options)) }
    {
        opened_states_have_their_index();
        let StateFile { index, mut bytes } = state;
        let candidates = match index.candidates(alloc, &mut bytes, query) {
            Ok(Ok(candidates)) => candidates,
            Err(IoFault::Memory) => return Err(AllocError),
            _ => return Ok(None),
        };
        Ok(Some(KnownFiles {
            alloc,
            options,
            bytes,
            names: index.name_reader(alloc),
            id: 0,
            count: index.name_count(),
            candidates,
        }))
    }
}

impl<S: Store> KnownFiles<S> {
    /// The number of files that are known.
    pub fn file_count(&self) -> u32 {
        self.count
    }

    /// What is known of the file with a name, by its stamp.
    pub fn find(&mut self, name: &str, stamp: &Stamp) -> Result<FileLookup, AllocError>
        ensures found { (options : ShowOptions) (binaries : BinaryFiles) (query : Query) (parts : Parts) →
            AreOptions options binaries self.old.options → ReadsParts S.model query parts self.old →
            IfOk result (IsFound options binaries query parts name.now stamp.now) }
        ensures reads { KeepsParts S.model self.old self.new }
        ensures options { self.new.options ≡ self.old.options }
    {
        match self.find_kind(name, stamp) {
            Ok(Some(kind)) => Ok(self.look_up(kind)),
            Ok(None) => Ok(FileLookup::Unknown),
            Err(IoFault::Memory) => Err(AllocError),
            Err(IoFault::Failed) => Ok(FileLookup::Unknown),
        }
    }

    /// What the file with a path and stamp is. None if no such file is known. After an error no
    /// file is.
    fn find_kind(&mut self, path: &str, stamp: &Stamp) -> Result<Option<FileKind>, IoFault>
        ensures found { (query : Query) (parts : Parts) → ReadsParts S.model query parts self.old →
            IfOk result (λ found. IfSome found (IsReached parts self.new.id path.now stamp.now)) }
        ensures reads { KeepsParts S.model self.old self.new }
        ensures options { self.new.options ≡ self.old.options }
    {
        let answer = self.reach(path, stamp);
        if answer.is_err() {
            self.count = 0;
        }
        answer
    }

    /// Passes the names before the first that is not less than the path. Returns what the file is,
    /// if that is its stamped name. After an error nothing is known of the names.
    fn reach(&mut self, path: &str, stamp: &Stamp) -> Result<Option<FileKind>, IoFault>
        ensures found { (query : Query) (parts : Parts) → ReadsParts S.model query parts self.old →
            IfOk result (λ found. IfSome found (IsReached parts self.new.id path.now stamp.now)) }
        ensures reads { (query : Query) (parts : Parts) → ReadsParts S.model query parts self.old →
            OnOk result (ReadsParts S.model query parts self.new) }
        ensures rest { KeepsRest S.model self.old self.new }
    {
        'names: while self.id < self.count {
            match self.next_match(path, stamp)? {
                NameMatch::Before => self.id += 1,
                NameMatch::Found(kind) => return Ok(Some(kind)),
                NameMatch::Other => return Ok(None),
            }
        }
        Ok(None)
    }

    /// How the first name that is not passed compares with a path and stamp.
    fn next_match(&mut self, path: &str, stamp: &Stamp) -> Result<NameMatch, IoFault>
        ensures matches { (index name : List ℕ) (parts : Parts) → S.model self.old.bytes ≡ Some index →
            ReadsNames index parts self.old.names → slice_get parts.names self.old.id ≡ Some name →
            IfOk result (IsMatchOf name path.now stamp.now) }
        ensures reads { (index : List ℕ) (parts : Parts) → S.model self.old.bytes ≡ Some index →
            ReadsNames index parts self.old.names → OnOk result (ReadsNames index parts self.new.names) }
        ensures rest { KeepsRest S.model self.old self.new × (self.new.id ≡ self.old.id)
            × (self.new.count ≡ self.old.count) }
    {
        let read = self.names.read(self.alloc, &mut self.bytes, self.id)?;
        if read.is_err() {
            return Err(IoFault::Failed);
        }
        match self.names.name() {
            Ok(name) => Ok(match_of(name, path, stamp)),
            Err(_) => Err(IoFault::Failed),
        }
    }

    /// The lookup of the file whose name was reached.
    fn look_up(&self, kind: FileKind) -> FileLookup
        ensures { (options : ShowOptions) (binaries : BinaryFiles) (query : Query) (parts : Parts)
            (path : List ℕ) (stamp : Stamp) → AreOptions options binaries self.now.options →
            ReadsParts S.model query parts self.now → IsReached parts self.now.id path stamp kind →
            IsFound options binaries query parts path stamp result }
    {
        if self.prints_nothing(kind) {
            return FileLookup::Skipped;
        }
        FileLookup::Known
    }

    /// Whether nothing is printed of the file whose name was reached.
    fn prints_nothing(&self, kind: FileKind) -> bool
        ensures { (options : ShowOptions) (binaries : BinaryFiles) (query : Query) (parts : Parts)
            (name : List ℕ) → AreOptions options binaries self.now.options →
            self.now.candidates.items ≡ candidates_of parts query →
            slice_get parts.names self.now.id ≡ Some name →
            AreBelow name (take self.now.id parts.names) →
            result ≡ prints_nothing options binaries query parts name (kept_of kind) }
    {
        match kind {
            FileKind::Text => !self.options.prints_unmatched && !self.is_candidate(),
            FileKind::Binary => self.options.leaves_out_binary,
            FileKind::Apart => false,
        }
    }

    /// Whether the name that was reached is a candidate.
    fn is_candidate(&self) -> bool
        ensures { Ascends self.now.candidates.items → result ≡ has self.now.candidates.items self.now.id }
    {
        self.candidates.binary_search(&self.id).is_ok()
    }
}
