// The names of an index in a store that a search selects: those of its candidates that `-f` keeps.
ghost use Rattle.std.specs.Prelude.{◌≡◌, ◌<◌, ◌++◌, ◌∷◌, [], ℕ, List, Some, All, IfOk, length, Bool, IfErr, option_copied};
ghost use Rattle.std.specs.Result.{IsOkAnd};
ghost use Rattle.cs_search.specs.Cited.{KeepsStore, Parts, StandsIn, IfStands, AreKept, DecidesNames, matcher_tree, IsFileProgram, FileRefused, file_pattern_fault, HasSelected, Selects, SelectsMore, file_text};

use crate::name_block::{push_matching, read_block};
use crate::stored::Plan;
use cs_args::{SearchJob, ToolFault};
use cs_index::{IndexFault, NameReader, StoredIndex};
use cs_lines::line_count;
use cs_match::{Matcher, Program};
use cs_syntax::{PatternError, PatternFault, parse};
use cs_tree::{IoFault, Store};
use std::alloc::{AllocError, Global};

/// The most names that are tested at once.
const PART: usize = 1024;

/// The names that were read and that `-f` keeps.
pub(crate) struct Selection<'p> {
    reader: NameReader,
    filter: NameFilter<'p>,
    names: Vec<String>,
}

// A body that owns a selection drops it by a call, as it does a `Plan`.
impl Drop for Selection<'_> {
    fn drop(self) {
        let Selection {
            reader: _reader,
            filter: _filter,
            names: _names,
        } = self;
    }
}

impl<'p> Selection<'p> {
    ghost use Rattle.cs_search.specs.IndexSearch.{matcher_tree};

    /// Without names.
    fn new(
        alloc: Global,
        index: &StoredIndex,
        file: Option<&'p Program>,
    ) -> Result<Selection<'p>, AllocError>
        ensures selected { IfOk result (λ selection. (bytes : List ℕ) (parts : Parts) →
            StandsIn bytes index.now parts → HasSelected bytes parts [] selection) }
        ensures file { IfOk result (λ s. matcher_tree s.filter.matcher ≡ option_copied file.entry) }
    {
        let filter = NameFilter::new(alloc, file)?;
        Ok(Selection {
            reader: index.name_reader(alloc),
            filter,
            names: Vec::new(alloc),
        })
    }

    /// Reads the names with these ids, and keeps those that the filter keeps.
    fn read_all<S: Store>(
        &mut self,
        alloc: Global,
        store: &mut S,
        ids: &[u32],
    ) -> Result<Result<(), IndexFault>, IoFault>
        ensures read { SelectsMore (S.model store.old) ids.now self.old self.new result }
        ensures same { matcher_tree self.new.filter.matcher ≡ matcher_tree self.old.filter.matcher }
        ensures store { KeepsStore S.model S.size S.failed store.old store.new result }
    {
        let mut from = 0;
        'parts: while from < ids.len() {
            let to = ids.len().min(from + PART);
            if let Err(fault) = self.read_part(alloc, store, &ids[from..to])? {
                return Ok(Err(fault));
            }
            from = to;
        }
        Ok(Ok(()))
    }

    /// The same. With `-f` the names are tested as the lines of a block, unless one has a newline.
    fn read_part<S: Store>(
        &mut self,
        alloc: Global,
        store: &mut S,
        ids: &[u32],
    ) -> Result<Result<(), IndexFault>, IoFault>
        ensures read { SelectsMore (S.model store.old) ids.now self.old self.new result }
        ensures same { matcher_tree self.new.filter.matcher ≡ matcher_tree self.old.filter.matcher }
        ensures store { KeepsStore S.model S.size S.failed store.old store.new result }
    {
        let Some(matcher) = &mut self.filter.matcher else {
            return self.read_each(alloc, store, ids);
        };
        let block = match read_block(&mut self.reader, alloc, store, ids)? {
            Ok(block) => block,
            Err(fault) => return Ok(Err(fault)),
        };
        if line_count(&block) != ids.len() {
            return self.read_each(alloc, store, ids);
        }
        let answer = push_matching(alloc, matcher, &block, &mut self.names)?;
        Ok(answer)
    }

    /// The same, one name after another.
    fn read_each<S: Store>(
        &mut self,
        alloc: Global,
        store: &mut S,
        ids: &[u32],
    ) -> Result<Result<(), IndexFault>, IoFault>
        ensures read { SelectsMore (S.model store.old) ids.now self.old self.new result }
        ensures same { matcher_tree self.new.filter.matcher ≡ matcher_tree self.old.filter.matcher }
        ensures store { KeepsStore S.model S.size S.failed store.old store.new result }
    {
        'ids: for id in ids {
            if let Err(fault) = self.read(alloc, store, *id)? {
                return Ok(Err(fault));
            }
        }
        Ok(Ok(()))
    }

    /// Reads the name with this id, and pushes it if it is kept.
    fn read<S: Store>(
        &mut self,
        alloc: Global,
        store: &mut S,
        id: u32,
    ) -> Result<Result<(), IndexFault>, IoFault>
        ensures read { (bytes : List ℕ) (parts : Parts) (ids : List ℕ) → S.model store.old ≡ Some bytes →
            HasSelected bytes parts ids self.old → id < length parts.names →
            IfOk result (λ answer. IsOkAnd answer (λ _. HasSelected bytes parts (ids ++ id ∷ []) self.new)) }
        ensures same { matcher_tree self.new.filter.matcher ≡ matcher_tree self.old.filter.matcher }
        ensures store { KeepsStore S.model S.size S.failed store.old store.new result }
    {
        if let Err(fault) = self.reader.read(alloc, store, id)? {
            return Ok(Err(fault));
        }
        match self.reader.name() {
            Ok(name) => {
                if self.filter.keeps(name) {
                    self.names.push(String::from_str(alloc, name)?)?;
                }
                Ok(Ok(()))
            }
            Err(fault) => Ok(Err(fault)),
        }
    }

    fn into_names(self) -> Vec<String>
        ensures { result.items ≡ self.entry.names.items }
    {
        let Selection {
            reader: _reader,
            filter: _filter,
            names,
        } = self;
        names
    }
}

/// Decides which names `-f` keeps: all of them without `-f`.
#[derive(Drop)]
pub(crate) struct NameFilter<'p> {
    pub(crate) matcher: Option<Matcher<'p>>,
}

impl<'p> NameFilter<'p> {
    pub(crate) fn new(
        alloc: Global,
        program: Option<&'p Program>,
    ) -> Result<NameFilter<'p>, AllocError>
        ensures { IfOk result (λ filter. matcher_tree filter.matcher ≡ option_copied program.entry) }
    {
        let Some(program) = program else {
            return Ok(NameFilter { matcher: None });
        };
        let matcher = Matcher::new(alloc, program)?;
        Ok(NameFilter {
            matcher: Some(matcher),
        })
    }

    pub(crate) fn keeps(&mut self, name: &str) -> bool
        ensures tested { (keeps : List ℕ → Bool) → DecidesNames keeps (matcher_tree self.old.matcher) →
            result ≡ keeps name.now }
        ensures same { matcher_tree self.new.matcher ≡ matcher_tree self.old.matcher }
    {
        match &mut self.matcher {
            Some(matcher) => matcher.is_match(name.as_bytes()),
            None => true,
        }
    }
}

/// The names of the plan's candidates that `-f` keeps, or `BadList`.
pub(crate) fn selected_names<S: Store>(
    alloc: Global,
    plan: &Plan,
    index: &StoredIndex,
    store: &mut S,
) -> Result<Result<Vec<String>, IndexFault>, IoFault>
    ensures answers { IfStands (S.model store.old) index.now (λ parts. IfOk result (Selects plan.now parts)) }
    ensures store { KeepsStore S.model S.size S.failed store.old store.new result }
{
    match index.candidates(alloc, store, &plan.query)? {
        Ok(ids) => kept_names(alloc, plan.file.as_ref(), index, &ids, store),
        Err(fault) => Ok(Err(fault)),
    }
}

/// Compiles the pattern of `-f`, if there is one.
pub(crate) fn compile_file(alloc: Global, job: &SearchJob) -> Result<Option<Program>, ToolFault>
    ensures compiled { IfOk result (IsFileProgram (file_text job.now)) }
    ensures refused { IfErr result (FileRefused (file_text job.now)) }
{
    let Some(text) = &job.file else {
        return Ok(None);
    };
    match parse(alloc, text.as_str(), false) {
        Ok(pattern) => {
            let program = Program::compile(alloc, &pattern)?;
            Ok(Some(program))
        }
        Err(error) => Err(file_fault(error)),
    }
}

/// The names with these ids that `-f` keeps, whose program is `file`.
fn kept_names<S: Store>(
    alloc: Global,
    file: Option<&Program>,
    index: &StoredIndex,
    ids: &[u32],
    store: &mut S,
) -> Result<Result<Vec<String>, IndexFault>, IoFault>
    ensures kept { IfStands (S.model store.old) index.now (λ parts.
        All (λ id. id < length parts.names) ids.now → IfOk result (λ answer. IsOkAnd answer
        (λ names. AreKept (option_copied file.entry) parts.names ids.now names.items))) }
    ensures store { KeepsStore S.model S.size S.failed store.old store.new result }
{
    let mut selection = Selection::new(alloc, index, file)?;
    match selection.read_all(alloc, store, ids)? {
        Ok(()) => Ok(Ok(selection.into_names())),
        Err(fault) => Ok(Err(fault)),
    }
}

/// The error of the `-f` pattern; an allocation failure becomes `Memory`.
fn file_fault(error: PatternError) -> ToolFault
    ensures { result ≡ file_pattern_fault error }
{
    match error.fault {
        PatternFault::Memory => ToolFault::Memory,
        _ => ToolFault::FilePattern(error),
    }
}
