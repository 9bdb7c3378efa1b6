// The index of the files below some paths: reads the files that a walk finds, and adds them one
// after the other.
ghost use Rattle.std.specs.Prelude.{◌≡◌, ◌<◌, ◌≤◌, ◌^◌, true, [], map, string_bytes, IfOk, IfErr, OnOk, MatchResult};
ghost use Rattle.cs_cindex.specs.Cited.{are_ascending, AreWithinPathLimit, are_paths, is_above, names_of, least_length, effects, FinishesIndex, IndexesFiles, NotesFile, output, ReadsFiles, ReadsFile, Sends, HasTrigramsOnce, IsVerdictIn, count_read, KeepsTree, IndexesWalk};
ghost use Rattle.cs_tree.specs.PathSet as set;

use crate::printing::{print_fault, print_skipped, print_walk_faults};
use cs_args::{CindexFault, FileFault};
use cs_index::{BuildFault, Builder};
use cs_tree::{Output, Sent, Sink, Tree, TreeReader, Walked, walk};
use cs_trigram::{Scan, ScanFault, Scanner};
use std::alloc::{AllocError, Global};

/// The state of indexing.
pub(crate) struct Indexer {
    alloc: Global,
    log_skip: bool,
    builder: Builder,
}

// A body that owns an indexer drops it by a call. A derived `drop` would stand there with each
// field of the builder.
impl Drop for Indexer {
    fn drop(self) {
        let Indexer {
            alloc: _alloc,
            log_skip: _log_skip,
            builder: _builder,
        } = self;
    }
}

/// The scanner of the files of a walk.
struct FileScanner {
    scanner: Scanner,
}

// As for `Indexer`.
impl Drop for FileScanner {
    fn drop(self) {
        let FileScanner { scanner: _scanner } = self;
    }
}

impl FileScanner {
    fn new(alloc: Global) -> Result<FileScanner, AllocError> {
        Ok(FileScanner {
            scanner: Scanner::new(alloc)?,
        })
    }
}

impl Indexer {
    pub(crate) fn new(
        alloc: Global,
        paths: &[String],
        log_skip: bool,
    ) -> Result<Indexer, CindexFault>
        requires { are_paths (map string_bytes paths.now) ≡ true }
        ensures paths { IfOk result (λ indexer. indexer.builder.paths ≡ map string_bytes paths.now) }
        ensures starts { IfOk result
            (λ indexer. (indexer.builder.entries ≡ []) × (indexer.log_skip ≡ log_skip)) }
        ensures refused { IfErr result (λ fault. fault ≡ CindexFault.Memory) }
    {
        // The paths are valid paths of an index, so the only error is out of memory.
        let Ok(builder) = Builder::new(alloc, paths) else {
            return Err(CindexFault::Memory);
        };
        Ok(Indexer {
            alloc,
            log_skip,
            builder,
        })
    }

    /// Reads the files at the names, adds those that are text, and prints a diagnostic for each
    /// other one. `TooLarge` as soon as the index is too large, whatever is added to it.
    pub(crate) fn index_files<T: Tree, E: Sink>(
        &mut self,
        tree: &mut T,
        names: &[String],
        err: &mut E,
    ) -> Result<(), CindexFault>
        requires ascend { are_ascending (map string_bytes names.now) ≡ true }
        requires path_limit { AreWithinPathLimit (map string_bytes names.now) }
        requires empty { self.old.builder.entries ≡ [] }
        ensures indexes { IndexesFiles self.old.log_skip
            (map string_bytes names.now) self.new.builder.entries
            (effects T.snapshot T.failed E.model E.failed tree.old tree.new err.old err.new) result }
        ensures small { OnOk result (least_length self.new.builder.entries < 2 ^ 32) }
        ensures paths { self.new.builder.paths ≡ self.old.builder.paths }
        ensures tree { ReadsFiles T.snapshot T.longest_requested T.read_counts tree.old tree.new }
    {
        let mut files = FileScanner::new(self.alloc)?;
        for name in names {
            let verdict = read_file(&mut files.scanner, tree, name.as_str())?;
            self.note(name.as_str(), verdict, err)?;
        }
        Ok(())
    }

    /// Adds a text file, or prints a diagnostic if it is skipped or no index can store its name.
    fn note<E: Sink>(
        &mut self,
        name: &str,
        verdict: Verdict<'_>,
        err: &mut E,
    ) -> Result<(), CindexFault>
        requires once { HasTrigramsOnce verdict }
        requires above { is_above (names_of self.old.builder.entries) name.now ≡ true }
        ensures notes { NotesFile self.old.log_skip name.now verdict.entry
            self.old.builder.entries self.new.builder.entries
            (output E.model E.failed err.old) (output E.model E.failed err.new) result }
        ensures small { OnOk result (least_length self.old.builder.entries < 2 ^ 32 →
            least_length self.new.builder.entries < 2 ^ 32) }
        ensures paths { self.new.builder.paths ≡ self.old.builder.paths }
        ensures log_skip { self.new.log_skip ≡ self.old.log_skip }
    {
        match verdict {
            Ok(Scan::Text { trigrams, .. }) => match self.builder.add(name, trigrams) {
                Ok(_) => self.check_size(),
                Err(BuildFault::BadName) => print_fault(self.alloc, name, FileFault::Unnamed, err),
                Err(BuildFault::TooLarge) => Err(CindexFault::TooLarge),
                Err(BuildFault::Memory) => Err(CindexFault::Memory),
                Err(BuildFault::OutOfOrder | BuildFault::BadPaths) => unreachable!(),
            },
            Ok(Scan::Skip(reason)) if self.log_skip => print_skipped(self.alloc, name, reason, err),
            Ok(Scan::Skip(_)) => Ok(()),
            Err(fault) => print_fault(self.alloc, name, fault, err),
        }
    }

    /// `TooLarge` if the index is too large, whatever is added to it.
    fn check_size(&self) -> Result<(), CindexFault>
        ensures { MatchResult result (λ _. least_length self.now.builder.entries < 2 ^ 32)
            (λ fault. (fault ≡ CindexFault.TooLarge) × (2 ^ 32 ≤ least_length self.now.builder.entries)) }
    {
        if self.builder.is_too_large() {
            return Err(CindexFault::TooLarge);
        }
        Ok(())
    }

    /// Sends the index of the added files to `new`.
    pub(crate) fn finish_into<W: Output>(self, new: &mut W) -> Result<Sent, CindexFault>
        ensures finishes { FinishesIndex self.builder result }
        ensures sends { Sends W.given W.Keeps new.old new.new result }
    {
        let Indexer {
            alloc: _alloc,
            log_skip: _log_skip,
            builder,
        } = self;
        match builder.finish_into(new, u32::MAX) {
            Ok(index) => Ok(index),
            Err(BuildFault::TooLarge) => Err(CindexFault::TooLarge),
            Err(_) => Err(CindexFault::Memory),
        }
    }
}

/// What a walk found.
struct Found {
    walked: Walked,
}

// A body that owns it drops it by a call. A derived `drop` would stand there with the loops over
// both lists.
impl Drop for Found {
    fn drop(self) {
        let Found { walked: _walked } = self;
    }
}

/// Sends an index of the paths and of the text files that a walk from them finds to `new`.
///
/// The diagnostics go to `err`: one for each path that the walk cannot read, ascending; then, in
/// name order, one for each file that cannot be read to its end, and with `log_skip` one for each
/// other file that is skipped. A name that no index can store, such as one with a NUL, which no
/// file system lists, has the line `name is not text`.
///
/// # Errors
///
/// `Write` if a diagnostic cannot be written, `TooLarge` if the index would have more than 2^32 - 1
/// bytes, `Memory` if an allocation fails.
pub(crate) fn index_paths<T: Tree, W: Output, E: Sink>(
    alloc: Global,
    tree: &mut T,
    paths: &[String],
    log_skip: bool,
    new: &mut W,
    err: &mut E,
) -> Result<Sent, CindexFault>
    requires { are_paths (map string_bytes paths.now) ≡ true }
    ensures walk { IndexesWalk result (λ index. index.bytes) log_skip
        (set.from_list (map string_bytes paths.now))
        (effects T.snapshot T.failed E.model E.failed tree.old tree.new err.old err.new) }
    ensures sends { Sends W.given W.Keeps new.old new.new result }
    ensures tree { KeepsTree T.snapshot T.longest_requested T.read_counts tree.old tree.new }
{
    let mut indexer = Indexer::new(alloc, paths, log_skip)?;
    let walked = walk(alloc, tree, paths)?;
    let found = Found { walked };
    print_walk_faults(alloc, &found.walked.faults, err)?;
    indexer.index_files(tree, &found.walked.names, err)?;
    // The builder has the names.
    drop(found);
    indexer.finish_into(new)
}

/// The scan of a file, with the distinct trigrams of a text, or why it cannot be read to its end.
pub(crate) type Verdict<'a> = Result<Scan<&'a [u32]>, FileFault>;

/// Reads the file at a name. Reading ends at the first byte that breaks a rule of text files.
fn read_file<'a, T: Tree>(
    scanner: &'a mut Scanner,
    tree: &mut T,
    name: &str,
) -> Result<Verdict<'a>, AllocError>
    ensures model { IfOk result (λ verdict. IsVerdictIn (T.snapshot tree.old) name.now verdict) }
    ensures once { IfOk result HasTrigramsOnce }
    ensures counted { T.failed tree.new ≡ count_read result (T.failed tree.old) }
    ensures tree { ReadsFile T.snapshot T.longest_requested T.read_counts name.now
        tree.old tree.new }
{
    if let Err(fault) = tree.open(name) {
        let fault = FileFault::of_tree(fault)?;
        return Ok(Err(fault));
    }
    let mut reader = TreeReader::new(tree);
    match scanner.gather(&mut reader) {
        Ok(scan) => Ok(Ok(scan)),
        Err(ScanFault::Read) => Ok(Err(FileFault::Failed)),
        Err(ScanFault::Memory) => Err(AllocError),
    }
}
