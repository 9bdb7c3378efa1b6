// The search of one file after another.
ghost use Rattle.std.specs.Prelude.{◌≡◌, ◌≤◌, ◌∷◌, ◌||◌, [], true, false, string_bytes, IfOk, OnOk};
ghost use Rattle.cs_project.specs.Cited.{has_stopped, Keeps, given, InInput, InTree, InStamps, HoldsAsBefore, HoldsFor, KeepsForm, ShowsItems, BeginsItems, binary_as, is_done, FindsAmong, IsStatusOf, NotesSeen, AsksFor, SearchesItems, met_item};

use crate::fault::FreshFault;
use crate::knowledge::Knowledge;
use crate::reports::{Reports, status_of};
use crate::visitor::Visitor;
use crate::walks::NamedPath;
use cs_lines::{BinaryFiles, Ended, LineBuffer, LineSearch, Page, ShowOptions, print_file};
use cs_listing::ListFault;
use cs_tree::{Look, MemSource, Sink, SinkOutput, Source, Tree, TreeFault, TreeReader};
use std::alloc::{AllocError, Global};

/// A search of one file after another.
#[derive(Drop)]
pub struct FileSearch<'p> {
    pub(crate) options: ShowOptions,
    /// Binary files are searched as text (`-a`).
    pub(crate) binary: bool,
    pub(crate) search: LineSearch<'p>,
    buffer: LineBuffer,
    /// The search ends at the first marked line.
    pub(crate) quick: bool,
    /// A line of a file was marked.
    pub(crate) marked: bool,
    pub(crate) reports: Reports,
}

impl<'p> FileSearch<'p> {
    /// A search in which no file was searched yet.
    pub fn new(
        alloc: Global,
        options: ShowOptions,
        binary: bool,
        search: LineSearch<'p>,
    ) -> Result<FileSearch<'p>, AllocError>
        ensures options { IfOk result (λ files. files.options ≡ options) }
        ensures binary { IfOk result (λ files. files.binary ≡ binary) }
        ensures search { IfOk result (λ files. files.search ≡ search.entry) }
        ensures marked { IfOk result (λ files. files.marked ≡ false) }
        ensures reported { IfOk result (λ files. files.reports.wrong ≡ false) }
    {
        let buffer = LineBuffer::new(alloc)?;
        Ok(FileSearch {
            options,
            binary,
            search,
            buffer,
            quick: false,
            marked: false,
            reports: Reports::new(alloc),
        })
    }

    /// What a binary file is searched as.
    fn binary_as(&self, named: bool) -> BinaryFiles
        ensures { result ≡ binary_as self.now.binary named }
    {
        if self.binary {
            BinaryFiles::Text
        } else if named {
            BinaryFiles::Binary
        } else {
            BinaryFiles::WithoutMatch
        }
    }

    /// Searches the text that is read from a source, and prints what is to be printed for it.
    /// `named` says whether a word names the file.
    #[tactic(auto, using(crate::proofs::PrintLemmas::printing))]
    pub(crate) fn show_source<R: Source, O: Sink, E: Sink>(
        &mut self,
        name: &str,
        named: bool,
        input: &mut R,
        out: &mut SinkOutput<'_, O>,
        err: &mut E,
    ) -> Result<(), FreshFault>
        ensures shown { OnOk result (InInput (R.model input.old) (λ item. ShowsItems self.old self.new
            ((name.now, item, named) ∷ []) (given out.old) (given out.new))) }
        ensures begins { InInput (R.model input.old) (λ item. BeginsItems self.old self.new
            ((name.now, item, named) ∷ []) (given out.old) (given out.new)) }
        ensures found { OnOk result (InInput (R.model input.old) (λ item. FindsAmong self.old self.new
            (λ one. one ≡ (name.now, item, named)))) }
        ensures same { KeepsForm self.old self.new }
        ensures keeps { R.Keeps input.old input.new }
        ensures handed { Keeps O.model O.failed out.old out.new }
    {
        let options = self.options;
        let page = Page {
            options: &options,
            name,
            begun: self.marked,
        };
        let streamed = print_file(
            &page,
            self.binary_as(named),
            input,
            &mut self.buffer,
            &mut self.search,
            out,
        )?;
        out.check()?;
        self.marked = either(self.marked, streamed.marked);
        match streamed.ended {
            Ended::Whole => Ok(()),
            Ended::Failed => self.reports.print(name, "cannot be read", err),
            Ended::TooLong => self.reports.print(name, "the file is too long", err),
        }
    }

    /// Searches the file at a path, and prints what is to be printed for it. For a file that is
    /// gone, and for the one that the output goes to, nothing is printed.
    #[tactic(auto, using(crate::proofs::PrintLemmas::printing, crate::proofs::FileLemmas::path_refused))]
    pub fn show_file<T: Tree, O: Sink, E: Sink>(
        &mut self,
        tree: &mut T,
        path: &str,
        name: &str,
        out: &mut SinkOutput<'_, O>,
        err: &mut E,
    ) -> Result<(), FreshFault>
        ensures shown { OnOk result (InTree (T.snapshot tree.old) (λ items. ShowsItems self.old self.new
            ((name.now, items path.now, false) ∷ []) (given out.old) (given out.new))) }
        ensures begins { InTree (T.snapshot tree.old) (λ items. BeginsItems self.old self.new
            ((name.now, items path.now, false) ∷ []) (given out.old) (given out.new)) }
        ensures found { OnOk result (InTree (T.snapshot tree.old) (λ items. FindsAmong self.old self.new
            (λ one. one ≡ (name.now, items path.now, false)))) }
        ensures same { KeepsForm self.old self.new }
        ensures keeps { T.snapshot tree.new ≡ T.snapshot tree.old }
        ensures handed { Keeps O.model O.failed out.old out.new }
    {
        match tree.open(path) {
            Ok(()) => {
                let mut reader = TreeReader::new(tree);
                self.show_source(name, false, &mut reader, out, err)
            }
            Err(fault) => self.reports.unopened(name, fault, err),
        }
    }

    /// The same for a file that a walk met, unless it is known to print nothing.
    #[tactic(auto, using(crate::proofs::PrintLemmas::printing))]
    pub(crate) fn show_met<T: Look, K: Knowledge, O: Sink, E: Sink>(
        &mut self,
        file: &NamedPath,
        tree: &mut T,
        known: &mut K,
        out: &mut SinkOutput<'_, O>,
        err: &mut E,
    ) -> Result<(), FreshFault>
        requires { InStamps (T.snapshot tree.old) T.stamps
            (λ stamps. file.now.stamp ≡ stamps (string_bytes file.now.path)) }
        ensures shown { OnOk result (HoldsFor (K.Holds known.old) T.stamps (T.snapshot tree.old) self.old →
            InTree (T.snapshot tree.old) (λ items. ShowsItems self.old self.new
            (met_item items file.now ∷ []) (given out.old) (given out.new))) }
        ensures begins { InTree (T.snapshot tree.old) (λ items. BeginsItems self.old self.new
            (met_item items file.now ∷ []) (given out.old) (given out.new)) }
        ensures found { OnOk result (InTree (T.snapshot tree.old) (λ items. FindsAmong self.old self.new
            (λ one. one ≡ met_item items file.now))) }
        ensures same { KeepsForm self.old self.new }
        ensures holds { HoldsAsBefore (K.Holds known.old) (K.Holds known.new) }
        ensures keeps { T.snapshot tree.new ≡ T.snapshot tree.old }
        ensures handed { Keeps O.model O.failed out.old out.new }
        ensures notes { NotesSeen T.stamps (T.snapshot tree.old) (K.noted known.old) (K.noted known.new) }
    {
        if known.skips(file.path.as_str(), file.stamp)? {
            return Ok(());
        }
        self.show_file(tree, file.path.as_str(), file.name.as_str(), out, err)
    }

    /// The same for a file that a word names. One that is gone is reported, and one that is binary
    /// is searched.
    #[tactic(auto, using(crate::proofs::PrintLemmas::printing, crate::proofs::FileLemmas::path_missing, crate::proofs::FileLemmas::path_refused))]
    pub(crate) fn show_named<T: Tree, O: Sink, E: Sink>(
        &mut self,
        tree: &mut T,
        path: &str,
        name: &str,
        out: &mut SinkOutput<'_, O>,
        err: &mut E,
    ) -> Result<(), FreshFault>
        ensures shown { OnOk result (InTree (T.snapshot tree.old) (λ items. ShowsItems self.old self.new
            ((name.now, items path.now, true) ∷ []) (given out.old) (given out.new))) }
        ensures begins { InTree (T.snapshot tree.old) (λ items. BeginsItems self.old self.new
            ((name.now, items path.now, true) ∷ []) (given out.old) (given out.new)) }
        ensures found { OnOk result (InTree (T.snapshot tree.old) (λ items. FindsAmong self.old self.new
            (λ one. one ≡ (name.now, items path.now, true)))) }
        ensures same { KeepsForm self.old self.new }
        ensures keeps { T.snapshot tree.new ≡ T.snapshot tree.old }
        ensures handed { Keeps O.model O.failed out.old out.new }
    {
        match tree.open(path) {
            Ok(()) => {
                let mut reader = TreeReader::new(tree);
                self.show_source(name, true, &mut reader, out, err)
            }
            Err(TreeFault::Missing) => self.reports.unnamed(name, TreeFault::Missing, err),
            Err(fault) => self.reports.unopened(name, fault, err),
        }
    }

    /// The exit status, after a line of an error if not all matches of a line were found.
    pub(crate) fn status<E: Sink>(&self, err: &mut E) -> Result<u8, FreshFault>
        ensures status { IfOk result (IsStatusOf self.now) }
        ensures within { IfOk result (λ status. status ≤ 2) }
    {
        if self.has_stopped() {
            let mut reports = self.reports;
            reports.print("a line", "not all of its matches were found", err)?;
            return Ok(2);
        }
        Ok(status_of(self.reports.wrong, self.marked))
    }

    /// Whether the matches of a line were not all found.
    pub fn has_stopped(&self) -> bool
        ensures { result ≡ has_stopped self.now.search }
    {
        self.search.has_stopped()
    }
}

impl Visitor for FileSearch<'_> {
    ghost Asks = { AsksFor };

    ghost is_done = { is_done };

    ghost is_wrong = { λ search. search.reports.wrong };

    ghost Stays = { KeepsForm };

    ghost Visits = { SearchesItems };

    ghost Begins = { BeginsItems };

    fn visit_met<T: Look, K: Knowledge, O: Sink, E: Sink>(
        &mut self,
        file: &NamedPath,
        tree: &mut T,
        known: &mut K,
        out: &mut SinkOutput<'_, O>,
        err: &mut E,
    ) -> Result<(), FreshFault> {
        self.show_met(file, tree, known, out, err)
    }

    fn visit_named<T: Look, O: Sink, E: Sink>(
        &mut self,
        path: &str,
        word: &str,
        tree: &mut T,
        out: &mut SinkOutput<'_, O>,
        err: &mut E,
    ) -> Result<(), FreshFault> {
        self.show_named(tree, path, word, out, err)
    }

    #[tactic(auto, using(crate::proofs::PrintLemmas::printing))]
    fn visit_input<R: Source, O: Sink, E: Sink>(
        &mut self,
        word: &str,
        is_read: bool,
        input: &mut R,
        out: &mut SinkOutput<'_, O>,
        err: &mut E,
    ) -> Result<(), FreshFault> {
        if is_read {
            let mut nothing = MemSource::new(b"", 1, false);
            return self.show_source(word, true, &mut nothing, out, err);
        }
        self.show_source(word, true, input, out, err)
    }

    fn report<E: Sink>(
        &mut self,
        name: &str,
        fault: ListFault,
        err: &mut E,
    ) -> Result<(), FreshFault> {
        self.reports.unlisted(name, fault, err)
    }

    fn is_done(&self) -> bool {
        self.quick && self.marked
    }

    fn follow(&self) {}
}

/// Whether one of two holds.
pub(crate) fn either(first: bool, second: bool) -> bool
    ensures { result ≡ (first || second) }
{
    first || second
}
