// The search of a project, and the listing of its files.
ghost use Rattle.std.specs.Prelude.{◌≡◌, ◌++◌, ◌≤◌, [], false, true, IfOk, OnOk};
ghost use Rattle.cs_project.specs.Cited.{Keeps, given, texts, InTree, chosen_in, HoldsAsBefore, HoldsFor, by_names, AreAllNamed, AreFirstItemsOf, AreFirstOfAll, AreItemsOf, BeginsItems, BeginsNames, ForItems, InInput, StopsBySpans, are_several, no_bytes, KnowsFor, VisitsSome, FindsInProject, ListsProject, SearchesProject, NotesSeen};

use crate::fault::FreshFault;
use crate::file_search::{FileSearch, either};
use crate::knowledge::Knowledge;
use crate::listing::NameListing;
use crate::places::{NamedFolder, ScopeWord, is_input};
use crate::reports::{Reports, status_of};
use crate::scope::Scope;
use crate::unprinted::Unprinted;
use crate::visitor::Visitor;
use cs_lines::{Mode, ShowOptions};
use cs_tree::{Look, MemSource, Sink, SinkOutput, Source};
use std::alloc::AllocError;

/// Searches the items of a scope up to the first marked line, prints only errors, and returns the
/// exit status: 0 if a line is marked, even after an error; else 2 after an error, or else 1. It
/// does not matter whether a line was marked before.
#[tactic(auto, using(crate::proofs::NotedLemmas::notes_more))]
pub fn find_in_project<T: Look, R: Source, K: Knowledge, E: Sink>(
    scope: &Scope<'_>,
    mut search: FileSearch<'_>,
    tree: &mut T,
    input: &mut R,
    known: &mut K,
    err: &mut E,
) -> Result<u8, FreshFault>
    ensures found { IfOk result (λ status. InInput (R.model input.old) (λ input.
        HoldsFor (K.Holds known.old) T.stamps (T.snapshot tree.old) (by_names search.entry) →
        InTree (T.snapshot tree.old) (λ items. FindsInProject items input scope.now search.entry status))) }
    ensures status { IfOk result (λ status. status ≤ 2) }
    ensures keeps { T.snapshot tree.new ≡ T.snapshot tree.old }
    ensures notes { NotesSeen T.stamps (T.snapshot tree.old) (K.noted known.old) (K.noted known.new) }
{
    search.quick = true;
    search.marked = false;
    search.options = for_names(search.options);
    let mut nothing = Unprinted;
    let mut out = SinkOutput::new(&mut nothing);
    scope.visit(&mut search, tree, input, known, &mut out, err)?;
    if search.marked && !search.has_stopped() {
        return Ok(0);
    }
    search.status(err)
}

/// Prints the names of the items of a scope, each with what ends it, and returns the exit status: 2
/// after an error, or else 0. For each file of a walk it asks whether it is known.
#[tactic(auto, using(crate::proofs::PrintLemmas::printing, crate::proofs::NotedLemmas::notes_more))]
pub fn list_project<T: Look, K: Knowledge, O: Sink, E: Sink>(
    scope: &Scope<'_>,
    end: &[u8],
    tree: &mut T,
    known: &mut K,
    out: &mut SinkOutput<'_, O>,
    err: &mut E,
) -> Result<u8, FreshFault>
    ensures listed { IfOk result (λ status. InTree (T.snapshot tree.old)
        (λ items. ListsProject items scope.now end.now (given out.old) (given out.new) status)) }
    ensures begins { InTree (T.snapshot tree.old) (λ items. ForItems (AreFirstItemsOf items
        no_bytes scope.now)
        (λ named. BeginsNames end.now named (given out.old) (given out.new))) }
    ensures status { IfOk result (λ status. status ≤ 2) }
    ensures keeps { T.snapshot tree.new ≡ T.snapshot tree.old }
    ensures handed { Keeps O.model O.failed out.old out.new }
    ensures notes { NotesSeen T.stamps (T.snapshot tree.old) (K.noted known.old) (K.noted known.new) }
{
    let mut listing = NameListing {
        end,
        reports: Reports::new(scope.alloc),
    };
    // Of the input nothing is read.
    let mut nothing = MemSource::new(b"", 1, false);
    scope.visit(&mut listing, tree, &mut nothing, known, out, err)?;
    Ok(status_of(listing.reports.wrong, true))
}

/// The options with which a text is read only up to its first marked line.
pub(crate) fn for_names(options: ShowOptions) -> ShowOptions
    ensures { result ≡ record options { mode = Mode.Names } }
{
    ShowOptions {
        mode: Mode::Names,
        most: options.most,
        before: options.before,
        after: options.after,
        invert: options.invert,
        form: options.form,
    }
}

impl<'a> Scope<'a> {
    /// Searches the items of the scope, and returns the exit status: 2 after an error, or if not
    /// all matches of a line were found (`has_stopped`); else 0 if a line is marked, or else 1.
    #[tactic(auto, using(crate::proofs::PrintLemmas::printing, crate::proofs::NotedLemmas::notes_more))]
    pub fn search_project<T: Look, R: Source, K: Knowledge, O: Sink, E: Sink>(
        &self,
        search: &mut FileSearch<'_>,
        tree: &mut T,
        input: &mut R,
        known: &mut K,
        out: &mut SinkOutput<'_, O>,
        err: &mut E,
    ) -> Result<u8, FreshFault>
        ensures searched { IfOk result (λ status. InInput (R.model input.old) (λ input.
            HoldsFor (K.Holds known.old) T.stamps (T.snapshot tree.old) search.old →
            InTree (T.snapshot tree.old) (λ items. SearchesProject items input self.now search.old
            (given out.old) (given out.new) status))) }
        ensures begins { InInput (R.model input.old) (λ input.
            HoldsFor (K.Holds known.old) T.stamps (T.snapshot tree.old) search.old →
            InTree (T.snapshot tree.old) (λ items. ForItems (AreFirstItemsOf items input self.now)
            (λ named. BeginsItems search.old search.new named (given out.old) (given out.new)))) }
        ensures budget { StopsBySpans search.old.options.form search.old.search search.new.search }
        ensures status { IfOk result (λ status. status ≤ 2) }
        ensures keeps { T.snapshot tree.new ≡ T.snapshot tree.old }
        ensures handed { Keeps O.model O.failed out.old out.new }
        ensures notes { NotesSeen T.stamps (T.snapshot tree.old) (K.noted known.old) (K.noted known.new) }
    {
        search.quick = false;
        self.visit(search, tree, input, known, out, err)?;
        search.status(err)
    }

    /// The current folder.
    fn here(&self) -> NamedFolder<'a, 'a>
        ensures scope { result.scope ≡ self.now }
        ensures path { result.path.now ≡ self.now.folder.now }
        ensures word { result.word.now ≡ [] }
    {
        NamedFolder {
            scope: *self,
            path: self.folder,
            word: "",
        }
    }

    /// Whether more than one file may be searched.
    pub fn is_of_several<T: Look>(&self, tree: &mut T) -> Result<bool, AllocError>
        ensures several { IfOk result (λ several. InTree (T.snapshot tree.old)
            (λ items. several ≡ are_several items self.now.folder.now (texts self.now.words.now))) }
        ensures keeps { T.snapshot tree.new ≡ T.snapshot tree.old }
    {
        match self.words {
            [word] => self.is_folder(tree, word),
            _ => Ok(true),
        }
    }

    /// Visits the items one after another.
    #[tactic(auto, using(crate::proofs::PrintLemmas::printing, crate::proofs::NotedLemmas::notes_more))]
    fn visit<V: Visitor, T: Look, R: Source, K: Knowledge, O: Sink, E: Sink>(
        &self,
        visitor: &mut V,
        tree: &mut T,
        input: &mut R,
        known: &mut K,
        out: &mut SinkOutput<'_, O>,
        err: &mut E,
    ) -> Result<(), FreshFault>
        ensures visits { InInput (R.model input.old) (λ input.
            KnowsFor V.Asks (K.Holds known.old) T.stamps (T.snapshot tree.old) visitor.old →
            InTree (T.snapshot tree.old) (λ items. VisitsSome V.Begins V.Visits V.is_done
            (AreFirstItemsOf items input self.now)
            (λ named. V.is_wrong visitor.new ≡ false → AreItemsOf items input self.now named)
            visitor.old visitor.new (given out.old) (given out.new) result)) }
        ensures same { V.Stays visitor.old visitor.new }
        ensures holds { HoldsAsBefore (K.Holds known.old) (K.Holds known.new) }
        ensures keeps { T.snapshot tree.new ≡ T.snapshot tree.old }
        ensures handed { Keeps O.model O.failed out.old out.new }
        ensures notes { NotesSeen T.stamps (T.snapshot tree.old) (K.noted known.old) (K.noted known.new) }
    {
        if self.words.is_empty() {
            return self.here().visit(visitor, tree, known, out, err);
        }
        self.visit_words(visitor, tree, input, known, out, err)
    }

    /// Visits what the words name.
    #[tactic(auto, using(crate::proofs::PrintLemmas::printing, crate::proofs::NotedLemmas::notes_more))]
    fn visit_words<V: Visitor, T: Look, R: Source, K: Knowledge, O: Sink, E: Sink>(
        &self,
        visitor: &mut V,
        tree: &mut T,
        input: &mut R,
        known: &mut K,
        out: &mut SinkOutput<'_, O>,
        err: &mut E,
    ) -> Result<(), FreshFault>
        ensures visits { InInput (R.model input.old) (λ input.
            KnowsFor V.Asks (K.Holds known.old) T.stamps (T.snapshot tree.old) visitor.old →
            InTree (T.snapshot tree.old) (λ items. VisitsSome V.Begins V.Visits V.is_done
            (AreFirstOfAll items (chosen_in self.now.choices.now) self.now.folder.now input
            (texts self.now.words.now))
            (λ named. V.is_wrong visitor.new ≡ false → AreAllNamed items
            (chosen_in self.now.choices.now) self.now.folder.now input (texts self.now.words.now) named)
            visitor.old visitor.new (given out.old) (given out.new) result)) }
        ensures same { V.Stays visitor.old visitor.new }
        ensures holds { HoldsAsBefore (K.Holds known.old) (K.Holds known.new) }
        ensures keeps { T.snapshot tree.new ≡ T.snapshot tree.old }
        ensures handed { Keeps O.model O.failed out.old out.new }
        ensures notes { NotesSeen T.stamps (T.snapshot tree.old) (K.noted known.old) (K.noted known.new) }
    {
        visitor.follow();
        let mut is_read = false;
        'words: for word in self.words {
            let named = ScopeWord {
                scope: *self,
                word,
                is_read,
            };
            named.visit(visitor, tree, input, known, out, err)?;
            if visitor.is_done() {
                return Ok(());
            }
            is_read = either(is_read, is_input(word));
        }
        Ok(())
    }
}
