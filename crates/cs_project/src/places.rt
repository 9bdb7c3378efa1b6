// What the words of a command line name: folders and files.
ghost use Rattle.std.specs.Prelude.{◌≡◌, false, string_bytes, IfOk, IfSome};
ghost use Rattle.cs_project.specs.Cited.{Keeps, given, other, InTree, chosen_in, AreStamped, InStamps, HoldsAsBefore, AreAnswered, AreAtPath, AreFilesBelow, AreFirstAtPath, AreFirstBelow, AreFirstNamed, AreNamed, AreThere, AreThereAt, is_input, names_folder, unread, IsKindAt, IsWordPath, KnowsFor, VisitsSome, WalksFolder, NotesSeen};

use crate::fault::FreshFault;
use crate::knowledge::Knowledge;
use crate::names::NameForm;
use crate::paths::word_path;
use crate::scope::Scope;
use crate::visitor::Visitor;
use crate::walks::FolderWalk;
use cs_listing::laws::gives_in_order;
use cs_listing::{ListFault, Walk, path_names};
use cs_tree::{Kind, Look, PathFault, Sink, SinkOutput, Source, TreeFault};
use std::alloc::{AllocError, Global};

/// A folder of a scope: its path, and the word that names it, which is empty for the current
/// folder.
#[derive(Clone, Copy, Drop)]
pub(crate) struct NamedFolder<'n, 'a> {
    pub(crate) scope: Scope<'a>,
    pub(crate) path: &'n str,
    pub(crate) word: &'n str,
}

/// A word of a scope.
#[derive(Clone, Copy, Drop)]
pub(crate) struct ScopeWord<'n, 'a> {
    pub(crate) scope: Scope<'a>,
    pub(crate) word: &'n str,
    /// The standard input was read for an earlier word.
    pub(crate) is_read: bool,
}

/// What is at a path.
#[derive(Clone, Copy, Drop)]
pub(crate) enum PathKind {
    Folder,
    /// Anything else that is there.
    File,
    Unread(TreeFault),
}

/// The path of a word, and what is there.
#[derive(Drop)]
pub(crate) struct WordPath {
    pub(crate) path: String,
    pub(crate) kind: PathKind,
}

/// What is at a path. A link to a folder is followed.
fn kind_at<T: Look>(alloc: Global, tree: &mut T, path: &str) -> Result<PathKind, AllocError>
    ensures kind { IfOk result (λ kind. InTree (T.snapshot tree.old)
        (λ items. IsKindAt items path.now kind)) }
    ensures keeps { T.snapshot tree.new ≡ T.snapshot tree.old }
{
    match tree.kind(path) {
        Ok(Kind::Folder) => Ok(PathKind::Folder),
        Ok(Kind::File) => Ok(PathKind::File),
        Ok(Kind::Other) => linked_kind(alloc, tree, path),
        Err(TreeFault::Memory) => Err(AllocError),
        Err(fault) => Ok(PathKind::Unread(fault)),
    }
}

/// What a link leads to, or what else is at a path. The system follows a link to a folder where a
/// slash stands after it.
fn linked_kind<T: Look>(alloc: Global, tree: &mut T, path: &str) -> Result<PathKind, AllocError>
    ensures kind { IfOk result (λ kind. InTree (T.snapshot tree.old)
        (λ items. items path.now ≡ other → IsKindAt items path.now kind)) }
    ensures keeps { T.snapshot tree.new ≡ T.snapshot tree.old }
{
    let mut entered = String::from_str(alloc, path)?;
    entered.push('/')?;
    match tree.kind(entered.as_str()) {
        Ok(Kind::Folder) => Ok(PathKind::Folder),
        Err(TreeFault::Memory) => Err(AllocError),
        _ => Ok(PathKind::File),
    }
}

/// Whether a word is `-`, which names the standard input.
pub(crate) fn is_input(word: &str) -> bool
    ensures { result ≡ is_input word.now }
{
    word == "-"
}

impl<'a> Scope<'a> {
    /// What is at the path of a word.
    fn named<T: Look>(&self, tree: &mut T, word: &str) -> Result<WordPath, AllocError>
        ensures named { IfOk result (λ named. InTree (T.snapshot tree.old)
            (λ items. IsWordPath items self.now.folder.now word.now
            (string_bytes named.path) named.kind)) }
        ensures keeps { T.snapshot tree.new ≡ T.snapshot tree.old }
    {
        match word_path(self.alloc, tree, self.folder, word) {
            Ok(path) => {
                let kind = kind_at(self.alloc, tree, path.as_str())?;
                Ok(WordPath { path, kind })
            }
            Err(PathFault::Memory) => Err(AllocError),
            Err(_) => Ok(WordPath {
                path: String::new(self.alloc),
                kind: PathKind::Unread(TreeFault::Missing),
            }),
        }
    }

    /// Whether a word names a folder.
    pub(crate) fn is_folder<T: Look>(&self, tree: &mut T, word: &str) -> Result<bool, AllocError>
        ensures folder { IfOk result (λ folder. InTree (T.snapshot tree.old)
            (λ items. folder ≡ names_folder items self.now.folder.now word.now)) }
        ensures keeps { T.snapshot tree.new ≡ T.snapshot tree.old }
    {
        if is_input(word) {
            return Ok(false);
        }
        let named = self.named(tree, word)?;
        match named.kind {
            PathKind::Folder => Ok(true),
            PathKind::File | PathKind::Unread(_) => Ok(false),
        }
    }
}

impl<'a> NamedFolder<'_, 'a> {
    /// The walk of the folder.
    fn walk<T: Look>(&self, tree: &mut T) -> Result<FolderWalk<'a>, AllocError>
        ensures walks { IfOk result (WalksFolder (T.snapshot tree.old)
            (chosen_in self.now.scope.choices.now) self.now.path.now self.now.word.now) }
        ensures stamps { IfOk result (λ walk. InStamps (T.snapshot tree.old) T.stamps
            (λ stamps. AreStamped stamps walk.walk)) }
        ensures keeps { T.snapshot tree.new ≡ T.snapshot tree.old }
    {
        let start = path_names(self.scope.alloc, self.path)?;
        let walk = Walk::begin(self.scope.alloc, tree, self.scope.choices, &start)?;
        let form = NameForm::new(self.scope.alloc, self.path, self.word)?;
        Ok(FolderWalk {
            alloc: self.scope.alloc,
            walk,
            form,
        })
    }

    /// Visits the files below the folder.
    #[tactic(auto, using(crate::proofs::PrintLemmas::printing, crate::proofs::NotedLemmas::notes_more))]
    pub(crate) fn visit<V: Visitor, T: Look, K: Knowledge, O: Sink, E: Sink>(
        &self,
        visitor: &mut V,
        tree: &mut T,
        known: &mut K,
        out: &mut SinkOutput<'_, O>,
        err: &mut E,
    ) -> Result<(), FreshFault>
        ensures visits { KnowsFor V.Asks (K.Holds known.old) T.stamps (T.snapshot tree.old) visitor.old →
            InTree (T.snapshot tree.old) (λ items. VisitsSome V.Begins V.Visits V.is_done
            (AreFirstBelow items (chosen_in self.now.scope.choices.now) self.now.path.now self.now.word.now)
            (AreFilesBelow items (chosen_in self.now.scope.choices.now) self.now.path.now self.now.word.now)
            visitor.old visitor.new (given out.old) (given out.new) result) }
        ensures same { V.Stays visitor.old visitor.new }
        ensures holds { HoldsAsBefore (K.Holds known.old) (K.Holds known.new) }
        ensures keeps { T.snapshot tree.new ≡ T.snapshot tree.old }
        ensures handed { Keeps O.model O.failed out.old out.new }
        ensures notes { NotesSeen T.stamps (T.snapshot tree.old) (K.noted known.old) (K.noted known.new) }
    {
        visitor.follow();
        // What a walk gives is what a search of the folder lists.
        gives_in_order();
        let mut walk = self.walk(tree)?;
        walk.visit(visitor, tree, known, out, err)
    }
}

impl ScopeWord<'_, '_> {
    /// Visits what the word names. The input is read only once.
    #[tactic(auto, using(crate::proofs::PrintLemmas::printing, crate::proofs::NotedLemmas::notes_more))]
    pub(crate) fn visit<V: Visitor, T: Look, R: Source, K: Knowledge, O: Sink, E: Sink>(
        &self,
        visitor: &mut V,
        tree: &mut T,
        input: &mut R,
        known: &mut K,
        out: &mut SinkOutput<'_, O>,
        err: &mut E,
    ) -> Result<(), FreshFault>
        ensures visits { IfSome (unread self.now.is_read (R.model input.old)) (λ input.
            KnowsFor V.Asks (K.Holds known.old) T.stamps (T.snapshot tree.old) visitor.old →
            InTree (T.snapshot tree.old) (λ items. VisitsSome V.Begins V.Visits V.is_done
            (AreFirstNamed items (chosen_in self.now.scope.choices.now) self.now.scope.folder.now input
            self.now.word.now)
            (AreAnswered V.is_wrong visitor.new
            (AreThere items (chosen_in self.now.scope.choices.now) self.now.scope.folder.now input
            self.now.word.now)
            (AreNamed items (chosen_in self.now.scope.choices.now) self.now.scope.folder.now input
            self.now.word.now))
            visitor.old visitor.new (given out.old) (given out.new) result)) }
        ensures same { V.Stays visitor.old visitor.new }
        ensures holds { HoldsAsBefore (K.Holds known.old) (K.Holds known.new) }
        ensures keeps { T.snapshot tree.new ≡ T.snapshot tree.old }
        ensures left { is_input self.now.word.now ≡ false → R.model input.new ≡ R.model input.old }
        ensures handed { Keeps O.model O.failed out.old out.new }
        ensures notes { NotesSeen T.stamps (T.snapshot tree.old) (K.noted known.old) (K.noted known.new) }
    {
        if is_input(self.word) {
            return visitor.visit_input(self.word, self.is_read, input, out, err);
        }
        self.visit_path(visitor, tree, known, out, err)
    }

    /// Visits what is at the path of the word.
    #[tactic(auto, using(crate::proofs::PrintLemmas::printing, crate::proofs::NotedLemmas::notes_more))]
    fn visit_path<V: Visitor, T: Look, K: Knowledge, O: Sink, E: Sink>(
        &self,
        visitor: &mut V,
        tree: &mut T,
        known: &mut K,
        out: &mut SinkOutput<'_, O>,
        err: &mut E,
    ) -> Result<(), FreshFault>
        ensures visits { KnowsFor V.Asks (K.Holds known.old) T.stamps (T.snapshot tree.old) visitor.old →
            InTree (T.snapshot tree.old) (λ items. VisitsSome V.Begins V.Visits V.is_done
            (AreFirstAtPath items (chosen_in self.now.scope.choices.now) self.now.scope.folder.now
            self.now.word.now)
            (AreAnswered V.is_wrong visitor.new
            (AreThereAt items (chosen_in self.now.scope.choices.now) self.now.scope.folder.now
            self.now.word.now)
            (AreAtPath items (chosen_in self.now.scope.choices.now) self.now.scope.folder.now
            self.now.word.now))
            visitor.old visitor.new (given out.old) (given out.new) result) }
        ensures same { V.Stays visitor.old visitor.new }
        ensures holds { HoldsAsBefore (K.Holds known.old) (K.Holds known.new) }
        ensures keeps { T.snapshot tree.new ≡ T.snapshot tree.old }
        ensures handed { Keeps O.model O.failed out.old out.new }
        ensures notes { NotesSeen T.stamps (T.snapshot tree.old) (K.noted known.old) (K.noted known.new) }
    {
        visitor.follow();
        let named = self.scope.named(tree, self.word)?;
        match named.kind {
            PathKind::Folder => {
                let folder = NamedFolder {
                    scope: self.scope,
                    path: named.path.as_str(),
                    word: self.word,
                };
                folder.visit(visitor, tree, known, out, err)
            }
            PathKind::File => visitor.visit_named(named.path.as_str(), self.word, tree, out, err),
            PathKind::Unread(fault) => visitor.report(self.word, ListFault::Tree(fault), err),
        }
    }
}
