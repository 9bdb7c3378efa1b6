// The files below a folder, one after another.
ghost use Rattle.std.specs.Prelude.{◌≡◌, ◌<◌, ◌++◌, ◌∷◌, ℕ, List, [], false, string_bytes, IfSome, IsSome, IfOk, OnOk};
ghost use Rattle.cs_project.specs.Cited.{Begins, Keeps, given, InTree, AreStamped, InStamps, IsWalkIn, walk_weight, HoldsAsBefore, AreFirstLeft, AreLeft, GivesFile, GivesStampedFile, KnowsFor, VisitsSome, NotesSeen};

use crate::fault::FreshFault;
use crate::knowledge::Knowledge;
use crate::names::NameForm;
use crate::visitor::Visitor;
use cs_listing::{Found, Walk};
use cs_tree::{Look, Sink, SinkOutput, Stamp};
use std::alloc::{AllocError, Global};

/// A file: its path, its stamp, and the name that it is printed with.
#[derive(Drop)]
pub(crate) struct NamedPath {
    pub(crate) path: String,
    pub(crate) stamp: Option<Stamp>,
    pub(crate) name: String,
}

/// A walk of a folder, and how its files are named.
#[derive(Drop)]
pub(crate) struct FolderWalk<'a> {
    pub(crate) alloc: Global,
    pub(crate) walk: Walk<'a>,
    pub(crate) form: NameForm,
}

impl FolderWalk<'_> {
    /// The next file. What cannot be read is reported.
    fn next<V: Visitor, T: Look, E: Sink>(
        &mut self,
        visitor: &mut V,
        tree: &mut T,
        err: &mut E,
    ) -> Result<Option<NamedPath>, FreshFault>
        ensures gives { IfOk result (λ next. InTree (T.snapshot tree.old)
            (λ items. IsWalkIn items self.old.walk → GivesFile items self.old self.new next)) }
        ensures stamps { IfOk result (λ next. InStamps (T.snapshot tree.old) T.stamps
            (λ stamps. AreStamped stamps self.old.walk → GivesStampedFile stamps self.new next)) }
        ensures nearer { IfOk result (λ next. IsSome next →
            walk_weight self.new.walk < walk_weight self.old.walk) }
        ensures form { self.new.form ≡ self.old.form }
        ensures visits { (bytes : List ℕ) → V.Begins visitor.old visitor.new [] bytes bytes
            × V.Visits visitor.old visitor.new [] bytes bytes }
        ensures same { V.Stays visitor.old visitor.new }
        ensures keeps { T.snapshot tree.new ≡ T.snapshot tree.old }
    {
        visitor.follow();
        'unread: while let Some(found) = self.walk.next(tree)? {
            match found {
                Found::File(file) => {
                    let name = self.form.name(self.alloc, file.path.as_str())?;
                    return Ok(Some(NamedPath {
                        path: file.path,
                        stamp: file.stamp,
                        name,
                    }));
                }
                Found::Unread(unread) => {
                    let name = self.form.error_name(self.alloc, unread.path.as_str())?;
                    visitor.report(name.as_str(), unread.fault, err)?;
                }
            }
        }
        Ok(None)
    }

    /// Visits the files that are left to the walk, in the order of their paths.
    #[tactic(auto, using(crate::proofs::PrintLemmas::printing, crate::proofs::NotedLemmas::notes_more))]
    pub(crate) fn visit<V: Visitor, T: Look, K: Knowledge, O: Sink, E: Sink>(
        &mut self,
        visitor: &mut V,
        tree: &mut T,
        known: &mut K,
        out: &mut SinkOutput<'_, O>,
        err: &mut E,
    ) -> Result<(), FreshFault>
        requires { InStamps (T.snapshot tree.old) T.stamps (λ stamps. AreStamped stamps self.old.walk) }
        ensures visits { KnowsFor V.Asks (K.Holds known.old) T.stamps (T.snapshot tree.old) visitor.old →
            InTree (T.snapshot tree.old) (λ items. IsWalkIn items self.old.walk →
            VisitsSome V.Begins V.Visits V.is_done (AreFirstLeft items self.old) (AreLeft items self.old)
            visitor.old visitor.new (given out.old) (given out.new) result) }
        ensures same { V.Stays visitor.old visitor.new }
        ensures holds { HoldsAsBefore (K.Holds known.old) (K.Holds known.new) }
        ensures keeps { T.snapshot tree.new ≡ T.snapshot tree.old }
        ensures handed { Keeps O.model O.failed out.old out.new }
        ensures notes { NotesSeen T.stamps (T.snapshot tree.old) (K.noted known.old) (K.noted known.new) }
    {
        visitor.follow();
        'files: while let Some(file) = self.next(visitor, tree, err)? {
            visitor.visit_met(&file, tree, known, out, err)?;
            if visitor.is_done() {
                return Ok(());
            }
        }
        Ok(())
    }
}

/// Prints a name, and what ends it.
#[tactic(auto, using(crate::proofs::PrintLemmas::printing))]
pub(crate) fn print_name<O: Sink>(
    name: &str,
    end: &[u8],
    out: &mut SinkOutput<'_, O>,
) -> Result<(), AllocError>
    ensures printed { OnOk result (given out.new ≡ given out.old ++ (name.now ++ end.now)) }
    ensures begins { Begins (given out.new) (given out.old ++ (name.now ++ end.now)) }
    ensures handed { Keeps O.model O.failed out.old out.new }
{
    out.print(name.as_bytes());
    out.print(end);
    out.check()
}
