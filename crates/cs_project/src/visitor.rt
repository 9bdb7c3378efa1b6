// What is done with the items of a scope, one after another.
ghost use Rattle.std.specs.Prelude.{◌≡◌, ℕ, Bool, List, [], true, string_bytes, IfSome};
ghost use Rattle.cs_listing.specs.Listing.{TreeItems};
ghost use Rattle.cs_listing.specs.Stamps.{InStamps, Stamps};
ghost use Rattle.cs_project.specs.Cited.{Keeps, given, InTree, HoldsAsBefore, NotesSeen, unread, Follows, KnowsFor, VisitsOne, met_item};
ghost use Rattle.cs_project.specs.Knowledge.{SearchedTree};
ghost use Rattle.cs_project.specs.Searched.{NamedItem};

use crate::fault::FreshFault;
use crate::knowledge::Knowledge;
use crate::walks::NamedPath;
use cs_listing::ListFault;
use cs_tree::{Look, Sink, SinkOutput, Source};

/// What is done with the items of a scope, one after another.
pub trait Visitor {
    /// The searches that what is known of files has to hold for.
    ghost Asks: { Self → TreeItems → Stamps → SearchedTree → Type 0 };

    /// The visits end here.
    ghost is_done: { Self → Bool };

    /// An error was reported.
    ghost is_wrong: { Self → Bool };

    /// What a visit preserves.
    ghost Stays: { Self → Self → Type 0 };

    /// The items were visited: what is printed for them was printed.
    ghost Visits: { Self → Self → List NamedItem → List ℕ → List ℕ → Type 0 };

    /// What was printed begins what is printed for the items, also after an error.
    ghost Begins: { Self → Self → List NamedItem → List ℕ → List ℕ → Type 0 };

    /// Visits a file that a walk met.
    fn visit_met<T: Look, K: Knowledge, O: Sink, E: Sink>(
        &mut self,
        file: &NamedPath,
        tree: &mut T,
        known: &mut K,
        out: &mut SinkOutput<'_, O>,
        err: &mut E,
    ) -> Result<(), FreshFault>
        requires { InStamps (T.snapshot tree.old) T.stamps
            (λ stamps. file.now.stamp ≡ stamps (string_bytes file.now.path)) }
        ensures visits { KnowsFor Asks (K.Holds known.old) T.stamps (T.snapshot tree.old) self.old →
            InTree (T.snapshot tree.old) (λ items. VisitsOne Begins Visits self.old self.new
            (met_item items file.now) (given out.old) (given out.new) result) }
        ensures same { Stays self.old self.new }
        ensures holds { HoldsAsBefore (K.Holds known.old) (K.Holds known.new) }
        ensures keeps { T.snapshot tree.new ≡ T.snapshot tree.old }
        ensures handed { Keeps O.model O.failed out.old out.new }
        ensures notes { NotesSeen T.stamps (T.snapshot tree.old) (K.noted known.old) (K.noted known.new) };

    /// Visits the file that a word names.
    fn visit_named<T: Look, O: Sink, E: Sink>(
        &mut self,
        path: &str,
        word: &str,
        tree: &mut T,
        out: &mut SinkOutput<'_, O>,
        err: &mut E,
    ) -> Result<(), FreshFault>
        ensures visits { InTree (T.snapshot tree.old) (λ items. VisitsOne Begins Visits self.old
            self.new (word.now, items path.now, true) (given out.old) (given out.new) result) }
        ensures same { Stays self.old self.new }
        ensures keeps { T.snapshot tree.new ≡ T.snapshot tree.old }
        ensures handed { Keeps O.model O.failed out.old out.new };

    /// Visits the standard input, which a word names. It has no bytes if it was read.
    fn visit_input<R: Source, O: Sink, E: Sink>(
        &mut self,
        word: &str,
        is_read: bool,
        input: &mut R,
        out: &mut SinkOutput<'_, O>,
        err: &mut E,
    ) -> Result<(), FreshFault>
        ensures visits { IfSome (unread is_read (R.model input.old)) (λ input. VisitsOne Begins Visits
            self.old self.new (word.now, input, true) (given out.old) (given out.new) result) }
        ensures same { Stays self.old self.new }
        ensures handed { Keeps O.model O.failed out.old out.new };

    /// Reports what could not be read: a word, or what a walk came to.
    fn report<E: Sink>(
        &mut self,
        name: &str,
        fault: ListFault,
        err: &mut E,
    ) -> Result<(), FreshFault>
        ensures visits { (bytes : List ℕ) → Begins self.old self.new [] bytes bytes
            × Visits self.old self.new [] bytes bytes }
        ensures wrong { is_wrong self.new ≡ true }
        ensures same { Stays self.old self.new };

    /// Whether the visits end here.
    fn is_done(&self) -> bool
        ensures { result ≡ is_done self.now };

    /// Visits that follow visits. Does nothing when it runs.
    fn follow(&self)
        ensures { Follows Asks is_wrong Stays Begins Visits };
}
