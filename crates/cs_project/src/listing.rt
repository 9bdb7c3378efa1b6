// A listing of the names of items.
ghost use Rattle.std.specs.Prelude.{false};
ghost use Rattle.cs_project.specs.Cited.{BeginsNames, KeepsListing, ListsItems};

use crate::fault::FreshFault;
use crate::knowledge::Knowledge;
use crate::reports::Reports;
use crate::visitor::Visitor;
use crate::walks::{NamedPath, print_name};
use cs_listing::ListFault;
use cs_tree::{Look, Sink, SinkOutput, Source};

/// A listing of names.
#[derive(Drop)]
pub(crate) struct NameListing<'e> {
    /// What ends a name.
    pub(crate) end: &'e [u8],
    pub(crate) reports: Reports,
}

impl Visitor for NameListing<'_> {
    ghost Asks = { λ _ _ _ _. ⊥ };

    ghost is_done = { λ _. false };

    ghost is_wrong = { λ listing. listing.reports.wrong };

    ghost Stays = { KeepsListing };

    ghost Visits = { ListsItems };

    ghost Begins = { λ old _ items given later. BeginsNames old.end.now items given later };

    /// Prints the name, and asks whether the file is known, so that it is learned if not.
    #[tactic(auto, using(crate::proofs::PrintLemmas::printing))]
    fn visit_met<T: Look, K: Knowledge, O: Sink, E: Sink>(
        &mut self,
        file: &NamedPath,
        tree: &mut T,
        known: &mut K,
        out: &mut SinkOutput<'_, O>,
        _err: &mut E,
    ) -> Result<(), FreshFault> {
        let _ = known.skips(file.path.as_str(), file.stamp)?;
        Ok(print_name(file.name.as_str(), self.end, out)?)
    }

    /// Prints the word.
    #[tactic(auto, using(crate::proofs::PrintLemmas::printing))]
    fn visit_named<T: Look, O: Sink, E: Sink>(
        &mut self,
        _path: &str,
        word: &str,
        _tree: &mut T,
        out: &mut SinkOutput<'_, O>,
        _err: &mut E,
    ) -> Result<(), FreshFault> {
        Ok(print_name(word, self.end, out)?)
    }

    /// Prints the word. Nothing is read.
    #[tactic(auto, using(crate::proofs::PrintLemmas::printing))]
    fn visit_input<R: Source, O: Sink, E: Sink>(
        &mut self,
        word: &str,
        _is_read: bool,
        _input: &mut R,
        out: &mut SinkOutput<'_, O>,
        _err: &mut E,
    ) -> Result<(), FreshFault> {
        print_name(word, self.end, out)?;
        Ok(())
    }

    fn report<E: Sink>(
        &mut self,
        name: &str,
        fault: ListFault,
        err: &mut E,
    ) -> Result<(), FreshFault> {
        self.reports.unlisted(name, fault, err)
    }

    fn is_done(&self) -> bool {
        false
    }

    fn follow(&self) {}
}
