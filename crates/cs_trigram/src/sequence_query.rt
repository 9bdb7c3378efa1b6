// The query of a sequence, part by part from the last to the first: a string of each exact run, and
// what the other parts require.
ghost use Rattle.std.specs.Prelude.{◌≡◌, IfOk, OnOk, MatchOption};
ghost use Rattle.std.specs.List.{list_all};
ghost use Rattle.cs_trigram.specs.Cited.{Tree, Trees, none, more, cat, HasFewExactStrings, forward, backward, AreEndStrings, IsExactSetOf, AreExactSetsReversed, cross_size, IsCorrect, IsMatchQuery, AreExactStrings, IsLongestLeadingRun, append, HaveFewExactStrings};

use crate::end_strings::{EndString, cross_product_query};
use crate::exact_set::{
    ExactSet, ExactString, MAX_EXACT, are_longer, cross_product, empty_string, prepended,
};
use crate::queries::{Query, add_conjunct, any_string};
use std::alloc::{AllocError, Global};

/// The query of the last parts of a sequence.
#[derive(Drop)]
pub(crate) struct SequenceQuery {
    /// The exact strings of the longest leading run that has few. They are required once the run
    /// ends.
    leading: Vec<ExactString>,
    /// The other requirements.
    conjuncts: Vec<Query>,
    /// The exact set of each part, that of the first part last.
    parts: Vec<ExactSet>,
}

impl SequenceQuery {
    ghost use Rattle.cs_trigram.specs.SequenceQuery.{IsSequenceQueryOf, IsSequenceQueryWith, ExtendsSequenceQuery, AreExactEnds, BeginRuns, AreSmall, StaysSmall, goes_two_past};

    /// The query of no parts.
    pub(crate) fn new(alloc: Global) -> Result<SequenceQuery, AllocError>
        ensures required { IfOk result (λ sequence_query. IsSequenceQueryOf sequence_query none) }
        ensures parts { IfOk result (λ sequence_query. AreExactSetsReversed sequence_query.parts.items none) }
        ensures small { IfOk result (λ sequence_query.
            AreSmall 0 sequence_query.conjuncts.items none) }
    {
        let leading = empty_string(alloc)?;
        Ok(SequenceQuery {
            leading,
            conjuncts: Vec::new(alloc),
            parts: Vec::new(alloc),
        })
    }

    /// Ends the leading run at a part without a small exact set, which has this query.
    fn cut(&mut self, alloc: Global, match_query: Query) -> Result<(), AllocError>
        ensures parts { OnOk result (self.new.parts ≡ self.old.parts) }
        ensures required { OnOk result ((t : Tree) (ts : Trees) → ¬ HasFewExactStrings t →
            IsCorrect match_query t → ExtendsSequenceQuery self.old self.new t ts) }
        ensures small { OnOk result ((t : Tree) (ts : Trees) → ¬ HasFewExactStrings t →
            IsCorrect match_query t → StaysSmall cross_size self.old self.new t ts) }
    {
        add_conjunct(&mut self.conjuncts, any_string(alloc, &self.leading)?)?;
        add_conjunct(&mut self.conjuncts, match_query)?;
        self.leading = empty_string(alloc)?;
        Ok(())
    }

    /// Prepends a part with these few exact strings.
    fn prepend_few(&mut self, alloc: Global, strings: &[ExactString]) -> Result<(), AllocError>
        ensures parts { OnOk result (self.new.parts ≡ self.old.parts) }
        ensures required { OnOk result ((t : Tree) (ts : Trees) → AreExactStrings strings.now t →
            AreExactSetsReversed self.old.parts.items ts → ExtendsSequenceQuery self.old self.new t ts) }
        ensures small { OnOk result ((t : Tree) (ts : Trees) → AreExactStrings strings.now t →
            StaysSmall cross_size self.old self.new t ts) }
    {
        let longer = cross_product(alloc, strings, &self.leading)?;
        if longer.len() <= MAX_EXACT {
            self.leading = longer;
            return Ok(());
        }
        add_conjunct(&mut self.conjuncts, any_string(alloc, &self.leading)?)?;
        self.leading = longest_leading_run(alloc, strings, &self.parts)?;
        Ok(())
    }

    /// Whether the strings of the leading run have at least two bytes after its first part, which
    /// has this suffix.
    fn extends_past(&self, suffix: &EndString) -> bool
        ensures { result ≡ goes_two_past self.now.leading.items suffix.now }
    {
        suffix.whole && are_longer(&self.leading, suffix.string.bytes().len() + 1)
    }

    /// The same, for each of these suffixes. So the leading run has the trigrams across the end of
    /// its first part.
    fn extend_past_all(&self, suffixes: &[EndString]) -> bool
        ensures { result ≡ list_all (goes_two_past self.now.leading.items) suffixes.now }
    {
        suffixes.iter().all(|suffix| self.extends_past(suffix))
    }

    /// Requires the trigrams across the end of the first part, unless the leading run has them.
    fn add_cross(
        &mut self,
        alloc: Global,
        suffixes: &[EndString],
        prefixes: &[EndString],
    ) -> Result<(), AllocError>
        ensures parts { OnOk result (self.new.parts ≡ self.old.parts) }
        ensures required { OnOk result ((t : Tree) (ts : Trees) → AreEndStrings backward suffixes.now t →
            AreEndStrings forward prefixes.now (cat ts) → AreExactEnds backward suffixes.now t →
            BeginRuns prefixes.now ts →
            IsSequenceQueryWith self.old (more t ts) ts → IsSequenceQueryOf self.new (more t ts)) }
        ensures small { OnOk result ((ts : Trees) →
            AreSmall cross_size self.old.conjuncts.items ts → AreSmall 0 self.new.conjuncts.items ts) }
    {
        if self.extend_past_all(suffixes) {
            return Ok(());
        }
        let cross_query = cross_product_query(alloc, suffixes, prefixes)?;
        add_conjunct(&mut self.conjuncts, cross_query)?;
        Ok(())
    }

    /// Prepends a part with this query, exact set and suffixes. The parts after it have these
    /// prefixes.
    pub(crate) fn add(
        &mut self,
        alloc: Global,
        match_query: Query,
        exact: ExactSet,
        suffixes: &[EndString],
        prefixes: &[EndString],
    ) -> Result<(), AllocError>
        ensures parts { OnOk result ((t : Tree) (ts : Trees) → IsExactSetOf exact t →
            AreExactSetsReversed self.old.parts.items ts →
            AreExactSetsReversed self.new.parts.items (more t ts)) }
        ensures required { OnOk result ((t : Tree) (ts : Trees) → IsExactSetOf exact t →
            IsCorrect match_query t → AreEndStrings backward suffixes.now t →
            AreEndStrings forward prefixes.now (cat ts) → AreExactEnds backward suffixes.now t →
            BeginRuns prefixes.now ts → AreExactSetsReversed self.old.parts.items ts →
            IsSequenceQueryOf self.old ts → IsSequenceQueryOf self.new (more t ts)) }
        ensures small { OnOk result ((t : Tree) (ts : Trees) → IsExactSetOf exact t →
            IsCorrect match_query t → StaysSmall 0 self.old self.new t ts) }
    {
        match exact.few_strings() {
            Some(few) => self.prepend_few(alloc, few)?,
            None => self.cut(alloc, match_query)?,
        }
        self.add_cross(alloc, suffixes, prefixes)?;
        self.parts.push(exact)?;
        Ok(())
    }

    /// The query of the whole sequence.
    pub(crate) fn finish(self, alloc: Global) -> Result<Query, AllocError>
        ensures { IfOk result (λ query.
            (ts : Trees) → IsSequenceQueryOf self ts → AreSmall 0 self.conjuncts.items ts →
            IsMatchQuery query (cat ts)) }
    {
        let mut conjuncts = self.conjuncts;
        let last = any_string(alloc, &self.leading)?;
        add_conjunct(&mut conjuncts, last)?;
        Ok(Query::And(conjuncts))
    }
}

/// The exact strings of a run extended by the part after it, if there are one to twenty.
fn extended_run(
    alloc: Global,
    strings: &[ExactString],
    next: &ExactSet,
) -> Result<Option<Vec<ExactString>>, AllocError>
    ensures { IfOk result (λ found. (run : Trees) (t : Tree) →
        AreExactStrings strings.now (cat run) → IsExactSetOf next.now t →
        MatchOption found (¬ HaveFewExactStrings (append run (more t none)))
        (λ longer. AreExactStrings longer.items (cat (append run (more t none))))) }
{
    let Some(suffixes) = next.few_strings() else {
        return Ok(None);
    };
    let longer = cross_product(alloc, strings, suffixes)?;
    if longer.len() > MAX_EXACT {
        return Ok(None);
    }
    Ok(Some(longer))
}

/// The exact strings of the longest leading run that has one to twenty. The first part of the
/// sequence has the given strings, and `following` has the exact sets of the other parts, that of
/// the second part last.
pub(crate) fn longest_leading_run(
    alloc: Global,
    strings: &[ExactString],
    following: &[ExactSet],
) -> Result<Vec<ExactString>, AllocError>
    ensures { IfOk result (λ leading. (t : Tree) (ts : Trees) → AreExactStrings strings.now t →
        AreExactSetsReversed following.now ts → IsLongestLeadingRun (more t ts) leading.items) }
{
    let mut leading = prepended(alloc, &[], strings)?;
    let mut index = following.len();
    'parts: while index > 0 {
        index -= 1;
        let Some(longer) = extended_run(alloc, &leading, &following[index])? else {
            return Ok(leading);
        };
        leading = longer;
    }
    Ok(leading)
}
