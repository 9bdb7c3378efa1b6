// The query of a pattern, computed bottom-up in one pass over its tree (`analyze` in Go's
// codesearch; Cox, "Regular Expression Matching with a Trigram Index"). The result for a tree is
// `regexpInfo` in Go; those of the last parts of a sequence and of the last branches of an
// alternation grow part by part from the last to the first (`concat` and `alternate`).
ghost use Rattle.std.specs.Prelude.{◌≡◌, ◌<◌, ℕ, true, IfOk, Bool, OnOk, Option, map, reverse};
ghost use Rattle.cs_trigram.specs.Cited.{trigram_count, cat, alt, Tree, rep, Trees, none, more, tree_of, trees_of, LosesNoLine, IsSmall, mentions, HasFewExactStrings, RequiresExactString, IsSelective, HasRunsWithin, MentionsTrigramsOf, IsInfoOf, IsSequence, IsAlternation, IsExactSetOf, forward, backward, whole_ends, AreEndStrings, AreExactStrings, IsCorrect, IsMatchQuery};

use crate::end_strings::{
    EndString, add_end_strings, bare_end_string, concatenate_end_strings, end_strings_of,
    end_strings_of_repeat,
};
use crate::exact_set::{
    ExactSet, ExactString, empty_string, reversed, strings_of_chars, strings_of_repeat,
    strings_of_set,
};
use crate::queries::{Query, any_string};
use crate::sequence_query::SequenceQuery;
use cs_syntax::{Node, Pattern};
use std::alloc::{AllocError, Global};

/// The prefixes, the suffixes and the query of a tree with few exact strings.
#[derive(Drop)]
struct StringsInfo {
    prefix: Vec<EndString>,
    suffix: Vec<EndString>,
    query: Query,
}

impl StringsInfo {
    /// The analysis of a tree with these exact strings.
    fn new(alloc: Global, strings: &[ExactString]) -> Result<StringsInfo, AllocError>
        ensures prefix { IfOk result (λ info. info.prefix.items ≡ whole_ends strings.now) }
        ensures suffix { IfOk result (λ info.
            info.suffix.items ≡ whole_ends (map reverse strings.now)) }
        ensures query { IfOk result (λ info. (t : Tree) → AreExactStrings strings.now t →
            IsCorrect info.query t × RequiresExactString info.query t) }
    {
        let prefix = end_strings_of(alloc, strings)?;
        let suffix = end_strings_of(alloc, &reversed(alloc, strings)?)?;
        let query = any_string(alloc, strings)?;
        Ok(StringsInfo {
            prefix,
            suffix,
            query,
        })
    }
}

/// The result of the analysis of a tree.
#[derive(Drop)]
pub(crate) struct RegexpInfo {
    pub(crate) exact: ExactSet,
    /// The prefixes of its matches.
    pub(crate) prefix: Vec<EndString>,
    /// The suffixes of its matches, reversed.
    pub(crate) suffix: Vec<EndString>,
    /// The query of the tree (`match` in Go's codesearch).
    pub(crate) query: Query,
}

impl RegexpInfo {
    /// The analysis of a tree with this exact set. The prefixes, the suffixes and the query are
    /// those of the exact strings if the set is small, otherwise the given ones.
    pub(crate) fn new(
        alloc: Global,
        exact: ExactSet,
        prefix: Vec<EndString>,
        suffix: Vec<EndString>,
        query: Query,
    ) -> Result<RegexpInfo, AllocError>
        ensures { IfOk result (λ info. (t : Tree) → IsExactSetOf exact t →
            AreEndStrings forward prefix.items t → AreEndStrings backward suffix.items t →
            IsMatchQuery query t → IsInfoOf info t) }
    {
        let Some(few) = exact.few_strings() else {
            return Ok(RegexpInfo {
                exact,
                prefix,
                suffix,
                query,
            });
        };
        let info = StringsInfo::new(alloc, few)?;
        Ok(RegexpInfo {
            exact,
            prefix: info.prefix,
            suffix: info.suffix,
            query: info.query,
        })
    }

    /// The analysis of a leaf with this exact set, which has no runs within it.
    pub(crate) fn of_leaf(alloc: Global, exact: ExactSet) -> Result<RegexpInfo, AllocError>
        ensures { IfOk result (λ info. (t : Tree) → IsExactSetOf exact t →
            ((set : ℕ → Bool) → HasRunsWithin set t) → IsInfoOf info t) }
    {
        let prefix = bare_end_string(alloc, false)?;
        let suffix = bare_end_string(alloc, false)?;
        RegexpInfo::new(alloc, exact, prefix, suffix, Query::All)
    }

    /// The analysis of a repeat of a tree.
    pub(crate) fn of_repeat(
        alloc: Global,
        once: RegexpInfo,
        least: u32,
        most: Option<u32>,
    ) -> Result<RegexpInfo, AllocError>
        ensures { IfOk result (λ info. (t : Tree) → IsInfoOf once t → IsInfoOf info (rep t least most)) }
    {
        let exact = strings_of_repeat(alloc, &once.exact, least, most)?;
        let prefix = end_strings_of_repeat(alloc, &once.prefix, least)?;
        let suffix = end_strings_of_repeat(alloc, &once.suffix, least)?;
        let query = query_of_repeat(once.query, least);
        RegexpInfo::new(alloc, exact, prefix, suffix, query)
    }
}

/// The analysis of the last parts of a sequence.
#[derive(Drop)]
pub(crate) struct SequenceInfo {
    exact: ExactSet,
    prefix: Vec<EndString>,
    suffix: Vec<EndString>,
    sequence_query: SequenceQuery,
}

impl SequenceInfo {
    /// The analysis of no parts.
    pub(crate) fn new(alloc: Global) -> Result<SequenceInfo, AllocError>
        ensures { IfOk result (λ sequence. IsSequence sequence none) }
    {
        let exact = ExactSet::of(empty_string(alloc)?);
        let prefix = bare_end_string(alloc, true)?;
        let suffix = bare_end_string(alloc, true)?;
        let sequence_query = SequenceQuery::new(alloc)?;
        Ok(SequenceInfo {
            exact,
            prefix,
            suffix,
            sequence_query,
        })
    }

    /// Prepends a part.
    pub(crate) fn add(&mut self, alloc: Global, part: RegexpInfo) -> Result<(), AllocError>
        ensures { OnOk result ((t : Tree) (ts : Trees) → IsInfoOf part t → IsSequence self.old ts →
            IsSequence self.new (more t ts)) }
    {
        self.exact = part.exact.concatenate(alloc, &self.exact)?;
        self.sequence_query
            .add(alloc, part.query, part.exact, &part.suffix, &self.prefix)?;
        self.prefix = concatenate_end_strings(alloc, &part.prefix, &self.prefix)?;
        self.suffix = concatenate_end_strings(alloc, &self.suffix, &part.suffix)?;
        Ok(())
    }

    /// The analysis of the whole sequence.
    pub(crate) fn finish(self, alloc: Global) -> Result<RegexpInfo, AllocError>
        ensures { IfOk result (λ info. (ts : Trees) → IsSequence self ts →
            IsInfoOf info (cat ts)) }
    {
        let query = self.sequence_query.finish(alloc)?;
        RegexpInfo::new(alloc, self.exact, self.prefix, self.suffix, query)
    }
}

/// The analysis of some branches of an alternation.
#[derive(Drop)]
pub(crate) struct AlternationInfo {
    exact: ExactSet,
    prefix: Vec<EndString>,
    suffix: Vec<EndString>,
    /// The queries of the branches.
    members: Vec<Query>,
}

impl AlternationInfo {
    /// The analysis of no branches.
    pub(crate) fn new(alloc: Global) -> AlternationInfo
        ensures { IsAlternation result none }
    {
        AlternationInfo {
            exact: ExactSet::Strings(Vec::new(alloc)),
            prefix: Vec::new(alloc),
            suffix: Vec::new(alloc),
            members: Vec::new(alloc),
        }
    }

    /// Prepends a branch.
    pub(crate) fn add(&mut self, alloc: Global, branch: RegexpInfo) -> Result<(), AllocError>
        ensures { OnOk result ((t : Tree) (ts : Trees) → IsInfoOf branch t → IsAlternation self.old ts →
            IsAlternation self.new (more t ts)) }
    {
        self.exact = branch.exact.union(alloc, &self.exact)?;
        add_end_strings(alloc, &mut self.prefix, branch.prefix)?;
        add_end_strings(alloc, &mut self.suffix, branch.suffix)?;
        self.members.push(branch.query)?;
        Ok(())
    }

    /// The analysis of the whole alternation.
    pub(crate) fn finish(self, alloc: Global) -> Result<RegexpInfo, AllocError>
        ensures { IfOk result (λ info. (ts : Trees) → IsAlternation self ts → IsInfoOf info (alt ts)) }
    {
        let query = Query::Or(self.members);
        RegexpInfo::new(alloc, self.exact, self.prefix, self.suffix, query)
    }
}

/// The trigram query of a pattern. It matches the trigrams of each text that has a matching line,
/// so that a search that skips the other texts loses no line.
///
/// For each run of neighbouring parts that has one to twenty exact strings, it requires at least
/// the trigrams of one of these strings: for `(ab|cd)ef` the trigrams `abe` and `bef`, or `cde` and
/// `def`. It also requires the trigrams across a part with at most twenty exact strings and a run
/// after it with at most ten: for `(ab|cd|ef|gh|ij|kl)(mn|op|qr|st|uv)` the trigrams `abm` and
/// `bmn`, or `abo` and `bop`, and so on. If the whole pattern has one to twenty exact strings, the
/// query requires the trigrams of one of them, and nothing else.
///
/// The query mentions only trigrams of texts that the pattern may match, if each set in it has a
/// member and each alternation a branch. It has at most 3000 nodes for each unit of the weight of
/// the pattern.
///
/// # Errors
///
/// `AllocError` if an allocation fails.
pub fn query(alloc: Global, pattern: &Pattern) -> Result<Query, AllocError>
    ensures sound { IfOk result (λ query. LosesNoLine query pattern.now) }
    ensures selective { IfOk result (λ query. IsSelective query pattern.now) }
    ensures exact { IfOk result (λ query.
        HasFewExactStrings pattern.now → RequiresExactString query pattern.now) }
    ensures mentioned { IfOk result (λ query. MentionsTrigramsOf query pattern.now) }
    ensures small { IfOk result (λ query. IsSmall query pattern.now) }
    ensures numbers { IfOk result (λ query. (g : ℕ) → mentions query g ≡ true → g < trigram_count) }
{
    Ok(analyze(alloc, pattern.tree())?.query)
}

#[cycle(query)]
fn analyze(alloc: Global, node: &Node) -> Result<RegexpInfo, AllocError>
    ensures { IfOk result (λ info. IsInfoOf info (tree_of node.now)) }
{
    match node {
        Node::Cat(parts) => analyze_sequence(alloc, parts),
        Node::Alt(parts) => analyze_alternation(alloc, parts),
        Node::Rep(x, least, most) => {
            RegexpInfo::of_repeat(alloc, analyze(alloc, x)?, *least, *most)
        },
        Node::Set(set) => RegexpInfo::of_leaf(alloc, ExactSet::of(strings_of_set(alloc, set)?)),
        Node::Chars(set) => RegexpInfo::of_leaf(alloc, ExactSet::of(strings_of_chars(alloc, set)?)),
        Node::Empty | Node::LineStart | Node::LineEnd | Node::WordEdge | Node::NotWordEdge => {
            RegexpInfo::of_leaf(alloc, ExactSet::of(empty_string(alloc)?))
        }
    }
}

#[cycle(query)]
fn analyze_sequence(alloc: Global, parts: &[Node]) -> Result<RegexpInfo, AllocError>
    ensures { IfOk result (λ info. IsInfoOf info (cat (trees_of parts.now))) }
{
    let mut sequence = SequenceInfo::new(alloc)?;
    let mut index = parts.len();
    'parts: while index > 0 {
        index -= 1;
        sequence.add(alloc, analyze(alloc, &parts[index])?)?;
    }
    sequence.finish(alloc)
}

#[cycle(query)]
fn analyze_alternation(alloc: Global, parts: &[Node]) -> Result<RegexpInfo, AllocError>
    ensures { IfOk result (λ info. IsInfoOf info (alt (trees_of parts.now))) }
{
    let mut alternation = AlternationInfo::new(alloc);
    let mut index = parts.len();
    'parts: while index > 0 {
        index -= 1;
        alternation.add(alloc, analyze(alloc, &parts[index])?)?;
    }
    alternation.finish(alloc)
}

/// The query of at least `least` iterations, each of which has the given query.
fn query_of_repeat(once: Query, least: u32) -> Query
    ensures { (t : Tree) (most : Option ℕ) → IsCorrect once t → IsMatchQuery result (rep t least most) }
{
    if least == 0 {
        return Query::All;
    }
    once
}
