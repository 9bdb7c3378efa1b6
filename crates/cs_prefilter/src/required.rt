// The words of a tree: every matching line contains one of them (`dfamust` in GNU grep, `Analysis`
// in RE2's prefilter).
ghost use Rattle.std.specs.Prelude.{ℕ, ◌≤◌, List, IfOk, OnOk, length};
ghost use Rattle.cs_prefilter.specs.Cited.{MatchesSpan, MatchesSequence, MatchesBranch, tree_of, trees_of, IsLine, HasWordOf, RunEnds, RunsFollow, IsFollowed};

use crate::prefilter::ProbeKind;
use crate::rarity::MOST_SETS;
use crate::runs::Runs;
use crate::words::Words;
use cs_syntax::Node;
use std::alloc::{AllocError, Global};

/// The words that every matching line of the tree contains, the best for this kind of search.
pub(crate) fn required(
    alloc: Global,
    kind: ProbeKind,
    node: &Node,
) -> Result<Option<Words>, AllocError>
    ensures { IfOk result (λ words. (line : List ℕ) (i j : ℕ) → IsLine line → i ≤ length line →
        MatchesSpan line (tree_of node.now) i j → HasWordOf line words) }
{
    best(node, &[], &Runs::new(alloc, kind))
}

/// The best words of the tree, which follows the current run and comes before `after`.
#[cycle(gather)]
fn best(node: &Node, after: &[Node], before: &Runs) -> Result<Option<Words>, AllocError>
    ensures { IfOk result (λ words. (line : List ℕ) (i j : ℕ) → RunEnds before.now line i →
        IsFollowed after.now (λ line. MatchesSpan line (tree_of node.now)) line i j →
        HasWordOf line words) }
{
    let mut runs = before.branch()?;
    gather(node, after, &mut runs)?;
    keep_followed(after, &mut runs)?;
    Ok(runs.best)
}

/// Adds the next part of the sequence, which comes before `after`.
#[cycle(gather)]
fn gather(node: &Node, after: &[Node], runs: &mut Runs) -> Result<(), AllocError>
    ensures { OnOk result (RunsFollow
        (IsFollowed after.now (λ line. MatchesSpan line (tree_of node.now))) runs.old runs.new) }
{
    match node {
        Node::Empty => Ok(()),
        Node::NotWordEdge => Ok(()),
        Node::LineStart => {
            runs.add_line_start();
            Ok(())
        }
        Node::LineEnd => runs.add_line_end(),
        Node::WordEdge => runs.add_word_edge(),
        Node::Set(set) => runs.add(set),
        Node::Chars(set) => runs.add_chars(set),
        Node::Cat(parts) => gather_all(parts, after, runs),
        Node::Alt(branches) => {
            let words = best_of_each(branches, after, runs)?;
            runs.offer(words);
            runs.cut_here()
        }
        Node::Rep(x, least, _) if *least > 0 => {
            runs.begin_repeat();
            let start = runs.sets.len();
            gather(x, &[], runs)?;
            runs.cut(start)
        }
        Node::Rep(..) => runs.cut_here(),
    }
}

#[cycle(gather)]
fn gather_all(parts: &[Node], after: &[Node], runs: &mut Runs) -> Result<(), AllocError>
    ensures { OnOk result (RunsFollow
        (IsFollowed after.now (λ line. MatchesSequence line (trees_of parts.now))) runs.old runs.new) }
{
    for (i, part) in parts.iter().enumerate() {
        let rest = &parts[i + 1..];
        gather(part, if rest.is_empty() { after } else { rest }, runs)?;
    }
    Ok(())
}

/// The best words of all branches, if each branch has some and they are not too many.
#[cycle(gather)]
fn best_of_each(
    branches: &[Node],
    after: &[Node],
    before: &Runs,
) -> Result<Option<Words>, AllocError>
    ensures { IfOk result (λ words. (line : List ℕ) (i j : ℕ) → RunEnds before.now line i →
        IsFollowed after.now (λ line. MatchesBranch line (trees_of branches.now)) line i j →
        HasWordOf line words) }
{
    let mut words = Vec::new(before.alloc);
    let mut share = 0u64;
    for branch in branches {
        let Some(more) = best(branch, after, before)? else {
            return Ok(None);
        };
        if words.len() + more.words.len() > before.kind.most_words() {
            return Ok(None);
        }
        let mut more_words = more.words;
        words.append(&mut more_words)?;
        share = share.saturating_add(more.share);
    }
    Ok(Some(Words { words, share }))
}

/// Keeps the word of the current run and of the sets and assertions that `after` begins with.
fn keep_followed(after: &[Node], runs: &mut Runs) -> Result<(), AllocError>
    ensures { OnOk result ((line : List ℕ) (i j : ℕ) → RunEnds runs.old line i →
        MatchesSequence line (trees_of after.now) i j → HasWordOf line runs.old.best →
        HasWordOf line runs.new.best) }
{
    'nodes: for node in after {
        match node {
            Node::LineEnd => runs.add_line_end()?,
            Node::WordEdge => runs.add_word_edge()?,
            Node::Set(set) if runs.sets.len() < 2 * MOST_SETS => runs.add(set)?,
            _ => break 'nodes,
        }
    }
    runs.keep_run()
}
