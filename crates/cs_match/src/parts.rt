// The parts of a program: its tree without the sets. A run of positions is one part, and so is an
// alternation of runs, such as `if|for|while`: it is entered and left by masks of its first and
// last positions, as in Shift-And (Baeza-Yates, Gonnet).
ghost use Rattle.std.specs.Prelude.{◌≡◌, ◌+◌, ◌<◌, ◌≤◌, ◌^◌, IfOk, IfSome, false};
ghost use Rattle.cs_match.specs.Cited.{Trees, cat, alt, more, append, tree_of, trees_of, position_count, position_count_of, runs, shape_of, shapes_of, size_of, sizes_of, HaveSameShape, nodes, nodes_of, firsts_of, lasts_of};

use crate::position_set::PositionSet;
use cs_syntax::Node;
use std::alloc::{AllocError, Global};
use std::marker::Model;

/// A part of a program.
#[derive(Drop)]
pub(crate) enum Fragment {
    /// A sequence of sets, by the number of its positions.
    Run(usize),
    /// An alternation of such sequences.
    Alternation(Sequences),
    /// Such sequences or nothing, one after another: the positions of one, and their number.
    Options(usize, usize),
    Cat(Vec<Fragment>),
    Alt(Vec<Fragment>),
    /// A loop of at least so many iterations.
    Rep(Box<Fragment>, u32),
    LineStart,
    LineEnd,
    WordEdge,
    NotWordEdge,
}

/// Sequences of positions. Contracts see how many positions each has after its first.
#[derive(Drop)]
pub(crate) struct Sequences {
    following: Vec<usize>,
    /// The first position of each sequence.
    firsts: PositionSet,
    /// The last position of each sequence.
    lasts: PositionSet,
}

impl Model for Sequences {
    ghost use Rattle.std.specs.Prelude.{ℕ, List, ◌≡◌};
    ghost use Rattle.cs_match.specs.Sequences.{firsts_of, lasts_of};

    ghost Value = { List ℕ };

    ghost view = { λ sequences. sequences.following.items };

    ghost invariant = { λ sequences. (sequences.firsts ≡ firsts_of sequences.following.items)
        × (sequences.lasts ≡ lasts_of sequences.following.items) };
}

impl Sequences {
    /// The sequences with so many positions after the first of each.
    pub(crate) fn new(alloc: Global, following: Vec<usize>) -> Result<Sequences, AllocError>
        ensures { IfOk result (λ sequences. sequences ≡ following.items) }
    {
        let mut firsts = Vec::new(alloc);
        let mut lasts = Vec::new(alloc);
        for n in following.iter() {
            firsts.push(true)?;
            for k in 0..*n {
                firsts.push(false)?;
                lasts.push(false)?;
            }
            lasts.push(true)?;
        }
        Ok(Sequences {
            firsts: PositionSet::of(alloc, &firsts)?,
            lasts: PositionSet::of(alloc, &lasts)?,
            following,
        })
    }

    pub(crate) fn firsts(&self) -> &PositionSet
        ensures { result.now ≡ firsts_of self.now }
    {
        &self.firsts
    }

    pub(crate) fn lasts(&self) -> &PositionSet
        ensures { result.now ≡ lasts_of self.now }
    {
        &self.lasts
    }
}

/// The parts of an expanded tree.
#[cycle(part_of)]
pub(crate) fn part_of(alloc: Global, node: &Node) -> Result<Fragment, AllocError>
    requires { position_count (tree_of node.now) < 2 ^ 64 }
    ensures shape { IfOk result (λ part. HaveSameShape (tree_of node.now) (shape_of part)) }
    ensures size { IfOk result (λ part. size_of part ≤ nodes (tree_of node.now)) }
{
    match node {
        Node::Empty => Ok(Fragment::Run(0)),
        Node::Set(_) => Ok(Fragment::Run(1)),
        Node::Chars(_) => Ok(Fragment::Run(2)),
        Node::Cat(parts) => sequence_of(alloc, parts),
        Node::Alt(parts) => alternation_of(alloc, parts),
        Node::Rep(x, least, _) => Ok(Fragment::Rep(Box::new(alloc, part_of(alloc, x)?)?, *least)),
        Node::LineStart => Ok(Fragment::LineStart),
        Node::LineEnd => Ok(Fragment::LineEnd),
        Node::WordEdge => Ok(Fragment::WordEdge),
        Node::NotWordEdge => Ok(Fragment::NotWordEdge),
    }
}

/// The parts of a concatenation. If they are one part, it is that part.
#[cycle(part_of)]
fn sequence_of(alloc: Global, nodes: &[Node]) -> Result<Fragment, AllocError>
    requires { position_count_of (trees_of nodes.now) < 2 ^ 64 }
    ensures shape { IfOk result (λ part. HaveSameShape (cat (trees_of nodes.now)) (shape_of part)) }
    ensures size { IfOk result (λ part. size_of part ≤ 1 + nodes_of (trees_of nodes.now)) }
{
    let [first, others @ ..] = nodes else {
        return Ok(Fragment::Run(0));
    };
    let mut parts = Vec::new(alloc);
    let mut last = part_of(alloc, first)?;
    for node in others {
        let part = part_of(alloc, node)?;
        last = add_part(&mut parts, last, part)?;
    }
    if parts.is_empty() {
        return Ok(last);
    }
    parts.push(last)?;
    Ok(Fragment::Cat(parts))
}

/// Adds a part after the last one, which is not in the list yet, and returns the new last one. Runs
/// are one part, and so are options of one length.
fn add_part(
    parts: &mut Vec<Fragment>,
    last: Fragment,
    part: Fragment,
) -> Result<Fragment, AllocError>
    requires { position_count (shape_of last) + position_count (shape_of part) < 2 ^ 64 }
    ensures shape { IfOk result (λ new_last. (ts : Trees) → HaveSameShape (cat (append (shapes_of
        parts.old.items) (more (shape_of last) (more (shape_of part) ts)))) (cat (append (shapes_of
        parts.new.items) (more (shape_of new_last) ts)))) }
    ensures size { IfOk result (λ new_last. sizes_of parts.new.items + size_of new_last
        ≤ sizes_of parts.old.items + (size_of last + size_of part)) }
{
    match (last, part) {
        (Fragment::Run(n), Fragment::Run(m)) => Ok(Fragment::Run(n + m)),
        (Fragment::Options(n, count), Fragment::Options(m, more)) if n == m && n > 0 => {
            Ok(Fragment::Options(n, count + more))
        }
        (last, part) => {
            parts.push(last)?;
            Ok(part)
        }
    }
}

#[cycle(part_of)]
fn alternation_of(alloc: Global, nodes: &[Node]) -> Result<Fragment, AllocError>
    requires { position_count_of (trees_of nodes.now) < 2 ^ 64 }
    ensures shape { IfOk result (λ part. HaveSameShape (alt (trees_of nodes.now)) (shape_of part)) }
    ensures size { IfOk result (λ part. size_of part ≤ 1 + nodes_of (trees_of nodes.now)) }
{
    let mut parts = Vec::new(alloc);
    for node in nodes {
        let part = part_of(alloc, node)?;
        parts.push(part)?;
    }
    match runs_of(alloc, &parts)? {
        Some(following) => Ok(Fragment::Alternation(Sequences::new(alloc, following)?)),
        None => Ok(alternation(parts)),
    }
}

/// The alternation of the parts. If they are a run and the empty run, it is an option.
#[tactic(auto, using(crate::proofs::PartLemmas::part_rules, crate::proofs::PartLemmas::size_rules))]
fn alternation(parts: Vec<Fragment>) -> Fragment
    ensures shape { HaveSameShape (alt (shapes_of parts.items)) (shape_of result) }
    ensures size { size_of result ≤ 1 + sizes_of parts.items }
{
    match &parts[..] {
        [Fragment::Run(n), Fragment::Run(0)] => Fragment::Options(*n, 1),
        _ => Fragment::Alt(parts),
    }
}

/// How many positions each part has after its first, if all are runs with positions.
fn runs_of(alloc: Global, parts: &[Fragment]) -> Result<Option<Vec<usize>>, AllocError>
    ensures { IfOk result (λ all. IfSome all (λ following. shapes_of parts.now ≡ runs following.items)) }
{
    let mut following = Vec::new(alloc);
    for part in parts {
        match part {
            Fragment::Run(n) if *n > 0 => following.push(*n - 1)?,
            _ => return Ok(None),
        }
    }
    Ok(Some(following))
}
