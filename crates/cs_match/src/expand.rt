// Expansion of counted repeats, and of alternations of single bytes to sets (RE2's simplification).
ghost use Rattle.std.specs.Prelude.{◌≡◌, IfOk, OnOk, if◌then◌else◌};
ghost use Rattle.cs_match.specs.Cited.{tree_of, trees_of, expansion, expansions, with_copies, optional, repeat_expansion, union_of, alternation};

use cs_syntax::{ByteSet, Node};
use std::alloc::{AllocError, Global};

/// The expansion of the tree: repeats become copies, and alternations of sets of bytes one set.
#[cycle(expand)]
pub(crate) fn expand(alloc: Global, node: &Node) -> Result<Node, AllocError>
    ensures { IfOk result (λ n. tree_of n ≡ expansion (tree_of node.now)) }
{
    match node {
        Node::Empty => Ok(Node::Empty),
        Node::Set(set) => Ok(Node::Set(*set)),
        Node::Chars(set) => Ok(Node::Chars(set.copy(alloc)?)),
        Node::Cat(parts) => Ok(Node::Cat(expand_all(alloc, parts)?)),
        Node::Alt(parts) => Ok(alternation(expand_all(alloc, parts)?)),
        Node::Rep(x, least, most) => expand_repeat(alloc, x, *least, *most),
        Node::LineStart => Ok(Node::LineStart),
        Node::LineEnd => Ok(Node::LineEnd),
        Node::WordEdge => Ok(Node::WordEdge),
        Node::NotWordEdge => Ok(Node::NotWordEdge),
    }
}

/// Expands a repeat to copies, followed by a loop or by optional copies.
#[cycle(expand)]
fn expand_repeat(
    alloc: Global,
    node: &Node,
    least: u32,
    most: Option<u32>,
) -> Result<Node, AllocError>
    ensures { IfOk result (λ n. tree_of n ≡ repeat_expansion (expansion (tree_of node.now)) least most) }
{
    let mut parts = Vec::new(alloc);
    match most {
        None => {
            let body = Box::new(alloc, expand(alloc, node)?)?;
            if least == 0 {
                return Ok(Node::Rep(body, 0, None));
            }
            add_copies(alloc, node, least - 1, false, &mut parts)?;
            parts.push(Node::Rep(body, 1, None))?;
            Ok(Node::Cat(parts))
        }
        Some(most) => {
            if least > most {
                return Ok(Node::Alt(parts));
            }
            add_copies(alloc, node, least, false, &mut parts)?;
            add_copies(alloc, node, most - least, true, &mut parts)?;
            Ok(Node::Cat(parts))
        }
    }
}

#[cycle(expand)]
fn expand_all(alloc: Global, parts: &[Node]) -> Result<Vec<Node>, AllocError>
    ensures { IfOk result (λ v. trees_of v.items ≡ expansions (trees_of parts.now)) }
{
    let mut all = Vec::new(alloc);
    for part in parts {
        let written = expand(alloc, part)?;
        all.push(written)?;
    }
    Ok(all)
}

/// The alternation of the branches. If all are sets of bytes, it is their union.
fn alternation(branches: Vec<Node>) -> Node
    ensures { tree_of result ≡ alternation (trees_of branches.items) }
{
    match union_of(&branches) {
        Some(set) => Node::Set(set),
        None => Node::Alt(branches),
    }
}

/// The union of the nodes, if all are sets of bytes and there is one.
fn union_of(nodes: &[Node]) -> Option<ByteSet>
    ensures { result ≡ union_of (trees_of nodes.now) }
{
    let [Node::Set(first), others @ ..] = nodes else {
        return None;
    };
    let mut union = *first;
    for node in others {
        match node {
            Node::Set(set) => union = union.union(set),
            _ => return None,
        }
    }
    Some(union)
}

/// Adds so many copies of the expansion. Each of them, or nothing, if they are optional.
#[cycle(expand)]
#[tactic(auto, using(cs_syntax::proofs::TreeListLemmas::append_none))]
fn add_copies(
    alloc: Global,
    node: &Node,
    count: u32,
    are_optional: bool,
    parts: &mut Vec<Node>,
) -> Result<(), AllocError>
    ensures { OnOk result (trees_of parts.new.items ≡ with_copies (trees_of parts.old.items) count
        (if are_optional then optional (expansion (tree_of node.now)) else expansion (tree_of node.now))) }
{
    for k in 0..count {
        let mut copy = expand(alloc, node)?;
        if are_optional {
            copy = Node::Alt(vec![in alloc; copy, Node::Empty]?);
        }
        parts.push(copy)?;
    }
    Ok(())
}
