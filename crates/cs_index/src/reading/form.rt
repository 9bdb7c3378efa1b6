// Queries as forms: most equal parts of a query are one node. Conjunctions in conjunctions and
// disjunctions in disjunctions are flattened, and a node that one member decides, or that has a
// single one, is no node. This is hash consing in a table of fixed size: a slot keeps the last node
// with its hash, so an equal node may be made anew.
ghost use Rattle.std.specs.Prelude.{◌≡◌, ◌<◌, ◌^◌, ◌+◌, ℕ, Bool, List, length, map, slice_index_or, IfOk, OnOk, IfSome};
ghost use Rattle.cs_index.specs.Cited.{Ascends, matches_set, IsForm, IsNumberOf, IsWithin, Exist, Grows, Gathers, joined, members_match, queries_match, matched, node_matches, number_matches, numbers};
ghost use Rattle.cs_trigram.specs.declared.queries.Query.TheVariants.{Tri};
ghost use Rattle.cs_index.specs.declared.reading.form.FormNode.{FormNode as FormNode'};

use cs_trigram::Query;
use std::alloc::{AllocError, Global};

pub(crate) const NOTHING: usize = 0;

const ALL: usize = 1;

pub(crate) const FIRST_LIST: usize = 2;

/// The slots for each list.
const SLOTS_PER_LIST: usize = 16;

/// But there are at least as many.
const LEAST_SLOTS: usize = 1 << 14;

/// A conjunction or a disjunction, by the numbers of its members.
#[derive(Drop)]
pub(crate) struct FormNode {
    pub(crate) is_and: bool,
    pub(crate) members: Vec<usize>,
}

/// The nodes of a query, and the number of the whole query.
#[derive(Drop)]
pub(crate) struct Form {
    pub(crate) nodes: Vec<FormNode>,
    pub(crate) root: usize,
}

/// A form in the making. A slot has the index of the last node with its hash.
#[derive(Drop)]
struct Folding {
    nodes: Vec<FormNode>,
    slots: Vec<usize>,
}

/// The form of a query, over the lists of ascending trigrams.
pub(crate) fn form_of(alloc: Global, trigrams: &[u32], query: &Query) -> Result<Form, AllocError>
    requires { Ascends trigrams.now }
    ensures number { IfOk result (λ form. IsNumberOf trigrams.now form.nodes.items query.now form.root) }
    ensures form { IfOk result (λ form. IsForm (length trigrams.now) form.nodes.items) }
{
    let slots = trigrams.len().saturating_mul(SLOTS_PER_LIST);
    let mut folding = Folding {
        nodes: Vec::new(alloc),
        slots: vec![in alloc; 0usize; slots.max(LEAST_SLOTS)]?,
    };
    let root = number_of(alloc, &mut folding, trigrams, query)?;
    Ok(Form {
        nodes: folding.nodes,
        root,
    })
}

/// The members of a number that is a node of this kind.
pub(crate) fn members_of(
    nodes: &[FormNode],
    lists: usize,
    is_and: bool,
    number: usize,
) -> Option<&[usize]>
    requires short { lists < 2 ^ 62 }
    requires form { IsForm lists nodes.now }
    ensures exist { IfSome result (λ members. Exist lists nodes.now members.now) }
    ensures matches { IfSome result (λ members. (bits : List Bool) → length bits ≡ lists →
        number_matches bits nodes.now number ≡ members_match is_and (matched bits nodes.now) members.now) }
{
    let at = number.checked_sub(FIRST_LIST + lists)?;
    let node = nodes.get(at)?;
    if node.is_and == is_and {
        Some(&node.members)
    } else {
        None
    }
}

/// The number of a query.
#[cycle(fold)]
fn number_of(
    alloc: Global,
    folding: &mut Folding,
    trigrams: &[u32],
    query: &Query,
) -> Result<usize, AllocError>
    requires ascend { Ascends trigrams.now }
    requires form { IsForm (length trigrams.now) folding.old.nodes.items }
    ensures grows { OnOk result
        (Grows (length trigrams.now) folding.old.nodes.items folding.new.nodes.items) }
    ensures exists { IfOk result (λ n. n < numbers (length trigrams.now) folding.new.nodes.items) }
    ensures number { IfOk result (IsNumberOf trigrams.now folding.new.nodes.items query.now) }
{
    match query {
        Query::Nothing => Ok(NOTHING),
        Query::All => Ok(ALL),
        Query::Tri(trigram) => Ok(list_number(trigrams, *trigram)),
        Query::And(members) => joined_number(alloc, folding, trigrams, true, members),
        Query::Or(members) => joined_number(alloc, folding, trigrams, false, members),
    }
}

/// The number of the conjunction or disjunction of queries.
#[cycle(fold)]
fn joined_number(
    alloc: Global,
    folding: &mut Folding,
    trigrams: &[u32],
    is_and: bool,
    queries: &[Query],
) -> Result<usize, AllocError>
    requires ascend { Ascends trigrams.now }
    requires form { IsForm (length trigrams.now) folding.old.nodes.items }
    ensures grows { OnOk result
        (Grows (length trigrams.now) folding.old.nodes.items folding.new.nodes.items) }
    ensures exists { IfOk result (λ n. n < numbers (length trigrams.now) folding.new.nodes.items) }
    ensures number { IfOk result (λ n. (set : ℕ → Bool) → IsWithin trigrams.now set →
        number_matches (map set trigrams.now) folding.new.nodes.items n
        ≡ queries_match is_and set queries.now) }
{
    let mut node = FormNode {
        is_and,
        members: Vec::new(alloc),
    };
    gather_each(alloc, folding, trigrams, &mut node, queries)?;
    intern(folding, trigrams.len(), node)
}

/// Adds the queries to the members of a node.
#[cycle(fold)]
fn gather_each(
    alloc: Global,
    folding: &mut Folding,
    trigrams: &[u32],
    node: &mut FormNode,
    queries: &[Query],
) -> Result<(), AllocError>
    requires ascend { Ascends trigrams.now }
    requires form { IsForm (length trigrams.now) folding.old.nodes.items }
    requires exist { Exist (length trigrams.now) folding.old.nodes.items node.old.members.items }
    ensures { OnOk result (Gathers trigrams.now folding.old.nodes.items folding.new.nodes.items
        node.old node.new (λ set. queries_match node.old.is_and set queries.now)) }
{
    for query in queries {
        gather(alloc, folding, trigrams, node, query)?;
    }
    Ok(())
}

/// Adds a query to the members of a node; if it is or folds to one of the kind of the node, its
/// members.
#[cycle(fold)]
fn gather(
    alloc: Global,
    folding: &mut Folding,
    trigrams: &[u32],
    node: &mut FormNode,
    query: &Query,
) -> Result<(), AllocError>
    requires ascend { Ascends trigrams.now }
    requires form { IsForm (length trigrams.now) folding.old.nodes.items }
    requires exist { Exist (length trigrams.now) folding.old.nodes.items node.old.members.items }
    ensures { OnOk result (Gathers trigrams.now folding.old.nodes.items folding.new.nodes.items
        node.old node.new (matches_set query.now)) }
{
    match query {
        Query::And(members) if node.is_and => {
            gather_each(alloc, folding, trigrams, node, members)
        }
        Query::Or(members) if !node.is_and => {
            gather_each(alloc, folding, trigrams, node, members)
        }
        _ => {
            let number = number_of(alloc, folding, trigrams, query)?;
            add_member(folding, trigrams.len(), node, number)
        }
    }
}

/// Adds a number to the members of a node; if it is of the kind of the node, its members.
fn add_member(
    folding: &Folding,
    lists: usize,
    node: &mut FormNode,
    number: usize,
) -> Result<(), AllocError>
    requires short { lists < 2 ^ 62 }
    requires form { IsForm lists folding.now.nodes.items }
    requires exist { Exist lists folding.now.nodes.items node.old.members.items }
    requires exists { number < numbers lists folding.now.nodes.items }
    ensures kind { OnOk result (node.new.is_and ≡ node.old.is_and) }
    ensures exist { OnOk result (Exist lists folding.now.nodes.items node.new.members.items) }
    ensures matches { OnOk result ((bits : List Bool) → length bits ≡ lists →
        node_matches (matched bits folding.now.nodes.items) node.new
        ≡ joined node.old.is_and (node_matches (matched bits folding.now.nodes.items) node.old)
        (number_matches bits folding.now.nodes.items number)) }
{
    match members_of(&folding.nodes, lists, node.is_and, number) {
        Some(members) => node.members.extend_from_slice(members)?,
        None => node.members.push(number)?,
    }
    Ok(())
}

/// The number of the list of a trigram; without a list, no file has it.
fn list_number(trigrams: &[u32], trigram: u32) -> usize
    requires { Ascends trigrams.now }
    ensures exists { (nodes : List FormNode') → result < numbers (length trigrams.now) nodes }
    ensures number { (nodes : List FormNode') → IsNumberOf trigrams.now nodes (Tri trigram) result }
{
    match trigrams.binary_search(&trigram) {
        Ok(at) => FIRST_LIST + at,
        Err(_) => NOTHING,
    }
}

/// The number of a node over some lists, which has each member once. No node has a single member,
/// or one that decides it.
fn intern(folding: &mut Folding, lists: usize, mut node: FormNode) -> Result<usize, AllocError>
    requires short { lists < 2 ^ 62 }
    requires form { IsForm lists folding.old.nodes.items }
    requires exist { Exist lists folding.old.nodes.items node.members.items }
    ensures grows { OnOk result (Grows lists folding.old.nodes.items folding.new.nodes.items) }
    ensures exists { IfOk result (λ n. n < numbers lists folding.new.nodes.items) }
    ensures number { IfOk result (λ n. (bits : List Bool) → length bits ≡ lists →
        number_matches bits folding.new.nodes.items n
        ≡ node_matches (matched bits folding.new.nodes.items) node) }
{
    node.members.sort_unstable();
    node.members.dedup();
    if let Some(number) = decided(&node) {
        return Ok(number);
    }
    let slot = hash(&node) % folding.slots.len().max(1);
    if let Some(at) = known(folding, slot, &node) {
        return Ok(FIRST_LIST + lists + at);
    }
    let at = folding.nodes.len();
    remember(&mut folding.slots, slot, at);
    folding.nodes.push(node)?;
    Ok(FIRST_LIST + lists + at)
}

/// The number that is equal to a node without members, with a single one, or with one that decides
/// it.
fn decided(node: &FormNode) -> Option<usize>
    ensures exists { IfSome result (λ n. (lists : ℕ) (nodes : List FormNode') →
        Exist lists nodes node.now.members.items →
        n < numbers lists nodes) }
    ensures number { IfSome result (λ n. (bits : List Bool) (nodes : List FormNode') →
        number_matches bits nodes n ≡ node_matches (matched bits nodes) node.now) }
{
    let zero = constant(!node.is_and);
    if node.members.contains(&zero) {
        return Some(zero);
    }
    match node.members.as_slice() {
        [] => Some(constant(node.is_and)),
        [one] => Some(*one),
        _ => None,
    }
}

/// The number that matches everything or nothing.
fn constant(all: bool) -> usize
    ensures exists { result < 2 }
    ensures number { (bits : List Bool) (nodes : List FormNode') → number_matches bits nodes result ≡ all }
{
    if all { ALL } else { NOTHING }
}

/// Writes the index of a node into a slot.
fn remember(slots: &mut [usize], slot: usize, at: usize) {
    if let Some(last) = slots.get_mut(slot) {
        *last = at;
    }
}

/// The index of the node in its slot, if it is equal to this one.
fn known(folding: &Folding, slot: usize, node: &FormNode) -> Option<usize>
    ensures { IfSome result (λ at. (at < length folding.now.nodes.items) × ((d : FormNode') →
        (lists : List Bool) → node_matches lists (slice_index_or folding.now.nodes.items at d)
        ≡ node_matches lists node.now)) }
{
    let at = *folding.slots.get(slot)?;
    let other = folding.nodes.get(at)?;
    if other.is_and == node.is_and && other.members == node.members {
        Some(at)
    } else {
        None
    }
}

/// A hash of a node (FNV-1a over words). Small numbers change the bits from 40 on.
fn hash(node: &FormNode) -> usize {
    let mut hash = 0xcbf2_9ce4_8422_2325u64 ^ node.is_and as u64;
    for member in &node.members {
        hash = (hash ^ *member as u64).wrapping_mul(0x0000_0100_0000_01b3);
    }
    (hash >> 40) as usize
}
