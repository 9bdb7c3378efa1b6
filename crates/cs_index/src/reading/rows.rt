// Rows: the ids of a window that match each node of a form, as a flag for each id. Windows begin at
// the ids of the rarest list that the form requires, so that the other lists are only tested
// between them.
ghost use Rattle.std.specs.Prelude.{◌≡◌, ◌<◌, ◌≤◌, ◌+◌, ◌-◌, ◌⊎◌, ◌&&◌, ◌||◌, ℕ, Bool, false, true, Some, List, [], ◌∷◌, length, map, slice_index_or, IfOk, OnOk, IfSome};
ghost use Rattle.std.specs.List.{AllByRecursion, AllZip};
ghost use Rattle.cs_index.specs.Cited.{KeepsStore, matched, members_match, node_matches, IsForm, IsRequired, column, have_id, HaveWidth, IsLeft, IsReadOn, IsRowOf, LacksId, has};

use crate::reading::form::{FIRST_LIST, Form, FormNode, members_of};
use crate::reading::stored_list::StoredList;
use cs_tree::{IoFault, Store};
use std::alloc::{AllocError, Global};

/// The ids from `start` to `end`.
#[derive(Clone, Copy, Drop)]
pub(crate) struct IdWindow {
    pub(crate) start: u32,
    pub(crate) end: u32,
}

/// The rows of a window of ids: that of each list, which is read up to the window's end, and that
/// of each node.
pub(crate) fn rows_of<S: Store>(
    alloc: Global,
    store: &mut S,
    nodes: &[FormNode],
    lists: &mut [StoredList],
    window: IdWindow,
) -> Result<Vec<Vec<bool>>, IoFault>
    requires order { window.start < window.end }
    ensures rows { (bytes : List ℕ) → S.model store.old ≡ Some bytes →
        AllByRecursion (IsLeft bytes) lists.old →
        IfOk result (λ rows. (k : ℕ) → window.start + k < window.end →
        column k rows.items ≡ matched (have_id bytes lists.old (window.start + k)) nodes.now) }
    ensures width { IfOk result (λ rows. HaveWidth (window.end - window.start) rows.items) }
    ensures lists { (bytes : List ℕ) → S.model store.old ≡ Some bytes →
        AllByRecursion (IsLeft bytes) lists.old →
        IfOk result (λ _. AllZip (IsReadOn bytes window.end) lists.old lists.new) }
    ensures store { KeepsStore S.model S.size S.failed store.old store.new result }
{
    let mut rows = list_rows(alloc, store, lists, window)?;
    let width = (window.end - window.start) as usize;
    for node in nodes {
        let row = row_of(alloc, node, &rows, width)?;
        rows.push(row)?;
    }
    Ok(rows)
}

/// The row with a number; without one, no id matches.
pub(crate) fn row_at(rows: &[Vec<bool>], number: usize) -> &[bool]
    ensures row { (k : ℕ) → slice_index_or result.now k false
        ≡ slice_index_or (column k rows.now) number false }
    ensures width { (width : ℕ) → HaveWidth width rows.now → (length result.now ≡ 0) ⊎ (length result.now
        ≡ width) }
{
    match rows.get(number) {
        Some(row) => row,
        None => &[],
    }
}

/// The list of the fewest ids among those that have each id that a form matches.
pub(crate) fn rarest_list(form: &Form, lists: &[StoredList]) -> Option<usize>
    requires { IsForm (length lists.now) form.now.nodes.items }
    ensures { IfSome result (IsRequired (length lists.now) form.now.nodes.items form.now.root) }
{
    match members_of(&form.nodes, lists.len(), true, form.root) {
        Some(members) => rarest_of(lists, members),
        None => rarest_of(lists, &[form.root]),
    }
}

/// The first id of a window that the rarest list may have, or the window's end.
pub(crate) fn next_start<S: Store>(
    store: &mut S,
    lists: &mut [StoredList],
    rarest: Option<usize>,
    window: IdWindow,
) -> Result<u32, IoFault>
    requires within { IfSome rarest (λ at. at < length lists.old) }
    requires order { window.start ≤ window.end }
    ensures from { IfOk result (λ next. window.start ≤ next) }
    ensures to { IfOk result (λ next. next ≤ window.end) }
    ensures lists { (bytes : List ℕ) → S.model store.old ≡ Some bytes →
        AllByRecursion (IsLeft bytes) lists.old →
        IfOk result (λ next. AllZip (IsReadOn bytes next) lists.old lists.new) }
    ensures lacks { (bytes : List ℕ) → S.model store.old ≡ Some bytes →
        AllByRecursion (IsLeft bytes) lists.old →
        IfOk result (λ next. (id : ℕ) → window.start ≤ id → id < next →
        LacksId (have_id bytes lists.old id) rarest) }
    ensures store { KeepsStore S.model S.size S.failed store.old store.new result }
{
    let Some(at) = rarest else {
        return Ok(window.start);
    };
    let next = lists[at].skip_to(store, window.start)?;
    Ok(next.max(window.start).min(window.end))
}

/// The rows of nothing, of everything and of each list.
fn list_rows<S: Store>(
    alloc: Global,
    store: &mut S,
    lists: &mut [StoredList],
    window: IdWindow,
) -> Result<Vec<Vec<bool>>, IoFault>
    requires order { window.start < window.end }
    ensures rows { (bytes : List ℕ) → S.model store.old ≡ Some bytes →
        AllByRecursion (IsLeft bytes) lists.old →
        IfOk result (λ rows. (k : ℕ) → window.start + k < window.end →
        column k rows.items ≡ false ∷ true ∷ have_id bytes lists.old (window.start + k)) }
    ensures width { IfOk result (λ rows. HaveWidth (window.end - window.start) rows.items) }
    ensures lists { (bytes : List ℕ) → S.model store.old ≡ Some bytes →
        AllByRecursion (IsLeft bytes) lists.old →
        IfOk result (λ _. AllZip (IsReadOn bytes window.end) lists.old lists.new) }
    ensures store { KeepsStore S.model S.size S.failed store.old store.new result }
{
    let mut rows = Vec::new(alloc);
    rows.push(Vec::new(alloc))?;
    rows.push(vec![in alloc; true; (window.end - window.start) as usize]?)?;
    for at in 0..lists.len() {
        let row = list_row(alloc, store, &mut lists[at], window)?;
        rows.push(row)?;
    }
    Ok(rows)
}

/// The row of a list, which is read up to the window's end.
fn list_row<S: Store>(
    alloc: Global,
    store: &mut S,
    list: &mut StoredList,
    window: IdWindow,
) -> Result<Vec<bool>, IoFault>
    requires order { window.start < window.end }
    ensures row { (bytes : List ℕ) → S.model store.old ≡ Some bytes → IsLeft bytes list.old →
        IfOk result (λ row. IsRowOf bytes window.start window.end list.old row.items) }
    ensures width { IfOk result (λ row.
        (length row.items ≡ 0) ⊎ (length row.items ≡ window.end - window.start)) }
    ensures list { (bytes : List ℕ) → S.model store.old ≡ Some bytes → IsLeft bytes list.old →
        IfOk result (λ _. IsReadOn bytes window.end list.old list.new) }
    ensures store { KeepsStore S.model S.size S.failed store.old store.new result }
{
    list.skip_below(store, window.start)?;
    let mut row = Vec::new(alloc);
    'ids: while let Some(id) = list.next_below(store, window.end)? {
        if row.is_empty() {
            row.resize((window.end - window.start) as usize, false)?;
        }
        // Only a store whose bytes change can have an id below the window.
        row[id.saturating_sub(window.start) as usize] = true;
        list.mark_short(&mut row, window.start, window.end);
    }
    Ok(row)
}

/// The row of a node, by the rows before it.
fn row_of(
    alloc: Global,
    node: &FormNode,
    rows: &[Vec<bool>],
    width: usize,
) -> Result<Vec<bool>, AllocError>
    requires { HaveWidth width rows.now }
    ensures row { IfOk result (λ row. (k : ℕ) → k < width →
        slice_index_or row.items k false ≡ node_matches (column k rows.now) node.now) }
    ensures width { IfOk result (λ row. (length row.items ≡ 0) ⊎ (length row.items ≡ width)) }
{
    if node.is_and {
        and_row(alloc, &node.members, rows, width)
    } else {
        or_row(alloc, &node.members, rows, width)
    }
}

/// The ids that each member has.
fn and_row(
    alloc: Global,
    members: &[usize],
    rows: &[Vec<bool>],
    width: usize,
) -> Result<Vec<bool>, AllocError>
    requires { HaveWidth width rows.now }
    ensures row { IfOk result (λ row. (k : ℕ) → k < width →
        slice_index_or row.items k false ≡ members_match true (column k rows.now) members.now) }
    ensures width { IfOk result (λ row. (length row.items ≡ 0) ⊎ (length row.items ≡ width)) }
{
    let mut row = vec![in alloc; true; width]?;
    for member in members {
        let other = row_at(rows, *member);
        if other.is_empty() {
            return Ok(Vec::new(alloc));
        }
        meet(&mut row, other);
    }
    Ok(row)
}

/// The ids that some member has.
fn or_row(
    alloc: Global,
    members: &[usize],
    rows: &[Vec<bool>],
    width: usize,
) -> Result<Vec<bool>, AllocError>
    requires { HaveWidth width rows.now }
    ensures row { IfOk result (λ row. (k : ℕ) → k < width →
        slice_index_or row.items k false ≡ members_match false (column k rows.now) members.now) }
    ensures width { IfOk result (λ row. (length row.items ≡ 0) ⊎ (length row.items ≡ width)) }
{
    let mut row: Vec<bool> = Vec::new(alloc);
    for member in members {
        let other = row_at(rows, *member);
        if !other.is_empty() {
            add_row(&mut row, other)?;
        }
    }
    Ok(row)
}

/// Adds the ids of another row to a row, which has no flags yet or as many as the other one.
fn add_row(row: &mut Vec<bool>, other: &[bool]) -> Result<(), AllocError>
    requires { (length row.old.items ≡ 0) ⊎ (length row.old.items ≡ length other.now) }
    ensures width { OnOk result (length row.new.items ≡ length other.now) }
    ensures flags { OnOk result ((k : ℕ) → slice_index_or row.new.items k false
        ≡ (slice_index_or row.old.items k false || slice_index_or other.now k false)) }
{
    if row.is_empty() {
        row.extend_from_slice(other)?;
    } else {
        unite(row, other);
    }
    Ok(())
}

/// Keeps the flags that the other row has too.
#[inline(never)]
fn meet(row: &mut [bool], other: &[bool])
    requires { length row.old ≡ length other.now }
    ensures { (k : ℕ) → slice_index_or row.new k false
        ≡ (slice_index_or row.old k false && slice_index_or other.now k false) }
{
    for at in 0..row.len() {
        row[at] &= other[at];
    }
}

/// Sets the flags that the other row has.
#[inline(never)]
fn unite(row: &mut [bool], other: &[bool])
    requires { length row.old ≡ length other.now }
    ensures { (k : ℕ) → slice_index_or row.new k false
        ≡ (slice_index_or row.old k false || slice_index_or other.now k false) }
{
    for at in 0..row.len() {
        row[at] |= other[at];
    }
}

/// The list of the fewest ids among the numbers.
fn rarest_of(lists: &[StoredList], numbers: &[usize]) -> Option<usize>
    ensures { IfSome result (λ at. (at < length lists.now) × (has numbers.now (2 + at) ≡ true)) }
{
    let mut rarest = None;
    for number in numbers {
        rarest = rarer(lists, rarest, *number);
    }
    rarest
}

/// The list with a number if it has fewer ids than the other list; otherwise that one.
fn rarer(lists: &[StoredList], other: Option<usize>, number: usize) -> Option<usize>
    requires { IfSome other (λ at. at < length lists.now) }
    ensures within { IfSome result (λ at. at < length lists.now) }
    ensures either { IfSome result (λ at. (other ≡ Some at) ⊎ (number ≡ 2 + at)) }
{
    let Some(at) = number.checked_sub(FIRST_LIST) else {
        return other;
    };
    if at >= lists.len() {
        return other;
    }
    let Some(before) = other else {
        return Some(at);
    };
    if lists[before].len() <= lists[at].len() {
        other
    } else {
        Some(at)
    }
}
