// Trigram queries: conjunctions, and queries for strings (`and` and `andTrigrams` in Go's
// codesearch).
ghost use Rattle.std.specs.Prelude.{◌≡◌, ◌+◌, ◌-◌, ◌<◌, ◌≤◌, ◌&&◌, ◌||◌, ℕ, Bool, IsTrue, IfOk, OnOk, length};
ghost use Rattle.std.specs.List.{sum_by};
ghost use Rattle.cs_trigram.specs.Cited.{trigram, trigram_count, is_among, matches_set, mentions, query_size, all_match, some_matches, some_mentions, has_any, MentionsOnly, RequiresText};

use crate::exact_set::ExactString;
use std::alloc::{AllocError, Global};

/// A condition on a set of trigrams: a tree of conjunctions and disjunctions.
#[derive(Drop)]
pub enum Query {
    /// Matches every set.
    All,
    /// Matches no set.
    Nothing,
    /// Matches the sets with this trigram, a number below 2^24.
    Tri(u32),
    /// Matches if each member does.
    And(Vec<Query>),
    /// Matches if some member does.
    Or(Vec<Query>),
}

/// The number of the trigram with the bytes `a`, `b` and `c`, in this order.
pub(crate) fn trigram(a: u8, b: u8, c: u8) -> u32
    ensures number { result ≡ trigram a b c }
    ensures below { result < trigram_count }
{
    65536 * a as u32 + 256 * b as u32 + c as u32
}

/// Adds a query to a conjunction. `All` adds nothing.
pub(crate) fn add_conjunct(conjuncts: &mut Vec<Query>, query: Query) -> Result<(), AllocError>
    ensures required { OnOk result ((set : ℕ → Bool) → all_match conjuncts.new.items set ≡
        (all_match conjuncts.old.items set && matches_set query set)) }
    ensures mentioned { OnOk result ((g : ℕ) → some_mentions conjuncts.new.items g ≡
        (some_mentions conjuncts.old.items g || mentions query g)) }
    ensures small { OnOk result (sum_by query_size conjuncts.new.items ≤
        sum_by query_size conjuncts.old.items + query_size query) }
{
    match query {
        Query::All => Ok(()),
        query => {
            conjuncts.push(query)?;
            Ok(())
        }
    }
}

/// The disjunction over the strings, each as the conjunction of its trigrams; `All` if some string
/// has no trigram.
pub(crate) fn any_string(alloc: Global, strings: &[ExactString]) -> Result<Query, AllocError>
    ensures required { IfOk result (λ query. (set : ℕ → Bool) →
        matches_set query set ≡ has_any set strings.now) }
    ensures mentioned { IfOk result (λ query.
        MentionsOnly query (λ string. IsTrue (is_among strings.now string))) }
    ensures small { IfOk result (λ query.
        query_size query ≤ 1 + sum_by (λ string. length string - 1) strings.now) }
{
    let mut members = Vec::with_capacity(alloc, strings.len())?;
    for string in strings {
        if string.bytes().len() < 3 {
            return Ok(Query::All);
        }
        members.push(all_trigrams(alloc, string.bytes())?)?;
    }
    Ok(any_of(members))
}

/// The conjunction of the trigrams of a text. A single one is not wrapped.
fn all_trigrams(alloc: Global, text: &[u8]) -> Result<Query, AllocError>
    ensures required { IfOk result (λ query. RequiresText query text.now) }
    ensures mentioned { IfOk result (λ query. MentionsOnly query (λ part. part ≡ text.now)) }
    ensures small { IfOk result (λ query. query_size query ≤ 1 + (length text.now - 2)) }
{
    if text.len() == 3 {
        return Ok(Query::Tri(trigram(text[0], text[1], text[2])));
    }
    let mut members = Vec::with_capacity(alloc, text.len().saturating_sub(2))?;
    let mut offset = 0;
    while text.len() - offset > 2 {
        let number = trigram(text[offset], text[offset + 1], text[offset + 2]);
        members.push(Query::Tri(number))?;
        offset += 1;
    }
    Ok(Query::And(members))
}

/// The disjunction of the queries. A single one is not wrapped.
fn any_of(mut members: Vec<Query>) -> Query
    ensures required { (set : ℕ → Bool) → matches_set result set ≡ some_matches members.items set }
    ensures mentioned { (g : ℕ) → mentions result g ≡ some_mentions members.items g }
    ensures small { query_size result ≤ 1 + sum_by query_size members.items }
{
    if members.len() == 1
        && let Some(only) = members.pop()
    {
        return only;
    }
    Query::Or(members)
}
