// Matchers: a lazy DFA (RE2) with the prefilters of its program, and the counters that choose
// between them.
ghost use Rattle.std.specs.Prelude.{◌≡◌, ◌≤◌, ◌<◌, ◌+◌, ◌-◌, ◌↔◌, ℕ, Bool, List, IsTrue, IfOk, IfSome, MatchOption, length, slice_range, drop, count_by};
ghost use Rattle.cs_match.specs.Cited.{HasMatch, after_steps, most_states, Decides, terminated_lines, matching_ends, AreLinesBetween, WorksWithin, line_work, list_work, search_work, searched_bytes, AreWholeLines, IsLineAfter, NoneMatch};

mod cache;

use crate::dfa::LazyDfa;
use crate::listing::{Lister, line_to};
use crate::pacing::Pacing;
use crate::program::Program;
pub use cache::Cache;
use cs_tree::Steps;
use std::alloc::{AllocError, Global};
use std::marker::Model;

/// The length of the list of matching lines that is filled at once: four chunks of 1 KB.
const LIST: usize = 4096;

/// A line of a block. Its bytes, without the newline, are those from `start` to `end`.
#[derive(Clone, Copy, Drop)]
pub struct Line {
    pub start: usize,
    pub end: usize,
}

/// A program with its lazy DFA. Contracts see the program's tree, the number of cached states, the
/// list of matching lines that was made last, and the steps taken.
#[derive(Drop)]
pub struct Matcher<'a> {
    pub(crate) lister: Lister<'a>,
    /// The list of matching lines: the first `listed` of these.
    ends: Vec<usize>,
    listed: usize,
}

impl<'a> Model for Matcher<'a> {
    ghost use Rattle.cs_match.specs.Automaton.{Automaton, automaton_code};

    ghost Value = { Automaton };

    ghost coded = { automaton_code };

    ghost use Rattle.std.specs.Prelude.{◌<◌, ◌≤◌, length, take};
    ghost use Rattle.cs_match.specs.Listing.{automaton_of};

    ghost view = { λ matcher. automaton_of matcher.lister (take matcher.listed matcher.ends.items) };

    ghost invariant = { λ matcher. (0 < length matcher.ends.items)
        × (matcher.listed ≤ length matcher.ends.items) };
}

impl<'a> Matcher<'a> {
    /// A matcher of the program. It allocates all memory that its calls use.
    pub fn new(alloc: Global, program: &'a Program) -> Result<Matcher<'a>, AllocError>
        ensures tree { IfOk result (λ matcher. matcher.tree ≡ program.now) }
        ensures states { IfOk result (λ matcher. matcher.states ≡ 1) }
        ensures steps { IfOk result (λ matcher. matcher.steps ≡ 0) }
    {
        Ok(Matcher {
            lister: Lister {
                dfa: LazyDfa::new(alloc, program)?,
                pacing: Pacing::default(),
                steps: Steps::new(),
            },
            ends: vec![in alloc; 0usize; LIST]?,
            listed: 0,
        })
    }

    /// The number of cached states, the start state included.
    pub fn state_count(&self) -> usize
        ensures exact { result ≡ self.now.states }
        ensures some { 1 ≤ result }
        ensures bound { result ≤ most_states }
    {
        let dfa = &self.lister.dfa;
        dfa.states.cached.len() - 4
    }

    /// Counts so many steps more, which a caller took for its search of the text. Does nothing when
    /// it runs.
    pub fn add_steps(&mut self, count: usize)
        ensures { self.new ≡ after_steps count self.old }
    {
        self.lister.steps.add(count);
    }

    /// Whether the line has a match, whatever was asked before. It allocates nothing.
    pub fn is_match(&mut self, line: &[u8]) -> bool
        ensures found { IsTrue result ↔ HasMatch self.old.tree line.now }
        ensures same { self.new.tree ≡ self.old.tree }
        ensures work { WorksWithin (line_work self.old.tree (length line.now)) self.old self.new }
    {
        let lister = &mut self.lister;
        lister.dfa.is_match(line, &mut lister.steps)
    }

    /// The first line at or after `from` that has a match. The block is whole lines from there on.
    pub fn next_match(&mut self, block: &[u8], from: usize) -> Option<Line>
        requires within { from ≤ length block.now }
        requires whole { AreWholeLines (drop from block.now) }
        ensures line { IfSome result (λ line. IsLineAfter block.now from line.start line.end) }
        ensures found { IfSome result (λ line. HasMatch self.old.tree
            (slice_range block.now line.start line.end)) }
        ensures none { (has_match : List ℕ → Bool) → Decides has_match self.old.tree → MatchOption result
            (NoneMatch has_match (terminated_lines (drop from block.now))) (λ line. NoneMatch has_match
            (terminated_lines (slice_range block.now from line.start))) }
        ensures same { self.new.tree ≡ self.old.tree }
        ensures work { WorksWithin (search_work self.old.tree (searched_bytes from (length block.now) result))
            self.old self.new }
    {
        let mut ends = [0];
        let listed = self.lister.list_lines(block, from, &mut ends);
        if listed.count == 0 {
            return None;
        }
        let line = line_to(block, from, ends[0]);
        self.lister.steps.add(line.end + 1 - from);
        Some(line)
    }

    /// Lists the matching lines from an offset on, all up to the offset that it returns: the end of
    /// the block, unless the list has no room for more. The block is whole lines from there on.
    pub fn list_lines(&mut self, block: &[u8], from: usize) -> usize
        requires within { from < length block.now }
        requires whole { AreWholeLines (drop from block.now) }
        ensures lines { AreLinesBetween block.now from result }
        ensures moves { from < result }
        ensures listed { (has_match : List ℕ → Bool) → Decides has_match self.old.tree →
            self.new.ends ≡ matching_ends has_match block.now from result }
        ensures same { self.new.tree ≡ self.old.tree }
        ensures work { WorksWithin (list_work self.old.tree (result - from)) self.old self.new }
    {
        let lines = self.lister.list_lines(block, from, &mut self.ends);
        self.listed = lines.count;
        lines.to
    }

    /// The matching lines that were listed last, by the offsets of the newlines at their ends, in
    /// ascending order.
    pub fn listed(&self) -> &[usize]
        ensures { result.now ≡ self.now.ends }
    {
        &self.ends[..self.listed]
    }

    /// The number of matching lines in a block of whole lines.
    pub fn count(&mut self, block: &[u8]) -> u64
        requires whole { AreWholeLines block.now }
        ensures found { (has_match : List ℕ → Bool) → Decides has_match self.old.tree →
            result ≡ count_by has_match (terminated_lines block.now) }
        ensures bound { result ≤ length (terminated_lines block.now) }
        ensures same { self.new.tree ≡ self.old.tree }
        ensures work { WorksWithin (list_work self.old.tree (length block.now)) self.old self.new }
    {
        let mut offset = 0;
        let mut matching_lines = 0u64;
        'lists: while offset < block.len() {
            offset = self.list_lines(block, offset);
            matching_lines += self.listed().len() as u64;
        }
        matching_lines
    }
}
