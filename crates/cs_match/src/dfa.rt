// Lazy DFA (RE2): subset construction on demand over Glushkov positions (`specs/Glushkov.antt`),
// with a bounded cache of states that is cleared when it is full.
ghost use Rattle.std.specs.Prelude.{◌≡◌, ◌≢◌, ◌↔◌, ◌+◌, ◌-◌, ◌<◌, ◌≤◌, ◌*◌, ℕ, Bool, List, ◌∷◌, IfOk, IsTrue, length, drop, slice_index, slice_range, vec_capacity, true, false};
ghost use Rattle.cs_match.specs.Cited.{HasMatch, AreBytes, words, byte_work, line_work, Decides, next_number, number_after, table_start, unknown, HasRows, TellsLines, HasScanned, FollowsKnown, ListsLine, PassesLines, newline, AreWholeLines, AreLinesBetween, AreListed, position_count, cuts_of, IsBlock, successor, accepts_before, IsDead, until_newline, most_rows, AreFirstRows, start_number, CountsAtMost, StepsWithin, IsKnown, IsTableOf, table_in, HasSlot, HasState, LeadsIn, count_in, state_in};
ghost use Rattle.cs_match.specs.declared.state.State.{State};

use crate::byte_classes::ByteClasses;
use crate::cached_states::CachedStates;
use crate::glushkov::Scratch;
use crate::lanes::Table;
use crate::listing::line_end;
use crate::program::Program;
use crate::state::State;
use cs_tree::Steps;
use std::alloc::{AllocError, Global};
use std::marker::Model;
use std::ops::Range;

/// The most transitions of the transition table: 128 KB.
const TRANSITIONS: usize = 65536;
/// The first states: a start state, three special ones, and the start state.
const FIRST: usize = 5;
/// The slots of the match state, the dead state and the start state.
const MATCH: u16 = 2;

const DEAD: u16 = 3;

const START: u16 = 4;
/// The least states, if the table has room for them.
const LEAST_STATES: usize = 254;
/// The most words of the position sets of more states: 2 MB.
const MOST_WORDS: usize = 262144;

/// How many ends of matching lines are listed, and the offset up to which.
#[derive(Clone, Copy)]
pub(crate) struct EndList {
    pub(crate) count: usize,
    pub(crate) to: usize,
}

/// A scan of some lines: where they begin, how far it has come, and the number of the state there.
#[derive(Clone, Copy)]
struct Scan {
    from: usize,
    to: usize,
    number: u16,
}

/// The cached states and their transitions.
#[derive(Drop)]
pub(crate) struct StateCache {
    /// The transition table: a row for each state, with a transition for each class of bytes.
    pub(crate) transitions: Vec<u16>,
    pub(crate) classes: ByteClasses,
    pub(crate) cached: CachedStates,
    /// The state under construction.
    pub(crate) scratch: State,
    pub(crate) memory: Scratch,
}

/// A program with its cached states. Contracts see the program's tree and the states.
#[derive(Drop)]
pub(crate) struct LazyDfa<'a> {
    pub(crate) program: &'a Program,
    pub(crate) states: StateCache,
}

impl<'a> Model for LazyDfa<'a> {
    ghost use Rattle.cs_match.specs.ConsistentDfa.{Dfa, dfa_code, IsConsistent};

    ghost Value = { Dfa };

    ghost coded = { dfa_code };

    ghost view = { λ dfa. record { tree = dfa.program.now; states = dfa.states } };

    ghost invariant = { λ dfa. IsConsistent dfa.program.now dfa.states };
}

/// The most states of a program with so many classes, whose sets have so many words.
fn most_states(classes: usize, words: usize) -> usize
    requires some { 0 < classes }
    requires few { classes ≤ 256 }
    ensures exact { result ≡ most_rows classes words }
    ensures room { result * classes ≤ 65536 }
    ensures more { 6 ≤ result }
    ensures slots { result < 65536 }
{
    let rows = (TRANSITIONS / classes).min(u16::MAX as usize);
    rows.min((MOST_WORDS / words.max(1)).max(LEAST_STATES))
}

/// Adds the row of a state that stays until the newline.
fn push_row(transitions: &mut Vec<u16>, classes: &ByteClasses, stays: u16, ends: u16)
    requires { length transitions.old.items + classes.now.count ≤ vec_capacity transitions.old }
    ensures len { length transitions.new.items ≡ length transitions.old.items + classes.now.count }
    ensures kept { (k : ℕ) → k < length transitions.old.items →
        slice_index transitions.new.items k ≡ slice_index transitions.old.items k }
    ensures row { (c : ℕ) → c < classes.now.count → slice_index transitions.new.items (length
        transitions.old.items + c) ≡ until_newline classes.now stays ends c }
    ensures room { vec_capacity transitions.old ≤ vec_capacity transitions.new }
{
    let newline = u16::from(classes.of[b'\n' as usize]);
    for class in 0..classes.count {
        let next = if class == newline { ends } else { stays };
        transitions.push(next).unwrap();
    }
}

/// Makes this the table of the first rows, in which no transition is known.
fn write_first(transitions: &mut Vec<u16>, classes: &ByteClasses)
    requires few { classes.now.count ≤ 256 }
    requires room { 65536 ≤ vec_capacity transitions.old }
    ensures rows { AreFirstRows classes.now transitions.new.items }
    ensures room { 65536 ≤ vec_capacity transitions.new }
{
    let unknown = classes.count;
    transitions.clear();
    push_row(transitions, classes, unknown, unknown);
    push_row(transitions, classes, unknown, unknown);
    push_row(transitions, classes, MATCH * unknown, Table::FOUND);
    push_row(transitions, classes, DEAD * unknown, START * unknown);
    push_row(transitions, classes, unknown, unknown);
}

impl<'a> LazyDfa<'a> {
    /// A DFA whose cache has only the first states.
    pub(crate) fn new(alloc: Global, program: &'a Program) -> Result<LazyDfa<'a>, AllocError>
        ensures { IfOk result (λ dfa. (dfa.tree ≡ program.now)
            × (length dfa.states.cached.items ≡ 5)) }
    {
        let classes = *program.byte_classes();
        let scratch = State::new(alloc, program)?;
        let count = scratch.positions.len();
        let most = most_states(classes.count as usize, count.div_ceil(64));
        let mut cached = CachedStates::new(alloc, most, count)?;
        let place = scratch.hash() as usize;
        for slot in 0..FIRST {
            cached.push(&scratch, place);
        }
        let memory = Scratch::new(alloc, program)?;
        let mut transitions = Vec::with_capacity(alloc, TRANSITIONS)?;
        write_first(&mut transitions, &classes);
        let states = StateCache {
            transitions,
            classes,
            cached,
            scratch,
            memory,
        };
        Ok(LazyDfa { program, states })
    }

    /// The transition of a state over a byte, computed first if it is unknown.
    #[inline(always)]
    fn next(&mut self, from: u16, byte: u8, steps: &mut Steps) -> u16
        requires number { (state : State) × HasState self.old from state }
        ensures leads { (state : State) → HasState self.old from state → LeadsIn self.new state byte result }
        ensures known { (rest : List ℕ) → AreBytes rest → IsKnown self.old from (byte ∷ rest) →
            (self.new ≡ self.old) × IsKnown self.new result rest × (steps.new.count ≡ steps.old.count + 1) }
        ensures work { StepsWithin (byte_work self.old.tree - 1) self.old self.new steps.old steps.new }
    {
        steps.add(1);
        let next = self.table().next(from, byte);
        let count = self.states.classes.count;
        if next == count {
            self.fill((from / count) as usize, byte, steps)
        } else {
            next
        }
    }

    /// Whether the line has a match. A line with a newline within it is simulated.
    pub(crate) fn is_match(&mut self, line: &[u8], steps: &mut Steps) -> bool
        ensures found { IsTrue result ↔ HasMatch self.old.tree line.now }
        ensures work { StepsWithin (line_work self.old.tree (length line.now)) self.old self.new
            steps.old steps.new }
    {
        let mut number = START * self.states.classes.count;
        for b in line {
            // The transition table reads a newline as the end of the line.
            if *b == b'\n' {
                return self
                    .states
                    .scratch
                    .search(self.program, &mut self.states.memory, line, steps);
            }
            number = self.next(number, *b, steps);
            if number == MATCH * self.states.classes.count {
                return true;
            }
        }
        let last = self.next(number, b'\n', steps);
        last == Table::FOUND
    }

    /// Moves on by known transitions and, unless the text ends there, over the byte whose
    /// transition is special or unknown, or over the rest of the line that it decides.
    #[inline(always)]
    fn advance(&mut self, text: &[u8], scan: Scan, steps: &mut Steps) -> Scan
        requires within { scan.to < length text.now }
        requires whole { AreWholeLines (drop scan.from text.now) }
        requires scanned { HasScanned self.old text.now scan }
        ensures lists { ListsLine self.old.tree text.now scan result }
        ensures scanned { HasScanned self.new text.now result }
        ensures work { StepsWithin (byte_work self.old.tree * (result.to - scan.to)) self.old self.new
            steps.old steps.new }
        ensures known { IsKnown self.old scan.number (drop scan.to text.now) →
            FollowsKnown self.old self.new text.now scan result steps.old steps.new }
    {
        let seen = self.follow_known(text, scan);
        steps.add(seen.to - scan.to);
        if seen.to == text.len() {
            return seen;
        }
        let number = self.next(seen.number, text[seen.to], steps);
        let to = seen.to + 1;
        let count = self.states.classes.count;
        let dead = DEAD * count;
        if number == MATCH * count {
            let (to, number) = (line_end(text, to, steps) + 1, Table::FOUND);
            return Scan { to, number, ..seen };
        }
        if number == dead {
            let (to, number) = (line_end(text, to, steps) + 1, START * count);
            return Scan { to, number, ..seen };
        }
        Scan { to, number, ..seen }
    }

    /// Moves on by known transitions, up to the byte whose transition is special or unknown.
    #[inline(always)]
    fn follow_known(&self, text: &[u8], scan: Scan) -> Scan
        requires scanned { HasScanned self.now text.now scan }
        ensures low { scan.to ≤ result.to }
        ensures scanned { HasScanned self.now text.now result }
        ensures passes { PassesLines self.now.tree text.now scan result }
        ensures known { IsKnown self.now scan.number (drop scan.to text.now) →
            IsKnown self.now result.number (drop result.to text.now) }
    {
        let table = self.table();
        let start = START * self.states.classes.count;
        let mut number = scan.number;
        for to in scan.to..text.len() {
            let next = table.next(number, text[to]);
            if next < start {
                return Scan { to, number, ..scan };
            }
            number = next;
        }
        let to = text.len();
        Scan { to, number, ..scan }
    }

    /// Computes an unknown transition, and stores it unless the cache is full.
    #[cold]
    #[inline(never)]
    fn fill(&mut self, slot: usize, byte: u8, steps: &mut Steps) -> u16
        requires slot { HasSlot self.old slot }
        ensures leads { LeadsIn self.new (state_in self.old slot) byte result }
        ensures stored { length self.old.states.cached.items < self.old.states.cached.most →
            next_number (table_in self.new) (slot * count_in self.old) byte ≡ result }
        ensures work { StepsWithin (byte_work self.old.tree - 2) self.old self.new steps.old steps.new }
    {
        let states = &mut self.states;
        steps.add(states.scratch.positions.len().div_ceil(64));
        states.cached.load(slot, &mut states.scratch);
        let accepts = states
            .scratch
            .step_over(self.program, &mut states.memory, byte, steps);
        let count = states.classes.count;
        let next = match (accepts, byte) {
            (true, b'\n') => Table::FOUND,
            (true, _) => MATCH * count,
            (false, b'\n') => START * count,
            _ => return self.next_number(slot, byte, steps),
        };
        self.put(slot, byte, next);
        next
    }

    /// The number of the state under construction, which is cached if it is new: the successor of
    /// the state in the slot, which does not accept before the byte.
    fn next_number(&mut self, slot: usize, byte: u8, steps: &mut Steps) -> u16
        requires slot { HasSlot self.old slot }
        requires within { byte ≢ newline }
        requires stays { accepts_before self.old.tree (state_in self.old slot) byte ≡ false }
        requires scratch { self.old.states.scratch ≡
            successor self.old.tree (state_in self.old slot) byte }
        ensures leads { LeadsIn self.new (state_in self.old slot) byte result }
        ensures stored { length self.old.states.cached.items < self.old.states.cached.most →
            next_number (table_in self.new) (slot * count_in self.old) byte ≡ result }
        ensures work { StepsWithin (11 * words (position_count self.old.tree) + 10 + 6 * 256)
            self.old self.new steps.old steps.new }
    {
        let count = self.states.classes.count;
        let words = self.states.scratch.positions.len().div_ceil(64);
        steps.add(words + 1 + (FIRST + 1) * count as usize);
        if self.is_lost(steps) {
            let dead = DEAD * count;
            self.put(slot, byte, dead);
            return dead;
        }
        let lookup = self.states.cached.find(&self.states.scratch, steps);
        if let Some(other) = lookup.slot
            && other >= START as usize
        {
            let next = (other * count as usize) as u16;
            self.put(slot, byte, next);
            return next;
        }
        if self.states.cached.len() == self.states.cached.most() {
            // The slot is no longer that of the state, so the transition is not stored.
            self.empty();
            return self.add(lookup.place);
        }
        let next = self.add(lookup.place);
        self.put(slot, byte, next);
        next
    }

    /// Whether the state under construction is known to be dead: each match begins at the start of
    /// the line, and no position is in the set.
    fn is_lost(&self, steps: &mut Steps) -> bool
        requires later { self.now.states.scratch.behind.first ≡ false }
        ensures dead { result ≡ true → IsDead self.now.tree self.now.states.scratch }
        ensures work { CountsAtMost (words (position_count self.now.tree)) steps.old steps.new }
    {
        self.program.is_anchored() && self.states.scratch.is_empty(steps)
    }

    /// Stores a transition for all bytes of the class.
    fn put(&mut self, slot: usize, byte: u8, next: u16)
        requires slot { HasSlot self.old slot }
        requires leads { LeadsIn self.old (state_in self.old slot) byte next }
        ensures leads { LeadsIn self.new (state_in self.old slot) byte next }
        ensures stored { next_number (table_in self.new) (slot * count_in self.old) byte ≡ next }
        ensures same { self.new.tree ≡ self.old.tree }
    {
        let class = self.states.classes.of[byte as usize] as usize;
        let transition = slot * self.states.classes.count as usize + class;
        self.states.transitions[transition] = next;
    }

    /// Caches the state under construction, and returns its number.
    fn add(&mut self, place: usize) -> u16
        requires room { length self.old.states.cached.items < self.old.states.cached.most }
        requires block { IsBlock (cuts_of self.old.tree) self.old.states.scratch.behind.unfinished }
        ensures number { HasState self.new result self.old.states.scratch }
        ensures other { result ≢ 0 }
        ensures count { count_in self.new ≡ count_in self.old }
        ensures kept { (slot : ℕ) → HasSlot self.old slot
            → HasSlot self.new slot × (state_in self.new slot ≡ state_in self.old slot) }
        ensures same { self.new.tree ≡ self.old.tree }
    {
        let count = self.states.classes.count;
        let slot = self.states.cached.len();
        self.states.cached.push(&self.states.scratch, place);
        let len = self.states.transitions.len() + count as usize;
        self.states.transitions.resize(len, count).unwrap();
        (slot * count as usize) as u16
    }

    /// Clears the cache except for the first states.
    fn empty(&mut self)
        ensures room { length self.new.states.cached.items < self.new.states.cached.most }
        ensures scratch { self.new.states.scratch ≡ self.old.states.scratch }
        ensures same { self.new.tree ≡ self.old.tree }
    {
        self.states.cached.truncate(FIRST);
        write_first(&mut self.states.transitions, &self.states.classes);
    }

    /// The table, as far as it is filled.
    #[inline(always)]
    pub(crate) fn table(&self) -> Table<'_>
        ensures rows { HasRows result }
        ensures tells { (has_match : List ℕ → Bool) → Decides has_match self.now.tree →
            TellsLines has_match result }
        ensures known { (lines : List ℕ) → number_after result (table_start result) lines ≢ unknown result →
            IsKnown self.now (start_number (count_in self.now)) lines }
        ensures states { IsTableOf self.now result }
    {
        Table {
            transitions: &self.states.transitions,
            of: &self.states.classes.of,
            count: self.states.classes.count as usize,
        }
    }

    /// Lists the ends of the matching lines between two offsets, until the list is full.
    pub(crate) fn list_ends(
        &mut self,
        block: &[u8],
        part: Range<usize>,
        ends: &mut [usize],
        steps: &mut Steps,
    ) -> EndList
        requires lines { AreLinesBetween block.now part.start part.end }
        requires room { 0 < length ends.old }
        ensures listed { AreListed (λ has_match. Decides has_match self.old.tree)
            block.now part.start result.to result.count ends.new }
        ensures most { result.to ≤ part.end }
        ensures all { result.to ≢ part.end → result.count ≡ length ends.old }
        ensures stops { result.count ≡ length ends.old →
            result.to ≡ slice_index ends.new (result.count - 1) + 1 }
        ensures moves { part.start < part.end → part.start < result.to }
        ensures work { StepsWithin (byte_work self.old.tree * (result.to - part.start)) self.old self.new
            steps.old steps.new }
        ensures known { IsKnown self.old (start_number (count_in self.old))
            (slice_range block.now part.start part.end) →
            steps.new.count ≡ steps.old.count + (result.to - part.start) }
    {
        let text = &block[..part.end];
        let mut scan = Scan {
            from: part.start,
            to: part.start,
            number: START * self.states.classes.count,
        };
        let mut count = 0;
        'scan: while scan.to < part.end && count < ends.len() {
            scan = self.advance(text, scan, steps);
            if scan.number == Table::FOUND {
                ends[count] = scan.to - 1;
                count += 1;
            }
        }
        EndList { count, to: scan.to }
    }
}
