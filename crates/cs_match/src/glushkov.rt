// Glushkov's position automaton, simulated on the parts of a program. A step is two traversals, and
// each visits a part once: the first, bottom-up, computes for each repeat whether its body is
// final; the second, top-down, finds which positions are entered. Then all positions are moved over
// the byte at once. Cursors count the positions and repeats that were visited.
ghost use Rattle.std.specs.Prelude.{◌≡◌, ℕ, ◌+◌, ◌*◌, ◌<◌, ◌≤◌, ◌^◌, ◌%◌, ◌==◌, ◌&&◌, ◌||◌, IfOk, length, take, true, false};
ghost use Rattle.std.specs.Int.{bit_at};
ghost use Rattle.cs_match.specs.Cited.{tree_of, alt, position_count, position_count_of, repeats, nullable, accepts, loop_ends, step, IsExpanded, entered, run, runs, options, shape_of, size_of, EndsFrom, Enters, HasRoomAt, IsNoted, loops_after, position_past, repeat_past, nodes, words, step_work, IsScratch, CountsAtMost};
ghost use Rattle.cs_match.specs.declared.state.LookAround.{LookAround};

use crate::parts::{Fragment, Sequences};
use crate::position::{Input, Masks};
use crate::position_set::PositionSet;
use crate::program::Program;
use crate::state::LookAround;
use cs_syntax::Node;
use cs_tree::Steps;
use std::alloc::{AllocError, Global};

/// The number of repeats of the tree.
pub(crate) fn count_repeats(node: &Node) -> usize
    requires { repeats (tree_of node.now) < 2 ^ 64 }
    ensures { result ≡ repeats (tree_of node.now) }
{
    match node {
        Node::Cat(parts) | Node::Alt(parts) => {
            let mut n = 0;
            for part in parts {
                n += count_repeats(part);
            }
            n
        }
        Node::Rep(x, _, _) => count_repeats(x) + 1,
        _ => 0,
    }
}

/// How many positions and repeats a traversal has visited.
#[derive(Drop)]
struct Cursor {
    position: usize,
    repeat: usize,
}

const START: Cursor = Cursor {
    position: 0,
    repeat: 0,
};

/// Whether a subtree can end at the current offset.
#[derive(Clone, Copy, Drop)]
struct Ends {
    /// After one of its own positions.
    accepting: bool,
    /// By matching the empty span.
    nullable: bool,
}

impl Ends {
    /// The ends of a node without positions.
    fn within(nullable: bool) -> Ends
        ensures accepting { result.accepting ≡ false }
        ensures nullable { result.nullable ≡ nullable }
    {
        Ends {
            accepting: false,
            nullable,
        }
    }

    /// The ends of a concatenation.
    fn then(self, next: Ends) -> Ends
        ensures accepting { result.accepting ≡ (next.accepting || (self.accepting && next.nullable)) }
        ensures nullable { result.nullable ≡ (self.nullable && next.nullable) }
    {
        Ends {
            accepting: next.accepting || (self.accepting && next.nullable),
            nullable: self.nullable && next.nullable,
        }
    }

    /// The ends of an alternation.
    fn or(self, other: Ends) -> Ends
        ensures accepting { result.accepting ≡ (self.accepting || other.accepting) }
        ensures nullable { result.nullable ≡ (self.nullable || other.nullable) }
    {
        Ends {
            accepting: self.accepting || other.accepting,
            nullable: self.nullable || other.nullable,
        }
    }
}

/// The memory of a step.
#[derive(Drop)]
pub(crate) struct Scratch {
    /// A flag for each repeat.
    pub(crate) loops: Vec<bool>,
    /// The positions that are entered, and one more.
    pub(crate) entries: PositionSet,
    pub(crate) masks: Masks,
}

impl Scratch {
    /// The memory of the steps of a program.
    pub(crate) fn new(alloc: Global, program: &Program) -> Result<Scratch, AllocError>
        ensures scratch { IfOk result (IsScratch program.now) }
        ensures expanded { IsExpanded program.now }
    {
        Ok(Scratch {
            loops: vec![in alloc; false; program.repeats()]?,
            entries: PositionSet::none(alloc, program.positions().len() + 1)?,
            masks: Masks::new(alloc, program)?,
        })
    }
}

/// What holds at an offset: the set, for each repeat whether its body is final, the look-around.
#[derive(Clone, Copy)]
struct Configuration<'a> {
    positions: &'a PositionSet,
    loops: &'a [bool],
    here: LookAround,
}

/// An offset of a line: whether a match may begin there, and the look-around.
#[derive(Clone, Copy)]
pub(crate) struct Offset {
    pub(crate) begins: bool,
    pub(crate) here: LookAround,
}

/// Moves the position set over the byte at the offset, and returns whether it accepts before it.
pub(crate) fn step_over(
    program: &Program,
    at: Offset,
    positions: &mut PositionSet,
    scratch: &mut Scratch,
    input: Input,
    steps: &mut Steps,
) -> bool
    requires one_each { length positions.old ≡ position_count program.now }
    requires scratch { IsScratch program.now scratch.old }
    ensures accepting { result ≡ accepts program.now at.begins positions.old at.here }
    ensures positions { positions.new ≡ step program.now at.begins positions.old at.here input }
    ensures scratch { IsScratch program.now scratch.new }
    ensures cost { CountsAtMost (step_work program.now) steps.old steps.new }
{
    let accepting = enter(program, at, positions, scratch, steps);
    let slot = scratch.masks.find(program, input, steps);
    positions.move_over(&scratch.entries, &scratch.masks.slots[slot], steps);
    accepting
}

/// Finds which positions are entered, and returns whether the position set accepts.
pub(crate) fn enter(
    program: &Program,
    at: Offset,
    positions: &PositionSet,
    scratch: &mut Scratch,
    steps: &mut Steps,
) -> bool
    requires one_each { length positions.now ≡ position_count program.now }
    requires scratch { IsScratch program.now scratch.old }
    ensures accepting { result ≡ accepts program.now at.begins positions.now at.here }
    ensures entries { take (position_count program.now) scratch.new.entries
        ≡ entered program.now at.begins positions.now at.here }
    ensures scratch { IsScratch program.now scratch.new }
    ensures cost { CountsAtMost (2 * nodes program.now + words (position_count program.now + 1))
        steps.old steps.new }
{
    let part = program.part();
    note_loops(part, positions, &mut scratch.loops, at.here, steps);
    let entries = &mut scratch.entries;
    entries.shift_from(positions, steps);
    let here = Configuration {
        positions,
        loops: &scratch.loops,
        here: at.here,
    };
    let mut cursor = START;
    advance(part, at.begins, &here, entries, &mut cursor, steps)
}

/// Stores for each repeat whether its body is final here.
fn note_loops(
    root: &Fragment,
    positions: &PositionSet,
    loops: &mut [bool],
    here: LookAround,
    steps: &mut Steps,
)
    requires one_each { length positions.now ≡ position_count (shape_of root.now) }
    requires loops { length loops.old ≡ repeats (shape_of root.now) }
    ensures noted { loops.new ≡ loop_ends (shape_of root.now) positions.now here }
    ensures cost { CountsAtMost (size_of root.now) steps.old steps.new }
{
    if !loops.is_empty() {
        let mut cursor = START;
        find_ends(root, positions, loops, here, &mut cursor, steps);
    }
}

/// The ends of the tree at the current offset. Stores for each repeat whether its body is final.
fn find_ends(
    part: &Fragment,
    positions: &PositionSet,
    loops: &mut [bool],
    here: LookAround,
    cursor: &mut Cursor,
    steps: &mut Steps,
) -> Ends
    requires room { position_past (shape_of part.now) cursor.old ≤ length positions.now }
    requires within { repeat_past (shape_of part.now) cursor.old ≤ length loops.old }
    ensures ends { EndsFrom (shape_of part.now) cursor.old positions.now here result cursor.new }
    ensures noted { loops.new ≡ loops_after (shape_of part.now) cursor.old positions.now here loops.old }
    ensures cost { steps.new.count ≡ steps.old.count + size_of part.now }
{
    steps.add(1);
    match part {
        Fragment::Run(n) => end_run(*n, positions, cursor),
        Fragment::Alternation(sequences) => end_sequences(sequences, positions, cursor, steps),
        Fragment::Options(n, count) => {
            steps.add(*count);
            end_options(*n, *count, positions, cursor)
        }
        Fragment::Cat(parts) => {
            let mut all = Ends::within(true);
            for part in parts {
                all = all.then(find_ends(part, positions, loops, here, cursor, steps));
            }
            all
        }
        Fragment::Alt(parts) => {
            let mut some = Ends::within(false);
            for part in parts {
                some = some.or(find_ends(part, positions, loops, here, cursor, steps));
            }
            some
        }
        Fragment::Rep(x, least) => {
            let own = cursor.repeat;
            cursor.repeat += 1;
            let ends = find_ends(x, positions, loops, here, cursor, steps);
            loops[own] = ends.accepting;
            Ends::within(*least == 0).or(ends)
        }
        Fragment::LineStart => Ends::within(here.first),
        Fragment::LineEnd => Ends::within(here.last),
        Fragment::WordEdge => Ends::within(here.edge),
        Fragment::NotWordEdge => Ends::within(!here.edge),
    }
}

/// The ends of a run: its last position, or the empty span if it has none.
fn end_run(n: usize, positions: &PositionSet, cursor: &mut Cursor) -> Ends
    requires { position_past (run n) cursor.old ≤ length positions.now }
    ensures { (here : LookAround) → EndsFrom (run n) cursor.old positions.now here result cursor.new }
{
    if n == 0 {
        return Ends::within(true);
    }
    // The run is within the set, so the sum cannot overflow.
    prove!(n <= positions.len() - cursor.position);
    cursor.position += n;
    Ends {
        accepting: positions.get(cursor.position - 1),
        nullable: false,
    }
}

/// Sets or clears the first position of a run, and returns whether the run accepts. Each other
/// position is entered if the one before it is in the set.
fn enter_run(
    n: usize,
    enter: bool,
    at: &Configuration<'_>,
    entries: &mut PositionSet,
    cursor: &mut Cursor,
) -> bool
    requires { HasRoomAt (run n) cursor.old at.now entries.old }
    ensures { Enters (run n) enter cursor.old at.now entries.old result entries.new cursor.new }
{
    if n == 0 {
        return enter;
    }
    prove!(n <= at.positions.len() - cursor.position);
    entries.put(cursor.position, enter);
    cursor.position += n;
    at.positions.get(cursor.position - 1)
}

/// The ends of options: the last position of each, or the empty span.
fn end_options(n: usize, count: usize, positions: &PositionSet, cursor: &mut Cursor) -> Ends
    requires { position_past (options n count) cursor.old ≤ length positions.now }
    ensures { (here : LookAround) →
        EndsFrom (options n count) cursor.old positions.now here result cursor.new }
{
    if are_many(n, count) {
        // The row is within the set, so its end does not overflow.
        prove!(cursor.position <= positions.len());
        let from = cursor.position;
        let end = from + count * n;
        cursor.position = end;
        return Ends {
            accepting: positions.first_in(from, end, option_bits(n, from + n - 1)) < end,
            nullable: true,
        };
    }
    let mut all = Ends::within(true);
    for k in 0..count {
        let ends = end_run(n, positions, cursor);
        all = all.then(ends.or(Ends::within(true)));
    }
    all
}

/// Enters options, each where it can begin, and returns whether they accept.
fn enter_options(
    n: usize,
    count: usize,
    enter: bool,
    at: &Configuration<'_>,
    entries: &mut PositionSet,
    cursor: &mut Cursor,
) -> bool
    requires { HasRoomAt (options n count) cursor.old at.now entries.old }
    ensures { Enters (options n count) enter cursor.old at.now entries.old result entries.new cursor.new }
{
    if are_many(n, count) {
        // The row is within the entries, so neither its end nor the next offset overflows.
        prove!(cursor.position < entries.len());
        let from = cursor.position;
        let end = from + count * n;
        cursor.position = end;
        let last = at
            .positions
            .first_in(from, end, option_bits(n, from + n - 1));
        entries.put(from, enter);
        // All options after one that ends are entered.
        let first = if enter { from } else { last + 1 };
        entries.fill(first, end, option_bits(n, from));
        return enter | (last < end);
    }
    let mut accepting = enter;
    for k in 0..count {
        accepting = enter_run(n, accepting, at, entries, cursor) | accepting;
    }
    accepting
}

/// Whether options are entered by words: they are short, and so many that this is faster.
fn are_many(n: usize, count: usize) -> bool
    ensures { result ≡ true → (0 < n) × (n ≤ 2) × (0 < count) }
{
    n > 0 && n <= 2 && count > 3
}

/// The bits in each word of every nth position, position `at` included.
fn option_bits(n: usize, at: usize) -> u64
    requires { (0 < n) × (n ≤ 2) }
    ensures { (k : ℕ) → (bit_at result (k % 64) == 1) ≡ ((at + k) % n == 0) }
{
    if n == 1 {
        u64::MAX
    } else {
        0x5555_5555_5555_5555 << (at % 2)
    }
}

/// The ends of an alternation of sequences: their last positions.
fn end_sequences(
    sequences: &Sequences,
    positions: &PositionSet,
    cursor: &mut Cursor,
    steps: &mut Steps,
) -> Ends
    requires { position_past (alt (runs sequences.now)) cursor.old ≤ length positions.now }
    ensures ends { (here : LookAround) →
        EndsFrom (alt (runs sequences.now)) cursor.old positions.now here result cursor.new }
    ensures cost { steps.new.count ≡ steps.old.count + words (position_count_of (runs sequences.now)) }
{
    let from = cursor.position;
    let n = sequences.lasts().len();
    steps.add(n.div_ceil(64));
    prove!(n <= positions.len() - from);
    cursor.position += n;
    Ends {
        accepting: positions.meets(from, sequences.lasts()),
        nullable: false,
    }
}

/// Sets or clears the first position of each sequence, and returns whether one of them accepts.
fn enter_sequences(
    sequences: &Sequences,
    enter: bool,
    at: &Configuration<'_>,
    entries: &mut PositionSet,
    cursor: &mut Cursor,
    steps: &mut Steps,
) -> bool
    requires { HasRoomAt (alt (runs sequences.now)) cursor.old at.now entries.old }
    ensures enters { Enters (alt (runs sequences.now)) enter cursor.old at.now entries.old result
        entries.new cursor.new }
    ensures cost { steps.new.count ≡ steps.old.count + words (position_count_of (runs sequences.now)) }
{
    let from = cursor.position;
    let n = sequences.lasts().len();
    steps.add(n.div_ceil(64));
    prove!(n <= at.positions.len() - from);
    cursor.position += n;
    entries.put_all(from, sequences.firsts(), enter);
    at.positions.meets(from, sequences.lasts())
}

/// Finds which positions of the part are entered, and returns whether the part accepts. `enter`
/// says whether the part can begin here.
#[tactic(auto, using(crate::proofs::PartLemmas::part_rules))]
fn advance(
    part: &Fragment,
    enter: bool,
    at: &Configuration<'_>,
    entries: &mut PositionSet,
    cursor: &mut Cursor,
    steps: &mut Steps,
) -> bool
    requires room { HasRoomAt (shape_of part.now) cursor.old at.now entries.old }
    requires noted { IsNoted (shape_of part.now) cursor.old at.now }
    ensures enters { Enters (shape_of part.now) enter cursor.old at.now entries.old result entries.new
        cursor.new }
    ensures cost { steps.new.count ≡ steps.old.count + size_of part.now }
{
    steps.add(1);
    match part {
        Fragment::Run(n) => enter_run(*n, enter, at, entries, cursor),
        Fragment::Alternation(sequences) => {
            enter_sequences(sequences, enter, at, entries, cursor, steps)
        }
        Fragment::Options(n, count) => {
            steps.add(*count);
            enter_options(*n, *count, enter, at, entries, cursor)
        }
        Fragment::Cat(parts) => {
            let mut accepting = enter;
            for part in parts {
                accepting = advance(part, accepting, at, entries, cursor, steps);
            }
            accepting
        }
        Fragment::Alt(parts) => {
            let mut accepting = false;
            for part in parts {
                accepting |= advance(part, enter, at, entries, cursor, steps);
            }
            accepting
        }
        Fragment::Rep(x, least) => {
            let again = at.loops[cursor.repeat];
            cursor.repeat += 1;
            // The operators `|` and `&` make no branch. Each would have all clauses to prove.
            let accepting = advance(x, enter | again, at, entries, cursor, steps);
            accepting | ((*least == 0) & enter)
        }
        Fragment::LineStart => enter & at.here.first,
        Fragment::LineEnd => enter & at.here.last,
        Fragment::WordEdge => enter & at.here.edge,
        Fragment::NotWordEdge => enter & !at.here.edge,
    }
}
