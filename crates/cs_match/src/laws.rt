// Laws of the definitions.
ghost use Rattle.std.specs.Prelude.{◌≡◌, ◌∷◌, ◌++◌, [], ℕ, Bool, List};
ghost use Rattle.cs_match.specs.Cited.{Tree, expansion, FitsWeight, FirstSpansAreUnique, FirstSpansBeginAll, SpansAreUnique, IsExpanded, PassesFindEnds, MatchingIsDecidable, newline, lines, terminated_lines, HasNoNewline};

/// Whether a line has a match is decidable for each tree.
pub fn matching_is_decidable()
    ensures { MatchingIsDecidable }
{}

/// Lines are the maximal parts of a text without a newline. An empty part at the end is not a line.
pub fn lines_are_parts()
    ensures cut { (part more : List ℕ) → HasNoNewline part →
        lines (part ++ newline ∷ more) ≡ part ∷ lines more }
    ensures last { (b : ℕ) (part : List ℕ) → HasNoNewline (b ∷ part) → lines (b ∷ part) ≡ (b ∷ part) ∷ [] }
    ensures none { lines [] ≡ [] }
{}

/// Terminated lines are the same, without a last part that has no newline.
pub fn terminated_lines_are_parts()
    ensures cut { (part more : List ℕ) → HasNoNewline part →
        terminated_lines (part ++ newline ∷ more) ≡ part ∷ terminated_lines more }
    ensures last { (part : List ℕ) → HasNoNewline part → terminated_lines part ≡ [] }
{}

/// The expansion of a tree has at most two positions and three nodes for each unit of the tree's
/// weight.
pub fn programs_are_small()
    ensures { (tree : Tree) → FitsWeight (expansion tree) tree }
{}

/// The first match of a line from an offset on is unique.
pub fn first_spans_are_unique()
    ensures { FirstSpansAreUnique }
{}

/// A line has one list of all its matches, and its first matches begin that list.
pub fn spans_are_unique()
    ensures all { SpansAreUnique }
    ensures first { FirstSpansBeginAll }
{}

/// A pass of the automaton in which a match may begin in a part of the line finds the ends of the
/// matches that begin there.
pub fn passes_find_ends()
    ensures { (whole : Bool) (line : List ℕ) (tree : Tree) (from until : ℕ) → IsExpanded tree →
        PassesFindEnds whole line tree from until }
{}
