//! Matches lines against a pattern. A `Program` is a compiled pattern, and a `Matcher` runs it by a
//! lazy DFA, line by line or over many lines at once. What a tree matches is defined in
//! `specs/Matching.antt` of `cs_syntax`. Read `specs/Deciding.antt` first, then `specs/Lines.antt`,
//! `specs/Skipping.antt`, `specs/Automaton.antt` (what contracts see of a matcher),
//! `specs/Size.antt` and `specs/Work.antt` (what a step is). The second group of `specs/Lib.antt`
//! has the definitions of the internals.
//!
//! *Position automaton* (`glushkov.rt`, `parts.rt`). The sets of a program, from left to right, are
//! its *positions*, the states of Glushkov's NFA. It is not built: *nullable*, *first*, *last* and
//! *follow* are computed for each byte on the *parts* of the program, its tree without the sets. A
//! set of characters has two positions, *begun* and *taken*; lowered to sets of bytes, a dot would
//! be 21 and a range up to 55. `x{n,}` is n - 1 copies and a loop of at least one iteration, since
//! `((a+)+)+` nested 200 deep would otherwise have 2^200 positions. Positions are moved 64 at once
//! by masks, as in Shift-And (Baeza-Yates and Gonnet), computed when an input is seen first. The
//! search is unanchored. The proof is stated for an arbitrary set of offsets at which a subtree may
//! begin, so that concatenation is composition, and a loop may also begin wherever it is final.
//!
//! *Lazy DFA* (`dfa.rt`). A state is a position set, two look-behind bits and the unfinished
//! character. States and transitions are computed on demand, as in RE2, with one partition of the
//! bytes into *classes*. A match is reported one byte late: the transition over a byte says whether
//! the state accepts before it, so that `$` and `\b` need no look-ahead.
//!
//! *Searching* (`listing.rt`, `lanes.rt`). The ends of the matching lines of a block are listed
//! part by part: by an exact *prefilter*, up to a candidate of another one, by four *lanes* over
//! transitions that are known, or by one. No contract depends on which (`pacing.rt`).
//!
//! *Spans.* A `Finder` simulates the position automaton without the DFA, in *passes* in which a
//! match may begin in a part of the line only (`specs/Passes.antt`), or compares the bytes with a
//! program that is one word (`specs/OneWord.antt`).
#![tactic(auto)]

mod byte_classes;
mod cached_states;
mod dfa;
mod expand;
mod glushkov;
mod lanes;
pub mod laws;
mod listing;
mod matcher;
mod pacing;
mod parts;
mod position;
mod position_set;
mod program;
mod spans;
mod state;

pub use listing::{line_to, whole_lines_len};
pub use matcher::{Cache, Line, Matcher};
pub use program::Program;
pub use spans::{Finder, ListedSpans, Pass, Span, Wanted};
