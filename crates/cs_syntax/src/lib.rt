//! The syntax of patterns, after RE2: the parser, the syntax tree, the spans of a line that a tree
//! matches, and character sets in UTF-8: their steps over bytes.
//! Read `specs/Matching.antt` first, then `specs/Parsing.antt`.
//!
//! `parse` makes one pass over the text, with an explicit stack of the open groups, and makes a
//! `Node`: a tree of byte sets, character sets, sequences, alternations, repeats and empty-width
//! assertions. Contracts see it as a plain tree of `specs/`, without capacities and pointers, so
//! that "the tree" has one meaning. A `Pattern` is a tree of bounded weight, which bounds the
//! memory of everything above it. `Pattern::either` joins the branches of two trees, `whole_line`
//! puts `^` before a tree and `$` after it, and `literal` is the sequence of the characters of a
//! text, which are not parsed (`specs/Joining.antt`). A `ByteSet` is a bitmap of 256 bits in four
//! integers; contracts see the list of its 256 membership values.
//!
//! A dot, a class or a negated class with a non-ASCII character is a set of characters. A `CharSet`
//! is a canonical list of ranges: the ranges are sorted and maximal, and d7ff and e000 are
//! adjacent, because surrogates are not characters. `CharSet::from_ranges` sorts and merges ranges,
//! and the complement is the gaps between them. Both compare characters by their *index* among all
//! characters, so the surrogates need no special case. `CharSet::contains` is a binary search.
//!
//! A matcher that reads bytes and steps characters whole keeps the *unfinished character* before an
//! offset (`Unfinished`): how many continuation bytes it needs, and the block of numbers in which
//! it lies. The `Cuts` of a tree are the ends of the ranges of its sets of characters, and those of
//! UTF-8, so all numbers of an *interval* between two cuts are in the same sets. If an interval has
//! the whole block, it is kept in place of the block: the rest of the line has the same result from
//! all its numbers, and a text in a script that the pattern does not name has one unfinished
//! character for each number of bytes. `Cuts::step` says what a byte does (`CharStep`): it begins a
//! character, is inside one, completes one, or belongs to none, which rules out overlong forms,
//! surrogates and numbers past 10ffff. A set of characters has two bits: *begun* says that it was
//! entered where the unfinished character begins, and *taken* that a member has just ended that
//! began where the set was entered (`laws::characters_are_found_byte_by_byte`; `specs/Cuts.antt`,
//! `specs/CharSteps.antt`).
#![tactic(auto)]

mod byte_set;
mod char_set;
mod char_step;
mod classes;
mod escapes;
mod fault;
mod items;
pub mod laws;
mod lookahead;
mod node;
mod parser;

pub use byte_set::ByteSet;
pub use char_set::CharSet;
pub use char_step::{CharStep, Cuts, Unfinished};
pub use fault::{PatternError, PatternFault};
pub use node::{Node, Pattern};
pub use parser::parse;
