//! A prefilter: it finds the words that every line that a tree matches has to contain, and skips
//! the offsets of a text at which none of them occurs. A word is a byte set for each of some
//! neighbouring bytes, and one for the byte before them. Read `specs/WordAt.antt` first, and
//! `specs/OffsetWork.antt` (what a step is); `specs/Runs.antt` defines what a walk over a tree
//! knows, `specs/Probe.antt` what a probe says, `specs/Pairs.antt` the pairs, `specs/Buckets.antt`
//! the nibble masks and `specs/Prefixes.antt` how words are compared.
//!
//! One walk over the tree collects *runs*: the byte sets that neighbouring bytes of each match are
//! in, from left to right. `$`, and an edge of a word after word bytes, give a word of the run so
//! far and of the byte that follows: the newline, or a byte that is no word byte. The run goes on
//! without it. `^`, and an edge before a word byte, say what the byte before the run is, unless the
//! line begins there. No other set has a newline, so a word lies in one line and its newline. A set
//! of characters ends a run with its first byte, and begins the next one with its last, and so does
//! a repeat of at least one iteration with its first and last iteration. The branches of an
//! alternation continue the run before it, and are continued by the sets and assertions behind it.
//! The rarest run gives the only word, or an alternation gives the words of all its branches,
//! whichever is rarer. If the tree matches each of the words by itself, the prefilter is *exact*: a
//! line has a match if and only if it contains a word.
//!
//! A *probe* tests 64 offsets at once; the words that it may have found are compared there, and
//! strides without a mark are passed by a loop that calls nothing. There are two kinds of probes:
//!
//! - *Pairs of bytes*, for one or two words, as in the `memmem` of the crate `memchr`: each word
//!   has a pair of rare bytes, which are compared at their distance. Pairs are chosen by a table of
//!   bigrams, neighbours first.
//! - *Class trigrams*, for other words, after Hyperscan's Teddy: the words are in eight *buckets*,
//!   and for each of their first sets two masks (shufti) give the buckets of a byte by its low and
//!   its high nibble. Where three or five low nibbles promise few offsets, they are tested alone.
//!
//! How lines are skipped is chosen by byte frequencies, from a rough table for source text. A word
//! is expected as often as its rarest three neighbouring bytes, but three that are part of the most
//! frequent words of source text (`str`, `ing`) at 0.05 % of the offsets. The estimates may be
//! wrong for a text, so `Prefilter::skip` gives up, and says so, where its rejected candidates cost
//! more than the bytes that it skips. These numbers affect only speed.
#![tactic(auto)]

mod comparing;
mod listing;
mod prefilter;
mod probe;
mod rarity;
mod required;
mod runs;
mod scan;
mod word;
mod words;

pub use listing::Listed;
pub use prefilter::Prefilter;
pub use scan::WordStop;
pub use word::Word;
