// Whether the prefilter is worth its cost, and one lane faster than four. No contract cites it.

use crate::dfa::EndList;
use crate::listing::Candidate;

/// Below this distance between candidates without a match the DFA alone is faster than a prefilter.
const NEAR: usize = 256;
/// The cost of such candidates in a row that is put down to chance, in bytes scanned in their time.
const MOST_WASTED: usize = 16 * NEAR;
/// One lane is faster than four if it reads at most one of so many bytes: it jumps over the rest of
/// a line that is decided.
const EARLY: usize = 4;
/// The longest backoff, in parts.
const LONGEST: usize = 64;

/// Exponential backoff: the number of parts before something is tried again, 1, 2, 4 and so on, as
/// long as the answer stays.
#[derive(Clone, Copy, Default, Drop)]
pub(crate) struct Backoff {
    remaining: usize,
    last: usize,
}

impl Backoff {
    /// Whether it is over, so that this part is a trial. Counts the part.
    pub(crate) fn is_over(&mut self) -> bool {
        let is_over = self.remaining == 0;
        self.remaining = self.remaining.saturating_sub(1);
        is_over
    }

    /// Starts a backoff, twice as long as the last one, up to `LONGEST`.
    fn begin(&mut self) {
        self.last = self.last.saturating_mul(2).clamp(1, LONGEST);
        self.remaining = self.last;
    }
}

/// Counters that guess what is faster: the prefilter or the DFA alone, and one lane or four.
#[derive(Default, Drop)]
pub(crate) struct Pacing {
    /// The prefilter is used for a part of a block if this is over.
    pub(crate) prefilter: Backoff,
    /// The cost of near candidates in a row that had no match, in bytes scanned in their time.
    wasted: usize,
    /// A scan begins with a sample of the text if this is over.
    pub(crate) sampling: Backoff,
    /// One lane is faster than four, since it leaves most lines early.
    pub(crate) one_lane: bool,
}

impl Pacing {
    /// Notes how many bytes of a sample are read before their lines are decided.
    pub(crate) fn note_sample(&mut self, undecided: usize, len: usize) {
        let early = undecided <= len / EARLY;
        if early != self.one_lane {
            self.one_lane = early;
            self.sampling.last = 0;
        }
        self.sampling.begin();
    }

    /// Notes how far a candidate was, what others before it cost, and whether its line is listed.
    pub(crate) fn note_candidate(&mut self, from: usize, found: Candidate, listed: EndList) {
        let passed = listed.to.saturating_sub(from);
        let (skipped, tested) = match found.line {
            Some(line) if listed.count > 0 => (line.start.saturating_sub(from), 0),
            _ => (passed, NEAR),
        };
        self.note(skipped >= NEAR, found.wasted, passed, tested);
    }

    /// Notes whether a candidate, or a list by words, was far, what those before it cost that are
    /// no words, and what its test did. The DFA would have read each byte that was passed.
    pub(crate) fn note(&mut self, is_far: bool, wasted: usize, passed: usize, tested: usize) {
        let wasted = wasted.saturating_sub(passed);
        if is_far && wasted == 0 {
            self.wasted = 0;
            self.prefilter.last = 0;
        } else if wasted > 0 || tested > 0 {
            self.wasted = self.wasted.saturating_add(wasted).saturating_add(tested);
            if self.wasted > MOST_WASTED {
                self.prefilter.begin();
            }
        }
    }
}
