// The scan for words by a probe. Strides of 64 offsets are probed, and words are compared at the
// offsets that pass.
ghost use Rattle.std.specs.Prelude.{◌≡◌, ◌≤◌, ◌<◌, ◌+◌, ◌*◌, ◌-◌, length, min, take};
ghost use Rattle.cs_prefilter.specs.Cited.{NoneFrom, AreFound, IsStop, StopsBy, NoneUnmarked, decided, offset_work, CountsAtMost};

use crate::comparing::{WordList, occurs};
use crate::probe::{Probe, REACH, STRIDE, marks, none_passes};
use cs_tree::Steps;

/// How many bytes the DFA scans in the time of a candidate that is no word: so many, and so many
/// for each word.
const CANDIDATE_COST: usize = 20;

const WORD_COST: usize = 2;

/// A search is given up when candidates that are no words cost so many bytes more than are skipped.
pub(crate) const MOST_WASTED: usize = 4096;

/// The length of a copy of the last bytes of a text and zeros behind them, in which two strides are
/// probed.
const LAST: usize = 2 * STRIDE + 32;

/// The end of a search for a word: at the word, at the end of the text, or where the search is
/// given up.
#[derive(Clone, Copy, Drop)]
pub struct WordStop {
    pub offset: usize,
    pub has_word: bool,
    /// The cost of the candidates that are no words, in bytes that the DFA scans in their time.
    pub wasted: usize,
}

impl WordList {
    /// Skips to the first word at or after `from`, or to the end of the text, unless too many
    /// candidates are no words.
    #[inline(never)]
    pub(crate) fn first<P: Probe>(
        &self,
        probe: &P,
        text: &[u8],
        from: usize,
        steps: &mut Steps,
    ) -> WordStop
        requires within { from ≤ length text.now }
        requires finds { AreFound (P.Finds probe.now) self.now.words.items }
        ensures stop { IsStop self.now.words.items text.now from result }
        ensures work { CountsAtMost ((result.offset - from + 1) * offset_work) steps.old steps.new }
    {
        let cost = self.candidate_cost();
        let mut wasted = 0usize;
        let mut offset = from;
        'strides: while text.len() - offset >= REACH {
            let stop = self.first_in_stride(probe, text, offset, steps);
            wasted = wasted.saturating_add(cost.saturating_mul(stop.wasted));
            if stop.has_word || wasted > (offset - from).saturating_add(MOST_WASTED) {
                return WordStop { wasted, ..stop };
            }
            offset = skip_strides(probe, text, stop.offset, steps);
        }
        let stop = self.first_in_rest(probe, text, offset, steps);
        WordStop { wasted, ..stop }
    }

    /// How many bytes the DFA scans in the time of a candidate that is no word.
    pub(crate) fn candidate_cost(&self) -> usize {
        CANDIDATE_COST + WORD_COST * self.words.len()
    }

    /// The first word in a stride, or its end. What is wasted is the number of candidates that are
    /// no words.
    #[inline(always)]
    pub(crate) fn first_in_stride<P: Probe>(
        &self,
        probe: &P,
        text: &[u8],
        offset: usize,
        steps: &mut Steps,
    ) -> WordStop
        requires within { offset + REACH ≤ length text.now }
        requires finds { AreFound (P.Finds probe.now) self.now.words.items }
        ensures stop { IsStop self.now.words.items text.now offset result }
        ensures by { StopsBy (offset + STRIDE) result }
        ensures work { CountsAtMost (decided offset result * offset_work) steps.old steps.new }
    {
        let mut wasted = 0usize;
        let mut rest = marks(probe, text, offset);
        'marks: while rest != 0 {
            let k = rest.trailing_zeros() as usize;
            let at = offset + k;
            if self.occur(probe.buckets(text, at), text, at, steps) {
                steps.add(k + 1);
                return WordStop {
                    offset: at,
                    has_word: true,
                    wasted,
                };
            }
            wasted += 1;
            rest &= !(1 << k);
        }
        steps.add(STRIDE);
        WordStop {
            offset: offset + STRIDE,
            has_word: false,
            wasted,
        }
    }

    /// The first word in the last bytes of the text, or its end. The bytes are copied before zeros
    /// and probed there.
    #[inline(never)]
    pub(crate) fn first_in_rest<P: Probe>(
        &self,
        probe: &P,
        text: &[u8],
        from: usize,
        steps: &mut Steps,
    ) -> WordStop
        requires within { from ≤ length text.now }
        requires short { length text.now < from + REACH }
        requires finds { AreFound (P.Finds probe.now) self.now.words.items }
        ensures stop { IsStop self.now.words.items text.now from result }
        ensures by { StopsBy (length text.now) result }
        ensures work { CountsAtMost (decided from result * offset_work) steps.old steps.new }
    {
        let last = before_zeros(&text[from..]);
        let stop = self.first_marked(marks(probe, &last, 0), text, from, steps);
        if stop.has_word || stop.offset == text.len() {
            return stop;
        }
        self.first_marked(marks(probe, &last, STRIDE), text, stop.offset, steps)
    }

    /// The first word at one of the next 64 offsets, or their end, given a bit for each of them at
    /// which one may occur.
    fn first_marked(&self, marks: u64, text: &[u8], offset: usize, steps: &mut Steps) -> WordStop
        requires within { offset ≤ length text.now }
        requires marked { NoneUnmarked self.now.words.items text.now offset marks }
        ensures stop { IsStop self.now.words.items text.now offset result }
        ensures by { StopsBy (min (offset + STRIDE) (length text.now)) result }
        ensures work { CountsAtMost (decided offset result * offset_work) steps.old steps.new }
    {
        let len = STRIDE.min(text.len() - offset);
        let mut rest = marks;
        'marks: while rest != 0 {
            let k = rest.trailing_zeros() as usize;
            if k < len && occurs(&self.words, text, offset + k, steps) {
                steps.add(k + 1);
                return WordStop {
                    offset: offset + k,
                    has_word: true,
                    wasted: 0,
                };
            }
            rest &= !(1 << k);
        }
        steps.add(len);
        WordStop {
            offset: offset + len,
            has_word: false,
            wasted: 0,
        }
    }
}

/// The bytes, and zeros behind them.
fn before_zeros(bytes: &[u8]) -> [u8; LAST]
    requires { length bytes.now < REACH }
    ensures bytes { take (length bytes.now) result ≡ bytes.now }
    ensures long { length result ≡ LAST }
{
    let mut last = [0u8; LAST];
    last[..bytes.len()].copy_from_slice(bytes);
    last
}

/// Skips strides in which no offset passes.
#[inline(always)]
pub(crate) fn skip_strides<P: Probe>(
    probe: &P,
    text: &[u8],
    from: usize,
    steps: &mut Steps,
) -> usize
    requires { from ≤ length text.now }
    ensures low { from ≤ result }
    ensures high { result ≤ length text.now }
    ensures none { NoneFrom (P.Finds probe.now) text.now from result }
    ensures work { steps.new.count ≡ steps.old.count + (result - from) }
{
    let mut offset = from;
    'strides: while text.len() - offset >= REACH && none_passes(probe, text, offset) {
        steps.add(STRIDE);
        offset += STRIDE;
    }
    offset
}
