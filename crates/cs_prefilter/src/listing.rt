// Lists of the lines that have a word. The search goes on behind each line, and looks for no start
// of a line.
ghost use Rattle.std.specs.Prelude.{◌≡◌, ◌≢◌, ◌≤◌, ◌<◌, ◌+◌, ◌-◌, ◌*◌, false, length, slice_index, IsTrue};
ghost use Rattle.cs_prefilter.specs.Cited.{AreFound, IsStop, decided, IsFull, IsListFrom, IsLineStart, NoNewlineFrom, newline, list_work, offset_work, CountsAtMost};

use crate::comparing::WordList;
use crate::probe::{Probe, REACH, STRIDE};
use crate::scan::{MOST_WASTED, WordStop, skip_strides};
use cs_tree::Steps;
use memchr::memchr;

/// The ends of the lines with a word, so many of a list, up to the offset `to`. It is the end of
/// the text, or the list is full, or the search is given up there.
#[derive(Clone, Copy, Drop)]
pub struct Listed {
    pub count: usize,
    pub to: usize,
    pub is_given_up: bool,
    /// The cost of the candidates that are no words, in bytes that the DFA scans in their time.
    pub wasted: usize,
}

impl WordList {
    /// Lists the ends of the lines from `from` on that have a word, until the list is full, unless
    /// too many candidates are no words. The text is whole lines from there on.
    #[inline(never)]
    pub(crate) fn list<P: Probe>(
        &self,
        probe: &P,
        text: &[u8],
        from: usize,
        ends: &mut [usize],
        steps: &mut Steps,
    ) -> Listed
        requires within { from ≤ length text.now }
        requires whole { IsLineStart text.now from (length text.now) }
        requires room { 0 < length ends.old }
        requires finds { AreFound (P.Finds probe.now) self.now.words.items }
        ensures low { from ≤ result.to }
        ensures ends { IsListFrom self.now.words.items text.now from result ends.new }
        ensures start { result.is_given_up ≡ false → IsLineStart text.now from result.to }
        ensures all { result.is_given_up ≡ false → result.to ≢ length text.now → IsFull result ends.old }
        ensures stops { IsFull result ends.old → result.to ≡ slice_index ends.new (result.count - 1) + 1 }
        ensures moves { from < length text.now → from < result.to }
        ensures work { CountsAtMost (list_work (result.to - from) result.count) steps.old steps.new }
    {
        let rest = &text[from..];
        let cost = self.candidate_cost();
        let mut count = 0;
        let mut wasted = 0usize;
        let mut is_given_up = false;
        let mut offset = 0;
        // The last bytes are probed in two strides.
        steps.add(2 * STRIDE);
        'stops: while !is_given_up && offset < rest.len() && count < ends.len() {
            let stop = self.first_near(probe, rest, offset, steps);
            wasted = wasted.saturating_add(cost.saturating_mul(stop.wasted));
            if stop.has_word {
                // The strides around the word are probed again behind the line.
                steps.add(2 * STRIDE);
                let end = line_end(rest, stop.offset, steps);
                ends[count] = from + end;
                count += 1;
                offset = end + 1;
            } else {
                offset = skip_strides(probe, rest, stop.offset, steps);
            }
            is_given_up = wasted > offset.saturating_add(MOST_WASTED);
        }
        Listed {
            count,
            to: from + offset,
            is_given_up,
            wasted,
        }
    }

    /// The first word in the next stride, or its end; or in the rest of the text, if that is short.
    #[inline(always)]
    fn first_near<P: Probe>(
        &self,
        probe: &P,
        text: &[u8],
        offset: usize,
        steps: &mut Steps,
    ) -> WordStop
        requires within { offset < length text.now }
        requires finds { AreFound (P.Finds probe.now) self.now.words.items }
        ensures stop { IsStop self.now.words.items text.now offset result }
        ensures inside { IsTrue result.has_word → result.offset < length text.now }
        ensures moves { result.has_word ≡ false → offset < result.offset }
        ensures work { CountsAtMost (decided offset result * offset_work) steps.old steps.new }
    {
        if text.len() - offset >= REACH {
            self.first_in_stride(probe, text, offset, steps)
        } else {
            self.first_in_rest(probe, text, offset, steps)
        }
    }
}

/// The offset of the first newline at or after `from`.
fn line_end(text: &[u8], from: usize, steps: &mut Steps) -> usize
    requires within { from < length text.now }
    requires whole { slice_index text.now (length text.now - 1) ≡ newline }
    ensures low { from ≤ result }
    ensures high { result < length text.now }
    ensures none { NoNewlineFrom text.now from result }
    ensures newline { slice_index text.now result ≡ newline }
    ensures work { steps.new.count ≡ steps.old.count + (result + 1 - from) }
{
    match memchr(b'\n', &text[from..]) {
        Some(offset) => {
            steps.add(offset + 1);
            from + offset
        }
        None => unreachable!(),
    }
}
