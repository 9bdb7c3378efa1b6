// Runs: byte sets that contain neighbouring bytes of every match, collected from a sequence from
// left to right, also around the edges of words and the ends of lines. Runs are extended and ended,
// and the best word is kept.
ghost use Rattle.std.specs.Prelude.{◌≡◌, ◌≤◌, true, vec_len, ◌<◌, ◌&&◌, ◌||◌, ℕ, not, nat_eq, nat_le, IsTrue};
ghost use Rattle.cs_syntax.specs.Matching.{member, is_word};
ghost use Rattle.cs_syntax.specs.Characters.{has_char};
ghost use Rattle.cs_prefilter.specs.Words.{AreAll};

use crate::prefilter::ProbeKind;
use crate::rarity::MOST_SETS;
use crate::words::{Words, share_of};
use cs_syntax::{ByteSet, CharSet};
use std::alloc::{AllocError, Global};

/// The runs of a sequence.
#[derive(Drop)]
pub(crate) struct Runs {
    pub(crate) alloc: Global,
    pub(crate) kind: ProbeKind,
    /// The sets of all runs so far.
    pub(crate) sets: Vec<ByteSet>,
    /// The start of the current run.
    pub(crate) start: usize,
    /// The byte before the current run is in this set, unless the line begins there.
    pub(crate) before: ByteSet,
    /// Whether the current run is known to begin at the edge of a word.
    pub(crate) is_at_edge: bool,
    /// The best words so far.
    pub(crate) best: Option<Words>,
    ghost within: { start ≤ vec_len sets },
    ghost begins: { member before 10 ≡ true },
}

impl Runs {
    ghost use Rattle.std.specs.Prelude.{◌≡◌, ◌≤◌, ◌<◌, ◌-◌, ◌++◌, ◌∷◌, [], ℕ, List, None, IfOk, OnOk, IsTrue, true, drop, max, length, slice_index, vec_len};
    ghost use Rattle.cs_syntax.specs.Matching.{MatchesSpan, member, one_of, one_char, line_start, line_end, word_edge};
    ghost use Rattle.cs_prefilter.specs.WordAt.{with_newline};
    ghost use Rattle.cs_prefilter.specs.Words.{RunEndsAt, IsBehind, HasWordOf};
    ghost use Rattle.cs_prefilter.specs.Runs.{RunEnds, EndsAt, RunsFollow, KeepsBest, IsSameRun, MayBeginAnywhere};

    pub(crate) fn new(alloc: Global, kind: ProbeKind) -> Runs
        ensures start { result.start ≡ vec_len result.sets }
        ensures sets { result.sets.items ≡ [] }
        ensures anywhere { MayBeginAnywhere result }
        ensures best { result.best ≡ None }
    {
        Runs {
            alloc,
            kind,
            sets: Vec::new(alloc),
            start: 0,
            before: ByteSet::all(),
            is_at_edge: false,
            best: None,
        }
    }

    /// Runs of their own that begin with the current run, for a branch of an alternation.
    pub(crate) fn branch(&self) -> Result<Runs, AllocError>
        ensures best { IfOk result (λ runs. runs.best ≡ None) }
        ensures ends { IfOk result (λ runs.
            (line : List ℕ) (i : ℕ) → RunEnds self.now line i → RunEnds runs line i) }
    {
        let mut runs = Runs::new(self.alloc, self.kind);
        let run = &self.sets[self.start..];
        if run.len() > MOST_SETS {
            return Ok(runs);
        }
        runs.sets.extend_from_slice(run)?;
        runs.before = self.before;
        runs.is_at_edge = self.is_at_edge;
        Ok(runs)
    }

    /// Extends the current run by a set. No line has a newline.
    pub(crate) fn add(&mut self, set: &ByteSet) -> Result<(), AllocError>
        ensures { OnOk result
            (RunsFollow (λ line i j. MatchesSpan line (one_of set.now) i j) self.old self.new) }
    {
        self.before = self.before_set(set);
        self.sets.push(without_newline(set))?;
        Ok(())
    }

    /// Extends the current run by the first byte of a character of the set, and begins the next run
    /// with its last byte.
    pub(crate) fn add_chars(&mut self, set: &CharSet) -> Result<(), AllocError>
        ensures { OnOk result
            (RunsFollow (λ line i j. MatchesSpan line (one_char set.now) i j) self.old self.new) }
    {
        let ends = ends_of(set);
        self.add(&ends)?;
        self.cut_here()?;
        self.add(&ends)
    }

    /// The set of the byte before the current run, if the run goes on with this set.
    fn before_set(&self, set: &ByteSet) -> ByteSet
        ensures begins { member result 10 ≡ true }
        ensures before { (line : List ℕ) (i : ℕ) (e : RunEnds self.now line i) → i < length line →
            member set.now (slice_index line i) ≡ true → IsBehind result line e.ends.start }
    {
        if self.is_at_edge && self.start == self.sets.len() && are_all(true, set) {
            return other_bytes();
        }
        self.before
    }

    /// Notes the start of the line.
    pub(crate) fn add_line_start(&mut self)
        ensures { RunsFollow (λ line i j. MatchesSpan line line_start i j) self.old self.new }
    {
        if self.start < self.sets.len() {
            return;
        }
        self.before = newline();
    }

    /// Notes the end of the line: its newline follows.
    pub(crate) fn add_line_end(&mut self) -> Result<(), AllocError>
        ensures { OnOk result
            (RunsFollow (λ line i j. MatchesSpan line line_end i j) self.old self.new) }
    {
        self.keep_before(&newline())
    }

    /// Notes the edge of a word.
    pub(crate) fn add_word_edge(&mut self) -> Result<(), AllocError>
        ensures { OnOk result
            (RunsFollow (λ line i j. MatchesSpan line word_edge i j) self.old self.new) }
    {
        if self.start == self.sets.len() {
            self.is_at_edge = true;
            return Ok(());
        }
        if !are_all(true, &self.sets[self.sets.len() - 1]) {
            return Ok(());
        }
        self.keep_before(&other_bytes())
    }

    /// Keeps the word of the current run and of the set of the byte that follows, if it is better
    /// than the best so far. The run goes on without that set.
    fn keep_before(&mut self, set: &ByteSet) -> Result<(), AllocError>
        ensures run { OnOk result (IsSameRun self.old self.new) }
        ensures best { OnOk result ((line : List ℕ) (j : ℕ) → RunEnds self.old line j →
            member set.now (slice_index (with_newline line) j) ≡ true →
            HasWordOf line self.old.best → HasWordOf line self.new.best) }
    {
        self.sets.push(*set)?;
        self.keep()?;
        self.sets.pop();
        Ok(())
    }

    /// Ends the current run and begins the next one at `index`, unless the current run begins there
    /// or later.
    pub(crate) fn cut(&mut self, index: usize) -> Result<(), AllocError>
        requires { index ≤ vec_len self.old.sets }
        ensures sets { OnOk result (self.new.sets.items ≡ self.old.sets.items) }
        ensures start { OnOk result (self.new.start ≡ max self.old.start index) }
        ensures ends { OnOk result ((line : List ℕ) (j : ℕ) →
            EndsAt line self.old (max index self.old.start) j → RunEnds self.new line j) }
        ensures best { OnOk result (KeepsBest self.old self.new) }
    {
        if index <= self.start {
            return Ok(());
        }
        self.keep_run()?;
        self.start = index;
        self.before = ByteSet::all();
        self.is_at_edge = false;
        Ok(())
    }

    /// Ends the current run.
    pub(crate) fn cut_here(&mut self) -> Result<(), AllocError>
        ensures sets { OnOk result (self.new.sets.items ≡ self.old.sets.items) }
        ensures start { OnOk result (self.new.start ≡ vec_len self.new.sets) }
        ensures anywhere { OnOk result (MayBeginAnywhere self.new) }
        ensures best { OnOk result (KeepsBest self.old self.new) }
    {
        let here = self.sets.len();
        self.cut(here)?;
        self.begin_repeat();
        Ok(())
    }

    /// A repeat begins. What is known of the byte before it holds for its first iteration alone.
    pub(crate) fn begin_repeat(&mut self)
        ensures anywhere { MayBeginAnywhere self.new }
        ensures follow { RunsFollow (λ line i j. i ≡ j) self.old self.new }
        ensures start { self.new.start ≡ self.old.start }
        ensures sets { self.new.sets ≡ self.old.sets }
        ensures best { self.new.best ≡ self.old.best }
    {
        if self.start < self.sets.len() {
            return;
        }
        self.before = ByteSet::all();
        self.is_at_edge = false;
    }

    /// Keeps the word of the current run if it is better than the best so far. A third set makes
    /// two sets a trigram: a byte of the line follows them, or its newline.
    pub(crate) fn keep_run(&mut self) -> Result<(), AllocError>
        ensures run { OnOk result (IsSameRun self.old self.new) }
        ensures best { OnOk result (KeepsBest self.old self.new) }
    {
        match self.kind {
            ProbeKind::Trigrams if self.sets.len() - self.start == 2 => self.keep_before(
                &ByteSet::all(),
            ),
            _ => self.keep(),
        }
    }

    /// Keeps the word of the current run if it is better than the best so far.
    pub(crate) fn keep(&mut self) -> Result<(), AllocError>
        ensures run { IsSameRun self.old self.new }
        ensures best { OnOk result ((line : List ℕ) (j : ℕ) →
            RunEndsAt (with_newline line) self.old.before (drop self.old.start self.old.sets.items) j →
            HasWordOf line self.old.best → HasWordOf line self.new.best) }
    {
        let run = &self.sets[self.start..];
        let most = share_of(&self.best);
        let words = Words::of_run(self.alloc, self.kind, run, most, &self.before)?;
        self.offer(words);
        Ok(())
    }

    /// Keeps the words if they are better than the best so far.
    pub(crate) fn offer(&mut self, words: Option<Words>)
        ensures run { IsSameRun self.old self.new }
        ensures best { (line : List ℕ) → HasWordOf line words →
            HasWordOf line self.old.best → HasWordOf line self.new.best }
    {
        if share_of(&words) < share_of(&self.best) {
            self.best = words;
        }
    }
}

/// The newline.
pub(crate) fn newline() -> ByteSet
    ensures { (b : ℕ) → b < 256 → member result b ≡ nat_eq b 10 }
{
    ByteSet::of(|b| b == 10)
}

/// Whether all members of the set are word bytes, or none is.
pub(crate) fn are_all(word: bool, set: &ByteSet) -> bool
    ensures { IsTrue result → AreAll word set.now }
{
    // It has 256 values.
    let _ = set.len();
    for byte in 0..=255u8 {
        if set.contains(byte) && is_word(byte as usize) != word {
            return false;
        }
    }
    true
}

/// Whether the byte is an ASCII digit, an ASCII letter or `_`.
fn is_word(byte: usize) -> bool
    ensures { result ≡ is_word byte }
{
    matches!(byte, 48..=57 | 65..=90 | 95 | 97..=122)
}

/// All bytes that are no word bytes, the newline among them.
fn other_bytes() -> ByteSet
    ensures { (b : ℕ) → b < 256 → member result b ≡ not (is_word b) }
{
    ByteSet::of(|b| !is_word(b))
}

/// The set without the newline.
fn without_newline(set: &ByteSet) -> ByteSet
    ensures { (b : ℕ) → b < 256 → member result b ≡ (member set.now b && not (nat_eq b 10)) }
{
    if !set.contains(b'\n') {
        return *set;
    }
    ByteSet::of(|b| set.contains(b as u8) && b != 10)
}

/// The first and last bytes of the encodings of the characters, and all other bytes from 128 on.
fn ends_of(chars: &CharSet) -> ByteSet
    ensures { (b : ℕ) → b < 256 → member result b ≡ (nat_le 128 b || has_char chars.now b) }
{
    ByteSet::of(|b| b >= 128 || chars.contains(b as u32))
}
