// The prefilter: a search for candidates by one of the kinds of probes, then verification; and
// whether the words are the pattern: whether each line that contains one of them has a match.
ghost use Rattle.std.specs.Prelude.{◌≡◌, ◌≢◌, ◌≤◌, ◌<◌, ◌↔◌, ◌+◌, ◌*◌, ◌-◌, true, false, ℕ, List, length, slice_index, vec_len, Any, IfOk, IfSome, IsTrue, Bool, slice_index_or};
ghost use Rattle.cs_prefilter.specs.Cited.{tree_of, AreSufficient, HasWord, IsPrefilterOf, NoWordFrom, WordAt, with_newline, IsInLine, IsSufficient, IsFull, IsListFrom, IsLineStart, most_words, word_work, list_work, offset_work, CountsAtMost, HasWordOf, Finds, AreFound, IsStop, IsOnly, MatchesSpan, MatchesSequence, MatchesBranch, member, trees_of, MatchesPart, HasEdge};

use crate::comparing::WordList;
use crate::listing::Listed;
use crate::probe::{Nibbles, Pair, Pairs, WordMasks};
use crate::rarity::RARE;
use crate::required::required;
use crate::runs::are_all;
use crate::scan::WordStop;
use crate::word::Word;
use crate::words::{Words, share_of};
use cs_syntax::{ByteSet, Node};
use cs_tree::Steps;
use std::alloc::{AllocError, Global};
use std::marker::Model;

/// Below this share trigrams are worth their search, unless there are rare pairs.
const WORTH: u64 = 5_000_000_000;

/// Below this share pairs are worth their search, unless there are trigrams. If each candidate is a
/// match, they always are. Below its triple five bytes are first looked up by their low nibbles.
const MOST_SHARE: u64 = 10_000_000_000;

/// Below this share three bytes are first looked up by their low nibbles.
const MOST_LOW: u64 = 2_000_000_000;

/// Words, and a search that rules out most offsets. Contracts see the words, and whether each line
/// that contains one of them has a match.
#[derive(Drop)]
pub struct Prefilter {
    list: WordList,
    search: WordSearch,
    is_exact: bool,
}

impl Model for Prefilter {
    ghost use Rattle.std.specs.Prelude.{List, Bool};
    ghost use Rattle.cs_prefilter.specs.declared.word.Word.{Word};
    ghost use Rattle.cs_prefilter.specs.WordSearch.{Finds};
    ghost use Rattle.cs_prefilter.specs.WordBuckets.{AreFound};

    ghost Value = { List Word × Bool };

    ghost view = { λ s. (s.list.words.items, s.is_exact) };

    ghost invariant = { λ s. AreFound (Finds s.search) s.list.words.items };
}

impl Prefilter {
    /// A prefilter of the tree, if it has rare words.
    pub fn of(alloc: Global, root: &Node) -> Result<Option<Prefilter>, AllocError>
        ensures { IfOk result (λ prefilter. IfSome prefilter (IsPrefilterOf (tree_of root.now))) }
    {
        let pairs = required(alloc, ProbeKind::Pairs, root)?;
        let has_rare_pairs = share_of(&pairs) < RARE;
        if has_rare_pairs && !are_slow(&pairs) {
            return Prefilter::by(alloc, root, ProbeKind::Pairs, pairs);
        }
        let trigrams = required(alloc, ProbeKind::Trigrams, root)?;
        if are_better(&trigrams, &pairs, has_rare_pairs) {
            return Prefilter::by(alloc, root, ProbeKind::Trigrams, trigrams);
        }
        Prefilter::by(alloc, root, ProbeKind::Pairs, pairs)
    }

    /// A prefilter for these words, if there are any, and if they are rare enough or decide whether
    /// a line matches.
    fn by(
        alloc: Global,
        root: &Node,
        kind: ProbeKind,
        words: Option<Words>,
    ) -> Result<Option<Prefilter>, AllocError>
        ensures required { IfOk result (λ prefilter. (line : List ℕ) → HasWordOf line words →
            IfSome prefilter (λ p. HasWord p.0 (with_newline line))) }
        ensures sufficient { IfOk result (λ prefilter. IfSome prefilter (λ p.
            p.1 ≡ true → AreSufficient (tree_of root.now) p.0)) }
    {
        let Some(words) = words else {
            return Ok(None);
        };
        let Some(search) = WordSearch::of(kind, &words.words) else {
            return Ok(None);
        };
        let is_exact = are_sufficient(root, &words.words);
        if words.share >= MOST_SHARE && !is_exact {
            return Ok(None);
        }
        Ok(Some(Prefilter {
            list: WordList::of(alloc, words.words)?,
            search,
            is_exact,
        }))
    }

    /// Whether each line that contains one of the words has a match.
    pub fn is_exact(&self) -> bool
        ensures { result ≡ self.now.1 }
    {
        self.is_exact
    }

    /// Skips to the first word at or after `from`, or to the end of the text, unless too many
    /// candidates are no words.
    pub fn skip(&self, text: &[u8], from: usize, steps: &mut Steps) -> WordStop
        requires { from ≤ length text.now }
        ensures low { from ≤ result.offset }
        ensures high { result.offset ≤ length text.now }
        ensures none { NoWordFrom self.now.0 text.now from result.offset }
        ensures stops { IsTrue result.has_word → Any (WordAt text.now result.offset) self.now.0 }
        ensures work { CountsAtMost ((result.offset - from + 1) * offset_work) steps.old steps.new }
    {
        self.search.first(&self.list, text, from, steps)
    }

    /// Lists the ends of the lines from `from` on that have a word, until the list is full, unless
    /// too many candidates are no words. The text is whole lines from there on. If the search is
    /// not given up, it ends at the start of a line.
    pub fn list(&self, text: &[u8], from: usize, ends: &mut [usize], steps: &mut Steps) -> Listed
        requires within { from ≤ length text.now }
        requires whole { IsLineStart text.now from (length text.now) }
        requires room { 0 < length ends.old }
        ensures low { from ≤ result.to }
        ensures ends { IsListFrom self.now.0 text.now from result ends.new }
        ensures start { result.is_given_up ≡ false → IsLineStart text.now from result.to }
        ensures all { result.is_given_up ≡ false → result.to ≢ length text.now → IsFull result ends.old }
        ensures stops { IsFull result ends.old → result.to ≡ slice_index ends.new (result.count - 1) + 1 }
        ensures moves { from < length text.now → from < result.to }
        ensures work { CountsAtMost (list_work (result.to - from) result.count) steps.old steps.new }
    {
        self.search.list(&self.list, text, from, ends, steps)
    }
}

/// What words are searched for by.
#[derive(Clone, Copy, Drop)]
pub(crate) enum ProbeKind {
    /// Two bytes of each of at most two words.
    Pairs,
    /// The first sets of each word.
    Trigrams,
}

impl ProbeKind {
    /// The largest number of words.
    pub(crate) fn most_words(self) -> usize
        ensures { result ≤ most_words }
    {
        match self {
            ProbeKind::Pairs => 2,
            ProbeKind::Trigrams => 64,
        }
    }
}

/// A search for words: a probe of each kind.
#[derive(Clone, Copy, Drop)]
pub(crate) enum WordSearch {
    Pair(Pairs<false, false>),
    FoldedPair(Pairs<true, false>),
    TwoPairs(Pairs<false, true>),
    TwoFoldedPairs(Pairs<true, true>),
    LowNibbles(Nibbles<3, false>),
    FiveNibbles(Nibbles<5, false>),
    AllNibbles(Nibbles<3, true>),
}

impl WordSearch {
    /// A search of this kind for the words, if they have what it takes.
    pub(crate) fn of(kind: ProbeKind, words: &[Word]) -> Option<WordSearch>
        requires { length words.now ≤ most_words }
        ensures { IfSome result (λ search. AreFound (Finds search) words.now) }
    {
        match kind {
            ProbeKind::Pairs => WordSearch::by_pairs(words),
            ProbeKind::Trigrams => {
                let masks = WordMasks::of(words);
                Some(if masks.low_share(3) < MOST_LOW {
                    WordSearch::LowNibbles(Nibbles { masks })
                } else if masks.low_share(5) < 3 * MOST_SHARE {
                    WordSearch::FiveNibbles(Nibbles { masks })
                } else {
                    WordSearch::AllNibbles(Nibbles { masks })
                })
            }
        }
    }

    /// A search by pairs, if the words are one or two and each has a rare pair.
    fn by_pairs(words: &[Word]) -> Option<WordSearch>
        ensures { IfSome result (λ search. AreFound (Finds search) words.now) }
    {
        let (first, second) = match words {
            [word] => (Pair::of(word)?, Pair::of(word)?),
            [word, other] => (Pair::of(word)?, Pair::of(other)?),
            _ => return None,
        };
        let is_folded = first.is_folded() || second.is_folded();
        Some(match (words.len(), is_folded) {
            (1, false) => WordSearch::Pair(Pairs { first, second }),
            (1, true) => WordSearch::FoldedPair(Pairs { first, second }),
            (_, false) => WordSearch::TwoPairs(Pairs { first, second }),
            (_, true) => WordSearch::TwoFoldedPairs(Pairs { first, second }),
        })
    }

    /// Skips to the first of the words at or after `from`, or to the end of the text, unless it is
    /// given up.
    #[inline(always)]
    pub(crate) fn first(
        &self,
        words: &WordList,
        text: &[u8],
        from: usize,
        steps: &mut Steps,
    ) -> WordStop
        requires within { from ≤ length text.now }
        requires finds { AreFound (Finds self.now) words.now.words.items }
        ensures stop { IsStop words.now.words.items text.now from result }
        ensures work { CountsAtMost ((result.offset - from + 1) * offset_work) steps.old steps.new }
    {
        match self {
            WordSearch::Pair(probe) => words.first(probe, text, from, steps),
            WordSearch::FoldedPair(probe) => words.first(probe, text, from, steps),
            WordSearch::TwoPairs(probe) => words.first(probe, text, from, steps),
            WordSearch::TwoFoldedPairs(probe) => words.first(probe, text, from, steps),
            WordSearch::LowNibbles(probe) => words.first(probe, text, from, steps),
            WordSearch::FiveNibbles(probe) => words.first(probe, text, from, steps),
            WordSearch::AllNibbles(probe) => words.first(probe, text, from, steps),
        }
    }

    /// Lists the ends of the lines from `from` on that have a word, until the list is full or the
    /// search is given up.
    #[inline(always)]
    pub(crate) fn list(
        &self,
        words: &WordList,
        text: &[u8],
        from: usize,
        ends: &mut [usize],
        steps: &mut Steps,
    ) -> Listed
        requires within { from ≤ length text.now }
        requires whole { IsLineStart text.now from (length text.now) }
        requires room { 0 < length ends.old }
        requires finds { AreFound (Finds self.now) words.now.words.items }
        ensures low { from ≤ result.to }
        ensures ends { IsListFrom words.now.words.items text.now from result ends.new }
        ensures start { result.is_given_up ≡ false → IsLineStart text.now from result.to }
        ensures all { result.is_given_up ≡ false → result.to ≢ length text.now → IsFull result ends.old }
        ensures stops { IsFull result ends.old → result.to ≡ slice_index ends.new (result.count - 1) + 1 }
        ensures moves { from < length text.now → from < result.to }
        ensures work { CountsAtMost (list_work (result.to - from) result.count) steps.old steps.new }
    {
        match self {
            WordSearch::Pair(probe) => words.list(probe, text, from, ends, steps),
            WordSearch::FoldedPair(probe) => words.list(probe, text, from, ends, steps),
            WordSearch::TwoPairs(probe) => words.list(probe, text, from, ends, steps),
            WordSearch::TwoFoldedPairs(probe) => words.list(probe, text, from, ends, steps),
            WordSearch::LowNibbles(probe) => words.list(probe, text, from, ends, steps),
            WordSearch::FiveNibbles(probe) => words.list(probe, text, from, ends, steps),
            WordSearch::AllNibbles(probe) => words.list(probe, text, from, ends, steps),
        }
    }
}

impl Word {
    /// Whether no set of the word but the last contains a newline.
    pub(crate) fn is_in_line(&self) -> bool
        ensures { IsTrue result → IsInLine self.now }
    {
        for (index, set) in self.sets.iter().enumerate() {
            if index + 1 < self.sets.len() && set.contains(b'\n') {
                return false;
            }
        }
        true
    }

    /// Whether the line ends at the index.
    fn ends_line(&self, index: usize) -> bool
        ensures { IsTrue result → (index < vec_len self.now.sets) ×
            ((d : List Bool) → IsOnly (slice_index_or self.now.sets.items index d) 10) }
    {
        match self.sets.get(index) {
            Some(set) => set.single() == Some(b'\n'),
            None => false,
        }
    }

    /// Whether the line begins at the index.
    fn begins_line(&self, index: usize) -> bool
        ensures { IsTrue result →
            (index ≡ 0) × (0 < vec_len self.now.sets) × IsOnly self.now.before 10 }
    {
        index == 0 && !self.sets.is_empty() && self.before.single() == Some(b'\n')
    }

    /// Whether the edge of a word is at the index, between a word byte and another byte or the
    /// start or end of the line.
    fn has_edge(&self, index: usize) -> bool
        ensures { IsTrue result → HasEdge self.now index }
    {
        if index >= self.sets.len() {
            return false;
        }
        let after = &self.sets[index];
        if index == 0 {
            return are_all(false, &self.before) && are_all(true, after);
        }
        let is_word = are_all(true, &self.sets[index - 1]);
        if !is_word && !are_all(false, &self.sets[index - 1]) {
            return false;
        }
        are_all(!is_word, after)
    }
}

/// The search of this kind for the words, if there are any and they have what it takes.
fn search_of(kind: ProbeKind, words: &Option<Words>) -> Option<WordSearch> {
    WordSearch::of(kind, &words.as_ref()?.words)
}

/// Whether the words are searched for by two pairs with masks, which takes longer than low nibbles.
fn are_slow(words: &Option<Words>) -> bool {
    let search = search_of(ProbeKind::Pairs, words);
    matches!(search, Some(WordSearch::TwoFoldedPairs(_)))
}

/// Whether the trigrams of the words are worth their search, if there are rare pairs that are slow,
/// or no rare pairs.
fn are_better(words: &Option<Words>, pairs: &Option<Words>, has_rare_pairs: bool) -> bool {
    if !has_rare_pairs {
        return share_of(words) < WORTH.min(share_of(pairs));
    }
    let search = search_of(ProbeKind::Trigrams, words);
    matches!(search, Some(WordSearch::LowNibbles(_))) && share_of(words) < RARE
}

/// Whether the tree matches each of the words, and none of them contains a newline.
fn are_sufficient(root: &Node, words: &[Word]) -> bool
    ensures { IsTrue result → AreSufficient (tree_of root.now) words.now }
{
    for word in words {
        match matched_to(root, word, 0) {
            Some(_) if word.is_in_line() => {}
            _ => return false,
        }
    }
    true
}

/// The index of the set of the word up to which the tree matches from the index `from` on. Of
/// several branches the one that matches most counts.
#[cycle(matched_to)]
fn matched_to(node: &Node, word: &Word, from: usize) -> Option<usize>
    requires { from ≤ vec_len word.now.sets }
    ensures { IfSome result (MatchesPart (λ line i j. MatchesSpan line (tree_of node.now) i j)
        word.now from) }
{
    match node {
        Node::Empty => Some(from),
        Node::Set(set) => {
            if from < word.sets.len()
                && !word.sets[from].contains(b'\n')
                && is_within(&word.sets[from], set)
            {
                return Some(from + 1);
            }
            None
        }
        Node::Cat(parts) => matched_to_all(parts, word, from),
        Node::Alt(branches) => matched_to_some(branches, word, from),
        Node::LineStart if word.begins_line(from) => Some(from),
        Node::LineEnd if word.ends_line(from) => Some(from),
        Node::WordEdge if word.has_edge(from) => Some(from),
        _ => None,
    }
}

#[cycle(matched_to)]
fn matched_to_all(parts: &[Node], word: &Word, from: usize) -> Option<usize>
    requires { from ≤ vec_len word.now.sets }
    ensures { IfSome result (MatchesPart (λ line i j. MatchesSequence line (trees_of parts.now) i j)
        word.now from) }
{
    let mut at = from;
    for part in parts {
        at = matched_to(part, word, at)?;
    }
    Some(at)
}

#[cycle(matched_to)]
fn matched_to_some(branches: &[Node], word: &Word, from: usize) -> Option<usize>
    requires { from ≤ vec_len word.now.sets }
    ensures { IfSome result (MatchesPart (λ line i j. MatchesBranch line (trees_of branches.now) i j)
        word.now from) }
{
    let mut most = None;
    for branch in branches {
        let to = matched_to(branch, word, from);
        if to > most {
            most = to;
        }
    }
    most
}

/// Whether all members of a set are members of the other.
fn is_within(set: &ByteSet, other: &ByteSet) -> bool
    ensures { IsTrue result → (b : ℕ) → member set.now b ≡ true → member other.now b ≡ true }
{
    if set.len() > other.len() {
        return false;
    }
    if let Some(byte) = set.single() {
        return other.contains(byte);
    }
    for byte in 0..=255u8 {
        if set.contains(byte) && !other.contains(byte) {
            return false;
        }
    }
    true
}
