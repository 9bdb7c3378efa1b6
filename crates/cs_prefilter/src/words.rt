// Lists of words, one of which every matching line contains: the words of a run, and of several
// branches together.
ghost use Rattle.std.specs.Prelude.{◌≡◌, ◌≤◌, ◌<◌, ◌+◌, ◌++◌, ◌∷◌, ℕ, List, IfOk, IfSome, OnOk, [], true, vec_len};
ghost use Rattle.cs_syntax.specs.Matching.{member};
ghost use Rattle.cs_prefilter.specs.OffsetWork.{most_words};
ghost use Rattle.cs_prefilter.specs.WordAt.{HasWord};

use crate::prefilter::ProbeKind;
use crate::rarity::{MOST_SETS, Part, rarest_part};
use crate::word::Word;
use cs_syntax::ByteSet;
use std::alloc::{AllocError, Global};

/// Words, and the share of offsets at which one of them is expected, in units of 10^-12.
#[derive(Drop)]
pub(crate) struct Words {
    pub(crate) words: Vec<Word>,
    pub(crate) share: u64,
    ghost few: { vec_len words ≤ most_words },
}

/// The share of offsets at which one of the words is expected. Without words it is above 1.
pub(crate) fn share_of(words: &Option<Words>) -> u64 {
    match words {
        Some(words) => words.share,
        None => u64::MAX,
    }
}

impl Words {
    ghost use Rattle.cs_prefilter.specs.Words.{RunEndsAt};

    /// The part of the run that is the best to search for, as the only word, if its share is below
    /// `most`.
    pub(crate) fn of_run(
        alloc: Global,
        kind: ProbeKind,
        run: &[ByteSet],
        most: u64,
        before: &ByteSet,
    ) -> Result<Option<Words>, AllocError>
        requires { member before.now 10 ≡ true }
        ensures { IfOk result (λ words. (text : List ℕ) (j : ℕ) →
            RunEndsAt text before.now run.now j → IfSome words (λ some. HasWord some.words.items text)) }
    {
        let Some(part) = rarest_part(kind, run) else {
            return Ok(None);
        };
        if part.share >= most {
            return Ok(None);
        }
        let mut words = Vec::new(alloc);
        words.push(Word::of_run(alloc, run, part, before)?)?;
        let share = part.share;
        Ok(Some(Words { words, share }))
    }
}

impl Word {
    ghost use Rattle.cs_prefilter.specs.Words.{RunEndsAt};

    /// The word that is the part of the run, up to the most sets of a word.
    fn of_run(
        alloc: Global,
        run: &[ByteSet],
        part: Part,
        before: &ByteSet,
    ) -> Result<Word, AllocError>
        requires { member before.now 10 ≡ true }
        ensures { IfOk result (λ word. (text : List ℕ) (j : ℕ) →
            RunEndsAt text before.now run.now j → HasWord (word ∷ []) text) }
    {
        let from = part.from.min(run.len());
        let len = MOST_SETS.min(run.len() - from);
        let mut sets = Vec::new(alloc);
        sets.extend_from_slice(&run[from..from + len])?;
        let before = if from == 0 { *before } else { ByteSet::all() };
        Ok(Word { before, sets })
    }
}
