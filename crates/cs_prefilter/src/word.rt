// Words.
ghost use Rattle.std.specs.Prelude.{◌≡◌, ◌≤◌, true, vec_len};
ghost use Rattle.cs_syntax.specs.Matching.{member};
ghost use Rattle.cs_prefilter.specs.OffsetWork.{most_sets};

use cs_syntax::ByteSet;

/// A word: a byte set for each of some neighbouring bytes, and one for the byte before them.
#[derive(Drop)]
pub struct Word {
    /// The byte before an occurrence is in this set, unless the text begins there. It has all bytes
    /// where nothing is asked, and the newline always: where a line begins, the word may occur.
    pub before: ByteSet,
    pub sets: Vec<ByteSet>,
    ghost begins: { member before 10 ≡ true },
    ghost short: { vec_len sets ≤ most_sets },
}
