// Which texts are binary.
ghost use Rattle.std.specs.Prelude.{◌≡◌};
ghost use Rattle.cs_lines.specs.Cited.{searched_as, is_binary};

use memchr::memchr;

/// A NUL among so many bytes at the start makes a text binary, as in git.
pub(crate) const PREFIX: usize = 8000;

/// What a binary text is searched as, after `--binary-files` of grep.
#[derive(Clone, Copy, Drop)]
pub enum BinaryFiles {
    /// As one without a match.
    WithoutMatch,
    /// Its lines are not printed: only that one is marked.
    Binary,
    /// As any other text (`-a`).
    Text,
}

/// Whether a text is binary.
pub fn is_binary(text: &[u8]) -> bool
    ensures { result ≡ is_binary text.now }
{
    let len = PREFIX.min(text.len());
    match memchr(b'\0', &text[..len]) {
        Some(_) => true,
        None => false,
    }
}

/// What a text is searched as. One that is not binary is searched as text.
pub(crate) fn searched_as(binary: BinaryFiles, text: &[u8]) -> BinaryFiles
    ensures { result ≡ searched_as binary text.now }
{
    if is_binary(text) {
        binary
    } else {
        BinaryFiles::Text
    }
}
