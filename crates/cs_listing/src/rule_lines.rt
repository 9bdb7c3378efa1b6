// The text of a line of a rule file.
ghost use Rattle.std.specs.Prelude.{◌≡◌, ◌||◌, ◌&&◌, not, nat_eq};
ghost use Rattle.std.specs.List.{before_first};
ghost use Rattle.cs_listing.specs.RuleFiles.{before_nul as before_nul', trimmed as trimmed', without_last as without_last', without_mark as without_mark'};

/// The bytes after a byte order mark.
pub(crate) fn without_mark(bytes: &[u8]) -> &[u8]
    ensures { result.now ≡ without_mark' bytes.now }
{
    bytes.strip_prefix(b"\xef\xbb\xbf").unwrap_or(bytes)
}

/// The line without what ends it for git: a carriage return, a NUL and what follows it, and spaces.
pub(crate) fn line_text(line: &[u8]) -> &[u8]
    ensures { result.now ≡ trimmed' (before_nul' (without_last' 13 line.now)) }
{
    trimmed(before(0, without_last(b'\r', line)))
}

/// The text without its last byte, if that is this one.
pub(crate) fn without_last(last: u8, text: &[u8]) -> &[u8]
    ensures { result.now ≡ without_last' last text.now }
{
    match text.split_last() {
        Some((byte, rest)) if *byte == last => rest,
        _ => text,
    }
}

/// The bytes before the first one like this.
pub(crate) fn before(byte: u8, text: &[u8]) -> &[u8]
    ensures { result.now ≡ before_first (λ b. nat_eq b byte) text.now }
{
    match text.iter().position(|one| *one == byte) {
        Some(end) => &text[..end],
        None => text,
    }
}

/// The line without the spaces at its end that no backslash quotes.
fn trimmed(line: &[u8]) -> &[u8]
    ensures { result.now ≡ trimmed' line.now }
{
    let mut kept = 0;
    let mut is_quoted = false;
    for (at, byte) in line.iter().enumerate() {
        if stays(is_quoted, *byte) {
            kept = at + 1;
        }
        is_quoted = quotes(is_quoted, *byte);
    }
    &line[..kept]
}

/// Whether a byte stays whatever follows.
fn stays(is_quoted: bool, byte: u8) -> bool
    ensures { result ≡ (is_quoted || not (nat_eq byte 32)) }
{
    is_quoted || byte != b' '
}

/// Whether a byte quotes the next one.
fn quotes(is_quoted: bool, byte: u8) -> bool
    ensures { result ≡ (not is_quoted && nat_eq byte 92) }
{
    !is_quoted && byte == b'\\'
}
