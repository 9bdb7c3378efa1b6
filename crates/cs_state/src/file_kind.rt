// What the files of a project are.
ghost use Rattle.std.specs.Prelude.{◌≡◌, ◌≢◌, IfNone, IfSome};
ghost use Rattle.cs_state.specs.Cited.{Kept, kept_of, kind_byte};

/// What a file is.
#[derive(Clone, Copy, Debug, PartialEq, Eq)]
pub enum FileKind {
    /// A text that an index can hold: it has its trigrams.
    Text,
    /// There is a NUL in its first 8,000 bytes.
    Binary,
    /// A text that no index can hold, such as one with long lines. Each search reads it.
    Apart,
}

impl FileKind {
    /// Its byte at the end of a stamped name.
    pub(crate) fn byte(self) -> u8
        ensures { result ≡ kind_byte (kept_of self) }
    {
        match self {
            FileKind::Text => b't',
            FileKind::Binary => b'b',
            FileKind::Apart => b'a',
        }
    }

    /// What has this byte.
    pub(crate) fn of_byte(byte: u8) -> Option<FileKind>
        ensures some { IfSome result (λ kind. kind_byte (kept_of kind) ≡ byte) }
        ensures none { IfNone result ((kept : Kept) → kind_byte kept ≢ byte) }
    {
        match byte {
            b't' => Some(FileKind::Text),
            b'b' => Some(FileKind::Binary),
            b'a' => Some(FileKind::Apart),
            _ => None,
        }
    }
}
