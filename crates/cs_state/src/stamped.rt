// Stamped names: the names of a state.
ghost use Rattle.std.specs.List.{AllByRecursion};
ghost use Rattle.std.specs.Prelude.{◌≡◌, ◌≢◌, ◌++◌, ◌∷◌, [], ◌↔◌, ℕ, List, IfNone, IfOk, IfSome, IsTrue, string_bytes};
ghost use Rattle.cs_state.specs.Cited.{Kept, IsLearnable, IsUnmarked, cover_of, kept_of, kind_byte, known_of, name_of, stamped};

use crate::file_kind::FileKind;
use crate::stamp_text::push_stamp;
use cs_tree::Stamp;
use memchr::memchr;
use std::alloc::{AllocError, Global};

/// The most bytes of the path of a file that is learned.
const PATH_LEN: usize = 4_000;

/// The parts of a stamped name.
#[derive(Clone, Copy)]
pub struct NameParts<'n> {
    pub path: &'n str,
    /// The text of the stamp.
    pub text: &'n [u8],
    pub kind: FileKind,
}

/// Whether a file at this path can be learned: the path is absolute, has at most 4,000 bytes, and
/// none of them is a NUL or a 1.
pub fn takes_name(path: &str) -> bool
    ensures { IsTrue result ↔ IsLearnable path.now }
{
    if path.len() > PATH_LEN {
        return false;
    }
    path.starts_with('/') && lacks(path.as_bytes(), 0) && lacks(path.as_bytes(), 1)
}

/// Whether none of the bytes is this one.
fn lacks(bytes: &[u8], byte: u8) -> bool
    ensures { IsTrue result ↔ AllByRecursion (λ b. b ≢ byte) bytes.now }
{
    memchr(byte, bytes).is_none()
}

/// The path of an index that covers the stamped names of the file at a path, and no others.
pub fn path_cover(alloc: Global, path: &str) -> Result<String, AllocError>
    ensures { IfOk result (λ cover. string_bytes cover ≡ cover_of path.now) }
{
    let mut cover = String::from_str(alloc, path)?;
    cover.push('\u{1}')?;
    Ok(cover)
}

/// The name of a file with a stamp. Among the names of files that can be learned it is the name of
/// no other file, stamp and kind.
pub fn stamped_name(
    alloc: Global,
    path: &str,
    stamp: &Stamp,
    kind: FileKind,
) -> Result<String, AllocError>
    ensures { IfOk result (λ name. string_bytes name ≡ stamped (known_of path.now stamp.now kind)) }
{
    let mut name = path_cover(alloc, path)?;
    name.push('/')?;
    push_stamp(&mut name, stamp)?;
    name.push(char::from(kind.byte()))?;
    Ok(name)
}

/// The parts of a stamped name. None if it has no parts: a path without a byte 1, the mark, some
/// text, and the byte of a kind.
pub fn stamped_parts(name: &str) -> Option<NameParts<'_>>
    ensures some { IfSome result (λ parts.
        name.now ≡ name_of parts.path.now parts.text.now (kept_of parts.kind)) }
    ensures path { IfSome result (λ parts. IsUnmarked parts.path.now) }
    ensures none { IfNone result ((path text : List ℕ) (kept : Kept) → IsUnmarked path →
        ¬ (name.now ≡ name_of path text kept)) }
{
    let (path, rest) = name.split_once('\u{1}')?;
    let (text, kind) = after_mark(rest.as_bytes())?;
    Some(NameParts { path, text, kind })
}

/// The text of a stamp and the kind, which follow the first byte of the mark.
fn after_mark(rest: &[u8]) -> Option<(&[u8], FileKind)>
    ensures some { IfSome result (λ found.
        rest.now ≡ 47 ∷ (found.0.now ++ kind_byte (kept_of found.1) ∷ [])) }
    ensures none { IfNone result ((text : List ℕ) (kept : Kept) →
        ¬ (rest.now ≡ 47 ∷ (text ++ kind_byte kept ∷ []))) }
{
    let (first, rest) = rest.split_first()?;
    if *first != b'/' {
        return None;
    }
    let (last, text) = rest.split_last()?;
    let kind = FileKind::of_byte(*last)?;
    Some((text, kind))
}
