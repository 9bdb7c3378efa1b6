// Paths: covering, clean paths (purely lexical, like Go's `path.Clean`), sorted lists, and the
// least paths of a list: those that no other path covers.
ghost use Rattle.std.specs.Prelude.{◌≡◌, nat_eq, ℕ, List, true, map, string_bytes, ◌≤◌, ◌↔◌, ◌||◌, false, IsTrue, reverse, length, vec_len, OnOk, OnErr, IfOk, filter};
ghost use Rattle.std.specs.Path.{slash};
ghost use Rattle.std.specs.List.{list_any, fold};
ghost use Rattle.cs_tree.specs.Below.{ends_element as ends_element'};
ghost use Rattle.cs_tree.specs.Folders.{is_element as is_element'};
ghost use Rattle.cs_tree.specs.Cover.{covers as covers', is_absolute as is_absolute', is_among, is_alone as is_alone'};
ghost use Rattle.cs_tree.specs.Clean.{is_clean as is_clean', has_nul as has_nul', absolute, clean_path, elements, with_element, path_of, longest_path};
ghost use Rattle.cs_tree.specs.Proper.{is_proper as is_proper', is_proper_path as is_proper_path'};
ghost use Rattle.cs_tree.specs.NamesAscending.{are_ascending};
ghost use Rattle.cs_tree.specs.CleanAnswers.{CleanAnswers};
ghost use Rattle.cs_tree.specs.Cleaning.{clean_fault, is_normalized as is_normalized'};
ghost use Rattle.cs_tree.specs.PathParts.{parts_fault, parts_path, texts};
ghost use Rattle.cs_tree.specs.declared.paths.PathFault.TheVariants as path;
ghost use Rattle.cs_tree.specs.LeastPaths.{least_of};
ghost use Rattle.cs_tree.specs.PathSet as set;

use crate::among::is_alone;
use std::alloc::{AllocError, AllocFailed, Global};
use thiserror::Error;

/// The longest path, in bytes.
pub const LONGEST_PATH: usize = 4095;

/// Why a path cannot be cleaned.
#[derive(Clone, Copy, Debug, PartialEq, Eq, Error)]
pub enum PathFault {
    /// The path is empty.
    #[error("the path is empty")]
    Empty,
    /// The path has a NUL, or the folder that it is joined to has one.
    #[error("the path has a NUL")]
    Nul,
    /// The cleaned path has more than 4095 bytes.
    #[error("the path is too long")]
    TooLong,
    /// An allocation failed.
    #[error("out of memory")]
    Memory,
}

impl From<AllocError> for PathFault {
    ghost from_gives = { λ _ fault. fault ≡ path.Memory };

    fn from(_refused: AllocError) -> PathFault {
        PathFault::Memory
    }
}

/// Whether the path covers the name: it is the name, an ancestor of the name, or it is `/` and the
/// name begins with `/`. The comparison is by bytes, so `/a/b` does not cover `/a/bc`. Allocates
/// nothing.
pub fn covers(path: &str, name: &str) -> bool
    ensures { result ≡ covers' path.now name.now }
{
    let Some(rest) = name.as_bytes().strip_prefix(path.as_bytes()) else {
        return false;
    };
    ends_element(rest) || path == "/"
}

/// Whether cleaning leaves the path unchanged: it is the root, or its elements are proper.
pub fn is_clean(path: &str) -> bool
    ensures { result ≡ is_clean' path.now }
{
    path == "/" || is_proper_path(path)
}

/// Whether the path begins with a slash.
pub fn is_absolute(path: &str) -> bool
    ensures { result ≡ is_absolute' path.now }
{
    match path.as_bytes().split_first() {
        Some((first, _)) => *first == b'/',
        None => false,
    }
}

/// Whether the text has a NUL.
pub fn has_nul(text: &str) -> bool
    ensures { result ≡ has_nul' text.now }
{
    text.as_bytes().iter().any(|byte| *byte == 0)
}

/// The absolute, clean form of a path: the path is joined to the folder unless it begins with `/`;
/// empty elements and `.` are removed, and `..` removes the element before it. So `clean("/w",
/// "a/../c/")` is `/w/c`.
pub fn clean(alloc: Global, folder: &str, text: &str) -> Result<String, PathFault>
    requires { is_absolute' folder.now ≡ true }
    ensures ok { IfOk result (λ path. string_bytes path ≡ clean_path folder.now text.now) }
    ensures answer { CleanAnswers (clean_fault folder.now text.now) result }
{
    if text.is_empty() {
        return Err(PathFault::Empty);
    }
    if is_absolute(text) {
        return clean_parts(alloc, "", text);
    }
    clean_parts(alloc, folder, text)
}

/// Whether `clean` accepts the path and returns it unchanged, whatever the folder is. Allocates
/// nothing.
pub fn is_normalized(path: &str) -> bool
    ensures { result ≡ is_normalized' path.now }
{
    is_within_limits(path) && is_clean(path)
}

/// The paths that no other path of the list covers, ascending and distinct. The paths need not be
/// clean.
pub fn reduce(alloc: Global, paths: &[String]) -> Result<Vec<String>, AllocError>
    ensures { IfOk result (λ kept. map string_bytes kept.items
        ≡ least_of (map string_bytes paths.now)) }
{
    let ordered = in_order(alloc, paths)?;
    paths_alone(alloc, &ordered)
}

/// Whether a folder may list the name: it is not empty, and has no `/` and no NUL.
pub(crate) fn is_element(name: &str) -> bool
    ensures { result ≡ is_element' name.now }
{
    !name.is_empty() && !has_slash(name) && !has_nul(name)
}

/// Sorts the names and removes duplicates.
pub(crate) fn order_names(names: &mut Vec<String>)
    ensures ascend { are_ascending (map string_bytes names.new.items) ≡ true }
    ensures same { (name : List ℕ) → is_among (map string_bytes names.new.items) name
        ≡ is_among (map string_bytes names.old.items) name }
{
    names.sort_unstable();
    names.dedup();
}

/// Whether an element of a path ends where `rest` begins: `rest` is empty or begins with a slash.
fn ends_element(rest: &[u8]) -> bool
    ensures { result ≡ ends_element' rest.now }
{
    match rest.first() {
        None => true,
        Some(byte) => *byte == b'/',
    }
}

/// Whether the element is not empty, `.` or `..`.
fn is_proper(element: &str) -> bool
    ensures { result ≡ is_proper' element.now }
{
    !(element.is_empty() || element == ".") && element != ".."
}

/// Whether the path is a slash and proper elements after it.
fn is_proper_path(path: &str) -> bool
    ensures { result ≡ is_proper_path' path.now }
{
    let Some(mut rest) = path.strip_prefix('/') else {
        return false;
    };
    'elements: while let Some((element, later)) = rest.split_once('/') {
        if !is_proper(element) {
            return false;
        }
        rest = later;
    }
    is_proper(rest)
}

fn has_slash(text: &str) -> bool
    ensures { result ≡ list_any (λ b. nat_eq b slash) text.now }
{
    text.as_bytes().iter().any(|byte| *byte == b'/')
}

/// The path made of the elements of both texts, unless one has a NUL or the result is too long.
fn clean_parts(alloc: Global, folder: &str, text: &str) -> Result<String, PathFault>
    ensures ok { IfOk result (λ path. string_bytes path ≡ parts_path folder.now text.now) }
    ensures answer { CleanAnswers (parts_fault folder.now text.now) result }
{
    if has_nul(folder) || has_nul(text) {
        return Err(PathFault::Nul);
    }
    let path = clean_path(alloc, folder, text)?;
    if path.len() > LONGEST_PATH {
        return Err(PathFault::TooLong);
    }
    Ok(path)
}

/// The path made of the elements of both texts.
fn clean_path(alloc: Global, folder: &str, text: &str) -> Result<String, AllocError>
    ensures { IfOk result (λ path. string_bytes path ≡ parts_path folder.now text.now) }
{
    let mut above = Vec::new(alloc);
    step_all(&mut above, folder)?;
    step_all(&mut above, text)?;
    path_from(alloc, &above)
}

/// Adds each element of a text.
fn step_all<'a>(above: &mut Vec<&'a str>, text: &'a str) -> Result<(), AllocError>
    ensures { OnOk result (reverse (texts above.new.items)
        ≡ fold with_element (reverse (texts above.old.items)) (elements text.now)) }
{
    let mut rest = text;
    'elements: while let Some((element, later)) = rest.split_once('/') {
        step(above, element)?;
        rest = later;
    }
    step(above, rest)
}

/// Adds one element: `..` removes the last one, and an empty element or `.` changes nothing.
fn step<'a>(above: &mut Vec<&'a str>, element: &'a str) -> Result<(), AllocError>
    ensures { OnOk result (reverse (texts above.new.items)
        ≡ with_element (reverse (texts above.old.items)) element.now) }
{
    if element == ".." {
        let _last = above.pop();
    } else if !element.is_empty() && element != "." {
        above.push(element)?;
    }
    Ok(())
}

/// The absolute path made of these elements.
fn path_from(alloc: Global, above: &[&str]) -> Result<String, AllocError>
    ensures { IfOk result (λ path. string_bytes path ≡ path_of (reverse (texts above.now))) }
{
    if above.is_empty() {
        return String::from_str(alloc, "/");
    }
    let mut path = String::new(alloc);
    for element in above {
        path.push('/')?;
        path.push_str(element)?;
    }
    Ok(path)
}

/// Whether the path has no NUL and at most 4095 bytes.
fn is_within_limits(path: &str) -> bool
    ensures { IsTrue result ↔ ((has_nul' path.now ≡ false) × (length path.now ≤ longest_path)) }
{
    !has_nul(path) && path.len() <= LONGEST_PATH
}

/// The paths, sorted and distinct.
fn in_order(alloc: Global, paths: &[String]) -> Result<Vec<&str>, AllocError>
    ensures { IfOk result (λ ordered. texts ordered.items
        ≡ set.items (set.from_list (map string_bytes paths.now))) }
{
    let mut ordered = texts_of(alloc, paths)?;
    ordered.sort_unstable();
    ordered.dedup();
    Ok(ordered)
}

/// The paths as borrowed texts.
fn texts_of(alloc: Global, paths: &[String]) -> Result<Vec<&str>, AllocError>
    ensures { IfOk result (λ lent. texts lent.items ≡ map string_bytes paths.now) }
{
    let mut lent = Vec::new(alloc);
    for path in paths {
        lent.push(path.as_str())?;
    }
    Ok(lent)
}

/// The paths that no other one covers.
fn paths_alone(alloc: Global, ordered: &[&str]) -> Result<Vec<String>, AllocError>
    requires { are_ascending (texts ordered.now) ≡ true }
    ensures { IfOk result (λ kept. map string_bytes kept.items
        ≡ filter (is_alone' (texts ordered.now)) (texts ordered.now)) }
{
    let mut kept = Vec::new(alloc);
    for path in ordered {
        if is_alone(ordered, path) {
            kept.push(String::from_str(alloc, path)?)?;
        }
    }
    Ok(kept)
}
