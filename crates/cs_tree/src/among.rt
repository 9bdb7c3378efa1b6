// Coverage tests against an ascending list of paths, in time linear in the length of the path.
ghost use Rattle.std.specs.Prelude.{◌≡◌, ◌≤◌, ◌+◌, ◌∷◌, [], true, false, ◌&&◌, not, map, drop, length, bytes_eq};
ghost use Rattle.std.specs.Path.{slash};
ghost use Rattle.std.specs.List.{list_any};
ghost use Rattle.std.specs.List.Sorted.{IsStrictlySortedBy, IsPartitionPoint};
ghost use Rattle.cs_tree.specs.Descents.{tails, begins_below, after_byte};
ghost use Rattle.cs_tree.specs.NameOrder.{bytes_cmp};
ghost use Rattle.cs_tree.specs.NamesAscending.{are_ascending};
ghost use Rattle.cs_tree.specs.PathSet as set;
ghost use Rattle.cs_tree.specs.Cover.{is_ancestor, is_alone as is_alone', is_among, is_covered as is_covered', is_absolute as is_absolute'};

use crate::paths::is_absolute;
use std::convert::AsStr;

/// Whether no other path of the ascending list covers this path. Allocates nothing.
pub fn is_alone<P: AsStr>(paths: &[P], path: &str) -> bool
    requires { are_ascending (map P.text paths.now) ≡ true }
    ensures { result ≡ is_alone' (map P.text paths.now) path.now }
{
    if is_below_one(paths, path) {
        return false;
    }
    if is_below_root(path) {
        return !is_listed(paths, "/");
    }
    true
}

/// Whether a path of the ascending list covers the name. Allocates nothing.
pub fn is_covered<P: AsStr>(paths: &[P], name: &str) -> bool
    requires { are_ascending (map P.text paths.now) ≡ true }
    ensures { result ≡ is_covered' (set.from_list (map P.text paths.now)) name.now }
{
    if is_listed(paths, name) {
        return true;
    }
    if is_below_one(paths, name) {
        return true;
    }
    is_absolute(name) && is_listed(paths, "/")
}

/// Whether the path is absolute and not the root.
fn is_below_root(path: &str) -> bool
    ensures { result ≡ (is_absolute' path.now && not (bytes_eq path.now (slash ∷ []))) }
{
    is_absolute(path) && path != "/"
}

/// Whether a path of the list is an ancestor of this path. A descent: at each byte of the path,
/// `rest` are the paths that begin with the bytes before it.
fn is_below_one<P: AsStr>(paths: &[P], path: &str) -> bool
    requires { are_ascending (map P.text paths.now) ≡ true }
    ensures { result ≡ list_any (λ above. is_ancestor above path.now) (map P.text paths.now) }
{
    let mut rest = paths;
    'bytes: for (at, byte) in path.as_bytes().iter().enumerate() {
        if rest.is_empty() {
            return false;
        }
        if *byte == b'/' && first_ends_at(rest, at) {
            return true;
        }
        rest = with_byte(rest, at, *byte);
    }
    false
}

/// Whether a path has no byte at the offset. If one has none, the first has none.
fn first_ends_at<P: AsStr>(paths: &[P], at: usize) -> bool
    requires { IsStrictlySortedBy bytes_cmp (tails P.text at paths.now) }
    ensures { result ≡ is_among (tails P.text at paths.now) [] }
{
    match paths.first() {
        Some(first) => first.as_str().len() <= at,
        None => false,
    }
}

/// The paths that have this byte at the offset.
fn with_byte<P: AsStr>(paths: &[P], at: usize, byte: u8) -> &[P]
    requires { IsStrictlySortedBy bytes_cmp (tails P.text at paths.now) }
    ensures { tails P.text (at + 1) result.now ≡ after_byte byte (tails P.text at paths.now) }
{
    let bound = u32::from(byte);
    let rest = &paths[count_below(paths, at, bound)..];
    &rest[..count_below(rest, at, bound + 1)]
}

/// The number of paths that have no byte at the offset, or one below the bound.
fn count_below<P: AsStr>(paths: &[P], at: usize, bound: u32) -> usize
    requires { IsStrictlySortedBy bytes_cmp (tails P.text at paths.now) }
    ensures bound { result ≤ length paths.now }
    ensures point { IsPartitionPoint
        (λ (path : P). begins_below bound (drop at (P.text path)) ≡ true)
        (λ (path : P). begins_below bound (drop at (P.text path)) ≡ false) paths.now result }
{
    // Where all paths have the same byte, the first or the last one decides.
    if let Some(last) = paths.last() {
        if is_below(last.as_str(), at, bound) {
            return paths.len();
        }
    }
    if let Some(first) = paths.first() {
        if !is_below(first.as_str(), at, bound) {
            return 0;
        }
    }
    paths.partition_point(|path| is_below(path.as_str(), at, bound))
}

/// Whether the path has no byte at the offset, or one below the bound.
fn is_below(path: &str, at: usize, bound: u32) -> bool
    ensures { result ≡ begins_below bound (drop at path.now) }
{
    match path.as_bytes().get(at) {
        None => true,
        Some(byte) => u32::from(*byte) < bound,
    }
}

/// Whether the path is in the list.
fn is_listed<P: AsStr>(paths: &[P], path: &str) -> bool
    requires { are_ascending (map P.text paths.now) ≡ true }
    ensures { result ≡ is_among (map P.text paths.now) path.now }
{
    let found = paths.binary_search_by(|one| one.as_str().cmp(&path));
    found.is_ok()
}
