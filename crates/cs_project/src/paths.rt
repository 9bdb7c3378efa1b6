// The paths that the words of a command line lead to.
ghost use Rattle.std.specs.Prelude.{◌≡◌, ◌∷◌, [], true, map, string_bytes, IfOk, IfSome};
ghost use Rattle.std.specs.Path.{slash};
ghost use Rattle.cs_project.specs.Cited.{absolute, CleanAnswers, clean_fault, InTree, path_text, is_folder, is_straight, path_in, StepsTo};
ghost use Rattle.cs_tree.specs.Cover.{is_absolute as is_absolute'};

use cs_listing::path_names;
use cs_tree::{Kind, Look, PathFault, TreeFault, clean, is_absolute};
use std::alloc::{AllocError, Global};

/// Whether a folder is at a path. A link is none.
fn is_folder<T: Look>(tree: &mut T, path: &str) -> Result<bool, AllocError>
    ensures folder { IfOk result (λ folder. InTree (T.snapshot tree.old)
        (λ items. folder ≡ is_folder (items path.now))) }
    ensures keeps { T.snapshot tree.new ≡ T.snapshot tree.old }
{
    match tree.kind(path) {
        Ok(Kind::Folder) => Ok(true),
        Err(TreeFault::Memory) => Err(AllocError),
        _ => Ok(false),
    }
}

/// The path after one more name. None if the name is `..` and no folder is at the path.
fn step<T: Look>(
    alloc: Global,
    tree: &mut T,
    path: &str,
    name: &str,
) -> Result<Option<String>, AllocError>
    requires { is_absolute' path.now ≡ true }
    ensures next { IfOk result (λ next. InTree (T.snapshot tree.old)
        (λ items. StepsTo items path.now name.now next)) }
    ensures absolute { IfOk result (λ next. IfSome next
        (λ path. is_absolute' (string_bytes path) ≡ true)) }
    ensures keeps { T.snapshot tree.new ≡ T.snapshot tree.old }
{
    if name == ".." && !is_folder(tree, path)? {
        return Ok(None);
    }
    match clean(alloc, path, name) {
        Ok(next) => Ok(Some(next)),
        Err(PathFault::Memory) => Err(AllocError),
        Err(_) => Ok(None),
    }
}

/// Whether each `..` among names follows a folder.
fn is_straight<T: Look>(alloc: Global, tree: &mut T, names: &[String]) -> Result<bool, AllocError>
    ensures straight { IfOk result (λ straight. InTree (T.snapshot tree.old)
        (λ items. straight ≡ is_straight items (slash ∷ []) (map string_bytes names.now))) }
    ensures keeps { T.snapshot tree.new ≡ T.snapshot tree.old }
{
    let mut path = String::from_str(alloc, "/")?;
    let mut rest = names;
    'names: while let Some((name, behind)) = rest.split_first() {
        match step(alloc, tree, path.as_str(), name.as_str())? {
            Some(next) => path = next,
            None => return Ok(false),
        }
        rest = behind;
    }
    Ok(true)
}

/// A text joined to a folder, unless it is absolute.
fn absolute(alloc: Global, folder: &str, text: &str) -> Result<String, AllocError>
    ensures { IfOk result (λ all. string_bytes all ≡ absolute folder.now text.now) }
{
    if is_absolute(text) {
        return String::from_str(alloc, text);
    }
    let mut all = String::from_str(alloc, folder)?;
    all.push('/')?;
    all.push_str(text)?;
    Ok(all)
}

/// The path of these names.
fn path_text(alloc: Global, names: &[String]) -> Result<String, AllocError>
    ensures { IfOk result (λ path. string_bytes path ≡ path_text (map string_bytes names.now)) }
{
    let mut path = String::new(alloc);
    'names: for name in names {
        path.push('/')?;
        path.push_str(name.as_str())?;
    }
    Ok(path)
}

/// The path that a word leads to.
pub(crate) fn word_path<T: Look>(
    alloc: Global,
    tree: &mut T,
    here: &str,
    word: &str,
) -> Result<String, PathFault>
    requires { is_absolute' here.now ≡ true }
    ensures path { IfOk result (λ path. InTree (T.snapshot tree.old)
        (λ items. string_bytes path ≡ path_in items here.now word.now)) }
    ensures answer { CleanAnswers (clean_fault here.now word.now) result }
    ensures keeps { T.snapshot tree.new ≡ T.snapshot tree.old }
{
    let cleaned = clean(alloc, here, word)?;
    let all = absolute(alloc, here, word)?;
    let names = path_names(alloc, all.as_str())?;
    if is_straight(alloc, tree, &names)? {
        return Ok(cleaned);
    }
    let path = path_text(alloc, &names)?;
    Ok(path)
}
