// Learning files.
ghost use Rattle.std.specs.Prelude.{◌≡◌, ◌++◌, true, List, IfOk, OnOk, Some, map, option_to_list, string_bytes};
ghost use Rattle.cs_update.specs.Cited.{Snapshot, AreDistinctTrigrams, HasNumbers, IsLearnable, set_of_numbers, found_content, has_distinct, kept_of, HasLearned, LearnedFile, all_learned, is_read, learned_if_old, run_of, seen_by, seen_of, with_learned};

use crate::due::is_old;
use crate::fault::UpdateFault;
use crate::reading::read_file;
use crate::types::{Found, UpdateCall};
use cs_index::Builder;
use cs_known::SeenFile;
use cs_state::{FileKind, stamped_name, takes_name};
use cs_tree::{Look, Stamp};
use cs_trigram::Scanner;
use std::alloc::{AllocError, Global};

/// Learns the files whose name can be learned, whose stamp is old, still the same, and not that of
/// an empty file, and that can be read to their end, each read once. Gives an index with these
/// paths, which has their stamped names; those of texts have trigrams.
///
/// # Errors
///
/// `BadName` if a path is none of an index, or if the names do not ascend; `TooLarge` if there are
/// more files than an index can have; `Memory` if an allocation fails.
pub fn learn_files<T: Look>(
    call: &UpdateCall<'_>,
    tree: &mut T,
    paths: &[String],
) -> Result<Builder, UpdateFault>
    ensures learned { (items : Snapshot) → T.snapshot tree.old ≡ Some items → IfOk result (λ own.
        HasLearned own (all_learned (run_of call.now items (T.stamps items)) (seen_by call.now))) }
    ensures paths { IfOk result (λ own. own.paths ≡ map string_bytes paths.now) }
    ensures keeps { T.snapshot tree.new ≡ T.snapshot tree.old }
{
    let mut scanner = Scanner::new(call.alloc)?;
    let mut own = Builder::new(call.alloc, paths)?;
    'files: for file in call.files {
        learn_file(call, &mut scanner, tree, file, &mut own)?;
    }
    Ok(own)
}

/// Reads a file, if its stamp is old and its name can be learned, and learns it if it can be read
/// to its end.
fn learn_file<T: Look>(
    call: &UpdateCall<'_>,
    scanner: &mut Scanner,
    tree: &mut T,
    file: &SeenFile,
    own: &mut Builder,
) -> Result<(), UpdateFault>
    ensures learned { (items : Snapshot) → T.snapshot tree.old ≡ Some items →
        (files : List LearnedFile) → HasLearned own.old files → OnOk result (HasLearned own.new
        (files ++ option_to_list (learned_if_old (run_of call.now items (T.stamps items))
        (seen_of file.now)))) }
    ensures paths { own.new.paths ≡ own.old.paths }
    ensures keeps { T.snapshot tree.new ≡ T.snapshot tree.old }
{
    if !can_learn(call.moment, file) {
        return Ok(());
    }
    let path = path_below(call.alloc, call.root, file.name.as_str())?;
    match read_file(scanner, tree, path.as_str(), &file.stamp)? {
        Some(found) => add_file(call.alloc, own, file, found),
        None => Ok(()),
    }
}

/// Whether a file has an old stamp and a name that can be learned.
fn can_learn(moment: u64, file: &SeenFile) -> bool
    ensures is { result ≡ is_read moment (seen_of file.now) }
    ensures learnable { result ≡ true → IsLearnable (string_bytes file.now.name) }
{
    is_old(moment, &file.stamp) && takes_name(file.name.as_str())
}

/// The path of a name below a root.
fn path_below(alloc: Global, root: &str, name: &str) -> Result<String, AllocError>
    ensures { IfOk result (λ path. string_bytes path ≡ root.now ++ name.now) }
{
    let mut path = String::from_str(alloc, root)?;
    path.push_str(name)?;
    Ok(path)
}

/// Adds a file by what was found in it.
fn add_file(
    alloc: Global,
    own: &mut Builder,
    file: &SeenFile,
    found: Found<'_>,
) -> Result<(), UpdateFault>
    requires name { IsLearnable (string_bytes file.now.name) }
    requires distinct { has_distinct found }
    ensures added { (files : List LearnedFile) → HasLearned own.old files → OnOk result
        (HasLearned own.new (with_learned files file.now (found_content found.entry))) }
    ensures paths { own.new.paths ≡ own.old.paths }
{
    has_numbers(&file.stamp);
    let (kind, trigrams) = kind_and_trigrams(found);
    let name = stamped_name(alloc, file.name.as_str(), &file.stamp, kind)?;
    own.add(name.as_str(), trigrams)?;
    Ok(())
}

/// What a file is, and the trigrams of a text.
fn kind_and_trigrams(found: Found<'_>) -> (FileKind, &[u32])
    requires { has_distinct found }
    ensures kind { kept_of result.0 ≡ (found_content found.entry).kept }
    ensures trigrams { set_of_numbers result.1.now ≡ (found_content found.entry).trigrams }
    ensures distinct { AreDistinctTrigrams result.1.now }
{
    match found {
        Found::Text(trigrams) => (FileKind::Text, trigrams),
        Found::Binary => (FileKind::Binary, &[]),
        Found::Apart => (FileKind::Apart, &[]),
    }
}

/// States that the numbers of a stamp have eight bytes.
fn has_numbers(stamp: &Stamp)
    ensures { HasNumbers stamp.now }
{
    let Stamp {
        device: _device,
        inode: _inode,
        size: _size,
        modified: _modified,
        changed: _changed,
    } = *stamp;
}
