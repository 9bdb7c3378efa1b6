// Prints the paths of an index, and diagnostics of paths and files that are skipped.
ghost use Rattle.std.specs.Prelude.{◌≡◌, [], ◌∷◌, map, ◌++◌, ℕ, List, Some, codes};
ghost use Rattle.cs_cindex.specs.Cited.{fault_entry, fault_entry_line, faulted, skipped, text_of, WritesOut, count_after, OpensAs, KeepsOldIndex, ListsOver, ListsPaths, IsIndex, output, path_lines, is_failed_write};
ghost use Rattle.cs_cindex.specs.Diagnostics.{walk_fault as walk_fault'};

use cs_args::{CindexFault, FileFault, Tool, fault_line, skip_line};
use cs_index::{IndexFault, StoredIndex, Texts};
use cs_tree::{IoFault, Sink, Store, WalkFault, write_all};
use cs_trigram::Reason;
use std::alloc::Global;

/// Prints the diagnostic of each path that a walk cannot read.
pub(crate) fn print_walk_faults<E: Sink>(
    alloc: Global,
    faults: &[(String, WalkFault)],
    err: &mut E,
) -> Result<(), CindexFault>
    ensures prints { WritesOut E.model E.failed err.old err.new
        (text_of (map fault_entry_line (map fault_entry faults.now))) result }
{
    for (path, fault) in faults {
        print_fault(alloc, path.as_str(), walk_fault(*fault), err)?;
    }
    Ok(())
}

/// Prints the diagnostic of a path or a file with a fault.
pub(crate) fn print_fault<E: Sink>(
    alloc: Global,
    name: &str,
    fault: FileFault,
    err: &mut E,
) -> Result<(), CindexFault>
    ensures prints { WritesOut E.model E.failed err.old err.new
        (text_of (faulted name.now fault ∷ [])) result }
{
    let line = fault_line(alloc, Tool::Cindex, name, fault)?;
    write_all(err, line.as_bytes())?;
    Ok(())
}

/// Prints the diagnostic of a non-text file.
pub(crate) fn print_skipped<E: Sink>(
    alloc: Global,
    name: &str,
    reason: Reason,
    err: &mut E,
) -> Result<(), CindexFault>
    ensures prints { WritesOut E.model E.failed err.old err.new
        (text_of (skipped name.now reason ∷ [])) result }
{
    let line = skip_line(alloc, name, reason)?;
    write_all(err, line.as_bytes())?;
    Ok(())
}

/// Prints each path of the old index on a line. No posting list is read.
pub(crate) fn list_old<S: Store, O: Sink>(
    alloc: Global,
    old: &mut Option<S>,
    out: &mut O,
) -> Result<Result<(), CindexFault>, IoFault>
    ensures lists { ListsOver (IsIndex S.model old.old) (output O.model O.failed out.old)
        (output O.model O.failed out.new) result }
    ensures store { KeepsOldIndex S.model S.size S.failed old.old old.new result }
{
    let Some(store) = old else {
        return Ok(Err(CindexFault::NoIndex));
    };
    match StoredIndex::open(alloc, store) {
        Ok(opened) => Ok(print_opened(opened, out)),
        Err(IoFault::Memory) => Ok(Err(CindexFault::Memory)),
        Err(IoFault::Failed) => Err(IoFault::Failed),
    }
}

/// The fault of a path in a walk, as that of a file.
fn walk_fault(fault: WalkFault) -> FileFault
    ensures { result ≡ walk_fault' fault }
{
    match fault {
        WalkFault::Tree(fault) => match FileFault::of_tree(fault) {
            Ok(file) => file,
            // Out of memory ends a walk, so that no path has it as its fault.
            Err(_) => FileFault::Failed,
        },
        WalkFault::Unnamed => FileFault::Unnamed,
        WalkFault::TooLong => FileFault::PathTooLong,
    }
}

/// Prints each path of an index on a line, if it opens.
fn print_opened<O: Sink>(
    opened: Result<StoredIndex, IndexFault>,
    out: &mut O,
) -> Result<(), CindexFault>
    ensures lists { (bytes : List ℕ) → OpensAs bytes opened → ListsPaths (Some bytes)
        (output O.model O.failed out.old) (output O.model O.failed out.new) result }
    ensures writes { O.failed out.new ≡ count_after is_failed_write result (O.failed out.old) }
{
    let index = opened?;
    print_paths(index.paths(), out)
}

/// Prints each path on a line.
fn print_paths<O: Sink>(paths: Texts<'_>, out: &mut O) -> Result<(), CindexFault>
    ensures out { WritesOut O.model O.failed out.old out.new (path_lines paths.entry) result }
{
    'paths: for path in paths {
        print_line(path, out)?;
    }
    Ok(())
}

/// Prints the path on a line.
fn print_line<O: Sink>(path: &str, out: &mut O) -> Result<(), CindexFault>
    ensures out { WritesOut O.model O.failed out.old out.new (path.now ++ codes "\n") result }
{
    write_all(out, path.as_bytes())?;
    write_all(out, b"\n")?;
    Ok(())
}
