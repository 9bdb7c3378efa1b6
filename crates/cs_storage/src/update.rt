// The update of the index file, safe against crashes and other runs.
ghost use Rattle.std.specs.Prelude.{◌≡◌, [], Some, None, OnOk, IfErr};
ghost use Rattle.cs_storage.specs.FileAfter.{IsGiven, IsChange};
ghost use Rattle.cs_storage.specs.Storing.{Moves, IsHeld, Begins, Updates};
ghost use Rattle.cs_storage.specs.Steps.{Replaces, RenamesSynced};

use crate::folder::{IndexFolder, StorageFault};
use cs_tree::Sent;

/// The update of the index file.
#[derive(Drop)]
pub enum IndexUpdate {
    /// It stays unchanged.
    Keep,
    /// It gets these bytes, which FILE~ was given.
    Write(Sent),
    /// It is removed.
    Remove,
}

/// Makes and locks FILE~, and tests that FILE is still what was opened. So a second run, and a
/// folder that cannot be written, are found before the job. Returns an error if FILE has changed.
pub fn begin_update<F: IndexFolder>(folder: &mut F) -> Result<(), StorageFault>
    ensures begins { Moves (Begins result) (F.model folder.old) (F.model folder.new) }
    ensures given { OnOk result (F.given folder.new ≡ []) }
{
    folder.claim()?;
    if folder.is_unchanged() {
        return Ok(());
    }
    folder.release();
    Err(StorageFault::Failed)
}

/// Updates FILE, and takes FILE~ away, which was given the bytes of the update. FILE is tested
/// again, since a program that knows nothing of FILE~ may have changed it.
pub fn finish_update<F: IndexFolder>(
    folder: &mut F,
    update: &IndexUpdate,
) -> Result<(), StorageFault>
    requires held { IsHeld (F.model folder.old) }
    requires given { IsGiven update.now [] (F.given folder.old) }
    ensures tried { IfErr result (λ _. IsChange update.now) }
    ensures updates { Moves (Updates update.now result) (F.model folder.old) (F.model folder.new) }
{
    match update {
        IndexUpdate::Keep => {
            folder.release();
            Ok(())
        }
        IndexUpdate::Write(_) => replace_file(folder),
        IndexUpdate::Remove => remove(folder),
    }
}

/// Replaces FILE by FILE~, or takes FILE~ away.
pub fn replace_file<F: IndexFolder>(folder: &mut F) -> Result<(), StorageFault>
    requires { IsHeld (F.model folder.old) }
    ensures { Moves (Replaces (Some (F.given folder.old)) result)
        (F.model folder.old) (F.model folder.new) }
{
    let replaced = rename_synced(folder);
    // A renamed FILE~ is held no more.
    if replaced.is_err() {
        folder.release();
    }
    replaced
}

/// Syncs FILE~ and renames it to FILE. On error FILE~ stays.
fn rename_synced<F: IndexFolder>(folder: &mut F) -> Result<(), StorageFault>
    requires { IsHeld (F.model folder.old) }
    ensures { Moves (RenamesSynced (F.given folder.old) result)
        (F.model folder.old) (F.model folder.new) }
{
    if !folder.is_unchanged() {
        return Err(StorageFault::Failed);
    }
    // An append that failed is an error of the sync.
    folder.sync()?;
    folder.rename()
}

/// Removes FILE.
fn remove<F: IndexFolder>(folder: &mut F) -> Result<(), StorageFault>
    requires { IsHeld (F.model folder.old) }
    ensures { Moves (Replaces None result) (F.model folder.old) (F.model folder.new) }
{
    let removed = if folder.is_unchanged() {
        folder.remove()
    } else {
        Err(StorageFault::Failed)
    };
    folder.release();
    removed
}
