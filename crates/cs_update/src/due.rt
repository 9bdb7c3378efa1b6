// Which stamps are old, when an update of a state is due, and how many files one takes.
ghost use Rattle.std.specs.Prelude.{◌≡◌, min};
ghost use Rattle.cs_state.specs.Known.{is_old as is_old'};
ghost use Rattle.cs_update.specs.Cited.{IsBatch, is_due as is_due', old_bytes as old_bytes', old_size as old_size'};

use cs_known::SeenFile;
use cs_tree::Stamp;

/// The coarsest clock of a file system, in nanoseconds.
const CLOCK_GRAIN: u64 = 2_000_000_000;

/// So many bytes that are read in vain are not worth an update.
const LEAST: u64 = 1_000_000;

/// Whether a write that follows the stamp gives another one, however coarse the clock.
pub(crate) fn is_old(moment: u64, stamp: &Stamp) -> bool
    ensures { result ≡ is_old' moment stamp.now }
{
    stamp.modified.saturating_add(CLOCK_GRAIN) < moment
        && stamp.changed.saturating_add(CLOCK_GRAIN) < moment
}

/// Whether the unknown files with an old stamp have more bytes than 1 MB and half of those of the
/// state: an update costs 17 ms for each MB of the state and 10 for each of the files, and spares
/// each later search .55 for each of the files.
pub fn is_due(unknown: &[SeenFile], state_len: u64, moment: u64) -> bool
    ensures { result ≡ is_due' moment state_len unknown.now }
{
    old_bytes(unknown, moment) > state_len / 2 + LEAST
}

/// The bytes of the files whose stamp is old; if there are more, the most that the type holds.
fn old_bytes(files: &[SeenFile], moment: u64) -> u64
    ensures { result ≡ min (old_bytes' moment files.now) 18446744073709551615 }
{
    let mut len: u64 = 0;
    'files: for file in files {
        len = len.saturating_add(old_size(file, moment));
    }
    len
}

/// The bytes of a file, if its stamp is old.
fn old_size(file: &SeenFile, moment: u64) -> u64
    ensures { result ≡ old_size' moment file.now }
{
    if is_old(moment, &file.stamp) {
        file.stamp.size
    } else {
        0
    }
}

/// How many of the files come first that have at most so many bytes: at least one, if there are
/// files.
pub fn batch_len(files: &[SeenFile], most: u64) -> usize
    ensures { IsBatch most files.now result }
{
    let mut room = most;
    'files: for (at, file) in files.iter().enumerate() {
        if room < file.stamp.size {
            return at.max(1);
        }
        room -= file.stamp.size;
    }
    files.len()
}
