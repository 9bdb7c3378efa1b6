// Comparing a name of a state with the path and stamp of a file.
ghost use Rattle.std.specs.Prelude.{IfSome};
ghost use Rattle.cs_state.specs.Cited.{HasNumbers};
ghost use Rattle.cs_known.specs.KnownFiles.{IsMatchOf, IsNameOf};

use crate::types::NameMatch;
use cs_state::{FileKind, is_stamp_text, stamped_parts, takes_name};
use cs_tree::Stamp;
use std::cmp::Ordering;

/// How a name compares with the path and stamp of a file.
pub(crate) fn match_of(name: &str, path: &str, stamp: &Stamp) -> NameMatch
    ensures { IsMatchOf name.now path.now stamp.now result }
{
    match name.cmp(path) {
        Ordering::Less => NameMatch::Before,
        _ => match kind_in(name, path, stamp) {
            Some(kind) => NameMatch::Found(kind),
            None => NameMatch::Other,
        },
    }
}

/// What the file is, if it can be learned and this is its stamped name.
fn kind_in(name: &str, path: &str, stamp: &Stamp) -> Option<FileKind>
    ensures { IfSome result (IsNameOf name.now path.now stamp.now) }
{
    let parts = stamped_parts(name)?;
    if parts.path != path {
        return None;
    }
    if !is_stamp_text(parts.text, stamp) {
        return None;
    }
    if !takes_name(path) {
        return None;
    }
    has_numbers(stamp);
    Some(parts.kind)
}

/// The numbers of a stamp have eight bytes. This does nothing.
fn has_numbers(stamp: &Stamp)
    ensures { HasNumbers stamp.now }
{
    let Stamp {
        device: _device,
        inode: _inode,
        size: _size,
        modified: _modified,
        changed: _changed,
    } = *stamp;
}
