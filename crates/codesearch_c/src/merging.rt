// The export that merges two indexes.
ghost use Rattle.std.specs.Prelude.{◌≡◌, true, false, None};
ghost use Rattle.codesearch_c.specs.Cited.{opening, is_filled, IsMisuse, IsMergeOf, IsMergeOfOpened};

use crate::codes::{MISUSE, index_code, merge_code};
use crate::indexing::fill_bytes;
use crate::slot::Slot;
use cs_index::Index;
use cs_merge::merge;
use std::alloc::Global;

/// Fills an empty slot with the merge of an index with a newer one, which takes precedence at all
/// names that its paths cover.
#[unsafe(no_mangle)]
pub extern "C" fn cs_index_merge(alloc: Global, older: &[u8], newer: &[u8], slot: &mut Slot) -> i32
    ensures misuse { is_filled slot.old.handle.value ≡ true →
        IsMisuse slot.old.handle.value slot.new.handle.value result }
    ensures merged { is_filled slot.old.handle.value ≡ false →
        IsMergeOfOpened (opening older.now) (opening newer.now) slot.new.handle.value result }
{
    if slot.is_filled() {
        return MISUSE;
    }
    match Index::open(older) {
        Ok(older) => match Index::open(newer) {
            Ok(newer) => merge_into(alloc, &older, &newer, slot),
            Err(fault) => index_code(fault),
        },
        Err(fault) => index_code(fault),
    }
}

/// Fills an empty slot with the merge of two indexes.
fn merge_into(alloc: Global, older: &Index<'_>, newer: &Index<'_>, slot: &mut Slot) -> i32
    requires empty { slot.old.handle.value ≡ None }
    ensures { IsMergeOf older.now newer.now slot.new.handle.value result }
{
    match merge(alloc, older, newer) {
        Ok(bytes) => fill_bytes(alloc, slot, bytes),
        Err(fault) => merge_code(fault),
    }
}
