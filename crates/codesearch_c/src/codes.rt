// The codes of errors, the numbers of `codesearch.h`, and copies into a buffer of the caller.
ghost use Rattle.std.specs.Prelude.{◌≡◌};
ghost use Rattle.codesearch_c.specs.Cited.{list_code, pattern_code, index_code, build_code, merge_code, reason_code, IsCopy, IsPage};

use cs_index::{BuildFault, IndexFault};
use cs_merge::MergeFault;
use cs_syntax::PatternFault;
use cs_trigram::Reason;

/// The call did what it was asked.
pub(crate) const OK: i32 = 0;

/// An allocation failed.
pub(crate) const MEMORY: i32 = -1;

/// A pattern, a name or a path is not UTF-8.
pub(crate) const NOT_UTF8: i32 = -2;

/// There are more bytes, ids or lines than room.
pub(crate) const ROOM: i32 = -3;

/// There is no name, path or byte of this number.
pub(crate) const NO_ENTRY: i32 = -4;

/// The slot is empty, filled, or holds something else.
pub(crate) const MISUSE: i32 = -5;

/// The budget or the room is used up.
pub(crate) const STOPPED: i32 = -6;

/// The code of a list of spans.
pub(crate) fn list_code(is_stopped: bool) -> i32
    ensures { result ≡ list_code is_stopped }
{
    if is_stopped { STOPPED } else { OK }
}

/// The code of a pattern's error: -20 and below, in the order of the variants.
pub(crate) fn pattern_code(fault: PatternFault) -> i32
    ensures { result ≡ pattern_code fault }
{
    match fault {
        PatternFault::NoOperand => -20,
        PatternFault::StackedRepeat => -21,
        PatternFault::BadRepeat => -22,
        PatternFault::OpenGroup => -23,
        PatternFault::StrayClose => -24,
        PatternFault::BadGroup => -25,
        PatternFault::OpenClass => -26,
        PatternFault::BadRange => -27,
        PatternFault::BadEscape => -28,
        PatternFault::LoneBackslash => -29,
        PatternFault::NotInProfile => -30,
        PatternFault::TooDeep => -31,
        PatternFault::TooLarge => -32,
        PatternFault::Memory => MEMORY,
    }
}

/// The code of an index's error: -40 and below, in the order of the variants.
pub(crate) fn index_code(fault: IndexFault) -> i32
    ensures { result ≡ index_code fault }
{
    match fault {
        IndexFault::BadMagic => -40,
        IndexFault::BadTrailer => -41,
        IndexFault::BadOffsets => -42,
        IndexFault::BadPaths => -43,
        IndexFault::BadNames => -44,
        IndexFault::BadNameIndex => -45,
        IndexFault::BadListIndex => -46,
        IndexFault::BadList => -47,
        IndexFault::Memory => MEMORY,
    }
}

/// The code of a builder's error: -60 and below, in the order of the variants.
pub(crate) fn build_code(fault: BuildFault) -> i32
    ensures { result ≡ build_code fault }
{
    match fault {
        BuildFault::BadName => -60,
        BuildFault::OutOfOrder => -61,
        BuildFault::BadPaths => -62,
        BuildFault::TooLarge => -63,
        BuildFault::Memory => MEMORY,
    }
}

/// The code of a merge's error: -80 and below, in the order of the variants, or the code of the
/// same error of an index or of a builder.
pub(crate) fn merge_code(fault: MergeFault) -> i32
    ensures { result ≡ merge_code fault }
{
    match fault {
        MergeFault::Unsorted => -80,
        MergeFault::Uncovered => -81,
        MergeFault::Index(fault) => index_code(fault),
        MergeFault::TooLarge => build_code(BuildFault::TooLarge),
        MergeFault::Memory => MEMORY,
    }
}

/// The number of a reason to leave a file out: 1 to 5, in the order of the variants.
pub(crate) fn reason_code(reason: Reason) -> i32
    ensures { result ≡ reason_code reason }
{
    match reason {
        Reason::Nul => 1,
        Reason::Utf8 => 2,
        Reason::TooLong => 3,
        Reason::LongLine => 4,
        Reason::ManyTrigrams => 5,
    }
}

/// Copies the items to the start of the buffer, if all fit. The length is that of all items.
pub(crate) fn copy_items<T: Copy>(items: &[T], buffer: &mut [T], len: &mut usize) -> i32
    ensures { IsCopy items.now buffer.old buffer.new len.new result }
{
    *len = items.len();
    if items.len() > buffer.len() {
        return ROOM;
    }
    buffer[..items.len()].copy_from_slice(items);
    OK
}

/// Copies the first items to the start of the buffer, as many as fit. The count is theirs.
pub(crate) fn copy_first<T: Copy>(items: &[T], buffer: &mut [T], count: &mut usize) -> i32
    ensures { IsPage items.now buffer.old buffer.new count.new result }
{
    let len = items.len().min(buffer.len());
    *count = len;
    buffer[..len].copy_from_slice(&items[..len]);
    list_code(len < items.len())
}
