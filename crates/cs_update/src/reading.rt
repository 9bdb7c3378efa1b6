// Reading one file.
ghost use Rattle.std.specs.Prelude.{◌≡◌, IfOk, IfSome, Some, false, option_map};
ghost use Rattle.cs_update.specs.Cited.{item_at, found_content, has_distinct, is_still, seen_content, HasOpened, IsFoundIn, IsReadToEnd};

use crate::types::{Found, Watched};
use cs_tree::{IoFault, Look, Source, Stamp, TreeFault, TreeReader};
use cs_trigram::{Scan, ScanFault, Scanner};
use std::alloc::AllocError;

/// Reads the file at a path, once and to its end, if this is still its stamp. None if it is not, if
/// the file cannot be read, or if its size is 0.
pub(crate) fn read_file<'a, T: Look>(
    scanner: &'a mut Scanner,
    tree: &mut T,
    path: &str,
    stamp: &Stamp,
) -> Result<Option<Found<'a>>, AllocError>
    ensures found { IfSome (T.snapshot tree.old) (λ items. IfOk result (λ found.
        option_map found_content found ≡ seen_content stamp.now (T.stamps items path.now)
        (item_at items path.now))) }
    ensures distinct { IfOk result (λ found. IfSome found has_distinct) }
    ensures keeps { T.snapshot tree.new ≡ T.snapshot tree.old }
{
    if !open_seen(tree, path, stamp)? {
        return Ok(None);
    }
    let mut source = Watched::new(TreeReader::new(tree), stamp.size);
    match find(scanner, &mut source, stamp.size) {
        Ok(found) => Ok(Some(found)),
        Err(IoFault::Failed) => Ok(None),
        Err(IoFault::Memory) => Err(AllocError),
    }
}

/// Opens the file at a path, if this is still its stamp, and its size is not 0. Returns whether it
/// is open.
fn open_seen<T: Look>(tree: &mut T, path: &str, stamp: &Stamp) -> Result<bool, AllocError>
    ensures opened { IfSome (T.snapshot tree.old) (λ items. IfOk result
        (HasOpened stamp.now.size (T.opened tree.new)
        (seen_content stamp.now (T.stamps items path.now) (item_at items path.now)))) }
    ensures keeps { T.snapshot tree.new ≡ T.snapshot tree.old }
{
    if stamp.size == 0 {
        return Ok(false);
    }
    match tree.open_file(path) {
        Ok(now) => Ok(is_same(stamp, now)),
        Err(TreeFault::Memory) => Err(AllocError),
        Err(_) => Ok(false),
    }
}

/// Whether the stamp is the one that was seen.
fn is_same(seen: &Stamp, now: Option<Stamp>) -> bool
    ensures { result ≡ is_still seen.now now }
{
    now == Some(*seen)
}

/// What is found in a source of this size before its first read. It is read to its end, also where
/// that decides nothing: a file that cannot be read is not learned.
fn find<'a, R: Source>(
    scanner: &'a mut Scanner,
    source: &mut Watched<R>,
    size: u64,
) -> Result<Found<'a>, IoFault>
    requires left { source.old.left ≡ 8000 }
    requires unseen { source.old.has_nul ≡ false }
    requires missing { source.old.missing ≡ Some size }
    ensures found { IsFoundIn (R.model source.old.rest) size result }
    ensures distinct { IfOk result has_distinct }
    ensures keeps { R.Keeps source.old.rest source.new.rest }
{
    let scan = match scanner.gather(source) {
        Ok(scan) => scan,
        Err(ScanFault::Read) => return Err(IoFault::Failed),
        Err(ScanFault::Memory) => return Err(IoFault::Memory),
    };
    skip_rest(source)?;
    if !source.is_whole() {
        return Ok(Found::Apart);
    }
    if source.has_nul {
        return Ok(Found::Binary);
    }
    match scan {
        Scan::Text { trigrams, .. } => Ok(Found::Text(trigrams)),
        Scan::Skip(_) => Ok(Found::Apart),
    }
}

/// Reads a source to its end.
fn skip_rest<R: Source>(source: &mut R) -> Result<(), IoFault>
    ensures end { IsReadToEnd (R.model source.old) (R.model source.new) result }
    ensures keeps { R.Keeps source.old source.new }
{
    let mut block = [0u8; 8192];
    'reads: for _ in 0..u64::MAX {
        match source.read(&mut block) {
            Ok(0) => return Ok(()),
            Ok(_) => {}
            Err(fault) => return Err(fault),
        }
    }
    Err(IoFault::Memory)
}
