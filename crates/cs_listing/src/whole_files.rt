// Reading a file whole: rule files, and those by which a repository names its folder.
ghost use Rattle.std.specs.Prelude.{◌≡◌, [], IfOk};
ghost use Rattle.cs_listing.specs.RuleFileReads.{ReadsUpTo, FailsWithin};
ghost use Rattle.cs_tree.specs.Snapshot.{Item};
ghost use Rattle.cs_listing.specs.FolderReads.{InTree, ReadsItem, ReadsFileItem, ReadsOtherItem, ReadsOpen, ReadsWhole};

use crate::fault::ListFault;
use cs_tree::{IoFault, Kind, Look, Source, Tree, TreeFault, TreeReader};
use std::alloc::{AllocError, Global};

/// The size of the blocks in which a file is read.
const BLOCK: usize = 4096;

/// The length of the longest file that is read.
const LONGEST_FILE: usize = 1 << 20;

/// The bytes of a file. One that cannot be read has none, and a fault.
#[derive(Drop)]
pub(crate) struct WholeFile {
    pub(crate) bytes: Vec<u8>,
    pub(crate) fault: Option<ListFault>,
}

impl WholeFile {
    fn without(alloc: Global, fault: Option<ListFault>) -> WholeFile
        ensures bytes { result.bytes.items ≡ [] }
        ensures fault { result.fault ≡ fault }
    {
        WholeFile {
            bytes: Vec::new(alloc),
            fault,
        }
    }

    /// The bytes of what is at a path of a tree. Only a file has any: a symbolic link has none.
    pub(crate) fn read<T: Look>(
        alloc: Global,
        tree: &mut T,
        path: &str,
    ) -> Result<WholeFile, AllocError>
        ensures reads { IfOk result (λ read. InTree (T.snapshot tree.old)
            (λ items. ReadsWhole (items path.now) read)) }
        ensures keeps { T.snapshot tree.new ≡ T.snapshot tree.old }
    {
        let read = read_item(alloc, tree, path);
        WholeFile::of(alloc, read)
    }

    /// The same, but a link is followed to a file. In a snapshot a link has no bytes.
    pub(crate) fn read_linked<T: Look>(
        alloc: Global,
        tree: &mut T,
        path: &str,
    ) -> Result<WholeFile, AllocError>
        ensures reads { IfOk result (λ read. InTree (T.snapshot tree.old)
            (λ items. ReadsWhole (items path.now) read)) }
        ensures keeps { T.snapshot tree.new ≡ T.snapshot tree.old }
    {
        let read = read_linked_item(alloc, tree, path);
        WholeFile::of(alloc, read)
    }

    /// What is read of an item, with the error beside it.
    fn of(alloc: Global, read: Result<Option<Vec<u8>>, TreeFault>) -> Result<WholeFile, AllocError>
        ensures { IfOk result (λ whole. (item : Item) → ReadsItem item read → ReadsWhole item whole) }
    {
        match read {
            Ok(Some(bytes)) => Ok(WholeFile { bytes, fault: None }),
            Ok(None) => Ok(WholeFile::without(alloc, Some(ListFault::LongRules))),
            Err(TreeFault::Memory) => Err(AllocError),
            Err(TreeFault::Missing) => Ok(WholeFile::without(alloc, None)),
            Err(fault) => Ok(WholeFile::without(alloc, Some(ListFault::Tree(fault)))),
        }
    }
}

/// The bytes of what is at a path. None if it is a file of more than 1 MB.
fn read_item<T: Look>(alloc: Global, tree: &mut T, path: &str) -> Result<Option<Vec<u8>>, TreeFault>
    ensures reads { InTree (T.snapshot tree.old) (λ items. ReadsItem (items path.now) result) }
    ensures keeps { T.snapshot tree.new ≡ T.snapshot tree.old }
{
    match tree.look(path) {
        Ok(seen) if seen.kind == Kind::File => read_file(alloc, tree, path),
        Ok(_) => Ok(Some(Vec::new(alloc))),
        Err(fault) => Err(fault),
    }
}

/// The same, but a link is followed.
fn read_linked_item<T: Look>(
    alloc: Global,
    tree: &mut T,
    path: &str,
) -> Result<Option<Vec<u8>>, TreeFault>
    ensures reads { InTree (T.snapshot tree.old) (λ items. ReadsItem (items path.now) result) }
    ensures keeps { T.snapshot tree.new ≡ T.snapshot tree.old }
{
    match tree.look(path) {
        Ok(seen) if seen.kind == Kind::Other => read_link(alloc, tree, path),
        Ok(_) => read_item(alloc, tree, path),
        Err(fault) => Err(fault),
    }
}

/// The bytes of the file to which a link leads. One that leads to no file has none.
fn read_link<T: Look>(alloc: Global, tree: &mut T, path: &str) -> Result<Option<Vec<u8>>, TreeFault>
    ensures reads { InTree (T.snapshot tree.old) (λ items. ReadsOtherItem (items path.now) result) }
    ensures keeps { T.snapshot tree.new ≡ T.snapshot tree.old }
{
    match tree.open_file(path) {
        Ok(_) => read_open(alloc, tree),
        Err(TreeFault::Missing | TreeFault::Failed) => Ok(Some(Vec::new(alloc))),
        Err(fault) => Err(fault),
    }
}

/// The same of a file.
fn read_file<T: Tree>(alloc: Global, tree: &mut T, path: &str) -> Result<Option<Vec<u8>>, TreeFault>
    ensures reads { InTree (T.snapshot tree.old) (λ items. ReadsFileItem (items path.now) result) }
    ensures keeps { T.snapshot tree.new ≡ T.snapshot tree.old }
{
    match tree.open(path) {
        Ok(()) => read_open(alloc, tree),
        Err(fault) => Err(fault),
    }
}

/// The bytes of the open file, from its beginning.
fn read_open<T: Tree>(alloc: Global, tree: &mut T) -> Result<Option<Vec<u8>>, TreeFault>
    ensures reads { ReadsOpen (T.snapshot tree.old) (T.opened tree.old) result }
    ensures keeps { T.snapshot tree.new ≡ T.snapshot tree.old }
{
    let mut reader = TreeReader::new(tree);
    match read_up_to(alloc, &mut reader, LONGEST_FILE) {
        Ok(read) => Ok(read),
        Err(IoFault::Memory) => Err(TreeFault::Memory),
        Err(IoFault::Failed) => Err(TreeFault::Failed),
    }
}

/// The bytes of a source to its end, if they are at most so many.
fn read_up_to<S: Source>(
    alloc: Global,
    source: &mut S,
    limit: usize,
) -> Result<Option<Vec<u8>>, IoFault>
    ensures read { IfOk result (λ read. ReadsUpTo limit (S.model source.old) read) }
    ensures failed { FailsWithin limit (S.model source.old) result }
    ensures keeps { S.Keeps source.old source.new }
{
    let mut bytes = Vec::new(alloc);
    let mut block = [0u8; BLOCK];
    'file: loop {
        let len = source.read(&mut block)?;
        if len == 0 {
            return Ok(Some(bytes));
        }
        if len > limit - bytes.len() {
            return Ok(None);
        }
        bytes.extend_from_slice(&block[..len])?;
    }
}
