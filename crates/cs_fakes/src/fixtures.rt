// Fixtures of several crates of tests, without contracts, since no proof depends on what they
// return; and a store whose bytes change.
ghost use Rattle.std.specs.Prelude.{◌≡◌, ◌≤◌, length};

use cs_index::{BuildFault, Builder};
use cs_tree::{IoFault, MemSource, Store};
use cs_trigram::{Scan, Scanner};
use std::alloc::{AllocError, Global};

/// Bytes that change after some reads: then each read fails, or gives the bytes of `then`.
#[derive(Drop)]
pub struct ChangingStore<'a> {
    first: &'a [u8],
    then: Option<&'a [u8]>,
    reads: usize,
    failed: u64,
}

impl<'a> Store for ChangingStore<'a> {
    ghost size = { λ s. length s.first.now };

    ghost failed = { λ s. s.failed };

    fn len(&self) -> usize {
        self.first.len()
    }

    fn read_at(&mut self, buf: &mut [u8], at: usize) -> Result<usize, IoFault> {
        let bytes = if self.reads > 0 {
            self.reads -= 1;
            Some(self.first)
        } else {
            self.then
        };
        let Some(bytes) = bytes else {
            self.failed = self.failed.saturating_add(1);
            return Err(IoFault::Failed);
        };
        Ok(fill(buf, bytes.get(at..).unwrap_or(b"")))
    }

    fn failures(&self) -> u64 {
        self.failed
    }
}

/// Names and the texts of the files.
pub type Files<'a> = &'a [(&'a str, &'a [u8])];

/// An index of the path `/a` and the file `/a/x`, which has `abcd` and a newline.
pub const ONE_FILE: &[u8; 122] =
    b"csearch index 1\n/a\0\0/a/x\0\0abc\x01\0bcd\x01\0cd\n\x01\0\xff\xff\xff\0\0\0\0\0\0\0\0\x05abc\0\0\0\x01\0\0\0\0bcd\0\0\0\x01\0\0\0\x05cd\n\0\0\0\x01\0\0\0\x0a\0\0\0\x10\0\0\0\x14\0\0\0\x1a\0\0\0\x2d\0\0\0\x35\ncsearch trailr\n";

/// An index whose names are not sorted, and with an entry for the closing list.
pub const UNSORTED: &[u8; 115] =
    b"csearch index 1\n/a\0\0/a/b/z\0/a/b-x\0\0abc\x01\x01\0\xff\xff\xff\0\0\0\0\0\0\0\0\x07\0\0\0\x0eabc\0\0\0\x02\0\0\0\0\xff\xff\xff\0\0\0\0\0\0\0\x06\0\0\0\x10\0\0\0\x14\0\0\0\x23\0\0\0\x2d\0\0\0\x39\ncsearch trailr\n";

/// A copy of the bytes, changed at some offsets.
pub fn changed<const N: usize>(bytes: &[u8; N], changes: &[(usize, u8)]) -> [u8; N] {
    let mut bytes = *bytes;
    for (offset, byte) in changes {
        if let Some(changed) = bytes.get_mut(*offset) {
            *changed = *byte;
        }
    }
    bytes
}

/// The texts as strings.
pub fn strings(alloc: Global, texts: &[&str]) -> Result<Vec<String>, AllocError> {
    let mut strings = Vec::new(alloc);
    for text in texts {
        strings.push(String::from_str(alloc, *text)?)?;
    }
    Ok(strings)
}

/// The number of the trigram that is the first three bytes.
pub fn number(text: &[u8]) -> u32 {
    match text {
        [a, b, c, ..] => 65536 * *a as u32 + 256 * *b as u32 + *c as u32,
        _ => 0,
    }
}

/// A builder of an index of the paths.
pub fn builder_of(alloc: Global, paths: &[&str]) -> Result<Builder, BuildFault> {
    Builder::new(alloc, &strings(alloc, paths)?)
}

/// The index of the paths with these files, which have to be text.
pub fn index_of(alloc: Global, paths: &[&str], files: Files<'_>) -> Option<Vec<u8>> {
    let mut builder = builder_of(alloc, paths).ok()?;
    add_files(alloc, &mut builder, files)?;
    builder.finish().ok()
}

/// A store with the bytes of `ONE_FILE` for this number of reads; then each read fails, or gives
/// the bytes of `then`.
pub fn one_file_until(reads: usize, then: Option<&[u8]>) -> ChangingStore<'_> {
    ChangingStore {
        first: ONE_FILE,
        then,
        reads,
        failed: 0,
    }
}

/// Adds files, which have to be text.
fn add_files(alloc: Global, builder: &mut Builder, files: Files<'_>) -> Option<()> {
    let mut scanner = Scanner::new(alloc).ok()?;
    for (name, text) in files {
        let _id = add_file(builder, &mut scanner, *name, *text)?;
    }
    Some(())
}

/// Adds a file, which has to be text.
fn add_file(builder: &mut Builder, scanner: &mut Scanner, name: &str, text: &[u8]) -> Option<u32> {
    match scanner.gather(&mut MemSource::new(text, 4, false)) {
        Ok(Scan::Text { trigrams, .. }) => builder.add(name, trigrams).ok(),
        _ => None,
    }
}

/// Fills the buffer with a prefix of the bytes, and returns its length.
fn fill(buf: &mut [u8], bytes: &[u8]) -> usize
    ensures len { length buf.new ≡ length buf.old }
    ensures within { result ≤ length buf.new }
{
    let n = buf.len().min(bytes.len());
    buf[..n].copy_from_slice(&bytes[..n]);
    n
}
