// Exports that build an index, copy its bytes, and read it. The bytes are the index: nothing is
// kept of them after a call.
ghost use Rattle.std.specs.Prelude.{◌≡◌, IsOk, IfOk, length, slice_get, [], true, false, Some, None, IfErr, map, string_bytes};
ghost use Rattle.std.specs.Option.{option_copied};
ghost use Rattle.codesearch_c.specs.Cited.{opening, IsEntryCopy, opening_code, is_filled, OnBuilder, OnBytes, done, memory, misuse, IsMisuse, nul_parts, IsPathsRefusal, IsNewBuilder, IsAddition, IsFinished, IsPart};

use crate::codes::{
    MEMORY, MISUSE, NO_ENTRY, NOT_UTF8, OK, build_code, copy_items, index_code, reason_code,
};
use crate::slot::{Held, HeldBuilder, Slot};
use cs_index::{Builder, Index};
use cs_tree::MemSource;
use cs_trigram::{Scan, Scanner};
use std::alloc::{AllocError, Global};
use std::str::from_utf8;

/// Whether the bytes are an index: 0, or the code of their error.
#[unsafe(no_mangle)]
pub extern "C" fn cs_index_check(index: &[u8]) -> i32
    ensures { result ≡ opening_code (opening index.now) }
{
    match Index::open(index) {
        Ok(_) => OK,
        Err(fault) => index_code(fault),
    }
}

/// The number of names.
#[unsafe(no_mangle)]
pub extern "C" fn cs_index_names(index: &[u8], count: &mut u32) -> i32
    requires opened { IsOk (opening index.now) }
    ensures code { result ≡ opening_code (opening index.now) }
    ensures count { IfOk (opening index.now) (λ parts. count.new ≡ length parts.names) }
{
    match Index::reopen(index) {
        Ok(index) => {
            *count = index.len();
            OK
        }
        Err(fault) => index_code(fault),
    }
}

/// The name with an id.
#[unsafe(no_mangle)]
pub extern "C" fn cs_index_name(index: &[u8], id: u32, name: &mut [u8], len: &mut usize) -> i32
    requires opened { IsOk (opening index.now) }
    ensures { IfOk (opening index.now) (λ parts.
        IsEntryCopy (slice_get parts.names id) name.old name.new len.old len.new result) }
{
    match Index::reopen(index) {
        Ok(index) => copy_entry(index.name(id), name, len),
        Err(fault) => index_code(fault),
    }
}

/// The path at a position.
#[unsafe(no_mangle)]
pub extern "C" fn cs_index_path(index: &[u8], at: u32, path: &mut [u8], len: &mut usize) -> i32
    requires opened { IsOk (opening index.now) }
    ensures { IfOk (opening index.now) (λ parts.
        IsEntryCopy (slice_get parts.paths at) path.old path.new len.old len.new result) }
{
    match Index::reopen(index) {
        Ok(index) => copy_entry(index.path(at), path, len),
        Err(fault) => index_code(fault),
    }
}

/// Fills an empty slot with a builder of an index over paths, each followed by a NUL.
#[unsafe(no_mangle)]
pub extern "C" fn cs_builder_new(alloc: Global, paths: &[u8], slot: &mut Slot) -> i32
    ensures misuse { is_filled slot.old.handle.value ≡ true →
        IsMisuse slot.old.handle.value slot.new.handle.value result }
    ensures made { is_filled slot.old.handle.value ≡ false →
        IsNewBuilder paths.now slot.new.handle.value result }
{
    if slot.is_filled() {
        return MISUSE;
    }
    match new_builder(alloc, paths) {
        Ok(held) => {
            slot.fill(held);
            OK
        }
        Err(code) => code,
    }
}

/// Adds a name with the trigrams of its text: 0, the number of the reason to leave the text out, or
/// a code.
#[unsafe(no_mangle)]
pub extern "C" fn cs_builder_add(alloc: Global, slot: &mut Slot, name: &[u8], text: &[u8]) -> i32
    ensures { OnBuilder slot.old.handle.value
        (IsMisuse slot.old.handle.value slot.new.handle.value result)
        (λ old. OnBuilder slot.new.handle.value (false ≡ true) (λ new.
        IsAddition name.now text.now old new result)) }
{
    let Some(mut held) = slot.take(alloc) else {
        return MISUSE;
    };
    let code = add_to(&mut held, name, text);
    slot.fill(held);
    code
}

/// Empties a builder, and fills an empty slot with the bytes of its index.
#[unsafe(no_mangle)]
pub extern "C" fn cs_builder_finish(alloc: Global, slot: &mut Slot, index: &mut Slot) -> i32
    ensures filled { is_filled index.old.handle.value ≡ true →
        IsMisuse index.old.handle.value index.new.handle.value result
        × (slot.new.handle.value ≡ slot.old.handle.value) }
    ensures finished { is_filled index.old.handle.value ≡ false → OnBuilder slot.old.handle.value
        (IsMisuse slot.old.handle.value slot.new.handle.value result
        × (index.new.handle.value ≡ index.old.handle.value))
        (λ built. (slot.new.handle.value ≡ None)
        × IsFinished built index.new.handle.value result) }
{
    if index.is_filled() {
        return MISUSE;
    }
    match take_builder(alloc, slot) {
        Some(builder) => match builder.finish() {
            Ok(bytes) => fill_bytes(alloc, index, bytes),
            Err(fault) => build_code(fault),
        },
        None => MISUSE,
    }
}

/// The number of bytes.
#[unsafe(no_mangle)]
pub extern "C" fn cs_bytes_len(alloc: Global, slot: &mut Slot, len: &mut usize) -> i32
    ensures same { slot.new.handle.value ≡ slot.old.handle.value }
    ensures code { OnBytes slot.old.handle.value ((result ≡ misuse) × (len.new ≡ len.old))
        (λ bytes. (result ≡ done) × (len.new ≡ length bytes)) }
{
    let Some(held) = slot.take(alloc) else {
        return MISUSE;
    };
    let code = match &*held {
        Held::Bytes(bytes) => {
            *len = bytes.len();
            OK
        }
        _ => MISUSE,
    };
    slot.fill(held);
    code
}

/// Copies the bytes from an offset on, until the buffer is full or the bytes end.
#[unsafe(no_mangle)]
pub extern "C" fn cs_bytes_copy(alloc: Global, slot: &mut Slot, from: usize, out: &mut [u8]) -> i32
    ensures same { slot.new.handle.value ≡ slot.old.handle.value }
    ensures code { OnBytes slot.old.handle.value ((result ≡ misuse) × (out.new ≡ out.old))
        (λ bytes. IsPart bytes from out.old out.new result) }
{
    let Some(held) = slot.take(alloc) else {
        return MISUSE;
    };
    let code = match &*held {
        Held::Bytes(bytes) => copy_from(bytes, from, out),
        _ => MISUSE,
    };
    slot.fill(held);
    code
}

/// Empties a slot, and frees what it holds.
#[unsafe(no_mangle)]
pub extern "C" fn cs_builder_free(alloc: Global, slot: &mut Slot)
    ensures { slot.new.handle.value ≡ None }
{
    let _held = slot.take(alloc);
}

/// Empties a slot, and frees what it holds.
#[unsafe(no_mangle)]
pub extern "C" fn cs_bytes_free(alloc: Global, slot: &mut Slot)
    ensures { slot.new.handle.value ≡ None }
{
    let _held = slot.take(alloc);
}

/// Fills an empty slot with bytes.
pub(crate) fn fill_bytes(alloc: Global, slot: &mut Slot, bytes: Vec<u8>) -> i32
    requires empty { slot.old.handle.value ≡ None }
    ensures { OnBytes slot.new.handle.value ((slot.new.handle.value ≡ None) × (result ≡ memory))
        (λ held. (held ≡ bytes.items) × (result ≡ done)) }
{
    match boxed(alloc, Held::Bytes(bytes)) {
        Ok(held) => {
            slot.fill(held);
            OK
        }
        Err(code) => code,
    }
}

/// Copies a name or a path, if there is one.
fn copy_entry(entry: Option<&str>, buffer: &mut [u8], len: &mut usize) -> i32
    ensures { IsEntryCopy (option_copied entry.entry) buffer.old buffer.new len.old len.new result }
{
    match entry {
        Some(text) => copy_items(text.as_bytes(), buffer, len),
        None => NO_ENTRY,
    }
}

/// A box with a builder; or a code.
fn new_builder(alloc: Global, paths: &[u8]) -> Result<Box<Held>, i32>
    ensures made { IfOk result (λ held. OnBuilder (Some held.value) (false ≡ true) (λ built.
        (built.paths ≡ nul_parts paths.now) × (built.entries ≡ []))) }
    ensures refused { IfErr result (IsPathsRefusal paths.now) }
{
    let Ok(text) = from_utf8(paths) else {
        return Err(NOT_UTF8);
    };
    let Ok(paths) = split_paths(alloc, text) else {
        return Err(MEMORY);
    };
    let builder = match Builder::new(alloc, &paths) {
        Ok(builder) => builder,
        Err(fault) => return Err(build_code(fault)),
    };
    let Ok(scanner) = Scanner::new(alloc) else {
        return Err(MEMORY);
    };
    boxed(alloc, Held::Builder(HeldBuilder { builder, scanner }))
}

/// A box; or a code.
fn boxed(alloc: Global, held: Held) -> Result<Box<Held>, i32>
    ensures boxed { IfOk result (λ it. it.value ≡ held) }
    ensures refused { IfErr result (λ code. code ≡ memory) }
{
    match Box::new(alloc, held) {
        Ok(held) => Ok(held),
        Err(_) => Err(MEMORY),
    }
}

/// The paths of a text, each followed by a NUL.
fn split_paths(alloc: Global, text: &str) -> Result<Vec<String>, AllocError>
    ensures { IfOk result (λ paths. map string_bytes paths.items ≡ nul_parts text.now) }
{
    let mut paths = Vec::new(alloc);
    let mut rest = text;
    'paths: while let Some((path, more)) = rest.split_once('\0') {
        paths.push(String::from_str(alloc, path)?)?;
        rest = more;
    }
    if rest.is_empty() {
        return Ok(paths);
    }
    paths.push(String::from_str(alloc, rest)?)?;
    Ok(paths)
}

fn add_to(held: &mut Held, name: &[u8], text: &[u8]) -> i32
    ensures { OnBuilder (Some held.old) (IsMisuse (Some held.old) (Some held.new) result)
        (λ old. OnBuilder (Some held.new) (false ≡ true) (λ new.
        IsAddition name.now text.now old new result)) }
{
    match held {
        Held::Builder(builder) => add_code(builder, name, text),
        _ => MISUSE,
    }
}

fn add_code(held: &mut HeldBuilder, name: &[u8], text: &[u8]) -> i32
    ensures { IsAddition name.now text.now held.old.builder held.new.builder result }
{
    let Ok(name) = from_utf8(name) else {
        return NOT_UTF8;
    };
    let mut source = MemSource::new(text, usize::MAX, false);
    match held.scanner.gather(&mut source) {
        Ok(Scan::Text { trigrams, bytes: _ }) => match held.builder.add(name, trigrams) {
            Ok(_) => OK,
            Err(fault) => build_code(fault),
        },
        Ok(Scan::Skip(reason)) => reason_code(reason),
        Err(_) => MEMORY,
    }
}

/// Empties a slot that holds a builder.
fn take_builder(alloc: Global, slot: &mut Slot) -> Option<Builder>
    ensures { OnBuilder slot.old.handle.value
        ((result ≡ None) × (slot.new.handle.value ≡ slot.old.handle.value))
        (λ built. (result ≡ Some built) × (slot.new.handle.value ≡ None)) }
{
    let held = slot.take(alloc)?;
    if !matches!(&*held, Held::Builder(_)) {
        slot.fill(held);
        return None;
    }
    match Box::into_inner(held) {
        Held::Builder(held) => Some(held.into_builder()),
        _ => None,
    }
}

/// Fills the buffer with the bytes from an offset on, if there are enough.
fn copy_from(bytes: &[u8], from: usize, out: &mut [u8]) -> i32
    ensures { IsPart bytes.now from out.old out.new result }
{
    if from > bytes.len() || out.len() > bytes.len() - from {
        return NO_ENTRY;
    }
    out.copy_from_slice(&bytes[from..from + out.len()]);
    OK
}
