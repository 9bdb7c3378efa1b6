// The bytes of an index, section by section, on their way to an output.
ghost use Rattle.std.specs.Prelude.{◌≡◌, ◌<◌, ◌≤◌, ◌⊎◌, ◌^◌, ◌++◌, ◌∷◌, [], List, ℕ, length, map, flat_map, Err, IfOk, IfErr, OnOk, OnErr, ◌+◌};
ghost use Rattle.std.specs.List.{AllByRecursion, concat};
ghost use Rattle.cs_index.specs.Cited.{AscendWithin, deltas_from, max_ids, next_after, entry_bytes, four_bytes, layout, list_entries, posting_list_bytes, sections_of, trailer_magic, ListEntry, varint, entry_from, lists_at, bytes_in, all_sent, with_bytes, prefix_of};

use crate::fault::BuildFault;
use crate::format::{MAGIC, TRAILER_LEN, TRAILER_MAGIC};
use crate::writing::strings::{Strings, push_deltas, push_varint, write_entry, write_numbers};
use cs_tree::{Output, Sent};
use std::alloc::{AllocError, Global};
use std::marker::Model;

/// A posting list in the output: its trigram, its number of ids, and its offset.
#[derive(Drop)]
pub(crate) struct WrittenList {
    pub(crate) trigram: u32,
    pub(crate) count: u32,
    pub(crate) start: usize,
}

impl Model for WrittenList {
    ghost use Rattle.cs_index.specs.Encoding.{ListEntry};

    ghost Value = { ListEntry };

    ghost view = { λ l. record { trigram = l.trigram; count = l.count; offset = l.start } };
}

/// So much memory is kept for bytes that are not sent yet.
const KEPT_LEN: usize = 1 << 18;

/// The maximum number of bytes that are sent, so that no sum of offsets wraps.
const MAX_SENT: usize = 1 << 62;

/// The bytes of an index: those that were sent to an output are only counted, the others are in
/// memory.
#[derive(Drop)]
pub(crate) struct SendBuffer {
    sent: Sent,
    sent_len: usize,
    bytes: Vec<u8>,
}

impl Model for SendBuffer {
    ghost use Rattle.std.specs.Prelude.{◌≡◌, ◌≤◌, ◌^◌, length};
    ghost use Rattle.cs_index.specs.Sending.{Outgoing};

    ghost Value = { Outgoing };

    ghost view = { λ b. record { sent = b.sent.bytes; unsent = b.bytes.items } };

    ghost invariant = { λ b. (b.sent_len ≡ length b.sent.bytes) × (b.sent_len ≤ 2 ^ 62) };
}

impl SendBuffer {
    /// These bytes, none of them sent.
    pub(crate) fn new(bytes: Vec<u8>) -> SendBuffer
        ensures { result ≡ record { sent = []; unsent = bytes.items } }
    {
        SendBuffer {
            sent: Sent::new(),
            sent_len: 0,
            bytes,
        }
    }

    /// The number of all bytes, sent or not.
    pub(crate) fn len(&self) -> usize
        ensures value { result ≡ length (bytes_in self.now) }
        ensures within { result ≤ 2 ^ 62 + 2 ^ 63 }
    {
        self.sent_len + self.bytes.len()
    }

    /// The number of bytes that are not sent yet.
    pub(crate) fn unsent_len(&self) -> usize
        ensures { result ≡ length self.now.unsent }
    {
        self.bytes.len()
    }

    /// Appends bytes. On error nothing changes.
    #[inline]
    pub(crate) fn append(&mut self, bytes: &[u8]) -> Result<(), AllocError>
        ensures ok { OnOk result (self.new ≡ with_bytes self.old bytes.now) }
        ensures err { OnErr result (self.new ≡ self.old) }
    {
        self.bytes.extend_from_slice(bytes)
    }

    /// Appends a number in as few bytes as possible. On error nothing changes.
    #[inline]
    pub(crate) fn append_varint(&mut self, n: u32) -> Result<(), AllocError>
        ensures ok { OnOk result (self.new ≡ with_bytes self.old (varint n)) }
        ensures err { OnErr result (self.new ≡ self.old) }
    {
        push_varint(&mut self.bytes, n)
    }

    /// Appends the varint deltas of ascending ids, as `push_deltas` does. On error nothing changes.
    #[inline]
    pub(crate) fn append_deltas(&mut self, ids: &[u32], next: u32) -> Result<u32, AllocError>
        requires { AscendWithin max_ids next ids.now }
        ensures bytes { OnOk result
            (self.new ≡ with_bytes self.old (flat_map varint (deltas_from next ids.now))) }
        ensures end { IfOk result (λ end. end ≡ next_after next ids.now) }
        ensures err { OnErr result (self.new ≡ self.old) }
    {
        push_deltas(&mut self.bytes, ids, next)
    }

    /// Appends two slices. On error nothing changes.
    pub(crate) fn append_both(&mut self, header: &[u8], ids: &[u8]) -> Result<(), AllocError>
        ensures ok { OnOk result (self.new ≡ with_bytes self.old (header.now ++ ids.now)) }
        ensures err { OnErr result (self.new ≡ self.old) }
    {
        let len = self.bytes.len();
        self.bytes.extend_from_slice(header)?;
        if self.bytes.extend_from_slice(ids).is_err() {
            self.bytes.truncate(len);
            return Err(AllocError);
        }
        Ok(())
    }

    /// Sends all bytes. On error nothing changes.
    pub(crate) fn send<O: Output>(&mut self, out: &mut O) -> Result<(), AllocError>
        ensures ok { OnOk result (self.new ≡ all_sent self.old) }
        ensures given { OnOk result (O.given out.new ≡ O.given out.old ++ self.old.unsent) }
        ensures err { OnErr result (self.new ≡ self.old) }
        ensures keeps { O.Keeps out.old out.new }
    {
        let sent_len = self.len();
        if sent_len > MAX_SENT {
            return Err(AllocError);
        }
        out.append(&self.bytes)?;
        self.sent.push(&self.bytes);
        self.sent_len = sent_len;
        self.bytes.clear();
        // The paths and names before the lists may be long.
        self.bytes.shrink_to(KEPT_LEN);
        Ok(())
    }

    /// The bytes that were sent.
    pub(crate) fn into_sent(self) -> Sent
        ensures { result.bytes ≡ self.sent }
    {
        self.sent
    }
}

/// The output before the posting lists: the magic, the paths and the names.
pub(crate) fn write_prefix(
    alloc: Global,
    paths: &Strings,
    names: &Strings,
) -> Result<Vec<u8>, AllocError>
    ensures { IfOk result (λ out. out.items ≡ prefix_of paths.now names.now) }
{
    let mut out = Vec::new(alloc);
    out.extend_from_slice(MAGIC)?;
    paths.write(alloc, &mut out)?;
    names.write(alloc, &mut out)?;
    Ok(out)
}

/// Appends what follows the posting lists, as `write_tables` makes it. `TooLarge` if the index
/// would be longer than `limit` bytes.
pub(crate) fn append_tables(
    alloc: Global,
    out: &mut SendBuffer,
    paths: &Strings,
    names: &Strings,
    entries: &[WrittenList],
    limit: u32,
) -> Result<(), BuildFault>
    requires lists { bytes_in out.old ≡ prefix_of paths.now names.now ++
        concat (map posting_list_bytes (lists_at (bytes_in out.old) entries.now)) }
    requires entries { entries.now ≡ list_entries
        (length (prefix_of paths.now names.now)) (lists_at (bytes_in out.old) entries.now) }
    ensures ok { IfOk result (λ _. bytes_in out.new ≡
        layout (sections_of paths.now names.now (lists_at (bytes_in out.old) entries.now))) }
    ensures sent { IfOk result (λ _. out.new.sent ≡ out.old.sent) }
    ensures within { IfOk result (λ _. length (bytes_in out.new) ≤ limit) }
    ensures too_large { result ≡ Err BuildFault.TooLarge →
        limit < length (layout
        (sections_of paths.now names.now (lists_at (bytes_in out.old) entries.now))) }
    ensures other { IfErr result
        (λ fault. (fault ≡ BuildFault.TooLarge) ⊎ (fault ≡ BuildFault.Memory)) }
{
    let tables = write_tables(alloc, out, paths, names, entries, limit)?;
    out.append(&tables)?;
    Ok(())
}

/// What follows the posting lists: the closing list, the name index, the list index and the
/// trailer. `TooLarge` if the index would be longer than `limit` bytes.
fn write_tables(
    alloc: Global,
    out: &SendBuffer,
    paths: &Strings,
    names: &Strings,
    entries: &[WrittenList],
    limit: u32,
) -> Result<Vec<u8>, BuildFault>
    requires lists { bytes_in out.now ≡ prefix_of paths.now names.now ++
        concat (map posting_list_bytes (lists_at (bytes_in out.now) entries.now)) }
    requires entries { entries.now ≡ list_entries
        (length (prefix_of paths.now names.now)) (lists_at (bytes_in out.now) entries.now) }
    ensures ok { IfOk result (λ tables. bytes_in out.now ++ tables.items ≡
        layout (sections_of paths.now names.now (lists_at (bytes_in out.now) entries.now))) }
    ensures within { IfOk result (λ tables. length (bytes_in out.now ++ tables.items) ≤ limit) }
    ensures too_large { result ≡ Err BuildFault.TooLarge →
        limit < length (layout
        (sections_of paths.now names.now (lists_at (bytes_in out.now) entries.now))) }
    ensures other { IfErr result
        (λ fault. (fault ≡ BuildFault.TooLarge) ⊎ (fault ≡ BuildFault.Memory)) }
{
    let start = out.len();
    let names_at = MAGIC.len() + paths.bytes_len() + 1;
    let lists_start = names_at + names.bytes_len() + 1;
    let mut tables = Vec::new(alloc);
    tables.extend_from_slice(&[0xff, 0xff, 0xff, 0])?;
    let name_index_at = start + tables.len();
    if name_index_at > limit as usize {
        return Err(BuildFault::TooLarge);
    }
    names.write_starts(&mut tables)?;
    let list_index_at = start + tables.len();
    write_entries(&mut tables, entries, lists_start)?;
    if start + tables.len() + TRAILER_LEN > limit as usize {
        return Err(BuildFault::TooLarge);
    }
    write_trailer(
        &mut tables,
        &[16, names_at, lists_start, name_index_at, list_index_at],
    )?;
    Ok(tables)
}

/// Appends the list index. Offsets are relative to `start`, where the posting lists begin.
fn write_entries(out: &mut Vec<u8>, entries: &[WrittenList], start: usize) -> Result<(), AllocError>
    requires { AllByRecursion
        (λ (e : ListEntry). (start ≤ e.offset) × (e.offset < 2 ^ 32)) entries.now }
    ensures { OnOk result (out.new.items ≡ out.old.items ++
        flat_map entry_bytes (map (entry_from start) entries.now)) }
{
    'lists: for entry in entries {
        write_entry(
            out,
            entry.trigram,
            entry.count,
            (entry.start - start) as u32,
        )?;
    }
    Ok(())
}

/// Appends the trailer: the section offsets and the magic.
fn write_trailer(out: &mut Vec<u8>, starts: &[usize]) -> Result<(), AllocError>
    requires { AllByRecursion (λ n. n < 2 ^ 32) starts.now }
    ensures { OnOk result (out.new.items ≡ out.old.items ++
        (flat_map four_bytes starts.now ++ trailer_magic)) }
{
    write_numbers(out, starts)?;
    out.extend_from_slice(TRAILER_MAGIC)
}
