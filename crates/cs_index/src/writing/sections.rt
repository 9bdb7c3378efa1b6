// The section writer: the one layer that encodes an index.
ghost use Rattle.std.specs.Prelude.{◌≡◌, ◌≢◌, ◌<◌, ◌≤◌, ◌+◌, ◌^◌, ◌++◌, ◌⊎◌, ◌↔◌, [], ◌∷◌, List, ℕ, true, false, length, map, string_bytes, None, Some, Err, IfOk, IfErr, OnOk, OnErr};
ghost use Rattle.cs_index.specs.Cited.{closing_trigram, AscendWithin, ids_in, IsStream, next_after, ids_onward, max_ids, encoding_of, posting_list_bytes, IsString, IsIndexable, are_paths, is_above, is_storable, entries_written, last_ids, with_written_name, with_last_id, with_last_ids, with_list, with_sent, prefix_of, AllBelow, IsSentEarly, bytes_in, with_bytes, IsSentOn, first_of, with_posting, AreFirstIds, IsWritten};
ghost use Rattle.std.specs.List.{AllByRecursion, concat};

use crate::encoded_run::EncodedRun;
use crate::fault::BuildFault;
use crate::writing::output::{SendBuffer, WrittenList, append_tables, write_prefix};
use crate::writing::strings::{Strings, are_index_paths, encode_varint, strings_of};
use cs_tree::{Output, Sent};
use std::alloc::{AllocError, Global};
use std::marker::Model;

/// The number of bytes from which on `send` sends them. Then few writes are made, and little memory
/// is taken.
const SEND_AT: usize = 1 << 16;

/// Writes an index in the order of its bytes: all names, then one posting list after the other.
///
/// Nothing is written before the first id of the first list. `out` ends with the current list
/// without its closing zero; `entries` has an entry for each earlier list. A list that was begun
/// stays pending until it gets an id.
#[derive(Drop)]
pub struct Sections {
    alloc: Global,
    paths: Strings,
    names: Strings,
    out: SendBuffer,
    entries: Vec<WrittenList>,
    pending: Option<u32>,
    trigram: u32,
    count: u32,
    start: usize,
    next: u32,
}

impl Model for Sections {
    ghost use Rattle.cs_index.specs.Written.{Written};
    ghost use Rattle.cs_index.specs.SectionsInvariant.{written_of, IsSections};

    ghost Value = { Written };

    ghost view = { written_of };

    ghost invariant = { IsSections };
}

impl Sections {
    /// A writer with these paths and no names.
    pub fn new(alloc: Global, paths: &[String]) -> Result<Sections, BuildFault>
        ensures ok { IfOk result (λ sections. (sections.paths ≡ map string_bytes paths.now)
            × (sections.names ≡ []) × (sections.lists ≡ []) × (sections.last_trigram ≡ None)
            × (sections.sent ≡ [])) }
        ensures bad_paths { (result ≡ Err BuildFault.BadPaths) ↔
            (are_paths (map string_bytes paths.now) ≡ false) }
        ensures other { IfErr result
            (λ fault. (fault ≡ BuildFault.BadPaths) ⊎ (fault ≡ BuildFault.Memory)) }
    {
        if !are_index_paths(paths) {
            return Err(BuildFault::BadPaths);
        }
        let paths = strings_of(alloc, paths)?;
        Ok(Sections::of(alloc, paths, Strings::new(alloc)))
    }

    /// A writer with these paths and names.
    pub(crate) fn of(alloc: Global, paths: Strings, names: Strings) -> Sections
        requires each_path { AllByRecursion IsString paths }
        requires each_name { AllByRecursion IsString names }
        requires bound { length names ≤ max_ids }
        ensures { result ≡
            record { paths = paths; names = names; lists = []; last_trigram = None; sent = [] } }
    {
        Sections {
            alloc,
            paths,
            names,
            out: SendBuffer::new(Vec::new(alloc)),
            entries: Vec::new(alloc),
            pending: None,
            trigram: 0,
            count: 0,
            start: 0,
            next: 0,
        }
    }

    /// Appends a name and returns its id. On error nothing changes.
    pub fn name(&mut self, name: &str) -> Result<u32, AllocError>
        requires unlisted { self.old.lists ≡ [] }
        requires storable { is_storable name.now ≡ true }
        requires above { is_above self.old.names name.now ≡ true }
        requires bound { length self.old.names < max_ids }
        ensures ok { OnOk result (self.new ≡ with_written_name self.old name.now) }
        ensures id { IfOk result (λ id. id ≡ length self.old.names) }
        ensures err { OnErr result (self.new ≡ self.old) }
    {
        let id = self.names.len() as u32;
        self.names.push(name)?;
        Ok(id)
    }

    /// Begins a posting list. A list that gets no id is not written. Does not allocate.
    pub fn list(&mut self, trigram: u32)
        requires below { trigram < closing_trigram }
        requires above { AllBelow self.old.lists trigram }
        ensures { self.new ≡ with_list self.old trigram }
    {
        self.pending = Some(trigram);
    }

    /// Appends an id to the current list. On error nothing changes.
    #[inline]
    pub fn id(&mut self, id: u32) -> Result<(), AllocError>
        requires begun { self.old.last_trigram ≢ None }
        requires named { id < length self.old.names }
        requires above { next_after 0 (last_ids self.old) ≤ id }
        ensures ok { OnOk result (self.new ≡ with_last_id self.old id) }
        ensures err { OnErr result (self.new ≡ self.old) }
    {
        match self.pending {
            None => {
                self.out.append_varint(id + 1 - self.next)?;
                self.count += 1;
                self.next = id + 1;
                Ok(())
            }
            Some(trigram) => {
                let (bytes, len) = encode_varint(id + 1);
                self.begin(trigram, &bytes[..len], 1, id + 1)
            }
        }
    }

    /// Appends ascending ids to the current list. On error some of them may be appended.
    pub fn ids(&mut self, ids: &[u32]) -> Result<(), AllocError>
        requires begun { self.old.last_trigram ≢ None }
        requires rise { AscendWithin (length self.old.names) (next_after 0 (last_ids self.old)) ids.now }
        ensures { OnOk result (self.new ≡ with_last_ids self.old ids.now) }
    {
        if ids.is_empty() {
            return Ok(());
        }
        self.id(ids[0])?;
        self.more_ids(&ids[1..])?;
        Ok(())
    }

    /// Appends ascending ids to the current list, after its first one.
    fn more_ids(&mut self, ids: &[u32]) -> Result<(), AllocError>
        requires some { last_ids self.old ≢ [] }
        requires rise { AscendWithin (length self.old.names) (next_after 0 (last_ids self.old)) ids.now }
        ensures { OnOk result (self.new ≡ with_last_ids self.old ids.now) }
    {
        let next = self.out.append_deltas(ids, self.next)?;
        self.next = next;
        self.count += ids.len() as u32;
        Ok(())
    }

    /// Appends an encoded run, relative to the last id of the current list. On error nothing
    /// changes.
    #[inline]
    pub fn encoded_run(&mut self, ids: &EncodedRun<'_>) -> Result<(), AllocError>
        requires some { last_ids self.old ≢ [] }
        requires named { next_after 0 (last_ids self.old) + next_after 0 ids.now
            ≤ length self.old.names }
        ensures ok { OnOk result (self.new ≡
            with_last_ids self.old (ids_onward (next_after 0 (last_ids self.old)) ids.now)) }
        ensures err { OnErr result (self.new ≡ self.old) }
    {
        self.out.append(ids.bytes())?;
        self.next += ids.next();
        self.count += ids.len();
        Ok(())
    }

    /// The number of bytes of the posting lists. The clause `written` states the invariant of the
    /// writer, for callers that count them.
    pub fn list_bytes(&self) -> usize
        ensures bytes { result ≡ length (concat (map posting_list_bytes self.now.lists)) }
        ensures written { IsWritten self.now }
    {
        if self.count == 0 {
            return 0;
        }
        let first = first_start(&self.entries, self.start);
        self.out.len() + 1 - first
    }

    /// Begins a list with encoded ids. On error nothing changes.
    pub(crate) fn begin(
        &mut self,
        trigram: u32,
        ids: &[u8],
        count: u32,
        next: u32,
    ) -> Result<(), AllocError>
        requires below { trigram < closing_trigram }
        requires above { AllBelow self.old.lists trigram }
        requires stream { IsStream ids.now count next }
        requires some { count ≢ 0 }
        requires named { next ≤ length self.old.names }
        ensures ok { OnOk result
            (self.new ≡ with_posting self.old (trigram, ids_in ids.now count)) }
        ensures err { OnErr result (self.new ≡ self.old) }
    {
        if self.count == 0 {
            self.begin_first(trigram, ids, count, next)
        } else {
            self.begin_next(trigram, ids, count, next)
        }
    }

    /// Begins the first list.
    fn begin_first(
        &mut self,
        trigram: u32,
        ids: &[u8],
        count: u32,
        next: u32,
    ) -> Result<(), AllocError>
        requires first { self.old.lists ≡ [] }
        requires ids { AreFirstIds (length self.old.names) trigram count next ids.now }
        ensures ok { OnOk result
            (self.new ≡ with_posting self.old (trigram, ids_in ids.now count)) }
        ensures err { OnErr result (self.new ≡ self.old) }
    {
        let mut out = SendBuffer::new(write_prefix(self.alloc, &self.paths, &self.names)?);
        let start = out.len();
        out.append_both(&trigram.to_be_bytes()[1..], ids)?;
        self.out = out;
        self.pending = None;
        self.trigram = trigram;
        self.count = count;
        self.start = start;
        self.next = next;
        Ok(())
    }

    /// Closes the current list and begins the next one. The closing zero is the highest byte of the
    /// next trigram as a four-byte number.
    fn begin_next(
        &mut self,
        trigram: u32,
        ids: &[u8],
        count: u32,
        next: u32,
    ) -> Result<(), AllocError>
        requires later { self.old.lists ≢ [] }
        requires above { AllBelow self.old.lists trigram }
        requires ids { AreFirstIds (length self.old.names) trigram count next ids.now }
        ensures ok { OnOk result
            (self.new ≡ with_posting self.old (trigram, ids_in ids.now count)) }
        ensures err { OnErr result (self.new ≡ self.old) }
    {
        self.entries.reserve(1)?;
        let start = self.out.len() + 1;
        self.out.append_both(&trigram.to_be_bytes(), ids)?;
        self.entries.push_reserved(WrittenList {
            trigram: self.trigram,
            count: self.count,
            start: self.start,
        });
        self.pending = None;
        self.trigram = trigram;
        self.count = count;
        self.start = start;
        self.next = next;
        Ok(())
    }

    /// Sends the bytes that are in memory if they are `SEND_AT` or more. On error nothing changes.
    pub fn send<O: Output>(&mut self, out: &mut O) -> Result<(), AllocError>
        ensures ok { OnOk result (self.new ≡ with_sent self.old self.new.sent) }
        ensures given { OnOk result
            (IsSentOn self.old.sent self.new.sent (O.given out.old) (O.given out.new)) }
        ensures early { OnOk result (IsSentEarly self.new) }
        ensures err { OnErr result (self.new ≡ self.old) }
        ensures keeps { O.Keeps out.old out.new }
    {
        if self.out.unsent_len() < SEND_AT {
            return Ok(());
        }
        self.out.send(out)
    }

    /// Encodes the index and sends what is not sent yet. `TooLarge` if the index would be longer
    /// than `limit` bytes.
    pub fn finish_into<O: Output>(self, out: &mut O, limit: u32) -> Result<Sent, BuildFault>
        ensures ok { IfOk result
            (λ index. index.bytes ≡ encoding_of self.paths (entries_written self)) }
        ensures within { IfOk result (λ index. length index.bytes ≤ limit) }
        ensures indexable { IfOk result (λ _. IsIndexable self.paths (entries_written self)) }
        ensures too_large { result ≡ Err BuildFault.TooLarge →
            limit < length (encoding_of self.paths (entries_written self)) }
        ensures other { IfErr result
            (λ fault. (fault ≡ BuildFault.TooLarge) ⊎ (fault ≡ BuildFault.Memory)) }
        ensures given { IfOk result
            (λ index. IsSentOn self.sent index.bytes (O.given out.old) (O.given out.new)) }
        ensures keeps { O.Keeps out.old out.new }
    {
        let mut index = self.complete(limit)?;
        index.send(out)?;
        Ok(index.into_sent())
    }

    /// The whole index: the bytes that were sent, and the others in memory. `TooLarge` if it would
    /// be longer than `limit` bytes.
    fn complete(mut self, limit: u32) -> Result<SendBuffer, BuildFault>
        ensures ok { IfOk result
            (λ index. bytes_in index ≡ encoding_of self.paths (entries_written self)) }
        ensures sent { IfOk result (λ index. index.sent ≡ self.sent) }
        ensures within { IfOk result (λ index. length (bytes_in index) ≤ limit) }
        ensures indexable { IfOk result (λ _. IsIndexable self.paths (entries_written self)) }
        ensures too_large { result ≡ Err BuildFault.TooLarge →
            limit < length (encoding_of self.paths (entries_written self)) }
        ensures other { IfErr result
            (λ fault. (fault ≡ BuildFault.TooLarge) ⊎ (fault ≡ BuildFault.Memory)) }
    {
        let current = WrittenList {
            trigram: self.trigram,
            count: self.count,
            start: self.start,
        };
        close_lists(
            self.alloc,
            &mut self.out,
            &self.paths,
            &self.names,
            &mut self.entries,
            current,
        )?;
        append_tables(
            self.alloc,
            &mut self.out,
            &self.paths,
            &self.names,
            &self.entries,
            limit,
        )?;
        Ok(self.out)
    }
}

/// The offset of the first list; `last` is that of the list after the entries.
fn first_start(entries: &[WrittenList], last: usize) -> usize
    ensures { result ≡ first_of entries.now last }
{
    match entries.first() {
        Some(list) => list.start,
        None => last,
    }
}

/// Closes the current list, or writes the prefix if no list has an id.
fn close_lists(
    alloc: Global,
    out: &mut SendBuffer,
    paths: &Strings,
    names: &Strings,
    entries: &mut Vec<WrittenList>,
    current: WrittenList,
) -> Result<(), AllocError>
    ensures none { current.count ≡ 0 → OnOk result
        ((out.new ≡ record { sent = []; unsent = prefix_of paths.now names.now })
        × (entries.new.items ≡ entries.old.items)) }
    ensures some { current.count ≢ 0 → OnOk result
        ((out.new ≡ with_bytes out.old (0 ∷ []))
        × (entries.new.items ≡ entries.old.items ++ current ∷ [])) }
{
    if current.count == 0 {
        *out = SendBuffer::new(write_prefix(alloc, paths, names)?);
        return Ok(());
    }
    out.append(&[0])?;
    entries.push(current)?;
    Ok(())
}
