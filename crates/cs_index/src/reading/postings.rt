// A posting list, decoded id by id from the bytes of an index (Go: `postReader` in index/read.go).
ghost use Rattle.std.specs.Prelude.{◌≡◌, ◌<◌, ◌+◌, ◌++◌, ◌≤◌, ◌^◌, [], true, Some, None, drop, length, IfOk, IfSome, MatchOption, MatchResult, OnOk};
ghost use Rattle.std.specs.List.{AllByRecursion, cons_option};
ghost use Rattle.std.specs.Iterator.{YieldsFirst, item_count};
ghost use Rattle.cs_index.specs.Cited.{ids_onward, max_ids, ids_given, damage, read_ids, varint_at, read_varint, AreMappedBytes, IsListFault, IsStep, new_ids_of};
ghost use Rattle.cs_index.specs.MappedIds.{new_id as new_id'};

use crate::encoded_run::EncodedRun;
use crate::fault::IndexFault;
use std::alloc::AllocError;
use std::marker::Model;

/// The ids of a posting list, ascending. If the list is damaged: the ids before the damage, then
/// one `BadList`.
#[derive(Drop)]
pub struct Postings<'a> {
    bytes: &'a [u8],
    decoder: ListDecoder,
    has_ended: bool,
}

impl<'a> Model for Postings<'a> {
    ghost use Rattle.cs_index.specs.PostingLists.{Ids};
    ghost use Rattle.cs_index.specs.PostingsInvariant.{remaining_ids, IsPostingsState};

    ghost Value = { Ids };

    ghost view = { λ s. remaining_ids s.has_ended s.decoder s.bytes.now };

    ghost invariant = { λ s. IsPostingsState s.decoder };
}

impl<'a> Postings<'a> {
    /// A posting list of `count` ids, each less than `name_count`, encoded in a prefix of the
    /// bytes.
    pub fn new(bytes: &'a [u8], count: u32, name_count: u32) -> Postings<'a>
        requires { name_count < max_ids }
        ensures { result ≡ read_ids name_count count 0 bytes.now }
    {
        Postings {
            bytes,
            decoder: ListDecoder {
                left: count,
                next: 0,
                name_count,
            },
            has_ended: false,
        }
    }

    /// Skips the ids less than `end` that follow `last`, the id that was yielded last, and returns
    /// them as an encoded run. It ends before the first delta that is longer than two bytes or not
    /// canonical. If `last` is another id, the run is empty.
    pub fn encoded_run(&mut self, last: u32, end: u32) -> EncodedRun<'a>
        ensures ids { self.old.ids ≡ ids_onward (last + 1) result ++ self.new.ids }
        ensures below { AllByRecursion (λ id. last + 1 + id < end) result }
        ensures whole { self.new.whole ≡ self.old.whole }
    {
        if self.has_ended || self.decoder.next == 0 || last != self.decoder.next - 1 {
            return EncodedRun::none();
        }
        let room = end
            .min(self.decoder.name_count)
            .saturating_sub(self.decoder.next);
        let (ids, rest) = EncodedRun::prefix(self.bytes, self.decoder.left, room);
        self.bytes = rest;
        self.decoder.left -= ids.len();
        self.decoder.next += ids.next();
        ids
    }

    /// Reads the list to its end, and appends the new ids of its ids. `new_ids` has them by id.
    pub fn map_into(self, new_ids: &[Option<u32>], out: &mut Vec<u32>) -> Result<(), IndexFault>
        ensures ok { OnOk result
            (out.new.items ≡ out.old.items ++ new_ids_of new_ids.now self.entry.ids) }
        ensures whole { MatchResult result
            (λ _. self.entry.whole ≡ true) (IsListFault self.entry.whole) }
    {
        let mut rest = self;
        'ids: while let Some(answer) = rest.next() {
            let Ok(id) = answer else {
                return Err(IndexFault::BadList);
            };
            push_new(out, new_id(new_ids, id))?;
            rest.map_short(new_ids, out)?;
        }
        Ok(())
    }

    /// Reads the next ids whose deltas have one byte each, and appends their new ids.
    fn map_short(&mut self, new_ids: &[Option<u32>], out: &mut Vec<u32>) -> Result<(), AllocError>
        ensures ids { OnOk result (out.new.items ++ new_ids_of new_ids.now self.new.ids
            ≡ out.old.items ++ new_ids_of new_ids.now self.old.ids) }
        ensures whole { OnOk result (self.new.whole ≡ self.old.whole) }
        ensures fewer { OnOk result (length self.new.ids ≤ length self.old.ids) }
    {
        if self.has_ended {
            return Ok(());
        }
        let (count, next) = map_bytes(self.bytes, &self.decoder, new_ids, out)?;
        self.bytes = &self.bytes[count..];
        self.decoder.left -= count as u32;
        self.decoder.next = next;
        Ok(())
    }

    /// A list that is damaged from the start.
    pub(crate) fn damage() -> Postings<'a>
        ensures { result ≡ damage }
    {
        Postings::new(&[], 0, 0)
    }
}

impl<'a> Iterator for Postings<'a> {
    type Item = Result<u32, IndexFault>;

    ghost next_gives = { YieldsFirst ids_given };

    ghost remaining = { item_count ids_given };

    fn next(&mut self) -> Option<Result<u32, IndexFault>> {
        if self.has_ended {
            return None;
        }
        match self.decoder.step(self.bytes) {
            Step::Id(id, len) => {
                self.bytes = &self.bytes[len..];
                self.decoder.left -= 1;
                self.decoder.next = id + 1;
                Some(Ok(id))
            }
            Step::End(is_whole) => {
                self.has_ended = true;
                if is_whole {
                    return None;
                }
                Some(Err(IndexFault::BadList))
            }
        }
    }
}

/// The new id of an id, if it has one.
#[inline(always)]
fn new_id(new_ids: &[Option<u32>], id: u32) -> Option<u32>
    ensures { result ≡ new_id' new_ids.now id }
{
    *new_ids.get(id as usize)?
}

/// Appends a new id, if there is one.
#[inline(always)]
fn push_new(out: &mut Vec<u32>, new: Option<u32>) -> Result<(), AllocError>
    ensures { OnOk result (out.new.items ≡ out.old.items ++ cons_option new []) }
{
    if let Some(new) = new {
        out.push(new)?;
    }
    Ok(())
}

/// Decodes the ids that the bytes begin with, as long as each delta has one byte, and appends their
/// new ids. Returns the number of ids, and one more than the last one.
#[inline(always)]
fn map_bytes(
    bytes: &[u8],
    decoder: &ListDecoder,
    new_ids: &[Option<u32>],
    out: &mut Vec<u32>,
) -> Result<(usize, u32), AllocError>
    requires { decoder.now.next ≤ decoder.now.name_count }
    ensures { IfOk result (λ read. AreMappedBytes
        decoder.now bytes.now new_ids.now read.0 read.1 out.old.items out.new.items) }
{
    let most = bytes.len().min(decoder.left as usize);
    out.reserve(most)?;
    let mut count = 0;
    let mut next = decoder.next;
    'ids: while count < most {
        let delta = bytes[count] as u32;
        if delta == 0 || delta >= 128 || delta > decoder.name_count - next {
            return Ok((count, next));
        }
        next += delta;
        count += 1;
        let Some(new) = new_id(new_ids, next - 1) else {
            continue;
        };
        out.push_reserved(new);
    }
    Ok((count, next))
}

/// A posting list between two ids: the number of ids that are left, one more than the id before,
/// and the number of names.
#[derive(Drop)]
pub(crate) struct ListDecoder {
    pub(crate) left: u32,
    pub(crate) next: u32,
    pub(crate) name_count: u32,
}

/// What follows in a posting list.
#[derive(Drop)]
pub(crate) enum Step {
    /// An id, and the length of its varint.
    Id(u32, usize),
    /// The end of the list, which is whole or damaged.
    End(bool),
}

impl ListDecoder {
    /// Decodes the next id. The bytes have a whole varint, or all that is left of the list.
    #[inline(always)]
    pub(crate) fn step(&self, bytes: &[u8]) -> Step
        requires { self.now.next ≤ self.now.name_count }
        ensures { IsStep self.now bytes.now result }
    {
        let Some((delta, len)) = decode_varint(bytes) else {
            return Step::End(false);
        };
        if self.left == 0 {
            return Step::End(delta == 0);
        }
        if delta == 0 || delta > self.name_count - self.next {
            return Step::End(false);
        }
        Step::Id(self.next + delta - 1, len)
    }
}

/// Decodes the first varint: its value and its length. A varint of one byte is the fast path.
fn decode_varint(bytes: &[u8]) -> Option<(u32, usize)>
    ensures value { MatchOption result (read_varint bytes.now ≡ None)
        (λ found. read_varint bytes.now ≡ Some (found.0, drop found.1 bytes.now)) }
    ensures within { IfSome result (λ found. found.1 ≤ length bytes.now) }
{
    match bytes {
        [first, ..] if *first < 128 => Some((*first as u32, 1)),
        _ => {
            let (value, len) = groups(5, bytes)?;
            if value > u32::MAX as u64 {
                return None;
            }
            Some((value as u32, len))
        }
    }
}

/// Decodes a varint of at most `room` bytes, from the last byte to the first.
fn groups(room: u32, bytes: &[u8]) -> Option<(u64, usize)>
    requires { room ≤ 5 }
    ensures value { MatchOption result (varint_at room bytes.now ≡ None)
        (λ found. varint_at room bytes.now ≡ Some (found.0, drop found.1 bytes.now)) }
    ensures within { IfSome result (λ found. found.1 ≤ length bytes.now) }
    ensures small { IfSome result (λ found. found.0 < 128 ^ room) }
{
    if room == 0 {
        return None;
    }
    let first = *bytes.first()?;
    if first < 128 {
        return Some((first as u64, 1));
    }
    let (high, len) = groups(room - 1, &bytes[1..])?;
    Some((first as u64 - 128 + 128 * high, len + 1))
}
