// Encoded runs: ids that are copied from one posting list to another as encoded varints. Deltas of
// one or two bytes each are decoded in sixteen bytes at once.
ghost use Rattle.std.specs.Prelude.{◌≡◌, ◌<◌, ◌≤◌, ◌+◌, ◌++◌, [], true, length, sum, take, false, map, MatchOption};
ghost use Rattle.std.specs.List.{AllByRecursion};
ghost use Rattle.std.specs.Simd.Lanes.{mask_l, sum_l};
ghost use Rattle.cs_index.specs.Cited.{varint, stream_of, max_ids, next_after, AscendWithin, ids_by_deltas, ids_in, IsMarked, IsPrefix, are_short, is_first, second_bytes};

use std::marker::Model;
use std::simd::prelude::*;

/// The most ids that are taken one by one before sixteen bytes are tried again.
const FEW: u32 = 8;

/// A prefix of varint deltas: its length, its number of ids, and one more than its last id.
#[derive(Drop)]
pub(crate) struct Prefix {
    pub(crate) len: usize,
    pub(crate) count: u32,
    pub(crate) next: u32,
}

/// Consecutive ids of a posting list, still encoded as varint deltas. Each id is relative to the id
/// before the run: 0 is the id right after that one.
#[derive(Drop)]
pub struct EncodedRun<'a> {
    bytes: &'a [u8],
    count: u32,
    next: u32,
}

impl<'a> Model for EncodedRun<'a> {
    ghost use Rattle.std.specs.Prelude.{List, ℕ};
    ghost use Rattle.cs_index.specs.IdStream.{ids_in, IsStream};

    ghost Value = { List ℕ };

    ghost view = { λ s. ids_in s.bytes.now s.count };

    ghost invariant = { λ s. IsStream s.bytes.now s.count s.next };
}

impl<'a> EncodedRun<'a> {
    /// The run without ids.
    pub(crate) fn none() -> EncodedRun<'a>
        ensures { result ≡ [] }
    {
        EncodedRun {
            bytes: &[],
            count: 0,
            next: 0,
        }
    }

    /// A prefix of `bytes` that encodes at most `limit` ids less than `room`, and the rest of the
    /// bytes. It ends before a delta that is longer than two bytes or not canonical.
    pub(crate) fn prefix(bytes: &'a [u8], limit: u32, room: u32) -> (EncodedRun<'a>, &'a [u8])
        requires { room ≤ max_ids }
        ensures bytes { bytes.now ≡ stream_of result.0 ++ result.1.now }
        ensures bound { length result.0 ≤ limit }
        ensures below { next_after 0 result.0 ≤ room }
    {
        let ids = extent(bytes, limit, room);
        let (prefix, rest) = bytes.split_at(ids.len);
        let ids = EncodedRun {
            bytes: prefix,
            count: ids.count,
            next: ids.next,
        };
        (ids, rest)
    }

    pub(crate) fn len(&self) -> u32
        ensures { result ≡ length self.now }
    {
        self.count
    }

    /// One more than the last id, or 0 if there is none.
    pub(crate) fn next(&self) -> u32
        ensures value { result ≡ next_after 0 self.now }
        ensures rise { AscendWithin max_ids 0 self.now }
    {
        self.next
    }

    /// The varint deltas, as a posting list stores them.
    pub(crate) fn bytes(&self) -> &'a [u8]
        ensures { result.now ≡ stream_of self.now }
    {
        self.bytes
    }
}

/// The prefix that `EncodedRun::prefix` returns.
#[inline(always)]
pub(crate) fn extent(bytes: &[u8], limit: u32, room: u32) -> Prefix
    requires { room ≤ max_ids }
    ensures { IsPrefix bytes.now limit room result }
{
    let mut len = 0;
    let mut count = 0;
    let mut next = 0;
    'ids: while count < limit {
        let more = part(&bytes[len..], limit - count, room - next);
        if more.count == 0 {
            return Prefix { len, count, next };
        }
        len += more.len;
        count += more.count;
        next += more.next;
    }
    Prefix { len, count, next }
}

/// `extent`, which sets the flag of each id in a row, where the id 0 has the flag `at`.
#[inline(always)]
pub(crate) fn marked_extent(
    bytes: &[u8],
    limit: u32,
    room: u32,
    row: &mut [bool],
    at: usize,
) -> Prefix
    requires bound { room ≤ max_ids }
    requires within { at + room ≤ length row.old }
    ensures prefix { IsPrefix bytes.now limit room result }
    ensures marks { IsMarked at (ids_in (take result.len bytes.now) result.count) row.old row.new }
{
    let mut len = 0;
    let mut count = 0;
    let mut next = 0;
    'ids: while count < limit {
        let first = at + next as usize;
        let more = marked_part(&bytes[len..], limit - count, room - next, row, first);
        if more.count == 0 {
            return Prefix { len, count, next };
        }
        len += more.len;
        count += more.count;
        next += more.next;
    }
    Prefix { len, count, next }
}

/// The whole deltas of the first sixteen bytes, if each is canonical and has one or two bytes.
#[inline(always)]
pub(crate) fn sixteen(bytes: &[u8]) -> Option<Prefix>
    requires { 16 ≤ length bytes.now }
    ensures { MatchOption result (are_short 0 (take 16 bytes.now) ≡ false)
        (λ prefix. IsPrefix bytes.now 16 max_ids prefix × (15 ≤ prefix.len)) }
{
    let v = u8x16::from_slice(bytes);
    let firsts = first_bits(v);
    if !have_short_deltas(v, firsts) {
        return None;
    }
    // A delta of two bytes counts its first byte less 128, and 128 times its second one. The first
    // byte of a delta that is begun only is not counted.
    let two = firsts.count_ones();
    let begun = bytes[15].saturating_sub(128) as u32;
    Some(Prefix {
        len: 16 - (firsts >> 15) as usize,
        count: 16 - two,
        next: sum_of(v) + 127 * sum_of(seconds(v)) - 128 * two - begun,
    })
}

/// One step of `extent`: sixteen bytes at a time, or else a few ids one by one.
#[inline(always)]
fn part(bytes: &[u8], limit: u32, room: u32) -> Prefix
    requires { room ≤ max_ids }
    ensures { IsPrefix bytes.now limit room result }
{
    let whole = by_sixteen(bytes, limit, room);
    if whole.count > 0 {
        return whole;
    }
    one_by_one(bytes, limit.min(FEW), room)
}

/// Deltas of one or two bytes, as long as sixteen bytes have no others.
#[inline(always)]
fn by_sixteen(bytes: &[u8], limit: u32, room: u32) -> Prefix
    requires { room ≤ max_ids }
    ensures { IsPrefix bytes.now limit room result }
{
    let mut len = 0;
    let mut count = 0;
    let mut next = 0;
    'ids: while bytes.len() - len >= 16 && limit - count >= 16 {
        let Some(more) = sixteen(&bytes[len..]) else {
            return Prefix { len, count, next };
        };
        if more.next > room - next {
            return Prefix { len, count, next };
        }
        len += more.len;
        count += more.count;
        next += more.next;
    }
    Prefix { len, count, next }
}

/// Deltas of one or two bytes.
#[inline(always)]
fn one_by_one(bytes: &[u8], limit: u32, room: u32) -> Prefix
    requires { room ≤ max_ids }
    ensures { IsPrefix bytes.now limit room result }
{
    let mut len = 0;
    let mut count = 0;
    let mut next = 0;
    'ids: while count < limit {
        let (delta, size) = short_delta(&bytes[len..]);
        if delta == 0 || delta > room - next {
            return Prefix { len, count, next };
        }
        len += size;
        count += 1;
        next += delta;
    }
    Prefix { len, count, next }
}

/// One step of `marked_extent`: eight ids if each delta is a single byte, else one id.
#[inline(always)]
fn marked_part(bytes: &[u8], limit: u32, room: u32, row: &mut [bool], at: usize) -> Prefix
    requires bound { room ≤ max_ids }
    requires within { at + room ≤ length row.old }
    ensures prefix { IsPrefix bytes.now limit room result }
    ensures marks { IsMarked at (ids_in (take result.len bytes.now) result.count) row.old row.new }
{
    if bytes.len() >= 8 && limit >= 8 {
        let sum = sum_of_short(&bytes[..8]);
        if sum > 0 && sum <= room {
            mark_deltas(&bytes[..8], row, at);
            return Prefix {
                len: 8,
                count: 8,
                next: sum,
            };
        }
    }
    let (delta, size) = short_delta(bytes);
    if delta == 0 || delta > room || limit == 0 {
        return Prefix {
            len: 0,
            count: 0,
            next: 0,
        };
    }
    row[at + delta as usize - 1] = true;
    Prefix {
        len: size,
        count: 1,
        next: delta,
    }
}

/// Sets the flag of each id in a row, where the id 0 has the flag `at`.
#[inline]
fn mark_deltas(deltas: &[u8], row: &mut [bool], at: usize)
    requires short { AllByRecursion (λ delta. (0 < delta) × (delta < 128)) deltas.now }
    requires within { at + sum deltas.now ≤ length row.old }
    ensures { IsMarked at (ids_by_deltas 0 deltas.now) row.old row.new }
{
    let mut next = at;
    'deltas: for delta in deltas {
        next += *delta as usize;
        row[next - 1] = true;
    }
}

/// The sum of the deltas, or 0 if one of them is 0 or longer than a byte.
#[inline]
fn sum_of_short(deltas: &[u8]) -> u32
    requires { length deltas.now ≤ 8 }
    ensures sum { 0 < result → result ≡ sum deltas.now }
    ensures short { 0 < result → AllByRecursion (λ delta. (0 < delta) × (delta < 128)) deltas.now }
{
    let mut sum = 0;
    let mut all_short = true;
    'deltas: for delta in deltas {
        sum += *delta as u32;
        all_short &= 0 < *delta && *delta < 128;
    }
    if all_short { sum } else { 0 }
}

/// The first delta and its length, if it is encoded canonically in one or two bytes; otherwise the
/// delta is 0.
#[inline]
fn short_delta(bytes: &[u8]) -> (u32, usize)
    ensures within { result.1 ≤ length bytes.now }
    ensures written { 0 < result.0 → take result.1 bytes.now ≡ varint result.0 }
{
    match bytes {
        [first, ..] if *first < 128 => (*first as u32, 1),
        [first, second, ..] if 0 < *second && *second < 128 => {
            (*first as u32 - 128 + 128 * *second as u32, 2)
        }
        _ => (0, 0),
    }
}

/// A bit for each byte that is not the last one of its delta.
#[inline(always)]
fn first_bits(v: u8x16) -> u64
    ensures { result ≡ mask_l (map is_first v) }
{
    v.simd_ge(u8x16::splat(128)).to_bitmask()
}

/// Whether each delta is canonical and has one or two bytes.
#[inline(always)]
fn have_short_deltas(v: u8x16, firsts: u64) -> bool
    requires { firsts ≡ mask_l (map is_first v) }
    ensures { result ≡ are_short 0 v }
{
    firsts & (firsts << 1) == 0 && v.simd_eq(u8x16::splat(0)).to_bitmask() == 0
}

/// The second bytes of deltas, and 0 in the other lanes.
#[inline(always)]
fn seconds(v: u8x16) -> u8x16
    ensures { result ≡ second_bytes 0 v }
{
    let zeros = u8x16::splat(0);
    let firsts = v
        .simd_ge(u8x16::splat(128))
        .select(u8x16::splat(255), zeros);
    v & firsts.shuffle(
        zeros,
        [16, 0, 1, 2, 3, 4, 5, 6, 7, 8, 9, 10, 11, 12, 13, 14],
    )
}

/// The sum of the bytes.
#[inline(always)]
fn sum_of(v: u8x16) -> u32
    ensures { result ≡ sum_l v }
{
    v.cast::<u16>().strict_reduce_sum() as u32
}
