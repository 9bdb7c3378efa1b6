// What an index is made of: big-endian numbers, varints (LEB128) and sequences of NUL-terminated
// strings, and which strings and paths it can store.
ghost use Rattle.std.specs.Prelude.{◌≡◌, ◌<◌, ◌+◌, ◌-◌, ◌^◌, ◌++◌, ◌∷◌, [], List, ℕ, Option, length, OnOk, OnErr, slice_get, true, IsTrue, ◌↔◌, flat_map, map, take, drop, string_bytes, IfOk, ◌≤◌, suc, nat_lt};
ghost use Rattle.std.specs.Option.{option_copied};
ghost use Rattle.std.specs.List.{AllByRecursion, concat, list_all};
ghost use Rattle.std.specs.declared.string.String.{String};
ghost use Rattle.std.specs.declared.alloc.Global.{Global};
ghost use Rattle.cs_index.specs.Cited.{AscendWithin, deltas_from, max_ids, next_after, strings_section, name_offsets, with_nul, four_bytes, IsString, entry_bytes, varint, varint_within, are_paths, is_above, is_storable, are_ascending};
ghost use Rattle.cs_tree.specs.Cover.{is_alone as is_alone'};

use cs_tree::is_alone;
use std::alloc::{AllocError, Global};
use std::marker::Model;
use std::mem;

/// So many bytes are compared at once.
const STEP: usize = 16;

/// The maximum number of bytes of strings, so that no sum of their lengths wraps.
const MAX_LEN: usize = 1 << 60;

/// A string in incremental encoding: the number of bytes that it shares with the string before it,
/// and that of its other bytes.
#[derive(Clone, Copy, Drop)]
pub(crate) struct StringCode {
    shared: u32,
    rest: u32,
}

/// Strings in incremental encoding: a name mostly begins as the one before it, so long names take
/// little memory. `rests` has the bytes of each that the string before it does not share, `last` is
/// the last string, and `len` the length of all with a NUL each. `spare` is memory for the next
/// `last`.
#[derive(Drop)]
pub(crate) struct Strings {
    codes: Vec<StringCode>,
    rests: Vec<u8>,
    last: Vec<u8>,
    spare: Vec<u8>,
    len: usize,
}

impl Model for Strings {
    ghost use Rattle.std.specs.Prelude.{List, ℕ, []};
    ghost use Rattle.cs_index.specs.StringCodes.{texts_from, IsCoded};

    ghost Value = { List (List ℕ) };

    ghost view = { λ s. texts_from [] s.codes.items s.rests.items };

    ghost invariant = { λ s. IsCoded s.codes.items s.rests.items s.last.items s.len };
}

impl Strings {
    pub(crate) fn new(alloc: Global) -> Strings
        ensures { result ≡ [] }
    {
        Strings {
            codes: Vec::new(alloc),
            rests: Vec::new(alloc),
            last: Vec::new(alloc),
            spare: Vec::new(alloc),
            len: 0,
        }
    }

    pub(crate) fn len(&self) -> usize
        ensures { result ≡ length self.now }
    {
        self.codes.len()
    }

    /// The number of bytes of the strings, each followed by a NUL.
    pub(crate) fn bytes_len(&self) -> usize
        ensures value { result ≡ length (concat (map with_nul self.now)) }
        ensures within { result ≤ 2 ^ 60 }
    {
        self.len
    }

    /// Whether a text is greater than the last string.
    pub(crate) fn is_below(&self, text: &str) -> bool
        ensures { result ≡ is_above self.now text.now }
    {
        match self.last() {
            None => true,
            Some(last) => last.cmp(&text.as_bytes()).is_lt(),
        }
    }

    /// Appends the strings and a final NUL.
    pub(crate) fn write(&self, alloc: Global, out: &mut Vec<u8>) -> Result<(), AllocError>
        ensures { OnOk result (out.new.items ≡ out.old.items ++ strings_section self.now) }
    {
        let mut text = Vec::new(alloc);
        let mut at = 0;
        'strings: for code in &self.codes {
            let end = at + code.rest as usize;
            text.truncate(code.shared as usize);
            text.extend_from_slice(&self.rests[at..end])?;
            out.extend_from_slice(&text)?;
            out.push(0)?;
            at = end;
        }
        out.push(0)?;
        Ok(())
    }

    /// Appends the offset of each string, and the offset after the last one.
    pub(crate) fn write_starts(&self, out: &mut Vec<u8>) -> Result<(), AllocError>
        requires { length (concat (map with_nul self.now)) < 2 ^ 32 }
        ensures { OnOk result (out.new.items ≡ out.old.items ++
            (name_offsets self.now ++ four_bytes (length (concat (map with_nul self.now))))) }
    {
        let mut start = 0;
        'strings: for code in &self.codes {
            write_number(out, start)?;
            start += code.shared + code.rest + 1;
        }
        write_number(out, start)
    }

    /// The last string.
    fn last(&self) -> Option<&[u8]>
        ensures { option_copied result ≡ slice_get self.now (length self.now - 1) }
    {
        if self.codes.is_empty() {
            return None;
        }
        Some(&self.last)
    }

    /// Appends a string. On error nothing changes.
    pub(crate) fn push(&mut self, text: &str) -> Result<(), AllocError>
        requires { is_storable text.now ≡ true }
        ensures ok { OnOk result (self.new ≡ self.old ++ text.now ∷ []) }
        ensures err { OnErr result (self.new ≡ self.old) }
        ensures each { OnOk result (IsString text.now) }
    {
        let text = text.as_bytes();
        if text.len() > u32::MAX as usize || self.len + text.len() >= MAX_LEN {
            return Err(AllocError);
        }
        let shared = shared_len(&self.last, text);
        self.codes.reserve(1)?;
        self.spare.clear();
        self.spare.extend_from_slice(text)?;
        self.rests.extend_from_slice(&text[shared..])?;
        mem::swap(&mut self.last, &mut self.spare);
        self.codes.push_reserved(StringCode {
            shared: shared as u32,
            rest: (text.len() - shared) as u32,
        });
        self.len += text.len() + 1;
        Ok(())
    }
}

/// A number of bytes with which both texts begin.
fn shared_len(a: &[u8], b: &[u8]) -> usize
    ensures same { take result a.now ≡ take result b.now }
    ensures within { result ≤ length a.now }
    ensures bound { result ≤ length b.now }
{
    let mut len = 0;
    'steps: while a.len() - len >= STEP && b.len() - len >= STEP {
        if a[len..len + STEP] != b[len..len + STEP] {
            return len;
        }
        len += STEP;
    }
    len
}

/// The paths as a sequence of strings.
pub(crate) fn strings_of(alloc: Global, paths: &[String]) -> Result<Strings, AllocError>
    requires { are_paths (map string_bytes paths.now) ≡ true }
    ensures texts { IfOk result (λ texts. texts ≡ map string_bytes paths.now) }
    ensures each { IfOk result (AllByRecursion IsString) }
{
    let mut texts = Strings::new(alloc);
    'paths: for path in paths {
        texts.push(path.as_str())?;
    }
    Ok(texts)
}

/// Appends numbers in four bytes each.
pub(crate) fn write_numbers(out: &mut Vec<u8>, numbers: &[usize]) -> Result<(), AllocError>
    requires { AllByRecursion (λ n. n < 2 ^ 32) numbers.now }
    ensures { OnOk result (out.new.items ≡ out.old.items ++ flat_map four_bytes numbers.now) }
{
    'numbers: for number in numbers {
        write_number(out, *number as u32)?;
    }
    Ok(())
}

/// Appends an entry of the list index.
pub(crate) fn write_entry(
    out: &mut Vec<u8>,
    trigram: u32,
    count: u32,
    offset: u32,
) -> Result<(), AllocError>
    ensures { OnOk result (out.new.items ≡ out.old.items ++
        entry_bytes (record { trigram = trigram; count = count; offset = offset })) }
{
    out.extend_from_slice(&trigram.to_be_bytes()[1..])?;
    write_number(out, count)?;
    write_number(out, offset)
}

/// Appends a number in as few bytes as possible. On error nothing is appended.
#[inline(always)]
pub(crate) fn push_varint(out: &mut Vec<u8>, n: u32) -> Result<(), AllocError>
    ensures ok { OnOk result (out.new.items ≡ out.old.items ++ varint n) }
    ensures err { OnErr result (out.new.items ≡ out.old.items) }
{
    if n < 128 {
        out.push(n as u8)?;
        return Ok(());
    }
    push_long(out, n)
}

/// `push_varint` of several bytes, apart so that the case of one byte is inlined.
#[inline(never)]
fn push_long(out: &mut Vec<u8>, n: u32) -> Result<(), AllocError>
    ensures ok { OnOk result (out.new.items ≡ out.old.items ++ varint n) }
    ensures err { OnErr result (out.new.items ≡ out.old.items) }
{
    let (bytes, len) = encode_varint(n);
    out.extend_from_slice(&bytes[..len])
}

/// Appends the varint deltas of ascending ids, where `next` is one more than the id before them.
/// Returns one more than the last id. On error nothing is appended.
pub(crate) fn push_deltas(out: &mut Vec<u8>, ids: &[u32], next: u32) -> Result<u32, AllocError>
    requires { AscendWithin max_ids next ids.now }
    ensures bytes { OnOk result
        (out.new.items ≡ out.old.items ++ flat_map varint (deltas_from next ids.now)) }
    ensures end { IfOk result (λ end. end ≡ next_after next ids.now) }
    ensures err { OnErr result (out.new.items ≡ out.old.items) }
{
    let len = out.len();
    let mut next = next;
    'ids: for id in ids {
        let end = *id + 1;
        let delta = end - next;
        match push_varint(out, delta) {
            Ok(()) => next = end,
            Err(fault) => {
                out.truncate(len);
                return Err(fault);
            }
        }
    }
    Ok(next)
}

/// The varint of a number, and its length.
pub(crate) fn encode_varint(n: u32) -> ([u8; 5], usize)
    ensures groups { take result.1 result.0 ≡ varint n }
    ensures within { result.1 ≤ 5 }
{
    let mut bytes = [0u8; 5];
    let mut len = 0;
    let mut rest = n;
    'groups: while rest >= 128 && len < 4 {
        bytes[len] = (rest % 128) as u8 + 128;
        rest /= 128;
        len += 1;
    }
    bytes[len] = rest as u8;
    (bytes, len + 1)
}

/// Whether the text is not empty and contains no NUL.
pub(crate) fn is_text(text: &str) -> bool
    ensures { result ≡ is_storable text.now }
{
    !text.is_empty() && has_no_nul(text.as_bytes())
}

/// Whether an index can have these paths.
pub(crate) fn are_index_paths(paths: &[String]) -> bool
    ensures { result ≡ are_paths (map string_bytes paths.now) }
{
    if !are_texts(paths) {
        return false;
    }
    if !ascend(paths) {
        return false;
    }
    none_covers_another(paths)
}

/// Appends a number in four bytes.
fn write_number(out: &mut Vec<u8>, n: u32) -> Result<(), AllocError>
    ensures { OnOk result (out.new.items ≡ out.old.items ++ four_bytes n) }
{
    out.extend_from_slice(&n.to_be_bytes())
}

fn has_no_nul(bytes: &[u8]) -> bool
    ensures { result ≡ list_all (λ b. nat_lt 0 b) bytes.now }
{
    bytes.iter().all(|b| 0 < *b)
}

fn are_texts(paths: &[String]) -> bool
    ensures { result ≡
        list_all (λ (path : String Global). is_storable (string_bytes path)) paths.now }
{
    paths.iter().all(|path| is_text(path.as_str()))
}

/// Whether the paths are strictly ascending.
fn ascend(paths: &[String]) -> bool
    ensures { result ≡ are_ascending (map string_bytes paths.now) }
{
    let mut at = 1;
    'paths: while at < paths.len() {
        if !paths[at - 1].as_str().cmp(&paths[at].as_str()).is_lt() {
            return false;
        }
        at += 1;
    }
    true
}

/// Whether none of the ascending paths covers another.
fn none_covers_another(paths: &[String]) -> bool
    requires { are_ascending (map string_bytes paths.now) ≡ true }
    ensures { result ≡ list_all (λ (path : String Global).
        is_alone' (map string_bytes paths.now) (string_bytes path)) paths.now }
{
    'paths: for path in paths {
        if !is_alone(paths, path.as_str()) {
            return false;
        }
    }
    true
}
