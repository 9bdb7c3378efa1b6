// Opening a state file.
ghost use Rattle.std.specs.Prelude.{◌≡◌, ◌+◌, ◌*◌, ◌<◌, ◌^◌, length, IfOk, IfSome};
ghost use Rattle.cs_state.specs.Cited.{KeepsStore, eight_bytes, end_of, HasForm};
ghost use Rattle.cs_state.specs.Sums.{piece_count as piece_count'};

use crate::state_key::{StateKey, StateSeal};
use crate::sums::{SUM_LEN, piece_count};
use cs_tree::{IoFault, Store, read_part};
use std::alloc::Global;

/// What a state file ends with. It changes with every rule that a state rests on.
pub(crate) const MAGIC: &[u8] = b"codesearch state3";

/// The length of what follows the sums of pieces: the length of the index, its sum, the moment and
/// the magic.
pub(crate) const END_LEN: usize = 41;

/// The length of the index in a state file, and the seal, if the store has the form of one that was
/// sealed with the key.
pub(crate) fn read_form<S: Store>(
    alloc: Global,
    store: &mut S,
    key: StateKey,
) -> Result<Option<(usize, StateSeal)>, IoFault>
    ensures form { IfSome (S.model store.old) (λ bytes. IfOk result (λ found.
        IfSome found (λ f. HasForm f.1 bytes f.0))) }
    ensures key { IfOk result (λ found. IfSome found (λ f. f.1.key ≡ key)) }
    ensures short { IfOk result (λ found. IfSome found (λ f. f.0 < 2 ^ 32)) }
    ensures store { KeepsStore S.model S.size S.failed store.old store.new result }
{
    let len = store.len();
    if len < END_LEN {
        return Ok(None);
    }
    if len > u32::MAX as usize {
        return Ok(None);
    }
    let end = read_part(alloc, store, len - END_LEN, END_LEN)?;
    Ok(form_in(key, &end, len - END_LEN))
}

/// The same, of the end and the number of bytes before it.
fn form_in(key: StateKey, end: &[u8], room: usize) -> Option<(usize, StateSeal)>
    requires { room < 2 ^ 32 }
    ensures end { IfSome result (λ found. end.now ≡ end_of found.1 found.0) }
    ensures room { IfSome result (λ found. found.0 + 8 * piece_count' found.0 ≡ room) }
    ensures key { IfSome result (λ found. found.1.key ≡ key) }
{
    if end.len() < END_LEN {
        return None;
    }
    let (last, rest) = end.split_at(8);
    let (sum, rest) = rest.split_at(SUM_LEN);
    let (moment, magic) = rest.split_at(8);
    if magic != MAGIC {
        return None;
    }
    let index_len = number(last) as usize;
    if index_len > room {
        return None;
    }
    let count = piece_count(index_len);
    if index_len + SUM_LEN * count != room {
        return None;
    }
    let seal = StateSeal {
        key,
        moment: number(moment),
    };
    if sum != seal.sum(count, true, last).as_slice() {
        return None;
    }
    Some((index_len, seal))
}

/// The big-endian number of eight bytes.
fn number(bytes: &[u8]) -> u64
    requires { length bytes.now ≡ 8 }
    ensures { eight_bytes result ≡ bytes.now }
{
    u64::from_be_bytes([
        bytes[0], bytes[1], bytes[2], bytes[3], bytes[4], bytes[5], bytes[6], bytes[7],
    ])
}
