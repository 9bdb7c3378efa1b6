// The sum of a piece of a state file.
//
// A piece is hashed by two multiplications with secret odd numbers for each eight bytes, and the
// hash is sealed by SipHash-1-3: a hash, and then a keyed function (Wegman and Carter).
ghost use Rattle.std.specs.Prelude.{◌≡◌, ◌<◌, ◌^◌, slice_index};
ghost use Rattle.std.specs.Int.{from_le_bytes, w64};
ghost use Rattle.cs_state.specs.Sums.{hash_of, key_of, piece_count as piece_count', sum_of, with_word};

use crate::state_key::{StateKey, StateSeal};
use std::hash::{DefaultHasher, Hasher};

/// The length of each piece except the last.
pub(crate) const PIECE_LEN: usize = 65536;

/// The length of a sum.
pub(crate) const SUM_LEN: usize = 8;

/// The bytes of a secret that are multipliers.
const MULTIPLIERS_LEN: usize = 16;

impl StateKey {
    /// The key of a secret.
    #[tactic(auto, unfolding(crate::specs::Sums::key_of))]
    pub fn new(secret: &[u8; 32]) -> StateKey
        ensures { result ≡ key_of secret.now }
    {
        let (first, rest) = secret.split_at(8);
        let (second, rest) = rest.split_at(8);
        let mut hasher = DefaultHasher::new();
        hasher.write(rest);
        StateKey {
            first: word_of(first) | 1,
            second: word_of(second) | 1,
            hasher,
        }
    }

    /// The hash of a piece.
    fn hash(&self, piece: &[u8]) -> u64
        ensures { result ≡ hash_of self.now piece.now }
    {
        let (words, rest) = piece.as_chunks::<8>();
        let mut hash = self.first;
        'words: for word in words {
            hash = self.with_word(hash, u64::from_le_bytes(*word));
        }
        if rest.is_empty() {
            return hash;
        }
        self.with_word(hash, word_of(rest))
    }

    fn with_word(&self, hash: u64, word: u64) -> u64
        ensures { result ≡ with_word self.now hash word }
    {
        let product = hash.wrapping_add(word).wrapping_mul(self.first);
        product.rotate_left(32).wrapping_mul(self.second)
    }
}

/// The little-endian number of the first eight bytes. Bytes that are missing are zeros.
fn word_of(bytes: &[u8]) -> u64
    ensures { result ≡ from_le_bytes w64 bytes.now }
{
    u64::from_le_bytes([
        byte_at(bytes, 0),
        byte_at(bytes, 1),
        byte_at(bytes, 2),
        byte_at(bytes, 3),
        byte_at(bytes, 4),
        byte_at(bytes, 5),
        byte_at(bytes, 6),
        byte_at(bytes, 7),
    ])
}

fn byte_at(bytes: &[u8], at: usize) -> u8
    ensures { result ≡ slice_index bytes.now at }
{
    match bytes.get(at) {
        Some(byte) => *byte,
        None => 0,
    }
}

impl StateSeal {
    /// The sum of a piece, by its number.
    #[tactic(auto, unfolding(crate::specs::Sums::sum_of))]
    pub(crate) fn sum(&self, number: usize, is_last: bool, piece: &[u8]) -> [u8; 8]
        ensures { result ≡ sum_of self.now number is_last piece.now }
    {
        let mut hasher = self.key.hasher;
        hasher.write_u64(self.moment);
        hasher.write_u64(number as u64);
        hasher.write_u64(u64::from(is_last));
        hasher.write_u64(piece.len() as u64);
        hasher.write_u64(self.key.hash(piece));
        hasher.finish().to_be_bytes()
    }
}

/// The number of pieces of as many bytes.
pub(crate) fn piece_count(len: usize) -> usize
    requires { len < 2 ^ 32 }
    ensures { result ≡ piece_count' len }
{
    (len + PIECE_LEN - 1) / PIECE_LEN
}
