// The text of a stamp in a name: the digits of each number to the base 64, the least first, and a
// `!`.
ghost use Rattle.std.specs.Prelude.{◌≡◌, ◌+◌, ◌%◌, ◌++◌, ◌∷◌, ◌↔◌, ℕ, List, IfNone, IfSome, IsTrue, OnOk, string_bytes};
ghost use Rattle.cs_state.specs.Cited.{number_text, stamp_text};

use cs_tree::Stamp;
use std::alloc::AllocError;

/// The base of the digits, whose bytes go from 48 to 111.
const BASE: u64 = 64;

/// The most digits of a number.
const DIGITS: usize = 11;

/// Whether this is the text of the stamp. Allocates nothing.
pub fn is_stamp_text(text: &[u8], stamp: &Stamp) -> bool
    ensures { IsTrue result ↔ (text.now ≡ stamp_text stamp.now) }
{
    match after_stamp(text, stamp) {
        Some(rest) => rest.is_empty(),
        None => false,
    }
}

/// What follows the text of the stamp.
fn after_stamp<'t>(text: &'t [u8], stamp: &Stamp) -> Option<&'t [u8]>
    ensures some { IfSome result (λ rest. text.now ≡ stamp_text stamp.now ++ rest.now) }
    ensures none { IfNone result ((rest : List ℕ) → ¬ (text.now ≡ stamp_text stamp.now ++ rest)) }
{
    let rest = after_number(text, stamp.device)?;
    let rest = after_number(rest, stamp.inode)?;
    let rest = after_number(rest, stamp.size)?;
    let rest = after_number(rest, stamp.modified)?;
    after_number(rest, stamp.changed)
}

/// What follows the text of the number.
fn after_number(text: &[u8], n: u64) -> Option<&[u8]>
    ensures some { IfSome result (λ rest. text.now ≡ number_text n ++ rest.now) }
    ensures none { IfNone result ((rest : List ℕ) → ¬ (text.now ≡ number_text n ++ rest)) }
{
    let mut rest = text;
    let mut left = n;
    'digits: for _digit in 0..DIGITS {
        if left == 0 {
            break;
        }
        rest = after_byte(rest, digit(left))?;
        left /= BASE;
    }
    after_byte(rest, b'!')
}

/// What follows the byte.
fn after_byte(text: &[u8], byte: u8) -> Option<&[u8]>
    ensures some { IfSome result (λ rest. text.now ≡ byte ∷ rest.now) }
    ensures none { IfNone result ((rest : List ℕ) → ¬ (text.now ≡ byte ∷ rest)) }
{
    let (first, rest) = text.split_first()?;
    if *first != byte {
        return None;
    }
    Some(rest)
}

/// The byte of the least digit.
fn digit(n: u64) -> u8
    ensures { result ≡ 48 + n % 64 }
{
    48 + (n % BASE) as u8
}

/// Appends the text of a stamp.
pub(crate) fn push_stamp(name: &mut String, stamp: &Stamp) -> Result<(), AllocError>
    ensures { OnOk result (string_bytes name.new ≡ string_bytes name.old ++ stamp_text stamp.now) }
{
    push_number(name, stamp.device)?;
    push_number(name, stamp.inode)?;
    push_number(name, stamp.size)?;
    push_number(name, stamp.modified)?;
    push_number(name, stamp.changed)
}

/// Appends the text of a number.
fn push_number(name: &mut String, n: u64) -> Result<(), AllocError>
    ensures { OnOk result (string_bytes name.new ≡ string_bytes name.old ++ number_text n) }
{
    let mut left = n;
    'digits: for _digit in 0..DIGITS {
        if left == 0 {
            break;
        }
        name.push(char::from(digit(left)))?;
        left /= BASE;
    }
    name.push('!')
}
