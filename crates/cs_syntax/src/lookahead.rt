// Look-ahead in the text of a pattern: bytes and numbers.
ghost use Rattle.std.specs.Prelude.{◌≡◌, ◌≤◌, length, ◌+◌, ◌*◌, ◌<◌, min};
ghost use Rattle.std.specs.List.{prefix_len};
ghost use Rattle.cs_syntax.specs.Cited.{starts_with_byte, is_continuation, digit_value, is_digit, count_digits, number_of_digits};

/// Whether the text starts with the byte.
pub(crate) fn starts_with_byte(byte: u8, text: &[u8]) -> bool
    ensures { result ≡ starts_with_byte byte text.now }
{
    !text.is_empty() && text[0] == byte
}

/// The number of leading continuation bytes.
pub(crate) fn count_continuation(rest: &[u8]) -> usize
    ensures count { result ≡ prefix_len is_continuation rest.now }
    ensures within { result ≤ length rest.now }
{
    rest.iter().take_while(|b| is_continuation(**b)).count()
}

/// Whether the byte is a digit of the base.
pub(crate) fn is_digit(base: u32, byte: u8) -> bool
    ensures { result ≡ is_digit base byte }
{
    digit_value(byte) < base
}

/// The number of leading digits.
pub(crate) fn count_digits(base: u32, text: &[u8]) -> usize
    ensures count { result ≡ count_digits base text.now }
    ensures within { result ≤ length text.now }
{
    text.iter().take_while(|b| is_digit(base, **b)).count()
}

/// The value of the digits, saturated at `u32::MAX`.
pub(crate) fn value_in(base: u32, digits: &[u8]) -> u32
    ensures { result ≡ min (number_of_digits base digits.now) u32.MAX }
{
    let mut value: u32 = 0;
    for &digit in digits {
        value = value
            .saturating_mul(base)
            .saturating_add(digit_value(digit));
    }
    value
}

/// Whether the byte is a UTF-8 continuation byte.
fn is_continuation(byte: u8) -> bool
    ensures { result ≡ is_continuation byte }
{
    128 <= byte && byte < 192
}

/// The value of a digit or a letter in base 36; 36 for all other bytes.
#[tactic(auto, unfolding(crate::specs::Numbers::digit_value))]
fn digit_value(byte: u8) -> u32
    ensures { result ≡ digit_value byte }
{
    match byte {
        b'0'..=b'9' => (byte - b'0') as u32,
        b'a'..=b'z' => (byte - b'a' + 10) as u32,
        b'A'..=b'Z' => (byte - b'A' + 10) as u32,
        _ => 36,
    }
}
