// The values of options.
ghost use Rattle.std.specs.Prelude.{◌≡◌, map, string_bytes, Ok, Err, IfOk, IfErr};
ghost use Rattle.cs_command.specs.Values.{text_of, bytes_of, number_of, number_in, colour_of, colour_in, limits_in};

use crate::fault::RequestFault;
use crate::options::{OptionValues, WordPart};
use crate::settings::Limits;
use std::str::from_utf8;

/// The bytes of a part of a word.
fn bytes_of<'w>(words: &'w [String], part: WordPart) -> &'w [u8]
    ensures { result.now ≡ bytes_of (map string_bytes words.now) part }
{
    let Some(word) = words.get(part.word) else {
        return &[];
    };
    let bytes = word.as_bytes();
    if part.from <= bytes.len() {
        &bytes[part.from..]
    } else {
        &[]
    }
}

/// The text of a part of a word.
pub(crate) fn text_of<'w>(words: &'w [String], part: WordPart) -> &'w str
    ensures { result.now ≡ text_of (map string_bytes words.now) part }
{
    match from_utf8(bytes_of(words, part)) {
        Ok(text) => text,
        Err(_) => "",
    }
}

/// The decimal number that a text is.
fn number_of(text: &str) -> Option<u64>
    ensures { result ≡ number_of text.now }
{
    match text.parse::<u64>() {
        Ok(number) => Some(number),
        Err(_) => None,
    }
}

/// The decimal number that a value is, if there is one.
fn number_in(words: &[String], value: Option<WordPart>) -> Result<Option<u64>, RequestFault>
    ensures { result ≡ number_in (map string_bytes words.now) value }
{
    let Some(part) = value else {
        return Ok(None);
    };
    match number_of(text_of(words, part)) {
        Some(number) => Ok(Some(number)),
        None => Err(RequestFault::NoNumber(part)),
    }
}

/// The same as a size.
pub(crate) fn size_in(
    words: &[String],
    value: Option<WordPart>,
) -> Result<Option<usize>, RequestFault>
    ensures { result ≡ number_in (map string_bytes words.now) value }
{
    match number_in(words, value)? {
        Some(number) => Ok(Some(number as usize)),
        None => Ok(None),
    }
}

/// When there are colours, by the value of `--color`: None if the terminal decides.
fn colour_of(text: &str) -> Option<Option<bool>>
    ensures { result ≡ colour_of text.now }
{
    match text {
        "always" => Some(Some(true)),
        "never" => Some(Some(false)),
        "auto" => Some(None),
        _ => None,
    }
}

/// When there are colours. None if the terminal decides.
pub(crate) fn colour_in(
    words: &[String],
    value: Option<WordPart>,
) -> Result<Option<bool>, RequestFault>
    ensures { result ≡ colour_in (map string_bytes words.now) value }
{
    let Some(part) = value else {
        return Ok(None);
    };
    match colour_of(text_of(words, part)) {
        Some(colour) => Ok(colour),
        None => Err(RequestFault::NoColour(part)),
    }
}

/// How many lines are marked and shown around.
pub(crate) fn limits_in(words: &[String], values: &OptionValues) -> Result<Limits, RequestFault>
    ensures { result ≡ limits_in (map string_bytes words.now) values.now }
{
    let most = number_in(words, values.most)?;
    let before = size_in(words, values.before)?;
    let after = size_in(words, values.after)?;
    let around = size_in(words, values.around)?;
    Ok(Limits {
        most,
        before,
        after,
        around,
    })
}
