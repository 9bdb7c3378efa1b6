// Reads the words of the command line of `cs`: options in any order among operands, as rg and grep
// read them.
ghost use Rattle.std.specs.Prelude.{◌≡◌, ◌≢◌, List, [], length, map, string_bytes, Ok, Err, IfOk, IfErr};
ghost use Rattle.cs_command.specs.Words.{reading, after_letters, after_name, after_equals, after_long, after_any, after_word, items_of};
ghost use Rattle.cs_command.specs.declared.words.ItemFault.TheVariants.{Memory};

use crate::named::{Named, Switch, Valued, letter_option, name_option};
use std::alloc::{AllocError, AllocFailed, Global};

/// An option or an operand. Words are given by their index, a value by its word and its first byte
/// there.
#[derive(Clone, Copy, Drop)]
pub enum WordItem {
    Switch(Switch),
    Value(Valued, usize, usize),
    Operand(usize),
}

/// What the next word is.
#[derive(Clone, Copy, Drop)]
pub(crate) enum Next {
    /// An option or an operand.
    Any,
    /// The value of an option.
    Value(Valued),
    /// An operand, whatever it begins with.
    Operand,
}

/// Why words cannot be read: the index of the word, and the byte where the letter or the name
/// begins.
#[derive(Clone, Copy, Drop)]
pub enum ItemFault {
    /// There is no such option.
    Unknown(usize, usize),
    /// An option of rg that `cs` does not have.
    LeftOut(usize, usize),
    /// An option without a value has one, as in `--count=3`.
    ExtraValue(usize),
    /// The last word is an option that needs a value. The index is that of the word after it.
    NoValue(usize),
    /// An allocation failed.
    Memory,
}

impl From<AllocError> for ItemFault {
    ghost use Rattle.std.specs.Prelude.{◌≡◌};
    ghost use Rattle.cs_command.specs.declared.words.ItemFault.TheVariants.{Memory};

    ghost from_gives = { λ _ fault. fault ≡ Memory };

    fn from(_refused: AllocError) -> ItemFault {
        ItemFault::Memory
    }
}

impl<T: Drop> From<AllocFailed<T>> for ItemFault {
    ghost use Rattle.std.specs.Prelude.{◌≡◌};
    ghost use Rattle.cs_command.specs.declared.words.ItemFault.TheVariants.{Memory};

    ghost from_gives = { λ _ fault. fault ≡ Memory };

    fn from(_refused: AllocFailed<T>) -> ItemFault {
        ItemFault::Memory
    }
}

/// Reads the words as items, in their order, or finds the first error.
pub fn read_items(alloc: Global, words: &[String]) -> Result<Vec<WordItem>, ItemFault>
    ensures items { IfOk result (λ items. items_of (map string_bytes words.now) ≡ Ok items.items) }
    ensures fault { IfErr result
        (λ fault. fault ≢ Memory → items_of (map string_bytes words.now) ≡ Err fault) }
{
    let mut items = Vec::new(alloc);
    let mut next = Next::Any;
    let mut index = 0;
    let mut rest = words;
    'words: while let Some((word, behind)) = rest.split_first() {
        next = read_word(&mut items, next, index, word.as_str())?;
        index += 1;
        rest = behind;
    }
    match next {
        Next::Value(_) => Err(ItemFault::NoValue(index)),
        _ => Ok(items),
    }
}

/// Reads one more word.
fn read_word(
    items: &mut Vec<WordItem>,
    next: Next,
    index: usize,
    word: &str,
) -> Result<Next, ItemFault>
    ensures reads { IfOk result
        (λ after. after_word (reading items.old.items next) index word.now
        ≡ Ok (reading items.new.items after)) }
    ensures fault { IfErr result
        (λ fault. fault ≢ Memory → after_word (reading items.old.items next) index word.now ≡ Err fault) }
{
    match next {
        Next::Value(valued) => {
            items.push(WordItem::Value(valued, index, 0))?;
            Ok(Next::Any)
        }
        Next::Operand => {
            items.push(WordItem::Operand(index))?;
            Ok(Next::Operand)
        }
        Next::Any => read_any(items, index, word),
    }
}

/// Reads a word that is an option or an operand.
fn read_any(items: &mut Vec<WordItem>, index: usize, word: &str) -> Result<Next, ItemFault>
    ensures reads { IfOk result
        (λ after. after_any items.old.items index word.now ≡ Ok (reading items.new.items after)) }
    ensures fault { IfErr result
        (λ fault. fault ≢ Memory → after_any items.old.items index word.now ≡ Err fault) }
{
    if word == "--" {
        return Ok(Next::Operand);
    }
    if let Some(text) = word.strip_prefix("--") {
        return read_long(items, index, text);
    }
    match word.strip_prefix("-") {
        Some(letters) if word != "-" => read_letters(items, index, letters.as_bytes()),
        _ => {
            items.push(WordItem::Operand(index))?;
            Ok(Next::Any)
        }
    }
}

/// Reads a name, and its value if it has one.
fn read_long(items: &mut Vec<WordItem>, index: usize, text: &str) -> Result<Next, ItemFault>
    ensures reads { IfOk result
        (λ after. after_long items.old.items index text.now ≡ Ok (reading items.new.items after)) }
    ensures fault { IfErr result
        (λ fault. fault ≢ Memory → after_long items.old.items index text.now ≡ Err fault) }
{
    match text.split_once('=') {
        None => read_name(items, index, name_option(text)),
        Some((name, _)) => read_equals(items, index, name.len() + 3, name_option(name)),
    }
}

/// Reads a name without `=`.
fn read_name(items: &mut Vec<WordItem>, index: usize, named: Named) -> Result<Next, ItemFault>
    ensures reads { IfOk result
        (λ after. after_name items.old.items index named ≡ Ok (reading items.new.items after)) }
    ensures fault { IfErr result
        (λ fault. fault ≢ Memory → after_name items.old.items index named ≡ Err fault) }
{
    match named {
        Named::Switch(switch) => {
            items.push(WordItem::Switch(switch))?;
            Ok(Next::Any)
        }
        Named::Valued(valued) => Ok(Next::Value(valued)),
        Named::LeftOut => Err(ItemFault::LeftOut(index, 2)),
        Named::Unknown => Err(ItemFault::Unknown(index, 2)),
    }
}

/// Reads a name with `=`, whose value begins at the byte `at`.
fn read_equals(
    items: &mut Vec<WordItem>,
    index: usize,
    at: usize,
    named: Named,
) -> Result<Next, ItemFault>
    ensures reads { IfOk result
        (λ after. after_equals items.old.items index at named ≡ Ok (reading items.new.items after)) }
    ensures fault { IfErr result
        (λ fault. fault ≢ Memory → after_equals items.old.items index at named ≡ Err fault) }
{
    match named {
        Named::Switch(_) => Err(ItemFault::ExtraValue(index)),
        Named::Valued(valued) => {
            items.push(WordItem::Value(valued, index, at))?;
            Ok(Next::Any)
        }
        Named::LeftOut => Err(ItemFault::LeftOut(index, 2)),
        Named::Unknown => Err(ItemFault::Unknown(index, 2)),
    }
}

/// Reads letters. The first is the second byte of its word.
fn read_letters(items: &mut Vec<WordItem>, index: usize, letters: &[u8]) -> Result<Next, ItemFault>
    ensures reads { IfOk result
        (λ after. after_letters items.old.items index 1 letters.now ≡ Ok (reading items.new.items after)) }
    ensures fault { IfErr result
        (λ fault. fault ≢ Memory → after_letters items.old.items index 1 letters.now ≡ Err fault) }
{
    let mut rest = letters;
    'letters: while let Some((letter, behind)) = rest.split_first() {
        let at = 1 + (letters.len() - rest.len());
        match letter_option(*letter) {
            Named::Switch(switch) => items.push(WordItem::Switch(switch))?,
            Named::Valued(valued) if behind.is_empty() => return Ok(Next::Value(valued)),
            Named::Valued(valued) => {
                items.push(WordItem::Value(valued, index, at + 1))?;
                return Ok(Next::Any);
            }
            Named::LeftOut => return Err(ItemFault::LeftOut(index, at)),
            Named::Unknown => return Err(ItemFault::Unknown(index, at)),
        }
        rest = behind;
    }
    Ok(Next::Any)
}
