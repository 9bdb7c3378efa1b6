// Which files the options choose.
ghost use Rattle.std.specs.Prelude.{◌≡◌, ◌≢◌, map, string_bytes, Ok, Err, [], ◌∷◌, true, OnOk, IfErr};
ghost use Rattle.std.specs.List.{filter_map, list_any};
ghost use Rattle.cs_listing.specs.Models.{chosen_in};
ghost use Rattle.std.specs.Option.{option_to_list};
ghost use Rattle.cs_listing.specs.Choices.{AddsGlob, AddsType};
ghost use Rattle.cs_command.specs.Choices.{ChoosesAll, hidden_if, ignored_if, depth_of, choices_by, choice_by, choice_in, IsChoiceIn, chooses_files, may_update};
ghost use Rattle.cs_command.specs.Values.{text_of};
ghost use Rattle.cs_command.specs.declared.fault.RequestFault.TheVariants.{Memory, NoGlob, NoType};
ghost use Rattle.cs_command.specs.declared.words.WordItem.TheVariants.{Value};

use crate::fault::RequestFault;
use crate::named::{Switch, Valued};
use crate::options::WordPart;
use crate::settings::{FileChoice, Switches};
use crate::values::text_of;
use crate::words::WordItem;
use cs_listing::Choices;

/// Chooses by the switches and the depth.
pub(crate) fn choose_kinds(choices: &mut Choices, files: FileChoice, depth: Option<usize>)
    ensures { ChoosesAll (choices_by files depth) (chosen_in choices.old) (chosen_in choices.new) }
{
    choose_hidden(choices, files.hidden);
    choose_ignored(choices, files.ignored);
    choose_depth(choices, depth);
}

/// Hidden files too, if they are wanted.
fn choose_hidden(choices: &mut Choices, is_wanted: bool)
    ensures { ChoosesAll (hidden_if is_wanted) (chosen_in choices.old) (chosen_in choices.new) }
{
    if is_wanted {
        choices.take_hidden();
    }
}

/// Ignored files too, if they are wanted.
fn choose_ignored(choices: &mut Choices, is_wanted: bool)
    ensures { ChoosesAll (ignored_if is_wanted) (chosen_in choices.old) (chosen_in choices.new) }
{
    if is_wanted {
        choices.take_ignored();
    }
}

/// At most so many names below the folder, if that is given.
fn choose_depth(choices: &mut Choices, most: Option<usize>)
    ensures { ChoosesAll (depth_of most) (chosen_in choices.old) (chosen_in choices.new) }
{
    if let Some(names) = most {
        choices.limit_depth(names);
    }
}

/// Chooses by the globs and the types among items.
pub(crate) fn choose_names(
    choices: &mut Choices,
    words: &[String],
    items: &[WordItem],
) -> Result<(), RequestFault>
    ensures all { OnOk result (ChoosesAll (filter_map (choice_in (map string_bytes words.now)) items.now)
        (chosen_in choices.old) (chosen_in choices.new)) }
    ensures fault { IfErr result (λ fault. fault ≢ Memory → IsChoiceIn items.now fault) }
{
    let mut rest = items;
    'items: while let Some((item, behind)) = rest.split_first() {
        choose_by(choices, words, *item)?;
        rest = behind;
    }
    Ok(())
}

/// Chooses by an item.
fn choose_by(choices: &mut Choices, words: &[String], item: WordItem) -> Result<(), RequestFault>
    ensures chosen { OnOk result (ChoosesAll (option_to_list (choice_in (map string_bytes words.now) item))
        (chosen_in choices.old) (chosen_in choices.new)) }
    ensures fault { IfErr result (λ fault. fault ≢ Memory → IsChoiceIn (item ∷ []) fault) }
{
    match item {
        WordItem::Value(valued, word, from) => {
            choose(choices, words, valued, WordPart { word, from })
        }
        _ => Ok(()),
    }
}

/// Chooses by a value.
fn choose(
    choices: &mut Choices,
    words: &[String],
    valued: Valued,
    part: WordPart,
) -> Result<(), RequestFault>
    ensures chosen { OnOk result (ChoosesAll
        (option_to_list (choice_by valued (text_of (map string_bytes words.now) part)))
        (chosen_in choices.old) (chosen_in choices.new)) }
    ensures fault { IfErr result (λ fault. fault ≢ Memory →
        IsChoiceIn (Value valued part.word part.from ∷ []) fault) }
{
    let text = text_of(words, part);
    match valued {
        Valued::Glob => choose_glob(choices, text, part),
        Valued::FileType => choose_type(choices, text, false, part),
        Valued::NotType => choose_type(choices, text, true, part),
        _ => Ok(()),
    }
}

/// Chooses by a glob, which is the value at `part`.
fn choose_glob(choices: &mut Choices, text: &str, part: WordPart) -> Result<(), RequestFault>
    ensures added { OnOk result (AddsGlob text.now true (chosen_in choices.old) (chosen_in choices.new)) }
    ensures fault { IfErr result (λ fault. fault ≢ Memory → fault ≡ NoGlob part) }
{
    if choices.add_glob(text)? {
        Ok(())
    } else {
        Err(RequestFault::NoGlob(part))
    }
}

/// Chooses by the name of a type, which is the value at `part`.
fn choose_type(
    choices: &mut Choices,
    name: &str,
    is_left_out: bool,
    part: WordPart,
) -> Result<(), RequestFault>
    ensures added { OnOk result
        (AddsType true is_left_out (chosen_in choices.old) (chosen_in choices.new)) }
    ensures fault { IfErr result (λ fault. fault ≢ Memory → fault ≡ NoType part) }
{
    if choices.add_type(name, is_left_out)? {
        Ok(())
    } else {
        Err(RequestFault::NoType(part))
    }
}

/// Whether an option changes which files below a folder are searched.
fn chooses_files(item: WordItem) -> bool
    ensures { result ≡ chooses_files item }
{
    match item {
        WordItem::Switch(Switch::Hidden | Switch::Unrestricted) => true,
        WordItem::Value(Valued::Glob | Valued::FileType, _, _) => true,
        WordItem::Value(Valued::NotType | Valued::Depth, _, _) => true,
        _ => false,
    }
}

/// Whether one of the options changes this.
fn choose_files(items: &[WordItem]) -> bool
    ensures { result ≡ list_any chooses_files items.now }
{
    items.iter().any(|item| chooses_files(*item))
}

/// Whether the state of the project may be updated: by what is learned of its own files alone.
pub(crate) fn may_update(switches: &Switches, items: &[WordItem]) -> bool
    ensures { result ≡ may_update switches.now items.now }
{
    switches.state.updated && !choose_files(items)
}
