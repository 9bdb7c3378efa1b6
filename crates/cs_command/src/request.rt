// What a command line asks for.
ghost use Rattle.std.specs.Prelude.{◌≡◌, ◌≢◌, map, string_bytes, Ok, Err, IfOk, IfErr};
ghost use Rattle.cs_listing.specs.Models.{chosen_in};
ghost use Rattle.cs_command.specs.Requests.{asked_pattern, request_by, IsRequest, IsRequestBy, IsRequestFault, IsFaultBy};
ghost use Rattle.cs_command.specs.Texts.{shown};
ghost use Rattle.cs_command.specs.declared.fault.RequestFault.TheVariants.{Memory};

use crate::choosing::{choose_kinds, choose_names, may_update};
use crate::fault::RequestFault;
use crate::letter_case::{LetterCase, case_of};
use crate::options::{Options, options_of};
use crate::patterns::pattern_in;
use crate::settings::{Limits, Switches};
use crate::texts::{Texts, needs_pattern, texts_of};
use crate::values::{colour_in, limits_in, size_in};
use crate::words::{ItemFault, WordItem, read_items};
use cs_listing::Choices;
use cs_syntax::Pattern;
use std::alloc::Global;

/// What is asked for.
#[derive(Drop)]
pub struct Request {
    /// What is done, and what the options without values say.
    pub switches: Switches,
    /// How many lines are marked and shown around.
    pub limits: Limits,
    /// Whether there are colours. None if the terminal decides.
    pub colour: Option<bool>,
    /// Which files are searched.
    pub choices: Choices,
    /// The state of the project may be updated.
    pub updates: bool,
    /// The indices of the words that are paths.
    pub paths: Vec<usize>,
    /// What is searched for, if lines are searched.
    pub pattern: Option<Pattern>,
}

/// The request of words, which are the arguments of `cs`. `choices` are those without options.
pub fn read_request(
    alloc: Global,
    choices: Choices,
    words: &[String],
) -> Result<Request, RequestFault>
    ensures request { IfOk result (IsRequest (map string_bytes words.now) (chosen_in choices)) }
    ensures fault { IfErr result (IsRequestFault (map string_bytes words.now)) }
{
    let items = match read_items(alloc, words) {
        Ok(items) => items,
        Err(ItemFault::Memory) => return Err(RequestFault::Memory),
        Err(fault) => return Err(RequestFault::Item(fault)),
    };
    request_by(alloc, choices, words, &items, &options_of(&items))
}

/// The request of items, whose options are known.
fn request_by(
    alloc: Global,
    choices: Choices,
    words: &[String],
    items: &[WordItem],
    options: &Options,
) -> Result<Request, RequestFault>
    ensures request { IfOk result (IsRequestBy
        (request_by (map string_bytes words.now) items.now options.now) (chosen_in choices)) }
    ensures fault { IfErr result (IsFaultBy
        (request_by (map string_bytes words.now) items.now options.now) items.now) }
{
    let switches = options.switches;
    let limits = limits_in(words, &options.values)?;
    let colour = colour_in(words, options.values.colour)?;
    let depth = size_in(words, options.values.depth)?;
    let mut choices = choices;
    choose_kinds(&mut choices, switches.files, depth);
    choose_names(&mut choices, words, items)?;
    let texts = texts_of(alloc, switches.task, items)?;
    let pattern = asked_pattern(alloc, words, &switches, case_of(items), &texts)?;
    Ok(Request {
        switches,
        limits,
        colour,
        choices,
        updates: may_update(&switches, items),
        paths: texts.paths,
        pattern,
    })
}

/// What is searched for, if lines are searched.
fn asked_pattern(
    alloc: Global,
    words: &[String],
    switches: &Switches,
    case: LetterCase,
    texts: &Texts,
) -> Result<Option<Pattern>, RequestFault>
    ensures pattern { IfOk result (λ pattern. asked_pattern (map string_bytes words.now)
        switches.now case (shown texts.now) ≡ Ok pattern) }
    ensures fault { IfErr result (λ fault. fault ≢ Memory → asked_pattern (map string_bytes words.now)
        switches.now case (shown texts.now) ≡ Err fault) }
{
    if needs_pattern(switches.task) {
        let pattern = pattern_in(alloc, words, switches.pattern, case, &texts.patterns)?;
        Ok(Some(pattern))
    } else {
        Ok(None)
    }
}
