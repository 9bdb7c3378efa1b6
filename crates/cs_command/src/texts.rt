// Which words are patterns, and which are paths.
ghost use Rattle.std.specs.Prelude.{◌≡◌, IfOk};
ghost use Rattle.std.specs.List.{filter_map};
ghost use Rattle.cs_command.specs.Texts.{given_pattern, operand, needs_pattern, texts_of, shown};

use crate::named::Valued;
use crate::options::WordPart;
use crate::settings::Task;
use crate::words::WordItem;
use std::alloc::{AllocError, Global};

/// The parts of words that are patterns, and the words that are paths.
#[derive(Drop)]
pub(crate) struct Texts {
    pub(crate) patterns: Vec<WordPart>,
    pub(crate) paths: Vec<usize>,
}

/// The value of an item that is `-e`.
fn given_pattern(item: WordItem) -> Option<WordPart>
    ensures { result ≡ given_pattern item }
{
    match item {
        WordItem::Value(Valued::Pattern, word, from) => Some(WordPart { word, from }),
        _ => None,
    }
}

/// The word of an item that is an operand.
fn operand(item: WordItem) -> Option<usize>
    ensures { result ≡ operand item }
{
    match item {
        WordItem::Operand(word) => Some(word),
        _ => None,
    }
}

/// The values of `-e`.
fn given_patterns(alloc: Global, items: &[WordItem]) -> Result<Vec<WordPart>, AllocError>
    ensures { IfOk result (λ parts. parts.items ≡ filter_map given_pattern items.now) }
{
    items
        .iter()
        .filter_map(|item| given_pattern(*item))
        .collect(alloc)
}

/// The words that are operands.
fn operands(alloc: Global, items: &[WordItem]) -> Result<Vec<usize>, AllocError>
    ensures { IfOk result (λ words. words.items ≡ filter_map operand items.now) }
{
    items
        .iter()
        .filter_map(|item| operand(*item))
        .collect(alloc)
}

/// Whether a pattern is needed.
pub(crate) fn needs_pattern(task: Task) -> bool
    ensures { result ≡ needs_pattern task }
{
    match task {
        Task::Search => true,
        Task::Files | Task::Types | Task::Update | Task::Help | Task::Version => false,
    }
}

/// The patterns and the paths among items. Without `-e` the first operand is the pattern.
pub(crate) fn texts_of(alloc: Global, task: Task, items: &[WordItem]) -> Result<Texts, AllocError>
    ensures { IfOk result (λ texts. shown texts ≡ texts_of task items.now) }
{
    let mut patterns = given_patterns(alloc, items)?;
    let mut paths = operands(alloc, items)?;
    if needs_pattern(task) && patterns.is_empty() && !paths.is_empty() {
        let word = paths.remove(0);
        patterns.push(WordPart { word, from: 0 })?;
    }
    Ok(Texts { patterns, paths })
}
