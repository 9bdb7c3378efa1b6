// What the options among items ask for.
ghost use Rattle.std.specs.Prelude.{◌≡◌};
ghost use Rattle.cs_command.specs.Options.{no_values, with_value, with_item, options_of};

use crate::named::Valued;
use crate::settings::Switches;
use crate::words::WordItem;

/// A part of a word: from a byte to its end.
#[derive(Clone, Copy, Drop)]
pub struct WordPart {
    /// The index of the word.
    pub word: usize,
    /// The index of the byte.
    pub from: usize,
}

/// The values of options. Of each option the last value counts.
#[derive(Clone, Copy, Drop)]
pub(crate) struct OptionValues {
    pub(crate) after: Option<WordPart>,
    pub(crate) before: Option<WordPart>,
    pub(crate) around: Option<WordPart>,
    pub(crate) most: Option<WordPart>,
    pub(crate) colour: Option<WordPart>,
    pub(crate) depth: Option<WordPart>,
}

/// What options ask for.
#[derive(Clone, Copy, Drop)]
pub(crate) struct Options {
    pub(crate) switches: Switches,
    pub(crate) values: OptionValues,
}

impl OptionValues {
    /// Without values.
    fn new() -> OptionValues
        ensures { result ≡ no_values }
    {
        OptionValues {
            after: None,
            before: None,
            around: None,
            most: None,
            colour: None,
            depth: None,
        }
    }

    /// With one more value.
    fn set(&mut self, valued: Valued, part: WordPart)
        ensures { self.new ≡ with_value self.old valued part }
    {
        match valued {
            Valued::After => self.after = Some(part),
            Valued::Before => self.before = Some(part),
            Valued::Around => self.around = Some(part),
            Valued::Most => self.most = Some(part),
            Valued::Colour => self.colour = Some(part),
            Valued::Depth => self.depth = Some(part),
            Valued::Pattern | Valued::Glob | Valued::FileType | Valued::NotType => {}
        }
    }
}

impl Options {
    /// With one more item.
    fn add(&mut self, item: WordItem)
        ensures { self.new ≡ with_item self.old item }
    {
        match item {
            WordItem::Switch(switch) => self.switches.set(switch),
            WordItem::Value(valued, word, from) => self.values.set(valued, WordPart { word, from }),
            WordItem::Operand(_) => {}
        }
    }
}

/// What the options among items ask for.
pub(crate) fn options_of(items: &[WordItem]) -> Options
    ensures { result ≡ options_of items.now }
{
    let mut options = Options {
        switches: Switches::new(),
        values: OptionValues::new(),
    };
    let mut rest = items;
    'items: while let Some((item, behind)) = rest.split_first() {
        options.add(*item);
        rest = behind;
    }
    options
}
