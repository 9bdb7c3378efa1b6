// Lines as they are printed.
ghost use Rattle.std.specs.Prelude.{◌≡◌, ◌++◌, ◌∷◌, [], false, None, List, codes};
ghost use Rattle.cs_lines.specs.Cited.{newline, dyed, separator, separated, name_part, number_part, prefix_of, row_bytes, Span, Prints, row_of, needs_spans};

use crate::form::LineForm;
use cs_tree::{Sink, SinkOutput};
use itoa::Buffer;

/// A line that is shown.
#[derive(Clone, Copy, Drop)]
pub(crate) struct LineRow<'a> {
    pub(crate) number: u64,
    pub(crate) line: &'a [u8],
    pub(crate) marked: bool,
}

impl LineForm {
    /// A text, in this colour if the form has colours.
    #[tactic(auto, using(crate::proofs::Printing::printing))]
    #[inline(always)]
    pub(crate) fn print_dyed<O: Sink>(
        &self,
        colour: &[u8],
        text: &[u8],
        out: &mut SinkOutput<'_, O>,
    )
        ensures { Prints O.model O.failed out.old out.new (dyed self.now colour.now text.now) }
    {
        if !self.colour {
            out.print(text);
            return;
        }
        out.print(b"\x1b[");
        out.print(colour);
        out.print(b"m");
        out.print(text);
        out.print(b"\x1b[m");
    }

    /// What ends a part of the prefix: a colon if the line is marked, else a hyphen.
    #[inline(always)]
    pub(crate) fn print_separator<O: Sink>(&self, marked: bool, out: &mut SinkOutput<'_, O>)
        ensures { Prints O.model O.failed out.old out.new (dyed self.now (codes "36") (separator marked)) }
    {
        if marked {
            self.print_dyed(b"36", b":", out);
        } else {
            self.print_dyed(b"36", b"-", out);
        }
    }

    /// A text and its separator.
    #[tactic(auto, using(crate::proofs::Printing::printing))]
    #[inline(always)]
    fn print_separated<O: Sink>(
        &self,
        marked: bool,
        colour: &[u8],
        text: &[u8],
        out: &mut SinkOutput<'_, O>,
    )
        ensures { Prints O.model O.failed out.old out.new (separated self.now marked colour.now text.now) }
    {
        self.print_dyed(colour, text, out);
        self.print_separator(marked, out);
    }

    /// The name, unless the form has none beside lines.
    #[tactic(auto, using(crate::proofs::Printing::printing))]
    pub(crate) fn print_name<O: Sink>(&self, name: &str, marked: bool, out: &mut SinkOutput<'_, O>)
        ensures { Prints O.model O.failed out.old out.new (name_part self.now name.now marked) }
    {
        if self.bare || self.heading {
            return;
        }
        if self.nul {
            self.print_dyed(b"35", name.as_bytes(), out);
            out.print(b"\0");
            return;
        }
        self.print_separated(marked, b"35", name.as_bytes(), out);
    }

    /// The number, if the form has numbers.
    #[tactic(auto, using(crate::proofs::Printing::printing))]
    pub(crate) fn print_number<O: Sink>(
        &self,
        number: u64,
        marked: bool,
        out: &mut SinkOutput<'_, O>,
    )
        ensures { Prints O.model O.failed out.old out.new (number_part self.now number marked) }
    {
        if !self.number {
            return;
        }
        let mut digits = Buffer::new();
        self.print_separated(marked, b"32", digits.format(number).as_bytes(), out);
    }
}
