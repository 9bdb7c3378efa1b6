// The name of an input with the style of its output, and the options of cs_lines for a style.
ghost use Rattle.std.specs.Prelude.{◌≡◌};
ghost use Rattle.cs_search.specs.Styles.{options_of as options_of'};

use cs_args::Style;
use cs_lines::{LineForm, Mode, ShowOptions};

/// The name of an input, and the style of its output.
#[derive(Clone, Copy, Drop)]
pub struct Printer<'a> {
    pub name: &'a str,
    pub style: Style,
}

/// The options by which cs_lines prints what the style prints.
pub fn options_of(style: Style) -> ShowOptions
    ensures { result ≡ options_of' style }
{
    let mode = if style.list {
        Mode::Names
    } else if style.count {
        Mode::Counts
    } else {
        Mode::Lines
    };
    ShowOptions {
        mode,
        most: None,
        before: 0,
        after: 0,
        invert: false,
        form: LineForm {
            bare: style.bare,
            heading: false,
            number: style.number,
            column: false,
            only: false,
            each: false,
            nul: false,
            colour: false,
            spaced: true,
        },
    }
}
