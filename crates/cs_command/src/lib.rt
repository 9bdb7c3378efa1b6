//! What a command line of `cs` asks for. Read `specs/Requests.antt` first: the request of a list of
//! words, or the error of one that asks for nothing. `specs/Options.antt` says which value of an
//! option counts, `specs/Values.antt` what the values are, `specs/Choices.antt` which files they
//! choose, and `specs/Patterns.antt` what is searched for.
//!
//! `read_items` reads the words as options and operands. `read_request` goes over
//! them once for the options (`Options`), and then reads their values: numbers, colours, globs and
//! types, and at last the patterns. Each line of a value is a pattern (`specs/WordLines.antt`). It
//! is parsed alone, so that an error is in its own line, and the trees are joined. `fault_line` has
//! the line of an error, `HELP` the options.
#![tactic(auto)]

mod choosing;
mod fault;
mod help;
mod letter_case;
mod lines;
mod named;
mod options;
mod patterns;
mod request;
mod settings;
mod texts;
mod values;
mod word_lines;
mod words;

pub use fault::RequestFault;
pub use help::HELP;
pub use letter_case::{LetterCase, case_of};
pub use lines::fault_line;
pub use named::{Named, Switch, Valued};
pub use options::WordPart;
pub use request::{Request, read_request};
pub use settings::{FileChoice, Limits, PatternStyle, StateUse, Surroundings, Switches, Task};
pub use words::{ItemFault, WordItem, read_items};
