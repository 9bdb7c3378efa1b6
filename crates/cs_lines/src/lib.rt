//! What `cs` prints of a text. Read `specs/Contexts.antt` first (which lines are shown),
//! then `specs/Forms.antt` (a line as it is printed), `specs/Findings.antt` (which lines match, and
//! where) and `specs/Shown.antt` (a text, and texts one after another). `specs/Project.antt` says
//! what is printed for a file of a project, which may be binary, and the exit status.
//!
//! The matcher of cs_match lists the matching lines of a block (`LineSearch::list_lines`), and each
//! is marked in place (`Rows::mark`): shown with the lines around it. `Rows` holds the lines before
//! it that may still be shown, and how many after the last one are to be. A line is printed with
//! its matches (`Finder`) if the form needs them. `Page` is what earlier texts leave to be printed
//! between groups.
//!
//! A text comes from a source (`print_file`): a `LineBuffer` has the bytes of it that are still
//! needed, the lines that are held and the line that has not ended, and each read adds some. What
//! was printed and what is still to be printed are the same at each block, whatever follows
//! (`StreamsRows` of `specs/Streams.antt`), so the whole text need not be there at once, and memory
//! does not grow with it. Whether it is binary is seen from its first bytes. A count stops as soon
//! as it is known. `specs/Work.antt` bounds the steps of all of it.
#![tactic(auto)]

mod binary;
mod buffer;
mod counting;
mod form;
mod found;
pub mod laws;
mod lines;
mod row;
mod rows;
mod search;
mod searching;
mod source;
mod stream;
mod text;

pub use binary::{BinaryFiles, is_binary};
pub use buffer::{FillFault, LineBuffer};
pub use form::{LineForm, Mode, ShowOptions};
pub use lines::line_count;
pub use rows::Page;
pub use search::LineSearch;
pub use source::{print_file, print_input, print_text};
pub use stream::{Ended, Streamed};
