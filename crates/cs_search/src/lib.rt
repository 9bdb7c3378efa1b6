//! Searches inputs line by line and prints the matching lines (`grep`, `cgrep`, `csearch`). Read
//! `specs/Report.antt` first, which says what a search of one input prints, then
//! `specs/Printed.antt`. `grep_within` takes a limit and a buffer from the caller, and `grep_text`
//! searches a text in memory.
//!
//! cs_lines searches and prints one input: `options_of` has its options for a style, and
//! `specs/StyleLaws.antt` says that what is printed by these is the `Report`, a function of the
//! list of lines and of those among them that match. A write that fails ends the search, and the
//! sink then has a prefix of the report.
//!
//! `cgrep` compiles the pattern, searches its inputs, and adds the fault lines and the status.
//! `csearch_stored` compiles the job to a plan (a query and two programs), reads the names of the
//! candidates in the order of their ids, keeps in memory those that `-f` selects, and then searches
//! these files, with one search for lines and one buffer. The names are tested for `-f` as the
//! lines of a block, 1024 at once, except where one of these has a newline. `csearch` is the same
//! over a store in memory. The soundness of the query alone proves that a file that is not a
//! candidate has no matching line (`laws`, `skipped_files_have_no_match`).
#![tactic(auto)]

pub mod laws;
mod name_block;
mod report;
mod searching;
mod selection;
mod status;
mod stored;
mod styles;

pub use cs_lines::LineBuffer;
pub use report::{MAX_SEARCHED, grep, grep_text, grep_within};
pub use searching::cgrep;
pub use status::{GrepFault, Grepped, ReadFault, Status};
pub use stored::{SearchCall, csearch, csearch_stored};
pub use styles::Printer;
