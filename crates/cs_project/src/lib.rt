//! A search of a project as it is now, without an index. Read `specs/Searched.antt` first: what is
//! printed for items one after another. `specs/Scopes.antt` says which items a search has, by the
//! words of a command line, `specs/Names.antt` the names that they are printed with, and
//! `specs/Projects.antt` what a whole search prints, and its exit status. `specs/Knowledge.antt`
//! says what may be known of files without reading them, and `specs/Noted.antt` what is noted of
//! those that are not known.
//!
//! A `Scope` is the current folder, the words that name files and folders, and which files below a
//! folder are searched. A word is looked up when its turn comes. A `FolderWalk` gives the files
//! below a folder one by one (`Walk` of cs_listing) to a `Visitor`: a `FileSearch` opens each, and
//! prints what is to be printed for it while it is read (`print_file` of cs_lines), before the next
//! one is looked for, and a `NameListing` prints its name. A file of the walk that is known to
//! print nothing (`Knowledge`) is not opened. So the first line comes when its file is met, and
//! memory grows neither with a file nor with the number of files. If an error was reported
//! (`Reports`), or a line has used up its budget, the exit status is 2. After an error what was
//! printed begins what is right (`Begins` of a `Visitor`; `specs/Visits.antt`). The invariants of
//! the loops name the items so far (`HasTaken`, `HasNamed`).
//!
//! The crate is apart from cs_lines and cs_listing since it is the first one above both.
#![tactic(auto)]

mod answer;
mod call;
mod fault;
mod file_search;
mod knowledge;
pub mod laws;
mod listing;
mod names;
mod paths;
mod places;
mod project;
mod reports;
mod scope;
mod unprinted;
mod visitor;
mod walks;

pub use answer::{INPUT_LINE, run_project};
pub use call::ProjectCall;
pub use fault::FreshFault;
pub use file_search::FileSearch;
pub use knowledge::{AskedSearch, Knowledge, NoKnowledge};
pub use project::{find_in_project, list_project};
pub use scope::Scope;
