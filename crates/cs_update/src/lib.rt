//! What a run learns of the files of a project, and the state that it leaves.
//!
//! Read `specs/Contents.antt` first: what a file is by its bytes, then `specs/Learning.antt`: what
//! a run learns of the files that it has seen, `specs/Updates.antt`: what an update does, and
//! `specs/Updating.antt`: which bytes are the updated state.
//!
//! `learn_files` reads each file once and to its end, through a `Watched` source, which remembers
//! whether a NUL was among the first bytes, and counts them. Each file that is learned goes to a
//! `Builder` of `cs_index` by its stamped name: a text with its trigrams, a binary file and one
//! apart with none. Apart are a text that no index can hold, and a file that has not as many bytes
//! as its stamp says. A file that cannot be read to its end is not learned, since a search has to
//! report it each time. Neither is one whose stamp is not old at the moment of the run, since a
//! later write might give the same stamp, one that has another stamp when it is opened, one whose
//! stamp says that it is empty, and one whose name no state can have.
//!
//! `first_state` writes the index of what was learned as a state. `update_state` merges it with the
//! index of an old state. Its paths are the covers of the files that were seen (`own_paths`), so
//! the merge drops all that was known of them.
#![tactic(auto)]

mod due;
mod fault;
pub mod laws;
mod learning;
mod own_paths;
mod reading;
mod types;
mod updating;
mod watching;

pub use cs_known::SeenFile;
pub use due::{batch_len, is_due};
pub use fault::UpdateFault;
pub use learning::learn_files;
pub use types::UpdateCall;
pub use updating::{first_state, update_state};
