//! Which files a search over a state skips: those that are known, by their stamps, to print
//! nothing. A state is what earlier runs learned of the files of a project: an index of stamped
//! names (`specs/StampedNames.antt` of cs_state).
//!
//! A file is skipped, unread, if its stamp is the known one and it then prints nothing: a text that
//! is no candidate for the query, except with `-v` and `-L`, which print texts without a match, or
//! a binary one, except with `-a`. What is skipped prints nothing if each file whose stamp an
//! earlier run saw, and was old then, still reads as it read then.
//!
//! *Reading.* `KnownFiles` are made for one search over one open state, and are asked for the files
//! of a walk one after another. A lookup passes the names that are less than the path; stamped
//! names have the order of their paths, so the name of the file, if the state knows it, is then the
//! first. Names are read as the paths that are asked for ascend, each once, through a window; the
//! ids of the candidates are in memory. A path that is asked for later than a greater one may be
//! missed: such a file counts as unknown, and is read. So is each later file after a read that
//! fails, and a file that cannot be learned, as one whose path has a byte 1.
//!
//! Read `specs/Skipped.antt` first (which files are skipped), then `specs/Learned.antt` (what a
//! state knows, and the premises), `specs/Unprinted.antt` (what is skipped prints nothing) and
//! `specs/KnownFiles.antt` (what `KnownFiles` have read).
#![tactic(auto)]

mod finding;
pub mod laws;
mod name_match;
mod options;
mod types;

pub use types::{FileLookup, KnownFiles, SeenFile, SkipOptions};
