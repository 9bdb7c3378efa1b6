//! What a search of a project over a state promises. A *fresh* search prints exactly what a search
//! of every file as it is now prints (`items_printed` of cs_project), with the same status, over
//! any state that earlier runs left, if each file whose stamp a run saw, and was old then, still
//! reads as it read then.
//!
//! A `StateKnowledge` is a state file as the `Knowledge` by which a search of cs_project skips
//! files: what `run_project` says of a search holds over a state too, and without one. The file is
//! opened when the search has met many files, by the query of its pattern; a `KnownProject` is then
//! what it knows. Files that are unknown are noted, and an update of the state learns them
//! (cs_update).
//!
//! Read `specs/Skipped.antt` and `specs/Learned.antt` of cs_known first (which files are skipped,
//! what a state knows, and the premises), then `specs/Fresh.antt` (the promise),
//! `specs/ClosedStates.antt` and `specs/KnownProjects.antt`, and for what is noted
//! `specs/NotedFiles.antt`, `specs/Learnable.antt` and `specs/LaterSearches.antt`.
#![tactic(auto)]

mod closed_state;
mod known_project;
pub mod laws;
mod state_knowledge;

pub use closed_state::ClosedState;
pub use state_knowledge::StateKnowledge;
