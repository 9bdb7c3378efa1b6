//! Command line arguments, by the rules of Go's package `flag`, and the messages for their errors.
//!
//! Read `specs/Args.antt` first, and then `specs/Messages.antt`.
#![tactic(auto)]

mod args;
mod fault;
mod jobs;
pub mod laws;

pub use args::read_words;
pub use fault::{
    CindexFault, FileFault, Refusal, ToolFault, WordFault, fault_line, message, skip_line,
};
pub use jobs::{GrepJob, IndexJob, Job, Reply, SearchJob, Style, Tool};
