//! The storing of the index file. Read `specs/Storing.antt` first: what a crash at any moment may
//! leave, and what other runs may do meanwhile.
//!
//! `IndexFolder` is the file and its surroundings, as one process sees them: `FILE`, and `FILE~`
//! beside it. Its model (`Folder`) has the bytes at `FILE`, what this process saw there, `FILE~` if
//! this process holds it, what a crash may leave at `FILE`, now or at any moment since `FILE~` was
//! made, and what this process has replaced at `FILE`. `begin_update` makes and locks `FILE~`, and
//! tests that `FILE` is what was opened. `NewFile` is `FILE~` as an `Output`: the job appends the
//! new index to it as it is made, and a failed append is reported by the sync. `finish_update`
//! syncs `FILE~` and renames it, or removes `FILE`, and then releases `FILE~`. Other processes may
//! change `FILE` between any two calls for which `FILE~` is not held. A law says that no job is
//! lost, whatever the order of the steps of several processes (`specs/Schedules.antt`). `kept_mode`
//! is the mode of a new file.
//!
//! `DiskFolder` is the `IndexFolder` of the disk. It has no model: `IndexPaths` are the paths of
//! `FILE`, where links end, and of `FILE~`. A `FILE~` that a killed run left is taken away.
#![tactic(auto)]

mod disk_folder;
mod folder;
mod index_paths;
pub mod laws;
mod update;

pub use disk_folder::{DiskFolder, DiskIndex, kept_mode};
pub use folder::{IndexFolder, NewFile, StorageFault};
pub use index_paths::IndexPaths;
pub use update::{IndexUpdate, begin_update, finish_update, replace_file};
