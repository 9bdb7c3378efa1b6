//! The state of a project: what earlier runs learned of its files. Read `specs/Known.antt` first,
//! then `specs/StampedNames.antt`: what a state knows, and `specs/StateFile.antt`: the bytes of a
//! state file.
//!
//! *Names.* A state is an index and its sums. The names of the index are stamped: the path of a
//! file, the bytes `01 /`, the text of its stamp, and what it is. No path that is learned has the
//! byte 1, and each byte that may follow in a longer path is greater, so stamped names have the
//! order of their paths; and the path `PATH 01` covers exactly the names of one file, so a merge
//! replaces them. `laws` states this. A lookup goes on to the first name that is not less than the
//! path, and compares its parts (`stamped_parts`, `is_stamp_text`).
//!
//! *Sealing.* A `StateKey` is made of the secret of a user. The sum of a piece is a keyed hash
//! (`specs/Sums.antt`) of the piece, its number, whether it is the last, and the moment of the
//! state. So nobody else can make one, and pieces are neither exchanged nor cut off, nor taken from
//! another state.
//!
//! *Writing.* An index is written through a `SummedOutput`, which sends its bytes on in pieces of
//! 64 KiB and keeps the sum of each. `SummedOutput::finish` appends the sums and the end: the
//! length of the index, its sum, the moment and a magic. Only the sums stay in memory.
//!
//! *Opening.* `StateFile::open` reads the end of a file. `SummedBytes` are the bytes of the index,
//! as a store, which `StoredIndex` of `cs_index` reads as an index in a file of its own. A piece is
//! read and tested when a byte of it is read, and stays in memory while the next reads are in it;
//! so each byte of the index that is read was tested.
#![tactic(auto)]

mod fault;
mod file_kind;
pub mod laws;
mod opening;
mod stamp_text;
mod stamped;
mod state_file;
mod state_key;
mod summed;
mod summed_bytes;
mod summed_output;
mod summing;
mod sums;

pub use fault::SealFault;
pub use file_kind::FileKind;
pub use stamp_text::is_stamp_text;
pub use stamped::{NameParts, path_cover, stamped_name, stamped_parts, takes_name};
pub use state_file::StateFile;
pub use state_key::{StateKey, StateSeal};
pub use summed_bytes::SummedBytes;
pub use summed_output::SummedOutput;
