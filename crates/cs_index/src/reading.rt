// The reader (Go: index/read.go): opens an index in memory or in a store, and answers queries.

mod bytes;
mod candidates;
mod entries;
mod form;
mod index;
mod list_reader;
mod name_reader;
mod name_table;
mod old_index;
mod postings;
mod rows;
mod section_offsets;
mod stored;
mod stored_list;
mod stored_sections;
mod tables;
mod window;

pub use index::Index;
pub use list_reader::ListReader;
pub use name_reader::NameReader;
pub use name_table::{NameTable, Texts};
pub use old_index::OldIndex;
pub use postings::Postings;
pub use stored::StoredIndex;
pub use tables::Tables;
