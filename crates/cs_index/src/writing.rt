// The writer (Go: index/write.go): collects paths, and names with their trigrams, and encodes them
// as an index.

mod buckets;
mod builder;
mod output;
mod sections;
mod strings;

pub use builder::Builder;
pub use sections::Sections;
