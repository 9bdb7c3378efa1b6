//! The merge of an index with a newer one, as `Merge` in Go's index/merge.go: a merge of two sorted
//! lists of names, and then of two sorted lists of posting lists.
//!
//! Read `specs/Merge.antt` first, which defines the merge, and then `specs/Content.antt`, which
//! defines the content of an index, and which content bytes decode as.
//!
//! `merge` is a two-way merge of sorted lists, as in Go's `index/merge.go`: first of the names,
//! then of the posting lists. An index whose names do not ascend is read by rank, through the
//! permutation that sorts its names (`SortedNames`).
//!
//! - *Names* (`merging_names`). The lower of the next two names is written, or dropped if it is an
//!   old name that a newer path covers. Each id gets its new id or none (`IdMap`, Go's `idMap`). A
//!   name is covered if the name or one of its ancestors is a newer path; each is looked up in the
//!   sorted paths.
//! - *Posting lists* (`merging_trigrams`, and `merging_lists` for the lists of one trigram). They
//!   are merged in ascending order of trigrams, and a list without ids is not written. A *run* is a
//!   range of ids that the map shifts by one distance or drops as a whole (`id_map`, Go's
//!   `idrange`). If the runs of a merge are long, the first id of a run is encoded again, and the
//!   others are copied as they are encoded, up to the first id of the other list
//!   (`mapped_postings`). A copy costs as much as some eight ids. So a run is copied only if it is
//!   long for the distance of the last two ids. Dropped runs are skipped without decoding. Changes
//!   that are scattered over many names make the runs short. Then the new ids of both lists are
//!   read into memory, and written from there (`write_both`). The trigram set of a name is never
//!   built. A list is read to its end even if all of its ids are dropped, so that damage is always
//!   found. Once the written lists have more bytes than an index may have (`Sections::list_bytes`),
//!   the others are only read for damage.
//! - *Other orders.* If the new ids of an index are not in the order of its old ones, the new ids
//!   of both lists are read into memory and sorted.
//! - *Replacing* (`replacing`). If the newer paths cover all paths and names of the old index
//!   (`is_replaced`), the merge is the newer index. So `cindex` sends that as it is made, and reads
//!   the old lists only for damage (`is_whole_stored`).
//!
//! `merge_stored` reads the lists of an old index in a store: `Tables` has what is in memory, and
//! the list that is merged is in a `ListReader`, from which its postings are borrowed. `merge`
//! calls it with the bytes of the old index as the store, and with a `Vec` as the output. After
//! each list the loop over the trigrams sends what is written. `is_whole_from` reads old lists only
//! for damage: those of an index that is replaced, and those that are left once the written lists
//! are too long. What is written is an index whatever the store answers: the trigrams come from the
//! tables, and any bytes decode as ascending ids. Where the bytes of the store are known, each list
//! is that of the index (`IsMergingLists`).
//!
//! The contract mentions only the content of both indexes.
//!
//! A run of ids that the map shifts by one distance is copied as it is encoded, but only as far as
//! each delta is a varint of one or two bytes in its shortest form. Longer or padded ones (`81 00`)
//! are encoded again, so that a content has one encoding. A merged index that is too large is found
//! while its lists are written; from there on the other lists are only read, since a damaged list
//! goes before `TooLarge`. `OldIndex::open` reads the tables of a stored index twice: first in
//! pieces, so that a damaged file of 4 GB is refused in its first piece, and then as a whole, since
//! a store may have changed.
#![tactic(auto)]

mod fault;
mod id_map;
pub mod laws;
mod mapped_postings;
mod merging;
mod merging_lists;
mod merging_names;
mod merging_trigrams;
mod replacing;

pub use fault::MergeFault;
pub use merging::{merge, merge_stored};
pub use replacing::{is_replaced, is_whole_stored};
