// The index builder: postings are distributed to buckets, and the lists are written at the end.
ghost use Rattle.std.specs.Prelude.{◌≡◌, ◌≢◌, ◌<◌, ◌≤◌, ◌-◌, ◌^◌, ◌++◌, ◌⊎◌, ◌↔◌, [], true, false, nat_lt, length, map, string_bytes, Err, IfOk, IfErr, OnOk, OnErr};
ghost use Rattle.cs_index.specs.Cited.{set_of_numbers, AreDistinctTrigrams, encoding, encoding_of, names_of, IsIndexable, least_length, with_entry, IsAlwaysLonger, are_paths, file_map, is_above, is_storable, IsBuilt, IsFull, IsOutOfOrder, path_set, max_names};

use crate::fault::BuildFault;
use crate::writing::buckets::{Bucket, empty_buckets, pop_file, push_file, write_buckets};
use crate::writing::sections::Sections;
use crate::writing::strings::{Strings, are_index_paths, is_text, strings_of};
use cs_tree::{Output, Sent};
use std::alloc::Global;
use std::marker::Model;

/// The maximum number of names.
const MAX_NAMES: u32 = 1 << 30;

/// The length of an index without paths and names.
const EMPTY_LEN: u64 = 62;

/// The bytes of a name besides its text and its postings: a NUL and an offset.
const NAME_LEN: u64 = 5;

/// An index under construction: the paths, the names, and the postings in buckets. `least` is how
/// long the index is at least, or the greatest number.
#[derive(Drop)]
pub struct Builder {
    alloc: Global,
    paths: Strings,
    names: Strings,
    buckets: Vec<Bucket>,
    least: u64,
}

impl Model for Builder {
    ghost use Rattle.cs_index.specs.Built.{Built};

    ghost Value = { Built };

    ghost use Rattle.cs_index.specs.BuilderInvariant.{built_of, IsBuilder};

    ghost view = { built_of };

    ghost invariant = { IsBuilder };
}

impl Builder {
    /// A builder with these paths and no names.
    pub fn new(alloc: Global, paths: &[String]) -> Result<Builder, BuildFault>
        ensures ok { IfOk result
            (λ builder. (builder.paths ≡ map string_bytes paths.now) × (builder.entries ≡ [])) }
        ensures bad_paths { (result ≡ Err BuildFault.BadPaths) ↔
            (are_paths (map string_bytes paths.now) ≡ false) }
        ensures other { IfErr result
            (λ fault. (fault ≡ BuildFault.BadPaths) ⊎ (fault ≡ BuildFault.Memory)) }
    {
        if !are_index_paths(paths) {
            return Err(BuildFault::BadPaths);
        }
        let paths = strings_of(alloc, paths)?;
        Ok(Builder {
            alloc,
            paths,
            names: Strings::new(alloc),
            buckets: empty_buckets(alloc)?,
            least: EMPTY_LEN,
        })
    }

    /// Adds a name with the trigrams of its text, each once and in any order, and returns its id.
    /// On error nothing changes.
    pub fn add(&mut self, name: &str, trigrams: &[u32]) -> Result<u32, BuildFault>
        requires once { AreDistinctTrigrams trigrams.now }
        ensures ok { OnOk result
            (self.new ≡ with_entry self.old name.now (set_of_numbers trigrams.now)) }
        ensures id { IfOk result (λ id. id ≡ length self.old.entries) }
        ensures bad_name { (result ≡ Err BuildFault.BadName) ↔ (is_storable name.now ≡ false) }
        ensures out_of_order { (result ≡ Err BuildFault.OutOfOrder) ↔
            IsOutOfOrder self.old name.now }
        ensures too_large { (result ≡ Err BuildFault.TooLarge) ↔
            IsFull max_names self.old name.now }
        ensures other { IfErr result (λ fault. fault ≢ BuildFault.BadPaths) }
        ensures err { OnErr result (self.new ≡ self.old) }
    {
        self.add_within(MAX_NAMES, name, trigrams)
    }

    /// Whether the index is longer than 2^32 - 1 bytes, whatever is added to it.
    pub fn is_too_large(&self) -> bool
        ensures value { result ≡ nat_lt (2 ^ 32 - 1) (least_length self.now.entries) }
        ensures certain { result ≡ true → IsAlwaysLonger (2 ^ 32 - 1) self.now }
    {
        self.is_too_large_within(u32::MAX)
    }

    /// `is_too_large` with a maximum length of the index, in bytes, as a parameter.
    pub fn is_too_large_within(&self, limit: u32) -> bool
        ensures value { result ≡ nat_lt limit (least_length self.now.entries) }
        ensures certain { result ≡ true → IsAlwaysLonger limit self.now }
    {
        self.least > limit as u64
    }

    /// Encodes the index. `TooLarge` if it would be longer than 2^32 - 1 bytes.
    pub fn finish(self) -> Result<Vec<u8>, BuildFault>
        ensures ok { IfOk result (λ index. index.items ≡ encoding_of self.paths self.entries) }
        ensures encoding { IfOk result (λ index. index.items ≡ encoding (path_set self) (file_map self)) }
        ensures indexable { IfOk result (λ _. IsIndexable self.paths self.entries) }
        ensures too_large { result ≡ Err BuildFault.TooLarge →
            2 ^ 32 ≤ length (encoding_of self.paths self.entries) }
        ensures other { IfErr result
            (λ fault. (fault ≡ BuildFault.TooLarge) ⊎ (fault ≡ BuildFault.Memory)) }
    {
        self.finish_within(u32::MAX)
    }

    /// `finish` with a maximum length of the index, in bytes, as a parameter.
    pub fn finish_within(self, limit: u32) -> Result<Vec<u8>, BuildFault>
        ensures ok { IfOk result (λ index. index.items ≡ encoding_of self.paths self.entries) }
        ensures within { IfOk result (λ index. length index.items ≤ limit) }
        ensures built { IsBuilt self }
        ensures too_large { result ≡ Err BuildFault.TooLarge →
            limit < length (encoding_of self.paths self.entries) }
        ensures other { IfErr result
            (λ fault. (fault ≡ BuildFault.TooLarge) ⊎ (fault ≡ BuildFault.Memory)) }
    {
        let mut index = Vec::new(self.alloc);
        self.finish_into(&mut index, limit)?;
        Ok(index)
    }

    /// Encodes the index and sends it to an output as it is made. `TooLarge` if it would be longer
    /// than `limit` bytes.
    pub fn finish_into<O: Output>(mut self, out: &mut O, limit: u32) -> Result<Sent, BuildFault>
        ensures ok { IfOk result (λ index. index.bytes ≡ encoding_of self.paths self.entries) }
        ensures within { IfOk result (λ index. length index.bytes ≤ limit) }
        ensures built { IsBuilt self }
        ensures too_large { result ≡ Err BuildFault.TooLarge →
            limit < length (encoding_of self.paths self.entries) }
        ensures other { IfErr result
            (λ fault. (fault ≡ BuildFault.TooLarge) ⊎ (fault ≡ BuildFault.Memory)) }
        ensures given { IfOk result
            (λ index. O.given out.new ≡ O.given out.old ++ index.bytes) }
        ensures keeps { O.Keeps out.old out.new }
    {
        let mut sections = Sections::of(self.alloc, self.paths, self.names);
        write_buckets(self.alloc, &mut self.buckets, &mut sections, out)?;
        sections.finish_into(out, limit)
    }

    /// `add` with a maximum number of names as a parameter.
    pub fn add_within(
        &mut self,
        limit: u32,
        name: &str,
        trigrams: &[u32],
    ) -> Result<u32, BuildFault>
        requires once { AreDistinctTrigrams trigrams.now }
        requires bound { limit ≤ max_names }
        ensures ok { OnOk result
            (self.new ≡ with_entry self.old name.now (set_of_numbers trigrams.now)) }
        ensures id { IfOk result (λ id. id ≡ length self.old.entries) }
        ensures bad_name { (result ≡ Err BuildFault.BadName) ↔ (is_storable name.now ≡ false) }
        ensures out_of_order { (result ≡ Err BuildFault.OutOfOrder) ↔
            IsOutOfOrder self.old name.now }
        ensures too_large { (result ≡ Err BuildFault.TooLarge) ↔
            IsFull limit self.old name.now }
        ensures other { IfErr result (λ fault. fault ≢ BuildFault.BadPaths) }
        ensures err { OnErr result (self.new ≡ self.old) }
    {
        if !is_text(name) {
            return Err(BuildFault::BadName);
        }
        if !self.names_are_below(name) {
            return Err(BuildFault::OutOfOrder);
        }
        let id = self.len();
        if id >= limit {
            return Err(BuildFault::TooLarge);
        }
        push_file(&mut self.buckets, trigrams, id)?;
        if self.names.push(name).is_err() {
            pop_file(&mut self.buckets, trigrams);
            return Err(BuildFault::Memory);
        }
        self.least = self
            .least
            .saturating_add(name.len() as u64)
            .saturating_add(trigrams.len() as u64)
            .saturating_add(NAME_LEN);
        Ok(id)
    }

    /// The number of names.
    fn len(&self) -> u32
        ensures { result ≡ length self.now.entries }
    {
        self.names.len() as u32
    }

    /// Whether the name is greater than the last one.
    fn names_are_below(&self, name: &str) -> bool
        ensures { result ≡ is_above (names_of self.now.entries) name.now }
    {
        self.names.is_below(name)
    }
}
