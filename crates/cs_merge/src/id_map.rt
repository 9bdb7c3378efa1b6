// Maps from the ids of the two indexes to the ids of the merged index, and their runs. Go: `idMap`
// and `idrange` in index/merge.go. A run is a range of ids that the map shifts by one distance, or
// that it drops as a whole.
ghost use Rattle.std.specs.Prelude.{◌≡◌, ◌<◌, ◌^◌, ◌∷◌, ◌++◌, [], length, IfOk, OnOk, ◌+◌, true, option_map};
ghost use Rattle.cs_merge.specs.Cited.{AreScattered, IsIncreasing, IsRun, AreDistinctIds};
ghost use Rattle.cs_merge.specs.IdMap.{new_id as new_id'};

use std::alloc::{AllocError, Global};
use std::marker::Model;

/// The new id of each old id, or `None` if the file is dropped. It covers the ids that were merged
/// so far.
#[derive(Drop)]
pub(crate) struct IdMap {
    new_ids: Vec<Option<u32>>,
}

impl Model for IdMap {
    ghost use Rattle.cs_merge.specs.IdMap.{NewIds};

    ghost Value = { NewIds };

    ghost view = { λ s. s.new_ids.items };
}

impl IdMap {
    /// A map of no ids.
    pub(crate) fn new(alloc: Global) -> IdMap
        ensures { result ≡ [] }
    {
        IdMap {
            new_ids: Vec::new(alloc),
        }
    }

    /// The number of ids that the map covers, which is the next id.
    pub(crate) fn len(&self) -> u32
        requires { length self.now < 2 ^ 32 }
        ensures { result ≡ length self.now }
    {
        self.new_ids.len() as u32
    }

    /// Maps the next id to `new`, or to nothing if its file is dropped.
    pub(crate) fn push(&mut self, new: Option<u32>) -> Result<(), AllocError>
        ensures { OnOk result (self.new ≡ self.old ++ new ∷ []) }
    {
        self.new_ids.push(new)?;
        Ok(())
    }

    /// Maps `ids[i]` to what this map has for `i`: a scatter by a permutation.
    pub(crate) fn scatter(&self, alloc: Global, ids: &[u32]) -> Result<IdMap, AllocError>
        requires all { length self.now ≡ length ids.now }
        requires order { AreDistinctIds (length ids.now) ids.now }
        ensures long { IfOk result (λ new_ids. length new_ids ≡ length self.now) }
        ensures each { IfOk result (λ new_ids. AreScattered ids.now self.now (length ids.now) new_ids) }
    {
        let mut new_ids = Vec::from_elem(alloc, None, self.new_ids.len())?;
        for position in 0..ids.len() {
            new_ids[ids[position] as usize] = self.new_ids[position];
        }
        Ok(IdMap { new_ids })
    }

    /// The new id of each id.
    pub(crate) fn as_slice(&self) -> &[Option<u32>]
        ensures { result.now ≡ self.now }
    {
        &self.new_ids
    }

    /// The new id of an id, if its file is kept.
    pub(crate) fn new_id(&self, id: u32) -> Option<u32>
        ensures { result ≡ new_id' self.now id }
    {
        *self.new_ids.get(id as usize)?
    }
}

/// The maps of both indexes.
#[derive(Drop)]
pub(crate) struct IdMaps {
    pub(crate) older: IdMap,
    pub(crate) newer: IdMap,
}

/// An id map, and for each id the end of its run.
#[derive(Drop)]
pub(crate) struct IdRuns<'a> {
    new_ids: &'a IdMap,
    ends: Vec<u32>,
    is_increasing: bool,
    count: u32,
}

impl<'a> Model for IdRuns<'a> {
    ghost use Rattle.cs_merge.specs.IdMap.{NewIds, AreIdRuns};

    ghost Value = { NewIds };

    ghost view = { λ s. s.new_ids.now };

    ghost invariant = { λ s. AreIdRuns s.new_ids.now s.ends.items s.is_increasing };
}

impl<'a> IdRuns<'a> {
    /// Finds the runs of all ids.
    pub(crate) fn new(alloc: Global, new_ids: &'a IdMap) -> Result<IdRuns<'a>, AllocError>
        requires { length new_ids.now < 2 ^ 32 }
        ensures { IfOk result (λ runs. runs ≡ new_ids.now) }
    {
        let mut ends = Vec::new(alloc);
        let mut end = 0;
        let mut count = 0u32;
        'ids: for id in 0..new_ids.len() {
            if id >= end {
                end = end_from(new_ids, id);
                count = count.saturating_add(1);
            }
            ends.push(end)?;
        }
        let is_increasing = find_is_increasing(new_ids);
        Ok(IdRuns {
            new_ids,
            ends,
            is_increasing,
            count,
        })
    }

    /// Whether the map is increasing: ascending ids have ascending new ids.
    pub(crate) fn is_increasing(&self) -> bool
        ensures { result ≡ true → IsIncreasing self.now }
    {
        self.is_increasing
    }

    /// The number of runs. It says only what is quicker.
    pub(crate) fn count(&self) -> u32 {
        self.count
    }

    /// The new id of each id.
    pub(crate) fn new_ids(&self) -> &[Option<u32>]
        ensures { result.now ≡ self.now }
    {
        self.new_ids.as_slice()
    }

    /// The new id of an id, if its file is kept.
    pub(crate) fn new_id(&self, id: u32) -> Option<u32>
        ensures { result ≡ new_id' self.now id }
    {
        self.new_ids.new_id(id)
    }

    /// The end of the run that contains the id.
    pub(crate) fn end(&self, id: u32) -> u32
        ensures { IsRun self.now id result }
    {
        match self.ends.get(id as usize) {
            Some(end) => *end,
            None => 0,
        }
    }
}

/// The end of the run that begins at the id.
fn end_from(new_ids: &IdMap, id: u32) -> u32
    requires bound { length new_ids.now < 2 ^ 32 }
    requires known { id < length new_ids.now }
    ensures { IsRun new_ids.now id result }
{
    let mut end = id + 1;
    'ids: while end < new_ids.len() && extends_run(new_ids.new_id(end - 1), new_ids.new_id(end)) {
        end += 1;
    }
    end
}

/// Whether ascending ids have ascending new ids.
fn find_is_increasing(new_ids: &IdMap) -> bool
    requires { length new_ids.now < 2 ^ 32 }
    ensures { result ≡ true → IsIncreasing new_ids.now }
{
    let mut last = None;
    'ids: for id in 0..new_ids.len() {
        let Some(new) = new_ids.new_id(id) else {
            continue;
        };
        if let Some(last) = last {
            if new <= last {
                return false;
            }
        }
        last = Some(new);
    }
    true
}

/// Whether two adjacent ids are in one run, by their new ids.
fn extends_run(first: Option<u32>, second: Option<u32>) -> bool
    ensures { result ≡ true → second ≡ option_map (λ new. new + 1) first }
{
    match (first, second) {
        (None, None) => true,
        (Some(first), Some(second)) => second > first && second - first == 1,
        _ => false,
    }
}
