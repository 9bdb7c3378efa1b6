// A posting list whose ids are mapped while it is read. Go: `postMapReader` in index/merge.go.
ghost use Rattle.std.specs.Prelude.{◌≡◌, ◌++◌, [], true, false, Some, None, slice_get, IfOk, IfErr, IfSome, OnOk, MatchResult};
ghost use Rattle.std.specs.List.{cons_option};
ghost use Rattle.cs_merge.specs.Cited.{new_ids_of, new_ids_read, ids_after, new_of, IsListAnswer, IsRunOf, nothing_read};
ghost use Rattle.cs_merge.specs.IdMap.{new_id as new_id'};

use crate::id_map::IdRuns;
use cs_index::{EncodedRun, IndexFault, Postings};
use std::marker::Model;

/// A run is copied if it is expected to have more ids than this. Fewer ids are quicker one by one.
const FEW: u32 = 8;

/// The new ids of a posting list, without dropped files: the first of them, and the reader of the
/// rest. `gap` is the distance of the old id of the first one from the old id that was read before.
#[derive(Drop)]
pub(crate) struct MappedPostings<'a, 'b> {
    first: Option<u32>,
    last: u32,
    gap: u32,
    rest: Postings<'a>,
    runs: &'b IdRuns<'b>,
}

impl<'a, 'b> Model for MappedPostings<'a, 'b> {
    ghost use Rattle.std.specs.List.{cons_option};
    ghost use Rattle.cs_index.specs.PostingLists.{Ids};
    ghost use Rattle.cs_merge.specs.IdMap.{new_ids_of};
    ghost use Rattle.cs_merge.specs.ListMerge.{IsMappedPostings};

    ghost Value = { Ids };

    ghost view = { λ s. record {
      ids = cons_option s.first (new_ids_of s.runs.now s.rest.ids);
      whole = s.rest.whole;
    } };

    ghost invariant = { λ s. IsMappedPostings s.runs.now s.first s.last s.rest };
}

impl<'a, 'b> MappedPostings<'a, 'b> {
    /// Reads up to the first id that is kept.
    pub(crate) fn new(
        ids: Postings<'a>,
        runs: &'b IdRuns<'b>,
    ) -> Result<MappedPostings<'a, 'b>, IndexFault>
        ensures { MatchResult result (λ mapped_postings. mapped_postings ≡ new_ids_read runs.now ids.entry)
            (λ fault. (fault ≡ IndexFault.BadList) × (ids.entry.whole ≡ false)) }
    {
        let mut rest = ids;
        let next = next_kept(&mut rest, runs)?;
        let (last, first) = parts(next);
        Ok(MappedPostings {
            first,
            last,
            gap: last,
            rest,
            runs,
        })
    }

    /// The empty list.
    pub(crate) fn none(runs: &'b IdRuns<'b>) -> MappedPostings<'a, 'b>
        ensures { result ≡ nothing_read }
    {
        MappedPostings {
            first: None,
            last: 0,
            gap: 0,
            rest: Postings::new(&[0], 0, 0),
            runs,
        }
    }

    /// Reads the list to its end, and appends its new ids.
    pub(crate) fn append_to(self, ids: &mut Vec<u32>) -> Result<(), IndexFault>
        ensures ok { OnOk result (ids.new.items ≡ ids.old.items ++ self.entry.ids) }
        ensures fault { IsListAnswer self.entry.whole result }
    {
        let Some(first) = self.first else {
            return Ok(());
        };
        ids.push(first)?;
        self.rest.map_into(self.runs.new_ids(), ids)?;
        Ok(())
    }

    /// The first remaining new id. If there is none, the list was read to its end.
    pub(crate) fn first(&self) -> Option<u32>
        ensures first { result ≡ slice_get self.now.ids 0 }
        ensures whole { result ≡ None → self.now.whole ≡ true }
    {
        self.first
    }

    /// Whether the rest of the first id's run is expected to have more than a few ids. Their
    /// distance is taken to be that of the last two ids.
    #[inline(always)]
    pub(crate) fn has_long_run(&self) -> bool {
        self.runs.end(self.last).saturating_sub(self.last) / FEW > self.gap
    }

    /// Reads the rest of the first id's run without decoding it. The run is relative to the first
    /// id, and its new ids are less than `limit`.
    pub(crate) fn run(&mut self, id: u32, limit: Option<u32>) -> EncodedRun<'a>
        requires { slice_get self.old.ids 0 ≡ Some id }
        ensures run { IsRunOf id limit result self.old.ids self.new.ids }
        ensures whole { self.new.whole ≡ self.old.whole }
    {
        let end = self.runs.end(self.last);
        let most = match limit {
            None => end,
            Some(limit) => self.last.saturating_add(limit.saturating_sub(id)),
        };
        self.rest.encoded_run(self.last, end.min(most))
    }

    /// Advances to the next id, if `id` is the first one.
    #[inline(always)]
    pub(crate) fn advance(&mut self, id: u32) -> Result<(), IndexFault>
        ensures ok { OnOk result (self.new ≡ ids_after id self.old) }
        ensures fault { IfErr result (λ fault. (fault ≡ IndexFault.BadList) × (self.old.whole ≡ false)) }
    {
        if self.first == Some(id) {
            let next = next_kept(&mut self.rest, self.runs)?;
            let (last, first) = parts(next);
            self.gap = last.saturating_sub(self.last);
            self.last = last;
            self.first = first;
        }
        Ok(())
    }
}

/// The old id and the new id.
fn parts(next: Option<(u32, u32)>) -> (u32, Option<u32>)
    ensures new { result.1 ≡ new_of next }
    ensures id { IfSome next (λ kept. result.0 ≡ kept.0) }
{
    match next {
        Some((id, new)) => (id, Some(new)),
        None => (0, None),
    }
}

/// The next id that is kept, with its new id. Runs of dropped ids are skipped without decoding.
#[inline(always)]
fn next_kept(ids: &mut Postings<'_>, runs: &IdRuns<'_>) -> Result<Option<(u32, u32)>, IndexFault>
    ensures ids { IfOk result (λ next. cons_option (new_of next) (new_ids_of runs.now ids.new.ids)
        ≡ new_ids_of runs.now ids.old.ids) }
    ensures kept { IfOk result (λ next. IfSome next (λ kept. new_id' runs.now kept.0 ≡ Some kept.1)) }
    ensures whole { OnOk result (ids.new.whole ≡ ids.old.whole) }
    ensures end { IfOk result (λ next. next ≡ None → (ids.new.ids ≡ []) × (ids.new.whole ≡ true)) }
    ensures fault { IfErr result (λ fault. (fault ≡ IndexFault.BadList) × (ids.old.whole ≡ false)) }
{
    'ids: while let Some(answer) = ids.next() {
        let Ok(id) = answer else {
            return Err(IndexFault::BadList);
        };
        if let Some(new) = runs.new_id(id) {
            return Ok(Some((id, new)));
        }
        let _dropped = ids.encoded_run(id, runs.end(id));
    }
    Ok(None)
}
