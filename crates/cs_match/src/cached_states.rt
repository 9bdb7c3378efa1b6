// The states that a lazy DFA has cached, in flat vectors, and a hash table to look them up.
ghost use Rattle.std.specs.Prelude.{◌≡◌, ◌+◌, ◌*◌, ◌<◌, ◌≤◌, ◌∷◌, ◌++◌, [], IfOk, IfSome, length, take, slice_index_or};
ghost use Rattle.cs_match.specs.declared.state.State.{State};
ghost use Rattle.cs_match.specs.Cited.{positions_of, IsPositionSet, words, CountsAtMost};

use crate::state::{Behind, State};
use cs_tree::Steps;
use std::alloc::{AllocError, Global};
use std::marker::Model;

/// The most places at which a state is looked for.
const MOST_PROBES: usize = 8;

/// What a look-up gives: the slot of an equal cached state, if any, and a place for the state.
#[derive(Clone, Copy)]
pub(crate) struct Lookup {
    pub(crate) slot: Option<usize>,
    pub(crate) place: usize,
}

/// The cached states. A state that is cached need not be found: it is cached again.
#[derive(Drop)]
pub(crate) struct CachedStates {
    /// The positions of the states, as many words for each.
    sets: Vec<u64>,
    /// The rest of each state.
    behinds: Vec<Behind>,
    /// The hash table: a slot at each place, in use if it is that of a state with this place.
    slots: Vec<u16>,
    places: Vec<u32>,
    most: usize,
    /// The number of positions.
    count: usize,
}

impl Model for CachedStates {
    ghost use Rattle.std.specs.Prelude.{◌≡◌, ◌≤◌, ◌<◌, ◌*◌, length, vec_len, vec_capacity};
    ghost use Rattle.cs_match.specs.CachedStates.{StateList, states_of, AreSets};
    ghost use Rattle.cs_match.specs.Work.{words};

    ghost Value = { StateList };

    ghost view = { λ s.
        record {
          items = states_of s.count s.sets.items s.behinds.items;
          most = s.most;
          positions = s.count;
        } };

    ghost invariant = { λ s. AreSets s.count s.sets.items s.behinds.items
        × (vec_len s.places ≡ vec_len s.behinds)
        × (vec_len s.slots ≡ 2 * s.most)
        × (0 < s.most)
        × (s.most < 65536)
        × (s.most ≤ vec_capacity s.behinds)
        × (s.most ≤ vec_capacity s.places)
        × (s.most * words s.count ≤ vec_capacity s.sets) };
}

impl CachedStates {
    /// No states, with room for so many. Their pages are touched as states are cached.
    pub(crate) fn new(alloc: Global, most: usize, count: usize) -> Result<CachedStates, AllocError>
        requires some { 0 < most }
        requires few { most < 65536 }
        ensures { IfOk result (λ states. states ≡ record { items = []; most = most; positions = count }) }
    {
        let Some(words) = most.checked_mul(count.div_ceil(64)) else {
            return Err(AllocError);
        };
        Ok(CachedStates {
            sets: Vec::with_capacity(alloc, words)?,
            behinds: Vec::with_capacity(alloc, most)?,
            slots: vec![in alloc; 0u16; 2 * most]?,
            places: Vec::with_capacity(alloc, most)?,
            most,
            count,
        })
    }

    pub(crate) fn len(&self) -> usize
        ensures { result ≡ length self.now.items }
    {
        self.behinds.len()
    }

    pub(crate) fn most(&self) -> usize
        ensures { result ≡ self.now.most }
    {
        self.most
    }

    fn set(&self, slot: usize) -> &[u64]
        requires { slot < length self.now.items }
        ensures set { IsPositionSet result.now self.now.positions }
        ensures same { (other : State) → (slice_index_or self.now.items slot other).positions
            ≡ positions_of result.now self.now.positions }
    {
        let words = self.count.div_ceil(64);
        let start = slot * words;
        &self.sets[start..start + words]
    }

    fn behind(&self, slot: usize) -> Behind
        requires { slot < length self.now.items }
        ensures { (other : State) → result ≡ (slice_index_or self.now.items slot other).behind }
    {
        self.behinds[slot]
    }

    /// Looks for the state, and for its place.
    pub(crate) fn find(&self, state: &State, steps: &mut Steps) -> Lookup
        requires { length state.now.positions ≡ self.now.positions }
        ensures equal { IfSome result.slot (λ slot. (slot < length self.now.items)
            × (slice_index_or self.now.items slot state.now ≡ state.now)) }
        ensures work { CountsAtMost ((MOST_PROBES + 1) * (words self.now.positions + 1)) steps.old steps.new }
    {
        let words = self.count.div_ceil(64);
        steps.add(words + 1);
        let home = state.hash() as usize;
        for probe in 0..MOST_PROBES {
            steps.add(words + 1);
            let place = home.wrapping_add(probe) % self.slots.len();
            let slot = self.slots[place] as usize;
            if slot >= self.len() || self.places[slot] as usize != place {
                return Lookup { slot: None, place };
            }
            if self.behind(slot) == state.behind && self.set(slot) == state.positions.words() {
                let slot = Some(slot);
                return Lookup { slot, place };
            }
        }
        let place = home;
        Lookup { slot: None, place }
    }

    /// Makes a cached state this one.
    pub(crate) fn load(&self, slot: usize, state: &mut State)
        requires within { slot < length self.now.items }
        requires positions { length state.old.positions ≡ self.now.positions }
        ensures { (other : State) → state.new ≡ slice_index_or self.now.items slot other }
    {
        state.positions.copy_from(self.set(slot));
        state.behind = self.behind(slot);
    }

    /// Caches the state.
    pub(crate) fn push(&mut self, state: &State, place: usize)
        requires room { length self.old.items < self.old.most }
        requires positions { length state.now.positions ≡ self.old.positions }
        ensures { self.new ≡ record self.old { items = self.old.items ++ state.now ∷ [] } }
    {
        let place = place % self.slots.len();
        self.slots[place] = self.len() as u16;
        self.places.push(place as u32).unwrap();
        self.sets
            .extend_from_slice(state.positions.words())
            .unwrap();
        self.behinds.push(state.behind).unwrap();
    }

    /// Forgets all states but the first ones, so many.
    pub(crate) fn truncate(&mut self, len: usize)
        requires { len ≤ length self.old.items }
        ensures { self.new ≡ record self.old { items = take len self.old.items } }
    {
        let words = self.count.div_ceil(64);
        self.sets.truncate(len * words);
        self.behinds.truncate(len);
        self.places.truncate(len);
    }
}
