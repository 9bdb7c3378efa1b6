// What a matcher has cached, kept apart from its program (as `Cache` of Rust's regex-automata), so
// that who owns the program can own the cache too.
ghost use Rattle.std.specs.Prelude.{◌≡◌, IfOk};
ghost use Rattle.cs_match.specs.Cached.{IsCacheOf};

use super::Matcher;
use crate::dfa::{LazyDfa, StateCache};
use crate::listing::Lister;
use crate::pacing::Pacing;
use crate::program::Program;
use cs_tree::Steps;
use std::alloc::{AllocError, Global};

/// The cached states of a matcher, its counters and the steps that it has taken.
#[derive(Drop)]
pub struct Cache {
    pub(crate) states: StateCache,
    pacing: Pacing,
    pub(crate) ends: Vec<usize>,
    steps: Steps,
}

impl Cache {
    /// The cache of a new matcher of the program.
    pub fn new(alloc: Global, program: &Program) -> Result<Cache, AllocError>
        ensures { IfOk result (λ cache. IsCacheOf program.now cache) }
    {
        Ok(Matcher::new(alloc, program)?.into_cache())
    }
}

impl<'a> Matcher<'a> {
    /// A matcher that goes on with the cache of an earlier matcher of this program. It allocates
    /// nothing.
    pub fn resume(program: &'a Program, cache: Cache) -> Matcher<'a>
        requires cache { IsCacheOf program.now cache }
        ensures tree { result.tree ≡ program.now }
    {
        let (states, pacing, steps) = (cache.states, cache.pacing, cache.steps);
        let dfa = LazyDfa { program, states };
        let lister = Lister { dfa, pacing, steps };
        Matcher {
            lister,
            ends: cache.ends,
            listed: 0,
        }
    }

    /// The cache, for a later matcher of the same program.
    pub fn into_cache(self) -> Cache
        ensures { IsCacheOf self.entry.tree result }
    {
        let Lister { dfa, pacing, steps } = self.lister;
        Cache {
            states: dfa.states,
            pacing,
            ends: self.ends,
            steps,
        }
    }
}
