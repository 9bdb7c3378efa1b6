//! What `cindex` promises over any list of jobs.
//!
//! Read `specs/Headline.antt` first, which is the main promise (its part for searches is
//! `specs/SearchHeadline.antt` of `cs_search`); `specs/Premises.antt` has its premises. Then
//! `specs/History.antt` has the index of a list of jobs, `specs/WellFormed.antt` which paths and
//! histories are well formed, `specs/Jobs.antt` how jobs and replies extend a history, and
//! `specs/Shards.antt` indexes of disjoint trees.
#![tactic(auto)]

pub mod laws;
