// Steps of a search, counted at no cost: a number that only contracts read.
ghost use Rattle.std.specs.Prelude.{◌≡◌, ◌+◌, ℕ};
ghost use Rattle.std.specs.Borrow.{ftrue};

use std::marker::Model;

/// How many steps were taken. `OffsetWork` of cs_prefilter says what a step of a prefilter is. The
/// type has no size at run time. Only `add` changes the number.
#[derive(Drop)]
pub struct Steps {
    pub ghost count: { ℕ },
}

// A ghost field holds data only in a type that says what memory it owns: none.
impl Model for Steps {
    ghost also_owns = { λ _. ftrue };
}

impl Steps {
    /// No steps yet.
    pub fn new() -> Steps
        ensures { result.count ≡ 0 }
    {
        Steps {}
    }

    /// So many steps more. Does nothing when it runs.
    pub fn add(&mut self, _count: usize)
        ensures { self.new.count ≡ self.old.count + _count }
    {}
}
