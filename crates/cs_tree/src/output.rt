// Outputs, where the bytes of a new index go as they are made: memory, and what was sent to one.
ghost use Rattle.std.specs.Prelude.{◌≡◌, ℕ, List, ◌++◌, OnOk, []};
ghost use Rattle.std.specs.Borrow.{ftrue};

use std::alloc::AllocError;
use std::marker::Model;

/// Where the bytes of a new index go as they are made: a file, or memory.
pub trait Output {
    /// The bytes that it was given.
    ghost given: { Self → List ℕ };

    /// What an append preserves, as a relation between the output before and after it.
    ghost Keeps: { Self → Self → Type 0 } = { λ _ _. Unit {0} };

    /// Appends bytes. A file that cannot be written says so when it is stored.
    fn append(&mut self, bytes: &[u8]) -> Result<(), AllocError>
        ensures given { OnOk result (given self.new ≡ given self.old ++ bytes.now) }
        ensures keeps { Keeps self.old self.new };

    ghost keeps_refl: { (x : Self) → Keeps x x };

    ghost keeps_trans: { (x y z : Self) → Keeps x y → Keeps y z → Keeps x z };
}

impl Output for Vec<u8> {
    ghost given = { λ v. v.items };

    ghost keeps_refl = { λ _. tt };

    ghost keeps_trans = { λ _ _ _ _ _. tt };

    fn append(&mut self, bytes: &[u8]) -> Result<(), AllocError> {
        self.extend_from_slice(bytes)
    }
}

/// The bytes that were sent to an output. Only contracts read them: the type has no size at run
/// time.
#[derive(Drop)]
pub struct Sent {
    pub ghost bytes: { List ℕ },
}

// A ghost field holds data only in a type that says what memory it owns: none.
impl Model for Sent {
    ghost also_owns = { λ _. ftrue };
}

impl Sent {
    /// No bytes.
    pub fn new() -> Sent
        ensures { result.bytes ≡ [] }
    {
        Sent {}
    }

    /// Appends bytes. Does nothing when it runs.
    pub fn push(&mut self, _bytes: &[u8])
        ensures { self.new.bytes ≡ self.old.bytes ++ _bytes.now }
    {}
}
