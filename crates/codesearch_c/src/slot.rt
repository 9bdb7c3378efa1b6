// Slots: memory of the caller in C that owns nothing, or a box of a pattern or a builder. The
// caller keeps the two fields as a call left them.
ghost use Rattle.std.specs.Prelude.{◌≡◌, Option, Some, None, IsSome, IfSome, IfNone, MatchOption};
ghost use Rattle.codesearch_c.specs.declared.slot.Held.{Held};
ghost use Rattle.codesearch_c.specs.Slots.{slot_code, is_filled};

mod parts;

use cs_index::Builder;
use cs_match::{Cache, Pass, Program};
use cs_syntax::Pattern;
use cs_trigram::{Query, Scanner};
use parts::Parts;
use std::alloc::Global;
use std::marker::Model;
use std::mem::replace;
use std::ptr::null_mut;

/// A pointer to what a slot holds, or null.
#[repr(C)]
#[derive(Drop)]
pub struct Handle {
    at: *mut u8,
    alloc: Global,
    pub ghost value: { Option Held } by { slot_code },
}

impl Model for Handle {
    ghost use Rattle.codesearch_c.specs.Slots.{holds};

    ghost also_owns = { λ h. holds h.alloc h.at h.value };
}

// A caller may pass a slot from thread to thread, as a box of what it holds.
unsafe impl Send for Handle {}

impl Handle {
    fn none(alloc: Global) -> Handle
        ensures { result.value ≡ None }
    {
        Handle {
            at: null_mut(),
            alloc,
        }
    }

    fn of(parts: Parts<Held, Global>) -> Handle
        ensures { result.value ≡ Some parts.value }
    {
        let Parts { ptr, alloc } = parts;
        Handle {
            at: ptr as *mut u8,
            alloc,
        }
    }

    fn into_parts(self) -> Parts<Held, Global>
        requires { IsSome self.value }
        ensures { Some result.value ≡ self.value }
    {
        let Handle { at, alloc } = self;
        Parts {
            ptr: at as *mut Held,
            alloc,
        }
    }
}

/// A slot: `cs_pattern`, `cs_builder` or `cs_bytes` of the header.
#[repr(C)]
#[derive(Drop)]
pub struct Slot {
    pub handle: Handle,
    pub filled: bool,
    ghost tells: { filled ≡ is_filled handle.value },
}

impl Slot {
    /// Whether it holds something.
    pub(crate) fn is_filled(&self) -> bool
        ensures { result ≡ is_filled self.now.handle.value }
    {
        self.filled
    }

    /// Fills an empty slot.
    pub(crate) fn fill(&mut self, held: Box<Held>)
        ensures { self.new.handle.value ≡ Some held.value }
    {
        *self = Slot {
            handle: Handle::of(Parts::of(held)),
            filled: true,
        };
    }

    /// Empties the slot, if it holds something.
    pub(crate) fn take(&mut self, alloc: Global) -> Option<Box<Held>>
        ensures taken { MatchOption result (self.old.handle.value ≡ None)
            (λ held. Some held.value ≡ self.old.handle.value) }
        ensures empty { self.new.handle.value ≡ None }
    {
        if !self.filled {
            return None;
        }
        let empty = Slot {
            handle: Handle::none(alloc),
            filled: false,
        };
        let Slot { handle, filled: _ } = replace(self, empty);
        Some(handle.into_parts().into_box())
    }
}

/// A pattern, its query and its program. The cache is that of the last matcher; it is made at the
/// first match. The pass is the memory of a finder, made with the program; only a call takes it
/// out. Contracts see the pattern and the query.
pub struct HeldPattern {
    pub(crate) pattern: Pattern,
    pub(crate) query: Query,
    pub(crate) program: Program,
    pub(crate) cache: Option<Cache>,
    pub(crate) pass: Option<Pass>,
}

// A body that owns a held pattern or builder drops it by a call. A derived `drop` would stand there
// with each field.
impl Drop for HeldPattern {
    fn drop(self) {
        let HeldPattern {
            pattern: _pattern,
            query: _query,
            program: _program,
            cache: _cache,
            pass: _pass,
        } = self;
    }
}

impl Model for HeldPattern {
    ghost use Rattle.codesearch_c.specs.Compiled.{Compiled, compiled_code};

    ghost Value = { Compiled };

    ghost coded = { compiled_code };

    ghost use Rattle.std.specs.Prelude.{IfSome, false};
    ghost use Rattle.cs_match.specs.Cached.{IsCacheOf};
    ghost use Rattle.cs_match.specs.SameLines.{MatchSameLines};
    ghost use Rattle.cs_trigram.specs.QueryOf.{IsQueryOf};
    ghost use Rattle.codesearch_c.specs.FindsSpans.{FindsSpans};

    ghost view = { λ held. record { pattern = held.pattern; query = held.query } };

    ghost invariant = { λ held. MatchSameLines held.program held.pattern
        × IsQueryOf false held.pattern held.query × IfSome held.cache (IsCacheOf held.program)
        × FindsSpans held.program held.pattern held.pass };
}

/// An index under construction, and the scanner of its texts.
pub struct HeldBuilder {
    pub(crate) builder: Builder,
    pub(crate) scanner: Scanner,
}

impl HeldBuilder {
    pub(crate) fn into_builder(self) -> Builder
        ensures { result ≡ self.builder }
    {
        let HeldBuilder {
            builder,
            scanner: _scanner,
        } = self;
        builder
    }
}

impl Drop for HeldBuilder {
    fn drop(self) {
        let HeldBuilder {
            builder: _builder,
            scanner: _scanner,
        } = self;
    }
}

/// What a slot holds.
#[derive(Drop)]
pub enum Held {
    Pattern(HeldPattern),
    Builder(HeldBuilder),
    Bytes(Vec<u8>),
}
