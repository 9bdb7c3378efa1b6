//! The library for callers in C and Rust (`include/codesearch.h`). An index is bytes of the
//! caller's own; a pattern, a builder and bytes that the library made are held in slots of the
//! caller's own. Each export calls functions of the crates below, and states in their words what it
//! answers and leaves. Read `specs/Slots.antt` first, then `specs/Codes.antt`, `specs/Copies.antt`,
//! `specs/MatchingLines.antt`, `specs/Patterns.antt`, `specs/Budgets.antt`, `specs/Spans.antt`,
//! `specs/Reports.antt`, `specs/Building.antt` and `specs/Merging.antt`.
//!
//! An index is bytes of the caller, opened anew in constant time by each call (`Index::reopen`),
//! whose contract requires that they have opened before; only a merge, which reads all of both
//! indexes, opens any bytes. Patterns, builders and bytes that the library made are in *slots*:
//! memory of the caller with a pointer and a flag. A `Slot` wraps a `Handle`, whose ghost field is
//! the optional value that it owns, and the flag says whether there is one, so that each call
//! answers a slot that is used wrongly. A handle is made from the parts of a box and taken apart
//! into them; these five functions reach raw pointers and are proved by hand, and no other function
//! of the crate is. All slots hold one enum, `Held`, so there is one kind of handle. A held pattern
//! keeps the `Cache` of its matcher from one call to the next: `Matcher::resume` and
//! `Matcher::into_cache` of `cs_match` divide a matcher into what borrows its program and what does
//! not (as `Cache` of Rust's regex-automata).
//!
//! What the toolchain refuses at an export, with the smallest example of each:
//!
//! ```text
//! pub extern "C" fn f(v: &Vec<u8>) {}                    a Vec does not cross to C
//! #[repr(C)] pub struct S { v: Vec<u8> }                 nor does a pointer to what holds one
//! pub extern "C" fn f(s: &S) {}                           so slots own through a raw pointer
//! pub extern "C" fn f(p: *mut u8) -> *mut u8 { p }       an export returns no raw pointer
//! pub extern "C" fn f(g: fn(u8) -> u8) {}                nor takes a function: no callbacks
//! pub extern "C" fn f(s: &str) {}                        text is `&[u8]`, tested in the export
//! pub extern "C" fn f<T>(t: &T) {}                       exports are not generic
//! enum E { A } pub extern "C" fn f(e: E) {}              nor take an enum: codes are numbers
//! low: codesearch_c                                      no crate depends on a static library
//! match *boxed { Held::Bytes(bytes) => .. }              a box gives its whole value alone
//! ```
#![tactic(auto)]

mod codes;
mod indexing;
mod lines;
mod matching;
mod merging;
mod reports;
mod slot;
mod spans;
mod within;
