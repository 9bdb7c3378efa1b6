//! The tests of calls whose allocations are counted, or made to fail: the toolchain leaves a
//! program of them, which `tests/runs/library_allocations.py` runs. They call only public
//! functions. The other tests of libraries are in `tests/libraries`, and some use the fixtures of
//! this crate. A test asserts a function that answers `bool`, since each assert is proved too.
#![tactic(auto)]

#[cfg(test)]
mod allocations;
#[cfg(test)]
mod fixtures;
#[cfg(test)]
mod out_of_memory;
