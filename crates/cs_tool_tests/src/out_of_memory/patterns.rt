// Trees, programs, matchers and queries of patterns.
use crate::out_of_memory::{Outcome, at_most_one_fails};
use cs_match::{Matcher, Program};
use cs_syntax::{CharSet, Pattern, PatternError, PatternFault, parse};
use cs_trigram::{Query, query};
use std::alloc::{AllocError, Global};
use std::test::Fail;

/// Whether the matching lines are the usual ones.
fn has_matches(alloc: Global, pattern: &Pattern) -> Result<bool, AllocError> {
    let program = Program::compile(alloc, pattern)?;
    let mut matcher = Matcher::new(alloc, &program)?;
    Ok(matcher.is_match(b"in hello") && !matcher.is_match(b"hell") && matcher.is_match(b"abx12y"))
}

/// Whether the pattern requires one of two sets of trigrams.
fn requires_either(alloc: Global, pattern: &Pattern) -> Result<bool, AllocError> {
    match query(alloc, pattern)? {
        Query::Or(members) => Ok(members.len() == 2),
        _ => Ok(false),
    }
}

/// Whether a character set and its complement are made as usual.
fn complements(alloc: Global) -> Result<bool, AllocError> {
    let set = CharSet::from_ranges(alloc, &[(0xE000, 0xE010), (0x61, 0x7A)])?;
    let others = set.complement(alloc)?;
    Ok(set.runs().len() == 2 && others.runs().len() == 3)
}

fn read(alloc: Global, has_query: bool) -> Outcome {
    match parse(alloc, "hel+o$|(ab|cd)x[0-9]{2}y*", false) {
        Ok(pattern) if has_query => Outcome::of_answer(requires_either(alloc, &pattern)),
        Ok(pattern) => Outcome::of_answer(has_matches(alloc, &pattern)),
        Err(error) => Outcome::rejected_pattern(error, PatternFault::Memory),
    }
}

fn read_to_its_fault(alloc: Global) -> Outcome {
    match parse(alloc, "a(b|c{2}", false) {
        Ok(_) => Outcome::Wrong,
        Err(error) => Outcome::rejected_pattern(error, PatternFault::OpenGroup),
    }
}

impl Outcome {
    /// The outcome of a pattern: an allocation failure, or its error.
    fn rejected_pattern(error: PatternError, fault: PatternFault) -> Outcome {
        if error.fault == PatternFault::Memory {
            Outcome::OutOfMemory
        } else {
            Outcome::of(error.fault == fault)
        }
    }
}

#[test]
fn lines_are_found(rt: HostRuntime) -> Result<(), Fail> {
    let alloc = rt.alloc();
    at_most_one_fails(&rt, &[read(alloc, false), read(alloc, false)])
}

#[test]
fn queries_are_answered(rt: HostRuntime) -> Result<(), Fail> {
    let alloc = rt.alloc();
    at_most_one_fails(&rt, &[read(alloc, true), read(alloc, true)])
}

#[test]
fn faults_are_reported(rt: HostRuntime) -> Result<(), Fail> {
    let alloc = rt.alloc();
    at_most_one_fails(&rt, &[read_to_its_fault(alloc), read_to_its_fault(alloc)])
}

#[test]
fn characters_are_complemented(rt: HostRuntime) -> Result<(), Fail> {
    let alloc = rt.alloc();
    let calls = [
        Outcome::of_answer(complements(alloc)),
        Outcome::of_answer(complements(alloc)),
    ];
    at_most_one_fails(&rt, &calls)
}
