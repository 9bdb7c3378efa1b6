// Calls that allocate, each made more than once. `tests/runs/library_allocations.py` runs each test
// with its Nth allocation failing, N = 1, 2, .., until none fails: one call then returns an error,
// and the others give their usual answers.
use std::alloc::AllocError;
use std::process::Abort;
use std::test::Fail;

mod indexes;
mod patterns;
mod scans;
mod sources;
mod tools;

/// The outcome of a call.
#[derive(Clone, Copy, Drop)]
enum Outcome {
    Usual,
    OutOfMemory,
    Wrong,
}

impl Outcome {
    /// The outcome of an answer that is right or wrong.
    fn of(is_usual: bool) -> Outcome {
        if is_usual {
            Outcome::Usual
        } else {
            Outcome::Wrong
        }
    }

    /// The same, if an allocation may have failed.
    fn of_answer(answer: Result<bool, AllocError>) -> Outcome {
        match answer {
            Ok(is_usual) => Outcome::of(is_usual),
            Err(AllocError) => Outcome::OutOfMemory,
        }
    }
}

/// All calls gave their usual answers, except at most one, which ran out of memory.
fn at_most_one_fails(rt: &impl Abort, calls: &[Outcome]) -> Result<(), Fail> {
    let mut failed = 0u32;
    let mut wrong = 0u32;
    for outcome in calls {
        match outcome {
            Outcome::Usual => {}
            Outcome::OutOfMemory => failed = failed.saturating_add(1),
            Outcome::Wrong => wrong = wrong.saturating_add(1),
        }
    }
    assert!(rt; wrong == 0 && failed < 2, "{wrong} wrong, {failed} failed");
    if failed > 0 {
        return Err(Fail::new("Memory"));
    }
    Ok(())
}
