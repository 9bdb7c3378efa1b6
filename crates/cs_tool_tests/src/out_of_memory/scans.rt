// Scans of files, and the arguments and lines of the tools.
use crate::fixtures::args_of;
use crate::out_of_memory::{Outcome, at_most_one_fails};
use cs_args::{
    FileFault, Job, Refusal, Tool, ToolFault, WordFault, fault_line, message, read_words, skip_line,
};
use cs_tree::MemSource;
use cs_trigram::{Reason, Scan, ScanFault, Scanner};
use std::alloc::{AllocError, Global};
use std::test::Fail;

fn scanned(scanner: &mut Scanner, text: &[u8]) -> Outcome {
    match scanner.scan(&mut MemSource::new(text, 2, false)) {
        Ok(Scan::Text { trigrams, .. }) => Outcome::of(
            trigrams.as_slice() == [0x616263, 0x626364].as_slice(),
        ),
        Ok(Scan::Skip(reason)) => Outcome::of(reason == Reason::Nul),
        Err(ScanFault::Memory) => Outcome::OutOfMemory,
        Err(ScanFault::Read) => Outcome::Wrong,
    }
}

fn gathered(scanner: &mut Scanner) -> Outcome {
    match scanner.gather(&mut MemSource::new(b"bcda", 2, false)) {
        Ok(Scan::Text { trigrams, .. }) => Outcome::of(trigrams == [0x626364, 0x636461].as_slice()),
        Ok(Scan::Skip(_)) => Outcome::Wrong,
        Err(ScanFault::Memory) => Outcome::OutOfMemory,
        Err(ScanFault::Read) => Outcome::Wrong,
    }
}

fn scanned_twice(alloc: Global) -> Result<[Outcome; 6], AllocError> {
    let mut scanner = Scanner::new(alloc)?;
    Ok([
        scanned(&mut scanner, b"abcd"),
        scanned(&mut scanner, b"xyz\0"),
        gathered(&mut scanner),
        scanned(&mut scanner, b"abcd"),
        scanned(&mut scanner, b"xyz\0"),
        gathered(&mut scanner),
    ])
}

/// After a failed scan a scanner works as a new one does.
#[test]
fn scanners(rt: HostRuntime) -> Result<(), Fail> {
    let came = scanned_twice(rt.alloc())?;
    at_most_one_fails(&rt, &came)
}

/// The outcome of reading the arguments.
fn args_are_read(alloc: Global, tool: Tool, text: &str) -> Outcome {
    let Ok(args) = args_of(alloc, text, ' ') else {
        return Outcome::OutOfMemory;
    };
    match read_words(alloc, tool, "/w", &args) {
        Ok(Job::Grep(job)) => Outcome::of(job.pattern.as_str() == "x" && job.files.len() == 2),
        Ok(Job::Search(job)) => Outcome::of(job.pattern.as_str() == "x" && job.file.is_some()),
        Ok(Job::Index(job)) => Outcome::of(job.cwd.as_str() == "/w" && job.paths.len() == 2),
        Err(WordFault::Memory) => Outcome::OutOfMemory,
        Err(fault) => Outcome::of(fault == WordFault::UnknownOption(1)),
    }
}

#[test]
fn args(rt: HostRuntime) -> Result<(), Fail> {
    for (tool, text) in [
        (Tool::Cgrep, "-n x p q"),
        (Tool::Csearch, "-f p x"),
        (Tool::Cindex, "-reset p q"),
        (Tool::Cgrep, "-n -q x"),
    ] {
        let first = args_are_read(rt.alloc(), tool, text);
        let second = args_are_read(rt.alloc(), tool, text);
        at_most_one_fails(&rt, &[first, second])?;
    }
    Ok(())
}

/// The outcome of making a line.
fn came(line: Result<String, AllocError>, want: &str) -> Outcome {
    match line {
        Ok(line) => Outcome::of(line.as_str() == want),
        Err(AllocError) => Outcome::OutOfMemory,
    }
}

fn refusal_reported(alloc: Global) -> Outcome {
    let refusal = Refusal::Tool(ToolFault::NoIndex);
    let line = message(alloc, Tool::Csearch, &refusal, "");
    came(line, "csearch: no index\n")
}

fn fault_reported(alloc: Global) -> Outcome {
    let line = fault_line(alloc, Tool::Cgrep, "/v", FileFault::Missing);
    came(line, "cgrep: /v: no such file\n")
}

fn skip_reported(alloc: Global) -> Outcome {
    let line = skip_line(alloc, "/s/n", Reason::Nul);
    came(line, "cindex: /s/n: not indexed: NUL byte\n")
}

#[test]
fn lines(rt: HostRuntime) -> Result<(), Fail> {
    let alloc = rt.alloc();
    let calls = [
        refusal_reported(alloc),
        refusal_reported(alloc),
        fault_reported(alloc),
        fault_reported(alloc),
        skip_reported(alloc),
        skip_reported(alloc),
    ];
    at_most_one_fails(&rt, &calls)
}
