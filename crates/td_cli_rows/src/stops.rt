//! Runs that a file or the clock ends.

use crate::answers::{ROOM, TWO};
use std::alloc::Global;
use std::io;
use std::sync::Wait;
use std::test::*;
use std::thread::Threads;
use std::time::{Clock, Duration};
use td_cli::{Advice, NoAdvice, System, program};
use td_files::MemoryFiles;
use td_text::MemorySink;

/// The netlist that is searched.
const FILES: [(&str, &[u8]); 1] = [("two.v", TWO)];

/// A name under which a folder is there on each machine, and one under which nothing is.
const THERE: &str = "/";

const ABSENT: &str = "/there/is/no/such/file";

/// What is answered where nothing ends the search.
const EXACT: &[u8] = b"unit 1 ns\ndefaulted 0\nexact 5\nfrom 01\nto 00\nnodes 9\n";

/// A runtime whose clock can't be read.
#[derive(Drop)]
struct NoClock<R> {
    rt: R,
}

impl<R: Threads> Threads for NoClock<R> {}

impl<R: Wait> Wait for NoClock<R> {}

impl<R> Clock for NoClock<R> {
    fn monotonic(&self) -> io::Result<Duration> {
        Err(io::ErrorKind::Other.into())
    }

    fn since_1970(&self) -> io::Result<Duration> {
        self.monotonic()
    }
}

/// Whether the program ends with this status, and prints this, to standard output and to standard
/// error.
fn says<R: Threads + Wait + Clock + Sync, A: Advice + Sync>(
    rt: &R,
    alloc: Global,
    words: &[&str],
    advice: &A,
    code: u8,
    said: &[u8],
    told: &[u8],
) -> Result<bool, Fail> {
    let mut files = MemoryFiles::new(alloc, &FILES);
    let mut out = MemorySink::new(alloc, ROOM, 7)?;
    let mut err = MemorySink::new(alloc, ROOM, 7)?;
    let status = program(rt, alloc, words, &mut files, &mut out, &mut err, advice);
    Ok(status.code() == code && out.bytes() == said && err.bytes() == told)
}

/// A file that is there ends a search, and one that isn't doesn't.
#[test]
fn file_ends_a_search(rt: HostRuntime) -> Result<(), Fail> {
    let alloc = rt.alloc();
    let open = b"unit 1 ns\ndefaulted 0\nbetween 3 5\ncause stop\nfrom 00\nto 11\nnodes 0\n";
    let there = ["tdelay", "worst", "two.v", "--stop", THERE];
    let absent = ["tdelay", "worst", "two.v", "--stop", ABSENT];
    let without = ["tdelay", "worst", "two.v"];
    let system = System::new(&rt, false);
    assert!(rt; says(&rt, alloc, &there, &system, 3, open, b"")?);
    assert!(rt; says(&rt, alloc, &absent, &system, 0, EXACT, b"")?);
    assert!(rt; says(&rt, alloc, &without, &system, 0, EXACT, b"")?);
    Ok(())
}

/// Seconds that have passed end a search, and ample ones don't.
#[test]
fn clock_ends_a_search(rt: HostRuntime) -> Result<(), Fail> {
    let alloc = rt.alloc();
    let open = b"unit 1 ns\ndefaulted 0\nbetween 3 5\ncause time\nfrom 00\nto 11\nnodes 0\n";
    let none = ["tdelay", "worst", "two.v", "--seconds", "0"];
    let ample = ["tdelay", "worst", "two.v", "--seconds", "1000"];
    assert!(rt; says(&rt, alloc, &none, &NoAdvice, 3, open, b"")?);
    assert!(rt; says(&rt, alloc, &ample, &NoAdvice, 0, EXACT, b"")?);
    Ok(())
}

/// Without a system no file is seen.
#[test]
fn run_sees_no_file(rt: HostRuntime) -> Result<(), Fail> {
    let words = ["tdelay", "worst", "two.v", "--stop", THERE];
    assert!(rt; says(&rt, rt.alloc(), &words, &NoAdvice, 0, EXACT, b"")?);
    Ok(())
}

/// A search isn't begun without the clock that is to end it.
#[test]
fn no_clock(rt: HostRuntime) -> Result<(), Fail> {
    let alloc = rt.alloc();
    let without = NoClock { rt };
    let timed = ["tdelay", "worst", "two.v", "--seconds", "10"];
    let refused = says(
        &without,
        alloc,
        &timed,
        &NoAdvice,
        5,
        b"",
        b"tdelay: no timer\n",
    )?;
    let plain = ["tdelay", "worst", "two.v"];
    let answered = says(&without, alloc, &plain, &NoAdvice, 0, EXACT, b"")?;
    let NoClock { rt } = without;
    assert!(rt; refused && answered);
    Ok(())
}
