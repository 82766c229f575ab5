//! Searches where memory is refused. What a prober refuses is refused wherever these tests run. Of
//! other growths none is, unless `rt try --test --fail-alloc N` refuses the Nth, in an unproved
//! build; the tests pass then too.

use crate::circuits::{Asked, RECONVERGENT, SLOW_ARM, asked_of};
use crate::prober::Watching;
use std::alloc::{AllocError, Global};
use std::process::Abort;
use std::sync::Wait;
use std::test::*;
use std::thread::Threads;
use td_pool::worst;
use td_search::{Answer, Cause, Own, Prober, SearchFault};

/// How a search ended.
#[derive(Clone, Copy, PartialEq, Eq, Drop)]
enum End {
    Exact,
    /// Between two bounds around the worst delay, because memory ran out.
    Short,
    OutOfMemory,
    Wrong,
}

/// Whether an answer has two bounds around the worst delay, because memory ran out.
fn is_short(answer: &Result<Answer, SearchFault>, delay: u64) -> bool {
    match answer {
        Ok(
            Answer::Between {
                low,
                high,
                cause,
                ..
            },
        ) => *low <= delay && delay <= *high && *cause == Cause::Memory,
        Ok(Answer::Exact { .. }) | Err(SearchFault::NoPair | SearchFault::OutOfMemory) => false,
    }
}

/// How a search ended that has this worst delay.
fn end_of(answer: &Result<Answer, SearchFault>, delay: u64) -> End {
    match answer {
        Ok(Answer::Exact { time, .. }) if *time == delay => End::Exact,
        Err(SearchFault::OutOfMemory) => End::OutOfMemory,
        _ if is_short(answer, delay) => End::Short,
        _ => End::Wrong,
    }
}

/// How a search of these pairs by that many workers ends.
fn searched<P: Prober + Sync, R: Threads + Wait + Sync + Abort>(
    rt: &R,
    alloc: Global,
    asked: &Asked,
    prober: &P,
    workers: u32,
    delay: u64,
) -> End {
    let Asked { circuit, admit } = asked;
    assert!(rt; 0 < workers && workers <= 64);
    assert!(rt; admit.held().len() == circuit.input_count());
    end_of(
        &worst(rt, alloc, circuit, admit, prober, workers, 1_000),
        delay,
    )
}

/// Without the root's delay or bound there is no answer; any other that is refused is found in one
/// thread at the end.
#[test]
fn refused_once(rt: HostRuntime) -> Result<(), Fail> {
    let alloc = rt.alloc();
    let asked = asked_of(&rt, alloc, RECONVERGENT)?;
    for fails in 1..41 {
        for workers in 1..3 {
            let prober = Watching::new(fails, false);
            let end = searched(&rt, alloc, &asked, &prober, workers, 3);
            let wanted = if fails <= 2 {
                End::OutOfMemory
            } else {
                End::Exact
            };
            assert!(&rt; end == wanted, "{fails} of {workers} workers");
        }
    }
    Ok(())
}

/// Searches by that many workers, and again where memory was refused: whether it is exact then.
fn again<R: Threads + Wait + Sync + Abort>(
    rt: &R,
    alloc: Global,
    workers: u32,
) -> Result<bool, AllocError> {
    let asked = asked_of(rt, alloc, SLOW_ARM)?;
    let first = searched(rt, alloc, &asked, &Own, workers, 5);
    let second = searched(rt, alloc, &asked, &Own, workers, 5);
    Ok(
        first == End::Exact && second != End::Wrong
            || (first == End::OutOfMemory || first == End::Short) && second == End::Exact,
    )
}

#[test]
fn refused_and_again(rt: HostRuntime) -> Result<(), Fail> {
    for workers in 1..5 {
        let is_right = match again(&rt, rt.alloc(), workers) {
            Ok(is_right) => is_right,
            Err(_) => again(&rt, rt.alloc(), workers)?,
        };
        assert!(&rt; is_right, "{workers} workers");
    }
    Ok(())
}
