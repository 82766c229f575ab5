//! Searches that are stopped.

ghost use Rattle.std.specs.Prelude.{◌≡◌, ◌<◌, ◌≤◌};
ghost use Rattle.td_search.specs.Sheeted.{IsScratch};

use crate::circuits::{WIDE, asked_of, doubling_text};
use std::alloc::{AllocError, Global};
use std::process::Abort;
use std::sync::Wait;
use std::sync::atomic::{AtomicU64, Ordering};
use std::test::*;
use std::thread::Threads;
use td_circuit::Circuit;
use td_domain::{Cube, Pair};
use td_pool::{Effort, Limits, Unwatched, search};
use td_search::{Answer, Cause, Own, Probe, Prober, Problem, Strategy};
use td_stop::Stop;

/// The worst delay of the circuit that most tests search.
const WORST: u64 = 3;

/// The levels of a circuit whose simulation takes millions of events, and its worst delay.
const LEVELS: u32 = 27;

const LATE: u64 = 268_435_481;

/// Passes all on, and sets a stop at the bound with this number.
#[derive(Drop)]
struct Stopping<'a> {
    stop: &'a Stop,
    turn: u64,
    bounded: AtomicU64,
}

impl<'a> Prober for Stopping<'a> {
    type Scratch = <Own as Prober>::Scratch;

    ghost is_for = { λ scratch circuit. IsScratch circuit scratch };

    fn scratch(
        &self,
        alloc: Global,
        circuit: &Circuit,
    ) -> Result<<Own as Prober>::Scratch, AllocError> {
        Own.scratch(alloc, circuit)
    }

    fn bound(
        &self,
        scratch: &mut <Own as Prober>::Scratch,
        alloc: Global,
        circuit: &Circuit,
        cube: &Cube,
        cut: u64,
    ) -> Result<Probe, AllocError> {
        if self.bounded.fetch_add(1, Ordering::SeqCst) == self.turn {
            self.stop.set();
        }
        Own.bound(scratch, alloc, circuit, cube, cut)
    }

    fn measure(
        &self,
        scratch: &mut <Own as Prober>::Scratch,
        circuit: &Circuit,
        pair: &Pair,
    ) -> Result<u64, AllocError> {
        Own.measure(scratch, circuit, pair)
    }
}

/// What lets these workers handle a million nodes, unless the stop is set.
fn limits_of(workers: u32, stop: &Stop) -> Limits<'_>
    requires some { 0 < workers }
    requires few { workers ≤ 64 }
{
    let budget = 1_000_000;
    Limits::until(Effort { workers, budget }, stop)
}

/// The lower figure of a search that its stop ended, and how many nodes it handled, where a delay
/// lies between its figures; none where it ended otherwise.
fn ended_by_stop<P: Prober + Sync, R: Threads + Wait + Sync + Abort>(
    rt: &R,
    alloc: Global,
    text: &str,
    strategy: Strategy,
    prober: &P,
    limits: Limits<'_>,
    worst: u64,
) -> Result<Option<(u64, u64)>, Fail> {
    let asked = asked_of(rt, alloc, text)?;
    let problem = Problem {
        circuit: &asked.circuit,
        admit: &asked.admit,
        strategy,
    };
    let Ok(ended) = search(rt, alloc, &problem, prober, limits, &mut Unwatched) else {
        return Err(Fail::from("no answer"));
    };
    match ended.answer {
        Answer::Between {
            low,
            high,
            nodes,
            cause: Cause::Time,
            ..
        } if low <= worst && worst <= high => Ok(Some((low, nodes))),
        _ => Ok(None),
    }
}

/// How many nodes a search handled that its stop ended, with the worst delay between its figures;
/// none where it ended otherwise.
fn stopped_after<P: Prober + Sync, R: Threads + Wait + Sync + Abort>(
    rt: &R,
    alloc: Global,
    strategy: Strategy,
    prober: &P,
    workers: u32,
    stop: &Stop,
) -> Result<Option<u64>, Fail>
    requires some { 0 < workers }
    requires few { workers ≤ 64 }
{
    let limits = limits_of(workers, stop);
    match ended_by_stop(rt, alloc, WIDE, strategy, prober, limits, WORST)? {
        Some((_, nodes)) => Ok(Some(nodes)),
        None => Ok(None),
    }
}

/// Where the stop is set at once, no node is handled.
#[test]
fn stopped_at_once(rt: HostRuntime) -> Result<(), Fail> {
    let stop = Stop::new();
    stop.set();
    for strategy in [Strategy::Least, Strategy::Lead] {
        for workers in [1, 4] {
            let nodes = stopped_after(&rt, rt.alloc(), strategy, &Own, workers, &stop)?;
            assert_eq!(&rt; nodes, Some(0), "{workers} workers");
        }
    }
    Ok(())
}

/// Where a worker sets the stop, all end, and what was found till then is known at the end.
#[test]
fn stopped_by_a_worker(rt: HostRuntime) -> Result<(), Fail> {
    for workers in [2, 4] {
        let stop = Stop::new();
        let prober = Stopping {
            stop: &stop,
            turn: 20,
            bounded: AtomicU64::new(0),
        };
        let nodes = stopped_after(&rt, rt.alloc(), Strategy::Least, &prober, workers, &stop)?;
        let some = nodes.unwrap_or(0);
        assert!(&rt; 0 < some && some < 31, "{some} nodes of {workers} workers");
    }
    Ok(())
}

/// A stop that isn't set changes nothing.
#[test]
fn not_stopped(rt: HostRuntime) -> Result<(), Fail> {
    for workers in [1, 4] {
        let stop = Stop::new();
        let nodes = stopped_after(&rt, rt.alloc(), Strategy::Least, &Own, workers, &stop)?;
        assert_eq!(&rt; nodes, None, "{workers} workers");
    }
    Ok(())
}

/// Where the stop is set before the pair that stands for the pins is measured, a pair that stays
/// takes its place: the search answers a delay of 0 and a bound.
#[test]
fn stopped_in_a_simulation(rt: HostRuntime) -> Result<(), Fail> {
    let stop = Stop::new();
    stop.set();
    let text = doubling_text(rt.alloc(), LEVELS)?;
    for strategy in [Strategy::Least, Strategy::Lead] {
        for workers in [1, 4] {
            let limits = limits_of(workers, &stop);
            let found = ended_by_stop(&rt, rt.alloc(), &text, strategy, &Own, limits, LATE)?;
            assert_eq!(&rt; found, Some((0, 0)), "{workers} workers");
        }
    }
    Ok(())
}
