//! The search by spans beside all pairs of small circuits.

use crate::circuits::{bits_of, circuit_of, delay_by_waves, generated, vectors_of};
use std::alloc::{AllocError, Global};
use std::test::*;
use std::thread::Threads;
use td_circuit::Circuit;
use td_domain::{Admit, Cube, signals};
use td_edges::{Edges, Signal};
use td_span_search::{Admitted, Ending, FOREVER, Limits, Network, Search, Team, Times};
use td_stop::Stop;

/// A way that no pair can go along: its last gate is open only while its first one is closed.
const FALSE_WAY: &str = "module m(a, b, s, y); input a, b, s; output y; not #1 n(t, s);
and #5 g0(c, a, s); or #1 g1(d, c, b); and #7 g2(e, d, t); or #1 g3(y, e, s); endmodule";

/// A pulse of one step that the second gate swallows.
const PULSE: &str =
    "module m(a, y); input a; output y; not #1 n(b, a); and #2 g(y, a, b); endmodule";

/// What a search found: the best delay, the latest moment that is possible, and its steps.
#[derive(Clone, Copy, Debug, PartialEq, Eq, Drop)]
struct Found {
    low: u64,
    top: u64,
    steps: usize,
}

/// When a net may change, by its signal.
fn times_of(signal: &Signal) -> Times {
    match signal.changes {
        None => Times {
            early: FOREVER,
            falls: 0,
            rises: 0,
        },
        Some(span) => Times {
            early: span.earliest,
            falls: span.falls_until,
            rises: span.rises_until,
        },
    }
}

/// When the nets of a circuit may change where nothing is pinned.
pub fn all_times(alloc: Global, circuit: &Circuit) -> Result<Vec<Times>, AllocError> {
    let _few = circuit.gates();
    let cube = Cube::free(alloc, circuit.input_count())?;
    let mut times = Vec::new(alloc);
    for signal in &signals::<Edges>(alloc, circuit, &cube)? {
        times.push(times_of(signal))?;
    }
    Ok(times)
}

/// Limits of this work, with a short climb.
pub fn limits_of(work: u64) -> Limits {
    Limits {
        climb: 200,
        near: 5,
        ..Limits::of_work(work)
    }
}

/// Limits so small that each part of the schedule comes up.
fn small_limits() -> Limits {
    Limits {
        climb: 0,
        near: 2,
        effort: 3,
        split: 4,
        sweeps_from: 6,
        sweep: 3,
        dead: 3,
        ..Limits::of_work(5_000)
    }
}

/// What a search finds among all pairs with these limits.
fn found_in(alloc: Global, circuit: &Circuit, limits: Limits) -> Result<Found, AllocError> {
    let _few = circuit.gates();
    let admit = Admit::all(alloc, circuit.input_count())?;
    let network = Network::new(alloc, circuit)?;
    let admitted = Admitted::new(alloc, &network, &admit)?;
    let times = all_times(alloc, circuit)?;
    let stop = Stop::never();
    let mut search = Search::new(alloc, &network, &admitted, &times, limits, &stop)?;
    search.run()?;
    let refutation = search.refutation(search.top())?;
    Ok(Found {
        low: search.low(),
        top: search.top(),
        steps: refutation.steps.len(),
    })
}

/// What a team of this size finds among all pairs with these limits.
fn found_by<R: Threads + Sync>(
    rt: &R,
    alloc: Global,
    circuit: &Circuit,
    limits: Limits,
    size: usize,
) -> Result<(Found, Option<Ending>), AllocError> {
    let _few = circuit.gates();
    let admit = Admit::all(alloc, circuit.input_count())?;
    let network = Network::new(alloc, circuit)?;
    let admitted = Admitted::new(alloc, &network, &admit)?;
    let times = all_times(alloc, circuit)?;
    let stop = Stop::never();
    let search = Search::new(alloc, &network, &admitted, &times, limits, &stop)?;
    let mut team = Team::new(search, size)?;
    team.run(rt)?;
    let ending = team.ending();
    let mut found = Found {
        low: team.low(),
        top: team.top(),
        steps: 0,
    };
    found.steps = team.into_refutation(found.top)?.steps.len();
    Ok((found, ending))
}

/// The greatest delay of the pairs with this first vector.
fn worst_from(alloc: Global, circuit: &Circuit, before: u32) -> Result<u64, AllocError> {
    let mut worst = 0;
    for after in 0..vectors_of(circuit.input_count()) {
        let first = bits_of(alloc, before, circuit.input_count())?;
        let second = bits_of(alloc, after, circuit.input_count())?;
        worst = delay_by_waves(alloc, circuit, &first, &second)?.max(worst);
    }
    Ok(worst)
}

/// The greatest delay of all pairs.
fn worst(alloc: Global, circuit: &Circuit) -> Result<u64, AllocError> {
    let mut worst = 0;
    for before in 0..vectors_of(circuit.input_count()) {
        worst = worst_from(alloc, circuit, before)?.max(worst);
    }
    Ok(worst)
}

/// Whether searches find the greatest delay of a circuit.
fn agrees(alloc: Global, circuit: &Circuit) -> Result<bool, AllocError> {
    let wanted = worst(alloc, circuit)?;
    let usual = found_in(alloc, circuit, limits_of(10_000))?;
    let small = found_in(alloc, circuit, small_limits())?;
    Ok((usual.low, usual.top) == (wanted, wanted) && small.low <= wanted && wanted <= small.top)
}

#[test]
fn spans_beside_all_pairs(rt: HostRuntime) -> Result<(), Fail> {
    let alloc = rt.alloc();
    for seed in 0..60 {
        let circuit = generated(alloc, 1 + seed % 3, 2 + seed % 9, seed).ok_or("a circuit")?;
        assert!(rt; agrees(alloc, &circuit)?, "circuit {seed}");
    }
    Ok(())
}

#[test]
fn spans_of_a_false_way(rt: HostRuntime) -> Result<(), Fail> {
    let alloc = rt.alloc();
    let circuit = circuit_of(alloc, FALSE_WAY).ok_or("a circuit")?;
    let way = found_in(alloc, &circuit, limits_of(1_000))?;
    assert_eq!(rt; (way.low, way.top), (9, 9));
    assert!(rt; way.steps > 0);
    let circuit = circuit_of(alloc, PULSE).ok_or("a circuit")?;
    let pulse = found_in(alloc, &circuit, limits_of(1_000))?;
    assert_eq!(rt; (pulse.low, pulse.top), (0, 0));
    Ok(())
}

/// Whether teams find the greatest delay of a circuit, the same each time.
fn teams_agree<R: Threads + Sync>(
    rt: &R,
    alloc: Global,
    circuit: &Circuit,
) -> Result<bool, AllocError> {
    let wanted = worst(alloc, circuit)?;
    let limits = Limits {
        alone: 0,
        ..small_limits()
    };
    for size in 2..5 {
        let (found, ending) = found_by(rt, alloc, circuit, limits, size)?;
        let (again, _) = found_by(rt, alloc, circuit, limits, size)?;
        let is_right = found.low <= wanted && wanted <= found.top && found == again;
        if !is_right || ending == Some(Ending::Closed) && found.low != found.top {
            return Ok(false);
        }
    }
    Ok(true)
}

#[test]
fn teams_beside_all_pairs(rt: HostRuntime) -> Result<(), Fail> {
    let alloc = rt.alloc();
    for seed in 0..8 {
        let circuit = generated(alloc, 1 + seed % 3, 2 + seed % 9, seed).ok_or("a circuit")?;
        assert!(&rt; teams_agree(&rt, alloc, &circuit)?, "circuit {seed}");
    }
    Ok(())
}

#[test]
fn a_team_that_may_take_no_memory(rt: HostRuntime) -> Result<(), Fail> {
    let alloc = rt.alloc();
    let circuit = circuit_of(alloc, FALSE_WAY).ok_or("a circuit")?;
    let limits = Limits {
        words: 0,
        ..small_limits()
    };
    let (found, ending) = found_by(&rt, alloc, &circuit, limits, 2)?;
    assert_eq!(&rt; ending, Some(Ending::Memory));
    assert_eq!(&rt; (found.top, found.steps), (14, 0));
    Ok(())
}
