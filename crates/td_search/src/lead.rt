//! The strategy `lead`.

ghost use Rattle.std.specs.Prelude.{IfOk};
ghost use Rattle.td_domain.specs.Admits.{IsAdmitted};

use crate::best::Best;
use crate::leading::{edges_bound, next_step, strongest_with_edges};
use crate::measuring::{measure, timed};
use crate::problem::Problem;
use crate::rule::Rule;
use crate::scratch::Scratch;
use crate::step::Step;
use std::alloc::{AllocError, Global};
use td_climb::{Climb, tries_for};
use td_domain::{Cube, Pair};
use td_event_sim::Interruption;
use td_lead::Timed;
use td_stop::Stop;

/// The first worker climbs by lanes before its first node. Each cube is bounded by edges and
/// possible levels, points are measured, and a cube is split where the most nets on the way to its
/// latest output change with the bit.
#[derive(Clone, Copy, Debug, Drop)]
pub struct Lead;

/// The seed of a climb.
const SEED: u64 = 1;

// The admitted pair to which a climb leads from another one. Out of memory, and once the stop is
// set, a climb ends where it stands.
fn climbed(
    alloc: Global,
    problem: &Problem<'_>,
    start: Pair,
    enough: u64,
    stop: &Stop,
) -> Result<Pair, AllocError>
    requires { IsAdmitted problem.now.admit.now start }
    ensures { IfOk result (IsAdmitted problem.now.admit.now) }
{
    let Problem { circuit, admit, .. } = problem;
    let mut climb = Climb::new(alloc, circuit, admit, start, SEED)?;
    let _useful = climb.go_on(circuit, admit, tries_for(circuit), enough, stop);
    Ok(climb.into_pair())
}

impl Rule for Lead {
    ghost use Rattle.td_search.specs.Sheeted.{IsScratch};
    ghost use Rattle.td_search.specs.declared.strategy.Strategy.TheVariants.{Lead as Strategy};

    type Scratch = Scratch;

    ghost by = { Strategy };

    ghost is_for = { λ scratch circuit. IsScratch circuit scratch };

    fn measures_first(&self) -> bool {
        false
    }

    fn bounds_first(&self) -> bool {
        true
    }

    fn scratch(&self, alloc: Global, problem: &Problem<'_>) -> Result<Scratch, AllocError> {
        // For the prover: pins have two positions for each input.
        let _pins = problem.admit.pins();
        Scratch::new(alloc, problem.circuit, problem.admit.pins())
    }

    fn climb(
        &self,
        alloc: Global,
        problem: &Problem<'_>,
        scratch: &mut Scratch,
        worker: u32,
        best: &Best,
        stop: &Stop,
    ) -> Result<Option<Timed>, AllocError> {
        if worker > 0 {
            return Ok(None);
        }
        let pins = problem.admit.pins();
        let enough = edges_bound(alloc, scratch, problem.circuit, pins)?;
        if best.time() >= enough {
            return Ok(None);
        }
        let start = best.timed(alloc)?.pair;
        let pair = climbed(alloc, problem, start, enough, stop)?;
        timed(&mut scratch.events, problem, pair, stop)
    }

    fn measure(
        &self,
        alloc: Global,
        problem: &Problem<'_>,
        scratch: &mut Scratch,
        cube: &Cube,
        stop: &Stop,
    ) -> Result<u64, Interruption> {
        measure(
            alloc,
            &mut scratch.events,
            &mut scratch.pair,
            problem,
            cube,
            stop,
        )
    }

    fn strongest(
        &self,
        alloc: Global,
        problem: &Problem<'_>,
        scratch: &mut Scratch,
        cube: &Cube,
    ) -> Result<u64, AllocError> {
        // For the prover: pins have two positions for each input.
        let _pins = problem.admit.pins();
        strongest_with_edges(alloc, scratch, problem.circuit, cube)
    }

    fn step(
        &self,
        alloc: Global,
        problem: &Problem<'_>,
        scratch: &mut Scratch,
        cube: &Cube,
        cut: u64,
    ) -> Result<Step, AllocError> {
        // For the prover: pins have two positions for each input.
        let _pins = problem.admit.pins();
        next_step(alloc, scratch, problem.circuit, cube, cut)
    }
}
