//! The strategy `least`.

ghost use Rattle.std.specs.Prelude.{◌≡◌};

use crate::best::Best;
use crate::probing::Prober;
use crate::problem::Problem;
use crate::representatives::{no_bits, representative_over};
use crate::rule::Rule;
use crate::sheets::strongest_bound;
use crate::step::Step;
use std::alloc::{AllocError, Global};
use std::mem;
use td_domain::{Cube, Pair};
use td_event_sim::Interruption;
use td_lead::Timed;
use td_stop::Stop;

/// What a worker uses again: the prober's scratch, and room for the pair that it measures.
#[derive(Drop)]
pub struct Bench<S> {
    pub scratch: S,
    pub pair: Pair,
}

/// The pair that stands for each cube is measured, and each cube bounded, by a prober. A cube is
/// split at its least free position.
#[derive(Drop)]
pub struct Least<'a, P> {
    pub prober: &'a P,
}

impl<'a, P: Prober> Rule for Least<'a, P> {
    ghost use Rattle.td_search.specs.declared.strategy.Strategy.TheVariants.{Least as Strategy};

    type Scratch = Bench<P::Scratch>;

    ghost by = { Strategy };

    ghost is_for = { λ bench circuit. P.is_for bench.scratch circuit };

    fn measures_first(&self) -> bool {
        true
    }

    fn bounds_first(&self) -> bool {
        self.prober.bounds_first()
    }

    fn scratch(
        &self,
        alloc: Global,
        problem: &Problem<'_>,
    ) -> Result<Bench<P::Scratch>, AllocError> {
        Ok(Bench {
            scratch: self.prober.scratch(alloc, problem.circuit)?,
            pair: no_bits(alloc),
        })
    }

    fn climb(
        &self,
        _alloc: Global,
        _problem: &Problem<'_>,
        _bench: &mut Bench<P::Scratch>,
        _worker: u32,
        _best: &Best,
        _stop: &Stop,
    ) -> Result<Option<Timed>, AllocError> {
        Ok(None)
    }

    fn measure(
        &self,
        alloc: Global,
        problem: &Problem<'_>,
        bench: &mut Bench<P::Scratch>,
        cube: &Cube,
        stop: &Stop,
    ) -> Result<u64, Interruption> {
        // For the prover: pins have two positions for each input.
        let _pins = problem.admit.pins();
        let other = mem::replace(&mut bench.pair, no_bits(alloc));
        let pair = representative_over(cube, problem.admit, other)?;
        let time = self
            .prober
            .measure_until(&mut bench.scratch, problem.circuit, &pair, stop)?;
        bench.pair = pair;
        Ok(time)
    }

    fn strongest(
        &self,
        alloc: Global,
        problem: &Problem<'_>,
        bench: &mut Bench<P::Scratch>,
        cube: &Cube,
    ) -> Result<u64, AllocError> {
        // For the prover: pins have two positions for each input.
        let _pins = problem.admit.pins();
        let circuit = problem.circuit;
        let probe = self
            .prober
            .bound(&mut bench.scratch, alloc, circuit, cube, 0)?;
        if probe.bound > 0 {
            return Ok(probe.bound);
        }
        // A bound of 0 may be another domain's.
        strongest_bound(alloc, circuit, cube)
    }

    fn step(
        &self,
        alloc: Global,
        problem: &Problem<'_>,
        bench: &mut Bench<P::Scratch>,
        cube: &Cube,
        cut: u64,
    ) -> Result<Step, AllocError> {
        // For the prover: pins have two positions for each input.
        let _pins = problem.admit.pins();
        let circuit = problem.circuit;
        let probe = self
            .prober
            .bound(&mut bench.scratch, alloc, circuit, cube, cut)?;
        if probe.bound <= cut {
            return Ok(Step::Close(probe.by, probe.bound));
        }
        match cube.least_free() {
            Some(position) => Ok(Step::Split(position, probe.bound)),
            None => Ok(Step::Measure),
        }
    }
}
