//! One strategy: what a search does with a node of its tree.

ghost use Rattle.std.specs.Prelude.{◌≡◌, ◌*◌, ◌<◌, ◌^◌, length, IfOk, IfSome};
ghost use Rattle.td_circuit.specs.Numbering.{Numbered, setting};
ghost use Rattle.td_domain.specs.Admits.{HasAdmitted};
ghost use Rattle.td_lead.specs.Timed.{IsTimed};
ghost use Rattle.td_search.specs.Below.{IsWithin};
ghost use Rattle.td_search.specs.Deciding.{IsMeasured, IsStep};
ghost use Rattle.td_search.specs.Problems.{problem_of, has_bound, has_delay, measures_first};
ghost use Rattle.td_search.specs.Representatives.{representative};
ghost use Rattle.td_search.specs.declared.strategy.Strategy.{Strategy};

use crate::best::Best;
use crate::problem::Problem;
use crate::step::Step;
use std::alloc::{AllocError, Global};
use td_domain::Cube;
use td_event_sim::Interruption;
use td_lead::Timed;
use td_stop::Stop;

/// One strategy, for any number of workers at a time: how a worker begins, and what it does with a
/// node of the tree. What it answers is true of the problem. Where memory runs out, the error is
/// `AllocError`, and the scratch may be used again.
pub trait Rule {
    /// What a worker uses again for each node.
    type Scratch: Drop + Send;

    /// The strategy.
    ghost by: { Strategy };

    /// The scratch was made for this circuit.
    ghost is_for: { Self.Scratch → Numbered → Type 0 };

    /// Whether the pair that stands for a node is measured before its cube is split.
    fn measures_first(&self) -> bool
        ensures { result ≡ measures_first by };

    /// Whether a rule that measures first asks for a bound before that, so that a cube which that
    /// closes isn't measured.
    fn bounds_first(&self) -> bool;

    /// A scratch for the problem's circuit.
    fn scratch(&self, alloc: Global, problem: &Problem<'_>) -> Result<Self::Scratch, AllocError>
        ensures { IfOk result (λ scratch. is_for scratch problem.now.circuit.now) };

    /// The pair to which a worker of this number climbs from the best one, before its first node
    /// and until the stop is set, if the strategy climbs.
    fn climb(
        &self,
        alloc: Global,
        problem: &Problem<'_>,
        scratch: &mut Self::Scratch,
        worker: u32,
        best: &Best,
        stop: &Stop,
    ) -> Result<Option<Timed>, AllocError>
        requires scratch { is_for scratch.old problem.now.circuit.now }
        requires best { has_delay (problem_of problem.now) best.now.pair best.now.time }
        ensures timed { IfOk result (λ answer. IfSome answer (IsTimed (setting problem.now.circuit.now) problem.now.admit.now)) }
        ensures scratch { is_for scratch.new problem.now.circuit.now };

    /// The delay of the pair that stands for a cube, in steps, unless the stop is set before a long
    /// simulation has come to its end.
    fn measure(
        &self,
        alloc: Global,
        problem: &Problem<'_>,
        scratch: &mut Self::Scratch,
        cube: &Cube,
        stop: &Stop,
    ) -> Result<u64, Interruption>
        requires scratch { is_for scratch.old problem.now.circuit.now }
        requires within { IsWithin (problem_of problem.now) cube.now }
        requires any { HasAdmitted problem.now.admit.now cube.now }
        ensures measured { IfOk result (IsMeasured (problem_of problem.now) (representative problem.now.admit.now cube.now)) }
        ensures scratch { is_for scratch.new problem.now.circuit.now };

    /// The strongest domain's bound of a cube, in steps.
    fn strongest(
        &self,
        alloc: Global,
        problem: &Problem<'_>,
        scratch: &mut Self::Scratch,
        cube: &Cube,
    ) -> Result<u64, AllocError>
        requires by { by ≡ problem.now.strategy }
        requires scratch { is_for scratch.old problem.now.circuit.now }
        requires positions { length cube.now ≡ 2 * length problem.now.circuit.now.netlist.inputs }
        ensures bound { IfOk result (has_bound (problem_of problem.now) cube.now) }
        ensures small { IfOk result (λ bound. bound < 10 ^ 15) }
        ensures scratch { is_for scratch.new problem.now.circuit.now };

    /// What is to be done with a cube under a cut: it is closed where a domain that the strategy
    /// asks has a bound that is at most the cut. Else it is split, or measured where nothing is
    /// free in it.
    fn step(
        &self,
        alloc: Global,
        problem: &Problem<'_>,
        scratch: &mut Self::Scratch,
        cube: &Cube,
        cut: u64,
    ) -> Result<Step, AllocError>
        requires scratch { is_for scratch.old problem.now.circuit.now }
        requires positions { length cube.now ≡ 2 * length problem.now.circuit.now.netlist.inputs }
        ensures step { IfOk result (IsStep by (setting problem.now.circuit.now) cube.now cut) }
        ensures scratch { is_for scratch.new problem.now.circuit.now };
}
