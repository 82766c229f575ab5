//! The search for the worst delay of the pairs that keep conditions.

ghost use Rattle.std.specs.Prelude.{◌≡◌, ◌+◌, ◌*◌, ◌<◌, ◌≤◌, ◌^◌, ℕ, true, length, Some, IfOk, IfErr};
ghost use Rattle.td_circuit.specs.Numbering.{setting};
ghost use Rattle.td_domain.specs.Bounds.{IsUpperBoundIn};
ghost use Rattle.td_certificate.specs.Accepts.{are_fit, IsBoundBy};
ghost use Rattle.td_certificate.specs.declared.tree.BoundedBy.TheVariants as domain;
ghost use Rattle.td_search.specs.declared.strategy.Strategy.TheVariants as strategy;
ghost use Rattle.td_search.specs.Answers.{IsSearchFault};
ghost use Rattle.td_search.specs.Problems.{problem_by};
ghost use Rattle.td_worst.specs.Kept.{IsKeptAnswer, IsKeptWithinEdges, KeptTimeNeedsStop, asking_in};

use crate::kept_answer::{KeptAnswer, KeptFound, Known};
use crate::question::KeptQuestion;
use crate::refuting::{cause_of, words_of};
use std::alloc::{AllocError, Global};
use std::thread::Threads;
use td_circuit::Circuit;
use td_domain::{Cube, bound};
use td_edges::Edges;
use td_pool::Limits;
use td_refute::{Answered, Effort, refute_keeping};
use td_search::{Cause, SearchFault, strongest_bound};

/// Searches for the worst delay of the admitted pairs of a circuit that keep conditions, by spans.
/// The pairs are of the circuit's inputs, and the conditions are in a certificate's order, on nets
/// of the circuit. Where a moment is required, the search ends once a pair is later, or none can
/// be. It ends after as many units of work as the budget of the effort says, or once the stop is
/// set, and the answer says what is known by then.
///
/// # Errors
///
/// `NoPair` where no pair is admitted, whatever it keeps. `OutOfMemory` where memory ran out before
/// the pins were bounded.
pub fn worst_kept<R: Threads + Sync>(
    rt: &R,
    alloc: Global,
    question: KeptQuestion<'_>,
    limits: Limits<'_>,
) -> Result<KeptFound, SearchFault>
    requires held { length question.admit.now.held ≡ length question.circuit.now.netlist.inputs }
    requires fit { are_fit (2 + length question.circuit.now.netlist.inputs + length question.circuit.now.netlist.gates) question.keep.now ≡ true }
    ensures answer { IfOk result (λ found. IsKeptAnswer (setting question.entry.circuit.now) (asking_in question.entry) found.answer) }
    ensures edges { IfOk result (λ found. IsKeptWithinEdges (setting question.entry.circuit.now) question.entry.admit.now found.answer) }
    // Time is a cause only where the stop can be set.
    ensures time { IfOk result (λ found. KeptTimeNeedsStop limits.entry.stop.now.can_be_set found.answer) }
    ensures fault { IfErr result (IsSearchFault (problem_by strategy.Lead question.entry.circuit.now question.entry.admit.now)) }
{
    let KeptQuestion {
        circuit,
        admit,
        keep,
        required,
    } = question;
    // For the prover: the circuit's sizes.
    let _gates = circuit.gates();
    let _moments = circuit.moments();
    let pins = admit.pins();
    if !admit.any(pins) {
        return Err(SearchFault::NoPair);
    }
    let high = free_bound(alloc, circuit, pins)?;
    let Limits {
        effort,
        stop,
        memory,
    } = limits;
    if effort.budget == 0 {
        let cause = Cause::Budget;
        let answer = KeptAnswer::Open { high, cause };
        return Ok(KeptFound { answer, work: 0 });
    }
    let mut further = Effort::until(stop);
    further.work = effort.budget;
    further.workers = effort.workers;
    further.words = words_of(memory);
    further.required = required;
    match refute_keeping(rt, alloc, circuit, admit, keep, further) {
        Ok(answered) => {
            let Answered {
                best,
                evidence,
                ending,
                work,
            } = answered;
            let cause = cause_of(ending, stop);
            let known = Known { best, high, cause };
            let answer = known.shown(alloc, keep, evidence);
            Ok(KeptFound { answer, work })
        }
        Err(_) => {
            let cause = Cause::Memory;
            let answer = KeptAnswer::Open { high, cause };
            Ok(KeptFound { answer, work: 0 })
        }
    }
}

/// A bound of the delays of a cube's pairs, in steps: the lesser of what edges and the strongest
/// domain of a tree by `Least` give. The error is out of memory.
fn free_bound(alloc: Global, circuit: &Circuit, cube: &Cube) -> Result<u64, AllocError>
    requires { length cube.now ≡ 2 * length circuit.now.netlist.inputs }
    ensures sound { IfOk result (IsUpperBoundIn (setting circuit.now) cube.now) }
    ensures small { IfOk result (λ high. high < 10 ^ 15) }
    ensures edges { IfOk result (λ high. (bound : ℕ) → IsBoundBy domain.Edges (setting circuit.now) cube.now (Some bound) → high ≤ bound) }
{
    // For the prover: the circuit's numbering and moments.
    let _gates = circuit.gates();
    let _moments = circuit.moments();
    let high = strongest_bound(alloc, circuit, cube)?;
    match bound::<Edges>(alloc, circuit, cube)? {
        Some(bound) => Ok(high.min(bound)),
        None => Ok(high),
    }
}
