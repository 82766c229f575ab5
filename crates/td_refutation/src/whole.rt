//! Whole refutations.

ghost use Rattle.std.specs.Prelude.{◌≡◌, ◌*◌, true, length, map, IfOk, IfErr};
ghost use Rattle.td_circuit.specs.Numbering.{setting};
ghost use Rattle.td_refutation.specs.Asking.{all_admitted};
ghost use Rattle.td_refutation.specs.Refuting.{IsUpperBoundOf, HasNoPair};
ghost use Rattle.td_refutation.specs.Emptied.{IsEmptied};
ghost use Rattle.td_refutation.specs.Doing.{state_of, first_state};
ghost use Rattle.td_refutation.specs.Whole.{step_of, AreDone, IsRefuted, IsRefusal};

use crate::conditions::{NamedCondition, question_on};
use crate::flaw::{Flaw, StepError};
use crate::kind::StepKind;
use crate::refutation::Refutation;
use std::alloc::Global;
use td_circuit::Circuit;
use td_domain::{Admit, Cube};
use td_spans::Question;

/// A line: what it does, and its numbers.
#[derive(Drop)]
pub struct Step {
    pub kind: StepKind,
    pub numbers: Vec<u64>,
}

/// Why a refutation isn't accepted: out of memory, or a line that isn't good, by its place.
#[derive(Clone, Copy, Debug, PartialEq, Eq, Drop)]
pub enum Refusal {
    OutOfMemory,
    BadStep(usize, Flaw),
}

impl From<std::alloc::AllocError> for Refusal {
    ghost use Rattle.std.specs.Prelude.{◌≡◌};
    ghost use Rattle.td_refutation.specs.declared.whole.Refusal.TheVariants.{OutOfMemory};

    ghost from_gives = { λ _ e. e ≡ OutOfMemory };

    fn from(_e: std::alloc::AllocError) -> Refusal {
        Refusal::OutOfMemory
    }
}

// Does lines, one after another, up to the first that isn't good.
fn do_steps(
    alloc: Global,
    circuit: &Circuit,
    question: &Question,
    cube: &Cube,
    refutation: &mut Refutation,
    steps: &[Step],
) -> Result<(), Refusal>
    requires begun { state_of refutation.old ≡ first_state circuit.now question.now cube.now }
    ensures { AreDone circuit.now question.now cube.now (map step_of steps.now) (state_of refutation.new) result }
{
    for (place, step) in steps.iter().enumerate() {
        match refutation.step(alloc, circuit, question, cube, step.kind, &step.numbers) {
            Ok(()) => {}
            Err(StepError::OutOfMemory) => return Err(Refusal::OutOfMemory),
            Err(StepError::Flaw(flaw)) => return Err(Refusal::BadStep(place, flaw)),
        }
    }
    Ok(())
}

/// What lines show of the pairs of a cube that are asked about: none has a greater delay than the
/// bound; and where it is empty, as the last clause says, there is none.
#[derive(Clone, Copy, Debug, PartialEq, Eq, Drop)]
pub struct Shown {
    pub bound: u64,
    pub is_empty: bool,
}

// What lines show, or why they aren't accepted.
fn judged(
    alloc: Global,
    circuit: &Circuit,
    admit: &Admit,
    keep: &[NamedCondition],
    cube: &Cube,
    steps: &[Step],
) -> Result<Shown, Refusal>
    requires held { length admit.now.held ≡ length circuit.now.netlist.inputs }
    requires cube { length cube.now ≡ 2 * length circuit.now.netlist.inputs }
    ensures shown { IfOk result (λ shown. IsRefuted (setting circuit.now) (record { admit = admit.now; keep = keep.now }) cube.now (map step_of steps.now) shown.bound) }
    ensures emptied { IfOk result (λ shown. shown.is_empty ≡ true → IsEmptied (setting circuit.now) (record { admit = admit.now; keep = keep.now }) cube.now (map step_of steps.now)) }
    ensures refused { IfErr result (IsRefusal (setting circuit.now) (record { admit = admit.now; keep = keep.now }) cube.now (map step_of steps.now)) }
{
    // For the prover: this call says that the gates are in order.
    let _gates = circuit.gates();
    let question = question_on(alloc, circuit, admit, keep)?;
    let mut refutation = Refutation::new(alloc, circuit, &question, cube)?;
    do_steps(alloc, circuit, &question, cube, &mut refutation, steps)?;
    Ok(Shown {
        bound: refutation.bound(circuit),
        is_empty: refutation.has_no_pair(),
    })
}

/// What the lines of a refutation show of the pairs of the cube that are asked about: admitted ones
/// that keep the conditions. Else why they aren't accepted.
pub fn refuted_keeping(
    alloc: Global,
    circuit: &Circuit,
    admit: &Admit,
    keep: &[NamedCondition],
    cube: &Cube,
    steps: &[Step],
) -> Result<Shown, Refusal>
    requires held { length admit.now.held ≡ length circuit.now.netlist.inputs }
    requires cube { length cube.now ≡ 2 * length circuit.now.netlist.inputs }
    ensures shown { IfOk result (λ shown. IsRefuted (setting circuit.now) (record { admit = admit.now; keep = keep.now }) cube.now (map step_of steps.now) shown.bound) }
    ensures bound { IfOk result (λ shown. IsUpperBoundOf (setting circuit.now) (record { admit = admit.now; keep = keep.now }) cube.now shown.bound) }
    ensures emptied { IfOk result (λ shown. shown.is_empty ≡ true → IsEmptied (setting circuit.now) (record { admit = admit.now; keep = keep.now }) cube.now (map step_of steps.now)) }
    ensures none { IfOk result (λ shown. shown.is_empty ≡ true → HasNoPair (setting circuit.now) (record { admit = admit.now; keep = keep.now }) cube.now) }
    ensures refused { IfErr result (IsRefusal (setting circuit.now) (record { admit = admit.now; keep = keep.now }) cube.now (map step_of steps.now)) }
{
    // For the prover: this call says that each input has a moment.
    let _moments = circuit.moments();
    let shown = judged(alloc, circuit, admit, keep, cube, steps)?;
    Ok(shown)
}

/// The bound that the lines of a refutation show: no admitted pair of the cube has a greater delay.
/// Else why they aren't accepted.
pub fn refuted(
    alloc: Global,
    circuit: &Circuit,
    admit: &Admit,
    cube: &Cube,
    steps: &[Step],
) -> Result<u64, Refusal>
    requires held { length admit.now.held ≡ length circuit.now.netlist.inputs }
    requires cube { length cube.now ≡ 2 * length circuit.now.netlist.inputs }
    ensures shown { IfOk result (IsRefuted (setting circuit.now) (all_admitted admit.now) cube.now (map step_of steps.now)) }
    ensures bound { IfOk result (IsUpperBoundOf (setting circuit.now) (all_admitted admit.now) cube.now) }
    ensures refused { IfErr result (IsRefusal (setting circuit.now) (all_admitted admit.now) cube.now (map step_of steps.now)) }
{
    let shown = refuted_keeping(alloc, circuit, admit, &[], cube, steps)?;
    Ok(shown.bound)
}
