//! What is wrong with a leaf that steps refute.

ghost use Rattle.std.specs.Prelude.{◌≡◌, ◌+◌, ◌*◌, ◌^◌, ◌<◌, length, Option, IfOk, IfErr};
ghost use Rattle.td_circuit.specs.Numbering.{setting};
ghost use Rattle.td_certificate.specs.declared.tree.Node.TheVariants.{Refuted as RefutedNode};
ghost use Rattle.td_spans.specs.Lowering.{latest_of};
ghost use Rattle.td_refutation.specs.Doing.{state_of, first_state};
ghost use Rattle.td_certificate.specs.Questions.{asking_of};
ghost use Rattle.td_event_sim.specs.Stopping.{StopNeedsStop};
ghost use Rattle.td_checker.specs.Judging.{with_cube, IsJudged};
ghost use Rattle.td_checker.specs.Stepping.{IsStepped, AreStepped};
ghost use Rattle.td_checker.specs.Ending.{found_at, found_after};

use crate::judging::{Flaw, Judged};
use crate::looking::look;
use std::alloc::{AllocError, Global};
use td_certificate::{Question, Refuted};
use td_circuit::Circuit;
use td_domain::Cube;
use td_event_sim::Interruption;
use td_refutation::{Flaw as StepFlaw, Refutation, StepError, StepKind, question_on};
use td_spans::Question as Asked;
use td_stop::Stop;

/// What steps came to: all of them are good, and this is their number, or the one at this place
/// isn't, for this reason.
#[derive(Clone, Copy, Drop)]
pub enum Stepped {
    Done(usize),
    Bad(usize, StepFlaw),
}

/// Does a step, and answers why it isn't good, where it isn't.
fn do_step(
    alloc: Global,
    circuit: &Circuit,
    question: &Asked,
    cube: &Cube,
    refutation: &mut Refutation,
    kind: StepKind,
    numbers: &[u64],
) -> Result<Option<StepFlaw>, AllocError>
    ensures { IfOk result (IsStepped circuit.now question.now cube.now refutation.old refutation.new kind numbers.now) }
{
    match refutation.step(alloc, circuit, question, cube, kind, numbers) {
        Ok(()) => Ok(None),
        Err(StepError::OutOfMemory) => Err(AllocError),
        Err(StepError::Flaw(flaw)) => Ok(Some(flaw)),
    }
}

/// Does the steps of a leaf, from the first state on, up to the first that isn't good, unless the
/// stop is set meanwhile.
fn do_steps(
    alloc: Global,
    circuit: &Circuit,
    question: &Asked,
    cube: &Cube,
    refuted: &Refuted,
    refutation: &mut Refutation,
    stop: &Stop,
) -> Result<Stepped, Interruption>
    requires begun { state_of refutation.old ≡ first_state circuit.now question.now cube.now }
    ensures stepped { IfOk result (AreStepped circuit.now question.now cube.now refuted.now.steps (state_of refutation.new)) }
    ensures stopped { IfErr result (StopNeedsStop stop.now.can_be_set) }
{
    let mut steps = refuted.steps();
    let mut numbers = Vec::new(alloc);
    let mut place = 0;
    while let Some(kind) = steps.next(&mut numbers)? {
        look(stop)?;
        if let Some(flaw) = do_step(alloc, circuit, question, cube, refutation, kind, &numbers)? {
            return Ok(Stepped::Bad(place, flaw));
        }
        place += 1;
    }
    Ok(Stepped::Done(place))
}

/// What is found of a leaf that steps refute, with this cube, where no admitted pair is to change
/// an output after this moment, or none is to be admitted, unless the stop is set meanwhile.
pub fn judge_refuted(
    alloc: Global,
    circuit: &Circuit,
    question: &Question,
    most: Option<u64>,
    cube: &Cube,
    refuted: &Refuted,
    stop: &Stop,
) -> Result<Judged, Interruption>
    requires cube { length cube.now ≡ 2 * length circuit.now.netlist.inputs }
    requires held { length question.now.admit.held ≡ length circuit.now.netlist.inputs }
    ensures stopped { IfErr result (StopNeedsStop stop.now.can_be_set) }
    ensures judged { IfOk result (IsJudged (setting circuit.now) (asking_of question.now) most (with_cube cube.now (RefutedNode refuted.now))) }
{
    // For the prover: this call says that the gates are in order.
    let _gates = circuit.gates();
    let asked = question_on(alloc, circuit, question.admit(), question.keep())?;
    let mut refutation = Refutation::new(alloc, circuit, &asked, cube)?;
    match do_steps(alloc, circuit, &asked, cube, refuted, &mut refutation, stop)? {
        Stepped::Bad(place, flaw) => Ok(Judged::Bad(Flaw::BadStep(flaw), 1 + place)),
        Stepped::Done(count) => Ok(judge_done(circuit, most, refuted, &refutation, count)),
    }
}

/// What is found of a leaf whose steps, this number, are good and led to this.
fn judge_done(
    circuit: &Circuit,
    most: Option<u64>,
    refuted: &Refuted,
    refutation: &Refutation,
    count: usize,
) -> Judged
    requires low { count + 2 < 2 ^ 64 }
    ensures { result ≡ found_after circuit.now most refuted.now.bound (state_of refutation.now) count }
{
    match refuted.bound() {
        None => {
            if refutation.has_no_pair() {
                Judged::Good(2 + count)
            } else {
                Judged::Bad(Flaw::NotEmpty, 1 + count)
            }
        }
        Some(bound) => judge_bound(circuit, most, bound, refutation, count),
    }
}

/// What is found where the steps are to show this bound.
fn judge_bound(
    circuit: &Circuit,
    most: Option<u64>,
    bound: u64,
    refutation: &Refutation,
    count: usize,
) -> Judged
    requires low { count + 2 < 2 ^ 64 }
    ensures { result ≡ found_at most bound (latest_of (state_of refutation.now).times circuit.now.outputs) count }
{
    match most {
        None => Judged::Bad(Flaw::NotEmpty, 1 + count),
        Some(most) => {
            if refutation.bound(circuit) > bound {
                return Judged::Bad(Flaw::WrongNumber, 1 + count);
            }
            if bound > most {
                return Judged::Bad(Flaw::AboveTime, 1 + count);
            }
            Judged::Good(2 + count)
        }
    }
}
