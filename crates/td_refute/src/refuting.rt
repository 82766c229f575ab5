//! What a search answers.

ghost use Rattle.std.specs.Prelude.{◌≡◌, ◌≤◌, length, IfOk, IfSome, None};
ghost use Rattle.td_circuit.specs.Numbering.{setting};
ghost use Rattle.td_domain.specs.Admits.{IsAdmitted};
ghost use Rattle.td_domain.specs.Worst.{IsWorst};
ghost use Rattle.td_event_sim.specs.Scratch.{IsFor};
ghost use Rattle.td_lead.specs.Timed.{IsTimed};
ghost use Rattle.td_refute.specs.Answers.{IsShown};

use crate::effort::Effort;
use crate::pairs::pair_with;
use crate::searching::{Findings, search};
use std::alloc::{AllocError, Global};
use std::thread::Threads;
use td_circuit::Circuit;
use td_domain::{Admit, Pair};
use td_event_sim::{Interruption, Scratch, delay_until};
use td_lead::Timed;
use td_refutation::{Refusal, Step, refuted};
use td_span_search::{Ending, PairBits};
use td_stop::Stop;

/// A bound of the delays of the admitted pairs, and the lines that show it.
#[derive(Drop)]
pub struct Refuted {
    pub bound: u64,
    pub steps: Vec<Step>,
}

/// What a search answers: the least bound that was shown, if one was, why it ended, and how many
/// units of work it took.
#[derive(Drop)]
pub struct Sought {
    pub refuted: Option<Refuted>,
    pub ending: Ending,
    pub work: u64,
}

impl Sought {
    // Nothing was shown.
    fn nothing(ending: Ending) -> Sought
        ensures { result.refuted ≡ None }
    {
        Sought {
            refuted: None,
            ending,
            work: 0,
        }
    }
}

/// Searches for pairs that are later than a known one, and for a refutation of later ones still. A
/// later pair takes the place of the known one. Answers the least bound that was shown; none where
/// the circuit has no gates, or too many lead to its outputs, where the stop was set before, or
/// where the lines are refused. Several workers search in threads of their own, where they can be
/// started. The error is out of memory; a later pair that was found is kept then too.
///
/// Where the bound is the best pair's delay, that is the worst delay.
pub fn refute<R: Threads + Sync>(
    rt: &R,
    alloc: Global,
    scratch: &mut Scratch,
    circuit: &Circuit,
    admit: &Admit,
    best: &mut Timed,
    effort: Effort<'_>,
) -> Result<Sought, AllocError>
    requires scratch { IsFor circuit.now scratch.old }
    requires held { length admit.now.held ≡ length circuit.now.netlist.inputs }
    requires best { IsTimed (setting circuit.now) admit.now best.old }
    ensures best { IsTimed (setting circuit.now) admit.now best.new }
    ensures no_less { best.old.time ≤ best.new.time }
    ensures shown { IfOk result (λ sought. IfSome sought.refuted (IsShown (setting circuit.now) admit.now)) }
    ensures worst { IfOk result (λ sought. IfSome sought.refuted (λ refuted. refuted.bound ≤ best.new.time → IsWorst (setting circuit.now) admit.now best.new.time)) }
    ensures scratch { IsFor circuit.now scratch.new }
{
    if circuit.gates().is_empty() {
        return Ok(Sought::nothing(Ending::Closed));
    }
    if effort.stop.is_set() {
        return Ok(Sought::nothing(Ending::Stop));
    }
    let Findings {
        pair,
        steps,
        ending,
        work,
    } = search(rt, alloc, circuit, admit, &[], best.time, effort)?;
    keep_found(alloc, scratch, circuit, admit, &pair, best, effort.stop)?;
    let steps = steps?;
    let refuted = show(alloc, circuit, admit, best, steps)?;
    Ok(Sought {
        refuted,
        ending,
        work,
    })
}

// Measures the pair that a search found, if it did, and keeps it where it is later. One whose long
// simulation the stop ends isn't kept. The error is out of memory.
fn keep_found(
    alloc: Global,
    scratch: &mut Scratch,
    circuit: &Circuit,
    admit: &Admit,
    found: &Option<PairBits>,
    best: &mut Timed,
    stop: &Stop,
) -> Result<(), AllocError>
    requires scratch { IsFor circuit.now scratch.old }
    requires held { length admit.now.held ≡ length circuit.now.netlist.inputs }
    requires best { IsTimed (setting circuit.now) admit.now best.old }
    ensures best { IsTimed (setting circuit.now) admit.now best.new }
    ensures no_less { best.old.time ≤ best.new.time }
    ensures scratch { IsFor circuit.now scratch.new }
{
    let Some(found) = found else {
        return Ok(());
    };
    // For the prover: this call says that there are few inputs.
    let _gates = circuit.gates();
    let pair = pair_with(alloc, admit, &best.pair, found)?;
    keep_later(scratch, circuit, admit, pair, best, stop)
}

// Measures an admitted pair, and keeps it where it is later, as `keep_found` does.
fn keep_later(
    scratch: &mut Scratch,
    circuit: &Circuit,
    admit: &Admit,
    pair: Pair,
    best: &mut Timed,
    stop: &Stop,
) -> Result<(), AllocError>
    requires scratch { IsFor circuit.now scratch.old }
    requires held { length admit.now.held ≡ length circuit.now.netlist.inputs }
    requires pair { IsAdmitted admit.now pair }
    requires best { IsTimed (setting circuit.now) admit.now best.old }
    ensures best { IsTimed (setting circuit.now) admit.now best.new }
    ensures no_less { best.old.time ≤ best.new.time }
    ensures scratch { IsFor circuit.now scratch.new }
{
    let _pins = admit.pins();
    let time = match delay_until(scratch, circuit, &pair, stop) {
        Ok(time) => time,
        Err(Interruption::Stopped) => return Ok(()),
        Err(Interruption::OutOfMemory) => return Err(AllocError),
    };
    if time > best.time {
        *best = Timed { pair, time };
    }
    Ok(())
}

// What lines show, beside the best pair; none where they are refused. The error is out of memory.
fn show(
    alloc: Global,
    circuit: &Circuit,
    admit: &Admit,
    best: &Timed,
    steps: Vec<Step>,
) -> Result<Option<Refuted>, AllocError>
    requires held { length admit.now.held ≡ length circuit.now.netlist.inputs }
    requires best { IsTimed (setting circuit.now) admit.now best.now }
    ensures shown { IfOk result (λ found. IfSome found (IsShown (setting circuit.now) admit.now)) }
    ensures worst { IfOk result (λ found. IfSome found (λ refuted. refuted.bound ≤ best.now.time → IsWorst (setting circuit.now) admit.now best.now.time)) }
{
    let pins = admit.pins();
    match refuted(alloc, circuit, admit, pins, &steps) {
        Ok(bound) => Ok(Some(Refuted { bound, steps })),
        Err(Refusal::OutOfMemory) => Err(AllocError),
        Err(_) => Ok(None),
    }
}
