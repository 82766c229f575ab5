//! The run of some admitted pair, which shows delays of outputs.

ghost use Rattle.std.specs.Prelude.{◌≡◌, length, IfOk, IfSome};
ghost use Rattle.td_domain.specs.Admits.{IsAdmitted};
ghost use Rattle.td_answer.specs.Outlooks.{IsSample};

use crate::runs::run_of;
use std::alloc::{AllocError, Global};
use td_circuit::Circuit;
use td_domain::{Admit, Pair};
use td_run::Run;
use td_search::representative;

/// How many changes a run may have that is only a sample.
const MOST_CHANGES: u64 = 1_000_000;

/// A pair and its run.
#[derive(Drop)]
pub(crate) struct Sample {
    pub(crate) pair: Pair,
    pub(crate) run: Run,
}

/// The count at a place, 0 where there is none.
fn count_at(counts: &[u64], place: u32) -> u64 {
    match counts.get(place as usize) {
        Some(count) => *count,
        None => 0,
    }
}

/// Whether each run of a circuit has few changes. An input changes once, and a gate's output as
/// often as the gate's inputs together, at most.
fn has_few_changes(alloc: Global, circuit: &Circuit) -> Result<bool, AllocError> {
    let mut counts = Vec::new(alloc);
    for _net in 0..circuit.first_gate() {
        counts.push(1)?;
    }
    let mut all: u64 = 0;
    for gate in circuit.gates() {
        let mut count: u64 = 0;
        for input in gate.inputs.iter() {
            count = count.saturating_add(count_at(&counts, *input));
        }
        counts.push(count)?;
        all = all.saturating_add(count);
    }
    Ok(all <= MOST_CHANGES)
}

/// An admitted pair, if there is one.
fn some_pair(alloc: Global, admit: &Admit) -> Result<Option<Pair>, AllocError>
    ensures { IfOk result (λ pair. IfSome pair (IsAdmitted admit.now)) }
{
    let pins = admit.pins();
    if !admit.any(pins) {
        return Ok(None);
    }
    let pair = representative(alloc, pins, admit)?;
    Ok(Some(pair))
}

/// An admitted pair of two equal vectors, if there is one. Nothing changes in its run.
fn still_pair(alloc: Global, admit: &Admit) -> Result<Option<Pair>, AllocError>
    ensures { IfOk result (λ pair. IfSome pair (IsAdmitted admit.now)) }
{
    let pins = admit.pins().copy(alloc)?;
    let held = Vec::from_slice(alloc, admit.held())?;
    some_pair(alloc, &Admit::new(pins, held, 0))
}

/// An admitted pair whose run has few changes, where one is known.
fn sample_pair(alloc: Global, circuit: &Circuit, admit: &Admit) -> Result<Option<Pair>, AllocError>
    ensures { IfOk result (λ pair. IfSome pair (IsAdmitted admit.now)) }
{
    if has_few_changes(alloc, circuit)? {
        return some_pair(alloc, admit);
    }
    still_pair(alloc, admit)
}

/// Some admitted pair and its run, where one with few changes is known.
pub(crate) fn sample_of(
    alloc: Global,
    circuit: &Circuit,
    admit: &Admit,
) -> Result<Option<Sample>, AllocError>
    requires { length admit.now.held ≡ length circuit.now.netlist.inputs }
    ensures { IfOk result (λ sample. IfSome sample (IsSample circuit.now admit.now)) }
{
    // For the prover: the pins have two positions for each input.
    let _pins = admit.pins();
    match sample_pair(alloc, circuit, admit)? {
        Some(pair) => {
            let run = run_of(alloc, circuit, &pair)?;
            Ok(Some(Sample { pair, run }))
        }
        None => Ok(None),
    }
}
