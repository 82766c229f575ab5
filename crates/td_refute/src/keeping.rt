//! What a search answers about pairs that keep conditions.

ghost use Rattle.std.specs.Prelude.{◌≡◌, length, IfOk, IfSome, None};
ghost use Rattle.td_circuit.specs.Numbering.{setting};
ghost use Rattle.td_refute.specs.declared.keeping.Evidence.TheVariants as evidence;
ghost use Rattle.td_refute.specs.Kept.{IsTimedAmong, IsEvidence};

use crate::asking::is_asked_about;
use crate::effort::Effort;
use crate::refuting::Refuted;
use crate::searching::{Findings, search};
use std::alloc::{AllocError, Global};
use std::thread::Threads;
use td_circuit::Circuit;
use td_domain::{Admit, Pair};
use td_event_sim::{Interruption, Scratch, delay_until};
use td_lead::Timed;
use td_refutation::{NamedCondition, Refusal, Step, refuted_keeping};
use td_span_search::{Ending, PairBits};
use td_stop::Stop;

/// What lines show of the pairs that are asked about.
#[derive(Drop)]
pub enum Evidence {
    /// Nothing: there are no lines, or they are refused.
    Nothing,
    /// None has a greater delay than a bound.
    Bound(Refuted),
    /// There is none: the last clause of the lines is empty.
    NoPair(Vec<Step>),
}

/// What a search answers: the latest pair that it found, if it did, what was shown, why it ended,
/// and how many units of work it took.
#[derive(Drop)]
pub struct Answered {
    pub best: Option<Timed>,
    pub evidence: Evidence,
    pub ending: Ending,
    pub work: u64,
}

impl Answered {
    // Nothing was found or shown.
    fn nothing(ending: Ending) -> Answered
        ensures best { result.best ≡ None }
        ensures shown { result.evidence ≡ evidence.Nothing }
    {
        Answered {
            best: None,
            evidence: Evidence::Nothing,
            ending,
            work: 0,
        }
    }
}

/// Searches for the latest of the admitted pairs that keep conditions, and for a refutation of
/// later ones, or of all. Nothing is found or shown where too many gates lead to the outputs, or
/// the stop was set before. Where memory runs out once a pair is found, nothing is shown. Several
/// workers search in threads of their own, where they can be started. The error is out of memory.
///
/// Where the bound is the best pair's delay, that is the worst delay of these pairs.
pub fn refute_keeping<R: Threads + Sync>(
    rt: &R,
    alloc: Global,
    circuit: &Circuit,
    admit: &Admit,
    keep: &[NamedCondition],
    effort: Effort<'_>,
) -> Result<Answered, AllocError>
    requires held { length admit.now.held ≡ length circuit.now.netlist.inputs }
    ensures best { IfOk result (λ answered. IfSome answered.best (IsTimedAmong (setting circuit.now) (record { admit = admit.now; keep = keep.now }))) }
    ensures shown { IfOk result (λ answered. IsEvidence (setting circuit.now) (record { admit = admit.now; keep = keep.now }) answered.evidence) }
{
    if effort.stop.is_set() {
        return Ok(Answered::nothing(Ending::Stop));
    }
    let Findings {
        pair,
        steps,
        ending,
        work,
    } = search(rt, alloc, circuit, admit, keep, 0, effort)?;
    let best = measured(alloc, circuit, admit, keep, pair, effort.stop)?;
    let evidence = evidence_of(alloc, circuit, admit, keep, steps);
    Ok(Answered {
        best,
        evidence,
        ending,
        work,
    })
}

// The pair that a search found, with its delay, where it is one of those asked about; none where
// the stop ends its long simulation. The error is out of memory.
fn measured(
    alloc: Global,
    circuit: &Circuit,
    admit: &Admit,
    keep: &[NamedCondition],
    found: Option<PairBits>,
    stop: &Stop,
) -> Result<Option<Timed>, AllocError>
    requires held { length admit.now.held ≡ length circuit.now.netlist.inputs }
    ensures { IfOk result (λ timed. IfSome timed (IsTimedAmong (setting circuit.now) (record { admit = admit.now; keep = keep.now }))) }
{
    match found {
        Some(PairBits { first, second }) => {
            if first.len() == circuit.input_count() && second.len() == circuit.input_count() {
                measured_pair(alloc, circuit, admit, keep, Pair::new(first, second), stop)
            } else {
                Ok(None)
            }
        }
        None => Ok(None),
    }
}

// Likewise of a pair with a bit in each vector for each input.
fn measured_pair(
    alloc: Global,
    circuit: &Circuit,
    admit: &Admit,
    keep: &[NamedCondition],
    pair: Pair,
    stop: &Stop,
) -> Result<Option<Timed>, AllocError>
    requires held { length admit.now.held ≡ length circuit.now.netlist.inputs }
    requires first { length pair.first ≡ length circuit.now.netlist.inputs }
    requires second { length pair.second ≡ length circuit.now.netlist.inputs }
    ensures { IfOk result (λ timed. IfSome timed (IsTimedAmong (setting circuit.now) (record { admit = admit.now; keep = keep.now }))) }
{
    if !is_asked_about(alloc, circuit, admit, keep, &pair)? {
        return Ok(None);
    }
    let mut scratch = Scratch::new(alloc, circuit)?;
    match delay_until(&mut scratch, circuit, &pair, stop) {
        Ok(time) => Ok(Some(Timed { pair, time })),
        Err(Interruption::Stopped) => Ok(None),
        Err(Interruption::OutOfMemory) => Err(AllocError),
    }
}

// What lines show, if there are some; nothing where memory runs out.
fn evidence_of(
    alloc: Global,
    circuit: &Circuit,
    admit: &Admit,
    keep: &[NamedCondition],
    steps: Result<Vec<Step>, AllocError>,
) -> Evidence
    requires held { length admit.now.held ≡ length circuit.now.netlist.inputs }
    ensures { IsEvidence (setting circuit.now) (record { admit = admit.now; keep = keep.now }) result }
{
    match steps {
        Ok(steps) => shown_by(alloc, circuit, admit, keep, steps),
        Err(_) => Evidence::Nothing,
    }
}

fn shown_by(
    alloc: Global,
    circuit: &Circuit,
    admit: &Admit,
    keep: &[NamedCondition],
    steps: Vec<Step>,
) -> Evidence
    requires held { length admit.now.held ≡ length circuit.now.netlist.inputs }
    ensures { IsEvidence (setting circuit.now) (record { admit = admit.now; keep = keep.now }) result }
{
    let pins = admit.pins();
    match refuted_keeping(alloc, circuit, admit, keep, pins, &steps) {
        Ok(shown) => {
            if shown.is_empty {
                return Evidence::NoPair(steps);
            }
            Evidence::Bound(Refuted {
                bound: shown.bound,
                steps,
            })
        }
        Err(Refusal::OutOfMemory) => Evidence::Nothing,
        Err(Refusal::BadStep(_place, _flaw)) => Evidence::Nothing,
    }
}
