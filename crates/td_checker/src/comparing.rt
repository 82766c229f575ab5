//! The question that a certificate tells, beside what the checker is told.

ghost use Rattle.std.specs.Prelude.{◌≡◌, ◌≤◌, ◌↔◌, true, option_map, Some, IfOk, IfErr, IfSome, IfNone, IsTrue};
ghost use Rattle.td_certificate.specs.Accepts.{lines_in, IsOfSize};
ghost use Rattle.td_certificate.specs.Spelling.{HasSpelling};
ghost use Rattle.td_event_sim.specs.Stopping.{StopNeedsStop};
ghost use Rattle.td_source.specs.Kept.{AreNumbers, HasOutputs};
ghost use Rattle.td_checker.specs.Saying.{said_of};
ghost use Rattle.td_checker.specs.Verdicts.{AreCompared, AreSameOutputs, IsVerdict, IsVerdictOn, IsVerdictOfWhole, line_total, outputs_for};

use crate::checking::{is_of_size, verdict_of_lines};
use crate::verdict::Verdict;
use std::alloc::{AllocError, Global};
use td_certificate::{Certificate, Question, Terms};
use td_circuit::Circuit;
use td_event_sim::Interruption;
use td_gates::Delay;
use td_reading::Told;
use td_source::{are_outputs, asked_of};
use td_stop::Stop;

/// What the checker is told of how a netlist is read: the delay of gates that state none, the
/// numbers of the outputs that are asked about, none where all are, and which of these are
/// compared.
#[derive(Drop)]
pub(crate) struct Saying {
    pub told: Told,
    pub default: Delay,
    pub outputs: Option<Vec<u64>>,
}

/// Whether a number is the one that is told, where it is.
fn is_same(told: bool, this: u32, that: u32) -> bool
    ensures { IsTrue result ↔ (told ≡ true → this ≡ that) }
{
    if told { this == that } else { true }
}

/// Whether the terms name the outputs that are asked about, or all where none is.
fn are_asked(terms: &Terms, said: &Saying) -> bool
    ensures { IsTrue result ↔ (terms.now.outputs ≡ (said_of said.now).outputs) }
{
    match (&terms.outputs, &said.outputs) {
        (None, None) => true,
        (Some(numbers), Some(others)) => numbers.as_slice() == others.as_slice(),
        (None, Some(_)) => false,
        (Some(_), None) => false,
    }
}

/// Whether the terms name the outputs that are told, where they are.
fn are_same(terms: &Terms, said: &Saying) -> bool
    ensures { IsTrue result ↔ AreSameOutputs (said_of said.now) terms.now.outputs }
{
    if said.told.outputs {
        are_asked(terms, said)
    } else {
        true
    }
}

/// The line of terms that tell others than the checker is told.
fn other_line(terms: &Terms, said: &Saying) -> Option<u32>
    ensures { AreCompared (said_of said.now) (Some terms.now) result }
{
    let rise = is_same(said.told.rise, terms.rise, said.default.rise);
    let fall = is_same(said.told.fall, terms.fall, said.default.fall);
    if !(rise && fall) {
        return Some(3);
    }
    if are_same(terms, said) { None } else { Some(4) }
}

/// The line of a text that tells another question than the checker is told.
fn other_in(question: &Question, said: &Saying) -> Option<u32>
    ensures { AreCompared (said_of said.now) question.now.terms result }
{
    match question.terms() {
        None => None,
        Some(terms) => other_line(terms, said),
    }
}

/// The verdict on a certificate of the size of a circuit, which tells no other question, unless the
/// stop is set meanwhile.
#[tactic(auto, using(crate::proofs::Texts::moments_fit))]
fn verdict_at(
    alloc: Global,
    circuit: Circuit,
    certificate: &Certificate,
    stop: &Stop,
) -> Result<Verdict, Interruption>
    requires size { IsOfSize circuit.netlist certificate.now }
    requires spelled { HasSpelling certificate.now }
    requires few { line_total (lines_in certificate.now) ≤ 268435456 }
    ensures verdict { IfOk result (λ verdict. IsVerdictOn circuit.netlist certificate.now verdict) }
    ensures stopped { IfErr result (StopNeedsStop stop.now.can_be_set) }
{
    let moments = Vec::from_slice(alloc, certificate.question.moments())?;
    let mut circuit = circuit;
    circuit.set_moments(moments);
    verdict_of_lines(alloc, &circuit, certificate, stop)
}

/// The verdict on a certificate that has a text within the limit, of the circuit that it asks
/// about, unless the stop is set meanwhile.
#[tactic(auto, using(crate::proofs::Reported::with_told))]
fn verdict_on(
    alloc: Global,
    circuit: Circuit,
    said: &Saying,
    certificate: &Certificate,
    stop: &Stop,
) -> Result<Verdict, Interruption>
    requires spelled { HasSpelling certificate.now }
    requires few { line_total (lines_in certificate.now) ≤ 268435456 }
    ensures verdict { IfOk result (λ verdict. IsVerdict (said_of said.now) circuit.netlist certificate.now verdict) }
    ensures stopped { IfErr result (StopNeedsStop stop.now.can_be_set) }
{
    if !is_of_size(&circuit, certificate) {
        return Ok(Verdict::OtherCircuit);
    }
    match other_in(&certificate.question, said) {
        Some(line) => Ok(Verdict::OtherQuestion(line)),
        None => {
            let verdict = verdict_at(alloc, circuit, certificate, stop)?;
            Ok(verdict)
        }
    }
}

/// The circuit with the outputs of these numbers alone, or all of its outputs. None where the
/// numbers aren't those of outputs, rising. The error is out of memory.
fn circuit_for(
    alloc: Global,
    circuit: Circuit,
    numbers: Option<&[u64]>,
) -> Result<Option<Circuit>, AllocError>
    ensures some { IfOk result (λ found. IfSome found (λ asked. AreNumbers circuit.netlist (option_map (λ ns. ns.now) numbers.entry) × HasOutputs circuit.netlist (option_map (λ ns. ns.now) numbers.entry) asked.netlist)) }
    ensures none { IfOk result (λ found. IfNone found (¬ AreNumbers circuit.netlist (option_map (λ ns. ns.now) numbers.entry))) }
{
    match numbers {
        None => Ok(Some(circuit)),
        Some(numbers) => {
            if !are_outputs(&circuit, numbers) {
                return Ok(None);
            }
            let asked = asked_of(alloc, circuit, numbers)?;
            Ok(Some(asked))
        }
    }
}

/// The numbers that a list of outputs has, where there is one.
fn listed(outputs: &Option<Vec<u64>>) -> Option<&[u64]>
    ensures { option_map (λ numbers. numbers.now) result ≡ option_map (λ numbers. numbers.items) outputs.now }
{
    match outputs {
        Some(numbers) => Some(numbers.as_slice()),
        None => None,
    }
}

/// The numbers of the outputs that are asked about: those that the certificate tells, else those
/// that the checker is told.
fn outputs_for<'a>(said: &'a Saying, certificate: &'a Certificate) -> Option<&'a [u64]>
    ensures { option_map (λ numbers. numbers.now) result ≡ outputs_for (said_of said.now).outputs certificate.now.question.terms }
{
    match certificate.question.terms() {
        Some(terms) => listed(&terms.outputs),
        None => listed(&said.outputs),
    }
}

/// The verdict on a certificate that has a text within the limit, of the circuit of a whole
/// netlist, unless the stop is set meanwhile.
pub(crate) fn verdict_of_whole<'a>(
    alloc: Global,
    circuit: Circuit,
    said: &'a Saying,
    certificate: &'a Certificate,
    stop: &Stop,
) -> Result<Verdict, Interruption>
    requires spelled { HasSpelling certificate.now }
    requires few { line_total (lines_in certificate.now) ≤ 268435456 }
    ensures verdict { IfOk result (λ verdict. IsVerdictOfWhole (said_of said.now) circuit.netlist certificate.now verdict) }
    ensures stopped { IfErr result (StopNeedsStop stop.now.can_be_set) }
{
    let numbers = outputs_for(said, certificate);
    let found = circuit_for(alloc, circuit, numbers)?;
    match found {
        Some(asked) => verdict_on(alloc, asked, said, certificate, stop),
        None => Ok(Verdict::OtherCircuit),
    }
}
