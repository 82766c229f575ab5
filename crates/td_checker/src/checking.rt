//! The verdict on a certificate of a circuit.

ghost use Rattle.std.specs.Prelude.{◌≡◌, ◌≤◌, ◌<◌, ◌+◌, ◌*◌, ◌↔◌, length, IfOk, IfErr, IfSome, IsTrue};
ghost use Rattle.td_circuit.specs.Numbering.{setting};
ghost use Rattle.td_circuit.specs.Run.{IsDelayOfBits};
ghost use Rattle.td_certificate.specs.Questions.{asking_of, inputs_of};
ghost use Rattle.td_certificate.specs.Accepts.{lines_in, IsOfSize, ClaimsAdmitted, ClaimsDelay, high_of};
ghost use Rattle.td_certificate.specs.Spelling.{head_lines, HasSpelling};
ghost use Rattle.td_event_sim.specs.Scratch.{IsFor};
ghost use Rattle.td_event_sim.specs.Stopping.{StopNeedsStop};
ghost use Rattle.td_checker.specs.Judging.{AreJudged, reported_as};
ghost use Rattle.td_checker.specs.Claims.{HaveVectors, lines_before};
ghost use Rattle.td_checker.specs.Verdicts.{IsVerdictOn, line_total};

use crate::admitting::is_asked_about;
use crate::judging::{Flaw, Judged, Task, judge};
use crate::looking::look;
use crate::order::are_fit;
use crate::verdict::Verdict;
use crate::walking::Walk;
use std::alloc::{AllocError, Global};
use td_certificate::{Certificate, Claim, Question, Version};
use td_circuit::Circuit;
use td_event_sim::{Interruption, Scratch, delay_until};
use td_stop::Stop;

/// The first bad line of a tree: how many of its lines stand before it, and what is wrong with it.
#[derive(Clone, Copy, Drop)]
pub struct BadLine {
    pub before: usize,
    pub flaw: Flaw,
}

/// The moment after which no admitted pair changes an output, if a pair is claimed.
fn high_of(claim: &Option<Claim>) -> Option<u64>
    ensures { result ≡ high_of claim.now }
{
    match claim {
        None => None,
        Some(claim) => Some(claim.high),
    }
}

/// The first bad line of the certificate's tree, if one is bad, unless the stop is set meanwhile.
#[tactic(auto, using(crate::proofs::Lines::started))]
fn first_bad(
    alloc: Global,
    scratch: &mut Scratch,
    circuit: &Circuit,
    certificate: &Certificate,
    stop: &Stop,
) -> Result<Option<BadLine>, Interruption>
    requires scratch { IsFor circuit.now scratch.old }
    requires pins { length certificate.now.question.admit.pins ≡ 2 * length circuit.now.netlist.inputs }
    requires held { length certificate.now.question.admit.held ≡ length circuit.now.netlist.inputs }
    requires few { line_total (lines_in certificate.now) ≤ 268435456 }
    ensures judged { IfOk result (λ found. AreJudged (setting circuit.now) (asking_of certificate.now.question) (high_of certificate.now.claim) (lines_in certificate.now) found) }
    ensures before { IfOk result (λ found. IfSome found (λ bad. bad.before < 268435456)) }
    ensures stopped { IfErr result (StopNeedsStop stop.now.can_be_set) }
{
    let question = &certificate.question;
    let most = high_of(&certificate.claim);
    let task = Task {
        question,
        most,
        stop,
    };
    let mut walk = Walk::new(alloc, question.admit().pins())?;
    let mut before = 0;
    for node in certificate.tree.nodes() {
        look(stop)?;
        match judge(alloc, scratch, circuit, &task, &walk.cube, node)? {
            Judged::Bad(flaw, place) => {
                return Ok(Some(BadLine {
                    before: before + place,
                    flaw,
                }));
            }
            Judged::Good(lines) => {
                walk.pass(node)?;
                before += lines;
            }
        }
    }
    Ok(None)
}

/// The line of the text on which the tree begins, where it is of this version and claims a pair.
fn line_after_pair(version: Version) -> u32
    ensures line { result ≡ lines_before version }
    ensures small { result ≤ 15 }
{
    match version {
        Version::First => 6,
        Version::Second => 10,
        Version::Third => 11,
        Version::Fourth => 15,
    }
}

/// The line of the text on which the tree begins.
fn first_line(certificate: &Certificate) -> u32
    requires spelled { HasSpelling certificate.now }
    ensures line { result ≡ 1 + length (head_lines certificate.now) }
    ensures small { result ≤ 15 }
{
    match &certificate.claim {
        None => 12,
        Some(_) => line_after_pair(certificate.version()),
    }
}

/// The verdict that tells this flaw of a line.
fn reported_of(flaw: Flaw, line: u32) -> Verdict
    ensures { result ≡ reported_as flaw line }
{
    match flaw {
        Flaw::Misplaced => Verdict::BadPosition(line),
        Flaw::NotOnePair => Verdict::NotAPoint(line),
        Flaw::WrongNumber => Verdict::LeafBound(line),
        Flaw::NotEmpty => Verdict::LeafNotEmpty(line),
        Flaw::AboveTime => Verdict::LeafAboveTime(line),
        Flaw::BadStep(flaw) => Verdict::BadStep(line, flaw),
    }
}

/// Whether a certificate is of a circuit with as many inputs and gates as this one, and its
/// conditions are on nets of it.
pub fn is_of_size(circuit: &Circuit, certificate: &Certificate) -> bool
    ensures { IsTrue result ↔ IsOfSize circuit.now.netlist certificate.now }
{
    // For the prover: this call says that there are two pins for each input.
    let _pins = certificate.question.admit().pins();
    circuit.input_count() == certificate.question.inputs()
        && circuit.gates().len() == certificate.gates as usize
        && are_fit(
            2 + certificate.question.inputs() as u64 + u64::from(certificate.gates),
            certificate.question.keep(),
        )
}

/// Whether the pair that is claimed, if one is, is admitted and keeps the conditions.
fn is_admitted_claim(
    alloc: Global,
    circuit: &Circuit,
    question: &Question,
    claim: &Option<Claim>,
) -> Result<bool, AllocError>
    requires inputs { length circuit.now.netlist.inputs ≡ inputs_of question.now }
    requires vectors { HaveVectors (inputs_of question.now) claim.now }
    ensures { IfOk result (λ is. IsTrue is ↔ ClaimsAdmitted circuit.now.netlist (asking_of question.now) claim.now) }
{
    match claim {
        None => Ok(true),
        Some(claim) => is_asked_about(alloc, circuit, question, &claim.pair),
    }
}

/// Whether the pair that is claimed has its time, unless the stop is set before that is known.
fn has_its_time(
    scratch: &mut Scratch,
    circuit: &Circuit,
    claim: &Claim,
    stop: &Stop,
) -> Result<bool, Interruption>
    requires scratch { IsFor circuit.now scratch.old }
    requires first { length claim.now.pair.first ≡ length circuit.now.netlist.inputs }
    requires second { length claim.now.pair.second ≡ length circuit.now.netlist.inputs }
    ensures reached { IfOk result (λ is. IsTrue is ↔ IsDelayOfBits (setting circuit.now) claim.now.pair.first claim.now.pair.second claim.now.time) }
    ensures stopped { IfErr result (StopNeedsStop stop.now.can_be_set) }
    ensures scratch { IsFor circuit.now scratch.new }
{
    Ok(delay_until(scratch, circuit, &claim.pair, stop)? == claim.time)
}

/// Whether the pair that is claimed, if one is, has its time, unless the stop is set before that is
/// known.
fn is_reached(
    scratch: &mut Scratch,
    circuit: &Circuit,
    claim: &Option<Claim>,
    stop: &Stop,
) -> Result<bool, Interruption>
    requires scratch { IsFor circuit.now scratch.old }
    requires vectors { HaveVectors (length circuit.now.netlist.inputs) claim.now }
    ensures reached { IfOk result (λ is. IsTrue is ↔ ClaimsDelay (setting circuit.now) claim.now) }
    ensures stopped { IfErr result (StopNeedsStop stop.now.can_be_set) }
    ensures scratch { IsFor circuit.now scratch.new }
{
    match claim {
        None => Ok(true),
        Some(claim) => has_its_time(scratch, circuit, claim, stop),
    }
}

/// The verdict on a certificate of the size of a circuit that has the certificate's moments, unless
/// the stop is set meanwhile.
#[tactic(auto, using(crate::proofs::Reported::bad_reported, crate::proofs::Reported::accepted_reported, crate::proofs::Reported::vectors_fit, crate::proofs::Reported::vectors_told, crate::proofs::Reported::pins_fit, crate::proofs::Reported::held_fit, crate::proofs::Reported::is_tree))]
pub(crate) fn verdict_of_lines(
    alloc: Global,
    circuit: &Circuit,
    certificate: &Certificate,
    stop: &Stop,
) -> Result<Verdict, Interruption>
    requires size { IsOfSize circuit.now.netlist certificate.now }
    requires spelled { HasSpelling certificate.now }
    requires moments { circuit.now.moments ≡ certificate.now.question.moments }
    requires few { line_total (lines_in certificate.now) ≤ 268435456 }
    ensures verdict { IfOk result (λ verdict. IsVerdictOn circuit.now.netlist certificate.now verdict) }
    ensures stopped { IfErr result (StopNeedsStop stop.now.can_be_set) }
{
    if !is_admitted_claim(alloc, circuit, &certificate.question, &certificate.claim)? {
        return Ok(Verdict::PairNotAdmitted);
    }
    let mut scratch = Scratch::new(alloc, circuit)?;
    if !is_reached(&mut scratch, circuit, &certificate.claim, stop)? {
        return Ok(Verdict::PairTime);
    }
    match first_bad(alloc, &mut scratch, circuit, certificate, stop)? {
        Some(bad) => Ok(reported_of(bad.flaw, first_line(certificate) + bad.before as u32)),
        None => Ok(Verdict::Accepted),
    }
}
