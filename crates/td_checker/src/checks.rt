//! The verdict on a certificate's text.

ghost use Rattle.std.specs.Prelude.{◌≡◌, true, ◌≤◌, ◌↔◌, ℕ, List, IfOk, IfErr, IfSome, IfNone, IsTrue};
ghost use Rattle.td_certificate.specs.Accepts.{lines_in};
ghost use Rattle.td_certificate.specs.Faults.{IsWithinLimit};
ghost use Rattle.td_certificate.specs.Spelling.{HasSpelling, Spells};
ghost use Rattle.td_checker.specs.declared.verdict.Verdict.{Verdict as Reported};
ghost use Rattle.td_checker.specs.declared.verdict.CheckFault.TheVariants as memory;
ghost use Rattle.td_checker.specs.Checks.{told_all, default_for, with_default, HasVerdict, HaveVerdict, IsWholeFault, IsCheckFault, IsCertificateFault, IsReportedAs, TellsTruth, TellsTruthOf};
ghost use Rattle.td_checker.specs.Stopping.{IsReportedInTime};
ghost use Rattle.td_checker.specs.Verdicts.{line_total};

use crate::comparing::{Saying, verdict_of_whole};
use crate::verdict::{CheckFault, Checked, Verdict};
use std::alloc::Global;
use td_certificate::{CertFaultKind, Certificate};
use td_event_sim::Interruption;
use td_gates::Delay;
use td_reading::{Reading, Told};
use td_source::{Source, whole_of};
use td_stop::Stop;

/// The certificate that a text spells.
fn spelled_by<'a>(alloc: Global, text: &[u8]) -> Result<Certificate, CheckFault<'a>>
    ensures found { IfOk result (λ certificate. Spells certificate text.now × IsWithinLimit text.now) }
    ensures fault { IfErr result (λ fault. IsCertificateFault text.now fault) }
{
    match td_certificate::read(alloc, text) {
        Ok(certificate) => Ok(certificate),
        Err(fault) => match fault.kind {
            CertFaultKind::OutOfMemory => Err(CheckFault::OutOfMemory),
            _ => Err(CheckFault::Certificate(fault)),
        },
    }
}

/// The delay of gates that state none: the one that a certificate that has a text tells, else this.
fn default_for(default: Delay, certificate: &Certificate) -> Delay
    requires { HasSpelling certificate.now }
    ensures { result ≡ default_for default certificate.now.question.terms }
{
    match certificate.question.terms() {
        Some(terms) => Delay {
            rise: terms.rise,
            fall: terms.fall,
        },
        None => default,
    }
}

/// The verdict on a certificate that has a text within the limit, none where the stop is set before
/// it is known.
fn judged<'a>(
    alloc: Global,
    netlist: &'a [u8],
    reading: &Reading<'_>,
    told: Told,
    certificate: &Certificate,
    stop: &Stop,
) -> Result<Option<Verdict>, CheckFault<'a>>
    requires spelled { HasSpelling certificate.now }
    requires few { line_total (lines_in certificate.now) ≤ 268435456 }
    ensures verdict { IfOk result (λ found. IfSome found (HasVerdict netlist.now reading.now told certificate.now)) }
    ensures truth { IfOk result (λ found. IfSome found (λ verdict. verdict ≡ Verdict.Accepted → TellsTruthOf netlist.now reading.now certificate.now)) }
    ensures stopped { IfOk result (λ found. IfNone found (stop.now.can_be_set ≡ true)) }
    ensures fault { IfErr result (IsWholeFault netlist.now (with_default reading.now (default_for reading.now.default certificate.now.question.terms))) }
{
    let default = default_for(reading.default, certificate);
    let whole = whole_of(alloc, netlist, default, &reading.outputs)?;
    let Source { circuit, outputs } = whole;
    let said = Saying {
        told,
        default: reading.default,
        outputs,
    };
    match verdict_of_whole(alloc, circuit, &said, certificate, stop) {
        Ok(verdict) => Ok(Some(verdict)),
        Err(Interruption::OutOfMemory) => Err(CheckFault::OutOfMemory),
        Err(Interruption::Stopped) => Ok(None),
    }
}

/// Whether a fault says that memory ran out.
fn is_memory(fault: &CheckFault<'_>) -> bool
    ensures { IsTrue result ↔ (fault.now ≡ memory.OutOfMemory) }
{
    match fault {
        CheckFault::OutOfMemory => true,
        CheckFault::Netlist(_) => false,
        CheckFault::NoOutput => false,
        CheckFault::Loop(_) => false,
        CheckFault::Certificate(_) => false,
    }
}

/// What is told of a certificate's text that spells none: first the fault of the netlist's, if
/// there is one.
fn unread<'a>(
    alloc: Global,
    netlist: &'a [u8],
    reading: &Reading<'_>,
    fault: CheckFault<'a>,
) -> CheckFault<'a>
    ensures { (text : List ℕ) → IsCertificateFault text fault.entry → IsCheckFault netlist.now reading.now text result }
{
    if is_memory(&fault) {
        return fault;
    }
    match whole_of(alloc, netlist, reading.default, &reading.outputs) {
        Ok(_whole) => fault,
        Err(source) => CheckFault::from(source),
    }
}

/// The verdict on the certificate that a text spells, for a netlist's text, none where the stop is
/// set before it is known.
#[tactic(auto, using(crate::proofs::Texts::few_lines))]
fn verdict_of_texts<'a>(
    alloc: Global,
    netlist: &'a [u8],
    reading: &Reading<'_>,
    told: Told,
    certificate: &[u8],
    stop: &Stop,
) -> Result<Option<Checked>, CheckFault<'a>>
    ensures reported { IfOk result (λ found. IfSome found (λ checked. HaveVerdict netlist.now reading.now told certificate.now checked.verdict)) }
    ensures spelled { IfOk result (λ found. IfSome found (λ checked. Spells checked.certificate certificate.now)) }
    ensures fault { IfErr result (λ fault. IsCheckFault netlist.now reading.now certificate.now fault) }
    ensures truth { IfOk result (λ found. IfSome found (λ checked. checked.verdict ≡ Verdict.Accepted → TellsTruth netlist.now reading.now certificate.now)) }
    ensures stopped { IfOk result (λ found. IfNone found (stop.now.can_be_set ≡ true)) }
{
    match spelled_by(alloc, certificate) {
        Ok(spelled) => match judged(alloc, netlist, reading, told, &spelled, stop)? {
            Some(verdict) => Ok(Some(Checked {
                verdict,
                certificate: spelled,
            })),
            None => Ok(None),
        },
        Err(fault) => Err(unread(alloc, netlist, reading, fault)),
    }
}

/// As `check_told`, unless the stop is set before the verdict is known: then there is none. A check
/// looks at the stop before each line of the certificate's tree, and in a simulation after each two
/// million steps or so. While it reads the texts it doesn't look.
///
/// # Errors
///
/// As `check_told`.
pub fn check_told_until<'a>(
    alloc: Global,
    netlist: &'a [u8],
    reading: &Reading<'_>,
    told: Told,
    certificate: &[u8],
    stop: &Stop,
) -> Result<Option<Checked>, CheckFault<'a>>
    ensures reported { IfOk result (λ found. IfSome found (λ checked. HaveVerdict netlist.now reading.now told certificate.now checked.verdict)) }
    ensures spelled { IfOk result (λ found. IfSome found (λ checked. Spells checked.certificate certificate.now)) }
    ensures fault { IfErr result (λ fault. IsCheckFault netlist.now reading.now certificate.now fault) }

    // Unless memory runs out or the stop is set, texts that have a verdict get it.
    ensures only { (verdict : Reported) → HaveVerdict netlist.now reading.now told certificate.now verdict → IsReportedInTime verdict result }
    ensures truth { IfOk result (λ found. IfSome found (λ checked. checked.verdict ≡ Verdict.Accepted → TellsTruth netlist.now reading.now certificate.now)) }

    // There is no verdict only where the stop can be set.
    ensures stopped { IfOk result (λ found. IfNone found (stop.now.can_be_set ≡ true)) }
{
    verdict_of_texts(alloc, netlist, reading, told, certificate, stop)
}

/// The verdict on a certificate's text, for a netlist's text. Where the certificate tells how the
/// netlist is read, it is read so, and what is told of the reading is compared.
///
/// # Errors
///
/// The first that is there of a fault of the netlist's text, an output that is not there, a loop
/// and a fault of the certificate's text. `OutOfMemory` where a growth was refused.
pub fn check_told<'a>(
    alloc: Global,
    netlist: &'a [u8],
    reading: &Reading<'_>,
    told: Told,
    certificate: &[u8],
) -> Result<Checked, CheckFault<'a>>
    // The verdict is the one on the two texts. The certificate is the one that the second text
    // spells. A fault is one of theirs.
    ensures reported { IfOk result (λ checked. HaveVerdict netlist.now reading.now told certificate.now checked.verdict) }
    ensures spelled { IfOk result (λ checked. Spells checked.certificate certificate.now) }
    ensures fault { IfErr result (λ fault. IsCheckFault netlist.now reading.now certificate.now fault) }

    // Unless memory runs out, texts that have a verdict get it.
    ensures only { (verdict : Reported) → HaveVerdict netlist.now reading.now told certificate.now verdict → IsReportedAs verdict result }

    // What an accepted certificate claims is true.
    ensures truth { IfOk result (λ checked. checked.verdict ≡ Verdict.Accepted → TellsTruth netlist.now reading.now certificate.now) }
{
    match check_told_until(alloc, netlist, reading, told, certificate, &Stop::never()) {
        Ok(Some(checked)) => Ok(checked),
        Ok(None) => unreachable!(),
        Err(fault) => Err(fault),
    }
}

/// As `check_told`, where all of the reading is told.
///
/// # Errors
///
/// As `check_told`.
pub fn check<'a>(
    alloc: Global,
    netlist: &'a [u8],
    reading: &Reading<'_>,
    certificate: &[u8],
) -> Result<Checked, CheckFault<'a>>
    ensures reported { IfOk result (λ checked. HaveVerdict netlist.now reading.now told_all certificate.now checked.verdict) }
    ensures spelled { IfOk result (λ checked. Spells checked.certificate certificate.now) }
    ensures fault { IfErr result (λ fault. IsCheckFault netlist.now reading.now certificate.now fault) }
    ensures only { (verdict : Reported) → HaveVerdict netlist.now reading.now told_all certificate.now verdict → IsReportedAs verdict result }
    ensures truth { IfOk result (λ checked. checked.verdict ≡ Verdict.Accepted → TellsTruth netlist.now reading.now certificate.now) }
{
    let told = Told {
        rise: true,
        fall: true,
        outputs: true,
    };
    check_told(alloc, netlist, reading, told, certificate)
}
