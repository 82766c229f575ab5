//! The parts of a question, as texts spell them.

ghost use Rattle.std.specs.Prelude.{◌≡◌, ℕ, Bool, List, true, map, option_map, IfOk, IfErr};
ghost use Rattle.td_nets.specs.Netlist.{Netlist};
ghost use Rattle.td_reading.specs.declared.reading.Reading.{Reading as Read};
ghost use Rattle.td_certificate.specs.Spelling.{Spells};
ghost use Rattle.td_checker.specs.declared.verdict.Verdict.TheVariants as found;
ghost use Rattle.td_checker.specs.Checks.{told_all, HaveVerdict};
ghost use Rattle.td_answer.specs.Joins.{texts_of, TellsPart, TellsNoPart, LacksPart, AreParts, HasNoPart};
ghost use Rattle.td_answer.specs.Unjoined.{IsOfPart, unjudged, TellsPartOf};

use crate::refusal::Refusal;
use std::alloc::Global;
use td_certificate::{CertFault, CertFaultKind, Certificate, read};
use td_checker::{CheckFault, Verdict, check, is_of_size};
use td_circuit::Circuit;
use td_reading::Reading;

/// Why the text of a part gives no certificate.
fn unread<'n, 'w>(name: &'w str, fault: CertFault) -> Refusal<'n, 'w>
    ensures { IsOfPart name.entry fault result }
{
    match fault.kind {
        CertFaultKind::OutOfMemory => Refusal::OutOfMemory,
        _ => Refusal::BadPart(name, fault),
    }
}

/// The certificate that a text spells.
fn read_part<'n, 'w>(
    alloc: Global,
    name: &'w str,
    spelled: &[u8],
) -> Result<Certificate, Refusal<'n, 'w>>
    ensures spelled { IfOk result (λ part. Spells part spelled.now) }
    ensures refusal { IfErr result (λ reason. (text : List ℕ) (reading : Read) (netlist : Netlist) (check : Bool)
        → TellsNoPart text reading netlist check name.now spelled.now reason) }
{
    match read(alloc, spelled) {
        Ok(part) => Ok(part),
        Err(fault) => Err(unread(name, fault)),
    }
}

/// Why a part wasn't judged.
fn unjudged<'n, 'w>(name: &'w str, fault: CheckFault<'n>) -> Refusal<'n, 'w>
    ensures { result ≡ unjudged name.entry fault.entry }
{
    match fault {
        CheckFault::OutOfMemory => Refusal::OutOfMemory,
        CheckFault::Certificate(fault) => Refusal::BadPart(name, fault),
        fault => Refusal::Check(fault),
    }
}

/// The certificate that a text spells, if it is accepted.
fn accepted_part<'n, 'w>(
    alloc: Global,
    text: &'n [u8],
    reading: &Reading<'_>,
    name: &'w str,
    spelled: &[u8],
) -> Result<Certificate, Refusal<'n, 'w>>
    ensures spelled { IfOk result (λ part. Spells part spelled.now) }
    ensures accepted { IfOk result (λ part. HaveVerdict text.now reading.now told_all spelled.now found.Accepted) }
    ensures refusal { IfErr result (λ reason. (netlist : Netlist) → TellsNoPart text.now reading.now netlist true name.now spelled.now reason) }
{
    let checked = match check(alloc, text, reading, spelled) {
        Ok(checked) => checked,
        Err(fault) => return Err(unjudged(name, fault)),
    };
    match checked.verdict {
        Verdict::Accepted => Ok(checked.certificate),
        verdict => Err(Refusal::Unaccepted(name, verdict)),
    }
}

/// The certificate that a text spells, which is accepted where that is asked for.
fn judged_part<'n, 'w>(
    alloc: Global,
    text: &'n [u8],
    reading: &Reading<'_>,
    is_checked: bool,
    name: &'w str,
    spelled: &[u8],
) -> Result<Certificate, Refusal<'n, 'w>>
    ensures spelled { IfOk result (λ part. Spells part spelled.now) }
    ensures accepted { IfOk result (λ part. is_checked ≡ true → HaveVerdict text.now reading.now told_all spelled.now found.Accepted) }
    ensures refusal { IfErr result (λ reason. (netlist : Netlist) → TellsNoPart text.now reading.now netlist is_checked name.now spelled.now reason) }
{
    if is_checked {
        return accepted_part(alloc, text, reading, name, spelled);
    }
    read_part(alloc, name, spelled)
}

/// The part of a question about a circuit that a text tells.
fn part<'n, 'w>(
    alloc: Global,
    text: &'n [u8],
    reading: &Reading<'_>,
    circuit: &Circuit,
    is_checked: bool,
    name: &'w str,
    spelled: &[u8],
) -> Result<Certificate, Refusal<'n, 'w>>
    ensures part { IfOk result (TellsPart text.now reading.now circuit.now.netlist is_checked spelled.now) }
    ensures refusal { IfErr result (TellsNoPart text.now reading.now circuit.now.netlist is_checked name.now spelled.now) }
{
    let part = judged_part(alloc, text, reading, is_checked, name, spelled)?;
    if is_of_size(circuit, &part) {
        Ok(part)
    } else {
        Err(Refusal::OtherCircuit(name))
    }
}

/// The part that the text of the file of this name tells, if the text is there.
fn part_at<'n, 'w>(
    alloc: Global,
    text: &'n [u8],
    reading: &Reading<'_>,
    circuit: &Circuit,
    is_checked: bool,
    name: &'w str,
    spelled: Option<&Vec<u8>>,
) -> Result<Certificate, Refusal<'n, 'w>>
    ensures part { IfOk result (TellsPartOf text.now reading.now circuit.now.netlist is_checked (option_map (λ bytes. bytes.now.items) spelled.entry)) }
    ensures refusal { IfErr result (LacksPart text.now reading.now circuit.now.netlist is_checked name.now (option_map (λ bytes. bytes.now.items) spelled.entry)) }
{
    match spelled {
        Some(spelled) => part(alloc, text, reading, circuit, is_checked, name, spelled),
        None => Err(Refusal::Unread(name)),
    }
}

/// The parts of a question about a circuit that texts tell, in the order of the names of their
/// files; each of them accepted where that is asked for.
pub(crate) fn parts_in<'n, 'w>(
    alloc: Global,
    text: &'n [u8],
    reading: &Reading<'_>,
    circuit: &Circuit,
    is_checked: bool,
    names: &[&'w str],
    certificates: &[Vec<u8>],
) -> Result<Vec<Certificate>, Refusal<'n, 'w>>
    ensures parts { IfOk result (λ parts. AreParts text.now reading.now circuit.now.netlist is_checked
        (map (λ name. name.now) names.now) (texts_of certificates.now) parts.items) }
    ensures refusal { IfErr result (HasNoPart text.now reading.now circuit.now.netlist is_checked
        (map (λ name. name.now) names.now) (texts_of certificates.now)) }
{
    let mut parts = Vec::new(alloc);
    for (place, name) in names.iter().enumerate() {
        let part = part_at(
            alloc,
            text,
            reading,
            circuit,
            is_checked,
            *name,
            certificates.get(place),
        )?;
        parts.push(part)?;
    }
    Ok(parts)
}
