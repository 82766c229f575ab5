//! Certificates of the parts of a question, joined into one.

ghost use Rattle.std.specs.Prelude.{◌≡◌, ◌≤◌, [], All, get_or, length, map, IfOk, IfErr};
ghost use Rattle.td_nets.specs.Netlist.{Netlist};
ghost use Rattle.td_certificate.specs.Accepts.{Accepts};
ghost use Rattle.td_certificate.specs.Spelling.{HasSpelling};
ghost use Rattle.td_join.specs.Joining.{IsJoined};
ghost use Rattle.td_join.specs.Faults.{renamed};
ghost use Rattle.td_answer.specs.Differences.{AsksSame};
ghost use Rattle.td_answer.specs.Filled.{filled_join};
ghost use Rattle.td_answer.specs.Joins.{texts_of, most_nodes, IsUnjoinedFor, IsTrueJoin, IsRefusedJoin};
ghost use Rattle.td_answer.specs.Unjoined.{IsOfUnjoined};
ghost use Rattle.td_answer.specs.Writing.{CanBeWritten};

use crate::difference::differing;
use crate::filled::with_text;
use crate::gathering::parts_in;
use crate::joined::{ending_of_whole, joined};
use crate::outcome::Outcome;
use crate::refusal::Refusal;
use crate::texts::Texts;
use std::alloc::Global;
use td_certificate::Certificate;
use td_join::{JoinFault, join_in};
use td_question::{Asked, question_of};
use td_reading::Reading;
use td_request::{Join, MOST_NODES};

/// The name at a place, empty where there is none.
fn name_at<'w>(names: &[&'w str], place: usize) -> &'w str
    ensures { result.now ≡ get_or (map (λ name. name.now) names.now) place [] }
{
    match names.get(place) {
        Some(name) => *name,
        None => "",
    }
}

/// The fault that tells certificates by the names of their files, which stand at their places.
fn named<'w>(fault: JoinFault<usize>, names: &[&'w str]) -> JoinFault<&'w str>
    ensures { renamed (λ name. name.now) result ≡ renamed (λ place. get_or (map (λ name. name.now) names.now) place []) fault }
{
    match fault {
        JoinFault::OutOfMemory => JoinFault::OutOfMemory,
        JoinFault::NoCertificate => JoinFault::NoCertificate,
        JoinFault::OtherCircuit(this, that) => {
            JoinFault::OtherCircuit(name_at(names, this), name_at(names, that))
        }
        JoinFault::OtherHold(this, that) => {
            JoinFault::OtherHold(name_at(names, this), name_at(names, that))
        }
        JoinFault::OtherFlips(this, that) => {
            JoinFault::OtherFlips(name_at(names, this), name_at(names, that))
        }
        JoinFault::OtherMoments(this, that) => {
            JoinFault::OtherMoments(name_at(names, this), name_at(names, that))
        }
        JoinFault::OtherTerms(this, that) => {
            JoinFault::OtherTerms(name_at(names, this), name_at(names, that))
        }
        JoinFault::Outside(this) => JoinFault::Outside(name_at(names, this)),
        JoinFault::Overlap(this, that) => {
            JoinFault::Overlap(name_at(names, this), name_at(names, that))
        }
        JoinFault::Crossed(this, that) => {
            JoinFault::Crossed(name_at(names, this), name_at(names, that))
        }
        JoinFault::Gap(cube) => JoinFault::Gap(cube),
        JoinFault::FalseNone(this) => JoinFault::FalseNone(name_at(names, this)),
    }
}

/// Why parts aren't joined, by the names of their files.
fn unjoined<'n, 'w>(fault: JoinFault<usize>, names: &[&'w str]) -> Refusal<'n, 'w>
    ensures { IsOfUnjoined (map (λ name. name.now) names.now) fault result }
{
    if let JoinFault::OutOfMemory = fault {
        return Refusal::OutOfMemory;
    }
    Refusal::NotJoined(named(fault, names))
}

/// What parts are joined into, in the files of these names: a certificate of the question that is
/// asked.
fn whole_of<'n, 'w>(
    alloc: Global,
    parts: Vec<Certificate>,
    asked: &Asked,
    names: &[&'w str],
) -> Result<Certificate, Refusal<'n, 'w>>
    ensures joined { IfOk result (IsJoined parts.items asked.now.admit.pins) }
    ensures asked { IfOk result (λ whole. AsksSame asked.now.circuit.moments (record { admit = asked.now.admit; keep = asked.now.keep.items }) whole.question) }
    ensures accepted { IfOk result (λ whole. (any : Netlist) → All (Accepts any) parts.items → Accepts any whole) }
    ensures spelled { IfOk result (λ whole. All HasSpelling parts.items → HasSpelling whole) }
    ensures few { IfOk result (λ whole. length whole.tree ≤ most_nodes) }
    ensures refusal { IfErr result (IsUnjoinedFor (map (λ name. name.now) names.now) parts.items asked.now.circuit.moments (record { admit = asked.now.admit; keep = asked.now.keep.items })) }
{
    let whole = match join_in(alloc, parts, asked.admit.pins()) {
        Ok(whole) => whole,
        Err(fault) => return Err(unjoined(fault, names)),
    };
    if whole.tree.nodes().len() > MOST_NODES as usize {
        return Err(Refusal::TooLong);
    }
    match differing(asked, &whole.question) {
        None => Ok(whole),
        Some(difference) => Err(Refusal::OtherQuestion(difference)),
    }
}

/// What the parts of a question about a text's netlist are joined into: the whole of the question
/// that is asked.
pub(crate) fn join<'n, 'w>(
    alloc: Global,
    reading: &Reading<'_>,
    asked: &Join<'w>,
    texts: &Texts<'n, '_, 'w>,
) -> Result<Outcome, Refusal<'n, 'w>>
    ensures says { IfOk result (IsTrueJoin texts.now.netlist.now reading.now (filled_join texts.now.keep asked.now) (texts_of texts.now.certificates.now)) }
    ensures written { IfOk result CanBeWritten }
    ensures refusal { IfErr result (IsRefusedJoin texts.now.netlist.now reading.now (filled_join texts.now.keep asked.now) (texts_of texts.now.certificates.now)) }
{
    let text = texts.netlist;
    let question = with_text(&asked.question, texts.keep);
    let sought = question_of(alloc, text, reading, &question)?;
    // For the prover: this call says that the netlist is well-formed.
    let _gates = sought.circuit.gates();
    let names = asked.parts.names();
    let parts = parts_in(
        alloc,
        text,
        reading,
        &sought.circuit,
        asked.check,
        names,
        texts.certificates,
    )?;
    let whole = whole_of(alloc, parts, &sought, names)?;
    let report = joined(alloc, &sought.circuit, asked.check, asked.required, &whole)?;
    let status = ending_of_whole(asked.required, &whole.claim);
    Ok(Outcome {
        report,
        certificate: Some(whole),
        dump: None,
        status,
        verdict: None,
    })
}
