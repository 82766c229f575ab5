//! The sentence of a refusal.

ghost use Rattle.std.specs.Prelude.{◌≡◌, ◌++◌, OnOk, map};
ghost use Rattle.td_nets.specs.Views.{name_of};
ghost use Rattle.td_lines.specs.Texts.{place_text};
ghost use Rattle.td_answer.specs.Refusals.{unread_text, loop_text, netlist_text, fault_text, number_and_name, token_text, source_text, question_text, search_text, certificate_fault_text, certificate_text, check_text, refusing_text, bad_part_text, unaccepted_text, other_circuit_text, reason_text, refusal_text};

use crate::refusal::Refusal;
use crate::unjoined::{other_question, unjoined};
use crate::words;
use std::alloc::AllocError;
use td_certificate::CertFault;
use td_checker::{CheckFault, Verdict};
use td_lines::Text;
use td_netlist::{Fault, FaultKind};
use td_nets::Name;
use td_question::QuestionFault;
use td_search::SearchFault;
use td_source::SourceFault;

impl<'n, 'w> Refusal<'n, 'w> {
    /// Appends the line that says why there is no outcome.
    pub fn sentence(&self, out: &mut Text) -> Result<(), AllocError>
        ensures { OnOk result (out.new ≡ out.old ++ refusal_text self.now) }
    {
        out.push(b"tdelay: ")?;
        self.reason(out)?;
        out.push(b"\n")
    }

    fn reason(&self, out: &mut Text) -> Result<(), AllocError>
        ensures { OnOk result (out.new ≡ out.old ++ reason_text self.now) }
    {
        match self {
            Refusal::OutOfMemory => out.push(b"out of memory"),
            Refusal::Unread(name) => unread(out, name),
            Refusal::Question(fault) => question(out, fault),
            Refusal::NoOutput(_) => out.push(b"no output of this name"),
            Refusal::Search(fault) => search(out, *fault),
            Refusal::Check(fault) => checking(out, fault),
            Refusal::BadPart(name, fault) => bad_part(out, name, *fault),
            Refusal::Unaccepted(name, verdict) => unaccepted(out, name, *verdict),
            Refusal::OtherCircuit(name) => other_circuit(out, name),
            Refusal::NotJoined(fault) => unjoined(out, fault),
            Refusal::OtherQuestion(difference) => other_question(out, *difference),
            Refusal::TooLong => out.push(b"too many nodes"),
            Refusal::OutOfTime => out.push(b"out of time"),
        }
    }
}

fn unread(out: &mut Text, name: &str) -> Result<(), AllocError>
    ensures { OnOk result (out.new ≡ out.old ++ unread_text name.now) }
{
    out.word_behind(b"cannot read ", name)
}

fn question(out: &mut Text, fault: &QuestionFault<'_, '_>) -> Result<(), AllocError>
    ensures { OnOk result (out.new ≡ out.old ++ question_text fault.now) }
{
    match fault {
        QuestionFault::OutOfMemory => out.push(b"out of memory"),
        QuestionFault::Source(fault) => source(out, fault),
        QuestionFault::BadName(fault, labels) => words::name(out, *fault, labels),
        QuestionFault::BadVector(word) => words::vector(out, *word),
        QuestionFault::BadKeep(quote) => words::bad_keep(out, *quote),
        QuestionFault::NoNet(name) => words::no_net(out, *name),
        QuestionFault::LongKeepFile => out.push(b"keep file too long"),
    }
}

fn source(out: &mut Text, fault: &SourceFault<'_>) -> Result<(), AllocError>
    ensures { OnOk result (out.new ≡ out.old ++ source_text fault.now) }
{
    match fault {
        SourceFault::OutOfMemory => out.push(b"out of memory"),
        SourceFault::Netlist(fault) => netlist(out, *fault),
        SourceFault::NoOutput => out.push(b"no output of this name"),
        SourceFault::Loop(name) => looped(out, name),
    }
}

fn looped(out: &mut Text, name: &Name) -> Result<(), AllocError>
    ensures { OnOk result (out.new ≡ out.old ++ loop_text (name_of name.now)) }
{
    out.push(b"circuit fault 1 Loop on ")?;
    out.name(name)
}

fn netlist(out: &mut Text, fault: Fault<'_>) -> Result<(), AllocError>
    ensures { OnOk result (out.new ≡ out.old ++ netlist_text fault.entry) }
{
    out.push(b"netlist fault ")?;
    fault_of(out, fault)
}

fn fault_of(out: &mut Text, fault: Fault<'_>) -> Result<(), AllocError>
    ensures { OnOk result (out.new ≡ out.old ++ fault_text fault.entry) }
{
    numbered(out, fault.kind)?;
    out.number_behind(b" at line ", u64::from(fault.line))?;
    token(out, fault.kind)
}

fn numbered(out: &mut Text, kind: FaultKind<'_>) -> Result<(), AllocError>
    ensures { OnOk result (out.new ≡ out.old ++ number_and_name kind.entry) }
{
    out.number(u64::from(kind.number()))?;
    out.word_behind(b" ", kind.name())
}

/// The token at which a text leaves the subset, in round brackets.
fn token(out: &mut Text, kind: FaultKind<'_>) -> Result<(), AllocError>
    ensures { OnOk result (out.new ≡ out.old ++ token_text kind.entry) }
{
    let FaultKind::OutOfSubset(token) = kind else {
        return Ok(());
    };
    out.push(b" (")?;
    out.push(token)?;
    out.push(b")")
}

fn search(out: &mut Text, fault: SearchFault) -> Result<(), AllocError>
    ensures { OnOk result (out.new ≡ out.old ++ search_text fault) }
{
    match fault {
        SearchFault::NoPair => out.push(b"no admitted pair"),
        SearchFault::OutOfMemory => out.push(b"out of memory"),
    }
}

/// The number, the name and the line of a fault of a certificate's text.
fn certificate_fault(out: &mut Text, fault: CertFault) -> Result<(), AllocError>
    ensures { OnOk result (out.new ≡ out.old ++ certificate_fault_text fault) }
{
    out.number(u64::from(fault.kind.number()))?;
    out.word_between(b" ", fault.kind.name(), b" at line ")?;
    out.number(u64::from(fault.line))
}

fn certificate(out: &mut Text, fault: CertFault) -> Result<(), AllocError>
    ensures { OnOk result (out.new ≡ out.old ++ certificate_text fault) }
{
    out.push(b"certificate fault ")?;
    certificate_fault(out, fault)
}

fn checking(out: &mut Text, fault: &CheckFault<'_>) -> Result<(), AllocError>
    ensures { OnOk result (out.new ≡ out.old ++ check_text fault.now) }
{
    match fault {
        CheckFault::OutOfMemory => out.push(b"out of memory"),
        CheckFault::Netlist(fault) => netlist(out, *fault),
        CheckFault::NoOutput => out.push(b"no output of this name"),
        CheckFault::Loop(name) => looped(out, name),
        CheckFault::Certificate(fault) => certificate(out, *fault),
    }
}

fn bad_part(out: &mut Text, name: &str, fault: CertFault) -> Result<(), AllocError>
    ensures { OnOk result (out.new ≡ out.old ++ bad_part_text name.now fault) }
{
    out.word_between(b"", name, b": certificate fault ")?;
    certificate_fault(out, fault)
}

fn place(out: &mut Text, line: Option<u32>) -> Result<(), AllocError>
    ensures { OnOk result (out.new ≡ out.old ++ place_text line) }
{
    match line {
        None => Ok(()),
        Some(line) => out.number_behind(b" line ", u64::from(line)),
    }
}

/// The verdict that refuses a certificate.
fn refusing(out: &mut Text, verdict: Verdict) -> Result<(), AllocError>
    ensures { OnOk result (out.new ≡ out.old ++ refusing_text verdict) }
{
    out.number_between(b"refused ", u64::from(verdict.number()), b" ")?;
    out.word(verdict.name())?;
    place(out, verdict.line())
}

fn unaccepted(out: &mut Text, name: &str, verdict: Verdict) -> Result<(), AllocError>
    ensures { OnOk result (out.new ≡ out.old ++ unaccepted_text name.now verdict) }
{
    out.word_between(b"", name, b": ")?;
    refusing(out, verdict)
}

fn other_circuit(out: &mut Text, name: &str) -> Result<(), AllocError>
    ensures { OnOk result (out.new ≡ out.old ++ other_circuit_text name.now) }
{
    out.word_between(b"", name, b": other circuit")
}
