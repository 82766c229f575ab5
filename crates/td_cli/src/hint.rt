//! Hints: what a refusal means, and what to do. A hint is text of whole lines but for the end of
//! the last one.

use crate::advice::Advice;
use crate::endings::cut_short;
use crate::fault::Fault;
use crate::lines::of_file;
use crate::message::tell;
use crate::names::{about_word, bad_keep, bad_line, long_keep_file, no_net};
use crate::outputs::read_as;
use crate::refusals::{
    NetlistText, certificate_fault, memory, netlist_fault, no_pair, no_timer, not_accepted,
    not_joined, on_loop, one_file, other_question, out_of_time, too_long, unreadable, unwritable,
};
use crate::vectors::{about_vector, no_output};
use std::alloc::{AllocError, Global};
use td_answer::{Outcome, Refusal, Status};
use td_checker::{CheckFault, Verdict};
use td_lines::Text;
use td_question::QuestionFault;
use td_question::vector::VectorWord;
use td_reading::Reading;
use td_request::{Command, Request};
use td_search::SearchFault;
use td_source::{SourceFault, circuit_of};
use td_text::Sink;

/// Writes a hint with the end of its last line to standard error; nothing where it is empty, or
/// memory ran out.
pub(crate) fn advise<E: Sink>(hint: &Result<Text, AllocError>, err: &mut E) {
    let Ok(text) = hint else {
        return;
    };
    if !text.bytes().is_empty() {
        tell(err, text.bytes());
        tell(err, b"\n");
    }
}

/// Says of each file that a search is to write why it can't be written now, as far as the system
/// says it. The search goes on: it may be there once the search has ended.
pub(crate) fn warn<E: Sink, A: Advice>(
    alloc: Global,
    request: &Request<'_>,
    err: &mut E,
    advice: &A,
) {
    if let Command::Worst(search) = &request.command {
        advise(&unwritable_now(alloc, search.certificate, advice), err);
        advise(&unwritable_now(alloc, search.dump, advice), err);
    }
}

/// Why no file of this name can be written now, where that is known.
fn unwritable_now<A: Advice>(
    alloc: Global,
    name: Option<&str>,
    advice: &A,
) -> Result<Text, AllocError> {
    let mut text = Text::new(alloc);
    let Some(name) = name else {
        return Ok(text);
    };
    if let Some(reason) = advice.unwritable(name) {
        of_file(&mut text, name, reason)?;
        text.push(b"; the search goes on")?;
    }
    Ok(text)
}

/// The hint after a fault of files and streams.
pub(crate) fn fault_hint<A: Advice>(
    alloc: Global,
    fault: Fault<'_>,
    advice: &A,
) -> Result<Text, AllocError> {
    let mut text = Text::new(alloc);
    match fault {
        Fault::OutOfMemory => memory(&mut text)?,
        Fault::Conflict(_) => {}
        Fault::OneFile(out, file) => one_file(&mut text, out, file)?,
        Fault::Unread(name) => unreadable(&mut text, name, advice.unreadable(name))?,
        Fault::Unwritten(name) => unwritable(&mut text, name, advice.unwritable(name))?,
        Fault::NoTimer => no_timer(&mut text)?,
    }
    Ok(text)
}

/// The hint after an outcome that isn't all that was asked for.
pub(crate) fn ending_hint(
    alloc: Global,
    request: &Request<'_>,
    outcome: &Outcome,
) -> Result<Text, AllocError> {
    let mut text = Text::new(alloc);
    match (&request.command, outcome.status) {
        (Command::Worst(search), Status::Between) => {
            cut_short(&mut text, search, outcome)?;
        }
        (Command::Check(check), Status::Rejected) => {
            if let Some(verdict) = outcome.verdict {
                not_accepted(&mut text, check.certificate, verdict)?;
            }
        }
        _ => {}
    }
    Ok(text)
}

/// What a hint is about: a request, and the netlist's text that it names.
#[derive(Clone, Copy)]
struct Case<'r, 'w, 't> {
    alloc: Global,
    request: &'r Request<'w>,
    netlist: NetlistText<'t>,
}

/// The hint after a refusal.
pub(crate) fn refusal_hint(
    alloc: Global,
    request: &Request<'_>,
    netlist: &[u8],
    refusal: &Refusal<'_, '_>,
) -> Result<Text, AllocError> {
    let netlist = NetlistText {
        file: read_as(request.file),
        bytes: netlist,
    };
    let case = Case {
        alloc,
        request,
        netlist,
    };
    let mut text = Text::new(alloc);
    case.refusal(&mut text, refusal)?;
    Ok(text)
}

impl<'r, 'w, 't> Case<'r, 'w, 't> {
    fn refusal(&self, text: &mut Text, refusal: &Refusal<'_, '_>) -> Result<(), AllocError> {
        match refusal {
            Refusal::OutOfMemory => memory(text),
            Refusal::Unread(_) => Ok(()),
            Refusal::Question(fault) => self.question(text, fault),
            Refusal::NoOutput(name) => self.output(text, name),
            Refusal::Search(fault) => search(text, *fault),
            Refusal::Check(fault) => self.check(text, fault),
            Refusal::BadPart(name, fault) => certificate_fault(text, name, *fault),
            Refusal::Unaccepted(name, verdict) => not_accepted(text, name, *verdict),
            Refusal::OtherCircuit(name) => not_accepted(text, name, Verdict::OtherCircuit),
            Refusal::NotJoined(fault) => not_joined(text, fault),
            Refusal::OtherQuestion(difference) => other_question(text, *difference),
            Refusal::TooLong => too_long(text),
            Refusal::OutOfTime => out_of_time(text),
        }
    }

    fn question(&self, text: &mut Text, fault: &QuestionFault<'_, '_>) -> Result<(), AllocError> {
        match fault {
            QuestionFault::OutOfMemory => memory(text),
            QuestionFault::Source(fault) => self.source(text, fault),
            QuestionFault::BadName(fault, labels) => about_word(text, *fault, labels),
            QuestionFault::BadVector(word) => self.vector(text, *word),
            QuestionFault::BadKeep(quote) => match quote.line {
                None => bad_keep(text),
                Some(_) => bad_line(text),
            },
            QuestionFault::NoNet(_) => no_net(text),
            QuestionFault::LongKeepFile => long_keep_file(text),
        }
    }

    fn source(&self, text: &mut Text, fault: &SourceFault<'_>) -> Result<(), AllocError> {
        match fault {
            SourceFault::OutOfMemory => memory(text),
            SourceFault::Netlist(fault) => netlist_fault(self.alloc, text, self.netlist, *fault),
            SourceFault::NoOutput => self.unnamed(text),
            SourceFault::Loop(name) => on_loop(text, self.netlist.file, name),
        }
    }

    fn check(&self, text: &mut Text, fault: &CheckFault<'_>) -> Result<(), AllocError> {
        match fault {
            CheckFault::OutOfMemory => memory(text),
            CheckFault::Netlist(fault) => netlist_fault(self.alloc, text, self.netlist, *fault),
            CheckFault::NoOutput => self.unnamed(text),
            CheckFault::Loop(name) => on_loop(text, self.netlist.file, name),
            CheckFault::Certificate(fault) => {
                certificate_fault(text, self.certificate(), *fault)
            }
        }
    }

    /// The name of the certificate's file of a check.
    fn certificate(&self) -> &str {
        match &self.request.command {
            Command::Check(check) => check.certificate,
            _ => "",
        }
    }

    /// Appends which word gives nothing for the inputs.
    fn vector(&self, text: &mut Text, word: VectorWord) -> Result<(), AllocError> {
        match circuit_of(self.alloc, self.netlist.bytes, &self.request.reading) {
            Ok(circuit) => about_vector(text, self.request, &circuit, word),
            Err(_) => Ok(()),
        }
    }

    /// Appends which name that is asked about no output has, the first one.
    fn unnamed(&self, text: &mut Text) -> Result<(), AllocError> {
        for name in self.request.reading.outputs.names() {
            let alone = Reading::of_one(self.alloc, self.request.reading.default, name)?;
            if let Err(SourceFault::NoOutput) = circuit_of(self.alloc, self.netlist.bytes, &alone) {
                return self.output(text, name);
            }
        }
        Ok(())
    }

    /// Appends that no output has this name, and which outputs there are.
    fn output(&self, text: &mut Text, name: &str) -> Result<(), AllocError> {
        let whole = Reading::whole(self.alloc, self.request.reading.default);
        match circuit_of(self.alloc, self.netlist.bytes, &whole) {
            Ok(circuit) => no_output(text, &circuit, name),
            Err(SourceFault::Loop(net)) => on_loop(text, self.netlist.file, &net),
            Err(_) => Ok(()),
        }
    }
}

fn search(text: &mut Text, fault: SearchFault) -> Result<(), AllocError> {
    match fault {
        SearchFault::OutOfMemory => memory(text),
        SearchFault::NoPair => no_pair(text),
    }
}
