//! What is at fault where there is no outcome.

use crate::fault::Fault;
use td_answer::Refusal;
use td_checker::CheckFault;
use td_question::QuestionFault;
use td_search::SearchFault;
use td_source::SourceFault;

/// What is at fault: a word for its kind, and the line of its text, where that is known.
#[derive(Clone, Copy, Drop)]
pub(crate) struct Origin {
    pub(crate) kind: &'static str,
    pub(crate) line: Option<u32>,
}

impl Origin {
    fn of(kind: &'static str) -> Origin {
        Origin { kind, line: None }
    }

    fn at(kind: &'static str, line: u32) -> Origin {
        Origin {
            kind,
            line: Some(line),
        }
    }

    /// What is at fault of files and streams.
    pub(crate) fn of_fault(fault: Fault<'_>) -> Origin {
        match fault {
            Fault::OutOfMemory => Origin::of("memory"),
            Fault::Conflict(_) | Fault::OneFile(..) => Origin::of("command"),
            Fault::Unread(_) | Fault::Unwritten(_) => Origin::of("file"),
            Fault::NoTimer => Origin::of("system"),
        }
    }

    /// What is at fault of the texts and the words.
    pub(crate) fn of_refusal(refusal: &Refusal<'_, '_>) -> Origin {
        match refusal {
            Refusal::OutOfMemory => Origin::of("memory"),
            Refusal::Unread(_) => Origin::of("file"),
            Refusal::Question(fault) => of_question(fault),
            Refusal::NoOutput(_) => Origin::of("command"),
            Refusal::Search(SearchFault::OutOfMemory) => Origin::of("memory"),
            Refusal::Search(SearchFault::NoPair) => Origin::of("question"),
            Refusal::Check(fault) => of_check(fault),
            Refusal::BadPart(_, fault) => Origin::at("certificate", fault.line),
            Refusal::Unaccepted(_, verdict) => Origin {
                kind: "certificate",
                line: verdict.line(),
            },
            Refusal::OtherCircuit(_)
            | Refusal::NotJoined(_)
            | Refusal::OtherQuestion(_)
            | Refusal::TooLong => Origin::of("parts"),
            Refusal::OutOfTime => Origin::of("time"),
        }
    }
}

fn of_question(fault: &QuestionFault<'_, '_>) -> Origin {
    match fault {
        QuestionFault::OutOfMemory => Origin::of("memory"),
        QuestionFault::Source(fault) => of_source(fault),
        QuestionFault::BadName(..)
        | QuestionFault::BadVector(_)
        | QuestionFault::BadKeep(_)
        | QuestionFault::NoNet(_) => Origin::of("command"),
        QuestionFault::LongKeepFile => Origin::of("file"),
    }
}

fn of_source(fault: &SourceFault<'_>) -> Origin {
    match fault {
        SourceFault::OutOfMemory => Origin::of("memory"),
        SourceFault::Netlist(fault) => Origin::at("netlist", fault.line),
        SourceFault::NoOutput => Origin::of("command"),
        SourceFault::Loop(_) => Origin::of("netlist"),
    }
}

fn of_check(fault: &CheckFault<'_>) -> Origin {
    match fault {
        CheckFault::OutOfMemory => Origin::of("memory"),
        CheckFault::Netlist(fault) => Origin::at("netlist", fault.line),
        CheckFault::NoOutput => Origin::of("command"),
        CheckFault::Loop(_) => Origin::of("netlist"),
        CheckFault::Certificate(fault) => Origin::at("certificate", fault.line),
    }
}
