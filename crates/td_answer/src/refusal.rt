//! Why a request has no outcome.

ghost use Rattle.std.specs.Prelude.{◌≡◌};
ghost use Rattle.td_answer.specs.Statuses.{source_status, question_status, search_status, check_status, status_of};
ghost use Rattle.td_answer.specs.declared.refusal.Refusal.TheVariants as refusal;

use crate::difference::Difference;
use crate::status::Status;
use std::alloc::{AllocError, AllocFailed};
use td_certificate::CertFault;
use td_checker::{CheckFault, Verdict};
use td_join::JoinFault;
use td_question::QuestionFault;
use td_search::SearchFault;
use td_source::SourceFault;

/// Why a request has no outcome. What is borrowed from the netlist's text lives as long as `'n`,
/// and words of the request, as names of files, as long as `'w`.
#[derive(Drop)]
pub enum Refusal<'n, 'w> {
    OutOfMemory,
    /// The text of the file with this name isn't there: it can't be read.
    Unread(&'w str),
    /// The netlist's text gives no circuit, or the words give no question about it.
    Question(QuestionFault<'n, 'w>),
    /// No output has this name, whose path is asked for.
    NoOutput(&'w str),
    /// The search has no answer.
    Search(SearchFault),
    /// The certificate has no verdict.
    Check(CheckFault<'n>),
    /// The text of this file, of a part, is refused.
    BadPart(&'w str, CertFault),
    /// The certificate in this file, of a part, isn't accepted.
    Unaccepted(&'w str, Verdict),
    /// The certificate in this file, of a part, is of another circuit.
    OtherCircuit(&'w str),
    /// The parts aren't joined. The fault names their files.
    NotJoined(JoinFault<&'w str>),
    /// The parts are of another question than the one that is asked.
    OtherQuestion(Difference),
    /// What the parts are joined into has more than 10,000,000 nodes.
    TooLong,
    /// The run, or the check, was to end before it was done.
    OutOfTime,
}

impl<'n, 'w> From<AllocError> for Refusal<'n, 'w> {
    ghost from_gives = { λ _ r. r ≡ refusal.OutOfMemory };

    fn from(_error: AllocError) -> Self {
        Refusal::OutOfMemory
    }
}

impl<'n, 'w, T: Drop> From<AllocFailed<T>> for Refusal<'n, 'w> {
    ghost from_gives = { λ _ r. r ≡ refusal.OutOfMemory };

    fn from(_failed: AllocFailed<T>) -> Self {
        Refusal::OutOfMemory
    }
}

impl<'n, 'w> From<QuestionFault<'n, 'w>> for Refusal<'n, 'w> {
    ghost from_gives = { λ fault r. r ≡ refusal.Question fault };

    fn from(fault: QuestionFault<'n, 'w>) -> Self {
        Refusal::Question(fault)
    }
}

impl<'n, 'w> From<SearchFault> for Refusal<'n, 'w> {
    ghost from_gives = { λ fault r. r ≡ refusal.Search fault };

    fn from(fault: SearchFault) -> Self {
        Refusal::Search(fault)
    }
}

impl<'n, 'w> From<CheckFault<'n>> for Refusal<'n, 'w> {
    ghost from_gives = { λ fault r. r ≡ refusal.Check fault };

    fn from(fault: CheckFault<'n>) -> Self {
        Refusal::Check(fault)
    }
}

fn source_status(fault: &SourceFault<'_>) -> Status
    ensures { result ≡ source_status fault.now }
{
    match fault {
        SourceFault::OutOfMemory => Status::Device,
        SourceFault::Netlist(_) => Status::Refused,
        SourceFault::NoOutput => Status::BadCommand,
        SourceFault::Loop(_) => Status::Refused,
    }
}

fn question_status(fault: &QuestionFault<'_, '_>) -> Status
    ensures { result ≡ question_status fault.now }
{
    match fault {
        QuestionFault::OutOfMemory => Status::Device,
        QuestionFault::Source(fault) => source_status(fault),
        QuestionFault::BadName(..) => Status::BadCommand,
        QuestionFault::BadVector(_) => Status::BadCommand,
        QuestionFault::BadKeep(_) => Status::BadCommand,
        QuestionFault::NoNet(_) => Status::BadCommand,
        QuestionFault::LongKeepFile => Status::Refused,
    }
}

fn search_status(fault: SearchFault) -> Status
    ensures { result ≡ search_status fault }
{
    match fault {
        SearchFault::OutOfMemory => Status::Device,
        SearchFault::NoPair => Status::Refused,
    }
}

fn check_status(fault: &CheckFault<'_>) -> Status
    ensures { result ≡ check_status fault.now }
{
    match fault {
        CheckFault::OutOfMemory => Status::Device,
        CheckFault::Netlist(_) => Status::Refused,
        CheckFault::NoOutput => Status::BadCommand,
        CheckFault::Loop(_) => Status::Refused,
        CheckFault::Certificate(_) => Status::Refused,
    }
}

impl<'n, 'w> Refusal<'n, 'w> {
    /// How the request ends.
    pub fn status(&self) -> Status
        ensures { result ≡ status_of self.now }
    {
        match self {
            Refusal::OutOfMemory => Status::Device,
            Refusal::Unread(_) => Status::Device,
            Refusal::Question(fault) => question_status(fault),
            Refusal::NoOutput(_) => Status::BadCommand,
            Refusal::Search(fault) => search_status(*fault),
            Refusal::Check(fault) => check_status(fault),
            Refusal::BadPart(..) => Status::Refused,
            Refusal::Unaccepted(..) => Status::Rejected,
            Refusal::OtherCircuit(_) => Status::Rejected,
            Refusal::NotJoined(_) => Status::Rejected,
            Refusal::OtherQuestion(_) => Status::Rejected,
            Refusal::TooLong => Status::Rejected,
            Refusal::OutOfTime => Status::Between,
        }
    }
}
