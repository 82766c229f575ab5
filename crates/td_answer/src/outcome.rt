//! What comes out of a request.

use crate::status::Status;
use td_certificate::Certificate;
use td_checker::Verdict;
use td_circuit::Circuit;
use td_lines::Report;
use td_run::{Kept, Run};

/// The waves of a circuit's run.
#[derive(Drop)]
pub struct Waves {
    pub circuit: Circuit,
    pub run: Run,
}

/// The waves of chosen nets of a circuit's run.
#[derive(Drop)]
pub struct ChosenWaves {
    pub circuit: Circuit,
    pub kept: Kept,
    /// The numbers of the nets, in the order in which they are asked for.
    pub nets: Vec<u32>,
}

/// The waves that are asked for: those of all nets, or of the nets that are named.
#[derive(Drop)]
pub enum Dump {
    Whole(Waves),
    Chosen(ChosenWaves),
}

/// What comes out of a request: a report, the certificate of an exact answer or of parts that were
/// joined, the waves that are asked for, and how the request ends.
#[derive(Drop)]
pub struct Outcome {
    pub report: Report,
    pub certificate: Option<Certificate>,
    pub dump: Option<Dump>,
    pub status: Status,
    /// The verdict on the certificate of a check.
    pub verdict: Option<Verdict>,
}

impl Outcome {
    ghost use Rattle.std.specs.Prelude.{◌≡◌, None};
    ghost use Rattle.td_answer.specs.declared.status.Status.TheVariants as ending;
    ghost use Rattle.td_answer.specs.Writing.{CanBeWritten};

    /// A report alone, of a command that was carried out.
    pub(crate) fn done(report: Report) -> Outcome
        ensures report { result.report ≡ report }
        ensures certificate { result.certificate ≡ None }
        ensures dump { result.dump ≡ None }
        ensures status { result.status ≡ ending.Done }
        ensures verdict { result.verdict ≡ None }
        ensures written { CanBeWritten result }
    {
        Outcome {
            report,
            certificate: None,
            dump: None,
            status: Status::Done,
            verdict: None,
        }
    }
}
