//! The verdict on a certificate.

ghost use Rattle.std.specs.Prelude.{◌≡◌, IfOk, IfErr, None as Nothing};
ghost use Rattle.td_answer.specs.Ends.{EndsByStop};
ghost use Rattle.td_answer.specs.Verdicts.{AreRefusedLines, AreVerdictLines, ending_by, IsTrueCheck, IsRefusedCheck};
ghost use Rattle.td_answer.specs.Writing.{CanBeWritten};

use crate::claims::accepted;
use crate::outcome::Outcome;
use crate::refusal::Refusal;
use crate::status::Status;
use std::alloc::{AllocError, Global};
use td_certificate::Certificate;
use td_checker::{Verdict, check_told_until};
use td_lines::{Line, Report};
use td_reading::{Reading, Told};
use td_stop::Stop;

/// The report of a certificate that is refused.
fn refused(alloc: Global, verdict: Verdict) -> Result<Report, AllocError>
    ensures { IfOk result (AreRefusedLines verdict) }
{
    let mut report = Report::new(alloc);
    report.add(Line::Refused {
        number: verdict.number(),
        name: verdict.name(),
        line: verdict.line(),
    })?;
    Ok(report)
}

fn report_of(
    alloc: Global,
    verdict: Verdict,
    certificate: &Certificate,
) -> Result<Report, AllocError>
    ensures { IfOk result (AreVerdictLines certificate.now verdict) }
{
    match verdict {
        Verdict::Accepted => accepted(alloc, certificate),
        _ => refused(alloc, verdict),
    }
}

/// How a check ends with a verdict.
fn ending(verdict: Verdict) -> Status
    ensures { result ≡ ending_by verdict }
{
    match verdict {
        Verdict::Accepted => Status::Done,
        _ => Status::Rejected,
    }
}

/// The verdict on a certificate's text, unless the stop is set before it is known.
pub(crate) fn verdict_on<'n, 'w>(
    alloc: Global,
    text: &'n [u8],
    reading: &Reading<'_>,
    told: Told,
    certificate: &[u8],
    stop: &Stop,
) -> Result<Outcome, Refusal<'n, 'w>>
    ensures says { IfOk result (IsTrueCheck text.now reading.now told certificate.now) }
    ensures certified { IfOk result (λ outcome. outcome.certificate ≡ Nothing) }
    ensures written { IfOk result CanBeWritten }
    ensures refusal { IfErr result (IsRefusedCheck text.now reading.now certificate.now) }
    ensures stopped { IfErr result (EndsByStop stop.now.can_be_set) }
{
    let found = check_told_until(alloc, text, reading, told, certificate, stop)?;
    let Some(checked) = found else {
        return Err(Refusal::OutOfTime);
    };
    let report = report_of(alloc, checked.verdict, &checked.certificate)?;
    Ok(Outcome {
        report,
        certificate: None,
        dump: None,
        status: ending(checked.verdict),
        verdict: Some(checked.verdict),
    })
}
