//! What a report says of certificates that are joined.

ghost use Rattle.std.specs.Prelude.{◌≡◌, ◌++◌, length, None, Some, IfOk, OnOk};
ghost use Rattle.td_answer.specs.Lines.{time_line, open_line, whole_line, none_line, whole_lines, standing_lines, ending_of_moments, ending_of_whole};
ghost use Rattle.td_answer.specs.Joins.{joined_lines};

use crate::answers::vector_of;
use crate::claims::push_question;
use crate::head::begun;
use crate::requirement::{ending_by, push_required};
use crate::status::Status;
use std::alloc::{AllocError, Global};
use td_certificate::{Certificate, Claim, Tree};
use td_circuit::Circuit;
use td_lines::{Line, Report};

/// The line of the time of a whole whose parts were checked, or weren't.
fn time_line(is_checked: bool, time: u64) -> Line
    ensures { result ≡ time_line is_checked time }
{
    if is_checked {
        return Line::Exact(time);
    }
    Line::Unchecked(time)
}

/// The line of the two moments of a whole that leaves the worst delay open.
fn open_line(is_checked: bool, low: u64, high: u64) -> Line
    ensures { result ≡ open_line is_checked low high }
{
    if is_checked {
        return Line::Between { low, high };
    }
    Line::UncheckedBetween { time: low, high }
}

/// The line of the moments that are claimed.
fn whole_line(is_checked: bool, time: u64, high: u64) -> Line
    ensures { result ≡ whole_line is_checked time high }
{
    if time == high {
        return time_line(is_checked, time);
    }
    open_line(is_checked, time, high)
}

/// The line that no pair is admitted.
fn none_line(is_checked: bool) -> Line
    ensures { result ≡ none_line is_checked }
{
    if is_checked {
        return Line::NoPair;
    }
    Line::UncheckedNone
}

/// Appends that no pair is admitted.
pub(crate) fn push_none(
    report: &mut Report,
    is_checked: bool,
    tree: &Tree,
) -> Result<(), AllocError>
    ensures { OnOk result (report.new ≡ report.old ++ whole_lines is_checked None (length tree.now)) }
{
    let nodes = tree.nodes();
    report.add(none_line(is_checked))?;
    report.add(Line::Nodes(nodes.len() as u64))
}

/// Appends the moments and the pair that are claimed.
fn push_claim(
    alloc: Global,
    report: &mut Report,
    is_checked: bool,
    claim: &Claim,
    tree: &Tree,
) -> Result<(), AllocError>
    ensures { OnOk result (report.new ≡ report.old ++ whole_lines is_checked (Some claim.now) (length tree.now)) }
{
    let first = vector_of(alloc, claim.pair.first())?;
    let second = vector_of(alloc, claim.pair.second())?;
    let nodes = tree.nodes();
    let nodes = nodes.len() as u64;
    report.four(
        whole_line(is_checked, claim.time, claim.high),
        Line::From(first),
        Line::To(second),
        Line::Nodes(nodes),
    )
}

/// Appends what a whole claims, and the number of its nodes.
fn push_whole(
    alloc: Global,
    report: &mut Report,
    is_checked: bool,
    claim: &Option<Claim>,
    tree: &Tree,
) -> Result<(), AllocError>
    ensures { OnOk result (report.new ≡ report.old ++ whole_lines is_checked claim.now (length tree.now)) }
{
    match claim {
        None => push_none(report, is_checked, tree),
        Some(claim) => push_claim(alloc, report, is_checked, claim, tree),
    }
}

/// Appends how a required moment stands by what a whole claims.
fn push_standing(
    report: &mut Report,
    required: Option<u64>,
    claim: &Option<Claim>,
) -> Result<(), AllocError>
    ensures { OnOk result (report.new ≡ report.old ++ standing_lines required claim.now) }
{
    match claim {
        None => Ok(()),
        Some(claim) => push_required(report, required, claim.time, claim.high),
    }
}

/// How a joining ends where no moment is required.
fn ending_of_moments(time: u64, high: u64) -> Status
    ensures { result ≡ ending_of_moments time high }
{
    if time == high {
        return Status::Done;
    }
    Status::Between
}

/// How a joining ends whose whole claims this.
pub(crate) fn ending_of_whole(required: Option<u64>, claim: &Option<Claim>) -> Status
    ensures { result ≡ ending_of_whole required claim.now }
{
    match claim {
        None => Status::Done,
        Some(claim) => {
            let plain = ending_of_moments(claim.time, claim.high);
            ending_by(required, plain, claim.time, claim.high)
        }
    }
}

/// The report of a whole, whose parts were checked or weren't: what it claims, how a required
/// moment stands, and what it is about.
pub(crate) fn joined(
    alloc: Global,
    circuit: &Circuit,
    is_checked: bool,
    required: Option<u64>,
    whole: &Certificate,
) -> Result<Report, AllocError>
    ensures { IfOk result (λ report. report ≡ joined_lines circuit.now.netlist is_checked required whole.now) }
{
    let mut report = begun(alloc, circuit)?;
    push_whole(alloc, &mut report, is_checked, &whole.claim, &whole.tree)?;
    push_standing(&mut report, required, &whole.claim)?;
    push_question(alloc, &mut report, whole.version(), &whole.question)?;
    Ok(report)
}
