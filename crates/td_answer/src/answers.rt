//! What a report says of the answer of a search.

ghost use Rattle.std.specs.Prelude.{◌≡◌, ◌++◌, length, IfOk, OnOk};
ghost use Rattle.td_answer.specs.Heads.{head_lines};
ghost use Rattle.td_answer.specs.Lines.{end_lines, cause_line, exact_lines, between_lines, answer_lines, ending_of, pair_in};

use crate::ended::Ended;
use crate::head::begun;
use crate::requirement::{cause_by, ending_by, push_required};
use crate::status::Status;
use std::alloc::{AllocError, Global};
use td_certificate::Tree;
use td_circuit::Circuit;
use td_domain::Pair;
use td_lines::{Cause, Line, Report, Vector};
use td_search::Answer;

/// The pair of an answer.
pub(crate) fn pair_in(answer: &Answer) -> &Pair
    ensures { result.now ≡ pair_in answer.now }
{
    match answer {
        Answer::Exact { pair, .. } => pair,
        Answer::Between { pair, .. } => pair,
    }
}

/// How a search ends with an answer, where this moment is required.
pub(crate) fn ending_of(required: Option<u64>, answer: &Answer) -> Status
    ensures { result ≡ ending_of required answer.now }
{
    match answer {
        Answer::Exact { time, .. } => ending_by(required, Status::Done, *time, *time),
        Answer::Between { low, high, .. } => ending_by(required, Status::Between, *low, *high),
    }
}

/// The report of an answer of a search that ended so.
pub(crate) fn report_of(
    alloc: Global,
    circuit: &Circuit,
    answer: &Answer,
    ended: Ended<'_, '_>,
) -> Result<Report, AllocError>
    ensures { IfOk result (λ report. report ≡ head_lines circuit.now.netlist ++ answer_lines ended.entry answer.now) }
{
    let mut report = begun(alloc, circuit)?;
    push_answer(alloc, &mut report, answer, ended)?;
    Ok(report)
}

fn push_answer(
    alloc: Global,
    report: &mut Report,
    answer: &Answer,
    ended: Ended<'_, '_>,
) -> Result<(), AllocError>
    ensures { OnOk result (report.new ≡ report.old ++ answer_lines ended.entry answer.now) }
{
    match answer {
        Answer::Exact { time, pair, tree } => {
            push_exact(alloc, report, ended, *time, pair, tree)
        }
        Answer::Between {
            low,
            high,
            pair,
            nodes,
            cause,
        } => {
            let figures = Figures {
                low: *low,
                high: *high,
                cause: ended.cause(*cause, *nodes),
            };
            push_between(alloc, report, ended, figures, pair, *nodes)
        }
    }
}

pub(crate) fn vector_of(alloc: Global, bits: &[bool]) -> Result<Vector, AllocError>
    ensures { IfOk result (λ vector. vector ≡ bits.now) }
{
    let bits = Vec::from_slice(alloc, bits)?;
    Ok(Vector::new(bits))
}

/// Appends what the search took, where it is asked for, and what is required, where its figures are
/// these.
pub(crate) fn push_end(
    report: &mut Report,
    ended: Ended<'_, '_>,
    low: u64,
    high: u64,
) -> Result<(), AllocError>
    ensures { OnOk result (report.new ≡ report.old ++ end_lines ended.entry low high) }
{
    ended.push_work(report)?;
    push_required(report, ended.search.required, low, high)
}

/// The line of why figures are open.
pub(crate) fn cause_line(ended: Ended<'_, '_>, low: u64, high: u64, cause: Cause) -> Line
    ensures { result ≡ cause_line ended.entry low high cause }
{
    Line::Cause(cause_by(ended.search.required, low, high, cause))
}

/// Appends the lines of an exact answer.
pub(crate) fn push_exact(
    alloc: Global,
    report: &mut Report,
    ended: Ended<'_, '_>,
    time: u64,
    pair: &Pair,
    tree: &Tree,
) -> Result<(), AllocError>
    ensures { OnOk result (report.new ≡ report.old ++ exact_lines ended.entry time pair.now (length tree.now)) }
{
    let first = vector_of(alloc, pair.first())?;
    let second = vector_of(alloc, pair.second())?;
    let nodes = tree.nodes();
    let nodes = nodes.len() as u64;
    report.four(
        Line::Exact(time),
        Line::From(first),
        Line::To(second),
        Line::Nodes(nodes),
    )?;
    push_end(report, ended, time, time)
}

/// The figures of an answer that stays open, and why it does.
#[derive(Clone, Copy, Debug)]
pub(crate) struct Figures {
    pub low: u64,
    pub high: u64,
    pub cause: Cause,
}

/// Appends the lines of the answer of a search that was cut short.
pub(crate) fn push_between(
    alloc: Global,
    report: &mut Report,
    ended: Ended<'_, '_>,
    figures: Figures,
    pair: &Pair,
    nodes: u64,
) -> Result<(), AllocError>
    ensures { OnOk result (report.new ≡ report.old ++ between_lines ended.entry figures.low figures.high figures.cause pair.now nodes) }
{
    let Figures { low, high, cause } = figures;
    let first = vector_of(alloc, pair.first())?;
    let second = vector_of(alloc, pair.second())?;
    report.add(Line::Between { low, high })?;
    report.four(
        cause_line(ended, low, high, cause),
        Line::From(first),
        Line::To(second),
        Line::Nodes(nodes),
    )?;
    push_end(report, ended, low, high)
}
