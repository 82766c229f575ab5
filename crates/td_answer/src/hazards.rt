//! The hazards of each output, as a table.

ghost use Rattle.std.specs.Prelude.{◌≡◌, ◌<◌, length, slice_get, Bool, true, false, Some, IfOk, IfErr, OnOk, None as Nothing};
ghost use Rattle.std.specs.List.{AllZip};
ghost use Rattle.td_nets.specs.Netlist.{Name as Named};
ghost use Rattle.td_circuit.specs.Settings.{Setting};
ghost use Rattle.td_circuit.specs.Numbering.{setting};
ghost use Rattle.td_source.specs.Each.{alone};
ghost use Rattle.td_certificate.specs.Accepts.{are_fit};
ghost use Rattle.td_refutation.specs.Asking.{Asking};
ghost use Rattle.td_refute.specs.Kept.{IsBoundAmong};
ghost use Rattle.td_worst.specs.Kept.{LiesBetweenAmong};
ghost use Rattle.td_lines.specs.declared.line.Hazard.TheVariants as HazardAs;
ghost use Rattle.td_question.specs.Keeping.{count_nets};
ghost use Rattle.td_answer.specs.Additions.{AddsLines};
ghost use Rattle.td_answer.specs.Columns.{IsOnlyOutput, where_settles, pairs_of, IsTrueAnswer};
ghost use Rattle.td_answer.specs.Hazards.{IsTrueHazard, settles_at, IsTrueHazardRow, all_at_both, AreHazards, is_open, hazards_ending, AreTrueHazards};
ghost use Rattle.td_answer.specs.Outlooks.{IsTrueOutlook};
ghost use Rattle.td_answer.specs.Searches.{IsRefusedSearch};
ghost use Rattle.td_answer.specs.Tables.{IsUnanswered};
ghost use Rattle.td_answer.specs.Writing.{CanBeWritten};

use crate::alone::{Alone, Inquiry, Settled, answer_where, output_number};
use crate::answers::vector_of;
use crate::head::begun;
use crate::names::label;
use crate::outcome::Outcome;
use crate::outlook::{Outlook, outlooks};
use crate::refusal::Refusal;
use crate::sample::sample_of;
use crate::status::Status;
use crate::worst::limits_of;
use std::alloc::{AllocError, Global};
use std::sync::Wait;
use std::thread::Threads;
use td_domain::Pair;
use td_gates::Level;
use td_lead::Timed;
use td_lines::{Hazard, HazardRow, Line, Report};
use td_question::{Asked, question_of};
use td_reading::Reading;
use td_request::Search;
use td_source::EachOutput;
use td_spans::Form;
use td_stop::Stop;
use td_worst::KeptAnswer;

/// An output settles at this level under both vectors: at 1, or at 0.
fn settles_at(level: bool) -> Form
    ensures { result ≡ settles_at level }
{
    if level {
        return Form::Levels(Level::One, Level::One);
    }
    Form::Levels(Level::Zero, Level::Zero)
}

/// That an output can change late, by this pair.
fn shown_by(alloc: Global, pair: &Pair) -> Result<Hazard, AllocError>
    ensures { IfOk result (λ hazard. hazard ≡ HazardAs.Can pair.now.first pair.now.second) }
{
    let from = vector_of(alloc, pair.first())?;
    let to = vector_of(alloc, pair.second())?;
    Ok(Hazard::Can { from, to })
}

/// What a pair and an upper figure say of a hazard.
fn between(alloc: Global, best: &Timed, high: u64) -> Result<Hazard, AllocError>
    ensures { IfOk result (λ hazard. (given : Setting) (asking : Asking) → LiesBetweenAmong given asking best.now high → IsTrueHazard given asking hazard) }
{
    if best.time > 0 {
        return shown_by(alloc, &best.pair);
    }
    Ok(below(high))
}

/// What an upper figure alone says of a hazard.
fn below(high: u64) -> Hazard
    ensures { (given : Setting) (asking : Asking) → IsBoundAmong given asking high → IsTrueHazard given asking result }
{
    if high == 0 {
        Hazard::Never
    } else {
        Hazard::Open
    }
}

/// What an answer says of a hazard.
fn hazard_in(alloc: Global, answer: &KeptAnswer) -> Result<Hazard, AllocError>
    ensures { IfOk result (λ hazard. (given : Setting) (asking : Asking) → IsTrueAnswer given asking answer.now → IsTrueHazard given asking hazard) }
{
    match answer {
        KeptAnswer::Exact { best, .. } => between(alloc, best, best.time),
        KeptAnswer::Between { best, high, .. } => between(alloc, best, *high),
        KeptAnswer::Open { high, .. } => Ok(below(*high)),
        KeptAnswer::NoPair { .. } => Ok(Hazard::NoPair),
    }
}

/// The hazard of the output at a level.
fn hazard_at<'n, 'w, R: Threads + Wait + Sync>(
    rt: &R,
    alloc: Global,
    alone: Alone<'_, 'w>,
    level: bool,
) -> Result<Hazard, Refusal<'n, 'w>>
    requires held { length alone.inquiry.admit.now.held ≡ length alone.circuit.now.netlist.inputs }
    requires fit { are_fit (count_nets alone.circuit.now.netlist) alone.inquiry.keep.now ≡ true }
    requires output { IsOnlyOutput alone.circuit.now.netlist alone.net }
    requires outlook { IsTrueOutlook (setting alone.circuit.now) alone.inquiry.admit.now alone.outlook }
    ensures hazard { IfOk result (IsTrueHazard (setting alone.entry.circuit.now)
        (where_settles (pairs_of alone.entry.inquiry) alone.entry.net (settles_at level))) }
    ensures refusal { IfErr result (IsUnanswered alone.entry.inquiry.admit.now) }
{
    let settled = Settled {
        form: settles_at(level),
        required: Some(0),
    };
    let answer = answer_where(rt, alloc, alone, settled)?;
    let hazard = hazard_in(alloc, &answer)?;
    Ok(hazard)
}

/// The hazards of an output: at 0, and at 1.
#[derive(Debug, Drop)]
struct Both {
    low: HazardRow,
    high: HazardRow,
}

/// The rows of the output at this place, which is asked about alone.
fn both_of<'n, 'w, R: Threads + Wait + Sync>(
    rt: &R,
    alloc: Global,
    outputs: &mut EachOutput,
    place: usize,
    outlook: Outlook<'_>,
    inquiry: Inquiry<'_, 'w>,
) -> Result<Both, Refusal<'n, 'w>>
    requires place { place < length outputs.old.whole.netlist.outputs }
    requires held { length inquiry.admit.now.held ≡ length outputs.old.whole.netlist.inputs }
    requires fit { are_fit (count_nets outputs.old.whole.netlist) inquiry.keep.now ≡ true }
    requires outlook { (output : Named) → slice_get outputs.old.whole.netlist.outputs place ≡ Some output
        → IsTrueOutlook (alone (setting outputs.old.whole) output) inquiry.admit.now outlook }
    ensures rows { IfOk result (λ both. (output : Named) → slice_get outputs.old.whole.netlist.outputs place ≡ Some output
        → IsTrueHazardRow (setting outputs.old.whole) (pairs_of inquiry.entry) (output, false) both.low
        × IsTrueHazardRow (setting outputs.old.whole) (pairs_of inquiry.entry) (output, true) both.high) }
    ensures whole { outputs.new.whole ≡ outputs.old.whole }
    ensures refusal { IfErr result (IsUnanswered inquiry.entry.admit.now) }
{
    let low_output = label(alloc, &outputs.names()[place])?;
    let high_output = label(alloc, &outputs.names()[place])?;
    outputs.ask(alloc, place)?;
    let circuit = outputs.circuit();
    let alone = Alone {
        circuit,
        net: output_number(circuit),
        outlook,
        inquiry,
    };
    let low = hazard_at(rt, alloc, alone, false)?;
    let high = hazard_at(rt, alloc, alone, true)?;
    Ok(Both {
        low: HazardRow {
            output: low_output,
            level: false,
            hazard: low,
        },
        high: HazardRow {
            output: high_output,
            level: true,
            hazard: high,
        },
    })
}

/// Two rows for each output, in order.
fn rows<'n, 'w, R: Threads + Wait + Sync>(
    rt: &R,
    alloc: Global,
    outputs: &mut EachOutput,
    outlooks: &[Outlook<'_>],
    inquiry: Inquiry<'_, 'w>,
) -> Result<Vec<HazardRow>, Refusal<'n, 'w>>
    requires held { length inquiry.admit.now.held ≡ length outputs.old.whole.netlist.inputs }
    requires fit { are_fit (count_nets outputs.old.whole.netlist) inquiry.keep.now ≡ true }
    requires outlooks { AllZip (λ output. IsTrueOutlook (alone (setting outputs.old.whole) output) inquiry.admit.now)
        outputs.old.whole.netlist.outputs outlooks.now }
    ensures rows { IfOk result (λ rows. AllZip (IsTrueHazardRow (setting outputs.old.whole) (pairs_of inquiry.entry))
        (all_at_both outputs.old.whole.netlist.outputs) rows.items) }
    ensures refusal { IfErr result (IsUnanswered inquiry.entry.admit.now) }
{
    let count = outputs.names().len();
    let mut rows = Vec::new(alloc);
    for place in 0..count {
        let Both { low, high } = both_of(rt, alloc, outputs, place, outlooks[place], inquiry)?;
        rows.push(low)?;
        rows.push(high)?;
    }
    Ok(rows)
}

/// Whether a hazard is left open.
fn is_open(hazard: &Hazard) -> bool
    ensures { result ≡ is_open hazard.now }
{
    match hazard {
        Hazard::Can { .. } | Hazard::Never | Hazard::NoPair => false,
        Hazard::Open => true,
    }
}

/// How a table ends: some search was cut short, or nothing is left open.
fn ending(rows: &[HazardRow]) -> Status
    ensures { result ≡ hazards_ending rows.now }
{
    for row in rows {
        if is_open(&row.hazard) {
            return Status::Between;
        }
    }
    Status::Done
}

/// Appends the rows, where there are any.
fn push_rows(report: &mut Report, rows: Vec<HazardRow>) -> Result<(), AllocError>
    ensures { OnOk result (AddsLines (AreHazards rows.items) report.old report.new) }
{
    if rows.is_empty() {
        return Ok(());
    }
    report.add(Line::Hazards(rows))
}

/// The hazards of each output of what a request asks of a text, which is asked about alone.
pub(crate) fn hazards<'n, 'w, 'a, R: Threads + Wait + Sync>(
    rt: &R,
    alloc: Global,
    text: &'n [u8],
    reading: &Reading<'_>,
    search: &'a Search<'w>,
    stop: &'a Stop,
) -> Result<Outcome, Refusal<'n, 'w>>
    ensures says { IfOk result (AreTrueHazards text.now reading.now search.now) }
    ensures certified { IfOk result (λ outcome. outcome.certificate ≡ Nothing) }
    ensures written { IfOk result CanBeWritten }
    ensures refusal { IfErr result (IsRefusedSearch text.now reading.now search.now) }
{
    let Asked {
        circuit,
        admit,
        keep,
        ..
    } = question_of(alloc, text, reading, &search.question)?;
    stop.gauge.end_reading();
    let mut report = begun(alloc, &circuit)?;
    let sample = sample_of(alloc, &circuit, &admit)?;
    let outlooks = outlooks(alloc, &circuit, &admit, &sample)?;
    let mut outputs = EachOutput::of(alloc, circuit)?;
    let inquiry = Inquiry {
        admit: &admit,
        keep: &keep,
        search,
        limits: limits_of(&search.effort, stop),
    };
    let rows = rows(rt, alloc, &mut outputs, &outlooks, inquiry)?;
    let status = ending(&rows);
    push_rows(&mut report, rows)?;
    Ok(Outcome {
        report,
        certificate: None,
        dump: None,
        status,
        verdict: None,
    })
}
