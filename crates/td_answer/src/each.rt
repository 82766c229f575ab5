//! The worst delay of each output by itself, as a table.

ghost use Rattle.std.specs.Prelude.{◌≡◌, ◌⊎◌, [], true, ◌<◌, length, slice_get, Some, IfOk, IfErr, OnOk, None as Nothing};
ghost use Rattle.std.specs.List.{AllZip};
ghost use Rattle.td_nets.specs.Netlist.{Name as Named};
ghost use Rattle.td_circuit.specs.Numbering.{setting};
ghost use Rattle.td_source.specs.Each.{alone};
ghost use Rattle.td_certificate.specs.Accepts.{are_fit};
ghost use Rattle.td_search.specs.Problems.{Problem};
ghost use Rattle.td_question.specs.Asking.{IsAsked};
ghost use Rattle.td_question.specs.Keeping.{count_nets};
ghost use Rattle.td_answer.specs.Additions.{AddsLines};
ghost use Rattle.td_answer.specs.Searches.{IsRefusedSearch};
ghost use Rattle.td_answer.specs.Columns.{pairs_of};
ghost use Rattle.td_answer.specs.Findings.{found_of, kept_found};
ghost use Rattle.td_answer.specs.Lines.{pair_in};
ghost use Rattle.td_answer.specs.Outlooks.{IsTrueOutlook};
ghost use Rattle.td_answer.specs.Sightings.{IsTrueSighting, kept_pair, sighted};
ghost use Rattle.td_answer.specs.Tables.{is_open, is_late, is_settled, is_violated, any_violated, open_ending, table_ending, IsTrueRow, AreEach, HeardRows, IsUnanswered, IsTrueTable};
ghost use Rattle.td_answer.specs.Writing.{CanBeWritten};

use crate::alone::{Inquiry, kept_found};
use crate::answers::pair_in;
use crate::changes::{are_closed, asks_figures, changes_in, is_closed};
use crate::head::begun;
use crate::names::label;
use crate::outcome::Outcome;
use crate::outlook::{Outlook, outlooks, unsearched};
use crate::refusal::Refusal;
use crate::requirement::requirement_of;
use crate::sample::sample_of;
use crate::sighting::{Sighting, kept_pair, sighted};
use crate::status::Status;
use crate::watch::{Begun, TableWatch};
use crate::worst::{limits_of, method_of};
use std::alloc::{AllocError, Global};
use std::sync::Wait;
use std::thread::Threads;
use td_circuit::Circuit;
use td_lines::{Found, Line, Report, Requirement, Row, Standing};
use td_pool::Unwatched;
use td_question::{Asked, question_of};
use td_reading::Reading;
use td_request::Search;
use td_search::Answer;
use td_source::EachOutput;
use td_stop::Stop;
use td_worst::{KeptAnswer, KeptFound, KeptQuestion, Question};

/// What an answer says of the worst delay.
fn found_of(answer: &Answer) -> Found
    ensures { result ≡ found_of answer.now }
{
    match answer {
        Answer::Exact { time, .. } => Found::Exact(*time),
        Answer::Between { low, high, .. } => Found::Between {
            low: *low,
            high: *high,
        },
    }
}

/// What an answer says of the worst delay, with its pair where that is asked for.
fn sighting_of(
    alloc: Global,
    is_asked: bool,
    found: td_worst::Found,
) -> Result<Sighting, AllocError>
    ensures { IfOk result (λ seen. seen ≡ sighted is_asked (found_of found.answer) (Some (pair_in found.answer))) }
{
    let known = found_of(&found.answer);
    sighted(alloc, is_asked, known, Some(pair_in(&found.answer)))
}

/// The same of an answer about the pairs that keep conditions.
fn kept_sighting(alloc: Global, is_asked: bool, kept: KeptFound) -> Result<Sighting, AllocError>
    ensures { IfOk result (λ seen. seen ≡ sighted is_asked (kept_found kept.answer) (kept_pair kept.answer)) }
{
    let known = kept_found(&kept.answer);
    sighted(alloc, is_asked, known, kept_pair(&kept.answer))
}

/// What a search finds of the pairs of a circuit that are asked about.
fn searched<'n, 'w, R: Threads + Wait + Sync>(
    rt: &R,
    alloc: Global,
    circuit: &Circuit,
    inquiry: Inquiry<'_, 'w>,
) -> Result<Sighting, Refusal<'n, 'w>>
    requires held { length inquiry.admit.now.held ≡ length circuit.now.netlist.inputs }
    requires fit { are_fit (count_nets circuit.now.netlist) inquiry.keep.now ≡ true }
    ensures found { IfOk result (IsTrueSighting inquiry.entry.search.now.shown.vectors (setting circuit.now) (pairs_of inquiry.entry)) }
    ensures refusal { IfErr result (IsUnanswered inquiry.entry.admit.now) }
{
    let Inquiry {
        admit,
        keep,
        search,
        limits,
    } = inquiry;
    let is_asked = search.shown.vectors;
    if !keep.is_empty() {
        let question = KeptQuestion {
            circuit,
            admit,
            keep,
            required: search.required,
        };
        let kept = td_worst::worst_kept(rt, alloc, question, limits)?;
        let seen = kept_sighting(alloc, is_asked, kept)?;
        return Ok(seen);
    }
    let question = Question {
        circuit,
        admit,
        method: method_of(search.strategy),
        required: search.required,
    };
    let found = td_worst::worst(rt, alloc, question, limits, &mut Unwatched)?;
    let shown = sighting_of(alloc, is_asked, found)?;
    Ok(shown)
}

/// What is found of the output that a circuit is asked about alone.
fn found_in<'n, 'w, R: Threads + Wait + Sync>(
    rt: &R,
    alloc: Global,
    circuit: &Circuit,
    outlook: Outlook<'_>,
    inquiry: Inquiry<'_, 'w>,
) -> Result<Sighting, Refusal<'n, 'w>>
    requires held { length inquiry.admit.now.held ≡ length circuit.now.netlist.inputs }
    requires fit { are_fit (count_nets circuit.now.netlist) inquiry.keep.now ≡ true }
    requires outlook { IsTrueOutlook (setting circuit.now) inquiry.admit.now outlook }
    ensures found { IfOk result (IsTrueSighting inquiry.entry.search.now.shown.vectors (setting circuit.now) (pairs_of inquiry.entry)) }
    ensures refusal { IfErr result (IsUnanswered inquiry.entry.admit.now) }
{
    if let Some(found) = unsearched(outlook, inquiry) {
        let is_asked = inquiry.search.shown.vectors;
        let seen = sighted(alloc, is_asked, found, outlook.pair)?;
        return Ok(seen);
    }
    searched(rt, alloc, circuit, inquiry)
}

/// The row of the output at this place, which is asked about alone.
fn row_of<'n, 'w, R: Threads + Wait + Sync>(
    rt: &R,
    alloc: Global,
    outputs: &mut EachOutput,
    place: usize,
    outlook: Outlook<'_>,
    inquiry: Inquiry<'_, 'w>,
) -> Result<Row, Refusal<'n, 'w>>
    requires place { place < length outputs.old.whole.netlist.outputs }
    requires held { length inquiry.admit.now.held ≡ length outputs.old.whole.netlist.inputs }
    requires fit { are_fit (count_nets outputs.old.whole.netlist) inquiry.keep.now ≡ true }
    requires outlook { (output : Named) → slice_get outputs.old.whole.netlist.outputs place ≡ Some output
        → IsTrueOutlook (alone (setting outputs.old.whole) output) inquiry.admit.now outlook }
    ensures row { IfOk result (λ row. (output : Named) → slice_get outputs.old.whole.netlist.outputs place ≡ Some output
        → IsTrueRow (setting outputs.old.whole) (pairs_of inquiry.entry) inquiry.entry.search.now output row) }
    ensures whole { outputs.new.whole ≡ outputs.old.whole }
    ensures refusal { IfErr result (IsUnanswered inquiry.entry.admit.now) }
{
    let output = label(alloc, &outputs.names()[place])?;
    outputs.ask(alloc, place)?;
    let circuit = outputs.circuit();
    let Sighting { found, pair } = found_in(rt, alloc, circuit, outlook, inquiry)?;
    let changes = changes_in(rt, alloc, circuit, outlook, inquiry)?;
    let required = requirement_of(inquiry.search.required, found);
    Ok(Row {
        output,
        found,
        edges: outlook.edges,
        pair,
        changes,
        required,
    })
}

/// Tells a watch that the row of the output at this place is begun, unless memory runs out.
fn tell<W: TableWatch>(alloc: Global, outputs: &EachOutput, place: usize, watch: &mut W)
    requires { place < length outputs.now.whole.netlist.outputs }
    ensures reported { (asked : Problem) → W.reported asked watch.old watch.new }
    ensures heard { W.heard [] watch.old watch.new }
{
    let names = outputs.names();
    let Ok(output) = label(alloc, &names[place]) else {
        return;
    };
    watch.begun(Begun {
        output: output.text(),
        done: place as u64,
        rows: names.len() as u64,
    });
}

/// A row for each output, in order. The watch hears of each.
fn rows<'n, 'w, W: TableWatch, R: Threads + Wait + Sync>(
    rt: &R,
    alloc: Global,
    outputs: &mut EachOutput,
    outlooks: &[Outlook<'_>],
    inquiry: Inquiry<'_, 'w>,
    watch: &mut W,
) -> Result<Vec<Row>, Refusal<'n, 'w>>
    requires held { length inquiry.admit.now.held ≡ length outputs.old.whole.netlist.inputs }
    requires fit { are_fit (count_nets outputs.old.whole.netlist) inquiry.keep.now ≡ true }
    requires outlooks { AllZip (λ output. IsTrueOutlook (alone (setting outputs.old.whole) output) inquiry.admit.now)
        outputs.old.whole.netlist.outputs outlooks.now }
    ensures rows { IfOk result (λ rows. AllZip (IsTrueRow (setting outputs.old.whole) (pairs_of inquiry.entry) inquiry.entry.search.now)
        outputs.old.whole.netlist.outputs rows.items) }
    ensures refusal { IfErr result (IsUnanswered inquiry.entry.admit.now) }
    ensures reported { (asked : Problem) → W.reported asked watch.old watch.new }
    ensures heard { IfOk result (λ rows. W.heard rows.items watch.old watch.new) }
{
    let count = outputs.names().len();
    let mut rows = Vec::new(alloc);
    for place in 0..count {
        tell(alloc, outputs, place, watch);
        let row = row_of(rt, alloc, outputs, place, outlooks[place], inquiry)?;
        watch.found(&row);
        rows.push(row)?;
    }
    Ok(rows)
}

fn is_open(standing: Standing) -> bool
    ensures { result ≡ is_open standing }
{
    match standing {
        Standing::Met | Standing::Violated => false,
        Standing::Open => true,
    }
}

fn is_late(standing: Standing) -> bool
    ensures { result ≡ is_late standing }
{
    match standing {
        Standing::Met | Standing::Open => false,
        Standing::Violated => true,
    }
}

/// Whether it is known how the required moment stands, or else the figure is.
fn is_settled(required: Option<Requirement>, found: Found) -> bool
    ensures { result ≡ is_settled required found }
{
    match required {
        None => is_closed(found),
        Some(required) => !is_open(required.standing),
    }
}

/// Whether the output of a row is later than the required moment.
fn is_violated(required: Option<Requirement>) -> bool
    ensures { result ≡ is_violated required }
{
    match required {
        None => false,
        Some(required) => is_late(required.standing),
    }
}

/// Whether some output is later than the required moment.
fn any_violated(rows: &[Row]) -> bool
    ensures { result ≡ any_violated rows.now }
{
    for row in rows {
        if is_violated(row.required) {
            return true;
        }
    }
    false
}

/// Whether some search was cut short, or nothing is left open.
fn open_ending(figures: bool, rows: &[Row]) -> Status
    ensures { result ≡ open_ending figures rows.now }
{
    for row in rows {
        if !(is_settled(row.required, row.found) && are_closed(figures, &row.changes)) {
            return Status::Between;
        }
    }
    Status::Done
}

/// How a table ends: the required moment is violated, or some search was cut short, or nothing is
/// left open.
fn ending(figures: bool, rows: &[Row]) -> Status
    ensures { result ≡ table_ending figures rows.now }
{
    if any_violated(rows) {
        return Status::Violated;
    }
    open_ending(figures, rows)
}

/// Appends the rows, where there are any.
fn push_rows(report: &mut Report, rows: Vec<Row>) -> Result<(), AllocError>
    ensures { OnOk result (AddsLines (AreEach rows.items) report.old report.new) }
{
    if rows.is_empty() {
        return Ok(());
    }
    report.add(Line::Each(rows))
}

/// The table of what a request asks of a text: a row for each output, which is asked about alone.
pub(crate) fn table<'n, 'w, 'a, W: TableWatch, R: Threads + Wait + Sync>(
    rt: &R,
    alloc: Global,
    text: &'n [u8],
    reading: &Reading<'_>,
    search: &'a Search<'w>,
    stop: &'a Stop,
    watch: &mut W,
) -> Result<Outcome, Refusal<'n, 'w>>
    ensures says { IfOk result (IsTrueTable text.now reading.now search.now) }
    ensures certified { IfOk result (λ outcome. outcome.certificate ≡ Nothing) }
    ensures written { IfOk result CanBeWritten }
    ensures refusal { IfErr result (IsRefusedSearch text.now reading.now search.now) }
    ensures heard { IfOk result (λ outcome. HeardRows (λ rows. W.heard rows watch.old watch.new) outcome.report) }
    ensures reported { (watch.new ≡ watch.old)
        ⊎ ((asked : Problem) × IsAsked text.now reading.now search.now.question asked.setting asked.admit × W.reported asked watch.old watch.new) }
{
    let Asked {
        circuit,
        admit,
        keep,
        ..
    } = question_of(alloc, text, reading, &search.question)?;
    stop.gauge.end_reading();
    let mut report = begun(alloc, &circuit)?;
    let sample = sample_of(alloc, &circuit, &admit)?;
    let outlooks = outlooks(alloc, &circuit, &admit, &sample)?;
    let mut outputs = EachOutput::of(alloc, circuit)?;
    let inquiry = Inquiry {
        admit: &admit,
        keep: &keep,
        search,
        limits: limits_of(&search.effort, stop),
    };
    let rows = rows(rt, alloc, &mut outputs, &outlooks, inquiry, watch)?;
    let status = ending(asks_figures(search.table), &rows);
    push_rows(&mut report, rows)?;
    Ok(Outcome {
        report,
        certificate: None,
        dump: None,
        status,
        verdict: None,
    })
}
