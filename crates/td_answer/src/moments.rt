//! When the outputs of a run change last.

ghost use Rattle.std.specs.Prelude.{◌≡◌, ◌<◌, ◌++◌, length, map, slice_get, Some as Present, IfOk, OnOk};
ghost use Rattle.td_gates.specs.Wave.{Wave, last};
ghost use Rattle.td_nets.specs.Netlist.{Name, Net};
ghost use Rattle.td_circuit.specs.Numbering.{nets};
ghost use Rattle.td_lines.specs.declared.line.Line.TheVariants as line;
ghost use Rattle.td_answer.specs.Names.{label};
ghost use Rattle.td_answer.specs.Runs.{AreLasts};
ghost use Rattle.td_answer.specs.Additions.{AddsLines, waves_in};
ghost use Rattle.td_answer.specs.Simulations.{IsRunReport, AreLastsOf, latest_in, IsFirstRow, TellLastOf, told_lines};

use crate::beside::output_line;
use crate::head::begun;
use crate::names::label;
use std::alloc::{AllocError, Global};
use td_circuit::Circuit;
use td_lines::{Last, Line, Report};
use td_run::{Kept, Run};

/// When each output changes last in a run.
pub(crate) fn run_lasts(
    alloc: Global,
    circuit: &Circuit,
    run: &Run,
) -> Result<Vec<Last>, AllocError>
    requires { length run.now.waves ≡ length (nets circuit.now) }
    ensures { IfOk result (λ rows. AreLastsOf circuit.now (waves_in circuit.now run.now) rows.items) }
{
    let _gates = circuit.gates();
    let mut rows = Vec::new(alloc);
    for output in circuit.outputs() {
        let name = label(alloc, circuit.name(*output as usize))?;
        let moment = run.wave(*output).last();
        rows.push(Last {
            output: name,
            moment,
        })?;
    }
    Ok(rows)
}

/// The same by what is kept of a run.
pub(crate) fn kept_lasts(
    alloc: Global,
    circuit: &Circuit,
    kept: &Kept,
) -> Result<Vec<Last>, AllocError>
    requires { length kept.now.lasts ≡ length (nets circuit.now) }
    ensures { IfOk result (λ rows. (waves : Net → Wave)
        → kept.now.lasts ≡ map (λ net. last (waves net)) (nets circuit.now)
        → AreLastsOf circuit.now waves rows.items) }
{
    let _gates = circuit.gates();
    let mut rows = Vec::new(alloc);
    for output in circuit.outputs() {
        let name = label(alloc, circuit.name(*output as usize))?;
        let moment = kept.last(*output);
        rows.push(Last {
            output: name,
            moment,
        })?;
    }
    Ok(rows)
}

/// Appends when outputs change last, where there are any.
pub(crate) fn push_lasts(report: &mut Report, rows: Vec<Last>) -> Result<(), AllocError>
    ensures { OnOk result (AddsLines (AreLasts rows.items) report.old report.new) }
{
    if rows.is_empty() {
        return Ok(());
    }
    report.add(Line::Lasts(rows))
}

/// The latest of these moments, 0 where there is none.
fn latest_in(rows: &[Last]) -> u64
    ensures { result ≡ latest_in rows.now }
{
    let mut latest = 0;
    for row in rows {
        latest = latest.max(row.moment.unwrap_or(0));
    }
    latest
}

/// The place of the first row with a moment, if there is one.
fn place_of(rows: &[Last], moment: u64) -> Option<usize>
    ensures { IsFirstRow rows.now moment result }
{
    for place in 0..rows.len() {
        if rows[place].moment == Some(moment) {
            return Some(place);
        }
    }
    None
}

/// The line of the output at a place.
fn line_at(alloc: Global, circuit: &Circuit, place: usize) -> Result<Line, AllocError>
    requires { place < length circuit.now.netlist.outputs }
    ensures { IfOk result (λ told. (name : Name)
        → slice_get circuit.now.netlist.outputs place ≡ Present name → told ≡ line.Output (label name)) }
{
    // For the prover: this call says how the nets have their numbers.
    let _gates = circuit.gates();
    let outputs = circuit.outputs();
    output_line(alloc, circuit, outputs[place])
}

/// Which output changes last, where it is asked for and one does.
fn latest_of(
    alloc: Global,
    circuit: &Circuit,
    rows: &[Last],
    outputs: bool,
) -> Result<Option<Line>, AllocError>
    requires { length rows.now ≡ length circuit.now.netlist.outputs }
    ensures { IfOk result (λ told. TellLastOf outputs circuit.now rows.now (told_lines told)) }
{
    if !outputs {
        return Ok(None);
    }
    match place_of(rows, latest_in(rows)) {
        Some(place) => {
            let told = line_at(alloc, circuit, place)?;
            Ok(Some(told))
        }
        None => Ok(None),
    }
}

/// Appends a line, if there is one.
fn push_told(report: &mut Report, told: Option<Line>) -> Result<(), AllocError>
    ensures { OnOk result (report.new ≡ report.old ++ told_lines told) }
{
    match told {
        Some(told) => report.add(told),
        None => Ok(()),
    }
}

/// The report of a run by its rows: when each output changes last, the latest of these moments, and
/// where it is asked for, which output changes then.
pub(crate) fn report_of(
    alloc: Global,
    circuit: &Circuit,
    rows: Vec<Last>,
    outputs: bool,
) -> Result<Report, AllocError>
    requires { length rows.items ≡ length circuit.now.netlist.outputs }
    ensures { IfOk result (λ report. (waves : Net → Wave) → AreLastsOf circuit.now waves rows.items
        → IsRunReport outputs circuit.now.netlist waves report) }
{
    let mut report = begun(alloc, circuit)?;
    let time = latest_in(&rows);
    let told = latest_of(alloc, circuit, &rows, outputs)?;
    push_lasts(&mut report, rows)?;
    report.add(Line::Time(time))?;
    push_told(&mut report, told)?;
    Ok(report)
}
