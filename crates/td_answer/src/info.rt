//! What is in a netlist.

ghost use Rattle.std.specs.Prelude.{◌≡◌, ◌++◌, IfOk, IfErr, OnOk, None as Nothing};
ghost use Rattle.td_answer.specs.Names.{label};
ghost use Rattle.td_answer.specs.Additions.{AddsLines};
ghost use Rattle.td_answer.specs.Infos.{module_name, span_of, places_from, size_lines, AreDelays, ArePlaces, AreInputs, AreOutputs, TellsNetlist, IsTrueInfo, IsRefusedInfo};
ghost use Rattle.td_answer.specs.Writing.{CanBeWritten};

use crate::names::label;
use crate::outcome::Outcome;
use crate::refusal::Refusal;
use std::alloc::{AllocError, Global};
use td_circuit::Circuit;
use td_info::{Range, depth, range_of};
use td_lines::{Label, Line, Place, Report, Span};
use td_nets::Name;
use td_question::QuestionFault;
use td_reading::Reading;
use td_source::circuit_of;

/// The module's name.
fn module(alloc: Global, circuit: &Circuit) -> Result<Label, AllocError>
    ensures { IfOk result (λ name. name ≡ label (module_name circuit.now.netlist)) }
{
    let name = Name {
        text: Vec::from_slice(alloc, circuit.module())?,
        bit: None,
    };
    label(alloc, &name)
}

/// The least and the greatest delay.
fn span_of(range: Option<Range>) -> Option<Span>
    ensures { result ≡ span_of range }
{
    match range {
        None => None,
        Some(range) => Some(Span {
            least: u64::from(range.least),
            greatest: u64::from(range.greatest),
        }),
    }
}

/// The inputs, by their places in a vector.
fn inputs(alloc: Global, circuit: &Circuit) -> Result<Vec<Place>, AllocError>
    ensures { IfOk result (λ places. places.items ≡ places_from 0 circuit.now.netlist.inputs) }
{
    let _gates = circuit.gates();
    let mut places = Vec::new(alloc);
    for input in 0..circuit.input_count() {
        let net = circuit.net_of_input(input) as usize;
        let net = label(alloc, circuit.name(net))?;
        places.push(Place {
            place: input as u64,
            net,
        })?;
    }
    Ok(places)
}

/// The outputs, by their places.
fn outputs(alloc: Global, circuit: &Circuit) -> Result<Vec<Place>, AllocError>
    ensures { IfOk result (λ places. places.items ≡ places_from 0 circuit.now.netlist.outputs) }
{
    let _gates = circuit.gates();
    let mut places = Vec::new(alloc);
    for (place, net) in circuit.outputs().iter().enumerate() {
        let net = label(alloc, circuit.name(*net as usize))?;
        places.push(Place {
            place: place as u64,
            net,
        })?;
    }
    Ok(places)
}

/// Appends the module's name, the unit of a step, and how many inputs, outputs and gates there are.
fn push_sizes(alloc: Global, report: &mut Report, circuit: &Circuit) -> Result<(), AllocError>
    ensures { OnOk result (report.new ≡ report.old ++ size_lines circuit.now.netlist) }
{
    let gates = circuit.gates();
    let name = module(alloc, circuit)?;
    report.add(Line::Module(name))?;
    report.four(
        Line::Unit(circuit.unit()),
        Line::Inputs(circuit.input_count() as u64),
        Line::Outputs(circuit.outputs().len() as u64),
        Line::Gates(gates.len() as u64),
    )
}

/// Appends how many gates the default delay serves, the depth, and the delays.
fn push_delays(alloc: Global, report: &mut Report, circuit: &Circuit) -> Result<(), AllocError>
    ensures { OnOk result (AddsLines (AreDelays circuit.now.netlist) report.old report.new) }
{
    let depth = depth(alloc, circuit)?;
    report.add(Line::Defaulted(circuit.defaulted() as u64))?;
    report.add(Line::Depth(u64::from(depth)))?;
    report.add(Line::Delay(span_of(range_of(circuit))))
}

/// Appends the inputs, where there are any.
fn push_inputs(report: &mut Report, places: Vec<Place>) -> Result<(), AllocError>
    ensures { OnOk result (AddsLines (AreInputs places.items) report.old report.new) }
{
    if places.is_empty() {
        return Ok(());
    }
    report.add(Line::InputPlaces(places))
}

/// Appends the outputs, where there are any.
fn push_outputs(report: &mut Report, places: Vec<Place>) -> Result<(), AllocError>
    ensures { OnOk result (AddsLines (AreOutputs places.items) report.old report.new) }
{
    if places.is_empty() {
        return Ok(());
    }
    report.add(Line::OutputPlaces(places))
}

/// Appends the inputs and the outputs.
fn push_places(alloc: Global, report: &mut Report, circuit: &Circuit) -> Result<(), AllocError>
    ensures { OnOk result (AddsLines (ArePlaces circuit.now.netlist) report.old report.new) }
{
    let inputs = inputs(alloc, circuit)?;
    let outputs = outputs(alloc, circuit)?;
    push_inputs(report, inputs)?;
    push_outputs(report, outputs)
}

/// The report of a circuit.
fn report_of(alloc: Global, circuit: &Circuit) -> Result<Report, AllocError>
    ensures { IfOk result (TellsNetlist circuit.now.netlist) }
{
    let mut report = Report::new(alloc);
    push_sizes(alloc, &mut report, circuit)?;
    push_delays(alloc, &mut report, circuit)?;
    push_places(alloc, &mut report, circuit)?;
    Ok(report)
}

/// What is in the netlist of a text.
pub(crate) fn info<'n, 'w>(
    alloc: Global,
    text: &'n [u8],
    reading: &Reading<'_>,
) -> Result<Outcome, Refusal<'n, 'w>>
    ensures says { IfOk result (IsTrueInfo text.now reading.now) }
    ensures certified { IfOk result (λ outcome. outcome.certificate ≡ Nothing) }
    ensures written { IfOk result CanBeWritten }
    ensures refusal { IfErr result (IsRefusedInfo text.now reading.now) }
{
    let circuit = match circuit_of(alloc, text, reading) {
        Ok(circuit) => circuit,
        Err(fault) => return Err(Refusal::Question(QuestionFault::Source(fault))),
    };
    let report = report_of(alloc, &circuit)?;
    Ok(Outcome::done(report))
}
