//! Bounds of the delays of a cube of pairs.

ghost use Rattle.std.specs.Prelude.{◌≡◌, ◌<◌, ◌*◌, ◌++◌, length, true, IfOk, IfErr, OnOk, None as Nothing};
ghost use Rattle.std.specs.List.{All};
ghost use Rattle.td_circuit.specs.Numbering.{setting};
ghost use Rattle.td_certificate.specs.declared.tree.BoundedBy.TheVariants as by;
ghost use Rattle.td_certificate.specs.Accepts.{IsBoundBy};
ghost use Rattle.td_answer.specs.Additions.{AddsLines};
ghost use Rattle.td_answer.specs.Bounds.{IsSoundBound, bound_lines, AreEdges, HasEdges, asks_edges, least_of, TellsBound, ReportsBounds, IsTrueBound, IsRefusedBound};
ghost use Rattle.td_answer.specs.BoundNets.{IsBoundNet, IsFirstWith};
ghost use Rattle.td_answer.specs.Writing.{CanBeWritten};

use crate::beside::output_line;
use crate::earliest::{push_earliest, sooner};
use crate::head::begun;
use crate::outcome::Outcome;
use crate::refusal::Refusal;
use crate::requirement::{met_ending, push_met};
use std::alloc::{AllocError, Global};
use td_arrival::Arrival;
use td_circuit::Circuit;
use td_domain::{Both, Cube, Domain, bound, signals};
use td_edges::Edges;
use td_lines::{Figure, Line, Report};
use td_question::question_of;
use td_reading::Reading;
use td_request::{Bound, Question};
use td_ternary::Possible;

/// The bounds of a cube: by arrival windows, by possible levels, and by both at once.
#[derive(Clone, Copy, Drop)]
struct Figures {
    arrivals: Option<u64>,
    possibles: Option<u64>,
    both: Option<u64>,
}

fn bounds_of(alloc: Global, circuit: &Circuit, cube: &Cube) -> Result<Figures, AllocError>
    requires { length cube.now ≡ 2 * length circuit.now.netlist.inputs }
    ensures arrivals { IfOk result (λ bounds. IsSoundBound by.Arrival (setting circuit.now) cube.now bounds.arrivals) }
    ensures possibles { IfOk result (λ bounds. IsSoundBound by.Possible (setting circuit.now) cube.now bounds.possibles) }
    ensures both { IfOk result (λ bounds. IsSoundBound by.Both (setting circuit.now) cube.now bounds.both) }
{
    let arrivals = bound::<Arrival>(alloc, circuit, cube)?;
    let possibles = bound::<Possible>(alloc, circuit, cube)?;
    let both = bound::<Both<Arrival, Possible>>(alloc, circuit, cube)?;
    Ok(Figures {
        arrivals,
        possibles,
        both,
    })
}

/// Appends the lines of the bounds.
fn push_bounds(report: &mut Report, bounds: Figures) -> Result<(), AllocError>
    ensures { OnOk result (report.new ≡ report.old ++ bound_lines bounds.arrivals bounds.possibles bounds.both) }
{
    report.add(Line::Bound(Figure::Arrivals, bounds.arrivals))?;
    report.add(Line::Bound(Figure::Possibles, bounds.possibles))?;
    report.add(Line::Bound(Figure::Both, bounds.both))
}

/// Whether the bounds by edges are asked for, or a moment is required.
fn asks_edges(asked: &Bound<'_>) -> bool
    ensures { result ≡ asks_edges asked.now }
{
    asked.edges || asked.required.is_some()
}

/// Appends the lines of the bounds by edges, alone and with possible levels, where they are asked
/// for. Gives the lesser of the two.
fn push_edges(
    alloc: Global,
    report: &mut Report,
    circuit: &Circuit,
    cube: &Cube,
    edges: bool,
) -> Result<Option<u64>, AllocError>
    requires { length cube.now ≡ 2 * length circuit.now.netlist.inputs }
    ensures { IfOk result (λ least. AddsLines (HasEdges edges (setting circuit.now) cube.now least) report.old report.new) }
{
    if edges {
        push_by_edges(alloc, report, circuit, cube)
    } else {
        Ok(None)
    }
}

/// Appends the lines of the bounds by edges, alone and with possible levels. Gives the lesser of
/// the two.
fn push_by_edges(
    alloc: Global,
    report: &mut Report,
    circuit: &Circuit,
    cube: &Cube,
) -> Result<Option<u64>, AllocError>
    requires { length cube.now ≡ 2 * length circuit.now.netlist.inputs }
    ensures { IfOk result (λ least. AddsLines (AreEdges (setting circuit.now) cube.now least) report.old report.new) }
{
    let alone = bound::<Edges>(alloc, circuit, cube)?;
    let together = bound::<Both<Edges, Possible>>(alloc, circuit, cube)?;
    report.add(Line::Bound(Figure::Edges, alone))?;
    report.add(Line::Bound(Figure::EdgesAndPossibles, together))?;
    Ok(sooner(alone, together))
}

/// The least of the bounds, where there is one.
fn least_of(bounds: Figures, edges: Option<u64>) -> Option<u64>
    ensures { result ≡ least_of bounds.arrivals bounds.possibles bounds.both edges }
{
    let one = sooner(bounds.arrivals, bounds.possibles);
    let other = sooner(bounds.both, edges);
    sooner(one, other)
}

/// The first of these nets whose signal has this last moment.
fn first_with<D: Domain>(signals: &[D::Sig], nets: &[u32], last: Option<u64>) -> Option<u32>
    requires { All (λ net. net < length signals.now) nets.now }
    ensures { IsFirstWith D.functions.last_of signals.now nets.now last result }
{
    for net in nets {
        if D::last(&signals[*net as usize]) == last {
            return Some(*net);
        }
    }
    None
}

/// The net of the first output whose own last moment by arrival windows and possible levels
/// together is the bound of the cube. None where there are no outputs.
fn net_with(
    alloc: Global,
    circuit: &Circuit,
    cube: &Cube,
    bound: Option<u64>,
) -> Result<Option<u32>, AllocError>
    requires fits { length cube.now ≡ 2 * length circuit.now.netlist.inputs }
    requires bound { IsBoundBy by.Both (setting circuit.now) cube.now bound }
    ensures { IfOk result (IsBoundNet circuit.now cube.now bound) }
{
    let signals = signals::<Both<Arrival, Possible>>(alloc, circuit, cube)?;
    let net = first_with::<Both<Arrival, Possible>>(&signals, circuit.outputs(), bound);
    Ok(net)
}

/// Appends which output has the bound of a cube.
fn push_output(
    alloc: Global,
    report: &mut Report,
    circuit: &Circuit,
    cube: &Cube,
    bound: Option<u64>,
) -> Result<(), AllocError>
    requires fits { length cube.now ≡ 2 * length circuit.now.netlist.inputs }
    requires bound { IsBoundBy by.Both (setting circuit.now) cube.now bound }
    ensures { OnOk result (AddsLines (TellsBound true (setting circuit.now) cube.now bound) report.old report.new) }
{
    match net_with(alloc, circuit, cube, bound)? {
        Some(net) => {
            let line = output_line(alloc, circuit, net)?;
            report.add(line)
        }
        None => Ok(()),
    }
}

/// The same, where it is asked for.
fn push_named(
    alloc: Global,
    report: &mut Report,
    circuit: &Circuit,
    cube: &Cube,
    bound: Option<u64>,
    outputs: bool,
) -> Result<(), AllocError>
    requires fits { length cube.now ≡ 2 * length circuit.now.netlist.inputs }
    requires bound { IsBoundBy by.Both (setting circuit.now) cube.now bound }
    ensures { OnOk result (AddsLines (TellsBound outputs (setting circuit.now) cube.now bound) report.old report.new) }
{
    if outputs {
        push_output(alloc, report, circuit, cube, bound)
    } else {
        Ok(())
    }
}

/// The report of the bounds of a cube, and the least of them.
#[derive(Drop)]
struct Reported {
    report: Report,
    least: Option<u64>,
}

fn report_of(
    alloc: Global,
    circuit: &Circuit,
    cube: &Cube,
    asked: &Bound<'_>,
) -> Result<Reported, AllocError>
    requires { length cube.now ≡ 2 * length circuit.now.netlist.inputs }
    ensures { IfOk result (λ reported. ReportsBounds asked.now (setting circuit.now) cube.now reported.least reported.report) }
{
    let mut report = begun(alloc, circuit)?;
    let bounds = bounds_of(alloc, circuit, cube)?;
    push_bounds(&mut report, bounds)?;
    let edges = push_edges(alloc, &mut report, circuit, cube, asks_edges(asked))?;
    push_named(
        alloc,
        &mut report,
        circuit,
        cube,
        bounds.both,
        asked.outputs,
    )?;
    push_earliest(alloc, &mut report, circuit, cube, asked.earliest)?;
    let least = least_of(bounds, edges);
    push_met(&mut report, asked.required, least)?;
    Ok(Reported { report, least })
}

/// The bounds of the delays of the pairs that words admit, which are those of their pins.
pub(crate) fn bounds<'n, 'w>(
    alloc: Global,
    text: &'n [u8],
    reading: &Reading<'_>,
    asked: &Bound<'w>,
) -> Result<Outcome, Refusal<'n, 'w>>
    ensures says { IfOk result (IsTrueBound text.now reading.now asked.now) }
    ensures certified { IfOk result (λ outcome. outcome.certificate ≡ Nothing) }
    ensures written { IfOk result CanBeWritten }
    ensures refusal { IfErr result (IsRefusedBound text.now reading.now asked.now) }
{
    let question = Question {
        inputs: asked.inputs,
        flips: asked.flips,
        keep_file: None,
        keep_text: None,
    };
    let about = question_of(alloc, text, reading, &question)?;
    let Reported { report, least } = report_of(alloc, &about.circuit, about.admit.pins(), asked)?;
    Ok(Outcome {
        report,
        certificate: None,
        dump: None,
        status: met_ending(asked.required, least),
        verdict: None,
    })
}
