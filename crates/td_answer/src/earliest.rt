//! The earliest change of an output, by edges.

ghost use Rattle.std.specs.Prelude.{◌≡◌, ◌<◌, ◌*◌, true, length, map, filter_map, slice_get, IfOk, OnOk};
ghost use Rattle.std.specs.List.{All};
ghost use Rattle.td_circuit.specs.Numbering.{setting};
ghost use Rattle.td_answer.specs.Additions.{AddsLines};
ghost use Rattle.td_spans.specs.Pieces.{nearest};
ghost use Rattle.td_answer.specs.Starts.{first_change, soonest, IsSoundStart, TellsStart};

use std::alloc::{AllocError, Global};
use td_circuit::Circuit;
use td_domain::{Cube, signals};
use td_edges::{Edges, Signal};
use td_lines::{Figure, Line, Report};

/// The moment before which a signal doesn't change. None where it never does.
fn first_change(signal: &Signal) -> Option<u64>
    ensures { result ≡ first_change signal.now }
{
    match signal.changes {
        None => None,
        Some(span) => Some(span.earliest),
    }
}

/// The sooner of two moments, where there are any.
pub(crate) fn sooner(one: Option<u64>, other: Option<u64>) -> Option<u64>
    ensures { result ≡ nearest one other }
{
    match (one, other) {
        (None, other) => other,
        (Some(one), None) => Some(one),
        (Some(one), Some(other)) => Some(one.min(other)),
    }
}

/// The moment before which none of these nets changes. None where none of them ever does.
fn soonest(signals: &[Signal], nets: &[u32]) -> Option<u64>
    requires { All (λ net. net < length signals.now) nets.now }
    ensures { result ≡ soonest (map first_change (filter_map (slice_get signals.now) nets.now)) }
{
    let mut first = None;
    for net in nets {
        first = sooner(first, first_change(&signals[*net as usize]));
    }
    first
}

/// The moment before which no pair of a cube changes an output. None where none ever does.
fn start_of(alloc: Global, circuit: &Circuit, cube: &Cube) -> Result<Option<u64>, AllocError>
    requires { length cube.now ≡ 2 * length circuit.now.netlist.inputs }
    ensures { IfOk result (IsSoundStart (setting circuit.now) cube.now) }
{
    let signals = signals::<Edges>(alloc, circuit, cube)?;
    let start = soonest(&signals, circuit.outputs());
    Ok(start)
}

/// Appends the moment before which no pair of a cube changes an output, where it is asked for.
pub(crate) fn push_earliest(
    alloc: Global,
    report: &mut Report,
    circuit: &Circuit,
    cube: &Cube,
    earliest: bool,
) -> Result<(), AllocError>
    requires { length cube.now ≡ 2 * length circuit.now.netlist.inputs }
    ensures { OnOk result (AddsLines (TellsStart earliest (setting circuit.now) cube.now) report.old report.new) }
{
    if earliest {
        push_start(alloc, report, circuit, cube)
    } else {
        Ok(())
    }
}

/// Appends the moment before which no pair of a cube changes an output.
fn push_start(
    alloc: Global,
    report: &mut Report,
    circuit: &Circuit,
    cube: &Cube,
) -> Result<(), AllocError>
    requires { length cube.now ≡ 2 * length circuit.now.netlist.inputs }
    ensures { OnOk result (AddsLines (TellsStart true (setting circuit.now) cube.now) report.old report.new) }
{
    let start = start_of(alloc, circuit, cube)?;
    report.add(Line::Bound(Figure::Earliest, start))
}
