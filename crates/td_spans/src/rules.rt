//! The ends of gates' outputs by the ends of their inputs.

ghost use Rattle.std.specs.Prelude.{◌≡◌, ◌<◌, ◌≤◌, false, true, min, map, get_or, length};
ghost use Rattle.td_gates.specs.Table.{TakesInputs};
ghost use Rattle.td_circuit.specs.Views.{gate_of};
ghost use Rattle.td_spans.specs.Targets.{steps_to};
ghost use Rattle.td_spans.specs.Lookups.{the_gate};
ghost use Rattle.td_spans.specs.Lowering.{lowered};
ghost use Rattle.td_spans.specs.Rules.{greatest_for, greatest_of, put_off, end_by, no_times, times_of, ends_of};

use crate::times::{Places, Times};
use td_circuit::{Circuit, Gate};
use td_gates::{Delay, Kind, Level};

/// The gate at a place.
pub fn gate_at(circuit: &Circuit, place: usize) -> &Gate
    requires { place < length circuit.now.gates }
    ensures kind { result.now.kind ≡ (the_gate circuit.now place).kind }
    ensures delay { result.now.delay ≡ (the_gate circuit.now place).delay }
    ensures inputs { result.now.inputs.items ≡ (the_gate circuit.now place).inputs }
    ensures whole { gate_of result.now ≡ the_gate circuit.now place }
    ensures takes { TakesInputs (the_gate circuit.now place).kind (length (the_gate circuit.now place).inputs) }
    ensures few { length (the_gate circuit.now place).inputs ≤ 1023 }
{
    &circuit.gates()[place]
}

/// The steps that a change to a level takes.
pub fn steps_to(delay: Delay, level: bool) -> u64
    ensures steps { result ≡ steps_to delay level }
    ensures some { 1 ≤ result }
    ensures few { result ≤ 1000000000 }
{
    let to = if level { Level::One } else { Level::Zero };
    delay.to(to)
}

// What there is of a net without times.
fn no_times() -> Times
    ensures { result ≡ no_times }
{
    Times {
        early: None,
        ends: Places { zero: 0, one: 0 },
    }
}

/// The times of a net.
pub fn time_of(times: &[Times], net: u32) -> Times
    ensures { result ≡ get_or times.now net no_times }
{
    let at = net as usize;
    if at < times.len() {
        times[at]
    } else {
        no_times()
    }
}

// The greatest of an input's places for the levels at which it counts.
fn greatest_for(kind: Kind, level: bool, places: Places) -> u64
    ensures { result ≡ greatest_for kind level places }
{
    match kind {
        Kind::And => places.at(level),
        Kind::Nand => places.at(!level),
        Kind::Or => places.at(level),
        Kind::Nor => places.at(!level),
        Kind::Xor => places.zero.max(places.one),
        Kind::Xnor => places.zero.max(places.one),
        Kind::Buf => places.at(level),
        Kind::Not => places.at(!level),
    }
}

// The greatest of the inputs' ends for the levels at which they count.
fn greatest_of(times: &[Times], inputs: &[u32], kind: Kind, level: bool) -> u64
    ensures { result ≡ greatest_of kind level (ends_of (times_of times.now inputs.now)) }
{
    let mut greatest = 0;
    for input in inputs {
        greatest = greatest_for(kind, level, time_of(times, *input).ends).max(greatest);
    }
    greatest
}

// A place later by these steps, where it isn't 0, and at most another place.
fn put_off(place: u64, steps: u64, most: u64) -> u64
    ensures { result ≡ min most (put_off place steps) }
{
    if place == 0 {
        0
    } else if place >= most {
        most
    } else if most - place <= steps {
        most
    } else {
        place + steps
    }
}

// The end of a gate's output for a level by the ends of its inputs, and at most this place.
fn end_within(times: &[Times], gate: &Gate, level: bool, most: u64) -> u64
    ensures { result ≡ min most (end_by gate.now.kind gate.now.delay (times_of times.now gate.now.inputs.items) level) }
{
    let steps = steps_to(gate.delay, level);
    put_off(
        greatest_of(times, &gate.inputs, gate.kind, level),
        steps,
        most,
    )
}

/// The times of a gate's output, with ends of at most those by the ends of its inputs.
pub fn times_again(times: &[Times], gate: &Gate, it: Times) -> Times
    ensures { result ≡ lowered (lowered it false (end_by gate.now.kind gate.now.delay (times_of times.now gate.now.inputs.items) false)) true (end_by gate.now.kind gate.now.delay (times_of times.now gate.now.inputs.items) true) }
{
    Times {
        early: it.early,
        ends: Places {
            zero: end_within(times, gate, false, it.ends.zero),
            one: end_within(times, gate, true, it.ends.one),
        },
    }
}
