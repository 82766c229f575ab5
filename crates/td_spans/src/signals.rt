//! The signals of edges for the admitted pairs of a cube, and the times that they give.

ghost use Rattle.std.specs.Prelude.{◌≡◌, ◌<◌, ◌≤◌, ◌+◌, ◌*◌, ◌^◌, ℕ, List, map, get_or, slice_get, length, Some, IfOk, OnOk};
ghost use Rattle.std.specs.List.{All};
ghost use Rattle.td_circuit.specs.Numbering.{first_output};
ghost use Rattle.td_domain.specs.declared.cubes.Trit.{Trit as TritModel};
ghost use Rattle.td_edges.specs.declared.signals.Signal.{Signal as SignalModel};
ghost use Rattle.td_edges.specs.Coverage.{span_reach};
ghost use Rattle.td_spans.specs.Changing.{sum_of, fixed_flip, fixed_at, is_so, is_still};
ghost use Rattle.td_spans.specs.Signals.{merged, still_signal, signal_by, input_at, inputs_to, gates_from, first_signals, times_from, first_times};

use crate::times::{Places, Times};
use std::alloc::{AllocError, Global};
use td_circuit::Circuit;
use td_domain::{Admit, Cube, Domain, Trit};
use td_edges::{Edges, Signal};

/// 1 where two trits are known and differ, else 0.
pub fn fixed_flip(first: Trit, second: Trit) -> usize
    ensures flip { result ≡ fixed_flip (Some first) (Some second) }
    ensures few { result ≤ 1 }
{
    match first {
        Trit::Zero => match second {
            Trit::Zero => 0,
            Trit::One => 1,
            Trit::Free => 0,
        },
        Trit::One => match second {
            Trit::Zero => 1,
            Trit::One => 0,
            Trit::Free => 0,
        },
        Trit::Free => 0,
    }
}

// How many of the first inputs have two known trits that differ.
fn fixed_flips(cube: &Cube, held: &[bool]) -> usize
    requires { length cube.now ≡ 2 * length held.now }
    ensures { result ≡ sum_of (fixed_at cube.now) (length held.now) }
{
    let mut fixed = 0;
    for input in 0..held.len() {
        fixed += fixed_flip(cube.trit(2 * input), cube.trit(2 * input + 1));
    }
    fixed
}

/// Whether an input is held.
pub fn is_held(held: &[bool], input: usize) -> bool
    ensures { result ≡ is_so (slice_get held.now input) }
{
    match held.get(input) {
        None => false,
        Some(it) => *it,
    }
}

// The moment of an input.
fn moment_of(moments: &[u64], input: usize) -> u64
    requires { All (λ moment. moment ≤ 1000000000) moments.now }
    ensures moment { result ≡ get_or moments.now input 0 }
    ensures few { result ≤ 1000000000 }
{
    if input < moments.len() {
        moments[input]
    } else {
        0
    }
}

// A trit, or the other one where it is free.
fn merged(trit: Trit, other: Trit) -> Trit
    ensures { result ≡ merged trit other }
{
    match trit {
        Trit::Zero => Trit::Zero,
        Trit::One => Trit::One,
        Trit::Free => other,
    }
}

// The signal of an input that never changes.
fn still_signal(first: Trit, second: Trit) -> Signal
    ensures { result ≡ still_signal first second }
{
    Signal {
        start: merged(first, second).level(),
        finish: merged(second, first).level(),
        changes: None,
    }
}

// The signal of an input with these trits, which is still, or isn't.
fn signal_by(still: bool, first: Trit, second: Trit, moment: u64) -> Result<Signal, AllocError>
    requires { moment ≤ 1000000000 }
    ensures { IfOk result (λ signal. signal ≡ signal_by still (Some first) (Some second) moment) }
{
    if still {
        Ok(still_signal(first, second))
    } else {
        Edges::input(&mut (), first, second, moment)
    }
}

// Whether an input is still.
fn is_still(admit: &Admit, fixed: usize, flip: usize, input: usize) -> bool
    ensures { (inputs : ℕ) (cube : List TritModel) → fixed ≡ sum_of (fixed_at cube) inputs → flip ≡ fixed_at cube input → result ≡ is_still admit.now cube inputs input }
{
    is_held(admit.held(), input) || admit.flips() as usize <= fixed.saturating_sub(flip)
}

// The signal of an input.
fn input_at(
    admit: &Admit,
    cube: &Cube,
    moments: &[u64],
    fixed: usize,
    inputs: usize,
    input: usize,
) -> Result<Signal, AllocError>
    requires fixed { fixed ≡ sum_of (fixed_at cube.now) inputs }
    requires whole { length cube.now ≡ 2 * inputs }
    requires low { input < inputs }
    requires long { length moments.now ≡ inputs }
    requires few { All (λ moment. moment ≤ 1000000000) moments.now }
    ensures { IfOk result (λ signal. signal ≡ input_at admit.now cube.now moments.now inputs input) }
{
    let first = cube.trit(2 * input);
    let second = cube.trit(2 * input + 1);
    let still = is_still(admit, fixed, fixed_flip(first, second), input);
    signal_by(still, first, second, moment_of(moments, input))
}

// Adds the signals of the inputs. The error is out of memory.
fn add_inputs(
    admit: &Admit,
    cube: &Cube,
    moments: &[u64],
    inputs: usize,
    signals: &mut Vec<Signal>,
) -> Result<(), AllocError>
    requires held { length admit.now.held ≡ inputs }
    requires whole { length cube.now ≡ 2 * inputs }
    requires long { length moments.now ≡ inputs }
    requires few { All (λ moment. moment ≤ 1000000000) moments.now }
    requires constants { signals.old.items ≡ inputs_to admit.now cube.now moments.now inputs 0 }
    ensures { OnOk result (signals.new.items ≡ inputs_to admit.now cube.now moments.now inputs inputs) }
{
    let fixed = fixed_flips(cube, admit.held());
    for input in 0..inputs {
        signals.push(input_at(admit, cube, moments, fixed, inputs, input)?)?;
    }
    Ok(())
}

// Adds the signals of the gates' outputs. The error is out of memory.
fn add_gates(circuit: &Circuit, signals: &mut Vec<Signal>) -> Result<(), AllocError>
    requires count { length signals.old.items ≡ first_output circuit.now }
    requires near { (net : ℕ) (signal : SignalModel) → slice_get signals.old.items net ≡ Some signal → span_reach signal.changes ≤ (net + 1) * 10 ^ 9 }
    ensures { OnOk result (signals.new.items ≡ gates_from signals.old.items circuit.now.gates) }
{
    for gate in circuit.gates() {
        let signal = Edges::gate(&mut (), gate.kind, gate.delay, signals, &gate.inputs)?;
        signals.push(signal)?;
    }
    Ok(())
}

// The signals of all nets. The error is out of memory.
fn first_signals(
    alloc: Global,
    circuit: &Circuit,
    admit: &Admit,
    cube: &Cube,
) -> Result<Vec<Signal>, AllocError>
    requires held { length admit.now.held ≡ length circuit.now.netlist.inputs }
    requires cube { length cube.now ≡ 2 * length circuit.now.netlist.inputs }
    ensures { IfOk result (λ signals. signals.items ≡ first_signals circuit.now admit.now cube.now) }
{
    let moments = circuit.moments();
    let mut signals = Vec::new(alloc);
    signals.push(Edges::constant(alloc, false)?)?;
    signals.push(Edges::constant(alloc, true)?)?;
    add_inputs(admit, cube, moments, circuit.input_count(), &mut signals)?;
    add_gates(circuit, &mut signals)?;
    Ok(signals)
}

// The times that a signal gives.
fn times_from(signal: Signal) -> Times
    ensures { result ≡ times_from signal }
{
    match signal.changes {
        None => Times {
            early: None,
            ends: Places { zero: 0, one: 0 },
        },
        Some(span) => Times {
            early: Some(span.earliest),
            ends: Places {
                zero: span.falls_until,
                one: span.rises_until,
            },
        },
    }
}

/// The first times of all nets, for the admitted pairs of a cube. The error is out of memory.
pub fn first_times(
    alloc: Global,
    circuit: &Circuit,
    admit: &Admit,
    cube: &Cube,
) -> Result<Vec<Times>, AllocError>
    requires held { length admit.now.held ≡ length circuit.now.netlist.inputs }
    requires cube { length cube.now ≡ 2 * length circuit.now.netlist.inputs }
    ensures { IfOk result (λ times. times.items ≡ first_times circuit.now admit.now cube.now) }
{
    let signals = first_signals(alloc, circuit, admit, cube)?;
    let mut times = Vec::new(alloc);
    let all: &[Signal] = &signals;
    for signal in all {
        times.push(times_from(*signal))?;
    }
    Ok(times)
}
