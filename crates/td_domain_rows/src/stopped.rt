//! Simulations that a stop ends.

ghost use Rattle.std.specs.Prelude.{◌≡◌, length, IfOk};

use crate::circuits::{bits_of, circuit_of};
use crate::texts::doubling_text;
use std::alloc::{AllocError, Global};
use std::test::*;
use td_circuit::Circuit;
use td_domain::Pair;
use td_event_sim::{Interruption, Scratch, delay_of, delay_until};
use td_stop::Stop;

/// The levels of a circuit whose simulation takes a billion events and more.
const MANY: u32 = 29;

/// The circuit of some levels whose changes double, after which a second input is delayed by 3.
fn doubling(alloc: Global, levels: u32) -> Result<Circuit, Fail> {
    let text = doubling_text(alloc, levels)?;
    Ok(circuit_of(alloc, &text).ok_or("a circuit")?)
}

/// The pair from all inputs at 0 to a vector of these bits, the least first.
fn pair_to(alloc: Global, circuit: &Circuit, second: u32) -> Result<Pair, AllocError>
    ensures first { IfOk result (λ pair. length pair.first ≡ length circuit.now.netlist.inputs) }
    ensures second { IfOk result (λ pair. length pair.second ≡ length circuit.now.netlist.inputs) }
{
    let inputs = circuit.input_count();
    let first = bits_of(alloc, 0, inputs)?;
    let second = bits_of(alloc, second, inputs)?;
    Ok(Pair::new(first, second))
}

/// A stop that is set.
fn set() -> Stop {
    let stop = Stop::new();
    stop.set();
    stop
}

/// A long simulation ends by its stop, and the scratch serves another one.
#[test]
fn long_simulation_ends(rt: HostRuntime) -> Result<(), Fail> {
    let alloc = rt.alloc();
    let circuit = doubling(alloc, MANY)?;
    let long = pair_to(alloc, &circuit, 0b01)?;
    let short = pair_to(alloc, &circuit, 0b10)?;
    let mut scratch = Scratch::new(alloc, &circuit)?;
    let stopped = delay_until(&mut scratch, &circuit, &long, &set());
    assert_eq!(rt; stopped, Err(Interruption::Stopped));
    assert_eq!(rt; delay_of(&mut scratch, &circuit, &short)?, 3);
    Ok(())
}

/// A simulation of few steps ends with its delay, whatever the stop says.
#[test]
fn short_simulation_goes_on(rt: HostRuntime) -> Result<(), Fail> {
    let alloc = rt.alloc();
    let circuit = doubling(alloc, 8)?;
    let long = pair_to(alloc, &circuit, 0b01)?;
    let mut scratch = Scratch::new(alloc, &circuit)?;
    let whole = delay_of(&mut scratch, &circuit, &long)?;
    assert_eq!(rt; whole, 518);
    let mut other = Scratch::new(alloc, &circuit)?;
    let stopped = delay_until(&mut other, &circuit, &long, &set());
    assert_eq!(rt; stopped, Ok(518));
    Ok(())
}
