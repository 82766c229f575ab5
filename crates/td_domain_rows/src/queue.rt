//! The delays of all pairs of generated circuits by one queue of events, those of each circuit in
//! one scratch.

ghost use Rattle.std.specs.Prelude.{◌≡◌, length};
ghost use Rattle.td_event_sim.specs.Scratch.{IsFor};

use crate::circuits::{bits_of, delay_by_waves, generated, moments_of, vectors_of};
use std::alloc::{AllocError, Global};
use std::process::Abort;
use std::test::*;
use td_circuit::Circuit;
use td_domain::Pair;
use td_event_sim::{Scratch, delay_of};

/// The delay of a pair by the queue, asked again where a growth was refused.
fn by_queue(scratch: &mut Scratch, circuit: &Circuit, pair: &Pair) -> Result<u64, AllocError>
    requires scratch { IsFor circuit.now scratch.old }
    requires first { length pair.now.first ≡ length circuit.now.netlist.inputs }
    requires second { length pair.now.second ≡ length circuit.now.netlist.inputs }
    ensures { IsFor circuit.now scratch.new }
{
    match delay_of(scratch, circuit, pair) {
        Ok(delay) => Ok(delay),
        Err(_) => delay_of(scratch, circuit, pair),
    }
}

/// Whether a pair has the same delay by waves, by the queue, and by the queue once more, which held
/// it then.
fn agrees(
    alloc: Global,
    scratch: &mut Scratch,
    circuit: &Circuit,
    before: u32,
    after: u32,
) -> Result<bool, AllocError>
    requires { IsFor circuit.now scratch.old }
    ensures { IsFor circuit.now scratch.new }
{
    let inputs = circuit.input_count();
    let first = bits_of(alloc, before, inputs)?;
    let second = bits_of(alloc, after, inputs)?;
    let by_waves = delay_by_waves(alloc, circuit, &first, &second)?;
    let pair = Pair::new(first, second);
    let once = by_queue(scratch, circuit, &pair)?;
    let again = by_queue(scratch, circuit, &pair)?;
    Ok(once == by_waves && again == by_waves)
}

/// Whether all pairs of this first vector agree.
fn all_from(
    alloc: Global,
    scratch: &mut Scratch,
    circuit: &Circuit,
    before: u32,
) -> Result<bool, AllocError>
    requires { IsFor circuit.now scratch.old }
    ensures { IsFor circuit.now scratch.new }
{
    let mut agree = true;
    for after in 0..vectors_of(circuit.input_count()) {
        agree = agrees(alloc, scratch, circuit, before, after)? && agree;
    }
    Ok(agree)
}

/// Whether all pairs of a circuit agree, in one scratch.
fn all_agree(alloc: Global, circuit: &Circuit) -> Result<bool, AllocError> {
    let mut scratch = Scratch::new(alloc, circuit)?;
    let mut agree = true;
    for before in 0..vectors_of(circuit.input_count()) {
        agree = all_from(alloc, &mut scratch, circuit, before)? && agree;
    }
    Ok(agree)
}

/// Moments that are 256 apart from input to input, so that their events stand in one slot of the
/// queue.
fn apart(alloc: Global, inputs: usize) -> Result<Vec<u64>, AllocError> {
    let mut moments = Vec::new(alloc);
    for input in 0..inputs {
        moments.push(if input % 2 == 0 { 300 } else { 44 })?;
    }
    Ok(moments)
}

/// Whether all pairs of a circuit agree, first with its own moments and then with others.
fn agree_twice(rt: &impl Abort, alloc: Global, circuit: &mut Circuit) -> Result<bool, Fail> {
    let later = moments_of(alloc, &apart(alloc, circuit.input_count())?)?;
    assert_eq!(rt; later.len(), circuit.input_count());
    let own = all_agree(alloc, circuit)?;
    circuit.set_moments(later);
    Ok(all_agree(alloc, circuit)? && own)
}

#[test]
fn delays_of_all_pairs(rt: HostRuntime) -> Result<(), Fail> {
    let alloc = rt.alloc();
    for seed in 0..100 {
        let mut circuit = generated(alloc, 1 + seed % 3, 2 + seed % 5, seed).ok_or("a circuit")?;
        assert!(rt; agree_twice(&rt, alloc, &mut circuit)?, "circuit {seed}");
    }
    Ok(())
}
