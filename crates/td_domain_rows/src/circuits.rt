//! Small circuits and runs, for the tests.

ghost use Rattle.std.specs.Prelude.{◌≡◌, ◌≤◌, length, IfOk};
ghost use Rattle.std.specs.List.{All};

use crate::texts::{generated_text, next, random};
use std::alloc::{AllocError, Global};
use td_circuit::{Circuit, build};
use td_gates::{Delay, Level};
use td_netlist::read;
use td_run::waves;

/// The circuit of a text whose gates have delay 1 unless it says otherwise, if it has one.
pub fn circuit_of(alloc: Global, text: &str) -> Option<Circuit> {
    let default = Delay::new(1, 1)?;
    let Ok(netlist) = read(alloc, text.as_bytes(), default) else {
        return None;
    };
    match build(alloc, netlist) {
        Ok(circuit) => Some(circuit),
        Err(_) => None,
    }
}

/// These moments, none of them later than an input may change.
pub fn moments_of(alloc: Global, moments: &[u64]) -> Result<Vec<u64>, AllocError>
    ensures count { IfOk result (λ own. length own.items ≡ length moments.now) }
    ensures within { IfOk result (λ own. All (λ moment. moment ≤ 1000000000) own.items) }
{
    let mut own = Vec::new(alloc);
    for moment in moments {
        own.push((*moment).min(1_000_000_000))?;
    }
    Ok(own)
}

/// The same circuit with inputs that change at these moments, if there is one for each.
pub fn at(alloc: Global, mut circuit: Circuit, moments: &[u64]) -> Option<Circuit> {
    let Ok(own) = moments_of(alloc, moments) else {
        return None;
    };
    if own.len() != circuit.input_count() {
        return None;
    }
    circuit.set_moments(own);
    Some(circuit)
}

/// A moment from 0 to 7 for each of `inputs` inputs, about half of them 0. The moments follow from
/// a number.
fn random_moments(alloc: Global, inputs: usize, seed: u64) -> Result<Vec<u64>, AllocError> {
    let mut seed = seed;
    let mut moments = Vec::new(alloc);
    for _ in 0..inputs {
        seed = next(seed);
        moments.push(random(seed, 14).saturating_sub(6))?;
    }
    Ok(moments)
}

/// A circuit that follows from a number. It has `inputs` inputs, from 1 to 3, which change at
/// moments from 0 to 7, and `gates` gates, whose delays are from 1 to 4.
pub fn generated(alloc: Global, inputs: u64, gates: u64, seed: u64) -> Option<Circuit> {
    let Ok(text) = generated_text(alloc, inputs, gates, seed) else {
        return None;
    };
    let circuit = circuit_of(alloc, &text)?;
    let Ok(moments) = random_moments(alloc, circuit.input_count(), next(seed ^ 77)) else {
        return None;
    };
    at(alloc, circuit, &moments)
}

/// The `count` lowest bits of a number, the least first.
pub fn bits_of(alloc: Global, number: u32, count: usize) -> Result<Vec<bool>, AllocError>
    ensures { IfOk result (λ bits. length bits.items ≡ count) }
{
    let mut bits = Vec::new(alloc);
    let mut rest = number;
    for _ in 0..count {
        bits.push(rest % 2 == 1)?;
        rest /= 2;
    }
    Ok(bits)
}

/// How many numbers of `count` bits there are. The count is 31 at most.
pub fn vectors_of(count: usize) -> u32 {
    let mut vectors = 1u32;
    for _ in 0..count {
        vectors = vectors.saturating_mul(2);
    }
    vectors
}

/// The levels of these bits.
pub fn levels_of(alloc: Global, bits: &[bool]) -> Result<Vec<Level>, AllocError>
    ensures { IfOk result (λ levels. length levels.items ≡ length bits.now) }
{
    let mut levels = Vec::new(alloc);
    for bit in bits {
        levels.push(Level::from(*bit))?;
    }
    Ok(levels)
}

/// The delay of two vectors by waves.
pub fn delay_by_waves(
    alloc: Global,
    circuit: &Circuit,
    first: &[bool],
    second: &[bool],
) -> Result<u64, AllocError>
    requires first { length first.now ≡ length circuit.now.netlist.inputs }
    requires second { length second.now ≡ length circuit.now.netlist.inputs }
{
    let firsts = levels_of(alloc, first)?;
    let seconds = levels_of(alloc, second)?;
    Ok(waves(alloc, circuit, &firsts, &seconds)?.last_of_outputs())
}
