//! Circuits and pairs that follow from numbers.

ghost use Rattle.std.specs.Prelude.{◌≡◌, ◌≤◌, length, IfOk};
ghost use Rattle.std.specs.List.{All};

use crate::texts::{Size, netlist_text, next, random};
use std::alloc::{AllocError, Global};
use td_circuit::{Circuit, build};
use td_gates::Delay;
use td_netlist::read;

/// The circuit of a text, if it has one.
pub fn circuit_of(alloc: Global, text: &str) -> Option<Circuit> {
    let default = Delay::new(1, 1)?;
    let Ok(netlist) = read(alloc, text.as_bytes(), default) else {
        return None;
    };
    match build(alloc, netlist) {
        Ok(circuit) => Some(circuit),
        Err(_) => None,
    }
}

/// Moments for this number of inputs, half of them 0 and the others up to a limit.
fn random_moments(
    alloc: Global,
    inputs: usize,
    limit: u64,
    seed: u64,
) -> Result<Vec<u64>, AllocError>
    ensures count { IfOk result (λ moments. length moments.items ≡ inputs) }
    ensures within { IfOk result (λ moments. All (λ moment. moment ≤ 1000000000) moments.items) }
{
    let mut seed = seed;
    let mut moments = Vec::new(alloc);
    for _ in 0..inputs {
        seed = next(seed);
        let moment = random(seed, limit.saturating_mul(2)).saturating_sub(limit);
        moments.push(moment.min(1_000_000_000))?;
    }
    Ok(moments)
}

/// A circuit of this size, whose inputs change at moments up to eight of the least delays.
pub fn generated(alloc: Global, size: Size, seed: u64) -> Option<Circuit> {
    let Ok(text) = netlist_text(alloc, size, seed) else {
        return None;
    };
    let mut circuit = circuit_of(alloc, &text)?;
    let limit = size.scale.saturating_mul(8);
    let Ok(moments) = random_moments(alloc, circuit.input_count(), limit, next(seed ^ 77)) else {
        return None;
    };
    circuit.set_moments(moments);
    Some(circuit)
}
