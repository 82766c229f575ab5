//! Nets by the numbers that a certificate names them by.

ghost use Rattle.std.specs.Prelude.{◌≡◌, ◌-◌, MatchOption};
ghost use Rattle.td_circuit.specs.Numbering.{first_output};
ghost use Rattle.td_spans.specs.Lookups.{net_named, IsDriven};

use td_circuit::Circuit;

/// The net with a number: the constants, the inputs, and then the outputs of the gates in the
/// netlist's order.
pub fn net_named(circuit: &Circuit, number: u64) -> Option<u32>
    ensures { result ≡ net_named circuit.now number }
{
    let first = u64::from(circuit.first_gate());
    if number < first {
        return Some(number as u32);
    }
    match circuit.gate_outputs().get((number - first) as usize) {
        None => None,
        Some(net) => Some(*net),
    }
}

/// The place in the circuit's list of the gate that drives a net, if one does.
pub fn place_of(circuit: &Circuit, net: u32) -> Option<usize>
    ensures { MatchOption result (IsDriven circuit.now net → ⊥) (λ place. IsDriven circuit.now net × (place ≡ net - first_output circuit.now)) }
{
    let first = circuit.first_gate();
    if net < first {
        return None;
    }
    let place = (net - first) as usize;
    if place < circuit.gates().len() {
        Some(place)
    } else {
        None
    }
}
