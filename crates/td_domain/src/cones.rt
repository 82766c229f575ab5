//! What a net reaches.

ghost use Rattle.std.specs.Prelude.{◌≡◌, ℕ, ◌<◌, true, false, length, slice_get, Some, IfOk};
ghost use Rattle.std.specs.List.{All, Contains};
ghost use Rattle.td_circuit.specs.Numbering.{first_output};
ghost use Rattle.td_domain.specs.Cones.{IsCone};

use std::alloc::{AllocError, Global};
use td_circuit::Circuit;

/// The outputs of the gates that read a constant or an input, directly or through other gates, in
/// topological order.
pub fn cone(alloc: Global, circuit: &Circuit, net: usize) -> Result<Vec<u32>, AllocError>
    requires { net < first_output circuit.now }
    ensures { IfOk result (λ cone. IsCone circuit.now net cone.items) }
{
    let gates = circuit.gates();
    let mut reached = vec![in alloc; false; circuit.net_count()]?;
    reached[net] = true;
    let mut cone = Vec::new(alloc);
    for (place, gate) in gates.iter().enumerate() {
        if reads_one(&reached, &gate.inputs) {
            let output = circuit.net_of_gate(place);
            reached[output as usize] = true;
            cone.push(output)?;
        }
    }
    Ok(cone)
}

/// Whether one of these nets is reached.
#[inline(always)]
pub fn reads_one(reached: &[bool], nets: &[u32]) -> bool
    requires { All (λ net. net < length reached.now) nets.now }
    ensures one { result ≡ true → (net : ℕ) × Contains nets.now net × (slice_get reached.now net ≡ Some true) }
    ensures none { result ≡ false → (net : ℕ) → Contains nets.now net → slice_get reached.now net ≡ Some false }
{
    for net in nets {
        if reached[*net as usize] {
            return true;
        }
    }
    false
}
