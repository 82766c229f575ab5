//! Where the gates of a circuit stand in its netlist.

ghost use Rattle.std.specs.Prelude.{IfOk};
ghost use Rattle.td_circuit.specs.Numbering.{IsNumbering};
ghost use Rattle.td_path.specs.Walks.{ArePlaces};

use std::alloc::{AllocError, Global};
use td_circuit::Circuit;

/// The place in the netlist of each gate, in the circuit's order.
pub fn places_of(alloc: Global, circuit: &Circuit) -> Result<Vec<usize>, AllocError>
    ensures places { IfOk result (λ places. ArePlaces circuit.now places.items) }
    ensures numbering { IsNumbering circuit.now }
{
    let gates = circuit.gates();
    let first = circuit.first_gate() as usize;
    let mut places = vec![in alloc; 0; gates.len()]?;
    for (place, net) in circuit.gate_outputs().iter().enumerate() {
        places[*net as usize - first] = place;
    }
    Ok(places)
}
