//! The names by which a circuit's inputs are called.

ghost use Rattle.std.specs.Prelude.{◌≡◌, map, IfOk};
ghost use Rattle.td_inputs.specs.Labels.{label_in, label_of};

use std::alloc::{AllocError, Global};
use td_circuit::Circuit;
use td_inputs::{Label, label_for};

/// The names by which the inputs of a circuit are called, in order.
pub(crate) fn input_labels(alloc: Global, circuit: &Circuit) -> Result<Vec<Label>, AllocError>
    ensures { IfOk result (λ labels. map label_in labels.items ≡ map label_of circuit.now.netlist.inputs) }
{
    let mut labels = Vec::new(alloc);
    for input in 0..circuit.input_count() {
        let net = circuit.net_of_input(input) as usize;
        let label = label_for(alloc, circuit.name(net))?;
        labels.push(label)?;
    }
    Ok(labels)
}
