//! The gates from which an output can be reached: no other one matters to a delay.

use std::alloc::{AllocError, Global};
use td_circuit::Circuit;

/// Which gates of a circuit lead to an output.
#[derive(Debug, Drop)]
pub struct Cone {
    leads: Vec<bool>,
}

impl Cone {
    /// That of a circuit's outputs. The error is out of memory.
    pub fn of(alloc: Global, circuit: &Circuit) -> Result<Cone, AllocError> {
        let first = circuit.first_gate() as usize;
        let gates = circuit.gates();
        let mut nets = vec![in alloc; false; circuit.net_count()]?;
        mark(&mut nets, circuit.outputs());
        for place in (0..gates.len()).rev() {
            if leads(&nets, first.saturating_add(place)) {
                mark(&mut nets, &gates[place].inputs);
            }
        }
        Ok(Cone { leads: nets })
    }

    /// Whether a net lies on the way to an output.
    pub fn has(&self, net: usize) -> bool {
        leads(&self.leads, net)
    }
}

/// Notes that these nets lead to an output.
fn mark(leads: &mut [bool], nets: &[u32]) {
    for net in nets {
        if let Some(slot) = leads.get_mut(*net as usize) {
            *slot = true;
        }
    }
}

fn leads(nets: &[bool], net: usize) -> bool {
    match nets.get(net) {
        Some(leads) => *leads,
        None => false,
    }
}
