//! Nets by the numbers that certificates name them by.

use std::alloc::{AllocError, Global};
use td_cdcl::{read, write_at};
use td_circuit::Circuit;

/// By net the number that names it: the constants, the inputs, and then the outputs of the gates in
/// the netlist's order.
#[derive(Drop)]
pub struct Names {
    numbers: Vec<u64>,
}

impl Names {
    /// The numbers of a circuit's nets. The error is out of memory.
    pub fn new(alloc: Global, circuit: &Circuit) -> Result<Names, AllocError> {
        let first_gate = circuit.first_gate() as usize;
        let mut numbers = Vec::with_capacity(alloc, circuit.net_count())?;
        for net in 0..circuit.net_count() {
            numbers.push(net as u64)?;
        }
        for (gate, net) in circuit.gate_outputs().iter().enumerate() {
            let number = first_gate.saturating_add(gate) as u64;
            write_at(&mut numbers, *net as usize, number);
        }
        Ok(Names { numbers })
    }

    /// The number of a net.
    pub fn of(&self, net: u32) -> u64 {
        read(&self.numbers, net as usize, 0)
    }
}
