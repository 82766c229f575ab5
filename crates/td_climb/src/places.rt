//! Which room each net has.

use std::alloc::{AllocError, Global};
use td_circuit::Circuit;

/// No gate.
const NOBODY: usize = usize::MAX;

/// The rooms of the nets of a circuit. A net has the room of one that no gate reads any more, so
/// that there are few.
#[derive(Drop)]
pub struct Places {
    /// The room of each net.
    pub of_nets: Vec<usize>,
    /// How many rooms there are.
    pub count: usize,
    /// The rooms that are free again.
    free: Vec<usize>,
    /// The last gate that reads each net, nobody where the net is an output, or its room is free.
    readers: Vec<usize>,
}

impl Places {
    /// Rooms for the nets of a circuit, whose levels are made in order. The error is out of memory.
    pub fn new(alloc: Global, circuit: &Circuit) -> Result<Self, AllocError> {
        let mut places = Places::of(alloc, circuit)?;
        for _ in 0..circuit.first_gate() {
            places.take()?;
        }
        for (place, gate) in circuit.gates().iter().enumerate() {
            places.take()?;
            places.release(place, &gate.inputs)?;
        }
        Ok(places)
    }

    /// Before any net of a circuit has a room. The error is out of memory.
    fn of(alloc: Global, circuit: &Circuit) -> Result<Self, AllocError> {
        let mut readers = vec![in alloc; NOBODY; circuit.net_count()]?;
        for (place, gate) in circuit.gates().iter().enumerate() {
            set_reader(&mut readers, &gate.inputs, place);
        }
        set_reader(&mut readers, circuit.outputs(), NOBODY);
        Ok(Places {
            of_nets: Vec::new(alloc),
            free: Vec::new(alloc),
            count: 0,
            readers,
        })
    }

    /// Gives the next net a room. The error is out of memory.
    fn take(&mut self) -> Result<(), AllocError> {
        let place = match self.free.pop() {
            Some(place) => place,
            None => {
                self.count = self.count.saturating_add(1);
                self.count.saturating_sub(1)
            }
        };
        self.of_nets.push(place)?;
        Ok(())
    }

    /// Frees the rooms of those of these nets that a gate is the last one to read. The error is out
    /// of memory.
    fn release(&mut self, gate: usize, nets: &[u32]) -> Result<(), AllocError> {
        for net in nets {
            self.release_net(gate, *net as usize)?;
        }
        Ok(())
    }

    /// Frees the room of a net if this gate is the last one to read it. The error is out of memory.
    fn release_net(&mut self, gate: usize, net: usize) -> Result<(), AllocError> {
        if let (Some(reader), Some(place)) = (self.readers.get_mut(net), self.of_nets.get(net)) {
            if *reader == gate {
                *reader = NOBODY;
                self.free.push(*place)?;
            }
        }
        Ok(())
    }
}

/// Writes down who reads these nets.
fn set_reader(readers: &mut [usize], nets: &[u32], reader: usize) {
    for net in nets {
        if let Some(known) = readers.get_mut(*net as usize) {
            *known = reader;
        }
    }
}
