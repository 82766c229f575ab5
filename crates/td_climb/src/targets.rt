//! The targets of gates with any number of inputs.

use crate::joining::Join;
use crate::rooms::Rooms;
use crate::waves::{Waves, quiet};
use std::alloc::{AllocError, Global};
use std::mem;
use td_circuit::{Circuit, Gate};

/// How often parts are joined two by two until one is left, of as many as a gate may have.
const ROUNDS: usize = 10;

/// The target of a gate, and room for what it is joined from, used again for each gate.
#[derive(Debug, Drop)]
pub struct Targets {
    /// What two inputs each are joined to, then what two of these are, and so on to one.
    parts: Vec<Waves>,
    spare: Waves,
}

impl Targets {
    /// Room for the gates of a circuit. The error is out of memory.
    pub fn new(alloc: Global, circuit: &Circuit) -> Result<Self, AllocError> {
        let mut widest = 1;
        for gate in circuit.gates() {
            widest = widest.max(gate.inputs.len());
        }
        Ok(Targets {
            parts: quiet(alloc, widest.div_ceil(2))?,
            spare: Waves::new(alloc),
        })
    }

    /// Makes the target of a gate from the waves of its inputs. The error is out of memory.
    pub fn make(&mut self, rooms: &Rooms<Waves>, gate: &Gate) -> Result<(), AllocError> {
        let join = Join::of(gate.kind);
        let inputs: &[u32] = &gate.inputs;
        for (pair, part) in inputs.chunks(2).zip(self.parts.iter_mut()) {
            join_nets(join, rooms, pair, part)?;
        }
        let mut count = inputs.len().div_ceil(2);
        for _ in 0..ROUNDS {
            if count < 2 {
                break;
            }
            count = join_parts(join, &mut self.parts, count, &mut self.spare)?;
        }
        Ok(())
    }

    /// The target that was made last, before it is negated.
    pub fn target(&self) -> &Waves {
        match self.parts.first() {
            Some(target) => target,
            None => &self.spare,
        }
    }
}

/// What one or two nets are joined to. The error is out of memory.
fn join_nets(
    join: Join,
    rooms: &Rooms<Waves>,
    nets: &[u32],
    part: &mut Waves,
) -> Result<(), AllocError> {
    match nets {
        [one, other] => {
            if let (Some(one), Some(other)) = (rooms.of(*one), rooms.of(*other)) {
                join.join(one, other, part)?;
            }
        }
        [one] => {
            if let Some(one) = rooms.of(*one) {
                part.copy_from(one)?;
            }
        }
        _ => {}
    }
    Ok(())
}

/// Joins `count` parts two by two, and answers how many are left. The error is out of memory.
fn join_parts(
    join: Join,
    parts: &mut [Waves],
    count: usize,
    spare: &mut Waves,
) -> Result<usize, AllocError> {
    let pairs = count / 2;
    for place in 0..pairs {
        join_pair(join, parts, place, spare)?;
    }
    if count % 2 == 1 && count <= parts.len() {
        parts.swap(pairs, count - 1);
    }
    Ok(count.div_ceil(2))
}

/// Puts the pair of parts with this number, joined, where the part with this number is. The error
/// is out of memory.
fn join_pair(
    join: Join,
    parts: &mut [Waves],
    pair: usize,
    spare: &mut Waves,
) -> Result<(), AllocError> {
    let first = pair.saturating_mul(2);
    if let (Some(one), Some(other)) = (parts.get(first), parts.get(first.saturating_add(1))) {
        join.join(one, other, spare)?;
    }
    if let Some(part) = parts.get_mut(pair) {
        mem::swap(part, spare);
    }
    Ok(())
}
