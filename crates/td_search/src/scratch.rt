//! What a search uses again for each of its nodes.

ghost use Rattle.std.specs.Prelude.{◌≡◌, ◌*◌, length, IfOk};
ghost use Rattle.td_search.specs.Sheeted.{IsScratch};

use crate::branching::Branching;
use crate::representatives::no_bits;
use crate::sheets::Sheets;
use std::alloc::{AllocError, Global};
use td_circuit::Circuit;
use td_domain::{Cube, Pair};
use td_event_sim::Scratch as Events;

/// Room to measure pairs of a circuit and for the pair itself, a sheet of each domain of `least`,
/// and what `lead` needs beside, once it was asked for.
#[derive(Drop)]
pub struct Scratch {
    pub events: Events,
    pub pair: Pair,
    pub sheets: Sheets,
    pub branching: Option<Branching>,
}

impl Scratch {
    /// The scratch of a circuit, with the sheets of a cube. The error is out of memory.
    pub fn new(alloc: Global, circuit: &Circuit, cube: &Cube) -> Result<Scratch, AllocError>
        requires { length cube.now ≡ 2 * length circuit.now.netlist.inputs }
        ensures scratch { IfOk result (IsScratch circuit.now) }
        ensures arrival { IfOk result (λ scratch. scratch.sheets.arrival.cube ≡ cube.now) }
        ensures possible { IfOk result (λ scratch. scratch.sheets.possible.cube ≡ cube.now) }
    {
        let events = Events::new(alloc, circuit)?;
        let sheets = Sheets::new(alloc, circuit, cube)?;
        Ok(Scratch {
            events,
            pair: no_bits(alloc),
            sheets,
            branching: None,
        })
    }
}
