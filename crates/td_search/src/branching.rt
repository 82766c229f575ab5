//! What a search with `lead` uses again for each of its nodes, beside the sheets of the other
//! domains.

ghost use Rattle.std.specs.Prelude.{◌≡◌, ◌*◌, length, IfOk};
ghost use Rattle.td_search.specs.Branchings.{IsBranching};

use std::alloc::{AllocError, Global};
use td_circuit::Circuit;
use td_domain::{Cube, Sheet};
use td_edges::Edges;
use td_lead::FanIn;

/// A sheet of edges, and room to find where a cube is split.
#[derive(Drop)]
pub struct Branching {
    pub edges: Sheet<Edges>,
    pub fan_in: FanIn,
}

impl Branching {
    /// The guide of a circuit, with the sheet of a cube. The error is out of memory.
    pub fn new(alloc: Global, circuit: &Circuit, cube: &Cube) -> Result<Branching, AllocError>
        requires { length cube.now ≡ 2 * length circuit.now.netlist.inputs }
        ensures branching { IfOk result (IsBranching circuit.now) }
        ensures cube { IfOk result (λ branching. branching.edges.cube ≡ cube.now) }
    {
        Ok(Branching {
            edges: Sheet::new(alloc, circuit, cube)?,
            fan_in: FanIn::new(alloc, circuit)?,
        })
    }
}
