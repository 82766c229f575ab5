//! Parts of the pins.

ghost use Rattle.std.specs.Prelude.{◌≡◌, ◌*◌, length, IfOk};
ghost use Rattle.td_circuit.specs.Numbering.{setting};
ghost use Rattle.td_parts.specs.Splits.{IsTruePart, bound_of, cubes_of};

use crate::split::{Split, split_of};
use std::alloc::{AllocError, Global};
use td_domain::Cube;
use td_search::{Rule, Task};

/// A part of the pins, and where a search would split it.
#[derive(Debug, Drop)]
pub struct Part {
    pub cube: Cube,
    pub split: Option<Split>,
}

impl Part {
    /// The part of a cube. The error is out of memory, and the scratch may be used again.
    pub fn new<R: Rule>(
        task: &Task<'_, R>,
        scratch: &mut R::Scratch,
        cube: Cube,
    ) -> Result<Part, AllocError>
        requires scratch { R.is_for scratch.old task.now.problem.now.circuit.now }
        requires positions { length cube ≡ 2 * length task.now.problem.now.circuit.now.netlist.inputs }
        ensures cube { IfOk result (λ part. part.cube ≡ cube) }
        ensures split { IfOk result (IsTruePart task.now.problem.now.strategy (setting task.now.problem.now.circuit.now)) }
        ensures scratch { R.is_for scratch.new task.now.problem.now.circuit.now }
    {
        let split = split_of(task, scratch, &cube)?;
        Ok(Part { cube, split })
    }

    /// The strongest bound of a part that a search would split, else 0.
    pub fn bound(&self) -> u64
        ensures { result ≡ bound_of self.now.split }
    {
        match self.split {
            Some(split) => split.bound,
            None => 0,
        }
    }
}

/// The cubes of parts. The error is out of memory.
pub fn cubes_of(alloc: Global, parts: Vec<Part>) -> Result<Vec<Cube>, AllocError>
    ensures { IfOk result (λ cubes. cubes.items ≡ cubes_of parts.items) }
{
    let mut cubes = Vec::with_capacity(alloc, parts.len())?;
    for part in parts {
        cubes.push(part.cube)?;
    }
    Ok(cubes)
}
