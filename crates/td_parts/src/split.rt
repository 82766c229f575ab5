//! Where a search would split a cube.

ghost use Rattle.std.specs.Prelude.{◌≡◌, ◌*◌, length, IfOk, MatchOption};
ghost use Rattle.td_circuit.specs.Numbering.{setting};
ghost use Rattle.td_parts.specs.Splits.{IsSplit};
ghost use Rattle.td_parts.specs.Whole.{IsWhole};

use std::alloc::AllocError;
use td_domain::Cube;
use td_search::{Rule, Step, Task};

/// The position at which a search splits a cube, and the strongest domain's bound of the cube, in
/// steps.
#[derive(Clone, Copy, Debug, Drop)]
pub struct Split {
    pub position: usize,
    pub bound: u64,
}

/// Where a search by the strategy would split a cube: nowhere if nothing is free in it, or if some
/// domain bounds it by 0. The error is out of memory, and the scratch may be used again.
pub fn split_of<R: Rule>(
    task: &Task<'_, R>,
    scratch: &mut R::Scratch,
    cube: &Cube,
) -> Result<Option<Split>, AllocError>
    requires scratch { R.is_for scratch.old task.now.problem.now.circuit.now }
    requires positions { length cube.now ≡ 2 * length task.now.problem.now.circuit.now.netlist.inputs }
    ensures split { IfOk result (λ split. MatchOption split
        (IsWhole task.now.problem.now.strategy (setting task.now.problem.now.circuit.now) cube.now)
        (IsSplit task.now.problem.now.strategy (setting task.now.problem.now.circuit.now) cube.now)) }
    ensures scratch { R.is_for scratch.new task.now.problem.now.circuit.now }
{
    match task.rule.step(task.alloc, task.problem, scratch, cube, 0)? {
        Step::Split(position, bound) => Ok(Some(Split { position, bound })),
        Step::Close(_, _) | Step::Measure => Ok(None),
    }
}
