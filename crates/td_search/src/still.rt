//! What a search begins with whose stop is set before a long simulation has come to its end.

ghost use Rattle.std.specs.Prelude.{◌≡◌, ◌<◌, ◌^◌, length, IfOk, OnOk};
ghost use Rattle.td_domain.specs.Admits.{HasAdmitted};
ghost use Rattle.td_search.specs.Problems.{problem_of, has_bound, has_delay};
ghost use Rattle.td_search.specs.Still.{AreAmong};

use crate::beginning::root_of;
use crate::best::Best;
use crate::problem::Problem;
use crate::rule::Rule;
use crate::task::Task;
use std::alloc::{AllocError, Global};
use td_domain::Admit;
use td_stop::Stop;

// The admitted pairs of equal vectors, if there are some, else all that are admitted. The error is
// out of memory.
fn still_pairs(alloc: Global, admit: &Admit) -> Result<Admit, AllocError>
    requires { HasAdmitted admit.now admit.now.pins }
    ensures { IfOk result (AreAmong admit.now) }
{
    let pins = admit.pins().copy(alloc)?;
    let held = Vec::from_slice(alloc, admit.held())?;
    let still = Admit::new(pins, held, 0);
    if still.any(still.pins()) {
        return Ok(still);
    }
    admit.copy(alloc)
}

/// Measures a pair of equal vectors, in which nothing changes, if one is admitted, and keeps it in
/// the place of the pair. Where none is, it measures the one that stands for the pins, however long
/// that takes: nothing else says a delay. Answers the strongest domain's bound of the pins. The
/// error is out of memory.
pub fn measure_still<R: Rule>(
    task: &Task<'_, R>,
    scratch: &mut R::Scratch,
    best: &mut Best,
) -> Result<u64, AllocError>
    requires any { HasAdmitted task.now.problem.now.admit.now task.now.problem.now.admit.now.pins }
    requires first_fits { length best.old.pair.first ≡ length task.now.problem.now.circuit.now.netlist.inputs }
    requires second_fits { length best.old.pair.second ≡ length task.now.problem.now.circuit.now.netlist.inputs }
    requires scratch { R.is_for scratch.old task.now.problem.now.circuit.now }
    ensures best { OnOk result (has_delay (problem_of task.now.problem.now) best.new.pair best.new.time) }
    ensures bound { IfOk result (has_bound (problem_of task.now.problem.now) task.now.problem.now.admit.now.pins) }
    ensures small { IfOk result (λ bound. bound < 10 ^ 15) }
{
    let Task {
        alloc,
        problem,
        rule,
        ..
    } = task;
    let admit = still_pairs(*alloc, problem.admit)?;
    let still = Problem {
        circuit: problem.circuit,
        admit: &admit,
        strategy: problem.strategy,
    };
    let task = Task {
        alloc: *alloc,
        problem: &still,
        rule: *rule,
        stop: &Stop::never(),
    };
    let Ok(root) = root_of(&task, scratch) else {
        return Err(AllocError);
    };
    best.begin(&still, root.first);
    Ok(root.bound)
}
