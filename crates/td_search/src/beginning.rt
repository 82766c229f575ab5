//! How a search begins: with what is known of the pins, and a climb.

ghost use Rattle.std.specs.Prelude.{◌≤◌, IfOk};
ghost use Rattle.td_domain.specs.Admits.{HasAdmitted};
ghost use Rattle.td_search.specs.Problems.{problem_of};
ghost use Rattle.td_search.specs.Roots.{IsRoot};

use crate::keeper::Keeper;
use crate::root::Root;
use crate::rule::Rule;
use crate::task::Task;
use std::alloc::AllocError;
use td_event_sim::Interruption;

/// The delay of the pair that stands for the pins, and the strongest domain's bound of them. After
/// an error the scratch may be used again.
pub fn root_of<R: Rule>(task: &Task<'_, R>, scratch: &mut R::Scratch) -> Result<Root, Interruption>
    requires scratch { R.is_for scratch.old task.now.problem.now.circuit.now }
    requires any { HasAdmitted task.now.problem.now.admit.now task.now.problem.now.admit.now.pins }
    ensures root { IfOk result (IsRoot (problem_of task.now.problem.now)) }
    ensures scratch { R.is_for scratch.new task.now.problem.now.circuit.now }
{
    let Task {
        alloc,
        problem,
        rule,
        stop,
    } = task;
    let pins = problem.admit.pins();
    let first = rule.measure(*alloc, problem, scratch, pins, stop)?;
    let bound = rule.strongest(*alloc, problem, scratch, pins)?;
    Ok(Root { first, bound })
}

/// What a worker of this number does before its first node: it climbs, if the strategy says so,
/// until the stop is set, and offers the pair to which that led. The error is out of memory.
pub fn climb<R: Rule, K: Keeper>(
    task: &Task<'_, R>,
    scratch: &mut R::Scratch,
    keeper: &mut K,
    worker: u32,
) -> Result<(), AllocError>
    requires scratch { R.is_for scratch.old task.now.problem.now.circuit.now }
    requires keeps { K.keeps (problem_of task.now.problem.now) keeper.old }
    ensures scratch { R.is_for scratch.new task.now.problem.now.circuit.now }
    ensures keeps { K.keeps (problem_of task.now.problem.now) keeper.new }
    ensures kept { K.time_of keeper.old ≤ K.time_of keeper.new }
{
    let Task {
        alloc,
        problem,
        rule,
        stop,
    } = task;
    let best = keeper.best(problem);
    match rule.climb(*alloc, problem, scratch, worker, best, stop)? {
        Some(timed) => keeper.offer_pair(problem, &timed),
        None => {}
    }
    Ok(())
}
