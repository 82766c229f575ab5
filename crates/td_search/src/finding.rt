//! What is found of a node: the one step that all searches take.

ghost use Rattle.std.specs.Prelude.{◌≡◌, ◌≤◌, IfOk, true, false};
ghost use Rattle.td_domain.specs.Admits.{HasAdmitted};
ghost use Rattle.td_search.specs.Below.{IsWithin};
ghost use Rattle.td_search.specs.Findings.{IsTrueFinding, IsUsable};
ghost use Rattle.td_search.specs.Problems.{problem_of, measures_first};

use crate::findings::Finding;
use crate::keeper::Keeper;
use crate::rule::Rule;
use crate::step::Step;
use crate::task::Task;
use td_book::Mark;
use td_domain::Cube;
use td_event_sim::Interruption;

/// What is found of a cube: it is closed or split as the rule says, under the cut that the keeper
/// knows. A pair that is measured is offered to the keeper. After an error the scratch may be used
/// again.
pub fn find<R: Rule, K: Keeper>(
    task: &Task<'_, R>,
    scratch: &mut R::Scratch,
    keeper: &mut K,
    cube: &Cube,
) -> Result<Finding, Interruption>
    requires scratch { R.is_for scratch.old task.now.problem.now.circuit.now }
    requires keeps { K.keeps (problem_of task.now.problem.now) keeper.old }
    requires within { IsWithin (problem_of task.now.problem.now) cube.now }
    ensures scratch { R.is_for scratch.new task.now.problem.now.circuit.now }
    ensures keeps { K.keeps (problem_of task.now.problem.now) keeper.new }
    ensures kept { K.time_of keeper.old ≤ K.time_of keeper.new }
    ensures finding { IfOk result (IsTrueFinding (problem_of task.now.problem.now) cube.now) }
    ensures usable { IfOk result (IsUsable (K.cut_of keeper.new)) }
{
    // For the prover: pins have two positions for each input.
    let _pins = task.problem.admit.pins();
    if !task.problem.admit.any(cube) {
        return Ok(Finding::Closed(Mark::Empty, 0));
    }
    if task.rule.measures_first() {
        find_measured(task, scratch, keeper, cube)
    } else {
        find_bounded(task, scratch, keeper, cube)
    }
}

// As `find`, of a cube in which an admitted pair lies: the pair that stands for it is measured
// before the cube is split, and before it is closed unless the rule bounds first. No pair in a cube
// is later than its bound, so a cube that is closed so would be closed all the same.
fn find_measured<R: Rule, K: Keeper>(
    task: &Task<'_, R>,
    scratch: &mut R::Scratch,
    keeper: &mut K,
    cube: &Cube,
) -> Result<Finding, Interruption>
    requires first { measures_first R.by ≡ true }
    requires scratch { R.is_for scratch.old task.now.problem.now.circuit.now }
    requires keeps { K.keeps (problem_of task.now.problem.now) keeper.old }
    requires within { IsWithin (problem_of task.now.problem.now) cube.now }
    requires any { HasAdmitted task.now.problem.now.admit.now cube.now }
    ensures scratch { R.is_for scratch.new task.now.problem.now.circuit.now }
    ensures keeps { K.keeps (problem_of task.now.problem.now) keeper.new }
    ensures kept { K.time_of keeper.old ≤ K.time_of keeper.new }
    ensures finding { IfOk result (IsTrueFinding (problem_of task.now.problem.now) cube.now) }
    ensures usable { IfOk result (IsUsable (K.cut_of keeper.new)) }
{
    let Task {
        alloc,
        problem,
        rule,
        stop,
    } = task;
    // For the prover: gates are in order and pins have two positions for each input.
    let _numbering = problem.circuit.gates();
    let _pins = problem.admit.pins();
    if rule.bounds_first() {
        keeper.look(problem);
        let step = rule.step(*alloc, problem, scratch, cube, keeper.cut())?;
        if let Step::Close(by, bound) = step {
            return Ok(Finding::Closed(Mark::Bound(by), bound));
        }
    }
    let time = rule.measure(*alloc, problem, scratch, cube, stop)?;
    keeper.offer(problem, cube, time);
    match rule.step(*alloc, problem, scratch, cube, keeper.cut())? {
        Step::Close(by, bound) => Ok(Finding::Closed(Mark::Bound(by), bound)),
        Step::Split(position, bound) => Ok(Finding::Split(position as u32, bound, time)),
        Step::Measure => Ok(Finding::Closed(Mark::Point, time)),
    }
}

// As `find`, of a cube in which an admitted pair lies: a point alone is measured.
fn find_bounded<R: Rule, K: Keeper>(
    task: &Task<'_, R>,
    scratch: &mut R::Scratch,
    keeper: &mut K,
    cube: &Cube,
) -> Result<Finding, Interruption>
    requires first { measures_first R.by ≡ false }
    requires scratch { R.is_for scratch.old task.now.problem.now.circuit.now }
    requires keeps { K.keeps (problem_of task.now.problem.now) keeper.old }
    requires within { IsWithin (problem_of task.now.problem.now) cube.now }
    requires any { HasAdmitted task.now.problem.now.admit.now cube.now }
    ensures scratch { R.is_for scratch.new task.now.problem.now.circuit.now }
    ensures keeps { K.keeps (problem_of task.now.problem.now) keeper.new }
    ensures kept { K.time_of keeper.old ≤ K.time_of keeper.new }
    ensures finding { IfOk result (IsTrueFinding (problem_of task.now.problem.now) cube.now) }
    ensures usable { IfOk result (IsUsable (K.cut_of keeper.new)) }
{
    let Task {
        alloc,
        problem,
        rule,
        stop,
    } = task;
    // For the prover: gates are in order and pins have two positions for each input.
    let _numbering = problem.circuit.gates();
    let _pins = problem.admit.pins();
    keeper.look(problem);
    match rule.step(*alloc, problem, scratch, cube, keeper.cut())? {
        Step::Close(by, bound) => Ok(Finding::Closed(Mark::Bound(by), bound)),
        Step::Split(position, bound) => {
            // A delay that was reached: the cut need not be one.
            let delay = keeper.best(problem).time();
            Ok(Finding::Split(position as u32, bound, delay))
        }
        Step::Measure => {
            let time = rule.measure(*alloc, problem, scratch, cube, stop)?;
            keeper.offer(problem, cube, time);
            Ok(Finding::Closed(Mark::Point, time))
        }
    }
}
