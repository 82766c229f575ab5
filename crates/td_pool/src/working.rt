//! What a worker does.

ghost use Rattle.std.specs.Prelude.{◌≡◌, ◌<◌, length, vec_capacity, IfOk};
ghost use Rattle.td_search.specs.Below.{IsBelow, IsWithin};
ghost use Rattle.td_search.specs.Problems.{problem_of};
ghost use Rattle.td_pool.specs.Truth.{IsKeeping, IsStarting, IsTrueFound};
ghost use Rattle.td_pool.specs.Working.{IsWorking};

use crate::found::{Found, Report};
use crate::hints::Hints;
use crate::kept::Kept;
use crate::milestones::milestone_above;
use crate::shared::Shared;
use crate::state::Work;
use crate::subject::Subject;
use crate::watch::Watch;
use std::alloc::{AllocError, Global};
use std::sync::Wait;
use std::sync::ledger::{Ledger, Share};
use td_book::Lease;
use td_domain::Cube;
use td_search::{Below, Evidence, Problem, Rule, Task, climb, find};

/// A worker: its number, where it finds hints, its best pair, its evidence, and its share of the
/// ledger.
#[derive(Drop)]
pub struct Worker<'a, D, L: Ledger> {
    pub number: u32,
    pub deck: D,
    pub kept: Kept<'a>,
    pub evidence: Vec<Evidence>,
    pub share: Share<L>,
}

/// The worker of this number, with what it begins with.
pub(crate) fn worker_of<'a, L: Subject, D>(
    problem: &Problem<'_>,
    shared: &'a Shared<L>,
    number: u32,
    deck: D,
    found: Found,
    share: Share<L>,
) -> Worker<'a, D, L>
    requires found { IsStarting (problem_of problem.now) shared.now.incumbent found }
    requires part { 0 < share.parts }
    ensures { IsWorking (problem_of problem.now) result.kept result.evidence.items result.share.parts }
{
    let Found {
        evidence,
        best,
        seat,
    } = found;
    let seen = best.time();
    Worker {
        number,
        deck,
        kept: Kept {
            incumbent: &shared.incumbent,
            seat,
            best,
            seen,
        },
        evidence,
        share,
    }
}

// Splits and closes below a leaf, depth first, zero side first, until nothing is left there or the
// allowance is used up. Answers false where memory runs out before, or the stop is set.
fn work_below<R: Rule>(
    task: &Task<'_, R>,
    scratch: &mut R::Scratch,
    kept: &mut Kept<'_>,
    lease: &Lease,
    below: &mut Below,
) -> bool
    requires scratch { R.is_for scratch.old task.now.problem.now.circuit.now }
    requires keeps { IsKeeping (problem_of task.now.problem.now) kept.old }
    requires below { IsBelow (problem_of task.now.problem.now) lease.now below.old }
    ensures scratch { R.is_for scratch.new task.now.problem.now.circuit.now }
    ensures keeps { IsKeeping (problem_of task.now.problem.now) kept.new }
    ensures below { IsBelow (problem_of task.now.problem.now) lease.now below.new }
{
    for _ in 0..lease.allowance {
        if task.stop.is_set() {
            return false;
        }
        let Some(cube) = below.next(task.problem, lease) else {
            return true;
        };
        let Ok(finding) = find(task, scratch, kept, cube) else {
            return false;
        };
        if !below.settle(task.problem, lease, finding, kept.seen) {
            return false;
        }
    }
    true
}

// Puts the numbers of these open leaves into the worker's own place, the last one first, so that it
// takes the first one first. Of a number that is refused nothing is kept: the book has the leaf.
fn tell<D: Hints>(deck: &mut D, opened: &[u32]) {
    for number in opened.iter().rev() {
        let _reported = deck.push(*number);
    }
}

// Handles a leaf, and as much below it as its lease allows, and tells the book under one hold of
// the lock, then the worker's deck. What was found becomes evidence. No lock is held meanwhile.
// Answers whether the worker may go on: not at out of memory, and not once the stop is set.
fn handle<L: Subject, Q: Rule, D: Hints, R: Wait>(
    rt: &R,
    task: &Task<'_, Q>,
    scratch: &mut Q::Scratch,
    shared: &Shared<L>,
    worker: &mut Worker<'_, D, L>,
    lease: Lease,
) -> bool
    requires asked { L.asked ≡ problem_of task.now.problem.now }
    requires scratch { Q.is_for scratch.old task.now.problem.now.circuit.now }
    requires within { IsWithin (problem_of task.now.problem.now) lease.cube }
    requires worker { IsWorking (problem_of task.now.problem.now) worker.old.kept worker.old.evidence.items worker.old.share.parts }
    ensures scratch { Q.is_for scratch.new task.now.problem.now.circuit.now }
    ensures worker { IsWorking (problem_of task.now.problem.now) worker.new.kept worker.new.evidence.items worker.new.share.parts }
{
    let Ok((mut below, cube)) = begin(task.alloc, task.problem, &mut worker.evidence, &lease) else {
        shared.release(rt, lease);
        return false;
    };
    let ample = work_below(task, scratch, &mut worker.kept, &lease, &mut below);
    let Below { subtree, findings } = below;
    let evidence = Evidence {
        number: lease.number,
        cube,
        findings,
    };
    let work = Work {
        lease,
        subtree,
        evidence: &evidence,
        best: worker.kept.best.time(),
    };
    let opened = shared.graft(rt, task.problem, work, &mut worker.share);
    worker.evidence.push_reserved(evidence);
    let Some(opened) = opened else {
        return false;
    };
    tell(&mut worker.deck, &opened);
    ample
}

// A private tree below a leaf, a copy of its cube, and room for the evidence. The error is out of
// memory.
fn begin(
    alloc: Global,
    problem: &Problem<'_>,
    evidence: &mut Vec<Evidence>,
    lease: &Lease,
) -> Result<(Below, Cube), AllocError>
    requires within { IsWithin (problem_of problem.now) lease.now.cube }
    ensures below { IfOk result (λ begun. IsBelow (problem_of problem.now) lease.now begun.0) }
    ensures cube { IfOk result (λ begun. begun.1 ≡ lease.now.cube) }
    ensures space { IfOk result (λ begun. length evidence.new.items < vec_capacity evidence.new) }
    ensures evidence { evidence.new.items ≡ evidence.old.items }
{
    evidence.reserve(1)?;
    Ok((Below::new(alloc, problem, lease)?, lease.cube.copy(alloc)?))
}

// Reports the progress of the search to a watch, where it has passed a milestone or the watch is
// due. The next milestone is after the nodes that it reports.
fn tell_progress<L: Subject, W: Watch, R: Wait>(
    rt: &R,
    problem: &Problem<'_>,
    shared: &Shared<L>,
    milestone: &mut u64,
    watch: &mut W,
)
    requires asked { L.asked ≡ problem_of problem.now }
    ensures { W.reported (problem_of problem.now) watch.old watch.new }
{
    if !watch.is_looking() {
        return;
    }
    let nodes = if watch.is_due() { 0 } else { *milestone };
    let Some(progress) = shared.progress(rt, nodes) else {
        return;
    };
    *milestone = milestone_above(progress.nodes);
    watch.passed(problem, progress);
}

/// Handles leaves until the book gives none, memory runs out, or the stop is set, and tells a watch
/// of each milestone that the search has passed when the worker has handled a leaf. All that it
/// hands back is true.
pub fn work<L: Subject, Q: Rule, D: Hints + Drop, W: Watch, R: Wait>(
    rt: &R,
    task: &Task<'_, Q>,
    shared: &Shared<L>,
    worker: Worker<'_, D, L>,
    watch: &mut W,
) -> Report<L>
    requires asked { L.asked ≡ problem_of task.now.problem.now }
    requires worker { IsWorking (problem_of task.now.problem.now) worker.kept worker.evidence.items worker.share.parts }
    ensures found { IsTrueFound (problem_of task.now.problem.now) result.found }
    ensures reported { W.reported (problem_of task.now.problem.now) watch.old watch.new }
{
    let mut worker = worker;
    work_on(rt, task, shared, &mut worker, watch);
    report_of(task.problem, worker)
}

// What a worker hands back.
fn report_of<L: Subject, D: Drop>(problem: &Problem<'_>, worker: Worker<'_, D, L>) -> Report<L>
    requires { IsWorking (problem_of problem.now) worker.kept worker.evidence.items worker.share.parts }
    ensures { IsTrueFound (problem_of problem.now) result.found }
{
    let Worker {
        kept,
        evidence,
        share,
        ..
    } = worker;
    let Kept { seat, best, .. } = kept;
    let found = Found {
        evidence,
        best,
        seat,
    };
    Report { found, share }
}

// A scratch, once the worker of this number has climbed. The error is out of memory.
fn begun<Q: Rule>(
    task: &Task<'_, Q>,
    kept: &mut Kept<'_>,
    number: u32,
) -> Result<Q::Scratch, AllocError>
    requires keeps { IsKeeping (problem_of task.now.problem.now) kept.old }
    ensures scratch { IfOk result (λ scratch. Q.is_for scratch task.now.problem.now.circuit.now) }
    ensures keeps { IsKeeping (problem_of task.now.problem.now) kept.new }
{
    let mut scratch = task.rule.scratch(task.alloc, task.problem)?;
    climb(task, &mut scratch, kept, number)?;
    Ok(scratch)
}

// Handles leaves as `work` does.
fn work_on<L: Subject, Q: Rule, D: Hints, W: Watch, R: Wait>(
    rt: &R,
    task: &Task<'_, Q>,
    shared: &Shared<L>,
    worker: &mut Worker<'_, D, L>,
    watch: &mut W,
)
    requires asked { L.asked ≡ problem_of task.now.problem.now }
    requires worker { IsWorking (problem_of task.now.problem.now) worker.old.kept worker.old.evidence.items worker.old.share.parts }
    ensures worker { IsWorking (problem_of task.now.problem.now) worker.new.kept worker.new.evidence.items worker.new.share.parts }
    ensures reported { W.reported (problem_of task.now.problem.now) watch.old watch.new }
{
    let Ok(mut scratch) = begun(task, &mut worker.kept, worker.number) else {
        return;
    };
    let mut milestone = milestone_above(0);
    handle_all(
        rt,
        task,
        &mut scratch,
        shared,
        worker,
        &mut milestone,
        watch,
    );
    tell_progress(rt, task.problem, shared, &mut milestone, watch);
}

// Handles leaves until the book gives none, memory runs out, or the stop is set.
fn handle_all<L: Subject, Q: Rule, D: Hints, W: Watch, R: Wait>(
    rt: &R,
    task: &Task<'_, Q>,
    scratch: &mut Q::Scratch,
    shared: &Shared<L>,
    worker: &mut Worker<'_, D, L>,
    milestone: &mut u64,
    watch: &mut W,
)
    requires asked { L.asked ≡ problem_of task.now.problem.now }
    requires scratch { Q.is_for scratch.old task.now.problem.now.circuit.now }
    requires worker { IsWorking (problem_of task.now.problem.now) worker.old.kept worker.old.evidence.items worker.old.share.parts }
    ensures worker { IsWorking (problem_of task.now.problem.now) worker.new.kept worker.new.evidence.items worker.new.share.parts }
    ensures reported { W.reported (problem_of task.now.problem.now) watch.old watch.new }
{
    for _ in rt.forever() {
        let Some(lease) = shared.lease(rt, task.problem, worker.number, &mut worker.deck) else {
            return;
        };
        let goes_on = handle(rt, task, scratch, shared, worker, lease);
        tell_progress(rt, task.problem, shared, milestone, watch);
        if !goes_on {
            return;
        }
    }
}
