//! The end of a shared search: what its workers found is done again, and what is left is handled in
//! one thread.

ghost use Rattle.std.specs.Prelude.{◌≡◌, ◌≤◌, ◌<◌, ◌^◌, Bool, ℕ, length, count_by, OnOk};
ghost use Rattle.std.specs.List.{All};
ghost use Rattle.td_book.specs.Board.{is_handled, opening};
ghost use Rattle.td_search.specs.declared.finishing.SharedWork.{SharedWork};
ghost use Rattle.td_search.specs.Answers.{IsAnswer, TimeNeedsStop, low_of};
ghost use Rattle.td_search.specs.Best.{IsKept};
ghost use Rattle.td_search.specs.Findings.{IsTrueEvidence};
ghost use Rattle.td_search.specs.Opened.{ShowsAnswer};
ghost use Rattle.td_search.specs.Problems.{problem_of, has_bound};
ghost use Rattle.td_search.specs.Progress.{IsUnderWay};
ghost use Rattle.td_search.specs.Redone.{HasHandled, IsRedone, ShowsRoot, by_memory, without_time};
ghost use Rattle.td_search.specs.Shared.{IsShared};
ghost use Rattle.td_search.specs.Written.{CanBeWritten};

use crate::answers::{Answer, Cause, cause_of};
use crate::best::Best;
use crate::ended::Ended;
use crate::findings::{Evidence, Trail};
use crate::lead::Lead;
use crate::least::Least;
use crate::probing::Own;
use crate::problem::Problem;
use crate::progress::{Search, Setup};
use crate::replaying::is_done;
use crate::rule::Rule;
use crate::searching::run_from;
use crate::strategy::Strategy;
use crate::task::Task;
use std::alloc::{AllocError, Global};
use td_book::{Node, Partial};
use td_stop::Stop;

/// What a shared search hands over once its workers have ended: its tree, what they found, the
/// strongest domain's bound of the pins, and the best pair of all workers.
#[derive(Drop)]
pub struct SharedWork {
    pub partial: Partial,
    pub evidence: Vec<Evidence>,
    pub root: u64,
    pub best: Best,
}

/// What a shared search found that has ended: its tree is done again as far as the evidence, the
/// bound of the pins and the best pair show it, and the nodes that are left open are handled in one
/// thread, as `alone_by` handles them, until the budget is handled, or the stop is set. Nothing of
/// the tree is trusted. The budget is at most 10,000,000.
pub fn finish(
    alloc: Global,
    problem: &Problem<'_>,
    work: SharedWork,
    budget: u64,
    stop: &Stop,
) -> Answer
    requires modest { budget ≤ 10000000 }
    requires work { IsShared (problem_of problem.now) work }
    ensures answer { IsAnswer (problem_of problem.now) budget result }
    // Its lower figure, or its time, is no less than the delay of the pair that was handed in.
    ensures kept { work.best.time ≤ low_of result }
    // The certificate of an exact answer has a text within the limit.
    ensures text { CanBeWritten (problem_of problem.now) result }
    // Time is a cause only where the stop can be set.
    ensures time { TimeNeedsStop stop.now.can_be_set result }
    // What was found of the root counts, unless the answer is exact or memory ran out.
    ensures redone { IsRedone (problem_of problem.now) budget work result }
{
    let Ended { answer, .. } = finish_shown(alloc, problem, work, budget, stop);
    answer
}

/// What a shared search found that has ended, as `finish` says, and, beside an answer that stays
/// open, a tree that shows its upper figure, where there was memory for it.
pub fn finish_shown(
    alloc: Global,
    problem: &Problem<'_>,
    work: SharedWork,
    budget: u64,
    stop: &Stop,
) -> Ended
    requires modest { budget ≤ 10000000 }
    requires work { IsShared (problem_of problem.now) work }
    ensures answer { IsAnswer (problem_of problem.now) budget result.answer }
    ensures kept { work.best.time ≤ low_of result.answer }
    ensures text { CanBeWritten (problem_of problem.now) result.answer }
    // A certificate of both figures is accepted with the tree.
    ensures shown { ShowsAnswer (problem_of problem.now) result }
    ensures time { TimeNeedsStop stop.now.can_be_set result.answer }
    ensures redone { IsRedone (problem_of problem.now) budget work result.answer }
{
    match problem.strategy {
        Strategy::Least => {
            let rule = Least { prober: &Own };
            let task = Task {
                alloc,
                problem,
                rule: &rule,
                stop,
            };
            finish_by(&task, work, budget)
        }
        Strategy::Lead => {
            let task = Task {
                alloc,
                problem,
                rule: &Lead,
                stop,
            };
            finish_by(&task, work, budget)
        }
    }
}

// As `finish_shown`, by the rule of the strategy.
fn finish_by<R: Rule>(task: &Task<'_, R>, work: SharedWork, budget: u64) -> Ended
    requires modest { budget ≤ 10000000 }
    requires work { IsShared (problem_of task.now.problem.now) work }
    ensures answer { IsAnswer (problem_of task.now.problem.now) budget result.answer }
    ensures kept { work.best.time ≤ low_of result.answer }
    ensures text { CanBeWritten (problem_of task.now.problem.now) result.answer }
    ensures shown { ShowsAnswer (problem_of task.now.problem.now) result }
    ensures time { TimeNeedsStop task.now.stop.now.can_be_set result.answer }
    ensures redone { IsRedone (problem_of task.now.problem.now) budget work result.answer }
{
    let SharedWork {
        partial,
        evidence,
        root,
        best,
    } = work;
    let Ok(mut scratch) = task.rule.scratch(task.alloc, task.problem) else {
        return given_up(task.problem, best, root, budget);
    };
    let Ok(setup) = Setup::new(task.alloc, task.problem, budget) else {
        return given_up(task.problem, best, root, budget);
    };
    let mut search = setup.begin(task.problem, best, root, budget);
    let replayed = replay_tree(task, &mut search, &mut scratch, partial, evidence, budget);
    let ended = run_from(task, search, scratch, budget);
    match replayed {
        Ok(()) => ended,
        Err(AllocError) => for_memory(ended),
    }
}

// The same, where time would be the cause for memory.
fn for_memory(ended: Ended) -> Ended
    ensures answer { result.answer ≡ without_time ended.answer }
    ensures tree { result.tree ≡ ended.tree }
{
    let Ended { answer, tree } = ended;
    Ended {
        answer: without_time(answer),
        tree,
    }
}

fn without_time(answer: Answer) -> Answer
    ensures { result ≡ without_time answer }
{
    match answer {
        Answer::Exact { time, pair, tree } => Answer::Exact { time, pair, tree },
        Answer::Between {
            low,
            high,
            pair,
            nodes,
            cause,
        } => Answer::Between {
            low,
            high,
            pair,
            nodes,
            cause: by_memory(cause),
        },
    }
}

fn by_memory(cause: Cause) -> Cause
    ensures { result ≡ by_memory cause }
{
    match cause {
        Cause::Budget => Cause::Budget,
        Cause::Memory | Cause::Time => Cause::Memory,
    }
}

// As `nothing_handled`, without a tree.
fn given_up(problem: &Problem<'_>, best: Best, root: u64, budget: u64) -> Ended
    requires modest { budget ≤ 10000000 }
    requires root { has_bound (problem_of problem.now) problem.now.admit.now.pins root }
    requires small { root < 10 ^ 15 }
    requires best { IsKept (problem_of problem.now) best }
    ensures answer { IsAnswer (problem_of problem.now) budget result.answer }
    ensures low { low_of result.answer ≡ best.time }
    ensures text { CanBeWritten (problem_of problem.now) result.answer }
    ensures shown { ShowsAnswer (problem_of problem.now) result }
    ensures time { (can_be_set : Bool) → TimeNeedsStop can_be_set result.answer }
    ensures redone { (work : SharedWork) → IsRedone (problem_of problem.now) budget work result.answer }
{
    Ended::of(nothing_handled(problem, best, root, budget))
}

// What is known of a search that handled nothing, since memory ran out.
fn nothing_handled(problem: &Problem<'_>, best: Best, root: u64, budget: u64) -> Answer
    requires modest { budget ≤ 10000000 }
    requires root { has_bound (problem_of problem.now) problem.now.admit.now.pins root }
    requires small { root < 10 ^ 15 }
    requires best { IsKept (problem_of problem.now) best }
    ensures answer { IsAnswer (problem_of problem.now) budget result }
    ensures low { low_of result ≡ best.time }
    ensures text { CanBeWritten (problem_of problem.now) result }
    ensures time { (can_be_set : Bool) → TimeNeedsStop can_be_set result }
    ensures handled { (n : ℕ) → n ≤ budget → HasHandled n result }
{
    // For the prover: gates are in order, inputs have moments, pins have two positions each.
    let _numbering = problem.circuit.gates();
    let _moments = problem.circuit.moments();
    let _pins = problem.admit.pins();
    let low = best.time();
    Answer::Between {
        low,
        high: root.max(low),
        pair: best.into_pair(),
        nodes: 0,
        cause: cause_of(0, budget, &Stop::never()),
    }
}

// How many nodes were split or closed.
fn count_handled(nodes: &[Node]) -> u64
    ensures { result ≡ count_by (λ x. is_handled x.state) nodes.now }
{
    nodes.iter().filter(|node| is_done(node.state)).count() as u64
}

// Does a tree again, if it is one of the pins and within the budget. The error is out of memory.
fn replay_tree<R: Rule>(
    task: &Task<'_, R>,
    search: &mut Search,
    scratch: &mut R::Scratch,
    partial: Partial,
    evidence: Vec<Evidence>,
    budget: u64,
) -> Result<(), AllocError>
    requires search { IsUnderWay (problem_of task.now.problem.now) budget search.old }
    requires scratch { R.is_for scratch.old task.now.problem.now.circuit.now }
    requires evidence { All (IsTrueEvidence (problem_of task.now.problem.now)) evidence.items }
    ensures search { IsUnderWay (problem_of task.now.problem.now) budget search.new }
    ensures kept { search.old.best.time ≤ search.new.best.time }
    ensures root { OnOk result ((n : ℕ) → ShowsRoot task.now.problem.now.admit.now.pins budget search.old.best.time partial evidence.items n → search.old.book ≡ opening task.now.problem.now.admit.now.pins 1 budget → n ≤ length search.new.book.order) }
    ensures scratch { R.is_for scratch.new task.now.problem.now.circuit.now }
{
    if !partial.cube().is_same(task.problem.admit.pins()) {
        return Ok(());
    }
    let nodes = partial.nodes(task.alloc)?;
    drop(partial);
    if count_handled(&nodes) > budget {
        return Ok(());
    }
    let trail = Trail::new(task.alloc, evidence, nodes.len())?;
    search.replay(task, scratch, &nodes, &trail)
}
