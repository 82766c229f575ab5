//! What a watch gets of a refutation: what is known where it begins, and where it has ended.

ghost use Rattle.std.specs.Prelude.{◌≡◌, ◌<◌, ℕ, IfSome};
ghost use Rattle.td_circuit.specs.Numbering.{setting};
ghost use Rattle.td_pool.specs.Watched.{IsTrueProgress};
ghost use Rattle.td_refute.specs.Answers.{IsShown};
ghost use Rattle.td_search.specs.Answers.{TimeNeedsStop};
ghost use Rattle.td_search.specs.Problems.{Problem as Asked, problem_of};
ghost use Rattle.td_search.specs.Written.{CanBeWritten};
ghost use Rattle.td_worst.specs.Methods.{high_of, IsNarrower, IsSoundAnswer};
ghost use Rattle.td_worst.specs.Supports.{IsWithinSteps};

use crate::refuting::{Stepped, refuted_further};
use std::alloc::Global;
use std::thread::Threads;
use td_pool::{Progress, Watch};
use td_refute::Effort;
use td_search::{Answer, Problem};

// How far a search has come by an answer. The pins are one leaf, which an exact one closes.
fn progress_of(answer: &Answer) -> Progress
    ensures { (asked : Asked) (budget : ℕ) → IsSoundAnswer asked budget answer.now → IsTrueProgress asked result }
{
    match answer {
        Answer::Exact { time, tree, .. } => Progress {
            nodes: tree.nodes().len() as u64,
            low: *time,
            high: *time,
            open: 0,
        },
        Answer::Between {
            low,
            high,
            nodes,
            ..
        } => Progress {
            nodes: *nodes,
            low: *low,
            high: *high,
            open: 1,
        },
    }
}

/// As `refuted_further`, and tells a watch what is known before it and after it.
pub(crate) fn refuted_told<W: Watch, R: Threads + Sync>(
    rt: &R,
    alloc: Global,
    problem: &Problem<'_>,
    known: Answer,
    budget: u64,
    effort: Effort<'_>,
    watch: &mut W,
) -> Stepped
    requires some { 0 < budget }
    requires known { IsSoundAnswer (problem_of problem.now) budget known }
    requires text { CanBeWritten (problem_of problem.now) known }
    ensures answer { IsSoundAnswer (problem_of problem.now) budget result.answer }
    ensures text { CanBeWritten (problem_of problem.now) result.answer }
    ensures narrower { IsNarrower known result.answer }
    ensures time { TimeNeedsStop effort.entry.stop.now.can_be_set result.answer }
    ensures shown { IfSome result.refuted (IsShown (setting problem.now.circuit.now) problem.now.admit.now) }
    ensures within { IfSome result.refuted (IsWithinSteps (high_of result.answer)) }
    ensures reported { W.reported (problem_of problem.now) watch.old watch.new }
{
    watch.passed(problem, progress_of(&known));
    let shown = refuted_further(rt, alloc, problem, known, budget, effort);
    watch.passed(problem, progress_of(&shown.answer));
    shown
}
