//! What the workers hand back, as one.

ghost use Rattle.std.specs.Prelude.{◌≡◌, ◌+◌, ◌≤◌, max, length, map, vec_capacity};
ghost use Rattle.std.specs.List.{AllByRecursion};
ghost use Rattle.td_search.specs.Best.{IsBest};
ghost use Rattle.td_search.specs.CutShort.{greatest_of};
ghost use Rattle.td_search.specs.Findings.{IsTrueEvidence};
ghost use Rattle.td_search.specs.Problems.{problem_of};
ghost use Rattle.td_search.specs.Roots.{IsRoot};
ghost use Rattle.td_search.specs.Shared.{IsShared};
ghost use Rattle.td_pool.specs.Truth.{IsTrueFound};
ghost use Rattle.td_pool.specs.Working.{IsTruthful};

use crate::found::{Found, Report};
use crate::shared::Shared;
use crate::state::State;
use crate::subject::Subject;
use std::alloc::Global;
use std::snapshot::Snapshot;
use std::sync::ledger::Ledger;
use std::thread::{Promise, PromisedHandle, Threads};
use td_circuit::Circuit;
use td_domain::Admit;
use td_search::{Best, Evidence, Problem, Root, SharedWork, Strategy};

/// What a worker promises: all that it hands back is true of the admitted pairs of the circuit.
#[derive(Drop)]
pub struct Truthful {
    pub circuit: Snapshot<Circuit>,
    pub admit: Snapshot<Admit>,
    pub strategy: Strategy,
}

impl<L: Ledger> Promise<Report<L>> for Truthful {
    ghost use Rattle.td_search.specs.Problems.{problem_by};
    ghost use Rattle.td_pool.specs.Truth.{IsTrueFound};

    ghost kept_by = { λ promise report. IsTrueFound (problem_by promise.strategy promise.circuit.value promise.admit.value) report.found };
}

/// What these threads hand back, after what is there, in a vector that has room for all.
pub(crate) fn join_all<L: Subject, R: Threads>(
    rt: &R,
    problem: &Problem<'_>,
    handles: Vec<PromisedHandle<Report<L>, Truthful>>,
    all: Vec<Report<L>>,
) -> Vec<Report<L>>
    requires handles { AllByRecursion (λ handle. IsTruthful problem.now handle.promise) handles.items }
    requires all { AllByRecursion (λ report. IsTrueFound (problem_of problem.now) report.found) all.items }
    requires space { length all.items + length handles.items ≤ vec_capacity all }
    ensures { AllByRecursion (λ report. IsTrueFound (problem_of problem.now) report.found) result.items }
{
    let mut all = all;
    for handle in handles {
        all.push_reserved(handle.join(rt));
    }
    all
}

/// What all workers found, what they shared, and what is known of the pins.
pub(crate) fn handed_over<L: Subject>(
    alloc: Global,
    problem: &Problem<'_>,
    shared: Shared<L>,
    all: Vec<Report<L>>,
    first: Best,
    root: Root,
) -> SharedWork
    requires all { AllByRecursion (λ report. IsTrueFound (problem_of problem.now) report.found) all.items }
    requires first { IsBest (problem_of problem.now) first }
    requires root { IsRoot (problem_of problem.now) root }
    ensures { IsShared (problem_of problem.now) result }
{
    let (evidence, best) = gather(alloc, problem, all, first);
    let Shared { state, .. } = shared;
    let State { book, .. } = state.into_inner();
    SharedWork {
        partial: book.into_book().into_tree(),
        evidence,
        root: root.bound,
        best,
    }
}

// The evidence of all workers, and the best of their pairs and this one. Of evidence that memory is
// refused for nothing is kept.
fn gather<L: Subject>(
    alloc: Global,
    problem: &Problem<'_>,
    all: Vec<Report<L>>,
    first: Best,
) -> (Vec<Evidence>, Best)
    requires all { AllByRecursion (λ report. IsTrueFound (problem_of problem.now) report.found) all.items }
    requires first { IsBest (problem_of problem.now) first }
    ensures evidence { AllByRecursion (IsTrueEvidence (problem_of problem.now)) result.0.items }
    ensures best { IsBest (problem_of problem.now) result.1 }
    ensures greatest { result.1.time ≡ greatest_of first.time (map (λ report. report.found.best.time) all.items) }
{
    let mut evidence = Vec::new(alloc);
    let mut best = first;
    for report in all {
        let Found {
            evidence: more,
            best: offered,
            ..
        } = report.found;
        evidence = joined(problem, evidence, more);
        best = better(problem, best, offered);
    }
    (evidence, best)
}

// The better of two pairs, the first one where their delays are the same.
fn better(problem: &Problem<'_>, best: Best, other: Best) -> Best
    requires best { IsBest (problem_of problem.now) best }
    requires other { IsBest (problem_of problem.now) other }
    ensures best { IsBest (problem_of problem.now) result }
    ensures greatest { result.time ≡ max best.time other.time }
{
    if other.time() > best.time() {
        other
    } else {
        best
    }
}

// The evidence of both. The second is dropped where memory is refused: its nodes are then handled
// anew.
fn joined(problem: &Problem<'_>, evidence: Vec<Evidence>, more: Vec<Evidence>) -> Vec<Evidence>
    requires evidence { AllByRecursion (IsTrueEvidence (problem_of problem.now)) evidence.items }
    requires more { AllByRecursion (IsTrueEvidence (problem_of problem.now)) more.items }
    ensures { AllByRecursion (IsTrueEvidence (problem_of problem.now)) result.items }
{
    if evidence.is_empty() {
        return more;
    }
    let mut all = evidence;
    let Ok(()) = all.reserve(more.len()) else {
        return all;
    };
    for piece in more {
        let Ok(()) = all.push(piece) else {
            return all;
        };
    }
    all
}
