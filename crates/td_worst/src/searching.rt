//! The search for the worst delay, by any means.

ghost use Rattle.std.specs.Prelude.{◌≡◌, true, min, max, ◌<◌, ◌≤◌, ◌+◌, ◌/◌, ◌^◌, ℕ, length, IfOk, IfErr, IfSome};
ghost use Rattle.td_circuit.specs.Numbering.{setting};
ghost use Rattle.td_search.specs.Answers.{IsAnswer, IsSearchFault, TimeNeedsStop};
ghost use Rattle.td_search.specs.Problems.{problem_by};
ghost use Rattle.td_search.specs.declared.strategy.Strategy.TheVariants as strategy;
ghost use Rattle.td_search.specs.Written.{CanBeWritten};
ghost use Rattle.td_worst.specs.declared.method.Method.TheVariants as by_method;
ghost use Rattle.td_worst.specs.Methods.{problem_in, first_nodes, goes_further, high_of, is_open, IsAnswerBy, IsSoundAnswer, IsWithinEdges};
ghost use Rattle.td_worst.specs.Supports.{IsSupport, IsSupportOf, IsWithinSupport, IsWithinTree};

use crate::combining::with_tree;
use crate::edge_bound::bounded_by_edges;
use crate::found::{Found, is_answered};
use crate::method::Method;
use crate::question::Question;
use crate::refuting::words_of;
use crate::support::{Support, Treed, lower_steps};
use crate::telling::refuted_told;
use std::alloc::Global;
use std::sync::Wait;
use std::thread::Threads;
use td_circuit::Circuit;
use td_domain::Admit;
use td_pool::{Effort, Limits, Watch, search};
use td_refute::Effort as Refuting;
use td_search::{Answer, Cause, Own, Problem, SearchFault, Strategy};

/// How many nodes a tree has at most, and how many gates, at most, all its nodes together: a node
/// takes the longer the more gates there are.
#[derive(Clone, Copy, Drop)]
struct Share {
    nodes: u64,
    gates: u64,
}

/// What `Auto` gives its first tree, as `Least` has it.
const FIRST: Share = Share {
    nodes: 10_000,
    gates: 60_000,
};

/// How much work it gives its first search by spans, at most: most questions end within it.
const QUICK: u64 = 8_000;

/// What it gives its second tree, as `Lead` has it, after that.
const SECOND: Share = Share {
    nodes: 8_000,
    gates: 4_000_000,
};

/// What it gives its last tree, as `Lead` has it, after a long search by spans.
const LAST: Share = Share {
    nodes: 200_000,
    gates: 100_000_000,
};

/// Searches for the worst delay of the admitted pairs of a circuit, by a method. The pairs are of
/// the circuit's inputs. Where a moment is required, a search by spans ends once a pair is later,
/// or none can be, and `Auto` ends with the search that says so. Trees have at most as many nodes
/// as the budget of the effort says, and a search for a refutation ends after that many units of
/// work. Once the stop is set, the search ends, and the answer says what is known by then. The
/// watch gets the progress of a tree, and what is known before and after a refutation.
///
/// # Errors
///
/// `NoPair` where no pair is admitted. `OutOfMemory` where memory ran out before a first pair was
/// measured and the pins were bounded, or for what workers share.
pub fn worst<W: Watch, R: Threads + Wait + Sync>(
    rt: &R,
    alloc: Global,
    question: Question<'_>,
    limits: Limits<'_>,
    watch: &mut W,
) -> Result<Found, SearchFault>
    requires held { length question.admit.now.held ≡ length question.circuit.now.netlist.inputs }
    ensures answer { IfOk result (λ found. IsAnswerBy question.entry.method (problem_in question.entry) limits.entry.effort.budget found.answer) }
    // Where the budget ends with its first tree, `Auto` answers as `Least` does.
    ensures first { question.entry.method ≡ by_method.Auto → limits.entry.effort.budget ≤ first_nodes (length question.entry.circuit.now.netlist.gates)
        → IfOk result (λ found. IsAnswer (problem_by strategy.Least question.entry.circuit.now question.entry.admit.now) limits.entry.effort.budget found.answer) }
    // Where it goes on, the upper figure is at most the bound by edges.
    ensures edges { goes_further question.entry.method (length question.entry.circuit.now.netlist.gates) limits.entry.effort.budget ≡ true
        → IfOk result (λ found. IsWithinEdges (problem_in question.entry) found.answer) }
    // The certificate of an exact answer has a text within the limit.
    ensures text { IfOk result (λ found. CanBeWritten (problem_in question.entry) found.answer) }
    // Time is a cause only where the stop can be set.
    ensures time { IfOk result (λ found. TimeNeedsStop limits.entry.stop.now.can_be_set found.answer) }
    // The steps show their bound, and the tree its moment.
    ensures shown { IfOk result (λ found. IsSupport (setting question.entry.circuit.now) question.entry.admit.now found.support) }
    // The upper figure is at most what the steps show, and at most what the tree shows.
    ensures supported { IfOk result (λ found. IsWithinSupport (high_of found.answer) found.support) }
    ensures fault { IfErr result (IsSearchFault (problem_in question.entry)) }
    // All progress that the watch got is true of what is asked.
    ensures reported { W.reported (problem_in question.entry) watch.old watch.new }
{
    let Question {
        circuit,
        admit,
        method,
        required,
    } = question;
    match method {
        Method::Least | Method::Lead => {
            let problem = Problem {
                circuit,
                admit,
                strategy: method.strategy(),
            };
            let ended = search(rt, alloc, &problem, &Own, limits, watch)?;
            let found = Treed::of(ended);
            Ok(Found::of(found.answer, found.tree))
        }
        Method::Refute => by_refutation(rt, alloc, question, limits, watch),
        Method::Auto => by_all(rt, alloc, question, limits, watch),
    }
}

// Bounds the pins, as a tree without nodes does, and then searches for a refutation.
fn by_refutation<W: Watch, R: Threads + Wait + Sync>(
    rt: &R,
    alloc: Global,
    question: Question<'_>,
    limits: Limits<'_>,
    watch: &mut W,
) -> Result<Found, SearchFault>
    requires held { length question.admit.now.held ≡ length question.circuit.now.netlist.inputs }
    ensures answer { IfOk result (λ found. IsSoundAnswer (problem_by strategy.Lead question.entry.circuit.now question.entry.admit.now) limits.entry.effort.budget found.answer) }
    ensures edges { 0 < limits.entry.effort.budget → IfOk result (λ found. IsWithinEdges (problem_by strategy.Lead question.entry.circuit.now question.entry.admit.now) found.answer) }
    ensures text { IfOk result (λ found. CanBeWritten (problem_by strategy.Lead question.entry.circuit.now question.entry.admit.now) found.answer) }
    ensures time { IfOk result (λ found. TimeNeedsStop limits.entry.stop.now.can_be_set found.answer) }
    ensures shown { IfOk result (λ found. IsSupport (setting question.entry.circuit.now) question.entry.admit.now found.support) }
    ensures supported { IfOk result (λ found. IsWithinSupport (high_of found.answer) found.support) }
    ensures fault { IfErr result (IsSearchFault (problem_by strategy.Lead question.entry.circuit.now question.entry.admit.now)) }
    ensures reported { W.reported (problem_by strategy.Lead question.entry.circuit.now question.entry.admit.now) watch.old watch.new }
{
    let Question {
        circuit,
        admit,
        required,
        ..
    } = question;
    let Limits { effort, .. } = limits;
    let budget = effort.budget;
    let none = with_nodes(limits, 0);
    let begun = bounded(rt, alloc, circuit, admit, none, watch)?;
    if budget == 0 {
        return Ok(Found::of(begun.answer, begun.tree));
    }
    let problem = Problem {
        circuit,
        admit,
        strategy: Strategy::Lead,
    };
    let known = bounded_by_edges(alloc, &problem, begun.answer, budget);
    if !is_open(&known) || is_answered(required, &known) {
        return Ok(Found::of(known, begun.tree));
    }
    let further = with_work(limits, budget, required);
    let shown = refuted_told(rt, alloc, &problem, known, budget, further, watch);
    let support = Support {
        steps: shown.refuted,
        tree: begun.tree,
    };
    Ok(Found {
        answer: shown.answer,
        support,
        work: shown.work,
    })
}

// What a tree by `Least` comes to, which climbs to no pair.
fn bounded<W: Watch, R: Threads + Wait + Sync>(
    rt: &R,
    alloc: Global,
    circuit: &Circuit,
    admit: &Admit,
    limits: Limits<'_>,
    watch: &mut W,
) -> Result<Treed, SearchFault>
    requires held { length admit.now.held ≡ length circuit.now.netlist.inputs }
    ensures answer { IfOk result (λ found. (budget : ℕ) → limits.entry.effort.budget ≤ budget → IsSoundAnswer (problem_by strategy.Lead circuit.now admit.now) budget found.answer) }
    ensures text { IfOk result (λ found. CanBeWritten (problem_by strategy.Lead circuit.now admit.now) found.answer) }
    ensures time { IfOk result (λ found. TimeNeedsStop limits.entry.stop.now.can_be_set found.answer) }
    ensures shown { IfOk result (λ found. IsSupportOf (setting circuit.now) admit.now found.tree) }
    ensures within { IfOk result (λ found. IfSome found.tree (IsWithinTree (high_of found.answer))) }
    ensures fault { IfErr result (IsSearchFault (problem_by strategy.Lead circuit.now admit.now)) }
    ensures reported { W.reported (problem_by strategy.Lead circuit.now admit.now) watch.old watch.new }
{
    let problem = Problem {
        circuit,
        admit,
        strategy: Strategy::Least,
    };
    let found = search(rt, alloc, &problem, &Own, limits, watch)?;
    Ok(Treed::of(found))
}

// Searches a tree by `Least`, bounds the pins by edges, and goes on where that leaves the answer
// open.
fn by_all<W: Watch, R: Threads + Wait + Sync>(
    rt: &R,
    alloc: Global,
    question: Question<'_>,
    limits: Limits<'_>,
    watch: &mut W,
) -> Result<Found, SearchFault>
    requires held { length question.admit.now.held ≡ length question.circuit.now.netlist.inputs }
    ensures answer { IfOk result (λ found. IsSoundAnswer (problem_by strategy.Least question.entry.circuit.now question.entry.admit.now) limits.entry.effort.budget found.answer) }
    ensures first { limits.entry.effort.budget ≤ first_nodes (length question.entry.circuit.now.netlist.gates)
        → IfOk result (λ found. IsAnswer (problem_by strategy.Least question.entry.circuit.now question.entry.admit.now) limits.entry.effort.budget found.answer) }
    ensures edges { first_nodes (length question.entry.circuit.now.netlist.gates) < limits.entry.effort.budget
        → IfOk result (λ found. IsWithinEdges (problem_by strategy.Least question.entry.circuit.now question.entry.admit.now) found.answer) }
    ensures text { IfOk result (λ found. CanBeWritten (problem_by strategy.Least question.entry.circuit.now question.entry.admit.now) found.answer) }
    ensures time { IfOk result (λ found. TimeNeedsStop limits.entry.stop.now.can_be_set found.answer) }
    ensures shown { IfOk result (λ found. IsSupport (setting question.entry.circuit.now) question.entry.admit.now found.support) }
    ensures supported { IfOk result (λ found. IsWithinSupport (high_of found.answer) found.support) }
    ensures fault { IfErr result (IsSearchFault (problem_by strategy.Least question.entry.circuit.now question.entry.admit.now)) }
    ensures reported { W.reported (problem_by strategy.Least question.entry.circuit.now question.entry.admit.now) watch.old watch.new }
{
    let Question {
        circuit,
        admit,
        required,
        ..
    } = question;
    let problem = Problem {
        circuit,
        admit,
        strategy: Strategy::Least,
    };
    let Limits { effort, .. } = limits;
    let budget = effort.budget;
    let nodes = nodes_of(circuit, FIRST, budget);
    let first = with_nodes(limits, nodes);
    let ended = search(rt, alloc, &problem, &Own, first, watch)?;
    let begun = Treed::of(ended);
    let left = budget - nodes;
    if left == 0 {
        return Ok(Found::of(begun.answer, begun.tree));
    }
    let known = bounded_by_edges(alloc, &problem, begun.answer, nodes);
    if !is_open(&known) || is_answered(required, &known) {
        return Ok(Found::of(known, begun.tree));
    }
    let edged = Treed {
        answer: known,
        tree: begun.tree,
    };
    let rest = with_nodes(limits, left);
    Ok(further(rt, alloc, question, edged, nodes, rest, watch))
}

// Goes on from what trees with some nodes came to: searches for a refutation with little work, then
// a tree by `Lead`, then for a refutation with more work, and then a larger tree by `Lead`, until
// one of them ends.
fn further<W: Watch, R: Threads + Wait + Sync>(
    rt: &R,
    alloc: Global,
    question: Question<'_>,
    known: Treed,
    nodes: u64,
    limits: Limits<'_>,
    watch: &mut W,
) -> Found
    requires some { 0 < nodes }
    requires fits { nodes + limits.effort.budget < 2 ^ 64 }
    requires held { length question.admit.now.held ≡ length question.circuit.now.netlist.inputs }
    requires known { IsSoundAnswer (problem_by strategy.Least question.circuit.now question.admit.now) nodes known.answer }
    requires text { CanBeWritten (problem_by strategy.Least question.circuit.now question.admit.now) known.answer }
    requires tree { IsSupportOf (setting question.circuit.now) question.admit.now known.tree }
    requires within { IfSome known.tree (IsWithinTree (high_of known.answer)) }
    ensures answer { IsSoundAnswer (problem_by strategy.Least question.entry.circuit.now question.entry.admit.now) (nodes + limits.entry.effort.budget) result.answer }
    ensures text { CanBeWritten (problem_by strategy.Least question.entry.circuit.now question.entry.admit.now) result.answer }
    ensures high { high_of result.answer ≤ high_of known.answer }
    ensures time { TimeNeedsStop limits.entry.stop.now.can_be_set result.answer }
    ensures shown { IsSupport (setting question.entry.circuit.now) question.entry.admit.now result.support }
    ensures supported { IsWithinSupport (high_of result.answer) result.support }
    ensures reported { W.reported (problem_by strategy.Least question.entry.circuit.now question.entry.admit.now) watch.old watch.new }
{
    let Question {
        circuit,
        admit,
        required,
        ..
    } = question;
    let problem = Problem {
        circuit,
        admit,
        strategy: Strategy::Least,
    };
    let Limits { effort, .. } = limits;
    let budget = effort.budget;
    let quick = QUICK.min(budget / 4);
    let little = with_work(limits, quick, required);
    let soon = refuted_told(rt, alloc, &problem, known.answer, nodes, little, watch);
    if !is_open(&soon.answer) || is_answered(required, &soon.answer) {
        let support = Support {
            steps: soon.refuted,
            tree: known.tree,
        };
        return Found {
            answer: soon.answer,
            support,
            work: soon.work,
        };
    }
    let left = budget - quick;
    let more = nodes_of(circuit, SECOND, left / 2);
    let most = nodes_of(circuit, LAST, (left - more) / 2);
    let stepped = Treed {
        answer: soon.answer,
        tree: known.tree,
    };
    let second = with_nodes(limits, more);
    let led = led_further(rt, alloc, circuit, admit, stepped, second, watch);
    if is_answered(required, &led.answer) {
        let support = Support {
            steps: soon.refuted,
            tree: led.tree,
        };
        return Found {
            answer: led.answer,
            support,
            work: soon.work,
        };
    }
    let much = with_work(limits, left - more - most, required);
    let shown = refuted_told(rt, alloc, &problem, led.answer, nodes + more, much, watch);
    let steps = lower_steps(soon.refuted, shown.refuted);
    let work = soon.work.saturating_add(shown.work);
    if is_exact(&shown.answer) || is_answered(required, &shown.answer) {
        let support = Support {
            steps,
            tree: led.tree,
        };
        return Found {
            answer: shown.answer,
            support,
            work,
        };
    }
    let again = Treed {
        answer: shown.answer,
        tree: led.tree,
    };
    let last = with_nodes(limits, most);
    let ended = led_further(rt, alloc, circuit, admit, again, last, watch);
    let support = Support {
        steps,
        tree: ended.tree,
    };
    Found {
        answer: ended.answer,
        support,
        work,
    }
}

// The same limits with fewer nodes.
fn with_nodes(limits: Limits<'_>, budget: u64) -> Limits<'_>
    requires { budget ≤ limits.effort.budget }
    ensures budget { result.effort.budget ≡ budget }
    ensures stop { result.stop.now ≡ limits.entry.stop.now }
{
    let effort = Effort {
        workers: limits.effort.workers,
        budget,
    };
    Limits { effort, ..limits }
}

// The effort of as many workers for a refutation, with so much work.
fn with_work(limits: Limits<'_>, work: u64, required: Option<u64>) -> Refuting<'_>
    ensures stop { result.stop.now ≡ limits.entry.stop.now }
{
    let mut further = Refuting::until(limits.stop);
    further.work = work;
    further.workers = limits.effort.workers;
    further.words = words_of(limits.memory);
    further.required = required;
    further
}

// How many of the nodes that are left a tree with this share has, one at least where one is left.
fn nodes_of(circuit: &Circuit, share: Share, left: u64) -> u64
    ensures is { result ≡ min (max (min share.nodes (share.gates / max (length circuit.now.netlist.gates) 1)) 1) left }
    ensures few { result ≤ left }
    ensures some { 0 < left → 0 < result }
{
    let gates = circuit.gates().len().max(1) as u64;
    share.nodes.min(share.gates / gates).max(1).min(left)
}

// Whether an answer isn't exact for its budget alone.
fn is_open(answer: &Answer) -> bool
    ensures { result ≡ is_open answer.now }
{
    match answer {
        Answer::Exact { .. } => false,
        Answer::Between { cause, .. } => match cause {
            Cause::Budget => true,
            Cause::Memory | Cause::Time => false,
        },
    }
}

fn is_exact(answer: &Answer) -> bool {
    match answer {
        Answer::Exact { .. } => true,
        Answer::Between { .. } => false,
    }
}

// What a tree by `Lead` makes of an answer, where it may have nodes.
fn led_further<W: Watch, R: Threads + Wait + Sync>(
    rt: &R,
    alloc: Global,
    circuit: &Circuit,
    admit: &Admit,
    known: Treed,
    limits: Limits<'_>,
    watch: &mut W,
) -> Treed
    requires held { length admit.now.held ≡ length circuit.now.netlist.inputs }
    ensures answer { (budget : ℕ) → IsSoundAnswer (problem_by strategy.Least circuit.now admit.now) budget known.answer
        → CanBeWritten (problem_by strategy.Least circuit.now admit.now) known.answer
        → IsSoundAnswer (problem_by strategy.Least circuit.now admit.now) (budget + limits.entry.effort.budget) result.answer
        × CanBeWritten (problem_by strategy.Least circuit.now admit.now) result.answer }
    ensures high { (budget : ℕ) → IsSoundAnswer (problem_by strategy.Least circuit.now admit.now) budget known.answer → high_of result.answer ≤ high_of known.answer }
    ensures time { TimeNeedsStop limits.entry.stop.now.can_be_set known.answer → TimeNeedsStop limits.entry.stop.now.can_be_set result.answer }
    ensures shown { IsSupportOf (setting circuit.now) admit.now known.tree → IsSupportOf (setting circuit.now) admit.now result.tree }
    ensures within { (budget : ℕ) → IsSoundAnswer (problem_by strategy.Least circuit.now admit.now) budget known.answer
        → IfSome known.tree (IsWithinTree (high_of known.answer)) → IfSome result.tree (IsWithinTree (high_of result.answer)) }
    ensures reported { W.reported (problem_by strategy.Least circuit.now admit.now) watch.old watch.new }
{
    if limits.effort.budget == 0 {
        return known;
    }
    let problem = Problem {
        circuit,
        admit,
        strategy: Strategy::Lead,
    };
    match search(rt, alloc, &problem, &Own, limits, watch) {
        Ok(found) => with_tree(known, Treed::of(found)),
        Err(_) => known,
    }
}
