//! The trees that show the upper figures of searches that were cut short.

use crate::circuits::{LOST, RECONVERGENT, SLOW_ARM, WIDE, asked_of};
use std::alloc::Global;
use std::process::Abort;
use std::sync::Wait;
use std::test::*;
use std::thread::Threads;
use td_certificate::{BoundedBy, Node, Tree};
use td_pool::{Effort, Limits, Unwatched, search};
use td_search::{Answer, Ended, Own, Problem, Strategy, alone_shown};
use td_stop::Stop;

/// What a search comes to that handles at most so many nodes.
fn ended_by<R: Threads + Wait + Sync + Abort>(
    rt: &R,
    alloc: Global,
    netlist: &str,
    strategy: Strategy,
    effort: Effort,
) -> Result<Ended, Fail> {
    let asked = asked_of(rt, alloc, netlist)?;
    let problem = Problem {
        circuit: &asked.circuit,
        admit: &asked.admit,
        strategy,
    };
    let never = Stop::never();
    let limits = Limits::until(effort, &never);
    match search(rt, alloc, &problem, &Own, limits, &mut Unwatched) {
        Ok(ended) => Ok(ended),
        Err(_) => Err(Fail::from("no answer")),
    }
}

/// Whether the numbers of all leaves are at most this, and where one is bounded by both domains of
/// a strategy at once, it is by this strategy.
fn is_within(tree: &Tree, high: u64, other: BoundedBy) -> bool {
    tree.nodes().iter().all(|node| match node {
        Node::Split(_) | Node::Empty => true,
        Node::Bound(domain, bound) => *bound <= high && *domain != other,
        Node::Point(time) => *time <= high,
        Node::Refuted(_) => false,
    })
}

/// Whether an open answer has a tree, and all leaves of the tree are at most its upper figure.
fn is_shown(ended: &Ended, other: BoundedBy) -> bool {
    match (&ended.answer, &ended.tree) {
        (Answer::Exact { .. }, None) => true,
        (Answer::Exact { .. }, Some(_)) => false,
        (Answer::Between { high, .. }, Some(tree)) => is_within(tree, *high, other),
        (Answer::Between { .. }, None) => false,
    }
}

/// Each search that is cut short has a tree, whose leaves are at most the upper figure.
#[test]
fn trees_of_what_is_open(rt: HostRuntime) -> Result<(), Fail> {
    for netlist in [LOST, RECONVERGENT, WIDE, SLOW_ARM] {
        for (strategy, other) in [
            (Strategy::Least, BoundedBy::EdgesAndPossible),
            (Strategy::Lead, BoundedBy::Both),
        ] {
            for budget in [0u64, 1, 2, 5, 20] {
                for workers in [1u32, 4] {
                    let effort = Effort { workers, budget };
                    let ended = ended_by(&rt, rt.alloc(), netlist, strategy, effort)?;
                    assert!(&rt;
                        is_shown(&ended, other),
                        "{budget} nodes of {workers} workers"
                    );
                }
            }
        }
    }
    Ok(())
}

/// Without a node, the root alone shows the upper figure, by the strongest domain.
#[test]
fn the_root_alone(rt: HostRuntime) -> Result<(), Fail> {
    let asked = asked_of(&rt, rt.alloc(), RECONVERGENT)?;
    let problem = Problem {
        circuit: &asked.circuit,
        admit: &asked.admit,
        strategy: Strategy::Least,
    };
    let Ok(Ended { answer, tree }) = alone_shown(rt.alloc(), &problem, 0, &Stop::never()) else {
        return Err(Fail::from("no answer"));
    };
    let Some(tree) = tree else {
        return Err(Fail::from("no tree"));
    };
    match (answer, tree.nodes()) {
        (Answer::Between { high, .. }, [Node::Bound(BoundedBy::Both, bound)]) => {
            assert_eq!(&rt; *bound, high);
            Ok(())
        }
        _ => Err(Fail::from("another tree")),
    }
}
