//! What shows the upper figures of answers that stay open, by each method.

use crate::methods::{FALSE_WAY, INVERTERS, PULSE, RECONVERGENT, all_of, circuit_of};
use std::alloc::Global;
use std::process::Abort;
use std::sync::Wait;
use std::test::*;
use std::thread::Threads;
use td_certificate::{Node, Tree};
use td_pool::{Effort, Limits, Unwatched};
use td_search::Answer;
use td_stop::Stop;
use td_worst::{Found, Method, Question, worst};

/// Whether the number of each leaf is at most this.
fn is_within(tree: &Tree, high: u64) -> bool {
    tree.nodes().iter().all(|node| match node {
        Node::Split(_) | Node::Empty => true,
        Node::Bound(_, bound) => *bound <= high,
        Node::Point(time) => *time <= high,
        Node::Refuted(refuted) => refuted.bound().is_some_and(|bound| bound <= high),
    })
}

/// Whether an answer is exact, or a tree is there that shows its moment: with one tree alone, the
/// upper figure.
fn is_shown(found: &Found, of_one_tree: bool) -> bool {
    let Answer::Between { high, .. } = &found.answer else {
        return true;
    };
    match &found.support.tree {
        Some(it) => is_within(&it.tree, it.high) && (it.high == *high || !of_one_tree),
        None => false,
    }
}

/// Whether a search with this effort leaves nothing open, or a tree.
fn shows<R: Threads + Wait + Sync + Abort>(
    rt: &R,
    alloc: Global,
    netlist: &str,
    method: Method,
    effort: Effort,
) -> Result<bool, Fail> {
    let circuit = circuit_of(alloc, netlist)?;
    let admit = all_of(rt, alloc, &circuit)?;
    let question = Question {
        circuit: &circuit,
        admit: &admit,
        method,
        required: None,
    };
    let never = Stop::never();
    let limits = Limits::until(effort, &never);
    match worst(rt, alloc, question, limits, &mut Unwatched) {
        Ok(found) => {
            let of_one_tree = method == Method::Least || method == Method::Lead;
            Ok(is_shown(&found, of_one_tree))
        }
        Err(_) => Err(Fail::from("no answer")),
    }
}

/// Each method leaves a tree beside an answer that stays open.
#[test]
fn each_leaves_a_tree(rt: HostRuntime) -> Result<(), Fail> {
    for netlist in [PULSE, FALSE_WAY, RECONVERGENT, INVERTERS] {
        for method in [Method::Least, Method::Lead, Method::Refute, Method::Auto] {
            for budget in [0u64, 1, 2, 5] {
                for workers in [1u32, 4] {
                    let effort = Effort { workers, budget };
                    let is = shows(&rt, rt.alloc(), netlist, method, effort)?;
                    assert!(&rt; is, "{budget} nodes of {workers} workers");
                }
            }
        }
    }
    Ok(())
}
