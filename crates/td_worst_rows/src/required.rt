//! A required moment, and what shows that none is later.

use crate::methods::{FALSE_WAY, all_of, circuit_of};
use std::alloc::Global;
use std::process::Abort;
use std::sync::Wait;
use std::test::*;
use std::thread::Threads;
use td_lead::Timed;
use td_pool::{Effort, Limits, Unwatched};
use td_search::Answer;
use td_stop::Stop;
use td_worst::{
    Found, KeptAnswer, KeptFound, KeptQuestion, Method, Question, Support, tree_of_high, worst,
    worst_kept,
};

/// One worker, and more work than these questions take.
const ENOUGH: Effort = Effort {
    workers: 1,
    budget: 1_000_000,
};

/// The figures of a search of all pairs where this moment is required, and how many nodes the tree
/// has that shows the upper one, 0 where there is none.
fn figures<R: Threads + Wait + Sync + Abort>(
    rt: &R,
    alloc: Global,
    required: Option<u64>,
) -> Result<(u64, u64), Fail> {
    let circuit = circuit_of(alloc, FALSE_WAY)?;
    let admit = all_of(rt, alloc, &circuit)?;
    let question = Question {
        circuit: &circuit,
        admit: &admit,
        method: Method::Refute,
        required,
    };
    let never = Stop::never();
    let limits = Limits::until(ENOUGH, &never);
    match worst(rt, alloc, question, limits, &mut Unwatched) {
        Ok(Found { answer, .. }) => match answer {
            Answer::Exact { time, .. } => Ok((time, time)),
            Answer::Between { low, high, .. } => Ok((low, high)),
        },
        Err(_) => Err(Fail::from("no answer")),
    }
}

/// Likewise of the pairs that keep no condition, by the search by spans alone.
fn shown<R: Threads + Wait + Sync + Abort>(
    rt: &R,
    alloc: Global,
    required: u64,
) -> Result<(u64, u64, usize), Fail> {
    let circuit = circuit_of(alloc, FALSE_WAY)?;
    let admit = all_of(rt, alloc, &circuit)?;
    let question = KeptQuestion {
        circuit: &circuit,
        admit: &admit,
        keep: &[],
        required: Some(required),
    };
    let never = Stop::never();
    let limits = Limits::until(ENOUGH, &never);
    match worst_kept(rt, alloc, question, limits) {
        Ok(KeptFound { answer, .. }) => match answer {
            KeptAnswer::Between {
                best,
                high,
                refuted,
                ..
            } => {
                let support = Support::by_steps(refuted);
                let tree = tree_of_high(alloc, question, &best, high, support);
                let nodes = tree.map_or(0, |tree| tree.nodes().len());
                let Timed { time, .. } = best;
                Ok((time, high, nodes))
            }
            KeptAnswer::Exact { best, tree } => Ok((best.time, best.time, tree.nodes().len())),
            _ => Err(Fail::from("no pair")),
        },
        Err(_) => Err(Fail::from("no answer")),
    }
}

/// The figures decide whether the moment is met, and where none is required they are one.
#[test]
fn the_figures_decide(rt: HostRuntime) -> Result<(), Fail> {
    assert_eq!(&rt; figures(&rt, rt.alloc(), None)?, (9, 9));
    for required in [0u64, 5, 8, 9, 12] {
        let (low, high) = figures(&rt, rt.alloc(), Some(required))?;
        assert!(&rt; low <= 9 && 9 <= high);
        assert!(&rt;
            if required < 9 {
                low > required
            } else {
                high <= required
            }
        );
    }
    Ok(())
}

/// A tree of one leaf shows the upper figure.
#[test]
fn a_tree_shows_the_upper_figure(rt: HostRuntime) -> Result<(), Fail> {
    for required in [0u64, 8, 9, 12] {
        let (low, high, nodes) = shown(&rt, rt.alloc(), required)?;
        assert!(&rt; low <= 9 && 9 <= high && nodes == 1);
        assert!(&rt;
            if required < 9 {
                low > required
            } else {
                high <= required
            }
        );
    }
    Ok(())
}
