//! Searches that a stop ends.

ghost use Rattle.std.specs.Prelude.{◌<◌, ◌≤◌};

use crate::methods::{FALSE_WAY, answer_of};
use std::alloc::Global;
use std::process::Abort;
use std::sync::Wait;
use std::test::*;
use std::thread::Threads;
use td_pool::{Effort, Limits};
use td_search::{Answer, Cause};
use td_stop::Stop;
use td_worst::Method;

/// The worst delay of the circuit that is searched.
const WORST: u64 = 9;

/// All methods.
const METHODS: [Method; 4] = [Method::Least, Method::Lead, Method::Refute, Method::Auto];

/// What a method answers with this stop.
fn answered_until<R: Threads + Wait + Sync + Abort>(
    rt: &R,
    alloc: Global,
    method: Method,
    workers: u32,
    stop: &Stop,
) -> Result<Answer, Fail>
    requires some { 0 < workers }
    requires few { workers ≤ 64 }
{
    let effort = Effort {
        workers,
        budget: 1_000_000,
    };
    answer_of(rt, alloc, FALSE_WAY, method, Limits::until(effort, stop))
}

/// Whether figures are right, and time is why they are open.
fn is_cut_short(answer: &Answer) -> bool {
    match answer {
        Answer::Exact { .. } => false,
        Answer::Between {
            low,
            high,
            cause,
            ..
        } => *low <= WORST && WORST <= *high && *cause == Cause::Time,
    }
}

/// A stop that is set before the search ends it, whoever set it.
#[test]
fn set_before(rt: HostRuntime) -> Result<(), Fail> {
    for method in METHODS {
        for workers in [1, 4] {
            let set = Stop::new();
            set.set();
            let answer = answered_until(&rt, rt.alloc(), method, workers, &set)?;
            assert!(&rt; is_cut_short(&answer) && !set.was_asked());
            let asked = Stop::new();
            asked.ask();
            let answer = answered_until(&rt, rt.alloc(), method, workers, &asked)?;
            assert!(&rt; is_cut_short(&answer) && asked.was_asked());
        }
    }
    Ok(())
}

/// One that can't be set doesn't.
#[test]
fn never_set(rt: HostRuntime) -> Result<(), Fail> {
    for method in METHODS {
        for workers in [1, 4] {
            let never = Stop::never();
            never.set();
            never.ask();
            let answer = answered_until(&rt, rt.alloc(), method, workers, &never)?;
            assert!(&rt; matches!(answer, Answer::Exact { time: WORST, .. }));
        }
    }
    Ok(())
}
