//! What each method answers of small circuits.

ghost use Rattle.std.specs.Prelude.{◌≡◌, length, IfOk};

use std::alloc::{AllocError, Global};
use std::process::Abort;
use std::sync::Wait;
use std::test::*;
use std::thread::Threads;
use td_certificate::Tree;
use td_circuit::{Circuit, build};
use td_domain::Admit;
use td_gates::Delay;
use td_netlist::read;
use td_pool::{Effort, Limits, Unwatched};
use td_search::{Answer, Cause};
use td_stop::Stop;
use td_worst::{Method, Question, worst};

/// A pulse of one step that the second gate swallows. Edges bound it by 3.
pub const PULSE: &str =
    "module m(a, y); input a; output y; not #1 n(b, a); and #2 g(y, a, b); endmodule";

/// A way that no pair can go along: its last gate is open only while its first one is closed.
pub const FALSE_WAY: &str = "module m(a, b, s, y); input a, b, s; output y; not #1 n(t, s);
and #5 g0(c, a, s); or #1 g1(d, c, b); and #7 g2(e, d, t); or #1 g3(y, e, s); endmodule";

/// A signal that meets itself again.
pub const RECONVERGENT: &str = "module t (a, b, y); input a, b; output y;
    buf #1 p1(p,b); buf #1 p2(q,b); xor #3 g(y,a,p,q); endmodule";

/// Two gates that are slow one way each: a change passes 6 later, by arrival windows alone 10.
pub const INVERTERS: &str =
    "module m(a, y); input a; output y; not #(1,5) n(b, a); not #(1,5) g(y, b); endmodule";

/// The circuit of a netlist. The error is out of memory, or a text that is refused.
pub fn circuit_of(alloc: Global, text: &str) -> Result<Circuit, AllocError> {
    let unit = Delay { rise: 1, fall: 1 };
    let Ok(netlist) = read(alloc, text.as_bytes(), unit) else {
        return Err(AllocError);
    };
    let Ok(circuit) = build(alloc, netlist) else {
        return Err(AllocError);
    };
    Ok(circuit)
}

/// All pairs of a circuit.
pub fn all_of(rt: &impl Abort, alloc: Global, circuit: &Circuit) -> Result<Admit, AllocError>
    ensures { IfOk result (λ admit. length admit.held ≡ length circuit.now.netlist.inputs) }
{
    let inputs = circuit.input_count();
    assert!(rt; inputs <= 4096);
    let admit = Admit::all(alloc, inputs)?;
    assert!(rt; admit.held().len() == inputs);
    Ok(admit)
}

/// What a method answers of all pairs of a netlist.
fn answered<R: Threads + Wait + Sync + Abort>(
    rt: &R,
    alloc: Global,
    netlist: &str,
    method: Method,
    budget: u64,
) -> Result<Answer, Fail> {
    assert!(rt; budget <= 10_000_000);
    let never = Stop::never();
    let limits = Limits::until(Effort { workers: 1, budget }, &never);
    answer_of(rt, alloc, netlist, method, limits)
}

/// What a method answers of all pairs of a netlist within these limits.
pub fn answer_of<R: Threads + Wait + Sync + Abort>(
    rt: &R,
    alloc: Global,
    netlist: &str,
    method: Method,
    limits: Limits<'_>,
) -> Result<Answer, Fail> {
    let circuit = circuit_of(alloc, netlist)?;
    let admit = all_of(rt, alloc, &circuit)?;
    let question = Question {
        circuit: &circuit,
        admit: &admit,
        method,
        required: None,
    };
    match worst(rt, alloc, question, limits, &mut Unwatched) {
        Ok(found) => Ok(found.answer),
        Err(_) => Err(Fail::from("no answer")),
    }
}

/// The time of an exact answer, how many nodes its tree has, and whether one of them is refuted.
fn exact(answer: &Answer) -> Option<(u64, usize, bool)> {
    match answer {
        Answer::Exact { time, tree, .. } => {
            let tree: &Tree = tree;
            Some((*time, tree.nodes().len(), tree.has_refuted()))
        }
        Answer::Between { .. } => None,
    }
}

/// Each method has the same worst delay.
#[test]
fn methods_agree(rt: HostRuntime) -> Result<(), Fail> {
    for (netlist, time) in [(PULSE, 0u64), (FALSE_WAY, 9), (RECONVERGENT, 3)] {
        for method in [Method::Least, Method::Lead, Method::Refute, Method::Auto] {
            let answer = answered(&rt, rt.alloc(), netlist, method, 1_000_000)?;
            assert_eq!(&rt; exact(&answer).map(|found| found.0), Some(time));
        }
    }
    Ok(())
}

/// A refutation has a tree of one leaf.
#[test]
fn refuted_leaf(rt: HostRuntime) -> Result<(), Fail> {
    let answer = answered(&rt, rt.alloc(), FALSE_WAY, Method::Refute, 1_000_000)?;
    assert_eq!(&rt; exact(&answer), Some((9, 1, true)));
    Ok(())
}

/// Where a pair is as late as the bound by edges, no step is needed.
#[test]
fn edges_come_before_steps(rt: HostRuntime) -> Result<(), Fail> {
    let answer = answered(&rt, rt.alloc(), INVERTERS, Method::Refute, 1)?;
    assert_eq!(&rt; exact(&answer), Some((6, 1, false)));
    Ok(())
}

/// `Auto` gives the tree of `Least` where that ends.
#[test]
fn least_comes_first(rt: HostRuntime) -> Result<(), Fail> {
    for netlist in [PULSE, FALSE_WAY, RECONVERGENT] {
        let least = answered(&rt, rt.alloc(), netlist, Method::Least, 1_000_000)?;
        let auto = answered(&rt, rt.alloc(), netlist, Method::Auto, 1_000_000)?;
        assert_eq!(&rt; exact(&least), exact(&auto));
    }
    Ok(())
}

/// Without a budget nothing is searched, and the bounds are those of the pins.
#[test]
fn without_a_budget(rt: HostRuntime) -> Result<(), Fail> {
    for method in [Method::Least, Method::Lead, Method::Refute, Method::Auto] {
        let answer = answered(&rt, rt.alloc(), FALSE_WAY, method, 0)?;
        match answer {
            Answer::Between {
                low,
                high,
                nodes,
                cause,
                ..
            } => assert!(&rt; low <= 9 && 9 <= high && nodes == 0 && cause == Cause::Budget),
            Answer::Exact { .. } => assert!(&rt; false),
        }
    }
    Ok(())
}
