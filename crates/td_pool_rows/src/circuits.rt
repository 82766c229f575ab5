//! Circuits and searches for the tests, and what a search comes to as plain values.

ghost use Rattle.std.specs.Prelude.{◌≡◌, length, IfOk};

use std::alloc::{AllocError, Global};
use std::process::Abort;
use std::sync::Wait;
use std::test::Fail;
use std::thread::Threads;
use td_certificate::{BoundedBy, Node, Tree};
use td_circuit::{Circuit, build};
use td_domain::Admit;
use td_gates::Delay;
use td_netlist::read;
use td_pool::{Effort, Hints, Limits, Unwatched, search, worst, worst_by};
use td_search::{Answer, Own, Prober, Problem, SearchFault, Strategy, alone};
use td_stop::Stop;

/// A pulse that is lost.
pub const LOST: &str =
    "module t (a, y); input a; output y; not #1 n(b,a); and #2 g(y,a,b); endmodule";

/// A signal that meets itself again.
pub const RECONVERGENT: &str = "module t (a, b, y); input a, b; output y;
    buf #1 p1(p,b); buf #1 p2(q,b); xor #3 g(y,a,p,q); endmodule";

/// The same beside three inputs that no gate reads.
pub const WIDE: &str = "module t (e, f, g, a, b, y); input e, f, g, a, b; output y;
    buf #1 p1(p,b); buf #1 p2(q,b); xor #3 r(y,a,p,q); endmodule";

/// An or with a slow arm.
pub const SLOW_ARM: &str =
    "module t (a, b, y); input a, b; output y; buf #4 s(t,a); or #1 g(y,b,t); endmodule";

/// The text of a netlist whose changes double from level to level: each level is an xor of the level
/// before and a delayed copy of it, whose delays halve.
pub fn doubling_text(alloc: Global, levels: u32) -> Result<String, AllocError> {
    let mut delay = 1u64;
    for _ in 0..levels {
        delay = delay.saturating_mul(2);
    }
    let mut gates = String::new(alloc);
    for level in 0..levels {
        let next = level.saturating_add(1);
        gates.push_str(&format!(in alloc;
            "buf #{delay} (c{level},x{level}); xor #1 (x{next},x{level},c{level});\n"
        )?)?;
        delay /= 2;
    }
    Ok(format!(in alloc;
        "module t (x0, x{levels}); input x0; output x{levels};\n{gates}endmodule"
    )?)
}

/// A circuit, and all its pairs.
#[derive(Drop)]
pub struct Asked {
    pub circuit: Circuit,
    pub admit: Admit,
}

/// The circuit of a netlist, and all its pairs. The error is out of memory, or a text that is
/// refused.
pub fn asked_of(rt: &impl Abort, alloc: Global, netlist: &str) -> Result<Asked, AllocError>
    ensures { IfOk result (λ asked. length asked.admit.held ≡ length asked.circuit.netlist.inputs) }
{
    let circuit = circuit_of(alloc, netlist)?;
    let admit = all_of(rt, alloc, &circuit)?;
    Ok(Asked { circuit, admit })
}

// The circuit of a netlist. The error is out of memory, or a text that is refused.
fn circuit_of(alloc: Global, text: &str) -> Result<Circuit, AllocError> {
    let unit = Delay { rise: 1, fall: 1 };
    let Ok(netlist) = read(alloc, text.as_bytes(), unit) else {
        return Err(AllocError);
    };
    let Ok(circuit) = build(alloc, netlist) else {
        return Err(AllocError);
    };
    Ok(circuit)
}

// All pairs of a circuit.
fn all_of(rt: &impl Abort, alloc: Global, circuit: &Circuit) -> Result<Admit, AllocError>
    ensures { IfOk result (λ admit. length admit.held ≡ length circuit.now.netlist.inputs) }
{
    let inputs = circuit.input_count();
    assert!(rt; inputs <= 4096);
    let admit = Admit::all(alloc, inputs)?;
    assert!(rt; admit.held().len() == inputs);
    Ok(admit)
}

/// What a search came to: the two figures around the worst delay, whether it is exact, the number
/// of its nodes, and how many leaves of its tree are bounded by both domains at once.
#[derive(Clone, Copy, Drop)]
pub struct Reported {
    pub low: u64,
    pub high: u64,
    pub is_exact: bool,
    pub nodes: u64,
    pub by_both: usize,
}

// How many leaves of a tree are bounded by both domains at once.
fn by_both(tree: &Tree) -> usize {
    let leaves = tree.nodes().iter();
    leaves
        .filter(|node| matches!(node, Node::Bound(BoundedBy::Both, _)))
        .count()
}

// What an answer says.
fn as_reported(answer: &Result<Answer, SearchFault>) -> Result<Reported, Fail> {
    match answer {
        Ok(Answer::Exact { time, tree, .. }) => Ok(Reported {
            low: *time,
            high: *time,
            is_exact: true,
            nodes: tree.nodes().len() as u64,
            by_both: by_both(tree),
        }),
        Ok(
            Answer::Between {
                low,
                high,
                nodes,
                ..
            },
        ) => Ok(Reported {
            low: *low,
            high: *high,
            is_exact: false,
            nodes: *nodes,
            by_both: 0,
        }),
        Err(_) => Err(Fail::from("no answer")),
    }
}

/// What a search of all pairs by that many workers comes to.
pub fn found<P: Prober + Sync, R: Threads + Wait + Sync + Abort>(
    rt: &R,
    alloc: Global,
    netlist: &str,
    prober: &P,
    workers: u32,
    budget: u64,
) -> Result<Reported, Fail> {
    assert!(rt; 0 < workers && workers <= 64 && budget <= 10_000_000);
    let asked = asked_of(rt, alloc, netlist)?;
    as_reported(&worst(
        rt,
        alloc,
        &asked.circuit,
        &asked.admit,
        prober,
        workers,
        budget,
    ))
}

/// What a search of all pairs by that many workers comes to. With one worker it goes without what
/// workers share.
pub fn found_with<R: Threads + Wait + Sync + Abort>(
    rt: &R,
    alloc: Global,
    netlist: &str,
    workers: u32,
    budget: u64,
) -> Result<Reported, Fail> {
    assert!(rt; 0 < workers && workers <= 64 && budget <= 10_000_000);
    let asked = asked_of(rt, alloc, netlist)?;
    let problem = Problem {
        circuit: &asked.circuit,
        admit: &asked.admit,
        strategy: Strategy::Least,
    };
    let never = Stop::never();
    let limits = Limits::until(Effort { workers, budget }, &never);
    match search(rt, alloc, &problem, &Own, limits, &mut Unwatched) {
        Ok(ended) => as_reported(&Ok(ended.answer)),
        Err(fault) => as_reported(&Err(fault)),
    }
}

/// What a search of all pairs by a worker for each of these decks comes to.
pub fn found_by<D: Hints + Drop + Send, R: Threads + Wait + Sync + Abort>(
    rt: &R,
    alloc: Global,
    netlist: &str,
    mut decks: Vec<D>,
    workers: u32,
) -> Result<Reported, Fail> {
    assert!(rt; 0 < workers && workers <= 64);
    assert!(rt; decks.len() == workers as usize);
    let asked = asked_of(rt, alloc, netlist)?;
    as_reported(&worst_by(
        rt,
        alloc,
        &asked.circuit,
        &asked.admit,
        &Own,
        &mut decks,
        workers,
        1_000_000,
    ))
}

/// What a search of all pairs in one thread comes to.
pub fn found_alone(
    rt: &impl Abort,
    alloc: Global,
    netlist: &str,
    budget: u64,
) -> Result<Reported, Fail> {
    assert!(rt; budget <= 10_000_000);
    let asked = asked_of(rt, alloc, netlist)?;
    as_reported(&alone(alloc, &asked.circuit, &asked.admit, budget))
}
