//! What searches find in small circuits, also beside all pairs that are admitted.

ghost use Rattle.std.specs.Prelude.{◌≡◌, ◌≤◌, length, IfOk, IfSome};
ghost use Rattle.td_circuit.specs.Numbering.{setting};
ghost use Rattle.td_domain.specs.Admits.{IsAdmitted};
ghost use Rattle.td_event_sim.specs.Scratch.{IsFor};
ghost use Rattle.td_lead.specs.Timed.{IsTimed};

use crate::questions::{Question, admit_of, worst};
use std::alloc::{AllocError, Global};
use std::test::*;
use std::thread::Threads;
use td_circuit::{Circuit, build};
use td_domain::{Admit, Pair};
use td_event_sim::{Scratch, delay_of};
use td_gates::Delay;
use td_lead::Timed;
use td_netlist::read;
use td_refute::{Effort, refute};
use td_search::representative;
use td_stop::Stop;

/// A pulse of one step that the second gate swallows.
const PULSE: &str =
    "module m(a, y); input a; output y; not #1 n(b, a); and #2 g(y, a, b); endmodule";

/// A way that no pair can go along: its last gate is open only while its first one is closed.
const FALSE_WAY: &str = "module m(a, b, s, y); input a, b, s; output y; not #1 n(t, s);
and #5 g0(c, a, s); or #1 g1(d, c, b); and #7 g2(e, d, t); or #1 g3(y, e, s); endmodule";

/// A gate that reads nine nets, whose rows aren't all named at once.
const WIDE: &str = "module m(a, b, y); input a, b; output y; not #1 g0(c, a); not #2 g1(d, b);
not #3 g2(e, c); not #1 g3(f, d); not #4 g4(g, e); xor #2 g5(y, a, b, c, d, e, f, g, a, c);
endmodule";

/// A signal that meets itself again.
const RECONVERGENT: &str = "module t (a, b, y); input a, b; output y;
    buf #1 p1(p,b); buf #1 p2(q,b); xor #3 g(y,a,p,q); endmodule";

/// A question of these pins, held inputs and flips.
fn asked<'a>(pins: &'a str, held: &'a str, flips: u32) -> Question<'a> {
    Question { pins, held, flips }
}

/// The circuit of a text, if it has one.
pub fn circuit_of(alloc: Global, text: &str) -> Option<Circuit> {
    let default = Delay::new(1, 1)?;
    let Ok(netlist) = read(alloc, text.as_bytes(), default) else {
        return None;
    };
    match build(alloc, netlist) {
        Ok(circuit) => Some(circuit),
        Err(_) => None,
    }
}

/// What a search found: the best delay, the bound, and how many lines show it.
#[derive(Clone, Copy, Debug, PartialEq, Eq, Drop)]
struct Found {
    low: u64,
    high: u64,
    steps: usize,
}

/// What a search finds from an admitted pair on.
fn found_from<R: Threads + Sync>(
    rt: &R,
    alloc: Global,
    circuit: &Circuit,
    admit: &Admit,
    scratch: &mut Scratch,
    start: Timed,
    effort: Effort<'_>,
) -> Result<Option<Found>, AllocError>
    requires scratch { IsFor circuit.now scratch.old }
    requires held { length admit.now.held ≡ length circuit.now.netlist.inputs }
    requires start { IsTimed (setting circuit.now) admit.now start }
{
    let mut best = start;
    let sought = refute(rt, alloc, scratch, circuit, admit, &mut best, effort)?;
    match sought.refuted {
        Some(refuted) => Ok(Some(Found {
            low: best.time,
            high: refuted.bound,
            steps: refuted.steps.len(),
        })),
        None => Ok(None),
    }
}

/// What a search finds among the admitted pairs of a circuit, if there are some.
fn found_in<R: Threads + Sync>(
    rt: &R,
    alloc: Global,
    circuit: &Circuit,
    admit: &Admit,
    effort: Effort<'_>,
) -> Result<Option<Found>, AllocError>
    requires { length admit.now.held ≡ length circuit.now.netlist.inputs }
{
    let pins = admit.pins();
    if !admit.any(pins) {
        return Ok(None);
    }
    let pair = representative(alloc, pins, admit)?;
    let mut scratch = Scratch::new(alloc, circuit)?;
    let start = timed(&mut scratch, circuit, admit, pair)?;
    found_from(rt, alloc, circuit, admit, &mut scratch, start, effort)
}

/// An admitted pair with its delay.
fn timed(
    scratch: &mut Scratch,
    circuit: &Circuit,
    admit: &Admit,
    pair: Pair,
) -> Result<Timed, AllocError>
    requires scratch { IsFor circuit.now scratch.old }
    requires held { length admit.now.held ≡ length circuit.now.netlist.inputs }
    requires admitted { IsAdmitted admit.now pair }
    ensures timed { IfOk result (IsTimed (setting circuit.now) admit.now) }
    ensures scratch { IsFor circuit.now scratch.new }
{
    let _pins = admit.pins();
    let time = delay_of(scratch, circuit, &pair)?;
    Ok(Timed { pair, time })
}

/// What a search finds among all pairs of a circuit.
fn found_in_all<R: Threads + Sync>(
    rt: &R,
    alloc: Global,
    circuit: &Circuit,
    effort: Effort<'_>,
) -> Result<Option<Found>, AllocError> {
    let _few = circuit.gates();
    let admit = Admit::all(alloc, circuit.input_count())?;
    found_in(rt, alloc, circuit, &admit, effort)
}

/// What a search finds among all pairs of the circuit of a text.
fn found_in_text<R: Threads + Sync>(
    rt: &R,
    alloc: Global,
    text: &str,
    effort: Effort<'_>,
) -> Option<Found> {
    let circuit = circuit_of(alloc, text)?;
    match found_in_all(rt, alloc, &circuit, effort) {
        Ok(found) => found,
        Err(_) => None,
    }
}

/// The effort that a search makes without questions.
fn no_effort(stop: &Stop) -> Effort<'_> {
    let mut effort = Effort::until(stop);
    effort.work = 0;
    effort
}

/// The effort of several workers from the first question on.
fn of_workers(stop: &Stop, workers: u32) -> Effort<'_> {
    let mut effort = Effort::until(stop);
    effort.workers = workers;
    effort.alone = 0;
    effort
}

/// Whether one worker, and two, find the worst delay of the pairs that are asked about, and show
/// it.
fn agrees<R: Threads + Sync>(
    rt: &R,
    alloc: Global,
    circuit: &Circuit,
    question: Question<'_>,
) -> Result<bool, AllocError> {
    let Some(admit) = admit_of(alloc, circuit, question)? else {
        return Ok(false);
    };
    let wanted = worst(alloc, circuit, &admit)?;
    let stop = Stop::never();
    for workers in 1..3 {
        let is_right = match found_in(rt, alloc, circuit, &admit, of_workers(&stop, workers))? {
            Some(found) => (found.low, found.high) == (wanted, wanted),
            None => false,
        };
        if !is_right {
            return Ok(false);
        }
    }
    Ok(true)
}

/// Whether searches agree with all pairs for each of these questions about the circuit of a text.
fn all_agree<R: Threads + Sync>(
    rt: &R,
    alloc: Global,
    text: &str,
    questions: &[Question<'_>],
) -> Result<bool, AllocError> {
    let Some(circuit) = circuit_of(alloc, text) else {
        return Ok(false);
    };
    for question in questions {
        if !agrees(rt, alloc, &circuit, *question)? {
            return Ok(false);
        }
    }
    Ok(true)
}

#[test]
fn questions_beside_all_pairs(rt: HostRuntime) -> Result<(), Fail> {
    let alloc = rt.alloc();
    let three = [
        asked("......", "...", 3),
        asked("......", "...", 2),
        asked("......", "...", 1),
        asked("......", "...", 0),
        asked("......", "=..", 3),
        asked("......", ".==", 3),
        asked("1.....", "...", 3),
        asked("...1.0", "..=", 2),
        asked("01....", "...", 1),
        asked("01..0.", "...", 2),
    ];
    assert!(&rt; all_agree(&rt, alloc, FALSE_WAY, &three)?);
    let two = [
        asked("....", "..", 2),
        asked("....", "..", 1),
        asked("....", ".=", 2),
        asked("10..", "..", 1),
        asked("0..1", "..", 2),
    ];
    assert!(&rt; all_agree(&rt, alloc, WIDE, &two)?);
    assert!(&rt; all_agree(&rt, alloc, RECONVERGENT, &two)?);
    Ok(())
}

#[test]
fn a_pulse_that_is_swallowed(rt: HostRuntime) -> Result<(), Fail> {
    let found = found_in_text(&rt, rt.alloc(), PULSE, Effort::until(&Stop::never())).ok_or(
        "found",
    )?;
    assert_eq!(&rt; (found.low, found.high), (0, 0));
    assert!(&rt; found.steps > 0);
    Ok(())
}

#[test]
fn a_way_that_is_false(rt: HostRuntime) -> Result<(), Fail> {
    let found = found_in_text(&rt, rt.alloc(), FALSE_WAY, Effort::until(&Stop::never())).ok_or(
        "found",
    )?;
    assert_eq!(&rt; (found.low, found.high), (9, 9));
    assert!(&rt; found.steps > 0);
    Ok(())
}

#[test]
fn a_wide_gate(rt: HostRuntime) -> Result<(), Fail> {
    let found = found_in_text(&rt, rt.alloc(), WIDE, Effort::until(&Stop::never())).ok_or("found")?;
    assert_eq!(&rt; found.low, found.high);
    Ok(())
}

#[test]
fn without_work_the_bound_is_that_of_the_first_times(rt: HostRuntime) -> Result<(), Fail> {
    let found = found_in_text(&rt, rt.alloc(), FALSE_WAY, no_effort(&Stop::never())).ok_or(
        "found",
    )?;
    assert_eq!(&rt; (found.high, found.steps), (14, 0));
    Ok(())
}

#[test]
fn an_answer_is_the_same_again(rt: HostRuntime) -> Result<(), Fail> {
    let first = found_in_text(&rt, rt.alloc(), FALSE_WAY, Effort::until(&Stop::never())).ok_or(
        "found",
    )?;
    let again = found_in_text(&rt, rt.alloc(), FALSE_WAY, Effort::until(&Stop::never())).ok_or(
        "found",
    )?;
    assert_eq!(&rt; first, again);
    Ok(())
}

#[test]
fn workers_find_the_same_again(rt: HostRuntime) -> Result<(), Fail> {
    let stop = Stop::never();
    let first = found_in_text(&rt, rt.alloc(), FALSE_WAY, of_workers(&stop, 3)).ok_or("found")?;
    let again = found_in_text(&rt, rt.alloc(), FALSE_WAY, of_workers(&stop, 3)).ok_or("found")?;
    assert_eq!(&rt; first, again);
    assert!(&rt; first.steps > 0);
    Ok(())
}

#[test]
fn a_stop_that_is_set_ends_it_at_once(rt: HostRuntime) -> Result<(), Fail> {
    let stop = Stop::new();
    stop.set();
    let found = found_in_text(&rt, rt.alloc(), FALSE_WAY, Effort::until(&stop));
    assert_eq!(&rt; found, None);
    Ok(())
}
