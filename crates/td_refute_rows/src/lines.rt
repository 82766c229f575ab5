//! Lines of refutations by hand: good ones of each kind, and bad ones.

use crate::searches::circuit_of;
use std::alloc::{AllocError, Global};
use std::test::*;
use td_domain::Admit;
use td_refutation::{Flaw, Refusal, Step, StepKind, refuted};

/// The way by c needs b at 1 to pass d, and at 0 to pass y. Nets: a 2, b 3, c 4, d 5, e 6, y 7.
const TWO_WAYS: &str = "module t (a, b, y); input a, b; output y; buf #5 p (c, a);
and #(1,2) g (d, c, b); not #1 n (e, b); and #1 h (y, d, e); endmodule";

/// A line.
#[derive(Clone, Copy, Drop)]
struct Line<'a> {
    kind: StepKind,
    numbers: &'a [u64],
}

fn say<'a>(kind: StepKind, numbers: &'a [u64]) -> Line<'a> {
    Line { kind, numbers }
}

/// These lines as steps. The error is out of memory.
fn steps_of(alloc: Global, lines: &[Line<'_>]) -> Result<Vec<Step>, AllocError> {
    let mut steps = Vec::new(alloc);
    for line in lines {
        steps.push(Step {
            kind: line.kind,
            numbers: Vec::from_slice(alloc, line.numbers)?,
        })?;
    }
    Ok(steps)
}

/// What lines come to for all pairs of the circuit; none where there is no circuit or no memory.
fn judged(alloc: Global, lines: &[Line<'_>]) -> Option<Result<u64, Refusal>> {
    let circuit = circuit_of(alloc, TWO_WAYS)?;
    let _few = circuit.gates();
    let Ok(admit) = Admit::all(alloc, circuit.input_count()) else {
        return None;
    };
    let Ok(steps) = steps_of(alloc, lines) else {
        return None;
    };
    Some(refuted(alloc, &circuit, &admit, admit.pins(), &steps))
}

/// The example of docs/CERTIFICATE.md, where e is at 0 from this place on, and a line more.
fn example(alloc: Global, place: u64, more: Line<'_>) -> Option<Result<u64, Refusal>> {
    judged(
        alloc,
        &[
            say(StepKind::Last, &[3]),
            say(StepKind::Span, &[6, 0, place]),
            say(StepKind::Span, &[5, 0, 3]),
            say(StepKind::Span, &[7, 0, 4]),
            say(StepKind::Gate, &[2, 1]),
            say(StepKind::Gate, &[4, 0]),
            say(StepKind::Gate, &[6, 3]),
            say(StepKind::Gate, &[6, 5]),
            say(StepKind::Lemma, &[1, 6, 2, 0, 1, 3]),
            say(StepKind::End, &[7, 0, 4, 1, 6, 4]),
            say(StepKind::End, &[7, 1, 4, 1, 6, 4]),
            more,
        ],
    )
}

#[test]
fn the_example_shows_its_bound(rt: HostRuntime) -> Result<(), Fail> {
    let alloc = rt.alloc();
    let again = say(StepKind::Again, &[7]);
    assert_eq!(rt; example(alloc, 2, again), Some(Ok(3)));
    let early = Refusal::BadStep(4, Flaw::NotGood);
    assert_eq!(rt; example(alloc, 1, again), Some(Err(early)));
    Ok(())
}

#[test]
fn bad_lines_have_their_flaws(rt: HostRuntime) -> Result<(), Fail> {
    let alloc = rt.alloc();
    let late = say(StepKind::First, &[2]);
    let refusal = Refusal::BadStep(11, Flaw::LateVariable);
    assert_eq!(rt; example(alloc, 2, late), Some(Err(refusal)));
    let without = say(StepKind::Again, &[]);
    let refusal = Refusal::BadStep(11, Flaw::WrongNumbers);
    assert_eq!(rt; example(alloc, 2, without), Some(Err(refusal)));
    let kept = say(StepKind::Keep, &[0]);
    let refusal = Refusal::BadStep(11, Flaw::NotGood);
    assert_eq!(rt; example(alloc, 2, kept), Some(Err(refusal)));
    Ok(())
}

#[test]
fn the_other_kinds_are_good(rt: HostRuntime) -> Result<(), Fail> {
    let alloc = rt.alloc();
    let bound = judged(
        alloc,
        &[
            say(StepKind::First, &[2]),
            say(StepKind::First, &[4]),
            say(StepKind::Span, &[6, 0, 2, 9]),
            say(StepKind::Span, &[6, 0, 3, 5]),
            say(StepKind::Flips, &[2, 3]),
            say(StepKind::Table, &[2, 1]),
            say(StepKind::Net, &[5, 6]),
            say(StepKind::Pairs, &[9]),
        ],
    );
    assert_eq!(rt; bound, Some(Ok(8)));
    Ok(())
}
