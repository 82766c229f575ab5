//! A narrowing evaluates the gates that read a changed signal, each once, and a widening none.

ghost use Rattle.td_domain.specs.Sheets.{IsSheet};
ghost use Rattle.td_domain_rows.specs.Counting.{counting_functions};

use crate::circuits::{circuit_of, generated};
use crate::counting::{Counted, Counting};
use crate::texts::C17;
use std::alloc::{AllocError, Global};
use std::process::Abort;
use std::test::*;
use td_circuit::{Circuit, Net};
use td_domain::{Cube, Sheet, Trit};

/// What is seen of a net's signal: whether a known bit reaches the net, and which evaluation said
/// so.
#[derive(Clone, Copy, Debug, PartialEq, Eq, Drop)]
struct Seen {
    is_reached: bool,
    number: u32,
}

/// What is seen of the signals of all nets.
fn all_seen(alloc: Global, signals: &[Counted]) -> Result<Vec<Seen>, AllocError> {
    let mut all = Vec::new(alloc);
    for signal in signals {
        all.push(Seen {
            is_reached: signal.is_reached(),
            number: signal.number(),
        })?;
    }
    Ok(all)
}

/// Whether a net is seen as before.
fn is_as_before(before: &[Seen], after: &[Seen], net: Net) -> bool {
    before.get(net as usize) == after.get(net as usize)
}

/// Whether a net's signal was made by the evaluation of this number.
fn is_made_by(after: &[Seen], net: Net, number: u32) -> bool {
    match after.get(net as usize) {
        Some(seen) => seen.number == number,
        None => false,
    }
}

/// Whether one of some nets is among others.
fn has_one(nets: &[Net], others: &[Net]) -> bool {
    for net in nets {
        if others.contains(net) {
            return true;
        }
    }
    false
}

/// How many evaluations there were after a narrowing at an input, if before it there were `count`,
/// and if it made the input's signal, then evaluated in topological order each gate that reads a
/// changed signal, once, and made no other signal.
fn evaluated(
    alloc: Global,
    circuit: &Circuit,
    input: Net,
    before: &[Seen],
    after: &[Seen],
    count: u32,
) -> Result<Option<u32>, AllocError> {
    let mut number = count.saturating_add(1);
    let mut is_right = is_made_by(after, input, number);
    for net in 0..circuit.first_gate() {
        is_right = is_right && (net == input || is_as_before(before, after, net));
    }
    let mut changed = Vec::new(alloc);
    changed.push(input)?;
    for (place, gate) in circuit.gates().iter().enumerate() {
        let net = circuit.net_of_gate(place);
        let is_read = has_one(&gate.inputs, &changed);
        if is_read {
            number = number.saturating_add(1);
        }
        if !is_as_before(before, after, net) {
            is_right = is_right && is_read && is_made_by(after, net, number);
            changed.push(net)?;
        }
    }
    Ok(if is_right { Some(number) } else { None })
}

/// Narrows a sheet at a position of an input, and answers how many evaluations there were then, if
/// they were those that there have to be, after `count`.
fn narrowed(
    alloc: Global,
    circuit: &Circuit,
    sheet: &mut Sheet<Counting>,
    position: usize,
    count: u32,
) -> Result<Option<u32>, AllocError>
    requires { IsSheet counting_functions (λ signal. 0) circuit.now sheet.old }
    ensures { IsSheet counting_functions (λ signal. 0) circuit.now sheet.new }
{
    if position >= sheet.cube().len() || sheet.cube().trit(position) != Trit::Free {
        return Ok(None);
    }
    let input = (position / 2).saturating_add(2) as Net;
    let before = all_seen(alloc, sheet.signals())?;
    sheet.narrow(circuit, position, true)?;
    let after = all_seen(alloc, sheet.signals())?;
    evaluated(alloc, circuit, input, &before, &after, count)
}

/// Narrows the sheet of the free cube at a position, and then at the next one. The first narrowing
/// evaluates each gate that its input reaches. To take it back evaluates none.
fn check_position(
    rt: &impl Abort,
    alloc: Global,
    circuit: &Circuit,
    position: usize,
) -> Result<(), Fail> {
    let free = Cube::free(alloc, circuit.input_count())?;
    assert_eq!(rt; free.len(), circuit.input_count().saturating_mul(2));
    let mut sheet = Sheet::<Counting>::new(alloc, circuit, &free)?;
    let made = all_seen(alloc, sheet.signals())?;
    let once = narrowed(alloc, circuit, &mut sheet, position, 0)?.ok_or("evaluated wrongly")?;
    assert_eq!(rt; once, sheet.redone().saturating_add(1));
    assert!(rt; sheet.widen());
    let back = all_seen(alloc, sheet.signals())?;
    assert_eq!(rt; back.as_slice(), made.as_slice());
    let again = narrowed(alloc, circuit, &mut sheet, position, once)?.ok_or("again")?;
    assert_eq!(rt; again, once.saturating_mul(2));
    Ok(())
}

/// Narrows the sheet of the free cube at all its positions, one after another.
fn check_all(rt: &impl Abort, alloc: Global, circuit: &Circuit) -> Result<(), Fail> {
    let free = Cube::free(alloc, circuit.input_count())?;
    let mut sheet = Sheet::<Counting>::new(alloc, circuit, &free)?;
    let mut count = 0;
    for position in 0..free.len() {
        check_position(rt, alloc, circuit, position)?;
        count = narrowed(alloc, circuit, &mut sheet, position, count)?.ok_or("all")?;
    }
    Ok(())
}

#[test]
fn evaluations_of_narrowings(rt: HostRuntime) -> Result<(), Fail> {
    let alloc = rt.alloc();
    let six = circuit_of(alloc, C17).ok_or("a circuit")?;
    check_all(&rt, alloc, &six)?;
    for seed in 0..20 {
        let circuit = generated(alloc, 1 + seed % 3, 2 + seed % 7, seed).ok_or("a circuit")?;
        check_all(&rt, alloc, &circuit)?;
    }
    Ok(())
}
