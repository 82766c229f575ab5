//! The signals of a narrower cube, from those of a wider one.

ghost use Rattle.std.specs.Prelude.{◌≡◌, ◌+◌, ◌*◌, ◌/◌, ◌<◌, ◌≤◌, [], length, set, slice_get, filter_map, Some, OnOk, OnErr, IfOk, vec_len, vec_capacity};
ghost use Rattle.td_domain.specs.declared.cubes.Trit.TheVariants.{Free};
ghost use Rattle.td_domain.specs.Cones.{IsCone};
ghost use Rattle.td_circuit.specs.Numbering.{NumberedGate, nets, first_output};
ghost use Rattle.td_domain.specs.Redoing.{AreAllRedone, AreNear, AreSettled, CanRedo};
ghost use Rattle.td_domain.specs.Sheets.{IsPage};
ghost use Rattle.td_domain.specs.Undoing.{undone, AreWithin};

use crate::cones::reads_one;
use crate::cubes::Cube;
use crate::domain::Domain;
use crate::undoing::{Replaced, put, undo};
use std::alloc::AllocError;
use td_circuit::{Circuit, Net};

/// A cube with one more position known than the signals at hand are of, and the outputs that the
/// position's input reaches.
#[derive(Clone, Copy)]
pub struct Narrower<'a> {
    pub cube: &'a Cube,
    pub position: usize,
    pub cone: &'a [Net],
}

/// Makes the signals of the narrower cube from those of the same cube with the position free, and
/// answers what it replaced. Only gates that read a changed signal are evaluated; `changed` has a
/// mark for each net, and `spare` is an empty list for what is replaced. The error is out of
/// memory: the signals are then as before.
pub fn redo<D: Domain>(
    scratch: &mut D::Scratch,
    circuit: &Circuit,
    narrower: Narrower<'_>,
    signals: &mut [D::Sig],
    changed: &mut [bool],
    spare: Vec<Replaced<D::Sig>>,
) -> Result<Vec<Replaced<D::Sig>>, AllocError>
    requires position { narrower.position < length narrower.cube.now }
    requires page { IsPage D.functions D.reach circuit.now (record { cube = set narrower.cube.now narrower.position Free; signals = signals.old }) }
    requires cone { IsCone circuit.now (2 + narrower.position / 2) narrower.cone.now }
    requires marks { length changed.old ≡ length signals.old }
    requires spare { spare.items ≡ [] }
    ensures page { OnOk result (IsPage D.functions D.reach circuit.now (record { cube = narrower.entry.cube.now; signals = signals.new })) }
    ensures undone { IfOk result (λ replaced. undone signals.new replaced.items ≡ signals.old) }
    ensures within { IfOk result (λ replaced. AreWithin (length signals.old) replaced.items) }
    ensures len { length signals.new ≡ length signals.old }
    ensures marks { length changed.new ≡ length changed.old }
    ensures refused { OnErr result (signals.new ≡ signals.old) }
{
    // For the prover: this call says that the gates are in order.
    let _numbering = circuit.gates();
    let moments = circuit.moments();
    let Narrower {
        cube,
        position,
        cone,
    } = narrower;
    let input = position / 2;
    let net = circuit.net_of_input(input) as usize;
    let mut replaced = spare;
    replaced.reserve(cone.len() + 1)?;
    let signal = D::input(
        scratch,
        cube.trit(2 * input),
        cube.trit(2 * input + 1),
        moments[input],
    )?;
    put(signals, &mut replaced, net, signal);
    changed.fill(false);
    changed[net] = true;
    match redo_gates::<D>(scratch, circuit, cone, signals, changed, &mut replaced) {
        Ok(()) => Ok(replaced),
        Err(error) => {
            let _space = undo::<D>(scratch, signals, replaced);
            Err(error)
        }
    }
}

/// Evaluates those of the gates with these outputs anew that read a changed signal, in this order.
fn redo_gates<D: Domain>(
    scratch: &mut D::Scratch,
    circuit: &Circuit,
    cone: &[u32],
    signals: &mut [D::Sig],
    changed: &mut [bool],
    replaced: &mut Vec<Replaced<D::Sig>>,
) -> Result<(), AllocError>
    requires can { CanRedo D.reach circuit.now cone.now signals.old }
    requires marks { length changed.old ≡ length signals.old }
    requires settled { AreSettled D.functions circuit.now changed.old signals.old }
    requires within { AreWithin (length signals.old) replaced.old.items }
    requires space { vec_len replaced.old + length cone.now ≤ vec_capacity replaced.old }
    ensures redone { OnOk result (AreAllRedone D.functions D.reach circuit.now cone.now signals.old signals.new) }
    ensures undone { undone signals.new replaced.new.items ≡ undone signals.old replaced.old.items }
    ensures within { AreWithin (length signals.old) replaced.new.items }
    ensures len { length signals.new ≡ length signals.old }
    ensures marks { length changed.new ≡ length changed.old }
{
    // For the prover: this call says that the gates are in order.
    let _numbering = circuit.gates();
    let first = circuit.first_gate() as usize;
    for output in cone {
        let net = *output as usize;
        redo_gate::<D>(scratch, circuit, net - first, signals, changed, replaced)?;
    }
    Ok(())
}

/// Evaluates the gate at a place anew, where it reads a changed signal. Its output is marked where
/// its signal has changed. A narrowing calls it for each gate that its input reaches, so it stands
/// in their loop.
#[inline(always)]
fn redo_gate<D: Domain>(
    scratch: &mut D::Scratch,
    circuit: &Circuit,
    place: usize,
    signals: &mut [D::Sig],
    changed: &mut [bool],
    replaced: &mut Vec<Replaced<D::Sig>>,
) -> Result<(), AllocError>
    requires place { place < length circuit.now.gates }
    requires count { length signals.old ≡ length (nets circuit.now) }
    requires near { AreNear D.reach signals.old }
    requires marks { length changed.old ≡ length signals.old }
    requires settled { AreSettled D.functions circuit.now changed.old signals.old }
    requires within { AreWithin (length signals.old) replaced.old.items }
    requires space { vec_len replaced.old < vec_capacity replaced.old }
    ensures gate { OnOk result ((gate : NumberedGate) → slice_get circuit.now.gates place ≡ Some gate
        → signals.new ≡ set signals.old (first_output circuit.now + place) (D.functions.gate_of gate.kind gate.delay (filter_map (slice_get signals.old) gate.inputs))) }
    ensures settled { OnOk result (AreSettled D.functions circuit.now changed.new signals.new) }
    ensures undone { undone signals.new replaced.new.items ≡ undone signals.old replaced.old.items }
    ensures within { AreWithin (length signals.old) replaced.new.items }
    ensures len { length signals.new ≡ length signals.old }
    ensures marks { length changed.new ≡ length changed.old }
    ensures space { vec_len replaced.new ≤ vec_len replaced.old + 1 }
    ensures capacity { vec_capacity replaced.new ≡ vec_capacity replaced.old }
{
    let gates = circuit.gates();
    let gate = &gates[place];
    if reads_one(changed, &gate.inputs) {
        evaluate::<D>(scratch, circuit, place, signals, changed, replaced)
    } else {
        Ok(())
    }
}

/// Evaluates the gate at a place anew. Its output is marked where its signal has changed.
#[inline(always)]
fn evaluate<D: Domain>(
    scratch: &mut D::Scratch,
    circuit: &Circuit,
    place: usize,
    signals: &mut [D::Sig],
    changed: &mut [bool],
    replaced: &mut Vec<Replaced<D::Sig>>,
) -> Result<(), AllocError>
    requires place { place < length circuit.now.gates }
    requires count { length signals.old ≡ length (nets circuit.now) }
    requires near { AreNear D.reach signals.old }
    requires marks { length changed.old ≡ length signals.old }
    requires settled { AreSettled D.functions circuit.now changed.old signals.old }
    requires within { AreWithin (length signals.old) replaced.old.items }
    requires space { vec_len replaced.old < vec_capacity replaced.old }
    ensures gate { OnOk result ((gate : NumberedGate) → slice_get circuit.now.gates place ≡ Some gate
        → signals.new ≡ set signals.old (first_output circuit.now + place) (D.functions.gate_of gate.kind gate.delay (filter_map (slice_get signals.old) gate.inputs))) }
    ensures settled { OnOk result (AreSettled D.functions circuit.now changed.new signals.new) }
    ensures undone { undone signals.new replaced.new.items ≡ undone signals.old replaced.old.items }
    ensures within { AreWithin (length signals.old) replaced.new.items }
    ensures len { length signals.new ≡ length signals.old }
    ensures marks { length changed.new ≡ length changed.old }
    ensures space { vec_len replaced.new ≤ vec_len replaced.old + 1 }
    ensures capacity { vec_capacity replaced.new ≡ vec_capacity replaced.old }
{
    let gates = circuit.gates();
    let gate = &gates[place];
    let signal = D::gate(scratch, gate.kind, gate.delay, signals, &gate.inputs)?;
    let net = circuit.net_of_gate(place) as usize;
    if D::is_same(&signal, &signals[net]) {
        D::release(scratch, signal);
        return Ok(());
    }
    put(signals, replaced, net, signal);
    changed[net] = true;
    Ok(())
}
