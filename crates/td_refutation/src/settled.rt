//! Conditions on the settled levels of pairs and cubes.

ghost use Rattle.std.specs.Prelude.{◌≡◌, ◌↔◌, ◌*◌, length, map, slice_index_or, true, false, IfOk, IsTrue};
ghost use Rattle.td_gates.specs.declared.primitives.Level.TheVariants.{X};
ghost use Rattle.td_gates.specs.Table.{level_from};
ghost use Rattle.td_spans.specs.Lookups.{net_named};
ghost use Rattle.td_refutation.specs.Asking.{IsKept, IsBroken, side, levels_by, is_other, breaks, agrees, keeps, is_at, all_kept, some_broken};

use crate::conditions::NamedCondition;
use std::alloc::{AllocError, Global};
use td_circuit::Circuit;
use td_domain::{Cube, Pair};
use td_gates::Level;
use td_run::settle;
use td_spans::{Form, net_named};

fn agrees(known: Level, level: Level) -> bool
    ensures { result ≡ agrees known level }
{
    match known {
        Level::X => true,
        Level::Zero | Level::One => known == level,
    }
}

// Whether the settled levels of a net are as a condition has them.
fn keeps(form: Form, before: Level, after: Level) -> bool
    ensures { result ≡ keeps form before after }
{
    match form {
        Form::Levels(first, second) => agrees(first, before) && agrees(second, after),
        Form::Equal => before == after,
    }
}

// Whether both levels are known and differ.
fn is_other(this: Level, that: Level) -> bool
    ensures { result ≡ is_other this that }
{
    matches!(
        (this, that),
        (Level::Zero, Level::One) | (Level::One, Level::Zero)
    )
}

// Whether the settled levels of a net, as far as they are known, aren't as a condition has them.
fn breaks(form: Form, before: Level, after: Level) -> bool
    ensures { result ≡ breaks form before after }
{
    match form {
        Form::Levels(first, second) => is_other(first, before) || is_other(second, after),
        Form::Equal => is_other(before, after),
    }
}

fn level_at(levels: &[Level], net: u32) -> Level
    ensures { result ≡ slice_index_or levels.now net X }
{
    match levels.get(net as usize) {
        Some(level) => *level,
        None => Level::X,
    }
}

// Whether a condition is kept, or names no net of the circuit.
fn is_kept_at(
    circuit: &Circuit,
    before: &[Level],
    after: &[Level],
    condition: NamedCondition,
) -> bool
    ensures { result ≡ is_at keeps true condition.form before.now after.now (net_named circuit.now condition.net) }
{
    match net_named(circuit, condition.net) {
        None => true,
        Some(net) => keeps(condition.form, level_at(before, net), level_at(after, net)),
    }
}

// Whether a condition is broken, on a net of the circuit.
fn is_broken_at(
    circuit: &Circuit,
    before: &[Level],
    after: &[Level],
    condition: NamedCondition,
) -> bool
    ensures { result ≡ is_at breaks false condition.form before.now after.now (net_named circuit.now condition.net) }
{
    match net_named(circuit, condition.net) {
        None => false,
        Some(net) => breaks(condition.form, level_at(before, net), level_at(after, net)),
    }
}

// Whether all conditions on nets of the circuit are kept, where its nets settle so.
fn all_kept(circuit: &Circuit, before: &[Level], after: &[Level], keep: &[NamedCondition]) -> bool
    ensures { result ≡ all_kept circuit.now before.now after.now keep.now }
{
    keep.iter()
        .all(|condition| is_kept_at(circuit, before, after, *condition))
}

// Whether some condition on a net of the circuit is broken, where its nets settle so.
fn some_broken(
    circuit: &Circuit,
    before: &[Level],
    after: &[Level],
    keep: &[NamedCondition],
) -> bool
    ensures { result ≡ some_broken circuit.now before.now after.now keep.now }
{
    keep.iter().any(|condition| is_broken_at(circuit, before, after, *condition))
}

fn levels_of(alloc: Global, vector: &[bool]) -> Result<Vec<Level>, AllocError>
    ensures { IfOk result (λ levels. levels.items ≡ map level_from vector.now) }
{
    let mut levels = Vec::new(alloc);
    for bit in vector {
        levels.push(Level::from(*bit))?;
    }
    Ok(levels)
}

// By how much the position of an input's second bit passes that of its first, and 0 for the first.
fn side(second: bool) -> usize
    ensures { result ≡ side second }
{
    if second { 1 } else { 0 }
}

// The levels of the bits of a cube, x where they are free: the first of each input, or the second.
fn levels_in(alloc: Global, cube: &Cube, second: bool) -> Result<Vec<Level>, AllocError>
    ensures { IfOk result (λ levels. levels.items ≡ levels_by second cube.now) }
{
    let mut levels = Vec::new(alloc);
    for input in 0..cube.len() / 2 {
        levels.push(cube.trit(2 * input + side(second)).level())?;
    }
    Ok(levels)
}

/// Whether a pair keeps all conditions on nets of a circuit. The error is out of memory.
pub fn is_kept(
    alloc: Global,
    circuit: &Circuit,
    keep: &[NamedCondition],
    pair: &Pair,
) -> Result<bool, AllocError>
    requires first { length pair.now.first ≡ length circuit.now.netlist.inputs }
    requires second { length pair.now.second ≡ length circuit.now.netlist.inputs }
    ensures { IfOk result (λ is. IsTrue is ↔ IsKept circuit.now.netlist keep.now pair.now) }
{
    if keep.is_empty() {
        return Ok(true);
    }
    // For the prover: this call says that the gates are in order.
    let _gates = circuit.gates();
    let firsts = levels_of(alloc, pair.first())?;
    let seconds = levels_of(alloc, pair.second())?;
    let before = settle(alloc, circuit, &firsts)?;
    let after = settle(alloc, circuit, &seconds)?;
    Ok(all_kept(circuit, &before, &after, keep))
}

/// Whether a cube breaks some condition on a net of a circuit: with x for free bits, the net
/// settles otherwise. The error is out of memory.
pub fn is_broken(
    alloc: Global,
    circuit: &Circuit,
    keep: &[NamedCondition],
    cube: &Cube,
) -> Result<bool, AllocError>
    requires { length cube.now ≡ 2 * length circuit.now.netlist.inputs }
    ensures { IfOk result (λ is. IsTrue is ↔ IsBroken circuit.now.netlist keep.now cube.now) }
{
    if keep.is_empty() {
        return Ok(false);
    }
    // For the prover: this call says that the gates are in order.
    let _gates = circuit.gates();
    let firsts = levels_in(alloc, cube, false)?;
    let seconds = levels_in(alloc, cube, true)?;
    let before = settle(alloc, circuit, &firsts)?;
    let after = settle(alloc, circuit, &seconds)?;
    Ok(some_broken(circuit, &before, &after, keep))
}
