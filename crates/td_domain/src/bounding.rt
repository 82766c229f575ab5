//! The bound that a domain gives of a cube.

ghost use Rattle.std.specs.Prelude.{◌≡◌, ℕ, ◌*◌, ◌<◌, ◌^◌, Option, Some, IfOk, length, map, filter_map, slice_get};
ghost use Rattle.std.specs.List.{All};
ghost use Rattle.td_circuit.specs.Settings.{AreMoments};
ghost use Rattle.td_circuit.specs.Numbering.{nets, setting, IsNumbering};
ghost use Rattle.td_domain.specs.Bounds.{IsBound, IsUpperBoundIn, greatest_bound};
ghost use Rattle.td_domain.specs.FirstSignals.{AreFirstSignals};

use crate::cubes::Cube;
use crate::domain::Domain;
use std::alloc::{AllocError, Global};
use td_circuit::Circuit;

/// A moment after which no output changes for any pair of the cube: the greatest last moment of the
/// outputs' signals, `None` where the domain knows none for some output, and 0 without outputs.
pub fn bound<D: Domain>(
    alloc: Global,
    circuit: &Circuit,
    cube: &Cube,
) -> Result<Option<u64>, AllocError>
    requires { length cube.now ≡ 2 * length circuit.now.netlist.inputs }
    ensures bound { IfOk result (IsBound D.functions (setting circuit.now) cube.now) }
    ensures only { IfOk result (λ answer. (other : Option ℕ)
        → IsBound D.functions (setting circuit.now) cube.now other → other ≡ answer) }
    ensures sound { IfOk result (λ answer. (moment : ℕ) → answer ≡ Some moment → IsUpperBoundIn (setting circuit.now) cube.now moment) }
    ensures small { IfOk result (λ answer. (moment : ℕ) → answer ≡ Some moment → moment < 10 ^ 15) }
{
    let signals = signals::<D>(alloc, circuit, cube)?;
    Ok(greatest_last::<D>(&signals, circuit.outputs()))
}

/// The signals of all nets, by number: those of the constants, those of the inputs by their trits
/// and moments, and those of the gates' outputs in topological order.
pub fn signals<D: Domain>(
    alloc: Global,
    circuit: &Circuit,
    cube: &Cube,
) -> Result<Vec<D::Sig>, AllocError>
    requires { length cube.now ≡ 2 * length circuit.now.netlist.inputs }
    ensures all { IfOk result (λ signals. length signals.items ≡ length (nets circuit.now)) }
    ensures front { IfOk result (λ signals. AreFirstSignals D.functions D.reach circuit.now cube.now signals.items) }
    ensures numbering { IsNumbering circuit.now }
    ensures fit { AreMoments circuit.now.netlist circuit.now.moments }
{
    let gates = circuit.gates();
    let inputs = circuit.input_count();
    let moments = circuit.moments();
    let mut scratch = D::scratch(alloc);
    let mut signals = Vec::with_capacity(alloc, circuit.net_count())?;
    signals.push(D::constant(alloc, false)?)?;
    signals.push(D::constant(alloc, true)?)?;
    for i in 0..inputs {
        let signal = D::input(
            &mut scratch,
            cube.trit(2 * i),
            cube.trit(2 * i + 1),
            moments[i],
        )?;
        signals.push(signal)?;
    }
    for gate in gates {
        let signal = D::gate(&mut scratch, gate.kind, gate.delay, &signals, &gate.inputs)?;
        signals.push(signal)?;
    }
    Ok(signals)
}

/// The greatest last moment of these nets.
pub fn greatest_last<D: Domain>(signals: &[D::Sig], nets: &[u32]) -> Option<u64>
    requires { All (λ net. net < length signals.now) nets.now }
    ensures { result ≡ greatest_bound (map D.functions.last_of (filter_map (slice_get signals.now) nets.now)) }
{
    let mut latest = 0;
    for net in nets {
        latest = D::last(&signals[*net as usize])?.max(latest);
    }
    Some(latest)
}
