//! The one pair of a cube.

ghost use Rattle.std.specs.Prelude.{◌≡◌, ◌≢◌, ◌*◌, length, IfOk};
ghost use Rattle.td_domain.specs.declared.cubes.Trit.{Trit as TritModel};
ghost use Rattle.td_domain.specs.Cubes.{Allows, IsIn, IsPoint};

use std::alloc::{AllocError, Global};
use td_circuit::Circuit;
use td_domain::{Cube, Pair, Trit};

/// The bit that a known trit allows.
fn bit_of(trit: Trit) -> bool
    ensures { trit ≢ TritModel.Free → Allows trit result }
{
    match trit {
        Trit::One => true,
        Trit::Zero | Trit::Free => false,
    }
}

/// The one pair of a cube in which nothing is free.
#[tactic(auto, using(crate::proofs::Points::no_bits, crate::proofs::Points::whole))]
pub fn pair_of(alloc: Global, circuit: &Circuit, cube: &Cube) -> Result<Pair, AllocError>
    requires point { IsPoint cube.now }
    requires length { length cube.now ≡ 2 * length circuit.now.netlist.inputs }
    ensures pair { IfOk result (λ pair. IsIn pair cube.now) }
    ensures first { IfOk result (λ pair. length pair.first ≡ length circuit.now.netlist.inputs) }
    ensures second { IfOk result (λ pair. length pair.second ≡ length circuit.now.netlist.inputs) }
{
    let inputs = cube.len() / 2;
    let mut first = Vec::new(alloc);
    let mut second = Vec::new(alloc);
    for input in 0..inputs {
        first.push(bit_of(cube.trit(2 * input)))?;
        second.push(bit_of(cube.trit(2 * input + 1)))?;
    }
    Ok(Pair::new(first, second))
}
