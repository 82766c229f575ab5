//! How deep a circuit is.

ghost use Rattle.std.specs.Prelude.{◌≡◌, ◌<◌, length, IfOk};
ghost use Rattle.std.specs.List.{All};
ghost use Rattle.td_circuit.specs.Numbering.{IsNumbering};
ghost use Rattle.td_info.specs.Sizes.{IsDepth};
ghost use Rattle.td_info.specs.Depths.{greatest, depths_at, AreDepths};

use std::alloc::{AllocError, Global};
use td_circuit::Circuit;

/// The most gates on a way through the circuit, from an input or a constant to any net: each of
/// them reads the output of the one before it. It is 0 where there are no gates. It takes one step
/// for each terminal. Fails where memory runs out.
pub fn depth(alloc: Global, circuit: &Circuit) -> Result<u32, AllocError>
    ensures { IfOk result (IsDepth circuit.now.netlist) }
{
    let depths = depths_of(alloc, circuit)?;
    Ok(deepest(&depths))
}

/// The depth of each net: the most gates on a way to it.
fn depths_of(alloc: Global, circuit: &Circuit) -> Result<Vec<u32>, AllocError>
    ensures depths { IfOk result (λ depths. AreDepths circuit.now depths.items (length circuit.now.gates)) }
    ensures numbering { IsNumbering circuit.now }
{
    let gates = circuit.gates();
    let mut depths = vec![in alloc; 0; circuit.first_gate() as usize]?;
    for gate in gates {
        let below = deepest_of(&depths, &gate.inputs);
        depths.push(below + 1)?;
    }
    Ok(depths)
}

/// The greatest depth of these nets, 0 where there are none.
fn deepest_of(depths: &[u32], nets: &[u32]) -> u32
    requires { All (λ net. net < length depths.now) nets.now }
    ensures { result ≡ greatest (depths_at depths.now nets.now) }
{
    let mut deepest = 0;
    for net in nets {
        deepest = deepest.max(depths[*net as usize]);
    }
    deepest
}

/// The greatest depth of all.
fn deepest(depths: &[u32]) -> u32
    ensures { result ≡ greatest depths.now }
{
    let mut deepest = 0;
    for depth in depths {
        deepest = deepest.max(*depth);
    }
    deepest
}
