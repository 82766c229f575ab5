//! Runs of pairs of vectors.

ghost use Rattle.std.specs.Prelude.{◌≡◌, length, map, IfOk};
ghost use Rattle.td_gates.specs.Table.{level_from};
ghost use Rattle.td_circuit.specs.Numbering.{nets, setting};
ghost use Rattle.td_circuit.specs.NetValues.{net_wave};
ghost use Rattle.td_circuit.specs.Run.{Runs};
ghost use Rattle.td_vcd.specs.Writes.{IsRunFor};

use std::alloc::{AllocError, Global};
use td_circuit::Circuit;
use td_domain::Pair;
use td_gates::Level;
use td_run::{Run, waves};

/// The levels of bits.
fn levels(alloc: Global, bits: &[bool]) -> Result<Vec<Level>, AllocError>
    ensures { IfOk result (λ levels. levels.items ≡ map level_from bits.now) }
{
    let mut levels = Vec::new(alloc);
    for bit in bits {
        levels.push(Level::from(*bit))?;
    }
    Ok(levels)
}

/// The run of a pair.
pub(crate) fn run_of(alloc: Global, circuit: &Circuit, pair: &Pair) -> Result<Run, AllocError>
    requires first_fits { length pair.now.first ≡ length circuit.now.netlist.inputs }
    requires second_fits { length pair.now.second ≡ length circuit.now.netlist.inputs }
    ensures runs { IfOk result (λ run. Runs (setting circuit.now) (map level_from pair.now.first) (map level_from pair.now.second)
        (net_wave (nets circuit.now) run.waves)) }
    ensures has { IfOk result (λ run. IsRunFor circuit.now run) }
{
    let first = levels(alloc, pair.first())?;
    let second = levels(alloc, pair.second())?;
    waves(alloc, circuit, &first, &second)
}
