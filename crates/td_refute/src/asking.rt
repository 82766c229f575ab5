//! Whether a pair is one of those that are asked about.

ghost use Rattle.std.specs.Prelude.{◌≡◌, length, IfOk, IsTrue};
ghost use Rattle.td_refutation.specs.Asking.{IsAskedAbout};

use std::alloc::{AllocError, Global};
use td_circuit::Circuit;
use td_domain::{Admit, Pair};
use td_refutation::{NamedCondition, is_kept};

/// Whether a pair is one of those that are asked about: it is admitted, and keeps the conditions.
/// The error is out of memory.
pub fn is_asked_about(
    alloc: Global,
    circuit: &Circuit,
    admit: &Admit,
    keep: &[NamedCondition],
    pair: &Pair,
) -> Result<bool, AllocError>
    requires held { length admit.now.held ≡ length circuit.now.netlist.inputs }
    requires first { length pair.now.first ≡ length circuit.now.netlist.inputs }
    requires second { length pair.now.second ≡ length circuit.now.netlist.inputs }
    ensures { IfOk result (λ is. IsTrue is → IsAskedAbout circuit.now.netlist (record { admit = admit.now; keep = keep.now }) pair.now) }
{
    if !admit.admits(alloc, pair)? {
        return Ok(false);
    }
    is_kept(alloc, circuit, keep, pair)
}
