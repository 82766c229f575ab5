//! A bound of a cube by one of the domains of `least`.

ghost use Rattle.std.specs.Prelude.{◌≡◌, ◌*◌, length, IfOk};
ghost use Rattle.td_circuit.specs.Numbering.{setting};
ghost use Rattle.td_search.specs.Deciding.{IsProbe};
ghost use Rattle.td_search.specs.Sheeted.{AreSheets};

use crate::sheets::{Sheets, bound_within, open_bound};
use std::alloc::{AllocError, Global};
use td_book::BoundedBy;
use td_circuit::Circuit;
use td_domain::Cube;

/// A domain's bound of a cube, in steps.
#[derive(Clone, Copy, Debug, Drop)]
pub struct Probe {
    pub by: BoundedBy,
    pub bound: u64,
}

/// A bound of a cube: one that is at most the cut where one of the domains has such a bound, else
/// the strongest domain's. Asks the domains in the order of what they cost. The error is out of
/// memory.
pub fn probe_of(
    alloc: Global,
    sheets: &mut Sheets,
    circuit: &Circuit,
    cube: &Cube,
    cut: u64,
) -> Result<Probe, AllocError>
    requires sheets { AreSheets circuit.now sheets.old }
    requires positions { length cube.now ≡ 2 * length circuit.now.netlist.inputs }
    ensures probe { IfOk result (IsProbe (setting circuit.now) cube.now cut) }
    ensures sheets { AreSheets circuit.now sheets.new }
{
    if let Some(bound) = bound_within(alloc, circuit, &mut sheets.arrival, cube, cut)? {
        return Ok(Probe {
            by: BoundedBy::Arrival,
            bound,
        });
    }
    if let Some(bound) = open_bound(circuit, &sheets.arrival) {
        return Ok(Probe {
            by: BoundedBy::Both,
            bound,
        });
    }
    if let Some(bound) = bound_within(alloc, circuit, &mut sheets.possible, cube, cut)? {
        return Ok(Probe {
            by: BoundedBy::Possible,
            bound,
        });
    }
    Ok(Probe {
        by: BoundedBy::Both,
        bound: sheets.strongest(circuit),
    })
}
