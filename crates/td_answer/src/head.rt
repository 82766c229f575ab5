//! The lines with which a report begins.

ghost use Rattle.std.specs.Prelude.{◌≡◌, IfOk};
ghost use Rattle.td_answer.specs.Heads.{head_lines};

use std::alloc::{AllocError, Global};
use td_circuit::Circuit;
use td_lines::{Line, Report};

/// A report that begins: how long a step takes, and how many gates the default delay serves.
pub(crate) fn begun(alloc: Global, circuit: &Circuit) -> Result<Report, AllocError>
    ensures { IfOk result (λ report. report ≡ head_lines circuit.now.netlist) }
{
    let mut report = Report::new(alloc);
    report.add(Line::Unit(circuit.unit()))?;
    report.add(Line::Defaulted(circuit.defaulted() as u64))?;
    Ok(report)
}
