//! How far the delays of a circuit's gates range.

ghost use Rattle.std.specs.Prelude.{◌≡◌};
ghost use Rattle.td_info.specs.Sizes.{HasRange};
ghost use Rattle.td_info.specs.Ranges.{widened};

use td_circuit::Circuit;
use td_gates::Delay;

/// The least and the greatest delay of gates, in steps.
#[derive(Clone, Copy, Debug, PartialEq, Eq, Drop)]
pub struct Range {
    pub least: u32,
    pub greatest: u32,
}

/// The least and the greatest delay of the circuit's gates, to 1 or to 0, in steps. There is none
/// where there are no gates.
pub fn range_of(circuit: &Circuit) -> Option<Range>
    ensures { HasRange circuit.now.netlist result }
{
    let gates = circuit.gates();
    let mut range = None;
    for gate in gates {
        range = Some(widened(range, &gate.delay));
    }
    range
}

/// The range with the delays of one gate more.
fn widened(range: Option<Range>, delay: &Delay) -> Range
    ensures { result ≡ widened range delay.now }
{
    let least = delay.rise.min(delay.fall);
    let greatest = delay.rise.max(delay.fall);
    match range {
        None => Range { least, greatest },
        Some(range) => Range {
            least: range.least.min(least),
            greatest: range.greatest.max(greatest),
        },
    }
}
