//! When a simulation looks at its stop.

ghost use Rattle.std.specs.Prelude.{◌≡◌, true};

use td_stop::Stop;

/// How many steps a simulation takes, at least, before it looks at its stop: a tenth of a second or
/// so. A simulation of fewer steps ends with its delay, whatever the stop says.
const STEPS: u64 = 1 << 21;

/// Counts the steps that the events of these nets take. Whether the stop is set, at which this
/// looks only where enough steps were taken since the last look. Then they count anew.
pub fn is_stopped(stop: &Stop, steps: &mut u64, readers: &[Vec<u32>], nets: &[u32]) -> bool
    ensures { result ≡ true → stop.now.can_be_set ≡ true }
{
    *steps = steps.saturating_add(steps_of(readers, nets));
    if *steps < STEPS {
        return false;
    }
    *steps = 0;
    stop.is_set()
}

// One step for each of these nets, and one for each gate that reads it.
fn steps_of(readers: &[Vec<u32>], nets: &[u32]) -> u64 {
    let mut steps = nets.len() as u64;
    for net in nets {
        let gates = readers.get(*net as usize).map_or(0, Vec::len);
        steps = steps.saturating_add(gates as u64);
    }
    steps
}
