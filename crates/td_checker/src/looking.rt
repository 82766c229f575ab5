//! When a check looks at its stop.

ghost use Rattle.std.specs.Prelude.{IfErr};
ghost use Rattle.td_event_sim.specs.Stopping.{StopNeedsStop};

use td_event_sim::Interruption;
use td_stop::Stop;

/// Ends a check once its stop is set. Between two of these calls stands the work for one line of a
/// tree at most.
pub fn look(stop: &Stop) -> Result<(), Interruption>
    ensures { IfErr result (StopNeedsStop stop.now.can_be_set) }
{
    if stop.is_set() {
        return Err(Interruption::Stopped);
    }
    Ok(())
}
