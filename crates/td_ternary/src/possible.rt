//! The domain.

ghost use Rattle.std.specs.Prelude.{◌≡◌, None, Some, if◌then◌else◌};
ghost use Rattle.td_gates.specs.declared.primitives.Level.TheVariants.{X};
ghost use Rattle.td_gates.specs.Table.{level_eq};
ghost use Rattle.td_ternary.specs.Possibles.{possible_functions, last_change};
ghost use Rattle.td_ternary.specs.Coverage.{LevelsCover, HasMoment};
ghost use Rattle.td_ternary.specs.PossibleLaws.{covers_input, covers_constant, covers_gate, quiet_after_last, reach_input, reach_constant, reach_gate, last_is_moment, reach_each};

use crate::gates;
use crate::scratch::Scratch;
use std::alloc::{AllocError, Global};
use td_domain::{Domain, Trit};
use td_gates::{Change, Delay, Kind, Level};
use td_run::Wave;

/// The domain of possible levels.
pub struct Possible;

impl Domain for Possible {
    type Sig = Wave;

    type Scratch = Scratch;

    ghost covers = { LevelsCover };

    ghost functions = { possible_functions };

    ghost has_moment = { HasMoment };

    ghost reach = { λ signal. last_change signal.changes };

    fn scratch(alloc: Global) -> Scratch {
        Scratch::new(alloc)
    }

    fn release(scratch: &mut Scratch, signal: Wave) {
        scratch.keep(signal.into_changes());
    }

    fn reserve(scratch: &mut Scratch, signals: usize) -> Result<(), AllocError> {
        scratch.reserve(signals)
    }

    fn input(
        scratch: &mut Scratch,
        first: Trit,
        second: Trit,
        moment: u64,
    ) -> Result<Wave, AllocError> {
        let start = first.level();
        let level = second.level();
        let mut changes = scratch.space();
        if start != level {
            changes.push(Change { moment, level })?;
        }
        Ok(Wave::from_changes(start, changes))
    }

    fn constant(alloc: Global, one: bool) -> Result<Wave, AllocError> {
        let start = if one { Level::One } else { Level::Zero };
        Ok(Wave::from_changes(start, Vec::new(alloc)))
    }

    fn gate(
        scratch: &mut Scratch,
        kind: Kind,
        delay: Delay,
        all: &[Wave],
        ins: &[u32],
    ) -> Result<Wave, AllocError> {
        gates::output(scratch, kind, delay, all, ins)
    }

    fn copy(alloc: Global, signal: &Wave) -> Result<Wave, AllocError> {
        Ok(Wave::from_changes(signal.start(), Vec::from_slice(alloc, signal.changes())?))
    }

    fn is_same(left: &Wave, right: &Wave) -> bool {
        left.start() == right.start() && left.changes() == right.changes()
    }

    fn last(signal: &Wave) -> Option<u64> {
        match signal.changes().last() {
            None => moment_of(signal.start(), 0),
            Some(change) => moment_of(change.level, change.moment),
        }
    }

    ghost covers_input = { covers_input };

    ghost covers_constant = { covers_constant };

    ghost covers_gate = { covers_gate };

    ghost quiet_after_last = { quiet_after_last };

    ghost reach_input = { reach_input };

    ghost reach_constant = { reach_constant };

    ghost reach_gate = { reach_gate };

    ghost last_is_moment = { last_is_moment };

    ghost reach_each = { reach_each };
}

/// The moment, where the last level there isn't that of both.
fn moment_of(level: Level, moment: u64) -> Option<u64>
    ensures { result ≡ (if level_eq level X then None else Some moment) }
{
    if level == Level::X {
        None
    } else {
        Some(moment)
    }
}
