//! The domain.

ghost use Rattle.td_arrival.specs.Arrivals.{arrival_functions};
ghost use Rattle.td_arrival.specs.Coverage.{ArrivalsCover, HasMoment, span_reach};
ghost use Rattle.td_arrival.specs.ArrivalLaws.{covers_input, covers_constant, covers_gate, quiet_after_last, reach_input, reach_gate, last_is_moment, reach_each};
ghost use Rattle.std.specs.Prelude.{refl};

use crate::gates;
use crate::signals::{Signal, Span};
use std::alloc::{AllocError, Global};
use td_domain::{Domain, Trit};
use td_gates::{Delay, Kind, Level};

/// The domain of arrival windows.
pub struct Arrival;

impl Domain for Arrival {
    type Sig = Signal;

    /// The signals of the inputs of a gate with many.
    type Scratch = Vec<Signal>;

    ghost covers = { ArrivalsCover };

    ghost functions = { arrival_functions };

    ghost has_moment = { HasMoment };

    ghost reach = { λ signal. span_reach signal.changes };

    fn scratch(alloc: Global) -> Vec<Signal> {
        Vec::new(alloc)
    }

    fn release(_scratch: &mut Vec<Signal>, _signal: Signal) {}

    fn reserve(_scratch: &mut Vec<Signal>, _signals: usize) -> Result<(), AllocError> {
        Ok(())
    }

    fn input(
        _scratch: &mut Vec<Signal>,
        first: Trit,
        second: Trit,
        moment: u64,
    ) -> Result<Signal, AllocError> {
        let start = first.level();
        let finish = second.level();
        let changes = if start != Level::X && start == finish {
            None
        } else {
            Some(Span {
                earliest: moment,
                latest: moment,
            })
        };
        Ok(Signal {
            start,
            finish,
            changes,
        })
    }

    fn constant(_alloc: Global, one: bool) -> Result<Signal, AllocError> {
        let level = if one { Level::One } else { Level::Zero };
        Ok(Signal {
            start: level,
            finish: level,
            changes: None,
        })
    }

    fn gate(
        scratch: &mut Vec<Signal>,
        kind: Kind,
        delay: Delay,
        all: &[Signal],
        ins: &[u32],
    ) -> Result<Signal, AllocError> {
        gates::output_at(scratch, kind, delay, all, ins)
    }

    fn copy(_alloc: Global, signal: &Signal) -> Result<Signal, AllocError> {
        Ok(*signal)
    }

    fn is_same(left: &Signal, right: &Signal) -> bool {
        left == right
    }

    fn last(signal: &Signal) -> Option<u64> {
        Some(match signal.changes {
            None => 0,
            Some(span) => span.latest,
        })
    }

    ghost covers_input = { covers_input };

    ghost covers_constant = { covers_constant };

    ghost covers_gate = { covers_gate };

    ghost quiet_after_last = { quiet_after_last };

    ghost reach_input = { reach_input };

    ghost reach_constant = { λ one. refl };

    ghost reach_gate = { reach_gate };

    ghost last_is_moment = { last_is_moment };

    ghost reach_each = { reach_each };
}
