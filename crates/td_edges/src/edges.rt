//! The domain.

ghost use Rattle.td_edges.specs.EdgeSignals.{edge_functions, input_until};
ghost use Rattle.td_edges.specs.Coverage.{EdgesCover, HasMoment, span_reach};
ghost use Rattle.td_edges.specs.EdgeLaws.{covers_input, covers_constant, covers_gate, quiet_after_last, reach_input, reach_gate, last_is_moment, reach_each};
ghost use Rattle.std.specs.Prelude.{◌≡◌, ◌≤◌, ◌^◌, refl};

use crate::gates;
use crate::signals::{Signal, Span, until_of};
use std::alloc::{AllocError, Global};
use td_domain::{Domain, Trit};
use td_gates::{Delay, Kind, Level};

/// The domain of edges: of each net, from which level to which, not before which moment, and until
/// when to 0 and to 1.
pub struct Edges;

impl Domain for Edges {
    type Sig = Signal;

    /// A gate needs no room.
    type Scratch = ();

    ghost covers = { EdgesCover };

    ghost functions = { edge_functions };

    ghost has_moment = { HasMoment };

    ghost reach = { λ signal. span_reach signal.changes };

    fn scratch(_alloc: Global) {}

    fn release(_scratch: &mut (), _signal: Signal) {}

    fn reserve(_scratch: &mut (), _signals: usize) -> Result<(), AllocError> {
        Ok(())
    }

    fn input(
        _scratch: &mut (),
        first: Trit,
        second: Trit,
        moment: u64,
    ) -> Result<Signal, AllocError> {
        let start = first.level();
        let finish = second.level();
        let span = Span {
            earliest: moment,
            falls_until: input_until(start, finish, moment, Level::Zero),
            rises_until: input_until(start, finish, moment, Level::One),
        };
        Ok(Signal {
            start,
            finish,
            changes: span.moving(),
        })
    }

    fn constant(_alloc: Global, one: bool) -> Result<Signal, AllocError> {
        let level = if one { Level::One } else { Level::Zero };
        Ok(Signal {
            start: level,
            finish: level,
            changes: None,
        })
    }

    fn gate(
        _scratch: &mut (),
        kind: Kind,
        delay: Delay,
        all: &[Signal],
        ins: &[u32],
    ) -> Result<Signal, AllocError> {
        Ok(gates::output(kind, delay, all, ins))
    }

    fn copy(_alloc: Global, signal: &Signal) -> Result<Signal, AllocError> {
        Ok(*signal)
    }

    fn is_same(left: &Signal, right: &Signal) -> bool {
        left == right
    }

    fn last(signal: &Signal) -> Option<u64> {
        Some(until_of(Level::X, signal.changes).saturating_sub(1))
    }

    ghost covers_input = { covers_input };

    ghost covers_constant = { covers_constant };

    ghost covers_gate = { covers_gate };

    ghost quiet_after_last = { quiet_after_last };

    ghost reach_input = { reach_input };

    ghost reach_constant = { λ one. refl };

    ghost reach_gate = { reach_gate };

    ghost last_is_moment = { last_is_moment };

    ghost reach_each = { reach_each };
}

/// The moment before which an input's changes to this level come, 0 where none does.
fn input_until(start: Level, finish: Level, moment: u64, level: Level) -> u64
    requires { moment ≤ 10 ^ 9 }
    ensures { result ≡ input_until start finish moment level }
{
    if start == level || finish == level.inverse() {
        0
    } else {
        moment + 1
    }
}
