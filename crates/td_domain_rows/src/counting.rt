//! A domain whose signals have the number of the evaluation that made them.

ghost use Rattle.std.specs.Prelude.{◌≡◌, ◌<◌, length, filter_map, slice_get};
ghost use Rattle.std.specs.List.{All};
ghost use Rattle.td_domain_rows.specs.Counting.{counting_functions, is_known, is_one};

use std::alloc::{AllocError, Global};
use std::marker::Model;
use td_domain::{Domain, Trit};
use td_gates::{Delay, Kind};

/// Whether a known bit reaches a net, and which evaluation of a scratch said so: the first of an
/// input or a gate has the number 1. Signals are the same whatever their numbers.
#[derive(Drop)]
pub struct Counted {
    is_reached: bool,
    number: u32,
}

impl Model for Counted {
    ghost use Rattle.std.specs.Prelude.{Bool};

    ghost Value = { Bool };

    ghost view = { λ counted. counted.is_reached };
}

impl Counted {
    /// Whether a known bit reaches the net.
    pub fn is_reached(&self) -> bool
        ensures { result ≡ self.now }
    {
        self.is_reached
    }

    /// The number of the evaluation, 0 of a constant.
    pub fn number(&self) -> u32 {
        self.number
    }
}

/// The domain of those signals.
pub struct Counting;

impl Domain for Counting {
    ghost use Rattle.std.specs.Prelude.{refl};
    ghost use Rattle.td_domain_rows.specs.Counting.{near, unknown};

    type Sig = Counted;

    /// How many evaluations there were.
    type Scratch = u32;

    ghost covers = { λ signal wave. Unit {0} };

    ghost functions = { counting_functions };

    ghost has_moment = { λ signal moment. ⊥ };

    ghost reach = { λ signal. 0 };

    fn scratch(_alloc: Global) -> u32 {
        0
    }

    fn release(_scratch: &mut u32, _signal: Counted) {}

    fn reserve(_scratch: &mut u32, _signals: usize) -> Result<(), AllocError> {
        Ok(())
    }

    fn input(
        scratch: &mut u32,
        first: Trit,
        second: Trit,
        _moment: u64,
    ) -> Result<Counted, AllocError> {
        Ok(next_signal(scratch, is_known(first) || is_known(second)))
    }

    fn constant(_alloc: Global, _one: bool) -> Result<Counted, AllocError> {
        Ok(Counted {
            is_reached: false,
            number: 0,
        })
    }

    fn gate(
        scratch: &mut u32,
        _kind: Kind,
        _delay: Delay,
        all: &[Counted],
        ins: &[u32],
    ) -> Result<Counted, AllocError> {
        Ok(next_signal(scratch, reads_reached(all, ins)))
    }

    fn copy(_alloc: Global, signal: &Counted) -> Result<Counted, AllocError> {
        Ok(Counted {
            is_reached: signal.is_reached,
            number: signal.number,
        })
    }

    fn is_same(left: &Counted, right: &Counted) -> bool {
        left.is_reached == right.is_reached
    }

    fn last(_signal: &Counted) -> Option<u64> {
        None
    }

    ghost covers_input = { λ first second moment wave is. tt };

    ghost covers_constant = { λ one wave is. tt };

    ghost covers_gate = { λ kind delay signals ins out range takes boolean covered obeys. tt };

    ghost quiet_after_last = { λ signal moment wave is covered. unknown moment is };

    ghost reach_input = { λ first second moment small. near _ };

    ghost reach_constant = { λ one. refl };

    ghost reach_gate = { λ kind delay signals moment within. near _ };

    ghost last_is_moment = { λ signal moment is. unknown moment is };

    ghost reach_each = { λ signal moment is. absurd is };
}

/// The next signal that a scratch makes.
fn next_signal(scratch: &mut u32, is_reached: bool) -> Counted
    ensures { result ≡ is_reached }
{
    *scratch = scratch.saturating_add(1);
    Counted {
        is_reached,
        number: *scratch,
    }
}

/// Whether a trit is a known bit.
fn is_known(trit: Trit) -> bool
    ensures { result ≡ is_known trit }
{
    match trit {
        Trit::Zero | Trit::One => true,
        Trit::Free => false,
    }
}

/// Whether one of the signals at these places is of a net that a known bit reaches.
fn reads_reached(all: &[Counted], places: &[u32]) -> bool
    requires { All (λ place. place < length all.now) places.now }
    ensures { result ≡ is_one (filter_map (slice_get all.now) places.now) }
{
    for place in places {
        if all[*place as usize].is_reached() {
            return true;
        }
    }
    false
}
