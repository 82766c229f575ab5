//! The inputs of a gate whose output is at the parity of its inputs.

ghost use Rattle.std.specs.Prelude.{◌≡◌, ◌<◌, length, filter_map, slice_get};
ghost use Rattle.std.specs.List.{All};
ghost use Rattle.td_edges.specs.Parting.{odd, no_parts, parted_with, parted, parity_until, parity_span};

use crate::signals::{Signal, Span, until_of};
use td_gates::Level;

/// The input that is the last to change, until when the others change, and the parity of their
/// finishes, negated for `xnor`, x where it isn't known.
#[derive(Clone, Copy, Debug, PartialEq, Eq, Drop)]
pub struct Parting {
    pub latest: Signal,
    pub others_until: u64,
    pub others_parity: Level,
}

/// The exclusive or of two levels.
fn odd(one: Level, other: Level) -> Level
    ensures { result ≡ odd one other }
{
    match one {
        Level::Zero => other,
        Level::One => other.inverse(),
        Level::X => Level::X,
    }
}

/// No inputs: a constant 0 stands for the last to change.
fn no_parts(parity: Level) -> Parting
    ensures { result ≡ no_parts parity }
{
    Parting {
        latest: Signal {
            start: Level::Zero,
            finish: Level::Zero,
            changes: None,
        },
        others_until: 0,
        others_parity: parity,
    }
}

/// One input more.
fn parted_with(signal: &Signal, parts: Parting) -> Parting
    ensures { result ≡ parted_with signal.now parts }
{
    let old = until_of(Level::X, parts.latest.changes);
    let new = until_of(Level::X, signal.changes);
    if old < new {
        Parting {
            latest: *signal,
            others_until: parts.others_until.max(old),
            others_parity: odd(parts.others_parity, parts.latest.finish),
        }
    } else {
        Parting {
            latest: parts.latest,
            others_until: parts.others_until.max(new),
            others_parity: odd(parts.others_parity, signal.finish),
        }
    }
}

/// The inputs with the signals at these places, parted.
fn parted(parity: Level, all: &[Signal], ins: &[u32]) -> Parting
    requires { All (λ place. place < length all.now) ins.now }
    ensures { result ≡ parted (no_parts parity) (filter_map (slice_get all.now) ins.now) }
{
    let mut parts = no_parts(parity);
    for place in ins {
        parts = parted_with(&all[*place as usize], parts);
    }
    parts
}

/// Until when the parity changes to a level.
fn parity_until(parts: &Parting, level: Level) -> u64
    ensures { result ≡ parity_until parts.now level }
{
    parts.others_until.max(until_of(odd(parts.others_parity, level), parts.latest.changes))
}

/// When the parity of the inputs changes, or its negation, where the parity begins with 1.
pub fn parity_span(parity: Level, all: &[Signal], ins: &[u32], earliest: u64) -> Span
    requires { All (λ place. place < length all.now) ins.now }
    ensures { result ≡ parity_span parity (filter_map (slice_get all.now) ins.now) earliest }
{
    let parts = parted(parity, all, ins);
    Span {
        earliest,
        falls_until: parity_until(&parts, Level::Zero),
        rises_until: parity_until(&parts, Level::One),
    }
}
