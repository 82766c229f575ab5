//! The links of a chain.

use td_gates::{Kind, Level};

/// What made a gate's output change: the gate, by its place among the netlist's, and its kind; the
/// terminal, by its place among the gate's; and the delay to the new level, in steps, after which
/// the output changed.
#[derive(Clone, Copy, Debug, PartialEq, Eq, Drop)]
pub struct Cause {
    pub gate: usize,
    pub kind: Kind,
    pub terminal: usize,
    pub delay: u64,
}

/// A change of a net, by its number: the moment in steps, the level before it and the level from
/// then on. An input's change has no cause.
#[derive(Clone, Copy, Debug, PartialEq, Eq, Drop)]
pub struct Link {
    pub net: u32,
    pub moment: u64,
    pub from: Level,
    pub to: Level,
    pub cause: Option<Cause>,
}
