//! The waves of two nets joined as a gate of two inputs joins them.

use crate::waves::{Event, NEVER, Reader, Waves, put};
use std::alloc::AllocError;
use td_gates::Kind;

/// How the levels of two nets are joined.
#[derive(Clone, Copy, Debug, Drop)]
pub enum Join {
    And,
    Or,
    Xor,
}

impl Join {
    /// How a gate of this kind joins its inputs, before it negates them where it does.
    pub fn of(kind: Kind) -> Join {
        match kind {
            Kind::And | Kind::Nand | Kind::Buf | Kind::Not => Join::And,
            Kind::Or | Kind::Nor => Join::Or,
            Kind::Xor | Kind::Xnor => Join::Xor,
        }
    }

    /// The levels of two nets joined, lane by lane.
    #[inline(always)]
    pub fn levels(self, one: u64, other: u64) -> u64 {
        match self {
            Join::And => one & other,
            Join::Or => one | other,
            Join::Xor => one ^ other,
        }
    }

    /// Joins the waves of two nets. The error is out of memory.
    pub fn join(self, one: &Waves, other: &Waves, joined: &mut Waves) -> Result<(), AllocError> {
        match self {
            Join::And => join_by(Join::And, one, other, joined),
            Join::Or => join_by(Join::Or, one, other, joined),
            Join::Xor => join_by(Join::Xor, one, other, joined),
        }
    }
}

/// The lanes in which a gate of this kind negates: all or none.
pub fn negated(kind: Kind) -> u64 {
    match kind {
        Kind::And | Kind::Or | Kind::Xor | Kind::Buf => 0,
        Kind::Nand | Kind::Nor | Kind::Xnor | Kind::Not => u64::MAX,
    }
}

/// As `join`. Each way to join has a copy of its own, in which it is known.
#[inline(always)]
fn join_by(join: Join, one: &Waves, other: &Waves, joined: &mut Waves) -> Result<(), AllocError> {
    joined.make_space(one.events.len().saturating_add(other.events.len()))?;
    let count = merge(join, one, other, &mut joined.events);
    joined.events.truncate(count);
    joined.start = join.levels(one.start, other.start);
    Ok(())
}

/// Writes the events of the joined waves, and answers how many they are. There is no branch on
/// which of two events comes first, nor on whether the joined levels change: such branches can't be
/// foreseen, and cost more than the work.
#[inline(always)]
fn merge(join: Join, one: &Waves, other: &Waves, events: &mut [Event]) -> usize {
    let ones: &[Event] = &one.events;
    let others: &[Event] = &other.events;
    let mut here = Reader::new(one.start);
    let mut there = Reader::new(other.start);
    let mut levels = join.levels(one.start, other.start);
    let mut count = 0usize;
    for _ in 0..events.len() {
        let first = here.next(ones);
        let second = there.next(others);
        let moment = first.moment.min(second.moment);
        if moment == NEVER {
            break;
        }
        here.pass(first, first.moment == moment);
        there.pass(second, second.moment == moment);
        let before = levels;
        levels = join.levels(here.levels, there.levels);
        put(events, count, Event { moment, levels });
        count = count.wrapping_add(usize::from(levels != before));
    }
    count
}
