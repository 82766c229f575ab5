//! What a gate's delays make of its target: a change that the target doesn't keep for its delay is
//! lost.

use crate::joining::negated;
use crate::waves::{Event, NEVER, Waves, all_if, event_at, put};
use std::alloc::{AllocError, Global};
use td_circuit::Gate;

/// How many events after a change are looked at without asking whether they come in time. Mostly no
/// more do.
const AHEAD: usize = 3;

/// A moment at which a target changes, and the lanes in which it then rises and falls and stays so
/// for the delay.
#[derive(Clone, Copy, Debug, Drop)]
struct Change {
    moment: u64,
    rises: u64,
    falls: u64,
}

/// When an output follows a rise of its target, and when a fall. A gate that negates has a target
/// that isn't negated yet.
#[derive(Clone, Copy, Debug, Drop)]
pub struct Due {
    pub rise: u64,
    pub fall: u64,
}

impl Due {
    /// How long after its target the output of a gate follows.
    pub fn of(gate: &Gate) -> Due {
        let rise = u64::from(gate.delay.rise);
        let fall = u64::from(gate.delay.fall);
        if negated(gate.kind) == 0 {
            Due { rise, fall }
        } else {
            Due {
                rise: fall,
                fall: rise,
            }
        }
    }

    /// The later one.
    pub fn last(self) -> u64 {
        self.rise.max(self.fall)
    }
}

/// Room for the changes of a target, used again for each gate.
#[derive(Debug, Drop)]
pub struct Delaying {
    changes: Vec<Change>,
}

impl Delaying {
    /// Room for none yet.
    pub fn new(alloc: Global) -> Self {
        Delaying {
            changes: Vec::new(alloc),
        }
    }

    /// Makes the waves of an output from those of its target, after these delays. They are negated
    /// in these lanes: in all or in none. The error is out of memory.
    pub fn delay(
        &mut self,
        target: &Waves,
        negated: u64,
        after: Due,
        output: &mut Waves,
    ) -> Result<(), AllocError> {
        self.find_changes(target, after)?;
        output.make_space(target.events.len().saturating_mul(2))?;
        let count = shift(
            &self.changes,
            target.start,
            negated,
            after,
            &mut output.events,
        );
        output.events.truncate(count);
        output.start = target.start ^ negated;
        Ok(())
    }

    /// Finds the changes of a target that it keeps for these delays. The error is out of memory.
    fn find_changes(&mut self, target: &Waves, after: Due) -> Result<(), AllocError> {
        let mut before = target.start;
        self.changes.clear();
        for (place, event) in target.events.iter().enumerate() {
            let change = Change {
                moment: event.moment,
                rises: event.levels & !before,
                falls: before & !event.levels,
            };
            before = event.levels;
            self.changes
                .push(kept(&target.events, place, change, after))?;
        }
        Ok(())
    }
}

/// What is kept of the change at a place of a list: the lanes in which no later event comes before
/// it is due that takes it back.
#[inline(always)]
fn kept(events: &[Event], place: usize, change: Change, after: Due) -> Change {
    let due = Due {
        rise: change.moment.saturating_add(after.rise),
        fall: change.moment.saturating_add(after.fall),
    };
    let mut kept = change;
    let mut next = place;
    for _ in 0..AHEAD {
        next = next.wrapping_add(1);
        kept = narrowed(kept, event_at(events, next), due);
    }
    let end = due.last();
    if kept.rises | kept.falls == 0 || end <= event_at(events, next).moment {
        return kept;
    }
    kept_on(events, next, kept, due)
}

/// As `kept`, by all events from a place on.
fn kept_on(events: &[Event], place: usize, change: Change, due: Due) -> Change {
    let end = due.last();
    let mut kept = change;
    let Some(rest) = events.get(place..) else {
        return kept;
    };
    for later in rest {
        if kept.rises | kept.falls == 0 || end <= later.moment {
            break;
        }
        kept = narrowed(kept, *later, due);
    }
    kept
}

/// A change without the lanes in which a later event takes it back before it is due.
#[inline(always)]
fn narrowed(change: Change, later: Event, due: Due) -> Change {
    Change {
        moment: change.moment,
        rises: change.rises & (later.levels | all_if(due.rise <= later.moment)),
        falls: change.falls & (!later.levels | all_if(due.fall <= later.moment)),
    }
}

/// Writes the events of an output that follows the changes of its target after these delays, and
/// answers how many they are.
fn shift(changes: &[Change], start: u64, negated: u64, after: Due, events: &mut [Event]) -> usize {
    let mut rising = 0usize;
    let mut falling = 0usize;
    let mut output = start;
    let mut count = 0usize;
    for _ in 0..events.len() {
        let first = change_at(changes, rising);
        let second = change_at(changes, falling);
        let rise_due = first.moment.saturating_add(after.rise);
        let fall_due = second.moment.saturating_add(after.fall);
        let moment = rise_due.min(fall_due);
        if moment == NEVER {
            break;
        }
        let rises = first.rises & all_if(rise_due == moment);
        let falls = second.falls & all_if(fall_due == moment);
        let before = output;
        output = (before | rises) & !falls;
        rising = rising.wrapping_add(usize::from(rise_due == moment));
        falling = falling.wrapping_add(usize::from(fall_due == moment));
        let levels = output ^ negated;
        put(events, count, Event { moment, levels });
        count = count.wrapping_add(usize::from(output != before));
    }
    count
}

/// The change at a place of a list, and past its end one that never comes.
#[inline(always)]
fn change_at(changes: &[Change], place: usize) -> Change {
    match changes.get(place) {
        Some(change) => *change,
        None => Change {
            moment: NEVER,
            rises: 0,
            falls: 0,
        },
    }
}
