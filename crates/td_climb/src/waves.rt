//! The waves of a net in 64 lanes, as a list of the moments at which its level changes in some
//! lane.

use std::alloc::{AllocError, Global};

/// Later than each moment.
pub const NEVER: u64 = u64::MAX;

/// From a moment on, the levels of a net in 64 lanes: bit `k` is the level in lane `k`.
#[derive(Clone, Copy, Debug, Drop)]
pub struct Event {
    pub moment: u64,
    pub levels: u64,
}

/// An event that never comes.
pub const BLANK: Event = Event {
    moment: NEVER,
    levels: 0,
};

/// The waves of a net in 64 lanes: its levels at the start, and its events, each later than the one
/// before.
#[derive(Debug, Drop)]
pub struct Waves {
    pub start: u64,
    pub events: Vec<Event>,
}

impl Waves {
    /// Waves without events, which are at 0 in each lane.
    pub fn new(alloc: Global) -> Self {
        Waves {
            start: 0,
            events: Vec::new(alloc),
        }
    }

    /// At these levels, and from a moment on at other ones. The error is out of memory.
    pub fn write(&mut self, start: u64, moment: u64, levels: u64) -> Result<(), AllocError> {
        self.start = start;
        self.events.clear();
        if levels != start {
            self.events.push(Event { moment, levels })?;
        }
        Ok(())
    }

    /// Makes room for `count` more events than there are. The error is out of memory.
    pub fn make_space(&mut self, count: usize) -> Result<(), AllocError> {
        self.events.resize(count, BLANK)
    }

    /// Takes over the levels and events of other waves. The error is out of memory.
    pub fn copy_from(&mut self, other: &Waves) -> Result<(), AllocError> {
        self.start = other.start;
        self.events.clear();
        self.events.extend_from_slice(&other.events)
    }
}

/// This number of waves without events. The error is out of memory.
pub fn quiet(alloc: Global, count: usize) -> Result<Vec<Waves>, AllocError> {
    let mut all = Vec::new(alloc);
    for _ in 0..count {
        all.push(Waves::new(alloc))?;
    }
    Ok(all)
}

/// All lanes where this holds, else none.
#[inline(always)]
pub fn all_if(holds: bool) -> u64 {
    0u64.wrapping_sub(u64::from(holds))
}

/// The event at a place of a list, and past its end one that never comes.
#[inline(always)]
pub fn event_at(events: &[Event], place: usize) -> Event {
    match events.get(place) {
        Some(event) => *event,
        None => BLANK,
    }
}

/// Writes an event at a place of a list, if there is one.
#[inline(always)]
pub fn put(events: &mut [Event], place: usize, event: Event) {
    if let Some(slot) = events.get_mut(place) {
        *slot = event;
    }
}

/// A place in a list of events up to which it was read, and the levels there.
#[derive(Clone, Copy, Drop)]
pub struct Reader {
    place: usize,
    pub levels: u64,
}

impl Reader {
    /// Before the first event, at these levels.
    #[inline(always)]
    pub fn new(levels: u64) -> Self {
        Reader { place: 0, levels }
    }

    /// The next event.
    #[inline(always)]
    pub fn next(&self, events: &[Event]) -> Event {
        event_at(events, self.place)
    }

    /// Passes the next event where it is due.
    #[inline(always)]
    pub fn pass(&mut self, event: Event, is_due: bool) {
        self.levels = if is_due { event.levels } else { self.levels };
        self.place = self.place.wrapping_add(usize::from(is_due));
    }
}
