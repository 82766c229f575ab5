//! How long it takes: the clock, and what is done in a second.

use std::time::{Clock, Instant};

/// When something began, and how much was done when a line last said so.
#[derive(Clone, Copy, Drop)]
pub(crate) struct Pace {
    began: Option<Instant>,
    last: Option<Instant>,
    done: u64,
}

/// A clock's time, if it can be read.
fn now<R: Clock>(clock: &R) -> Option<Instant> {
    match Instant::now(clock) {
        Ok(now) => Some(now),
        Err(_) => None,
    }
}

/// How many seconds have passed since a moment, if the clock can be read.
fn seconds_since<R: Clock>(clock: &R, moment: Option<Instant>) -> Option<u64> {
    let moment = moment?;
    let now = now(clock)?;
    Some(now.duration_since(moment).as_secs())
}

impl Pace {
    /// Something begins now.
    pub(crate) fn new<R: Clock>(clock: &R) -> Pace {
        let began = now(clock);
        Pace {
            began,
            last: began,
            done: 0,
        }
    }

    /// How many seconds have passed since it began, if they are known.
    pub(crate) fn seconds<R: Clock>(&self, clock: &R) -> Option<u64> {
        seconds_since(clock, self.began)
    }

    /// How many seconds have passed since a line was written, or it began, if they are known.
    pub(crate) fn silence<R: Clock>(&self, clock: &R) -> Option<u64> {
        seconds_since(clock, self.last)
    }

    /// A line is written now, and so much is done: how much in each second since the line before.
    pub(crate) fn tick<R: Clock>(&mut self, clock: &R, done: u64) -> u64 {
        let seconds = self.silence(clock).unwrap_or(0).max(1);
        let rate = done.saturating_sub(self.done) / seconds;
        self.last = now(clock);
        self.done = done;
        rate
    }
}
