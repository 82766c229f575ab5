//! A timer that sets a stop.

use crate::gauge::Gauge;
use crate::stop::Stop;
use std::sync::{Condvar, Mutex, Wait};
use std::time::{Clock, Duration, Instant};

/// After how many milliseconds a timer looks at its signal and at the clock again.
const LOOK: u64 = 100;

/// A bound of all gates, in which nobody looks at the stop, takes at most so large a part of the
/// time of reading them: one of so many.
const PARTS: u32 = 4;

/// Who may ask that a search ends, beside the clock.
pub trait Signal {
    /// Whether it is asked now. A timer looks each time that it looks at the clock.
    fn is_given(&mut self) -> bool;
}

/// A timer, which one thread runs and another ends. Nothing is promised of when a thread goes on.
#[derive(Drop)]
pub struct Timer {
    has_ended: Mutex<bool>,
    ending: Condvar,
}

impl Timer {
    /// One that hasn't ended.
    pub fn new() -> Timer {
        Timer {
            has_ended: Mutex::new(false),
            ending: Condvar::new(),
        }
    }

    /// Whether a clock can be read, as a timer has to.
    pub fn can_run<R: Clock>(rt: &R) -> bool {
        Instant::now(rt).is_ok()
    }

    /// Sets the stop once these seconds have passed, if there are some, or once the signal is
    /// given, and returns then, or once the timer is ended. It looks ten times a second. A netlist
    /// that takes seconds to read is bounded in a part of that, so the stop is set so much sooner.
    /// Where the clock can't be read any more, it is set at once.
    pub fn run<R: Wait + Clock, S: Signal>(
        &self,
        rt: &R,
        seconds: Option<u32>,
        signal: &mut S,
        stop: &Stop,
    ) {
        let Ok(began) = Instant::now(rt) else {
            stop.set();
            return;
        };
        let mut alarm = Alarm {
            began,
            seconds,
            reading: None,
        };
        for _ in 0..u64::MAX {
            if signal.is_given() {
                stop.ask();
                return;
            }
            if alarm.rings(rt, &stop.gauge) {
                stop.set();
                return;
            }
            if self.ends_soon(rt) {
                return;
            }
        }
    }

    /// Waits for the timer's end until it is time to look again. Says whether it came.
    fn ends_soon<R: Wait + Clock>(&self, rt: &R) -> bool {
        let (_, waited) = self.ending.wait_timeout_while(
            rt,
            self.has_ended.lock(rt),
            Duration::from_millis(LOOK),
            |has_ended| !*has_ended,
        );
        !waited.timed_out()
    }

    /// Ends the timer: who runs it returns, and sets no stop any more.
    pub fn end<R: Wait>(&self, rt: &R) {
        *self.has_ended.lock(rt) = true;
        self.ending.notify_all();
    }
}

/// When a timer sets its stop: so many seconds after a moment, or sooner.
#[derive(Drop)]
struct Alarm {
    began: Instant,
    seconds: Option<u32>,
    /// How long it took to read the netlist, once that is done.
    reading: Option<Duration>,
}

impl Alarm {
    /// Whether the time has come, or no clock says it.
    fn rings<R: Clock>(&mut self, rt: &R, gauge: &Gauge) -> bool {
        let Ok(now) = Instant::now(rt) else {
            return true;
        };
        let passed = now.duration_since(self.began);
        if self.reading.is_none() && gauge.is_read() {
            self.reading = Some(passed);
        }
        let Some(seconds) = self.seconds else {
            return false;
        };
        let sooner = match self.reading {
            Some(reading) => reading / PARTS,
            None => Duration::from_secs(0),
        };
        passed.saturating_add(sooner) >= Duration::from_secs(u64::from(seconds))
    }
}
