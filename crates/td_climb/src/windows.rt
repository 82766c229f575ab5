//! At which moments the nets of a circuit may change.

use crate::joining::{Join, negated};
use crate::waves::NEVER;
use std::alloc::{AllocError, Global};
use td_circuit::{Circuit, Gate};

/// When a net may change, whatever the pair: not before a first moment, and it neither rises nor
/// falls from other ones on, which are 0 where it never does.
#[derive(Clone, Copy, Debug, Drop)]
pub struct Window {
    pub from: u64,
    rises_before: u64,
    falls_before: u64,
}

impl Window {
    /// Of a net that never changes.
    fn never() -> Self {
        Window {
            from: NEVER,
            rises_before: 0,
            falls_before: 0,
        }
    }

    /// Of a net that changes at one moment alone.
    fn at(moment: u64) -> Self {
        Window {
            from: moment,
            rises_before: moment.saturating_add(1),
            falls_before: moment.saturating_add(1),
        }
    }

    /// How many moments there are.
    pub fn count(self) -> u64 {
        self.end().saturating_sub(self.from)
    }

    /// The first moment from which on it doesn't change any more.
    fn end(self) -> u64 {
        self.rises_before.max(self.falls_before)
    }

    /// The one of two nets together.
    fn or(self, other: Window) -> Window {
        Window {
            from: self.from.min(other.from),
            rises_before: self.rises_before.max(other.rises_before),
            falls_before: self.falls_before.max(other.falls_before),
        }
    }

    /// Of a target that may rise and fall where its inputs do either.
    fn mixed(self) -> Window {
        Window {
            from: self.from,
            rises_before: self.end(),
            falls_before: self.end(),
        }
    }

    /// Of an output that follows a target after its gate's delays.
    fn delayed(self, gate: &Gate) -> Window {
        let rise = u64::from(gate.delay.rise);
        let fall = u64::from(gate.delay.fall);
        let (to_rise, to_fall) = if negated(gate.kind) == 0 {
            (self.rises_before, self.falls_before)
        } else {
            (self.falls_before, self.rises_before)
        };
        Window {
            from: self.from.saturating_add(rise.min(fall)),
            rises_before: later(to_rise, rise),
            falls_before: later(to_fall, fall),
        }
    }
}

/// A moment that comes after a delay, 0 where it never comes.
fn later(moment: u64, delay: u64) -> u64 {
    if moment == 0 {
        0
    } else {
        moment.saturating_add(delay)
    }
}

/// The window of a gate's output.
fn window_of(windows: &[Window], gate: &Gate) -> Window {
    let mut target = Window::never();
    for net in &gate.inputs {
        if let Some(window) = windows.get(*net as usize) {
            target = target.or(*window);
        }
    }
    match Join::of(gate.kind) {
        Join::And | Join::Or => target.delayed(gate),
        Join::Xor => target.mixed().delayed(gate),
    }
}

/// The windows of the nets of a circuit. The error is out of memory.
pub fn windows(alloc: Global, circuit: &Circuit) -> Result<Vec<Window>, AllocError> {
    let mut windows = vec![in alloc; Window::never(); 2]?;
    for moment in circuit.moments() {
        windows.push(Window::at(*moment))?;
    }
    for gate in circuit.gates() {
        let window = window_of(&windows, gate);
        windows.push(window)?;
    }
    Ok(windows)
}
