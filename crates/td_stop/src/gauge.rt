//! How far a run has come.

use std::sync::atomic::{AtomicBool, AtomicU64, Ordering};

/// How far a run has come, for who waits for it: whether the netlist is read, and how far a search
/// by spans is. Threads share it by `&`. Nothing is promised of it, so it may be shown, and may
/// decide when a search ends, but not what it answers.
#[derive(Drop)]
pub struct Gauge {
    is_read: AtomicBool,
    units: AtomicU64,
    moment: AtomicU64,
}

impl Gauge {
    /// That of a run that has done nothing yet.
    pub fn new() -> Gauge {
        Gauge {
            is_read: AtomicBool::new(false),
            units: AtomicU64::new(0),
            moment: AtomicU64::new(0),
        }
    }

    /// Tells that the netlist is read.
    pub fn end_reading(&self) {
        self.is_read.store(true, Ordering::SeqCst);
    }

    /// Whether the netlist is read.
    pub fn is_read(&self) -> bool {
        self.is_read.load(Ordering::SeqCst)
    }

    /// Tells that more units of work are done.
    pub fn add(&self, units: u64) {
        let _before = self.units.fetch_add(units, Ordering::SeqCst);
    }

    /// Tells that it is asked whether an output changes after this moment, in steps.
    pub fn ask(&self, moment: u64) {
        self.moment.store(moment, Ordering::SeqCst);
    }

    /// How many units of work are done.
    pub fn units(&self) -> u64 {
        self.units.load(Ordering::SeqCst)
    }

    /// The moment after which an output may change, as it is asked now, in steps.
    pub fn moment(&self) -> u64 {
        self.moment.load(Ordering::SeqCst)
    }
}
