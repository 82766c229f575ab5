//! Whether a search is to end.

ghost use Rattle.std.specs.Prelude.{◌≡◌, true, false};

use crate::gauge::Gauge;
use std::sync::atomic::{AtomicBool, Ordering};

/// Whether those who work on a search are to end it. Threads share it by `&`. Nothing is promised
/// of when one thread sees that another has set it, so it may decide when a search ends, and not
/// what it answers.
#[derive(Drop)]
pub struct Stop {
    flag: AtomicBool,
    asked: AtomicBool,
    /// What a search by spans tells who waits for it.
    pub gauge: Gauge,
    /// Whether it is ever set.
    pub can_be_set: bool,
}

impl Stop {
    /// One that isn't set yet.
    pub fn new() -> Stop
        ensures { result.can_be_set ≡ true }
    {
        Stop {
            flag: AtomicBool::new(false),
            asked: AtomicBool::new(false),
            gauge: Gauge::new(),
            can_be_set: true,
        }
    }

    /// One that is never set.
    pub fn never() -> Stop
        ensures { result.can_be_set ≡ false }
    {
        Stop {
            flag: AtomicBool::new(false),
            asked: AtomicBool::new(false),
            gauge: Gauge::new(),
            can_be_set: false,
        }
    }

    /// Sets it, unless it is never set. It stays set.
    pub fn set(&self) {
        self.flag.store(true, Ordering::SeqCst);
    }

    /// Sets it because somebody asks for the end of the search, and no time has passed.
    pub fn ask(&self) {
        self.asked.store(true, Ordering::SeqCst);
        self.set();
    }

    /// Whether it is set because somebody asked for it.
    pub fn was_asked(&self) -> bool
        ensures { result ≡ true → self.now.can_be_set ≡ true }
    {
        self.can_be_set && self.asked.load(Ordering::SeqCst)
    }

    /// Whether it is set.
    pub fn is_set(&self) -> bool
        ensures { result ≡ true → self.now.can_be_set ≡ true }
    {
        self.can_be_set && self.flag.load(Ordering::SeqCst)
    }
}
