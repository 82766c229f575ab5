//! When the search begins anew from level 0, and when it removes clauses. Conflicts are the clock.

// What an average of glues is multiplied by.
const GLUE_UNIT: u64 = 1 << 32;
// How many conflicts count in each of the two averages, the fast and the slow one.
const FAST: u64 = 32;

const SLOW: u64 = 4096;

const FIRST_SWITCH: u64 = 1000;

const FIRST_REDUCTION: u64 = 2000;

const MORE_TO_REDUCTION: u64 = 300;

const STABLE_UNIT: u64 = 512;

/// The lengths 1, 1, 2, 1, 1, 2, 4, .. of stretches between restarts (Luby's sequence).
#[derive(Clone, Copy, Debug, Drop)]
struct Luby {
    next: u64,
    value: u64,
}

/// How the search goes on: in stable stretches it seldom begins anew, in rapid ones often.
#[derive(Clone, Copy, Debug, Drop)]
pub struct Pace {
    is_stable: bool,
    switches: u64,
    next_switch: u64,
    reductions: u64,
    next_reduction: u64,
    // Conflicts since it began anew.
    since: u64,
    // Averages of glues, in parts of `GLUE_UNIT`.
    fast: u64,
    slow: u64,
    luby: Luby,
    // Conflicts until a stable search begins anew.
    left: u64,
}

impl Luby {
    fn new() -> Luby {
        Luby { next: 1, value: 1 }
    }

    fn following(self) -> Luby {
        if self.next & self.next.wrapping_neg() == self.value {
            Luby {
                next: self.next.saturating_add(1),
                value: 1,
            }
        } else {
            Luby {
                next: self.next,
                value: self.value.saturating_mul(2),
            }
        }
    }
}

// An average with one more glue, which counts for one part of `parts`.
fn averaged(average: u64, glue: u32, parts: u64) -> u64 {
    let parts = parts.max(1);
    let added = (glue as u64).saturating_mul(GLUE_UNIT) / parts;
    average
        .saturating_sub(average / parts)
        .saturating_add(added)
}

impl Pace {
    /// Before the first question.
    pub fn new() -> Pace {
        Pace {
            is_stable: false,
            switches: 0,
            next_switch: FIRST_SWITCH,
            reductions: 0,
            next_reduction: FIRST_REDUCTION,
            since: 0,
            fast: 0,
            slow: 0,
            luby: Luby::new(),
            left: 0,
        }
    }

    /// Whether the search is stable.
    pub fn is_stable(&self) -> bool {
        self.is_stable
    }

    /// Begins a question.
    pub fn begin(&mut self) {
        self.since = 0;
        self.luby = Luby::new();
        self.left = 0;
    }

    /// Counts a conflict, and the glue of what was learned from it. `conflicts` were met with this
    /// one.
    pub fn count(&mut self, conflicts: u64, glue: u32) {
        self.since = self.since.saturating_add(1);
        self.fast = averaged(self.fast, glue, FAST);
        self.slow = averaged(self.slow, glue, conflicts.min(SLOW));
        self.left = self.left.saturating_sub(1);
        if conflicts >= self.next_switch {
            self.switch(conflicts);
        }
    }

    fn switch(&mut self, conflicts: u64) {
        self.is_stable = !self.is_stable;
        self.switches = self.switches.saturating_add(1);
        let times = self.switches.saturating_add(1);
        let stretch = times.saturating_mul(times).saturating_mul(FIRST_SWITCH / 2);
        self.next_switch = conflicts.saturating_add(stretch);
        self.left = 0;
    }

    /// Whether the search begins anew now.
    pub fn begins_anew(&mut self) -> bool {
        if self.since == 0 || !self.is_due() {
            return false;
        }
        self.since = 0;
        if self.is_stable {
            self.left = self.luby.value.saturating_mul(STABLE_UNIT);
            self.luby = self.luby.following();
        }
        true
    }

    fn is_due(&self) -> bool {
        if self.is_stable {
            self.left == 0
        } else {
            self.since > 4 && self.fast.saturating_mul(10) > self.slow.saturating_mul(11)
        }
    }

    /// Whether clauses are removed now.
    pub fn reduces(&mut self, conflicts: u64) -> bool {
        if conflicts < self.next_reduction {
            return false;
        }
        self.reductions = self.reductions.saturating_add(1);
        let more = self.reductions.saturating_mul(MORE_TO_REDUCTION);
        self.next_reduction = conflicts
            .saturating_add(FIRST_REDUCTION)
            .saturating_add(more);
        true
    }
}
