//! The simulation of 64 pairs at once.

use crate::lists::Lists;
use crate::pairs::Pairs;
use crate::strips::Strips;
use std::alloc::{AllocError, Global};
use td_circuit::Circuit;

/// How many words of strips take as long as one event that is read in lists.
const WORDS: usize = 5;

/// How many words of strips a circuit may have. They take some 15 ms.
const MOST: usize = 1 << 22;

/// Room for the simulation of 64 pairs at once, used again for the next ones. It goes by lists of
/// events, and by strips of levels once lists have taken longer than strips would. What it says of
/// a pair is meant to be what its run says, but nothing of that is proved.
#[derive(Debug, Drop)]
pub struct Lanes {
    lists: Lists,
    strips: Strips,
    /// How many words a simulation by strips takes.
    words: usize,
    /// Whether the last simulation went by strips.
    in_strips: bool,
}

/// The latest moment at which an output changes in some lanes, and in which of them one changes
/// then. Where none changes, the moment is 0, and all of the lanes are meant.
#[derive(Clone, Copy, Debug, Drop)]
pub struct Latest {
    pub moment: u64,
    pub lanes: u64,
}

impl Lanes {
    /// Room for a circuit. The error is out of memory.
    pub fn new(alloc: Global, circuit: &Circuit) -> Result<Self, AllocError> {
        let strips = Strips::new(alloc, circuit)?;
        let words = strips.words(circuit);
        Ok(Lanes {
            lists: Lists::new(alloc, circuit)?,
            strips,
            words,
            in_strips: false,
        })
    }

    /// Simulates pairs. Answers whether it came to the end: it is cut off where there are too many
    /// events. The error is out of memory.
    pub fn simulate(&mut self, circuit: &Circuit, pairs: &Pairs) -> Result<bool, AllocError> {
        if self.words <= self.lists.events.saturating_mul(WORDS).min(MOST) {
            self.in_strips = true;
            self.strips.simulate(circuit, pairs)?;
            return Ok(true);
        }
        self.lists.simulate(circuit, pairs)
    }

    /// The latest moment at which an output changes in one of these lanes, by the pairs that were
    /// simulated last.
    pub fn latest(&self, circuit: &Circuit, lanes: u64) -> Latest {
        if self.in_strips {
            self.strips.latest(circuit, lanes)
        } else {
            self.lists.latest(circuit, lanes)
        }
    }
}

impl Latest {
    /// The later one of two, or the lanes of both where they are at one moment.
    pub(crate) fn or(self, other: Latest) -> Latest {
        if other.moment > self.moment {
            other
        } else if other.moment == self.moment {
            Latest {
                moment: self.moment,
                lanes: self.lanes | other.lanes,
            }
        } else {
            self
        }
    }
}
