//! Times of a net: up to which place it keeps the level at which it starts, and from which place on
//! it has the level at which it ends.

ghost use Rattle.std.specs.Prelude.{◌≡◌};
ghost use Rattle.td_spans.specs.Times.{place_for};
ghost use Rattle.td_spans.specs.Lowering.{with_place, lowered};

/// A place for each level.
#[derive(Clone, Copy, Debug, PartialEq, Eq, Drop)]
pub struct Places {
    pub zero: u64,
    pub one: u64,
}

/// In each run a net keeps the level at which it starts up to the early place, for ever where there
/// is none, and has the level at which it ends from the place in `ends` for this level on.
#[derive(Clone, Copy, Debug, PartialEq, Eq, Drop)]
pub struct Times {
    pub early: Option<u64>,
    pub ends: Places,
}

impl Places {
    /// The place for a level.
    pub fn at(self, level: bool) -> u64
        ensures { result ≡ place_for self level }
    {
        if level { self.one } else { self.zero }
    }

    /// With another place for a level.
    pub fn with(self, level: bool, place: u64) -> Places
        ensures { result ≡ with_place self level place }
    {
        if level {
            Places {
                zero: self.zero,
                one: place,
            }
        } else {
            Places {
                zero: place,
                one: self.one,
            }
        }
    }
}

impl Times {
    /// With an end for a level of at most this place.
    pub fn lowered(self, level: bool, place: u64) -> Times
        ensures { result ≡ lowered self level place }
    {
        let end = self.ends.at(level);
        let least = if end < place { end } else { place };
        Times {
            early: self.early,
            ends: self.ends.with(level, least),
        }
    }
}
