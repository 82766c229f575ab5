//! What edges know of a net.

ghost use Rattle.std.specs.Prelude.{◌≡◌};
ghost use Rattle.td_edges.specs.Spans.{until, until_of, earliest_of, moving};

use td_gates::Level;

/// When changes come: none before the earliest moment, and each change to a level before that
/// level's moment, which is 0 where no change to it comes.
#[derive(Clone, Copy, Debug, PartialEq, Eq, Drop)]
pub struct Span {
    pub earliest: u64,
    pub falls_until: u64,
    pub rises_until: u64,
}

/// The levels at the start and at the finish, where they are known (else x), and when changes may
/// come, if any may.
#[derive(Clone, Copy, Debug, PartialEq, Eq, Drop)]
pub struct Signal {
    pub start: Level,
    pub finish: Level,
    pub changes: Option<Span>,
}

impl Span {
    ghost use Rattle.std.specs.Prelude.{◌≡◌};
    ghost use Rattle.td_edges.specs.Spans.{until, moving};

    /// The moment before which all changes to a level come, an unknown level standing for both.
    pub fn until(&self, level: Level) -> u64
        ensures { result ≡ until level self.now }
    {
        match level {
            Level::Zero => self.falls_until,
            Level::One => self.rises_until,
            Level::X => self.falls_until.max(self.rises_until),
        }
    }

    /// The span, where a change may come in it.
    pub fn moving(self) -> Option<Span>
        ensures { result ≡ moving self }
    {
        if self.until(Level::X) > 0 {
            Some(self)
        } else {
            None
        }
    }
}

/// The moment before which all changes to a level come, 0 where none comes.
pub fn until_of(level: Level, changes: Option<Span>) -> u64
    ensures { result ≡ until_of level changes }
{
    match changes {
        None => 0,
        Some(span) => span.until(level),
    }
}

/// The earliest change, 0 where none comes.
pub fn earliest_of(changes: Option<Span>) -> u64
    ensures { result ≡ earliest_of changes }
{
    match changes {
        None => 0,
        Some(span) => span.earliest,
    }
}
