//! Variables, and what literals say.

/// That a net is at a level at all places from a first one to a last one, or for ever.
#[derive(Clone, Copy, Debug, PartialEq, Eq, Drop)]
pub struct Saying {
    pub net: u32,
    pub level: bool,
    pub first: u64,
    pub last: Option<u64>,
}

/// A variable of a run.
#[derive(Clone, Copy, Debug, PartialEq, Eq, Drop)]
pub enum Variable {
    /// True where this net is at 1 at place 0.
    First(u32),
    /// True where this net is at 1 in the end.
    Last(u32),
    /// True where this holds.
    Span(Saying),
    /// True where of so many first inputs at least this number end at another level than they start
    /// at.
    Flips(u32, u64),
}
