//! Spans.

use crate::network::Net;

/// The last place of a span that never ends.
pub const FOREVER: u64 = u64::MAX;

/// That a net is at a level at all places from `first` to `last`. Place 0 is before moment 0, place
/// t + 1 just after moment t.
#[derive(Clone, Copy, Debug, PartialEq, Eq, Drop)]
pub struct Span {
    pub net: Net,
    pub level: bool,
    pub first: u64,
    pub last: u64,
}

impl Span {
    /// Whether it never ends.
    #[inline(always)]
    pub fn is_endless(self) -> bool {
        self.last == FOREVER
    }

    /// The places from `first` on, `steps` later than these; a span that never ends stays so.
    pub fn last_less(self, steps: u64) -> u64 {
        if self.last == FOREVER {
            FOREVER
        } else {
            self.last.saturating_sub(steps)
        }
    }
}
