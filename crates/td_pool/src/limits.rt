//! What ends a search.

use crate::effort::Effort;
use td_stop::Stop;

/// What ends a search: its effort, once that is made, its stop, once that is set, or its memory, in
/// bytes, once a search by spans has taken that. A tree has a few bytes for each of its nodes, which
/// the effort limits.
#[derive(Clone, Copy, Drop)]
pub struct Limits<'a> {
    pub effort: Effort,
    pub stop: &'a Stop,
    pub memory: u64,
}

impl<'a> Limits<'a> {
    ghost use Rattle.std.specs.Prelude.{◌≡◌};

    /// Those of an effort and a stop, with as much memory as there is.
    pub fn until(effort: Effort, stop: &'a Stop) -> Limits<'a>
        ensures effort { result.effort ≡ effort }
        ensures stop { result.stop.now ≡ stop.now }
    {
        Limits {
            effort,
            stop,
            memory: u64::MAX,
        }
    }
}
