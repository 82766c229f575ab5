//! What is to be done with a node.

use td_book::BoundedBy;

/// What is to be done with a node. Bounds are in steps.
#[derive(Clone, Copy, Debug, Drop)]
pub enum Step {
    /// It is closed, with a bound of its cube.
    Close(BoundedBy, u64),
    /// It is split at this position. The bound is the strongest domain's.
    Split(usize, u64),
    /// Its cube is a point, whose pair is measured.
    Measure,
}
