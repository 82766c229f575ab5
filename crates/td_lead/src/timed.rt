//! Pairs with their delays.

use td_domain::Pair;

/// A pair and its delay in steps.
#[derive(Debug, Drop)]
pub struct Timed {
    pub pair: Pair,
    pub time: u64,
}
