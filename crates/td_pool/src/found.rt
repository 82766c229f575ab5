//! What workers begin with and hand back.

use std::sync::ledger::{Ledger, Share};
use td_incumbent::Seat;
use td_search::{Best, Evidence};

/// What a worker has found: its evidence, its best pair with the greatest delay that it offered, 0
/// without one, and its seat.
#[derive(Drop)]
pub struct Found {
    pub evidence: Vec<Evidence>,
    pub best: Best,
    pub seat: Seat,
}

/// What a worker hands back: what it has found, and its share of the ledger, which counts what it
/// settled.
#[derive(Drop)]
pub struct Report<L: Ledger> {
    pub found: Found,
    pub share: Share<L>,
}

/// What one worker begins with, where there is a deck and something found for it.
#[derive(Drop)]
pub struct Start<D, L: Ledger> {
    pub deck: Option<D>,
    pub found: Option<Found>,
    pub share: Share<L>,
}
