//! The search of a circuit by several workers, and a last thread that trusts no more than their
//! evidence.
//!
//! ```text
//! Problem ──root──▶ book under a lock ──claim──▶ worker 1 .. N ──split, close, evidence──▶ book
//!                   incumbent beside it ◀──best pair of each──┘
//! workers done ──finish──▶ the answer, from evidence that is looked at again
//! ```
//!
//! When a worker takes which leaf is a matter of threads; the answer isn't: it is exact or lies
//! between true bounds, whatever the schedule. A `Watch` hears how far they are.
#![tactic(auto)]

mod begun;
mod borrowed;
mod deck;
mod effort;
mod ends;
mod found;
mod frontier;
mod hints;
mod history;
mod kept;
pub mod laws;
mod leaf;
mod lent;
mod limits;
mod milestones;
mod pool;
mod reports;
mod shared;
mod starting;
mod state;
mod subject;
mod watch;
mod working;

pub use borrowed::{Borrowed, take_back};
pub use deck::Deck;
pub use effort::Effort;
pub use hints::Hints;
pub use limits::Limits;
pub use pool::{search, worst, worst_by};
pub use watch::{Progress, Unwatched, Watch};
