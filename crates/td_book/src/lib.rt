//! A tree of cubes whose leaves are open, held by a worker, or closed with a bound and a cut.
//! Workers take its leaves one after another, split or close them, and what they did can be
//! replayed.
//!
//! ```text
//! open ──claim (worker, budget)──▶ held ──split──▶ two open leaves
//!   ▲                               │ ╲─close (bound ≤ cut)──▶ closed, by a bound or a pair
//!   └───────────release─────────────┘
//! ```
//!
//! A lease is what a worker holds of a leaf. A `Subtree` that somebody hands in is grafted only
//! where it fits. Nothing here waits for anybody.
#![tactic(auto)]

mod book;
mod chain;
mod counted;
pub mod laws;
mod lease;
mod node;
mod partial;
mod subtree;

pub use book::Book;
pub use counted::Counted;
pub use lease::{Claim, Lease, SplitFault, Stranger};
pub use node::{BoundedBy, Mark, Node, State};
pub use partial::Partial;
pub use subtree::{GraftFault, Subtree};
