//! The search by spans: it finds the latest change of a circuit's outputs over the pairs that are
//! asked about, and steps that show that none is later, or that there is no pair.
//!
//! ```text
//! schedule ──question──▶ solver ──model──▶ pair ──▶ waves ──not later──▶ explanation
//!     ▲                   ▲ │ refuted                 │ later               │
//!     └────── bounds ◀────│─┴──────── best pair ◀─────┘                     │
//!                         └────────────── clauses ◀─────────────────────────┘
//! ```
//!
//! A literal says that a net is at a level at all places of a span. A question asks whether an
//! output changes after a moment. Each model of the solver is a pair, which is simulated: where it
//! isn't late enough, the run is explained backwards, and each explanation is a clause over one
//! gate. So a clause is made only where a run asked for it.
//!
//! Several workers search in rounds: each is a search of its own, and all that they do stands in
//! one log, as if one had done it.
//!
//! Nothing here is trusted: what it finds is a pair, whose delay is measured, and steps, which are
//! judged.
#![tactic(auto)]

mod asking;
mod climb;
mod conditions;
mod counter;
mod cubes;
mod explanation;
mod forgetting;
mod hearing;
mod levels;
mod limits;
mod log;
mod network;
mod pairs;
mod plan;
mod reach;
mod record;
mod refinement;
mod refutation;
mod renumbering;
mod round;
mod schedule;
mod search;
mod source;
mod span;
mod spans;
mod spelling;
mod steps;
mod sweep;
mod team;
mod tree;
mod trim;
mod vocabulary;
mod waves;
mod worker;

pub use conditions::Condition;
pub use limits::Limits;
pub use network::Network;
pub use pairs::{Admitted, PairBits};
pub use reach::Times;
pub use record::{Axiom, Holds, Kept, Link, Note};
pub use refutation::{Refutation, Step};
pub use search::{Ending, Meaning, Search};
pub use span::{FOREVER, Span};
pub use team::Team;
