//! Spans: steps that show that no pair of a cube that is asked about changes an output later than a
//! moment, or that there is none, by clauses on spans of places at which nets keep a level.
//!
//! ```text
//! Variable: net n starts at 1 │ ends at 1 │ is at v at all places a..b │ at most k inputs differ
//! gate, table, net, pair, condition ──▶ clause that each run makes true ──lemma──▶ clause
//! clause ──end──▶ net n keeps v from place a on ──▶ bound of the outputs │ the empty clause
//! ```
//!
//! Places are the moments at which a net may change. Each step is accepted exactly where its
//! condition holds, memory aside; what is accepted is true of each run of the question.
#![tactic(auto)]

mod condition;
mod fault;
mod gate_clauses;
pub mod laws;
mod lemmas;
mod long_clauses;
mod named_clauses;
mod named_gates;
mod names;
mod net_clauses;
mod pair_clauses;
mod pieces;
mod question;
mod reason;
mod rules;
mod sayings;
mod signals;
mod spans;
mod times;
mod variable;
mod variables;
mod walk;

pub use condition::{Condition, Form};
pub use fault::Fault;
pub use names::net_named;
pub use question::Question;
pub use reason::Reason;
pub use signals::first_times;
pub use spans::Spans;
pub use times::{Places, Times};
pub use variable::{Saying, Variable};
