//! Clauses by number, and which others follow from them by unit propagation along hints.
#![tactic(auto)]

mod arena;
mod clauses;
mod denied;
mod left;
mod literal;

pub use clauses::{Clauses, Outcome};
pub use left::Left;
pub use literal::Literal;
