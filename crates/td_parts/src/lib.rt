//! The pins of a question, cut into parts that can be searched apart.
#![tactic(auto)]

mod cutting;
mod part;
mod queue;
mod split;

pub use cutting::cut;
