//! A conflict-driven clause-learning solver that is asked again and again.
//!
//! ```text
//! add ──▶ proof ──▶ board (arena, watches, trail) ──propagate──▶ conflict ──analyze──▶ lemma
//!                     ▲ decide (activity)          restart, reduce (pace)      proof ◀──┘
//! ```
//!
//! Each clause that it learns stands in its proof with hints: the numbers of clauses by which unit
//! propagation shows it. Its numbers are whole and it reads no clock, so an answer is the same on
//! each machine, unless a stop ends the question. Clauses may be added between questions, and what
//! is learned for one question serves later ones.
#![tactic(auto)]

mod activity;
mod analysis;
mod arena;
mod board;
mod hints;
mod intake;
mod literal;
mod marks;
mod pace;
mod proof;
mod question;
mod reduction;
mod redundancy;
mod solver;
mod table;
#[cfg(test)]
mod tests;
mod trail;
mod watches;

pub use literal::{Literal, literal_at, opposite, variable_of};
pub use proof::{ClauseNumber, Proof};
pub use question::{Outcome, Question};
pub use solver::Solver;
pub use table::{read, small, write_at};
pub use trail::Value;
