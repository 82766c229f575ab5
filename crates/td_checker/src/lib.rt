//! The checker of certificates: it trusts nobody, and stands on nothing of the search.
//!
//! ```text
//! netlist's bytes ──▶ Circuit ─┐
//! certificate's bytes ──▶ Certificate ─┴─check──▶ Accepted │ the first verdict that refuses it, at
//!                                                  a line │ CheckFault
//! ```
//!
//! Each leaf's bound or delay is computed again, by the domains and the queue, or its steps are
//! judged. Accepted means: the claim is true of every admitted pair.
#![tactic(auto)]

mod admitting;
mod checking;
mod checks;
mod comparing;
mod judging;
pub mod laws;
mod looking;
mod order;
mod pairs;
mod refuting;
#[cfg(test)]
mod tests;
mod verdict;
mod walking;

pub use checking::is_of_size;
pub use checks::{check, check_told, check_told_until};
pub use verdict::{CheckFault, Checked, Verdict};
