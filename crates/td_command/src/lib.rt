//! The command line of `tdelay`: what its words ask for.
//!
//!     words ──parted──▶ plain words ──clap──▶ arguments ──▶ Request
//!                  ╲──▶ what is said of inputs and nets by name ──╱
#![tactic(auto)]

mod arguments;
mod commands;
mod conflicts;
mod help;
pub mod laws;
mod line;
mod options;
mod requests;
mod shared;
mod tables;
#[cfg(test)]
mod tests;
mod words;

pub use conflicts::{Conflict, Kept, Single, Which, conflict_of};
pub use line::asked;
pub use words::Words;
