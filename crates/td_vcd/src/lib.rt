//! The waves of a run as a value change dump (IEEE 1364-2005, clause 18).
#![tactic(auto)]

mod batch;
mod events;
mod fault;
pub mod laws;
mod writing;

pub use fault::VcdFault;
pub use writing::{write, write_chosen};
