//! What is in a netlist: how deep it is, and how far its delays range.
#![tactic(auto)]

mod depths;
mod ranges;

pub use depths::depth;
pub use ranges::{Range, range_of};
