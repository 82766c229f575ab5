//! What the faults of texts, circuits, certificates and joins mean, and what to do about each:
//! fixed sentences, which a program may print after the line that names the fault; and which net
//! the fault of a netlist is about. No function here reads a file or writes anything.
#![tactic(auto)]

pub mod certificates;
pub mod drivers;
pub mod joins;
pub mod netlists;
#[cfg(test)]
mod tests;
pub mod verdicts;
