//! From a netlist's text to the circuit that is asked about.
#![tactic(auto)]

mod asking;
mod each_output;
mod fault;
pub mod laws;
mod outputs;
mod source;

pub use asking::{are_outputs, asked_of};
pub use each_output::EachOutput;
pub use fault::SourceFault;
pub use source::{Source, circuit_of, source_of, whole_of};
