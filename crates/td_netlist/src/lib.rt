//! Reads structural Verilog: from the bytes of a text to the netlist of gate primitives that it
//! means.
//!
//! ```text
//! bytes ──td_syntax: parse──▶ syntax tree ──names, drivers, delays──▶ Netlist │ Fault at a line
//! ```
//!
//! IEEE 1364-2005, clauses 3 (lexical rules), 7 (primitives) and 12 (modules), as far as a netlist
//! needs them; what is outside is a fault with the token that is (`OutOfSubset`).
#![tactic(auto)]

mod declarations;
mod directions;
mod drivers;
mod fault;
mod gates;
mod known;
pub mod laws;
mod meaning;
mod name_ref;
mod names;
mod primitive;
mod ranges;

pub use fault::{Fault, FaultKind};
pub use meaning::read;
pub use td_nets::{Gate, Name, Net, Netlist, Scale, Unit};
