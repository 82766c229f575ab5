//! The syntax of structural Verilog: from the bytes of a text to its syntax tree.
#![tactic(auto)]

mod attribute;
mod bytes;
mod declarations;
mod delay;
mod directives;
mod fault;
mod gates;
mod items;
mod lexer;
mod lookahead;
mod parser;
mod piece;
mod read;
mod step;
mod syntax;
mod timescale;
mod token;

pub use delay::{decimal_value, steps_of};
pub use directives::unit_exponent;
pub use fault::{Fault, FaultKind};
pub use read::parse;
pub use syntax::{
    Declaration, Delay, Front, Header, Instance, Item, Module, Name, Port, Ports, Range, Role,
    Statement, Terminal,
};
pub use token::{Directive, Number, Timescale};
