//! A report is a list of typed lines. Two printers:
//!
//!     Line ──text──▶ one or more lines that end in a newline
//!     Line ──json──▶ one member of an object, after those that say what was asked
//!
//! A new line is a variant of `Line`, an arm in `text`, an arm in `members`, and their helpers.
#![tactic(auto)]

mod asked;
mod claims;
mod figures;
mod hazards;
mod label;
mod line;
mod members;
mod moments;
mod objects;
mod report;
mod rows;
mod slacks;
mod terms;
mod text;
mod texts;
mod vector;

pub use asked::Asked;
pub use label::Label;
pub use line::{
    Cause, Change, Changes, Driver, Figure, Found, Hazard, HazardRow, Last, Line, Part, Place,
    Requirement, Row, Span, Standing, Vectors,
};
pub use moments::Moments;
pub use objects::{print_error, print_json};
pub use report::Report;
pub use rows::print_row;
pub use terms::{Named, Said, Terms};
pub use text::print_text;
pub use texts::Text;
pub use vector::Vector;
