//! What the words of a command line say of a netlist's inputs by their names, and the words that
//! say the same by place. Conditions on nets stand among the words by name, and say nothing of
//! inputs.
#![tactic(auto)]

mod cells;
mod labels;
mod numbers;
mod placing;
mod sayings;
mod scanning;
#[cfg(test)]
mod tests;
mod topic;
mod value;
mod words;
mod writing;

pub use labels::{Label, label_for, labels_of};
pub use placing::{Given, places};
pub use sayings::{WordFault, has};
pub use scanning::{Mode, Scan, Taken, parted};
pub use topic::Topic;
pub use words::{ByPlace, with_options, with_words};
