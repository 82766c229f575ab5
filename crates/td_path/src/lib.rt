//! Why an output changes when it does: the chain of changes of a run that ends in its last change.
#![tactic(auto)]

mod chains;
mod latest;
mod links;
mod places;
mod terminals;

pub use chains::{chain_of, latest_chain, latest_output};
pub use links::{Cause, Link};
