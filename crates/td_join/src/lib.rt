//! Certificates of the parts of one question, joined into one certificate.
#![tactic(auto)]

mod alike;
mod claims;
mod fault;
mod growing;
mod hulls;
mod joining;
pub mod laws;
mod nones;
mod parts;
mod steps;
mod terms;

pub use fault::JoinFault;
pub use joining::{join, join_in};
