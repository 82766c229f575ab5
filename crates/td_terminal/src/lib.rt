//! Lines of progress at a terminal.
#![tactic(auto)]

mod in_place;
#[cfg(test)]
mod tests;

pub use in_place::InPlace;
