//! Pairs with their delays, and the position at which a cube is split.
#![tactic(auto)]

mod fan_in;
mod timed;

pub use fan_in::FanIn;
pub use timed::Timed;
