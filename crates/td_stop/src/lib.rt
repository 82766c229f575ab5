//! When a search is to end: once somebody has set its stop, as a timer does after some seconds, or
//! because somebody asks for it.
#![tactic(auto)]

mod gauge;
mod stop;
#[cfg(test)]
mod tests;
mod timer;

pub use gauge::Gauge;
pub use stop::Stop;
pub use timer::{Signal, Timer};
