//! The domain of edges: when a net may change, to 0 and to 1 apart, and from which level to which.
#![tactic(auto)]

mod edges;
mod gates;
mod parting;
mod signals;

pub use edges::Edges;
pub use signals::{Signal, Span};
