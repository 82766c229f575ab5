//! The worst delay of a circuit, by a tree of cubes, by a refutation, or by one after the other.
//!
//! ```text
//! Question, Method ──▶ least │ lead │ refute │ auto: these in turns, from the best so far
//!          ──▶ Found: exact or between, the pair, the cause, the evidence
//! ```
//!
//! The upper figure is at most the bound by edges, and at most each figure shown before. With
//! conditions (`KeptQuestion`) trees end at once, and refutations answer.
#![tactic(auto)]

mod combining;
mod edge_bound;
mod evidence;
mod found;
mod kept_answer;
mod kept_search;
mod leaf;
mod method;
mod question;
mod refuting;
mod searching;
mod support;
mod telling;

pub use evidence::tree_of_high;
pub use found::Found;
pub use kept_answer::{KeptAnswer, KeptFound};
pub use kept_search::worst_kept;
pub use method::Method;
pub use question::{KeptQuestion, Question};
pub use searching::worst;
pub use support::{HighTree, Support};
