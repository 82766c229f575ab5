//! The search for a refutation: by spans it finds the latest pair that it can, and lines that show
//! that no pair is later than a bound, or that no pair is asked about.
//!
//! ```text
//! Problem ──td_span_search──▶ pair, steps ──measured, judged (td_refutation)──▶ Refuted
//! ```
//!
//! What `td_span_search` finds isn't trusted: the pair is measured, and the steps are judged here,
//! before they are called evidence.
#![tactic(auto)]

mod asking;
mod effort;
mod keeping;
mod names;
mod pairs;
mod refuting;
mod searching;
mod spelling;

pub use effort::Effort;
pub use keeping::{Answered, Evidence, refute_keeping};
pub use refuting::{Refuted, Sought, refute};
pub use td_span_search::Ending;
