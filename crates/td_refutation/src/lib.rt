//! Refutations: lines that show that no admitted pair of a cube changes an output later than a
//! moment. A line is a letter and numbers, as a certificate has it; what it means is said by
//! clauses on spans of places at which nets keep a level.
//!
//! ```text
//! lines ──Refutation::step (letter, numbers)──▶ a step of td_spans │ Flaw of the first bad line
//! all lines ──refuted──▶ Shown: the bound, and whether no pair is left
//! ```
#![tactic(auto)]

mod conditions;
mod flaw;
mod kind;
pub mod laws;
mod lines;
mod refutation;
mod settled;
mod whole;

pub use conditions::{NamedCondition, question_on};
pub use flaw::{Flaw, StepError};
pub use kind::StepKind;
pub use refutation::Refutation;
pub use settled::{is_broken, is_kept};
pub use whole::{Refusal, Shown, Step, refuted, refuted_keeping};
