//! Certificates of a worst delay: evidence that another program can check, and its text.
//!
//! ```text
//! bytes ──read──▶ Certificate { question, claim, tree } │ CertFault at a line
//! Certificate ──write──▶ the one text that spells it
//! tree: split at a position │ leaf by a bound (a, t, m, e), by a pair, by no pair, by steps
//! ```
//!
//! Versions 1 to 4. Reading follows the text from its front, in memory that follows its length;
//! each text has one certificate at most, and one verdict.
#![tactic(auto)]

mod asking;
mod certificate;
mod characters;
mod condition_words;
mod conditions;
mod fault;
mod fields;
pub mod laws;
mod lines;
mod plain;
mod question;
mod reading;
mod refuting;
mod steps;
mod tree;
mod writing;

pub use certificate::{Certificate, Claim};
pub use condition_words::conditions_text;
pub use fault::{CertFault, CertFaultKind, WriteFault};
pub use plain::push_reported;
pub use question::{Question, Terms, Version};
pub use reading::read;
pub use refuting::{Refuted, Steps};
pub use tree::{BoundedBy, Node, Tree};
pub use writing::{push_question, write};
