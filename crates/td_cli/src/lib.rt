//! The program as a function of its words, files and streams.
//!
//!     words ──asked──▶ Request ──each file that it names, read once──▶ Bytes
//!           ──answer──▶ Outcome ──▶ report to out, certificate and waves to files
//!                     ╲ Refusal ──▶ sentence and hint to err
//!
//! `program` is all that `main` calls. A fault (`Fault`) is one of files and streams, a refusal one
//! of what the texts say.
#![tactic(auto)]

mod advice;
mod asked;
mod board;
mod bytes;
mod deadline;
mod delivery;
mod endings;
mod fault;
mod hint;
mod judging;
pub mod laws;
mod lines;
mod message;
mod names;
mod near;
mod origin;
mod outputs;
mod pace;
mod print;
mod progress;
mod refusals;
mod shell;
mod spelling;
mod tips;
mod trouble;
mod usage;
mod vectors;
mod waiting;

pub use advice::{Advice, NoAdvice, System};
pub use shell::{carry_out, program, refuse_words, run, run_plain};
pub use spelling::explain_words;
