//! What the words of a command line say, as values.
//!
//!     Request ─┬─ file, reading (default delay, outputs), form, hints
//!              └─ command ─┬─ Sim, Path, Bound, Check, Join, Info
//!                          ├─ Worst ── question, strategy, effort, files, shown, table
//!                          └─ Parts ── question, strategy, count
//!
//! Limits are invariants of the types. Nothing here looks at words.
#![tactic(auto)]

mod effort;
mod files;
mod question;
mod request;

pub use effort::{Count, Effort, MOST_NODES, MOST_PARTS, MOST_WORKERS};
pub use files::Files;
pub use question::{Inputs, Question};
pub use request::{
    Bound, Check, Command, Form, Join, Parts, Path, Request, Search, Shown, Sim, Strategy, Stray,
    Table,
};
