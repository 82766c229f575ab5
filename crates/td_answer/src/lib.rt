//! From a request and the texts of its files to an outcome. No files, no streams.
//!
//!     (Request, Texts) ──answer──▶ Outcome { report, certificate, dump, status }  |  Refusal
//!
//! The sentences at the top are the contract of `answer`.
#![tactic(auto)]

mod alone;
mod answering;
mod answers;
mod beside;
mod bound;
mod certifying;
mod changes;
mod check;
mod claims;
mod difference;
mod each;
mod earliest;
mod ended;
mod filled;
mod gathering;
mod hazards;
mod head;
mod info;
mod join;
mod joined;
mod kept;
mod kept_certificate;
mod moments;
mod names;
mod open_certificate;
mod outcome;
mod outlook;
mod parts;
mod path;
mod pins;
mod refusal;
mod requirement;
mod runs;
mod sample;
mod sentence;
mod sighting;
mod sim;
mod status;
mod texts;
mod unjoined;
mod watch;
mod words;
mod worst;

pub use answering::{answer, answer_plain};
pub use difference::Difference;
pub use outcome::{ChosenWaves, Dump, Outcome, Waves};
pub use refusal::Refusal;
pub use status::Status;
pub use texts::Texts;
pub use watch::{Begun, TableWatch};
