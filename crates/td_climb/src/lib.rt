//! A climb to a late pair, by lanes: 64 pairs are simulated at once, and each word has a bit for
//! each.
//!
//! What the lanes say of a pair is a guess, of which nothing is proved. Proved is that the pair to
//! which a climb leads is admitted. Who needs its delay measures it.
#![tactic(auto)]

mod climbing;
mod cone;
mod delaying;
mod draws;
mod joining;
mod lanes;
mod lists;
mod moves;
mod pairs;
mod places;
mod rooms;
mod runs;
mod strips;
mod taking;
mod targets;
mod walk;
mod waves;
mod windows;

pub use climbing::{Climb, tries_for};
pub use draws::Draws;
pub use lanes::{Lanes, Latest};
pub use pairs::{LANES, Pairs};
