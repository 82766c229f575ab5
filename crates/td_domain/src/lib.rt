//! Cubes of pairs of vectors, admitted pairs, domains of signals, the bound that a domain gives of
//! a cube, and sheets: the signals of a cube that is narrowed and widened.
//!
//! ```text
//! Cube: 0, 1 or free for each bit of both vectors      Admit: pins, held inputs, flips
//! Cube ──Domain::input, gate──▶ a signal for each net ──▶ bound: no pair of the cube changes later
//! Sheet ──narrow (a position)──▶ signals of the half cube ──widen──▶ as before
//! ```
//!
//! A signal covers waves: all those that its net has under some pair of the cube. A domain is a
//! kind of signals with the law that its gate function covers what the gate makes of covered waves.
#![tactic(auto)]

mod admits;
mod both;
mod bounding;
mod cones;
mod cubes;
mod domain;
pub mod laws;
mod levels;
mod moving;
mod pair_bits;
mod pairs;
mod redoing;
mod sheet;
mod together;
mod undoing;

pub use admits::Admit;
pub use both::Both;
pub use bounding::{bound, signals};
pub use cubes::{Cube, Trit};
pub use domain::Domain;
pub use levels::{controlling_level, is_control, level_of_two};
pub use moving::move_to;
pub use pair_bits::{Bits, fits, flip_of};
pub use pairs::Pair;
pub use sheet::Sheet;
pub use together::bound_together;
