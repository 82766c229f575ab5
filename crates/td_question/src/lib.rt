//! What a request asks of a netlist's text.
//!
//!     text ──▶ netlist ──▶ circuit, with moments
//!     words, by place and by name ──▶ admitted pairs of its inputs
//!     words and lines of conditions, by name ──▶ conditions on its nets, by number
#![tactic(auto)]

mod asking;
mod chosen;
mod fault;
mod keep_lines;
mod keeping;
mod names;
mod net_names;
mod pair;
mod placed;
mod quote;
mod rising;
pub mod timing;
pub mod vector;

pub use asking::{Asked, question_of};
pub use chosen::nets_of;
pub use fault::QuestionFault;
pub use keeping::words_of;
pub use pair::{PairAsked, pair_of};
pub use quote::Quote;
pub use rising::in_order;
