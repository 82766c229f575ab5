//! What a refutation is spelled from.

use crate::levels::at_level;
use crate::network::{Net, Network};
use crate::reach::Times;
use crate::record::Record;
use crate::search::{Meaning, Settled};
use std::alloc::Global;
use td_cdcl::{ClauseNumber, Literal, Proof, read};

/// The clauses of a search, what its variables say, why its clauses hold, and when nets may change
/// by what was known before any question.
#[derive(Clone, Copy, Drop)]
pub struct Source<'b> {
    pub alloc: Global,
    pub network: &'b Network,
    pub first: &'b [Times],
    pub proof: &'b Proof,
    /// The number of the clause without literals, if there is one.
    pub contradiction: Option<ClauseNumber>,
    pub meanings: &'b [Meaning],
    pub record: &'b Record,
    pub settled: &'b Settled,
}

impl<'b> Source<'b> {
    /// What a variable says.
    pub fn meaning(&self, variable: u32) -> Option<Meaning> {
        self.meanings.get(variable as usize).copied()
    }

    /// When a net may change, by what was known before any question.
    pub fn first(&self, net: Net) -> Times {
        read(self.first, net as usize, Times::NEVER)
    }

    /// The literal that says that a net is at 1 at the start, or in the end, if there is one. A
    /// contracted net has its source's.
    pub fn settled_literal(&self, net: Net, is_last: bool) -> Option<Literal> {
        let mut source = net;
        let mut is_inverted = false;
        for _ in 0..self.network.nets() {
            if !self.network.is_thin(source) {
                break;
            }
            let Some(node) = self.network.driver(source) else {
                break;
            };
            is_inverted = is_inverted != node.inverts;
            source = read(self.network.fanins(node), 0, 0);
        }
        match self.settled.literal(source, is_last) {
            Some(literal) => Some(at_level(literal, !is_inverted)),
            None => None,
        }
    }
}
