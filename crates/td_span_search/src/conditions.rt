//! Conditions on the settled levels of nets, and a first pair that keeps them.

use crate::network::{Net, Network, Node};
use crate::pairs::PairBits;
use crate::record::{Axiom, Kept};
use crate::search::{Found, Search};
use crate::waves::{counted_level, target_of};
use std::alloc::{AllocError, Global};
use td_cdcl::{Outcome, Question, read, small, write_at};

// So many steps a look at the level of a net takes.
const STEPS_OF_A_LEVEL: u64 = 5;

/// A condition on the settled levels of a net: its levels under the first and the second vector,
/// none where any will do, and whether both are equal.
#[derive(Clone, Copy, Debug, PartialEq, Eq, Drop)]
pub struct Condition {
    pub net: Net,
    pub first: Option<bool>,
    pub last: Option<bool>,
    pub is_equal: bool,
}

impl Condition {
    // Whether a net that has these settled levels is as the condition has it.
    fn is_kept(self, first: bool, last: bool) -> bool {
        self.first.unwrap_or(first) == first
            && self.last.unwrap_or(last) == last
            && (!self.is_equal || first == last)
    }
}

/// The settled levels of the nets on which conditions rest.
#[derive(Clone, Drop)]
pub struct Rests {
    // These nets, each after those on which it rests.
    nets: Vec<Net>,
    // By net its level under the first vector, and under the second one.
    first: Vec<bool>,
    last: Vec<bool>,
}

// The level of a gate's output, where its inputs have these.
fn level_of(network: &Network, node: Node, levels: &[bool]) -> bool {
    let counts = counted_level(node);
    let mut count = 0usize;
    for fanin in network.fanins(node) {
        if read(levels, *fanin as usize, false) == counts {
            count = count.saturating_add(1);
        }
    }
    target_of(node, count)
}

// The levels to which nets settle under a vector.
fn settle(network: &Network, nets: &[Net], vector: &[bool], levels: &mut [bool]) {
    for net in nets {
        let level = match network.driver(*net) {
            Some(node) => level_of(network, node, levels),
            None => match network.input_of(*net) {
                Some(input) => read(vector, input, false),
                None => *net == 1,
            },
        };
        write_at(levels, *net as usize, level);
    }
}

impl Rests {
    /// On no nets.
    pub fn new(alloc: Global) -> Rests {
        Rests {
            nets: Vec::new(alloc),
            first: Vec::new(alloc),
            last: Vec::new(alloc),
        }
    }

    // Those that a table says.
    fn of(alloc: Global, cone: &[bool]) -> Result<Rests, AllocError> {
        let mut rests = Rests {
            nets: Vec::new(alloc),
            first: vec![in alloc; false; cone.len()]?,
            last: vec![in alloc; false; cone.len()]?,
        };
        for net in 0..small(cone.len()) {
            if read(cone, net as usize, false) {
                rests.nets.push(net)?;
            }
        }
        Ok(rests)
    }
}

impl<'a> Search<'a> {
    /// Whether a pair keeps all conditions.
    pub(crate) fn keeps(&mut self, pair: &PairBits) -> bool {
        if self.admitted.conditions.is_empty() {
            return true;
        }
        let Rests { nets, first, last } = &mut self.rests;
        settle(self.network, nets, &pair.first, first);
        settle(self.network, nets, &pair.second, last);
        let looks = (nets.len() as u64).saturating_mul(STEPS_OF_A_LEVEL);
        self.counts.simulated = self.counts.simulated.saturating_add(looks);
        for condition in &self.admitted.conditions {
            let before = read(first, condition.net as usize, false);
            let after = read(last, condition.net as usize, false);
            if !condition.is_kept(before, after) {
                return false;
            }
        }
        true
    }

    // Adds the clauses of the conditions, with the variables and tables on which they rest. A
    // constant has no variable: a pair is looked at.
    fn add_conditions(&mut self) -> Result<(), AllocError> {
        for place in 0..self.admitted.conditions.len() {
            let Some(condition) = self.admitted.conditions.get(place).copied() else {
                break;
            };
            if condition.net > 1 {
                self.add_condition(condition)?;
            }
        }
        Ok(())
    }

    fn add_condition(&mut self, condition: Condition) -> Result<(), AllocError> {
        let net = condition.net;
        let (first, last) = (condition.first, condition.last);
        if first.is_some() {
            let last = None;
            self.add_kept(Kept { net, first, last })?;
        }
        if last.is_some() {
            let first = None;
            self.add_kept(Kept { net, first, last })?;
        }
        if condition.is_equal {
            for level in [false, true] {
                let (first, last) = (Some(level), Some(!level));
                self.add_kept(Kept { net, first, last })?;
            }
        }
        Ok(())
    }

    fn add_kept(&mut self, kept: Kept) -> Result<(), AllocError> {
        let mut clause = Vec::new(self.alloc);
        if let Some(level) = kept.first {
            let literal = self.first(kept.net, level)?;
            clause.push(literal)?;
        }
        if let Some(level) = kept.last {
            let literal = self.last(kept.net, level)?;
            clause.push(literal)?;
        }
        self.add(&clause, Axiom::Kept(kept))
    }

    /// Whether no pair is asked about, by a clause without literals.
    pub fn has_no_pair(&self) -> bool {
        self.solver.contradiction().is_some()
    }

    /// Looks for a pair that is asked about, where none is known. Where there is none, a clause
    /// without literals says so in the end; where the search ends before, nothing is known. The
    /// error is out of memory.
    pub(crate) fn find_pair(&mut self) -> Result<(), AllocError> {
        if self.is_ready {
            return Ok(());
        }
        if !self.admitted.is_some() {
            return self.add(&[], Axiom::Admitted);
        }
        self.rests = Rests::of(self.alloc, &self.cone(0)?)?;
        self.add_conditions()?;
        self.look_at(0)?;
        let mut effort = self.limits.effort;
        for _ in 0..u64::MAX {
            if self.ends().is_some() || !self.look_for_pair(effort)? {
                return Ok(());
            }
            effort = effort.saturating_mul(2);
        }
        Ok(())
    }

    // Asks for a pair with this work. Answers whether that stays open.
    fn look_for_pair(&mut self, effort: u64) -> Result<bool, AllocError> {
        let left = self.limits.work.saturating_sub(self.spent());
        let question = Question {
            assumptions: &[],
            inputs: &self.inputs,
            skipped: &self.skipped,
            limit: Some(effort.min(left)),
        };
        match self.solver.ask(&question, self.stop)? {
            Outcome::Refuted(_) => Ok(false),
            Outcome::Open => Ok(true),
            Outcome::Satisfied => {
                let pair = self.pair_of_model()?;
                self.is_ready = self.keeps(&pair);
                self.is_lost = self.is_lost || !self.is_ready;
                self.best = Found { delay: 0, pair };
                Ok(false)
            }
        }
    }
}
