//! A question: is there a pair in whose run a net isn't at its last level from a place on?

use crate::network::Net;
use crate::pairs::PairBits;
use crate::search::{Found, Goal, Meaning, Search};
use crate::span::{FOREVER, Span};
use std::alloc::AllocError;
use td_cdcl::{ClauseNumber, Literal, Outcome, Question, opposite, read, variable_of, write_at};

/// Which runs a question is about: those that end at a level at this net, or all.
#[derive(Clone, Copy, Debug, PartialEq, Eq, Drop)]
pub struct Asked {
    pub net: Net,
    pub last: Option<bool>,
    pub place: u64,
}

/// The answer: the run that was simulated last is one; there is none, by a lemma; or the limit was
/// met.
#[derive(Clone, Copy, Debug, PartialEq, Eq, Drop)]
pub enum Reply {
    Yes,
    No(ClauseNumber),
    Open,
}

/// The assumptions of a question, and the variables of the spans that would answer no, by last
/// level.
#[derive(Drop)]
struct Assumptions {
    literals: Vec<Literal>,
    falls: Option<u32>,
    rises: Option<u32>,
}

impl<'a> Search<'a> {
    // The pair of the model: bits without a variable are those of the best pair, but that a still
    // input stays so, and where fewer inputs may differ than there are, these stand still.
    pub(crate) fn pair_of_model(&self) -> Result<PairBits, AllocError> {
        let mut pair = self.best.pair.copy(self.alloc)?;
        for input in 0..self.network.inputs() {
            let net = self.network.net_of_input(input);
            let first = self.settled_literal(net, false);
            let last = self.settled_literal(net, true);
            let (before, after) = pair.bits(input);
            let mut bits = (
                match first {
                    Some(literal) => self.solver.is_true(literal),
                    None => before,
                },
                match last {
                    Some(literal) => self.solver.is_true(literal),
                    None => after,
                },
            );
            if self.admitted.counts() || self.admitted.is_held(input) {
                let (pinned, next) = self.admitted.pins(input);
                if first.is_none() && pinned.is_none() {
                    bits.0 = bits.1;
                } else if last.is_none() && next.is_none() {
                    bits.1 = bits.0;
                }
            }
            pair.put(input, bits.0, bits.1);
        }
        Ok(pair)
    }

    /// Only what lies in the cones of the net and of the conditions is decided. The error is out of
    /// memory.
    pub(crate) fn look_at(&mut self, net: Net) -> Result<(), AllocError> {
        if self.cone_of == Some(net) {
            return Ok(());
        }
        self.cone_of = Some(net);
        let cone = self.cone(net)?;
        self.skipped.clear();
        for meaning in &self.meanings {
            self.skipped.push(match meaning {
                Meaning::First(own) | Meaning::Last(own) => {
                    *own > 1 && !read(&cone, *own as usize, false)
                }
                Meaning::Span(span) => !read(&cone, span.net as usize, false),
                Meaning::Differ { .. } => false,
                Meaning::Forgotten(_) => true,
            })?;
        }
        self.inputs.clear();
        for input in 0..self.network.inputs() {
            let own = self.network.net_of_input(input);
            if read(&cone, own as usize, false) {
                for is_last in [true, false] {
                    if let Some(literal) = self.settled_literal(own, is_last) {
                        self.inputs.push(variable_of(literal))?;
                    }
                }
            }
        }
        Ok(())
    }

    /// By net whether it lies in the cone of one, or of a condition's. The error is out of memory.
    pub(crate) fn cone(&self, net: Net) -> Result<Vec<bool>, AllocError> {
        let mut nets = vec![in self.alloc; net; 1]?;
        for condition in &self.admitted.conditions {
            nets.push(condition.net)?;
        }
        self.network.nets_below(self.alloc, &nets)
    }

    // The assumptions of a question under the cube.
    fn assume(&mut self, asked: Asked) -> Result<Assumptions, AllocError> {
        let mut assumptions = Assumptions {
            literals: Vec::new(self.alloc),
            falls: None,
            rises: None,
        };
        for place in 0..self.cube.len() {
            let Some(bit) = self.cube.get(place).copied() else {
                break;
            };
            let literal = if bit.is_last {
                self.last(bit.net, bit.level)?
            } else {
                self.first(bit.net, bit.level)?
            };
            assumptions.literals.push(literal)?;
        }
        if let Some(level) = asked.last {
            let literal = self.last(asked.net, level)?;
            assumptions.literals.push(literal)?;
        }
        for level in [false, true] {
            if asked.last == Some(!level) {
                continue;
            }
            self.assume_late(asked, level, &mut assumptions)?;
        }
        Ok(assumptions)
    }

    // The run doesn't end at the level, or isn't at it from the place on.
    fn assume_late(
        &mut self,
        asked: Asked,
        level: bool,
        assumptions: &mut Assumptions,
    ) -> Result<(), AllocError> {
        let span = self.reach.normal(Span {
            net: asked.net,
            level,
            first: asked.place,
            last: FOREVER,
        });
        if span.first >= self.reach.times(asked.net).end(level) {
            let ends = self.last(asked.net, level)?;
            assumptions.literals.push(opposite(ends))?;
            return Ok(());
        }
        let variable = self.span(span)?;
        if asked.last.is_none() {
            let goal = Goal {
                moment: asked.place.saturating_sub(1),
                variable,
            };
            if !self.goals.contains(&goal) {
                self.goals.push(goal)?;
            }
        }
        if level {
            assumptions.rises = Some(variable);
        } else {
            assumptions.falls = Some(variable);
        }
        assumptions
            .literals
            .push(opposite(Self::positive(variable)))?;
        Ok(())
    }

    /// Asks a question, with a limit of work if there is one. The error is out of memory.
    pub(crate) fn ask(&mut self, asked: Asked, limit: Option<u64>) -> Result<Reply, AllocError> {
        self.counts.questions = self.counts.questions.saturating_add(1);
        self.stop.gauge.ask(asked.place.saturating_sub(1));
        self.look_at(asked.net)?;
        let assumptions = self.assume(asked)?;
        let start = self.spent();
        for _ in 0..u64::MAX {
            self.tell_work();
            let used = self.spent().saturating_sub(start);
            let left = match limit {
                Some(limit) => {
                    if used >= limit {
                        return Ok(Reply::Open);
                    }
                    Some(limit.saturating_sub(used))
                }
                None => None,
            };
            if self.is_paused() {
                return Ok(Reply::Open);
            }
            self.pace_solver();
            let question = Question {
                assumptions: &assumptions.literals,
                inputs: &self.inputs,
                skipped: &self.skipped,
                limit: left,
            };
            match self.solver.ask(&question, self.stop)? {
                Outcome::Refuted(lemma) => return Ok(Reply::No(lemma)),
                Outcome::Open => return Ok(Reply::Open),
                Outcome::Satisfied => {
                    if self.try_model(asked, &assumptions)? {
                        return Ok(Reply::Yes);
                    }
                    if self.is_lost {
                        return Ok(Reply::Open);
                    }
                }
            }
        }
        Ok(Reply::Open)
    }

    // Simulates the pair of the model. Answers whether it is late enough; else explains why it
    // isn't.
    fn try_model(&mut self, asked: Asked, assumptions: &Assumptions) -> Result<bool, AllocError> {
        self.counts.models = self.counts.models.saturating_add(1);
        let pair = self.pair_of_model()?;
        if !self.keeps(&pair) {
            self.is_lost = true;
            return Ok(false);
        }
        if asked.last.is_none() {
            let delay = self.simulate(&pair)?;
            let known = match &self.candidate {
                Some(found) => found.delay,
                None => 0,
            };
            if delay > known || self.candidate.is_none() {
                self.candidate = Some(Found {
                    delay,
                    pair: pair.copy(self.alloc)?,
                });
            }
        } else {
            self.simulate_up_to(&pair, asked.net)?;
        }
        if self.is_lost {
            return Ok(false);
        }
        if self.waves.settled_from(asked.net) > asked.place {
            if asked.last.is_some() {
                self.simulate(&pair)?;
            }
            return Ok(true);
        }
        let goal = if self.waves.last(asked.net) {
            assumptions.rises
        } else {
            assumptions.falls
        };
        let added = match goal {
            Some(variable) => self.refine(variable)?,
            None => 0,
        };
        if added == 0 {
            // The model would come again.
            self.is_lost = true;
        }
        Ok(false)
    }
}
