//! What a worker hears of the others: their lemmas, and their explanations, so that no span is
//! explained twice and all workers have the same variables.

use crate::log::Log;
use crate::record::{Axiom, Note};
use crate::search::{Meaning, Search};
use std::alloc::AllocError;
use td_cdcl::{ClauseNumber, Literal, literal_at, opposite, variable_of};

impl<'a> Search<'a> {
    /// Takes in a clause of the log, a lemma only where all that it speaks of is known. The error
    /// is out of memory.
    pub(crate) fn hear(&mut self, log: &Log, told: ClauseNumber) -> Result<(), AllocError> {
        if log.proof.is_given(told) {
            self.hear_explanation(log, told)
        } else {
            self.hear_lemma(log, told)
        }
    }

    fn hear_lemma(&mut self, log: &Log, told: ClauseNumber) -> Result<(), AllocError> {
        let mut lemma: Vec<Literal> = Vec::new(self.alloc);
        for literal in log.proof.literals(told) {
            let Some(meaning) = log.meanings.get(variable_of(*literal) as usize) else {
                return Ok(());
            };
            let Some(variable) = self.variable_that_says(*meaning) else {
                return Ok(());
            };
            lemma.push(literal_at(variable, *literal % 2 == 0))?;
        }
        let number = self.next_number();
        self.record.add(Note::Given(number, Axiom::Told(told)))?;
        self.solver.hear(&lemma)?;
        Ok(())
    }

    // The last literal says the span that is explained; the others are those of its body, negated.
    fn hear_explanation(&mut self, log: &Log, told: ClauseNumber) -> Result<(), AllocError> {
        let mut clause: Vec<Literal> = Vec::new(self.alloc);
        let mut body: Vec<Literal> = Vec::new(self.alloc);
        let mut head = None;
        for literal in log.proof.literals(told) {
            let Some(meaning) = log.meanings.get(variable_of(*literal) as usize) else {
                return Ok(());
            };
            let Some(variable) = self.variable_to_say(*meaning)? else {
                return Ok(());
            };
            if let Some(before) = head {
                body.push(opposite(before))?;
            }
            let own = literal_at(variable, *literal % 2 == 0);
            clause.push(own)?;
            head = Some(own);
        }
        let Some(head) = head else {
            return Ok(());
        };
        body.sort_unstable();
        let Some(bodies) = self.reasons.get_mut(variable_of(head) as usize) else {
            return Ok(());
        };
        for known in bodies.iter() {
            if known.as_slice() == body.as_slice() {
                return Ok(());
            }
        }
        bodies.push(body)?;
        self.add(&clause, Axiom::Told(told))
    }

    // The variable that says this, if there is one.
    fn variable_that_says(&self, meaning: Meaning) -> Option<u32> {
        match meaning {
            Meaning::First(net) => Some(variable_of(self.settled_literal(net, false)?)),
            Meaning::Last(net) => Some(variable_of(self.settled_literal(net, true)?)),
            Meaning::Span(span) | Meaning::Forgotten(span) => self.spans.find(span),
            Meaning::Differ { inputs, at_least } => {
                let counts = self.counter.get(inputs as usize)?;
                let place = at_least.checked_sub(1)? as usize;
                Some(variable_of(*counts.get(place)?))
            }
        }
    }

    // The variable that says this, made where a level or a span has none.
    fn variable_to_say(&mut self, meaning: Meaning) -> Result<Option<u32>, AllocError> {
        match meaning {
            Meaning::First(net) => Ok(Some(variable_of(self.first(net, true)?))),
            Meaning::Last(net) => Ok(Some(variable_of(self.last(net, true)?))),
            Meaning::Span(span) | Meaning::Forgotten(span) => Ok(Some(self.span(span)?)),
            Meaning::Differ { .. } => Ok(None),
        }
    }
}
