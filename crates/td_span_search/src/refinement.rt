//! Clauses that a model breaks: why a span that the run has and the model hasn't is true.

use crate::record::{Axiom, Holds};
use crate::search::{Meaning, Search};
use crate::span::Span;
use std::alloc::AllocError;
use std::collections::BinaryHeap;
use std::mem;
use td_cdcl::{Literal, opposite, variable_of};

impl<'a> Search<'a> {
    /// Whether a literal of a level or a span is true in the run.
    fn is_actual(&self, literal: Literal) -> bool {
        let is_true = match self.meaning(variable_of(literal)) {
            Some(Meaning::First(net)) => self.waves.start(net),
            Some(Meaning::Last(net)) => self.waves.last(net),
            Some(Meaning::Span(span)) => self.waves.holds(span),
            _ => return false,
        };
        is_true == (literal % 2 == 0)
    }

    fn are_actual(&self, body: &[Literal]) -> bool {
        for literal in body {
            if !self.is_actual(*literal) {
                return false;
            }
        }
        true
    }

    // The span of a variable that has one.
    fn span_of(&self, variable: u32) -> Option<Span> {
        match self.meaning(variable) {
            Some(Meaning::Span(span)) => Some(span),
            _ => None,
        }
    }

    // A body by which a span was explained, and that is true in the run.
    fn known_body(&self, variable: u32) -> Result<Option<Vec<Literal>>, AllocError> {
        let Some(bodies) = self.reasons.get(variable as usize) else {
            return Ok(None);
        };
        for body in bodies {
            if self.are_actual(body) {
                return Ok(Some(Vec::from_slice(self.alloc, body)?));
            }
        }
        Ok(None)
    }

    // Explains a span that is true in the run by its gate: a clause of this gate. Answers the
    // literals that give it.
    fn explain(&mut self, variable: u32, span: Span) -> Result<Vec<Literal>, AllocError> {
        let spans = self.bodies(span)?;
        let mut body = Vec::new(self.alloc);
        let mut holds: Vec<Holds> = Vec::new(self.alloc);
        for needed in &spans {
            self.hold(*needed, &mut body, &mut holds)?;
        }
        body.sort_unstable();
        body.dedup();
        self.counts.explanations = self.counts.explanations.saturating_add(1);
        let mut clause = Vec::new(self.alloc);
        for literal in &body {
            clause.push(opposite(*literal))?;
        }
        clause.push(Self::positive(variable))?;
        self.add(&clause, Axiom::Gate(span.net, holds))?;
        let copy = Vec::from_slice(self.alloc, &body)?;
        if let Some(bodies) = self.reasons.get_mut(variable as usize) {
            bodies.push(copy)?;
        }
        Ok(body)
    }

    // Notes that a span is to be explained.
    fn need(&mut self, variable: u32, heap: &mut BinaryHeap<u32>) -> Result<(), AllocError> {
        let Some(span) = self.span_of(variable) else {
            return Ok(());
        };
        let Some(list) = self.needs.get_mut(span.net as usize) else {
            return Ok(());
        };
        if list.is_empty() {
            heap.push(span.net)?;
        }
        if !list.contains(&variable) {
            list.push(variable)?;
        }
        Ok(())
    }

    /// Adds clauses that the model breaks, from a span that the run has and the model hasn't: a
    /// clause for each span on the way back, latest nets first. Answers how many. The error is out
    /// of memory.
    pub(crate) fn refine(&mut self, goal: u32) -> Result<u64, AllocError> {
        let before = self.counts.explanations;
        let mut heap = BinaryHeap::new(self.alloc);
        self.need(goal, &mut heap)?;
        for _ in 0..self.network.nets() {
            let Some(net) = heap.pop() else {
                break;
            };
            let none = Vec::new(self.alloc);
            let list = match self.needs.get_mut(net as usize) {
                Some(list) => mem::replace(list, none),
                None => none,
            };
            for variable in &list {
                self.refine_one(*variable, &mut heap)?;
            }
        }
        Ok(self.counts.explanations.saturating_sub(before))
    }

    fn refine_one(&mut self, variable: u32, heap: &mut BinaryHeap<u32>) -> Result<(), AllocError> {
        let Some(span) = self.span_of(variable) else {
            return Ok(());
        };
        let body = match self.known_body(variable)? {
            Some(body) => body,
            None => self.explain(variable, span)?,
        };
        for literal in &body {
            if !self.solver.is_true(*literal) {
                self.need(variable_of(*literal), heap)?;
            }
        }
        Ok(())
    }
}
