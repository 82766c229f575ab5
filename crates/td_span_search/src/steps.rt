//! Steps in the making.

use crate::network::Net;
use crate::record::Holds;
use crate::refutation::Step;
use crate::search::Meaning;
use crate::span::Span;
use crate::spans::Spans;
use crate::spelling::clause_of;
use std::alloc::{AllocError, Global};
use td_cdcl::{ClauseNumber, Literal, literal_at, read, small, variable_of};

/// A clause that gives a span of a contracted net, and the literals that give it.
#[derive(Drop)]
pub(crate) struct Known {
    pub(crate) body: Vec<Literal>,
    pub(crate) name: ClauseNumber,
}

/// A literal of a contracted net, and the clause that gives it.
#[derive(Clone, Copy, Drop)]
pub(crate) struct Named {
    pub(crate) literal: Literal,
    pub(crate) name: ClauseNumber,
}

/// Steps in the making. Its variables are those of the search, and after them those of contracted
/// nets.
#[derive(Drop)]
pub struct Spelling {
    pub(crate) alloc: Global,
    pub(crate) meanings: Vec<Meaning>,
    pub(crate) first_own: usize,
    pub(crate) steps: Vec<Step>,
    pub(crate) clauses: ClauseNumber,
    // By clause of the proof its number among the steps.
    pub(crate) names: Vec<ClauseNumber>,
    // The spans of contracted nets; by own variable the clauses that give it.
    pub(crate) spans: Spans,
    pub(crate) known: Vec<Vec<Known>>,
    // By link, once it is spelled.
    pub(crate) links: Vec<Option<Named>>,
    // By twice the net, and one more for last levels: the literal that a contracted net is at 1.
    pub(crate) levels: Vec<Option<Literal>>,
    // By four times the net, two more for last levels, one more for level 1: the clause that gives
    // it.
    pub(crate) settled: Vec<Option<ClauseNumber>>,
}

pub(crate) fn level_place(net: Net, is_last: bool) -> usize {
    (net as usize)
        .saturating_mul(2)
        .saturating_add(usize::from(is_last))
}

pub(crate) fn settled_place(net: Net, is_last: bool, level: bool) -> usize {
    level_place(net, is_last)
        .saturating_mul(2)
        .saturating_add(usize::from(level))
}

impl Spelling {
    pub(crate) fn new(
        alloc: Global,
        meanings: &[Meaning],
        nets: usize,
        clauses: usize,
        links: usize,
    ) -> Result<Spelling, AllocError> {
        Ok(Spelling {
            alloc,
            meanings: Vec::from_slice(alloc, meanings)?,
            first_own: meanings.len(),
            steps: Vec::new(alloc),
            clauses: 0,
            names: vec![in alloc; 0u32; clauses]?,
            spans: Spans::new(alloc, nets)?,
            known: Vec::new(alloc),
            links: vec![in alloc; None; links]?,
            levels: vec![in alloc; None; nets.saturating_mul(2)]?,
            settled: vec![in alloc; None; nets.saturating_mul(4)]?,
        })
    }

    // Adds a step that adds a clause. Answers the clause's number.
    pub(crate) fn add(&mut self, step: Step) -> Result<ClauseNumber, AllocError> {
        let name = self.clauses;
        self.steps.push(step)?;
        self.clauses = self.clauses.saturating_add(1);
        Ok(name)
    }

    pub(crate) fn own_variable(&mut self, meaning: Meaning) -> Result<Literal, AllocError> {
        let variable = small(self.meanings.len());
        self.meanings.push(meaning)?;
        self.known.push(Vec::new(self.alloc))?;
        Ok(literal_at(variable, true))
    }

    // The literal of a contracted net's span.
    pub(crate) fn span_literal(&mut self, span: Span) -> Result<Literal, AllocError> {
        if let Some(variable) = self.spans.find(span) {
            return Ok(literal_at(variable, true));
        }
        let literal = self.own_variable(Meaning::Span(span))?;
        self.spans.insert(span, variable_of(literal))?;
        Ok(literal)
    }

    // The clause that gives an own variable by this body, made where it isn't there.
    pub(crate) fn give(
        &mut self,
        literal: Literal,
        body: Vec<Literal>,
    ) -> Result<ClauseNumber, AllocError> {
        let place = (variable_of(literal) as usize).saturating_sub(self.first_own);
        if let Some(known) = self.known.get(place) {
            for clause in known {
                if clause.body.as_slice() == body.as_slice() {
                    return Ok(clause.name);
                }
            }
        }
        let clause = clause_of(self.alloc, literal, &body)?;
        let name = self.add(Step::Gate(clause))?;
        if let Some(known) = self.known.get_mut(place) {
            known.push(Known { body, name })?;
        }
        Ok(name)
    }

    // The literals of what holds, whose links are spelled.
    pub(crate) fn body(&self, holds: &[Holds]) -> Result<Vec<Literal>, AllocError> {
        let mut body = Vec::new(self.alloc);
        for held in holds {
            match held {
                Holds::Literal(literal) => body.push(*literal)?,
                Holds::Link(link) => {
                    if let Some(named) = read(&self.links, *link as usize, None) {
                        body.push(named.literal)?;
                    }
                }
            }
        }
        Ok(body)
    }
}
