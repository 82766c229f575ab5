//! The one log of a search by several workers: all that they do stands in it, as if one had done
//! it.

use crate::levels::at_level;
use crate::record::{Axiom, Holds, Link, Note, Record};
use crate::search::{CubeBit, Meaning, Search, Settled};
use crate::spans::Spans;
use std::alloc::{AllocError, Global};
use std::mem;
use td_cdcl::{ClauseNumber, Literal, Proof, literal_at, opposite, read, small, variable_of};

/// Clauses, what their variables say, and why they hold.
#[derive(Drop)]
pub struct Log {
    alloc: Global,
    pub proof: Proof,
    pub meanings: Vec<Meaning>,
    pub record: Record,
    pub settled: Settled,
    // The variables of spans; by the number of inputs, those that count them.
    spans: Spans,
    counts: Vec<Vec<Option<u32>>>,
}

/// What a worker did since it last handed it over.
#[derive(Drop)]
pub struct Steps {
    proof: Proof,
    record: Record,
}

/// A worker's clauses and variables by their numbers in the log.
#[derive(Clone, Drop)]
pub struct Names {
    // The clauses before this one have the same number there.
    first: ClauseNumber,
    clauses: Vec<ClauseNumber>,
    variables: Vec<u32>,
}

impl Steps {
    /// Takes over what a worker did.
    pub fn of(alloc: Global, search: &mut Search<'_>) -> Steps {
        Steps {
            proof: search.solver.hand_over(),
            record: mem::replace(&mut search.record, Record::new(alloc)),
        }
    }
}

impl Names {
    /// Those of the worker whose log it is so far. The error is out of memory.
    pub fn of(alloc: Global, log: &Log) -> Result<Names, AllocError> {
        let mut variables = Vec::with_capacity(alloc, log.meanings.len())?;
        for variable in 0..small(log.meanings.len()) {
            variables.push(variable)?;
        }
        Ok(Names {
            first: log.proof.next(),
            clauses: Vec::new(alloc),
            variables,
        })
    }

    /// The number of a clause in the log.
    pub fn clause(&self, own: ClauseNumber) -> ClauseNumber {
        match own.checked_sub(self.first) {
            Some(place) => read(&self.clauses, place as usize, 0),
            None => own,
        }
    }

    fn literal(&self, own: Literal) -> Literal {
        let variable = read(&self.variables, variable_of(own) as usize, 0);
        literal_at(variable, own % 2 == 0)
    }

    fn literals(&self, alloc: Global, own: &[Literal]) -> Result<Vec<Literal>, AllocError> {
        let mut literals = Vec::with_capacity(alloc, own.len())?;
        for literal in own {
            literals.push(self.literal(*literal))?;
        }
        Ok(literals)
    }

    // What holds, where the links stand after so many.
    fn holds(&self, alloc: Global, own: &[Holds], links: u32) -> Result<Vec<Holds>, AllocError> {
        let mut holds = Vec::with_capacity(alloc, own.len())?;
        for held in own {
            holds.push(match held {
                Holds::Literal(literal) => Holds::Literal(self.literal(*literal)),
                Holds::Link(link) => Holds::Link(link.saturating_add(links)),
            })?;
        }
        Ok(holds)
    }
}

impl Log {
    /// Nothing of so many nets. The error is out of memory.
    pub fn new(alloc: Global, nets: usize) -> Result<Log, AllocError> {
        Ok(Log {
            alloc,
            proof: Proof::new(alloc),
            meanings: Vec::new(alloc),
            record: Record::new(alloc),
            settled: Settled::new(alloc, nets)?,
            spans: Spans::new(alloc, nets)?,
            counts: Vec::new(alloc),
        })
    }

    /// The log of the first worker, which hands it over. The error is out of memory.
    pub fn of(alloc: Global, search: &mut Search<'_>) -> Result<Log, AllocError> {
        let meanings = Vec::from_slice(alloc, &search.meanings)?;
        let settled = search.settled.clone()?;
        let spans = search.spans.clone()?;
        let mut counts = Vec::new(alloc);
        for literals in &search.counter {
            let mut own = Vec::new(alloc);
            for literal in literals {
                own.push(Some(variable_of(*literal)))?;
            }
            counts.push(own)?;
        }
        let Steps { proof, record } = Steps::of(alloc, search);
        Ok(Log {
            alloc,
            proof,
            meanings,
            record,
            settled,
            spans,
            counts,
        })
    }

    /// How much memory it takes, in words of 4 bytes, about.
    pub fn words(&self) -> u64 {
        let variables = (self.meanings.len() as u64).saturating_mul(16);
        self.proof
            .words()
            .saturating_add(self.record.words())
            .saturating_add(variables)
    }

    // The variable that says this, if there is one.
    fn find(&self, meaning: Meaning) -> Option<u32> {
        match meaning {
            Meaning::First(net) => variable_in(self.settled.literal(net, false)),
            Meaning::Last(net) => variable_in(self.settled.literal(net, true)),
            Meaning::Span(span) | Meaning::Forgotten(span) => self.spans.find(span),
            Meaning::Differ { inputs, at_least } => {
                let counts = self.counts.get(inputs as usize)?;
                read(counts, at_least as usize, None)
            }
        }
    }

    // The variable that says this, made where it isn't there.
    fn variable(&mut self, meaning: Meaning) -> Result<u32, AllocError> {
        if let Some(variable) = self.find(meaning) {
            return Ok(variable);
        }
        let variable = small(self.meanings.len());
        self.meanings.push(meaning)?;
        match meaning {
            Meaning::First(net) => self.settled.set(net, false, literal_at(variable, true)),
            Meaning::Last(net) => self.settled.set(net, true, literal_at(variable, true)),
            Meaning::Span(span) | Meaning::Forgotten(span) => {
                self.spans.insert(span, variable)?;
            }
            Meaning::Differ { inputs, at_least } => {
                self.count(inputs as usize, at_least as usize, variable)?;
            }
        }
        Ok(variable)
    }

    fn count(&mut self, inputs: usize, at_least: usize, variable: u32) -> Result<(), AllocError> {
        for _ in self.counts.len()..inputs.saturating_add(1) {
            self.counts.push(Vec::new(self.alloc))?;
        }
        if let Some(own) = self.counts.get_mut(inputs) {
            own.resize(at_least.saturating_add(1).max(own.len()), None)?;
            td_cdcl::write_at(own, at_least, Some(variable));
        }
        Ok(())
    }

    /// Takes in what a worker did, whose variables say these. Answers the numbers of its
    /// explanations. The error is out of memory.
    pub fn take_in(
        &mut self,
        names: &mut Names,
        meanings: &[Meaning],
        steps: Steps,
    ) -> Result<Vec<ClauseNumber>, AllocError> {
        for meaning in meanings.iter().skip(names.variables.len()) {
            let variable = self.variable(*meaning)?;
            names.variables.push(variable)?;
        }
        let Steps { proof, record } = steps;
        let links = small(self.record.links.len());
        for link in &record.links {
            let holds = names.holds(self.alloc, &link.holds, links)?;
            let span = link.span;
            self.record.link(Link { span, holds })?;
        }
        let mut notes = record.notes;
        notes.reverse();
        let mut explanations = Vec::new(self.alloc);
        for number in proof.first()..proof.next() {
            let literals = names.literals(self.alloc, proof.literals(number))?;
            let name = if proof.is_given(number) {
                let note = notes.pop();
                let explains = is_explanation(&note);
                let name = self.give(&literals, note, names, links)?;
                if explains {
                    explanations.push(name)?;
                }
                name
            } else {
                self.learn(&literals, proof.hints(number), names)?
            };
            names.clauses.push(name)?;
        }
        Ok(explanations)
    }

    // Takes in a clause that was given. Answers its number.
    fn give(
        &mut self,
        literals: &[Literal],
        note: Option<Note>,
        names: &Names,
        links: u32,
    ) -> Result<ClauseNumber, AllocError> {
        let Some(Note::Given(_, axiom)) = note else {
            return Err(AllocError);
        };
        let axiom = match axiom {
            Axiom::Told(number) => return Ok(number),
            Axiom::Gate(net, holds) => Axiom::Gate(net, names.holds(self.alloc, &holds, links)?),
            other => other,
        };
        let name = self.proof.next();
        self.record.add(Note::Given(name, axiom))?;
        self.proof.give(literals)
    }

    fn learn(
        &mut self,
        literals: &[Literal],
        hints: &[ClauseNumber],
        names: &Names,
    ) -> Result<ClauseNumber, AllocError> {
        let mut own = Vec::with_capacity(self.alloc, hints.len())?;
        for hint in hints {
            own.push(names.clause(*hint))?;
        }
        self.proof.learn(literals, &own)
    }

    /// The literal that says that a bit has its level, if it has a variable.
    pub fn bit(&self, bit: CubeBit) -> Option<Literal> {
        match self.settled.literal(bit.net, bit.is_last) {
            Some(literal) => Some(at_level(literal, bit.level)),
            None => None,
        }
    }

    /// Whether a clause names a bit: it says something only where the bit has its level.
    pub fn names(&self, clause: ClauseNumber, bit: CubeBit) -> bool {
        match self.bit(bit) {
            Some(literal) => self.proof.literals(clause).contains(&opposite(literal)),
            None => false,
        }
    }

    /// Joins the lemmas of both levels of a bit. Answers the number of the one that follows. The
    /// error is out of memory.
    pub fn join(
        &mut self,
        one: ClauseNumber,
        other: ClauseNumber,
        bit: CubeBit,
    ) -> Result<ClauseNumber, AllocError> {
        let split = variable_in(self.bit(bit));
        let mut literals = Vec::new(self.alloc);
        for lemma in [one, other] {
            for literal in self.proof.literals(lemma) {
                if Some(variable_of(*literal)) != split {
                    literals.push(*literal)?;
                }
            }
        }
        literals.sort_unstable();
        literals.dedup();
        self.proof.learn(&literals, &[one, other])
    }
}

// Whether a clause was given to explain a span.
fn is_explanation(note: &Option<Note>) -> bool {
    match note {
        Some(Note::Given(_, Axiom::Gate(_, _))) => true,
        _ => false,
    }
}

fn variable_in(literal: Option<Literal>) -> Option<u32> {
    match literal {
        Some(literal) => Some(variable_of(literal)),
        None => None,
    }
}
