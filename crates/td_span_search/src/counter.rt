//! The clauses of pins, held inputs and flips.

use crate::levels::at_level;
use crate::record::Axiom;
use crate::search::{Meaning, Search};
use std::alloc::AllocError;
use td_cdcl::{Literal, opposite, small, variable_of};

impl<'a> Search<'a> {
    /// Makes the variable of an input's first or last bit, with the clauses of the pins, and where
    /// both bits have one, that the input is still, or counts where it differs. The error is out of
    /// memory.
    pub(crate) fn settle_input(&mut self, input: usize, is_last: bool) -> Result<(), AllocError> {
        self.add_bit(input, is_last)?;
        if self.wants_other_bit(input, is_last) {
            self.add_bit(input, !is_last)?;
        }
        let net = self.network.net_of_input(input);
        let (Some(before), Some(after)) = (
            self.settled_literal(net, false),
            self.settled_literal(net, true),
        ) else {
            return Ok(());
        };
        self.relate_bits(input, before, after)
    }

    // The variable of a bit, which is decided first as the best pair has it.
    fn add_bit(&mut self, input: usize, is_last: bool) -> Result<(), AllocError> {
        let net = self.network.net_of_input(input);
        let literal = self.add_level(net, is_last)?;
        let (first, second) = self.best.pair.bits(input);
        let variable = variable_of(literal);
        self.solver
            .set_phase(variable, if is_last { second } else { first });
        self.inputs.push(variable)?;
        let (known, next) = self.admitted.known(input);
        match if is_last { next } else { known } {
            Some(level) => self.add(&[at_level(literal, level)], Axiom::Admitted),
            None => Ok(()),
        }
    }

    // Whether the other bit of an input is pinned, and needed so that the input is counted.
    fn wants_other_bit(&self, input: usize, is_last: bool) -> bool {
        let (first, second) = self.admitted.pins(input);
        let net = self.network.net_of_input(input);
        self.admitted.counts()
            && !self.admitted.is_still(input)
            && (if is_last { first } else { second }).is_some()
            && self.settled_literal(net, !is_last).is_none()
    }

    fn relate_bits(
        &mut self,
        input: usize,
        before: Literal,
        after: Literal,
    ) -> Result<(), AllocError> {
        if self.admitted.differs(input) {
            return Ok(());
        }
        if self.admitted.is_still(input) {
            self.add(&[opposite(before), after], Axiom::Admitted)?;
            return self.add(&[before, opposite(after)], Axiom::Admitted);
        }
        if self.admitted.counts() {
            self.make_counter()?;
            return self.count_input(input, before, after);
        }
        Ok(())
    }

    // Where an input's bits differ, it counts for one more.
    fn count_input(
        &mut self,
        input: usize,
        before: Literal,
        after: Literal,
    ) -> Result<(), AllocError> {
        let count = self.counted(input.saturating_add(1)).len();
        for place in 0..count {
            let Some(more) = self.counted_at(input.saturating_add(1), place) else {
                return Ok(());
            };
            for rises in [false, true] {
                let mut clause = Vec::new(self.alloc);
                if let Some(fewer) = place.checked_sub(1) {
                    if let Some(count) = self.counted_at(input, fewer) {
                        clause.push(opposite(count))?;
                    }
                }
                clause.push(at_level(before, rises))?;
                clause.push(at_level(after, !rises))?;
                clause.push(more)?;
                self.add(&clause, Axiom::Admitted)?;
            }
        }
        Ok(())
    }

    fn counted(&self, inputs: usize) -> &[Literal] {
        match self.counter.get(inputs) {
            Some(literals) => literals,
            None => &[],
        }
    }

    fn counted_at(&self, inputs: usize, place: usize) -> Option<Literal> {
        self.counted(inputs).get(place).copied()
    }

    // The variables that count the inputs that differ, all at once: what so many inputs count,
    // more of them do; one whose pins differ counts; and more than may don't.
    fn make_counter(&mut self) -> Result<(), AllocError> {
        if !self.counter.is_empty() {
            return Ok(());
        }
        self.counter.push(Vec::new(self.alloc))?;
        for input in 0..self.network.inputs() {
            let inputs = input.saturating_add(1);
            let most = inputs.min(self.admitted.flips.saturating_add(1));
            let mut literals = Vec::new(self.alloc);
            for place in 0..most {
                let variable = self.add_variable(Meaning::Differ {
                    inputs: small(inputs),
                    at_least: small(place).saturating_add(1),
                })?;
                literals.push(Self::positive(variable))?;
            }
            self.counter.push(literals)?;
            for place in 0..most {
                self.chain_count(input, place)?;
            }
            if most > self.admitted.flips {
                if let Some(too_many) = self.counted_at(inputs, self.admitted.flips) {
                    self.add(&[opposite(too_many)], Axiom::Admitted)?;
                }
            }
        }
        Ok(())
    }

    fn chain_count(&mut self, input: usize, place: usize) -> Result<(), AllocError> {
        let Some(more) = self.counted_at(input.saturating_add(1), place) else {
            return Ok(());
        };
        if let Some(same) = self.counted_at(input, place) {
            self.add(&[opposite(same), more], Axiom::Admitted)?;
        }
        if !self.admitted.differs(input) {
            return Ok(());
        }
        match place.checked_sub(1) {
            None => self.add(&[more], Axiom::Admitted),
            Some(fewer) => match self.counted_at(input, fewer) {
                Some(count) => self.add(&[opposite(count), more], Axiom::Admitted),
                None => Ok(()),
            },
        }
    }
}
