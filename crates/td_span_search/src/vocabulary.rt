//! Literals of spans, made where they aren't there.

use crate::record::Axiom;
use crate::search::{Meaning, Search};
use crate::span::Span;
use crate::spans::{at_or_after, at_or_before};
use std::alloc::AllocError;
use td_cdcl::{Literal, opposite};

/// Clauses of two literals each.
type Pairs = Vec<[Literal; 2]>;

impl<'a> Search<'a> {
    /// Adds literals that say a span together to a body. The error is out of memory.
    pub(crate) fn say(&mut self, span: Span, body: &mut Vec<Literal>) -> Result<(), AllocError> {
        if span.net < 2 {
            return Ok(());
        }
        let span = self.reach.normal(span);
        let times = self.reach.times(span.net);
        if span.is_endless() && span.first >= times.end(span.level) {
            body.push(self.last(span.net, span.level)?)?;
        } else if span.first == 0 && span.last <= times.early {
            body.push(self.first(span.net, span.level)?)?;
        } else if span.net < self.network.first_gate() {
            body.push(self.last(span.net, span.level)?)?;
            body.push(self.first(span.net, span.level)?)?;
        } else {
            body.push(Self::positive(self.span(span)?))?;
        }
        Ok(())
    }

    /// The variable of a span in its normal form, made with clauses to its neighbours where it
    /// isn't there. The error is out of memory.
    pub(crate) fn span(&mut self, span: Span) -> Result<u32, AllocError> {
        if let Some(variable) = self.spans.find(span) {
            return Ok(variable);
        }
        let variable = self.add_variable(Meaning::Span(span))?;
        let literal = Self::positive(variable);
        let mut clauses: Pairs = Vec::new(self.alloc);
        if span.is_endless() {
            self.tie_late(span, literal, &mut clauses)?;
        } else if span.first == 0 {
            self.tie_early(span, literal, &mut clauses)?;
        } else {
            self.tie_middle(span, literal, &mut clauses)?;
        }
        self.spans.insert(span, variable)?;
        for clause in &clauses {
            self.add(clause, Axiom::Net)?;
        }
        Ok(variable)
    }

    // A span that never ends follows from an earlier one and leads to a later one, the last of all
    // to the last level; it excludes those at the other level that go on into it.
    fn tie_late(
        &mut self,
        span: Span,
        literal: Literal,
        clauses: &mut Pairs,
    ) -> Result<(), AllocError> {
        let own = self.spans.of(span.net, span.level);
        let other = self.spans.of(span.net, !span.level);
        if let Some(entry) = at_or_before(&own.late, span.first) {
            clauses.push([opposite(Self::positive(entry.variable)), literal])?;
        }
        let next = at_or_after(&own.late, span.first);
        if let Some(entry) = at_or_after(&other.early, span.first) {
            let excluded = opposite(Self::positive(entry.variable));
            clauses.push([opposite(literal), excluded])?;
        }
        if span.first == 0 {
            if let Some(entry) = own.early.last().copied() {
                clauses.push([opposite(literal), Self::positive(entry.variable)])?;
            }
            let first = self.first(span.net, span.level)?;
            clauses.push([opposite(literal), first])?;
        }
        let follows = match next {
            Some(entry) => Self::positive(entry.variable),
            None => self.last(span.net, span.level)?,
        };
        clauses.push([opposite(literal), follows])?;
        Ok(())
    }

    // A span from place 0 on follows from a longer one and leads to a shorter one, the shortest of
    // all to the first level; it excludes those at the other level that begin within it.
    fn tie_early(
        &mut self,
        span: Span,
        literal: Literal,
        clauses: &mut Pairs,
    ) -> Result<(), AllocError> {
        let own = self.spans.of(span.net, span.level);
        let other = self.spans.of(span.net, !span.level);
        let shorter = at_or_before(&own.early, span.last);
        let longer = match at_or_after(&own.early, span.last) {
            Some(entry) => Some(entry),
            None => at_or_before(&own.late, 0),
        };
        if let Some(entry) = longer {
            clauses.push([opposite(Self::positive(entry.variable)), literal])?;
        }
        if let Some(entry) = at_or_before(&other.late, span.last) {
            let excluded = opposite(Self::positive(entry.variable));
            clauses.push([opposite(literal), excluded])?;
        }
        let follows = match shorter {
            Some(entry) => Self::positive(entry.variable),
            None => self.first(span.net, span.level)?,
        };
        clauses.push([opposite(literal), follows])?;
        Ok(())
    }

    // Another span follows from those that contain it, and is excluded by those at the other level
    // that meet it.
    fn tie_middle(
        &mut self,
        span: Span,
        literal: Literal,
        clauses: &mut Pairs,
    ) -> Result<(), AllocError> {
        let own = self.spans.of(span.net, span.level);
        let other = self.spans.of(span.net, !span.level);
        if let Some(entry) = at_or_before(&own.late, span.first) {
            clauses.push([opposite(Self::positive(entry.variable)), literal])?;
        }
        if let Some(entry) = at_or_before(&other.late, span.last) {
            let excluded = opposite(Self::positive(entry.variable));
            clauses.push([excluded, opposite(literal)])?;
        }
        if let Some(entry) = at_or_after(&own.early, span.last) {
            clauses.push([opposite(Self::positive(entry.variable)), literal])?;
        }
        if let Some(entry) = at_or_after(&other.early, span.first) {
            let excluded = opposite(Self::positive(entry.variable));
            clauses.push([excluded, opposite(literal)])?;
        }
        Ok(())
    }
}
