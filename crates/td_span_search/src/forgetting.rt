//! Spans of closed questions go.

use crate::levels::at_level;
use crate::network::Net;
use crate::record::Axiom;
use crate::search::{Meaning, Search};
use crate::spans::Entry;
use std::alloc::AllocError;
use td_cdcl::{Literal, literal_at, opposite, read, small, variable_of, write_at};

impl<'a> Search<'a> {
    /// Forgets the spans that no question about moments from `from` to `to` needs, where there are
    /// many, with all clauses that have them. The error is out of memory.
    pub(crate) fn forget(&mut self, from: u64, to: u64) -> Result<(), AllocError> {
        self.goals
            .retain(|goal| goal.moment >= from && goal.moment <= to);
        let live = self.live()?;
        let mut left = 0usize;
        let mut dead = 0usize;
        for variable in 0..self.meanings.len() {
            if self.is_span(variable) {
                if read(&live, variable, false) {
                    left = left.saturating_add(1);
                } else if !self.solver.is_fixed(small(variable)) {
                    dead = dead.saturating_add(1);
                }
            }
        }
        if dead < self.limits.dead || dead < left {
            return Ok(());
        }
        self.forget_all_but(&live)
    }

    fn is_span(&self, variable: usize) -> bool {
        match self.meanings.get(variable) {
            Some(Meaning::Span(_)) => true,
            _ => false,
        }
    }

    // By variable whether a goal needs it.
    fn live(&self) -> Result<Vec<bool>, AllocError> {
        let mut live = vec![in self.alloc; false; self.meanings.len()]?;
        let mut open = Vec::new(self.alloc);
        for goal in &self.goals {
            open.push(goal.variable)?;
        }
        for _ in 0..u64::MAX {
            let Some(variable) = open.pop() else {
                return Ok(live);
            };
            if read(&live, variable as usize, true) {
                continue;
            }
            write_at(&mut live, variable as usize, true);
            let Some(bodies) = self.reasons.get(variable as usize) else {
                continue;
            };
            for body in bodies {
                for literal in body {
                    let needed = variable_of(*literal);
                    if !read(&live, needed as usize, true) {
                        open.push(needed)?;
                    }
                }
            }
        }
        Ok(live)
    }

    fn forget_all_but(&mut self, live: &[bool]) -> Result<(), AllocError> {
        let mut is_dead = vec![in self.alloc; false; self.meanings.len()]?;
        for variable in 0..self.meanings.len() {
            let Some(Meaning::Span(span)) = self.meaning(small(variable)) else {
                continue;
            };
            if read(live, variable, true) || self.solver.is_fixed(small(variable)) {
                continue;
            }
            write_at(&mut is_dead, variable, true);
            write_at(&mut self.meanings, variable, Meaning::Forgotten(span));
            let none = Vec::new(self.alloc);
            if let Some(bodies) = self.reasons.get_mut(variable) {
                *bodies = none;
            }
        }
        self.solver.forget(&is_dead)?;
        let mut clauses = Vec::new(self.alloc);
        for net in 2..small(self.network.nets()) {
            for level in [false, true] {
                self.close_gaps(net, level, &is_dead, &mut clauses)?;
            }
        }
        for clause in &clauses {
            self.add(clause, Axiom::Net)?;
        }
        self.cone_of = None;
        Ok(())
    }

    // Drops the dead spans of a net at a level, with a clause for each two that have become
    // neighbours.
    fn close_gaps(
        &mut self,
        net: Net,
        level: bool,
        is_dead: &[bool],
        clauses: &mut Vec<[Literal; 2]>,
    ) -> Result<(), AllocError> {
        let first = self.settled_literal(net, false);
        let last = self.settled_literal(net, true);
        let mut late = Vec::new(self.alloc);
        let mut early = Vec::new(self.alloc);
        if let Some(chain) = self.spans.of_mut(net, level) {
            drop_dead(&mut chain.late, is_dead, &mut late)?;
            drop_dead(&mut chain.early, is_dead, &mut early)?;
            chain
                .middle
                .retain(|entry| !read(is_dead, entry.variable as usize, false));
        }
        for gap in &late {
            let after = gap.after.or(level_literal(last, level));
            add_implication(gap.before, after, clauses)?;
        }
        for gap in &early {
            let before = gap.before.or(level_literal(first, level));
            add_implication(gap.after, before, clauses)?;
        }
        Ok(())
    }
}

/// Where dead spans stood: the literals of those that live before and after.
#[derive(Clone, Copy, Drop)]
struct Gap {
    before: Option<Literal>,
    after: Option<Literal>,
}

fn level_literal(literal: Option<Literal>, level: bool) -> Option<Literal> {
    match literal {
        Some(literal) => Some(at_level(literal, level)),
        None => None,
    }
}

fn add_implication(
    from: Option<Literal>,
    to: Option<Literal>,
    clauses: &mut Vec<[Literal; 2]>,
) -> Result<(), AllocError> {
    if let Some(from) = from {
        if let Some(to) = to {
            clauses.push([opposite(from), to])?;
        }
    }
    Ok(())
}

// Drops the dead entries. Adds a gap for each place where some stood.
fn drop_dead(
    entries: &mut Vec<Entry>,
    is_dead: &[bool],
    gaps: &mut Vec<Gap>,
) -> Result<(), AllocError> {
    let mut before = None;
    let mut is_gap = false;
    for entry in entries.iter() {
        if read(is_dead, entry.variable as usize, false) {
            is_gap = true;
            continue;
        }
        let after = Some(literal_at(entry.variable, true));
        if is_gap {
            gaps.push(Gap { before, after })?;
        }
        is_gap = false;
        before = after;
    }
    if is_gap {
        gaps.push(Gap {
            before,
            after: None,
        })?;
    }
    entries.retain(|entry| !read(is_dead, entry.variable as usize, false));
    Ok(())
}
