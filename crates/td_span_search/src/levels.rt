//! First and last levels: the literals of nets, made with their whole cones, and the clauses of the
//! tables.

use crate::network::{Net, Node};
use crate::record::Axiom;
use crate::search::{Meaning, Search};
use std::alloc::AllocError;
use td_cdcl::{Literal, opposite, read};

// A parity of more inputs has too many clauses; a question that would need them is lost.
const MOST_PARITY: usize = 12;

// The literal that a net is at the level, where this one says that it is at 1.
#[inline(always)]
pub fn at_level(literal: Literal, level: bool) -> Literal {
    if level { literal } else { opposite(literal) }
}

impl<'a> Search<'a> {
    /// The literal that says that a net's last level is this. The error is out of memory.
    pub(crate) fn last(&mut self, net: Net, level: bool) -> Result<Literal, AllocError> {
        Ok(at_level(self.settle(net, true)?, level))
    }

    /// The literal that says that a net's first level is this. The error is out of memory.
    pub(crate) fn first(&mut self, net: Net, level: bool) -> Result<Literal, AllocError> {
        Ok(at_level(self.settle(net, false)?, level))
    }

    // The literal that a net is at 1 at the start or in the end, made with its cone where it isn't
    // there.
    fn settle(&mut self, net: Net, is_last: bool) -> Result<Literal, AllocError> {
        if let Some(literal) = self.settled_literal(net, is_last) {
            return Ok(literal);
        }
        let mut cone = self.open_cone(net, is_last)?;
        cone.sort_unstable();
        for member in &cone {
            if self.settled_literal(*member, is_last).is_none() {
                self.settle_one(*member, is_last)?;
            }
        }
        self.settled_literal(net, is_last).ok_or(AllocError)
    }

    // The nets of a net's cone that have no literal yet.
    fn open_cone(&self, net: Net, is_last: bool) -> Result<Vec<Net>, AllocError> {
        let mut cone = vec![in self.alloc; net; 1]?;
        let mut is_in = vec![in self.alloc; false; net as usize]?;
        for place in 0..self.network.nets() {
            let Some(member) = cone.get(place).copied() else {
                break;
            };
            let Some(node) = self.network.driver(member) else {
                continue;
            };
            for fanin in self.network.fanins(node) {
                if *fanin > 1
                    && self.settled_literal(*fanin, is_last).is_none()
                    && !read(&is_in, *fanin as usize, true)
                {
                    td_cdcl::write_at(&mut is_in, *fanin as usize, true);
                    cone.push(*fanin)?;
                }
            }
        }
        Ok(cone)
    }

    // Makes the literal of a net whose gate's inputs have theirs.
    fn settle_one(&mut self, net: Net, is_last: bool) -> Result<(), AllocError> {
        if let Some(input) = self.network.input_of(net) {
            return self.settle_input(input, is_last);
        }
        if self.is_thin(net) {
            return self.settle_thin(net, is_last);
        }
        let literal = self.add_level(net, is_last)?;
        match self.network.driver(net) {
            Some(node) => self.add_table(net, node, is_last, literal),
            None => Ok(()),
        }
    }

    /// Adds the variable of a net's first or last level. Answers the literal that it is 1. The
    /// error is out of memory.
    pub(crate) fn add_level(&mut self, net: Net, is_last: bool) -> Result<Literal, AllocError> {
        let meaning = if is_last {
            Meaning::Last(net)
        } else {
            Meaning::First(net)
        };
        let literal = Self::positive(self.add_variable(meaning)?);
        self.set_settled(net, is_last, literal);
        Ok(literal)
    }

    // A contracted net has the literal of its source.
    fn settle_thin(&mut self, net: Net, is_last: bool) -> Result<(), AllocError> {
        let Some(node) = self.network.driver(net) else {
            return Ok(());
        };
        let source = read(self.network.fanins(node), 0, 0);
        let Some(literal) = self.settled_literal(source, is_last) else {
            return Err(AllocError);
        };
        self.set_settled(net, is_last, at_level(literal, !node.inverts));
        Ok(())
    }

    // The clauses of a gate's table. A constant has no literal.
    fn add_table(
        &mut self,
        net: Net,
        node: Node,
        is_last: bool,
        output: Literal,
    ) -> Result<(), AllocError> {
        let mut inputs = Vec::new(self.alloc);
        let mut ones = 0usize;
        let mut zeros = 0usize;
        for fanin in self.network.fanins(node) {
            match *fanin {
                0 => zeros = zeros.saturating_add(1),
                1 => ones = ones.saturating_add(1),
                _ => match self.settled_literal(*fanin, is_last) {
                    Some(literal) => inputs.push(literal)?,
                    None => return Err(AllocError),
                },
            }
        }
        let axiom = Table {
            net,
            is_last,
            output,
        };
        match node.control() {
            Some(control) => {
                let controls = if control { ones } else { zeros };
                let settled = at_level(output, control != node.inverts);
                if controls > 0 {
                    return self.add_row(axiom, &[settled]);
                }
                self.add_control(axiom, control, settled, &inputs)
            }
            None => self.add_parity(axiom, node.inverts != (ones % 2 == 1), &inputs),
        }
    }

    fn add_row(&mut self, table: Table, row: &[Literal]) -> Result<(), AllocError> {
        self.add(row, Axiom::Table(table.net, table.is_last))
    }

    // An input at its controlling level settles the output, and so do all inputs at the other one.
    fn add_control(
        &mut self,
        table: Table,
        control: bool,
        settled: Literal,
        inputs: &[Literal],
    ) -> Result<(), AllocError> {
        let mut all = Vec::new(self.alloc);
        for input in inputs {
            let controls = at_level(*input, control);
            self.add_row(table, &[opposite(controls), settled])?;
            all.push(controls)?;
        }
        all.push(opposite(settled))?;
        self.add_row(table, &all)
    }

    // A clause for each row of the table: the output is at 1 where an odd number of inputs is, or
    // an even one where it is inverted.
    fn add_parity(
        &mut self,
        table: Table,
        is_inverted: bool,
        inputs: &[Literal],
    ) -> Result<(), AllocError> {
        if inputs.len() > MOST_PARITY {
            self.is_lost = true;
            return Ok(());
        }
        for row in 0..1u32 << inputs.len() {
            let mut clause = Vec::new(self.alloc);
            let mut parity = is_inverted;
            for (place, input) in inputs.iter().enumerate() {
                let bit = (row >> (place % 32)) % 2 == 1;
                parity = parity != bit;
                clause.push(at_level(*input, !bit))?;
            }
            clause.push(at_level(table.output, parity))?;
            self.add_row(table, &clause)?;
        }
        Ok(())
    }
}

/// A gate's table of first or of last levels, with the literal that its output is at 1.
#[derive(Clone, Copy, Drop)]
struct Table {
    net: Net,
    is_last: bool,
    output: Literal,
}
