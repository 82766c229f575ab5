//! The steps of a bound, spelled from what it needs: contracted nets have steps of their own.

use crate::levels::at_level;
use crate::network::{Net, Node};
use crate::record::{Axiom, Holds, Kept, Note};
use crate::refutation::{Refutation, Step};
use crate::renumbering::renumbered;
use crate::search::Meaning;
use crate::source::Source;
use crate::steps::{Named, Spelling, level_place, settled_place};
use crate::trim::{Mark, Trim};
use std::alloc::{AllocError, Global};
use td_cdcl::{ClauseNumber, Literal, opposite, read, small, write_at};

// The clause that says a literal, where those of the body are true.
pub(crate) fn clause_of(
    alloc: Global,
    literal: Literal,
    body: &[Literal],
) -> Result<Vec<Literal>, AllocError> {
    let mut clause = Vec::new(alloc);
    clause.push(literal)?;
    for given in body {
        clause.push(opposite(*given))?;
    }
    Ok(clause)
}

impl<'b> Source<'b> {
    /// Steps that show that no output changes after the bound, which is `top` at least. The error
    /// is out of memory.
    pub fn refutation(&self, bound: u64) -> Result<Refutation, AllocError> {
        let trim = self.trim(bound)?;
        let clauses = self.proof.len();
        let mut spelling = Spelling::new(
            self.alloc,
            self.meanings,
            self.network.nets(),
            clauses,
            self.record.links.len(),
        )?;
        let mut mark = 0usize;
        for number in 0..clauses.saturating_add(1) {
            mark = self.spell_marks(number, mark, &trim, &mut spelling)?;
            self.spell_clause(number, &trim, &mut spelling)?;
        }
        let Spelling {
            meanings,
            steps,
            ..
        } = spelling;
        renumbered(self.alloc, &meanings, steps, self.contradiction.is_some())
    }

    // Spells the lowered ends before a clause. Answers the place of the next one.
    fn spell_marks(
        &self,
        number: usize,
        first: usize,
        trim: &Trim,
        spelling: &mut Spelling,
    ) -> Result<usize, AllocError> {
        let mut again = None;
        for place in first..trim.marks.len() {
            let mark = trim.marks[place];
            if mark.before as usize > number {
                return Ok(place);
            }
            if !mark.is_needed {
                continue;
            }
            match mark.lemma {
                Some(lemma) => {
                    self.spell_end(mark, lemma, trim, spelling)?;
                    again = None;
                }
                None => {
                    if again != Some(mark.net) {
                        spelling.steps.push(Step::Again(mark.net))?;
                    }
                    again = Some(mark.net);
                }
            }
        }
        Ok(trim.marks.len())
    }

    // A lemma that one end alone needs stands in the step of the end.
    fn is_fused(&self, number: ClauseNumber, trim: &Trim) -> bool {
        !self.proof.is_given(number)
            && !read(&trim.is_hint, number as usize, false)
            && read(&trim.ends, number as usize, 0) == 1
    }

    fn spell_end(
        &self,
        mark: Mark,
        lemma: ClauseNumber,
        trim: &Trim,
        spelling: &mut Spelling,
    ) -> Result<(), AllocError> {
        let proof = self.proof;
        let hints = if self.is_fused(lemma, trim) {
            self.named(proof.hints(lemma), spelling)?
        } else {
            self.named(&[lemma], spelling)?
        };
        spelling.steps.push(Step::End {
            net: mark.net,
            level: mark.level,
            place: mark.place,
            clause: Vec::from_slice(self.alloc, proof.literals(lemma))?,
            hints,
        })?;
        Ok(())
    }

    // The numbers of clauses of the proof among the steps.
    fn named(
        &self,
        numbers: &[ClauseNumber],
        spelling: &Spelling,
    ) -> Result<Vec<ClauseNumber>, AllocError> {
        let mut names = Vec::new(self.alloc);
        for number in numbers {
            names.push(read(&spelling.names, *number as usize, 0))?;
        }
        Ok(names)
    }

    fn spell_clause(
        &self,
        number: usize,
        trim: &Trim,
        spelling: &mut Spelling,
    ) -> Result<(), AllocError> {
        let clause = small(number);
        if !read(&trim.is_needed, number, false) || self.is_fused(clause, trim) {
            return Ok(());
        }
        let proof = self.proof;
        let name = if proof.is_given(clause) {
            self.spell_given(clause, trim, spelling)?
        } else {
            let literals = Vec::from_slice(self.alloc, proof.literals(clause))?;
            let hints = self.named(proof.hints(clause), spelling)?;
            spelling.add(Step::Lemma(literals, hints))?
        };
        write_at(&mut spelling.names, number, name);
        Ok(())
    }

    fn spell_given(
        &self,
        number: ClauseNumber,
        trim: &Trim,
        spelling: &mut Spelling,
    ) -> Result<ClauseNumber, AllocError> {
        let Some(place) = read(&trim.notes, number as usize, None) else {
            return Err(AllocError);
        };
        let literals = self.proof.literals(number);
        match self.record.notes.get(place as usize) {
            Some(Note::Given(_, Axiom::Gate(_, holds))) => {
                self.spell_gate(literals, holds, spelling)
            }
            Some(Note::Given(_, Axiom::Table(net, is_last))) => {
                self.spell_table(literals, *net, *is_last, spelling)
            }
            Some(Note::Given(_, Axiom::Kept(kept))) => self.spell_kept(literals, *kept, spelling),
            Some(Note::Given(_, Axiom::Net)) => {
                let clause = Vec::from_slice(self.alloc, literals)?;
                spelling.add(Step::Net(clause))
            }
            _ => {
                let clause = Vec::from_slice(self.alloc, literals)?;
                spelling.add(Step::Pairs(clause))
            }
        }
    }

    // A clause of a gate: those of the contracted nets first, and last the search's own, which
    // follows from them.
    fn spell_gate(
        &self,
        literals: &[Literal],
        holds: &[Holds],
        spelling: &mut Spelling,
    ) -> Result<ClauseNumber, AllocError> {
        let mut used = Vec::new(self.alloc);
        self.spell_links(holds, spelling, &mut used)?;
        let body = spelling.body(holds)?;
        let head = read(literals, literals.len().saturating_sub(1), 0);
        let name = spelling.add(Step::Gate(clause_of(self.alloc, head, &body)?))?;
        self.join(name, used, literals, spelling)
    }

    // Spells the links on which something rests, each after those on which it rests.
    fn spell_links(
        &self,
        holds: &[Holds],
        spelling: &mut Spelling,
        used: &mut Vec<ClauseNumber>,
    ) -> Result<(), AllocError> {
        let mut links = Vec::new(self.alloc);
        add_links(holds, &mut links)?;
        for place in 0..self.record.links.len() {
            let Some(link) = links.get(place).copied() else {
                break;
            };
            if let Some(own) = self.record.links.get(link as usize) {
                add_links(&own.holds, &mut links)?;
            }
        }
        links.sort_unstable();
        links.dedup();
        for link in &links {
            if read(&spelling.links, *link as usize, None).is_none() {
                self.spell_link(*link, spelling)?;
            }
            if let Some(named) = read(&spelling.links, *link as usize, None) {
                used.push(named.name)?;
            }
        }
        Ok(())
    }

    fn spell_link(&self, place: u32, spelling: &mut Spelling) -> Result<(), AllocError> {
        let Some(link) = self.record.links.get(place as usize) else {
            return Ok(());
        };
        let body = spelling.body(&link.holds)?;
        let literal = spelling.span_literal(link.span)?;
        let name = spelling.give(literal, body)?;
        write_at(
            &mut spelling.links,
            place as usize,
            Some(Named { literal, name }),
        );
        Ok(())
    }

    // A clause over the search's variables alone, where contracted nets had a part in it.
    fn join(
        &self,
        name: ClauseNumber,
        used: Vec<ClauseNumber>,
        literals: &[Literal],
        spelling: &mut Spelling,
    ) -> Result<ClauseNumber, AllocError> {
        if used.is_empty() {
            return Ok(name);
        }
        let mut hints = used;
        hints.push(name)?;
        let clause = Vec::from_slice(self.alloc, literals)?;
        spelling.add(Step::Lemma(clause, hints))
    }

    // A clause of a gate's table, likewise.
    fn spell_table(
        &self,
        literals: &[Literal],
        net: Net,
        is_last: bool,
        spelling: &mut Spelling,
    ) -> Result<ClauseNumber, AllocError> {
        let Some(node) = self.network.driver(net) else {
            return Err(AllocError);
        };
        let last = literals.len().saturating_sub(1);
        let head = read(literals, last, 0);
        let mut used = Vec::new(self.alloc);
        let mut clause = vec![in self.alloc; head; 1]?;
        for fanin in self.network.fanins(node) {
            let Some(own) = self.settled_literal(*fanin, is_last) else {
                continue;
            };
            for level in [false, true] {
                let denied = opposite(at_level(own, level));
                if literals.iter().take(last).any(|it| *it == denied) {
                    let said = self.spell_level(*fanin, is_last, level, spelling, &mut used)?;
                    clause.push(opposite(said))?;
                }
            }
        }
        let name = spelling.add(Step::Table(clause))?;
        self.join(name, used, literals, spelling)
    }

    // A clause of a condition, likewise: the step names the condition's net.
    fn spell_kept(
        &self,
        literals: &[Literal],
        kept: Kept,
        spelling: &mut Spelling,
    ) -> Result<ClauseNumber, AllocError> {
        let mut used = Vec::new(self.alloc);
        let mut clause = Vec::new(self.alloc);
        if let Some(level) = kept.first {
            let denied = self.spell_level(kept.net, false, !level, spelling, &mut used)?;
            clause.push(opposite(denied))?;
        }
        if let Some(level) = kept.last {
            let denied = self.spell_level(kept.net, true, !level, spelling, &mut used)?;
            clause.push(opposite(denied))?;
        }
        let name = spelling.add(Step::Keep(clause))?;
        self.join(name, used, literals, spelling)
    }

    // The literal that a net is at a level at the start or in the end; of a contracted net its own,
    // with the clauses that give it from its source's.
    fn spell_level(
        &self,
        net: Net,
        is_last: bool,
        level: bool,
        spelling: &mut Spelling,
        used: &mut Vec<ClauseNumber>,
    ) -> Result<Literal, AllocError> {
        let mut chain = Vec::new(self.alloc);
        let mut source = net;
        for _ in 0..self.network.nets() {
            if !self.network.is_thin(source) {
                break;
            }
            chain.push(source)?;
            if let Some(node) = self.network.driver(source) {
                source = source_of(self.network.fanins(node));
            }
        }
        let mut here = level;
        for member in &chain {
            here = here != self.is_inverting(*member);
        }
        let Some(positive) = self.settled_literal(source, is_last) else {
            return Err(AllocError);
        };
        let mut literal = at_level(positive, here);
        for member in chain.iter().rev() {
            here = here != self.is_inverting(*member);
            literal = spelling.spell_thin(*member, is_last, here, literal, used)?;
        }
        Ok(literal)
    }

    fn is_inverting(&self, net: Net) -> bool {
        match self.network.driver(net) {
            Some(Node { inverts, .. }) => inverts,
            None => false,
        }
    }
}

fn source_of(fanins: &[Net]) -> Net {
    read(fanins, 0, 0)
}

fn add_links(holds: &[Holds], links: &mut Vec<u32>) -> Result<(), AllocError> {
    for held in holds {
        if let Holds::Link(link) = held {
            links.push(*link)?;
        }
    }
    Ok(())
}

impl Spelling {
    // The literal that a contracted net is at a level, given by that of the net before it.
    fn spell_thin(
        &mut self,
        net: Net,
        is_last: bool,
        level: bool,
        given: Literal,
        used: &mut Vec<ClauseNumber>,
    ) -> Result<Literal, AllocError> {
        let positive = match read(&self.levels, level_place(net, is_last), None) {
            Some(literal) => literal,
            None => {
                let meaning = if is_last {
                    Meaning::Last(net)
                } else {
                    Meaning::First(net)
                };
                let literal = self.own_variable(meaning)?;
                write_at(&mut self.levels, level_place(net, is_last), Some(literal));
                literal
            }
        };
        let literal = at_level(positive, level);
        let place = settled_place(net, is_last, level);
        let name = match read(&self.settled, place, None) {
            Some(name) => name,
            None => {
                let clause = clause_of(self.alloc, literal, &[given])?;
                let name = self.add(Step::Table(clause))?;
                write_at(&mut self.settled, place, Some(name));
                name
            }
        };
        used.push(name)?;
        Ok(literal)
    }
}
