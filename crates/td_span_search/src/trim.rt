//! Which clauses and lowered ends a bound needs, found backwards from the outputs' ends.

use crate::record::{Axiom, Note};
use crate::search::Meaning;
use crate::source::Source;
use std::alloc::{AllocError, Global};
use td_cdcl::{ClauseNumber, read, small, variable_of, write_at};

/// A lowered end, which stands before a clause of the proof.
#[derive(Clone, Copy, Drop)]
pub struct Mark {
    pub before: ClauseNumber,
    pub net: u32,
    pub level: bool,
    pub place: u64,
    /// The lemma that shows it; none where the ends of the gate's inputs do.
    pub lemma: Option<ClauseNumber>,
    pub is_needed: bool,
}

/// What a bound needs.
#[derive(Drop)]
pub struct Trim {
    /// By clause of the proof.
    pub is_needed: Vec<bool>,
    /// By clause of the proof: whether a clause that is needed has it as a hint.
    pub is_hint: Vec<bool>,
    /// By clause of the proof: how many ends that are needed it shows.
    pub ends: Vec<u32>,
    pub marks: Vec<Mark>,
    /// By clause of the proof: the place of its note, none for a lemma.
    pub notes: Vec<Option<u32>>,
    // By twice the net, and one more for level 1: whether an end is needed.
    wants: Vec<bool>,
    // Likewise: the place of the first mark that is enough for the bound, of an output whose first
    // end isn't.
    enough: Vec<Option<usize>>,
}

// The place of an end of a net in tables by net and level.
fn place_of(net: u32, level: bool) -> usize {
    (net as usize)
        .saturating_mul(2)
        .saturating_add(usize::from(level))
}

impl Trim {
    fn new(alloc: Global, clauses: usize, nets: usize) -> Result<Trim, AllocError> {
        let ends = nets.saturating_mul(2);
        Ok(Trim {
            is_needed: vec![in alloc; false; clauses]?,
            is_hint: vec![in alloc; false; clauses]?,
            ends: vec![in alloc; 0u32; clauses]?,
            marks: Vec::new(alloc),
            notes: vec![in alloc; None; clauses]?,
            wants: vec![in alloc; false; ends]?,
            enough: vec![in alloc; None; ends]?,
        })
    }

    fn want(&mut self, net: u32, level: bool) {
        write_at(&mut self.wants, place_of(net, level), true);
    }

    // Sorts the notes: marks in their order, and by clause its note.
    fn sort_notes(&mut self, notes: &[Note]) -> Result<(), AllocError> {
        for (place, note) in notes.iter().enumerate() {
            match note {
                Note::Given(number, _) => write_at(
                    &mut self.notes,
                    *number as usize,
                    Some(small(place)),
                ),
                Note::Lowered {
                    before,
                    net,
                    level,
                    place,
                    lemma,
                } => self.marks.push(Mark {
                    before: *before,
                    net: *net,
                    level: *level,
                    place: *place,
                    lemma: Some(*lemma),
                    is_needed: false,
                })?,
                Note::Again {
                    before,
                    net,
                    level,
                    place,
                } => self.marks.push(Mark {
                    before: *before,
                    net: *net,
                    level: *level,
                    place: *place,
                    lemma: None,
                    is_needed: false,
                })?,
            }
        }
        Ok(())
    }

    // Finds the first mark of each end that is enough for the bound.
    fn find_enough(&mut self, bound: u64) {
        for place in (0..self.marks.len()).rev() {
            let mark = self.marks[place];
            if mark.place <= bound.saturating_add(1) {
                write_at(
                    &mut self.enough,
                    place_of(mark.net, mark.level),
                    Some(place),
                );
            }
        }
    }

    fn need(&mut self, number: ClauseNumber) {
        write_at(&mut self.is_needed, number as usize, true);
    }

    fn need_as_hint(&mut self, number: ClauseNumber) {
        self.need(number);
        write_at(&mut self.is_hint, number as usize, true);
    }
}

impl<'b> Source<'b> {
    /// What the bound needs. The error is out of memory.
    pub(crate) fn trim(&self, bound: u64) -> Result<Trim, AllocError> {
        let clauses = self.proof.len();
        let mut trim = Trim::new(self.alloc, clauses, self.network.nets())?;
        trim.sort_notes(&self.record.notes)?;
        trim.find_enough(bound);
        let mut left = trim.marks.len();
        if let Some(empty) = self.contradiction {
            trim.need_as_hint(empty);
            left = trim.marks.partition_point(|mark| mark.before <= empty);
        }
        for number in (0..clauses.saturating_add(1)).rev() {
            self.trim_clause(number, &mut trim);
            for _ in 0..trim.marks.len() {
                let Some(place) = left.checked_sub(1) else {
                    break;
                };
                let mark = read(&trim.marks, place, no_mark());
                if (mark.before as usize) < number {
                    break;
                }
                left = place;
                self.trim_mark(place, mark, bound, &mut trim);
            }
        }
        Ok(trim)
    }

    // A clause that is needed needs its hints; one of a gate the ends by which its last levels say
    // spans.
    fn trim_clause(&self, number: usize, trim: &mut Trim) {
        if !read(&trim.is_needed, number, false) {
            return;
        }
        let number = small(number);
        let proof = self.proof;
        if !proof.is_given(number) {
            for hint in proof.hints(number) {
                trim.need_as_hint(*hint);
            }
            return;
        }
        if !self.is_of_gate(number, trim) {
            return;
        }
        for literal in proof.literals(number) {
            if let Some(Meaning::Last(net)) = self.meaning(variable_of(*literal)) {
                trim.want(net, *literal % 2 == 1);
            }
        }
    }

    fn is_of_gate(&self, number: ClauseNumber, trim: &Trim) -> bool {
        let Some(place) = read(&trim.notes, number as usize, None) else {
            return false;
        };
        match self.record.notes.get(place as usize) {
            Some(Note::Given(_, Axiom::Gate(_, _))) => true,
            _ => false,
        }
    }

    // A lowered end that is needed needs its lemma, or the ends of the gate's inputs.
    fn trim_mark(&self, place: usize, mark: Mark, bound: u64, trim: &mut Trim) {
        let end = place_of(mark.net, mark.level);
        let is_goal = self.network.is_output(mark.net)
            && self.first(mark.net).end(mark.level) > bound.saturating_add(1)
            && self.contradiction.is_none();
        if is_goal && read(&trim.enough, end, None) == Some(place) {
            trim.want(mark.net, mark.level);
        }
        if !read(&trim.wants, end, false) {
            return;
        }
        write_at(&mut trim.wants, end, false);
        if let Some(own) = trim.marks.get_mut(place) {
            own.is_needed = true;
        }
        match mark.lemma {
            Some(lemma) => {
                trim.need(lemma);
                let count = read(&trim.ends, lemma as usize, 0);
                write_at(&mut trim.ends, lemma as usize, count.saturating_add(1));
            }
            None => self.want_inputs(mark, trim),
        }
    }

    fn want_inputs(&self, mark: Mark, trim: &mut Trim) {
        let Some(node) = self.network.driver(mark.net) else {
            return;
        };
        for fanin in self.network.fanins(node) {
            for level in [false, true] {
                if node.leads(level, mark.level) {
                    trim.want(*fanin, level);
                }
            }
        }
    }
}

fn no_mark() -> Mark {
    Mark {
        before: 0,
        net: 0,
        level: false,
        place: 0,
        lemma: None,
        is_needed: false,
    }
}
