//! The clauses that were given and learned.

ghost use Rattle.std.specs.Prelude.{◌≡◌, length};

use crate::literal::Literal;
use crate::table::{read, small};
use std::alloc::{AllocError, Global};

/// The number of a clause: how many were given or learned before it.
pub type ClauseNumber = u32;

/// Clauses in the order in which they came. A learned one has hints: where all its literals are
/// false, the clauses of the hints in turn each leave one literal that may be true, which then is,
/// and the last one leaves none. Nothing of it is ever dropped, but it may begin after clauses that
/// stand elsewhere.
#[derive(Clone, Drop)]
pub struct Proof {
    // The number of the first clause.
    first: ClauseNumber,
    is_given: Vec<bool>,
    literals: Vec<Literal>,
    // By clause: where its literals end.
    literal_ends: Vec<usize>,
    hints: Vec<ClauseNumber>,
    hint_ends: Vec<usize>,
}

// The items between two ends.
fn items_of<'a>(items: &'a [u32], ends: &[usize], place: usize) -> &'a [u32] {
    let start = match place.checked_sub(1) {
        Some(before) => match ends.get(before) {
            Some(end) => *end,
            None => return &[],
        },
        None => 0,
    };
    let Some(end) = ends.get(place) else {
        return &[];
    };
    match items.get(start..*end) {
        Some(own) => own,
        None => &[],
    }
}

impl Proof {
    /// No clauses.
    pub fn new(alloc: Global) -> Proof {
        Proof::beginning_at(alloc, 0)
    }

    /// No clauses. The first one gets this number.
    pub fn beginning_at(alloc: Global, first: ClauseNumber) -> Proof {
        Proof {
            first,
            is_given: Vec::new(alloc),
            literals: Vec::new(alloc),
            literal_ends: Vec::new(alloc),
            hints: Vec::new(alloc),
            hint_ends: Vec::new(alloc),
        }
    }

    /// How many clauses there are.
    pub fn len(&self) -> usize
        ensures { result ≡ length self.now.is_given.items }
    {
        self.is_given.len()
    }

    /// Whether there are none.
    pub fn is_empty(&self) -> bool {
        self.is_given.is_empty()
    }

    /// The number of the first clause.
    pub fn first(&self) -> ClauseNumber {
        self.first
    }

    /// The number that the next clause gets.
    pub fn next(&self) -> ClauseNumber {
        self.first.saturating_add(small(self.is_given.len()))
    }

    /// How many words of 4 bytes it takes, about.
    pub fn words(&self) -> u64 {
        let items = self.literals.len().saturating_add(self.hints.len());
        let clauses = self.is_given.len().saturating_mul(5);
        items.saturating_add(clauses) as u64
    }

    // The place of a clause, if it stands here.
    fn place_of(&self, number: ClauseNumber) -> Option<usize> {
        match number.checked_sub(self.first) {
            Some(place) => Some(place as usize),
            None => None,
        }
    }

    /// Whether a clause was given.
    pub fn is_given(&self, number: ClauseNumber) -> bool {
        match self.place_of(number) {
            Some(place) => read(&self.is_given, place, false),
            None => false,
        }
    }

    /// The literals of a clause, none where there is no such clause.
    pub fn literals(&self, number: ClauseNumber) -> &[Literal] {
        match self.place_of(number) {
            Some(place) => items_of(&self.literals, &self.literal_ends, place),
            None => &[],
        }
    }

    /// The numbers of the clauses that show a clause, none where it was given.
    pub fn hints(&self, number: ClauseNumber) -> &[ClauseNumber] {
        match self.place_of(number) {
            Some(place) => items_of(&self.hints, &self.hint_ends, place),
            None => &[],
        }
    }

    /// Adds a clause that is given. The error is out of memory, or that there are too many.
    pub fn give(&mut self, literals: &[Literal]) -> Result<ClauseNumber, AllocError> {
        self.append(true, literals, &[])
    }

    /// Adds a clause that these hints show. The error is out of memory, or that there are too many.
    pub fn learn(
        &mut self,
        literals: &[Literal],
        hints: &[ClauseNumber],
    ) -> Result<ClauseNumber, AllocError> {
        self.append(false, literals, hints)
    }

    fn append(
        &mut self,
        is_given: bool,
        literals: &[Literal],
        hints: &[ClauseNumber],
    ) -> Result<ClauseNumber, AllocError> {
        let number = self.next();
        if number == u32::MAX {
            return Err(AllocError);
        }
        self.literals.extend_from_slice(literals)?;
        self.hints.extend_from_slice(hints)?;
        self.literal_ends.push(self.literals.len())?;
        self.hint_ends.push(self.hints.len())?;
        self.is_given.push(is_given)?;
        Ok(number)
    }
}
