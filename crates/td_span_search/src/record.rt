//! Why each clause that was given holds, and when the ends of nets were lowered.

use crate::network::Net;
use crate::span::Span;
use std::alloc::{AllocError, Global};
use td_cdcl::{ClauseNumber, Literal};

const WORDS_OF_AN_ENTRY: u64 = 16;

const WORDS_OF_WHAT_HOLDS: u64 = 4;

/// What holds of a gate's input: a literal; or a span of a contracted net, by its place among the
/// links.
#[derive(Clone, Copy, Debug, PartialEq, Eq, Drop)]
pub enum Holds {
    Literal(Literal),
    Link(u32),
}

/// A span of a contracted net, and what gives it.
#[derive(Clone, Drop)]
pub struct Link {
    pub span: Span,
    pub holds: Vec<Holds>,
}

/// What a clause of a condition says: that a net's first level is this, or its last level that;
/// where one is none, the other.
#[derive(Clone, Copy, Debug, PartialEq, Eq, Drop)]
pub struct Kept {
    pub net: Net,
    pub first: Option<bool>,
    pub last: Option<bool>,
}

/// Why a clause that was given is true of each run: by the scheduling rule of the gate that drives
/// a net, with what holds of its inputs; by the table of a gate, of first or of last levels; since
/// a net has one level at a place; by the pins, held inputs and flips; by a condition; or since
/// another worker has shown it, by its number in the log of all.
#[derive(Clone, Drop)]
pub enum Axiom {
    Gate(Net, Vec<Holds>),
    Table(Net, bool),
    Net,
    Admitted,
    Kept(Kept),
    Told(ClauseNumber),
}

/// What was noted, before the clause of the proof with a number: that this one is given by an
/// axiom; that an end of a net is this place by a lemma; or by the ends of its gate's inputs.
#[derive(Clone, Drop)]
pub enum Note {
    Given(ClauseNumber, Axiom),
    Lowered {
        before: ClauseNumber,
        net: Net,
        level: bool,
        place: u64,
        lemma: ClauseNumber,
    },
    Again {
        before: ClauseNumber,
        net: Net,
        level: bool,
        place: u64,
    },
}

/// All that was noted, in its order.
#[derive(Clone, Drop)]
pub struct Record {
    pub notes: Vec<Note>,
    pub links: Vec<Link>,
    // How many things hold in all notes and links.
    holds: u64,
}

impl Record {
    /// Nothing yet.
    pub fn new(alloc: Global) -> Record {
        Record {
            notes: Vec::new(alloc),
            links: Vec::new(alloc),
            holds: 0,
        }
    }

    /// How many words of 4 bytes it takes, about, with what the search keeps beside.
    pub fn words(&self) -> u64 {
        let entries = self.notes.len().saturating_add(self.links.len()) as u64;
        entries
            .saturating_mul(WORDS_OF_AN_ENTRY)
            .saturating_add(self.holds.saturating_mul(WORDS_OF_WHAT_HOLDS))
    }

    /// Adds a note. The error is out of memory.
    pub fn add(&mut self, note: Note) -> Result<(), AllocError> {
        if let Note::Given(_, Axiom::Gate(_, holds)) = &note {
            self.holds = self.holds.saturating_add(holds.len() as u64);
        }
        self.notes.push(note)?;
        Ok(())
    }

    /// Adds a link. Answers its place. The error is out of memory, or that there are too many.
    pub fn link(&mut self, link: Link) -> Result<Holds, AllocError> {
        let Ok(place) = u32::try_from(self.links.len()) else {
            return Err(AllocError);
        };
        self.holds = self.holds.saturating_add(link.holds.len() as u64);
        self.links.push(link)?;
        Ok(Holds::Link(place))
    }
}
