//! Steps that show that no output changes after a moment.

use crate::network::Net;
use crate::search::Meaning;
use td_cdcl::{ClauseNumber, Literal};

/// A step of a refutation. A step that adds a clause has its literals, twice a variable, and one
/// more for the negation; clauses are numbered from 0 on. Hints are numbers of clauses.
#[derive(Drop)]
pub enum Step {
    /// The scheduling rule of the gate that drives the net of the first literal's span.
    Gate(Vec<Literal>),
    /// The table of the gate that drives the net of the first literal.
    Table(Vec<Literal>),
    /// A net has one level at a place.
    Net(Vec<Literal>),
    /// Pins, held inputs and flips.
    Pairs(Vec<Literal>),
    /// A condition.
    Keep(Vec<Literal>),
    /// Unit propagation shows the clause.
    Lemma(Vec<Literal>, Vec<ClauseNumber>),
    /// An end of a net is this place, by a clause that the hints show.
    End {
        net: Net,
        level: bool,
        place: u64,
        clause: Vec<Literal>,
        hints: Vec<ClauseNumber>,
    },
    /// Both ends of a gate's output are those by its inputs.
    Again(Net),
}

/// Variables, and steps over them.
#[derive(Drop)]
pub struct Refutation {
    pub variables: Vec<Meaning>,
    pub steps: Vec<Step>,
    /// Whether the last step is a clause without literals: then no pair is asked about.
    pub is_empty: bool,
}
