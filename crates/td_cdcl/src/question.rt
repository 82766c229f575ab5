//! What a solver is asked, and how it answers.

use crate::literal::Literal;
use crate::proof::ClauseNumber;

/// Whether all clauses and the assumptions can be true.
#[derive(Clone, Copy, Drop)]
pub struct Question<'a> {
    pub assumptions: &'a [Literal],
    /// The variables whose values make a model: the question ends once each has one. The values of
    /// the others follow from these, or don't matter.
    pub inputs: &'a [u32],
    /// By variable whether it isn't decided; one beyond the end is.
    pub skipped: &'a [bool],
    /// How much work it may take, in units (`Solver::work`); none where there is no limit.
    pub limit: Option<u64>,
}

/// How a question ends: with a model; with the number of a clause of the proof each of whose
/// literals is the negation of an assumption; or open, since its limit or its stop was met.
#[derive(Clone, Copy, Debug, PartialEq, Eq, Drop)]
pub enum Outcome {
    Satisfied,
    Refuted(ClauseNumber),
    Open,
}
