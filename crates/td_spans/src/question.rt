//! Questions: which pairs are asked about.

use crate::condition::Condition;
use std::marker::Model;
use td_domain::Admit;

/// The pairs that are asked about: those that are admitted and keep all conditions.
#[derive(Debug, Drop)]
pub struct Question {
    admit: Admit,
    keep: Vec<Condition>,
}

impl Model for Question {
    ghost use Rattle.td_spans.specs.Conditions.{Asked};

    ghost Value = { Asked };

    ghost view = { λ question. record { admit = question.admit; keep = question.keep.items } };
}

impl Question {
    ghost use Rattle.std.specs.Prelude.{◌≡◌};

    /// The admitted pairs that keep these conditions, whose nets have the circuit's numbers.
    pub fn new(admit: Admit, keep: Vec<Condition>) -> Question
        ensures { result ≡ record { admit = admit; keep = keep.items } }
    {
        Question { admit, keep }
    }

    /// Which pairs are admitted.
    pub fn admit(&self) -> &Admit
        ensures { result.now ≡ self.now.admit }
    {
        &self.admit
    }

    /// The conditions.
    pub fn keep(&self) -> &[Condition]
        ensures { result.now ≡ self.now.keep }
    {
        &self.keep
    }
}
