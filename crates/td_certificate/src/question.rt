//! What a certificate is about.

ghost use Rattle.std.specs.Prelude.{◌≡◌, None as Nothing, option_map};
ghost use Rattle.std.specs.List.{list_all};
ghost use Rattle.td_certificate.specs.Questions.{keep_by, inputs_of, is_free, holds_none, admits_all, is_at_once, plain_version, version_of, version_number};
ghost use Rattle.td_certificate.specs.Reading.{with_terms};

use std::marker::Model;
use td_domain::{Admit, Cube, Trit};
use td_refutation::NamedCondition;

/// The versions of a certificate's text. The first is about all pairs of vectors, with all inputs
/// changing at moment 0; in the second pairs are restricted; in the third an input changes later.
/// The fourth tells all that is asked, and may have any leaf.
#[derive(Clone, Copy, Debug, PartialEq, Eq, Drop)]
pub enum Version {
    First,
    Second,
    Third,
    Fourth,
}

impl Version {
    /// The number in the first line of the text.
    pub fn number(self) -> u64
        ensures { result ≡ version_number self }
    {
        match self {
            Version::First => 1,
            Version::Second => 2,
            Version::Third => 3,
            Version::Fourth => 4,
        }
    }
}

/// What a text of the fourth version tells besides: the delays of gates that state none, the numbers
/// of the outputs that are asked about, where not all are, and the conditions that pairs keep.
/// Outputs are numbered from 0 in the order of the port list.
#[derive(Debug, Drop)]
pub struct Terms {
    /// The rise delay, in steps, from 1 on.
    pub rise: u32,
    /// The fall delay, in steps, from 1 on.
    pub fall: u32,
    pub outputs: Option<Vec<u64>>,
    pub keep: Vec<NamedCondition>,
}

impl Model for Terms {
    ghost use Rattle.std.specs.Prelude.{option_map};
    ghost use Rattle.td_certificate.specs.Questions as questions;
    ghost use Rattle.td_certificate.specs.Reading.{delays, terms_by, with_keep};

    ghost Value = { questions.Terms };

    ghost view = { λ terms. with_keep terms.keep.items (terms_by (delays terms.rise terms.fall) (option_map (λ numbers. numbers.items) terms.outputs)) };
}

/// What is asked of a circuit: which pairs of vectors are admitted, for each input the moment at
/// which it takes its second level, in steps, and how the netlist is read, where a text tells it.
#[derive(Debug, Drop)]
pub struct Question {
    admit: Admit,
    moments: Vec<u64>,
    terms: Option<Terms>,
}

impl Model for Question {
    ghost use Rattle.td_certificate.specs.Questions as questions;

    ghost Value = { questions.Question };

    ghost view = { λ question. record { admit = question.admit; moments = question.moments.items; terms = question.terms } };
}

impl Question {
    /// These pairs, and these moments of the inputs, without terms.
    pub fn new(admit: Admit, moments: Vec<u64>) -> Self
        ensures { result ≡ record { admit = admit; moments = moments.items; terms = Nothing } }
    {
        Question {
            admit,
            moments,
            terms: None,
        }
    }

    /// The same question, with these terms.
    pub fn with_terms(self, terms: Terms) -> Self
        ensures { result ≡ with_terms terms self }
    {
        Question {
            admit: self.admit,
            moments: self.moments,
            terms: Some(terms),
        }
    }

    /// The terms, where there are any.
    pub fn terms(&self) -> Option<&Terms>
        ensures { option_map (λ terms. terms.now) result ≡ self.now.terms }
    {
        self.terms.as_ref()
    }

    /// The conditions that pairs keep.
    pub fn keep(&self) -> &[NamedCondition]
        ensures { result.now ≡ keep_by self.now.terms }
    {
        match &self.terms {
            Some(terms) => &terms.keep,
            None => &[],
        }
    }

    /// Which pairs are admitted.
    pub fn admit(&self) -> &Admit
        ensures { result.now ≡ self.now.admit }
    {
        &self.admit
    }

    /// The moment of each input.
    pub fn moments(&self) -> &[u64]
        ensures { result.now ≡ self.now.moments }
    {
        &self.moments
    }

    /// The number of inputs.
    pub fn inputs(&self) -> usize
        ensures { result ≡ inputs_of self.now }
    {
        self.admit.held().len()
    }

    /// The version of a text that tells it.
    pub fn version(&self) -> Version
        ensures { result ≡ version_of self.now }
    {
        if self.terms.is_some() {
            return Version::Fourth;
        }
        plain_version(&self.admit, &self.moments)
    }
}

/// The version of a text that tells these pairs and these moments of the inputs, without terms.
fn plain_version(admit: &Admit, moments: &[u64]) -> Version
    ensures { result ≡ plain_version admit.now moments.now }
{
    if !is_at_once(moments) {
        return Version::Third;
    }
    if admits_all(admit) {
        Version::First
    } else {
        Version::Second
    }
}

/// Whether all inputs change at moment 0.
pub fn is_at_once(moments: &[u64]) -> bool
    ensures { result ≡ is_at_once moments.now }
{
    moments.iter().all(|moment| *moment == 0)
}

/// Whether the trit pins nothing.
fn is_free(trit: Trit) -> bool
    ensures { result ≡ is_free trit }
{
    match trit {
        Trit::Free => true,
        Trit::Zero | Trit::One => false,
    }
}

/// Whether nothing is pinned.
pub fn are_free(pins: &Cube) -> bool
    ensures { result ≡ list_all is_free pins.now }
{
    for position in 0..pins.len() {
        if !is_free(pins.trit(position)) {
            return false;
        }
    }
    true
}

/// Whether no input is held.
pub fn holds_none(held: &[bool]) -> bool
    ensures { result ≡ holds_none held.now }
{
    held.iter().all(|held| !*held)
}

/// Whether nothing is pinned or held, and all inputs may differ.
fn admits_all(admit: &Admit) -> bool
    ensures { result ≡ admits_all admit.now }
{
    are_free(admit.pins())
        && holds_none(admit.held())
        && admit.flips() as usize == admit.held().len()
}
