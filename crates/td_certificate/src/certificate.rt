//! Certificates.

ghost use Rattle.std.specs.Prelude.{◌≡◌};
ghost use Rattle.td_certificate.specs.Spelling.{version_in};

use crate::question::{Question, Version};
use crate::tree::Tree;
use td_domain::Pair;

/// That an admitted pair of vectors has this delay, and that no admitted pair changes an output
/// after another moment. Where the two moments are one, it is the worst delay. Moments are in
/// steps.
#[derive(Debug, Drop)]
pub struct Claim {
    /// The pair's delay.
    pub time: u64,
    /// After this moment no admitted pair changes an output.
    pub high: u64,
    pub pair: Pair,
}

/// What a search claims: the circuit's number of gates, what was asked of it, the claim, or none
/// where no pair is admitted, and the tree of cubes that shows it.
#[derive(Debug, Drop)]
pub struct Certificate {
    pub gates: u32,
    pub question: Question,
    pub claim: Option<Claim>,
    pub tree: Tree,
}

impl Certificate {
    /// The version of its text.
    pub fn version(&self) -> Version
        ensures { result ≡ version_in self.now }
    {
        self.question.version()
    }
}
