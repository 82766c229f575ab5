//! What is asked of a circuit.

use crate::method::Method;
use td_circuit::Circuit;
use td_domain::Admit;
use td_refutation::NamedCondition;

/// The worst delay of the admitted pairs, by a method. Where a moment is required, in steps, it is
/// enough to know whether a pair is later.
#[derive(Clone, Copy, Drop)]
pub struct Question<'a> {
    pub circuit: &'a Circuit,
    pub admit: &'a Admit,
    pub method: Method,
    pub required: Option<u64>,
}

/// The worst delay of the admitted pairs that keep conditions. A required moment is as of
/// `Question`.
#[derive(Clone, Copy, Drop)]
pub struct KeptQuestion<'a> {
    pub circuit: &'a Circuit,
    pub admit: &'a Admit,
    pub keep: &'a [NamedCondition],
    pub required: Option<u64>,
}
