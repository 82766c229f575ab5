//! The certificate of the pairs that keep conditions.

ghost use Rattle.std.specs.Prelude.{◌≡◌, ◌≤◌, length, Some, IfOk};
ghost use Rattle.td_circuit.specs.Numbering.{setting};
ghost use Rattle.td_certificate.specs.Lengths.{HaveFew};
ghost use Rattle.td_certificate.specs.Spelling.{AreConditions, AreTerms};
ghost use Rattle.td_worst.specs.Kept.{certificate_with};
ghost use Rattle.td_answer.specs.KeptTerms.{kept_terms};

use crate::certifying::outputs_of;
use std::alloc::{AllocError, Global};
use td_certificate::{Certificate, Claim, Question, Terms, Tree};
use td_circuit::Circuit;
use td_domain::Admit;
use td_gates::{Delay, Level};
use td_refutation::NamedCondition;

/// What a certificate tells besides pairs: how the netlist was read, and what pairs keep.
#[derive(Drop)]
pub(crate) struct Told {
    pub default: Delay,
    pub outputs: Option<Vec<u64>>,
    pub keep: Vec<NamedCondition>,
}

// The terms of a certificate that tells this. The error is out of memory.
fn terms_of(told: Told) -> Result<Terms, AllocError>
    ensures is { IfOk result (λ terms. terms ≡ kept_terms told) }
    ensures told { IfOk result (λ terms. AreConditions told.keep.items → AreTerms (Some (kept_terms told))) }
    ensures few { IfOk result (λ terms. length told.keep.items ≤ 5000 → HaveFew (Some (kept_terms told))) }
{
    let Told {
        default,
        outputs,
        keep,
    } = told;
    // For the prover: this call says that the delays are in range.
    let _steps = default.to(Level::X);
    let outputs = outputs_of(outputs)?;
    Ok(Terms {
        rise: default.rise,
        fall: default.fall,
        outputs,
        keep,
    })
}

/// The certificate of a claim about a circuit and these pairs, or that there is none that keeps the
/// conditions. At no more inputs than there are may bits differ. The error is out of memory.
pub(crate) fn kept_certificate(
    alloc: Global,
    circuit: &Circuit,
    admit: Admit,
    told: Told,
    claim: Option<Claim>,
    tree: Tree,
) -> Result<Certificate, AllocError>
    requires flips { admit.flips ≤ length admit.held }
    ensures is { IfOk result (λ certificate. certificate ≡ certificate_with (setting circuit.now) admit (kept_terms told) claim tree) }
    ensures told { IfOk result (λ certificate. AreConditions told.keep.items → AreTerms (Some (kept_terms told))) }
    ensures few { IfOk result (λ certificate. length told.keep.items ≤ 5000 → HaveFew (Some (kept_terms told))) }
{
    let moments = Vec::from_slice(alloc, circuit.moments())?;
    let terms = terms_of(told)?;
    let question = Question::new(admit, moments).with_terms(terms);
    let gates = circuit.gates();
    Ok(Certificate {
        gates: gates.len() as u32,
        question,
        claim,
        tree,
    })
}
