//! The certificate of an exact answer.

ghost use Rattle.std.specs.Prelude.{◌≡◌, ◌≤◌, length, option_map, Some, None as Nothing, IfOk, IsTrue};
ghost use Rattle.td_search.specs.Problems.{problem_by};
ghost use Rattle.td_certificate.specs.Lengths.{AreFew, CanTell};
ghost use Rattle.td_certificate.specs.Spelling.{AreOutputs};
ghost use Rattle.td_answer.specs.Certificates.{tells_terms, terms_in, certificate_in, CanBeTold};

use std::alloc::{AllocError, Global};
use td_certificate::{Certificate, Question, Terms, Tree};
use td_circuit::Circuit;
use td_gates::{Delay, Level};
use td_search::{Answer, Strategy, certificate_of};

/// How a netlist was read: the delay of gates that state none, and the numbers of the outputs that
/// are asked about, where some are.
#[derive(Drop)]
pub struct Read {
    pub default: Delay,
    pub outputs: Option<Vec<u64>>,
}

/// Whether a certificate tells how the netlist is read.
fn tells_terms(strategy: Strategy, some: bool, tree: &Tree) -> bool
    ensures { result ≡ tells_terms strategy some tree.now }
{
    match strategy {
        Strategy::Lead => true,
        Strategy::Least => some || tree.has_edges() || tree.has_refuted(),
    }
}

/// Whether numbers are few, at least one, and small enough for a text.
fn are_fit(numbers: &[u64]) -> bool
    ensures { IsTrue result → AreOutputs (Some numbers.now) × AreFew (Some numbers.now) }
{
    !numbers.is_empty()
        && numbers.len() <= 10_000
        && numbers
            .iter()
            .all(|number| *number <= 1_000_000_000_000_000_000)
}

/// The numbers of the outputs that are asked about: none where all are. The error is out of memory.
pub(crate) fn outputs_of(outputs: Option<Vec<u64>>) -> Result<Option<Vec<u64>>, AllocError>
    ensures is { IfOk result (λ found. found ≡ outputs) }
    ensures few { IfOk result (λ found. AreOutputs (option_map (λ numbers. numbers.items) found) × AreFew (option_map (λ numbers. numbers.items) found)) }
{
    match outputs {
        None => Ok(None),
        Some(numbers) => {
            if are_fit(&numbers) {
                Ok(Some(numbers))
            } else {
                Err(AllocError)
            }
        }
    }
}

/// The terms of the certificate of this tree, where it tells any. The error is out of memory.
fn terms_of(
    alloc: Global,
    strategy: Strategy,
    read: Read,
    tree: &Tree,
) -> Result<Option<Terms>, AllocError>
    ensures terms { IfOk result (λ terms. terms ≡ terms_in strategy read tree.now) }
    ensures told { IfOk result (λ terms. CanTell tree.now terms) }
{
    let Read { default, outputs } = read;
    if !tells_terms(strategy, outputs.is_some(), tree) {
        return Ok(None);
    }
    // For the prover: this call says that the delays are in range.
    let _steps = default.to(Level::X);
    let outputs = outputs_of(outputs)?;
    Ok(Some(Terms {
        rise: default.rise,
        fall: default.fall,
        outputs,
        keep: Vec::new(alloc),
    }))
}

/// A question with these terms, where there are any.
fn told(question: Question, terms: Option<Terms>) -> Question
    requires { question.terms ≡ Nothing }
    ensures { result ≡ record question { terms = terms } }
{
    match terms {
        None => question,
        Some(terms) => question.with_terms(terms),
    }
}

/// The certificate of an exact answer. At no more inputs than there are may bits differ, and the
/// moments are the circuit's. The error is out of memory.
pub(crate) fn certificate(
    alloc: Global,
    circuit: &Circuit,
    question: Question,
    read: Read,
    strategy: Strategy,
    answer: Answer,
) -> Result<Option<Certificate>, AllocError>
    requires flips { question.admit.flips ≤ length question.admit.held }
    requires moments { question.moments ≡ circuit.now.moments }
    requires untold { question.terms ≡ Nothing }
    ensures certified { IfOk result (λ certificate. certificate ≡ certificate_in read (problem_by strategy circuit.now question.admit) answer) }
    ensures told { IfOk result (λ certificate. CanBeTold read strategy answer) }
{
    match answer {
        Answer::Exact { time, pair, tree } => {
            let terms = terms_of(alloc, strategy, read, &tree)?;
            let question = told(question, terms);
            Ok(Some(certificate_of(circuit, question, time, pair, tree)))
        }
        Answer::Between { .. } => Ok(None),
    }
}
