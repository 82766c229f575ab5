//! Whether a pair is admitted.

ghost use Rattle.std.specs.Prelude.{◌≡◌, ◌↔◌, length, IfOk, IsTrue};
ghost use Rattle.td_certificate.specs.Questions.{asking_of, inputs_of};
ghost use Rattle.td_refutation.specs.Asking.{IsAskedAbout};

use std::alloc::{AllocError, Global};
use td_certificate::Question;
use td_circuit::Circuit;
use td_domain::Pair;
use td_refutation::is_kept;

/// Whether a pair is one of those that are asked about: it is admitted, and keeps the conditions.
pub fn is_asked_about(
    alloc: Global,
    circuit: &Circuit,
    question: &Question,
    pair: &Pair,
) -> Result<bool, AllocError>
    requires inputs { length circuit.now.netlist.inputs ≡ inputs_of question.now }
    requires first { length pair.now.first ≡ inputs_of question.now }
    requires second { length pair.now.second ≡ inputs_of question.now }
    ensures { IfOk result (λ is. IsTrue is ↔ IsAskedAbout circuit.now.netlist (asking_of question.now) pair.now) }
{
    if !question.admit().admits(alloc, pair)? {
        return Ok(false);
    }
    is_kept(alloc, circuit, question.keep(), pair)
}
