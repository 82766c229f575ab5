//! Clauses of a gate.

ghost use Rattle.std.specs.Prelude.{◌≡◌, ◌≤◌, ◌↔◌, IsTrue, IfOk, not, length};
ghost use Rattle.td_gates.specs.Table.{TakesInputs};
ghost use Rattle.td_circuit.specs.Views.{gate_of};
ghost use Rattle.td_spans.specs.Targets.{steps_to};
ghost use Rattle.td_spans.specs.Clauses.{is_known, IsSureOf, IsGateClause};
ghost use Rattle.td_spans.specs.Named.{IsByGate};

use crate::gate_clauses::is_sure;
use crate::long_clauses::is_sure_by_pieces;
use crate::names::place_of;
use crate::rules::gate_at;
use crate::sayings::says;
use crate::times::Times;
use crate::variable::Saying;
use crate::variables::Variables;
use std::alloc::{AllocError, Global};
use td_circuit::{Circuit, Gate};
use td_propagation::Literal;

// Whether a gate's output surely is as a saying says, where all of these literals are false: looked
// at place by place, or by pieces, whichever takes less. The error is out of memory.
fn is_surely(
    alloc: Global,
    variables: &Variables,
    times: &[Times],
    gate: &Gate,
    body: &[Literal],
    saying: Saying,
) -> Result<bool, AllocError>
    requires takes { TakesInputs gate.now.kind (length gate.now.inputs.items) }
    requires few { length gate.now.inputs.items ≤ 1023 }
    ensures { IfOk result (λ answer. IsTrue answer ↔ IsSureOf (is_known variables.now times.now (gate_of gate.now) body.now saying.level) (steps_to gate.now.delay saying.level) (steps_to gate.now.delay (not saying.level)) saying) }
{
    if body.len() <= 16 && gate.inputs.len() <= 16 {
        return Ok(is_sure(variables, times, gate, body, saying));
    }
    is_sure_by_pieces(alloc, variables, times, gate, body, saying)
}

// Whether a gate gives the clause with this head. The error is out of memory.
fn is_gate_clause(
    alloc: Global,
    circuit: &Circuit,
    variables: &Variables,
    times: &[Times],
    head: Literal,
    body: &[Literal],
) -> Result<bool, AllocError>
    ensures { IfOk result (λ answer. IsTrue answer ↔ IsGateClause circuit.now variables.now times.now head body.now) }
{
    match says(variables, times, head) {
        None => Ok(false),
        Some(saying) => match place_of(circuit, saying.net) {
            None => Ok(false),
            Some(place) => {
                is_surely(
                    alloc,
                    variables,
                    times,
                    gate_at(circuit, place),
                    body,
                    saying,
                )
            }
        },
    }
}

/// Whether a gate gives the clause. The error is out of memory.
pub fn is_by_gate(
    alloc: Global,
    circuit: &Circuit,
    variables: &Variables,
    times: &[Times],
    clause: &[Literal],
) -> Result<bool, AllocError>
    ensures { IfOk result (λ answer. IsTrue answer ↔ IsByGate circuit.now variables.now times.now clause.now) }
{
    if clause.is_empty() {
        return Ok(false);
    }
    if clause.len() > 4096 {
        return Ok(false);
    }
    let answer = is_gate_clause(alloc, circuit, variables, times, clause[0], &clause[1..])?;
    Ok(answer)
}
