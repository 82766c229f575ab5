//! Clauses of settled gates, and by which reason a clause is true.

ghost use Rattle.std.specs.Prelude.{◌≡◌, ◌≤◌, ◌<◌, ◌↔◌, IsTrue, IfOk, map, length, slice_get, unwrap_or, Some};
ghost use Rattle.td_gates.specs.declared.primitives.Level.{Level as LevelModel};
ghost use Rattle.td_gates.specs.Table.{table, level_eq, level_from, TakesInputs};
ghost use Rattle.td_gates.specs.Counts.{count_at, counts_of};
ghost use Rattle.td_spans.specs.Clauses.{settled_net, trit_if, settled_trit};
ghost use Rattle.td_spans.specs.Named.{settled_of, IsByTableOf, IsByTable, two_of, by_two, by_net, has_variables, IsBy, IsNamed};

use crate::condition::is_keep_clause;
use crate::gate_clauses::{constant_trit, is_level, level_from};
use crate::named_gates::is_by_gate;
use crate::names::place_of;
use crate::net_clauses::is_net_clause;
use crate::pair_clauses::is_pairs_clause;
use crate::question::Question;
use crate::reason::Reason;
use crate::rules::gate_at;
use crate::sayings::variable_of;
use crate::times::Times;
use crate::variable::Variable;
use crate::variables::Variables;
use std::alloc::{AllocError, Global};
use td_circuit::{Circuit, Gate};
use td_domain::Cube;
use td_gates::{Counts, Level, eval_counts};
use td_propagation::Literal;

// The net of a variable of its start, or of its end.
fn settled_net(last: bool, variable: Variable) -> Option<u32>
    ensures { result ≡ settled_net last (Some variable) }
{
    match variable {
        Variable::First(net) => { if last { None } else { Some(net) } }
        Variable::Last(net) => { if last { Some(net) } else { None } }
        Variable::Span(_saying) => None,
        Variable::Flips(_inputs, _count) => None,
    }
}

// The net of the variable of a literal.
fn net_of(variables: &Variables, last: bool, literal: Literal) -> Option<u32>
    ensures { result ≡ settled_net last (slice_get variables.now literal.variable) }
{
    match variables.get(literal.variable as usize) {
        None => None,
        Some(variable) => settled_net(last, variable),
    }
}

// The level that a denied literal gives a net, if it does.
fn settled_at(settled: Option<u32>, level: bool, net: u32) -> Option<Level>
    ensures { (rest : LevelModel) → trit_if settled level net rest ≡ unwrap_or result rest }
{
    match settled {
        None => None,
        Some(other) => {
            if other == net {
                Some(level_from(level))
            } else {
                None
            }
        }
    }
}

// The level at which a net starts, or ends, where all of these literals are false.
fn settled_trit(variables: &Variables, last: bool, body: &[Literal], net: u32) -> Level
    ensures { result ≡ settled_trit last variables.now body.now net }
{
    for literal in body {
        match settled_at(net_of(variables, last, *literal), !literal.positive, net) {
            Some(level) => return level,
            None => {}
        }
    }
    constant_trit(net)
}

// How many of a gate's inputs are settled at each level.
fn settled_counts(variables: &Variables, last: bool, body: &[Literal], inputs: &[u32]) -> Counts
    requires { length inputs.now ≤ 1023 }
    ensures counts { result ≡ counts_of (map (settled_trit last variables.now body.now) inputs.now) }
    ensures few { (level : LevelModel) → count_at result level ≤ 1023 }
{
    let mut counts = Counts::NONE;
    for input in inputs {
        counts.add(settled_trit(variables, last, body, *input));
    }
    counts
}

// Whether a gate's table gives a bit for settled inputs.
fn is_settled(variables: &Variables, last: bool, gate: &Gate, bit: bool, body: &[Literal]) -> bool
    requires takes { TakesInputs gate.now.kind (length gate.now.inputs.items) }
    requires few { length gate.now.inputs.items ≤ 1023 }
    ensures { result ≡ level_eq (level_from bit) (table gate.now.kind (map (settled_trit last variables.now body.now) gate.now.inputs.items)) }
{
    let inputs: &[u32] = &gate.inputs;
    let counts = settled_counts(variables, last, body, inputs);
    is_level(bit, eval_counts(gate.kind, counts))
}

// Whether a variable is of the end of a net, and the net.
fn settled_of(variable: Option<Variable>) -> Option<(bool, u32)>
    ensures { result ≡ settled_of variable }
{
    match variable {
        None => None,
        Some(variable) => match variable {
            Variable::First(net) => Some((false, net)),
            Variable::Last(net) => Some((true, net)),
            Variable::Span(_saying) => None,
            Variable::Flips(_inputs, _count) => None,
        },
    }
}

// Whether the table of the gate that drives a net gives the clause.
fn is_by_table_of(
    circuit: &Circuit,
    variables: &Variables,
    head: Literal,
    body: &[Literal],
    it: Option<(bool, u32)>,
) -> bool
    ensures { IsTrue result ↔ IsByTableOf circuit.now variables.now head body.now it }
{
    match it {
        None => false,
        Some((last, net)) => match place_of(circuit, net) {
            None => false,
            Some(place) => is_settled(
                variables,
                last,
                gate_at(circuit, place),
                head.positive,
                body,
            ),
        },
    }
}

// Whether the table of a gate gives the clause.
fn is_by_table(circuit: &Circuit, variables: &Variables, clause: &[Literal]) -> bool
    ensures { IsTrue result ↔ IsByTable circuit.now variables.now clause.now }
{
    if clause.is_empty() {
        return false;
    }
    let head = clause[0];
    is_by_table_of(
        circuit,
        variables,
        head,
        &clause[1..],
        settled_of(variable_of(variables, head)),
    )
}

// The literals of a clause with two.
fn two_of(clause: &[Literal]) -> Option<(Literal, Literal)>
    ensures { result ≡ two_of clause.now }
{
    if clause.len() == 2 {
        Some((clause[0], clause[1]))
    } else {
        None
    }
}

// Whether one net gives the clause.
fn is_by_net(variables: &Variables, times: &[Times], clause: &[Literal]) -> bool
    ensures { result ≡ by_net variables.now times.now clause.now }
{
    match two_of(clause) {
        None => false,
        Some((one, other)) => is_net_clause(variables, times, one, other),
    }
}

/// Whether each literal has a variable.
pub fn has_variables(variables: &Variables, clause: &[Literal]) -> bool
    ensures { result ≡ has_variables variables.now clause.now }
{
    for literal in clause {
        if literal.variable as usize >= variables.len() {
            return false;
        }
    }
    true
}

// Whether the reason gives the clause, whose literals may have no variable. The error is out of
// memory.
fn is_by(
    alloc: Global,
    circuit: &Circuit,
    question: &Question,
    cube: &Cube,
    variables: &Variables,
    times: &[Times],
    reason: Reason,
    clause: &[Literal],
) -> Result<bool, AllocError>
    ensures { IfOk result (λ answer. IsTrue answer ↔ IsBy circuit.now question.now cube.now variables.now times.now reason clause.now) }
{
    match reason {
        Reason::Gate => is_by_gate(alloc, circuit, variables, times, clause),
        Reason::Table => Ok(is_by_table(circuit, variables, clause)),
        Reason::Net => Ok(is_by_net(variables, times, clause)),
        Reason::Pairs => is_pairs_clause(
            alloc,
            circuit.first_gate() - 2,
            question.admit(),
            cube,
            variables,
            clause,
        ),
        Reason::Keep => Ok(is_keep_clause(question.keep(), variables, clause)),
    }
}

/// Whether the reason gives the clause. The error is out of memory.
pub fn is_named(
    alloc: Global,
    circuit: &Circuit,
    question: &Question,
    cube: &Cube,
    variables: &Variables,
    times: &[Times],
    reason: Reason,
    clause: &[Literal],
) -> Result<bool, AllocError>
    ensures { IfOk result (λ answer. IsTrue answer ↔ IsNamed circuit.now question.now cube.now variables.now times.now reason clause.now) }
{
    let known = has_variables(variables, clause);
    let by = is_by(
        alloc, circuit, question, cube, variables, times, reason, clause,
    )?;
    Ok(known && by)
}
