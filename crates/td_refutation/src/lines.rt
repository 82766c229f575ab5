//! What the numbers of a line say.

ghost use Rattle.std.specs.Prelude.{◌≡◌, ◌<◌, map, option_map, OnOk};
ghost use Rattle.std.specs.List.{list_all, AllPass};
ghost use Rattle.td_spans.specs.Times.{is_by};
ghost use Rattle.td_refutation.specs.Lines.{is_literal, literal_at, net_variable, span_variable, flips_variable, variable_at, shown_by_numbers};

use crate::kind::StepKind;
use std::alloc::AllocError;
use td_circuit::Circuit;
use td_propagation::Literal;
use td_spans::{Saying, Variable, net_named};

/// One more than the greatest number of a literal.
const LITERALS: u64 = 8_589_934_592;

/// Whether these are numbers of literals.
pub fn are_literals(numbers: &[u64]) -> bool
    ensures { result ≡ list_all is_literal numbers.now }
{
    numbers.iter().all(|number| *number < LITERALS)
}

// The literal with a number.
fn literal_at(number: u64) -> Literal
    requires { number < 8589934592 }
    ensures { result ≡ literal_at number }
{
    Literal {
        variable: (number / 2) as u32,
        positive: number % 2 == 0,
    }
}

/// Puts the literals with these numbers in place of those that are there. The error is out of
/// memory.
pub fn read_literals(numbers: &[u64], literals: &mut Vec<Literal>) -> Result<(), AllocError>
    requires { AllPass is_literal numbers.now }
    ensures { OnOk result (literals.new.items ≡ map literal_at numbers.now) }
{
    literals.clear();
    for number in numbers {
        literals.push(literal_at(*number))?;
    }
    Ok(())
}

// The variable of the start of a net, or of its end.
fn net_variable(circuit: &Circuit, is_last: bool, number: u64) -> Option<Variable>
    ensures { result ≡ net_variable circuit.now is_last number }
{
    match net_named(circuit, number) {
        None => None,
        Some(net) => {
            if is_last {
                Some(Variable::Last(net))
            } else {
                Some(Variable::First(net))
            }
        }
    }
}

// The variable of a net's level at all places from a first one to a last one, or for ever.
fn span_variable(
    circuit: &Circuit,
    number: u64,
    level: u64,
    first: u64,
    last: Option<u64>,
) -> Option<Variable>
    ensures { result ≡ span_variable circuit.now number level first last }
{
    if level > 1 || !is_from(first, last) {
        return None;
    }
    match net_named(circuit, number) {
        None => None,
        Some(net) => Some(Variable::Span(Saying {
            net,
            level: level == 1,
            first,
            last,
        })),
    }
}

// Whether a span doesn't end before it begins.
fn is_from(first: u64, last: Option<u64>) -> bool
    ensures { result ≡ is_by first last }
{
    match last {
        None => true,
        Some(last) => first <= last,
    }
}

// The variable of how many of the first inputs differ.
fn flips_variable(circuit: &Circuit, inputs: u64, count: u64) -> Option<Variable>
    ensures { result ≡ flips_variable circuit.now inputs count }
{
    // For the prover: this call says that there are fewer than 2^32 inputs.
    let _first = circuit.first_gate();
    if inputs <= circuit.input_count() as u64 {
        Some(Variable::Flips(inputs as u32, count))
    } else {
        None
    }
}

/// The variable of a line, if it is one's.
pub fn variable_at(circuit: &Circuit, kind: StepKind, numbers: &[u64]) -> Option<Variable>
    ensures { result ≡ variable_at circuit.now kind numbers.now }
{
    match kind {
        StepKind::First => match numbers {
            [net] => net_variable(circuit, false, *net),
            _ => None,
        },
        StepKind::Last => match numbers {
            [net] => net_variable(circuit, true, *net),
            _ => None,
        },
        StepKind::Span => match numbers {
            [net, level, first] => span_variable(circuit, *net, *level, *first, None),
            [net, level, first, last] => {
                span_variable(circuit, *net, *level, *first, Some(*last))
            }
            _ => None,
        },
        StepKind::Flips => match numbers {
            [inputs, count] => flips_variable(circuit, *inputs, *count),
            _ => None,
        },
        StepKind::Gate
        | StepKind::Table
        | StepKind::Net
        | StepKind::Pairs
        | StepKind::Keep
        | StepKind::Lemma
        | StepKind::End
        | StepKind::Again => None,
    }
}

/// The numbers of a clause's literals, and the hints after them, where the first number says how
/// many literals there are.
pub fn shown_by_numbers(numbers: &[u64]) -> Option<(&[u64], &[u64])>
    ensures { option_map (λ x. (x.0.now, x.1.now)) result ≡ shown_by_numbers numbers.now }
{
    match numbers {
        [] => None,
        [count, rest @ ..] => {
            if *count > rest.len() as u64 {
                return None;
            }
            let (clause, hints) = rest.split_at(*count as usize);
            if are_literals(clause) {
                Some((clause, hints))
            } else {
                None
            }
        }
    }
}
