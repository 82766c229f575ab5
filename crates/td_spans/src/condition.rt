//! Conditions: what the pairs that are asked about keep.

ghost use Rattle.std.specs.Prelude.{◌≡◌, slice_get, Some};
ghost use Rattle.td_gates.specs.Table.{level_from};
ghost use Rattle.td_spans.specs.Conditions.{form_asks, is_equal, asks_level, asks_equal, keeps_one, is_last_of, keeps_two, is_keep_clause};

use crate::gate_clauses::is_level;
use crate::net_clauses::level_is;
use crate::sayings::variable_of;
use crate::variable::Variable;
use crate::variables::Variables;
use td_gates::Level;
use td_propagation::Literal;

/// Of which form a condition is.
#[derive(Clone, Copy, Debug, PartialEq, Eq, Drop)]
pub enum Form {
    /// The net's levels under the first and the second vector, x where any will do.
    Levels(Level, Level),
    /// Both are equal.
    Equal,
}

/// A condition on the settled levels of a net.
#[derive(Clone, Copy, Debug, PartialEq, Eq, Drop)]
pub struct Condition {
    pub net: u32,
    pub form: Form,
}

// Whether a condition asks for a level, at the start or in the end.
fn form_asks(form: Form, last: bool, level: bool) -> bool
    ensures { result ≡ form_asks form last level }
{
    match form {
        Form::Levels(first, second) => {
            if last {
                is_level(level, second)
            } else {
                is_level(level, first)
            }
        }
        Form::Equal => false,
    }
}

fn is_equal(form: Form) -> bool
    ensures { result ≡ is_equal form }
{
    match form {
        Form::Levels(_first, _second) => false,
        Form::Equal => true,
    }
}

// Whether some condition asks for a net's level.
fn asks_level(keep: &[Condition], net: u32, last: bool, level: bool) -> bool
    ensures { result ≡ asks_level keep.now net last level }
{
    for condition in keep {
        if condition.net == net && form_asks(condition.form, last, level) {
            return true;
        }
    }
    false
}

// Whether some condition asks that a net's levels be equal.
fn asks_equal(keep: &[Condition], net: u32) -> bool
    ensures { result ≡ asks_equal keep.now net }
{
    for condition in keep {
        if condition.net == net && is_equal(condition.form) {
            return true;
        }
    }
    false
}

// Whether a literal says what a condition asks.
fn keeps_one(keep: &[Condition], positive: bool, variable: Option<Variable>) -> bool
    ensures { result ≡ keeps_one keep.now positive variable }
{
    match variable {
        None => false,
        Some(variable) => match variable {
            Variable::First(net) => asks_level(keep, net, false, positive),
            Variable::Last(net) => asks_level(keep, net, true, positive),
            Variable::Span(_saying) => false,
            Variable::Flips(_inputs, _count) => false,
        },
    }
}

// Whether a variable is of the end of a net.
fn is_last_of(net: u32, variable: Option<Variable>) -> bool
    ensures { result ≡ is_last_of net variable }
{
    match variable {
        None => false,
        Some(variable) => match variable {
            Variable::First(_net) => false,
            Variable::Last(other) => other == net,
            Variable::Span(_saying) => false,
            Variable::Flips(_inputs, _count) => false,
        },
    }
}

// Whether two literals say that a net starts and ends at one level, as a condition asks.
fn keeps_two(
    keep: &[Condition],
    one: bool,
    variable: Option<Variable>,
    two: bool,
    other: Option<Variable>,
) -> bool
    ensures { result ≡ keeps_two keep.now one variable two other }
{
    match variable {
        None => false,
        Some(variable) => match variable {
            Variable::First(net) => {
                is_last_of(net, other) && (level_is(one, !two) && asks_equal(keep, net))
            }
            Variable::Last(_net) => false,
            Variable::Span(_saying) => false,
            Variable::Flips(_inputs, _count) => false,
        },
    }
}

/// Whether it is a clause of a condition.
pub fn is_keep_clause(keep: &[Condition], variables: &Variables, clause: &[Literal]) -> bool
    ensures { result ≡ is_keep_clause keep.now variables.now clause.now }
{
    if clause.len() == 1 {
        let one = clause[0];
        return keeps_one(keep, one.positive, variable_of(variables, one));
    }
    if clause.len() == 2 {
        let one = clause[0];
        let two = clause[1];
        return keeps_two(
            keep,
            one.positive,
            variable_of(variables, one),
            two.positive,
            variable_of(variables, two),
        );
    }
    false
}
