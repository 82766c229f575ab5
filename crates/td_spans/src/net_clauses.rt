//! Clauses of one net, and what says that a net is at rest.

ghost use Rattle.std.specs.Prelude.{◌≡◌, false, slice_get, Some};
ghost use Rattle.td_spans.specs.Clauses.{level_is, is_none, is_within, is_part, is_apart, is_part_of, is_apart_from, net_by, is_net_clause};
ghost use Rattle.td_spans.specs.Lowering.{is_at_rest, are_at_rest};

use crate::sayings::{is_by, says, variable_of};
use crate::times::Times;
use crate::variable::{Saying, Variable};
use crate::variables::Variables;
use td_propagation::Literal;

/// Whether a level is the other.
pub fn level_is(level: bool, other: bool) -> bool
    ensures { result ≡ level_is level other }
{
    if level { other } else { !other }
}

// Whether there is no last place.
fn is_none(last: Option<u64>) -> bool
    ensures { result ≡ is_none last }
{
    match last {
        None => true,
        Some(_last) => false,
    }
}

/// Whether no place by the first is after the second.
pub fn is_within(last: Option<u64>, end: Option<u64>) -> bool
    ensures { result ≡ is_within last end }
{
    match end {
        None => true,
        Some(end) => match last {
            None => false,
            Some(last) => last <= end,
        },
    }
}

// Whether the net is at the saying's level at each place of another span.
fn is_part(part: Saying, saying: Saying) -> bool
    ensures { result ≡ is_part part saying }
{
    part.net == saying.net
        && (level_is(part.level, saying.level)
            && (saying.first <= part.first && is_within(part.last, saying.last)))
}

// Whether two spans of a net have different levels and a place in common.
fn is_apart(other: Saying, saying: Saying) -> bool
    ensures { result ≡ is_apart other saying }
{
    let place = if saying.first < other.first {
        other.first
    } else {
        saying.first
    };
    other.net == saying.net
        && (level_is(other.level, !saying.level)
            && (is_by(place as u128, other.last) && is_by(place as u128, saying.last)))
}

// Whether a literal with this sign and variable says a part of a span.
fn is_part_of(saying: Saying, positive: bool, variable: Option<Variable>) -> bool
    ensures { result ≡ is_part_of saying positive variable }
{
    match variable {
        None => false,
        Some(variable) => match variable {
            Variable::First(_net) => false,
            Variable::Last(_net) => false,
            Variable::Span(part) => {
                if positive {
                    is_part(part, saying)
                } else {
                    false
                }
            }
            Variable::Flips(_inputs, _count) => false,
        },
    }
}

// Whether something says the other level than a span at a place.
fn is_apart_from(saying: Saying, other: Option<Saying>) -> bool
    ensures { result ≡ is_apart_from saying other }
{
    match other {
        None => false,
        Some(other) => is_apart(other, saying),
    }
}

fn net_by(
    saying: Option<Saying>,
    positive: bool,
    variable: Option<Variable>,
    other: Option<Saying>,
) -> bool
    ensures { result ≡ net_by saying positive variable other }
{
    match saying {
        None => false,
        Some(saying) => is_part_of(saying, positive, variable) || is_apart_from(saying, other),
    }
}

/// Whether it is the clause of a net.
pub fn is_net_clause(variables: &Variables, times: &[Times], one: Literal, other: Literal) -> bool
    ensures { result ≡ is_net_clause variables.now times.now one other }
{
    net_by(
        says(variables, times, one.negation()),
        other.positive,
        variable_of(variables, other),
        says(variables, times, other.negation()),
    )
}

// Whether a literal with this sign and variable says that a net is at rest.
fn is_at_rest(net: u32, level: bool, place: u64, positive: bool, variable: Variable) -> bool
    ensures { result ≡ is_at_rest net level place positive (Some variable) }
{
    match variable {
        Variable::First(_other) => false,
        Variable::Last(other) => other == net && level_is(positive, !level),
        Variable::Span(saying) => {
            if positive {
                saying.net == net && (saying.first <= place && is_none(saying.last))
            } else {
                false
            }
        }
        Variable::Flips(_inputs, _count) => false,
    }
}

// Whether a literal says that a net is at rest.
fn literal_rests(variables: &Variables, net: u32, level: bool, place: u64, literal: Literal) -> bool
    ensures { result ≡ is_at_rest net level place literal.positive (slice_get variables.now literal.variable) }
{
    match variables.get(literal.variable as usize) {
        None => false,
        Some(variable) => is_at_rest(net, level, place, literal.positive, variable),
    }
}

/// Whether each literal of a clause says that a net doesn't end at a level, or that it is at rest
/// from a place on.
pub fn are_at_rest(
    variables: &Variables,
    net: u32,
    level: bool,
    place: u64,
    clause: &[Literal],
) -> bool
    ensures { result ≡ are_at_rest variables.now net level place clause.now }
{
    for literal in clause {
        if !literal_rests(variables, net, level, place, *literal) {
            return false;
        }
    }
    true
}
