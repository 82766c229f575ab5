//! What literals say.

ghost use Rattle.std.specs.Prelude.{◌≡◌, slice_get};
ghost use Rattle.td_spans.specs.Times.{is_by};
ghost use Rattle.td_spans.specs.Sayings.{start_saying, end_saying, says};
ghost use Rattle.td_spans.specs.Clauses.{covers};

use crate::times::Times;
use crate::variable::{Saying, Variable};
use crate::variables::Variables;
use td_propagation::Literal;

/// Whether the place isn't after the last one, where there is one.
pub fn is_by(place: u128, last: Option<u64>) -> bool
    ensures { result ≡ is_by place last }
{
    match last {
        None => true,
        Some(last) => place <= last as u128,
    }
}

/// Whether a saying is of this net and this place.
pub fn covers(saying: Saying, net: u32, place: u128) -> bool
    ensures { result ≡ covers saying net place }
{
    saying.net == net && (saying.first as u128 <= place && is_by(place, saying.last))
}

// That a net starts at a level.
fn start_saying(times: &[Times], net: u32, level: bool) -> Option<Saying>
    ensures { result ≡ start_saying net level (slice_get times.now net) }
{
    match times.get(net as usize) {
        None => None,
        Some(it) => Some(Saying {
            net,
            level,
            first: 0,
            last: it.early,
        }),
    }
}

// That a net ends at a level.
fn end_saying(times: &[Times], net: u32, level: bool) -> Option<Saying>
    ensures { result ≡ end_saying net level (slice_get times.now net) }
{
    match times.get(net as usize) {
        None => None,
        Some(it) => Some(Saying {
            net,
            level,
            first: it.ends.at(level),
            last: None,
        }),
    }
}

/// What a literal says.
pub fn says(variables: &Variables, times: &[Times], literal: Literal) -> Option<Saying>
    ensures { result ≡ says variables.now times.now literal }
{
    match variables.get(literal.variable as usize) {
        None => None,
        Some(variable) => match variable {
            Variable::First(net) => start_saying(times, net, literal.positive),
            Variable::Last(net) => end_saying(times, net, literal.positive),
            Variable::Span(saying) => { if literal.positive { Some(saying) } else { None } }
            Variable::Flips(_inputs, _count) => None,
        },
    }
}

/// The variable of a literal.
pub fn variable_of(variables: &Variables, literal: Literal) -> Option<Variable>
    ensures { result ≡ slice_get variables.now literal.variable }
{
    variables.get(literal.variable as usize)
}
