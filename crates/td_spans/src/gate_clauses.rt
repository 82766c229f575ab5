//! Where a gate's output surely is at a level, place by place.

ghost use Rattle.std.specs.Prelude.{◌≡◌, ◌≤◌, ◌<◌, ◌+◌, ◌↔◌, IsTrue, IfSome, not, map, length, unwrap_or, None as Nothing};
ghost use Rattle.td_gates.specs.declared.primitives.Level.{Level as LevelModel};
ghost use Rattle.td_gates.specs.Table.{level_eq, level_from, TakesInputs};
ghost use Rattle.td_gates.specs.Counts.{count_at, counts_of};
ghost use Rattle.td_circuit.specs.Views.{gate_of};
ghost use Rattle.td_spans.specs.Targets.{steps_to};
ghost use Rattle.td_spans.specs.Clauses.{constant_trit, trit_from, trit_by, is_known, IsSureOf};
ghost use Rattle.td_spans.specs.Stretching.{nearer, last_before, last_within, last_by, stretch_last, next_after};

use crate::rules::steps_to;
use crate::sayings::{covers, is_by, says};
use crate::times::Times;
use crate::variable::{Saying, Variable};
use crate::variables::Variables;
use crate::walk::{Walk, is_covered, walked};
use td_circuit::Gate;
use td_gates::{Counts, Level, eval_counts};
use td_propagation::Literal;

/// The level of a bit.
pub fn level_from(bit: bool) -> Level
    ensures { result ≡ level_from bit }
{
    if bit { Level::One } else { Level::Zero }
}

/// What is known of a net without a clause.
pub fn constant_trit(net: u32) -> Level
    ensures { result ≡ constant_trit net }
{
    if net == 0 {
        Level::Zero
    } else if net == 1 {
        Level::One
    } else {
        Level::X
    }
}

// The level that a saying gives a net at a place, if it does.
fn said_at(saying: Option<Saying>, net: u32, place: u128) -> Option<Level>
    ensures { (rest : LevelModel) → trit_from saying net place rest ≡ unwrap_or result rest }
{
    match saying {
        None => None,
        Some(saying) => {
            if covers(saying, net, place) {
                Some(level_from(saying.level))
            } else {
                None
            }
        }
    }
}

// The level that a net has at a place where all of these literals are false.
fn trit_by(variables: &Variables, times: &[Times], body: &[Literal], net: u32, place: u128) -> Level
    ensures { result ≡ trit_by variables.now times.now body.now net place }
{
    for literal in body {
        match said_at(says(variables, times, literal.negation()), net, place) {
            Some(level) => return level,
            None => {}
        }
    }
    constant_trit(net)
}

// How many of a gate's inputs are at each level at a place.
fn counts_at(
    variables: &Variables,
    times: &[Times],
    body: &[Literal],
    inputs: &[u32],
    place: u128,
) -> Counts
    requires { length inputs.now ≤ 1023 }
    ensures counts { result ≡ counts_of (map (λ net. trit_by variables.now times.now body.now net place) inputs.now) }
    ensures few { (level : LevelModel) → count_at result level ≤ 1023 }
{
    let mut counts = Counts::NONE;
    for input in inputs {
        counts.add(trit_by(variables, times, body, *input, place));
    }
    counts
}

/// Whether a level is known to be a bit.
pub fn is_level(bit: bool, level: Level) -> bool
    ensures { result ≡ level_eq (level_from bit) level }
{
    match level {
        Level::Zero => !bit,
        Level::One => bit,
        Level::X => false,
    }
}

// Whether a gate's target surely is at a level at a place.
fn is_known(
    variables: &Variables,
    times: &[Times],
    gate: &Gate,
    body: &[Literal],
    level: bool,
    place: u128,
) -> bool
    requires takes { TakesInputs gate.now.kind (length gate.now.inputs.items) }
    requires few { length gate.now.inputs.items ≤ 1023 }
    ensures { result ≡ is_known variables.now times.now (gate_of gate.now) body.now level place }
{
    let inputs: &[u32] = &gate.inputs;
    let counts = counts_at(variables, times, body, inputs, place);
    is_level(level, eval_counts(gate.kind, counts))
}

fn nearer(last: Option<u64>, place: u64) -> Option<u64>
    ensures { result ≡ nearer last place }
{
    match last {
        None => Some(place),
        Some(last) => Some(last.min(place)),
    }
}

fn last_before(last: Option<u64>, place: u128, first: u64) -> Option<u64>
    ensures { result ≡ last_before last place first }
{
    if place < first as u128 {
        nearer(last, first - 1)
    } else {
        last
    }
}

fn last_within(last: Option<u64>, place: u128, end: Option<u64>) -> Option<u64>
    ensures { result ≡ last_within last place end }
{
    match end {
        None => last,
        Some(end) => {
            if place <= end as u128 {
                nearer(last, end)
            } else {
                last
            }
        }
    }
}

fn last_by(last: Option<u64>, place: u128, saying: Option<Saying>) -> Option<u64>
    ensures { result ≡ last_by last place saying }
{
    match saying {
        None => last,
        Some(saying) => last_within(last_before(last, place, saying.first), place, saying.last),
    }
}

// Up to which place nothing changes of what literals say that are false.
fn stretch_last(
    variables: &Variables,
    times: &[Times],
    place: u128,
    body: &[Literal],
) -> Option<u64>
    ensures { result ≡ stretch_last variables.now times.now Nothing place body.now }
{
    let mut last = None;
    for literal in body {
        last = last_by(last, place, says(variables, times, literal.negation()));
    }
    last
}

/// The place after the last one.
pub fn next_after(last: Option<u64>) -> Option<u128>
    ensures next { result ≡ next_after last }
    ensures few { IfSome result (λ next. next ≤ 18446744073709551616) }
{
    match last {
        None => None,
        Some(last) => Some(last as u128 + 1),
    }
}

/// Whether a gate's output surely is as a saying says, where all of these literals are false.
pub fn is_sure(
    variables: &Variables,
    times: &[Times],
    gate: &Gate,
    body: &[Literal],
    saying: Saying,
) -> bool
    requires takes { TakesInputs gate.now.kind (length gate.now.inputs.items) }
    requires few { length gate.now.inputs.items ≤ 1023 }
    ensures { IsTrue result ↔ IsSureOf (is_known variables.now times.now (gate_of gate.now) body.now saying.level) (steps_to gate.now.delay saying.level) (steps_to gate.now.delay (not saying.level)) saying }
{
    if !is_by(saying.first as u128, saying.last) {
        return true;
    }
    let coming = steps_to(gate.delay, saying.level) as u128;
    let going = steps_to(gate.delay, !saying.level) as u128;
    let mut place = 0;
    let mut walk = Walk {
        run: None,
        sure: None,
    };
    loop {
        let next = next_after(stretch_last(variables, times, place, body));
        let passes = is_known(variables, times, gate, body, saying.level, place);
        walk = walked(walk, passes, place, next, coming, going);
        if is_covered(walk.sure, saying, going) {
            return true;
        }
        match next {
            None => return false,
            Some(later) => place = later,
        }
    }
}
