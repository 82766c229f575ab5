//! The signal of a gate's output.

ghost use Rattle.std.specs.Prelude.{◌≡◌, [], ◌∷◌, Some, ◌≤◌, ◌<◌, ◌+◌, ◌^◌, max, IfOk, OnOk, length, filter_map, slice_get};
ghost use Rattle.std.specs.List.{All};
ghost use Rattle.td_gates.specs.Table.{TakesInputs, controlling};
ghost use Rattle.td_arrival.specs.Arrivals.{gate_signal, hull, around, is_held, opens_at, closes_at, gate_changes, last_delay, is_lost, gate_start, gate_finish};
ghost use Rattle.td_arrival.specs.Coverage.{span_reach};

use crate::signals::{Signal, Span};
use std::alloc::AllocError;
use td_domain::{controlling_level, is_control, level_of_two};
use td_gates::{Counts, Delay, Kind, Level, eval_counts};

/// The signal of the output of a gate whose inputs have the signals at these places. Those of a
/// gate with more than three inputs are gathered in `space`, where what stands doesn't matter.
pub fn output_at(
    space: &mut Vec<Signal>,
    kind: Kind,
    delay: Delay,
    all: &[Signal],
    places: &[u32],
) -> Result<Signal, AllocError>
    requires places { All (λ place. place < length all.now) places.now }
    requires takes { TakesInputs kind (length places.now) }
    requires few { length places.now ≤ 1024 }
    requires within { All (λ signal. span_reach signal.changes + max delay.rise delay.fall < 10 ^ 15) (filter_map (slice_get all.now) places.now) }
    ensures { IfOk result (λ signal. signal ≡ gate_signal kind delay (filter_map (slice_get all.now) places.now)) }
{
    match places {
        [one] => Ok(output_of_one(kind, delay, &[all[*one as usize]])),
        [one, other] => Ok(output_of_two(kind, delay, &all[*one as usize], &all[*other as usize])),
        [one, other, third] => {
            let three = [
                all[*one as usize],
                all[*other as usize],
                all[*third as usize],
            ];
            Ok(output(kind, delay, &three))
        }
        _ => {
            pick(space, all, places)?;
            Ok(output(kind, delay, space))
        }
    }
}

/// Makes the list that of the signals at these places.
fn pick(signals: &mut Vec<Signal>, all: &[Signal], places: &[u32]) -> Result<(), AllocError>
    requires { All (λ place. place < length all.now) places.now }
    ensures { OnOk result (signals.new.items ≡ filter_map (slice_get all.now) places.now) }
{
    signals.clear();
    for place in places {
        signals.push(all[*place as usize])?;
    }
    Ok(())
}

/// The signal of the output of a gate whose one input has this signal. Such a gate is nearly always
/// a buf or a not.
fn output_of_one(kind: Kind, delay: Delay, signals: &[Signal; 1]) -> Signal
    requires takes { TakesInputs kind (length signals.now) }
    requires few { length signals.now ≤ 1024 }
    requires within { All (λ signal. span_reach signal.changes + max delay.rise delay.fall < 10 ^ 15) signals.now }
    ensures { result ≡ gate_signal kind delay signals.now }
{
    match kind {
        Kind::Buf => output(Kind::Buf, delay, signals),
        Kind::Not => output(Kind::Not, delay, signals),
        _ => output(kind, delay, signals),
    }
}

/// The signal of the output of a gate whose two inputs have these signals. Most gates have two, so
/// the kind is asked for once, and what follows is made for each kind.
fn output_of_two(kind: Kind, delay: Delay, one: &Signal, other: &Signal) -> Signal
    requires takes { TakesInputs kind 2 }
    requires within { All (λ signal. span_reach signal.changes + max delay.rise delay.fall < 10 ^ 15) (one.now ∷ other.now ∷ []) }
    ensures { result ≡ gate_signal kind delay (one.now ∷ other.now ∷ []) }
{
    match kind {
        Kind::And => output_by_levels(Kind::And, delay, one, other),
        Kind::Nand => output_by_levels(Kind::Nand, delay, one, other),
        Kind::Or => output_by_levels(Kind::Or, delay, one, other),
        Kind::Nor => output_by_levels(Kind::Nor, delay, one, other),
        Kind::Xor => output_by_levels(Kind::Xor, delay, one, other),
        Kind::Xnor => output_by_levels(Kind::Xnor, delay, one, other),
        Kind::Buf => output_by_levels(Kind::Buf, delay, one, other),
        Kind::Not => output_by_levels(Kind::Not, delay, one, other),
    }
}

/// The signal of the output of a gate with two inputs, of a kind that is known where this is
/// called.
#[inline(always)]
fn output_by_levels(kind: Kind, delay: Delay, one: &Signal, other: &Signal) -> Signal
    requires takes { TakesInputs kind 2 }
    requires within { All (λ signal. span_reach signal.changes + max delay.rise delay.fall < 10 ^ 15) (one.now ∷ other.now ∷ []) }
    ensures { result ≡ gate_signal kind delay (one.now ∷ other.now ∷ []) }
{
    let start = level_of_two(kind, one.start, other.start);
    let finish = level_of_two(kind, one.finish, other.finish);
    let signals = [*one, *other];
    output_between(kind, delay, start, finish, &signals)
}

/// The signal of the output of a gate whose inputs have these signals. For three inputs its loops
/// are straight lines.
#[inline(always)]
fn output(kind: Kind, delay: Delay, signals: &[Signal]) -> Signal
    requires takes { TakesInputs kind (length signals.now) }
    requires few { length signals.now ≤ 1024 }
    requires within { All (λ signal. span_reach signal.changes + max delay.rise delay.fall < 10 ^ 15) signals.now }
    ensures { result ≡ gate_signal kind delay signals.now }
{
    let start = start_of(kind, signals);
    let finish = finish_of(kind, signals);
    output_between(kind, delay, start, finish, signals)
}

/// The signal of the output of a gate whose inputs have these signals, and whose levels at the
/// start and at the finish are known.
#[inline(always)]
fn output_between(
    kind: Kind,
    delay: Delay,
    start: Level,
    finish: Level,
    signals: &[Signal],
) -> Signal
    requires start { start ≡ gate_start kind signals.now }
    requires finish { finish ≡ gate_finish kind signals.now }
    requires within { All (λ signal. span_reach signal.changes + max delay.rise delay.fall < 10 ^ 15) signals.now }
    ensures { result ≡ gate_signal kind delay signals.now }
{
    let changes = match hull_of(signals) {
        None => None,
        Some(span) => changes_within(kind, delay, start, finish, signals, span),
    };
    Signal {
        start,
        finish,
        changes,
    }
}

/// The output's level at the start, x where it isn't known.
fn start_of(kind: Kind, signals: &[Signal]) -> Level
    requires takes { TakesInputs kind (length signals.now) }
    requires few { length signals.now ≤ 1024 }
    ensures { result ≡ gate_start kind signals.now }
{
    let mut counts = Counts::NONE;
    for signal in signals {
        counts.add(signal.start);
    }
    eval_counts(kind, counts)
}

/// The output's level at the finish, x where it isn't known.
fn finish_of(kind: Kind, signals: &[Signal]) -> Level
    requires takes { TakesInputs kind (length signals.now) }
    requires few { length signals.now ≤ 1024 }
    ensures { result ≡ gate_finish kind signals.now }
{
    let mut counts = Counts::NONE;
    for signal in signals {
        counts.add(signal.finish);
    }
    eval_counts(kind, counts)
}

/// The changes of the output of a gate whose inputs change within the span.
fn changes_within(
    kind: Kind,
    delay: Delay,
    start: Level,
    finish: Level,
    signals: &[Signal],
    span: Span,
) -> Option<Span>
    requires within { max span.earliest span.latest + max delay.rise delay.fall < 10 ^ 15 }
    requires each { All (λ signal. span_reach signal.changes + max delay.rise delay.fall < 10 ^ 15) signals.now }
    ensures { result ≡ gate_changes (controlling kind) delay start finish signals.now (Some span) }
{
    let control = controlling_level(kind);
    if any_held(control, signals) {
        return None;
    }
    let earliest = opening(control, span.earliest, signals);
    let latest = closing(control, span.latest, signals);
    if latest < earliest || lost(delay, start, finish, latest - earliest) {
        return None;
    }
    Some(Span {
        earliest: earliest + delay.to(start.inverse()),
        latest: latest + slowest_to(delay, finish),
    })
}

/// Whether an input keeps the controlling level for ever.
fn any_held(control: Option<Level>, signals: &[Signal]) -> bool
    ensures { result ≡ is_held control signals.now }
{
    signals.iter().any(|signal| is_control(control, signal.finish) && signal.changes.is_none())
}

/// Until when the inputs that surely start at the controlling level keep the target.
fn opening(control: Option<Level>, earliest: u64, signals: &[Signal]) -> u64
    ensures { result ≡ opens_at control earliest signals.now }
{
    let mut opens = 0;
    for signal in signals {
        if is_control(control, signal.start)
            && let Some(span) = signal.changes
        {
            opens = span.earliest.max(opens);
        }
    }
    opens.max(earliest)
}

/// From when on the inputs that surely finish at the controlling level keep the target.
fn closing(control: Option<Level>, latest: u64, signals: &[Signal]) -> u64
    ensures { result ≡ closes_at control latest signals.now }
{
    let mut closes = latest;
    for signal in signals {
        if is_control(control, signal.finish)
            && let Some(span) = signal.changes
        {
            closes = span.latest.min(closes);
        }
    }
    closes
}

/// Whether a departure from the start comes back too soon to be seen.
fn lost(delay: Delay, start: Level, finish: Level, width: u64) -> bool
    ensures { result ≡ is_lost delay start finish width }
{
    match (start, finish) {
        (Level::Zero, Level::Zero) => width < u64::from(delay.rise),
        (Level::One, Level::One) => width < u64::from(delay.fall),
        (_, _) => false,
    }
}

/// The steps of the last change, to a level that may be unknown.
fn slowest_to(delay: Delay, finish: Level) -> u64
    ensures slowest { result ≡ last_delay delay finish }
    ensures few { result ≤ max delay.rise delay.fall }
{
    let steps = match finish {
        Level::Zero => delay.fall,
        Level::One => delay.rise,
        Level::X => delay.rise.max(delay.fall),
    };
    u64::from(steps)
}

/// The least span around the changes of the signals, if any may change.
fn hull_of(signals: &[Signal]) -> Option<Span>
    ensures { result ≡ hull signals.now }
{
    let mut span = None;
    for signal in signals {
        span = around_both(span, signal.changes);
    }
    span
}

/// The least span around both.
fn around_both(changes: Option<Span>, others: Option<Span>) -> Option<Span>
    ensures { result ≡ around changes others }
{
    match (changes, others) {
        (None, others) => others,
        (Some(span), None) => Some(span),
        (Some(span), Some(other)) => Some(Span {
            earliest: span.earliest.min(other.earliest),
            latest: span.latest.max(other.latest),
        }),
    }
}
