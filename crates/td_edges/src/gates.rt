//! The signal of a gate's output.

ghost use Rattle.std.specs.Prelude.{◌≡◌, Some, ◌≤◌, ◌<◌, ◌+◌, ◌^◌, max, length, filter_map, slice_get};
ghost use Rattle.std.specs.List.{All};
ghost use Rattle.td_gates.specs.Table.{TakesInputs, controlling};
ghost use Rattle.td_edges.specs.EdgeSignals.{gate_signal, gate_start, gate_finish, hull, around, turned, target_span, settled, limited, capped, raised, kept_by, filtered, after_earliest, timely, put_off, delayed_changes};
ghost use Rattle.td_edges.specs.Coverage.{span_reach};

use crate::parting::parity_span;
use crate::signals::{Signal, Span, earliest_of, until_of};
use td_domain::{controlling_level, is_control};
use td_gates::{Counts, Delay, Kind, Level, eval_counts};

/// The signal of the output of a gate whose inputs have the signals at these places.
pub fn output(kind: Kind, delay: Delay, all: &[Signal], ins: &[u32]) -> Signal
    requires places { All (λ place. place < length all.now) ins.now }
    requires takes { TakesInputs kind (length ins.now) }
    requires few { length ins.now ≤ 1024 }
    requires within { All (λ signal. span_reach signal.changes + max delay.rise delay.fall < 10 ^ 15) (filter_map (slice_get all.now) ins.now) }
    ensures { result ≡ gate_signal kind delay (filter_map (slice_get all.now) ins.now) }
{
    let Signal {
        start,
        finish,
        changes,
    } = gathered(kind, all, ins);
    let changes = match changes {
        None => None,
        Some(span) => {
            let target = target_span(kind, all, ins, span);
            let kept = kept_by(kind, all, ins, target);
            delayed_changes(delay, start, finish, kept)
        }
    };
    Signal {
        start,
        finish,
        changes,
    }
}

/// The table on the inputs' starts and on their finishes, and the least span around their changes.
fn gathered(kind: Kind, all: &[Signal], ins: &[u32]) -> Signal
    requires places { All (λ place. place < length all.now) ins.now }
    requires takes { TakesInputs kind (length ins.now) }
    requires few { length ins.now ≤ 1024 }
    ensures start { result.start ≡ gate_start kind (filter_map (slice_get all.now) ins.now) }
    ensures finish { result.finish ≡ gate_finish kind (filter_map (slice_get all.now) ins.now) }
    ensures changes { result.changes ≡ hull (filter_map (slice_get all.now) ins.now) }
{
    let mut starts = Counts::NONE;
    let mut finishes = Counts::NONE;
    let mut changes = None;
    for place in ins {
        let signal = &all[*place as usize];
        starts.add(signal.start);
        finishes.add(signal.finish);
        changes = around_both(changes, signal.changes);
    }
    Signal {
        start: eval_counts(kind, starts),
        finish: eval_counts(kind, finishes),
        changes,
    }
}

/// The least span around both.
fn around_both(changes: Option<Span>, others: Option<Span>) -> Option<Span>
    ensures { result ≡ around changes others }
{
    match (changes, others) {
        (None, others) => others,
        (Some(span), None) => Some(span),
        (Some(span), Some(other)) => Some(Span {
            earliest: span.earliest.min(other.earliest),
            falls_until: span.falls_until.max(other.falls_until),
            rises_until: span.rises_until.max(other.rises_until),
        }),
    }
}

/// The span of the negation.
fn turned(span: Span) -> Span
    ensures { result ≡ turned span }
{
    Span {
        earliest: span.earliest,
        falls_until: span.rises_until,
        rises_until: span.falls_until,
    }
}

/// When the target changes, by the direction of the inputs' changes.
fn target_span(kind: Kind, all: &[Signal], ins: &[u32], span: Span) -> Span
    requires { All (λ place. place < length all.now) ins.now }
    ensures { result ≡ target_span kind (filter_map (slice_get all.now) ins.now) span }
{
    match kind {
        Kind::And | Kind::Or | Kind::Buf => span,
        Kind::Nand | Kind::Nor | Kind::Not => turned(span),
        Kind::Xor => parity_span(Level::Zero, all, ins, span.earliest),
        Kind::Xnor => parity_span(Level::One, all, ins, span.earliest),
    }
}

/// The output's level where an input is at the controlling level, x where none settles it.
fn settled_level(kind: Kind) -> Level
    ensures { result ≡ settled kind }
{
    match kind {
        Kind::And | Kind::Nor => Level::Zero,
        Kind::Nand | Kind::Or => Level::One,
        Kind::Xor | Kind::Xnor | Kind::Buf | Kind::Not => Level::X,
    }
}

/// The span where changes to the level come before this moment too.
fn limited(level: Level, moment: u64, span: Span) -> Span
    ensures { result ≡ limited level moment span }
{
    match level {
        Level::Zero => Span {
            earliest: span.earliest,
            falls_until: span.falls_until.min(moment),
            rises_until: span.rises_until,
        },
        Level::One => Span {
            earliest: span.earliest,
            falls_until: span.falls_until,
            rises_until: span.rises_until.min(moment),
        },
        Level::X => span,
    }
}

/// The span where an input that surely finishes at the controlling level keeps the target from its
/// last change to it on.
fn capped(control: Option<Level>, out: Level, signal: &Signal, span: Span) -> Span
    ensures { result ≡ capped control out signal.now span }
{
    if is_control(control, signal.finish) {
        limited(out, until_of(signal.finish, signal.changes), span)
    } else {
        span
    }
}

/// The span where an input that surely starts at the controlling level keeps the target until its
/// earliest change.
fn raised(control: Option<Level>, signal: &Signal, span: Span) -> Span
    ensures { result ≡ raised control signal.now span }
{
    if is_control(control, signal.start) {
        Span {
            earliest: span.earliest.max(earliest_of(signal.changes)),
            falls_until: span.falls_until,
            rises_until: span.rises_until,
        }
    } else {
        span
    }
}

/// The span where each input keeps the target while it is surely at the controlling level.
fn kept_by(kind: Kind, all: &[Signal], ins: &[u32], span: Span) -> Span
    requires { All (λ place. place < length all.now) ins.now }
    ensures { result ≡ kept_by (controlling kind) (settled kind) (filter_map (slice_get all.now) ins.now) span }
{
    let control = controlling_level(kind);
    let out = settled_level(kind);
    if control.is_none() {
        return span;
    }
    let mut kept = span;
    for place in ins {
        let signal = &all[*place as usize];
        kept = raised(control, signal, capped(control, out, signal, kept));
    }
    kept
}

/// The span without changes away from the finish that come too late to be seen.
fn filtered(delay: Delay, finish: Level, span: Span) -> Span
    ensures { result ≡ filtered delay finish span }
{
    let away = finish.inverse();
    limited(
        away,
        span.until(finish).saturating_sub(delay.to(away)),
        span,
    )
}

/// The moment, or 0 where it doesn't come after the earliest.
fn after_earliest(earliest: u64, moment: u64) -> u64
    ensures { result ≡ after_earliest earliest moment }
{
    if earliest < moment { moment } else { 0 }
}

/// The span without changes before its earliest moment.
fn timely(span: Span) -> Span
    ensures { result ≡ timely span }
{
    Span {
        earliest: span.earliest,
        falls_until: after_earliest(span.earliest, span.falls_until),
        rises_until: after_earliest(span.earliest, span.rises_until),
    }
}

/// The moment put off by the steps, where changes come before it.
fn put_off(steps: u64, moment: u64) -> u64
    requires { moment + steps < 2 ^ 64 }
    ensures { result ≡ put_off steps moment }
{
    if moment > 0 { moment + steps } else { 0 }
}

/// When an output changes whose target changes in the span.
fn delayed_changes(delay: Delay, start: Level, finish: Level, span: Span) -> Option<Span>
    requires within { span_reach (Some span) + max delay.rise delay.fall < 10 ^ 15 }
    ensures { result ≡ delayed_changes delay start finish span }
{
    let left = timely(filtered(delay, finish, span));
    let first = start.inverse();
    if left.until(finish) == 0 || left.until(first) == 0 {
        return None;
    }
    Some(Span {
        earliest: left.earliest + delay.to(first),
        falls_until: put_off(u64::from(delay.fall), left.falls_until),
        rises_until: put_off(u64::from(delay.rise), left.rises_until),
    })
}
