//! The signal of a gate's output.

ghost use Rattle.std.specs.Prelude.{◌≡◌, ℕ, [], ◌≤◌, ◌<◌, ◌+◌, ◌^◌, ◌++◌, max, IfOk, OnOk, length, filter_map, slice_get};
ghost use Rattle.std.specs.List.{All};
ghost use Rattle.td_gates.specs.Delays.{IsInRange};
ghost use Rattle.td_gates.specs.Table.{TakesInputs};
ghost use Rattle.td_gates.specs.Wave.{before, IsWave};
ghost use Rattle.td_run.specs.Waves.{AreWithin, waves_of};
ghost use Rattle.td_ternary.specs.Possibles.{gate_signal, possible, last_change, last_level, change_at, capped};
ghost use Rattle.td_ternary.specs.Turning.{possible_after};

use crate::merging::{output_of_one, output_of_two};
use crate::scratch::Scratch;
use crate::tracks::{begun, finish, pass};
use std::alloc::AllocError;
use td_gates::{Change, Delay, Kind, Level};
use td_run::Wave;
use td_run::stages::target_in;

/// The greatest number of changes of a signal.
pub(crate) const MAX_CHANGES: usize = 512;

/// The signal of the output of a gate whose inputs have the signals at these places.
pub fn output(
    scratch: &mut Scratch,
    kind: Kind,
    delay: Delay,
    all: &[Wave],
    ins: &[u32],
) -> Result<Wave, AllocError>
    requires places { All (λ place. place < length all.now) ins.now }
    requires few { length ins.now ≤ 1024 }
    requires takes { TakesInputs kind (length ins.now) }
    requires within { All (λ signal. last_change signal.changes + max delay.rise delay.fall < 10 ^ 15) (filter_map (slice_get all.now) ins.now) }
    ensures { IfOk result (λ signal. signal ≡ gate_signal kind delay (filter_map (slice_get all.now) ins.now)) }
{
    // For the prover: this read says that the delay is in range.
    let _rise = delay.rise;
    let signal = uncapped(scratch, kind, delay, all, ins)?;
    capped(signal)
}

/// The possible levels of the output of such a gate, with all changes.
fn uncapped(
    scratch: &mut Scratch,
    kind: Kind,
    delay: Delay,
    all: &[Wave],
    ins: &[u32],
) -> Result<Wave, AllocError>
    requires places { All (λ place. place < length all.now) ins.now }
    requires few { length ins.now ≤ 1024 }
    requires takes { TakesInputs kind (length ins.now) }
    requires within { All (λ signal. AreWithin (2 ^ 63) signal.changes) (waves_of all.now ins.now) }
    ensures shows { IfOk result (λ wave. (n : ℕ) → before wave n ≡ possible kind delay (waves_of all.now ins.now) n) }
    ensures wave { IfOk result (λ wave. IsWave wave) }
{
    let space = scratch.space();
    match ins.len() {
        1 => output_of_one(scratch.alloc, kind, delay, &all[ins[0] as usize], space),
        2 => output_of_two(
            kind,
            delay,
            &all[ins[0] as usize],
            &all[ins[1] as usize],
            space,
        ),
        _ => output_of_many(scratch, kind, delay, all, ins, space),
    }
}

/// The possible levels of the output of a gate with any number of inputs, from the wave of its
/// target.
fn output_of_many(
    scratch: &mut Scratch,
    kind: Kind,
    delay: Delay,
    all: &[Wave],
    ins: &[u32],
    space: Vec<Change>,
) -> Result<Wave, AllocError>
    requires space { space.items ≡ [] }
    requires places { All (λ place. place < length all.now) ins.now }
    requires few { length ins.now ≤ 1024 }
    requires takes { TakesInputs kind (length ins.now) }
    requires within { All (λ signal. AreWithin (2 ^ 63) signal.changes) (waves_of all.now ins.now) }
    ensures shows { IfOk result (λ wave. (n : ℕ) → before wave n ≡ possible kind delay (waves_of all.now ins.now) n) }
    ensures wave { IfOk result (λ wave. IsWave wave) }
{
    let target_space = scratch.target_space();
    let target = target_in(&mut scratch.turns, kind, all, ins, target_space)?;
    let wave = possible_after(delay, &target, space)?;
    scratch.keep_target(target.into_changes());
    Ok(wave)
}

/// The possible levels of an output whose target has these.
fn possible_after(delay: Delay, target: &Wave, space: Vec<Change>) -> Result<Wave, AllocError>
    requires within { AreWithin (2 ^ 63) target.now.changes }
    requires space { space.items ≡ [] }
    ensures shows { IfOk result (λ wave. (n : ℕ) → before wave n ≡ possible_after delay (before target.now) n) }
    ensures wave { IfOk result (λ wave. IsWave wave) }
{
    let reversed = reversed(delay);
    let start = target.start();
    let mut now = begun(start);
    let mut changes = space;
    changes.reserve(target.changes().len())?;
    for change in target.changes() {
        let next = pass(&mut changes, now, reversed, delay, *change)?;
        now = next;
    }
    finish(&mut changes, now)?;
    Ok(Wave::from_changes(start, changes))
}

/// The delay with rise and fall exchanged.
pub(crate) fn reversed(delay: Delay) -> Delay
    ensures exchanged { result ≡ record { rise = delay.fall; fall = delay.rise } }
    ensures in_range { IsInRange delay }
{
    Delay {
        rise: delay.fall,
        fall: delay.rise,
    }
}

/// The level after these changes.
fn last_level(start: Level, changes: &[Change]) -> Level
    ensures { result ≡ last_level start changes.now }
{
    match changes.last() {
        Some(change) => change.level,
        None => start,
    }
}

/// Makes both levels possible from this moment on.
fn widen(changes: &mut Vec<Change>, start: Level, moment: u64) -> Result<(), AllocError>
    ensures { OnOk result (changes.new.items ≡ changes.old.items ++ change_at moment (last_level start changes.old.items) Level.X) }
{
    if last_level(start, changes) != Level::X {
        changes.push(Change {
            moment,
            level: Level::X,
        })?;
    }
    Ok(())
}

/// The signal with at most `MAX_CHANGES` changes. Where it has more, the first ones stay, and from
/// the next one on both levels are possible.
fn capped(signal: Wave) -> Result<Wave, AllocError>
    ensures { IfOk result (λ wave. wave ≡ record { start = signal.start; changes = capped signal.start signal.changes }) }
{
    let start = signal.start();
    let all = signal.changes();
    if all.len() <= MAX_CHANGES {
        return Ok(signal);
    }
    let moment = all[MAX_CHANGES - 1].moment;
    let mut changes = signal.into_changes();
    changes.truncate(MAX_CHANGES - 1);
    widen(&mut changes, start, moment)?;
    Ok(Wave::from_changes(start, changes))
}
