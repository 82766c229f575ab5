//! The possible levels of an output, from change to change of its target. All stands in the loops
//! that call it (`inline`), so that both levels stay in registers there.

ghost use Rattle.std.specs.Prelude.{◌≡◌, ◌≤◌, ◌<◌, ◌-◌, ◌^◌, ◌++◌, None, Some, IfOk, OnOk};
ghost use Rattle.td_ternary.specs.Possibles.{change_at};
ghost use Rattle.td_ternary.specs.Turning.{may_be, either};
ghost use Rattle.td_ternary.specs.Prospects.{begun, fired, turned, stepped, stepping, driven, settled, settling, passed};
ghost use Rattle.td_ternary.specs.Tracks.{prospect_of, outlook_of};

use std::alloc::AllocError;
use td_gates::{Change, Delay, Level};

/// The moment of what never happens.
const NEVER: u64 = u64::MAX;

/// One level over time.
#[derive(Clone, Copy, Debug, PartialEq, Eq, Drop)]
pub struct Track {
    /// 1 where the output may be the level, else 0.
    pub output: Level,
    /// The moment at which it turns to what the target may be, `NEVER` where it stays.
    pub due: u64,
}

/// Both levels over time.
#[derive(Clone, Copy, Debug, PartialEq, Eq, Drop)]
pub struct Tracks {
    /// The target's level.
    pub target: Level,
    /// The output's level, which stands for those that are possible.
    pub level: Level,
    pub zero: Track,
    pub one: Track,
}

/// 1 where a signal's level stands for this one too, else 0.
fn may_be(signal: Level, level: Level) -> Level
    ensures { result ≡ may_be level signal }
{
    match (signal, level) {
        (Level::Zero, Level::Zero) => Level::One,
        (Level::One, Level::One) => Level::One,
        (Level::X, Level::Zero) => Level::One,
        (Level::X, Level::One) => Level::One,
        (_, _) => Level::Zero,
    }
}

/// The level that stands for those whose wave is at 1.
fn either(zero: Level, one: Level) -> Level
    ensures { result ≡ either zero one }
{
    match (zero, one) {
        (Level::One, Level::One) => Level::X,
        (Level::One, _) => Level::Zero,
        (_, _) => Level::One,
    }
}

/// The track of a level after a moment: what is due by then takes place.
#[inline(always)]
fn fired(track: Track, level: Level, target: Level, moment: u64) -> Track
    requires { moment < 2 ^ 64 - 1 }
    ensures { prospect_of level target result ≡ fired moment (prospect_of level target track) }
{
    if track.due <= moment {
        Track {
            output: may_be(target, level),
            due: NEVER,
        }
    } else {
        track
    }
}

/// Both levels after a moment: what is due by then takes place.
#[inline(always)]
fn turned(now: Tracks, moment: u64) -> Tracks
    requires { moment < 2 ^ 64 - 1 }
    ensures { outlook_of result ≡ turned (Some moment) (outlook_of now) }
{
    let zero = fired(now.zero, Level::Zero, now.target, moment);
    let one = fired(now.one, Level::One, now.target, moment);
    let level = either(zero.output, one.output);
    Tracks {
        target: now.target,
        level,
        zero,
        one,
    }
}

/// Adds the change of a moment, where the level is another one then.
#[inline(always)]
fn add_change(
    changes: &mut Vec<Change>,
    moment: u64,
    old: Level,
    new: Level,
) -> Result<(), AllocError>
    ensures { OnOk result (changes.new.items ≡ changes.old.items ++ change_at moment old new) }
{
    if old != new {
        changes.push(Change { moment, level: new })?;
    }
    Ok(())
}

/// The next events that are due by the end take place. The signal's change, if it has one, is
/// added.
#[inline(always)]
fn step(changes: &mut Vec<Change>, now: Tracks, end: u64) -> Result<Tracks, AllocError>
    requires { end < 2 ^ 64 - 1 }
    ensures outlook { IfOk result (λ after. outlook_of after ≡ stepped (Some end) (outlook_of now)) }
    ensures changes { OnOk result (changes.new.items ≡ changes.old.items ++ stepping (Some end) (outlook_of now)) }
{
    let moment = now.zero.due.min(now.one.due);
    if moment > end {
        return Ok(now);
    }
    let after = turned(now, moment);
    add_change(changes, moment, now.level, after.level)?;
    Ok(after)
}

/// The events that are due by the end take place.
#[inline(always)]
fn settle(changes: &mut Vec<Change>, now: Tracks, end: u64) -> Result<Tracks, AllocError>
    requires { end < 2 ^ 64 - 1 }
    ensures outlook { IfOk result (λ after. outlook_of after ≡ settled (Some end) (outlook_of now)) }
    ensures changes { OnOk result (changes.new.items ≡ changes.old.items ++ settling (Some end) (outlook_of now)) }
{
    let first = step(changes, now, end)?;
    step(changes, first, end)
}

/// All events that are left take place.
pub fn finish(changes: &mut Vec<Change>, now: Tracks) -> Result<(), AllocError>
    ensures { OnOk result (changes.new.items ≡ changes.old.items ++ settling None (outlook_of now)) }
{
    let _after = settle(changes, now, NEVER - 1)?;
    Ok(())
}

/// The track of a level after a change of the target. Where it changes whether the target may be
/// the level, this schedules an event, or takes one back.
#[inline(always)]
fn driven(track: Track, level: Level, target: Level, delay: Delay, change: Change) -> Track
    requires { change.moment ≤ 2 ^ 63 }
    ensures { prospect_of level change.level result ≡ driven level delay change (prospect_of level target track) }
{
    let may = may_be(change.level, level);
    if may == may_be(target, level) {
        return track;
    }
    let due = if may == track.output {
        NEVER
    } else {
        change.moment + delay.to(may)
    };
    Track {
        output: track.output,
        due,
    }
}

/// Both levels of an output whose target has had one level so far.
pub fn begun(start: Level) -> Tracks
    ensures outlook { outlook_of result ≡ begun start }
    ensures target { result.target ≡ start }
{
    Tracks {
        target: start,
        level: start,
        zero: Track {
            output: may_be(start, Level::Zero),
            due: NEVER,
        },
        one: Track {
            output: may_be(start, Level::One),
            due: NEVER,
        },
    }
}

/// What is due by a change of the target takes place, and then the target changes.
#[inline(always)]
pub fn pass(
    changes: &mut Vec<Change>,
    now: Tracks,
    falling: Delay,
    rising: Delay,
    change: Change,
) -> Result<Tracks, AllocError>
    requires { change.moment ≤ 2 ^ 63 }
    ensures outlook { IfOk result (λ after. outlook_of after ≡ passed falling rising change (outlook_of now)) }
    ensures target { IfOk result (λ after. after.target ≡ change.level) }
    ensures changes { OnOk result (changes.new.items ≡ changes.old.items ++ settling (Some change.moment) (outlook_of now)) }
{
    let after = settle(changes, now, change.moment)?;
    Ok(Tracks {
        target: change.level,
        level: after.level,
        zero: driven(after.zero, Level::Zero, after.target, falling, change),
        one: driven(after.one, Level::One, after.target, rising, change),
    })
}
