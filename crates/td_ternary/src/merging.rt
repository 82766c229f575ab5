//! A gate with two inputs: the possible levels of its output in one pass over the changes of both.

ghost use Rattle.std.specs.Prelude.{◌≡◌, ℕ, ◌≤◌, ◌+◌, ◌^◌, [], ◌∷◌, ◌++◌, drop, length, min, IfOk, OnOk};
ghost use Rattle.td_gates.specs.Wave.{before, IsWave};
ghost use Rattle.td_run.specs.Waves.{AreWithin};
ghost use Rattle.td_ternary.specs.Possibles.{possible};
ghost use Rattle.td_ternary.specs.Prospects.{earlier};
ghost use Rattle.td_ternary.specs.Tracks.{outlook_of};
ghost use Rattle.td_ternary.specs.Merging.{beside_one, first_moment, level_behind, rest_behind, shifted, shifting};

use crate::gates::{MAX_CHANGES, reversed};
use crate::tracks::{Tracks, begun, finish, pass};
use std::alloc::{AllocError, Global};
use td_domain::level_of_two;
use td_gates::{Change, Delay, Kind, Level};
use td_run::Wave;

/// How far a signal is read: the place of its next change, and its level before that.
#[derive(Clone, Copy, Debug, PartialEq, Eq, Drop)]
pub struct Reading {
    pub place: usize,
    pub level: Level,
}

/// The moment of the change at a place, if one is there.
#[inline(always)]
fn moment_at(changes: &[Change], place: usize) -> Option<u64>
    ensures { result ≡ first_moment (drop place changes.now) }
{
    match changes.get(place) {
        Some(change) => Some(change.moment),
        None => None,
    }
}

/// The earlier of the moments that are there.
#[inline(always)]
fn earlier(this: Option<u64>, that: Option<u64>) -> Option<u64>
    ensures { result ≡ earlier this that }
{
    match (this, that) {
        (None, _) => that,
        (Some(moment), None) => Some(moment),
        (Some(moment), Some(other)) => Some(moment.min(other)),
    }
}

/// Reads the signal past this moment, before which it has no other change.
#[inline(always)]
fn read(changes: &[Change], reading: Reading, moment: u64) -> Reading
    ensures level { result.level ≡ level_behind moment reading.level (drop reading.place changes.now) }
    ensures rest { drop result.place changes.now ≡ rest_behind moment (drop reading.place changes.now) }
{
    match changes.get(reading.place) {
        Some(change) if change.moment == moment => Reading {
            place: reading.place + 1,
            level: change.level,
        },
        _ => reading,
    }
}

/// The target is read at a moment: where its level is another one, it changes. Room for the changes
/// is taken where the first is known to come, since for many gates none does.
#[inline(always)]
fn shift(
    changes: &mut Vec<Change>,
    now: Tracks,
    falling: Delay,
    rising: Delay,
    sample: Change,
    space: usize,
) -> Result<Tracks, AllocError>
    requires { sample.moment ≤ 2 ^ 63 }
    ensures outlook { IfOk result (λ after. outlook_of after ≡ shifted falling rising sample now.target (outlook_of now)) }
    ensures target { IfOk result (λ after. after.target ≡ sample.level) }
    ensures changes { OnOk result (changes.new.items ≡ changes.old.items ++ shifting sample now.target (outlook_of now)) }
{
    if sample.level == now.target {
        return Ok(now);
    }
    if changes.capacity() == 0 {
        changes.reserve_exact(space)?;
    }
    pass(changes, now, falling, rising, sample)
}

/// The possible levels of the output of a gate whose two inputs have these signals, in the memory
/// of `space`.
pub fn output_of_two(
    kind: Kind,
    delay: Delay,
    left: &Wave,
    right: &Wave,
    space: Vec<Change>,
) -> Result<Wave, AllocError>
    requires space { space.items ≡ [] }
    requires left { AreWithin (2 ^ 63) left.now.changes }
    requires right { AreWithin (2 ^ 63) right.now.changes }
    ensures shows { IfOk result (λ wave. (n : ℕ) → before wave n ≡ possible kind delay (left.now ∷ right.now ∷ []) n) }
    ensures wave { IfOk result (λ wave. IsWave wave) }
{
    let falling = reversed(delay);
    let lefts = left.changes();
    let rights = right.changes();
    let mut first = Reading {
        place: 0,
        level: left.start(),
    };
    let mut second = Reading {
        place: 0,
        level: right.start(),
    };
    let start = level_of_two(kind, first.level, second.level);
    let mut now = begun(start);
    let most = space_for(lefts, rights);
    let mut changes = space;
    while let Some(moment) = earlier(
        moment_at(lefts, first.place),
        moment_at(rights, second.place),
    ) {
        first = read(lefts, first, moment);
        second = read(rights, second, moment);
        let level = level_of_two(kind, first.level, second.level);
        let next = shift(
            &mut changes,
            now,
            falling,
            delay,
            Change { moment, level },
            most,
        )?;
        now = next;
    }
    finish(&mut changes, now)?;
    Ok(Wave::from_changes(start, changes))
}

/// The kind of a gate with two inputs that makes of a level beside a 1 what a gate of this kind
/// makes of the level alone.
fn beside_one(kind: Kind) -> Kind
    ensures { result ≡ beside_one kind }
{
    match kind {
        Kind::And | Kind::Or | Kind::Xor | Kind::Buf => Kind::And,
        Kind::Nand | Kind::Nor | Kind::Xnor | Kind::Not => Kind::Nand,
    }
}

/// The possible levels of the output of a gate whose one input has this signal: those of a gate
/// that has a constant 1 beside it.
pub fn output_of_one(
    alloc: Global,
    kind: Kind,
    delay: Delay,
    input: &Wave,
    space: Vec<Change>,
) -> Result<Wave, AllocError>
    requires space { space.items ≡ [] }
    requires within { AreWithin (2 ^ 63) input.now.changes }
    ensures shows { IfOk result (λ wave. (n : ℕ) → before wave n ≡ possible kind delay (input.now ∷ []) n) }
    ensures wave { IfOk result (λ wave. IsWave wave) }
{
    let ones = Wave::from_changes(Level::One, Vec::new(alloc));
    output_of_two(beside_one(kind), delay, input, &ones, space)
}

/// How many changes the output is given room for: as many as both inputs have.
fn space_for(lefts: &[Change], rights: &[Change]) -> usize
    ensures { result ≡ min (length lefts.now + length rights.now) 512 }
{
    lefts.len().saturating_add(rights.len()).min(MAX_CHANGES)
}
