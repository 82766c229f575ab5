//! A walk from stretch to stretch of places at which a gate's target surely is at a level, or
//! isn't.

ghost use Rattle.std.specs.Prelude.{◌≡◌, ◌≤◌};
ghost use Rattle.td_spans.specs.Walking.{is_before, is_soon, old_since, start_of, window_since, fresh_since, since_by, sure_from, walked, is_last_soon, is_covered};

use crate::variable::Saying;

/// The output is surely at the level from a place on, before the end of a stretch and as long after
/// it as a change to the other level takes.
#[derive(Clone, Copy, Debug, PartialEq, Eq, Drop)]
pub struct Sure {
    pub since: u128,
    pub end: Option<u128>,
}

/// From where on the target surely has been at the level so far, and where the output surely is.
#[derive(Clone, Copy, Debug, PartialEq, Eq, Drop)]
pub struct Walk {
    pub run: Option<u128>,
    pub sure: Option<Sure>,
}

/// Whether a place is before the end, where there is one.
pub fn is_before(place: u128, end: Option<u128>) -> bool
    ensures { result ≡ is_before place end }
{
    match end {
        None => true,
        Some(end) => place < end,
    }
}

// Whether a place is before the end, or fewer than these steps after it.
fn is_soon(place: u128, going: u128, end: Option<u128>) -> bool
    ensures { result ≡ is_soon place going end }
{
    match end {
        None => true,
        Some(end) => place < end || place.saturating_sub(end) < going,
    }
}

// Since when the output surely is at the level, where it is at this place.
fn old_since(sure: Option<Sure>, place: u128, going: u128) -> Option<u128>
    ensures { result ≡ old_since sure place going }
{
    match sure {
        None => None,
        Some(sure) => {
            if sure.since <= place && is_soon(place, going, sure.end) {
                Some(sure.since)
            } else {
                None
            }
        }
    }
}

// Where a run starts that goes on at a place.
fn start_of(run: Option<u128>, place: u128) -> u128
    ensures { result ≡ start_of run place }
{
    match run {
        None => place,
        Some(from) => from,
    }
}

// Since when the output surely is at the level by a window from a place on.
fn window_since(from: u128, next: Option<u128>, coming: u128) -> Option<u128>
    requires { coming ≤ 1000000000 }
    ensures { result ≡ window_since from next coming }
{
    match next {
        None => {
            if from <= 18_446_744_073_709_551_616 {
                Some(from + coming)
            } else {
                None
            }
        }
        Some(next) => {
            if from <= next && coming <= next.saturating_sub(from) {
                Some(from + coming)
            } else {
                None
            }
        }
    }
}

fn fresh_since(run: Option<u128>, place: u128, next: Option<u128>, coming: u128) -> Option<u128>
    requires { coming ≤ 1000000000 }
    ensures { result ≡ fresh_since run place next coming }
{
    if place == 0 {
        Some(0)
    } else {
        window_since(start_of(run, place), next, coming)
    }
}

fn since_by(
    old: Option<u128>,
    run: Option<u128>,
    place: u128,
    next: Option<u128>,
    coming: u128,
) -> Option<u128>
    requires { coming ≤ 1000000000 }
    ensures { result ≡ since_by old run place next coming }
{
    match old {
        None => fresh_since(run, place, next, coming),
        Some(since) => Some(since),
    }
}

fn sure_from(since: Option<u128>, next: Option<u128>) -> Option<Sure>
    ensures { result ≡ sure_from since next }
{
    match since {
        None => None,
        Some(since) => Some(Sure { since, end: next }),
    }
}

/// The walk after a stretch from a place to the next one, where the target surely is at the level
/// in it, or isn't.
pub fn walked(
    walk: Walk,
    passes: bool,
    place: u128,
    next: Option<u128>,
    coming: u128,
    going: u128,
) -> Walk
    requires { coming ≤ 1000000000 }
    ensures { result ≡ walked walk passes place next coming going }
{
    if passes {
        let old = old_since(walk.sure, place, going);
        let since = since_by(old, walk.run, place, next, coming);
        Walk {
            run: Some(start_of(walk.run, place)),
            sure: sure_from(since, next),
        }
    } else {
        Walk {
            run: None,
            sure: walk.sure,
        }
    }
}

// Whether the last place, if there is one, is before the end or soon after it.
fn is_last_soon(last: Option<u64>, going: u128, end: Option<u128>) -> bool
    ensures { result ≡ is_last_soon last going end }
{
    match last {
        Some(last) => is_soon(last as u128, going, end),
        None => match end {
            None => true,
            Some(_end) => false,
        },
    }
}

/// Whether the output surely is at the level at all places of a saying.
pub fn is_covered(sure: Option<Sure>, saying: Saying, going: u128) -> bool
    ensures { result ≡ is_covered sure saying going }
{
    match sure {
        None => false,
        Some(sure) => sure.since <= saying.first as u128
            && is_last_soon(saying.last, going, sure.end),
    }
}
