ghost use Rattle.std.specs.Prelude.{◌≡◌, ◌<◌, max, IfOk, IfSome};

use crate::{Incumbent, Seat};
use std::alloc::{AllocError, Global};
use std::snapshot::Snapshot;
use std::sync::Wait;
use std::test::Fail;
use std::thread;
use std::thread::{Promise, Threads};

#[test]
fn other_seat_sees(rt: HostRuntime) -> Result<(), Fail> {
    let (word, mut seats) = Incumbent::new(rt.alloc(), 2)?;
    let (Some(mut second), Some(mut first)) = (seats.pop(), seats.pop()) else {
        panic!(rt; "two seats")
    };
    assert!(rt; word.look(&mut first) == 0);
    assert!(rt; word.raise(&mut first, 5) == 5);
    assert!(rt; word.look(&mut second) == 5);
    assert!(rt; word.raise(&mut second, 3) == 5);
    assert!(rt; word.look(&mut first) == 5);
    Ok(())
}

// How many seats there are, and what the last one sees.
fn opened(alloc: Global, seats: usize) -> Result<(usize, Option<u64>), AllocError>
    requires { 0 < seats }
{
    let (word, mut all) = Incumbent::new(alloc, seats)?;
    let count = all.len();
    let Some(mut last) = all.pop() else {
        return Ok((count, None));
    };
    Ok((count, Some(word.look(&mut last))))
}

#[test]
fn one_seat_and_64(rt: HostRuntime) -> Result<(), Fail> {
    assert!(rt; opened(rt.alloc(), 1)? == (1, Some(0)));
    assert!(rt; opened(rt.alloc(), 64)? == (64, Some(0)));
    Ok(())
}

// What a thread promises: the seat that it was given, with this offer made.
#[derive(Drop)]
struct Promised(Snapshot<Seat>, u64);

impl Promise<Seat> for Promised {
    ghost use Rattle.std.specs.Prelude.{◌≡◌, max};

    ghost kept_by = { λ p s. s ≡ record p.0.value { seen = s.seen; offer = max p.0.value.offer p.1 } };
}

fn offered(word: &Incumbent, mut seat: Seat, offer: u64) -> Seat
    requires { seat.table ≡ word.now.table }
    ensures { result ≡ record seat { seen = result.seen; offer = max seat.offer offer } }
{
    word.raise(&mut seat, offer);
    seat
}

// Four threads, all started before one is joined, make these offers: the greatest comes out.
fn greatest<R: Threads + Wait + Sync>(
    rt: &R,
    alloc: Global,
    a: u64,
    b: u64,
    c: u64,
    d: u64,
) -> Result<Option<u64>, AllocError>
    ensures { IfOk result (λ r. IfSome r (λ x. x ≡ max (max (max a b) c) d)) }
{
    let (word, mut seats) = Incumbent::new(alloc, 4)?;
    let Some(fourth) = seats.pop() else {
        return Ok(None);
    };
    let Some(third) = seats.pop() else {
        return Ok(None);
    };
    let Some(second) = seats.pop() else {
        return Ok(None);
    };
    let Some(first) = seats.pop() else {
        return Ok(None);
    };
    let shared = &word;
    let (one, two, three, four) = thread::scope(
        thread::scope_env(),
        rt,
        |scope| -> Result<(Seat, Seat, Seat, Seat), AllocError>
            requires first { first.table ≡ shared.now.table }
            requires second { second.table ≡ shared.now.table }
            requires third { third.table ≡ shared.now.table }
            requires fourth { fourth.table ≡ shared.now.table }
            ensures first { IfOk result (λ r. r.0 ≡ record first { seen = r.0.seen; offer = max first.offer a }) }
            ensures second { IfOk result (λ r. r.1 ≡ record second { seen = r.1.seen; offer = max second.offer b }) }
            ensures third { IfOk result (λ r. r.2 ≡ record third { seen = r.2.seen; offer = max third.offer c }) }
            ensures fourth { IfOk result (λ r. r.3 ≡ record fourth { seen = r.3.seen; offer = max fourth.offer d }) }
        {
            let first = scope.spawn_with(Promised(Snapshot::of(&first), a), move || {
                offered(shared, first, a)
            })?;
            let second = scope.spawn_with(Promised(Snapshot::of(&second), b), move || {
                offered(shared, second, b)
            })?;
            let third = scope.spawn_with(Promised(Snapshot::of(&third), c), move || {
                offered(shared, third, c)
            })?;
            let fourth = scope.spawn_with(Promised(Snapshot::of(&fourth), d), move || {
                offered(shared, fourth, d)
            })?;
            Ok((
                first.join(rt),
                second.join(rt),
                third.join(rt),
                fourth.join(rt),
            ))
        },
    )?;
    let pair = word.join(one, two);
    let triple = word.join(pair, three);
    let all = word.join(triple, four);
    Ok(Some(word.close(all)))
}

#[test]
fn offers_of_four_threads(rt: HostRuntime) -> Result<(), Fail> {
    assert!(rt; greatest(&rt, rt.alloc(), 1, 2, 3, 4)? == Some(4));
    assert!(rt; greatest(&rt, rt.alloc(), 9, 3, 8, 7)? == Some(9));
    Ok(())
}
