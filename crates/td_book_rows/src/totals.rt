//! The settlements of four threads, added up.

ghost use Rattle.std.specs.Prelude.{◌≡◌, ◌+◌, ◌<◌, IfOk, IfSome};

use crate::claims::free_book;
use std::alloc::{AllocError, Global};
use std::marker::Brand;
use std::sync::ledger::{Blank, Ledger, Share};
use std::sync::{Mutex, Wait};
use std::test::Fail;
use std::thread;
use std::thread::{Promise, Threads};
use td_book::{Claim, Counted, Lease, Mark};

// What a thread has: one part of the ledger.
#[derive(Drop)]
struct History<L: Ledger> {
    share: Share<L>,
    ghost one_part: { share.parts ≡ 1 },
}

// What a thread promises: nothing but a hand.
#[derive(Drop)]
struct Promised;

impl<L: Ledger> Promise<History<L>> for Promised {
    ghost use Rattle.std.specs.Prelude.{⊤};

    ghost kept_by = { λ _ _. ⊤ };
}

// The lease that a claim gives, if it gives one.
fn leased<L: Ledger>(book: &mut Counted<L>, worker: u32) -> Result<Option<Lease>, AllocError> {
    if worker >= book.workers() {
        return Ok(None);
    }
    match book.claim(worker)? {
        Claim::Lease(lease) => Ok(Some(lease)),
        Claim::Idle | Claim::Done | Claim::Spent => Ok(None),
    }
}

// Splits the first open leaf at its least free position.
fn split_next<L: Ledger>(book: &mut Counted<L>, share: &mut Share<L>) -> Result<bool, AllocError>
    requires { 0 < share.old.parts }
    ensures { share.new.parts ≡ share.old.parts }
{
    let Some(lease) = leased(book, 0)? else {
        return Ok(false);
    };
    let Some(position) = lease.cube.least_free() else {
        return Ok(false);
    };
    Ok(book.split(lease, position, share).is_ok())
}

// A book of four workers with a budget of 7, and three splits made.
fn split_book<L: Ledger>(
    alloc: Global,
    blank: Blank,
) -> Result<Option<(Counted<L>, Share<L>)>, AllocError>
    requires name { blank.name ≡ L.name }
    requires parts { blank.parts ≡ L.parts }
    requires some { 0 < blank.parts }
    ensures { IfOk result (λ found. IfSome found (λ both. both.1.parts ≡ L.parts)) }
{
    let (ledger, mut all) = blank.open::<L>();
    let mut book = Counted::new(free_book(alloc, 2, 4, 7)?, ledger);
    if split_next(&mut book, &mut all)?
        && split_next(&mut book, &mut all)?
        && split_next(&mut book, &mut all)?
    {
        return Ok(Some((book, all)));
    }
    Ok(None)
}

// Claims a leaf and closes it, with one hold of the lock for each.
fn close_one<L: Ledger, R: Wait>(
    rt: &R,
    book: &Mutex<Counted<L>>,
    share: &mut Share<L>,
    worker: u32,
) -> bool
    requires { 0 < share.old.parts }
    ensures { share.new.parts ≡ share.old.parts }
{
    let lease = leased(&mut book.lock(rt), worker);
    match lease {
        Ok(Some(lease)) => book.lock(rt).close(lease, Mark::Point, 0, 0, share).is_ok(),
        Ok(None) | Err(_) => false,
    }
}

// Closes one leaf.
fn work<L: Ledger, R: Wait>(
    rt: &R,
    book: &Mutex<Counted<L>>,
    history: History<L>,
    worker: u32,
) -> History<L> {
    let History { mut share } = history;
    let _closed = close_one(rt, book, &mut share, worker);
    History { share }
}

// The number of settlements, once all shares are merged.
fn audited<L: Ledger, R: Wait>(
    rt: &R,
    book: &Mutex<Counted<L>>,
    one: Share<L>,
    two: Share<L>,
    three: Share<L>,
    four: Share<L>,
) -> u64
    requires { one.parts + two.parts + three.parts + four.parts ≡ L.parts }
{
    let mut all = one;
    all.merge(two);
    all.merge(three);
    all.merge(four);
    book.lock(rt).audit(&mut all)
}

// Four threads, all started before one is joined, close a leaf each.
fn run_four<L: Ledger + Send + Sync, R: Threads + Wait + Sync>(
    rt: &R,
    book: &Mutex<Counted<L>>,
    first: History<L>,
    second: History<L>,
    third: History<L>,
    fourth: History<L>,
) -> Result<(History<L>, History<L>, History<L>, History<L>), AllocError> {
    thread::scope(
        thread::scope_env(),
        rt,
        |scope| -> Result<(History<L>, History<L>, History<L>, History<L>), AllocError> {
            let first = scope.spawn_with(Promised, move || work(rt, book, first, 0))?;
            let second = scope.spawn_with(Promised, move || work(rt, book, second, 1))?;
            let third = scope.spawn_with(Promised, move || work(rt, book, third, 2))?;
            let fourth = scope.spawn_with(Promised, move || work(rt, book, fourth, 3))?;
            Ok((
                first.join(rt),
                second.join(rt),
                third.join(rt),
                fourth.join(rt),
            ))
        },
    )
}

// One part of a share.
fn part_of<L: Ledger>(all: &mut Share<L>) -> History<L>
    requires { 1 < all.old.parts }
    ensures { all.new.parts + 1 ≡ all.old.parts }
{
    History {
        share: all.split_off(1, 0),
    }
}

// The number of settlements, once four threads have closed a leaf each.
fn totals<L: Ledger + Send + Sync, R: Threads + Wait + Sync>(
    rt: &R,
    alloc: Global,
    blank: Blank,
) -> Result<Option<u64>, AllocError>
    requires name { blank.name ≡ L.name }
    requires parts { blank.parts ≡ L.parts }
    requires four { blank.parts ≡ 4 }
{
    let Some((book, mut all)) = split_book::<L>(alloc, blank)? else {
        return Ok(None);
    };
    let shared = Mutex::new(book);
    let second = part_of(&mut all);
    let third = part_of(&mut all);
    let fourth = part_of(&mut all);
    let first = History { share: all };
    let (one, two, three, four) = run_four(rt, &shared, first, second, third, fourth)?;
    Ok(Some(audited(rt, &shared, one.share, two.share, three.share, four.share)))
}

// As `totals`, with a ledger of its own.
fn own_totals<R: Threads + Wait + Sync>(rt: &R, alloc: Global) -> Result<Option<u64>, AllocError> {
    totals::<Brand, R>(rt, alloc, Blank::new(4))
}

#[test]
fn totals_agree(rt: HostRuntime) -> Result<(), Fail> {
    assert!(rt; own_totals(&rt, rt.alloc())? == Some(7));
    Ok(())
}
