//! Searches of worked circuits, by one worker and by more.

use crate::circuits::{
    LOST, RECONVERGENT, Reported, SLOW_ARM, WIDE, found, found_alone, found_by, found_with,
};
use crate::decks::{Passing, Refusing};
use crate::prober::Watching;
use std::alloc::{AllocError, Global};
use std::process::Abort;
use std::sync::Wait;
use std::sync::atomic::{AtomicU64, Ordering};
use std::test::*;
use std::thread::Threads;
use td_pool::Deck;
use td_search::Own;

/// What a search by that many workers comes to, and how many pairs it measured.
fn counted<R: Threads + Wait + Sync + Abort>(
    rt: &R,
    alloc: Global,
    netlist: &str,
    workers: u32,
    prober: Watching,
) -> Result<(Reported, u64), Fail> {
    let reported = found(rt, alloc, netlist, &prober, workers, 1_000_000)?;
    Ok((reported, prober.measured.load(Ordering::SeqCst)))
}

/// The root's pair is measured, and a pair for each node that is handled, by a worker and not once
/// more. One worker measures 32 pairs and 10.
#[test]
fn probes_counted(rt: HostRuntime) -> Result<(), Fail> {
    let alloc = rt.alloc();
    for workers in 1..5 {
        let (reported, measured) = counted(
            &rt,
            alloc,
            RECONVERGENT,
            workers,
            Watching::new(0, false),
        )?;
        assert!(&rt;
            (reported.is_exact, reported.low, reported.nodes, measured) == (true, 3, 31, 32)
        );
        let (reported, measured) = counted(&rt, alloc, SLOW_ARM, workers, Watching::new(0, false))?;
        assert!(&rt; reported.is_exact && reported.low == 5 && reported.nodes >= 9);
        assert_eq!(&rt; measured, reported.nodes.saturating_add(1));
        assert!(&rt; workers > 1 || measured == 10);
    }
    Ok(())
}

/// What workers found is taken over at the end: where a worker had the strongest bound of a leaf,
/// the tree has it, though a search in one thread closes each leaf of a slow arm by one domain,
/// which is enough.
#[test]
fn evidence_taken_over(rt: HostRuntime) -> Result<(), Fail> {
    for workers in 1..5 {
        let prober = Watching::new(0, false).with_the_strongest();
        let (reported, measured) = counted(&rt, rt.alloc(), SLOW_ARM, workers, prober)?;
        assert!(&rt; reported.is_exact && reported.low == 5 && reported.by_both >= 1);
        assert_eq!(&rt; measured, reported.nodes.saturating_add(1));
    }
    Ok(())
}

/// Of two workers one waits in its bound until the other has bounded the other half.
#[test]
fn two_probes_at_once(rt: HostRuntime) -> Result<(), Fail> {
    let prober = Watching::new(0, true);
    let reported = found(&rt, rt.alloc(), LOST, &prober, 2, 1_000_000)?;
    assert!(&rt; (reported.is_exact, reported.low, reported.nodes) == (true, 0, 7));
    assert_eq!(&rt; prober.missed.load(Ordering::SeqCst), 0);
    assert_eq!(&rt; prober.bounded.load(Ordering::SeqCst), 2);
    Ok(())
}

#[test]
fn one_worker_answers_as_alone(rt: HostRuntime) -> Result<(), Fail> {
    for budget in 0..10 {
        let reported = found(&rt, rt.alloc(), SLOW_ARM, &Own, 1, budget)?;
        let wanted = found_alone(&rt, rt.alloc(), SLOW_ARM, budget)?;
        assert!(&rt;
            (reported.low, reported.high, reported.nodes) == (wanted.low, wanted.high, wanted.nodes)
        );
        assert!(&rt; reported.is_exact == wanted.is_exact && reported.is_exact == (budget == 9));
    }
    Ok(())
}

#[test]
fn one_and_two_workers_by_strategy(rt: HostRuntime) -> Result<(), Fail> {
    for workers in 1..3 {
        let reported = found_with(&rt, rt.alloc(), RECONVERGENT, workers, 1_000_000)?;
        assert!(&rt; (reported.is_exact, reported.low, reported.nodes) == (true, 3, 31));
        let cut = found_with(&rt, rt.alloc(), RECONVERGENT, workers, 5)?;
        assert!(&rt; !cut.is_exact && cut.low <= 3 && cut.high >= 3 && cut.nodes == 5);
    }
    Ok(())
}

/// What a search comes to where each deck refuses every number.
fn without_numbers<R: Threads + Wait + Sync + Abort>(
    rt: &R,
    alloc: Global,
    workers: u32,
) -> Result<Reported, Fail> {
    let mut decks = Vec::new(alloc);
    for _ in 0..workers {
        decks.push(Refusing)?;
    }
    found_by(rt, alloc, WIDE, decks, workers)
}

#[test]
fn numbers_refused(rt: HostRuntime) -> Result<(), Fail> {
    for workers in 1..5 {
        let reported = without_numbers(&rt, rt.alloc(), workers)?;
        assert!(&rt; (reported.is_exact, reported.low, reported.nodes) == (true, 3, 2047));
    }
    Ok(())
}

/// Decks for that many workers. They count the numbers that they give.
fn counting<'a>(
    alloc: Global,
    workers: usize,
    given: &'a AtomicU64,
) -> Result<Vec<Passing<'a>>, AllocError> {
    let mut decks = Vec::new(alloc);
    for deck in Deck::deal(alloc, workers)? {
        decks.push(Passing { deck, given })?;
    }
    Ok(decks)
}

#[test]
fn numbers_given(rt: HostRuntime) -> Result<(), Fail> {
    let given = AtomicU64::new(0);
    let decks = counting(rt.alloc(), 1, &given)?;
    let reported = found_by(&rt, rt.alloc(), WIDE, decks, 1)?;
    assert!(&rt; (reported.is_exact, reported.low, reported.nodes) == (true, 3, 2047));
    assert!(&rt; given.load(Ordering::SeqCst) >= 1);
    Ok(())
}

/// What another steals and the owner takes, once it has put two numbers, and what is left to steal:
/// as digits, 0 for nothing.
fn taken(mut one: Deck, mut other: Deck) -> [u32; 3] {
    if one.push(5).is_err() || one.push(6).is_err() {
        return [0; 3];
    }
    let stolen = other.steal().unwrap_or(0);
    let own = one.pop().unwrap_or(0);
    [stolen, own, other.steal().unwrap_or(0)]
}

#[test]
fn steals_what_another_put(rt: HostRuntime) -> Result<(), Fail> {
    let mut decks = Deck::deal(rt.alloc(), 3)?;
    assert_eq!(&rt; decks.len(), 3);
    let one = decks.pop().ok_or("a deck")?;
    let other = decks.pop().ok_or("another deck")?;
    assert!(&rt; taken(one, other) == [5, 6, 0]);
    Ok(())
}
