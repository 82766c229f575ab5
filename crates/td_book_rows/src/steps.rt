//! Steps of a book, each of which tells what came of it.

ghost use Rattle.std.specs.Prelude.{◌≡◌};

use crate::claims::{claimed, claimed_at};
use std::alloc::{AllocError, Global};
use td_book::{Book, BoundedBy, GraftFault, Lease, Mark, SplitFault, Stranger, Subtree};
use td_domain::{Cube, Trit};

fn letter(trit: Trit) -> char {
    match trit {
        Trit::Zero => '0',
        Trit::One => '1',
        Trit::Free => '.',
    }
}

/// A lease in words: its worker, number, cube and allowance.
fn push_lease(reported: &mut String, alloc: Global, lease: &Lease) -> Result<(), AllocError> {
    let Lease {
        worker,
        number,
        allowance,
        ..
    } = lease;
    reported.push_str(&format!(in alloc; "{worker} {number} {allowance} ")?)?;
    for position in 0..lease.cube.len() {
        reported.push(letter(lease.cube.trit(position)))?;
    }
    reported.push_str("\n")
}

/// Keeps a lease that a claim gave, and reports it.
fn keep(
    reported: &mut String,
    alloc: Global,
    leases: &mut Vec<Lease>,
    lease: Lease,
) -> Result<(), AllocError> {
    push_lease(reported, alloc, &lease)?;
    Ok(leases.push(lease)?)
}

/// The first open leaf, for this worker.
fn claim(
    reported: &mut String,
    alloc: Global,
    book: &mut Book,
    leases: &mut Vec<Lease>,
    worker: u32,
) -> Result<(), AllocError> {
    match claimed(book, worker)? {
        Ok(lease) => keep(reported, alloc, leases, lease),
        Err(why) => reported.push_str(&format!(in alloc; "{why}\n")?),
    }
}

/// The leaf of this number, for this worker.
fn claim_at(
    reported: &mut String,
    alloc: Global,
    book: &mut Book,
    leases: &mut Vec<Lease>,
    worker: u32,
    number: u32,
) -> Result<(), AllocError> {
    match claimed_at(book, worker, number)? {
        Some(lease) => keep(reported, alloc, leases, lease),
        None => reported.push_str("none\n"),
    }
}

/// A lease that comes back.
fn push_stranger(reported: &mut String, alloc: Global, lease: &Lease) -> Result<(), AllocError> {
    reported.push_str("stranger ")?;
    push_lease(reported, alloc, lease)
}

/// Splits a leased leaf at its least free position.
fn split(
    reported: &mut String,
    alloc: Global,
    book: &mut Book,
    lease: Lease,
) -> Result<(), AllocError> {
    let Some(position) = lease.cube.least_free() else {
        return reported.push_str("a point\n");
    };
    match book.split(lease, position) {
        Ok((zero, one)) => reported.push_str(&format!(in alloc; "split {zero} {one}\n")?),
        Err(SplitFault::Stranger(lease)) => push_stranger(reported, alloc, &lease),
        Err(SplitFault::OutOfMemory(_)) => Err(AllocError),
    }
}

/// Closes a leased leaf with the bound 3 under the cut 4.
fn close(
    reported: &mut String,
    alloc: Global,
    book: &mut Book,
    lease: Lease,
    mark: Mark,
) -> Result<(), AllocError> {
    match book.close(lease, mark, 3, 4) {
        Ok(()) => reported.push_str("closed\n"),
        Err(Stranger(lease)) => push_stranger(reported, alloc, &lease),
    }
}

fn release(
    reported: &mut String,
    alloc: Global,
    book: &mut Book,
    lease: Lease,
) -> Result<(), AllocError> {
    match book.release(lease) {
        Ok(()) => reported.push_str("released\n"),
        Err(Stranger(lease)) => push_stranger(reported, alloc, &lease),
    }
}

/// Splits the leaf that comes next in a private tree, or closes it where nothing is free in it or
/// the bit is set. Answers false where nothing may be done.
fn dig_one(tree: &mut Subtree, closes: bool) -> bool
    ensures { tree.new.cube ≡ tree.old.cube }
{
    if tree.is_full() {
        return false;
    }
    let free = match tree.next() {
        Some(cube) => cube.least_free(),
        None => return false,
    };
    match free {
        Some(position) if position < 100 && !closes => tree.split(position),
        _ => tree.close(Mark::Point, 3, 4),
    }
    true
}

/// Handles up to this number of nodes of a private tree, and closes where the bits of the seed say
/// so.
pub fn dig(tree: &mut Subtree, nodes: u32, seed: u64)
    ensures { tree.new.cube ≡ tree.old.cube }
{
    let mut bits = seed;
    for _ in 0..nodes {
        if !dig_one(tree, bits % 4 == 3) {
            return;
        }
        bits = bits.rotate_right(3);
    }
}

/// The numbers that a graft leaves open.
fn push_numbers(reported: &mut String, alloc: Global, left: &[u32]) -> Result<(), AllocError> {
    reported.push_str("grafted")?;
    for number in left {
        reported.push_str(&format!(in alloc; " {number}")?)?;
    }
    reported.push_str("\n")
}

/// Grafts a private tree of at most five nodes.
fn graft(
    reported: &mut String,
    alloc: Global,
    book: &mut Book,
    lease: Lease,
    seed: u64,
) -> Result<(), AllocError> {
    let mut tree = Subtree::new(alloc, &lease)?;
    dig(&mut tree, 5, seed);
    let settled = tree.states().len();
    if settled == 0 || settled > lease.allowance as usize {
        return reported.push_str("nothing to graft\n");
    }
    match book.graft(lease, tree) {
        Ok(left) => push_numbers(reported, alloc, &left),
        Err(GraftFault::Stranger(lease, tree)) => {
            reported.push_str(&format!(in alloc; "{} in a tree, ", tree.states().len())?)?;
            push_stranger(reported, alloc, &lease)
        }
        Err(GraftFault::OutOfMemory(..)) => Err(AllocError),
    }
}

/// A copy of a lease with something else, as the letter says: another worker, number, allowance,
/// first trit, or number of trits.
fn altered(alloc: Global, lease: &Lease, letter: u8) -> Result<Lease, AllocError> {
    let mut cube = lease.cube.copy(alloc)?;
    if letter == b'k' && cube.len() > 0 {
        cube.set(0, Trit::One);
    }
    if letter == b'm' {
        cube = Cube::new(Vec::from_slice(alloc, &[Trit::Free])?);
    }
    Ok(Lease {
        worker: if letter == b'w' { 0 } else { lease.worker },
        number: if letter == b'n' { 7 } else { lease.number },
        cube,
        allowance: if letter == b'l' { 2 } else { lease.allowance },
    })
}

/// Puts such a copy of the latest lease after it.
fn alter(alloc: Global, leases: &mut Vec<Lease>, letter: u8) -> Result<(), AllocError> {
    let copy = match leases.last() {
        Some(lease) => altered(alloc, lease, letter)?,
        None => return Ok(()),
    };
    Ok(leases.push(copy)?)
}

/// What is done with the latest lease.
fn settle(
    reported: &mut String,
    alloc: Global,
    book: &mut Book,
    lease: Lease,
    letter: u8,
) -> Result<(), AllocError> {
    match letter {
        b's' => split(reported, alloc, book, lease),
        b'b' => close(
            reported,
            alloc,
            book,
            lease,
            Mark::Bound(BoundedBy::Arrival),
        ),
        b'p' => close(reported, alloc, book, lease, Mark::Point),
        b'e' => close(reported, alloc, book, lease, Mark::Empty),
        b'g' => graft(reported, alloc, book, lease, 0),
        b'h' => graft(reported, alloc, book, lease, 0o3030),
        _ => release(reported, alloc, book, lease),
    }
}

/// A step, as a letter says: a digit claims a leaf for this worker, a capital letter the leaf 0, 1
/// or 2 for worker 0 (A, B, C) or 1 (X, Y, Z), c, w, n, l, k and m copy the latest lease, as it is
/// or altered, and the others give it back.
fn step(
    reported: &mut String,
    alloc: Global,
    book: &mut Book,
    leases: &mut Vec<Lease>,
    letter: u8,
) -> Result<(), AllocError> {
    match letter {
        b'0' => claim(reported, alloc, book, leases, 0),
        b'1' => claim(reported, alloc, book, leases, 1),
        b'A' => claim_at(reported, alloc, book, leases, 0, 0),
        b'B' => claim_at(reported, alloc, book, leases, 0, 1),
        b'C' => claim_at(reported, alloc, book, leases, 0, 2),
        b'X' => claim_at(reported, alloc, book, leases, 1, 0),
        b'Y' => claim_at(reported, alloc, book, leases, 1, 1),
        b'Z' => claim_at(reported, alloc, book, leases, 1, 2),
        b'c' | b'w' | b'n' | b'l' | b'k' | b'm' => alter(alloc, leases, letter),
        _ => match leases.pop() {
            Some(lease) => settle(reported, alloc, book, lease, letter),
            None => reported.push_str("no lease\n"),
        },
    }
}

/// What comes of these steps, a line for each that tells something, and how many nodes are handled
/// then.
pub fn reported(alloc: Global, book: &mut Book, steps: &str) -> Result<String, AllocError> {
    let mut reported = String::new(alloc);
    let mut leases = Vec::new(alloc);
    for letter in steps.bytes() {
        step(&mut reported, alloc, book, &mut leases, letter)?;
    }
    reported.push_str(&format!(in alloc; "{} handled\n", book.handled())?)?;
    Ok(reported)
}
