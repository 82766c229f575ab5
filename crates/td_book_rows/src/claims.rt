//! Books for the tests, and what claims of them give.

ghost use Rattle.std.specs.Prelude.{◌≡◌, ◌≤◌, [], IfOk};

use std::alloc::{AllocError, Global};
use td_book::{Book, Claim, Lease};
use td_domain::Cube;

/// A book for this number of inputs. Its root has all pairs.
pub fn free_book(
    alloc: Global,
    inputs: usize,
    workers: u32,
    budget: u64,
) -> Result<Book, AllocError>
    requires inputs { inputs ≤ 100 }
    requires budget { budget ≤ 10000000 }
    ensures { IfOk result (λ book. book.order ≡ []) }
{
    match Book::new(alloc, Cube::free(alloc, inputs)?, workers, budget) {
        Ok(book) => Ok(book),
        Err(_root) => Err(AllocError),
    }
}

/// The lease that a claim gives, or why it gives none.
pub fn claimed(book: &mut Book, worker: u32) -> Result<Result<Lease, &'static str>, AllocError> {
    if worker >= book.workers() {
        return Ok(Err("no worker"));
    }
    Ok(match book.claim(worker)? {
        Claim::Lease(lease) => Ok(lease),
        Claim::Idle => Err("idle"),
        Claim::Done => Err("done"),
        Claim::Spent => Err("spent"),
    })
}

/// The lease that a claim of this node gives, if it gives one.
pub fn claimed_at(book: &mut Book, worker: u32, number: u32) -> Result<Option<Lease>, AllocError> {
    if worker >= book.workers() {
        return Ok(None);
    }
    book.claim_id(worker, number)
}
