//! A book beside a ledger that counts its settlements.

ghost use Rattle.std.specs.Prelude.{◌≡◌, ◌+◌, ◌<◌, ◌≤◌, length, slice_get, Some, IfOk, OnOk, OnErr, IfErr, MatchResult};
ghost use Rattle.td_domain.specs.declared.cubes.Trit.TheVariants.{Free};
ghost use Rattle.td_book.specs.Board.{handled};
ghost use Rattle.td_book.specs.Claimed.{Claimed, ClaimedAt, IsSplitFault};
ghost use Rattle.td_book.specs.GraftFaults.{IsGraftFault};
ghost use Rattle.td_book.specs.Grafting.{Grafted};
ghost use Rattle.td_book.specs.Steps.{Splits, Closes, Releases, IsStranger};

use crate::book::Book;
use crate::lease::{Claim, Lease, SplitFault, Stranger};
use crate::node::Mark;
use crate::subtree::{GraftFault, Subtree};
use std::alloc::AllocError;
use std::sync::ledger;
use std::sync::ledger::{Ledger, Share};

/// A book, and a ledger whose total is the number of the book's settlements. Each worker has a
/// share, and what it settles is added to that.
#[derive(Drop)]
pub struct Counted<L: Ledger> {
    pub book: Book,
    pub ledger: ledger::Book<L>,
    pub ghost counted: { ledger.total ≡ length book.order },
}

impl<L: Ledger> Counted<L> {
    /// A book beside a ledger whose total is the number of its settlements.
    pub fn new(book: Book, ledger: ledger::Book<L>) -> Counted<L>
        requires { ledger.total ≡ length book.order }
        ensures { result.book ≡ book }
    {
        Counted { book, ledger }
    }

    /// The number of positions of the root's cube.
    pub fn positions(&self) -> u32
        ensures { result ≡ length self.now.book.cube }
    {
        self.book.positions()
    }

    /// The number of workers.
    pub fn workers(&self) -> u32
        ensures { result ≡ self.now.book.workers }
    {
        self.book.workers()
    }

    /// As `Book::claim`.
    pub fn claim(&mut self, worker: u32) -> Result<Claim, AllocError>
        requires { worker < self.old.book.workers }
        ensures ok { IfOk result (λ answer. Claimed self.old.book worker answer self.new.book) }
        ensures err { OnErr result (self.new.book ≡ self.old.book) }
    {
        self.book.claim(worker)
    }

    /// As `Book::claim_id`.
    pub fn claim_id(&mut self, worker: u32, number: u32) -> Result<Option<Lease>, AllocError>
        requires { worker < self.old.book.workers }
        ensures ok { IfOk result (λ answer. ClaimedAt self.old.book worker number answer self.new.book) }
        ensures err { OnErr result (self.new.book ≡ self.old.book) }
    {
        self.book.claim_id(worker, number)
    }

    /// As `Book::split`, and the split is added to this share.
    pub fn split(
        &mut self,
        lease: Lease,
        position: usize,
        mine: &mut Share<L>,
    ) -> Result<(u32, u32), SplitFault>
        requires free { slice_get lease.cube position ≡ Some Free }
        requires part { 0 < mine.old.parts }
        ensures ok { IfOk result (λ sides. Splits self.old.book lease position self.new.book × (sides.0 ≡ length self.old.book.nodes) × (sides.1 ≡ length self.old.book.nodes + 1)) }
        ensures err { IfErr result (λ fault. IsSplitFault self.old.book lease fault self.new.book) }
        ensures added { OnOk result (mine.new.amount ≡ mine.old.amount + 1) }
        ensures none { OnErr result (mine.new.amount ≡ mine.old.amount) }
        ensures part { mine.new.parts ≡ mine.old.parts }
    {
        let Counted { book, ledger } = self;
        let sides = book.split(lease, position)?;
        ledger.add(mine, 1);
        Ok(sides)
    }

    /// As `Book::close`, and the close is added to this share.
    pub fn close(
        &mut self,
        lease: Lease,
        mark: Mark,
        bound: u64,
        cut: u64,
        mine: &mut Share<L>,
    ) -> Result<(), Stranger>
        requires cut { bound ≤ cut }
        requires part { 0 < mine.old.parts }
        ensures book { MatchResult result (λ _. Closes self.old.book lease mark bound cut self.new.book) (λ fault. (fault.0 ≡ lease) × IsStranger self.old.book lease self.new.book) }
        ensures added { OnOk result (mine.new.amount ≡ mine.old.amount + 1) }
        ensures none { OnErr result (mine.new.amount ≡ mine.old.amount) }
        ensures part { mine.new.parts ≡ mine.old.parts }
    {
        let Counted { book, ledger } = self;
        book.close(lease, mark, bound, cut)?;
        ledger.add(mine, 1);
        Ok(())
    }

    /// As `Book::release`.
    pub fn release(&mut self, lease: Lease) -> Result<(), Stranger>
        ensures { MatchResult result (λ _. Releases self.old.book lease self.new.book) (λ fault. (fault.0 ≡ lease) × IsStranger self.old.book lease self.new.book) }
    {
        self.book.release(lease)
    }

    /// As `Book::graft`, and the private tree's splits and closes are added to this share.
    pub fn graft(
        &mut self,
        lease: Lease,
        subtree: Subtree,
        mine: &mut Share<L>,
    ) -> Result<Vec<u32>, GraftFault>
        requires cube { subtree.cube ≡ lease.cube }
        requires some { 0 < length subtree.states }
        requires few { length subtree.states ≤ lease.allowance }
        requires part { 0 < mine.old.parts }
        ensures ok { IfOk result (λ left. Grafted self.old.book lease subtree left.items self.new.book) }
        ensures err { IfErr result (λ fault. IsGraftFault self.old.book lease subtree fault self.new.book) }
        ensures added { OnOk result (mine.new.amount ≡ mine.old.amount + length subtree.states) }
        ensures none { OnErr result (mine.new.amount ≡ mine.old.amount) }
        ensures part { mine.new.parts ≡ mine.old.parts }
    {
        let Counted { book, ledger } = self;
        let settled = subtree.states().len();
        let left = book.graft(lease, subtree)?;
        ledger.add(mine, settled as u64);
        Ok(left)
    }

    /// The number of settlements, which the share with all parts counts. Takes no memory.
    pub fn audit(&mut self, all: &mut Share<L>) -> u64
        requires { all.old.parts ≡ L.parts }
        ensures counts { result ≡ handled self.old.book }
        ensures whole { result ≡ all.old.amount }
        ensures same { self.new.book ≡ self.old.book }
    {
        self.ledger.audit(all);
        self.book.handled()
    }

    /// The book.
    pub fn into_book(self) -> Book
        ensures { result ≡ self.book }
    {
        self.book
    }
}
