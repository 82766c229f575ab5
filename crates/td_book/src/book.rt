//! The book of a search: which cubes are still to be handled, who handles which, and what was done.

ghost use Rattle.std.specs.Prelude.{◌≡◌, ℕ, ◌+◌, ◌-◌, ◌*◌, ◌<◌, ◌≤◌, ◌^◌, ◌↔◌, true, false, List, [], ◌∷◌, ◌++◌, length, slice_get, Some, vec_capacity, IsTrue, IfOk, OnOk, OnErr, IfErr, MatchResult};
ghost use Rattle.td_domain.specs.declared.cubes.Trit.{Trit};
ghost use Rattle.td_domain.specs.declared.cubes.Trit.TheVariants.{Free};
ghost use Rattle.td_book.specs.declared.node.Node.{Node};
ghost use Rattle.td_book.specs.declared.node.State.{State};
ghost use Rattle.td_book.specs.Board.{Leaf, board_of, node, cubes_after, opening, handled, allowed};
ghost use Rattle.td_book.specs.Chained.{has_number, first_number, board_with};
ghost use Rattle.td_book.specs.Kept.{as_open, IsKept, IsBook};
ghost use Rattle.td_book.specs.Grafting.{cubes_left, FitAll, open_leaf, settlements, leaves_left, numbers, leaf_nodes, Grafted};
ghost use Rattle.td_book.specs.GraftFaults.{IsGraftFault};
ghost use Rattle.td_book.specs.Claimed.{fixed, allowance, IsLease, Claimed, ClaimedAt, IsSplitFault};
ghost use Rattle.td_book.specs.Steps.{Has, SettlesAll, Shows, Splits, Closes, Releases, IsStranger};

use crate::chain::{Chain, is_free};
use crate::lease::{Claim, Lease, SplitFault, Stranger};
use crate::node::{Mark, Node, State};
use crate::partial::Partial;
use crate::subtree::{GraftFault, Subtree};
use std::alloc::{AllocError, Global};
use std::marker::Model;
use td_domain::{Cube, Trit};

/// A tree of cubes whose leaves are open, held by a worker or closed.
#[derive(Drop)]
pub struct Book {
    alloc: Global,
    workers: u32,
    budget: u64,
    // The allowances that are out.
    allowed: u64,
    chain: Chain,
    // The nodes that were split or closed, in that order, with room for as many more as the
    // allowances that are out.
    order: Vec<Node>,
    // A place to read a node's cube into.
    cube: Vec<Trit>,
}

impl Model for Book {
    ghost use Rattle.std.specs.Prelude.{◌≡◌, length, vec_capacity};
    ghost use Rattle.td_book.specs.Board.{Board};
    ghost use Rattle.td_book.specs.Kept.{IsBook};

    ghost Value = { Board };

    ghost view = { λ b. record { cube = b.chain.cube; workers = b.workers; budget = b.budget; nodes = b.chain.nodes; order = b.order.items } };

    ghost invariant = { λ b. IsBook (record { cube = b.chain.cube; workers = b.workers; budget = b.budget; nodes = b.chain.nodes; order = b.order.items }) b.allowed (vec_capacity b.order) × (length b.cube.items ≡ length b.chain.cube) };
}

// Whether this worker holds the node, with this allowance.
fn is_held(state: Option<State>, worker: u32, allowance: u32) -> bool
    ensures { IsTrue result ↔ (state ≡ Some (State.Held worker allowance)) }
{
    match state {
        Some(State::Held(holder, out)) => holder == worker && out == allowance,
        _ => false,
    }
}

// Whether the state is that of an open leaf.
fn is_open_leaf(state: Option<State>) -> bool
    ensures { IsTrue result ↔ (state ≡ Some State.Open) }
{
    matches!(state, Some(State::Open))
}

// How many positions are fixed.
fn count_fixed(cube: &[Trit]) -> usize
    ensures { result ≡ fixed cube.now }
{
    cube.iter().filter(|trit| !is_free(**trit)).count()
}

// How many nodes a lease of a leaf with this cube lets its worker handle, where so much of the
// budget is left.
fn allowance_of(workers: u32, cube: &[Trit], left: u64) -> u32
    requires { 0 < left }
    ensures is { result ≡ allowance workers cube.now left }
    ensures some { 0 < result }
    ensures within { result ≤ left }
    ensures few { result ≤ 64 }
{
    if workers > 1 && count_fixed(cube) < 8 {
        return 1;
    }
    left.min(64) as u32
}

// The cube of a node, by way of `cube`.
fn cube_of(alloc: Global, chain: &Chain, number: u32, cube: &mut [Trit]) -> Result<Cube, AllocError>
    requires number { has_number number chain.now.nodes ≡ true }
    requires len { length cube.old ≡ length chain.now.cube }
    ensures cube { IfOk result (λ c. (before after : List Node) (s : State) → chain.now.nodes ≡ before ++ node number s ∷ after → (rest : List (List Trit)) × (cubes_after (chain.now.cube ∷ []) before ≡ c ∷ rest)) }
    ensures same { IfOk result (λ c. c ≡ cube.new) }
    ensures len { length cube.new ≡ length chain.now.cube }
{
    chain.read_cube(number, cube);
    Ok(Cube::new(Vec::from_slice(alloc, cube)?))
}

// Whether the chain shows the lease. The node's cube is written into `cube`.
fn shows(chain: &Chain, cube: &mut [Trit], lease: &Lease) -> bool
    requires { length cube.old ≡ length chain.now.cube }
    ensures shown { IsTrue result ↔ Shows (board_with chain.now) lease.now }
    ensures wide { IsTrue result → length lease.now.cube ≡ length chain.now.cube }
    ensures small { IsTrue result → length chain.now.cube < 2 ^ 32 }
    ensures once { (before after : List Node) (s : State) → chain.now.nodes ≡ before ++ node lease.now.number s ∷ after → has_number lease.now.number before ≡ false }
    ensures len { length cube.new ≡ length chain.now.cube }
{
    let state = chain.state(lease.number);
    if !is_held(state, lease.worker, lease.allowance) {
        return false;
    }
    chain.read_cube(lease.number, cube);
    lease.cube.has_trits(cube)
}

// Splits and closes an open leaf of the chain, with the lease's number and cube, and what is opened
// below it, as the states say, depth first. Answers the number of the leaf that comes next, or of
// the node that follows.
fn settle_all(chain: &mut Chain, order: &mut Vec<Node>, lease: &Lease, states: &[State]) -> u32
    requires place { Has (board_with chain.old) lease.now.number lease.now.cube State.Open }
    requires wide { length lease.now.cube ≡ length chain.old.cube }
    requires fits { FitAll states.now (lease.now.cube ∷ []) }
    requires small { length chain.old.nodes + 2 * length states.now < 2 ^ 32 }
    requires space { length chain.old.nodes + 2 * length states.now ≤ chain.old.space }
    requires listed { length order.old.items + length states.now ≤ vec_capacity order.old }
    ensures cube { chain.new.cube ≡ chain.old.cube }
    ensures capacity { vec_capacity order.new ≡ vec_capacity order.old }
    ensures settled { (workers budget : ℕ) → SettlesAll (board_of chain.old.cube workers budget chain.old.nodes order.old.items) (settlements states.now (open_leaf lease.now.cube lease.now.number ∷ []) (length chain.old.nodes)) (board_of chain.old.cube workers budget chain.new.nodes order.new.items) }
    ensures next { (before : List Node) × (after : List Node) × (chain.new.nodes ≡ before ++ (leaf_nodes (leaves_left states.now (open_leaf lease.now.cube lease.now.number ∷ []) (length chain.old.nodes)) ++ after)) × (first_number (leaf_nodes (leaves_left states.now (open_leaf lease.now.cube lease.now.number ∷ []) (length chain.old.nodes)) ++ after) ≡ result) }
    ensures kept { (workers budget out space : ℕ) → IsBook (board_of chain.old.cube workers budget chain.old.nodes order.old.items) out space → length order.old.items + length states.now + out ≤ budget → length order.old.items + length states.now + out ≤ space → IsBook (board_of chain.old.cube workers budget chain.new.nodes order.new.items) out space }
{
    let mut at = lease.number;
    for state in states {
        chain.settle(at, *state);
        order.push_reserved(Node {
            number: at,
            state: *state,
        });
        at = chain.next(at);
    }
    at
}

// Room for what a private tree leaves: places in the chain, and an empty vector for the numbers of
// its leaves. The error is out of memory.
fn space_for(alloc: Global, chain: &mut Chain, subtree: &Subtree) -> Result<Vec<u32>, AllocError>
    requires { length subtree.now.states < 2 ^ 32 }
    ensures empty { IfOk result (λ space. space.items ≡ []) }
    ensures spacious { IfOk result (λ space. length (cubes_left subtree.now.states (subtree.now.cube ∷ [])) ≤ vec_capacity space) }
    ensures cube { chain.new.cube ≡ chain.old.cube }
    ensures nodes { chain.new.nodes ≡ chain.old.nodes }
    ensures space { OnOk result (length chain.old.nodes + 2 * length subtree.now.states ≤ chain.new.space) }
{
    let space = Vec::with_capacity(alloc, subtree.left())?;
    chain.reserve(2 * subtree.states().len())?;
    Ok(space)
}

// The numbers of `count` leaves from the first on, in an empty vector that has room for them.
fn list_numbers(chain: &Chain, first: u32, space: Vec<u32>, count: usize) -> Vec<u32>
    requires empty { space.items ≡ [] }
    requires spacious { count ≤ vec_capacity space }
    requires run { (before : List Node) × (leaves : List Leaf) × (after : List Node) × (chain.now.nodes ≡ before ++ (leaf_nodes leaves ++ after)) × (first_number (leaf_nodes leaves ++ after) ≡ first) × (length leaves ≡ count) }
    ensures { (before : List Node) (leaves : List Leaf) (after : List Node) → chain.now.nodes ≡ before ++ (leaf_nodes leaves ++ after) → first_number (leaf_nodes leaves ++ after) ≡ first → length leaves ≡ count → result.items ≡ numbers leaves }
{
    let mut at = first;
    let mut left = space;
    for _ in 0..count {
        left.push_reserved(at);
        at = chain.next(at);
    }
    left
}

impl Book {
    /// One open root with this cube, and nothing handled. The budget is how many nodes may be
    /// handled, at most 10,000,000. Where memory is refused the cube comes back.
    pub fn new(alloc: Global, root: Cube, workers: u32, budget: u64) -> Result<Book, Cube>
        requires positions { length root < 2 ^ 32 }
        requires budget { budget ≤ 10000000 }
        ensures { MatchResult result (λ b. b ≡ opening root workers budget) (λ back. back ≡ root) }
    {
        let Ok(cube) = vec![in alloc; Trit::Free; root.len()] else {
            return Err(root);
        };
        match Chain::new(alloc, root) {
            Ok(chain) => Ok(Book {
                alloc,
                workers,
                budget,
                allowed: 0,
                chain,
                order: Vec::new(alloc),
                cube,
            }),
            Err(root) => Err(root),
        }
    }

    /// The number of positions of the root's cube.
    pub fn positions(&self) -> u32
        ensures { result ≡ length self.now.cube }
    {
        self.chain.positions()
    }

    /// The number of workers.
    pub fn workers(&self) -> u32
        ensures { result ≡ self.now.workers }
    {
        self.workers
    }

    /// How many nodes were split or closed. What every book keeps stands in the clauses.
    pub fn handled(&self) -> u64
        ensures count { result ≡ handled self.now }
        ensures kept { IsKept self.now }
    {
        self.order.len() as u64
    }

    // Holds an open leaf for a worker. Takes all room that the lease's settlements need in the
    // order. The error is out of memory, and then the book is as before.
    fn hold(&mut self, worker: u32, number: u32) -> Result<Lease, AllocError>
        requires leaf { (before : List Node) × (after : List Node) × (self.old.nodes ≡ before ++ node number State.Open ∷ after) }
        requires left { handled self.old + allowed self.old < self.old.budget }
        ensures ok { IfOk result (λ lease. IsLease self.old worker number lease self.new) }
        ensures err { OnErr result (self.new ≡ self.old) }
    {
        let left = self.budget - (self.order.len() as u64 + self.allowed);
        let cube = cube_of(self.alloc, &self.chain, number, &mut self.cube)?;
        let allowance = allowance_of(self.workers, &self.cube, left);
        self.order
            .reserve(self.allowed as usize + allowance as usize)?;
        self.chain.set(number, State::Held(worker, allowance));
        self.allowed += u64::from(allowance);
        Ok(Lease {
            worker,
            number,
            cube,
            allowance,
        })
    }

    /// The first open leaf, where the budget allows it. This worker, below the number of workers,
    /// holds it from now on. Takes all room that a close or release of the lease needs, and some of
    /// what a split or graft of it needs. The error is out of memory, and then the book is as
    /// before.
    pub fn claim(&mut self, worker: u32) -> Result<Claim, AllocError>
        requires { worker < self.old.workers }
        ensures ok { IfOk result (λ answer. Claimed self.old worker answer self.new) }
        ensures err { OnErr result (self.new ≡ self.old) }
    {
        let Some(number) = self.chain.first_open() else {
            return Ok(if self.allowed == 0 {
                Claim::Done
            } else {
                Claim::Idle
            });
        };
        let handled = self.order.len() as u64;
        if handled == self.budget {
            return Ok(Claim::Spent);
        }
        if handled + self.allowed >= self.budget {
            return Ok(Claim::Idle);
        }
        Ok(Claim::Lease(self.hold(worker, number)?))
    }

    /// The leaf of this number. This worker, below the number of workers, holds it from now on.
    /// `None` where it isn't an open leaf, or where all of the budget is handled or allowed. Takes
    /// all room that a close or release of the lease needs, and some of what a split or graft of it
    /// needs. Takes as many steps as the node lies deep. The error is out of memory, and then the
    /// book is as before.
    pub fn claim_id(&mut self, worker: u32, number: u32) -> Result<Option<Lease>, AllocError>
        requires { worker < self.old.workers }
        ensures ok { IfOk result (λ answer. ClaimedAt self.old worker number answer self.new) }
        ensures err { OnErr result (self.new ≡ self.old) }
    {
        if !is_open_leaf(self.chain.state(number)) {
            return Ok(None);
        }
        if self.order.len() as u64 + self.allowed >= self.budget {
            return Ok(None);
        }
        Ok(Some(self.hold(worker, number)?))
    }

    /// Makes two open leaves of a held one, at a position that is free in its cube. Answers their
    /// numbers, that of the zero side first. After a fault the book is as before, and the lease
    /// comes back.
    pub fn split(&mut self, lease: Lease, position: usize) -> Result<(u32, u32), SplitFault>
        requires { slice_get lease.cube position ≡ Some Free }
        ensures ok { IfOk result (λ sides. Splits self.old lease position self.new × (sides.0 ≡ length self.old.nodes) × (sides.1 ≡ length self.old.nodes + 1)) }
        ensures err { IfErr result (λ fault. IsSplitFault self.old lease fault self.new) }
    {
        if !shows(&self.chain, &mut self.cube, &lease) {
            return Err(SplitFault::Stranger(lease));
        }
        let position = position as u32;
        let first = self.chain.len();
        let Ok(()) = self.chain.reserve(2) else {
            return Err(SplitFault::OutOfMemory(lease));
        };
        self.chain.split(lease.number, position);
        self.order.push_reserved(Node {
            number: lease.number,
            state: State::Split(position),
        });
        self.allowed -= u64::from(lease.allowance);
        Ok((first, first + 1))
    }

    /// Closes a held leaf with a bound of its cube, at most the cut. The lease comes back where the
    /// book doesn't show it, and the book is as before. Takes no memory.
    pub fn close(&mut self, lease: Lease, mark: Mark, bound: u64, cut: u64) -> Result<(), Stranger>
        requires { bound ≤ cut }
        ensures { MatchResult result (λ _. Closes self.old lease mark bound cut self.new) (λ fault. (fault.0 ≡ lease) × IsStranger self.old lease self.new) }
    {
        if !shows(&self.chain, &mut self.cube, &lease) {
            return Err(Stranger(lease));
        }
        let state = State::Closed(mark, bound, cut);
        self.chain.set(lease.number, state);
        self.order.push_reserved(Node {
            number: lease.number,
            state,
        });
        self.allowed -= u64::from(lease.allowance);
        Ok(())
    }

    /// Opens a held leaf again. The lease comes back where the book doesn't show it, and the book
    /// is as before. Takes no memory.
    pub fn release(&mut self, lease: Lease) -> Result<(), Stranger>
        ensures { MatchResult result (λ _. Releases self.old lease self.new) (λ fault. (fault.0 ≡ lease) × IsStranger self.old lease self.new) }
    {
        if !shows(&self.chain, &mut self.cube, &lease) {
            return Err(Stranger(lease));
        }
        self.chain.set(lease.number, State::Open);
        self.allowed -= u64::from(lease.allowance);
        Ok(())
    }

    /// Makes the splits and closes of a private tree below a held leaf, in its order: the leaves
    /// that it opened and didn't close are open then. Answers their numbers, in the tree's order,
    /// and takes steps in the private tree's size. After a fault the book is as before, and the
    /// lease and the private tree come back.
    pub fn graft(&mut self, lease: Lease, subtree: Subtree) -> Result<Vec<u32>, GraftFault>
        requires cube { subtree.cube ≡ lease.cube }
        requires some { 0 < length subtree.states }
        requires few { length subtree.states ≤ lease.allowance }
        ensures ok { IfOk result (λ left. Grafted self.old lease subtree left.items self.new) }
        ensures err { IfErr result (λ fault. IsGraftFault self.old lease subtree fault self.new) }
    {
        if !shows(&self.chain, &mut self.cube, &lease) {
            return Err(GraftFault::Stranger(lease, subtree));
        }
        let Ok(space) = space_for(self.alloc, &mut self.chain, &subtree) else {
            return Err(GraftFault::OutOfMemory(lease, subtree));
        };
        let number = lease.number;
        self.chain.set(number, State::Open);
        let next = settle_all(&mut self.chain, &mut self.order, &lease, subtree.states());
        self.allowed -= u64::from(lease.allowance);
        Ok(list_numbers(&self.chain, next, space, subtree.left()))
    }

    /// The root's cube and the tree, with held leaves as open. Takes no memory.
    pub fn into_tree(self) -> Partial
        ensures cube { result.cube ≡ self.cube }
        ensures nodes { result.nodes ≡ as_open self.nodes }
    {
        Partial::new(self.chain)
    }
}
