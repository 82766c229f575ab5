//! What is left of a search, and what is known of the delays while it goes on.

ghost use Rattle.std.specs.Prelude.{◌≡◌, ◌↔◌, ℕ, ◌+◌, ◌<◌, [], ◌∷◌, ◌++◌, max, length, take, drop, List, slice_get, Some, IfOk, IsTrue, MatchOption, OnOk, OnErr};
ghost use Rattle.td_domain.specs.declared.cubes.Trit.TheVariants.{Free};
ghost use Rattle.td_domain.specs.Worst.{IsUpperBound};
ghost use Rattle.td_search.specs.CutShort.{greatest_of};
ghost use Rattle.td_search.specs.Findings.{IsTrueFinding, IsTrueEvidence};
ghost use Rattle.td_search.specs.Problems.{problem_of, IsAbove};
ghost use Rattle.td_pool.specs.declared.leaf.OpenLeaf.{OpenLeaf};
ghost use Rattle.td_pool.specs.Frontiers.{AreReportedOf, BeginsAt, IsCover, IsSplit, IsLeafSettled, leaf_of, bounds_of};
ghost use Rattle.td_search.specs.Roots.{IsRoot};
ghost use Rattle.td_pool.specs.Watched.{IsFound};

use crate::leaf::OpenLeaf;
use crate::subject::Subject;
use std::alloc::{AllocError, Global};
use std::marker::PhantomData;
use td_domain::{Admit, Trit};
use td_search::{Evidence, Finding, Problem, Root};

/// What is known of the delays of a search's admitted pairs, and the leaves that are left of its
/// tree, in which all pairs lie that may have a greater delay than was found.
#[derive(Drop)]
pub struct Frontier<L: Subject> {
    alloc: Global,
    // A delay of an admitted pair that was found,
    low: u64,
    // and no admitted pair's is above this.
    high: u64,
    // The greatest bound of a leaf that was closed.
    closed: u64,
    leaves: Vec<OpenLeaf>,
    // The number of the next node.
    next: u32,
    asked: PhantomData<L>,
    ghost found: { IsFound L.asked low },
    ghost greatest: { IsUpperBound L.asked.setting L.asked.admit high },
    ghost cover: { IsCover L.asked closed leaves.items },
}

// The greater of a figure and of the bound of a leaf.
fn greater_bound(leaf: &OpenLeaf, low: u64) -> u64
    ensures { (others : List ℕ) → greatest_of result others ≡ greatest_of low (leaf.now.bound ∷ others) }
{
    low.max(leaf.bound)
}

// The greatest of a figure and of the bounds of these leaves.
fn greatest_bound(leaves: &[OpenLeaf], low: u64) -> u64
    ensures { result ≡ greatest_of low (bounds_of leaves.now) }
{
    let mut greatest = low;
    for leaf in leaves {
        greatest = greater_bound(leaf, greatest);
    }
    greatest
}

// The root of the tree, with this bound. Its cube is that of the pins. The error is out of memory.
fn first_leaf(alloc: Global, admit: &Admit, bound: u64) -> Result<Vec<OpenLeaf>, AllocError>
    ensures { IfOk result (λ leaves. leaves.items ≡ leaf_of 0 admit.now.pins bound ∷ []) }
{
    let mut leaves = Vec::with_capacity(alloc, 1)?;
    let cube = admit.pins().copy(alloc)?;
    leaves.push_reserved(OpenLeaf {
        number: 0,
        cube,
        bound,
    });
    Ok(leaves)
}

// Whether a piece of evidence begins at a leaf.
fn begins_at(leaf: &OpenLeaf, evidence: &Evidence) -> bool
    ensures { IsTrue result ↔ BeginsAt evidence.now leaf.now }
{
    leaf.number == evidence.number && leaf.cube.is_same(&evidence.cube)
}

// The place of the leaf at which a piece of evidence begins, the last one of several.
fn place_of(leaves: &[OpenLeaf], evidence: &Evidence) -> Option<usize>
    ensures { MatchOption result
        ((place : ℕ) (leaf : OpenLeaf) → slice_get leaves.now place ≡ Some leaf → ¬ BeginsAt evidence.now leaf)
        (λ place. (leaf : OpenLeaf) × (slice_get leaves.now place ≡ Some leaf) × BeginsAt evidence.now leaf) }
{
    for behind in 0..leaves.len() {
        let place = leaves.len() - 1 - behind;
        if begins_at(&leaves[place], evidence) {
            return Some(place);
        }
    }
    None
}

// Takes the last leaf away.
fn drop_last(leaves: &mut Vec<OpenLeaf>)
    ensures { (rest : List OpenLeaf) (leaf : OpenLeaf) → leaves.old.items ≡ rest ++ leaf ∷ [] → leaves.new.items ≡ rest }
{
    let _dropped = leaves.pop();
}

// Splits the last leaf at a position of its cube. The sides get this bound and the next two
// numbers, and the zero side is the last leaf then. The error is out of memory, and then the leaves
// are as before.
fn split_last(
    alloc: Global,
    leaves: &mut Vec<OpenLeaf>,
    position: usize,
    bound: u64,
    next: u32,
) -> Result<(), AllocError>
    requires last { (rest : List OpenLeaf) × (leaf : OpenLeaf) × (leaves.old.items ≡ rest ++ leaf ∷ []) × (position < length leaf.cube) }
    ensures ok { OnOk result ((rest : List OpenLeaf) (leaf : OpenLeaf) → leaves.old.items ≡ rest ++ leaf ∷ [] → IsSplit rest leaf position bound leaves.new.items) }
    ensures err { OnErr result (leaves.new.items ≡ leaves.old.items) }
{
    let Some(last) = leaves.last() else {
        return Ok(());
    };
    let mut one = last.cube.copy(alloc)?;
    let mut zero = last.cube.copy(alloc)?;
    leaves.reserve(1)?;
    one.set(position, Trit::One);
    zero.set(position, Trit::Zero);
    let _split = leaves.pop();
    leaves.push_reserved(OpenLeaf {
        number: next.wrapping_add(1),
        cube: one,
        bound,
    });
    leaves.push_reserved(OpenLeaf {
        number: next,
        cube: zero,
        bound,
    });
    Ok(())
}

impl<L: Subject> Frontier<L> {
    /// Nothing is split or closed yet, and what is left is kept. The error is out of memory.
    pub fn new(alloc: Global, problem: &Problem<'_>, root: Root) -> Result<Frontier<L>, AllocError>
        requires asked { L.asked ≡ problem_of problem.now }
        requires root { IsRoot (problem_of problem.now) root }
        ensures low { IfOk result (λ frontier. frontier.low ≡ root.first) }
        ensures high { IfOk result (λ frontier. frontier.high ≡ root.bound) }
        ensures leaves { IfOk result (λ frontier. frontier.leaves.items ≡ leaf_of 0 problem.now.admit.now.pins root.bound ∷ []) }
    {
        // For the prover: gates are in order and each input has a moment.
        let _numbering = problem.circuit.gates();
        let _moments = problem.circuit.moments();
        let leaves = first_leaf(alloc, problem.admit, root.bound)?;
        Ok(Frontier {
            alloc,
            low: root.first,
            high: root.bound,
            closed: 0,
            leaves,
            next: 1,
            asked: PhantomData,
        })
    }

    /// What is left is not kept. Takes no memory.
    pub fn unkept(alloc: Global, problem: &Problem<'_>, root: Root) -> Frontier<L>
        requires asked { L.asked ≡ problem_of problem.now }
        requires root { IsRoot (problem_of problem.now) root }
        ensures low { result.low ≡ root.first }
        ensures high { result.high ≡ root.bound }
        ensures leaves { result.leaves.items ≡ [] }
    {
        // For the prover: gates are in order and each input has a moment.
        let _numbering = problem.circuit.gates();
        let _moments = problem.circuit.moments();
        Frontier {
            alloc,
            low: root.first,
            high: root.bound,
            closed: root.bound,
            leaves: Vec::new(alloc),
            next: 0,
            asked: PhantomData,
        }
    }

    /// The greatest delay that was found of an admitted pair.
    pub fn low(&self) -> u64
        ensures { IsFound L.asked result }
    {
        self.low
    }

    /// How many leaves are kept.
    pub fn open(&self) -> u64
        ensures { result ≡ length self.now.leaves.items }
    {
        self.leaves.len() as u64
    }

    /// A figure that no admitted pair's delay is above, and no greater one than it was before.
    pub fn high(&mut self) -> u64
        ensures { IsUpperBound L.asked.setting L.asked.admit result }
    {
        let high = greatest_bound(&self.leaves, self.closed);
        self.lower(high);
        self.high
    }

    // No admitted pair's delay is above this figure.
    fn lower(&mut self, high: u64)
        requires { IsUpperBound L.asked.setting L.asked.admit high }
    {
        self.high = self.high.min(high);
    }

    /// This delay of an admitted pair was found.
    pub fn reach(&mut self, delay: u64)
        requires { IsFound L.asked delay }
        ensures low { self.new.low ≡ max self.old.low delay }
        ensures high { self.new.high ≡ self.old.high }
        ensures leaves { self.new.leaves.items ≡ self.old.leaves.items }
    {
        self.low = self.low.max(delay);
    }

    // The leaf at this place is the last one now.
    fn bring_last(&mut self, place: usize)
        requires { place < length self.old.leaves.items }
        ensures { (leaf : OpenLeaf) → slice_get self.old.leaves.items place ≡ Some leaf → self.new.leaves.items ≡ (take place self.old.leaves.items ++ drop (place + 1) self.old.leaves.items) ++ leaf ∷ [] }
    {
        let leaf = self.leaves.remove(place);
        self.leaves.push_reserved(leaf);
    }

    // The last leaf is closed with a bound of its cube.
    fn close_last(&mut self, bound: u64)
        requires { (rest : List OpenLeaf) × (leaf : OpenLeaf) × (self.old.leaves.items ≡ rest ++ leaf ∷ []) × IsAbove L.asked leaf.cube bound }
        ensures { (rest : List OpenLeaf) (leaf : OpenLeaf) → self.old.leaves.items ≡ rest ++ leaf ∷ [] → self.new.leaves.items ≡ rest }
    {
        drop_last(&mut self.leaves);
        self.closed = self.closed.max(bound);
    }

    // Splits the last leaf at a free position of its cube. The cube has this bound. The error is
    // out of memory.
    fn halve_last(&mut self, position: usize, bound: u64) -> Result<(), AllocError>
        requires { (rest : List OpenLeaf) × (leaf : OpenLeaf) × (self.old.leaves.items ≡ rest ++ leaf ∷ []) × (slice_get leaf.cube position ≡ Some Free) × IsAbove L.asked leaf.cube bound }
        ensures { OnOk result ((rest : List OpenLeaf) (leaf : OpenLeaf) → self.old.leaves.items ≡ rest ++ leaf ∷ [] → IsSplit rest leaf position bound self.new.leaves.items) }
    {
        let done = split_last(self.alloc, &mut self.leaves, position, bound, self.next);
        self.next = self.next.wrapping_add(2);
        done
    }

    // Closes or splits the last leaf, as it was found of its cube. The error is out of memory.
    fn settle_last(&mut self, problem: &Problem<'_>, finding: Finding) -> Result<(), AllocError>
        requires asked { L.asked ≡ problem_of problem.now }
        requires last { (rest : List OpenLeaf) × (leaf : OpenLeaf) × (self.old.leaves.items ≡ rest ++ leaf ∷ []) × IsTrueFinding (problem_of problem.now) leaf.cube finding }
        ensures { OnOk result ((rest : List OpenLeaf) (leaf : OpenLeaf) → self.old.leaves.items ≡ rest ++ leaf ∷ [] → IsLeafSettled rest leaf finding self.new.leaves.items) }
    {
        // For the prover: gates are in order and each input has a moment.
        let _numbering = problem.circuit.gates();
        let _moments = problem.circuit.moments();
        match finding {
            Finding::Closed(_, bound) => {
                self.close_last(bound);
                Ok(())
            }
            Finding::Split(position, bound, _) => self.halve_last(position as usize, bound),
        }
    }

    /// Splits and closes below a leaf that is left what the shared tree split and closed there. The
    /// error is out of memory. Then more leaves are kept than are left, so the figures stay true.
    pub fn settle(&mut self, problem: &Problem<'_>, evidence: &Evidence) -> Result<(), AllocError>
        requires asked { L.asked ≡ problem_of problem.now }
        requires evidence { IsTrueEvidence (problem_of problem.now) evidence.now }
        ensures { OnOk result (AreReportedOf self.old.leaves.items evidence.now self.new.leaves.items) }
    {
        let Some(place) = place_of(&self.leaves, evidence) else {
            return Ok(());
        };
        self.bring_last(place);
        for finding in &evidence.findings {
            self.settle_last(problem, *finding)?;
        }
        Ok(())
    }
}
