//! What workers found of cubes, and hand back when they end.

ghost use Rattle.std.specs.Prelude.{◌≡◌, ◌≢◌, ℕ, ◌<◌, ◌^◌, length, slice_get, Some, IfOk, IfSome, MatchOption};
ghost use Rattle.td_search.specs.declared.findings.Evidence.{Evidence};
ghost use Rattle.td_search.specs.Problems.{problem_of};
ghost use Rattle.td_search.specs.Findings.{IsTrueEvidence, IsTrueTrail};
ghost use Rattle.td_search.specs.Redone.{HasPlaces, IsPieceOf};

use crate::problem::Problem;
use std::alloc::{AllocError, Global};
use td_book::Mark;
use td_domain::Cube;

/// What was found of a cube. Times are in steps.
#[derive(Clone, Copy, Debug, Drop)]
pub enum Finding {
    /// A bound of the cube, for a leaf that was closed.
    Closed(Mark, u64),
    /// For a cube that was split the position, the strongest domain's bound, and a delay above
    /// which it may be split, such as with `least` that of its representative.
    Split(u32, u64, u64),
}

/// What a worker found below a leaf that it held: the leaf's number in the shared tree and its
/// cube, and what was found of the nodes that were split or closed there, one after another, depth
/// first, zero side first. The number only helps to find the evidence again.
#[derive(Debug, Drop)]
pub struct Evidence {
    pub number: u32,
    pub cube: Cube,
    pub findings: Vec<Finding>,
}

/// Evidence, and by the number of a node the place of its evidence.
#[derive(Drop)]
pub struct Trail {
    pub evidence: Vec<Evidence>,
    pub places: Vec<Option<u32>>,
}

// Notes the place of the evidence of a node, where the node is one of these.
fn write_place(places: &mut [Option<u32>], number: u32, place: usize)
    ensures len { length places.new ≡ length places.old }
    ensures here { number < length places.old → place < 2 ^ 32 → slice_get places.new number ≡ Some (Some place) }
    ensures elsewhere { (other : ℕ) → other ≢ number → slice_get places.new other ≡ slice_get places.old other }
{
    let known = u32::try_from(place).ok();
    if (number as usize) < places.len() {
        places[number as usize] = known;
    }
}

fn number_at(pieces: &[Evidence], place: usize) -> u32
    requires { place < length pieces.now }
    ensures { (piece : Evidence) → slice_get pieces.now place ≡ Some piece → result ≡ piece.number }
{
    pieces[place].number
}

// Notes the place of each piece, that of the last one where several are of one node.
fn write_places(places: &mut [Option<u32>], pieces: &[Evidence])
    ensures { HasPlaces pieces.now (length places.old) places.new }
{
    for place in 0..pieces.len() {
        write_place(places, number_at(pieces, place), place);
    }
}

impl Trail {
    /// A trail of a tree with that many nodes. The error is out of memory.
    pub fn new(alloc: Global, evidence: Vec<Evidence>, nodes: usize) -> Result<Trail, AllocError>
        ensures items { IfOk result (λ trail. trail.evidence.items ≡ evidence.items) }
        ensures places { IfOk result (λ trail. HasPlaces evidence.items nodes trail.places.items) }
    {
        let mut places = vec![in alloc; None; nodes]?;
        write_places(&mut places, &evidence);
        Ok(Trail { evidence, places })
    }

    /// The evidence of the node of this number, if there is some.
    pub fn evidence_of(&self, problem: &Problem<'_>, number: u32) -> Option<&Evidence>
        requires { IsTrueTrail (problem_of problem.now) self.now }
        ensures evidence { IfSome result (λ evidence. IsTrueEvidence (problem_of problem.now) evidence.now) }
        ensures found { (piece : Evidence) → IsPieceOf self.now number piece → MatchOption result ⊥ (λ evidence. evidence.now ≡ piece) }
    {
        match self.places.get(number as usize) {
            Some(Some(place)) => self.evidence.get(*place as usize),
            _ => None,
        }
    }

    /// The evidence of the node of this number, if there is some and it is of this cube.
    pub fn evidence_for(&self, problem: &Problem<'_>, number: u32, cube: &Cube) -> Option<&Evidence>
        requires { IsTrueTrail (problem_of problem.now) self.now }
        ensures cube { IfSome result (λ evidence. evidence.now.cube ≡ cube.now) }
        ensures evidence { IfSome result (λ evidence. IsTrueEvidence (problem_of problem.now) evidence.now) }
        ensures found { (piece : Evidence) → IsPieceOf self.now number piece → piece.cube ≡ cube.now → MatchOption result ⊥ (λ evidence. evidence.now ≡ piece) }
    {
        let Some(evidence) = self.evidence_of(problem, number) else {
            return None;
        };
        if !evidence.cube.is_same(cube) {
            return None;
        }
        Some(evidence)
    }
}
