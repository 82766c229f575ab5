//! One step of a joining.

ghost use Rattle.std.specs.Prelude.{◌≡◌, ◌↔◌, ◌<◌, List, [], ◌∷◌, IfOk, IfErr, IsTrue, length};
ghost use Rattle.td_domain.specs.Admits.{Admitted, HasAdmitted};
ghost use Rattle.td_join.specs.declared.parts.Part.{Part as Numbered};
ghost use Rattle.td_join.specs.Joining.{pins_of};
ghost use Rattle.td_join.specs.Steps.{AreInOrder, AreAllInside, IsOwn, IsClash, IsStep, IsStuck};

use crate::fault::JoinFault;
use crate::parts::{Group, Part, common_position, halves};
use std::alloc::Global;
use td_certificate::Node;
use td_domain::{Admit, Cube};

/// What becomes of a group.
#[derive(Debug, Drop)]
pub enum Step {
    /// The nodes of its tree.
    Leaf(Vec<Node>),
    /// It is halved at this position. Its zero side comes first.
    Halves(usize, Group, Group),
}

/// The tree of a cube without a part. The error is out of memory, or that an admitted pair lies
/// there.
fn empty_leaf(alloc: Global, admit: &Admit, cube: Cube) -> Result<Step, JoinFault<usize>>
    requires { length cube ≡ length admit.now.pins }
    ensures step { IfOk result (IsStep admit.now cube []) }
    ensures fault { IfErr result (IsStuck admit.now cube []) }
{
    if admit.any(&cube) {
        return Err(JoinFault::Gap(cube));
    }
    let mut nodes = Vec::with_capacity(alloc, 1)?;
    nodes.push(Node::Empty)?;
    Ok(Step::Leaf(nodes))
}

/// Whether a pair that the one admits lies in the other's pins.
fn share(one: &Part, other: &Part) -> bool
    ensures { IsTrue result → HasAdmitted one.now.certificate.question.admit (pins_of other.now.certificate) }
{
    let admit = one.certificate.question.admit();
    let pins = other.pins();
    pins.len() == admit.pins().len() && admit.any(pins)
}

/// Two parts that clash, of two or more of which the first is this one.
fn clash(first: &Part, parts: &[Part]) -> JoinFault<usize>
    requires first { (rest : List Numbered) × (parts.now ≡ first.now ∷ rest) }
    requires two { 1 < length parts.now }
    requires order { AreInOrder parts.now }
    ensures { IsClash parts.now result }
{
    let mut last = first.place;
    for other in parts {
        if other.place != first.place && share(first, other) {
            return JoinFault::Overlap(first.place, other.place);
        }
        last = other.place;
    }
    JoinFault::Crossed(first.place, last)
}

/// Whether it is one part, with the cube as its pins.
fn is_whole(group: &Group) -> bool
    ensures { IsTrue result ↔ IsOwn group.now.cube group.now.parts.items }
{
    match group.parts.first() {
        Some(part) => group.parts.len() == 1 && part.pins().is_same(&group.cube),
        None => false,
    }
}

/// The tree of a group that is one part with the cube as its pins.
fn only_tree(alloc: Global, group: Group) -> Step
    requires { IsOwn group.cube group.parts.items }
    ensures { (admit : Admitted) → IsStep admit group.cube group.parts.items result }
{
    let mut parts = group.parts;
    match parts.pop() {
        Some(part) => {
            let certificate = part.certificate;
            let tree = certificate.tree;
            Step::Leaf(tree.into_nodes())
        }
        None => Step::Leaf(Vec::new(alloc)),
    }
}

/// What becomes of a group. Groups without a part are closed where no admitted pair lies in the
/// cube.
///
/// The error is out of memory, or why the group can't be joined.
pub fn step_of(alloc: Global, admit: &Admit, group: Group) -> Result<Step, JoinFault<usize>>
    requires fit { length group.cube ≡ length admit.now.pins }
    requires order { AreInOrder group.parts.items }
    requires within { AreAllInside group.cube group.parts.items }
    ensures step { IfOk result (IsStep admit.now group.cube group.parts.items) }
    ensures fault { IfErr result (IsStuck admit.now group.cube group.parts.items) }
{
    if group.parts.is_empty() {
        return empty_leaf(alloc, admit, group.cube);
    }
    if is_whole(&group) {
        return Ok(only_tree(alloc, group));
    }
    match common_position(&group) {
        Some(position) => {
            let (low, high) = halves(alloc, group, position)?;
            Ok(Step::Halves(position, low, high))
        }
        None => Err(clash(&group.parts[0], &group.parts)),
    }
}
