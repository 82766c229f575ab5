//! What is wrong with a line of a tree.

ghost use Rattle.std.specs.Prelude.{◌≡◌, false, ◌*◌, ◌↔◌, Option, ℕ, length, Some, IfOk, IfErr, IsTrue};
ghost use Rattle.td_circuit.specs.Numbering.{setting};
ghost use Rattle.td_domain.specs.Cubes.{IsPoint};
ghost use Rattle.td_certificate.specs.Accepts.{IsBoundBy, SplitsFree, IsEnough, IsOfOnePair, IsBounded, HasDelay, IsOfCube, IsWithin};
ghost use Rattle.td_event_sim.specs.Scratch.{IsFor};
ghost use Rattle.td_event_sim.specs.Stopping.{StopNeedsStop};
ghost use Rattle.td_certificate.specs.Questions.{asking_of};
ghost use Rattle.td_certificate.specs.Trees.{is_refuted};
ghost use Rattle.td_refutation.specs.Asking.{MayLie};
ghost use Rattle.td_checker.specs.Judging.{with_cube, wrong_flaw, IsJudged, IsJudgedLine};

use crate::pairs::pair_of;
use crate::refuting::judge_refuted;
use std::alloc::{AllocError, Global};
use td_arrival::Arrival;
use td_certificate::{BoundedBy, Node, Question};
use td_circuit::Circuit;
use td_domain::{Both, Cube, Trit, bound};
use td_edges::Edges;
use td_event_sim::{Interruption, Scratch, delay_until};
use td_refutation::{Flaw as StepFlaw, is_broken};
use td_stop::Stop;
use td_ternary::Possible;

/// What is wrong with a node.
#[derive(Clone, Copy, Drop)]
pub enum Flaw {
    /// A split at a position that doesn't exist or isn't free.
    Misplaced,
    /// An admitted pair may lie in the cube of a leaf that says that none does, or the leaf has a
    /// number where no pair is to be admitted.
    NotEmpty,
    /// A leaf of one pair where something is free.
    NotOnePair,
    /// A bound less than the domain's or of a domain that gives none, or a time that isn't the
    /// pair's delay.
    WrongNumber,
    /// The number of a leaf is above the time.
    AboveTime,
    /// A step of such a leaf isn't good, for this reason.
    BadStep(StepFlaw),
}

/// What is found of a node: it is good, with this number of lines, or it has a flaw, at this place
/// among its lines.
#[derive(Clone, Copy, Drop)]
pub enum Judged {
    Good(usize),
    Bad(Flaw, usize),
}

/// What nodes are held to: the question, the moment after which no admitted pair is to change an
/// output, none where no pair is to be admitted, and the stop at which a check ends.
#[derive(Clone, Copy, Drop)]
pub struct Task<'a> {
    pub question: &'a Question,
    pub most: Option<u64>,
    pub stop: &'a Stop,
}

/// What is found of the node of this cube, unless the stop is set meanwhile.
pub fn judge(
    alloc: Global,
    scratch: &mut Scratch,
    circuit: &Circuit,
    task: &Task<'_>,
    cube: &Cube,
    node: &Node,
) -> Result<Judged, Interruption>
    requires scratch { IsFor circuit.now scratch.old }
    requires cube { length cube.now ≡ 2 * length circuit.now.netlist.inputs }
    requires pins { length cube.now ≡ length task.now.question.now.admit.pins }
    requires held { length task.now.question.now.admit.held ≡ length circuit.now.netlist.inputs }
    ensures scratch { IsFor circuit.now scratch.new }
    ensures judged { IfOk result (IsJudged (setting circuit.now) (asking_of task.now.question.now) task.now.most (with_cube cube.now node.now)) }
    ensures stopped { IfErr result (StopNeedsStop task.now.stop.now.can_be_set) }
{
    match node {
        Node::Refuted(refuted) => judge_refuted(
            alloc,
            circuit,
            task.question,
            task.most,
            cube,
            refuted,
            task.stop,
        ),
        Node::Split(_) | Node::Bound(_, _) | Node::Point(_) | Node::Empty => {
            match judge_line(alloc, scratch, circuit, task, cube, node)? {
                Some(flaw) => Ok(Judged::Bad(flaw, 0)),
                None => Ok(Judged::Good(1)),
            }
        }
    }
}

/// What is wrong with the node of this cube, which is one line, if something is, unless the stop is
/// set meanwhile.
fn judge_line(
    alloc: Global,
    scratch: &mut Scratch,
    circuit: &Circuit,
    task: &Task<'_>,
    cube: &Cube,
    node: &Node,
) -> Result<Option<Flaw>, Interruption>
    requires line { is_refuted node.now ≡ false }
    requires scratch { IsFor circuit.now scratch.old }
    requires cube { length cube.now ≡ 2 * length circuit.now.netlist.inputs }
    requires pins { length cube.now ≡ length task.now.question.now.admit.pins }
    ensures scratch { IsFor circuit.now scratch.new }
    ensures judged { IfOk result (IsJudgedLine (setting circuit.now) (asking_of task.now.question.now) task.now.most (with_cube cube.now node.now)) }
    ensures stopped { IfErr result (StopNeedsStop task.now.stop.now.can_be_set) }
{
    if !splits_free(cube, node) {
        return Ok(Some(Flaw::Misplaced));
    }
    if !is_enough(task.most, node) {
        return Ok(Some(Flaw::NotEmpty));
    }
    if !is_of_one_pair(cube, node) {
        return Ok(Some(Flaw::NotOnePair));
    }
    if !is_of_cube(
        alloc,
        scratch,
        circuit,
        task.question,
        cube,
        node,
        task.stop,
    )? {
        return Ok(Some(wrong(node)));
    }
    if !is_within(task.most, node) {
        return Ok(Some(Flaw::AboveTime));
    }
    Ok(None)
}

/// What is wrong with a node that isn't true of its cube.
fn wrong(node: &Node) -> Flaw
    ensures { result ≡ wrong_flaw node.now }
{
    match node {
        Node::Empty => Flaw::NotEmpty,
        Node::Split(_) | Node::Bound(_, _) | Node::Point(_) | Node::Refuted(_) => {
            Flaw::WrongNumber
        }
    }
}

/// Whether the node, where it is a split, is at a free position.
fn splits_free(cube: &Cube, node: &Node) -> bool
    ensures { IsTrue result ↔ SplitsFree cube.now node.now }
{
    match node {
        Node::Split(position) => {
            let position = *position as usize;
            position < cube.len() && cube.trit(position) == Trit::Free
        }
        Node::Bound(_, _) | Node::Point(_) | Node::Empty | Node::Refuted(_) => true,
    }
}

/// Whether the node, where no pair is to be admitted, isn't a leaf with a number.
fn is_enough(most: Option<u64>, node: &Node) -> bool
    requires line { is_refuted node.now ≡ false }
    ensures { IsTrue result ↔ IsEnough most node.now }
{
    match most {
        Some(_) => true,
        None => match node {
            Node::Split(_) | Node::Empty | Node::Refuted(_) => true,
            Node::Bound(_, _) | Node::Point(_) => false,
        },
    }
}

/// Whether nothing is free where the node is a leaf of one pair.
fn is_of_one_pair(cube: &Cube, node: &Node) -> bool
    ensures { IsTrue result ↔ IsOfOnePair cube.now node.now }
{
    match node {
        Node::Split(_) | Node::Bound(_, _) | Node::Empty | Node::Refuted(_) => true,
        Node::Point(_) => cube.is_point(),
    }
}

/// Whether an admitted pair may lie in a cube: one lies there, and the cube breaks no condition.
fn may_lie(
    alloc: Global,
    circuit: &Circuit,
    question: &Question,
    cube: &Cube,
) -> Result<bool, AllocError>
    requires length { length cube.now ≡ 2 * length circuit.now.netlist.inputs }
    requires pins { length cube.now ≡ length question.now.admit.pins }
    ensures { IfOk result (λ may. IsTrue may ↔ MayLie circuit.now.netlist (asking_of question.now) cube.now) }
{
    if !question.admit().any(cube) {
        return Ok(false);
    }
    Ok(!is_broken(alloc, circuit, question.keep(), cube)?)
}

/// Whether what a leaf says is true of its cube, unless the stop is set meanwhile.
fn is_of_cube(
    alloc: Global,
    scratch: &mut Scratch,
    circuit: &Circuit,
    question: &Question,
    cube: &Cube,
    node: &Node,
    stop: &Stop,
) -> Result<bool, Interruption>
    requires line { is_refuted node.now ≡ false }
    requires scratch { IsFor circuit.now scratch.old }
    requires length { length cube.now ≡ 2 * length circuit.now.netlist.inputs }
    requires pins { length cube.now ≡ length question.now.admit.pins }
    requires pair { IsOfOnePair cube.now node.now }
    ensures scratch { IsFor circuit.now scratch.new }
    ensures is { IfOk result (λ is. IsTrue is ↔ IsOfCube (setting circuit.now) (asking_of question.now) cube.now node.now) }
    ensures stopped { IfErr result (StopNeedsStop stop.now.can_be_set) }
{
    match node {
        Node::Split(_) | Node::Refuted(_) => Ok(true),
        Node::Bound(domain, most) => Ok(is_bounded(alloc, circuit, cube, *domain, *most)?),
        Node::Point(delay) => has_delay(alloc, scratch, circuit, cube, *delay, stop),
        Node::Empty => Ok(!may_lie(alloc, circuit, question, cube)?),
    }
}

/// Whether the number of a leaf, if it has one, is at most this.
fn is_within(most: Option<u64>, node: &Node) -> bool
    requires line { is_refuted node.now ≡ false }
    ensures { IsTrue result ↔ IsWithin most node.now }
{
    match most {
        None => true,
        Some(most) => match node {
            Node::Split(_) | Node::Empty | Node::Refuted(_) => true,
            Node::Bound(_, number) | Node::Point(number) => *number <= most,
        },
    }
}

/// The bound that a domain gives of a cube, if it gives one.
fn bound_by(
    alloc: Global,
    circuit: &Circuit,
    cube: &Cube,
    domain: BoundedBy,
) -> Result<Option<u64>, AllocError>
    requires { length cube.now ≡ 2 * length circuit.now.netlist.inputs }
    ensures bound { IfOk result (IsBoundBy domain (setting circuit.now) cube.now) }
    ensures only { IfOk result (λ answer. (other : Option ℕ)
        → IsBoundBy domain (setting circuit.now) cube.now other → other ≡ answer) }
{
    match domain {
        BoundedBy::Arrival => bound::<Arrival>(alloc, circuit, cube),
        BoundedBy::Possible => bound::<Possible>(alloc, circuit, cube),
        BoundedBy::Both => bound::<Both<Arrival, Possible>>(alloc, circuit, cube),
        BoundedBy::Edges => bound::<Edges>(alloc, circuit, cube),
        BoundedBy::EdgesAndPossible => bound::<Both<Edges, Possible>>(alloc, circuit, cube),
    }
}

/// Whether a domain gives a bound of a cube that is at most this.
fn is_bounded(
    alloc: Global,
    circuit: &Circuit,
    cube: &Cube,
    domain: BoundedBy,
    most: u64,
) -> Result<bool, AllocError>
    requires { length cube.now ≡ 2 * length circuit.now.netlist.inputs }
    ensures { IfOk result (λ is. IsTrue is ↔ IsBounded domain (setting circuit.now) cube.now most) }
{
    match bound_by(alloc, circuit, cube, domain)? {
        Some(bound) => Ok(bound <= most),
        None => Ok(false),
    }
}

/// Whether the one pair of a cube has this delay, unless the stop is set before that is known.
fn has_delay(
    alloc: Global,
    scratch: &mut Scratch,
    circuit: &Circuit,
    cube: &Cube,
    delay: u64,
    stop: &Stop,
) -> Result<bool, Interruption>
    requires scratch { IsFor circuit.now scratch.old }
    requires length { length cube.now ≡ 2 * length circuit.now.netlist.inputs }
    requires point { IsPoint cube.now }
    ensures scratch { IsFor circuit.now scratch.new }
    ensures has { IfOk result (λ has. IsTrue has ↔ HasDelay (setting circuit.now) cube.now delay) }
    ensures stopped { IfErr result (StopNeedsStop stop.now.can_be_set) }
{
    let pair = pair_of(alloc, circuit, cube)?;
    Ok(delay_until(scratch, circuit, &pair, stop)? == delay)
}
