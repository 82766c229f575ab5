//! Cutting the pins of a question into parts.

ghost use Rattle.std.specs.Prelude.{◌≡◌, [], ◌∷◌, ◌++◌, ◌*◌, ◌<◌, ◌≤◌, ◌+◌, max, set, IfOk, IfSome, OnOk, MatchOption, All, length, slice_get, Some};
ghost use Rattle.td_circuit.specs.Numbering.{setting};
ghost use Rattle.td_domain.specs.declared.cubes.Trit.TheVariants.{Free};
ghost use Rattle.td_domain.specs.Admits.{HasAdmitted};
ghost use Rattle.td_certificate.specs.Cubes.{zero_side, one_side};
ghost use Rattle.td_search.specs.Problems.{IsPart};
ghost use Rattle.td_join.specs.Partition.{IsPartition};
ghost use Rattle.td_parts.specs.Queues.{AreBelow, AreWaiting, AreWaitingBut};
ghost use Rattle.td_parts.specs.Splits.{IsSplitFree, IsTruePart, IsUnsplit, cubes_of as cubes};
ghost use Rattle.td_parts.specs.Whole.{IsWhole};
ghost use Rattle.td_parts.specs.Sharing.{AreShares, IsCutting, IsFreeIn, weight};

use crate::part::{Part, cubes_of};
use crate::queue::Queue;
use std::alloc::{AllocError, Global};
use td_domain::{Cube, Trit};
use td_search::{Lead, Least, Own, Problem, Rule, Strategy, Task};
use td_stop::Stop;

/// The zero side and the one side of a cube at a free position. The error is out of memory.
fn sides(alloc: Global, cube: &Cube, position: usize) -> Result<(Cube, Cube), AllocError>
    requires { slice_get cube.now position ≡ Some Free }
    ensures low { IfOk result (λ both. both.0 ≡ zero_side cube.now position) }
    ensures high { IfOk result (λ both. both.1 ≡ one_side cube.now position) }
{
    let mut low = cube.copy(alloc)?;
    low.set(position, Trit::Zero);
    let mut high = cube.copy(alloc)?;
    high.set(position, Trit::One);
    Ok((low, high))
}

/// Parts that share out the admitted pairs, and the order in which they are halved.
#[derive(Drop)]
pub struct Cutting {
    pub parts: Vec<Part>,
    pub queue: Queue,
}

impl Cutting {
    /// The pins as one part. The error is out of memory.
    fn begin<R: Rule>(task: &Task<'_, R>, scratch: &mut R::Scratch) -> Result<Cutting, AllocError>
        requires scratch { R.is_for scratch.old task.now.problem.now.circuit.now }
        requires any { HasAdmitted task.now.problem.now.admit.now task.now.problem.now.admit.now.pins }
        ensures cutting { IfOk result (IsCutting task.now.problem.now.strategy (setting task.now.problem.now.circuit.now) task.now.problem.now.admit.now) }
        ensures waiting { IfOk result (λ cutting. AreWaiting cutting.parts.items cutting.queue) }
        ensures one { IfOk result (λ cutting. length cutting.parts.items ≡ 1) }
        ensures scratch { R.is_for scratch.new task.now.problem.now.circuit.now }
    {
        let pins = task.problem.admit.pins().copy(task.alloc)?;
        let part = Part::new(task, scratch, pins)?;
        let mut queue = Queue::new(task.alloc);
        queue.push(part.bound(), 0)?;
        let mut parts = Vec::new(task.alloc);
        parts.push(part)?;
        Ok(Cutting { parts, queue })
    }

    /// Puts a half of the part at a place into that place. The error is out of memory.
    fn narrow<R: Rule>(
        &mut self,
        task: &Task<'_, R>,
        scratch: &mut R::Scratch,
        place: usize,
        half: Cube,
    ) -> Result<(), AllocError>
        requires scratch { R.is_for scratch.old task.now.problem.now.circuit.now }
        requires positions { length half ≡ 2 * length task.now.problem.now.circuit.now.netlist.inputs }
        requires place { place < length self.old.parts.items }
        ensures cubes { OnOk result (cubes self.new.parts.items ≡ set (cubes self.old.parts.items) place half) }
        ensures splits { All (IsTruePart task.now.problem.now.strategy (setting task.now.problem.now.circuit.now)) self.old.parts.items → OnOk result (All (IsTruePart task.now.problem.now.strategy (setting task.now.problem.now.circuit.now)) self.new.parts.items) }
        ensures queued { AreBelow (length self.old.parts.items) self.old.queue → OnOk result (AreBelow (length self.old.parts.items) self.new.queue) }
        ensures waiting { AreWaitingBut place self.old.parts.items self.old.queue → OnOk result (AreWaiting self.new.parts.items self.new.queue) }
        ensures scratch { R.is_for scratch.new task.now.problem.now.circuit.now }
    {
        let part = Part::new(task, scratch, half)?;
        self.queue.push(part.bound(), place)?;
        self.parts[place] = part;
        Ok(())
    }

    /// Adds a half as one more part. The error is out of memory.
    fn add<R: Rule>(
        &mut self,
        task: &Task<'_, R>,
        scratch: &mut R::Scratch,
        half: Cube,
    ) -> Result<(), AllocError>
        requires scratch { R.is_for scratch.old task.now.problem.now.circuit.now }
        requires positions { length half ≡ 2 * length task.now.problem.now.circuit.now.netlist.inputs }
        ensures cubes { OnOk result (cubes self.new.parts.items ≡ cubes self.old.parts.items ++ half ∷ []) }
        ensures splits { All (IsTruePart task.now.problem.now.strategy (setting task.now.problem.now.circuit.now)) self.old.parts.items → OnOk result (All (IsTruePart task.now.problem.now.strategy (setting task.now.problem.now.circuit.now)) self.new.parts.items) }
        ensures queued { AreBelow (length self.old.parts.items) self.old.queue → OnOk result (AreBelow (length self.old.parts.items + 1) self.new.queue) }
        ensures waiting { AreWaiting self.old.parts.items self.old.queue → OnOk result (AreWaiting self.new.parts.items self.new.queue) }
        ensures scratch { R.is_for scratch.new task.now.problem.now.circuit.now }
    {
        let part = Part::new(task, scratch, half)?;
        self.queue.push(part.bound(), self.parts.len())?;
        self.parts.push(part)?;
        Ok(())
    }

    /// Halves the part of a place at a position that is free in it. A half without an admitted pair
    /// is left out. The error is out of memory.
    fn halve<R: Rule>(
        &mut self,
        task: &Task<'_, R>,
        scratch: &mut R::Scratch,
        place: usize,
        position: usize,
    ) -> Result<(), AllocError>
        requires scratch { R.is_for scratch.old task.now.problem.now.circuit.now }
        requires cutting { IsCutting task.now.problem.now.strategy (setting task.now.problem.now.circuit.now) task.now.problem.now.admit.now self.old }
        requires place { place < length self.old.parts.items }
        requires free { IsFreeIn (cubes self.old.parts.items) place position }
        requires waiting { AreWaitingBut place self.old.parts.items self.old.queue }
        ensures cutting { OnOk result (IsCutting task.now.problem.now.strategy (setting task.now.problem.now.circuit.now) task.now.problem.now.admit.now self.new) }
        ensures waiting { OnOk result (AreWaiting self.new.parts.items self.new.queue) }
        ensures few { OnOk result (length self.new.parts.items ≤ length self.old.parts.items + 1) }
        ensures smaller { OnOk result (weight (cubes self.new.parts.items) < weight (cubes self.old.parts.items)) }
        ensures scratch { R.is_for scratch.new task.now.problem.now.circuit.now }
    {
        let _fit = task.problem.admit.pins();
        let (low, high) = sides(task.alloc, &self.parts[place].cube, position)?;
        if !task.problem.admit.any(&low) {
            self.narrow(task, scratch, place, high)?;
            return Ok(());
        }
        self.narrow(task, scratch, place, low)?;
        if !task.problem.admit.any(&high) {
            return Ok(());
        }
        self.add(task, scratch, high)?;
        Ok(())
    }

    /// The place of the part that is halved next, and the position at which it is. None where a
    /// search would split no part.
    fn next(&mut self) -> Option<(usize, usize)>
        requires splits { All IsSplitFree self.old.parts.items }
        requires queued { AreBelow (length self.old.parts.items) self.old.queue }
        requires waiting { AreWaiting self.old.parts.items self.old.queue }
        ensures place { IfSome result (λ next. next.0 < length self.old.parts.items) }
        ensures free { IfSome result (λ next. IsFreeIn (cubes self.old.parts.items) next.0 next.1) }
        ensures parts { self.new.parts ≡ self.old.parts }
        ensures queued { AreBelow (length self.old.parts.items) self.new.queue }
        ensures waiting { MatchOption result (All IsUnsplit self.new.parts.items) (λ next. AreWaitingBut next.0 self.new.parts.items self.new.queue) }
    {
        while let Some(place) = self.queue.pop() {
            match self.parts[place].split {
                Some(split) => return Some((place, split.position)),
                None => {}
            }
        }
        None
    }

    /// Halves parts until there are `parts` of them, or a search would split none. The error is out
    /// of memory.
    fn halve_until<R: Rule>(
        &mut self,
        task: &Task<'_, R>,
        scratch: &mut R::Scratch,
        parts: usize,
    ) -> Result<(), AllocError>
        requires scratch { R.is_for scratch.old task.now.problem.now.circuit.now }
        requires cutting { IsCutting task.now.problem.now.strategy (setting task.now.problem.now.circuit.now) task.now.problem.now.admit.now self.old }
        requires waiting { AreWaiting self.old.parts.items self.old.queue }
        requires few { length self.old.parts.items ≤ max 1 parts }
        ensures cutting { OnOk result (IsCutting task.now.problem.now.strategy (setting task.now.problem.now.circuit.now) task.now.problem.now.admit.now self.new) }
        ensures few { OnOk result (length self.new.parts.items ≤ max 1 parts) }
        ensures enough { OnOk result (length self.new.parts.items < parts → All IsUnsplit self.new.parts.items) }
    {
        while self.parts.len() < parts {
            let Some((place, position)) = self.next() else {
                break;
            };
            self.halve(task, scratch, place, position)?;
        }
        Ok(())
    }
}

/// As `cut`, where an admitted pair lies in the pins.
fn cut_pins<R: Rule>(task: &Task<'_, R>, parts: usize) -> Result<Vec<Cube>, AllocError>
    requires any { HasAdmitted task.now.problem.now.admit.now task.now.problem.now.admit.now.pins }
    ensures shares { IfOk result (λ cubes. AreShares task.now.problem.now.admit.now cubes.items) }
    ensures few { IfOk result (λ cubes. length cubes.items ≤ max 1 parts) }
    ensures enough { IfOk result (λ cubes. length cubes.items < parts → All (IsWhole task.now.problem.now.strategy (setting task.now.problem.now.circuit.now)) cubes.items) }
{
    let mut scratch = task.rule.scratch(task.alloc, task.problem)?;
    let mut cutting = Cutting::begin(task, &mut scratch)?;
    cutting.halve_until(task, &mut scratch, parts)?;
    let cubes = cubes_of(task.alloc, cutting.parts)?;
    Ok(cubes)
}

/// Cuts the pins of a question into at most `parts` cubes, to search apart. 0 counts as 1. Each
/// step halves the first part with the greatest strongest bound, at the position at which a search
/// by the strategy would split it. This ends with that many parts, or where a search would split no
/// part. A cube without an admitted pair is left out, so the answer has no cube where no pair is
/// admitted. The error is out of memory.
pub fn cut(alloc: Global, problem: &Problem<'_>, parts: usize) -> Result<Vec<Cube>, AllocError>
    // Each admitted pair lies in exactly one of the cubes, and each cube has an admitted pair.
    ensures partition { IfOk result (λ cubes. IsPartition problem.now.admit.now cubes.items) }
    ensures some { IfOk result (λ cubes. All (HasAdmitted problem.now.admit.now) cubes.items) }
    // Each is a part of the pins with as many positions.
    ensures inside { IfOk result (λ cubes. All (λ cube. IsPart cube problem.now.admit.now.pins) cubes.items) }
    ensures fits { IfOk result (λ cubes. All (λ cube. length cube ≡ length problem.now.admit.now.pins) cubes.items) }
    ensures few { IfOk result (λ cubes. length cubes.items ≤ max 1 parts) }
    // There are fewer than asked for only where a search would split none of them.
    ensures enough { IfOk result (λ cubes. length cubes.items < parts → All (IsWhole problem.now.strategy (setting problem.now.circuit.now)) cubes.items) }
{
    let pins = problem.admit.pins();
    if !problem.admit.any(pins) {
        return Ok(Vec::new(alloc));
    }
    let cubes = cut_by(alloc, problem, parts)?;
    Ok(cubes)
}

/// As `cut`, where an admitted pair lies in the pins, by the rule of the strategy.
fn cut_by(alloc: Global, problem: &Problem<'_>, parts: usize) -> Result<Vec<Cube>, AllocError>
    requires any { HasAdmitted problem.now.admit.now problem.now.admit.now.pins }
    ensures shares { IfOk result (λ cubes. AreShares problem.now.admit.now cubes.items) }
    ensures few { IfOk result (λ cubes. length cubes.items ≤ max 1 parts) }
    ensures enough { IfOk result (λ cubes. length cubes.items < parts → All (IsWhole problem.now.strategy (setting problem.now.circuit.now)) cubes.items) }
{
    let stop = &Stop::never();
    match problem.strategy {
        Strategy::Least => {
            let rule = Least { prober: &Own };
            let task = Task {
                alloc,
                problem,
                rule: &rule,
                stop,
            };
            cut_pins(&task, parts)
        }
        Strategy::Lead => {
            let task = Task {
                alloc,
                problem,
                rule: &Lead,
                stop,
            };
            cut_pins(&task, parts)
        }
    }
}
