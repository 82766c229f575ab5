//! Questions whose answers are found by trying all values, and lemmas that are shown along their
//! hints.

ghost use Rattle.std.specs.Prelude.{◌<◌, max};

use crate::{Literal, Outcome, Proof, Question, Solver, literal_at, opposite, small, variable_of};
use std::alloc::{AllocError, Global};
use std::test::Fail;
use td_stop::Stop;

const VARIABLES: u32 = 9;

/// A source of numbers that look random.
#[derive(Drop)]
struct Numbers(u64);

impl Numbers {
    fn below(&mut self, bound: u32) -> u32
        ensures { result < max bound 1 }
    {
        self.0 = self
            .0
            .wrapping_mul(6364136223846793005)
            .wrapping_add(1442695040888963407);
        ((self.0 >> 33) % (bound.max(1) as u64)) as u32
    }

    fn literal(&mut self) -> Literal {
        literal_at(self.below(VARIABLES), self.below(2) == 0)
    }

    fn literals(&mut self, alloc: Global, count: u32) -> Result<Vec<Literal>, AllocError> {
        let mut literals = Vec::new(alloc);
        for _ in 0..count {
            literals.push(self.literal())?;
        }
        Ok(literals)
    }
}

/// What came of questions: how many were answered each way, how many answers were wrong, how many
/// lemmas there were, and how many of them their hints don't show.
#[derive(Clone, Copy, Debug, PartialEq, Eq, Drop)]
struct Tally {
    satisfied: u32,
    refuted: u32,
    open: u32,
    wrong: u32,
    lemmas: u32,
    unshown: u32,
}

impl Tally {
    fn none() -> Tally {
        Tally {
            satisfied: 0,
            refuted: 0,
            open: 0,
            wrong: 0,
            lemmas: 0,
            unshown: 0,
        }
    }
}

// Whether a literal is true where the variables have the bits of this number.
fn is_true_in(literal: Literal, bits: u32) -> bool {
    let bit = (bits >> (variable_of(literal) % 32)) % 2 == 1;
    bit == (literal % 2 == 0)
}

fn one_is_true(clause: &[Literal], bits: u32) -> bool {
    for literal in clause {
        if is_true_in(*literal, bits) {
            return true;
        }
    }
    false
}

fn all_are_true(literals: &[Literal], bits: u32) -> bool {
    for literal in literals {
        if !is_true_in(*literal, bits) {
            return false;
        }
    }
    true
}

fn all_hold(clauses: &[Vec<Literal>], bits: u32) -> bool {
    for clause in clauses {
        if !one_is_true(clause, bits) {
            return false;
        }
    }
    true
}

fn can_be(clauses: &[Vec<Literal>], assumptions: &[Literal]) -> bool {
    for bits in 0..1u32 << VARIABLES {
        if all_are_true(assumptions, bits) && all_hold(clauses, bits) {
            return true;
        }
    }
    false
}

// The bits of the last model.
fn model_of(solver: &Solver) -> u32 {
    let mut bits = 0u32;
    for variable in 0..VARIABLES {
        if solver.is_true(literal_at(variable, true)) {
            bits |= 1 << variable;
        }
    }
    bits
}

// The literals of the clause that aren't false where these are true: none, one, or two or more.
fn left_of(clause: &[Literal], known: &[Literal]) -> (u32, Literal) {
    let mut left = 0u32;
    let mut last = 0;
    for literal in clause {
        if !known.contains(&opposite(*literal)) && !(left > 0 && last == *literal) {
            left = left.saturating_add(1);
            last = *literal;
        }
    }
    (left, last)
}

// Whether the hints show a lemma.
fn is_shown(alloc: Global, proof: &Proof, number: u32) -> Result<bool, AllocError> {
    let mut known = Vec::new(alloc);
    for literal in proof.literals(number) {
        // Two assumptions may be each other's negation.
        if known.contains(literal) {
            return Ok(true);
        }
        known.push(opposite(*literal))?;
    }
    for hint in proof.hints(number) {
        if *hint >= number {
            return Ok(false);
        }
        let (left, last) = left_of(proof.literals(*hint), &known);
        if left == 0 {
            return Ok(true);
        }
        if left > 1 {
            return Ok(false);
        }
        known.push(last)?;
    }
    Ok(false)
}

// Whether each literal of the clause is the negation of an assumption.
fn denies(clause: &[Literal], assumptions: &[Literal]) -> bool {
    for literal in clause {
        if !assumptions.contains(&opposite(*literal)) {
            return false;
        }
    }
    true
}

fn ask_once(
    solver: &mut Solver,
    clauses: &[Vec<Literal>],
    assumptions: &[Literal],
    inputs: &[u32],
    limit: Option<u64>,
) -> Result<Tally, AllocError> {
    let mut tally = Tally::none();
    let question = Question {
        assumptions,
        inputs,
        skipped: &[],
        limit,
    };
    let can = can_be(clauses, assumptions);
    match solver.ask(&question, &Stop::never())? {
        Outcome::Satisfied => {
            tally.satisfied = 1;
            let bits = model_of(solver);
            if !can || !all_hold(clauses, bits) || !all_are_true(assumptions, bits) {
                tally.wrong = 1;
            }
        }
        Outcome::Refuted(lemma) => {
            tally.refuted = 1;
            if can || !denies(solver.proof().literals(lemma), assumptions) {
                tally.wrong = 1;
            }
        }
        Outcome::Open => tally.open = 1,
    }
    Ok(tally)
}

fn sum(this: Tally, that: Tally) -> Tally {
    Tally {
        satisfied: this.satisfied.saturating_add(that.satisfied),
        refuted: this.refuted.saturating_add(that.refuted),
        open: this.open.saturating_add(that.open),
        wrong: this.wrong.saturating_add(that.wrong),
        lemmas: this.lemmas.saturating_add(that.lemmas),
        unshown: this.unshown.saturating_add(that.unshown),
    }
}

// Asks questions between which clauses are added, with and without a limit.
fn session(alloc: Global, seed: u64) -> Result<Tally, AllocError> {
    let mut numbers = Numbers(seed);
    let mut solver = Solver::new(alloc);
    let mut inputs = Vec::new(alloc);
    for _ in 0..VARIABLES {
        inputs.push(solver.add_variable(numbers.below(2) == 0)?)?;
    }
    let mut clauses: Vec<Vec<Literal>> = Vec::new(alloc);
    let mut tally = Tally::none();
    let mut assumptions = Vec::new(alloc);
    for turn in 0..24u32 {
        for _ in 0..numbers.below(4) {
            let count = 1 + numbers.below(4);
            let clause = numbers.literals(alloc, if count == 1 { 2 } else { count })?;
            solver.add(&clause)?;
            clauses.push(clause)?;
        }
        if turn % 3 != 0 {
            let count = numbers.below(4);
            assumptions = numbers.literals(alloc, count)?;
        }
        let limit = if numbers.below(4) == 0 { Some(1) } else { None };
        tally = sum(
            tally,
            ask_once(&mut solver, &clauses, &assumptions, &inputs, limit)?,
        );
    }
    for number in 0..small(solver.proof().len()) {
        if !solver.proof().is_given(number) {
            tally.lemmas = tally.lemmas.saturating_add(1);
            if !is_shown(alloc, solver.proof(), number)? {
                tally.unshown = tally.unshown.saturating_add(1);
            }
        }
    }
    Ok(tally)
}

#[test]
fn answers_are_right(rt: HostRuntime) -> Result<(), Fail> {
    let mut tally = Tally::none();
    for seed in 0..60u64 {
        tally = sum(tally, session(rt.alloc(), seed.wrapping_mul(7919))?);
    }
    assert_eq!(rt; (tally.wrong, tally.unshown), (0, 0));
    assert!(rt;
        tally.satisfied > 200 && tally.refuted > 200 && tally.lemmas > 200,
        "{tally:?}"
    );
    Ok(())
}

/// A solver that is given all clauses over some variables, and these.
fn contradictory(alloc: Global, variables: u32) -> Result<(Solver, Vec<u32>), AllocError> {
    let mut solver = Solver::new(alloc);
    let mut inputs = Vec::new(alloc);
    for _ in 0..variables {
        inputs.push(solver.add_variable(false)?)?;
    }
    for row in 0..1u32 << (variables % 8) {
        let mut clause = Vec::new(alloc);
        let mut rest = row;
        for input in &inputs {
            clause.push(literal_at(*input, rest % 2 == 0))?;
            rest /= 2;
        }
        solver.add(&clause)?;
    }
    Ok((solver, inputs))
}

fn ask_all(solver: &mut Solver, inputs: &[u32]) -> Result<Outcome, AllocError> {
    let question = Question {
        assumptions: &[],
        inputs,
        skipped: &[],
        limit: None,
    };
    solver.ask(&question, &Stop::never())
}

#[test]
fn a_pause_comes_after_a_conflict(rt: HostRuntime) -> Result<(), Fail> {
    let (mut solver, inputs) = contradictory(rt.alloc(), 3)?;
    solver.pause_at(0);
    assert_eq!(rt; ask_all(&mut solver, &inputs)?, Outcome::Open);
    assert_eq!(rt; solver.conflicts(), 1);
    assert!(rt; solver.looks() > 0);
    solver.pause_at(u64::MAX);
    let is_refuted = match ask_all(&mut solver, &inputs)? {
        Outcome::Refuted(_) => true,
        _ => false,
    };
    assert!(rt; is_refuted);
    Ok(())
}

#[test]
fn a_short_lemma_is_told(rt: HostRuntime) -> Result<(), Fail> {
    let (mut solver, inputs) = contradictory(rt.alloc(), 2)?;
    assert!(rt; solver.take_told().is_empty());
    solver.pause_at(0);
    let _open = ask_all(&mut solver, &inputs)?;
    let told = solver.take_told();
    assert_eq!(rt; told.len(), 1);
    assert_eq!(rt; solver.proof().literals(told[0]).len(), 1);
    assert!(rt; solver.take_told().is_empty());
    Ok(())
}

#[test]
fn a_heard_lemma_counts(rt: HostRuntime) -> Result<(), Fail> {
    let mut solver = Solver::new(rt.alloc());
    let mut inputs = Vec::new(rt.alloc());
    for _ in 0..3 {
        inputs.push(solver.add_variable(false)?)?;
    }
    let number = solver.hear(&[literal_at(0, true), literal_at(1, true)])?;
    assert!(rt; solver.proof().is_given(number));
    solver.hear(&[literal_at(0, true), literal_at(1, false)])?;
    solver.hear(&[literal_at(0, false), literal_at(2, true)])?;
    let is_satisfied = match ask_all(&mut solver, &inputs)? {
        Outcome::Satisfied => true,
        _ => false,
    };
    assert!(rt; is_satisfied && solver.is_true(literal_at(0, true)));
    assert!(rt; solver.is_true(literal_at(2, true)));
    solver.hear(&[literal_at(2, false)])?;
    let is_refuted = match ask_all(&mut solver, &inputs)? {
        Outcome::Refuted(_) => true,
        _ => false,
    };
    assert!(rt; is_refuted);
    Ok(())
}

#[test]
fn a_proof_is_handed_over(rt: HostRuntime) -> Result<(), Fail> {
    let (mut solver, _) = contradictory(rt.alloc(), 2)?;
    let words = solver.words();
    let proof = solver.hand_over();
    assert_eq!(rt; (proof.first(), proof.next()), (0, 4));
    assert!(rt; solver.proof().is_empty() && solver.words() < words && proof.words() > 0);
    let number = solver.add(&[literal_at(0, true), literal_at(1, true)])?;
    assert_eq!(rt;
        (number, solver.proof().first(), solver.proof().next()),
        (4, 4, 5)
    );
    assert_eq!(rt; solver.proof().literals(4).len(), 2);
    assert!(rt; solver.proof().literals(0).is_empty() && !solver.proof().is_given(0));
    Ok(())
}
