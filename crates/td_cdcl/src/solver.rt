//! The solver.

use crate::activity::Activity;
use crate::analysis::Analysis;
use crate::arena::Clause;
use crate::board::Board;
use crate::literal::{Literal, MOST_VARIABLES, literal_at, opposite, place_of, variable_of};
use crate::pace::Pace;
use crate::proof::{ClauseNumber, Proof};
use crate::question::{Outcome, Question};
use crate::reduction::{forget, reduce};
use crate::table::{read, small};
use crate::trail::Value;
use std::alloc::{AllocError, Global};
use std::mem;
use td_stop::Stop;

// So many propagations are a unit of work, as is a conflict.
const PROPAGATIONS_OF_A_UNIT: u64 = 1000;
// So many words of 4 bytes a variable takes, about.
const WORDS_OF_A_VARIABLE: u64 = 48;
// A lemma that other solvers are told has no more glue, and no more literals.
const TOLD_GLUE: u32 = 10;

const TOLD_LITERALS: usize = 60;
// What another solver has learned stays where it is used, as a clause with this glue does.
const GLUE_OF_HEARD: u32 = 10;

/// Clauses over variables, to which more may be added between questions. A question asks whether
/// all clauses and some assumptions can be true. What is learned for one serves later ones.
#[derive(Clone, Drop)]
pub struct Solver {
    alloc: Global,
    pub(crate) proof: Proof,
    pub(crate) board: Board,
    activity: Activity,
    pub(crate) analysis: Analysis,
    pace: Pace,
    // The learned clauses of the board.
    pub(crate) learned: Vec<Clause>,
    // How many literals of level 0 have a clause of that one literal.
    pub(crate) named: usize,
    // The clause without literals, once there is one.
    pub(crate) empty: Option<ClauseNumber>,
    conflicts: u64,
    // Questions stay open once so many watches were looked at.
    pause: u64,
    // The lemmas for other solvers that were learned, where they are kept.
    told: Option<Vec<ClauseNumber>>,
    // The assumptions that the trail begins with.
    assumed: Vec<Literal>,
    // Variables that were taken from the heap and not decided.
    aside: Vec<u32>,
    // All inputs of the question before this place have values.
    next_input: usize,
    // By literal.
    model: Vec<Value>,
    // Room for the literals of a clause.
    pub(crate) literals: Vec<Literal>,
}

// Where a stretch without conflicts ends: at a clause whose literals are all false, at an
// assumption that is false, by its place, or where each input has a value.
#[derive(Clone, Copy, Drop)]
enum Stretch {
    Conflict(Clause),
    Failed(usize),
    Complete,
}

// What comes next: a decision, a level without one, since its assumption is true, an assumption
// that is false, or nothing, since each input has a value.
#[derive(Clone, Copy, Drop)]
enum Next {
    Decide(Literal),
    Level,
    Failed(usize),
    Complete,
}

impl Solver {
    /// No clauses and no variables.
    pub fn new(alloc: Global) -> Solver {
        Solver {
            alloc,
            proof: Proof::new(alloc),
            board: Board::new(alloc),
            activity: Activity::new(alloc),
            analysis: Analysis::new(alloc),
            pace: Pace::new(),
            learned: Vec::new(alloc),
            named: 0,
            empty: None,
            conflicts: 0,
            pause: u64::MAX,
            told: None,
            assumed: Vec::new(alloc),
            aside: Vec::new(alloc),
            next_input: 0,
            model: Vec::new(alloc),
            literals: Vec::new(alloc),
        }
    }

    /// How many variables there are, numbered from 0 on.
    pub fn variables(&self) -> u32 {
        small(self.board.trail.variables())
    }

    /// Adds a variable, which is decided at `value` first. Answers its number. The error is out of
    /// memory, or that there are too many.
    pub fn add_variable(&mut self, value: bool) -> Result<u32, AllocError> {
        let variable = self.variables();
        if variable >= MOST_VARIABLES {
            return Err(AllocError);
        }
        let count = variable.saturating_add(1);
        self.board.grow(count)?;
        self.activity.grow(count)?;
        let levels = (count as usize).saturating_mul(2).saturating_add(1);
        self.analysis.grow(count as usize, levels)?;
        self.board.trail.set_phase(variable, value);
        Ok(variable)
    }

    /// Sets the value with which a variable is decided next.
    pub fn set_phase(&mut self, variable: u32, value: bool) {
        self.board.trail.set_phase(variable, value);
    }

    /// How much a variable was met in conflicts.
    pub fn activity(&self, variable: u32) -> u64 {
        self.activity.score(variable)
    }

    /// Whether a variable has its value for good.
    pub fn is_fixed(&self, variable: u32) -> bool {
        self.board.trail.value(literal_at(variable, true)) != Value::Open
            && self.board.trail.level_of(variable as usize) == 0
    }

    /// Whether a literal is true in the last model; one without a value there isn't.
    pub fn is_true(&self, literal: Literal) -> bool {
        read(&self.model, literal as usize, Value::Open) == Value::True
    }

    /// The clauses that were given and learned.
    pub fn proof(&self) -> &Proof {
        &self.proof
    }

    /// The number of the clause without literals, once there is one: then no question has a model.
    pub fn contradiction(&self) -> Option<ClauseNumber> {
        self.empty
    }

    /// How many conflicts its questions have met.
    pub fn conflicts(&self) -> u64 {
        self.conflicts
    }

    /// The work that was done, in units: a conflict, or 1,000 propagations.
    pub fn work(&self) -> u64 {
        self.conflicts
            .saturating_add(self.board.propagations / PROPAGATIONS_OF_A_UNIT)
    }

    /// How many watches were looked at: steps that take about as long each.
    pub fn looks(&self) -> u64 {
        self.board.looks
    }

    /// Sets after how many looks a question stays open, once it has met a conflict.
    pub fn pause_at(&mut self, looks: u64) {
        self.pause = looks;
    }

    /// How many words of 4 bytes its clauses and its proof take, about.
    pub fn words(&self) -> u64 {
        let clauses = (self.board.arena.end() as u64).saturating_mul(2);
        let variables = u64::from(self.variables()).saturating_mul(WORDS_OF_A_VARIABLE);
        self.proof
            .words()
            .saturating_add(clauses)
            .saturating_add(variables)
    }

    /// Hands the proof over. The clauses that come later have the numbers after these.
    pub fn hand_over(&mut self) -> Proof {
        let rest = Proof::beginning_at(self.alloc, self.proof.next());
        mem::replace(&mut self.proof, rest)
    }

    /// The numbers of the lemmas with little glue that were learned since the last call, none at
    /// the first one. They may serve other solvers of the same clauses.
    pub fn take_told(&mut self) -> Vec<ClauseNumber> {
        let none = Some(Vec::new(self.alloc));
        match mem::replace(&mut self.told, none) {
            Some(told) => told,
            None => Vec::new(self.alloc),
        }
    }

    /// Adds a clause over variables that are there. As much of the trail stays as may. Answers its
    /// number. The error is out of memory, or that there are too many; then the solver is of no use
    /// any more, but for its proof.
    pub fn add(&mut self, clause: &[Literal]) -> Result<ClauseNumber, AllocError> {
        let number = self.proof.give(clause)?;
        self.take_in(number, None)?;
        Ok(number)
    }

    /// Adds a lemma that another solver has learned, likewise. It may be removed like one of its
    /// own.
    pub fn hear(&mut self, lemma: &[Literal]) -> Result<ClauseNumber, AllocError> {
        let number = self.proof.give(lemma)?;
        self.take_in(number, Some(GLUE_OF_HEARD))?;
        Ok(number)
    }

    // Goes back to the end of a level.
    pub(crate) fn back(&mut self, level: u32) {
        if level < self.board.trail.level() {
            self.next_input = 0;
        }
        self.board.trail.back(level, &mut self.activity);
    }

    /// Asks whether all clauses and the assumptions can be true, until the limit is met or the stop
    /// is set. `Satisfied`: `is_true` says the model. In each case more may have been learned. The
    /// error is out of memory, or that there are too many clauses; then the solver is of no use any
    /// more, but for its proof.
    pub fn ask(&mut self, question: &Question<'_>, stop: &Stop) -> Result<Outcome, AllocError> {
        self.begin(question)?;
        if let Some(empty) = self.empty {
            return Ok(Outcome::Refuted(empty));
        }
        let start = self.work();
        for _ in 0..u64::MAX {
            if stop.is_set() {
                return Ok(Outcome::Open);
            }
            match self.stretch(question)? {
                Stretch::Conflict(conflict) => {
                    self.conflicts = self.conflicts.saturating_add(1);
                    self.learn(conflict)?;
                    if let Some(empty) = self.empty {
                        return Ok(Outcome::Refuted(empty));
                    }
                    if self.is_over(question.limit, start) || self.board.looks >= self.pause {
                        self.back(0);
                        return Ok(Outcome::Open);
                    }
                }
                Stretch::Failed(place) => {
                    let lemma = self.fail(question.assumptions, place)?;
                    return Ok(Outcome::Refuted(lemma));
                }
                Stretch::Complete => {
                    self.model.clear();
                    self.model.extend_from_slice(self.board.trail.values())?;
                    return Ok(Outcome::Satisfied);
                }
            }
        }
        Ok(Outcome::Open)
    }

    fn is_over(&self, limit: Option<u64>, start: u64) -> bool {
        match limit {
            Some(limit) => self.work().saturating_sub(start) > limit,
            None => false,
        }
    }

    // Keeps the trail where the assumptions are those of the last question, else goes back to level
    // 0.
    fn begin(&mut self, question: &Question<'_>) -> Result<(), AllocError> {
        self.next_input = 0;
        if self.assumed.as_slice() != question.assumptions {
            self.back(0);
            for variable in &self.aside {
                self.activity.insert(*variable);
            }
            self.aside.clear();
            self.assumed.clear();
            self.assumed.extend_from_slice(question.assumptions)?;
        }
        if self.empty.is_none() && self.board.trail.level() == 0 {
            self.settle()?;
        }
        self.pace.begin();
        Ok(())
    }

    // Goes on to the next conflict, or to the end.
    fn stretch(&mut self, question: &Question<'_>) -> Result<Stretch, AllocError> {
        if self.pace.begins_anew() {
            let level = self.level_of_restart(question.assumptions.len());
            self.back(level);
        }
        if self.pace.reduces(self.conflicts) {
            reduce(self.alloc, &mut self.board, &mut self.learned)?;
        }
        let variables = self.board.trail.variables();
        let levels = variables.saturating_add(question.assumptions.len());
        for _ in 0..levels.saturating_add(1) {
            if let Some(conflict) = self.board.propagate()? {
                return Ok(Stretch::Conflict(conflict));
            }
            match self.next(question)? {
                Next::Decide(literal) => {
                    self.board.trail.begin_level()?;
                    self.board.trail.assign(literal, None);
                }
                Next::Level => self.board.trail.begin_level()?,
                Next::Failed(place) => return Ok(Stretch::Failed(place)),
                Next::Complete => return Ok(Stretch::Complete),
            }
        }
        Ok(Stretch::Complete)
    }

    // The level to which a restart goes back: the decisions that would be made again stay.
    fn level_of_restart(&mut self, assumptions: usize) -> u32 {
        let next = self.next_score();
        let last = self.board.trail.level();
        let mut level = last.min(u32::try_from(assumptions).unwrap_or(last));
        for _ in level..last {
            let decision = variable_of(self.board.trail.decision(level));
            if self.activity.score(decision) <= next {
                return level;
            }
            level = level.saturating_add(1);
        }
        level
    }

    // The score of the open variable with the greatest one.
    fn next_score(&mut self) -> u64 {
        for _ in 0..self.board.trail.variables() {
            let Some(variable) = self.activity.first() else {
                return 0;
            };
            if self.board.trail.value(literal_at(variable, true)) == Value::Open {
                return self.activity.score(variable);
            }
            self.activity.pop();
        }
        0
    }

    fn next(&mut self, question: &Question<'_>) -> Result<Next, AllocError> {
        let place = self.board.trail.level() as usize;
        match question.assumptions.get(place) {
            Some(assumption) => Ok(self.next_assumption(*assumption, place)),
            None => self.next_decision(question),
        }
    }

    fn next_assumption(&self, assumption: Literal, place: usize) -> Next {
        match self.board.trail.value(assumption) {
            Value::Open => Next::Decide(assumption),
            Value::True => Next::Level,
            Value::False => Next::Failed(place),
        }
    }

    // Decides the open variable that was met most in conflicts lately; where none was met at all,
    // an input that has no value.
    fn next_decision(&mut self, question: &Question<'_>) -> Result<Next, AllocError> {
        let Some(input) = self.open_input(question.inputs) else {
            return Ok(Next::Complete);
        };
        for _ in 0..self.board.trail.variables() {
            let Some(variable) = self.activity.pop() else {
                break;
            };
            if self.board.trail.value(literal_at(variable, true)) != Value::Open {
                continue;
            }
            if read(question.skipped, variable as usize, false) {
                self.aside.push(variable)?;
                continue;
            }
            if self.activity.score(variable) == 0 {
                self.activity.insert(variable);
                break;
            }
            return Ok(Next::Decide(self.board.trail.kept_literal(variable)));
        }
        Ok(Next::Decide(self.board.trail.kept_literal(input)))
    }

    // The first input that has no value.
    fn open_input(&mut self, inputs: &[u32]) -> Option<u32> {
        for place in self.next_input..inputs.len() {
            let input = inputs[place];
            if self.board.trail.value(literal_at(input, true)) == Value::Open {
                self.next_input = place;
                return Some(input);
            }
        }
        self.next_input = inputs.len();
        None
    }

    // Learns from a clause that is false.
    fn learn(&mut self, conflict: Clause) -> Result<(), AllocError> {
        if self.board.trail.level() == 0 {
            self.name_all()?;
            return self.refute(conflict);
        }
        let lesson = self
            .analysis
            .analyze(&mut self.board, &mut self.activity, conflict)?;
        self.back(lesson.level);
        let number = self
            .proof
            .learn(self.analysis.clause(), self.analysis.hints())?;
        self.activity.decay(self.pace.is_stable());
        self.pace.count(self.conflicts, lesson.glue);
        let literals = self.analysis.clause();
        if lesson.glue <= TOLD_GLUE && literals.len() <= TOLD_LITERALS {
            if let Some(told) = &mut self.told {
                told.push(number)?;
            }
        }
        let first = read(literals, 0, 0);
        if literals.len() == 1 {
            self.board.trail.assign_unit(first, number);
            self.settle()?;
            return Ok(());
        }
        let clause = self.board.attach(number, literals, Some(lesson.glue))?;
        self.learned.push(clause)?;
        self.board.trail.assign(first, Some(clause));
        Ok(())
    }

    // Learns which assumptions make the one at this place false, and keeps that clause. Answers its
    // number.
    fn fail(&mut self, assumptions: &[Literal], place: usize) -> Result<ClauseNumber, AllocError> {
        let failed = read(assumptions, place, 0);
        if self.is_false_for_good(failed) {
            if let Some(unit) = self.board.trail.unit_of(place_of(failed)) {
                self.back(0);
                return Ok(unit);
            }
        }
        self.analysis.blame(&self.board, assumptions, place)?;
        let lemma = self
            .proof
            .learn(self.analysis.clause(), self.analysis.hints())?;
        self.back(0);
        self.take_in(lemma, None)?;
        Ok(lemma)
    }

    /// Forgets each clause with a variable that is dead, but not in the proof.
    pub fn forget(&mut self, is_dead: &[bool]) -> Result<(), AllocError> {
        self.back(0);
        self.assumed.clear();
        forget(&mut self.board, &mut self.learned, is_dead)
    }
}
