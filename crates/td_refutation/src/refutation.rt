//! Refutations, line by line.

ghost use Rattle.std.specs.Prelude.{◌≡◌, length, IfSome};
ghost use Rattle.std.specs.List.{AllPass};
ghost use Rattle.td_spans.specs.States.{variables_in, count_in};
ghost use Rattle.td_refutation.specs.Lines.{is_literal, lowering, retaking, retaking_at};
ghost use Rattle.td_refutation.specs.Lowers.{lowered_by};

use crate::flaw::{Flaw, StepError};
use crate::kind::StepKind;
use crate::lines::{are_literals, read_literals, shown_by_numbers, variable_at};
use std::alloc::{AllocError, Global};
use td_circuit::Circuit;
use td_domain::Cube;
use td_propagation::Literal;
use td_spans::{Question, Reason, Spans, net_named};

/// What lines have led to: variables, the times of all nets, and clauses.
#[derive(Drop)]
pub struct Refutation {
    spans: Spans,
    // Whether a step was done: then there are no more variables.
    begun: bool,
    // Room for the literals of a line.
    literals: Vec<Literal>,
    ghost counted: { count_in spans ≡ length (variables_in spans) },
}

impl Refutation {
    ghost use Rattle.std.specs.Prelude.{◌≡◌, ◌*◌, length, IfOk};
    ghost use Rattle.td_circuit.specs.Numbering.{setting};
    ghost use Rattle.td_spans.specs.Endings.{ends_empty};
    ghost use Rattle.td_spans.specs.Lowering.{latest_of};
    ghost use Rattle.td_refutation.specs.Lines.{deed_of, naming, having, showing, lowering, retaking, variable_at, shown_by_numbers};
    ghost use Rattle.td_refutation.specs.Doing.{state_of, first_state, IsDone};

    /// Nothing but the first times of all nets, which hold in each run of an admitted pair of the
    /// cube. The error is out of memory.
    pub fn new(
        alloc: Global,
        circuit: &Circuit,
        question: &Question,
        cube: &Cube,
    ) -> Result<Refutation, AllocError>
        requires held { length question.now.admit.held ≡ length circuit.now.netlist.inputs }
        requires cube { length cube.now ≡ 2 * length circuit.now.netlist.inputs }
        ensures { IfOk result (λ refutation. state_of refutation ≡ first_state circuit.now question.now cube.now) }
    {
        let spans = Spans::new(alloc, circuit, question, cube)?;
        Ok(Refutation {
            spans,
            begun: false,
            literals: Vec::new(alloc),
        })
    }

    // Adds the variable of a line.
    fn have(
        &mut self,
        circuit: &Circuit,
        question: &Question,
        cube: &Cube,
        kind: StepKind,
        numbers: &[u64],
    ) -> Result<(), StepError>
        ensures { IsDone circuit.now question.now cube.now (state_of self.old) (state_of self.new) (having (variable_at circuit.now kind numbers.now)) result }
    {
        let Some(variable) = variable_at(circuit, kind, numbers) else {
            return Err(StepError::Flaw(Flaw::WrongNumbers));
        };
        if self.begun {
            return Err(StepError::Flaw(Flaw::LateVariable));
        }
        self.spans.add_variable(variable)?;
        Ok(())
    }

    // Adds a clause for which there is a reason.
    fn name(
        &mut self,
        alloc: Global,
        circuit: &Circuit,
        question: &Question,
        cube: &Cube,
        reason: Reason,
        numbers: &[u64],
    ) -> Result<(), StepError>
        ensures { IsDone circuit.now question.now cube.now (state_of self.old) (state_of self.new) (naming reason numbers.now) result }
    {
        if !are_literals(numbers) {
            return Err(StepError::Flaw(Flaw::WrongNumbers));
        }
        read_literals(numbers, &mut self.literals)?;
        self.spans
            .name(alloc, circuit, question, cube, reason, &self.literals)?;
        self.begun = true;
        Ok(())
    }

    // Adds a clause that hints show.
    fn show(
        &mut self,
        circuit: &Circuit,
        question: &Question,
        cube: &Cube,
        numbers: &[u64],
    ) -> Result<(), StepError>
        ensures { IsDone circuit.now question.now cube.now (state_of self.old) (state_of self.new) (showing (shown_by_numbers numbers.now)) result }
    {
        let Some((clause, hints)) = shown_by_numbers(numbers) else {
            return Err(StepError::Flaw(Flaw::WrongNumbers));
        };
        read_literals(clause, &mut self.literals)?;
        self.spans.lemma(&self.literals, hints)?;
        self.begun = true;
        Ok(())
    }

    // Lowers a net's end for a level, by a clause that hints show.
    fn lower(
        &mut self,
        circuit: &Circuit,
        question: &Question,
        cube: &Cube,
        numbers: &[u64],
    ) -> Result<(), StepError>
        ensures { IsDone circuit.now question.now cube.now (state_of self.old) (state_of self.new) (lowering circuit.now numbers.now) result }
    {
        let Some(lower) = lower_at(circuit, numbers) else {
            return Err(StepError::Flaw(Flaw::WrongNumbers));
        };
        read_literals(lower.clause, &mut self.literals)?;
        self.spans.lower(
            lower.net,
            lower.level,
            lower.place,
            &self.literals,
            lower.hints,
        )?;
        self.begun = true;
        Ok(())
    }

    // Takes the ends of a gate's output again.
    fn retake(
        &mut self,
        circuit: &Circuit,
        question: &Question,
        cube: &Cube,
        numbers: &[u64],
    ) -> Result<(), StepError>
        ensures { IsDone circuit.now question.now cube.now (state_of self.old) (state_of self.new) (retaking circuit.now numbers.now) result }
    {
        let Some(net) = retaken_net(circuit, numbers) else {
            return Err(StepError::Flaw(Flaw::WrongNumbers));
        };
        self.spans.again(circuit, net)?;
        self.begun = true;
        Ok(())
    }

    /// Does a line of the refutation of a cube. One that isn't good changes nothing, and the error
    /// says why it isn't.
    pub fn step(
        &mut self,
        alloc: Global,
        circuit: &Circuit,
        question: &Question,
        cube: &Cube,
        kind: StepKind,
        numbers: &[u64],
    ) -> Result<(), StepError>
        ensures { IsDone circuit.now question.now cube.now (state_of self.old) (state_of self.new) (deed_of circuit.now kind numbers.now) result }
    {
        match kind {
            StepKind::First => self.have(circuit, question, cube, StepKind::First, numbers),
            StepKind::Last => self.have(circuit, question, cube, StepKind::Last, numbers),
            StepKind::Span => self.have(circuit, question, cube, StepKind::Span, numbers),
            StepKind::Flips => self.have(circuit, question, cube, StepKind::Flips, numbers),
            StepKind::Gate => self.name(alloc, circuit, question, cube, Reason::Gate, numbers),
            StepKind::Table => self.name(alloc, circuit, question, cube, Reason::Table, numbers),
            StepKind::Net => self.name(alloc, circuit, question, cube, Reason::Net, numbers),
            StepKind::Pairs => self.name(alloc, circuit, question, cube, Reason::Pairs, numbers),
            StepKind::Keep => self.name(alloc, circuit, question, cube, Reason::Keep, numbers),
            StepKind::Lemma => self.show(circuit, question, cube, numbers),
            StepKind::End => self.lower(circuit, question, cube, numbers),
            StepKind::Again => self.retake(circuit, question, cube, numbers),
        }
    }

    /// The latest moment at which an output may change still, 0 where none may.
    pub fn bound(&self, circuit: &Circuit) -> u64
        ensures { result ≡ latest_of (state_of self.now).times circuit.now.outputs }
    {
        self.spans.bound(circuit.outputs())
    }

    /// Whether the last clause is empty: then no pair of the cube is asked about.
    pub fn has_no_pair(&self) -> bool
        ensures { result ≡ ends_empty (state_of self.now).clauses }
    {
        self.spans.has_no_pair()
    }
}

/// The parts of a line that lowers an end.
#[derive(Clone, Copy, Drop)]
struct Lower<'a> {
    net: u32,
    level: bool,
    place: u64,
    clause: &'a [u64],
    hints: &'a [u64],
}

// The parts of a line that lowers an end, if it is one.
fn lower_at<'a>(circuit: &Circuit, numbers: &'a [u64]) -> Option<Lower<'a>>
    ensures lowering { lowering circuit.now numbers.now ≡ lowered_by result }
    ensures literals { IfSome result (λ lower. AllPass is_literal lower.clause.now) }
{
    match numbers {
        [net, level, place, rest @ ..] => {
            if *level > 1 {
                return None;
            }
            let net = net_named(circuit, *net)?;
            let (clause, hints) = shown_by_numbers(rest)?;
            Some(Lower {
                net,
                level: *level == 1,
                place: *place,
                clause,
                hints,
            })
        }
        _ => None,
    }
}

// The net of a line that takes ends again, if it is one.
fn retaken_net(circuit: &Circuit, numbers: &[u64]) -> Option<u32>
    ensures { retaking circuit.now numbers.now ≡ retaking_at result }
{
    match numbers {
        [net] => net_named(circuit, *net),
        _ => None,
    }
}
