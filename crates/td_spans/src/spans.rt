//! Refutations by spans, step by step.

ghost use Rattle.std.specs.Prelude.{◌≡◌, length};
ghost use Rattle.td_spans.specs.Lowering.{latest_of};

use crate::fault::Fault;
use crate::lemmas::Lemmas;
use crate::named_clauses::{has_variables, is_named};
use crate::names::place_of;
use crate::net_clauses::are_at_rest;
use crate::question::Question;
use crate::reason::Reason;
use crate::rules::{gate_at, time_of, times_again};
use crate::signals::first_times;
use crate::times::Times;
use crate::variable::Variable;
use crate::variables::Variables;
use std::alloc::{AllocError, Global};
use td_circuit::Circuit;
use td_domain::Cube;
use td_propagation::Literal;

/// Variables, the times of all nets as steps have left them, and the clauses that they have added.
#[derive(Drop)]
pub struct Spans {
    variables: Variables,
    times: Vec<Times>,
    clauses: Lemmas,
}

// The latest moment at which one of these nets may change.
fn latest_of(times: &[Times], nets: &[u32]) -> u64
    ensures { result ≡ latest_of times.now nets.now }
{
    let mut latest = 0;
    for net in nets {
        let ends = time_of(times, *net).ends;
        latest = ends.zero.max(ends.one).saturating_sub(1).max(latest);
    }
    latest
}

impl Spans {
    ghost use Rattle.std.specs.Prelude.{◌≡◌, ◌+◌, ◌*◌, ◌<◌, ◌++◌, ◌∷◌, [], List, length, true, IfOk, IfErr, IfSome, OnOk, OnErr};
    ghost use Rattle.td_spans.specs.declared.fault.Fault.TheVariants.{NotGood as IsNotGood};
    ghost use Rattle.td_circuit.specs.Numbering.{Numbered};
    ghost use Rattle.td_spans.specs.Conditions.{Asked};
    ghost use Rattle.td_domain.specs.declared.cubes.Trit.{Trit};
    ghost use Rattle.td_spans.specs.Hints.{shown_at};
    ghost use Rattle.td_propagation.specs.declared.clauses.Outcome.TheVariants.{Shown as IsShown};
    ghost use Rattle.td_spans.specs.Lookups.{IsDriven, driver};
    ghost use Rattle.td_spans.specs.Bounds.{IsUpperBoundOf, AreQuietAfter, HasNone};
    ghost use Rattle.td_spans.specs.Endings.{ends_empty};
    ghost use Rattle.td_spans.specs.Signals.{first_times};
    ghost use Rattle.td_spans.specs.Lowering.{lower, are_at_rest, again, latest_of};
    ghost use Rattle.td_spans.specs.States.{variables_in, times_in, clauses_in, count_in};
    ghost use Rattle.td_spans.specs.Named.{has_variables, IsNamed};
    ghost use Rattle.td_spans.specs.Refuting.{Refutes};
    ghost use Rattle.td_spans.specs.Laws.{IsAsked};

    /// The first times of all nets, no variables and no clauses: what each run of an admitted pair
    /// meets. The error is out of memory.
    pub fn new(
        alloc: Global,
        circuit: &Circuit,
        question: &Question,
        cube: &Cube,
    ) -> Result<Spans, AllocError>
        requires held { length question.now.admit.held ≡ length circuit.now.netlist.inputs }
        requires cube { length cube.now ≡ 2 * length circuit.now.netlist.inputs }
        ensures variables { IfOk result (λ spans. variables_in spans ≡ []) }
        ensures times { IfOk result (λ spans. times_in spans ≡ first_times circuit.now question.now.admit cube.now) }
        ensures clauses { IfOk result (λ spans. clauses_in spans ≡ []) }
        ensures count { IfOk result (λ spans. count_in spans ≡ 0) }
    {
        // For the prover: these calls say that the gates are in order, and that each input has a
        // moment.
        let _gates = circuit.gates();
        let _moments = circuit.moments();
        let times = first_times(alloc, circuit, question.admit(), cube)?;
        let clauses = Lemmas::new(alloc)?;
        Ok(Spans {
            variables: Variables::new(alloc),
            times,
            clauses,
        })
    }

    /// Adds a variable. The error is out of memory, and then there are as many as before.
    pub fn add_variable(&mut self, variable: Variable) -> Result<(), AllocError>
        ensures variables { OnOk result (variables_in self.new ≡ variables_in self.old ++ variable ∷ []) }
        ensures count { OnOk result (count_in self.new ≡ count_in self.old + 1) }
        ensures same_variables { OnErr result (variables_in self.new ≡ variables_in self.old) }
        ensures same_count { OnErr result (count_in self.new ≡ count_in self.old) }
        ensures times { times_in self.new ≡ times_in self.old }
        ensures clauses { clauses_in self.new ≡ clauses_in self.old }
    {
        let count = self.variables.len();
        self.variables.push(variable)?;
        match self.clauses.add_variable() {
            Ok(()) => Ok(()),
            Err(error) => {
                self.variables.truncate(count);
                Err(error)
            }
        }
    }

    // Adds a clause for which there is a reason.
    fn add_named(
        &mut self,
        alloc: Global,
        circuit: &Circuit,
        question: &Question,
        cube: &Cube,
        reason: Reason,
        clause: &[Literal],
    ) -> Result<(), Fault>
        ensures named { OnOk result (IsNamed circuit.now question.now cube.now (variables_in self.old) (times_in self.old) reason clause.now) }
        ensures unnamed { IfErr result (λ fault. fault ≡ IsNotGood → IsNamed circuit.now question.now cube.now (variables_in self.old) (times_in self.old) reason clause.now → ⊥) }
        ensures added { OnOk result (clauses_in self.new ≡ clauses_in self.old ++ clause.now ∷ []) }
        ensures same { OnErr result (clauses_in self.new ≡ clauses_in self.old) }
        ensures variables { variables_in self.new ≡ variables_in self.old }
        ensures times { times_in self.new ≡ times_in self.old }
        ensures count { count_in self.new ≡ count_in self.old }
    {
        let named = is_named(
            alloc,
            circuit,
            question,
            cube,
            &self.variables,
            &self.times,
            reason,
            clause,
        )?;
        if !named {
            return Err(Fault::NotGood);
        }
        self.clauses.add(clause)?;
        Ok(())
    }

    // Adds a clause that hints show.
    fn add_lemma(&mut self, clause: &[Literal], hints: &[u64]) -> Result<(), Fault>
        ensures known { OnOk result (has_variables (variables_in self.old) clause.now ≡ true) }
        ensures shown { OnOk result (shown_at (clauses_in self.old) (count_in self.old) clause.now hints.now ≡ IsShown) }
        ensures unshown { IfErr result (λ fault. fault ≡ IsNotGood → has_variables (variables_in self.old) clause.now ≡ true → shown_at (clauses_in self.old) (count_in self.old) clause.now hints.now ≡ IsShown → ⊥) }
        ensures added { OnOk result (clauses_in self.new ≡ clauses_in self.old ++ clause.now ∷ []) }
        ensures same { OnErr result (clauses_in self.new ≡ clauses_in self.old) }
        ensures variables { variables_in self.new ≡ variables_in self.old }
        ensures times { times_in self.new ≡ times_in self.old }
        ensures count { count_in self.new ≡ count_in self.old }
    {
        if !has_variables(&self.variables, clause) {
            return Err(Fault::NotGood);
        }
        self.clauses.show(clause, hints)?;
        self.clauses.add(clause)?;
        Ok(())
    }

    // Lowers a net's end for a level to a place, by a clause that hints show.
    fn lower_end(
        &mut self,
        net: u32,
        level: bool,
        place: u64,
        clause: &[Literal],
        hints: &[u64],
    ) -> Result<(), Fault>
        ensures net { OnOk result (net < length (times_in self.old)) }
        ensures rests { OnOk result (are_at_rest (variables_in self.old) net level place clause.now ≡ true) }
        ensures shown { OnOk result (shown_at (clauses_in self.old) (count_in self.old) clause.now hints.now ≡ IsShown) }
        ensures not_good { IfErr result (λ fault. fault ≡ IsNotGood → net < length (times_in self.old) → are_at_rest (variables_in self.old) net level place clause.now ≡ true → shown_at (clauses_in self.old) (count_in self.old) clause.now hints.now ≡ IsShown → ⊥) }
        ensures lowered { OnOk result (times_in self.new ≡ lower (times_in self.old) net level place) }
        ensures same { OnErr result (times_in self.new ≡ times_in self.old) }
        ensures variables { variables_in self.new ≡ variables_in self.old }
        ensures clauses { clauses_in self.new ≡ clauses_in self.old }
        ensures count { count_in self.new ≡ count_in self.old }
    {
        let at = net as usize;
        if at >= self.times.len() {
            return Err(Fault::NotGood);
        }
        let rests = are_at_rest(&self.variables, net, level, place, clause);
        if !rests {
            return Err(Fault::NotGood);
        }
        self.clauses.show(clause, hints)?;
        self.times[at] = self.times[at].lowered(level, place);
        Ok(())
    }

    // Takes the ends of a gate's output again.
    fn take_again(&mut self, circuit: &Circuit, net: u32) -> Result<(), Fault>
        ensures driven { OnOk result (IsDriven circuit.now net) }
        ensures net { OnOk result (net < length (times_in self.old)) }
        ensures not_good { IfErr result (λ fault. fault ≡ IsNotGood → IsDriven circuit.now net → net < length (times_in self.old) → ⊥) }
        ensures again { OnOk result (times_in self.new ≡ again (times_in self.old) net (driver circuit.now net)) }
        ensures same { OnErr result (times_in self.new ≡ times_in self.old) }
        ensures variables { variables_in self.new ≡ variables_in self.old }
        ensures clauses { clauses_in self.new ≡ clauses_in self.old }
        ensures count { count_in self.new ≡ count_in self.old }
    {
        let Some(place) = place_of(circuit, net) else {
            return Err(Fault::NotGood);
        };
        let at = net as usize;
        if at >= self.times.len() {
            return Err(Fault::NotGood);
        }
        let gate = gate_at(circuit, place);
        self.times[at] = times_again(&self.times, gate, self.times[at]);
        Ok(())
    }

    /// Adds a clause for which there is a reason. A step that isn't good changes nothing.
    pub fn name(
        &mut self,
        alloc: Global,
        circuit: &Circuit,
        question: &Question,
        cube: &Cube,
        reason: Reason,
        clause: &[Literal],
    ) -> Result<(), Fault>
        ensures named { OnOk result (IsNamed circuit.now question.now cube.now (variables_in self.old) (times_in self.old) reason clause.now) }
        ensures unnamed { IfErr result (λ fault. fault ≡ IsNotGood → IsNamed circuit.now question.now cube.now (variables_in self.old) (times_in self.old) reason clause.now → ⊥) }
        ensures added { OnOk result (clauses_in self.new ≡ clauses_in self.old ++ clause.now ∷ []) }
        ensures same { OnErr result (clauses_in self.new ≡ clauses_in self.old) }
        ensures variables { variables_in self.new ≡ variables_in self.old }
        ensures times { times_in self.new ≡ times_in self.old }
        ensures count { count_in self.new ≡ count_in self.old }
        ensures sound { IsAsked circuit.now question.now cube.now → Refutes circuit.now question.now cube.now (variables_in self.old) (times_in self.old) (clauses_in self.old) → Refutes circuit.now question.now cube.now (variables_in self.new) (times_in self.new) (clauses_in self.new) }
    {
        self.add_named(alloc, circuit, question, cube, reason, clause)
    }

    /// Adds a clause that hints show. A step that isn't good changes nothing.
    pub fn lemma(&mut self, clause: &[Literal], hints: &[u64]) -> Result<(), Fault>
        ensures known { OnOk result (has_variables (variables_in self.old) clause.now ≡ true) }
        ensures shown { OnOk result (shown_at (clauses_in self.old) (count_in self.old) clause.now hints.now ≡ IsShown) }
        ensures unshown { IfErr result (λ fault. fault ≡ IsNotGood → has_variables (variables_in self.old) clause.now ≡ true → shown_at (clauses_in self.old) (count_in self.old) clause.now hints.now ≡ IsShown → ⊥) }
        ensures added { OnOk result (clauses_in self.new ≡ clauses_in self.old ++ clause.now ∷ []) }
        ensures same { OnErr result (clauses_in self.new ≡ clauses_in self.old) }
        ensures variables { variables_in self.new ≡ variables_in self.old }
        ensures times { times_in self.new ≡ times_in self.old }
        ensures count { count_in self.new ≡ count_in self.old }
        ensures sound { (circuit : Numbered) (asked : Asked) (cube : List Trit) → IsAsked circuit asked cube → Refutes circuit asked cube (variables_in self.old) (times_in self.old) (clauses_in self.old) → Refutes circuit asked cube (variables_in self.new) (times_in self.new) (clauses_in self.new) }
    {
        self.add_lemma(clause, hints)
    }

    /// Lowers a net's end for a level to a place, by a clause that hints show, each literal of
    /// which says that the net doesn't end at the level or is at rest from the place on. A step
    /// that isn't good changes nothing.
    pub fn lower(
        &mut self,
        net: u32,
        level: bool,
        place: u64,
        clause: &[Literal],
        hints: &[u64],
    ) -> Result<(), Fault>
        ensures net { OnOk result (net < length (times_in self.old)) }
        ensures rests { OnOk result (are_at_rest (variables_in self.old) net level place clause.now ≡ true) }
        ensures shown { OnOk result (shown_at (clauses_in self.old) (count_in self.old) clause.now hints.now ≡ IsShown) }
        ensures not_good { IfErr result (λ fault. fault ≡ IsNotGood → net < length (times_in self.old) → are_at_rest (variables_in self.old) net level place clause.now ≡ true → shown_at (clauses_in self.old) (count_in self.old) clause.now hints.now ≡ IsShown → ⊥) }
        ensures lowered { OnOk result (times_in self.new ≡ lower (times_in self.old) net level place) }
        ensures same { OnErr result (times_in self.new ≡ times_in self.old) }
        ensures variables { variables_in self.new ≡ variables_in self.old }
        ensures clauses { clauses_in self.new ≡ clauses_in self.old }
        ensures count { count_in self.new ≡ count_in self.old }
        ensures sound { (circuit : Numbered) (asked : Asked) (cube : List Trit) → IsAsked circuit asked cube → Refutes circuit asked cube (variables_in self.old) (times_in self.old) (clauses_in self.old) → Refutes circuit asked cube (variables_in self.new) (times_in self.new) (clauses_in self.new) }
    {
        self.lower_end(net, level, place, clause, hints)
    }

    /// Takes the ends of a gate's output again, by those of its inputs. A step that isn't good
    /// changes nothing.
    pub fn again(&mut self, circuit: &Circuit, net: u32) -> Result<(), Fault>
        ensures driven { OnOk result (IsDriven circuit.now net) }
        ensures net { OnOk result (net < length (times_in self.old)) }
        ensures not_good { IfErr result (λ fault. fault ≡ IsNotGood → IsDriven circuit.now net → net < length (times_in self.old) → ⊥) }
        ensures again { OnOk result (times_in self.new ≡ again (times_in self.old) net (driver circuit.now net)) }
        ensures same { OnErr result (times_in self.new ≡ times_in self.old) }
        ensures variables { variables_in self.new ≡ variables_in self.old }
        ensures clauses { clauses_in self.new ≡ clauses_in self.old }
        ensures count { count_in self.new ≡ count_in self.old }
        ensures sound { (asked : Asked) (cube : List Trit) → IsAsked circuit.now asked cube → Refutes circuit.now asked cube (variables_in self.old) (times_in self.old) (clauses_in self.old) → Refutes circuit.now asked cube (variables_in self.new) (times_in self.new) (clauses_in self.new) }
    {
        self.take_again(circuit, net)
    }

    /// The latest moment at which one of these nets may change, by their ends. In no run of a pair
    /// of the cube that is asked about one of them changes later; where they are the outputs, no
    /// such pair has a greater delay.
    pub fn bound(&self, nets: &[u32]) -> u64
        ensures bound { result ≡ latest_of (times_in self.now) nets.now }
        ensures quiet { (circuit : Numbered) (asked : Asked) (cube : List Trit) → IsAsked circuit asked cube → Refutes circuit asked cube (variables_in self.now) (times_in self.now) (clauses_in self.now) → AreQuietAfter circuit asked cube nets.now result }
        ensures sound { (circuit : Numbered) (asked : Asked) (cube : List Trit) → IsAsked circuit asked cube → nets.now ≡ circuit.outputs → Refutes circuit asked cube (variables_in self.now) (times_in self.now) (clauses_in self.now) → IsUpperBoundOf circuit asked cube result }
    {
        latest_of(&self.times, nets)
    }

    /// Whether the last clause is empty, so that no pair of the cube is asked about.
    pub fn has_no_pair(&self) -> bool
        ensures empty { result ≡ ends_empty (clauses_in self.now) }
        ensures sound { (circuit : Numbered) (asked : Asked) (cube : List Trit) → IsAsked circuit asked cube → Refutes circuit asked cube (variables_in self.now) (times_in self.now) (clauses_in self.now) → result ≡ true → HasNone circuit asked cube }
    {
        self.clauses.end_empty()
    }
}
