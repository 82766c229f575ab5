//! Conditions on nets that are named by numbers.

ghost use Rattle.std.specs.Prelude.{◌≡◌, ◌++◌, IfOk, OnOk};
ghost use Rattle.td_spans.specs.Lookups.{net_named};
ghost use Rattle.td_refutation.specs.Asking.{condition_on, conditions_in, asked_in};

use std::alloc::{AllocError, Global};
use td_circuit::Circuit;
use td_domain::Admit;
use td_spans::{Condition, Form, Question, net_named};

/// A condition on the settled levels of the net that a number names: the constants have 0 and 1,
/// then come the inputs, and then the outputs of the gates, in the netlist's order.
#[derive(Clone, Copy, Debug, PartialEq, Eq, Drop)]
pub struct NamedCondition {
    pub net: u64,
    pub form: Form,
}

// Adds the condition on a net of the circuit, if there is one.
fn push_condition(
    circuit: &Circuit,
    conditions: &mut Vec<Condition>,
    condition: NamedCondition,
) -> Result<(), AllocError>
    ensures { OnOk result (conditions.new.items ≡ conditions.old.items ++ condition_on condition.form (net_named circuit.now condition.net)) }
{
    match net_named(circuit, condition.net) {
        None => Ok(()),
        Some(net) => {
            conditions.push(Condition {
                net,
                form: condition.form,
            })?;
            Ok(())
        }
    }
}

// The conditions on nets of the circuit. One that names no net isn't among them.
fn conditions_in(
    alloc: Global,
    circuit: &Circuit,
    keep: &[NamedCondition],
) -> Result<Vec<Condition>, AllocError>
    ensures { IfOk result (λ conditions. conditions.items ≡ conditions_in circuit.now keep.now) }
{
    let mut conditions = Vec::new(alloc);
    for condition in keep {
        push_condition(circuit, &mut conditions, *condition)?;
    }
    Ok(conditions)
}

/// The admitted pairs that keep these conditions, as a question on a circuit. The error is out of
/// memory.
pub fn question_on(
    alloc: Global,
    circuit: &Circuit,
    admit: &Admit,
    keep: &[NamedCondition],
) -> Result<Question, AllocError>
    ensures { IfOk result (λ question. question ≡ asked_in circuit.now (record { admit = admit.now; keep = keep.now })) }
{
    let conditions = conditions_in(alloc, circuit, keep)?;
    Ok(Question::new(admit.copy(alloc)?, conditions))
}
