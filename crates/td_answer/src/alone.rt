//! An output alone, where it settles at some levels.

ghost use Rattle.std.specs.Prelude.{◌≡◌, ◌<◌, ◌∷◌, true, length, slice_get, Some, IfOk, IfErr};
ghost use Rattle.td_nets.specs.Netlist.{Name as Named, Named as NamedNet};
ghost use Rattle.td_circuit.specs.Numbering.{setting, nets};
ghost use Rattle.td_certificate.specs.Accepts.{are_fit};
ghost use Rattle.td_refutation.specs.Asking.{net_at};
ghost use Rattle.td_question.specs.Found.{AreInOrder};
ghost use Rattle.td_question.specs.Keeping.{count_nets};
ghost use Rattle.td_answer.specs.Columns.{IsOnlyOutput, where_settles, pairs_of, IsTrueAnswer};
ghost use Rattle.td_answer.specs.Findings.{kept_found};
ghost use Rattle.td_answer.specs.Outlooks.{IsTrueOutlook};
ghost use Rattle.td_answer.specs.Tables.{IsUnanswered};

use crate::outlook::Outlook;
use crate::refusal::Refusal;
use std::alloc::{AllocError, Global};
use std::sync::Wait;
use std::thread::Threads;
use td_circuit::{Circuit, Net};
use td_domain::Admit;
use td_lines::Found;
use td_pool::Limits;
use td_question::in_order;
use td_refutation::NamedCondition;
use td_request::Search;
use td_search::Cause;
use td_spans::Form;
use td_worst::{KeptAnswer, KeptQuestion};

/// Which pairs are asked about, the admitted ones and what they keep, by which words, and within
/// which limits they are searched.
#[derive(Clone, Copy)]
pub(crate) struct Inquiry<'a, 'w> {
    pub(crate) admit: &'a Admit,
    pub(crate) keep: &'a [NamedCondition],
    pub(crate) search: &'a Search<'w>,
    pub(crate) limits: Limits<'a>,
}

/// A circuit that is asked about one output alone, the number by which conditions name that
/// output's net, what is known of it, and what is asked.
#[derive(Clone, Copy)]
pub(crate) struct Alone<'a, 'w> {
    pub(crate) circuit: &'a Circuit,
    pub(crate) net: u64,
    pub(crate) outlook: Outlook<'a>,
    pub(crate) inquiry: Inquiry<'a, 'w>,
}

/// How the output is to settle. Where a moment is required, it is enough to know whether a pair is
/// later.
#[derive(Clone, Copy)]
pub(crate) struct Settled {
    pub(crate) form: Form,
    pub(crate) required: Option<u64>,
}

/// The number by which conditions name a net that has a name.
fn number_of(circuit: &Circuit, net: Net) -> u64
    requires constant { 1 < net }
    requires net { net < length (nets circuit.now) }
    ensures { (name : Named) → slice_get (nets circuit.now) net ≡ Some (NamedNet name) → net_at circuit.now.netlist result ≡ Some (NamedNet name) }
{
    // For the prover: this call says that the numbers are right.
    let _gates = circuit.gates();
    let first = circuit.first_gate();
    if net < first {
        return u64::from(net);
    }
    let outputs = circuit.gate_outputs();
    for place in 0..outputs.len() {
        if outputs[place] == net {
            return u64::from(first) + place as u64;
        }
    }
    // Each net that is no constant's and no input's is a gate's.
    unreachable!()
}

/// The number by which conditions name the output that a circuit is asked about alone.
pub(crate) fn output_number(circuit: &Circuit) -> u64
    requires { length circuit.now.netlist.outputs ≡ 1 }
    ensures { IsOnlyOutput circuit.now.netlist result }
{
    // For the prover: this call says that the numbers are right.
    let _gates = circuit.gates();
    number_of(circuit, circuit.outputs()[0])
}

/// Conditions and one more, in the order of a certificate.
fn keep_with(
    alloc: Global,
    keep: &[NamedCondition],
    condition: NamedCondition,
) -> Result<Vec<NamedCondition>, AllocError>
    ensures { IfOk result (λ all. AreInOrder (condition ∷ keep.now) all.items) }
{
    let mut all = Vec::new(alloc);
    all.push(condition)?;
    all.extend_from_slice(keep)?;
    in_order(alloc, all)
}

/// What the search answers of the pairs under which the output settles so.
fn searched_where<'n, 'w, R: Threads + Wait + Sync>(
    rt: &R,
    alloc: Global,
    alone: Alone<'_, 'w>,
    settled: Settled,
) -> Result<KeptAnswer, Refusal<'n, 'w>>
    requires held { length alone.inquiry.admit.now.held ≡ length alone.circuit.now.netlist.inputs }
    requires fit { are_fit (count_nets alone.circuit.now.netlist) alone.inquiry.keep.now ≡ true }
    requires output { IsOnlyOutput alone.circuit.now.netlist alone.net }
    ensures answer { IfOk result (IsTrueAnswer (setting alone.entry.circuit.now)
        (where_settles (pairs_of alone.entry.inquiry) alone.entry.net settled.form)) }
    ensures refusal { IfErr result (IsUnanswered alone.entry.inquiry.admit.now) }
{
    let Alone {
        circuit,
        net,
        inquiry,
        ..
    } = alone;
    let Settled { form, required } = settled;
    let keep = keep_with(alloc, inquiry.keep, NamedCondition { net, form })?;
    let question = KeptQuestion {
        circuit,
        admit: inquiry.admit,
        keep: &keep,
        required,
    };
    let found = td_worst::worst_kept(rt, alloc, question, inquiry.limits)?;
    Ok(found.answer)
}

/// What is known of the pairs under which the output settles so: what the search answers, or the
/// bound by edges once the stop is set.
pub(crate) fn answer_where<'n, 'w, R: Threads + Wait + Sync>(
    rt: &R,
    alloc: Global,
    alone: Alone<'_, 'w>,
    settled: Settled,
) -> Result<KeptAnswer, Refusal<'n, 'w>>
    requires held { length alone.inquiry.admit.now.held ≡ length alone.circuit.now.netlist.inputs }
    requires fit { are_fit (count_nets alone.circuit.now.netlist) alone.inquiry.keep.now ≡ true }
    requires output { IsOnlyOutput alone.circuit.now.netlist alone.net }
    requires outlook { IsTrueOutlook (setting alone.circuit.now) alone.inquiry.admit.now alone.outlook }
    ensures answer { IfOk result (IsTrueAnswer (setting alone.entry.circuit.now)
        (where_settles (pairs_of alone.entry.inquiry) alone.entry.net settled.form)) }
    ensures refusal { IfErr result (IsUnanswered alone.entry.inquiry.admit.now) }
{
    if let Some(high) = alone.outlook.at_the_end(alone.inquiry.limits.stop) {
        let cause = Cause::Time;
        return Ok(KeptAnswer::Open { high, cause });
    }
    searched_where(rt, alloc, alone, settled)
}

/// What an answer says of the worst delay of the pairs that keep conditions.
pub(crate) fn kept_found(answer: &KeptAnswer) -> Found
    ensures { result ≡ kept_found answer.now }
{
    match answer {
        KeptAnswer::Exact { best, .. } => Found::Exact(best.time),
        KeptAnswer::Between { best, high, .. } => Found::Between {
            low: best.time,
            high: *high,
        },
        KeptAnswer::Open { high, .. } => Found::AtMost(*high),
        KeptAnswer::NoPair { .. } => Found::NoPair,
    }
}
