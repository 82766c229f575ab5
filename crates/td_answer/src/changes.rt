//! The changes of an output, by the levels at which it settles.

ghost use Rattle.std.specs.Prelude.{◌≡◌, length, true, IfOk, IfErr};
ghost use Rattle.td_circuit.specs.Numbering.{setting};
ghost use Rattle.td_certificate.specs.Accepts.{are_fit};
ghost use Rattle.td_question.specs.Keeping.{count_nets};
ghost use Rattle.td_answer.specs.Columns.{IsOnlyOutput, where_settles, pairs_of, AreTrueChanges, asks_changes, asks_figures, HasChanges, is_known, is_answered, are_closed};
ghost use Rattle.td_answer.specs.Findings.{IsTrueFound, is_closed};
ghost use Rattle.td_answer.specs.Outlooks.{IsTrueOutlook};
ghost use Rattle.td_answer.specs.Tables.{IsUnanswered};

use crate::alone::{Alone, Inquiry, Settled, answer_where, kept_found, output_number};
use crate::outlook::Outlook;
use crate::refusal::Refusal;
use std::alloc::Global;
use std::sync::Wait;
use std::thread::Threads;
use td_circuit::Circuit;
use td_gates::Level;
use td_lines::{Changes, Found};
use td_request::Table;
use td_spans::Form;

/// The output rises.
const RISING: Form = Form::Levels(Level::Zero, Level::One);

/// The output falls.
const FALLING: Form = Form::Levels(Level::One, Level::Zero);

/// Whether a table has the changes of each output.
fn asks_changes(table: Option<Table>) -> bool
    ensures { result ≡ asks_changes table }
{
    match table {
        None | Some(Table::Delays | Table::Hazards) => false,
        Some(Table::Changes { .. }) => true,
    }
}

/// Whether the figure of the latest glitch is asked for.
pub(crate) fn asks_figures(table: Option<Table>) -> bool
    ensures { result ≡ asks_figures table }
{
    match table {
        None | Some(Table::Delays | Table::Hazards) => false,
        Some(Table::Changes { figures }) => figures,
    }
}

/// What is found of the pairs under which the output settles so.
fn found_where<'n, 'w, R: Threads + Wait + Sync>(
    rt: &R,
    alloc: Global,
    alone: Alone<'_, 'w>,
    settled: Settled,
) -> Result<Found, Refusal<'n, 'w>>
    requires held { length alone.inquiry.admit.now.held ≡ length alone.circuit.now.netlist.inputs }
    requires fit { are_fit (count_nets alone.circuit.now.netlist) alone.inquiry.keep.now ≡ true }
    requires output { IsOnlyOutput alone.circuit.now.netlist alone.net }
    requires outlook { IsTrueOutlook (setting alone.circuit.now) alone.inquiry.admit.now alone.outlook }
    ensures found { IfOk result (IsTrueFound (setting alone.entry.circuit.now)
        (where_settles (pairs_of alone.entry.inquiry) alone.entry.net settled.form)) }
    ensures refusal { IfErr result (IsUnanswered alone.entry.inquiry.admit.now) }
{
    let answer = answer_where(rt, alloc, alone, settled)?;
    Ok(kept_found(&answer))
}

/// The moment that is required of a glitch: none is later, where its figure isn't asked for.
fn required_of(table: Option<Table>) -> Option<u64> {
    if asks_figures(table) { None } else { Some(0) }
}

/// The changes of the output.
fn changes_of<'n, 'w, R: Threads + Wait + Sync>(
    rt: &R,
    alloc: Global,
    alone: Alone<'_, 'w>,
) -> Result<Changes, Refusal<'n, 'w>>
    requires held { length alone.inquiry.admit.now.held ≡ length alone.circuit.now.netlist.inputs }
    requires fit { are_fit (count_nets alone.circuit.now.netlist) alone.inquiry.keep.now ≡ true }
    requires output { IsOnlyOutput alone.circuit.now.netlist alone.net }
    requires outlook { IsTrueOutlook (setting alone.circuit.now) alone.inquiry.admit.now alone.outlook }
    ensures changes { IfOk result (AreTrueChanges (setting alone.entry.circuit.now) (pairs_of alone.entry.inquiry)) }
    ensures refusal { IfErr result (IsUnanswered alone.entry.inquiry.admit.now) }
{
    let rising = Settled {
        form: RISING,
        required: None,
    };
    let rise = found_where(rt, alloc, alone, rising)?;
    let falling = Settled {
        form: FALLING,
        required: None,
    };
    let fall = found_where(rt, alloc, alone, falling)?;
    let held = Settled {
        form: Form::Equal,
        required: required_of(alone.inquiry.search.table),
    };
    let glitch = found_where(rt, alloc, alone, held)?;
    Ok(Changes { rise, fall, glitch })
}

/// The changes of the output that a circuit is asked about alone, where they are asked for.
pub(crate) fn changes_in<'n, 'w, R: Threads + Wait + Sync>(
    rt: &R,
    alloc: Global,
    circuit: &Circuit,
    outlook: Outlook<'_>,
    inquiry: Inquiry<'_, 'w>,
) -> Result<Option<Changes>, Refusal<'n, 'w>>
    requires held { length inquiry.admit.now.held ≡ length circuit.now.netlist.inputs }
    requires fit { are_fit (count_nets circuit.now.netlist) inquiry.keep.now ≡ true }
    requires output { length circuit.now.netlist.outputs ≡ 1 }
    requires outlook { IsTrueOutlook (setting circuit.now) inquiry.admit.now outlook }
    ensures changes { IfOk result (HasChanges inquiry.entry.search.now.table (setting circuit.now) (pairs_of inquiry.entry)) }
    ensures refusal { IfErr result (IsUnanswered inquiry.entry.admit.now) }
{
    if !asks_changes(inquiry.search.table) {
        return Ok(None);
    }
    let net = output_number(circuit);
    let alone = Alone {
        circuit,
        net,
        outlook,
        inquiry,
    };
    let changes = changes_of(rt, alloc, alone)?;
    Ok(Some(changes))
}

/// Whether nothing is left open.
pub(crate) fn is_closed(found: Found) -> bool
    ensures { result ≡ is_closed found }
{
    match found {
        Found::Exact(_) | Found::NoPair => true,
        Found::Between { .. } | Found::AtMost(_) => false,
    }
}

/// Whether it is known if some pair is later than 0.
fn is_known(found: Found) -> bool
    ensures { result ≡ is_known found }
{
    match found {
        Found::Exact(_) | Found::NoPair => true,
        Found::Between { low, high } => 0 < low || high == 0,
        Found::AtMost(high) => high == 0,
    }
}

/// Whether what is asked of a glitch is answered: its figure, or whether there is one.
fn is_answered(figures: bool, glitch: Found) -> bool
    ensures { result ≡ is_answered figures glitch }
{
    if figures {
        return is_closed(glitch);
    }
    is_known(glitch)
}

/// Whether nothing is left open of the changes of an output, where they are asked for.
pub(crate) fn are_closed(figures: bool, changes: &Option<Changes>) -> bool
    ensures { result ≡ are_closed figures changes.now }
{
    match changes {
        None => true,
        Some(changes) => {
            is_closed(changes.rise)
                && (is_closed(changes.fall) && is_answered(figures, changes.glitch))
        }
    }
}
