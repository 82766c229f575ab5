//! The worst delay of the pairs that keep conditions.

ghost use Rattle.std.specs.Prelude.{◌≡◌, ◌+◌, ◌≤◌, ◌∷◌, ◌++◌, [], ℕ, true, List, length, is_some, option_map, Some, None as Nothing, IfOk, IfErr, IfSome};
ghost use Rattle.td_circuit.specs.Numbering.{setting};
ghost use Rattle.td_refute.specs.Kept.{IsTimedAmong};
ghost use Rattle.td_certificate.specs.Accepts.{are_fit};
ghost use Rattle.td_certificate.specs.Lengths.{HaveFew};
ghost use Rattle.td_certificate.specs.Spelling.{AreConditions, AreTerms};
ghost use Rattle.td_reading.specs.declared.reading.Reading.{Reading as Read};
ghost use Rattle.td_question.specs.Asking.{IsAsked, IsAskedKeeping, keep_quotes};
ghost use Rattle.td_question.specs.Keeping.{AreConditions as AreConditionsOf};
ghost use Rattle.td_source.specs.Reads.{AreOutputsOf};
ghost use Rattle.td_worst.specs.Kept.{asking_by, certificate_with, claim_of, IsKeptAnswer};
ghost use Rattle.td_worst.specs.Supports.{IsSupportAmong};
ghost use Rattle.td_lines.specs.declared.line.Line.TheVariants as line;
ghost use Rattle.td_lines.specs.declared.line.Line.{Line as Printed};
ghost use Rattle.td_answer.specs.Answered.{PrintsKept, kept_lines};
ghost use Rattle.td_answer.specs.Heads.{head_lines};
ghost use Rattle.td_answer.specs.Lines.{exact_lines, between_lines, at_most_lines, whole_lines};
ghost use Rattle.td_answer.specs.Runs.{RunsPair, TellsPair};
ghost use Rattle.td_answer.specs.Dumps.{IsDumpWhere};
ghost use Rattle.td_answer.specs.Additions.{AddsLines};
ghost use Rattle.td_answer.specs.Kept.{IsTrueKept, IsCertifiedAmong};
ghost use Rattle.td_answer.specs.KeptTerms.{kept_terms};
ghost use Rattle.td_answer.specs.OpenCertificates.{IsWantedCertificate};
ghost use Rattle.td_answer.specs.Requirements.{ending_by};
ghost use Rattle.td_answer.specs.Searches.{IsRefusedSearch};
ghost use Rattle.td_answer.specs.Writing.{CanBeWritten};
ghost use Rattle.td_answer.specs.declared.status.Status.TheVariants as status;

use crate::answers::{Figures, cause_line, push_between, push_end, push_exact};
use crate::beside::push_run;
use crate::ended::Ended;
use crate::head::begun;
use crate::joined::push_none;
use crate::kept_certificate::{Told, kept_certificate};
use crate::open_certificate::{Open, open_certificate};
use crate::outcome::Outcome;
use crate::refusal::Refusal;
use crate::requirement::ending_by;
use crate::status::Status;
use crate::worst::{dump_of, limits_of};
use std::alloc::{AllocError, Global};
use std::sync::Wait;
use std::thread::Threads;
use td_certificate::{Claim, Tree};
use td_circuit::Circuit;
use td_domain::Admit;
use td_lead::Timed;
use td_lines::{Cause, Line};
use td_question::Asked;
use td_reading::Reading;
use td_request::Search;
use td_stop::Stop;
use td_worst::{KeptAnswer, KeptQuestion, Support};

// The outcome of an exact answer.
fn exact(
    alloc: Global,
    circuit: Circuit,
    admit: Admit,
    told: Told,
    best: Timed,
    tree: Tree,
    ended: Ended<'_, '_>,
) -> Result<Outcome, AllocError>
    requires flips { admit.flips ≤ length admit.held }
    requires first_fits { length best.pair.first ≡ length circuit.netlist.inputs }
    requires second_fits { length best.pair.second ≡ length circuit.netlist.inputs }
    ensures report { IfOk result (λ outcome. AddsLines (TellsPair ended.entry.search.now.shown (setting circuit) best.pair)
        (head_lines circuit.netlist ++ exact_lines ended.entry best.time best.pair (length tree)) outcome.report) }
    ensures certificate { IfOk result (λ outcome. outcome.certificate ≡ Some (certificate_with (setting circuit) admit (kept_terms told) (Some (claim_of best)) tree)) }
    ensures told { IfOk result (λ outcome. AreConditions told.keep.items → AreTerms (Some (kept_terms told))) }
    ensures few { IfOk result (λ outcome. length told.keep.items ≤ 5000 → HaveFew (Some (kept_terms told))) }
    ensures dumped { IfOk result (λ outcome. IsDumpWhere (is_some ended.entry.search.now.dump) (setting circuit) (RunsPair (setting circuit) best.pair) outcome.dump) }
    ensures status { IfOk result (λ outcome. outcome.status ≡ ending_by ended.entry.search.now.required status.Done best.time best.time) }
{
    let search = ended.search;
    let Timed { pair, time } = best;
    let mut report = begun(alloc, &circuit)?;
    push_exact(alloc, &mut report, ended, time, &pair, &tree)?;
    push_run(alloc, &mut report, &circuit, &pair, search.shown)?;
    let shown = pair.copy(alloc)?;
    let claim = Claim {
        time,
        high: time,
        pair,
    };
    let certificate = kept_certificate(alloc, &circuit, admit, told, Some(claim), tree)?;
    let dump = dump_of(alloc, circuit, &shown, search.dump.is_some())?;
    Ok(Outcome {
        report,
        certificate: Some(certificate),
        dump,
        status: ending_by(search.required, Status::Done, time, time),
        verdict: None,
    })
}

// The outcome of an answer with a pair that leaves the worst delay open.
fn between(
    alloc: Global,
    circuit: Circuit,
    admit: Admit,
    told: Told,
    known: Open,
    why: Cause,
    ended: Ended<'_, '_>,
) -> Result<Outcome, AllocError>
    requires held { length admit.held ≡ length circuit.netlist.inputs }
    requires flips { admit.flips ≤ length admit.held }
    requires fit { are_fit (2 + length circuit.netlist.inputs + length circuit.netlist.gates) told.keep.items ≡ true }
    requires first_fits { length known.best.pair.first ≡ length circuit.netlist.inputs }
    requires second_fits { length known.best.pair.second ≡ length circuit.netlist.inputs }
    requires timed { IsTimedAmong (setting circuit) (asking_by admit told.keep.items) known.best }
    requires ordered { known.best.time ≤ known.high }
    requires shown { IsSupportAmong (setting circuit) (asking_by admit told.keep.items) known.support }
    ensures report { IfOk result (λ outcome. AddsLines (TellsPair ended.entry.search.now.shown (setting circuit) known.best.pair)
        (head_lines circuit.netlist ++ between_lines ended.entry known.best.time known.high why known.best.pair 0) outcome.report) }
    ensures certificate { IfOk result (λ outcome. IfSome outcome.certificate (IsWantedCertificate ended.entry.search.now (setting circuit) admit told known.best known.high)) }
    ensures dumped { IfOk result (λ outcome. IsDumpWhere (is_some ended.entry.search.now.dump) (setting circuit) (RunsPair (setting circuit) known.best.pair) outcome.dump) }
    ensures status { IfOk result (λ outcome. outcome.status ≡ ending_by ended.entry.search.now.required status.Between known.best.time known.high) }
{
    let search = ended.search;
    let figures = Figures {
        low: known.best.time,
        high: known.high,
        cause: why,
    };
    let mut report = begun(alloc, &circuit)?;
    let pair = &known.best.pair;
    push_between(alloc, &mut report, ended, figures, pair, 0)?;
    push_run(alloc, &mut report, &circuit, pair, search.shown)?;
    let pair = pair.copy(alloc)?;
    let Figures { low, high, .. } = figures;
    let certificate = open_certificate(alloc, &circuit, admit, told, known, search);
    let dump = dump_of(alloc, circuit, &pair, search.dump.is_some())?;
    Ok(Outcome {
        report,
        certificate,
        dump,
        status: ending_by(search.required, Status::Between, low, high),
        verdict: None,
    })
}

// The outcome of an answer that knows no pair.
fn at_most(
    alloc: Global,
    circuit: &Circuit,
    high: u64,
    why: Cause,
    ended: Ended<'_, '_>,
) -> Result<Outcome, AllocError>
    ensures report { IfOk result (λ outcome. outcome.report ≡ head_lines circuit.now.netlist ++ at_most_lines ended.entry high why) }
    ensures certificate { IfOk result (λ outcome. outcome.certificate ≡ Nothing) }
    ensures dumped { IfOk result (λ outcome. outcome.dump ≡ Nothing) }
    ensures status { IfOk result (λ outcome. outcome.status ≡ ending_by ended.entry.search.now.required status.Between 0 high) }
{
    let mut report = begun(alloc, circuit)?;
    report.add(Line::AtMost(high))?;
    report.add(cause_line(ended, 0, high, why))?;
    push_end(&mut report, ended, 0, high)?;
    Ok(Outcome {
        report,
        certificate: None,
        dump: None,
        status: ending_by(ended.search.required, Status::Between, 0, high),
        verdict: None,
    })
}

// The outcome of the answer that there is no such pair.
fn none(
    alloc: Global,
    circuit: &Circuit,
    admit: Admit,
    told: Told,
    tree: Tree,
) -> Result<Outcome, AllocError>
    requires flips { admit.flips ≤ length admit.held }
    ensures report { IfOk result (λ outcome. outcome.report ≡ head_lines circuit.now.netlist ++ line.NoPair ∷ line.Nodes (length tree) ∷ []) }
    ensures certificate { IfOk result (λ outcome. outcome.certificate ≡ Some (certificate_with (setting circuit.now) admit (kept_terms told) Nothing tree)) }
    ensures told { IfOk result (λ outcome. AreConditions told.keep.items → AreTerms (Some (kept_terms told))) }
    ensures few { IfOk result (λ outcome. length told.keep.items ≤ 5000 → HaveFew (Some (kept_terms told))) }
    ensures dumped { IfOk result (λ outcome. outcome.dump ≡ Nothing) }
    ensures status { IfOk result (λ outcome. outcome.status ≡ status.Refused) }
{
    let mut report = begun(alloc, circuit)?;
    push_none(&mut report, true, &tree)?;
    let certificate = kept_certificate(alloc, circuit, admit, told, None, tree)?;
    Ok(Outcome {
        report,
        certificate: Some(certificate),
        dump: None,
        status: Status::Refused,
        verdict: None,
    })
}

// The outcome of an answer, which is true of these pairs.
fn outcome_of(
    alloc: Global,
    circuit: Circuit,
    admit: Admit,
    told: Told,
    answer: KeptAnswer,
    ended: Ended<'_, '_>,
) -> Result<Outcome, AllocError>
    requires held { length admit.held ≡ length circuit.netlist.inputs }
    requires flips { admit.flips ≤ length admit.held }
    requires fit { are_fit (2 + length circuit.netlist.inputs + length circuit.netlist.gates) told.keep.items ≡ true }
    requires answer { IsKeptAnswer (setting circuit) (record { admit = admit; keep = told.keep.items }) answer }
    ensures says { IfOk result (λ outcome. (text : List ℕ) (reading : Read) → IsAskedKeeping text reading ended.entry.search.now.question (setting circuit) (record { admit = admit; keep = told.keep.items })
        → IsTrueKept text reading ended.entry.search.now outcome) }
    ensures certified { IfOk result (λ outcome. (text : List ℕ) (reading : Read) → IsAskedKeeping text reading ended.entry.search.now.question (setting circuit) (record { admit = admit; keep = told.keep.items })
        → AreOutputsOf text reading (option_map (λ numbers. numbers.items) told.outputs) → told.default ≡ reading.default
        → IsCertifiedAmong text reading ended.entry.search.now outcome.report outcome.certificate) }
    ensures written { IfOk result CanBeWritten }
    ensures printed { IfOk result (λ outcome. (more : List Printed) × (outcome.report ≡ (head_lines circuit.netlist ++ kept_lines ended.entry answer) ++ more)) }
{
    // For the prover: the circuit's numbering.
    let _gates = circuit.gates();
    match answer {
        KeptAnswer::Exact { best, tree } => {
            let closed = exact(alloc, circuit, admit, told, best, tree, ended)?;
            Ok(closed)
        }
        KeptAnswer::Between {
            best,
            high,
            cause,
            refuted,
        } => {
            let support = Support::by_steps(refuted);
            let known = Open {
                best,
                high,
                support,
            };
            let why = ended.cause(cause, 0);
            let lying = between(alloc, circuit, admit, told, known, why, ended)?;
            Ok(lying)
        }
        KeptAnswer::Open { high, cause } => {
            let why = ended.cause(cause, 0);
            let bounded = at_most(alloc, &circuit, high, why, ended)?;
            Ok(bounded)
        }
        KeptAnswer::NoPair { tree } => {
            let empty = none(alloc, &circuit, admit, told, tree)?;
            Ok(empty)
        }
    }
}

/// The search for the worst delay of the pairs that keep the conditions that are asked for.
pub(crate) fn worst_kept<'n, 'w, R: Threads + Wait + Sync>(
    rt: &R,
    alloc: Global,
    asked: Asked,
    text: &[u8],
    reading: &Reading<'_>,
    search: &Search<'w>,
    stop: &Stop,
) -> Result<Outcome, Refusal<'n, 'w>>
    requires asked { IsAsked text.now reading.now search.now.question (setting asked.circuit) asked.admit }
    requires outputs { AreOutputsOf text.now reading.now (option_map (λ numbers. numbers.items) asked.outputs) }
    requires keep { AreConditionsOf asked.circuit.netlist (keep_quotes search.now.question) asked.keep.items }
    ensures says { IfOk result (IsTrueKept text.now reading.now search.now) }
    ensures certified { IfOk result (λ outcome. IsCertifiedAmong text.now reading.now search.now outcome.report outcome.certificate) }
    ensures written { IfOk result CanBeWritten }
    ensures printed { IfOk result (PrintsKept stop.now.can_be_set text.now reading.now search.now) }
    ensures refusal { IfErr result (IsRefusedSearch text.now reading.now search.now) }
{
    let Asked {
        circuit,
        admit,
        outputs,
        keep,
        ..
    } = asked;
    let question = KeptQuestion {
        circuit: &circuit,
        admit: &admit,
        keep: &keep,
        required: search.required,
    };
    let limits = limits_of(&search.effort, stop);
    let found = td_worst::worst_kept(rt, alloc, question, limits)?;
    let ended = Ended {
        search,
        was_asked: stop.was_asked(),
        work: found.work,
    };
    let told = Told {
        default: reading.default,
        outputs,
        keep,
    };
    let outcome = outcome_of(alloc, circuit, admit, told, found.answer, ended)?;
    Ok(outcome)
}
