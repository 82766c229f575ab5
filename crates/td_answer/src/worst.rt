//! The worst delay.

ghost use Rattle.std.specs.Prelude.{◌≡◌, ◌≤◌, ◌++◌, ◌⊎◌, [], length, is_some, IfOk, IfErr};
ghost use Rattle.td_circuit.specs.Numbering.{setting};
ghost use Rattle.td_search.specs.Answers.{low_of};
ghost use Rattle.td_search.specs.Problems.{Problem, problem_by, has_delay};
ghost use Rattle.td_worst.specs.Methods.{tree_of, high_of};
ghost use Rattle.td_worst.specs.Supports.{IsSupport};
ghost use Rattle.td_question.specs.Asking.{IsAsked};
ghost use Rattle.td_answer.specs.Answered.{IsPrintOfSearch};
ghost use Rattle.td_answer.specs.Methods.{method_of, bytes_of};
ghost use Rattle.td_answer.specs.Heads.{head_lines};
ghost use Rattle.td_answer.specs.Lines.{answer_lines, ending_of, pair_in};
ghost use Rattle.td_answer.specs.Runs.{RunsPair, TellsPair};
ghost use Rattle.td_answer.specs.Dumps.{IsDumpWhere};
ghost use Rattle.td_answer.specs.Additions.{AddsLines};
ghost use Rattle.td_answer.specs.OpenCertificates.{IsCertificateOf, told_with};
ghost use Rattle.td_answer.specs.Conditions.{IsTrueSearch, IsCertifiedFor};
ghost use Rattle.td_answer.specs.Searches.{IsRefusedSearch};
ghost use Rattle.td_answer.specs.Writing.{CanBeWritten};

use crate::answers::{ending_of, pair_in, report_of};
use crate::beside::push_run;
use crate::certifying::{Read, certificate};
use crate::ended::Ended;
use crate::kept::worst_kept;
use crate::kept_certificate::Told;
use crate::open_certificate::{Open, open_certificate};
use crate::outcome::{Dump, Outcome, Waves};
use crate::refusal::Refusal;
use crate::runs::run_of;
use std::alloc::{AllocError, Global};
use std::sync::Wait;
use std::thread::Threads;
use td_certificate::{Certificate, Question};
use td_circuit::Circuit;
use td_domain::{Admit, Pair};
use td_gates::Delay;
use td_lead::Timed;
use td_lines::Report;
use td_pool::{Effort, Limits, Watch};
use td_question::{Asked, question_of};
use td_reading::Reading;
use td_request::Search;
use td_search::{Answer, Strategy};
use td_stop::Stop;
use td_worst::{Found, Method};

/// The means of a strategy.
pub(crate) fn method_of(strategy: td_request::Strategy) -> Method
    ensures { result ≡ method_of strategy }
{
    match strategy {
        td_request::Strategy::Least => Method::Least,
        td_request::Strategy::Lead => Method::Lead,
        td_request::Strategy::Refute => Method::Refute,
        td_request::Strategy::Auto => Method::Auto,
    }
}

/// How many bytes are so many units of 1,048,576 bytes: all that there are where none are given.
fn bytes_of(memory: Option<u64>) -> u64
    ensures { result ≡ bytes_of memory }
{
    match memory {
        Some(units) => units.saturating_mul(1_048_576),
        None => u64::MAX,
    }
}

/// How a search goes, and what ends it.
pub(crate) fn limits_of<'a>(asked: &td_request::Effort, stop: &'a Stop) -> Limits<'a>
    ensures workers { result.effort.workers ≡ asked.now.workers }
    ensures budget { result.effort.budget ≡ asked.now.budget }
    ensures memory { result.memory ≡ bytes_of asked.now.memory }
    ensures stop { result.stop.now ≡ stop.now }
{
    let effort = Effort {
        workers: asked.workers,
        budget: u64::from(asked.budget),
    };
    let memory = bytes_of(asked.memory);
    Limits {
        effort,
        stop,
        memory,
    }
}

/// The waves of a pair's run, where they are asked for.
pub(crate) fn dump_of(
    alloc: Global,
    circuit: Circuit,
    pair: &Pair,
    is_asked: bool,
) -> Result<Option<Dump>, AllocError>
    requires first_fits { length pair.now.first ≡ length circuit.netlist.inputs }
    requires second_fits { length pair.now.second ≡ length circuit.netlist.inputs }
    ensures { IfOk result (IsDumpWhere is_asked (setting circuit) (RunsPair (setting circuit) pair.now)) }
{
    if !is_asked {
        return Ok(None);
    }
    let run = run_of(alloc, &circuit, pair)?;
    Ok(Some(Dump::Whole(Waves { circuit, run })))
}

/// The report of an answer, and after it what is asked of its pair's run.
fn reported(
    alloc: Global,
    circuit: &Circuit,
    answer: &Answer,
    ended: Ended<'_, '_>,
) -> Result<Report, AllocError>
    requires first_fits { length (pair_in answer.now).first ≡ length circuit.now.netlist.inputs }
    requires second_fits { length (pair_in answer.now).second ≡ length circuit.now.netlist.inputs }
    ensures { IfOk result (AddsLines (TellsPair ended.entry.search.now.shown (setting circuit.now) (pair_in answer.now)) (head_lines circuit.now.netlist ++ answer_lines ended.entry answer.now)) }
{
    let mut report = report_of(alloc, circuit, answer, ended)?;
    push_run(
        alloc,
        &mut report,
        circuit,
        pair_in(answer),
        ended.search.shown,
    )?;
    Ok(report)
}

/// How a netlist was read, and what pairs keep, as a certificate tells it; and which certificate of
/// an exact answer does so.
struct Telling {
    told: Told,
    strategy: Strategy,
}

/// The certificate of an answer, if it has one. The error is out of memory.
fn certificate_of(
    alloc: Global,
    circuit: &Circuit,
    admit: Admit,
    telling: Telling,
    found: Found,
    search: &Search<'_>,
) -> Result<Option<Certificate>, AllocError>
    requires held { length admit.held ≡ length circuit.now.netlist.inputs }
    requires flips { admit.flips ≤ length admit.held }
    requires bare { telling.told.keep.items ≡ [] }
    requires has { has_delay (problem_by telling.strategy circuit.now admit) (pair_in found.answer) (low_of found.answer) }
    requires ordered { low_of found.answer ≤ high_of found.answer }
    requires shown { IsSupport (setting circuit.now) admit found.support }
    ensures { IfOk result (IsCertificateOf telling.told (problem_by telling.strategy circuit.now admit) search.now found.answer) }
{
    let Telling { told, strategy } = telling;
    let Found {
        answer,
        support,
        ..
    } = found;
    match answer {
        Answer::Exact { time, pair, tree } => {
            let moments = Vec::from_slice(alloc, circuit.moments())?;
            let question = Question::new(admit, moments);
            let Told {
                default,
                outputs,
                ..
            } = told;
            let read = Read { default, outputs };
            let answer = Answer::Exact { time, pair, tree };
            let kept = certificate(alloc, circuit, question, read, strategy, answer)?;
            Ok(kept)
        }
        Answer::Between {
            low,
            high,
            pair,
            ..
        } => {
            let best = Timed { pair, time: low };
            let open = Open {
                best,
                high,
                support,
            };
            let kept = open_certificate(alloc, circuit, admit, told, open, search);
            Ok(kept)
        }
    }
}

/// What is shown and kept of an answer to what is asked.
fn outcome_of(
    alloc: Global,
    asked: Asked,
    default: Delay,
    strategy: Strategy,
    found: Found,
    ended: Ended<'_, '_>,
) -> Result<Outcome, AllocError>
    requires held { length asked.admit.held ≡ length asked.circuit.netlist.inputs }
    requires flips { asked.admit.flips ≤ length asked.admit.held }
    requires bare { asked.keep.items ≡ [] }
    requires first_fits { length (pair_in found.answer).first ≡ length asked.circuit.netlist.inputs }
    requires second_fits { length (pair_in found.answer).second ≡ length asked.circuit.netlist.inputs }
    requires has { has_delay (problem_by strategy asked.circuit asked.admit) (pair_in found.answer) (low_of found.answer) }
    requires ordered { low_of found.answer ≤ high_of found.answer }
    requires shown { IsSupport (setting asked.circuit) asked.admit found.support }
    ensures report { IfOk result (λ outcome. AddsLines (TellsPair ended.entry.search.now.shown (setting asked.circuit) (pair_in found.answer))
        (head_lines asked.circuit.netlist ++ answer_lines ended.entry found.answer) outcome.report) }
    ensures certified { IfOk result (λ outcome. IsCertificateOf (told_with default asked.outputs asked.keep) (problem_by strategy asked.circuit asked.admit)
        ended.entry.search.now found.answer outcome.certificate) }
    ensures dumped { IfOk result (λ outcome. IsDumpWhere (is_some ended.entry.search.now.dump) (setting asked.circuit)
        (RunsPair (setting asked.circuit) (pair_in found.answer)) outcome.dump) }
    ensures status { IfOk result (λ outcome. outcome.status ≡ ending_of ended.entry.search.now.required found.answer) }
{
    let Asked {
        circuit,
        admit,
        outputs,
        keep,
        ..
    } = asked;
    let search = ended.search;
    let report = reported(alloc, &circuit, &found.answer, ended)?;
    let status = ending_of(search.required, &found.answer);
    let pair = pair_in(&found.answer).copy(alloc)?;
    let told = Told {
        default,
        outputs,
        keep,
    };
    let telling = Telling { told, strategy };
    let certificate = certificate_of(alloc, &circuit, admit, telling, found, search)?;
    let dump = dump_of(alloc, circuit, &pair, search.dump.is_some())?;
    Ok(Outcome {
        report,
        certificate,
        dump,
        status,
        verdict: None,
    })
}

/// The search for the worst delay of what a request asks of a text.
pub(crate) fn worst<'n, 'w, W: Watch, R: Threads + Wait + Sync>(
    rt: &R,
    alloc: Global,
    text: &'n [u8],
    reading: &Reading<'_>,
    search: &Search<'w>,
    stop: &Stop,
    watch: &mut W,
) -> Result<Outcome, Refusal<'n, 'w>>
    ensures says { IfOk result (IsTrueSearch text.now reading.now search.now) }
    ensures answered { IfOk result (IsPrintOfSearch stop.now.can_be_set text.now reading.now search.now) }
    ensures certified { IfOk result (λ outcome. IsCertifiedFor text.now reading.now search.now outcome.report outcome.certificate) }
    ensures written { IfOk result CanBeWritten }
    ensures refusal { IfErr result (IsRefusedSearch text.now reading.now search.now) }
    ensures reported { (watch.new ≡ watch.old)
        ⊎ ((asked : Problem) × IsAsked text.now reading.now search.now.question asked.setting asked.admit × W.reported asked watch.old watch.new) }
{
    let asked = question_of(alloc, text, reading, &search.question)?;
    stop.gauge.end_reading();
    if !asked.keep.is_empty() {
        return worst_kept(rt, alloc, asked, text, reading, search, stop);
    }
    let method = method_of(search.strategy);
    let limits = limits_of(&search.effort, stop);
    let question = td_worst::Question {
        circuit: &asked.circuit,
        admit: &asked.admit,
        method,
        required: search.required,
    };
    let found = td_worst::worst(rt, alloc, question, limits, watch)?;
    let ended = Ended {
        search,
        was_asked: stop.was_asked(),
        work: found.work,
    };
    let outcome = outcome_of(
        alloc,
        asked,
        reading.default,
        method.strategy(),
        found,
        ended,
    )?;
    Ok(outcome)
}
