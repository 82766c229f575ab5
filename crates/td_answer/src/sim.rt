//! The run of a pair of vectors.

ghost use Rattle.std.specs.Prelude.{◌≡◌, ◌<◌, true, false, length, slice_index_or, is_some, IfOk, IfErr, IfSome, IfNone, if◌then◌else◌, None as Nothing, Some as Present};
ghost use Rattle.std.specs.List.{All};
ghost use Rattle.td_gates.specs.Wave.{Wave};
ghost use Rattle.td_nets.specs.Netlist.{Net};
ghost use Rattle.td_circuit.specs.Numbering.{nets, setting};
ghost use Rattle.td_circuit.specs.Run.{Runs};
ghost use Rattle.td_question.specs.Choosing.{AreChosen};
ghost use Rattle.td_answer.specs.declared.outcome.Dump.TheVariants as DumpAs;
ghost use Rattle.td_answer.specs.Dumps.{waves_of, is_whole, CanBeDumped, IsKeptWith};
ghost use Rattle.td_answer.specs.Ends.{EndsByStop};
ghost use Rattle.td_answer.specs.Simulations.{IsSimulated, HasRun, IsTrueSim, IsRefusedRun, IsRefusedSim, IsKeptOutcome};
ghost use Rattle.td_answer.specs.Writing.{CanBeWritten};

use crate::moments::{kept_lasts, report_of, run_lasts};
use crate::outcome::{ChosenWaves, Dump, Outcome, Waves};
use crate::refusal::Refusal;
use crate::status::Status;
use std::alloc::{AllocError, Global};
use td_circuit::Circuit;
use td_question::{PairAsked, QuestionFault, Quote, nets_of, pair_of};
use td_reading::Reading;
use td_request::{Inputs, Sim};
use td_run::{Kept, kept_waves, waves_until};
use td_stop::Stop;

/// The circuit of a text, with the moments of words, and its run under the vectors of two words,
/// unless the stop is set meanwhile.
pub(crate) fn simulated<'n, 'w>(
    alloc: Global,
    text: &'n [u8],
    reading: &Reading<'_>,
    inputs: &Inputs<'w>,
    from: &str,
    to: &str,
    stop: &Stop,
) -> Result<Waves, Refusal<'n, 'w>>
    ensures is { IfOk result (λ waves. IsSimulated text.now reading.now inputs.now from.now to.now (setting waves.circuit) (waves_of waves)) }
    ensures has { IfOk result (λ waves. HasRun waves.circuit waves.run) }
    ensures refusal { IfErr result (IsRefusedRun text.now reading.now inputs.now from.now to.now) }
    ensures stopped { IfErr result (EndsByStop stop.now.can_be_set) }
{
    let asked = pair_of(alloc, text, reading, inputs, from, to)?;
    let PairAsked {
        circuit,
        first,
        second,
    } = asked;
    match waves_until(alloc, &circuit, &first, &second, stop)? {
        Some(run) => Ok(Waves { circuit, run }),
        None => Err(Refusal::OutOfTime),
    }
}

/// Which nets are wanted, by number. The error is out of memory.
fn wanted_of(alloc: Global, circuit: &Circuit, chosen: &[u32]) -> Result<Vec<bool>, AllocError>
    requires { All (λ net. net < length (nets circuit.now)) chosen.now }
    ensures count { IfOk result (λ wanted. length wanted.items ≡ length (nets circuit.now)) }
    ensures these { IfOk result (λ wanted.
        All (λ net. slice_index_or wanted.items net false ≡ true) chosen.now) }
{
    let mut wanted = vec![in alloc; false; circuit.net_count()]?;
    for net in chosen {
        wanted[*net as usize] = true;
    }
    Ok(wanted)
}

/// What is kept of a pair's run, with the waves of chosen nets. There is nothing where the stop is
/// set meanwhile. The error is out of memory.
fn kept_of(
    alloc: Global,
    pair: &PairAsked,
    chosen: &[u32],
    stop: &Stop,
) -> Result<Option<Kept>, AllocError>
    requires chosen { All (λ net. net < length (nets pair.now.circuit)) chosen.now }
    requires named { All (λ net. 1 < net) chosen.now }
    requires first_fits { length pair.now.first.items ≡ length pair.now.circuit.netlist.inputs }
    requires second_fits { length pair.now.second.items ≡ length pair.now.circuit.netlist.inputs }
    ensures kept { IfOk result (λ kept. IfSome kept (λ kept. (waves : Net → Wave)
        × Runs (setting pair.now.circuit) pair.now.first.items pair.now.second.items waves
        × IsKeptWith pair.now.circuit chosen.now waves kept)) }
    ensures count { IfOk result (λ kept. IfSome kept (λ kept.
        length kept.lasts ≡ length (nets pair.now.circuit))) }
    ensures written { IfOk result (λ kept. IfSome kept (λ kept.
        CanBeDumped pair.now.circuit kept chosen.now)) }
    ensures stopped { IfOk result (λ kept. IfNone kept (stop.now.can_be_set ≡ true)) }
{
    let wanted = wanted_of(alloc, &pair.circuit, chosen)?;
    kept_waves(
        alloc,
        &pair.circuit,
        &pair.first,
        &pair.second,
        &wanted,
        stop,
    )
}

/// The chosen waves, where they are asked for.
fn dump_where(is_asked: bool, waves: ChosenWaves) -> Option<Dump>
    ensures { result ≡ (if is_asked then Present (DumpAs.Chosen waves) else Nothing) }
{
    if is_asked {
        Some(Dump::Chosen(waves))
    } else {
        None
    }
}

/// Whether the waves of all nets are asked for.
fn is_whole(asked: &Sim<'_>) -> bool
    ensures { result ≡ is_whole (is_some asked.now.dump) asked.now.nets }
{
    asked.dump.is_some() && asked.nets.names().is_empty()
}

/// The run of a pair of vectors whose waves are dumped.
fn whole<'n, 'w>(
    alloc: Global,
    text: &'n [u8],
    reading: &Reading<'_>,
    asked: &Sim<'w>,
    stop: &Stop,
) -> Result<Outcome, Refusal<'n, 'w>>
    requires { is_whole (is_some asked.now.dump) asked.now.nets ≡ true }
    ensures says { IfOk result (IsTrueSim text.now reading.now asked.now) }
    ensures certified { IfOk result (λ outcome. outcome.certificate ≡ Nothing) }
    ensures written { IfOk result CanBeWritten }
    ensures refusal { IfErr result (IsRefusedRun text.now reading.now asked.now.inputs asked.now.from.now asked.now.to.now) }
    ensures stopped { IfErr result (EndsByStop stop.now.can_be_set) }
{
    let waves = simulated(
        alloc,
        text,
        reading,
        &asked.inputs,
        asked.from,
        asked.to,
        stop,
    )?;
    let rows = run_lasts(alloc, &waves.circuit, &waves.run)?;
    let report = report_of(alloc, &waves.circuit, rows, asked.outputs)?;
    Ok(Outcome {
        report,
        certificate: None,
        dump: Some(Dump::Whole(waves)),
        status: Status::Done,
        verdict: None,
    })
}

/// The outcome of a pair's run of which the waves of chosen nets are kept. There is none where the
/// stop is set meanwhile. The error is out of memory.
fn chosen_by(
    alloc: Global,
    pair: PairAsked,
    chosen: Vec<u32>,
    asked: &Sim<'_>,
    stop: &Stop,
) -> Result<Option<Outcome>, AllocError>
    requires part { is_whole (is_some asked.now.dump) asked.now.nets ≡ false }
    requires chosen { AreChosen pair.circuit asked.now.nets chosen.items }
    requires first_fits { length pair.first.items ≡ length pair.circuit.netlist.inputs }
    requires second_fits { length pair.second.items ≡ length pair.circuit.netlist.inputs }
    ensures says { IfOk result (λ outcome. IfSome outcome
        (IsKeptOutcome pair.circuit pair.first.items pair.second.items asked.now)) }
    ensures written { IfOk result (λ outcome. IfSome outcome CanBeWritten) }
    ensures stopped { IfOk result (λ outcome. IfNone outcome (stop.now.can_be_set ≡ true)) }
{
    let Some(kept) = kept_of(alloc, &pair, &chosen, stop)? else {
        return Ok(None);
    };
    let rows = kept_lasts(alloc, &pair.circuit, &kept)?;
    let report = report_of(alloc, &pair.circuit, rows, asked.outputs)?;
    let waves = ChosenWaves {
        circuit: pair.circuit,
        kept,
        nets: chosen,
    };
    Ok(Some(Outcome {
        report,
        certificate: None,
        dump: dump_where(asked.dump.is_some(), waves),
        status: Status::Done,
        verdict: None,
    }))
}

/// The run of a pair of vectors of which no wave is kept but those of the nets that are named.
fn chosen<'n, 'w>(
    alloc: Global,
    text: &'n [u8],
    reading: &Reading<'_>,
    asked: &Sim<'w>,
    stop: &Stop,
) -> Result<Outcome, Refusal<'n, 'w>>
    requires { is_whole (is_some asked.now.dump) asked.now.nets ≡ false }
    ensures says { IfOk result (IsTrueSim text.now reading.now asked.now) }
    ensures certified { IfOk result (λ outcome. outcome.certificate ≡ Nothing) }
    ensures written { IfOk result CanBeWritten }
    ensures refusal { IfErr result (IsRefusedSim text.now reading.now asked.now) }
    ensures stopped { IfErr result (EndsByStop stop.now.can_be_set) }
{
    let pair = pair_of(alloc, text, reading, &asked.inputs, asked.from, asked.to)?;
    match nets_of(alloc, &pair.circuit, asked.nets.names())? {
        Ok(nets) => match chosen_by(alloc, pair, nets, asked, stop)? {
            Some(outcome) => Ok(outcome),
            None => Err(Refusal::OutOfTime),
        },
        Err(word) => Err(Refusal::Question(QuestionFault::NoNet(Quote {
            text: word.as_bytes(),
            line: None,
        }))),
    }
}

/// The run of a pair of vectors, unless the stop is set meanwhile. All waves are kept only where
/// they are dumped and no net is named.
pub(crate) fn sim<'n, 'w>(
    alloc: Global,
    text: &'n [u8],
    reading: &Reading<'_>,
    asked: &Sim<'w>,
    stop: &Stop,
) -> Result<Outcome, Refusal<'n, 'w>>
    ensures says { IfOk result (IsTrueSim text.now reading.now asked.now) }
    ensures certified { IfOk result (λ outcome. outcome.certificate ≡ Nothing) }
    ensures written { IfOk result CanBeWritten }
    ensures refusal { IfErr result (IsRefusedSim text.now reading.now asked.now) }
    ensures stopped { IfErr result (EndsByStop stop.now.can_be_set) }
{
    if is_whole(asked) {
        return whole(alloc, text, reading, asked, stop);
    }
    chosen(alloc, text, reading, asked, stop)
}
