//! Why an output changes last when it does.

ghost use Rattle.std.specs.Prelude.{◌≡◌, ◌<◌, length, IfOk, IfErr, IfSome, IfNone, OnOk, None as Nothing, Some as Present};
ghost use Rattle.std.specs.Str.{bytes_eq};
ghost use Rattle.td_nets.specs.Printed.{printed};
ghost use Rattle.td_nets.specs.Views.{name_of};
ghost use Rattle.td_circuit.specs.Numbering.{nets, setting};
ghost use Rattle.td_path.specs.Chains.{IsRunFor};
ghost use Rattle.td_answer.specs.Ends.{EndsByStop};
ghost use Rattle.td_answer.specs.Heads.{head_lines};
ghost use Rattle.td_answer.specs.Runs.{TellsOutput, IsStill};
ghost use Rattle.td_answer.specs.Additions.{AddsLines, IsOutputNamed, TellsNet, NeverChanges, waves_in};
ghost use Rattle.td_source.specs.Reads.{HasNoneNamed};
ghost use Rattle.td_answer.specs.Paths.{ReportsPath, IsTruePath, IsRefusedPath};
ghost use Rattle.td_answer.specs.Writing.{CanBeWritten};

use crate::beside::{changes_line, latest_line};
use crate::head::begun;
use crate::moments::push_lasts;
use crate::names::label;
use crate::outcome::Outcome;
use crate::refusal::Refusal;
use crate::sim::simulated;
use std::alloc::{AllocError, Global};
use td_circuit::Circuit;
use td_lines::{Last, Report};
use td_nets::Name;
use td_path::chain_of;
use td_reading::Reading;
use td_request::Path;
use td_run::Run;
use td_stop::Stop;

/// Whether reports print a name so.
fn is_printed(alloc: Global, name: &Name, word: &str) -> Result<bool, AllocError>
    ensures { IfOk result (λ same. same ≡ bytes_eq (printed (name_of name.now)) word.now) }
{
    let mut text = Vec::new(alloc);
    name.print(&mut text)?;
    Ok(text.as_slice() == word.as_bytes())
}

/// The net of the first output that reports print so, if there is one.
fn output_named(alloc: Global, circuit: &Circuit, word: &str) -> Result<Option<u32>, AllocError>
    ensures { IfOk result (IsOutputNamed circuit.now word.now) }
{
    let _gates = circuit.gates();
    for output in circuit.outputs() {
        let same = is_printed(alloc, circuit.name(*output as usize), word)?;
        if same {
            return Ok(Some(*output));
        }
    }
    Ok(None)
}

/// Appends that the output that is this net never changes.
fn push_never(
    alloc: Global,
    report: &mut Report,
    circuit: &Circuit,
    net: u32,
) -> Result<(), AllocError>
    requires constant { 1 < net }
    requires net { net < length (nets circuit.now) }
    ensures { OnOk result (AddsLines (NeverChanges circuit.now net) report.old report.new) }
{
    let output = label(alloc, circuit.name(net as usize))?;
    let mut rows = Vec::new(alloc);
    rows.push(Last {
        output,
        moment: None,
    })?;
    push_lasts(report, rows)
}

/// Appends why the output that is this net changes last when it does.
fn push_chain(
    alloc: Global,
    report: &mut Report,
    circuit: &Circuit,
    run: &Run,
    net: u32,
) -> Result<(), AllocError>
    requires run { IsRunFor circuit.now run.now }
    requires constant { 1 < net }
    requires net { net < length (nets circuit.now) }
    ensures { OnOk result (AddsLines (TellsNet circuit.now run.now net) report.old report.new) }
{
    match chain_of(alloc, circuit, run, net)? {
        Some(links) => {
            let line = changes_line(alloc, circuit, &links)?;
            report.add(line)
        }
        None => push_never(alloc, report, circuit, net),
    }
}

/// The report on the output of a run that changes last.
fn latest_report(alloc: Global, circuit: &Circuit, run: &Run) -> Result<Report, AllocError>
    requires { IsRunFor circuit.now run.now }
    ensures { IfOk result (ReportsPath (setting circuit.now) (waves_in circuit.now run.now) Nothing) }
{
    let mut report = begun(alloc, circuit)?;
    let line = latest_line(alloc, circuit, run)?;
    report.add(line)?;
    Ok(report)
}

/// The report on the output of a run that reports print so, if there is one.
fn named_report(
    alloc: Global,
    circuit: &Circuit,
    run: &Run,
    word: &str,
) -> Result<Option<Report>, AllocError>
    requires { IsRunFor circuit.now run.now }
    ensures reported { IfOk result (λ reported. IfSome reported (λ report.
        ReportsPath (setting circuit.now) (waves_in circuit.now run.now) (Present word.entry) report)) }
    ensures none { IfOk result (λ reported. IfNone reported (HasNoneNamed circuit.now.netlist word.now)) }
{
    let Some(net) = output_named(alloc, circuit, word)? else {
        return Ok(None);
    };
    let mut report = begun(alloc, circuit)?;
    push_chain(alloc, &mut report, circuit, run, net)?;
    Ok(Some(report))
}

/// Why an output changes last when it does, in the run of a pair of vectors, unless the stop is set
/// meanwhile: the changes that lead to its last change, from that of an input on. It is the output
/// of this name, or the one that changes last.
pub(crate) fn path<'n, 'w>(
    alloc: Global,
    text: &'n [u8],
    reading: &Reading<'_>,
    asked: &Path<'w>,
    stop: &Stop,
) -> Result<Outcome, Refusal<'n, 'w>>
    ensures says { IfOk result (IsTruePath text.now reading.now asked.now) }
    ensures certified { IfOk result (λ outcome. outcome.certificate ≡ Nothing) }
    ensures written { IfOk result CanBeWritten }
    ensures refusal { IfErr result (IsRefusedPath text.now reading.now asked.now) }
    ensures stopped { IfErr result (EndsByStop stop.now.can_be_set) }
{
    let waves = simulated(
        alloc,
        text,
        reading,
        &asked.inputs,
        asked.from,
        asked.to,
        stop,
    )?;
    match asked.output {
        None => {
            let report = latest_report(alloc, &waves.circuit, &waves.run)?;
            Ok(Outcome::done(report))
        }
        Some(word) => match named_report(alloc, &waves.circuit, &waves.run, word)? {
            Some(report) => Ok(Outcome::done(report)),
            None => Err(Refusal::NoOutput(word)),
        },
    }
}
