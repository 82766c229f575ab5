//! What a report says of a run after its other lines.

ghost use Rattle.std.specs.Prelude.{◌≡◌, ◌<◌, length, map, true, IfOk, OnOk};
ghost use Rattle.td_circuit.specs.Numbering.{nets, setting};
ghost use Rattle.td_path.specs.Chains.{IsRunFor, link_of};
ghost use Rattle.td_answer.specs.Runs.{driver_of, change_of, HasChanges, TellsLatest, TellsLast, TellsWay, TellsRun, TellsPair};
ghost use Rattle.td_answer.specs.Additions.{AddsLines, waves_in, NamesNet, AreNamed};

use crate::names::label;
use crate::runs::run_of;
use std::alloc::{AllocError, Global};
use td_circuit::Circuit;
use td_domain::Pair;
use td_lines::{Change, Driver, Line, Report};
use td_path::{Cause, Link, latest_chain, latest_output};
use td_request::Shown;
use td_run::Run;

/// The line of the output that is this net.
pub(crate) fn output_line(alloc: Global, circuit: &Circuit, net: u32) -> Result<Line, AllocError>
    requires constant { 1 < net }
    requires net { net < length (nets circuit.now) }
    ensures { IfOk result (NamesNet circuit.now net) }
{
    let name = label(alloc, circuit.name(net as usize))?;
    Ok(Line::Output(name))
}

/// Appends which output changes last in a run, where one does.
pub(crate) fn push_output(
    alloc: Global,
    report: &mut Report,
    circuit: &Circuit,
    run: &Run,
) -> Result<(), AllocError>
    requires run { IsRunFor circuit.now run.now }
    ensures { OnOk result (AddsLines (TellsLast true circuit.now.netlist (waves_in circuit.now run.now)) report.old report.new) }
{
    match latest_output(circuit, run) {
        Some(net) => {
            let line = output_line(alloc, circuit, net)?;
            report.add(line)
        }
        None => Ok(()),
    }
}

/// What made a net change.
fn driver_of(cause: Option<Cause>) -> Option<Driver>
    ensures { result ≡ driver_of cause }
{
    match cause {
        None => None,
        Some(cause) => Some(Driver {
            kind: cause.kind,
            delay: cause.delay,
        }),
    }
}

/// A change, with the name of its net.
fn change_of(alloc: Global, circuit: &Circuit, link: Link) -> Result<Change, AllocError>
    requires constant { 1 < link.net }
    requires net { link.net < length (nets circuit.now) }
    ensures { IfOk result (λ change. change ≡ change_of (link_of (nets circuit.now) link)) }
{
    let net = label(alloc, circuit.name(link.net as usize))?;
    Ok(Change {
        moment: link.moment,
        net,
        from: link.from,
        to: link.to,
        by: driver_of(link.cause),
    })
}

/// The line of changes.
pub(crate) fn changes_line(
    alloc: Global,
    circuit: &Circuit,
    links: &[Link],
) -> Result<Line, AllocError>
    requires { AreNamed circuit.now links.now }
    ensures { IfOk result (HasChanges (map (link_of (nets circuit.now)) links.now)) }
{
    let mut changes = Vec::new(alloc);
    for link in links {
        let change = change_of(alloc, circuit, *link)?;
        changes.push(change)?;
    }
    Ok(Line::Changes(changes))
}

/// Why the output that changes last in a run does so when it does.
pub(crate) fn latest_line(alloc: Global, circuit: &Circuit, run: &Run) -> Result<Line, AllocError>
    requires run { IsRunFor circuit.now run.now }
    ensures { IfOk result (TellsLatest (setting circuit.now) (waves_in circuit.now run.now)) }
{
    match latest_chain(alloc, circuit, run)? {
        Some(links) => changes_line(alloc, circuit, &links),
        None => Ok(Line::Time(0)),
    }
}

/// Appends which output changes last in a run, where it is asked for.
pub(crate) fn push_last(
    alloc: Global,
    report: &mut Report,
    circuit: &Circuit,
    run: &Run,
    outputs: bool,
) -> Result<(), AllocError>
    requires run { IsRunFor circuit.now run.now }
    ensures { OnOk result (AddsLines (TellsLast outputs circuit.now.netlist (waves_in circuit.now run.now)) report.old report.new) }
{
    if outputs {
        push_output(alloc, report, circuit, run)
    } else {
        Ok(())
    }
}

/// Appends why the output that changes last in a run does so when it does.
fn push_latest(
    alloc: Global,
    report: &mut Report,
    circuit: &Circuit,
    run: &Run,
) -> Result<(), AllocError>
    requires run { IsRunFor circuit.now run.now }
    ensures { OnOk result (AddsLines (TellsWay true (setting circuit.now) (waves_in circuit.now run.now)) report.old report.new) }
{
    let line = latest_line(alloc, circuit, run)?;
    report.add(line)
}

/// The same, where it is asked for.
fn push_way(
    alloc: Global,
    report: &mut Report,
    circuit: &Circuit,
    run: &Run,
    path: bool,
) -> Result<(), AllocError>
    requires run { IsRunFor circuit.now run.now }
    ensures { OnOk result (AddsLines (TellsWay path (setting circuit.now) (waves_in circuit.now run.now)) report.old report.new) }
{
    if path {
        push_latest(alloc, report, circuit, run)
    } else {
        Ok(())
    }
}

/// Appends what is asked of a run: which output changes last, and then the changes that lead there.
fn push_shown(
    alloc: Global,
    report: &mut Report,
    circuit: &Circuit,
    run: &Run,
    shown: Shown,
) -> Result<(), AllocError>
    requires run { IsRunFor circuit.now run.now }
    ensures { OnOk result (AddsLines (TellsRun shown (setting circuit.now) (waves_in circuit.now run.now)) report.old report.new) }
{
    push_last(alloc, report, circuit, run, shown.outputs)?;
    push_way(alloc, report, circuit, run, shown.path)
}

/// Appends what is asked of a pair's run.
pub(crate) fn push_run(
    alloc: Global,
    report: &mut Report,
    circuit: &Circuit,
    pair: &Pair,
    shown: Shown,
) -> Result<(), AllocError>
    requires first_fits { length pair.now.first ≡ length circuit.now.netlist.inputs }
    requires second_fits { length pair.now.second ≡ length circuit.now.netlist.inputs }
    ensures { OnOk result (AddsLines (TellsPair shown (setting circuit.now) pair.now) report.old report.new) }
{
    if !shown.outputs && !shown.path {
        return Ok(());
    }
    let run = run_of(alloc, circuit, pair)?;
    push_shown(alloc, report, circuit, &run, shown)
}
