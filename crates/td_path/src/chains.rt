//! Chains of changes, followed back from a change to an input.

ghost use Rattle.std.specs.Prelude.{◌≡◌, ◌<◌, length, IfOk};
ghost use Rattle.td_circuit.specs.Numbering.{nets, IsNumbering};
ghost use Rattle.td_path.specs.Chains.{IsRunFor, Explains, ExplainsLatest, IsLatestNet};
ghost use Rattle.td_path.specs.Walks.{ArePlaces, ChangesAt, LeadsFrom, wave_at, link_by};

use crate::latest::{last_of, latest_net};
use crate::links::{Cause, Link};
use crate::places::places_of;
use crate::terminals::{first_change, level_before};
use std::alloc::{AllocError, Global};
use td_circuit::{Circuit, Net};
use td_run::Run;

/// The change of a net at a moment.
fn link_at(run: &Run, net: u32, moment: u64, cause: Option<Cause>) -> Link
    requires { net < length run.now.waves }
    ensures { result ≡ link_by run.now.waves net moment cause }
{
    let wave = run.wave(net);
    Link {
        net,
        moment,
        from: level_before(wave, moment),
        to: wave.at(moment),
        cause,
    }
}

/// The changes from this one back to an input, each caused by the next.
fn links_back(
    alloc: Global,
    circuit: &Circuit,
    run: &Run,
    places: &[usize],
    last: u32,
    last_moment: u64,
) -> Result<Vec<Link>, AllocError>
    requires run { IsRunFor circuit.now run.now }
    requires numbering { IsNumbering circuit.now }
    requires places { ArePlaces circuit.now places.now }
    requires last { last < length (nets circuit.now) }
    requires change { ChangesAt (wave_at run.now.waves last) last_moment }
    ensures { IfOk result (λ links. LeadsFrom circuit.now run.now last last_moment links.items) }
{
    let gates = circuit.gates();
    let first = circuit.first_gate() as usize;
    let mut links = Vec::new(alloc);
    let mut net = last;
    let mut moment = last_moment;
    while net as usize >= first {
        let place = net as usize - first;
        let gate = &gates[place];
        let delay = gate.delay.to(run.wave(net).at(moment));
        let earlier = moment - delay;
        let terminal = first_change(run, &gate.inputs, earlier);
        let cause = Cause {
            gate: places[place],
            kind: gate.kind,
            terminal,
            delay,
        };
        links.push(link_at(run, net, moment, Some(cause)))?;
        net = gate.inputs[terminal];
        moment = earlier;
    }
    links.push(link_at(run, net, moment, None))?;
    Ok(links)
}

/// The chain of changes that ends in the last change of a net: the first is a change of an input at
/// its moment, and each other one is a change of a gate's output that the one before it caused, by
/// the first terminal that changed then. There is none where the net never changes.
///
/// It takes one step for each link and terminal, each a search in the changes of one net, and one
/// for each gate of the circuit. Fails where memory runs out.
pub fn chain_of(
    alloc: Global,
    circuit: &Circuit,
    run: &Run,
    net: u32,
) -> Result<Option<Vec<Link>>, AllocError>
    requires run { IsRunFor circuit.now run.now }
    requires net { net < length (nets circuit.now) }
    ensures { IfOk result (λ chain. Explains circuit.now run.now net chain) }
{
    // For the prover: this call says that the gates are in order.
    let _gates = circuit.gates();
    let Some(moment) = last_of(run, net) else {
        return Ok(None);
    };
    let places = places_of(alloc, circuit)?;
    let mut links = links_back(alloc, circuit, run, &places, net, moment)?;
    links.reverse();
    Ok(Some(links))
}

/// The chain of changes that ends in the last change of the output that changes last. Of several
/// such outputs it takes the first. There is none where no output changes. Fails where memory runs
/// out.
pub fn latest_chain(
    alloc: Global,
    circuit: &Circuit,
    run: &Run,
) -> Result<Option<Vec<Link>>, AllocError>
    requires run { IsRunFor circuit.now run.now }
    ensures { IfOk result (λ chain. ExplainsLatest circuit.now run.now chain) }
{
    // For the prover: this call says that the gates are in order.
    let _gates = circuit.gates();
    match latest_net(run, circuit.outputs()) {
        Some(net) => chain_of(alloc, circuit, run, net),
        None => Ok(None),
    }
}

/// The net of the output that changes last in a run, the first of several. None where no output
/// changes.
pub fn latest_output(circuit: &Circuit, run: &Run) -> Option<Net>
    requires run { IsRunFor circuit.now run.now }
    ensures { IsLatestNet circuit.now run.now result }
{
    // For the prover: this call says that the gates are in order.
    let _gates = circuit.gates();
    latest_net(run, circuit.outputs())
}
