//! Writing the waves of a run.

ghost use Rattle.std.specs.Prelude.{◌≡◌, ◌++◌, ◌<◌, ◌≤◌, length, map, slice_get, Some, OnOk, IfOk, IfErr};
ghost use Rattle.std.specs.List.{All};
ghost use Rattle.td_text.specs.Output.{Sent, SentTo};
ghost use Rattle.td_circuit.specs.Numbering.{IsNumbering};
ghost use Rattle.td_run.specs.Waves.{AreWithin, waves_of};
ghost use Rattle.td_vcd.specs.Text.{dump_head, text_of, numbered, declaration, start_line, named_dump};
ghost use Rattle.td_vcd.specs.Chosen.{names_of, kept_of, chosen_dump, IsNamed, IsKeptFor, CanBeChosen};
ghost use Rattle.td_vcd.specs.Walks.{AreVariables, body_text, event_lines, lines_from};
ghost use Rattle.td_vcd.specs.Writes.{IsRunFor, IsRefused, dump_of};

use crate::batch::Batch;
use crate::events::{Event, events};
use crate::fault::VcdFault;
use std::alloc::{AllocError, Global};
use td_circuit::Circuit;
use td_run::{Kept, Run, Wave};
use td_text::Sink;

/// The nets of the variables: the inputs in order, and then the outputs of the gates in the order
/// of the netlist.
fn variable_nets(alloc: Global, circuit: &Circuit) -> Result<Vec<u32>, AllocError>
    ensures nets { IfOk result (λ nets. AreVariables circuit.now nets.items) }
    ensures numbering { IsNumbering circuit.now }
{
    // For the prover: this call says that the gates are in order.
    let _gates = circuit.gates();
    let mut nets = Vec::new(alloc);
    for place in 0..circuit.input_count() {
        nets.push(2 + place as u32)?;
    }
    nets.extend_from_slice(circuit.gate_outputs())?;
    Ok(nets)
}

/// The waves of these nets in a run.
fn run_waves<'r>(alloc: Global, run: &'r Run, nets: &[u32]) -> Result<Vec<&'r Wave>, AllocError>
    requires { All (λ net. net < length run.now.waves) nets.now }
    ensures { IfOk result (λ waves.
        map (λ wave. wave.now) waves.items ≡ waves_of run.now.waves nets.now) }
{
    let mut waves = Vec::new(alloc);
    for net in nets {
        waves.push(run.wave(*net))?;
    }
    Ok(waves)
}

/// The wave of a net that can be chosen.
fn chosen_wave(kept: &Kept, net: u32) -> &Wave
    requires { CanBeChosen kept.now net }
    ensures { slice_get kept.now.waves net ≡ Some (Some result.now) }
{
    match kept.wave(net) {
        Some(wave) => wave,
        None => unreachable!(),
    }
}

/// The kept waves of these nets.
fn chosen_waves<'k>(
    alloc: Global,
    kept: &'k Kept,
    chosen: &[u32],
) -> Result<Vec<&'k Wave>, AllocError>
    requires { All (CanBeChosen kept.now) chosen.now }
    ensures { IfOk result (λ waves.
        map (λ wave. wave.now) waves.items ≡ kept_of kept.now chosen.now) }
{
    let mut waves = Vec::new(alloc);
    for net in chosen {
        waves.push(chosen_wave(kept, *net))?;
    }
    Ok(waves)
}

/// The lines before the declarations.
fn push_head(alloc: Global, batch: &mut Batch, circuit: &Circuit) -> Result<(), AllocError>
    ensures { OnOk result (batch.new ≡ batch.old ++ text_of (dump_head circuit.now.netlist)) }
{
    batch.push(b"$version tdelay 1 $end\n")?;
    batch.timescale(circuit.unit())?;
    batch.scope(alloc, circuit.module())
}

/// Writes a declaration for each variable, by its net.
fn write_declarations<W: Sink>(
    out: &mut W,
    batch: &mut Batch,
    circuit: &Circuit,
    nets: &[u32],
) -> Result<(), VcdFault>
    requires { All (IsNamed circuit.now) nets.now }
    ensures written { OnOk result (SentTo (W.output out.old) (W.output out.new)
        (batch.old ++ text_of (numbered declaration 0 (names_of circuit.now nets.now))) batch.new) }
    ensures refused { IfErr result (λ fault. IsRefused fault (W.output out.old) (W.output out.new)
        (batch.old ++ text_of (numbered declaration 0 (names_of circuit.now nets.now)))) }
{
    for (variable, net) in nets.iter().enumerate() {
        batch.make_space(out)?;
        batch.declaration(variable, circuit.name(*net as usize))?;
    }
    Ok(())
}

/// Writes the settled level of each variable.
fn write_starts<W: Sink>(out: &mut W, batch: &mut Batch, waves: &[&Wave]) -> Result<(), VcdFault>
    ensures written { OnOk result (SentTo (W.output out.old) (W.output out.new)
        (batch.old ++ text_of (numbered start_line 0 (map (λ wave. wave.now) waves.now))) batch.new) }
    ensures refused { IfErr result (λ fault. IsRefused fault (W.output out.old) (W.output out.new)
        (batch.old ++ text_of (numbered start_line 0 (map (λ wave. wave.now) waves.now)))) }
{
    for (variable, wave) in waves.iter().enumerate() {
        batch.make_space(out)?;
        batch.level(variable, wave.start())?;
    }
    Ok(())
}

/// Appends a change after the line of a number: the line of its own number, if it is another one,
/// and its level.
fn push_event(batch: &mut Batch, number: u64, event: &Event) -> Result<(), AllocError>
    requires { event.now.moment ≤ 200001000000000 }
    ensures { OnOk result (batch.new ≡ batch.old ++ text_of (event_lines number event.now)) }
{
    let own = event.moment + 1;
    if own != number {
        batch.number(own)?;
    }
    batch.level(event.variable, event.level)
}

/// Writes the changes, which come in the order of their moments.
fn write_changes<W: Sink>(out: &mut W, batch: &mut Batch, events: &[Event]) -> Result<(), VcdFault>
    requires { All (λ event. event.moment ≤ 200001000000000) events.now }
    ensures written { OnOk result (SentTo (W.output out.old) (W.output out.new)
        (batch.old ++ text_of (lines_from 0 events.now)) batch.new) }
    ensures refused { IfErr result (λ fault. IsRefused fault (W.output out.old) (W.output out.new)
        (batch.old ++ text_of (lines_from 0 events.now))) }
{
    let mut number = 0;
    for event in events {
        batch.make_space(out)?;
        push_event(batch, number, event)?;
        number = event.moment + 1;
    }
    Ok(())
}

/// Writes the lines after the head, which the batch holds.
fn write_lines<W: Sink>(
    out: &mut W,
    mut batch: Batch,
    circuit: &Circuit,
    nets: &[u32],
    waves: &[&Wave],
    events: &[Event],
) -> Result<(), VcdFault>
    requires nets { All (IsNamed circuit.now) nets.now }
    requires small { All (λ event. event.moment ≤ 200001000000000) events.now }
    ensures written { OnOk result (Sent (W.output out.old) (W.output out.new)
        (batch ++ body_text (names_of circuit.now nets.now) (map (λ wave. wave.now) waves.now)
        events.now)) }
    ensures refused { IfErr result (λ fault. IsRefused fault (W.output out.old) (W.output out.new)
        (batch ++ body_text (names_of circuit.now nets.now) (map (λ wave. wave.now) waves.now)
        events.now)) }
{
    write_declarations(out, &mut batch, circuit, nets)?;
    batch.push(b"$upscope $end\n$enddefinitions $end\n#0\n$dumpvars\n")?;
    write_starts(out, &mut batch, waves)?;
    batch.push(b"$end\n")?;
    write_changes(out, &mut batch, events)?;
    batch.finish(out)?;
    Ok(())
}

/// Writes a dump of a variable for each of these nets, which have these waves.
fn write_variables<W: Sink>(
    alloc: Global,
    out: &mut W,
    circuit: &Circuit,
    nets: &[u32],
    waves: &[&Wave],
) -> Result<(), VcdFault>
    requires nets { All (IsNamed circuit.now) nets.now }
    requires small { All (λ wave. AreWithin 200001000000000 wave.changes)
        (map (λ wave. wave.now) waves.now) }
    ensures written { OnOk result (Sent (W.output out.old) (W.output out.new)
        (named_dump circuit.now.netlist (names_of circuit.now nets.now)
        (map (λ wave. wave.now) waves.now))) }
    ensures refused { IfErr result (λ fault. IsRefused fault (W.output out.old) (W.output out.new)
        (named_dump circuit.now.netlist (names_of circuit.now nets.now)
        (map (λ wave. wave.now) waves.now))) }
{
    let events = events(alloc, waves)?;
    let mut batch = Batch::new(alloc);
    push_head(alloc, &mut batch, circuit)?;
    write_lines(out, batch, circuit, nets, waves, events.as_slice())
}

/// Writes the waves of a circuit's run as a value change dump: a variable for each input and each
/// gate's output, the settled levels under `#0`, and the changes of moment t under `#(t+1)`. A step
/// is the circuit's unit.
///
/// It fails where memory runs out, for the changes in their order or for the bytes gathered before
/// a write, or where the writer fails.
pub fn write<W: Sink>(
    alloc: Global,
    out: &mut W,
    circuit: &Circuit,
    run: &Run,
) -> Result<(), VcdFault>
    requires { IsRunFor circuit.now run.now }
    ensures written { OnOk result (Sent (W.output out.old) (W.output out.new) (dump_of circuit.now run.now)) }
    ensures refused { IfErr result (λ fault. IsRefused fault (W.output out.old) (W.output out.new) (dump_of circuit.now run.now)) }
{
    let nets = variable_nets(alloc, circuit)?;
    let nets = nets.as_slice();
    let waves = run_waves(alloc, run, nets)?;
    let waves = waves.as_slice();
    write_variables(alloc, out, circuit, nets, waves)
}

/// Writes the waves of the chosen nets as a value change dump, as `write` does those of all: a
/// variable for each of these nets, in their order.
pub fn write_chosen<W: Sink>(
    alloc: Global,
    out: &mut W,
    circuit: &Circuit,
    kept: &Kept,
    chosen: &[u32],
) -> Result<(), VcdFault>
    requires kept { IsKeptFor circuit.now kept.now }
    requires chosen { All (CanBeChosen kept.now) chosen.now }
    ensures written { OnOk result (Sent (W.output out.old) (W.output out.new)
        (chosen_dump circuit.now kept.now chosen.now)) }
    ensures refused { IfErr result (λ fault. IsRefused fault (W.output out.old) (W.output out.new)
        (chosen_dump circuit.now kept.now chosen.now)) }
{
    let waves = chosen_waves(alloc, kept, chosen)?;
    let waves = waves.as_slice();
    write_variables(alloc, out, circuit, chosen, waves)
}
