//! A run that keeps the waves of chosen nets only, and of each net the moment of its last change.

ghost use Rattle.std.specs.Prelude.{◌≡◌, ℕ, ◌<◌, ◌≤◌, length, map, slice_get, slice_index_or};
ghost use Rattle.std.specs.Prelude.{true, Some, IfOk, IfSome, IfNone};
ghost use Rattle.std.specs.List.{All};
ghost use Rattle.td_gates.specs.Wave.{Wave as WaveModel, last};
ghost use Rattle.td_nets.specs.Netlist.{Net};
ghost use Rattle.td_circuit.specs.Numbering.{nets, setting, IsNumbering};
ghost use Rattle.td_circuit.specs.Run.{Runs};
ghost use Rattle.td_circuit.specs.Settings.{AreMoments};
ghost use Rattle.td_run.specs.Waves.{AreWithin};
ghost use Rattle.td_run.specs.Keeping.{first_end, IsKeptOf, AreEnds, AreLater, HasLeft, IsLeftUpTo};

use crate::run::{first_waves, next_wave};
use crate::wave::Wave;
use std::alloc::{AllocError, Global};
use std::marker::Model;
use td_circuit::Circuit;
use td_gates::Level;
use td_stop::Stop;

/// Puts off the ends of these nets until so many gates are evaluated.
fn put_off(ends: &mut [usize], nets: &[u32], evaluated: usize)
    requires { All (λ net. net < length ends.old) nets.now }
    ensures count { length ends.new ≡ length ends.old }
    ensures later { (net : ℕ) → slice_index_or ends.old net 0 ≤ slice_index_or ends.new net 0 }
    ensures these { All (λ net. evaluated ≤ slice_index_or ends.new net 0) nets.now }
{
    for net in nets {
        let place = *net as usize;
        ends[place] = ends[place].max(evaluated);
    }
}

/// The end of a net that no gate reads: a wanted net's wave stays, past all of these gates.
fn first_end(is_wanted: bool, gates: usize) -> usize
    requires { gates ≤ 200000 }
    ensures { result ≡ first_end gates is_wanted }
{
    if is_wanted { gates + 1 } else { 0 }
}

/// The ends of nets that no gate reads, by number.
fn first_ends(alloc: Global, wanted: &[bool], gates: usize) -> Result<Vec<usize>, AllocError>
    requires { gates ≤ 200000 }
    ensures { IfOk result (λ ends. ends.items ≡ map (first_end gates) wanted.now) }
{
    let mut ends = Vec::new(alloc);
    for is_wanted in wanted {
        ends.push(first_end(*is_wanted, gates))?;
    }
    Ok(ends)
}

/// For each net, by number, how many gates are evaluated before its wave may be dropped: all that
/// read it, and where it is wanted more than there are.
fn ends_of(alloc: Global, circuit: &Circuit, wanted: &[bool]) -> Result<Vec<usize>, AllocError>
    requires { length wanted.now ≡ length (nets circuit.now) }
    ensures ends { IfOk result (λ ends. AreEnds circuit.now ends.items) }
    ensures wanted { IfOk result (λ ends.
        AreLater wanted.now (length circuit.now.gates) ends.items) }
{
    let gates = circuit.gates();
    let mut ends = first_ends(alloc, wanted, gates.len())?;
    for (place, gate) in gates.iter().enumerate() {
        put_off(&mut ends, &gate.inputs, place + 1);
    }
    Ok(ends)
}

/// Drops the wave of a net, if it may be dropped after so many gates. A wave without a change then
/// stands in its place.
fn drop_wave(alloc: Global, waves: &mut [Wave], ends: &[usize], net: usize, evaluated: usize)
    requires wave { net < length waves.old }
    requires end { net < length ends.now }
    ensures { HasLeft ends.now evaluated waves.old waves.new }
{
    if ends[net] > evaluated {
        return;
    }
    waves[net] = Wave::from_changes(Level::X, Vec::new(alloc));
}

/// Drops the waves of these nets that may be dropped after so many gates.
fn drop_waves(alloc: Global, waves: &mut [Wave], ends: &[usize], nets: &[u32], evaluated: usize)
    requires waves { All (λ net. net < length waves.old) nets.now }
    requires ends { length waves.old ≤ length ends.now }
    ensures { HasLeft ends.now evaluated waves.old waves.new }
{
    for net in nets {
        drop_wave(alloc, waves, ends, *net as usize, evaluated);
    }
}

/// The moments of the last changes of waves.
fn last_moments(alloc: Global, waves: &[Wave]) -> Result<Vec<Option<u64>>, AllocError>
    ensures { IfOk result (λ lasts. lasts.items ≡ map last waves.now) }
{
    let mut lasts = Vec::new(alloc);
    for wave in waves {
        lasts.push(wave.last())?;
    }
    Ok(lasts)
}

/// What is left of a run's waves, and the moments of all their last changes.
#[derive(Drop)]
struct Left {
    waves: Vec<Wave>,
    lasts: Vec<Option<u64>>,
}

/// Evaluates the gates in order, and drops each wave after the last gate that needs it. There is
/// nothing where the stop is set meanwhile.
fn evaluate(
    alloc: Global,
    circuit: &Circuit,
    first: &[Level],
    second: &[Level],
    ends: &[usize],
    stop: &Stop,
) -> Result<Option<Left>, AllocError>
    requires first_fits { length first.now ≡ length circuit.now.netlist.inputs }
    requires second_fits { length second.now ≡ length circuit.now.netlist.inputs }
    requires ends { AreEnds circuit.now ends.now }
    ensures left { IfOk result (λ left. IfSome left (λ left. IsLeftUpTo circuit.now first.now
        second.now ends.now (length circuit.now.gates) left.waves.items left.lasts.items)) }
    ensures stopped { IfOk result (λ left. IfNone left (stop.now.can_be_set ≡ true)) }
    ensures numbering { IsNumbering circuit.now }
    ensures fit { AreMoments circuit.now.netlist circuit.now.moments }
{
    let gates = circuit.gates();
    let moments = circuit.moments();
    let mut waves = first_waves(alloc, first, second, moments)?;
    let mut lasts = last_moments(alloc, &waves)?;
    for (place, gate) in gates.iter().enumerate() {
        if stop.is_set() {
            return Ok(None);
        }
        let wave = next_wave(alloc, circuit, place, &waves)?;
        lasts.push(wave.last())?;
        let net = waves.len();
        waves.push(wave)?;
        drop_waves(alloc, &mut waves, ends, &gate.inputs, place + 1);
        drop_wave(alloc, &mut waves, ends, net, place + 1);
    }
    Ok(Some(Left { waves, lasts }))
}

/// What is kept of a run: the waves of the wanted nets, and the moment of each net's last change.
#[derive(Drop)]
pub struct Kept {
    waves: Vec<Wave>,
    wanted: Vec<bool>,
    lasts: Vec<Option<u64>>,
}

impl Model for Kept {
    ghost use Rattle.std.specs.Prelude.{◌≡◌, length};
    ghost use Rattle.td_run.specs.Keeping.{KeptWaves, wanted_waves};

    ghost Value = { KeptWaves };

    ghost view = { λ inside. record {
      waves = wanted_waves inside.wanted.items inside.waves.items;
      lasts = inside.lasts.items;
    } };

    ghost invariant = { λ inside. length inside.waves.items ≡ length inside.wanted.items };
}

impl Kept {
    ghost use Rattle.std.specs.Option.{option_map};

    /// The wave of the net with this number, if it is wanted.
    pub fn wave(&self, net: u32) -> Option<&Wave>
        requires { net < length self.now.waves }
        ensures { slice_get self.now.waves net ≡ Some (option_map (λ wave. wave.now) result) }
    {
        if self.wanted[net as usize] {
            Some(&self.waves[net as usize])
        } else {
            None
        }
    }

    /// The moment of the last change of the net with this number.
    pub fn last(&self, net: u32) -> Option<u64>
        requires { net < length self.now.lasts }
        ensures { slice_get self.now.lasts net ≡ Some result }
    {
        self.lasts[net as usize]
    }
}

/// The run of a circuit that is settled under the first vector, and whose inputs take their levels
/// of the second at their moments: the waves of the nets that are wanted, by number, and the moment
/// of each net's last change. There is nothing where the stop is set meanwhile: it is looked at
/// before each gate.
///
/// The wave of another net is dropped after the last gate that reads it. So the memory is that of
/// the wanted waves, and of those that the gates still to come read. The error is out of memory.
pub fn kept_waves(
    alloc: Global,
    circuit: &Circuit,
    first: &[Level],
    second: &[Level],
    wanted: &[bool],
    stop: &Stop,
) -> Result<Option<Kept>, AllocError>
    requires first_fits { length first.now ≡ length circuit.now.netlist.inputs }
    requires second_fits { length second.now ≡ length circuit.now.netlist.inputs }
    requires wanted { length wanted.now ≡ length (nets circuit.now) }

    // There is a run of which this is kept, and it is what each run would leave.
    ensures runs { IfOk result (λ kept. IfSome kept (λ kept. (waves : Net → WaveModel)
        × Runs (setting circuit.now) first.now second.now waves
        × IsKeptOf (nets circuit.now) waves wanted.now kept)) }
    ensures only { IfOk result (λ kept. IfSome kept (λ kept. (other : Net → WaveModel)
        → Runs (setting circuit.now) first.now second.now other
        → IsKeptOf (nets circuit.now) other wanted.now kept)) }

    // No change is later than any run's may be.
    ensures small { IfOk result (λ kept. IfSome kept (λ kept. (net : ℕ) (wave : WaveModel)
        → slice_get kept.waves net ≡ Some (Some wave) → AreWithin 200001000000000 wave.changes)) }
    ensures count { IfOk result (λ kept. IfSome kept (λ kept.
        length kept.waves ≡ length (nets circuit.now))) }
    ensures lasts_count { IfOk result (λ kept. IfSome kept (λ kept.
        length kept.lasts ≡ length (nets circuit.now))) }
    ensures stopped { IfOk result (λ kept. IfNone kept (stop.now.can_be_set ≡ true)) }
{
    let ends = ends_of(alloc, circuit, wanted)?;
    let Some(left) = evaluate(alloc, circuit, first, second, &ends, stop)? else {
        return Ok(None);
    };
    let mut own = Vec::new(alloc);
    own.extend_from_slice(wanted)?;
    Ok(Some(Kept {
        waves: left.waves,
        wanted: own,
        lasts: left.lasts,
    }))
}
