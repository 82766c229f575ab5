//! The position at which a cube is split.

ghost use Rattle.std.specs.Prelude.{◌≡◌, ◌+◌, ◌*◌, ◌<◌, ◌≤◌, ◌^◌, length, slice_get, Some, IfOk, IfSome, MatchOption};
ghost use Rattle.std.specs.List.{All};
ghost use Rattle.td_circuit.specs.Numbering.{nets};
ghost use Rattle.td_domain.specs.declared.cubes.Trit.TheVariants.{Free};
ghost use Rattle.td_domain.specs.Cubes.{IsPoint};

use std::alloc::{AllocError, Global};
use std::marker::Model;
use td_circuit::Circuit;
use td_domain::{Cube, Trit};
use td_edges::Signal;
use td_gates::Level;

/// How many inputs are followed at a time.
const BATCH: usize = 64;

/// How many binary digits count the nets of a circuit, which has less than 2^18.
const DIGITS: usize = 18;

/// By the numbers of a circuit's nets, which of them may make an output change, and which inputs
/// reach them. Its room is used again for each cube.
#[derive(Drop)]
pub struct FanIn {
    /// Whether changes of the net may make the output change.
    feeds: Vec<bool>,
    /// A bit for each of some inputs that reach the net.
    reached: Vec<u64>,
}

impl Model for FanIn {
    ghost use Rattle.std.specs.Prelude.{◌≡◌, ℕ, length};

    ghost Value = { ℕ };

    ghost view = { λ fan_in. length fan_in.feeds.items };

    ghost invariant = { λ fan_in. length fan_in.reached.items ≡ length fan_in.feeds.items };
}

impl FanIn {
    /// Room for the nets of a circuit. The error is out of memory.
    pub fn new(alloc: Global, circuit: &Circuit) -> Result<Self, AllocError>
        ensures { IfOk result (λ fan_in. fan_in ≡ length (nets circuit.now)) }
    {
        let nets = circuit.net_count();
        Ok(FanIn {
            feeds: vec![in alloc; false; nets]?,
            reached: vec![in alloc; 0; nets]?,
        })
    }

    /// The position at which to split a cube, by the signals of its nets and the output that is
    /// late: of the inputs whose second bit is free and whose changes may reach the output, the one
    /// that reaches the most nets on the way, the least of several. Else by the first bits
    /// likewise, and else the least free position. `None` where none is free.
    ///
    /// Nets are on the way to the output where they may change and, while the output's finish isn't
    /// known, their own isn't either.
    pub fn position(
        &mut self,
        circuit: &Circuit,
        signals: &[Signal],
        cube: &Cube,
        output: u32,
    ) -> Option<usize>
        requires fan_in { self.old ≡ length (nets circuit.now) }
        requires signals { length signals.now ≡ length (nets circuit.now) }
        requires positions { length cube.now ≡ 2 * length circuit.now.netlist.inputs }
        requires output { output < length (nets circuit.now) }
        ensures position { MatchOption result (IsPoint cube.now) (λ position. slice_get cube.now position ≡ Some Free) }
        ensures fan_in { self.new ≡ self.old }
    {
        position(
            &mut self.feeds,
            &mut self.reached,
            circuit,
            signals,
            cube,
            output as usize,
        )
    }
}

/// The position at which to split a cube.
fn position(
    feeds: &mut [bool],
    reached: &mut [u64],
    circuit: &Circuit,
    signals: &[Signal],
    cube: &Cube,
    output: usize,
) -> Option<usize>
    requires feeds { length feeds.old ≡ length (nets circuit.now) }
    requires reached { length reached.old ≡ length (nets circuit.now) }
    requires signals { length signals.now ≡ length (nets circuit.now) }
    requires positions { length cube.now ≡ 2 * length circuit.now.netlist.inputs }
    requires output { output < length (nets circuit.now) }
    ensures position { MatchOption result (IsPoint cube.now) (λ position. slice_get cube.now position ≡ Some Free) }
    ensures feeds { length feeds.new ≡ length feeds.old }
    ensures reached { length reached.new ≡ length reached.old }
{
    walk_back(feeds, circuit, signals, output);
    for half in [1, 0] {
        let found = widest(reached, feeds, circuit, cube, output, half);
        if found.is_some() {
            return found;
        }
    }
    cube.least_free()
}

/// Whether a net's changes may reach an output that it leads to.
fn may_pass(signal: &Signal, is_open: bool) -> bool {
    signal.changes.is_some() && (!is_open || signal.finish == Level::X)
}

/// Finds the nets whose changes may reach an output.
fn walk_back(feeds: &mut [bool], circuit: &Circuit, signals: &[Signal], output: usize)
    requires feeds { length feeds.old ≡ length (nets circuit.now) }
    requires signals { length signals.now ≡ length (nets circuit.now) }
    requires output { output < length (nets circuit.now) }
    ensures { length feeds.new ≡ length feeds.old }
{
    let gates = circuit.gates();
    let first = circuit.first_gate() as usize;
    let is_open = signals[output].finish == Level::X;
    feeds.fill(false);
    feeds[output] = may_pass(&signals[output], is_open);
    for net in (first..output + 1).rev() {
        if feeds[net] {
            feed(feeds, signals, &gates[net - first].inputs, is_open);
        }
    }
}

/// The changes of these nets may reach the output too, if they pass.
fn feed(feeds: &mut [bool], signals: &[Signal], inputs: &[u32], is_open: bool)
    requires signals { length signals.now ≡ length feeds.old }
    requires inputs { All (λ net. net < length feeds.old) inputs.now }
    ensures { length feeds.new ≡ length feeds.old }
{
    for net in inputs {
        let net = *net as usize;
        if may_pass(&signals[net], is_open) {
            feeds[net] = true;
        }
    }
}

/// Of the inputs whose bit of this half is free and whose changes may reach the output, the
/// position of the one that reaches the most nets on the way.
fn widest(
    reached: &mut [u64],
    feeds: &[bool],
    circuit: &Circuit,
    cube: &Cube,
    output: usize,
    half: usize,
) -> Option<usize>
    requires feeds { length feeds.now ≡ length (nets circuit.now) }
    requires reached { length reached.old ≡ length (nets circuit.now) }
    requires positions { length cube.now ≡ 2 * length circuit.now.netlist.inputs }
    requires output { output < length (nets circuit.now) }
    requires half { half ≤ 1 }
    ensures free { IfSome result (λ position. slice_get cube.now position ≡ Some Free) }
    ensures reached { length reached.new ≡ length reached.old }
{
    // For the prover: this call says that the gates are in order.
    let _numbering = circuit.gates();
    let inputs = circuit.input_count();
    let mut most = 0;
    let mut position = None;
    let mut digits = [0; DIGITS];
    for input in 0..inputs {
        let place = input % BATCH;
        if place == 0 {
            digits = spread(reached, feeds, circuit, cube, output, half, input);
        }
        let net = circuit.net_of_input(input) as usize;
        if feeds[net] && cube.trit(2 * input + half) == Trit::Free {
            let count = count_at(&digits, place);
            if position.is_none() || count > most {
                most = count;
                position = Some(2 * input + half);
            }
        }
    }
    position
}

/// Finds which inputs of a batch reach the nets on the way to an output, and answers how many nets
/// each reaches: the digits of the number of the batch's input `k` are the bits `k`, the least
/// first.
fn spread(
    reached: &mut [u64],
    feeds: &[bool],
    circuit: &Circuit,
    cube: &Cube,
    output: usize,
    half: usize,
    start: usize,
) -> [u64; DIGITS]
    requires feeds { length feeds.now ≡ length (nets circuit.now) }
    requires reached { length reached.old ≡ length (nets circuit.now) }
    requires positions { length cube.now ≡ 2 * length circuit.now.netlist.inputs }
    requires output { output < length (nets circuit.now) }
    requires half { half ≤ 1 }
    ensures { length reached.new ≡ length reached.old }
{
    let gates = circuit.gates();
    let inputs = circuit.input_count();
    let first = circuit.first_gate() as usize;
    let mut digits = [0; DIGITS];
    let mut is_any = false;
    for input in 0..inputs {
        let net = circuit.net_of_input(input) as usize;
        let is_followed = feeds[net] && cube.trit(2 * input + half) == Trit::Free;
        reached[net] = if is_followed && start <= input && input - start < BATCH {
            is_any = true;
            1 << (input - start)
        } else {
            0
        };
    }
    if !is_any {
        return digits;
    }
    for net in first..output + 1 {
        reached[net] = if feeds[net] {
            union(reached, &gates[net - first].inputs)
        } else {
            0
        };
        add(&mut digits, reached[net]);
    }
    digits
}

/// The inputs that reach one of these nets.
fn union(reached: &[u64], nets: &[u32]) -> u64
    requires { All (λ net. net < length reached.now) nets.now }
{
    let mut all = 0;
    for net in nets {
        all |= reached[*net as usize];
    }
    all
}

/// Counts one more for each of these inputs.
fn add(digits: &mut [u64], inputs: u64)
    ensures { length digits.new ≡ length digits.old }
{
    let mut carried = inputs;
    for digit in digits {
        if carried == 0 {
            break;
        }
        let both = *digit & carried;
        *digit ^= carried;
        carried = both;
    }
}

/// The count of an input.
fn count_at(digits: &[u64], place: usize) -> u64
    requires { place < 64 }
{
    let mut count = 0;
    for digit in digits.iter().rev() {
        count = (count << 1) | ((*digit >> place) & 1);
    }
    count
}
