//! A circuit as the search reads it: gates in topological order, in flat vectors.

use std::alloc::{AllocError, Global};
use td_cdcl::{read, small, write_at};
use td_circuit::Circuit;
use td_gates::{Kind, Level};

/// A net by its number: 0 and 1 are the constants, then come the inputs, then the outputs of the
/// gates in topological order.
pub type Net = u32;

/// What a gate computes, before it inverts.
#[derive(Clone, Copy, Debug, PartialEq, Eq, Drop)]
pub enum Function {
    And,
    Or,
    Xor,
    Copy,
}

/// A gate, with the range of its inputs.
#[derive(Clone, Copy, Drop)]
pub struct Node {
    pub function: Function,
    pub inverts: bool,
    rise: u64,
    fall: u64,
    start: usize,
    end: usize,
}

/// The gates of a circuit.
#[derive(Drop)]
pub struct Network {
    nodes: Vec<Node>,
    fanins: Vec<Net>,
    inputs: usize,
    outputs: Vec<Net>,
    // The gates that lead to an output, by their places.
    cone: Vec<u32>,
    // By net.
    is_output: Vec<bool>,
    moments: Vec<u64>,
}

fn function_of(kind: Kind) -> Function {
    match kind {
        Kind::And | Kind::Nand => Function::And,
        Kind::Or | Kind::Nor => Function::Or,
        Kind::Xor | Kind::Xnor => Function::Xor,
        Kind::Buf | Kind::Not => Function::Copy,
    }
}

fn inverts(kind: Kind) -> bool {
    match kind {
        Kind::Nand | Kind::Nor | Kind::Xnor | Kind::Not => true,
        Kind::And | Kind::Or | Kind::Xor | Kind::Buf => false,
    }
}

impl Node {
    /// The level of an input that settles the output alone, if there is one.
    pub fn control(self) -> Option<bool> {
        match self.function {
            Function::And => Some(false),
            Function::Or => Some(true),
            Function::Xor | Function::Copy => None,
        }
    }

    /// The steps that a change to this level takes.
    #[inline(always)]
    pub fn delay_to(self, level: bool) -> u64 {
        if level { self.rise } else { self.fall }
    }

    /// Whether an input that changes to `input` can make the output change to `output`.
    #[inline(always)]
    pub fn leads(self, input: bool, output: bool) -> bool {
        match self.function {
            Function::Xor => true,
            _ => input == (output != self.inverts),
        }
    }

    /// Whether it has one input.
    pub fn is_unary(self) -> bool {
        match self.function {
            Function::Copy => true,
            _ => false,
        }
    }
}

impl Network {
    /// The gates of a circuit. The error is out of memory.
    pub fn new(alloc: Global, circuit: &Circuit) -> Result<Network, AllocError> {
        let mut nodes = Vec::with_capacity(alloc, circuit.gates().len())?;
        let mut fanins = Vec::new(alloc);
        for gate in circuit.gates() {
            let start = fanins.len();
            fanins.extend_from_slice(&gate.inputs)?;
            nodes.push(Node {
                function: function_of(gate.kind),
                inverts: inverts(gate.kind),
                rise: gate.delay.to(Level::One),
                fall: gate.delay.to(Level::Zero),
                start,
                end: fanins.len(),
            })?;
        }
        let mut is_output = vec![in alloc; false; circuit.net_count()]?;
        for output in circuit.outputs() {
            write_at(&mut is_output, *output as usize, true);
        }
        let mut network = Network {
            nodes,
            fanins,
            inputs: circuit.input_count(),
            outputs: Vec::from_slice(alloc, circuit.outputs())?,
            cone: Vec::new(alloc),
            is_output,
            moments: Vec::from_slice(alloc, circuit.moments())?,
        };
        network.cone = network.gates_below(alloc, &network.outputs)?;
        Ok(network)
    }

    /// By net whether one of these nets depends on it. The error is out of memory.
    pub fn nets_below(&self, alloc: Global, nets: &[Net]) -> Result<Vec<bool>, AllocError> {
        let mut below = vec![in alloc; false; self.nets()]?;
        let mut last = 0;
        for net in nets {
            write_at(&mut below, *net as usize, true);
            last = last.max(*net);
        }
        for member in (self.first_gate()..last.saturating_add(1)).rev() {
            if !read(&below, member as usize, false) {
                continue;
            }
            if let Some(node) = self.driver(member) {
                for fanin in self.fanins(node) {
                    write_at(&mut below, *fanin as usize, true);
                }
            }
        }
        Ok(below)
    }

    // The places of the gates on which one of these nets depends, in order. The error is out of
    // memory.
    fn gates_below(&self, alloc: Global, nets: &[Net]) -> Result<Vec<u32>, AllocError> {
        let below = self.nets_below(alloc, nets)?;
        let mut gates = Vec::new(alloc);
        for place in 0..self.nodes.len() {
            if read(&below, self.net_of_gate(place) as usize, false) {
                gates.push(small(place))?;
            }
        }
        Ok(gates)
    }

    /// The gates that lead to an output, by their places, in topological order.
    pub fn cone(&self) -> &[u32] {
        &self.cone
    }

    /// How many inputs there are.
    pub fn inputs(&self) -> usize {
        self.inputs
    }

    /// How many nets there are.
    pub fn nets(&self) -> usize {
        self.is_output.len()
    }

    /// The gates.
    pub fn nodes(&self) -> &[Node] {
        &self.nodes
    }

    /// The nets of the outputs.
    pub fn outputs(&self) -> &[Net] {
        &self.outputs
    }

    /// Whether a net is an output.
    pub fn is_output(&self, net: Net) -> bool {
        read(&self.is_output, net as usize, false)
    }

    /// The output of the first gate. All nets before it are constants and inputs.
    pub fn first_gate(&self) -> Net {
        small(self.inputs).saturating_add(2)
    }

    /// The net of an input.
    pub fn net_of_input(&self, input: usize) -> Net {
        small(input).saturating_add(2)
    }

    /// The output of a gate, by its place in topological order.
    pub fn net_of_gate(&self, place: usize) -> Net {
        self.first_gate().saturating_add(small(place))
    }

    /// The place of the gate that drives a net, if one does.
    pub fn place_of(&self, net: Net) -> Option<usize> {
        let place = net.checked_sub(self.first_gate())? as usize;
        if place < self.nodes.len() {
            Some(place)
        } else {
            None
        }
    }

    /// The gate that drives a net, if one does.
    #[inline(always)]
    pub fn driver(&self, net: Net) -> Option<Node> {
        let place = net.checked_sub(self.first_gate())? as usize;
        self.nodes.get(place).copied()
    }

    /// The input whose net this is, if it is one's.
    pub fn input_of(&self, net: Net) -> Option<usize> {
        let input = net.checked_sub(2)? as usize;
        if input < self.inputs {
            Some(input)
        } else {
            None
        }
    }

    /// The nets that a gate reads.
    #[inline(always)]
    pub fn fanins(&self, node: Node) -> &[Net] {
        match self.fanins.get(node.start..node.end) {
            Some(own) => own,
            None => &[],
        }
    }

    /// Whether a net is contracted in a search: the output of a gate with one input that is no
    /// constant, and no output of the circuit.
    pub fn is_thin(&self, net: Net) -> bool {
        match self.driver(net) {
            Some(node) => {
                node.is_unary() && !self.is_output(net) && read(self.fanins(node), 0, 0) > 1
            }
            None => false,
        }
    }

    /// The moment at which an input takes its second bit.
    pub fn moment(&self, input: usize) -> u64 {
        read(&self.moments, input, 0)
    }
}
