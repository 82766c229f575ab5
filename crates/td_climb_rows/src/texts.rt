//! Texts of netlists that follow from numbers.

use std::alloc::{AllocError, Global};

/// The number that follows from another one.
pub fn next(seed: u64) -> u64 {
    seed.wrapping_mul(6364136223846793005)
        .wrapping_add(1442695040888963407)
}

/// A number below another one that follows from a number.
pub fn random(seed: u64, below: u64) -> u64 {
    (seed >> 33) % below.max(1)
}

/// How many inputs and gates a netlist has, and by how much its delays of 1 to 9 steps are
/// multiplied.
#[derive(Clone, Copy)]
pub struct Size {
    pub inputs: u64,
    pub gates: u64,
    pub scale: u64,
}

/// The keyword of a kind.
fn keyword(number: u64) -> &'static str {
    match number {
        0 => "and",
        1 => "nand",
        2 => "or",
        3 => "nor",
        4 => "xor",
        5 => "xnor",
        6 => "buf",
        _ => "not",
    }
}

/// How many terminals a gate of this kind reads: mostly one to three, now and then some twenty.
fn terminals(kind: u64, seed: u64) -> u64 {
    if kind >= 6 {
        return 1;
    }
    match random(seed, 16) {
        0 => random(next(seed), 20).saturating_add(4),
        number => (number % 3).saturating_add(1),
    }
}

/// A terminal that reads one of `nets` nets, or now and then a constant.
fn terminal(alloc: Global, nets: u64, seed: u64) -> Result<String, AllocError> {
    match random(seed, 24) {
        0 => Ok(format!(in alloc; ",1'b0")?),
        1 => Ok(format!(in alloc; ",1'b1")?),
        _ => {
            let net = random(next(seed), nets);
            Ok(format!(in alloc; ",w{net}")?)
        }
    }
}

/// A gate whose output is the net of this number. It reads nets before its own, the one just before
/// among them.
fn gate_text(alloc: Global, place: u64, scale: u64, seed: u64) -> Result<String, AllocError> {
    let kind = random(seed, 8);
    let keyword = keyword(kind);
    let rise = random(next(seed), 9)
        .saturating_add(1)
        .saturating_mul(scale);
    let fall = random(next(next(seed)), 9)
        .saturating_add(1)
        .saturating_mul(scale);
    let before = place.saturating_sub(1);
    let mut text = format!(in alloc; "{keyword} #({rise},{fall}) (w{place},w{before}")?;
    let mut seed = next(seed ^ 5);
    for _ in 1..terminals(kind, seed) {
        seed = next(next(seed));
        text.push_str(&terminal(alloc, place, seed)?)?;
    }
    text.push_str(");\n")?;
    Ok(text)
}

/// The names of `count` nets from a first one on.
fn names(alloc: Global, first: u64, count: u64) -> Result<String, AllocError> {
    let mut text = format!(in alloc; "w{first}")?;
    for place in 1..count {
        let net = first.saturating_add(place);
        text.push_str(&format!(in alloc; ",w{net}")?)?;
    }
    Ok(text)
}

/// The text of a module of this size. Its outputs are the last three gates, or the last one where
/// there are fewer.
pub fn netlist_text(alloc: Global, size: Size, seed: u64) -> Result<String, AllocError> {
    let inputs = names(alloc, 0, size.inputs)?;
    let end = size.inputs.saturating_add(size.gates);
    let count = if size.gates < 3 { 1 } else { 3 };
    let outputs = names(alloc, end.saturating_sub(count), count)?;
    let mut text = format!(in alloc;
        "module t ({inputs}, {outputs});\ninput {inputs};\noutput {outputs};\n"
    )?;
    let mut seed = next(seed);
    for gate in 0..size.gates {
        seed = next(seed);
        let place = size.inputs.saturating_add(gate);
        text.push_str(&gate_text(alloc, place, size.scale, seed)?)?;
    }
    text.push_str("endmodule\n")?;
    Ok(text)
}
