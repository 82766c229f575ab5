//! Texts of small netlists.

use std::alloc::{AllocError, Global};

/// A circuit of six gates.
pub const C17: &str = "module c17 (N1,N2,N3,N6,N7,N22,N23);
input N1,N2,N3,N6,N7;
output N22,N23;
nand (N10,N1,N3);
nand (N11,N3,N6);
nand (N16,N2,N11);
nand (N19,N11,N7);
nand (N22,N10,N16);
nand (N23,N16,N19);
endmodule
";

/// The text of a module `t` with these inputs, outputs and gates.
pub fn module(
    alloc: Global,
    inputs: &str,
    outputs: &str,
    gates: &str,
) -> Result<String, AllocError> {
    Ok(format!(in alloc;
        "module t ({inputs}, {outputs});\ninput {inputs};\noutput {outputs};\n{gates}\nendmodule\n"
    )?)
}

/// The number that follows from another one.
pub fn next(seed: u64) -> u64 {
    seed.wrapping_mul(6364136223846793005)
        .wrapping_add(1442695040888963407)
}

/// A number below another one that follows from a number.
pub fn random(seed: u64, below: u64) -> u64 {
    (seed >> 33) % below.max(1)
}

/// The keyword of a kind of gates that take two inputs.
fn keyword(number: u64) -> &'static str {
    match number {
        0 => "and",
        1 => "nand",
        2 => "or",
        3 => "nor",
        4 => "xor",
        _ => "xnor",
    }
}

/// A gate whose output is the net of this number. It reads the net before and, where it takes two
/// inputs, one of all before.
fn gate_text(alloc: Global, place: u64, seed: u64) -> Result<String, AllocError> {
    let rises = next(seed);
    let falls = next(rises);
    let reads = next(falls);
    let rise = random(rises, 4).saturating_add(1);
    let fall = random(falls, 4).saturating_add(1);
    let before = place.saturating_sub(1);
    let other = random(reads, place);
    match random(seed, 8) {
        6 => Ok(format!(in alloc; "buf #({rise},{fall}) (w{place},w{before});\n")?),
        7 => Ok(format!(in alloc; "not #({rise},{fall}) (w{place},w{before});\n")?),
        kind => {
            let keyword = keyword(kind);
            Ok(format!(in alloc; "{keyword} #({rise},{fall}) (w{place},w{before},w{other});\n")?)
        }
    }
}

/// The text of a module with `inputs` inputs, from 1 to 3, and `gates` gates. Each gate reads the
/// net before its own. The module's output is the last gate's.
pub fn generated_text(
    alloc: Global,
    inputs: u64,
    gates: u64,
    seed: u64,
) -> Result<String, AllocError> {
    let names = match inputs {
        1 => "w0",
        2 => "w0,w1",
        _ => "w0,w1,w2",
    };
    let last = inputs.saturating_add(gates).saturating_sub(1);
    let mut text = String::new(alloc);
    let mut seed = next(seed);
    for gate in 0..gates {
        let place = inputs.saturating_add(gate);
        text.push_str(&gate_text(alloc, place, seed)?)?;
        seed = next(next(next(next(seed))));
    }
    let output = format!(in alloc; "w{last}")?;
    module(alloc, names, &output, &text)
}

/// The text of a module whose changes double from level to level once its first input changes: each
/// level is an xor of the level before and a delayed copy of it, whose delays halve. The second
/// input has a buffer of delay 3.
pub fn doubling_text(alloc: Global, levels: u32) -> Result<String, AllocError> {
    let mut delay = 1u64;
    for _ in 0..levels {
        delay = delay.saturating_mul(2);
    }
    let mut text = format!(in alloc; "buf #3 (z,b);\n")?;
    for level in 0..levels {
        let next = level.saturating_add(1);
        text.push_str(&format!(in alloc;
            "buf #{delay} (c{level},x{level});\nxor #1 (x{next},x{level},c{level});\n"
        )?)?;
        delay /= 2;
    }
    let outputs = format!(in alloc; "x{levels},z")?;
    module(alloc, "x0,b", &outputs, &text)
}
