//! `tdelay`: worst transition delay of a netlist of Verilog gate primitives.
#![tactic(auto)]

use std::env::Env;
use std::io::IsTerminal;
use std::process::ExitCode;
use std::{env, io};
use td_cli::{System, explain_words, program, refuse_words};
use td_files::{ReadFault, RealFiles, WriterSink};
use td_terminal::InPlace;

/// Whether the terminal knows codes that move its cursor.
fn knows_codes<R: Env + Alloc>(rt: &R) -> bool {
    match env::var(rt, "TERM") {
        Ok(term) => term.as_str() != "dumb",
        Err(_) => false,
    }
}

/// Whether the environment asks for hints.
fn asks_for_hints<R: Env + Alloc>(rt: &R) -> bool {
    match env::var(rt, "TDELAY_HINTS") {
        Ok(value) => value.as_str() == "1",
        Err(_) => false,
    }
}

fn main(rt: HostRuntime) -> ExitCode {
    let alloc = rt.alloc();
    let terminal = rt.stderr().is_terminal();
    let hints = terminal || asks_for_hints(&rt);
    let mut files = RealFiles::new(&rt);
    let mut out = WriterSink::new(rt.stdout());
    let mut err = InPlace::new(WriterSink::new(rt.stderr()), terminal && knows_codes(&rt));
    let words: io::Result<Vec<String>> = match env::args(&rt) {
        Ok(words) => words.collect(alloc).map_err(io::Error::from),
        Err(error) => Err(error),
    };
    let status = match words {
        Ok(words) => {
            let words = words.as_slice();
            let system = System::new(&rt, hints);
            program(&rt, alloc, words, &mut files, &mut out, &mut err, &system)
        }
        Err(error) => {
            let status = refuse_words(ReadFault::from(error), &mut err);
            explain_words(&rt, alloc, hints, &mut err);
            status
        }
    };
    ExitCode::from(status.code())
}
