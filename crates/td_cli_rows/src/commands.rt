//! The program on files in memory.

use std::test::*;
use td_cli::{run, run_plain};
use td_files::MemoryFiles;
use td_text::MemorySink;

/// How many bytes a stream takes.
const ROOM: usize = 1 << 16;

const INVERTER: &[u8] = b"module t(a, y);\ninput a;\noutput y;\nnot #(2,3) g(y,a);\nendmodule\n";

/// What the search for the inverter's worst delay writes.
const CERTIFICATE: &[u8] = b"tdelay-cert 1\ncircuit 1 1\ntime 3\nfrom 0\nto 1\nb a 3\n";

const FILES: [(&str, &[u8]); 3] = [
    ("inverter.v", INVERTER),
    ("inverter.cert", CERTIFICATE),
    ("cut.v", b"module t(a, y);\n"),
];

/// What a run of the program wrote, and how it ended.
#[derive(Drop)]
struct Ran {
    code: u8,
    out: MemorySink,
    err: MemorySink,
}

/// A run of the program that has no search.
fn run_of(rt: &HostRuntime, words: &[&str]) -> Result<Ran, Fail> {
    let alloc = rt.alloc();
    let mut files = MemoryFiles::new(alloc, &FILES);
    let mut out = MemorySink::new(alloc, ROOM, 7)?;
    let mut err = MemorySink::new(alloc, ROOM, 7)?;
    let code = match run_plain(alloc, words, &mut files, &mut out, &mut err) {
        Some(status) => status.code(),
        None => 99,
    };
    Ok(Ran { code, out, err })
}

/// The three forms of a report.
#[test]
fn prints_in_its_form(rt: HostRuntime) -> Result<(), Fail> {
    let text = run_of(&rt, &["tdelay", "sim", "inverter.v", "0", "1"])?;
    assert_eq!(rt; text.code, 0);
    assert_eq!(rt;
        text.out.bytes(),
        b"unit 1 ns\ndefaulted 0\nlast y 3\ntime 3\n".as_slice()
    );
    let json = run_of(&rt, &["tdelay", "sim", "inverter.v", "0", "1", "--json"])?;
    let wanted = b"{\"proved\":true,\"command\":\"sim\",\"file\":\"inverter.v\",\
\"question\":{\"default\":{\"rise\":1,\"fall\":1},\"output\":[],\"from\":\"0\",\"to\":\"1\",\"named\":[]},\
\"unit\":\"1 ns\",\"defaulted\":0,\"last\":[{\"output\":\"y\",\"time\":3}],\"time\":3}\n";
    assert_eq!(rt; json.out.bytes(), wanted.as_slice());
    let quiet = run_of(&rt, &["tdelay", "sim", "inverter.v", "0", "1", "-q"])?;
    assert_eq!(rt; quiet.code, 0);
    assert!(rt; quiet.out.bytes().is_empty());
    Ok(())
}

/// Where JSON is asked for, an object says why a request is refused.
#[test]
fn prints_an_error_as_json(rt: HostRuntime) -> Result<(), Fail> {
    let refused = run_of(&rt, &["tdelay", "sim", "inverter.v", "00", "1", "--json"])?;
    assert_eq!(rt; refused.code, 2);
    let front = b"{\"proved\":true,\"command\":\"sim\",\"file\":\"inverter.v\",\
\"question\":{\"default\":{\"rise\":1,\"fall\":1},\"output\":[],\"from\":\"00\",\"to\":\"1\",\"named\":[]},\
\"error\":{\"kind\":\"command\",\"message\":\"bad vector FROM\",\"hint\":\"";
    assert!(rt; refused.out.bytes().starts_with(front));
    assert!(rt; refused.out.bytes().ends_with(b"\"},\"status\":2}\n"));
    assert_eq!(rt;
        refused.err.bytes(),
        b"tdelay: bad vector FROM\n".as_slice()
    );
    Ok(())
}

/// A certificate is accepted of its own netlist, and a file of another kind is no certificate.
#[test]
fn checks_a_certificate(rt: HostRuntime) -> Result<(), Fail> {
    let right = run_of(&rt, &["tdelay", "check", "inverter.v", "inverter.cert"])?;
    assert_eq!(rt; right.out.bytes(), b"accepted 3\n".as_slice());
    assert_eq!(rt; right.code, 0);
    let wrong = run_of(&rt, &["tdelay", "check", "inverter.v", "inverter.v"])?;
    assert_eq!(rt; wrong.code, 1);
    assert!(rt; wrong.out.bytes().is_empty());
    Ok(())
}

/// What is wrong is said on standard error, and nothing goes out.
#[test]
fn says_what_is_wrong(rt: HostRuntime) -> Result<(), Fail> {
    let cut = run_of(&rt, &["tdelay", "info", "cut.v"])?;
    assert_eq!(rt; cut.code, 1);
    assert_eq!(rt;
        cut.err.bytes(),
        b"tdelay: netlist fault 2 UnexpectedEnd at line 2\n".as_slice()
    );
    assert!(rt; cut.out.bytes().is_empty());
    let absent = run_of(&rt, &["tdelay", "info", "absent.v"])?;
    assert_eq!(rt; absent.code, 5);
    assert_eq!(rt;
        absent.err.bytes(),
        b"tdelay: cannot read absent.v\n".as_slice()
    );
    let over = run_of(
        &rt,
        &[
            "tdelay",
            "sim",
            "inverter.v",
            "0",
            "1",
            "--vcd",
            "inverter.v",
        ],
    )?;
    assert_eq!(rt; over.code, 2);
    assert_eq!(rt;
        over.err.bytes(),
        b"tdelay: inverter.v is inverter.v\n".as_slice()
    );
    Ok(())
}

/// Names are resolved on the circuit that answers.
#[test]
fn takes_inputs_by_name(rt: HostRuntime) -> Result<(), Fail> {
    let named = run_of(&rt, &["tdelay", "bound", "inverter.v", "--pin", "a=1"])?;
    let placed = run_of(
        &rt,
        &[
            "tdelay",
            "bound",
            "inverter.v",
            "--first",
            "1",
            "--second",
            "1",
        ],
    )?;
    assert_eq!(rt; named.code, 0);
    assert_eq!(rt; named.out.bytes(), placed.out.bytes());
    let unknown = run_of(&rt, &["tdelay", "bound", "inverter.v", "--pin", "b=1"])?;
    assert_eq!(rt; unknown.code, 2);
    assert_eq!(rt; unknown.err.bytes(), b"tdelay: no input b\n".as_slice());
    Ok(())
}

/// A search needs threads, and ends with status 0 where its figure is exact.
#[test]
fn searches(rt: HostRuntime) -> Result<(), Fail> {
    let alloc = rt.alloc();
    let words = ["tdelay", "worst", "inverter.v"];
    assert_eq!(rt; run_of(&rt, &words)?.code, 99);
    let mut files = MemoryFiles::new(alloc, &FILES);
    let mut out = MemorySink::new(alloc, ROOM, 7)?;
    let mut err = MemorySink::new(alloc, ROOM, 7)?;
    let status = run(&rt, alloc, &words, &mut files, &mut out, &mut err);
    let wanted = b"unit 1 ns\ndefaulted 0\nexact 3\nfrom 0\nto 1\nnodes 1\n";
    assert_eq!(rt; status.code(), 0);
    assert_eq!(rt; out.bytes(), wanted.as_slice());
    Ok(())
}

/// A search among the pairs that keep conditions. Where there is none, it ends with status 1.
#[test]
fn keeps_conditions(rt: HostRuntime) -> Result<(), Fail> {
    let alloc = rt.alloc();
    let mut files = MemoryFiles::new(alloc, &FILES);
    let rises = ["tdelay", "worst", "inverter.v", "--keep", "y=01"];
    let mut out = MemorySink::new(alloc, ROOM, 7)?;
    let mut err = MemorySink::new(alloc, ROOM, 7)?;
    let status = run(&rt, alloc, &rises, &mut files, &mut out, &mut err);
    let wanted = b"unit 1 ns\ndefaulted 0\nexact 2\nfrom 1\nto 0\nnodes 1\n";
    assert_eq!(rt; status.code(), 0);
    assert_eq!(rt; out.bytes(), wanted.as_slice());
    let never = [
        "tdelay",
        "worst",
        "inverter.v",
        "--keep",
        "y=01",
        "--keep",
        "a==",
    ];
    let mut none = MemorySink::new(alloc, ROOM, 7)?;
    let status = run(&rt, alloc, &never, &mut files, &mut none, &mut err);
    assert_eq!(rt; status.code(), 1);
    assert_eq!(rt;
        none.bytes(),
        b"unit 1 ns\ndefaulted 0\nnone\nnodes 1\n".as_slice()
    );
    Ok(())
}

/// Help goes to standard output.
#[test]
fn shows_help(rt: HostRuntime) -> Result<(), Fail> {
    let help = run_of(&rt, &["tdelay", "--help"])?;
    assert_eq!(rt; help.code, 0);
    assert!(rt; !help.out.bytes().is_empty());
    let none = run_of(&rt, &["tdelay"])?;
    assert_eq!(rt; none.code, 2);
    Ok(())
}
