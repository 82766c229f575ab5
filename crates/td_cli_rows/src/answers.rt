//! Requests about small netlists.

ghost use Rattle.std.specs.Prelude.{IfOk};
ghost use Rattle.td_answer.specs.Writing.{CanBeWritten};

use std::alloc::Global;
use std::sync::Wait;
use std::test::*;
use std::thread::Threads;
use td_answer::{Outcome, Refusal, Status, Texts, answer};
use td_certificate::write;
use td_gates::Delay;
use td_inputs::{Given, Taken, Topic};
use td_lines::{Text, print_text};
use td_pool::Unwatched;
use td_reading::{Outputs, Reading, Told};
use td_request::{
    Bound, Check, Command, Count, Effort, Files, Form, Inputs, Join, Parts, Path, Question,
    Request, Search, Shown, Sim, Strategy, Table,
};
use td_stop::Stop;
use td_text::MemorySink;

/// How many bytes a certificate may have.
pub const ROOM: usize = 1 << 16;

/// A netlist with two outputs: the first one changes last at moment 3, the second one at moment 5.
pub const TWO: &[u8] =
    b"module t(a, b, y, z);\ninput a, b;\noutput y, z;\nnot #(2,3) g(y,a);\nxor #(4,5) h(z,a,b);\nendmodule\n";

/// Nothing is shown beside an answer.
pub const ALONE: Shown = Shown {
    path: false,
    outputs: false,
    progress: false,
    work: false,
    vectors: false,
};

/// A certificate about the pairs in which the first input rises and the second one stays.
const KEPT: &[u8] =
    b"tdelay-cert 4\ncircuit 2 2\ndefault 1 1\noutput all\nfirst ..\nsecond ..\nhold ..\nflips 2\n\
at 0 0\nkeep 2 01 3 ==\ntime 5\nhigh 5\nfrom 01\nto 11\nb a 5\n";

/// The same, which leaves the worst delay open.
const OPEN: &[u8] =
    b"tdelay-cert 4\ncircuit 2 2\ndefault 1 1\noutput all\nfirst ..\nsecond ..\nhold ..\nflips 2\n\
at 0 0\nkeep 2 01 3 ==\ntime 4\nhigh 5\nfrom 00\nto 10\nb a 5\n";

/// Two parts of a question that admits no pair.
const NEVER: [&[u8]; 2] = [
    b"tdelay-cert 4\ncircuit 2 2\ndefault 1 1\noutput all\nfirst ..\nsecond 0.\nhold ..\nflips 2\n\
at 0 0\nkeep 2 .0 2 01\ntime none\nnone\n",
    b"tdelay-cert 4\ncircuit 2 2\ndefault 1 1\noutput all\nfirst ..\nsecond 1.\nhold ..\nflips 2\n\
at 0 0\nkeep 2 .0 2 01\ntime none\nnone\n",
];

/// The output that changes last is, and the way there.
const BESIDE: Shown = Shown {
    path: true,
    outputs: true,
    progress: false,
    work: false,
    vectors: false,
};

/// Conditions on the first input, which contradict each other.
const FALLS: [Taken<'static>; 2] = [
    Taken {
        topic: Topic::Keep,
        text: b"a=01",
    },
    Taken {
        topic: Topic::Keep,
        text: b"a=.0",
    },
];

/// The question about pairs that keep this, with at most so many flips.
pub fn flipped(named: &'static [Taken<'static>], flips: u64) -> Question<'static> {
    let Inputs { given, .. } = pinned(None);
    Question {
        inputs: Inputs { given, named },
        flips: Some(flips),
        keep_file: None,
        keep_text: None,
    }
}

/// Words that pin the first vector.
fn pinned(first: Option<&'static str>) -> Inputs<'static> {
    Inputs {
        given: Given {
            first,
            second: None,
            hold: None,
            at: None,
        },
        named: &[],
    }
}

fn reading(alloc: Global) -> Option<Reading<'static>> {
    let default = Delay::new(1, 1)?;
    Some(Reading::whole(alloc, default))
}

/// The search from a first vector, within so many nodes.
pub fn search(
    first: Option<&'static str>,
    budget: u32,
    shown: Shown,
    table: Option<Table>,
) -> Command<'static> {
    Command::Worst(Search {
        question: Question {
            inputs: pinned(first),
            flips: None,
            keep_file: None,
            keep_text: None,
        },
        strategy: Strategy::Least,
        effort: Effort {
            workers: 1,
            budget: budget.min(1000),
            seconds: None,
            memory: None,
        },
        stop: None,
        certificate: None,
        dump: None,
        required: None,
        between: false,
        shown,
        table,
        stray: None,
    })
}

/// What comes out of a command about the netlist.
pub fn answered<R: Threads + Wait + Sync>(
    rt: &R,
    alloc: Global,
    command: Command<'static>,
    certificates: &[Vec<u8>],
) -> Result<Outcome, Refusal<'static, 'static>>
    ensures { IfOk result CanBeWritten }
{
    answered_until(rt, alloc, command, certificates, &Stop::never())
}

/// The same, unless the stop is set before.
fn answered_until<R: Threads + Wait + Sync>(
    rt: &R,
    alloc: Global,
    command: Command<'static>,
    certificates: &[Vec<u8>],
    stop: &Stop,
) -> Result<Outcome, Refusal<'static, 'static>>
    ensures { IfOk result CanBeWritten }
{
    let Some(reading) = reading(alloc) else {
        return Err(Refusal::TooLong);
    };
    let request = Request {
        file: "two.v",
        reading,
        command,
        form: Form::Text,
        hints: false,
    };
    let texts = Texts {
        netlist: TWO,
        certificates,
        keep: None,
    };
    answer(rt, alloc, &request, &texts, stop, &mut Unwatched)
}

/// Whether a command ends with this status and this report, or this sentence.
pub fn says<R: Threads + Wait + Sync>(
    rt: &R,
    alloc: Global,
    command: Command<'static>,
    certificates: &[Vec<u8>],
    status: Status,
    said: &[u8],
) -> Result<bool, Fail> {
    let stop = Stop::never();
    says_until(rt, alloc, command, certificates, &stop, status, said)
}

/// The same of a command by a stop.
fn says_until<R: Threads + Wait + Sync>(
    rt: &R,
    alloc: Global,
    command: Command<'static>,
    certificates: &[Vec<u8>],
    stop: &Stop,
    status: Status,
    said: &[u8],
) -> Result<bool, Fail> {
    let mut text = Text::new(alloc);
    let ended = match answered_until(rt, alloc, command, certificates, stop) {
        Ok(outcome) => {
            print_text(&mut text, outcome.report.lines())?;
            outcome.status
        }
        Err(refusal) => {
            refusal.sentence(&mut text)?;
            refusal.status()
        }
    };
    Ok(text.bytes() == said && ended == status)
}

/// Appends the text of the certificate of the search from a first vector.
fn push_certificate<R: Threads + Wait + Sync>(
    rt: &R,
    alloc: Global,
    first: Option<&'static str>,
    texts: &mut Vec<Vec<u8>>,
) -> Result<(), Fail> {
    let mut sink = MemorySink::new(alloc, ROOM, 7)?;
    if let Ok(outcome) = answered(rt, alloc, search(first, 1000, ALONE, None), &[]) {
        if let Some(certificate) = &outcome.certificate {
            if write(alloc, &mut sink, certificate).is_err() {
                return Ok(());
            }
        }
    }
    texts.push(Vec::from_slice(alloc, sink.bytes())?)?;
    Ok(())
}

fn checked() -> Command<'static> {
    Command::Check(Check {
        certificate: "cert",
        told: Told {
            rise: false,
            fall: false,
            outputs: false,
        },
        seconds: None,
    })
}

/// Parts of these files, of a question.
fn joined(
    alloc: Global,
    names: &[&'static str],
    check: bool,
    question: Question<'static>,
) -> Result<Command<'static>, Fail> {
    joined_by(alloc, names, check, question, None)
}

/// The same, by a required moment.
pub fn joined_by(
    alloc: Global,
    names: &[&'static str],
    check: bool,
    question: Question<'static>,
    required: Option<u64>,
) -> Result<Command<'static>, Fail> {
    let names = Vec::from_slice(alloc, names)?;
    Ok(Command::Join(Join {
        parts: Files::new(names),
        question,
        required,
        certificate: None,
        check,
    }))
}

/// The report of a search has its figure, its pair, and what is asked of the pair's run.
#[test]
fn searches(rt: HostRuntime) -> Result<(), Fail> {
    let report =
        b"unit 1 ns\ndefaulted 0\nexact 5\nfrom 01\nto 00\nnodes 9\noutput z\nchange 0 b 1 0 input\nchange 5 z 1 0 xor 5\n";
    assert!(rt;
        says(
            &rt,
            rt.alloc(),
            search(None, 1000, BESIDE, None),
            &[],
            Status::Done,
            report
        )?
    );
    let short = b"unit 1 ns\ndefaulted 0\nbetween 3 5\ncause budget\nfrom 00\nto 11\nnodes 0\n";
    assert!(rt;
        says(
            &rt,
            rt.alloc(),
            search(None, 0, ALONE, None),
            &[],
            Status::Between,
            short
        )?
    );
    let word = b"tdelay: bad vector first\n";
    let wrong = search(Some("0"), 0, ALONE, None);
    assert!(rt; says(&rt, rt.alloc(), wrong, &[], Status::BadCommand, word)?);
    Ok(())
}

/// A certificate of a search is accepted, and a part of it is another question's.
#[test]
fn checks(rt: HostRuntime) -> Result<(), Fail> {
    let alloc = rt.alloc();
    let missing = b"tdelay: cannot read cert\n";
    assert!(rt; says(&rt, alloc, checked(), &[], Status::Device, missing)?);
    let mut texts = Vec::new(alloc);
    push_certificate(&rt, alloc, None, &mut texts)?;
    assert!(rt; says(&rt, alloc, checked(), &texts, Status::Done, b"accepted 5\n")?);
    let mut part = Vec::new(alloc);
    push_certificate(&rt, alloc, Some("0."), &mut part)?;
    let about = b"accepted 5\nfirst 0.\nsecond ..\nhold ..\nflips 2\n";
    assert!(rt; says(&rt, alloc, checked(), &part, Status::Done, about)?);
    Ok(())
}

/// What a certificate is about is told where it isn't plain, conditions too.
#[test]
fn checks_conditions(rt: HostRuntime) -> Result<(), Fail> {
    let alloc = rt.alloc();
    let mut texts = Vec::new(alloc);
    texts.push(Vec::from_slice(alloc, KEPT)?)?;
    let kept = b"accepted 5\nkeep 2 01 3 ==\n";
    assert!(rt; says(&rt, alloc, checked(), &texts, Status::Done, kept)?);
    let mut texts = Vec::new(alloc);
    texts.push(Vec::from_slice(alloc, OPEN)?)?;
    let open = b"accepted between 4 5\nkeep 2 01 3 ==\n";
    assert!(rt; says(&rt, alloc, checked(), &texts, Status::Done, open)?);
    Ok(())
}

/// A check is whole by a stop that isn't set, and has no verdict by one that is.
#[test]
fn check_ends_by_a_stop(rt: HostRuntime) -> Result<(), Fail> {
    let alloc = rt.alloc();
    let mut texts = Vec::new(alloc);
    texts.push(Vec::from_slice(alloc, KEPT)?)?;
    let stop = Stop::new();
    let whole = b"accepted 5\nkeep 2 01 3 ==\n";
    assert!(rt; says_until(&rt, alloc, checked(), &texts, &stop, Status::Done, whole)?);
    stop.set();
    let found = answered_until(&rt, alloc, checked(), &texts, &stop);
    assert!(rt; matches!(found, Err(Refusal::OutOfTime)));
    let late = b"tdelay: out of time\n";
    assert!(rt; says_until(&rt, alloc, checked(), &texts, &stop, Status::Between, late)?);
    Ok(())
}

/// Two parts of a question are joined, in either way; parts that overlap aren't, nor one alone, nor
/// parts of another question.
#[test]
fn joins(rt: HostRuntime) -> Result<(), Fail> {
    let alloc = rt.alloc();
    let mut texts = Vec::new(alloc);
    push_certificate(&rt, alloc, Some("0."), &mut texts)?;
    let missing = b"tdelay: cannot read p1\n";
    let both = joined(alloc, &["p0", "p1"], true, flipped(&[], 2))?;
    assert!(rt; says(&rt, alloc, both, &texts, Status::Device, missing)?);
    push_certificate(&rt, alloc, Some("1."), &mut texts)?;
    let report = b"unit 1 ns\ndefaulted 0\nexact 5\nfrom 01\nto 00\nnodes 15\n";
    let both = joined(alloc, &["p0", "p1"], true, flipped(&[], 2))?;
    assert!(rt; says(&rt, alloc, both, &texts, Status::Done, report)?);
    let unchecked = b"unit 1 ns\ndefaulted 0\nunchecked 5\nfrom 01\nto 00\nnodes 15\n";
    let both = joined(alloc, &["p0", "p1"], false, flipped(&[], 2))?;
    assert!(rt; says(&rt, alloc, both, &texts, Status::Done, unchecked)?);
    let gap = b"tdelay: no part for --first 1. --second ..\n";
    let one = joined(alloc, &["p0"], true, flipped(&[], 2))?;
    assert!(rt; says(&rt, alloc, one, &texts, Status::Rejected, gap)?);
    let other = b"tdelay: parts of another question: other flips\n";
    let both = joined(alloc, &["p0", "p1"], true, flipped(&[], 1))?;
    assert!(rt; says(&rt, alloc, both, &texts, Status::Rejected, other)?);
    let mut same = Vec::new(alloc);
    push_certificate(&rt, alloc, Some("0."), &mut same)?;
    push_certificate(&rt, alloc, Some("0."), &mut same)?;
    let overlap = b"tdelay: cannot join p0 and p0: a pair in both\n";
    let both = joined(alloc, &["p0", "p0"], false, flipped(&[], 2))?;
    assert!(rt; says(&rt, alloc, both, &same, Status::Rejected, overlap)?);
    Ok(())
}

/// A certificate that no pair is admitted is accepted, and two of them are joined into one.
#[test]
fn claims_no_pair(rt: HostRuntime) -> Result<(), Fail> {
    let alloc = rt.alloc();
    let mut texts = Vec::new(alloc);
    texts.push(Vec::from_slice(alloc, NEVER[0])?)?;
    let never = b"accepted none\nsecond 0.\nkeep 2 .0 2 01\n";
    assert!(rt; says(&rt, alloc, checked(), &texts, Status::Done, never)?);
    texts.push(Vec::from_slice(alloc, NEVER[1])?)?;
    let both = joined(alloc, &["p0", "p1"], true, flipped(&FALLS, 2))?;
    let report = b"unit 1 ns\ndefaulted 0\nnone\nnodes 3\nkeep 2 .0 2 01\n";
    assert!(rt; says(&rt, alloc, both, &texts, Status::Done, report)?);
    Ok(())
}

/// A run, and the way to its last change.
#[test]
fn runs(rt: HostRuntime) -> Result<(), Fail> {
    let alloc = rt.alloc();
    let sim = Command::Sim(Sim {
        from: "00",
        to: "01",
        inputs: pinned(None),
        outputs: true,
        dump: None,
        nets: Outputs::new(Vec::new(alloc)),
        seconds: None,
    });
    let report = b"unit 1 ns\ndefaulted 0\nlast y never\nlast z 4\ntime 4\noutput z\n";
    assert!(rt; says(&rt, alloc, sim, &[], Status::Done, report)?);
    let path = Command::Path(Path {
        from: "00",
        to: "01",
        inputs: pinned(None),
        output: None,
        seconds: None,
    });
    let way = b"unit 1 ns\ndefaulted 0\nchange 0 b 0 1 input\nchange 4 z 0 1 xor 4\n";
    assert!(rt; says(&rt, alloc, path, &[], Status::Done, way)?);
    let other = Command::Path(Path {
        from: "00",
        to: "01",
        inputs: pinned(None),
        output: Some("y"),
        seconds: None,
    });
    assert!(rt;
        says(
            &rt,
            alloc,
            other,
            &[],
            Status::Done,
            b"unit 1 ns\ndefaulted 0\nlast y never\n"
        )?
    );
    let none = Command::Path(Path {
        from: "00",
        to: "01",
        inputs: pinned(None),
        output: Some("q"),
        seconds: None,
    });
    let missing = b"tdelay: no output of this name\n";
    assert!(rt; says(&rt, alloc, none, &[], Status::BadCommand, missing)?);
    Ok(())
}

/// Bounds, parts, and what is in the netlist.
#[test]
fn describes(rt: HostRuntime) -> Result<(), Fail> {
    let alloc = rt.alloc();
    let bound = Command::Bound(Bound {
        inputs: pinned(None),
        flips: None,
        required: None,
        edges: true,
        outputs: true,
        earliest: true,
    });
    let bounds = b"unit 1 ns\ndefaulted 0\na 5\nt none\nm 5\ne 5\nn 5\noutput z\nearliest 2\n";
    assert!(rt; says(&rt, alloc, bound, &[], Status::Done, bounds)?);
    let parts = Command::Parts(Parts {
        question: Question {
            inputs: pinned(None),
            flips: Some(2),
            keep_file: None,
            keep_text: None,
        },
        strategy: Strategy::Least,
        count: Count { parts: 2 },
        required: Some(4),
    });
    let options =
        b"--first 0. --second .. --flips 2 --required 4\n--first 1. --second .. --flips 2 --required 4\n";
    assert!(rt; says(&rt, alloc, parts, &[], Status::Done, options)?);
    let info =
        b"module t\nunit 1 ns\ninputs 2\noutputs 2\ngates 2\ndefaulted 0\ndepth 1\ndelay 2 5\ninput 0 a\ninput 1 b\noutput 0 y\noutput 1 z\n";
    assert!(rt; says(&rt, alloc, Command::Info, &[], Status::Done, info)?);
    Ok(())
}
