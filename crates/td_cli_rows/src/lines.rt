//! Reports in both forms: a line of each kind.

use std::alloc::{AllocError, Global};
use std::process::Abort;
use std::test::*;
use td_gates::{Kind, Level};
use td_lines::{
    Asked, Cause, Change, Changes, Driver, Figure, Found, Hazard, HazardRow, Label, Last, Line,
    Moments, Named, Part, Place, Report, Requirement, Row, Said, Span, Standing, Terms, Text,
    Vector, Vectors, print_error, print_json, print_text,
};
use td_nets::{Scale, Unit};

fn label(alloc: Global, text: &str) -> Result<Label, AllocError> {
    let text = String::from_str(alloc, text)?;
    Ok(Label::new(text))
}

fn bits(alloc: Global, bits: &[bool]) -> Result<Vector, AllocError> {
    let bits = Vec::from_slice(alloc, bits)?;
    Ok(Vector::new(bits))
}

fn one<T: Drop>(alloc: Global, item: T) -> Result<Vec<T>, AllocError> {
    let mut items = Vec::new(alloc);
    items.push(item)?;
    Ok(items)
}

/// What a netlist has.
fn described(alloc: Global) -> Result<Report, AllocError> {
    let mut report = Report::new(alloc);
    report.add(Line::Module(label(alloc, "t")?))?;
    report.add(Line::Unit(Unit {
        magnitude: 10,
        scale: Scale::Picoseconds,
    }))?;
    report.add(Line::Inputs(1))?;
    report.add(Line::Outputs(1))?;
    report.add(Line::Gates(2))?;
    report.add(Line::Defaulted(0))?;
    report.add(Line::Depth(2))?;
    report.add(Line::Delay(Some(Span {
        least: 2,
        greatest: 3,
    })))?;
    report.add(Line::Delay(None))?;
    let input = Place {
        place: 0,
        net: label(alloc, "\\a+ [1]")?,
    };
    report.add(Line::InputPlaces(one(alloc, input)?))?;
    let output = Place {
        place: 0,
        net: label(alloc, "y")?,
    };
    report.add(Line::OutputPlaces(one(alloc, output)?))?;
    Ok(report)
}

/// What the run of a pair is, and bounds.
fn simulated(alloc: Global) -> Result<Report, AllocError> {
    let mut report = Report::new(alloc);
    let mut rows = Vec::new(alloc);
    rows.push(Last {
        output: label(alloc, "y")?,
        moment: Some(5),
    })?;
    rows.push(Last {
        output: label(alloc, "z")?,
        moment: None,
    })?;
    report.add(Line::Lasts(rows))?;
    report.add(Line::Time(5))?;
    report.add(Line::Output(label(alloc, "y")?))?;
    let mut changes = Vec::new(alloc);
    changes.push(Change {
        moment: 0,
        net: label(alloc, "a")?,
        from: Level::Zero,
        to: Level::X,
        by: None,
    })?;
    changes.push(Change {
        moment: 5,
        net: label(alloc, "y")?,
        from: Level::X,
        to: Level::One,
        by: Some(Driver {
            kind: Kind::Xnor,
            delay: 5,
        }),
    })?;
    report.add(Line::Changes(changes))?;
    report.add(Line::Bound(Figure::Arrivals, Some(7)))?;
    report.add(Line::Bound(Figure::Possibles, None))?;
    Ok(report)
}

/// Hazards of outputs.
fn hazards(alloc: Global) -> Result<Vec<HazardRow>, AllocError> {
    let mut rows = Vec::new(alloc);
    rows.push(HazardRow {
        output: label(alloc, "y")?,
        level: false,
        hazard: Hazard::Can {
            from: bits(alloc, &[false, true])?,
            to: bits(alloc, &[true, true])?,
        },
    })?;
    rows.push(HazardRow {
        output: label(alloc, "y")?,
        level: true,
        hazard: Hazard::Never,
    })?;
    rows.push(HazardRow {
        output: label(alloc, "z")?,
        level: false,
        hazard: Hazard::NoPair,
    })?;
    rows.push(HazardRow {
        output: label(alloc, "z")?,
        level: true,
        hazard: Hazard::Open,
    })?;
    Ok(rows)
}

/// What searches found, and parts.
fn searched(alloc: Global) -> Result<Report, AllocError> {
    let mut report = Report::new(alloc);
    report.add(Line::Exact(5))?;
    report.add(Line::Between { low: 2, high: 5 })?;
    report.add(Line::AtMost(7))?;
    report.add(Line::NoPair)?;
    report.add(Line::Cause(Cause::Budget))?;
    report.add(Line::From(bits(alloc, &[false, true])?))?;
    report.add(Line::To(bits(alloc, &[])?))?;
    report.add(Line::Nodes(9))?;
    let mut rows = Vec::new(alloc);
    rows.push(Row {
        output: label(alloc, "y")?,
        found: Found::Exact(5),
        edges: Some(7),
        pair: Some(Vectors {
            from: bits(alloc, &[false, true])?,
            to: bits(alloc, &[])?,
        }),
        changes: None,
        required: None,
    })?;
    rows.push(Row {
        output: label(alloc, "exact")?,
        found: Found::Between { low: 2, high: 5 },
        edges: None,
        pair: None,
        changes: None,
        required: None,
    })?;
    rows.push(Row {
        output: label(alloc, "z")?,
        found: Found::AtMost(5),
        edges: Some(5),
        pair: None,
        changes: None,
        required: None,
    })?;
    rows.push(Row {
        output: label(alloc, "w")?,
        found: Found::NoPair,
        edges: Some(3),
        pair: None,
        changes: None,
        required: None,
    })?;
    rows.push(Row {
        output: label(alloc, "v")?,
        found: Found::Exact(5),
        edges: Some(5),
        pair: Some(Vectors {
            from: bits(alloc, &[true])?,
            to: bits(alloc, &[false])?,
        }),
        changes: Some(Changes {
            rise: Found::Exact(5),
            fall: Found::Between { low: 2, high: 4 },
            glitch: Found::Exact(0),
        }),
        required: None,
    })?;
    rows.push(Row {
        output: label(alloc, "u")?,
        found: Found::NoPair,
        edges: None,
        pair: None,
        changes: Some(Changes {
            rise: Found::NoPair,
            fall: Found::AtMost(4),
            glitch: Found::Between { low: 0, high: 4 },
        }),
        required: None,
    })?;
    report.add(Line::Each(rows))?;
    report.add(Line::Hazards(hazards(alloc)?))?;
    let mut words = Vec::new(alloc);
    words.push(label(alloc, "--first")?)?;
    words.push(label(alloc, "0.")?)?;
    report.add(Line::Parts(one(alloc, Part { words })?))?;
    Ok(report)
}

/// A row of an output whose required moment stands so.
fn required_row(
    alloc: Global,
    name: &str,
    found: Found,
    required: Requirement,
) -> Result<Row, AllocError> {
    Ok(Row {
        output: label(alloc, name)?,
        found,
        edges: Some(5),
        pair: None,
        changes: None,
        required: Some(required),
    })
}

/// Rows that say how a required moment stands.
fn required_rows(alloc: Global) -> Result<Report, AllocError> {
    let met = Requirement {
        moment: 4,
        standing: Standing::Met,
    };
    let violated = Requirement {
        moment: 4,
        standing: Standing::Violated,
    };
    let open = Requirement {
        moment: 4,
        standing: Standing::Open,
    };
    let mut rows = Vec::new(alloc);
    rows.push(required_row(alloc, "u", Found::Exact(4), met)?)?;
    rows.push(required_row(alloc, "v", Found::Exact(5), violated)?)?;
    let within = Found::Between { low: 2, high: 5 };
    rows.push(required_row(alloc, "w", within, open)?)?;
    rows.push(required_row(alloc, "x", Found::AtMost(5), open)?)?;
    rows.push(required_row(alloc, "y", Found::NoPair, met)?)?;
    let mut last = required_row(alloc, "z", Found::Exact(1), met)?;
    last.changes = Some(Changes {
        rise: Found::Exact(1),
        fall: Found::NoPair,
        glitch: Found::Exact(0),
    });
    rows.push(last)?;
    let mut report = Report::new(alloc);
    report.add(Line::Each(rows))?;
    Ok(report)
}

/// What a certificate is about.
fn checked(alloc: Global) -> Result<Report, AllocError> {
    let mut report = Report::new(alloc);
    report.add(Line::Accepted(5))?;
    report.four(
        Line::First(label(alloc, "0.")?),
        Line::Second(label(alloc, "..")?),
        Line::Hold(label(alloc, "=.")?),
        Line::Flips(1),
    )?;
    let mut moments = Vec::new(alloc);
    moments.push(0u64)?;
    moments.push(7u64)?;
    report.add(Line::At(Moments::new(moments)))?;
    report.add(Line::At(Moments::new(Vec::new(alloc))))?;
    report.add(Line::Refused {
        number: 7,
        name: "OtherCircuit",
        line: None,
    })?;
    report.add(Line::Refused {
        number: 3,
        name: "LeafBound",
        line: Some(12),
    })?;
    Ok(report)
}

/// What a certificate of the fourth version is about.
fn told(alloc: Global) -> Result<Report, AllocError> {
    let mut report = Report::new(alloc);
    report.add(Line::AcceptedBetween { time: 2, high: 5 })?;
    report.add(Line::AcceptedNone)?;
    report.add(Line::Unchecked(3))?;
    report.add(Line::UncheckedBetween { time: 3, high: 7 })?;
    report.add(Line::UncheckedNone)?;
    report.add(Line::Default { rise: 1, fall: 3 })?;
    report.add(Line::OutputNumbers(None))?;
    let mut numbers = Vec::new(alloc);
    numbers.push(4u64)?;
    report.add(Line::OutputNumbers(Some(Moments::new(numbers))))?;
    report.add(Line::Keep(label(alloc, "2 01 5 ==")?))?;
    Ok(report)
}

/// How each object begins.
const HEAD: &str = "{\"proved\":true,\"command\":\"bound\",\"file\":\"c\\\"17.v\",\
\"question\":{\"default\":{\"rise\":1,\"fall\":2},\"output\":[\"y\",\"z\"],\"first\":\"0.\",\"flips\":1,\
\"named\":[{\"option\":\"--pin\",\"word\":\"a=0\"}]},";

/// What was asked.
fn asked(alloc: Global) -> Result<Asked, AllocError> {
    let mut outputs = Vec::new(alloc);
    outputs.push(label(alloc, "y")?)?;
    outputs.push(label(alloc, "z")?)?;
    let named = Named {
        option: label(alloc, "--pin")?,
        word: label(alloc, "a=0")?,
    };
    let mut question = Terms::new(alloc);
    question.add("default", Said::Delays { rise: 1, fall: 2 })?;
    question.add("output", Said::Words(outputs))?;
    question.add("first", Said::Word(label(alloc, "0.")?))?;
    question.add("flips", Said::Number(1))?;
    question.add("named", Said::Options(one(alloc, named)?))?;
    Ok(Asked {
        command: "bound",
        file: label(alloc, "c\"17.v")?,
        question,
    })
}

/// Whether a report is printed so, its JSON after the members that say what was asked.
fn prints(
    rt: &impl Abort,
    alloc: Global,
    report: &Report,
    text: &str,
    json: &str,
) -> Result<(), Fail> {
    let mut out = Text::new(alloc);
    print_text(&mut out, report.lines())?;
    assert_eq!(rt; out.bytes(), text.as_bytes());
    let printed = print_json(alloc, &asked(alloc)?, report.lines())?;
    let json = format!(in alloc; "{HEAD}{json}")?;
    assert_eq!(rt; printed.as_slice(), json.as_bytes());
    Ok(())
}

#[test]
fn prints_a_netlist(rt: HostRuntime) -> Result<(), Fail> {
    let report = described(rt.alloc())?;
    prints(
        &rt,
        rt.alloc(),
        &report,
        "module t\nunit 10 ps\ninputs 1\noutputs 1\ngates 2\ndefaulted 0\ndepth 2\ndelay 2 3\n\
delay none\ninput 0 \\a+ [1]\noutput 0 y\n",
        "\"module\":\"t\",\"unit\":\"10 ps\",\"inputs\":1,\"outputs\":1,\"gates\":2,\"defaulted\":0,\
\"depth\":2,\"delay\":{\"least\":2,\"greatest\":3},\"delay\":null,\
\"input\":[{\"index\":0,\"name\":\"\\\\a+ [1]\"}],\"output\":[{\"index\":0,\"name\":\"y\"}]}\n",
    )
}

#[test]
fn prints_a_run(rt: HostRuntime) -> Result<(), Fail> {
    let report = simulated(rt.alloc())?;
    prints(
        &rt,
        rt.alloc(),
        &report,
        "last y 5\nlast z never\ntime 5\noutput y\nchange 0 a 0 x input\nchange 5 y x 1 xnor 5\n\
a 7\nt none\n",
        "\"last\":[{\"output\":\"y\",\"time\":5},{\"output\":\"z\",\"time\":null}],\"time\":5,\"output\":[{\"name\":\"y\"}],\
\"change\":[{\"time\":0,\"net\":\"a\",\"old\":\"0\",\"new\":\"x\",\"by\":\"input\"},\
{\"time\":5,\"net\":\"y\",\"old\":\"x\",\"new\":\"1\",\"by\":\"xnor\",\"delay\":5}],\"a\":7,\"t\":null}\n",
    )
}

#[test]
fn prints_a_search(rt: HostRuntime) -> Result<(), Fail> {
    let report = searched(rt.alloc())?;
    prints(
        &rt,
        rt.alloc(),
        &report,
        "exact 5\nbetween 2 5\nbetween none 7\nnone\ncause budget\nfrom 01\nto none\nnodes 9\n\
each y exact 5 edges 7 from 01 to none\neach exact between 2 5 edges none\n\
each z between none 5 edges 5\neach w none edges 3\n\
each v exact 5 edges 5 from 1 to 0 rise 5 fall 2..4 glitch never\n\
each u none edges none rise none fall none..4 glitch 0..4\n\
hazard y 0 can 01 11\nhazard y 1 never\nhazard z 0 none\nhazard z 1 open\n--first 0.\n",
        "\"exact\":5,\"between\":[2,5],\"between\":[null,7],\"none\":true,\"cause\":\"budget\",\"from\":\"01\",\
\"to\":\"none\",\"nodes\":9,\
\"each\":[{\"output\":\"y\",\"exact\":5,\"edges\":7,\"from\":\"01\",\"to\":\"none\"},\
{\"output\":\"exact\",\"between\":[2,5],\"edges\":null},\
{\"output\":\"z\",\"between\":[null,5],\"edges\":5},{\"output\":\"w\",\"none\":true,\"edges\":3},\
{\"output\":\"v\",\"exact\":5,\"edges\":5,\"from\":\"1\",\"to\":\"0\",\
\"rise\":{\"exact\":5},\"fall\":{\"between\":[2,4]},\"glitch\":{\"exact\":0}},\
{\"output\":\"u\",\"none\":true,\"edges\":null,\
\"rise\":{\"none\":true},\"fall\":{\"between\":[null,4]},\"glitch\":{\"between\":[0,4]}}],\
\"hazard\":[{\"output\":\"y\",\"level\":\"0\",\"answer\":\"can\",\"from\":\"01\",\"to\":\"11\"},\
{\"output\":\"y\",\"level\":\"1\",\"answer\":\"never\"},{\"output\":\"z\",\"level\":\"0\",\"answer\":\"none\"},\
{\"output\":\"z\",\"level\":\"1\",\"answer\":\"open\"}],\
\"parts\":[{\"options\":[\"--first\",\"0.\"]}]}\n",
    )
}

#[test]
fn prints_slacks(rt: HostRuntime) -> Result<(), Fail> {
    let report = required_rows(rt.alloc())?;
    prints(
        &rt,
        rt.alloc(),
        &report,
        "each u exact 4 edges 5 required met slack 0\n\
each v exact 5 edges 5 required violated slack -1\n\
each w between 2 5 edges 5 required open slack -1..2\n\
each x between none 5 edges 5 required open slack -1..none\n\
each y none edges 5 required met slack none\n\
each z exact 1 edges 5 rise 1 fall none glitch never required met slack 3\n",
        "\
\"each\":[{\"output\":\"u\",\"exact\":4,\"edges\":5,\"standing\":\"met\",\"slack\":{\"exact\":0}},\
{\"output\":\"v\",\"exact\":5,\"edges\":5,\"standing\":\"violated\",\"slack\":{\"exact\":-1}},\
{\"output\":\"w\",\"between\":[2,5],\"edges\":5,\"standing\":\"open\",\"slack\":{\"between\":[-1,2]}},\
{\"output\":\"x\",\"between\":[null,5],\"edges\":5,\"standing\":\"open\",\"slack\":{\"between\":[-1,null]}},\
{\"output\":\"y\",\"none\":true,\"edges\":5,\"standing\":\"met\",\"slack\":{\"none\":true}},\
{\"output\":\"z\",\"exact\":1,\"edges\":5,\"rise\":{\"exact\":1},\"fall\":{\"none\":true},\"glitch\":{\"exact\":0},\
\"standing\":\"met\",\"slack\":{\"exact\":3}}]}\n",
    )
}

#[test]
fn prints_a_verdict(rt: HostRuntime) -> Result<(), Fail> {
    let report = checked(rt.alloc())?;
    prints(
        &rt,
        rt.alloc(),
        &report,
        "accepted 5\nfirst 0.\nsecond ..\nhold =.\nflips 1\nat 0 7\nat none\n\
refused 7 OtherCircuit\nrefused 3 LeafBound line 12\n",
        "\"accepted\":{\"exact\":5},\"first\":\"0.\",\"second\":\"..\",\"hold\":\"=.\",\"flips\":1,\"at\":[0,7],\"at\":[],\
\"refused\":{\"number\":7,\"verdict\":\"OtherCircuit\"},\
\"refused\":{\"number\":3,\"verdict\":\"LeafBound\",\"line\":12}}\n",
    )
}

#[test]
fn prints_what_is_told(rt: HostRuntime) -> Result<(), Fail> {
    let report = told(rt.alloc())?;
    prints(
        &rt,
        rt.alloc(),
        &report,
        "accepted between 2 5\naccepted none\nunchecked 3\nunchecked between 3 7\nunchecked none\ndefault 1 3\noutput all\n\
output 4\nkeep 2 01 5 ==\n",
        "\"accepted\":{\"between\":[2,5]},\"accepted\":{\"none\":true},\"unchecked\":{\"exact\":3},\
\"unchecked\":{\"between\":[3,7]},\"unchecked\":{\"none\":true},\
\"default\":{\"rise\":1,\"fall\":3},\"output\":[],\
\"output\":[{\"index\":4}],\
\"keep\":\"2 01 5 ==\"}\n",
    )
}

#[test]
fn prints_an_error(rt: HostRuntime) -> Result<(), Fail> {
    let alloc = rt.alloc();
    let mut error = Terms::new(alloc);
    error.add("message", Said::Word(label(alloc, "no admitted pair")?))?;
    let printed = print_error(alloc, &asked(alloc)?, &error, 1)?;
    let json = "\"error\":{\"message\":\"no admitted pair\"},\"status\":1}\n";
    let wanted = format!(in alloc; "{HEAD}{json}")?;
    assert_eq!(rt; printed.as_slice(), wanted.as_bytes());
    Ok(())
}
