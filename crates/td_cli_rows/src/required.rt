//! Requests with a required moment.

use crate::answers::{ALONE, ROOM, answered, flipped, joined_by, says, search};
use std::alloc::Global;
use std::sync::Wait;
use std::test::*;
use std::thread::Threads;
use td_answer::Status;
use td_certificate::write;
use td_inputs::Given;
use td_request::{Bound, Command, Inputs, Table};
use td_text::MemorySink;

/// The search for the worst delay of the netlist, which is 5, within so many nodes, where this
/// moment is required, and its certificate is asked for.
fn required(moment: u64, budget: u32) -> Command<'static> {
    match search(None, budget, ALONE, None) {
        Command::Worst(mut search) => {
            search.required = Some(moment);
            search.certificate = Some("out");
            Command::Worst(search)
        }
        other => other,
    }
}

/// A line after the nodes says how the required moment stands, and so does the status.
#[test]
fn standings(rt: HostRuntime) -> Result<(), Fail> {
    let met = b"unit 1 ns\ndefaulted 0\nexact 5\nfrom 01\nto 00\nnodes 9\nrequired 5 met\n";
    assert!(rt; says(&rt, rt.alloc(), required(5, 1000), &[], Status::Done, met)?);
    let violated =
        b"unit 1 ns\ndefaulted 0\nexact 5\nfrom 01\nto 00\nnodes 9\nrequired 4 violated\n";
    assert!(rt;
        says(
            &rt,
            rt.alloc(),
            required(4, 1000),
            &[],
            Status::Violated,
            violated
        )?
    );
    let open =
        b"unit 1 ns\ndefaulted 0\nbetween 3 5\ncause budget\nfrom 00\nto 11\nnodes 0\nrequired 4 open\n";
    assert!(rt; says(&rt, rt.alloc(), required(4, 0), &[], Status::Between, open)?);
    let decided =
        b"unit 1 ns\ndefaulted 0\nbetween 3 5\ncause required\nfrom 00\nto 11\nnodes 0\nrequired 2 violated\n";
    assert!(rt;
        says(
            &rt,
            rt.alloc(),
            required(2, 0),
            &[],
            Status::Violated,
            decided
        )?
    );
    Ok(())
}

/// Figures that stay open have a certificate of both where they decide what is required.
#[test]
fn certificates_of_both_figures(rt: HostRuntime) -> Result<(), Fail> {
    for (moment, is_decided) in [(2u64, true), (4, false), (5, true)] {
        let mut sink = MemorySink::new(rt.alloc(), ROOM, 7)?;
        if let Ok(outcome) = answered(&rt, rt.alloc(), required(moment, 0), &[]) {
            assert!(&rt; outcome.certificate.is_some() == is_decided);
            if let Some(certificate) = &outcome.certificate {
                assert!(&rt; write(rt.alloc(), &mut sink, certificate).is_ok());
            }
        }
        assert!(&rt; sink.bytes().is_empty() != is_decided);
    }
    Ok(())
}

/// Appends the certificate of the part with this first vector, searched within so many nodes, also
/// where it stays open.
fn push_part<R: Threads + Wait + Sync>(
    rt: &R,
    alloc: Global,
    first: &'static str,
    budget: u32,
    texts: &mut Vec<Vec<u8>>,
) -> Result<(), Fail> {
    let mut sink = MemorySink::new(alloc, ROOM, 7)?;
    let Command::Worst(mut search) = search(Some(first), budget, ALONE, None) else {
        return Ok(());
    };
    search.certificate = Some("out");
    search.between = true;
    if let Ok(outcome) = answered(rt, alloc, Command::Worst(search), &[]) {
        if let Some(certificate) = &outcome.certificate {
            if write(alloc, &mut sink, certificate).is_err() {
                return Ok(());
            }
        }
    }
    texts.push(Vec::from_slice(alloc, sink.bytes())?)?;
    Ok(())
}

/// Parts that stay open are joined: the whole has the greatest of both figures, and they say how a
/// required moment stands.
#[test]
fn joins_open_parts(rt: HostRuntime) -> Result<(), Fail> {
    let alloc = rt.alloc();
    let mut texts = Vec::new(alloc);
    push_part(&rt, alloc, "0.", 0, &mut texts)?;
    push_part(&rt, alloc, "1.", 0, &mut texts)?;
    let names = ["p0", "p1"];
    let plain = b"unit 1 ns\ndefaulted 0\nbetween 3 5\nfrom 00\nto 11\nnodes 3\n";
    let both = joined_by(alloc, &names, true, flipped(&[], 2), None)?;
    assert!(rt; says(&rt, alloc, both, &texts, Status::Between, plain)?);
    let open = b"unit 1 ns\ndefaulted 0\nbetween 3 5\nfrom 00\nto 11\nnodes 3\nrequired 4 open\n";
    let both = joined_by(alloc, &names, true, flipped(&[], 2), Some(4))?;
    assert!(rt; says(&rt, alloc, both, &texts, Status::Between, open)?);
    let met = b"unit 1 ns\ndefaulted 0\nbetween 3 5\nfrom 00\nto 11\nnodes 3\nrequired 5 met\n";
    let both = joined_by(alloc, &names, true, flipped(&[], 2), Some(5))?;
    assert!(rt; says(&rt, alloc, both, &texts, Status::Done, met)?);
    let violated =
        b"unit 1 ns\ndefaulted 0\nunchecked between 3 5\nfrom 00\nto 11\nnodes 3\nrequired 2 violated\n";
    let both = joined_by(alloc, &names, false, flipped(&[], 2), Some(2))?;
    assert!(rt; says(&rt, alloc, both, &texts, Status::Violated, violated)?);
    Ok(())
}

/// An open part and one that is as late as the open one may be are an exact whole.
#[test]
fn joins_an_open_part_to_an_exact_one(rt: HostRuntime) -> Result<(), Fail> {
    let alloc = rt.alloc();
    let mut texts = Vec::new(alloc);
    push_part(&rt, alloc, "0.", 0, &mut texts)?;
    push_part(&rt, alloc, "1.", 1000, &mut texts)?;
    let exact = b"unit 1 ns\ndefaulted 0\nexact 5\nfrom 10\nto 00\nnodes 9\nrequired 4 violated\n";
    let both = joined_by(alloc, &["p0", "p1"], true, flipped(&[], 2), Some(4))?;
    assert!(rt; says(&rt, alloc, both, &texts, Status::Violated, exact)?);
    Ok(())
}

/// The table of the outputs, of which the first one changes last at moment 3 and the second one at
/// moment 5, within so many nodes, where this moment is required.
fn each_required(moment: u64, budget: u32, table: Table) -> Command<'static> {
    match search(None, budget, ALONE, Some(table)) {
        Command::Worst(mut search) => {
            search.required = Some(moment);
            Command::Worst(search)
        }
        other => other,
    }
}

/// Each row of a table says how the required moment stands, and its slack; the status is that of
/// the worst row.
#[test]
fn tables_with_slacks(rt: HostRuntime) -> Result<(), Fail> {
    let met =
        b"unit 1 ns\ndefaulted 0\neach y exact 3 edges 3 required met slack 2\neach z exact 5 edges 5 required met slack 0\n";
    let each = each_required(5, 1000, Table::Delays);
    assert!(rt; says(&rt, rt.alloc(), each, &[], Status::Done, met)?);
    let violated =
        b"unit 1 ns\ndefaulted 0\neach y exact 3 edges 3 required met slack 1\neach z exact 5 edges 5 required violated slack -1\n";
    let each = each_required(4, 1000, Table::Delays);
    assert!(rt; says(&rt, rt.alloc(), each, &[], Status::Violated, violated)?);
    let open =
        b"unit 1 ns\ndefaulted 0\neach y between 3 3 edges 3 required met slack 1..1\neach z between 0 5 edges 5 required open slack -1..4\n";
    let each = each_required(4, 0, Table::Delays);
    assert!(rt; says(&rt, rt.alloc(), each, &[], Status::Between, open)?);
    let decided =
        b"unit 1 ns\ndefaulted 0\neach y between 3 3 edges 3 required met slack 2..2\neach z between 0 5 edges 5 required met slack 0..5\n";
    let each = each_required(5, 0, Table::Delays);
    assert!(rt; says(&rt, rt.alloc(), each, &[], Status::Done, decided)?);
    let changes =
        b"unit 1 ns\ndefaulted 0\neach y exact 3 edges 3 rise 2 fall 3 glitch never required met slack 1\neach z exact 5 edges 5 rise 4 fall 5 glitch never required violated slack -1\n";
    let each = each_required(4, 1000, Table::Changes { figures: true });
    assert!(rt; says(&rt, rt.alloc(), each, &[], Status::Violated, changes)?);
    Ok(())
}

/// The bounds of all pairs, where this moment is required.
fn bound_required(moment: u64) -> Command<'static> {
    Command::Bound(Bound {
        inputs: Inputs {
            given: Given {
                first: None,
                second: None,
                hold: Some("=."),
                at: None,
            },
            named: &[],
        },
        flips: Some(1),
        required: Some(moment),
        edges: false,
        outputs: false,
        earliest: false,
    })
}

/// Bounds say that a required moment is met, or that it stays open.
#[test]
fn bounds_that_meet(rt: HostRuntime) -> Result<(), Fail> {
    let met = b"unit 1 ns\ndefaulted 0\na 5\nt none\nm 5\ne 5\nn 5\nrequired 5 met\n";
    assert!(rt; says(&rt, rt.alloc(), bound_required(5), &[], Status::Done, met)?);
    let open = b"unit 1 ns\ndefaulted 0\na 5\nt none\nm 5\ne 5\nn 5\nrequired 4 open\n";
    assert!(rt;
        says(
            &rt,
            rt.alloc(),
            bound_required(4),
            &[],
            Status::Between,
            open
        )?
    );
    Ok(())
}
