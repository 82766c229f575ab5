//! Searches for each output, as tables.

use crate::answers::{ALONE, says, search};
use std::test::*;
use td_answer::Status;
use td_request::Table;

/// Each output alone.
#[test]
fn searches_each(rt: HostRuntime) -> Result<(), Fail> {
    let report = b"unit 1 ns\ndefaulted 0\neach y exact 3 edges 3\neach z exact 5 edges 5\n";
    assert!(rt;
        says(
            &rt,
            rt.alloc(),
            search(None, 1000, ALONE, Some(Table::Delays)),
            &[],
            Status::Done,
            report
        )?
    );
    let short = b"unit 1 ns\ndefaulted 0\neach y between 3 3 edges 3\neach z between 0 5 edges 5\n";
    assert!(rt;
        says(
            &rt,
            rt.alloc(),
            search(None, 0, ALONE, Some(Table::Delays)),
            &[],
            Status::Between,
            short
        )?
    );
    Ok(())
}

/// The changes of each output, by the levels at which it settles.
#[test]
fn searches_changes(rt: HostRuntime) -> Result<(), Fail> {
    let report =
        b"unit 1 ns\ndefaulted 0\neach y exact 3 edges 3 rise 2 fall 3 glitch never\neach z exact 5 edges 5 rise 4 fall 5 glitch never\n";
    let changes = Table::Changes { figures: true };
    assert!(rt;
        says(
            &rt,
            rt.alloc(),
            search(None, 1000, ALONE, Some(changes)),
            &[],
            Status::Done,
            report
        )?
    );
    let open =
        b"unit 1 ns\ndefaulted 0\neach y between 3 3 edges 3 rise none..3 fall none..3 glitch none..3\neach z between 0 5 edges 5 rise none..5 fall none..5 glitch none..5\n";
    assert!(rt;
        says(
            &rt,
            rt.alloc(),
            search(None, 0, ALONE, Some(changes)),
            &[],
            Status::Between,
            open
        )?
    );
    Ok(())
}

/// The hazards of each output.
#[test]
fn searches_hazards(rt: HostRuntime) -> Result<(), Fail> {
    let report =
        b"unit 1 ns\ndefaulted 0\nhazard y 0 never\nhazard y 1 never\nhazard z 0 never\nhazard z 1 never\n";
    assert!(rt;
        says(
            &rt,
            rt.alloc(),
            search(None, 1000, ALONE, Some(Table::Hazards)),
            &[],
            Status::Done,
            report
        )?
    );
    let open =
        b"unit 1 ns\ndefaulted 0\nhazard y 0 open\nhazard y 1 open\nhazard z 0 open\nhazard z 1 open\n";
    assert!(rt;
        says(
            &rt,
            rt.alloc(),
            search(None, 0, ALONE, Some(Table::Hazards)),
            &[],
            Status::Between,
            open
        )?
    );
    Ok(())
}
