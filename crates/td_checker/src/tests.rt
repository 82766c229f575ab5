//! Checks that a stop ends.

use crate::{CheckFault, Verdict, check_told, check_told_until};
use std::alloc::{AllocError, Global};
use std::test::*;
use td_gates::Delay;
use td_reading::{Reading, Told};
use td_stop::Stop;

/// An `and` that falls at 4 although its second input may fall at 1.
const EARLY: &[u8] =
    b"module t(a, y); input a; output y; buf #1 p(b,a); and #(1,4) g(y,a,b); endmodule";

/// Certificates of it, with each kind of leaf, and their verdicts.
const CERTIFICATES: [(&[u8], Verdict); 6] = [
    (
        b"tdelay-cert 1\ncircuit 1 2\ntime 4\nfrom 1\nto 0\nb a 5\n",
        Verdict::LeafAboveTime(6),
    ),
    (
        b"tdelay-cert 1\ncircuit 1 2\ntime 4\nfrom 1\nto 0\ns 0\ns 1\nb a 0\nb a 2\nb a 5\n",
        Verdict::LeafAboveTime(10),
    ),
    (
        b"tdelay-cert 1\ncircuit 1 2\ntime 4\nfrom 1\nto 0\ns 0\ns 1\np 0\np 2\ns 1\np 4\np 0\n",
        Verdict::Accepted,
    ),
    (
        b"tdelay-cert 1\ncircuit 1 2\ntime 3\nfrom 1\nto 0\nb a 5\n",
        Verdict::PairTime,
    ),
    (
        b"tdelay-cert 4\ncircuit 1 2\ndefault 1 1\noutput all\nfirst .\nsecond .\nhold .\nflips 1\n\
          at 0\nkeep none\ntime 4\nhigh 4\nfrom 1\nto 0\nx\nf 2\nf 3\nf 4\nw 4 0 5\nt 2 1\nt 4 1 3\n\
          g 6 0\ne 4 0 5 2 4 6 2 0 1\nq 4\n",
        Verdict::Accepted,
    ),
    (
        b"tdelay-cert 4\ncircuit 1 2\ndefault 1 1\noutput all\nfirst .\nsecond .\nhold .\nflips 1\n\
          at 0\nkeep none\ntime none\nnone\n",
        Verdict::LeafNotEmpty(12),
    ),
];

/// What is told of how the netlist is read: nothing.
const NOTHING: Told = Told {
    rise: false,
    fall: false,
    outputs: false,
};

/// The verdict on a certificate of the circuit. The error is out of memory, or a text that is
/// refused.
fn verdict(alloc: Global, certificate: &[u8]) -> Result<Verdict, AllocError> {
    let reading = Reading::whole(alloc, Delay { rise: 1, fall: 1 });
    match check_told(alloc, EARLY, &reading, NOTHING, certificate) {
        Ok(checked) => Ok(checked.verdict),
        Err(_) => Err(AllocError),
    }
}

/// The verdict until the stop is set. The error is that of `verdict`.
fn verdict_until(
    alloc: Global,
    certificate: &[u8],
    stop: &Stop,
) -> Result<Option<Verdict>, AllocError> {
    let reading = Reading::whole(alloc, Delay { rise: 1, fall: 1 });
    match check_told_until(alloc, EARLY, &reading, NOTHING, certificate, stop) {
        Ok(Some(checked)) => Ok(Some(checked.verdict)),
        Ok(None) => Ok(None),
        Err(_) => Err(AllocError),
    }
}

/// A stop that is set.
fn set() -> Stop {
    let stop = Stop::new();
    stop.set();
    stop
}

/// A stop that isn't set changes nothing, whether it can be set or not.
#[test]
fn a_stop_that_is_not_set(rt: HostRuntime) -> Result<(), Fail> {
    let alloc = rt.alloc();
    let never = Stop::never();
    never.set();
    for (certificate, expected) in &CERTIFICATES {
        assert_eq!(rt; verdict(alloc, certificate)?, *expected);
        assert_eq!(rt;
            verdict_until(alloc, certificate, &Stop::new())?,
            Some(*expected)
        );
        assert_eq!(rt; verdict_until(alloc, certificate, &never)?, Some(*expected));
    }
    Ok(())
}

/// A stop that is set ends a check before the first line of the tree, whatever the line says. What
/// is found before it stays.
#[test]
fn a_stop_that_is_set(rt: HostRuntime) -> Result<(), Fail> {
    let alloc = rt.alloc();
    for (certificate, expected) in &CERTIFICATES {
        let found = verdict_until(alloc, certificate, &set())?;
        if *expected == Verdict::PairTime {
            assert_eq!(rt; found, Some(Verdict::PairTime));
        } else {
            assert_eq!(rt; found, None);
        }
    }
    Ok(())
}

/// A text that is refused is refused after a stop too.
#[test]
fn a_fault_after_a_stop(rt: HostRuntime) -> Result<(), Fail> {
    let alloc = rt.alloc();
    let reading = Reading::whole(alloc, Delay { rise: 1, fall: 1 });
    let refused = match check_told_until(alloc, EARLY, &reading, NOTHING, b"no", &set()) {
        Err(CheckFault::Certificate(_)) => true,
        _ => false,
    };
    assert!(rt; refused);
    Ok(())
}
