//! Each way to leave the subset by its tokens, and each fault with a line of its own.

use crate::drivers::{Taken, taken_net};
use crate::netlists::{Leaving, way_of};
use crate::{certificates, joins, netlists, verdicts};
use std::alloc::{AllocError, Global};
use std::test::*;
use td_certificate::CertFaultKind;
use td_checker::Verdict;
use td_domain::Cube;
use td_join::JoinFault;
use td_netlist::{Fault, FaultKind};
use td_refutation::Flaw;

/// Tokens at which texts leave the subset, and how.
const TOKENS: [(&[u8], Leaving); 28] = [
    (b"DFFX1", Leaving::Cell),
    (b"sky130_fd_sc_hd__inv_1", Leaving::Cell),
    (b"\\u1.g ", Leaving::Cell),
    (b"assign", Leaving::Behaviour),
    (b"always", Leaving::Behaviour),
    (b"reg", Leaving::Behaviour),
    (b"parameter", Leaving::Behaviour),
    (b"module", Leaving::Module),
    (b"inout", Leaving::Undriving),
    (b"supply0", Leaving::Undriving),
    (b"bufif1", Leaving::Undriving),
    (b"nmos", Leaving::Undriving),
    (b"strong0", Leaving::Strength),
    (b"pull1", Leaving::Strength),
    (b"(", Leaving::Strength),
    (b"#", Leaving::NetDelay),
    (b",", Leaving::ThirdDelay),
    (b":", Leaving::Choice),
    (b"[", Leaving::Instances),
    (b"4'b1010", Leaving::Constant),
    (b"'b0", Leaving::Constant),
    (b".", Leaving::Named),
    (b"`define", Leaving::Directive),
    (b"(*", Leaving::Attribute),
    (b"$display", Leaving::Other),
    (b"\"", Leaving::Other),
    (b"?", Leaving::Other),
    (b"", Leaving::Other),
];

#[test]
fn tokens_leave_in_their_way(rt: HostRuntime) -> Result<(), Fail> {
    for (token, way) in &TOKENS {
        assert!(rt; way_of(token) == *way);
    }
    Ok(())
}

/// Whether a text is one line without its end, of what a terminal shows.
fn is_line(text: &[u8]) -> bool {
    !text.is_empty() && text.iter().all(|byte| 32 <= *byte && *byte < 127)
}

const KINDS: [FaultKind<'static>; 16] = [
    FaultKind::OutOfMemory,
    FaultKind::BadByte,
    FaultKind::UnexpectedEnd,
    FaultKind::Syntax,
    FaultKind::OutOfSubset(b"assign"),
    FaultKind::ZeroDelay,
    FaultKind::DelayTooFine,
    FaultKind::DelayTooLarge,
    FaultKind::Redeclared,
    FaultKind::UnknownBit,
    FaultKind::WidthNotOne,
    FaultKind::TwoDrivers,
    FaultKind::DrivenInput,
    FaultKind::Undriven,
    FaultKind::TooMany,
    FaultKind::PortUndeclared,
];

#[test]
fn faults_of_netlists_have_lines(rt: HostRuntime) -> Result<(), Fail> {
    for kind in KINDS {
        assert!(rt; is_line(netlists::sentence(kind)));
        assert!(rt; is_line(netlists::advice(kind)));
    }
    for (_, way) in &TOKENS {
        assert!(rt; is_line(way.sentence()));
        assert!(rt; is_line(way.advice()));
    }
    assert!(rt;
        netlists::sentence(FaultKind::OutOfSubset(b"assign")) == Leaving::Behaviour.sentence()
    );
    assert!(rt; netlists::advice(FaultKind::OutOfSubset(b"DFFX1")) == Leaving::Cell.advice());
    Ok(())
}

const CERTIFICATE_KINDS: [CertFaultKind; 7] = [
    CertFaultKind::OutOfMemory,
    CertFaultKind::Syntax,
    CertFaultKind::UnexpectedEnd,
    CertFaultKind::Trailing,
    CertFaultKind::NumberTooLarge,
    CertFaultKind::Version,
    CertFaultKind::TooLong,
];

#[test]
fn faults_of_certificates_have_lines(rt: HostRuntime) -> Result<(), Fail> {
    for kind in CERTIFICATE_KINDS {
        assert!(rt; is_line(certificates::sentence(kind)));
        assert!(rt; is_line(certificates::advice(kind)));
    }
    Ok(())
}

const VERDICTS: [Verdict; 13] = [
    Verdict::Accepted,
    Verdict::PairTime,
    Verdict::LeafBound(7),
    Verdict::LeafAboveTime(7),
    Verdict::BadPosition(7),
    Verdict::NotAPoint(7),
    Verdict::OtherCircuit,
    Verdict::PairNotAdmitted,
    Verdict::LeafNotEmpty(7),
    Verdict::BadStep(7, Flaw::WrongNumbers),
    Verdict::BadStep(7, Flaw::LateVariable),
    Verdict::BadStep(7, Flaw::NotGood),
    Verdict::OtherQuestion(3),
];

#[test]
fn verdicts_have_lines(rt: HostRuntime) -> Result<(), Fail> {
    for verdict in VERDICTS {
        assert!(rt; is_line(verdicts::sentence(verdict)));
        assert!(rt; is_line(verdicts::advice(verdict)));
    }
    Ok(())
}

#[test]
fn faults_of_joins_have_lines(rt: HostRuntime) -> Result<(), Fail> {
    let faults: [JoinFault<usize>; 12] = [
        JoinFault::OutOfMemory,
        JoinFault::NoCertificate,
        JoinFault::OtherCircuit(0, 1),
        JoinFault::OtherHold(0, 1),
        JoinFault::OtherFlips(0, 1),
        JoinFault::OtherMoments(0, 1),
        JoinFault::OtherTerms(0, 1),
        JoinFault::Outside(0),
        JoinFault::Overlap(0, 1),
        JoinFault::Crossed(0, 1),
        JoinFault::Gap(Cube::free(rt.alloc(), 2)?),
        JoinFault::FalseNone(0),
    ];
    for fault in &faults {
        assert!(rt; is_line(joins::sentence(fault)));
        assert!(rt; is_line(joins::advice(fault)));
    }
    Ok(())
}

/// A text in which line 3 drives nets of line 2, and an input of line 1.
const TAKING: &[u8] = b"module t(output [1:0] y, input a);
buf (y[0], y[1], z, a);
not (y[01], a), (z, a), (a, z);
endmodule
";

/// What is found for a fault of this kind at line 3.
fn taken_by(alloc: Global, kind: FaultKind<'_>) -> Result<Option<Taken>, AllocError> {
    taken_net(alloc, TAKING, Fault { kind, line: 3 })
}

/// Whether it is the net of this name and bit, and this line.
fn is_taken(found: Option<Taken>, name: &[u8], bit: Option<u32>, line: u32) -> bool {
    match found {
        Some(found) => {
            found.net.text.as_slice() == name && found.net.bit == bit && found.line == line
        }
        None => false,
    }
}

#[test]
fn nets_that_are_taken_are_found(rt: HostRuntime) -> Result<(), Fail> {
    let twice = taken_by(rt.alloc(), FaultKind::TwoDrivers)?;
    assert!(rt; is_taken(twice, b"y", Some(1), 2));
    let input = taken_by(rt.alloc(), FaultKind::DrivenInput)?;
    assert!(rt; is_taken(input, b"a", None, 1));
    assert!(rt; taken_by(rt.alloc(), FaultKind::Undriven)?.is_none());
    Ok(())
}
