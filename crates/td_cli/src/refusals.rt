//! What a refusal of a text means, and what to do.

use crate::lines::{at_line, help, name_between, of_file, of_two, quote};
use std::alloc::{AllocError, Global};
use td_answer::Difference;
use td_certificate::CertFault;
use td_checker::Verdict;
use td_hints::drivers::{Taken, taken_net};
use td_hints::{certificates, joins, netlists, verdicts};
use td_join::JoinFault;
use td_lines::Text;
use td_netlist::{Fault, FaultKind};
use td_nets::Name;

/// The netlist's file and its text.
#[derive(Clone, Copy, Drop)]
pub(crate) struct NetlistText<'t> {
    pub(crate) file: &'t str,
    pub(crate) bytes: &'t [u8],
}

/// Appends what to do where memory runs out.
pub(crate) fn memory(text: &mut Text) -> Result<(), AllocError> {
    text.push(b"memory ran out")?;
    help(
        text,
        b"give it more memory (ulimit -v shows the limit), or a smaller netlist, --budget or --workers",
    )
}

/// Appends what to do where a run can't be timed.
pub(crate) fn no_timer(text: &mut Text) -> Result<(), AllocError> {
    text.push(b"the system gives no thread for a timer, or no clock")?;
    help(
        text,
        b"fewer --workers, or no --seconds and no --stop: --budget limits a search too",
    )
}

/// Appends what is wrong with the netlist's text, with the line.
pub(crate) fn netlist_fault(
    alloc: Global,
    text: &mut Text,
    netlist: NetlistText<'_>,
    fault: Fault<'_>,
) -> Result<(), AllocError> {
    match taken_net(alloc, netlist.bytes, fault)? {
        Some(taken) => net_taken(text, netlist.file, fault, &taken)?,
        None => wrong_text(text, netlist.file, fault)?,
    }
    quote(text, netlist.bytes, fault.line)?;
    help(text, netlists::advice(fault.kind))
}

/// Appends what is wrong with a text, with the line, where no net is named.
fn wrong_text(text: &mut Text, file: &str, fault: Fault<'_>) -> Result<(), AllocError> {
    match fault.kind {
        FaultKind::OutOfSubset(token) => {
            at_line(text, file, fault.line, token)?;
            text.push(b": ")?;
            text.push(netlists::sentence(fault.kind))
        }
        kind => at_line(text, file, fault.line, netlists::sentence(kind)),
    }
}

/// Appends which net a gate output drives, at the line of this fault, and what it was before.
fn net_taken(
    text: &mut Text,
    file: &str,
    fault: Fault<'_>,
    taken: &Taken,
) -> Result<(), AllocError> {
    let (front, back) = match fault.kind {
        FaultKind::DrivenInput => (netlists::INPUT_FRONT, netlists::INPUT_BACK),
        _ => (netlists::SECOND_FRONT, netlists::SECOND_BACK),
    };
    at_line(text, file, fault.line, front)?;
    name_between(text, b" ", &taken.net, back)?;
    text.number(u64::from(taken.line))
}

/// Appends which net lies on a loop.
pub(crate) fn on_loop(text: &mut Text, file: &str, name: &Name) -> Result<(), AllocError> {
    of_file(text, file, netlists::LOOP_FRONT)?;
    name_between(text, b" ", name, b" ")?;
    text.push(netlists::LOOP_BACK)?;
    help(text, netlists::LOOP_ADVICE)
}

/// Appends what is wrong with a certificate's text.
pub(crate) fn certificate_fault(
    text: &mut Text,
    name: &str,
    fault: CertFault,
) -> Result<(), AllocError> {
    at_line(text, name, fault.line, certificates::sentence(fault.kind))?;
    help(text, certificates::advice(fault.kind))
}

/// Appends why a certificate isn't accepted.
pub(crate) fn not_accepted(
    text: &mut Text,
    name: &str,
    verdict: Verdict,
) -> Result<(), AllocError> {
    match verdict.line() {
        Some(line) => at_line(text, name, line, verdicts::sentence(verdict))?,
        None => of_file(text, name, verdicts::sentence(verdict))?,
    }
    help(text, verdicts::advice(verdict))
}

/// Appends why certificates aren't joined.
pub(crate) fn not_joined(text: &mut Text, fault: &JoinFault<&str>) -> Result<(), AllocError> {
    match fault {
        JoinFault::OutOfMemory | JoinFault::NoCertificate | JoinFault::Gap(_) => {
            text.push(joins::sentence(fault))?
        }
        JoinFault::Outside(one) | JoinFault::FalseNone(one) => {
            of_file(text, one, joins::sentence(fault))?
        }
        JoinFault::OtherCircuit(one, other)
        | JoinFault::OtherHold(one, other)
        | JoinFault::OtherFlips(one, other)
        | JoinFault::OtherMoments(one, other)
        | JoinFault::OtherTerms(one, other)
        | JoinFault::Overlap(one, other)
        | JoinFault::Crossed(one, other) => of_two(text, one, other, joins::sentence(fault))?,
    }
    help(text, joins::advice(fault))
}

/// Appends in what the parts are of another question than the one that is asked.
pub(crate) fn other_question(text: &mut Text, difference: Difference) -> Result<(), AllocError> {
    text.push(match difference {
        Difference::Hold =>
            b"the parts have other inputs held than join is told (--hold)".as_slice(),
        Difference::Flips => b"the parts have another --flips than join is told".as_slice(),
        Difference::Moments => b"the parts have another --at than join is told".as_slice(),
        Difference::Conditions => b"the parts have another --keep than join is told".as_slice(),
    })?;
    help(
        text,
        b"give join the options about inputs that the parts were searched with",
    )
}

/// Appends what to do where a write fails, or where memory runs out after the answer.
pub(crate) fn not_written(text: &mut Text) -> Result<(), AllocError> {
    text.push(b"a write failed, or memory ran out: see the line above")?;
    help(
        text,
        b"a write: look at the room on the disk (df) and at who may write there; what had the name is as it was",
    )?;
    help(
        text,
        b"memory: give it more, or a smaller netlist or --budget",
    )
}

/// Appends that no pair is admitted.
pub(crate) fn no_pair(text: &mut Text) -> Result<(), AllocError> {
    text.push(b"no pair of vectors keeps --first, --second, --hold and --flips at once")?;
    help(text, b"loosen one of these options, or leave it out")
}

/// Appends that a file would be written over another.
pub(crate) fn one_file(text: &mut Text, out: &str, file: &str) -> Result<(), AllocError> {
    text.word_between(b"to write ", out, b" would overwrite ")?;
    text.word_between(
        b"",
        file,
        b", which this command reads or writes; nothing was done",
    )?;
    help(text, b"give --cert or --vcd another name")
}

/// Appends that what certificates are joined into is too large.
pub(crate) fn too_long(text: &mut Text) -> Result<(), AllocError> {
    text.push(b"the joined certificate would have more than 10,000,000 nodes")?;
    help(
        text,
        b"check the certificates of the parts one by one: tdelay check FILE CERT",
    )
}

/// Appends that a run, or a check, wasn't done in time.
pub(crate) fn out_of_time(text: &mut Text) -> Result<(), AllocError> {
    text.push(b"the seconds were over before this was done")?;
    help(text, b"more --seconds, or none")
}

/// Appends why a file can't be read, where the system says it.
pub(crate) fn unreadable(
    text: &mut Text,
    name: &str,
    reason: Option<&'static [u8]>,
) -> Result<(), AllocError> {
    match reason {
        Some(reason) => of_file(text, name, reason)?,
        None => of_file(text, name, b"the system gives no bytes of it")?,
    }
    help(
        text,
        b"look at the path, from the folder that the command runs in; - is standard input",
    )
}

/// Appends why a file can't be written, where the system says it.
pub(crate) fn unwritable(
    text: &mut Text,
    name: &str,
    reason: Option<&'static [u8]>,
) -> Result<(), AllocError> {
    match reason {
        Some(reason) => {
            of_file(text, name, reason)?;
            help(text, b"give another name, or make the folder first")
        }
        None => not_written(text),
    }
}
