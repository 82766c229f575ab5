//! Why the parts of a question aren't joined.

ghost use Rattle.std.specs.Prelude.{◌≡◌, ◌++◌, OnOk};
ghost use Rattle.td_answer.specs.Refusals.{two_text, one_text, gap_text, unjoined_text, other_question_text};

use crate::difference::Difference;
use crate::pins;
use std::alloc::AllocError;
use td_domain::Cube;
use td_join::JoinFault;
use td_lines::Text;

/// Two certificates that aren't joined, and why.
fn two(out: &mut Text, one: &str, other: &str, why: &[u8]) -> Result<(), AllocError>
    ensures { OnOk result (out.new ≡ out.old ++ two_text one.now other.now why.now) }
{
    out.word_behind(b"cannot join ", one)?;
    out.word_between(b" and ", other, b": ")?;
    out.push(why)
}

/// One that is joined with none, and why.
fn one(out: &mut Text, one: &str, why: &[u8]) -> Result<(), AllocError>
    ensures { OnOk result (out.new ≡ out.old ++ one_text one.now why.now) }
{
    out.word_between(b"", one, b": ")?;
    out.push(why)
}

/// The pins for which a part is missing.
fn gap(out: &mut Text, cube: &Cube) -> Result<(), AllocError>
    ensures { OnOk result (out.new ≡ out.old ++ gap_text cube.now) }
{
    out.push(b"no part for --first ")?;
    pins::push_trits(out, cube, false)?;
    out.push(b" --second ")?;
    pins::push_trits(out, cube, true)
}

/// Why certificates aren't joined, by the names of their files.
pub(crate) fn unjoined(out: &mut Text, fault: &JoinFault<&str>) -> Result<(), AllocError>
    ensures { OnOk result (out.new ≡ out.old ++ unjoined_text fault.now) }
{
    match fault {
        JoinFault::OutOfMemory => out.push(b"out of memory"),
        JoinFault::NoCertificate => out.push(b"no certificate"),
        JoinFault::OtherCircuit(this, that) => two(out, this, that, b"other circuits"),
        JoinFault::OtherHold(this, that) => two(out, this, that, b"other inputs held"),
        JoinFault::OtherFlips(this, that) => two(out, this, that, b"other flips"),
        JoinFault::OtherMoments(this, that) => two(out, this, that, b"other input times"),
        JoinFault::OtherTerms(this, that) => two(out, this, that, b"other terms"),
        JoinFault::Outside(this) => one(out, this, b"other pins"),
        JoinFault::Overlap(this, that) => two(out, this, that, b"a pair in both"),
        JoinFault::Crossed(this, that) => two(out, this, that, b"no position parts them"),
        JoinFault::Gap(cube) => gap(out, cube),
        JoinFault::FalseNone(this) => one(out, this, b"a leaf without a pair"),
    }
}

/// In what parts are of another question than the one that is asked.
pub(crate) fn other_question(out: &mut Text, difference: Difference) -> Result<(), AllocError>
    ensures { OnOk result (out.new ≡ out.old ++ other_question_text difference) }
{
    match difference {
        Difference::Hold => out.push(b"parts of another question: other inputs held"),
        Difference::Flips => out.push(b"parts of another question: other flips"),
        Difference::Moments => out.push(b"parts of another question: other input times"),
        Difference::Conditions => out.push(b"parts of another question: other conditions"),
    }
}
