//! Whether parts are of the question that is asked.

ghost use Rattle.std.specs.Prelude.{◌≡◌, ◌↔◌, IsTrue, IfNone, IfSome};
ghost use Rattle.td_answer.specs.Differences.{AsksSame, DiffersIn};

use td_certificate::Question;
use td_question::Asked;
use td_refutation::NamedCondition;

/// In what parts are of another question than the one that is asked, but for pins.
#[derive(Clone, Copy, Debug, PartialEq, Eq, Drop)]
pub enum Difference {
    /// Other inputs are held.
    Hold,
    /// The bits of another number of inputs may differ.
    Flips,
    /// Inputs change at other moments.
    Moments,
    /// Pairs keep other conditions.
    Conditions,
}

/// Whether the same inputs are held.
fn hold_same(this: &[bool], that: &[bool]) -> bool
    ensures { IsTrue result ↔ (this.now ≡ that.now) }
{
    this == that
}

/// Whether these are the same conditions.
fn keep_same(this: &[NamedCondition], that: &[NamedCondition]) -> bool
    ensures { IsTrue result ↔ (this.now ≡ that.now) }
{
    this == that
}

/// In what a question differs from the one that is asked, if it does, but for pins.
pub(crate) fn differing(asked: &Asked, question: &Question) -> Option<Difference>
    ensures same { IfNone result (AsksSame asked.now.circuit.moments (record { admit = asked.now.admit; keep = asked.now.keep.items }) question.now) }
    ensures differs { IfSome result (DiffersIn asked.now.circuit.moments (record { admit = asked.now.admit; keep = asked.now.keep.items }) question.now) }
{
    let Asked {
        circuit,
        admit,
        keep,
        ..
    } = asked;
    let found = question.admit();
    if !hold_same(found.held(), admit.held()) {
        return Some(Difference::Hold);
    }
    if found.flips() != admit.flips() {
        return Some(Difference::Flips);
    }
    if question.moments() != circuit.moments() {
        return Some(Difference::Moments);
    }
    if !keep_same(question.keep(), keep) {
        return Some(Difference::Conditions);
    }
    None
}
