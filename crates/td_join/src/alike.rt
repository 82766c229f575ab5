//! Whether certificates are of one circuit and, but for their pins, of one question.

ghost use Rattle.std.specs.Prelude.{◌≡◌, ◌↔◌, IsTrue, IfErr, OnOk, All, slice_get, Some};
ghost use Rattle.td_certificate.specs.Trees.{IsTree};
ghost use Rattle.td_join.specs.Faults.{IsUnlike, IsUnlikeIn};
ghost use Rattle.td_join.specs.Joining.{IsAlike};
ghost use Rattle.td_join.specs.Steps.{HasFit};

use crate::fault::JoinFault;
use td_certificate::Certificate;

/// Whether the same inputs are held.
fn hold_alike(this: &[bool], that: &[bool]) -> bool
    ensures { IsTrue result ↔ (this.now ≡ that.now) }
{
    this == that
}

/// Whether a certificate is as the first one. The error says what they differ in.
fn alike(first: &Certificate, place: usize, other: &Certificate) -> Result<(), JoinFault<usize>>
    ensures ok { OnOk result (IsAlike first.now other.now) }
    ensures tree { IsTree other.now.tree }
    ensures fit { HasFit other.now }
    ensures fault { IfErr result (IsUnlike first.now other.now place) }
{
    // For the prover: these calls say that there is one tree, and two pins for each input.
    let _nodes = other.tree.nodes();
    let _pins = other.question.admit().pins();
    if first.gates != other.gates || first.question.inputs() != other.question.inputs() {
        return Err(JoinFault::OtherCircuit(0, place));
    }
    let admit = first.question.admit();
    let others = other.question.admit();
    if !hold_alike(admit.held(), others.held()) {
        return Err(JoinFault::OtherHold(0, place));
    }
    if admit.flips() != others.flips() {
        return Err(JoinFault::OtherFlips(0, place));
    }
    if first.question.moments() != other.question.moments() {
        return Err(JoinFault::OtherMoments(0, place));
    }
    Ok(())
}

/// Whether all certificates are as the first one. The error says which isn't, and what it differs
/// in.
pub fn all_alike(first: &Certificate, certificates: &[Certificate]) -> Result<(), JoinFault<usize>>
    requires { slice_get certificates.now 0 ≡ Some first.now }
    ensures ok { OnOk result (All (IsAlike first.now) certificates.now) }
    ensures trees { OnOk result (All (λ c. IsTree c.tree) certificates.now) }
    ensures fit { OnOk result (All HasFit certificates.now) }
    ensures fault { IfErr result (IsUnlikeIn certificates.now) }
{
    for (place, other) in certificates.iter().enumerate() {
        alike(first, place, other)?;
    }
    Ok(())
}
