//! The least cube that has the pins of all certificates, and whether pins lie in a cube.

ghost use Rattle.std.specs.Prelude.{◌≡◌, ◌≢◌, ◌<◌, length, false, IfOk, IfErr, OnOk, IsTrue, All, slice_get, Some};
ghost use Rattle.td_domain.specs.declared.cubes.Trit.{Trit as TritModel};
ghost use Rattle.td_join.specs.Faults.{IsInside, IsOutside, IsOutsideAt, IsOutsideIn};
ghost use Rattle.td_join.specs.Joining.{pins_of, widest, both, hull};

use crate::fault::JoinFault;
use std::alloc::{AllocError, Global};
use td_certificate::Certificate;
use td_domain::{Cube, Trit};

/// The trit that allows what one of the two allows.
fn widest(this: Trit, that: Trit) -> Trit
    ensures { result ≡ widest this that }
{
    match (this, that) {
        (Trit::Zero, Trit::Zero) => Trit::Zero,
        (Trit::One, Trit::One) => Trit::One,
        _ => Trit::Free,
    }
}

/// Frees the positions of a cube at which another one has another trit.
#[tactic(auto, using(crate::proofs::Widening::all_widened))]
fn widen(cube: &mut Cube, other: &Cube)
    requires { length cube.old ≡ length other.now }
    ensures { cube.new ≡ both cube.old other.now }
{
    for position in 0..cube.len() {
        cube.set(position, widest(cube.trit(position), other.trit(position)));
    }
}

/// The least cube that has the pins of all certificates. The error is out of memory.
#[tactic(auto, using(crate::proofs::Widening::hull_at_end))]
pub fn hull(
    alloc: Global,
    first: &Certificate,
    certificates: &[Certificate],
) -> Result<Cube, AllocError>
    requires first { slice_get certificates.now 0 ≡ Some first.now }
    requires fit { All (λ c. length (pins_of c) ≡ length (pins_of first.now)) certificates.now }
    ensures { IfOk result (λ cube. cube ≡ hull certificates.now) }
{
    let mut cube = first.question.admit().pins().copy(alloc)?;
    for certificate in certificates {
        widen(&mut cube, certificate.question.admit().pins());
    }
    Ok(cube)
}

/// Whether a bit is pinned, and another trit isn't the same.
fn is_pinned_otherwise(pinned: Trit, trit: Trit) -> bool
    ensures other { IsTrue result → (pinned ≢ TritModel.Free) × (trit ≢ pinned) }
    ensures same { result ≡ false → pinned ≢ TritModel.Free → trit ≡ pinned }
{
    match (pinned, trit) {
        (Trit::Zero, Trit::One | Trit::Free) | (Trit::One, Trit::Zero | Trit::Free) => true,
        _ => false,
    }
}

/// Whether the cube isn't a part of the pins: it has another number of positions, or at one of them
/// not the bit that is pinned.
#[tactic(auto, using(crate::proofs::Widening::outside_by_length))]
fn is_outside(cube: &Cube, pins: &Cube) -> bool
    ensures outside { IsTrue result → IsOutside pins.now cube.now }
    ensures inside { result ≡ false → IsInside pins.now cube.now }
{
    if cube.len() != pins.len() {
        return true;
    }
    for position in 0..pins.len() {
        if is_pinned_otherwise(pins.trit(position), cube.trit(position)) {
            return true;
        }
    }
    false
}

/// Whether a certificate's pins are a part of these. The error says that they aren't.
fn inside(certificate: &Certificate, place: usize, pins: &Cube) -> Result<(), JoinFault<usize>>
    ensures ok { OnOk result (IsInside pins.now (pins_of certificate.now)) }
    ensures fault { IfErr result (IsOutsideAt certificate.now pins.now place) }
{
    if is_outside(certificate.question.admit().pins(), pins) {
        return Err(JoinFault::Outside(place));
    }
    Ok(())
}

/// Whether the pins of all certificates are parts of these. The error says whose aren't.
pub fn all_inside(certificates: &[Certificate], pins: &Cube) -> Result<(), JoinFault<usize>>
    ensures ok { OnOk result (All (λ c. IsInside pins.now (pins_of c)) certificates.now) }
    ensures fault { IfErr result (IsOutsideIn certificates.now pins.now) }
{
    for (place, certificate) in certificates.iter().enumerate() {
        inside(certificate, place, pins)?;
    }
    Ok(())
}
