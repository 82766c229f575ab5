//! What a whole claims, by what its parts claim.

ghost use Rattle.std.specs.Prelude.{◌≡◌, ◌<◌, true, false, IfOk, All, length, slice_get, Some};
ghost use Rattle.td_certificate.specs.declared.certificate.Certificate.{Certificate as Reported};
ghost use Rattle.td_certificate.specs.Accepts.{high_of};
ghost use Rattle.td_join.specs.Joining.{time_of, IsNotAbove, IsWholeClaim};
ghost use Rattle.td_join.specs.Claims.{high_or, raised};

use std::alloc::{AllocError, Global};
use td_certificate::{Certificate, Claim};

/// The moment that the claim's pair reaches.
fn time_of(claim: &Option<Claim>) -> Option<u64>
    ensures { result ≡ time_of claim.now }
{
    match claim {
        None => None,
        Some(claim) => Some(claim.time),
    }
}

/// The moment after which, by the claim, no admitted pair changes an output.
fn high_of(claim: &Option<Claim>) -> Option<u64>
    ensures { result ≡ high_of claim.now }
{
    match claim {
        None => None,
        Some(claim) => Some(claim.high),
    }
}

/// Whether a moment is above another one.
fn is_above(this: Option<u64>, that: Option<u64>) -> bool
    ensures above { result ≡ true → IsNotAbove that this }
    ensures not_above { result ≡ false → IsNotAbove this that }
{
    match (this, that) {
        (None, _) => false,
        (Some(_), None) => true,
        (Some(this), Some(that)) => this > that,
    }
}

/// Whether a certificate's time is above that of another one.
fn is_later(this: &Certificate, that: &Certificate) -> bool
    ensures later { result ≡ true → IsNotAbove (time_of that.now.claim) (time_of this.now.claim) }
    ensures not_later { result ≡ false → IsNotAbove (time_of this.now.claim) (time_of that.now.claim) }
{
    is_above(time_of(&this.claim), time_of(&that.claim))
}

/// Whether a certificate's high is above that of another one.
fn is_higher(this: &Certificate, that: &Certificate) -> bool
    ensures higher { result ≡ true → IsNotAbove (high_of that.now.claim) (high_of this.now.claim) }
    ensures not_higher { result ≡ false → IsNotAbove (high_of this.now.claim) (high_of that.now.claim) }
{
    is_above(high_of(&this.claim), high_of(&that.claim))
}

/// The place of a certificate with the greatest time.
fn latest(certificates: &[Certificate]) -> usize
    requires { 0 < length certificates.now }
    ensures within { result < length certificates.now }
    ensures greatest { (worst : Reported) → slice_get certificates.now result ≡ Some worst
        → All (λ c. IsNotAbove (time_of c.claim) (time_of worst.claim)) certificates.now }
{
    let mut greatest = 0;
    for (place, certificate) in certificates.iter().enumerate() {
        if is_later(certificate, &certificates[greatest]) {
            greatest = place;
        }
    }
    greatest
}

/// The place of a certificate with the greatest high.
fn highest(certificates: &[Certificate]) -> usize
    requires { 0 < length certificates.now }
    ensures within { result < length certificates.now }
    ensures greatest { (worst : Reported) → slice_get certificates.now result ≡ Some worst
        → All (λ c. IsNotAbove (high_of c.claim) (high_of worst.claim)) certificates.now }
{
    let mut greatest = 0;
    for (place, certificate) in certificates.iter().enumerate() {
        if is_higher(certificate, &certificates[greatest]) {
            greatest = place;
        }
    }
    greatest
}

/// The high of a claim, or this where there is none.
fn high_or(high: u64, other: &Option<Claim>) -> u64
    ensures { result ≡ high_or high other.now }
{
    match other {
        None => high,
        Some(other) => other.high,
    }
}

/// The claim with the high of the other one. The error is out of memory.
fn raised(
    alloc: Global,
    claim: &Option<Claim>,
    other: &Option<Claim>,
) -> Result<Option<Claim>, AllocError>
    ensures { IfOk result (λ whole. whole ≡ raised claim.now other.now) }
{
    match claim {
        None => Ok(None),
        Some(claim) => {
            let high = high_or(claim.high, other);
            Ok(Some(Claim {
                time: claim.time,
                high,
                pair: claim.pair.copy(alloc)?,
            }))
        }
    }
}

/// What the whole of these certificates claims: the greatest time with its pair, and the greatest
/// high. The error is out of memory.
pub fn claim_of(alloc: Global, certificates: &[Certificate]) -> Result<Option<Claim>, AllocError>
    requires { 0 < length certificates.now }
    ensures { IfOk result (IsWholeClaim certificates.now) }
{
    let late = &certificates[latest(certificates)];
    let high = &certificates[highest(certificates)];
    let claim = raised(alloc, &late.claim, &high.claim)?;
    Ok(claim)
}
