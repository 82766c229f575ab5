//! Whether certificates tell the same terms, where they tell any.

ghost use Rattle.std.specs.Prelude.{◌≡◌, ◌<◌, ◌↔◌, IsTrue, IfOk, IfErr, OnOk, All, List, length, slice_get, Some};
ghost use Rattle.td_domain.specs.declared.cubes.Trit.{Trit};
ghost use Rattle.td_join.specs.Joining.{AreMerged, HasTerms};
ghost use Rattle.td_join.specs.Faults.{IsOtherTerms, IsOtherTermsIn, IsJoinFault};

use crate::fault::JoinFault;
use std::alloc::{AllocError, Global};
use td_certificate::{Certificate, Question, Terms};
use td_refutation::NamedCondition;

/// Whether both are the same numbers.
fn are_same(this: &[u64], that: &[u64]) -> bool
    ensures { IsTrue result ↔ (this.now ≡ that.now) }
{
    this == that
}

/// Whether both name the same outputs.
fn name_same(this: &Terms, that: &Terms) -> bool
    ensures { IsTrue result ↔ (this.now.outputs ≡ that.now.outputs) }
{
    match (&this.outputs, &that.outputs) {
        (None, None) => true,
        (Some(this), Some(that)) => are_same(this, that),
        _ => false,
    }
}

/// Whether both are the same conditions.
fn keep_same(this: &[NamedCondition], that: &[NamedCondition]) -> bool
    ensures { IsTrue result ↔ (this.now ≡ that.now) }
{
    this == that
}

/// Whether both are the same terms.
fn tell_same(this: &Terms, that: &Terms) -> bool
    ensures { IsTrue result ↔ (this.now ≡ that.now) }
{
    this.rise == that.rise
        && this.fall == that.fall
        && name_same(this, that)
        && keep_same(&this.keep, &that.keep)
}

/// The place of the first certificate that tells terms, and 0 where none does.
fn teller(certificates: &[Certificate]) -> usize
    requires { 0 < length certificates.now }
    ensures { result < length certificates.now }
{
    for (place, certificate) in certificates.iter().enumerate() {
        if certificate.question.terms().is_some() {
            return place;
        }
    }
    0
}

/// Whether the second question tells the terms of the first, or none where these have no condition.
fn are_merged(whole: &Question, part: &Question) -> bool
    ensures { IsTrue result ↔ AreMerged whole.now.terms part.now.terms }
{
    match (whole.terms(), part.terms()) {
        (_, None) => whole.keep().is_empty(),
        (None, Some(_)) => false,
        (Some(whole), Some(part)) => tell_same(whole, part),
    }
}

/// Whether a certificate tells the terms of another one, or none. The error says that it doesn't.
fn merge(
    first: &Certificate,
    at: usize,
    other: &Certificate,
    place: usize,
) -> Result<(), JoinFault<usize>>
    ensures ok { OnOk result (AreMerged first.now.question.terms other.now.question.terms) }
    ensures fault { IfErr result (IsOtherTerms first.now at other.now place) }
{
    if are_merged(&first.question, &other.question) {
        Ok(())
    } else {
        Err(JoinFault::OtherTerms(at, place))
    }
}

/// Whether all certificates tell the terms of this one, or none. The error says which doesn't.
fn merge_all(
    first: &Certificate,
    at: usize,
    certificates: &[Certificate],
) -> Result<(), JoinFault<usize>>
    requires { slice_get certificates.now at ≡ Some first.now }
    ensures ok { OnOk result (All (λ c. AreMerged first.now.question.terms c.question.terms) certificates.now) }
    ensures fault { IfErr result (IsOtherTermsIn certificates.now) }
{
    for (place, other) in certificates.iter().enumerate() {
        merge(first, at, other, place)?;
    }
    Ok(())
}

/// A copy of terms. The error is out of memory.
fn copied(alloc: Global, terms: &Terms) -> Result<Terms, AllocError>
    ensures { IfOk result (λ copy. copy ≡ terms.now) }
{
    let outputs = match &terms.outputs {
        None => None,
        Some(numbers) => Some(Vec::from_slice(alloc, numbers)?),
    };
    Ok(Terms {
        rise: terms.rise,
        fall: terms.fall,
        outputs,
        keep: Vec::from_slice(alloc, &terms.keep)?,
    })
}

/// The terms that certificates tell, where some tell any.
///
/// # Errors
///
/// Two that tell other terms. `OutOfMemory` where a growth was refused.
pub fn merged_terms(
    alloc: Global,
    certificates: &[Certificate],
) -> Result<Option<Terms>, JoinFault<usize>>
    requires { 0 < length certificates.now }
    ensures merged { IfOk result (λ terms. All (λ c. AreMerged terms c.question.terms) certificates.now) }
    ensures told { IfOk result (HasTerms certificates.now) }
    ensures fault { (pins : List Trit) → IfErr result (IsJoinFault certificates.now pins) }
{
    let at = teller(certificates);
    let first = &certificates[at];
    merge_all(first, at, certificates)?;
    match first.question.terms() {
        None => Ok(None),
        Some(terms) => Ok(Some(copied(alloc, terms)?)),
    }
}
