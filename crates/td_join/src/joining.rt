//! Joining certificates.

ghost use Rattle.std.specs.Prelude.{◌≡◌, ◌<◌, ◌≤◌, true, false, List, IfOk, IfErr, All, length, slice_get, Some};
ghost use Rattle.td_nets.specs.Netlist.{Netlist};
ghost use Rattle.td_domain.specs.declared.cubes.Trit.{Trit};
ghost use Rattle.td_certificate.specs.declared.certificate.Certificate.{Certificate as Reported};
ghost use Rattle.td_certificate.specs.Accepts.{Accepts};
ghost use Rattle.td_certificate.specs.Spelling.{HasSpelling};
ghost use Rattle.td_certificate.specs.Trees.{IsTree};
ghost use Rattle.td_join.specs.Joining.{pins_of, whole_question, AreMerged, HasTerms, IsAlike, IsJoined, hull};
ghost use Rattle.td_join.specs.Faults.{IsInside, IsJoinFault};
ghost use Rattle.td_join.specs.Steps.{HasFit};
ghost use Rattle.td_join.specs.Stacks.{IsOfQuestion};

use crate::alike::all_alike;
use crate::claims::claim_of;
use crate::fault::JoinFault;
use crate::growing::joined_nodes;
use crate::hulls::{all_inside, hull};
use crate::nones::without_false_none;
use crate::parts::numbered;
use crate::terms::merged_terms;
use std::alloc::{AllocError, Global};
use td_certificate::{Certificate, Question, Terms, Tree};
use td_domain::{Admit, Cube};

/// Joins certificates that are of one circuit and one question but for their pins.
fn join_alike(
    alloc: Global,
    certificates: Vec<Certificate>,
    gates: u32,
    question: Question,
) -> Result<Certificate, JoinFault<usize>>
    requires some { 0 < length certificates.items }
    requires alike { All (IsOfQuestion gates question) certificates.items }
    requires trees { All (λ c. IsTree c.tree) certificates.items }
    requires fit { All HasFit certificates.items }
    requires within { All (λ c. IsInside question.admit.pins (pins_of c)) certificates.items }
    requires terms { All (λ c. AreMerged question.terms c.question.terms) certificates.items }
    requires told { HasTerms certificates.items question.terms }
    ensures joined { IfOk result (IsJoined certificates.items question.admit.pins) }
    ensures accepted { IfOk result (λ whole. (netlist : Netlist) → All (Accepts netlist) certificates.items → Accepts netlist whole) }
    ensures spelled { IfOk result (λ whole. All HasSpelling certificates.items → HasSpelling whole) }
    ensures fault { IfErr result (IsJoinFault certificates.items question.admit.pins) }
{
    without_false_none(&question, &certificates)?;
    let admit = question.admit();
    // For the prover: this call says that there are two pins for each input.
    let _fit = admit.pins();
    let claim = claim_of(alloc, &certificates)?;
    let parts = numbered(alloc, certificates)?;
    let nodes = joined_nodes(alloc, admit, parts)?;
    Ok(Certificate {
        gates,
        question,
        claim,
        tree: Tree::from_nodes(nodes),
    })
}

/// The first certificate, as which all others are.
fn alike_first(certificates: &[Certificate]) -> Result<&Certificate, JoinFault<usize>>
    ensures first { IfOk result (λ first. slice_get certificates.now 0 ≡ Some first.now) }
    ensures alike { IfOk result (λ first. All (IsAlike first.now) certificates.now) }
    ensures trees { IfOk result (λ first. All (λ c. IsTree c.tree) certificates.now) }
    ensures fit { IfOk result (λ first. All HasFit certificates.now) }
    ensures fault { (pins : List Trit) → IfErr result (IsJoinFault certificates.now pins) }
{
    let Some(first) = certificates.first() else {
        return Err(JoinFault::NoCertificate);
    };
    all_alike(first, certificates)?;
    Ok(first)
}

/// The question of the whole: that of the first certificate, with these pins and terms. The error
/// is out of memory.
fn question_with(
    alloc: Global,
    first: &Certificate,
    pins: Cube,
    terms: Option<Terms>,
) -> Result<Question, AllocError>
    requires { length pins ≡ length (pins_of first.now) }
    ensures { IfOk result (λ question. question ≡ whole_question first.now.question pins terms) }
{
    let admit = first.question.admit();
    // For the prover: this call says that there are two pins for each input.
    let _fit = admit.pins();
    let held = Vec::from_slice(alloc, admit.held())?;
    let flips = admit.flips();
    let moments = Vec::from_slice(alloc, first.question.moments())?;
    let question = Question::new(Admit::new(pins, held, flips), moments);
    match terms {
        None => Ok(question),
        Some(terms) => Ok(question.with_terms(terms)),
    }
}

/// Joins certificates of parts of one question into one certificate, whose pins are these, two for
/// each input. What lies in the pins and in no certificate's has to be without an admitted pair.
///
/// # Errors
///
/// One that is there of: no certificate; one that isn't as the first; one whose pins aren't a part
/// of these; two that tell other terms; a leaf of one that says that no admitted pair lies in its
/// cube, where all pairs are admitted; what keeps them from being joined. `OutOfMemory` where a
/// growth was refused.
pub fn join_in(
    alloc: Global,
    certificates: Vec<Certificate>,
    pins: &Cube,
) -> Result<Certificate, JoinFault<usize>>
    // They are joined into one with these pins. Where a netlist accepts each of them, it accepts
    // the whole, and where each has a text, the whole has one.
    ensures joined { IfOk result (IsJoined certificates.items pins.now) }
    ensures accepted { IfOk result (λ whole. (netlist : Netlist) → All (Accepts netlist) certificates.items → Accepts netlist whole) }
    ensures spelled { IfOk result (λ whole. All HasSpelling certificates.items → HasSpelling whole) }
    ensures fault { IfErr result (IsJoinFault certificates.items pins.now) }
{
    let first = alike_first(&certificates)?;
    all_inside(&certificates, pins)?;
    let gates = first.gates;
    let terms = merged_terms(alloc, &certificates)?;
    let question = question_with(alloc, first, pins.copy(alloc)?, terms)?;
    join_alike(alloc, certificates, gates, question)
}

/// As `join_in`, with the least cube that has the pins of all certificates.
pub fn join(alloc: Global, certificates: Vec<Certificate>) -> Result<Certificate, JoinFault<usize>>
    ensures joined { IfOk result (IsJoined certificates.items (hull certificates.items)) }
    ensures accepted { IfOk result (λ whole. (netlist : Netlist) → All (Accepts netlist) certificates.items → Accepts netlist whole) }
    ensures spelled { IfOk result (λ whole. All HasSpelling certificates.items → HasSpelling whole) }
    ensures fault { IfErr result (IsJoinFault certificates.items (hull certificates.items)) }
{
    let first = alike_first(&certificates)?;
    let pins = hull(alloc, first, &certificates)?;
    join_in(alloc, certificates, &pins)
}
