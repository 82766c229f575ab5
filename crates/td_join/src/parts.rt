//! The certificates that are joined, and the groups into which they are parted.

ghost use Rattle.std.specs.Prelude.{◌≡◌, ◌<◌, IfOk, All, slice_get, length, Some, MatchOption};
ghost use Rattle.std.specs.List.{list_all};
ghost use Rattle.td_domain.specs.declared.cubes.Trit.TheVariants.{Free};
ghost use Rattle.td_certificate.specs.Cubes.{zero_side, one_side};
ghost use Rattle.td_join.specs.Joining.{pins_of, is_known, AreKnownAt};
ghost use Rattle.td_join.specs.Steps.{certificates_of, IsPlaced, AreInOrder, zero_parts, one_parts, IsUncut};

use std::alloc::{AllocError, Global};
use td_certificate::Certificate;
use td_domain::{Cube, Trit};

/// A certificate and its place among those that are joined.
#[derive(Debug, Drop)]
pub struct Part {
    pub place: usize,
    pub certificate: Certificate,
}

/// A cube, and the parts that are joined to its tree.
#[derive(Debug, Drop)]
pub struct Group {
    pub cube: Cube,
    pub parts: Vec<Part>,
}

impl Part {
    /// The cube that the certificate's admitted pairs lie in.
    pub fn pins(&self) -> &Cube
        ensures { result.now ≡ pins_of self.now.certificate }
    {
        self.certificate.question.admit().pins()
    }
}

/// The certificates with their places. The error is out of memory.
#[tactic(auto, using(crate::proofs::Parting::one_more, crate::proofs::Parting::placed_more))]
pub fn numbered(alloc: Global, certificates: Vec<Certificate>) -> Result<Vec<Part>, AllocError>
    ensures all { IfOk result (λ parts. certificates_of parts.items ≡ certificates.items) }
    ensures placed { IfOk result (λ parts. All (IsPlaced certificates.items) parts.items) }
    ensures order { IfOk result (λ parts. AreInOrder parts.items) }
{
    let mut parts = Vec::with_capacity(alloc, certificates.len())?;
    for certificate in certificates {
        let place = parts.len();
        parts.push(Part { place, certificate })?;
    }
    Ok(parts)
}

/// The trit that stands at a position of the part's pins, if the position is there.
fn pin_at(part: &Part, position: usize) -> Option<Trit>
    ensures { result ≡ slice_get (pins_of part.now.certificate) position }
{
    let pins = part.pins();
    if position < pins.len() {
        Some(pins.trit(position))
    } else {
        None
    }
}

/// Whether 0 or 1 stands at a position of the part's pins.
fn is_known_at(part: &Part, position: usize) -> bool
    ensures { result ≡ is_known (slice_get (pins_of part.now.certificate) position) }
{
    matches!(pin_at(part, position), Some(Trit::Zero | Trit::One))
}

/// Whether 0 or 1 stands at a position of the pins of each part.
fn are_known_at(parts: &[Part], position: usize) -> bool
    ensures { result ≡ list_all (λ part. is_known (slice_get (pins_of part.certificate) position)) parts.now }
{
    parts.iter().all(|part| is_known_at(part, position))
}

/// The least position that is free in the cube and known in each part, if there is one.
pub fn common_position(group: &Group) -> Option<usize>
    ensures { MatchOption result (IsUncut group.now) (λ position. (slice_get group.now.cube position ≡ Some Free) × AreKnownAt position (certificates_of group.now.parts.items)) }
{
    for position in 0..group.cube.len() {
        if group.cube.trit(position) == Trit::Free && are_known_at(&group.parts, position) {
            return Some(position);
        }
    }
    None
}

/// The parts that have 0 at a position, and those that have 1. The error is out of memory.
fn sides(
    alloc: Global,
    parts: Vec<Part>,
    position: usize,
) -> Result<(Vec<Part>, Vec<Part>), AllocError>
    ensures zeros { IfOk result (λ both. both.0.items ≡ zero_parts position parts.items) }
    ensures ones { IfOk result (λ both. both.1.items ≡ one_parts position parts.items) }
{
    let mut zeros = Vec::new(alloc);
    let mut ones = Vec::new(alloc);
    for part in parts {
        match pin_at(&part, position) {
            Some(Trit::Zero) => zeros.push(part)?,
            Some(Trit::One) => ones.push(part)?,
            Some(Trit::Free) | None => {}
        }
    }
    Ok((zeros, ones))
}

/// The two halves of a group at a position. The error is out of memory.
pub fn halves(alloc: Global, group: Group, position: usize) -> Result<(Group, Group), AllocError>
    requires { position < length group.cube }
    ensures low_cube { IfOk result (λ both. both.0.cube ≡ zero_side group.cube position) }
    ensures low { IfOk result (λ both. both.0.parts.items ≡ zero_parts position group.parts.items) }
    ensures high_cube { IfOk result (λ both. both.1.cube ≡ one_side group.cube position) }
    ensures high { IfOk result (λ both. both.1.parts.items ≡ one_parts position group.parts.items) }
{
    let Group { cube, parts } = group;
    let (zeros, ones) = sides(alloc, parts, position)?;
    let mut high = cube.copy(alloc)?;
    high.set(position, Trit::One);
    let mut low = cube;
    low.set(position, Trit::Zero);
    Ok((
        Group {
            cube: low,
            parts: zeros,
        },
        Group {
            cube: high,
            parts: ones,
        },
    ))
}
