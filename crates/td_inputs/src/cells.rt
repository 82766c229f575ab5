//! What two words say of the inputs together.

ghost use Rattle.std.specs.Prelude.{◌≡◌, length, IfOk, IfSome, ◌<◌};
ghost use Rattle.td_inputs.specs.Cells.{agree, clash_from, either, together};

use std::alloc::{AllocError, Global};

/// Whether two words say nothing different of one input.
fn agree(one: Option<u64>, other: Option<u64>) -> bool
    ensures { result ≡ agree one other }
{
    match (one, other) {
        (Some(one), Some(other)) => one == other,
        _ => true,
    }
}

/// What two words say of one input together.
fn either(one: Option<u64>, other: Option<u64>) -> Option<u64>
    ensures { result ≡ either one other }
{
    match one {
        Some(one) => Some(one),
        None => other,
    }
}

/// The first input of which two words say something different, if there is one.
pub fn clash(ones: &[Option<u64>], others: &[Option<u64>]) -> Option<usize>
    requires { length ones.now ≡ length others.now }
    ensures first { result ≡ clash_from 0 ones.now others.now }
    ensures within { IfSome result (λ place. place < length ones.now) }
{
    for (place, one) in ones.iter().enumerate() {
        if !agree(*one, others[place]) {
            return Some(place);
        }
    }
    None
}

/// What two words say of each input together.
pub fn together(
    alloc: Global,
    ones: &[Option<u64>],
    others: &[Option<u64>],
) -> Result<Vec<Option<u64>>, AllocError>
    requires { length ones.now ≡ length others.now }
    ensures both { IfOk result (λ cells. cells.items ≡ together ones.now others.now) }
    ensures each { IfOk result (λ cells. length cells.items ≡ length ones.now) }
{
    let mut cells = Vec::new(alloc);
    for (place, one) in ones.iter().enumerate() {
        cells.push(either(*one, others[place]))?;
    }
    Ok(cells)
}
