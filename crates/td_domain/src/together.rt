//! The bound that two domains give together, from a sheet of each.

ghost use Rattle.std.specs.Prelude.{◌≡◌, ℕ, ◌<◌, ◌^◌, Option, Some, length, map, filter_map, slice_get};
ghost use Rattle.std.specs.List.{All};
ghost use Rattle.td_circuit.specs.Numbering.{setting};
ghost use Rattle.td_domain.specs.Bounds.{IsBound, IsUpperBoundIn, greatest_bound};
ghost use Rattle.td_domain.specs.Sheets.{IsSheet};
ghost use Rattle.td_domain.specs.Together.{both_functions, lesser, pairs};

use crate::domain::Domain;
use crate::sheet::Sheet;
use td_circuit::Circuit;

/// The bound of a cube by two domains together (`Both`), from a sheet of each of them with this
/// cube.
pub fn bound_together<A: Domain, B: Domain>(
    circuit: &Circuit,
    first: &Sheet<A>,
    second: &Sheet<B>,
) -> Option<u64>
    requires first { IsSheet A.functions A.reach circuit.now first.now }
    requires second { IsSheet B.functions B.reach circuit.now second.now }
    requires cube { second.now.cube ≡ first.now.cube }
    ensures bound { IsBound (both_functions A.functions B.functions) (setting circuit.now) first.now.cube result }
    ensures only { (other : Option ℕ) → IsBound (both_functions A.functions B.functions) (setting circuit.now) first.now.cube other → other ≡ result }
    ensures sound { (moment : ℕ) → result ≡ Some moment → IsUpperBoundIn (setting circuit.now) first.now.cube moment }
    ensures small { (moment : ℕ) → result ≡ Some moment → moment < 10 ^ 15 }
{
    // For the prover: this call says that the gates are in order.
    let _numbering = circuit.gates();
    greatest_of_both::<A, B>(first.signals(), second.signals(), circuit.outputs())
}

/// The greatest of what the two domains know of these nets together.
fn greatest_of_both<A: Domain, B: Domain>(
    first: &[A::Sig],
    second: &[B::Sig],
    nets: &[u32],
) -> Option<u64>
    requires within { All (λ net. net < length first.now) nets.now }
    requires len { length second.now ≡ length first.now }
    ensures { result ≡ greatest_bound (map (λ signal. lesser (A.functions.last_of signal.0) (B.functions.last_of signal.1)) (filter_map (slice_get (pairs first.now second.now)) nets.now)) }
{
    let mut latest = 0;
    for net in nets {
        let place = *net as usize;
        latest = last_of_both::<A, B>(&first[place], &second[place])?.max(latest);
    }
    Some(latest)
}

/// The lesser of the last moments that are there.
fn last_of_both<A: Domain, B: Domain>(first: &A::Sig, second: &B::Sig) -> Option<u64>
    ensures { result ≡ lesser (A.functions.last_of first.now) (B.functions.last_of second.now) }
{
    match (A::last(first), B::last(second)) {
        (Some(a), Some(b)) => Some(a.min(b)),
        (Some(a), None) => Some(a),
        (None, b) => b,
    }
}
