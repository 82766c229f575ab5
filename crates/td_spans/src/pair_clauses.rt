//! Clauses whose literals no admitted pair of a cube makes false at once.

ghost use Rattle.std.specs.Prelude.{◌≡◌, ◌+◌, ◌*◌, ◌≤◌, ℕ, length, slice_get, unwrap_or, Some, None as Nothing, IfOk, if◌then◌else◌};
ghost use Rattle.td_spans.specs.Changing.{sum_of, fixed_at};
ghost use Rattle.td_spans.specs.Pairs.{trit_of, position_of, denied_bit, with_trit, with_bit, narrowed, held_differs, flips_of, flips_or, first_flips, reaches, is_empty, is_pairs_clause};

use crate::net_clauses::level_is;
use crate::sayings::variable_of;
use crate::signals::{fixed_flip, is_held};
use crate::variable::Variable;
use crate::variables::Variables;
use std::alloc::{AllocError, Global};
use td_domain::{Admit, Cube, Trit};
use td_propagation::Literal;

// The trit of a bit.
fn trit_of(bit: bool) -> Trit
    ensures { result ≡ trit_of bit }
{
    if bit { Trit::One } else { Trit::Zero }
}

// The position of a bit of an input, in the first or the second vector.
fn position_of(net: u32, side: u64, bit: bool) -> Option<(u64, bool)>
    requires { side ≤ 1 }
    ensures { result ≡ position_of net side bit }
{
    if net < 2 {
        None
    } else {
        Some((2 * (net as u64 - 2) + side, bit))
    }
}

// The position and the bit that a literal says when it is denied.
fn denied_bit(variables: &Variables, literal: Literal) -> Option<(u64, bool)>
    ensures { result ≡ denied_bit literal.positive (slice_get variables.now literal.variable) }
{
    match variables.get(literal.variable as usize) {
        None => None,
        Some(variable) => match variable {
            Variable::First(net) => position_of(net, 0, !literal.positive),
            Variable::Last(net) => position_of(net, 1, !literal.positive),
            Variable::Span(_saying) => None,
            Variable::Flips(_inputs, _count) => None,
        },
    }
}

// The trit at a position, if there is one.
fn trit_at(cube: &Cube, position: u64) -> Option<Trit>
    ensures { result ≡ slice_get cube.now position }
{
    if position < cube.len() as u64 {
        Some(cube.trit(position as usize))
    } else {
        None
    }
}

// Puts a bit at a free position. Answers whether the other bit doesn't stand there.
fn put(cube: &mut Cube, position: u64, bit: bool) -> bool
    ensures { with_trit cube.old position bit (slice_get cube.old position) ≡ (if result then Some cube.new else Nothing) }
{
    match trit_at(cube, position) {
        None => true,
        Some(trit) => match trit {
            Trit::Zero => !bit,
            Trit::One => bit,
            Trit::Free => {
                cube.set(position as usize, trit_of(bit));
                true
            }
        },
    }
}

// Puts a bit at a position of the cube, if there is one. Answers whether the other bit doesn't
// stand there.
fn put_bit(cube: &mut Cube, bit: Option<(u64, bool)>) -> bool
    ensures { with_bit cube.old bit ≡ (if result then Some cube.new else Nothing) }
{
    match bit {
        None => true,
        Some((position, bit)) => put(cube, position, bit),
    }
}

// Puts the bits that literals say when they are denied into the cube. Answers whether none
// contradicts what stands there.
fn narrow(variables: &Variables, clause: &[Literal], cube: &mut Cube) -> bool
    ensures { narrowed variables.now cube.old clause.now ≡ (if result then Some cube.new else Nothing) }
{
    for literal in clause {
        if !put_bit(cube, denied_bit(variables, *literal)) {
            return false;
        }
    }
    true
}

// 1 where an input surely differs, else 0.
fn fixed_at(cube: &Cube, input: u64) -> usize
    requires { 2 * input + 1 ≤ 18446744073709551615 }
    ensures fixed { result ≡ fixed_at cube.now input }
    ensures few { result ≤ 1 }
{
    let first = trit_at(cube, 2 * input);
    let second = trit_at(cube, 2 * input + 1);
    match first {
        None => 0,
        Some(first) => match second {
            None => 0,
            Some(second) => fixed_flip(first, second),
        },
    }
}

// How many of the first inputs surely differ.
fn fixed_before(cube: &Cube, inputs: u32) -> u64
    ensures fixed { result ≡ sum_of (fixed_at cube.now) inputs }
    ensures few { result ≤ inputs }
{
    let mut fixed = 0u64;
    for input in 0..inputs as u64 {
        fixed += fixed_at(cube, input) as u64;
    }
    fixed
}

// Whether an input that is held surely differs.
fn held_differs(held: &[bool], cube: &Cube) -> bool
    ensures { result ≡ held_differs held.now cube.now (length held.now) }
{
    let mut differs = false;
    for input in 0..held.len() {
        differs = differs || (is_held(held, input) && fixed_at(cube, input as u64) > 0);
    }
    differs
}

// Of how many first inputs a variable says how many differ, and how many.
fn flips_of(variable: Option<Variable>) -> Option<(u32, u64)>
    ensures { result ≡ flips_of variable }
{
    match variable {
        None => None,
        Some(variable) => match variable {
            Variable::First(_net) => None,
            Variable::Last(_net) => None,
            Variable::Span(_saying) => None,
            Variable::Flips(inputs, count) => Some((inputs, count)),
        },
    }
}

// What a literal counts, where its sign is this one.
fn flips_at(same: bool, flips: Option<(u32, u64)>) -> Option<(u32, u64)>
    ensures { (rest : ℕ × ℕ) → flips_or same flips rest ≡ unwrap_or result rest }
{
    if same { flips } else { None }
}

// What the first literal with this sign counts.
fn first_flips(sign: bool, variables: &Variables, clause: &[Literal]) -> Option<(u32, u64)>
    ensures { (rest : ℕ × ℕ) → first_flips sign variables.now clause.now rest ≡ unwrap_or result rest }
{
    for literal in clause {
        let flips = flips_of(variable_of(variables, *literal));
        match flips_at(level_is(literal.positive, sign), flips) {
            Some(some) => return Some(some),
            None => {}
        }
    }
    None
}

// Whether at least so many of more first inputs differ where so many of the first inputs do, by
// those between that surely differ.
fn reaches(cube: &Cube, low: (u32, u64), high: (u32, u64)) -> bool
    ensures { result ≡ reaches cube.now low high }
{
    let between = fixed_before(cube, high.0).saturating_sub(fixed_before(cube, low.0));
    low.0 <= high.0 && high.1 as u128 <= low.1 as u128 + between as u128
}

// Whether no admitted pair lies in a narrowed cube, where so many inputs differ, and not so many.
fn is_empty(held: &[bool], low: (u32, u64), high: (u32, u64), cube: &Cube) -> bool
    ensures { result ≡ is_empty held.now low high (Some cube.now) }
{
    held_differs(held, cube) || reaches(cube, low, high)
}

// What the literals that aren't negated leave.
fn high_of(flips: Option<(u32, u64)>, inputs: u32, most: u32) -> (u32, u64)
    ensures { result ≡ unwrap_or flips (inputs, most + 1) }
{
    match flips {
        None => (inputs, most as u64 + 1),
        Some(some) => some,
    }
}

// What the negated literals leave.
fn low_of(flips: Option<(u32, u64)>) -> (u32, u64)
    ensures { result ≡ unwrap_or flips (0, 0) }
{
    match flips {
        None => (0, 0),
        Some(some) => some,
    }
}

/// Whether no admitted pair of the cube makes all literals of a clause false. The error is out of
/// memory.
pub fn is_pairs_clause(
    alloc: Global,
    inputs: u32,
    admit: &Admit,
    cube: &Cube,
    variables: &Variables,
    clause: &[Literal],
) -> Result<bool, AllocError>
    ensures { IfOk result (λ answer. answer ≡ is_pairs_clause inputs admit.now cube.now variables.now clause.now) }
{
    let low = low_of(first_flips(false, variables, clause));
    let high = high_of(first_flips(true, variables, clause), inputs, admit.flips());
    let mut narrowed = cube.copy(alloc)?;
    let fits = narrow(variables, clause, &mut narrowed);
    Ok(!fits || is_empty(admit.held(), low, high, &narrowed))
}
