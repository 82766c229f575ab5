//! An admitted pair whose bits change, and that stays admitted.

ghost use Rattle.std.specs.Prelude.{◌≡◌, ◌*◌, ◌<◌, ◌≤◌, ◌↔◌, length, IsTrue};
ghost use Rattle.td_domain.specs.Admits.{IsAdmitted, flip_of, flips_of};
ghost use Rattle.td_domain.specs.Cubes.{Allows};
ghost use Rattle.td_domain.specs.PairBits.{IsFit, AreAdmitted};

use crate::admits::Admit;
use crate::cubes::Trit;
use crate::pairs::Pair;

/// The bits of an admitted pair, and at how many inputs they differ.
#[derive(Drop)]
pub struct Bits {
    pub first: Vec<bool>,
    pub second: Vec<bool>,
    pub flips: u32,
}

/// Whether a trit allows a bit.
fn allows(trit: Trit, bit: bool) -> bool
    ensures { IsTrue result ↔ Allows trit bit }
{
    match trit {
        Trit::Zero => !bit,
        Trit::One => bit,
        Trit::Free => true,
    }
}

/// Whether the pins allow these bits of an input, and they are equal if it is held.
pub fn fits(admit: &Admit, input: usize, before: bool, after: bool) -> bool
    requires { input < length admit.now.held }
    ensures { IsTrue result ↔ IsFit admit.now input before after }
{
    let pins = admit.pins();
    let is_held = admit.held()[input];
    allows(pins.trit(2 * input), before)
        && allows(pins.trit(2 * input + 1), after)
        && (before == after || !is_held)
}

/// 1 where two bits differ, else 0.
pub fn flip_of(before: bool, after: bool) -> u32
    ensures is { result ≡ flip_of before after }
    ensures few { result ≤ 1 }
{
    if before == after { 0 } else { 1 }
}

/// At how many inputs the bits of two vectors differ.
fn flips_of(first: &[bool], second: &[bool]) -> u32
    requires fit { length second.now ≡ length first.now }
    requires few { length first.now ≤ 4096 }
    ensures { result ≡ flips_of first.now second.now }
{
    let mut flips = 0;
    for (input, before) in first.iter().enumerate() {
        flips += flip_of(*before, second[input]);
    }
    flips
}

impl Bits {
    ghost use Rattle.std.specs.Prelude.{◌≡◌, ◌<◌, ◌≤◌, length};
    ghost use Rattle.td_domain.specs.Admits.{IsAdmitted};
    ghost use Rattle.td_domain.specs.PairBits.{AreAdmitted};

    /// The bits of an admitted pair.
    pub fn of(admit: &Admit, pair: Pair) -> Self
        requires admitted { IsAdmitted admit.now pair }
        requires few { length admit.now.held ≤ 4096 }
        ensures bits { AreAdmitted admit.now result }
        ensures first { result.first.items ≡ pair.first }
        ensures second { result.second.items ≡ pair.second }
    {
        // For the prover: this call says that there are two pins for each input.
        let _pins = admit.pins();
        let flips = flips_of(pair.first(), pair.second());
        let (first, second) = pair.into_vectors();
        Bits {
            first,
            second,
            flips,
        }
    }

    /// The bits of an admitted pair, written over those of another one.
    pub fn written_over(admit: &Admit, pair: &Pair, other: Pair) -> Self
        requires admitted { IsAdmitted admit.now pair.now }
        requires other { IsAdmitted admit.now other }
        requires few { length admit.now.held ≤ 4096 }
        ensures bits { AreAdmitted admit.now result }
        ensures first { result.first.items ≡ pair.now.first }
        ensures second { result.second.items ≡ pair.now.second }
    {
        // For the prover: this call says that there are two pins for each input.
        let _pins = admit.pins();
        let flips = flips_of(pair.first(), pair.second());
        let (mut first, mut second) = other.into_vectors();
        first.copy_from_slice(pair.first());
        second.copy_from_slice(pair.second());
        Bits {
            first,
            second,
            flips,
        }
    }

    /// Gives an input these bits, where the pair stays admitted.
    pub fn put(&mut self, admit: &Admit, input: usize, before: bool, after: bool)
        requires input { input < length admit.now.held }
        requires bits { AreAdmitted admit.now self.old }
        ensures { AreAdmitted admit.now self.new }
    {
        let others = self.flips - flip_of(self.first[input], self.second[input]);
        let flip = flip_of(before, after);
        if flip <= admit.flips() - others && fits(admit, input, before, after) {
            self.first[input] = before;
            self.second[input] = after;
            self.flips = others + flip;
        }
    }

    /// The pair.
    pub fn into_pair(self) -> Pair
        ensures { result ≡ record { first = self.first.items; second = self.second.items } }
    {
        Pair::new(self.first, self.second)
    }
}
