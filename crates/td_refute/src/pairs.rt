//! Pairs that a search found.

ghost use Rattle.std.specs.Prelude.{◌≤◌, length, IfOk};
ghost use Rattle.td_domain.specs.Admits.{IsAdmitted};
ghost use Rattle.td_domain.specs.PairBits.{AreAdmitted};

use std::alloc::{AllocError, Global};
use td_domain::{Admit, Bits, Pair};
use td_span_search::PairBits;

/// The admitted pair with these bits, if it is one, else with some of them: an admitted pair that
/// takes one input's bits after another. The error is out of memory.
pub fn pair_with(
    alloc: Global,
    admit: &Admit,
    start: &Pair,
    bits: &PairBits,
) -> Result<Pair, AllocError>
    requires start { IsAdmitted admit.now start.now }
    requires few { length admit.now.held ≤ 4096 }
    ensures { IfOk result (IsAdmitted admit.now) }
{
    let mut pair = Bits::of(admit, start.copy(alloc)?);
    put_all(admit, bits, false, &mut pair);
    put_all(admit, bits, true, &mut pair);
    Ok(pair.into_pair())
}

// Gives a pair the bits of those inputs whose bits differ, or of those where they are equal, where
// it stays admitted.
fn put_all(admit: &Admit, bits: &PairBits, differs: bool, pair: &mut Bits)
    requires { AreAdmitted admit.now pair.old }
    ensures { AreAdmitted admit.now pair.new }
{
    for input in 0..admit.held().len() {
        let (first, second) = bits.bits(input);
        if (first != second) == differs {
            pair.put(admit, input, first, second);
        }
    }
}
