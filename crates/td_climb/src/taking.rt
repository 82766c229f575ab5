//! From the pair in a lane to an admitted pair.

ghost use Rattle.td_domain.specs.PairBits.{AreAdmitted};

use crate::pairs::Pairs;
use td_domain::{Admit, Bits};

/// Gives an admitted pair the bits of the pair in a lane, if that is admitted. Else it gives some
/// of them, and the pair stays admitted. Inputs whose bits are equal come first, so that never more
/// inputs differ than in the end.
pub fn take(bits: &mut Bits, admit: &Admit, pairs: &Pairs, lane: u32)
    requires { AreAdmitted admit.now bits.old }
    ensures { AreAdmitted admit.now bits.new }
{
    for differs in [false, true] {
        for input in 0..admit.held().len() {
            let (before, after) = pairs.bits(input, lane);
            if (before != after) == differs {
                bits.put(admit, input, before, after);
            }
        }
    }
}
