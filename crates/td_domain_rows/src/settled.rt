//! The levels to which a circuit settles.

use crate::circuits::circuit_of;
use crate::texts::module;
use std::test::*;
use td_gates::Level;
use td_run::settle;

/// Under a at 0 the inverter's output b is 1, and y, which is 1 only where a and b are, is 0. The
/// constants come first, then inputs and gates.
#[test]
fn a_lost_pulse_settled(rt: HostRuntime) -> Result<(), Fail> {
    let alloc = rt.alloc();
    let text = module(alloc, "a", "y", "not #1 n(b,a); and #2 g(y,a,b);")?;
    let circuit = circuit_of(alloc, &text).ok_or("a circuit")?;
    assert_eq!(rt; circuit.input_count(), 1);
    let levels = settle(alloc, &circuit, &[Level::Zero])?;
    assert_eq!(rt;
        levels.as_slice(),
        [
            Level::Zero,
            Level::One,
            Level::Zero,
            Level::One,
            Level::Zero
        ]
        .as_slice()
    );
    Ok(())
}
