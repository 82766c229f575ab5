//! Three domains at once.

use crate::circuits::circuit_of;
use crate::texts::module;
use std::alloc::Global;
use std::test::*;
use td_arrival::Arrival;
use td_domain::{Both, Cube, Trit, bound};
use td_ternary::Possible;

/// The pair from 00 to 11, alone.
fn one_pair(alloc: Global) -> Result<Cube, Fail> {
    Ok(Cube::new(vec![in alloc; Trit::Zero, Trit::One, Trit::Zero, Trit::One]?))
}

/// Two ways meet at an exclusive or, where a pulse of one moment is lost: arrivals alone say 4.
#[test]
fn bound_by_three_domains(rt: HostRuntime) -> Result<(), Fail> {
    let alloc = rt.alloc();
    let gates = "buf #1 p1(p,b); buf #1 p2(q,b); xor #3 g(y,a,p,q);";
    let circuit = circuit_of(alloc, &module(alloc, "a,b", "y", gates)?).ok_or("a circuit")?;
    let cube = one_pair(alloc)?;
    assert_eq!(rt; cube.len(), 4);
    assert_eq!(rt; circuit.input_count(), 2);
    let found = bound::<Both<Both<Arrival, Possible>, Arrival>>(alloc, &circuit, &cube)?;
    assert_eq!(rt; found, Some(3));
    assert_eq!(rt; bound::<Arrival>(alloc, &circuit, &cube)?, Some(4));
    Ok(())
}
