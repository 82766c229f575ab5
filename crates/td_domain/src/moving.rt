//! From cube to cube.

ghost use Rattle.std.specs.Prelude.{◌≡◌, ◌*◌, ◌<◌, true, length, set, take, OnOk, IfOk};
ghost use Rattle.td_circuit.specs.Numbering.{Numbered};
ghost use Rattle.td_domain.specs.Sheets.{IsSheet};

use crate::cubes::{Cube, Trit};
use crate::domain::Domain;
use crate::sheet::Sheet;
use std::alloc::{AllocError, Global};
use td_circuit::Circuit;

/// Takes a sheet of this circuit to a cube. It takes back narrowings until the sheet's cube allows
/// all pairs of this one, and then narrows the sheet. Where the sheet was made for a cube that
/// doesn't allow them, it is made anew. Fails where memory runs out: the sheet may be used again
/// then.
pub fn move_to<D: Domain>(
    alloc: Global,
    circuit: &Circuit,
    sheet: &mut Sheet<D>,
    cube: &Cube,
) -> Result<(), AllocError>
    requires sheet { IsSheet D.functions D.reach circuit.now sheet.old }
    requires positions { length cube.now ≡ 2 * length circuit.now.netlist.inputs }
    ensures sheet { IsSheet D.functions D.reach circuit.now sheet.new }
    ensures cube { OnOk result (sheet.new.cube ≡ cube.now) }
{
    widen_to(sheet, cube);
    if !narrow_to(circuit, sheet, cube)? {
        *sheet = Sheet::new(alloc, circuit, cube)?;
    }
    Ok(())
}

/// Takes back narrowings until the sheet's cube allows all pairs of this one, or none stands.
/// Positions at which it doesn't are counted once, and counted down where a narrowing is taken
/// back.
fn widen_to<D: Domain>(sheet: &mut Sheet<D>, cube: &Cube)
    ensures { (circuit : Numbered) → IsSheet D.functions D.reach circuit sheet.old
        → IsSheet D.functions D.reach circuit sheet.new }
{
    let mut left = misfits(sheet.cube(), cube);
    for _ in 0..cube.len() {
        if left == 0 {
            break;
        }
        if differs_at(sheet.cube(), cube, sheet.latest()) {
            left = left.saturating_sub(1);
        }
        if !sheet.widen() {
            break;
        }
    }
}

/// Gives the sheet's cube the trits of this one, position by position, by narrowings. Answers false
/// where the sheet's cube doesn't allow all pairs of this one: some narrowings may have been made
/// then. Fails where memory runs out.
fn narrow_to<D: Domain>(
    circuit: &Circuit,
    sheet: &mut Sheet<D>,
    cube: &Cube,
) -> Result<bool, AllocError>
    requires sheet { IsSheet D.functions D.reach circuit.now sheet.old }
    requires positions { length cube.now ≡ 2 * length circuit.now.netlist.inputs }
    ensures sheet { IsSheet D.functions D.reach circuit.now sheet.new }
    ensures cube { IfOk result (λ reached. reached ≡ true → sheet.new.cube ≡ cube.now) }
{
    let mut position = 0;
    for _ in 0..cube.len() {
        position = agreeing(sheet.cube(), cube, position);
        if position >= cube.len() {
            break;
        }
        if !narrow_at(circuit, sheet, position, cube.trit(position))? {
            return Ok(false);
        }
        position += 1;
    }
    Ok(position >= cube.len())
}

/// The first position from this one on at which two cubes differ, or where one ends.
fn agreeing(one: &Cube, other: &Cube, from: usize) -> usize
    ensures { take from one.now ≡ take from other.now → take result one.now ≡ take result other.now }
{
    let end = one.len().min(other.len());
    for position in from..end {
        if one.trit(position) != other.trit(position) {
            return position;
        }
    }
    from.max(end)
}

/// Gives a position of the sheet's cube this trit, where it is another, by a narrowing. False where
/// no narrowing does that.
#[inline(always)]
fn narrow_at<D: Domain>(
    circuit: &Circuit,
    sheet: &mut Sheet<D>,
    position: usize,
    trit: Trit,
) -> Result<bool, AllocError>
    requires sheet { IsSheet D.functions D.reach circuit.now sheet.old }
    requires position { position < length sheet.old.cube }
    ensures sheet { IsSheet D.functions D.reach circuit.now sheet.new }
    ensures cube { IfOk result (λ reached. reached ≡ true → sheet.new.cube ≡ set sheet.old.cube position trit) }
{
    let now = sheet.cube().trit(position);
    if now == trit {
        return Ok(true);
    }
    match (now, trit) {
        (Trit::Free, Trit::Zero) => {
            sheet.narrow(circuit, position, false)?;
            Ok(true)
        }
        (Trit::Free, Trit::One) => {
            sheet.narrow(circuit, position, true)?;
            Ok(true)
        }
        (_, _) => Ok(false),
    }
}

/// At how many positions a cube is known and another has another trit. It looks at all positions,
/// so that several are compared at once.
fn misfits(wide: &Cube, cube: &Cube) -> u32 {
    let mut count: u32 = 0;
    for position in 0..wide.len().min(cube.len()) {
        let trit = wide.trit(position);
        let is_misfit = (trit != Trit::Free) & (trit != cube.trit(position));
        count = count.wrapping_add(u32::from(is_misfit));
    }
    count
}

/// Whether two cubes differ at a position that both have.
fn differs_at(one: &Cube, other: &Cube, position: Option<usize>) -> bool {
    match position {
        None => false,
        Some(position) => {
            position < one.len()
                && position < other.len()
                && one.trit(position) != other.trit(position)
        }
    }
}
