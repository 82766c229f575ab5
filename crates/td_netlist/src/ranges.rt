//! The bits of declared names.

ghost use Rattle.std.specs.Prelude.{◌≡◌, ◌<◌, ◌++◌, map, OnOk};
ghost use Rattle.td_syntax.specs.Grammar.{IsMaybeRange};
ghost use Rattle.td_syntax.specs.Views.{option_range_view};
ghost use Rattle.td_netlist.specs.Ranges.{range_of, IsLimited, width_of, bit_at, holds, nets_of};
ghost use Rattle.td_netlist.specs.NameViews.{name_ref_of};

use crate::name_ref::NameRef;
use std::alloc::AllocError;
use td_syntax::{Range as Written, decimal_value};

/// The numbers of a range, as written: the bits go from the left number to the right.
#[derive(Clone, Copy, Debug, PartialEq, Eq)]
pub struct Range {
    pub left: u32,
    pub right: u32,
}

/// The range of a vector, and none for a scalar.
pub fn range_of(written: Option<Written<'_>>) -> Option<Range>
    requires { IsMaybeRange (option_range_view written) }
    ensures value { result ≡ range_of (option_range_view written.entry) }
    ensures limited { IsLimited result }
{
    match written {
        None => None,
        Some(range) => Some(Range {
            left: decimal_value(range.left),
            right: decimal_value(range.right),
        }),
    }
}

/// How many nets a name with this range has.
pub fn width_of(range: Option<Range>) -> usize
    ensures { result ≡ width_of range }
{
    match range {
        None => 1,
        Some(range) => range.left.abs_diff(range.right) as usize + 1,
    }
}

/// The bit that stands so far from the left.
pub fn bit_at(range: Range, place: u32) -> u32
    requires { place < width_of (Some range) }
    ensures { result ≡ bit_at range place }
{
    if range.left <= range.right {
        range.left + place
    } else {
        range.left - place
    }
}

/// Whether a range has this bit.
pub fn holds(range: Range, bit: u32) -> bool
    ensures { result ≡ holds range bit }
{
    range.left <= bit && bit <= range.right || range.right <= bit && bit <= range.left
}

/// Appends the nets of a name, from left to right.
pub fn push_nets<'a>(
    text: &'a [u8],
    range: Option<Range>,
    nets: &mut Vec<NameRef<'a>>,
) -> Result<(), AllocError>
    ensures { OnOk result (map name_ref_of nets.new.items ≡ map name_ref_of nets.old.items ++ nets_of text.now range) }
{
    let Some(range) = range else {
        nets.push(NameRef { text, bit: None })?;
        return Ok(());
    };
    for place in 0..width_of(Some(range)) {
        let bit = Some(bit_at(range, place as u32));
        nets.push(NameRef { text, bit })?;
    }
    Ok(())
}
