//! Checks the terminals of a module's gates and the drivers of its nets.

ghost use Rattle.std.specs.Prelude.{◌≡◌, map, Ok, IfOk};
ghost use Rattle.td_syntax.specs.Views.{name_view, terminal_view};
ghost use Rattle.td_netlist.specs.Faults.{Gives};
ghost use Rattle.td_netlist.specs.PlacedNets.{different};
ghost use Rattle.td_netlist.specs.Module.{whole_source, bit_source};
ghost use Rattle.td_nets.specs.Netlist.{Named};
ghost use Rattle.td_netlist.specs.Ranges.{bit_name, IsLimited};
ghost use Rattle.td_syntax.specs.Grammar.{Whole, decimal_value};
ghost use Rattle.td_nets.specs.Names.{is_in};
ghost use Rattle.td_netlist.specs.PlacedNets.{line_of};
ghost use Rattle.td_netlist.specs.Checks.{each, known, range_known, joined, resolve, drive, drives, see, seen, read_from, drive_all, read_net, read_all, read_placed, driven_at, driven_from, second_driver};
ghost use Rattle.td_netlist.specs.NameViews.{name_ref_of, net_ref_of, placed_ref_of};
ghost use Rattle.td_netlist.specs.CheckViews.{primitive_of, sides_of, drivers_of};

use crate::declarations::{Sides, refused};
use crate::fault::{Fault, FaultKind};
use crate::known::Known;
use crate::name_ref::{NameRef, NetRef, PlacedRef};
use crate::names::Names;
use crate::primitive::Primitive;
use crate::ranges::{Range, holds};
use std::alloc::{AllocError, Global};
use td_nets::SeededState;
use td_syntax::{Name as Placed, Terminal, decimal_value};

/// The driven nets and the names so far.
#[derive(Drop)]
pub struct Drivers<'a> {
    driven: Names<'a>,
    names: Known<'a>,
}

fn is_among<'a>(names: &[NameRef<'a>], name: NameRef<'a>) -> bool
    ensures { result ≡ is_in (name_ref_of name.entry) (map name_ref_of names.now) }
{
    names.contains(&name)
}

/// The fault of a second driver: of an input or of another net.
fn second_driver<'a>(inputs: &[NameRef<'a>], net: NameRef<'a>) -> FaultKind<'a>
    ensures { result ≡ second_driver (map name_ref_of inputs.now) (name_ref_of net.entry) }
{
    if is_among(inputs, net) {
        FaultKind::DrivenInput
    } else {
        FaultKind::TwoDrivers
    }
}

/// The inputs, as a set.
fn driven_inputs<'a>(
    alloc: Global,
    hashing: SeededState,
    inputs: &[NameRef<'a>],
) -> Result<Names<'a>, AllocError>
    ensures { IfOk result (λ names. names ≡ different (map name_ref_of inputs.now)) }
{
    let mut names = Names::new(alloc, hashing);
    for input in inputs {
        names.add(*input)?;
    }
    Ok(names)
}

/// The line of a terminal. Constants have none.
fn line_of(terminal: Terminal<'_>) -> u32
    ensures { result ≡ line_of (terminal_view terminal.entry) }
{
    match terminal {
        Terminal::Whole(name) | Terminal::Select(name, _) => name.line,
        Terminal::Level(_) => 0,
    }
}

fn bit_of<'a>(name: Placed<'a>, bit: u32) -> NetRef<'a>
    ensures { net_ref_of result ≡ Named (bit_name name.entry.name.now bit) }
{
    NetRef::Named(NameRef {
        text: name.name,
        bit: Some(bit),
    })
}

/// The net of a plain name with this range.
fn whole<'a>(name: Placed<'a>, range: Option<Range>) -> Result<NetRef<'a>, Fault<'a>>
    ensures { Gives net_ref_of result (joined name.entry.line (whole_source name.entry.name.now range)) }
{
    match range {
        None => Ok(NetRef::Named(NameRef {
            text: name.name,
            bit: None,
        })),
        Some(range) => {
            if range.left == range.right {
                Ok(bit_of(name, range.left))
            } else {
                Err(refused(FaultKind::WidthNotOne, name))
            }
        }
    }
}

/// The net of a bit of a name with this range. A bit above the greatest number of a range is in
/// none.
fn select<'a>(
    name: Placed<'a>,
    digits: &[u8],
    range: Option<Range>,
) -> Result<NetRef<'a>, Fault<'a>>
    requires { IsLimited range }
    ensures { Gives net_ref_of result (joined name.entry.line (bit_source name.entry.name.now (decimal_value digits.now) range)) }
{
    let bit = decimal_value(digits);
    match range {
        Some(range) => {
            if holds(range, bit) {
                Ok(bit_of(name, bit))
            } else {
                Err(refused(FaultKind::UnknownBit, name))
            }
        }
        None => Err(refused(FaultKind::UnknownBit, name)),
    }
}

fn range_known<'a>(names: &Known<'a>, name: Placed<'a>) -> Option<Range>
    ensures value { result ≡ range_known (known names.now name.entry.name.now) }
    ensures limited { IsLimited result }
{
    match names.get(name) {
        Some(range) => range,
        None => None,
    }
}

/// The net of a terminal, by what is known of its name.
#[tactic(auto, unfolding(crate::specs::Checks::resolve))]
pub fn resolve<'a>(names: &Known<'a>, terminal: Terminal<'a>) -> Result<NetRef<'a>, Fault<'a>>
    ensures { Gives net_ref_of result (resolve names.now (terminal_view terminal.entry)) }
{
    match terminal {
        Terminal::Whole(name) => whole(name, range_known(names, name)),
        Terminal::Select(name, digits) => select(name, digits, range_known(names, name)),
        Terminal::Level(false) => Ok(NetRef::Low),
        Terminal::Level(true) => Ok(NetRef::High),
    }
}

impl<'a> Drivers<'a> {
    /// The net of a terminal, whose name is known from now on.
    #[tactic(auto, unfolding(crate::specs::Checks::seen))]
    fn see(&mut self, terminal: Terminal<'a>) -> Result<NetRef<'a>, Fault<'a>>
        ensures { Gives (λ net. (net_ref_of net, drivers_of self.new)) result (seen (drivers_of self.old) (terminal_view terminal.entry)) }
    {
        match terminal {
            Terminal::Whole(name) => self.see_whole(name),
            Terminal::Select(_, _) | Terminal::Level(_) => resolve(&self.names, terminal),
        }
    }

    /// The net of a plain name. Without a declaration it is a scalar net.
    #[tactic(auto, unfolding(crate::specs::Checks::seen, crate::specs::Checks::resolve, crate::specs::Checks::know))]
    fn see_whole(&mut self, name: Placed<'a>) -> Result<NetRef<'a>, Fault<'a>>
        ensures { Gives (λ net. (net_ref_of net, drivers_of self.new)) result (seen (drivers_of self.old) (Whole (name_view name.entry))) }
    {
        match self.names.get(name) {
            Some(range) => whole(name, range),
            None => {
                self.names.learn(name, None)?;
                whole(name, None)
            }
        }
    }

    #[tactic(auto, unfolding(crate::specs::Checks::drive))]
    fn drive(&mut self, inputs: &[NameRef<'a>], terminal: Terminal<'a>) -> Result<(), Fault<'a>>
        ensures { Gives (λ _. drivers_of self.new) result (drive (map name_ref_of inputs.now) (drivers_of self.old) (terminal_view terminal.entry)) }
    {
        let net = self.see(terminal)?;
        self.drive_net(inputs, net, line_of(terminal))
    }

    /// A net that is driven on this line.
    #[tactic(auto, unfolding(crate::specs::Checks::drives))]
    fn drive_net(
        &mut self,
        inputs: &[NameRef<'a>],
        net: NetRef<'a>,
        line: u32,
    ) -> Result<(), Fault<'a>>
        ensures { Gives (λ _. drivers_of self.new) result (drives (map name_ref_of inputs.now) (drivers_of self.old) line (net_ref_of net.entry)) }
    {
        match net {
            NetRef::Low | NetRef::High => Ok(()),
            NetRef::Named(name) => {
                if self.driven.add(name)? {
                    Ok(())
                } else {
                    Err(Fault {
                        kind: second_driver(inputs, name),
                        line,
                    })
                }
            }
        }
    }

    fn drive_terminals(
        &mut self,
        inputs: &[NameRef<'a>],
        terminals: &[Terminal<'a>],
    ) -> Result<(), Fault<'a>>
        ensures { Gives (λ _. drivers_of self.new) result (each (drive (map name_ref_of inputs.now)) (drivers_of self.old) (map terminal_view terminals.now)) }
    {
        for terminal in terminals {
            self.drive(inputs, *terminal)?;
        }
        Ok(())
    }

    fn see_terminals(&mut self, terminals: &[Terminal<'a>]) -> Result<(), Fault<'a>>
        ensures { Gives (λ _. drivers_of self.new) result (each see (drivers_of self.old) (map terminal_view terminals.now)) }
    {
        for terminal in terminals {
            let _net = self.see(*terminal)?;
        }
        Ok(())
    }

    #[tactic(auto, unfolding(crate::specs::Checks::drive_all))]
    fn drive_all(
        &mut self,
        inputs: &[NameRef<'a>],
        primitive: Primitive<'_, 'a>,
    ) -> Result<(), Fault<'a>>
        ensures { Gives (λ _. drivers_of self.new) result (drive_all (map name_ref_of inputs.now) (drivers_of self.old) (primitive_of primitive.entry)) }
    {
        self.drive_terminals(inputs, primitive.outputs())?;
        self.see_terminals(primitive.inputs())
    }

    fn drive_each(
        &mut self,
        inputs: &[NameRef<'a>],
        primitives: &[Primitive<'_, 'a>],
    ) -> Result<(), Fault<'a>>
        ensures { Gives (λ _. drivers_of self.new) result (each (drive_all (map name_ref_of inputs.now)) (drivers_of self.old) (map primitive_of primitives.now)) }
    {
        for primitive in primitives {
            self.drive_all(inputs, *primitive)?;
        }
        Ok(())
    }

    /// A net that is read on this line is driven.
    fn read_from(&self, net: NetRef<'a>, line: u32) -> Result<(), Fault<'a>>
        ensures { Gives (λ _. tt) result (read_from (drivers_of self.now).driven line (net_ref_of net.entry)) }
    {
        match net {
            NetRef::Low | NetRef::High => Ok(()),
            NetRef::Named(name) => {
                if self.driven.has(name) {
                    Ok(())
                } else {
                    Err(Fault {
                        kind: FaultKind::Undriven,
                        line,
                    })
                }
            }
        }
    }

    #[tactic(auto, unfolding(crate::specs::Checks::read_net))]
    fn read_net(&self, terminal: Terminal<'a>) -> Result<(), Fault<'a>>
        ensures { Gives (λ _. tt) result (read_net (drivers_of self.now) tt (terminal_view terminal.entry)) }
    {
        self.read_from(resolve(&self.names, terminal)?, line_of(terminal))
    }

    fn read_terminals(&self, terminals: &[Terminal<'a>]) -> Result<(), Fault<'a>>
        ensures { Gives (λ _. tt) result (each (read_net (drivers_of self.now)) tt (map terminal_view terminals.now)) }
    {
        for terminal in terminals {
            self.read_net(*terminal)?;
        }
        Ok(())
    }

    #[tactic(auto, unfolding(crate::specs::Checks::read_all))]
    fn read_all(&self, primitive: Primitive<'_, 'a>) -> Result<(), Fault<'a>>
        ensures { Gives (λ _. tt) result (read_all (drivers_of self.now) tt (primitive_of primitive.entry)) }
    {
        self.read_terminals(primitive.inputs())
    }

    fn read_each(&self, primitives: &[Primitive<'_, 'a>]) -> Result<(), Fault<'a>>
        ensures { Gives (λ _. tt) result (each (read_all (drivers_of self.now)) tt (map primitive_of primitives.now)) }
    {
        for primitive in primitives {
            self.read_all(*primitive)?;
        }
        Ok(())
    }

    fn read_outputs(&self, outputs: &[PlacedRef<'a>]) -> Result<(), Fault<'a>>
        ensures { Gives (λ _. tt) result (each (read_placed (drivers_of self.now).driven) tt (map placed_ref_of outputs.now)) }
    {
        for output in outputs {
            self.read_from(NetRef::Named(output.net), output.line)?;
        }
        Ok(())
    }

    /// Drives what gates drive, and then looks at what gates and outputs read.
    fn check_each(
        &mut self,
        sides: &Sides<'a>,
        primitives: &[Primitive<'_, 'a>],
    ) -> Result<(), Fault<'a>>
        ensures { Gives (λ _. drivers_of self.new) result (driven_from (drivers_of self.old) (sides_of sides.now) (map primitive_of primitives.now)) }
    {
        self.drive_each(&sides.inputs, primitives)?;
        self.read_each(primitives)?;
        self.read_outputs(&sides.outputs)?;
        Ok(())
    }

    /// The names of the module with their ranges.
    pub fn names(&self) -> &Known<'a>
        ensures { result.now ≡ (drivers_of self.now).names }
    {
        &self.names
    }
}

/// Each net that is read or is an output is driven, and none twice.
#[tactic(auto, unfolding(crate::specs::Checks::driven_at))]
pub fn all_driven<'a>(
    alloc: Global,
    hashing: SeededState,
    sides: &Sides<'a>,
    names: Known<'a>,
    primitives: &[Primitive<'_, 'a>],
) -> Result<Drivers<'a>, Fault<'a>>
    ensures { Gives drivers_of result (driven_at (sides_of sides.now) names.entry (map primitive_of primitives.now)) }
{
    let mut drivers = Drivers {
        driven: driven_inputs(alloc, hashing, &sides.inputs)?,
        names,
    };
    drivers.check_each(sides, primitives)?;
    Ok(drivers)
}
