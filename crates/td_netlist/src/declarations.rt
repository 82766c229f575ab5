//! Checks the declarations of a module.

ghost use Rattle.std.specs.Prelude.{◌≡◌, ◌++◌, map, Some, OnOk};
ghost use Rattle.std.specs.List.{AllByRecursion};
ghost use Rattle.td_syntax.specs.Grammar.{IsItem, IsPort, ArePorts, Names as NamedPorts, Declared as HeadedPorts, unit_exponent};
ghost use Rattle.td_netlist.specs.Ranges.{IsLimited, nets_of};
ghost use Rattle.td_syntax.specs.Views.{name_view, names_view, port_view, ports_view, module_view, item_view};
ghost use Rattle.td_netlist.specs.Faults.{Gives};
ghost use Rattle.td_netlist.specs.Module.{scalar, ports, port_name, is_input, is_wire};
ghost use Rattle.td_netlist.specs.Checks.{each, list_port, with_port, declare, declare_wire, declare_direction, declare_item, declare_port, declare_ports, IsRanged, nothing, portless, sideless, placed_at, take_side, sides_at, declared_at, declared_from, known, is_other, input_bits};
ghost use Rattle.td_netlist.specs.NameViews.{name_ref_of, placed_ref_of};
ghost use Rattle.td_netlist.specs.CheckViews.{lists_of, ported_of, sides_of};

use crate::directions::Directions;
use crate::fault::{Fault, FaultKind};
use crate::known::Known;
use crate::name_ref::{Direction, NameRef, PlacedRef};
use crate::names::Names;
use crate::ranges::{Range, push_nets, range_of, width_of};
use std::alloc::{AllocError, Global};
use td_nets::{MAX_INPUTS, SeededState};
use td_syntax::{Item, Module, Name as Placed, Port, Ports, Role};

/// What is declared so far.
#[derive(Drop)]
pub struct Lists<'a> {
    listed: Names<'a>,
    directions: Directions<'a>,
    inputs: usize,
    wires: Names<'a>,
    names: Known<'a>,
}

/// The same within a list of declared ports, with role and range of the port before.
#[derive(Drop)]
pub struct Ported<'a> {
    role: Role,
    range: Option<Range>,
    lists: Lists<'a>,
}

/// The bits of the ports by direction, in the order of the port list. An output has the line of its
/// direction.
#[derive(Drop)]
pub struct Sides<'a> {
    pub inputs: Vec<NameRef<'a>>,
    pub outputs: Vec<PlacedRef<'a>>,
}

/// The net of a name that is no vector.
pub fn scalar<'a>(name: Placed<'a>) -> NameRef<'a>
    ensures { name_ref_of result ≡ scalar (name_view name.entry) }
{
    NameRef {
        text: name.name,
        bit: None,
    }
}

/// A fault of that kind at the line of the name.
pub fn refused<'a>(kind: FaultKind<'a>, name: Placed<'a>) -> Fault<'a>
    ensures kind { result.kind ≡ kind.entry }
    ensures line { result.line ≡ name.entry.line }
{
    Fault {
        kind,
        line: name.line,
    }
}

fn is_input(role: Role) -> bool
    ensures { result ≡ is_input role }
{
    matches!(role, Role::Input)
}

fn is_wire(role: Role) -> bool
    ensures { result ≡ is_wire role }
{
    matches!(role, Role::Wire)
}

/// How many inputs a declaration makes.
fn input_bits(role: Role, range: Option<Range>) -> usize
    ensures { result ≡ input_bits role range }
{
    if is_input(role) { width_of(range) } else { 0 }
}

/// Whether a name is known with another range.
fn is_other<'a>(names: &Known<'a>, name: Placed<'a>, range: Option<Range>) -> bool
    ensures { result ≡ is_other (known names.now name.entry.name.now) range }
{
    match names.get(name) {
        None => false,
        Some(known) => known != range,
    }
}

impl<'a> Lists<'a> {
    fn new(alloc: Global, hashing: SeededState) -> Lists<'a>
        ensures { lists_of result ≡ nothing }
    {
        Lists {
            listed: Names::new(alloc, hashing),
            directions: Directions::new(alloc, hashing),
            inputs: 0,
            wires: Names::new(alloc, hashing),
            names: Known::new(alloc, hashing),
        }
    }

    /// Lists a port, unless it is listed already.
    #[tactic(auto, unfolding(crate::specs::Checks::list_port))]
    fn list_port(&mut self, port: Placed<'a>) -> Result<(), Fault<'a>>
        ensures { Gives (λ _. lists_of self.new) result (with_port (lists_of self.old) (name_view port.entry)) }
    {
        if self.listed.add(scalar(port))? {
            Ok(())
        } else {
            Err(refused(FaultKind::Redeclared, port))
        }
    }

    #[tactic(auto, unfolding(crate::specs::Checks::declare_wire))]
    fn declare_wire(&mut self, range: Option<Range>, name: Placed<'a>) -> Result<(), Fault<'a>>
        requires { IsLimited range }
        ensures { Gives (λ _. lists_of self.new) result (declare_wire range (lists_of self.old) (name_view name.entry)) }
    {
        if !self.wires.add(scalar(name))? || is_other(&self.names, name, range) {
            return Err(refused(FaultKind::Redeclared, name));
        }
        self.names.know(name, range)
    }

    #[tactic(auto, unfolding(crate::specs::Checks::declare_direction))]
    fn declare_direction(
        &mut self,
        role: Role,
        range: Option<Range>,
        name: Placed<'a>,
    ) -> Result<(), Fault<'a>>
        requires { IsLimited range }
        ensures { Gives (λ _. lists_of self.new) result (declare_direction role range (lists_of self.old) (name_view name.entry)) }
    {
        if self.directions.get(name).is_some() || is_other(&self.names, name, range) {
            return Err(refused(FaultKind::Redeclared, name));
        }
        if !self.listed.has(scalar(name)) {
            return Err(refused(FaultKind::PortUndeclared, name));
        }
        let inputs = self.inputs.saturating_add(input_bits(role, range));
        if (MAX_INPUTS as usize) < inputs {
            return Err(refused(FaultKind::TooMany, name));
        }
        self.names.know(name, range)?;
        self.inputs = inputs;
        self.directions.add(role, range, name)?;
        Ok(())
    }

    #[tactic(auto, unfolding(crate::specs::Checks::declare))]
    fn declare(
        &mut self,
        role: Role,
        range: Option<Range>,
        name: Placed<'a>,
    ) -> Result<(), Fault<'a>>
        requires { IsLimited range }
        ensures { Gives (λ _. lists_of self.new) result (declare role range (lists_of self.old) (name_view name.entry)) }
    {
        if is_wire(role) {
            self.declare_wire(range, name)
        } else {
            self.declare_direction(role, range, name)
        }
    }

    fn declare_names(
        &mut self,
        role: Role,
        range: Option<Range>,
        names: &[Placed<'a>],
    ) -> Result<(), Fault<'a>>
        requires { IsLimited range }
        ensures { Gives (λ _. lists_of self.new) result (each (declare role range) (lists_of self.old) (names_view names.now)) }
    {
        for name in names {
            self.declare(role, range, *name)?;
        }
        Ok(())
    }

    #[tactic(auto, unfolding(crate::specs::Checks::declare_item))]
    fn declare_item(&mut self, item: &Item<'a>) -> Result<(), Fault<'a>>
        requires { IsRanged (item_view item.now) }
        ensures { Gives (λ _. lists_of self.new) result (declare_item (lists_of self.old) (item_view item.now)) }
    {
        match item {
            Item::Declares(declaration) => self.declare_names(
                declaration.role,
                range_of(declaration.range),
                &declaration.names,
            ),
            Item::Gates(_) => Ok(()),
        }
    }

    fn declare_items(&mut self, items: &[Item<'a>]) -> Result<(), Fault<'a>>
        requires { AllByRecursion IsRanged (map item_view items.now) }
        ensures { Gives (λ _. lists_of self.new) result (each declare_item (lists_of self.old) (map item_view items.now)) }
    {
        for item in items {
            self.declare_item(item)?;
        }
        Ok(())
    }

    /// What the items declare too, and then the nets of the ports by direction.
    fn sided(&mut self, alloc: Global, source: &Module<'a>) -> Result<Sides<'a>, Fault<'a>>
        requires ports { ArePorts (module_view source.now).ports }
        requires items { AllByRecursion (IsItem (unit_exponent (module_view source.now).fronts)) (module_view source.now).items }
        ensures { Gives (λ sides. (sides_of sides, (lists_of self.new).names)) result (declared_from (lists_of self.old) (module_view source.now)) }
    {
        self.declare_items(&source.items)?;
        let sides = by_side(alloc, &self.directions, &source.ports)?;
        Ok(sides)
    }

    /// The nets of the ports by direction, and the names of all declarations, after those of the
    /// port list.
    fn finished(
        mut self,
        alloc: Global,
        source: &Module<'a>,
    ) -> Result<(Sides<'a>, Known<'a>), Fault<'a>>
        requires ports { ArePorts (module_view source.now).ports }
        requires items { AllByRecursion (IsItem (unit_exponent (module_view source.now).fronts)) (module_view source.now).items }
        ensures { Gives (λ x. (sides_of x.0, x.1)) result (declared_from (lists_of self.entry) (module_view source.now)) }
    {
        let sides = self.sided(alloc, source)?;
        Ok((sides, self.into_names()))
    }

    /// What is known of the names that are declared.
    fn into_names(self) -> Known<'a>
        ensures { result ≡ (lists_of self.entry).names }
    {
        self.names
    }

    fn list_ports(&mut self, ports: &[Placed<'a>]) -> Result<(), Fault<'a>>
        ensures { Gives (λ _. lists_of self.new) result (each with_port (lists_of self.old) (names_view ports.now)) }
    {
        for port in ports {
            self.list_port(*port)?;
        }
        Ok(())
    }
}

impl<'a> Ported<'a> {
    fn new(alloc: Global, hashing: SeededState) -> Ported<'a>
        ensures { ported_of result ≡ portless }
    {
        Ported {
            role: Role::Input,
            range: None,
            lists: Lists::new(alloc, hashing),
        }
    }

    /// Lists a declared port and declares it.
    #[tactic(auto, unfolding(crate::specs::Checks::declare_port))]
    fn declare(&mut self, port: Port<'a>) -> Result<(), Fault<'a>>
        requires ranged { IsPort (port_view port) }
        requires so_far { IsLimited self.old.range }
        ensures ranged { IsLimited self.new.range }
        ensures declared { Gives (λ _. ported_of self.new) result (declare_port (ported_of self.old) (port_view port.entry)) }
    {
        let name = match port {
            Port::Bare(name) => name,
            Port::Headed(header) => {
                self.role = header.role;
                self.range = range_of(header.range);
                header.name
            }
        };
        self.lists.list_port(name)?;
        self.lists.declare_direction(self.role, self.range, name)
    }

    fn declare_each(&mut self, ports: &[Port<'a>]) -> Result<(), Fault<'a>>
        requires ranged { AllByRecursion IsPort (map port_view ports.now) }
        requires so_far { IsLimited self.old.range }
        ensures { Gives (λ _. ported_of self.new) result (each declare_port (ported_of self.old) (map port_view ports.now)) }
    {
        for port in ports {
            self.declare(*port)?;
        }
        Ok(())
    }

    /// What the port list declares, where nothing is declared so far.
    #[tactic(auto, unfolding(crate::specs::Checks::declare_ports))]
    fn declare_ports(&mut self, ports: &Option<Ports<'a>>) -> Result<(), Fault<'a>>
        requires fit { ArePorts (ports_view ports.now) }
        requires first { ported_of self.old ≡ portless }
        ensures { Gives (λ _. lists_of self.new.lists) result (declare_ports (ports_view ports.now)) }
    {
        match ports {
            None => Ok(()),
            Some(Ports::Names(names)) => self.lists.list_ports(names),
            Some(Ports::Declared(ports)) => {
                self.declare_each(ports)?;
                Ok(())
            }
        }
    }
}

/// Appends the nets of an output with the line of its direction.
fn push_outputs<'a>(
    alloc: Global,
    name: Placed<'a>,
    direction: Direction,
    outputs: &mut Vec<PlacedRef<'a>>,
) -> Result<(), AllocError>
    ensures { OnOk result (map placed_ref_of outputs.new.items ≡ map placed_ref_of outputs.old.items ++ placed_at direction.line (nets_of name.entry.name.now direction.range)) }
{
    let mut nets = Vec::new(alloc);
    push_nets(name.name, direction.range, &mut nets)?;
    for net in &nets {
        outputs.push(PlacedRef {
            net: *net,
            line: direction.line,
        })?;
    }
    Ok(())
}

impl<'a> Sides<'a> {
    fn new(alloc: Global) -> Sides<'a>
        ensures { sides_of result ≡ sideless }
    {
        Sides {
            inputs: Vec::new(alloc),
            outputs: Vec::new(alloc),
        }
    }

    #[tactic(auto, unfolding(crate::specs::Checks::take_side))]
    fn take(
        &mut self,
        alloc: Global,
        directions: &Directions<'a>,
        port: Placed<'a>,
    ) -> Result<(), Fault<'a>>
        ensures { Gives (λ _. sides_of self.new) result (take_side directions.now (sides_of self.old) (name_view port.entry)) }
    {
        let Some(direction) = directions.get(port) else {
            return Err(refused(FaultKind::PortUndeclared, port));
        };
        if is_input(direction.role) {
            push_nets(port.name, direction.range, &mut self.inputs)?;
        } else {
            push_outputs(alloc, port, direction, &mut self.outputs)?;
        }
        Ok(())
    }

    fn take_names(
        &mut self,
        alloc: Global,
        directions: &Directions<'a>,
        ports: &[Placed<'a>],
    ) -> Result<(), Fault<'a>>
        ensures { Gives (λ _. sides_of self.new) result (each (take_side directions.now) (sides_of self.old) (names_view ports.now)) }
    {
        for port in ports {
            self.take(alloc, directions, *port)?;
        }
        Ok(())
    }

    fn take_ports(
        &mut self,
        alloc: Global,
        directions: &Directions<'a>,
        ports: &[Port<'a>],
    ) -> Result<(), Fault<'a>>
        ensures { Gives (λ _. sides_of self.new) result (each (take_side directions.now) (sides_of self.old) (map port_name (map port_view ports.now))) }
    {
        for port in ports {
            self.take(alloc, directions, port_name(*port))?;
        }
        Ok(())
    }
}

fn port_name<'a>(port: Port<'a>) -> Placed<'a>
    ensures { name_view result ≡ port_name (port_view port.entry) }
{
    match port {
        Port::Bare(name) => name,
        Port::Headed(header) => header.name,
    }
}

/// The nets of the ports by direction.
#[tactic(auto, unfolding(crate::specs::Checks::sides_at, crate::specs::Checks::each))]
fn by_side<'a>(
    alloc: Global,
    directions: &Directions<'a>,
    ports: &Option<Ports<'a>>,
) -> Result<Sides<'a>, Fault<'a>>
    ensures { Gives sides_of result (sides_at directions.now (ports_view ports.now)) }
{
    match ports {
        None => Ok(Sides::new(alloc)),
        Some(Ports::Names(names)) => {
            let mut sides = Sides::new(alloc);
            sides.take_names(alloc, directions, names)?;
            Ok(sides)
        }
        Some(Ports::Declared(ports)) => {
            let mut sides = Sides::new(alloc);
            sides.take_ports(alloc, directions, ports)?;
            Ok(sides)
        }
    }
}

/// The nets of the ports of a module by direction, and the names of its declarations.
#[tactic(auto, unfolding(crate::specs::Checks::declared_at))]
pub fn declared<'a>(
    alloc: Global,
    hashing: SeededState,
    source: &Module<'a>,
) -> Result<(Sides<'a>, Known<'a>), Fault<'a>>
    requires ports { ArePorts (module_view source.now).ports }
    requires items { AllByRecursion (IsItem (unit_exponent (module_view source.now).fronts)) (module_view source.now).items }
    ensures { Gives (λ x. (sides_of x.0, x.1)) result (declared_at (module_view source.now)) }
{
    let mut ported = Ported::new(alloc, hashing);
    ported.declare_ports(&source.ports)?;
    ported.lists.finished(alloc, source)
}
