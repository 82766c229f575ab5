//! Nets that a gate output drives and may not: which net it is, and where its first driver stands
//! or where it is declared as an input.

ghost use Rattle.std.specs.Prelude.{◌≡◌, ◌++◌, map, take, length, IfOk, OnOk, IfSome, None, Some};
ghost use Rattle.std.specs.List.{flat_map};
ghost use Rattle.td_syntax.specs.Grammar.{output_count, Gates};
ghost use Rattle.td_syntax.specs.Text.{Parses};
ghost use Rattle.td_syntax.specs.Views.{terminal_view, statement_view, module_view};
ghost use Rattle.td_nets.specs.Views.{name_of};
ghost use Rattle.td_netlist.specs.Module.{item_primitives, outputs_of};
ghost use Rattle.td_hints.specs.Drivers.{spelled, spelled_at, outputs, driven_of, clash_of, option_driven_of, IsSecond, IsSecondIn, IsDriven, IsDrivenIn, IsTaken};

use std::alloc::{AllocError, Global};
use std::collections::BTreeMap;
use td_gates::Kind;
use td_netlist::{Fault, FaultKind};
use td_nets::Name;
use td_syntax::{
    Declaration, FaultKind as Unread, Item, Module, Name as Placed, Port, Ports, Role, Statement,
    Terminal, decimal_value, parse,
};

/// A net that a gate output drives and may not.
#[derive(Debug, Drop)]
pub struct Taken {
    /// The net.
    pub net: Name,
    /// The line of its first driver, or of the declaration that makes it an input.
    pub line: u32,
}

/// A net that a gate output drives, as the text spells it.
#[derive(Clone, Copy, Debug, PartialEq, Eq, PartialOrd, Ord)]
struct Driven<'a> {
    name: &'a [u8],
    bit: Option<u32>,
}

/// What a gate output drives and may not, its line, and the line of what forbids it.
#[derive(Clone, Copy, Debug)]
struct Clash<'a> {
    driven: Driven<'a>,
    line: u32,
    first: u32,
}

/// The net of a terminal with its line. Constants have none.
fn net_of(terminal: Terminal<'_>) -> Option<(Driven<'_>, u32)>
    ensures { option_driven_of result ≡ spelled (terminal_view terminal.entry) }
{
    match terminal {
        Terminal::Whole(name) => Some((
            Driven {
                name: name.name,
                bit: None,
            },
            name.line,
        )),
        Terminal::Select(name, digits) => Some((
            Driven {
                name: name.name,
                bit: Some(decimal_value(digits)),
            },
            name.line,
        )),
        Terminal::Level(_) => None,
    }
}

/// How many terminals of an instance of this kind drive: of `buf` and `not` all but the last, of
/// the others the first.
fn output_count(kind: Kind, terminals: usize) -> usize
    ensures { result ≡ output_count kind terminals }
{
    match kind {
        Kind::Buf | Kind::Not => terminals.saturating_sub(1),
        _ => 1,
    }
}

/// The terminals of an instance of this kind that drive. They stand first.
fn outputs<'m, 'a>(kind: Kind, terminals: &'m [Terminal<'a>]) -> &'m [Terminal<'a>]
    ensures { map terminal_view result.now ≡ take (output_count kind (length (map terminal_view terminals.now))) (map terminal_view terminals.now) }
{
    let count = output_count(kind, terminals.len());
    terminals.split_at(count.min(terminals.len())).0
}

/// The terminals of a module that drive, in the order of the text.
fn outputs_in<'a>(alloc: Global, tree: &Module<'a>) -> Result<Vec<Terminal<'a>>, AllocError>
    ensures { IfOk result (λ ts. map terminal_view ts.items ≡ outputs (module_view tree.now)) }
{
    let mut found = Vec::new(alloc);
    for item in &tree.items {
        if let Item::Gates(statement) = item {
            add_outputs(statement, &mut found)?;
        }
    }
    Ok(found)
}

/// Appends the terminals of a statement that drive.
fn add_outputs<'a>(
    statement: &Statement<'a>,
    found: &mut Vec<Terminal<'a>>,
) -> Result<(), AllocError>
    ensures { OnOk result (map terminal_view found.new.items ≡ map terminal_view found.old.items ++ flat_map outputs_of (item_primitives (Gates (statement_view statement.now)))) }
{
    for instance in &statement.instances {
        found.extend_from_slice(outputs(statement.kind, &instance.terminals))?;
    }
    Ok(())
}

/// The names that a module declares as inputs, in the order of the text.
fn inputs_in<'a>(alloc: Global, tree: &Module<'a>) -> Result<Vec<Placed<'a>>, AllocError> {
    let mut found = Vec::new(alloc);
    if let Some(Ports::Declared(ports)) = &tree.ports {
        add_ports(ports, &mut found)?;
    }
    for item in &tree.items {
        if let Item::Declares(declaration) = item {
            add_inputs(declaration, &mut found)?;
        }
    }
    Ok(found)
}

/// Appends the inputs of a port list. A bare name has the direction of the port before it.
fn add_ports<'a>(ports: &[Port<'a>], found: &mut Vec<Placed<'a>>) -> Result<(), AllocError> {
    let mut role = Role::Input;
    for port in ports {
        let name = match port {
            Port::Bare(name) => *name,
            Port::Headed(header) => {
                role = header.role;
                header.name
            }
        };
        if role == Role::Input {
            found.push(name)?;
        }
    }
    Ok(())
}

/// Appends the inputs of a declaration.
fn add_inputs<'a>(
    declaration: &Declaration<'a>,
    found: &mut Vec<Placed<'a>>,
) -> Result<(), AllocError> {
    if declaration.role == Role::Input {
        found.extend_from_slice(&declaration.names)?;
    }
    Ok(())
}

/// The net of the terminal at this place, with its line.
fn net_at<'a>(outputs: &[Terminal<'a>], place: usize) -> Option<(Driven<'a>, u32)>
    ensures { option_driven_of result ≡ spelled_at (map terminal_view outputs.now) place }
{
    match outputs.get(place) {
        Some(terminal) => net_of(*terminal),
        None => None,
    }
}

/// What the outputs at two places drive, where it is one net.
fn shared<'a>(outputs: &[Terminal<'a>], before: usize, after: usize) -> Option<Clash<'a>>
    ensures { IfSome result (λ clash. IsSecond (map terminal_view outputs.now) (driven_of clash.driven) clash.first clash.line) }
{
    match (net_at(outputs, before), net_at(outputs, after)) {
        (Some((earlier, first)), Some((later, line))) => {
            if before < after && earlier.name == later.name && earlier.bit == later.bit {
                Some(Clash {
                    driven: later,
                    line,
                    first,
                })
            } else {
                None
            }
        }
        _ => None,
    }
}

/// Adds what the output at this place drives, and answers which output did so before.
fn add<'a>(
    drivers: &mut BTreeMap<Driven<'a>, usize>,
    outputs: &[Terminal<'a>],
    place: usize,
) -> Result<Option<usize>, AllocError> {
    match net_at(outputs, place) {
        Some((driven, _)) => Ok(drivers.insert(driven, place)?),
        None => Ok(None),
    }
}

/// The first output that drives a net for the second time.
fn second<'a>(alloc: Global, outputs: &[Terminal<'a>]) -> Result<Option<Clash<'a>>, AllocError>
    ensures { IfOk result (λ found. IfSome found (λ clash. IsSecond (map terminal_view outputs.now) (driven_of clash.driven) clash.first clash.line)) }
{
    let mut drivers = BTreeMap::new(alloc);
    for place in 0..outputs.len() {
        if let Some(before) = add(&mut drivers, outputs, place)? {
            return Ok(shared(outputs, before, place));
        }
    }
    Ok(None)
}

/// What the output at this place drives, where it is one of these inputs.
fn input_at<'a>(
    inputs: &BTreeMap<&'a [u8], u32>,
    outputs: &[Terminal<'a>],
    place: usize,
) -> Option<Clash<'a>>
    ensures { IfSome result (λ clash. spelled_at (map terminal_view outputs.now) place ≡ Some (clash_of clash)) }
{
    match net_at(outputs, place) {
        Some((driven, line)) => match inputs.get(driven.name) {
            Some(first) => Some(Clash {
                driven,
                line,
                first: *first,
            }),
            None => None,
        },
        None => None,
    }
}

/// The first output that drives one of these inputs.
fn on_input<'a>(
    alloc: Global,
    inputs: &[Placed<'a>],
    outputs: &[Terminal<'a>],
) -> Result<Option<Clash<'a>>, AllocError>
    ensures { IfOk result (λ found. IfSome found (λ clash. IsDriven (map terminal_view outputs.now) (driven_of clash.driven) clash.line)) }
{
    let mut declared = BTreeMap::new(alloc);
    for input in inputs {
        declared.insert(input.name, input.line)?;
    }
    for place in 0..outputs.len() {
        if let Some(clash) = input_at(&declared, outputs, place) {
            return Ok(Some(clash));
        }
    }
    Ok(None)
}

/// The module that a text is, if it is one.
fn module_of(alloc: Global, text: &[u8]) -> Result<Option<Module<'_>>, AllocError>
    ensures { IfOk result (λ found. IfSome found (λ m. Parses text.now (module_view m))) }
{
    match parse(alloc, text) {
        Ok(module) => Ok(Some(module)),
        Err(fault) => no_module(fault.kind),
    }
}

/// A text has no module where it isn't one, and where memory runs out it isn't known.
fn no_module<'a>(kind: Unread<'_>) -> Result<Option<Module<'a>>, AllocError>
    ensures { IfOk result (λ found. found ≡ None) }
{
    match kind {
        Unread::OutOfMemory => Err(AllocError),
        _ => Ok(None),
    }
}

/// The first output of a text that drives a net for the second time.
fn second_driver(alloc: Global, text: &[u8]) -> Result<Option<Clash<'_>>, AllocError>
    ensures { IfOk result (λ found. IfSome found (λ clash. IsSecondIn text.now (driven_of clash.driven) clash.first clash.line)) }
{
    match module_of(alloc, text)? {
        Some(module) => second(alloc, &outputs_in(alloc, &module)?),
        None => Ok(None),
    }
}

/// The first output of a text that drives an input.
fn driven_input(alloc: Global, text: &[u8]) -> Result<Option<Clash<'_>>, AllocError>
    ensures { IfOk result (λ found. IfSome found (λ clash. IsDrivenIn text.now (driven_of clash.driven) clash.line)) }
{
    match module_of(alloc, text)? {
        Some(module) => on_input(
            alloc,
            &inputs_in(alloc, &module)?,
            &outputs_in(alloc, &module)?,
        ),
        None => Ok(None),
    }
}

/// The net of a clash, where it stands on this line.
fn on_line(alloc: Global, clash: Option<Clash<'_>>, line: u32) -> Result<Option<Taken>, AllocError>
    ensures { IfOk result (λ found. IfSome found (λ taken. (c : Clash) × (clash.entry ≡ Some c) × (driven_of c.driven ≡ name_of taken.net) × (c.line ≡ line) × (c.first ≡ taken.line))) }
{
    match clash {
        Some(clash) if clash.line == line => Ok(Some(Taken {
            net: Name {
                text: Vec::from_slice(alloc, clash.driven.name)?,
                bit: clash.driven.bit,
            },
            line: clash.first,
        })),
        _ => Ok(None),
    }
}

/// Which net a gate output drives and may not, by the fault of this text that says so. There is
/// none for a fault of another kind, nor where the text spells the net in two ways.
pub fn taken_net(alloc: Global, text: &[u8], fault: Fault<'_>) -> Result<Option<Taken>, AllocError>
    ensures { IfOk result (λ found. IfSome found (λ taken. IsTaken fault.entry.kind text.now (name_of taken.net) taken.line fault.entry.line)) }
{
    match fault.kind {
        FaultKind::TwoDrivers => on_line(alloc, second_driver(alloc, text)?, fault.line),
        FaultKind::DrivenInput => on_line(alloc, driven_input(alloc, text)?, fault.line),
        _ => Ok(None),
    }
}
