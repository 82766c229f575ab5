//! The instances of gates in a module.

ghost use Rattle.std.specs.Prelude.{◌≡◌, ◌≤◌, map, length, ◌++◌, IfOk, OnOk, sum_by};
ghost use Rattle.td_syntax.specs.Views.{terminal_view, module_view, item_view, statement_view, option_delay_view};
ghost use Rattle.td_netlist.specs.Module.{outputs_of, inputs_of, primitives, item_primitives, defaulted_by, defaulted_of};
ghost use Rattle.td_netlist.specs.CheckViews.{primitive_of};
ghost use Rattle.std.specs.List.{flat_map};
ghost use Rattle.td_syntax.specs.Grammar.{Gates, output_count};

use std::alloc::{AllocError, Global};
use td_gates::Kind;
use td_syntax::{Delay, Item, Module, Statement, Terminal};

/// An instance, with what its statement says of it.
#[derive(Clone, Copy, Debug)]
pub struct Primitive<'m, 'a> {
    pub kind: Kind,
    pub delay: Option<Delay<'a>>,
    pub terminals: &'m [Terminal<'a>],
}

fn output_count(kind: Kind, terminals: usize) -> usize
    ensures { result ≡ output_count kind terminals }
{
    match kind {
        Kind::Buf | Kind::Not => terminals.saturating_sub(1),
        _ => 1,
    }
}

impl<'m, 'a> Primitive<'m, 'a> {
    /// The terminals that drive.
    pub fn outputs(self) -> &'m [Terminal<'a>]
        ensures { map terminal_view result.now ≡ outputs_of (primitive_of self.entry) }
    {
        let count = output_count(self.kind, self.terminals.len());
        self.terminals.split_at(count.min(self.terminals.len())).0
    }

    /// The terminals that read.
    pub fn inputs(self) -> &'m [Terminal<'a>]
        ensures { map terminal_view result.now ≡ inputs_of (primitive_of self.entry) }
    {
        let count = output_count(self.kind, self.terminals.len());
        self.terminals.split_at(count.min(self.terminals.len())).1
    }
}

/// The instances of a module, in the order of the text.
pub fn primitives<'m, 'a>(
    alloc: Global,
    source: &'m Module<'a>,
) -> Result<Vec<Primitive<'m, 'a>>, AllocError>
    ensures { IfOk result (λ ps. map primitive_of ps.items ≡ primitives (module_view source.now)) }
{
    let mut primitives = Vec::new(alloc);
    for item in &source.items {
        add_item(item, &mut primitives)?;
    }
    Ok(primitives)
}

fn add_item<'m, 'a>(
    item: &'m Item<'a>,
    primitives: &mut Vec<Primitive<'m, 'a>>,
) -> Result<(), AllocError>
    ensures { OnOk result (map primitive_of primitives.new.items ≡ map primitive_of primitives.old.items ++ item_primitives (item_view item.now)) }
{
    match item {
        Item::Declares(_) => Ok(()),
        Item::Gates(statement) => add_statement(statement, primitives),
    }
}

fn add_statement<'m, 'a>(
    statement: &'m Statement<'a>,
    primitives: &mut Vec<Primitive<'m, 'a>>,
) -> Result<(), AllocError>
    ensures { OnOk result (map primitive_of primitives.new.items ≡ map primitive_of primitives.old.items ++ item_primitives (Gates (statement_view statement.now))) }
{
    for instance in &statement.instances {
        primitives.push(Primitive {
            kind: statement.kind,
            delay: statement.delay,
            terminals: &instance.terminals,
        })?;
    }
    Ok(())
}

fn defaulted(delay: Option<Delay<'_>>, outputs: usize) -> usize
    ensures { result ≡ defaulted_by (option_delay_view delay.entry) outputs }
{
    match delay {
        None => outputs,
        Some(_) => 0,
    }
}

/// How many gates have the default delay.
pub fn defaulted_count(primitives: &[Primitive<'_, '_>]) -> usize
    requires { length (flat_map outputs_of (map primitive_of primitives.now)) ≤ 200000 }
    ensures { result ≡ sum_by defaulted_of (map primitive_of primitives.now) }
{
    let mut count = 0;
    for primitive in primitives {
        count += defaulted(primitive.delay, primitive.outputs().len());
    }
    count
}
