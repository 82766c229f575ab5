//! From the bytes of a text to the netlist that it means.

ghost use Rattle.std.specs.Prelude.{◌≡◌, ◌≤◌, map, sum_by, Ok, IfOk, IfErr};
ghost use Rattle.std.specs.List.{AllByRecursion};
ghost use Rattle.td_syntax.specs.Grammar.{IsItem, ArePorts, item_gates, unit_exponent};
ghost use Rattle.td_syntax.specs.Views.{module_view};
ghost use Rattle.td_nets.specs.Netlist as netlist;
ghost use Rattle.td_netlist.specs.Faults.{IsUnlessMemory, UnlessMemory, Fails};
ghost use Rattle.td_netlist.specs.Checked.{IsChecked};
ghost use Rattle.td_netlist.specs.Checks.{checked_at};
ghost use Rattle.td_netlist.specs.CheckViews.{primitive_of, sides_of};
ghost use Rattle.td_netlist.specs.Conditions.{IsConsistent};
ghost use Rattle.td_netlist.specs.NameFaults.{IsNameFault, IsFaultIn};
ghost use Rattle.td_netlist.specs.Means.{Means};
ghost use Rattle.td_netlist.specs.PlacedNets.{nets_at};
ghost use Rattle.td_netlist.specs.Module.{netlist_in, primitives, step_of, unit_of};
ghost use Rattle.td_netlist.specs.NameViews.{name_ref_of, placed_ref_of};
ghost use Rattle.std.specs.Hash.DefaultHasher.{initial, write, finish};
ghost use Rattle.td_nets.specs.Seeds.{start_of, seeded};
ghost use Rattle.td_nets.specs.Views.{name_of};
ghost use Rattle.td_nets.specs.WellFormed.{IsWellFormed};

use crate::declarations::{Sides, declared};
use crate::drivers::all_driven;
use crate::fault::Fault;
use crate::gates::{Timing, gates, owned};
use crate::known::Known;
use crate::name_ref::{NameRef, PlacedRef};
use crate::primitive::{Primitive, defaulted_count, primitives};
use std::alloc::{AllocError, Global};
use std::hash::{DefaultHasher, Hasher};
use td_gates::Delay;
use td_nets::{Name, Netlist, Scale, SeededState, Unit};
use td_syntax::{Directive, Front, Module, parse, unit_exponent};

fn owned_names(alloc: Global, names: &[NameRef<'_>]) -> Result<Vec<Name>, AllocError>
    ensures { IfOk result (λ owned. map name_of owned.items ≡ map name_ref_of names.now) }
{
    let mut copies = Vec::new(alloc);
    for name in names {
        copies.push(owned(alloc, *name)?)?;
    }
    Ok(copies)
}

fn owned_outputs(alloc: Global, outputs: &[PlacedRef<'_>]) -> Result<Vec<Name>, AllocError>
    ensures { IfOk result (λ owned. map name_of owned.items ≡ nets_at (map placed_ref_of outputs.now)) }
{
    let mut copies = Vec::new(alloc);
    for output in outputs {
        copies.push(owned(alloc, output.net)?)?;
    }
    Ok(copies)
}

/// The power of ten of a femtosecond as a magnitude and a unit.
fn unit_of(tens: u8) -> Unit
    ensures { result ≡ step_of tens }
{
    let (scale, zeros) = match tens {
        0..=2 => (Scale::Femtoseconds, tens),
        3..=5 => (Scale::Picoseconds, tens - 3),
        6..=8 => (Scale::Nanoseconds, tens - 6),
        9..=11 => (Scale::Microseconds, tens - 9),
        12..=14 => (Scale::Milliseconds, tens - 12),
        _ => (Scale::Seconds, tens - 15),
    };
    let magnitude = match zeros {
        0 => 1,
        1 => 10,
        _ => 100,
    };
    Unit { magnitude, scale }
}

/// The step of time, by the last directive: a nanosecond without one.
fn unit(fronts: &[Front]) -> Unit
    ensures { result ≡ unit_of fronts.now }
{
    let mut unit = Unit {
        magnitude: 1,
        scale: Scale::Nanoseconds,
    };
    for front in fronts {
        if let Front::Directed(Directive::Timescale(timescale)) = front {
            unit = unit_of(timescale.step);
        }
    }
    unit
}

/// How the names of a text are hashed: by a seed in which all its bytes have a part, so that they
/// can't be chosen to collide.
fn hashing_of(text: &[u8]) -> SeededState
    ensures { start_of result ≡ seeded (finish (write initial text.now)) }
{
    let mut digest = DefaultHasher::new();
    digest.write(text);
    SeededState::with_seed(digest.finish())
}

/// The netlist of a module whose checks pass: of its ports by direction, of what is known of its
/// names, and of its instances.
fn listed<'a>(
    alloc: Global,
    source: &Module<'a>,
    default: Delay,
    sides: &Sides<'a>,
    names: &Known<'a>,
    instances: &[Primitive<'_, 'a>],
) -> Result<Netlist, Fault<'a>>
    requires ports { ArePorts (module_view source.now).ports }
    requires items { AllByRecursion (IsItem (unit_exponent (module_view source.now).fronts)) (module_view source.now).items }
    requires gates { sum_by item_gates (module_view source.now).items ≤ 200000 }
    requires checked { IsChecked (module_view source.now) (sides_of sides.now) names.now (map primitive_of instances.now) }
    ensures lists { IfOk result (λ n. n ≡ netlist_in default (module_view source.now)) }
    ensures formed { IfOk result (λ n. IsWellFormed n) }
    ensures breaks { IfErr result (λ e. UnlessMemory e.kind (IsNameFault e.kind e.line (module_view source.now))) }
    ensures first { IfErr result (λ e. Fails e (checked_at (module_view source.now))) }
{
    let inputs = owned_names(alloc, &sides.inputs)?;
    let outputs = owned_outputs(alloc, &sides.outputs)?;
    let timing = Timing {
        tens: unit_exponent(&source.fronts),
        default,
    };
    let gates = gates(alloc, names, &timing, instances)?;
    let name = Vec::from_slice(alloc, source.name.name)?;
    let unit = unit(&source.fronts);
    let defaulted = defaulted_count(instances);
    // For the prover: this read says that the delay is in range.
    let _rise = default.rise;
    Ok(Netlist::new(name, inputs, outputs, gates, unit, defaulted))
}

/// The netlist of a module, by its instances.
fn from_instances<'a>(
    alloc: Global,
    hashing: SeededState,
    source: &Module<'a>,
    default: Delay,
    instances: &[Primitive<'_, 'a>],
) -> Result<Netlist, Fault<'a>>
    requires ports { ArePorts (module_view source.now).ports }
    requires items { AllByRecursion (IsItem (unit_exponent (module_view source.now).fronts)) (module_view source.now).items }
    requires gates { sum_by item_gates (module_view source.now).items ≤ 200000 }
    requires instances { map primitive_of instances.now ≡ primitives (module_view source.now) }
    ensures consistent { IfOk result (λ _. IsConsistent (module_view source.now)) }
    ensures lists { IfOk result (λ n. n ≡ netlist_in default (module_view source.now)) }
    ensures formed { IfOk result (λ n. IsWellFormed n) }
    ensures breaks { IfErr result (λ e. UnlessMemory e.kind (IsNameFault e.kind e.line (module_view source.now))) }
    ensures first { IfErr result (λ e. Fails e (checked_at (module_view source.now))) }
{
    let (sides, names) = declared(alloc, hashing, source)?;
    let drivers = all_driven(alloc, hashing, &sides, names, instances)?;
    listed(alloc, source, default, &sides, drivers.names(), instances)
}

/// The netlist of a module.
fn netlist<'a>(
    alloc: Global,
    hashing: SeededState,
    source: &Module<'a>,
    default: Delay,
) -> Result<Netlist, Fault<'a>>
    requires ports { ArePorts (module_view source.now).ports }
    requires items { AllByRecursion (IsItem (unit_exponent (module_view source.now).fronts)) (module_view source.now).items }
    requires gates { sum_by item_gates (module_view source.now).items ≤ 200000 }
    ensures consistent { IfOk result (λ _. IsConsistent (module_view source.now)) }
    ensures lists { IfOk result (λ n. n ≡ netlist_in default (module_view source.now)) }
    ensures formed { IfOk result (λ n. IsWellFormed n) }
    ensures breaks { IfErr result (λ e. UnlessMemory e.kind (IsNameFault e.kind e.line (module_view source.now))) }
    ensures first { IfErr result (λ e. Fails e (checked_at (module_view source.now))) }
{
    let instances = primitives(alloc, source)?;
    from_instances(alloc, hashing, source, default, &instances)
}

/// Reads a netlist: the one that the text means, where a gate that states no delay has the default
/// one.
///
/// The text is structural Verilog, as IEEE 1364-2005 defines it in clauses 3, 4, 7, 12 and 19: one
/// module of gate primitives. Names that aren't declared are scalar nets. The netlist keeps names
/// of its own, so that the text need not outlive it.
///
/// # Errors
///
/// The first fault of the first pass that has one: of tokens and grammar from the front; of
/// declarations, ports and drivers; of nets without a driver. `OutOfMemory` where a growth was
/// refused.
pub fn read<'a>(alloc: Global, text: &'a [u8], default: Delay) -> Result<Netlist, Fault<'a>>
    // What is read is what the text means.
    ensures found { IfOk result (λ n. Means text.now default n) }
    // What the text means is read, unless memory runs out.
    ensures only { (n : netlist.Netlist) → Means text.now default n → IsUnlessMemory result n }
    // A fault is the first one of tokens and grammar, or there is none of these and it is the first
    // of names: a name or terminal on that line breaks the condition.
    ensures fault { IfErr result (λ e. IsFaultIn text.now e.kind e.line) }
{
    let module = parse(alloc, text)?;
    netlist(alloc, hashing_of(text), &module, default)
}
