//! The changes of the variables in the order in which a dump has them.

ghost use Rattle.std.specs.Prelude.{◌≡◌, ◌++◌, ◌≤◌, map, IfOk, OnOk, IsPermutation};
ghost use Rattle.std.specs.List.{All};
ghost use Rattle.std.specs.List.Sorted.{IsNonDecreasingBy, IsStableByKey};
ghost use Rattle.std.specs.Ordering.{nat_cmp};
ghost use Rattle.td_run.specs.Waves.{AreWithin};
ghost use Rattle.td_vcd.specs.Text.{event_of, events_from, moment_of, change_lines};
ghost use Rattle.td_vcd.specs.Walks.{lines_from};

use std::alloc::{AllocError, Global};
use td_gates::Level;
use td_run::Wave;

/// A change of a variable.
#[derive(Clone, Copy, Debug, PartialEq, Eq, Drop)]
pub struct Event {
    pub moment: u64,
    pub variable: usize,
    pub level: Level,
}

/// Adds the changes of a variable.
fn push_events(events: &mut Vec<Event>, variable: usize, wave: &Wave) -> Result<(), AllocError>
    ensures { OnOk result (events.new.items ≡ events.old.items ++ map (event_of variable) wave.now.changes) }
{
    for change in wave.changes() {
        events.push(Event {
            moment: change.moment,
            variable,
            level: change.level,
        })?;
    }
    Ok(())
}

/// The changes of the variables that have these waves, one variable after another.
fn events_of(alloc: Global, waves: &[&Wave]) -> Result<Vec<Event>, AllocError>
    ensures { IfOk result (λ events. events.items ≡ events_from 0 (map (λ wave. wave.now) waves.now)) }
{
    let mut events = Vec::new(alloc);
    for (variable, wave) in waves.iter().enumerate() {
        push_events(&mut events, variable, wave)?;
    }
    Ok(events)
}

/// Puts events in the order of their moments. Those of one moment keep their order.
fn sort(events: &mut Vec<Event>) -> Result<(), AllocError>
    ensures moved { IsPermutation events.old.items events.new.items }
    ensures sorted { OnOk result (IsNonDecreasingBy moment_of events.new.items) }
    ensures stable { IsStableByKey moment_of nat_cmp events.old.items events.new.items }
{
    events.sort_by_key(|event| event.moment)?;
    Ok(())
}

/// The changes of the variables that have these waves in the order of their moments, and those of
/// one moment in the order of the variables.
pub fn events(alloc: Global, waves: &[&Wave]) -> Result<Vec<Event>, AllocError>
    requires { All (λ wave. AreWithin 200001000000000 wave.changes)
        (map (λ wave. wave.now) waves.now) }
    ensures lines { IfOk result (λ events. lines_from 0 events.items
        ≡ change_lines (events_from 0 (map (λ wave. wave.now) waves.now))) }
    ensures small { IfOk result (λ events. All (λ event. event.moment ≤ 200001000000000) events.items) }
{
    let mut events = events_of(alloc, waves)?;
    sort(&mut events)?;
    Ok(events)
}
