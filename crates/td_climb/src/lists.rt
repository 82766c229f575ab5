//! The simulation of 64 pairs by a list of events for each net.

use crate::cone::Cone;
use crate::delaying::{Delaying, Due};
use crate::joining::negated;
use crate::lanes::Latest;
use crate::pairs::Pairs;
use crate::places::Places;
use crate::rooms::Rooms;
use crate::targets::Targets;
use crate::waves::{Event, Waves, quiet};
use std::alloc::{AllocError, Global};
use td_circuit::{Circuit, FIRST_INPUT, Gate};

/// How many events the gates of a circuit may read in one simulation, since they may double from
/// gate to gate. This number takes some 0.2 s. In a circuit of 200,000 gates, it is 40 events at
/// each input of a gate with two.
const EVENTS: usize = 1 << 24;

/// Room for the waves of the nets of a circuit, and for a gate's target.
#[derive(Debug, Drop)]
pub struct Lists {
    cone: Cone,
    rooms: Rooms<Waves>,
    targets: Targets,
    delaying: Delaying,
    made: Waves,
    /// How many events the gates read in the last simulation.
    pub events: usize,
}

impl Lists {
    /// Room for a circuit. The error is out of memory.
    pub fn new(alloc: Global, circuit: &Circuit) -> Result<Self, AllocError> {
        let places = Places::new(alloc, circuit)?;
        Ok(Lists {
            cone: Cone::of(alloc, circuit)?,
            rooms: Rooms::new(quiet(alloc, places.count)?, places.of_nets),
            targets: Targets::new(alloc, circuit)?,
            delaying: Delaying::new(alloc),
            made: Waves::new(alloc),
            events: 0,
        })
    }

    /// Simulates pairs. Answers whether it came to the end: it is cut off where there are too many
    /// events. The error is out of memory.
    pub fn simulate(&mut self, circuit: &Circuit, pairs: &Pairs) -> Result<bool, AllocError> {
        self.begin(circuit, pairs)?;
        let first = circuit.first_gate() as usize;
        self.events = 0;
        for (place, gate) in circuit.gates().iter().enumerate() {
            let output = first.saturating_add(place);
            if !self.cone.has(output) {
                continue;
            }
            let events = events_of(&self.rooms, &gate.inputs);
            self.events = self.events.saturating_add(events);
            if self.events > EVENTS {
                return Ok(false);
            }
            self.evaluate(gate, output)?;
        }
        Ok(true)
    }

    /// The latest moment at which an output changes in one of these lanes, by the pairs that were
    /// simulated last.
    pub fn latest(&self, circuit: &Circuit, lanes: u64) -> Latest {
        let mut latest = Latest { moment: 0, lanes };
        for net in circuit.outputs() {
            if let Some(waves) = self.rooms.of(*net) {
                latest = latest.or(last_change(waves, lanes));
            }
        }
        latest
    }

    /// The waves of the constants and the inputs. The error is out of memory.
    fn begin(&mut self, circuit: &Circuit, pairs: &Pairs) -> Result<(), AllocError> {
        self.write(0, 0, 0, 0)?;
        self.write(1, u64::MAX, 0, u64::MAX)?;
        for (input, moment) in circuit.moments().iter().enumerate() {
            let (first, second) = pairs.words(input);
            let net = input.saturating_add(FIRST_INPUT as usize);
            self.write(net, first, *moment, second)?;
        }
        Ok(())
    }

    /// The net has these levels at the start, and other ones from a moment on. The error is out of
    /// memory.
    fn write(
        &mut self,
        net: usize,
        start: u64,
        moment: u64,
        levels: u64,
    ) -> Result<(), AllocError> {
        match self.rooms.of_mut(net) {
            Some(waves) => waves.write(start, moment, levels),
            None => Ok(()),
        }
    }

    /// The waves of a gate's output. The error is out of memory.
    fn evaluate(&mut self, gate: &Gate, output: usize) -> Result<(), AllocError> {
        self.targets.make(&self.rooms, gate)?;
        let target = self.targets.target();
        let due = Due::of(gate);
        self.delaying
            .delay(target, negated(gate.kind), due, &mut self.made)?;
        self.rooms.exchange(output, &mut self.made);
        Ok(())
    }
}

/// How many events there are of these nets.
fn events_of(rooms: &Rooms<Waves>, nets: &[u32]) -> usize {
    let mut events = 0usize;
    for net in nets {
        if let Some(waves) = rooms.of(*net) {
            events = events.saturating_add(waves.events.len());
        }
    }
    events
}

/// The last change of a net in these lanes: in no lane, at 0, where there is none.
fn last_change(waves: &Waves, lanes: u64) -> Latest {
    let events: &[Event] = &waves.events;
    for place in (0..events.len()).rev() {
        let event = events[place];
        let before = if place == 0 {
            waves.start
        } else {
            events[place - 1].levels
        };
        let changed = (event.levels ^ before) & lanes;
        if changed != 0 {
            return Latest {
                moment: event.moment,
                lanes: changed,
            };
        }
    }
    Latest {
        moment: 0,
        lanes: 0,
    }
}
