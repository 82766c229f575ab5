//! How early, how late and how far nets change.

use crate::network::{Net, Network};
use crate::span::{FOREVER, Span};
use crate::waves::Waves;
use std::alloc::{AllocError, Global};
use td_cdcl::{read, write_at};

/// When a net may change in the runs of the admitted pairs, as places: it keeps its first level up
/// to place `early`, for ever where it never changes; and if its last level is 0 (1), it is at it
/// from place `falls` (`rises`) on.
#[derive(Clone, Copy, Debug, PartialEq, Eq, Drop)]
pub struct Times {
    pub early: u64,
    pub falls: u64,
    pub rises: u64,
}

/// What is known of the moments at which nets change.
#[derive(Clone, Drop)]
pub struct Reach {
    // By net, before any question and now.
    first: Vec<Times>,
    times: Vec<Times>,
    // By net and level: one more than the longest way from a change to an output, 0 where there is
    // no way.
    falls_ways: Vec<u64>,
    rises_ways: Vec<u64>,
    // By net and level: the place of the latest change that was seen in a run.
    falls_seen: Vec<u64>,
    rises_seen: Vec<u64>,
}

impl Times {
    /// Those of a net that never changes.
    pub const NEVER: Times = Times {
        early: FOREVER,
        falls: 0,
        rises: 0,
    };

    /// The place from which on a net whose last level this is keeps it.
    #[inline(always)]
    pub fn end(self, level: bool) -> u64 {
        if level { self.rises } else { self.falls }
    }

    /// The place from which on a net keeps its last level.
    #[inline(always)]
    pub fn settled(self) -> u64 {
        self.falls.max(self.rises)
    }

    fn with_end(self, level: bool, place: u64) -> Times {
        if level {
            Times {
                early: self.early,
                falls: self.falls,
                rises: place,
            }
        } else {
            Times {
                early: self.early,
                falls: place,
                rises: self.rises,
            }
        }
    }
}

impl Reach {
    /// Before any question: these times of the nets. The error is out of memory.
    pub fn new(alloc: Global, network: &Network, times: &[Times]) -> Result<Reach, AllocError> {
        let nets = network.nets();
        let mut reach = Reach {
            first: Vec::from_slice(alloc, times)?,
            times: Vec::from_slice(alloc, times)?,
            falls_ways: vec![in alloc; 0u64; nets]?,
            rises_ways: vec![in alloc; 0u64; nets]?,
            falls_seen: vec![in alloc; 0u64; nets]?,
            rises_seen: vec![in alloc; 0u64; nets]?,
        };
        for output in network.outputs() {
            write_at(&mut reach.falls_ways, *output as usize, 1);
            write_at(&mut reach.rises_ways, *output as usize, 1);
        }
        for place in (0..network.nodes().len()).rev() {
            reach.lead_back(network, place);
        }
        Ok(reach)
    }

    // The ways of a gate's inputs are at least its own and its delay.
    fn lead_back(&mut self, network: &Network, place: usize) {
        let net = network.net_of_gate(place);
        let Some(node) = network.driver(net) else {
            return;
        };
        for output in [false, true] {
            let way = self.way(net, output);
            if way == 0 {
                continue;
            }
            let longer = way.saturating_add(node.delay_to(output));
            for fanin in network.fanins(node) {
                for input in [false, true] {
                    if node.leads(input, output) && self.way(*fanin, input) < longer {
                        self.set_way(*fanin, input, longer);
                    }
                }
            }
        }
    }

    fn set_way(&mut self, net: Net, level: bool, way: u64) {
        let ways = if level {
            &mut self.rises_ways
        } else {
            &mut self.falls_ways
        };
        write_at(ways, net as usize, way);
    }

    /// One more than the longest way from a change of a net to a level to an output, 0 where there
    /// is none.
    pub fn way(&self, net: Net, level: bool) -> u64 {
        let ways = if level {
            &self.rises_ways
        } else {
            &self.falls_ways
        };
        read(ways, net as usize, 0)
    }

    /// The place of the latest change of a net to a level that was seen.
    pub fn seen(&self, net: Net, level: bool) -> u64 {
        let seen = if level {
            &self.rises_seen
        } else {
            &self.falls_seen
        };
        read(seen, net as usize, 0)
    }

    /// Notes the last changes of a run, of the nets up to one that lead to an output.
    pub fn note(&mut self, network: &Network, waves: &Waves, last: Net) {
        for input in 0..network.inputs() {
            self.note_one(waves, network.net_of_input(input));
        }
        for place in network.cone() {
            let net = network.net_of_gate(*place as usize);
            if net > last {
                break;
            }
            self.note_one(waves, net);
        }
    }

    fn note_one(&mut self, waves: &Waves, net: Net) {
        let place = waves.settled_from(net);
        let level = waves.last(net);
        if place > self.seen(net, level) {
            let seen = if level {
                &mut self.rises_seen
            } else {
                &mut self.falls_seen
            };
            write_at(seen, net as usize, place);
        }
    }

    /// When a net may change, by what is known now.
    #[inline(always)]
    pub fn times(&self, net: Net) -> Times {
        read(&self.times, net as usize, Times::NEVER)
    }

    /// By net when it may change, by what was known before any question.
    pub fn before_questions(&self) -> &[Times] {
        &self.first
    }

    /// When a net may change, by what was known before any question.
    #[inline(always)]
    pub fn first(&self, net: Net) -> Times {
        read(&self.first, net as usize, Times::NEVER)
    }

    /// Lowers an end of a net. Answers whether it was later.
    pub fn lower(&mut self, net: Net, level: bool, place: u64) -> bool {
        let times = self.times(net);
        if times.end(level) <= place {
            return false;
        }
        write_at(&mut self.times, net as usize, times.with_end(level, place));
        true
    }

    /// The end of a gate's output by those of its inputs.
    pub fn end_by_inputs(&self, network: &Network, net: Net, level: bool) -> u64 {
        let Some(node) = network.driver(net) else {
            return FOREVER;
        };
        let mut end = 0;
        for fanin in network.fanins(node) {
            for input in [false, true] {
                if node.leads(input, level) {
                    end = end.max(self.times(*fanin).end(input));
                }
            }
        }
        if end == 0 {
            0
        } else {
            end.saturating_add(node.delay_to(level))
        }
    }

    /// The latest moment at which a net may change.
    pub fn height(&self, net: Net) -> u64 {
        self.times(net).settled().saturating_sub(1)
    }

    /// The latest moment at which an output may change, 0 where none may.
    pub fn top(&self, network: &Network) -> u64 {
        let mut top = 0;
        for output in network.outputs() {
            top = top.max(self.height(*output));
        }
        top
    }

    /// The outputs that may change after a moment, the latest ones first. The error is out of
    /// memory.
    pub fn late_outputs(
        &self,
        alloc: Global,
        network: &Network,
        moment: u64,
    ) -> Result<Vec<Net>, AllocError> {
        let mut ranked = Vec::new(alloc);
        for output in network.outputs() {
            let height = self.height(*output);
            if height > moment {
                ranked.push((u64::MAX.saturating_sub(height), *output))?;
            }
        }
        ranked.sort_unstable();
        ranked.dedup();
        let mut outputs = Vec::new(alloc);
        for (_, output) in &ranked {
            outputs.push(*output)?;
        }
        Ok(outputs)
    }

    /// A span that says the same, as far as it goes: where the net can't change any more, it never
    /// ends, and where it can't have changed, it begins at place 0.
    pub fn normal(&self, span: Span) -> Span {
        let times = self.times(span.net);
        let endless = span.last >= times.settled()
            || span.first >= self.first(span.net).end(!span.level);
        let last = if endless { FOREVER } else { span.last };
        let early = span.first <= times.early || last <= times.early;
        Span {
            net: span.net,
            level: span.level,
            first: if early { 0 } else { span.first },
            last,
        }
    }
}
