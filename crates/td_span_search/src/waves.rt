//! The run of a pair, gate by gate: of each net its level at the start and the moments at which it
//! changes, all moments in one vector.

use crate::network::{Function, Net, Network, Node};
use crate::pairs::PairBits;
use crate::span::{FOREVER, Span};
use std::alloc::{AllocError, Global};
use td_cdcl::{read, write_at};

// A run with more changes isn't followed to its end.
const MOST_CHANGES: usize = 1 << 26;

/// Where the changes of a net stand.
#[derive(Clone, Copy, Drop)]
struct Range {
    start: usize,
    end: usize,
}

/// A change of an input of a gate: whether it comes to the level that counts.
#[derive(Clone, Copy, Drop)]
struct Event {
    moment: u64,
    rises: bool,
}

/// A stretch of a net: it is at this level at all places from `first` to `last`.
#[derive(Clone, Copy, Drop)]
pub struct Stretch {
    pub level: bool,
    pub first: u64,
    pub last: u64,
}

/// The waves of the run that was simulated last.
#[derive(Clone, Drop)]
pub struct Waves {
    // By net.
    starts: Vec<bool>,
    ranges: Vec<Range>,
    moments: Vec<u64>,
    // Room for the changes of a gate's inputs.
    events: Vec<Event>,
}

// A gate's output: a change is due where the target has differed from the level long enough (the
// scheduling rule of IEEE 1364-2005, clause 7.14, for delays of gates).
#[derive(Clone, Copy, Drop)]
struct Inertia {
    level: bool,
    // When the next change is due, `FOREVER` where none is.
    due: u64,
    rise: u64,
    fall: u64,
}

impl Inertia {
    #[inline(always)]
    fn new(node: Node, level: bool) -> Inertia {
        Inertia {
            level,
            due: FOREVER,
            rise: node.delay_to(true),
            fall: node.delay_to(false),
        }
    }

    // The target changes to a level at a moment. Answers the moment of a change that has come
    // before, `FOREVER` where none has.
    #[inline(always)]
    fn turn(&mut self, moment: u64, level: bool) -> u64 {
        let mut come = FOREVER;
        if self.due <= moment {
            come = self.due;
            self.level = !self.level;
            self.due = FOREVER;
        }
        if level == self.level {
            self.due = FOREVER;
        } else if self.due == FOREVER {
            let delay = if level { self.rise } else { self.fall };
            self.due = moment.saturating_add(delay);
        }
        come
    }
}

// The level of a gate's target where this many of its inputs are at the level that counts: the
// controlling one, 1 for a gate without one.
#[inline(always)]
pub fn target_of(node: Node, count: usize) -> bool {
    let plain = match node.function {
        Function::And => count == 0,
        Function::Or => count > 0,
        Function::Xor | Function::Copy => count % 2 == 1,
    };
    plain != node.inverts
}

/// The level that counts.
#[inline(always)]
pub fn counted_level(node: Node) -> bool {
    node.control().unwrap_or(true)
}

impl Waves {
    /// Of no run yet.
    pub fn new(alloc: Global) -> Waves {
        Waves {
            starts: Vec::new(alloc),
            ranges: Vec::new(alloc),
            moments: Vec::new(alloc),
            events: Vec::new(alloc),
        }
    }

    /// The moments at which a net changes.
    #[inline(always)]
    pub fn changes(&self, net: Net) -> &[u64] {
        match self.ranges.get(net as usize) {
            Some(range) => self.moments_of(*range),
            None => &[],
        }
    }

    #[inline(always)]
    fn moments_of(&self, range: Range) -> &[u64] {
        match self.moments.get(range.start..range.end) {
            Some(own) => own,
            None => &[],
        }
    }

    /// How many changes there are.
    pub fn count(&self) -> usize {
        self.moments.len()
    }

    /// The level of a net at the start.
    #[inline(always)]
    pub fn start(&self, net: Net) -> bool {
        read(&self.starts, net as usize, false)
    }

    /// The level of a net in the end.
    pub fn last(&self, net: Net) -> bool {
        self.start(net) != (self.changes(net).len() % 2 == 1)
    }

    /// The place from which on a net keeps its last level.
    pub fn settled_from(&self, net: Net) -> u64 {
        match self.changes(net).last() {
            Some(moment) => moment.saturating_add(1),
            None => 0,
        }
    }

    /// The level of a net at a place.
    pub fn at(&self, net: Net, place: u64) -> bool {
        let before = self.changes(net).partition_point(|moment| *moment < place);
        self.start(net) != (before % 2 == 1)
    }

    /// Whether a span is true.
    pub fn holds(&self, span: Span) -> bool {
        let changes = self.changes(span.net);
        let before = changes.partition_point(|moment| *moment < span.first);
        if (self.start(span.net) != (before % 2 == 1)) != span.level {
            return false;
        }
        match changes.get(before) {
            Some(next) => *next >= span.last,
            None => true,
        }
    }

    /// The stretch of a net round a place.
    pub fn stretch(&self, net: Net, place: u64) -> Stretch {
        let changes = self.changes(net);
        let before = changes.partition_point(|moment| *moment < place);
        let first = match before.checked_sub(1) {
            Some(change) => read(changes, change, 0).saturating_add(1),
            None => 0,
        };
        let last = match changes.get(before) {
            Some(next) => *next,
            None => FOREVER,
        };
        Stretch {
            level: self.start(net) != (before % 2 == 1),
            first,
            last,
        }
    }

    /// The latest moment at which an output changes, 0 where none does.
    pub fn delay(&self, network: &Network) -> u64 {
        let mut delay = 0;
        for output in network.outputs() {
            if let Some(moment) = self.changes(*output).last() {
                delay = delay.max(*moment);
            }
        }
        delay
    }

    // The changes of a net are those from a place on.
    fn keep(&mut self, net: Net, start: usize) {
        let range = Range {
            start,
            end: self.moments.len(),
        };
        write_at(&mut self.ranges, net as usize, range);
    }

    fn clear(&mut self, nets: usize) -> Result<(), AllocError> {
        self.starts.clear();
        self.starts.resize(nets, false)?;
        self.ranges.clear();
        self.ranges.resize(nets, Range { start: 0, end: 0 })?;
        self.moments.clear();
        write_at(&mut self.starts, 1, true);
        Ok(())
    }

    /// The run of a pair, of the nets up to `last` that lead to an output: the others stay at 0.
    /// Answers whether it was followed to its end. The error is out of memory.
    pub fn run(
        &mut self,
        network: &Network,
        pair: &PairBits,
        last: Net,
    ) -> Result<bool, AllocError> {
        self.clear(network.nets())?;
        for input in 0..network.inputs() {
            let net = network.net_of_input(input);
            let (first, second) = pair.bits(input);
            write_at(&mut self.starts, net as usize, first);
            let start = self.moments.len();
            if first != second {
                self.moments.push(network.moment(input))?;
            }
            self.keep(net, start);
        }
        for place in network.cone() {
            let net = network.net_of_gate(*place as usize);
            let Some(node) = network.driver(net) else {
                break;
            };
            if net > last {
                break;
            }
            if self.moments.len() > MOST_CHANGES {
                return Ok(false);
            }
            let start = self.moments.len();
            let end = self.run_gate(network, node, net)?;
            self.moments.truncate(end);
            self.keep(net, start);
        }
        Ok(true)
    }

    #[inline(always)]
    fn range(&self, net: Net) -> Range {
        read(&self.ranges, net as usize, Range { start: 0, end: 0 })
    }

    // Writes a change, where there is one, before the end. Answers the end after it.
    #[inline(always)]
    fn write(&mut self, end: usize, moment: u64) -> usize {
        if moment == FOREVER {
            return end;
        }
        write_at(&mut self.moments, end, moment);
        end.saturating_add(1)
    }

    // The changes of a gate's output, written after all that there are, beside room that isn't
    // used. Answers where they end. The error is out of memory.
    fn run_gate(&mut self, network: &Network, node: Node, net: Net) -> Result<usize, AllocError> {
        let counted = counted_level(node);
        let is_controlled = node.control().is_some();
        let fanins = network.fanins(node);
        let mut count = 0usize;
        let mut moving = 0usize;
        let mut room = 0usize;
        let mut one = 0;
        let mut other = 0;
        let mut is_settled = false;
        for fanin in fanins {
            let counts = self.start(*fanin) == counted;
            count = count.saturating_add(usize::from(counts));
            let range = self.range(*fanin);
            if range.start < range.end {
                other = one;
                one = *fanin;
                moving = moving.saturating_add(1);
                room = room.saturating_add(range.end.saturating_sub(range.start));
            } else if counts && is_controlled {
                is_settled = true;
            }
        }
        let level = target_of(node, count);
        let end = self.moments.len();
        write_at(&mut self.starts, net as usize, level);
        if moving == 0 || is_settled {
            return Ok(end);
        }
        self.moments
            .resize(end.saturating_add(room).saturating_add(1), 0)?;
        Ok(match moving {
            1 => self.follow_one(node, one, level, end),
            2 => self.follow_two(node, one, other, count, end),
            _ => {
                self.collect_events(fanins, counted)?;
                self.follow_many(node, count, end)
            }
        })
    }

    fn follow_one(&mut self, node: Node, fanin: Net, start: bool, first: usize) -> usize {
        let mut inertia = Inertia::new(node, start);
        let mut level = start;
        let mut end = first;
        let range = self.range(fanin);
        for place in range.start..range.end {
            level = !level;
            let come = inertia.turn(read(&self.moments, place, 0), level);
            end = self.write(end, come);
        }
        self.write(end, inertia.due)
    }

    // Two inputs that change; `count` inputs are at the level that counts at the start.
    fn follow_two(
        &mut self,
        node: Node,
        one: Net,
        other: Net,
        count: usize,
        first: usize,
    ) -> usize {
        let counted = counted_level(node);
        let mut left = self.range(one);
        let mut right = self.range(other);
        let mut is_one = self.start(one) == counted;
        let mut is_other = self.start(other) == counted;
        let others = count
            .saturating_sub(usize::from(is_one))
            .saturating_sub(usize::from(is_other));
        let mut level = target_of(node, count);
        let mut inertia = Inertia::new(node, level);
        let mut end = first;
        for _ in 0..self.moments.len() {
            let here = front(&self.moments, left);
            let there = front(&self.moments, right);
            let next = here.min(there);
            if next == FOREVER {
                break;
            }
            if here == next {
                is_one = !is_one;
                left.start = left.start.saturating_add(1);
            }
            if there == next {
                is_other = !is_other;
                right.start = right.start.saturating_add(1);
            }
            let now = others
                .saturating_add(usize::from(is_one))
                .saturating_add(usize::from(is_other));
            if target_of(node, now) != level {
                level = !level;
                let come = inertia.turn(next, level);
                end = self.write(end, come);
            }
        }
        self.write(end, inertia.due)
    }

    // The changes of all inputs, in their order.
    fn collect_events(&mut self, fanins: &[Net], counted: bool) -> Result<(), AllocError> {
        self.events.clear();
        for fanin in fanins {
            let mut rises = self.start(*fanin) != counted;
            let range = self.range(*fanin);
            for place in range.start..range.end {
                self.events.push(Event {
                    moment: read(&self.moments, place, 0),
                    rises,
                })?;
                rises = !rises;
            }
        }
        self.events.sort_unstable_by_key(|event| event.moment);
        Ok(())
    }

    fn follow_many(&mut self, node: Node, start: usize, first: usize) -> usize {
        let mut count = start;
        let mut level = target_of(node, start);
        let mut inertia = Inertia::new(node, level);
        let mut end = first;
        for place in 0..self.events.len() {
            let event = read(&self.events, place, Event::none());
            count = if event.rises {
                count.saturating_add(1)
            } else {
                count.saturating_sub(1)
            };
            let is_last = match self.events.get(place.saturating_add(1)) {
                Some(next) => next.moment != event.moment,
                None => true,
            };
            if is_last && target_of(node, count) != level {
                level = !level;
                let come = inertia.turn(event.moment, level);
                end = self.write(end, come);
            }
        }
        self.write(end, inertia.due)
    }
}

impl Event {
    fn none() -> Event {
        Event {
            moment: 0,
            rises: false,
        }
    }
}

// The first moment of a range, none being the latest.
#[inline(always)]
fn front(moments: &[u64], range: Range) -> u64 {
    if range.start < range.end {
        read(moments, range.start, FOREVER)
    } else {
        FOREVER
    }
}
