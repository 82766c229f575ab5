//! Why a span is true in a run: spans of the inputs of its gate.

use crate::network::{Net, Node};
use crate::record::{Holds, Link};
use crate::search::Search;
use crate::span::{FOREVER, Span};
use crate::spans::at_or_before;
use std::alloc::AllocError;
use td_cdcl::{Literal, read};

// How much slack counts at most.
const MOST_SLACK: u64 = 1000;

/// A stretch of a gate's target.
#[derive(Clone, Copy, Drop)]
struct Target {
    level: bool,
    first: u64,
    last: u64,
}

impl Target {
    // The span of an input at the level, from the first place to the last.
    fn span_of(self, net: Net) -> Span {
        Span {
            net,
            level: self.level,
            first: self.first,
            last: self.last,
        }
    }
}

/// An input that keeps a target at a level, with how far and at what cost.
#[derive(Clone, Copy, Drop)]
struct Keeper {
    net: Net,
    last: u64,
    cost: u64,
}

impl<'a> Search<'a> {
    // The stretches of a gate's target in the run.
    fn targets(&self, node: Node) -> Result<Vec<Target>, AllocError> {
        let mut moments = Vec::new(self.alloc);
        for fanin in self.network.fanins(node) {
            moments.extend_from_slice(self.waves.changes(*fanin))?;
        }
        moments.sort_unstable();
        moments.dedup();
        let mut targets = Vec::new(self.alloc);
        let mut open = Target {
            level: self.target_at(node, 0),
            first: 0,
            last: FOREVER,
        };
        for moment in &moments {
            let place = moment.saturating_add(1);
            let level = self.target_at(node, place);
            if level != open.level {
                targets.push(Target {
                    level: open.level,
                    first: open.first,
                    last: *moment,
                })?;
                open = Target {
                    level,
                    first: place,
                    last: FOREVER,
                };
            }
        }
        targets.push(open)?;
        Ok(targets)
    }

    // The level of a gate's target at a place.
    fn target_at(&self, node: Node, place: u64) -> bool {
        let counted = node.control().unwrap_or(true);
        let mut count = 0usize;
        for fanin in self.network.fanins(node) {
            if self.waves.at(*fanin, place) == counted {
                count = count.saturating_add(1);
            }
        }
        crate::waves::target_of(node, count)
    }

    /// Spans of a gate's inputs by which its output is at the level all along the span, in this
    /// run: from the latest window that leads to it, as far as holds carry. The error is out of
    /// memory.
    pub(crate) fn bodies(&self, span: Span) -> Result<Vec<Span>, AllocError> {
        let mut bodies = Vec::new(self.alloc);
        let Some(node) = self.network.driver(span.net) else {
            return Ok(bodies);
        };
        let delay = node.delay_to(span.level);
        let hold = node.delay_to(!span.level);
        let targets = self.targets(node)?;
        let mut window = None;
        let mut from = 0usize;
        for (place, target) in targets.iter().enumerate() {
            if target.level == span.level && is_window(*target, delay, span.first) {
                window = Some(begin_of_window(*target, delay, span.first));
                from = place;
            }
        }
        let begin = window.unwrap_or(0);
        let first = match window {
            Some(begin) => begin.saturating_add(delay).saturating_sub(1),
            None => 0,
        };
        let last = span.last_less(hold).max(first);
        let mut is_reached = false;
        for target in targets.iter().skip(from) {
            if is_reached || target.level != span.level {
                continue;
            }
            let low = target.first.max(begin);
            let high = target.last.min(last.max(low));
            is_reached = high.saturating_add(hold) >= span.last;
            let needed = Target {
                level: span.level,
                first: low,
                last: high,
            };
            self.support(node, needed, &mut bodies)?;
        }
        Ok(bodies)
    }

    // Spans of a gate's inputs by which its target is at a level at all places from one to another.
    fn support(
        &self,
        node: Node,
        target: Target,
        bodies: &mut Vec<Span>,
    ) -> Result<(), AllocError> {
        let plain = Target {
            level: target.level != node.inverts,
            first: target.first,
            last: target.last,
        };
        match node.control() {
            Some(control) => {
                if plain.level == control {
                    self.support_by_control(node, plain, bodies)
                } else {
                    self.support_by_all(node, plain, bodies)
                }
            }
            None => {
                if node.is_unary() {
                    self.support_by_all(node, plain, bodies)
                } else {
                    self.support_by_waves(node, plain, bodies)
                }
            }
        }
    }

    // All inputs are at the level.
    fn support_by_all(
        &self,
        node: Node,
        target: Target,
        bodies: &mut Vec<Span>,
    ) -> Result<(), AllocError> {
        for fanin in self.network.fanins(node) {
            bodies.push(target.span_of(*fanin))?;
        }
        Ok(())
    }

    // Each input is as its wave has it.
    fn support_by_waves(
        &self,
        node: Node,
        target: Target,
        bodies: &mut Vec<Span>,
    ) -> Result<(), AllocError> {
        for fanin in self.network.fanins(node) {
            let mut place = target.first;
            for _ in 0..self.waves.changes(*fanin).len().saturating_add(1) {
                let stretch = self.waves.stretch(*fanin, place);
                let end = stretch.last.min(target.last);
                bodies.push(Span {
                    net: *fanin,
                    level: stretch.level,
                    first: place,
                    last: end,
                })?;
                if end == target.last {
                    break;
                }
                place = end.saturating_add(1);
            }
        }
        Ok(())
    }

    // At each place one input at the controlling level: the one that goes on longest, among these
    // the cheapest.
    fn support_by_control(
        &self,
        node: Node,
        target: Target,
        bodies: &mut Vec<Span>,
    ) -> Result<(), AllocError> {
        let mut left = target;
        for _ in 0..u64::MAX {
            let Some(keeper) = self.keeper(node, left) else {
                return Ok(());
            };
            bodies.push(Span {
                net: keeper.net,
                level: left.level,
                first: left.first,
                last: keeper.last,
            })?;
            if keeper.last == left.last {
                return Ok(());
            }
            left.first = keeper.last.saturating_add(1);
        }
        Ok(())
    }

    // The input that is at the level of the target at its first place, and goes on longest.
    fn keeper(&self, node: Node, target: Target) -> Option<Keeper> {
        let mut best: Option<Keeper> = None;
        for fanin in self.network.fanins(node) {
            let stretch = self.waves.stretch(*fanin, target.first);
            if stretch.level != target.level {
                continue;
            }
            let mut span = target.span_of(*fanin);
            span.last = stretch.last.min(target.last);
            let keeper = Keeper {
                net: *fanin,
                last: span.last,
                cost: self.cost(span, stretch.first),
            };
            best = match best {
                Some(other) => Some(better(other, keeper)),
                None => Some(keeper),
            };
        }
        best
    }

    // The span of the source that gives a contracted net's, where no pulse is in the way.
    fn source_of(&self, span: Span) -> Span {
        let mut span = span;
        for _ in 0..self.network.nets() {
            if !self.is_thin(span.net) {
                return span;
            }
            let Some(node) = self.network.driver(span.net) else {
                return span;
            };
            let first = span.first.saturating_sub(node.delay_to(span.level));
            span = Span {
                net: read(self.network.fanins(node), 0, 0),
                level: span.level != node.inverts,
                first,
                last: span.last_less(node.delay_to(!span.level)).max(first),
            };
        }
        span
    }

    // What a reason costs, where the net has its level from a place on: little where it is a
    // constant, a first or last level, an input, or a span that is there; else the less, the more
    // slack it has.
    fn cost(&self, span: Span, from: u64) -> u64 {
        let slack = span.first.saturating_sub(from);
        let source = self.source_of(span);
        if source.net < 2 {
            return 0;
        }
        let normal = self.reach.normal(source);
        if normal.is_endless() && normal.first >= self.reach.times(source.net).end(source.level) {
            return 1;
        }
        if source.net < self.network.first_gate() {
            return 2;
        }
        match self.spans.find(normal) {
            Some(variable) => {
                if self.solver.is_true(Self::positive(variable)) {
                    3
                } else {
                    4
                }
            }
            None => 5 + MOST_SLACK - slack.min(MOST_SLACK),
        }
    }

    // A span for ever that is there already and begins a little earlier, where it is true in the
    // run.
    fn coarse(&self, span: Span) -> Span {
        if span.net < 2 {
            return span;
        }
        let span = self.reach.normal(span);
        let end = self.reach.times(span.net).end(span.level);
        let is_plain = span.net < self.network.first_gate() || !span.is_endless();
        if is_plain || span.first >= end || span.first == 0 {
            return span;
        }
        let since = self.waves.stretch(span.net, span.first).first;
        let chain = self.spans.of(span.net, span.level);
        match at_or_before(&chain.late, span.first) {
            Some(entry) => {
                let earlier = span.first.saturating_sub(entry.place);
                if entry.place >= since && earlier <= self.limits.reuse {
                    Span {
                        net: span.net,
                        level: span.level,
                        first: entry.place,
                        last: span.last,
                    }
                } else {
                    span
                }
            }
            None => span,
        }
    }

    // Adds the literals of a span of a net that isn't contracted to a body.
    fn hold_plain(
        &mut self,
        span: Span,
        body: &mut Vec<Literal>,
        holds: &mut Vec<Holds>,
    ) -> Result<(), AllocError> {
        let start = body.len();
        let span = self.coarse(span);
        self.say(span, body)?;
        for place in start..body.len() {
            holds.push(Holds::Literal(read(body, place, 0)))?;
        }
        Ok(())
    }

    /// Adds the literals of a span that holds in the run to a body, through contracted nets.
    /// Answers what holds: these literals, or a link. The error is out of memory.
    pub(crate) fn hold(
        &mut self,
        span: Span,
        body: &mut Vec<Literal>,
        holds: &mut Vec<Holds>,
    ) -> Result<(), AllocError> {
        if !self.is_thin(span.net) {
            return self.hold_plain(span, body, holds);
        }
        // A contracted net's spans lead to spans of its source, and these to those of its own.
        let mut open = Vec::new(self.alloc);
        self.expand(span, &mut open)?;
        self.close(&mut open, body, holds)
    }

    // Adds a span of a contracted net with all spans that it rests on, each before those that give
    // it.
    fn expand(&self, span: Span, open: &mut Vec<Open>) -> Result<(), AllocError> {
        open.push(Open {
            span,
            parent: None,
            holds: Vec::new(self.alloc),
        })?;
        for place in 0..u32::MAX as usize {
            let Some(member) = open.get(place) else {
                return Ok(());
            };
            let span = member.span;
            if !self.is_thin(span.net) {
                continue;
            }
            for source in self.bodies(span)? {
                open.push(Open {
                    span: source,
                    parent: Some(place),
                    holds: Vec::new(self.alloc),
                })?;
            }
        }
        Ok(())
    }

    // Makes the literals and links of spans, the last one first, and hands each to the one that
    // rests on it.
    fn close(
        &mut self,
        open: &mut Vec<Open>,
        body: &mut Vec<Literal>,
        holds: &mut Vec<Holds>,
    ) -> Result<(), AllocError> {
        for _ in 0..open.len() {
            let Some(member) = open.pop() else {
                return Ok(());
            };
            let Open {
                span,
                parent,
                holds: given,
            } = member;
            let own = self.closed(span, given, body)?;
            match parent {
                None => holds.extend_from_slice(&own)?,
                Some(place) => give(open, place, &own)?,
            }
        }
        Ok(())
    }
}

impl<'a> Search<'a> {
    // What holds of a span whose own ones hold: a link of a contracted net's, else its literals.
    fn closed(
        &mut self,
        span: Span,
        given: Vec<Holds>,
        body: &mut Vec<Literal>,
    ) -> Result<Vec<Holds>, AllocError> {
        let mut own = Vec::new(self.alloc);
        if self.is_thin(span.net) {
            own.push(self.record.link(Link { span, holds: given })?)?;
        } else {
            self.hold_plain(span, body, &mut own)?;
        }
        Ok(own)
    }
}

/// A span that is to be made, and what holds of those that it rests on.
#[derive(Drop)]
struct Open {
    span: Span,
    // The place of the span that rests on it.
    parent: Option<usize>,
    holds: Vec<Holds>,
}

fn give(open: &mut Vec<Open>, parent: usize, own: &[Holds]) -> Result<(), AllocError> {
    match open.get_mut(parent) {
        Some(member) => member.holds.extend_from_slice(own),
        None => Ok(()),
    }
}

// Whether a stretch of the target makes the output change to its level before a place.
fn is_window(target: Target, delay: u64, place: u64) -> bool {
    let is_long = target.last == FOREVER
        || target.last.saturating_sub(target.first).saturating_add(1) >= delay;
    target.first.saturating_add(delay) <= place && is_long
}

// The latest begin of the window in a stretch that makes the output change so.
fn begin_of_window(target: Target, delay: u64, place: u64) -> u64 {
    let latest = place.saturating_sub(delay);
    if target.last == FOREVER {
        latest
    } else {
        latest.min(target.last.saturating_add(1).saturating_sub(delay))
    }
}

// The one that goes on longer, or costs less; the first where they are alike.
fn better(this: Keeper, that: Keeper) -> Keeper {
    if that.last > this.last || that.last == this.last && that.cost < this.cost {
        that
    } else {
        this
    }
}
