//! The spans that have variables, by net and level, each in its place among its like.

use crate::network::Net;
use crate::span::Span;
use std::alloc::{AllocError, Global};

/// A span that never ends has its first place here, one from place 0 on its last, others both.
#[derive(Clone, Copy, Drop)]
pub struct Entry {
    pub place: u64,
    pub last: u64,
    pub variable: u32,
}

/// Of one net and level: spans that never end, by first place; spans from place 0 on, by last
/// place; the others, by first place and last.
#[derive(Clone, Drop)]
pub struct Chain {
    pub late: Vec<Entry>,
    pub early: Vec<Entry>,
    pub middle: Vec<Entry>,
}

/// The chains of all nets.
#[derive(Clone, Drop)]
pub struct Spans {
    falls: Vec<Chain>,
    rises: Vec<Chain>,
    none: Chain,
}

// How many entries come before a place and last.
fn before(entries: &[Entry], place: u64, last: u64) -> usize {
    entries.partition_point(|entry| (entry.place, entry.last) < (place, last))
}

fn insert(entries: &mut Vec<Entry>, entry: Entry) -> Result<(), AllocError> {
    let place = before(entries, entry.place, entry.last).min(entries.len());
    entries.insert(place, entry)?;
    Ok(())
}

fn find(entries: &[Entry], place: u64, last: u64) -> Option<u32> {
    let entry = entries.get(before(entries, place, last))?;
    if entry.place == place && entry.last == last {
        Some(entry.variable)
    } else {
        None
    }
}

/// The first entry at the place or later.
pub fn at_or_after(entries: &[Entry], place: u64) -> Option<Entry> {
    entries.get(before(entries, place, 0)).copied()
}

/// The last entry at the place or before.
pub fn at_or_before(entries: &[Entry], place: u64) -> Option<Entry> {
    let after = entries.partition_point(|entry| entry.place <= place);
    entries.get(after.checked_sub(1)?).copied()
}

impl Chain {
    fn new(alloc: Global) -> Chain {
        Chain {
            late: Vec::new(alloc),
            early: Vec::new(alloc),
            middle: Vec::new(alloc),
        }
    }

    fn find(&self, span: Span) -> Option<u32> {
        if span.is_endless() {
            find(&self.late, span.first, 0)
        } else if span.first == 0 {
            find(&self.early, span.last, 0)
        } else {
            find(&self.middle, span.first, span.last)
        }
    }

    fn insert(&mut self, span: Span, variable: u32) -> Result<(), AllocError> {
        if span.is_endless() {
            insert(
                &mut self.late,
                Entry {
                    place: span.first,
                    last: 0,
                    variable,
                },
            )
        } else if span.first == 0 {
            insert(
                &mut self.early,
                Entry {
                    place: span.last,
                    last: 0,
                    variable,
                },
            )
        } else {
            insert(
                &mut self.middle,
                Entry {
                    place: span.first,
                    last: span.last,
                    variable,
                },
            )
        }
    }
}

fn chains(alloc: Global, nets: usize) -> Result<Vec<Chain>, AllocError> {
    let mut chains = Vec::with_capacity(alloc, nets)?;
    for _ in 0..nets {
        chains.push(Chain::new(alloc))?;
    }
    Ok(chains)
}

impl Spans {
    /// None yet. The error is out of memory.
    pub fn new(alloc: Global, nets: usize) -> Result<Spans, AllocError> {
        Ok(Spans {
            falls: chains(alloc, nets)?,
            rises: chains(alloc, nets)?,
            none: Chain::new(alloc),
        })
    }

    /// The spans of a net at a level.
    pub fn of(&self, net: Net, level: bool) -> &Chain {
        let chains = if level { &self.rises } else { &self.falls };
        match chains.get(net as usize) {
            Some(chain) => chain,
            None => &self.none,
        }
    }

    /// The spans of a net at a level, to be changed.
    pub fn of_mut(&mut self, net: Net, level: bool) -> Option<&mut Chain> {
        if level {
            self.rises.get_mut(net as usize)
        } else {
            self.falls.get_mut(net as usize)
        }
    }

    /// The variable of a span, if it has one.
    pub fn find(&self, span: Span) -> Option<u32> {
        self.of(span.net, span.level).find(span)
    }

    /// Adds a span. The error is out of memory.
    pub fn insert(&mut self, span: Span, variable: u32) -> Result<(), AllocError> {
        match self.of_mut(span.net, span.level) {
            Some(chain) => chain.insert(span, variable),
            None => Ok(()),
        }
    }
}
