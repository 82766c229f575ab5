//! A question that stays open is split at an input bit, and so on, inside one solver.

use crate::asking::{Asked, Reply};
use crate::search::{CubeBit, Search};
use std::alloc::AllocError;
use td_cdcl::variable_of;

/// A split whose zero side, or both sides, were begun.
#[derive(Clone, Copy, Drop)]
struct Split {
    bit: CubeBit,
    is_second: bool,
    // Whether a side stays open.
    is_open: bool,
}

impl<'a> Search<'a> {
    /// Whether an output changes after a moment, with this work. The error is out of memory.
    pub(crate) fn by_cubes(&mut self, asked: Asked, effort: u64) -> Result<Reply, AllocError> {
        let start = self.spent();
        let mut splits: Vec<Split> = Vec::new(self.alloc);
        self.cube.clear();
        for _ in 0..u64::MAX {
            let used = self.spent().saturating_sub(start);
            let left = effort.saturating_sub(used).max(1);
            let mut reply = self.ask(asked, Some(left.min(self.limits.split)))?;
            let is_used = self.spent().saturating_sub(start) >= effort || self.is_over();
            if reply == Reply::Yes || reply == Reply::Open && is_used {
                return Ok(self.leave(reply));
            }
            if reply == Reply::Open {
                if let Some(bit) = self.most_active() {
                    splits.push(Split {
                        bit,
                        is_second: false,
                        is_open: false,
                    })?;
                    self.cube.push(bit)?;
                    continue;
                }
            }
            if !self.go_on(asked, &mut reply, &mut splits)? {
                return Ok(self.leave(reply));
            }
        }
        Ok(self.leave(Reply::Open))
    }

    fn leave(&mut self, reply: Reply) -> Reply {
        self.cube.clear();
        reply
    }

    // A side has this reply: goes on to the next side that wasn't begun. Answers whether there is
    // one.
    fn go_on(
        &mut self,
        asked: Asked,
        reply: &mut Reply,
        splits: &mut Vec<Split>,
    ) -> Result<bool, AllocError> {
        for _ in 0..splits.len().saturating_add(1) {
            let Some(split) = splits.pop() else {
                return Ok(false);
            };
            self.cube.pop();
            let is_open = split.is_open || *reply == Reply::Open;
            if !split.is_second {
                let bit = CubeBit {
                    net: split.bit.net,
                    is_last: split.bit.is_last,
                    level: true,
                };
                self.cube.push(bit)?;
                splits.push(Split {
                    bit,
                    is_second: true,
                    is_open,
                })?;
                return Ok(true);
            }
            if is_open {
                *reply = Reply::Open;
            } else {
                // The lemmas of both sides give that of the cube.
                *reply = self.ask(asked, None)?;
                if *reply == Reply::Yes {
                    return Ok(false);
                }
            }
        }
        Ok(false)
    }

    // The input bit outside the cube that was met most in conflicts, at 0.
    fn most_active(&self) -> Option<CubeBit> {
        let mut best: Option<(u64, CubeBit)> = None;
        for input in 0..self.network.inputs() {
            let net = self.network.net_of_input(input);
            for is_last in [true, false] {
                let Some(literal) = self.settled_literal(net, is_last) else {
                    continue;
                };
                if self.is_in_cube(net, is_last) {
                    continue;
                }
                let activity = self.solver.activity(variable_of(literal));
                let bit = CubeBit {
                    net,
                    is_last,
                    level: false,
                };
                best = match best {
                    Some((most, other)) => {
                        if activity > most {
                            Some((activity, bit))
                        } else {
                            Some((most, other))
                        }
                    }
                    None => Some((activity, bit)),
                };
            }
        }
        match best {
            Some((_, bit)) => Some(bit),
            None => None,
        }
    }

    fn is_in_cube(&self, net: u32, is_last: bool) -> bool {
        for bit in &self.cube {
            if bit.net == net && bit.is_last == is_last {
                return true;
            }
        }
        false
    }
}
