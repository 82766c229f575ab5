//! Sweeps: from the inputs on, the ends of nets are lowered where a later change could matter.

use crate::asking::{Asked, Reply};
use crate::network::Net;
use crate::search::Search;
use std::alloc::AllocError;
use td_cdcl::read;

impl<'a> Search<'a> {
    /// Sweeps on from where the last one stopped, with this work. The error is out of memory.
    pub(crate) fn sweep(&mut self, work: u64) -> Result<(), AllocError> {
        let network = self.network;
        let gates = network.cone().len();
        let start = self.spent();
        for place in self.sweep.place..gates {
            self.sweep.place = place;
            if self.spent().saturating_sub(start) > work || self.is_over() {
                break;
            }
            let net = network.net_of_gate(read(network.cone(), place, 0) as usize);
            self.redo(net)?;
            for level in [false, true] {
                if !self.is_thin(net) && self.reach.way(net, level) > 0 {
                    self.lower_end(net, level)?;
                }
            }
            if place.saturating_add(1) == gates {
                self.sweep.place = 0;
                self.sweep.limit = self.sweep.limit.saturating_mul(2);
            }
        }
        for place in network.cone() {
            self.redo(network.net_of_gate(*place as usize))?;
        }
        Ok(())
    }

    // Lowers an end of a net in steps that grow while they succeed, down to where a change was
    // seen, or is too early to reach beyond the best pair.
    fn lower_end(&mut self, net: Net, level: bool) -> Result<(), AllocError> {
        let mut step = 1u64;
        let mut fails = 0u32;
        for _ in 0..u64::MAX {
            let way = self.reach.way(net, level).saturating_sub(1);
            let early = self.best_known().saturating_add(1).saturating_sub(way);
            let low = early.max(1).max(self.reach.seen(net, level));
            let high = self.reach.times(net).end(level);
            if high <= low || fails >= 2 || self.is_over() {
                return Ok(());
            }
            let place = high.saturating_sub(step).max(low);
            let asked = Asked {
                net,
                last: Some(level),
                place,
            };
            match self.ask(asked, Some(self.sweep.limit))? {
                Reply::No(lemma) => {
                    self.cut(net, level, place, lemma)?;
                    step = step.saturating_mul(2);
                }
                Reply::Yes => {
                    step = 1;
                    fails = fails.saturating_add(1);
                }
                Reply::Open => {
                    if step == 1 {
                        return Ok(());
                    }
                    step = (step / 4).max(1);
                    fails = fails.saturating_add(1);
                }
            }
        }
        Ok(())
    }
}
