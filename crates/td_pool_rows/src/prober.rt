//! A prober that passes all on to the product's own, and looks at what passes.

ghost use Rattle.std.specs.Prelude.{◌≡◌, ◌*◌, length, IfOk};
ghost use Rattle.td_circuit.specs.Numbering.{setting};
ghost use Rattle.td_search.specs.Deciding.{IsProbe};
ghost use Rattle.td_search.specs.Sheeted.{IsScratch};

use std::alloc::{AllocError, Global};
use std::sync::atomic::{AtomicU64, Ordering};
use std::thread::yield_now;
use td_circuit::Circuit;
use td_domain::{Cube, Pair, Trit};
use td_search::{Own, Probe, Prober, Scratch};

/// Counts the pairs that are measured, and passes all on. One call may be refused, the first bound
/// of a cube with one fixed position may wait until another such cube was bounded, and each cube's
/// strongest bound may be asked for, whatever the cut.
#[derive(Drop)]
pub struct Watching {
    pub measured: AtomicU64,
    /// How many calls there were, and the number of the call that runs out of memory, 0 for none.
    pub calls: AtomicU64,
    pub fails: u64,
    /// Whether the strongest bound is asked for in place of one under the cut.
    pub strongest: bool,
    /// Whether the first bound waits, how many bounds began, how many ended, and whether nothing
    /// came while it waited.
    pub waits: bool,
    pub begun: AtomicU64,
    pub bounded: AtomicU64,
    pub missed: AtomicU64,
}

impl Watching {
    /// Nothing is counted yet.
    pub fn new(fails: u64, waits: bool) -> Self {
        Watching {
            measured: AtomicU64::new(0),
            calls: AtomicU64::new(0),
            fails,
            strongest: false,
            waits,
            begun: AtomicU64::new(0),
            bounded: AtomicU64::new(0),
            missed: AtomicU64::new(0),
        }
    }

    /// The same, but for the strongest bound of each cube.
    pub fn with_the_strongest(mut self) -> Self {
        self.strongest = true;
        self
    }

    fn call(&self) -> Result<(), AllocError> {
        if self.calls.fetch_add(1, Ordering::SeqCst).saturating_add(1) == self.fails {
            return Err(AllocError);
        }
        Ok(())
    }

    // The product's own bound of a cube under this cut, or its strongest one.
    fn own_bound(
        &self,
        scratch: &mut Scratch,
        alloc: Global,
        circuit: &Circuit,
        cube: &Cube,
        cut: u64,
    ) -> Result<Probe, AllocError>
        requires scratch { IsScratch circuit.now scratch.old }
        requires positions { length cube.now ≡ 2 * length circuit.now.netlist.inputs }
        ensures probe { IfOk result (IsProbe (setting circuit.now) cube.now cut) }
        ensures scratch { IsScratch circuit.now scratch.new }
    {
        if self.strongest {
            Own.bound(scratch, alloc, circuit, cube, 0)
        } else {
            Own.bound(scratch, alloc, circuit, cube, cut)
        }
    }

    fn wait(&self) {
        if self.begun.fetch_add(1, Ordering::SeqCst) != 0 {
            return;
        }
        for _turn in 0..50_000_000u32 {
            if self.bounded.load(Ordering::SeqCst) != 0 {
                return;
            }
            yield_now();
        }
        self.missed.store(1, Ordering::SeqCst);
    }
}

/// How many positions of a cube are fixed.
fn fixed(cube: &Cube) -> usize {
    let mut count: usize = 0;
    for position in 0..cube.len() {
        if cube.trit(position) != Trit::Free {
            count = count.saturating_add(1);
        }
    }
    count
}

impl Prober for Watching {
    type Scratch = <Own as Prober>::Scratch;

    ghost is_for = { λ scratch circuit. IsScratch circuit scratch };

    fn scratch(
        &self,
        alloc: Global,
        circuit: &Circuit,
    ) -> Result<<Own as Prober>::Scratch, AllocError> {
        Own.scratch(alloc, circuit)
    }

    fn bound(
        &self,
        scratch: &mut <Own as Prober>::Scratch,
        alloc: Global,
        circuit: &Circuit,
        cube: &Cube,
        cut: u64,
    ) -> Result<Probe, AllocError> {
        self.call()?;
        let meets = self.waits && fixed(cube) == 1;
        if meets {
            self.wait();
        }
        let probe = self.own_bound(scratch, alloc, circuit, cube, cut)?;
        if meets {
            self.bounded.fetch_add(1, Ordering::SeqCst);
        }
        Ok(probe)
    }

    fn measure(
        &self,
        scratch: &mut <Own as Prober>::Scratch,
        circuit: &Circuit,
        pair: &Pair,
    ) -> Result<u64, AllocError> {
        self.call()?;
        self.measured.fetch_add(1, Ordering::SeqCst);
        Own.measure(scratch, circuit, pair)
    }
}
