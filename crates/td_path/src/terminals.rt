//! Changes of the nets that a gate reads.

ghost use Rattle.std.specs.Prelude.{◌≡◌, ◌<◌, length};
ghost use Rattle.std.specs.List.{All};
ghost use Rattle.td_gates.specs.Table.{level_eq};
ghost use Rattle.td_gates.specs.Wave.{before, at};
ghost use Rattle.td_path.specs.Walks.{SomeChanges, IsFirstChange};

use td_gates::Level;
use td_run::{Run, Wave};

/// The level of a wave just before a moment.
pub fn level_before(wave: &Wave, moment: u64) -> Level
    ensures { result ≡ before wave.now moment }
{
    if moment == 0 {
        wave.start()
    } else {
        wave.at(moment - 1)
    }
}

/// Whether a wave keeps its level at a moment.
fn keeps(wave: &Wave, moment: u64) -> bool
    ensures { result ≡ level_eq (at wave.now moment) (before wave.now moment) }
{
    wave.at(moment) == level_before(wave, moment)
}

/// The first terminal whose net changes at a moment.
pub fn first_change(run: &Run, nets: &[u32], moment: u64) -> usize
    requires nets { All (λ net. net < length run.now.waves) nets.now }
    requires some { SomeChanges run.now.waves nets.now moment }
    ensures { IsFirstChange run.now.waves nets.now moment result }
{
    let mut terminal = 0;
    while keeps(run.wave(nets[terminal]), moment) {
        terminal += 1;
    }
    terminal
}
