//! The output that changes last.

ghost use Rattle.std.specs.Prelude.{◌≡◌, ◌<◌, length};
ghost use Rattle.std.specs.List.{All};
ghost use Rattle.td_gates.specs.Wave.{last};
ghost use Rattle.td_circuit.specs.Run.{latest_change};
ghost use Rattle.td_run.specs.Waves.{waves_of};
ghost use Rattle.td_path.specs.Walks.{IsFirstAt, wave_at};

use td_run::Run;

/// The moment of a net's last change.
pub fn last_of(run: &Run, net: u32) -> Option<u64>
    requires { net < length run.now.waves }
    ensures { result ≡ last (wave_at run.now.waves net) }
{
    run.wave(net).last()
}

/// The latest moment at which one of these nets changes, 0 where none does.
fn latest_moment(run: &Run, nets: &[u32]) -> u64
    requires { All (λ net. net < length run.now.waves) nets.now }
    ensures { result ≡ latest_change (waves_of run.now.waves nets.now) }
{
    let mut latest = 0;
    for net in nets {
        latest = latest.max(last_of(run, *net).unwrap_or(0));
    }
    latest
}

/// The first of these nets that changes last at the latest moment of all, none where none of them
/// changes.
pub fn latest_net(run: &Run, nets: &[u32]) -> Option<u32>
    requires { All (λ net. net < length run.now.waves) nets.now }
    ensures { IsFirstAt run.now.waves nets.now (latest_change (waves_of run.now.waves nets.now)) result }
{
    let latest = latest_moment(run, nets);
    for net in nets {
        if last_of(run, *net) == Some(latest) {
            return Some(*net);
        }
    }
    None
}
