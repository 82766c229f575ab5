ghost use Rattle.std.specs.Prelude.{◌≡◌};

use crate::{Gauge, Signal, Stop, Timer};
use std::sync::atomic::{AtomicBool, Ordering};
use std::test::Fail;
use std::time::{Clock, Duration};
use std::{io, thread};

#[test]
fn set_where_it_can_be(rt: HostRuntime) -> Result<(), Fail> {
    let stop = Stop::new();
    assert!(rt; !stop.is_set());
    stop.set();
    assert!(rt; stop.is_set());
    let never = Stop::never();
    never.set();
    assert!(rt; !never.is_set());
    Ok(())
}

/// A signal that is given once a flag is set.
#[derive(Drop)]
struct Flag<'a> {
    flag: &'a AtomicBool,
}

impl<'a> Signal for Flag<'a> {
    fn is_given(&mut self) -> bool {
        self.flag.load(Ordering::SeqCst)
    }
}

#[test]
fn asked_where_it_can_be(rt: HostRuntime) -> Result<(), Fail> {
    let stop = Stop::new();
    assert!(rt; !stop.was_asked());
    stop.ask();
    assert!(rt; stop.is_set() && stop.was_asked());
    let never = Stop::never();
    never.ask();
    assert!(rt; !never.is_set() && !never.was_asked());
    Ok(())
}

#[test]
fn gauge_adds_up(rt: HostRuntime) -> Result<(), Fail> {
    let gauge = Gauge::new();
    gauge.add(3);
    gauge.ask(7);
    gauge.add(4);
    assert!(rt; gauge.units() == 7 && gauge.moment() == 7);
    Ok(())
}

#[test]
fn timer_sets_a_stop(rt: HostRuntime) -> Result<(), Fail> {
    let stop = Stop::new();
    Timer::new().run(
        &rt,
        Some(0),
        &mut Flag {
            flag: &AtomicBool::new(false),
        },
        &stop,
    );
    assert!(rt; stop.is_set() && !stop.was_asked());
    Ok(())
}

#[test]
fn signal_sets_a_stop(rt: HostRuntime) -> Result<(), Fail> {
    let stop = Stop::new();
    Timer::new().run(
        &rt,
        None,
        &mut Flag {
            flag: &AtomicBool::new(true),
        },
        &stop,
    );
    assert!(rt; stop.is_set() && stop.was_asked());
    Ok(())
}

#[test]
fn signal_is_seen_later(rt: HostRuntime) -> Result<(), Fail> {
    let stop = Stop::new();
    let flag = AtomicBool::new(false);
    let timer = Timer::new();
    thread::join(
        &rt,
        || timer.run(&rt, Some(1_000_000), &mut Flag { flag: &flag }, &stop),
        || flag.store(true, Ordering::SeqCst),
    );
    assert!(rt; stop.is_set() && stop.was_asked());
    Ok(())
}

#[test]
fn timer_that_was_ended_sets_none(rt: HostRuntime) -> Result<(), Fail> {
    let stop = Stop::new();
    let timer = Timer::new();
    thread::join(
        &rt,
        || timer.run(
            &rt,
            Some(1_000_000),
            &mut Flag {
                flag: &AtomicBool::new(false),
            },
            &stop,
        ),
        || timer.end(&rt),
    );
    assert!(rt; !stop.is_set());
    Ok(())
}

/// A clock that can't be read.
struct Broken;

impl Clock for Broken {
    fn monotonic(&self) -> io::Result<Duration> {
        Err(io::ErrorKind::Other.into())
    }

    fn since_1970(&self) -> io::Result<Duration> {
        self.monotonic()
    }
}

#[test]
fn timer_needs_a_clock(rt: HostRuntime) -> Result<(), Fail> {
    assert!(rt; Timer::can_run(&rt));
    assert!(rt; !Timer::can_run(&Broken));
    Ok(())
}
