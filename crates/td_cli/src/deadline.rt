//! What ends a run before it is done.

ghost use Rattle.std.specs.Prelude.{◌≡◌, is_some};
ghost use Rattle.td_cli.specs.Deadlines.{seconds_asked, file_asked};

use crate::advice::Advice;
use td_request::{Command, Request};
use td_stop::Stop;

/// What ends a run before it is done: that these seconds have passed, or that a file of this name
/// is there.
#[derive(Drop)]
pub(crate) struct Deadline<'a, 'w, A> {
    pub(crate) seconds: Option<u32>,
    file: Option<&'w str>,
    advice: &'a A,
}

impl<'a, 'w, A: Advice> Deadline<'a, 'w, A> {
    ghost use Rattle.std.specs.Prelude.{◌≡◌, ◌||◌, is_some};
    ghost use Rattle.td_cli.specs.Deadlines.{can_end};

    /// What ends the run of a request.
    pub(crate) fn of(request: &Request<'w>, advice: &'a A) -> Self
        ensures { (is_some result.seconds || is_some result.file) ≡ can_end request.now.command }
    {
        let seconds = seconds_asked(&request.command);
        let file = file_asked(&request.command);
        Deadline {
            seconds: seconds_of(seconds),
            file,
            advice,
        }
    }

    /// Whether something may end the run.
    pub(crate) fn can_come(&self) -> bool
        ensures { result ≡ (is_some self.now.seconds || is_some self.now.file) }
    {
        self.seconds.is_some() || self.file.is_some()
    }

    /// Whether somebody asks for the end now: the file is there.
    pub(crate) fn is_given(&self) -> bool {
        match self.file {
            Some(name) => self.advice.is_there(name),
            None => false,
        }
    }

    /// The stop of the run, set where the run ends before it begins.
    pub(crate) fn stop(&self) -> Stop
        ensures { result.can_be_set ≡ (is_some self.now.seconds || is_some self.now.file) }
    {
        if !self.can_come() {
            return Stop::never();
        }
        let stop = Stop::new();
        if self.is_given() {
            stop.ask();
        } else if self.seconds == Some(0) {
            stop.set();
        }
        stop
    }
}

/// The seconds after which a command ends, if words ask for that.
fn seconds_asked(command: &Command<'_>) -> Option<u64>
    ensures { result ≡ seconds_asked command.now }
{
    match command {
        Command::Sim(sim) => sim.seconds,
        Command::Path(path) => path.seconds,
        Command::Worst(search) => search.effort.seconds,
        Command::Check(check) => check.seconds,
        Command::Bound(_) | Command::Parts(_) | Command::Join(_) | Command::Info => None,
    }
}

/// The file whose presence ends a command, if words ask for that.
fn file_asked<'w>(command: &Command<'w>) -> Option<&'w str>
    ensures { result ≡ file_asked command.now }
{
    match command {
        Command::Worst(search) => search.stop,
        _ => None,
    }
}

/// The seconds after which a run ends, if it is to end so: 136 years where more are given.
fn seconds_of(given: Option<u64>) -> Option<u32>
    ensures { is_some result ≡ is_some given }
{
    match given {
        Some(seconds) => Some(u32::try_from(seconds).unwrap_or(u32::MAX)),
        None => None,
    }
}
