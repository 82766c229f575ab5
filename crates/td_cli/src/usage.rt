//! Faults of the words of a command line, and help.

ghost use Rattle.std.specs.Prelude.{◌≢◌, ◌⊎◌, OnOk};
ghost use Rattle.clap.specs.declared.error.kind.ErrorKind.TheVariants as Kind;
ghost use Rattle.clap.specs.Words.{kind_of};
ghost use Rattle.td_command.specs.Faults.{IsShown};
ghost use Rattle.td_cli.specs.Ends.{ShowsText, TellsFault};

use crate::fault::Fault;
use crate::message::{tell, tell_fault};
use crate::print::write;
use crate::tips::with_advice;
use clap::Error;
use clap::error::ErrorKind;
use std::alloc::{AllocError, Global};
use td_answer::Status;
use td_text::Sink;

/// The text of a fault of the words, or of help.
fn text_of(alloc: Global, error: &Error) -> Result<String, AllocError>
    ensures { OnOk result (kind_of error.now ≢ Kind.OutOfMemory) }
{
    if error.kind() == ErrorKind::OutOfMemory {
        return Err(AllocError);
    }
    format!(in alloc; "{error}")
}

fn show_help<O: Sink, E: Sink>(
    alloc: Global,
    error: &Error,
    help: &str,
    out: &mut O,
    err: &mut E,
) -> Status
    requires { IsShown (kind_of error.now) }
    ensures { ShowsText (kind_of error.now) result (O.output out.old) (O.output out.new) }
{
    match write(help.as_bytes(), out) {
        Ok(()) => Status::Done,
        Err(fault) => tell_fault(alloc, fault, err),
    }
}

/// Writes the text of a fault of the words to standard error, with advice that serves in place of
/// the parser's tips; as it is where memory runs out.
fn refuse<E: Sink>(alloc: Global, error: &Error, text: &str, words: &[&str], err: &mut E) {
    match with_advice(alloc, error, text, words) {
        Ok(text) => tell(err, text.bytes()),
        Err(_) => tell(err, text.as_bytes()),
    }
}

/// Tells a fault of these words on standard error, help on standard output. Answers how the program
/// ends.
pub(crate) fn tell_usage<O: Sink, E: Sink>(
    alloc: Global,
    error: &Error,
    words: &[&str],
    out: &mut O,
    err: &mut E,
) -> Status
    ensures { ShowsText (kind_of error.now) result (O.output out.old) (O.output out.new) ⊎ TellsFault (kind_of error.now) result (O.output out.old) (O.output out.new) }
{
    let text = match text_of(alloc, error) {
        Ok(text) => text,
        Err(_) => return tell_fault(alloc, Fault::OutOfMemory, err),
    };
    if error.use_stderr() {
        refuse(alloc, error, text.as_str(), words, err);
        return Status::BadCommand;
    }
    show_help(alloc, error, &text, out, err)
}
