//! What the words of a command line ask for. They are parsed once.

ghost use Rattle.std.specs.Prelude.{◌≡◌, map, false, None, IfOk, IfErr, IfSome, IfNone};
ghost use Rattle.clap.specs.Words.{HasKind, subcommand_rows_of};
ghost use Rattle.td_inputs.specs.Scans.{taken_in};
ghost use Rattle.td_command.specs.CommandLine.{kinds_of};
ghost use Rattle.td_command.specs.Faults.{HasFault, all_of};
ghost use Rattle.td_command.specs.Saying.{AskFor, takes, takes_entered, take_names};

use crate::commands::command;
use crate::requests::entered;
use crate::words::Words;
use clap::{ArgMatches, Error};
use std::alloc::Global;
use td_inputs::{Taken, Topic, has};
use td_request::Request;

/// Whether the command of this name takes what is said of inputs and nets by name.
fn takes(name: &str, named: &[Taken<'_>]) -> bool
    ensures { result ≡ takes name.now (map taken_in named.now) }
{
    let searches = name == "worst" || (name == "parts" || name == "join");
    let pins = searches || name == "bound";
    let moments = searches || (name == "bound" || (name == "sim" || name == "path"));
    (pins || !has(Topic::Pin, named))
        && ((pins || !has(Topic::HoldInput, named))
            && ((searches || !has(Topic::Keep, named)) && (moments || !has(Topic::At, named))))
}

/// Whether the command that was entered takes what is said of inputs and nets by name.
fn takes_entered(matches: &ArgMatches<'_>, named: &[Taken<'_>]) -> bool
    ensures { result ≡ takes_entered (subcommand_rows_of matches.now) (map taken_in named.now) }
{
    match matches.subcommand() {
        Some((name, _)) => takes(name, named),
        None => true,
    }
}

/// What the parser says of the words as they came, where the command doesn't take what they say by
/// name.
fn untaken<'a>(alloc: Global, words: &Words<'_>) -> Result<Option<Request<'a>>, Error>
    ensures asked { IfOk result (λ asked. asked ≡ None) }
    ensures fault { IfErr result (HasKind (kinds_of (all_of words.now))) }
{
    match command(alloc)?.try_get_matches_from(words.all.as_slice()) {
        Ok(_taken) => Ok(None),
        Err(error) => Err(error),
    }
}

/// What the words of a command line ask for. They are parsed once. None where they say something by
/// name that their command doesn't take, and the parser has nothing to say of it.
///
/// # Errors
///
/// A fault of the words, help, or the version; or memory ran out.
pub fn asked<'w, 'x>(alloc: Global, words: &'w Words<'x>) -> Result<Option<Request<'w>>, Error>
    ensures asked { IfOk result (λ asked. IfSome asked (AskFor words.entry.now)) }
    ensures none { IfOk result (λ asked. IfNone asked (take_names words.entry.now ≡ false)) }
    ensures fault { IfErr result (HasFault words.entry.now) }
{
    match command(alloc)?.try_get_matches_from(words.plain.as_slice()) {
        Ok(matches) => {
            if !takes_entered(&matches, &words.named) {
                return untaken(alloc, words);
            }
            match entered(alloc, &matches, &words.named) {
                Ok(Some(request)) => Ok(Some(request)),
                // The words that the program takes ask for one of its commands.
                Ok(None) => unreachable!(),
                Err(error) => Err(error.into()),
            }
        }
        Err(error) => Err(error),
    }
}
