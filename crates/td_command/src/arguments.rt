//! The kinds of arguments, in the form that the parser of command lines takes.

ghost use Rattle.std.specs.Prelude.{◌≡◌, [], false, IfOk, OnOk};
ghost use Rattle.clap.specs.Words.{app_of, new_app, rule_of};
ghost use Rattle.td_command.specs.CommandLine.{needed, needed_words, needed_number, option, named_option, number_option, count_option, name_option, flag};
ghost use Rattle.td_command.specs.Telling.{reported, TellsRule};

use clap::builder::ValueParser;
use clap::{Arg, ArgAction, Command};
use std::alloc::{AllocError, Global};
use std::marker::Model;

/// The arguments of a command, in order. A contract sees what the parser knows of each.
#[derive(Drop)]
pub(crate) struct Arguments<'a> {
    pub(crate) alloc: Global,
    list: Vec<Arg<'a>>,
}

impl<'a> Model for Arguments<'a> {
    ghost use Rattle.std.specs.Prelude.{◌≡◌, List, false, map};
    ghost use Rattle.std.specs.List.{All};
    ghost use Rattle.clap.specs.Words.{Rule, rule_of};

    ghost Value = { List Rule };

    ghost view = { λ arguments. map rule_of arguments.list.items };

    ghost invariant = { λ arguments. All (λ arg. arg.global ≡ false) arguments.list.items };
}

/// The options that say what is asked.
const QUESTION: [&str; 14] = [
    "first",
    "second",
    "pin",
    "hold",
    "hold-input",
    "keep",
    "keep-file",
    "flips",
    "at",
    "required",
    "output",
    "default-rise",
    "default-fall",
    "parts",
];

/// The options that say how a command searches, and how far it goes.
const SEARCH: [&str; 8] = [
    "workers", "strategy", "budget", "seconds", "memory", "stop", "check", "no-check",
];

/// The heading under which help shows the option of this name.
fn heading_of(id: &str) -> &'static str {
    if QUESTION.contains(&id) {
        "Question"
    } else if SEARCH.contains(&id) {
        "Search"
    } else {
        "Output"
    }
}

/// An option with a text, of the name by which it is asked for.
pub(crate) fn option<'a>(alloc: Global, id: &'a str, value: &'a str, help: &'a str) -> Arg<'a>
    ensures rule { rule_of result ≡ option id.entry.now }
    ensures local { result.global ≡ false }
{
    Arg::new(alloc, id)
        .long(id)
        .value_name(value)
        .help(help)
        .help_heading(heading_of(id))
}

/// A flag, of the name by which it is asked for.
pub(crate) fn flag<'a>(alloc: Global, id: &'a str, help: &'a str) -> Arg<'a>
    ensures rule { rule_of result ≡ flag id.entry.now }
    ensures local { result.global ≡ false }
{
    Arg::new(alloc, id)
        .long(id)
        .action(ArgAction::SetTrue)
        .help(help)
        .help_heading(heading_of(id))
}

/// An option with a number in a range, and the number where it is left out.
pub(crate) fn number<'a>(
    alloc: Global,
    id: &'a str,
    least: u32,
    most: u32,
    left_out: &'a str,
    help: &'a str,
) -> Arg<'a>
    ensures rule { rule_of result ≡ number_option id.entry.now least most left_out.entry.now }
    ensures local { result.global ≡ false }
{
    option(alloc, id, "N", help)
        .value_parser(ValueParser::signed(i64::from(least), i64::from(most)))
        .default_value(left_out)
}

// The kinds of arguments.
impl<'a> Arguments<'a> {
    pub(crate) fn new(alloc: Global) -> Arguments<'a>
        ensures { result ≡ [] }
    {
        Arguments {
            alloc,
            list: Vec::new(alloc),
        }
    }

    /// One argument more, of one command alone.
    pub(crate) fn add(&mut self, arg: Arg<'a>) -> Result<(), AllocError>
        requires { arg.global ≡ false }
        ensures { OnOk result (TellsRule (rule_of arg.entry) self.old self.new) }
    {
        self.list.push(arg)?;
        Ok(())
    }

    /// A word that has to be given.
    pub(crate) fn needed(&mut self, id: &'a str, help: &'a str) -> Result<(), AllocError>
        ensures { OnOk result (TellsRule (needed id.entry.now) self.old self.new) }
    {
        self.add(Arg::new(self.alloc, id).required(true).help(help))
    }

    /// Words of their own, one or more, which have to be given.
    pub(crate) fn needed_words(&mut self, id: &'a str, help: &'a str) -> Result<(), AllocError>
        ensures { OnOk result (TellsRule (needed_words id.entry.now) self.old self.new) }
    {
        let words = Arg::new(self.alloc, id).required(true).help(help);
        self.add(words.action(ArgAction::Append))
    }

    /// An option with a text.
    pub(crate) fn option(
        &mut self,
        id: &'a str,
        value: &'a str,
        help: &'a str,
    ) -> Result<(), AllocError>
        ensures { OnOk result (TellsRule (option id.entry.now) self.old self.new) }
    {
        self.add(option(self.alloc, id, value, help))
    }

    /// An option about an input or a net by its name. The parser takes no value of it: it is gone
    /// from the words that the parser gets.
    pub(crate) fn named(
        &mut self,
        id: &'a str,
        value: &'a str,
        help: &'a str,
    ) -> Result<(), AllocError>
        ensures { OnOk result (TellsRule (named_option id.entry.now) self.old self.new) }
    {
        let named = option(self.alloc, id, value, help).value_parser(ValueParser::unsigned(1, 0));
        self.add(named)
    }

    /// An option with a number in a range, and the number where it is left out.
    pub(crate) fn number(
        &mut self,
        id: &'a str,
        least: u32,
        most: u32,
        left_out: &'a str,
        help: &'a str,
    ) -> Result<(), AllocError>
        ensures { OnOk result (TellsRule (number_option id.entry.now least most left_out.entry.now) self.old self.new) }
    {
        self.add(number(self.alloc, id, least, most, left_out, help))
    }

    /// An option with a number in a range, which has to be given.
    pub(crate) fn needed_number(
        &mut self,
        id: &'a str,
        least: u32,
        most: u32,
        help: &'a str,
    ) -> Result<(), AllocError>
        ensures { OnOk result (TellsRule (needed_number id.entry.now least most) self.old self.new) }
    {
        let number = option(self.alloc, id, "N", help)
            .value_parser(ValueParser::signed(i64::from(least), i64::from(most)))
            .required(true);
        self.add(number)
    }

    /// An option with any number of 64 bits.
    pub(crate) fn count(&mut self, id: &'a str, help: &'a str) -> Result<(), AllocError>
        ensures { OnOk result (TellsRule (count_option id.entry.now) self.old self.new) }
    {
        self.add(option(self.alloc, id, "N", help).value_parser(ValueParser::unsigned(0, u64::MAX)))
    }

    /// An option with one of a few names, and the name where it is left out.
    pub(crate) fn name(
        &mut self,
        id: &'a str,
        value: &'a str,
        names: &'a [&'a str],
        left_out: &'a str,
        help: &'a str,
    ) -> Result<(), AllocError>
        ensures { OnOk result (TellsRule (name_option id.entry.now names.entry left_out.entry.now) self.old self.new) }
    {
        let name = option(self.alloc, id, value, help)
            .value_parser(ValueParser::Names(names))
            .default_value(left_out)
            .hide_default_value(true);
        self.add(name)
    }

    /// An option without a value.
    pub(crate) fn flag(&mut self, id: &'a str, help: &'a str) -> Result<(), AllocError>
        ensures { OnOk result (TellsRule (flag id.entry.now) self.old self.new) }
    {
        self.add(flag(self.alloc, id, help))
    }

    /// The command of this name that has these arguments. Its version is shown under the program's
    /// name.
    pub(crate) fn command(
        self,
        name: &'a str,
        about: &'a str,
        examples: &'a str,
    ) -> Result<Command<'a>, AllocError>
        ensures { IfOk result (λ command. app_of command ≡ reported (new_app name.entry.now) self.entry) }
    {
        let shown = Command::new(self.alloc, name)
            .about(about)
            .after_help(examples)
            .display_name("tdelay")?;
        shown.args(self.list)
    }
}
