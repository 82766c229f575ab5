//! The commands, in the form that the parser of command lines takes.

ghost use Rattle.std.specs.Prelude.{◌≡◌, [], ◌∷◌, IfOk, OnOk};
ghost use Rattle.clap.specs.Words.{app_of, new_app};
ghost use Rattle.td_command.specs.CommandLine.{sim_command, path_command, bound_command, worst_command, parts_command, join_command, check_command, info_command, bare, program_of, commands, IsOfStrategies};
ghost use Rattle.td_command.specs.Telling.{reported, offering, OffersCommand, OffersCommands};

use crate::arguments::Arguments;
use crate::help::{
    BOUND_HELP, BOUND_OUTPUT_HELP, BOUND_REQUIRED_HELP, CHAIN_HELP, CHECK_HELP, HELP, INFO_HELP,
    JOIN_HELP, LATEST_HELP, PARTS_HELP, PARTS_REQUIRED_HELP, PATH_HELP, SIM_HELP, VERSION,
    WORST_HELP,
};
use clap::Command;
use std::alloc::{AllocError, Global};
use std::marker::Model;

/// The commands of the program, in order. A contract sees what the parser knows of each, which is
/// plain: no argument of a command is one of the program too.
#[derive(Drop)]
struct Commands<'a> {
    alloc: Global,
    list: Vec<Command<'a>>,
}

impl<'a> Model for Commands<'a> {
    ghost use Rattle.std.specs.Prelude.{◌≡◌, List, map, true};
    ghost use Rattle.std.specs.List.{All};
    ghost use Rattle.clap.specs.Words.{Shape, shape_of};

    ghost Value = { List Shape };

    ghost view = { λ commands. map shape_of commands.list.items };

    ghost invariant = { λ commands. All (λ command. (shape_of command).is_plain ≡ true) commands.list.items };
}

impl<'a> Commands<'a> {
    fn new(alloc: Global) -> Commands<'a>
        ensures { result ≡ [] }
    {
        Commands {
            alloc,
            list: Vec::new(alloc),
        }
    }

    /// One command more, of this name and with these arguments.
    fn add(
        &mut self,
        name: &'a str,
        about: &'a str,
        examples: &'a str,
        arguments: Arguments<'a>,
    ) -> Result<(), AllocError>
        ensures { OnOk result (OffersCommand (reported (new_app name.entry.now) arguments.entry).top self.old self.new) }
    {
        let command = arguments.command(name, about, examples)?;
        self.list.push(command)?;
        Ok(())
    }

    fn sim(&mut self) -> Result<(), AllocError>
        ensures { OnOk result (OffersCommand sim_command.top self.old self.new) }
    {
        let mut arguments = Arguments::new(self.alloc);
        arguments.pair()?;
        arguments.moments()?;
        arguments.vcd()?;
        arguments.nets()?;
        arguments.outputs(LATEST_HELP)?;
        arguments.seconds()?;
        arguments.common()?;
        self.add(
            "sim",
            "Simulates one pair of vectors: when each output changes last",
            SIM_HELP,
            arguments,
        )
    }

    fn path(&mut self) -> Result<(), AllocError>
        ensures { OnOk result (OffersCommand path_command.top self.old self.new) }
    {
        let mut arguments = Arguments::new(self.alloc);
        arguments.pair()?;
        arguments.moments()?;
        arguments.output(CHAIN_HELP)?;
        arguments.seconds()?;
        arguments.common()?;
        self.add(
            "path",
            "Shows the changes that lead to the last change of an output",
            PATH_HELP,
            arguments,
        )
    }

    fn bound(&mut self) -> Result<(), AllocError>
        ensures { OnOk result (OffersCommand bound_command.top self.old self.new) }
    {
        let mut arguments = Arguments::new(self.alloc);
        arguments.file()?;
        arguments.cube()?;
        arguments.held()?;
        arguments.flips()?;
        arguments.moments()?;
        arguments.required(BOUND_REQUIRED_HELP)?;
        arguments.edges()?;
        arguments.earliest()?;
        arguments.outputs(BOUND_OUTPUT_HELP)?;
        arguments.asked_outputs()?;
        arguments.common()?;
        self.add(
            "bound",
            "Bounds the delay of all pairs of vectors that patterns allow",
            BOUND_HELP,
            arguments,
        )
    }

    fn worst(&mut self, strategies: &'a [&'a str]) -> Result<(), AllocError>
        ensures { OnOk result (OffersCommand (worst_command strategies.entry).top self.old self.new) }
    {
        let mut arguments = Arguments::new(self.alloc);
        arguments.searched(strategies)?;
        arguments.vcd()?;
        arguments.reported()?;
        arguments.asked_outputs()?;
        arguments.tables()?;
        arguments.common()?;
        self.add(
            "worst",
            "Searches for the worst delay, and a pair of vectors that has it",
            WORST_HELP,
            arguments,
        )
    }

    fn parts(&mut self, strategies: &'a [&'a str]) -> Result<(), AllocError>
        ensures { OnOk result (OffersCommand (parts_command strategies.entry).top self.old self.new) }
    {
        let mut arguments = Arguments::new(self.alloc);
        arguments.file()?;
        arguments.parts()?;
        arguments.admitted()?;
        arguments.moments()?;
        arguments.strategy(strategies)?;
        arguments.required(PARTS_REQUIRED_HELP)?;
        arguments.asked_outputs()?;
        arguments.common()?;
        self.add(
            "parts",
            "Cuts the question of `worst` into parts, and prints the options of each",
            PARTS_HELP,
            arguments,
        )
    }

    fn join(&mut self) -> Result<(), AllocError>
        ensures { OnOk result (OffersCommand join_command.top self.old self.new) }
    {
        let mut arguments = Arguments::new(self.alloc);
        arguments.file()?;
        arguments.joined()?;
        arguments.admitted()?;
        arguments.moments()?;
        arguments.asked_outputs()?;
        arguments.common()?;
        self.add(
            "join",
            "Joins the certificates of a question's parts into one",
            JOIN_HELP,
            arguments,
        )
    }

    fn check(&mut self) -> Result<(), AllocError>
        ensures { OnOk result (OffersCommand check_command.top self.old self.new) }
    {
        let mut arguments = Arguments::new(self.alloc);
        arguments.file()?;
        arguments.certificate()?;
        arguments.asked_outputs()?;
        arguments.seconds()?;
        arguments.common()?;
        self.add(
            "check",
            "Checks the certificate of a worst delay by the netlist alone",
            CHECK_HELP,
            arguments,
        )
    }

    fn info(&mut self) -> Result<(), AllocError>
        ensures { OnOk result (OffersCommand info_command.top self.old self.new) }
    {
        let mut arguments = Arguments::new(self.alloc);
        arguments.file()?;
        arguments.common()?;
        self.add(
            "info",
            "Prints a netlist's size, depth and delays, its inputs and its outputs",
            INFO_HELP,
            arguments,
        )
    }

    /// The commands that simulate.
    fn runs(&mut self) -> Result<(), AllocError>
        ensures { OnOk result (OffersCommands (sim_command ∷ path_command ∷ []) self.old self.new) }
    {
        self.sim()?;
        self.path()
    }

    /// The commands that bound and search.
    fn bounds(&mut self, strategies: &'a [&'a str]) -> Result<(), AllocError>
        ensures { OnOk result (OffersCommands (bound_command ∷ worst_command strategies.entry ∷ []) self.old self.new) }
    {
        self.bound()?;
        self.worst(strategies)
    }

    /// The commands for the parts of a question.
    fn questions(&mut self, strategies: &'a [&'a str]) -> Result<(), AllocError>
        ensures { OnOk result (OffersCommands (parts_command strategies.entry ∷ join_command ∷ []) self.old self.new) }
    {
        self.parts(strategies)?;
        self.join()
    }

    /// The commands that check a certificate and describe a netlist.
    fn looks(&mut self) -> Result<(), AllocError>
        ensures { OnOk result (OffersCommands (check_command ∷ info_command ∷ []) self.old self.new) }
    {
        self.check()?;
        self.info()
    }

    /// All commands.
    fn all(&mut self, strategies: &'a [&'a str]) -> Result<(), AllocError>
        ensures { OnOk result (OffersCommands (commands strategies.entry) self.old self.new) }
    {
        self.runs()?;
        self.bounds(strategies)?;
        self.questions(strategies)?;
        self.looks()
    }

    /// The program that has these commands.
    fn program(self) -> Result<Command<'a>, AllocError>
        ensures { IfOk result (λ program. app_of program ≡ offering bare self.entry) }
    {
        bare(self.alloc).subcommands(self.list)
    }
}

/// The program before it is given its commands.
fn bare<'a>(alloc: Global) -> Command<'a>
    ensures { app_of result ≡ bare }
{
    Command::new(alloc, "tdelay")
        .about("Worst transition delay of a netlist of Verilog gate primitives")
        .version(VERSION)
        .propagate_version(true)
        .after_help(HELP)
        .subcommand_required(true)
}

/// The whole program. It refers to the names of the strategies where they stand.
fn program<'a>(alloc: Global, strategies: &'a [&'a str]) -> Result<Command<'a>, AllocError>
    ensures { IfOk result (λ new. app_of new ≡ program_of strategies.entry) }
{
    let mut commands = Commands::new(alloc);
    commands.all(strategies)?;
    commands.program()
}

/// The whole program.
pub(crate) fn command<'a>(alloc: Global) -> Result<Command<'a>, AllocError>
    ensures { IfOk result (λ new. IsOfStrategies program_of (app_of new)) }
{
    program(alloc, &["least", "lead", "refute", "auto"])
}
