//! The arguments that commands have in common.

ghost use Rattle.std.specs.Prelude.{◌≡◌, ◌++◌, [], ◌∷◌, codes, OnOk};
ghost use Rattle.td_command.specs.CommandLine.{needed, needed_words, needed_number, option, number_option, count_option, flag};
ghost use Rattle.td_command.specs.CommandLine.{with_letter, workers_letter, quiet_letter, common_rules, pair_rules, cube_rules, held_rules, flips_rule, admitted_rules, required_rule, strategy_rule, certificate_rule, outputs_rule, nets_rule, seconds_rule, limit_rules, search_rules, table_rules};
ghost use Rattle.td_command.specs.Telling.{TellsRule, TellsRules};

use crate::arguments::{Arguments, flag, number, option};
use crate::help::{LATEST_HELP, NET_HELP, OUTPUT_HELP, REQUIRED_HELP, SECONDS_HELP};
use clap::ArgAction;
use std::alloc::AllocError;
use td_gates::Delay;
use td_request::{MOST_NODES, MOST_PARTS, MOST_WORKERS};

impl<'a> Arguments<'a> {
    pub(crate) fn file(&mut self) -> Result<(), AllocError>
        ensures { OnOk result (TellsRule (needed (codes "FILE")) self.old self.new) }
    {
        self.needed(
            "FILE",
            "The netlist, a path, or `-` or `stdin` for standard input",
        )
    }

    /// The delay of gates that state none, as two options.
    fn default_delay(&mut self) -> Result<(), AllocError>
        ensures { OnOk result (TellsRules (number_option (codes "default-rise") 1 1000000000 (codes "1") ∷ number_option (codes "default-fall") 1 1000000000 (codes "1") ∷ []) self.old self.new) }
    {
        self.number(
            "default-rise",
            1,
            Delay::MAX,
            "1",
            "Rise delay in steps of gates without\n\
a delay",
        )?;
        self.number(
            "default-fall",
            1,
            Delay::MAX,
            "1",
            "Fall delay in steps of gates without\n\
a delay",
        )
    }

    /// Whether there is no report, as a flag.
    fn quiet(&mut self) -> Result<(), AllocError>
        ensures { OnOk result (TellsRule (with_letter quiet_letter (flag (codes "quiet"))) self.old self.new) }
    {
        let help = "Prints no report: the exit status shows how the\n\
command ended";
        let quiet = flag(self.alloc, "quiet", help);
        self.add(quiet.short('q'))
    }

    /// What all commands take: the delay of gates that state none, whether hints stand after a
    /// refusal, whether the report is JSON, and whether there is none.
    pub(crate) fn common(&mut self) -> Result<(), AllocError>
        ensures { OnOk result (TellsRules common_rules self.old self.new) }
    {
        self.default_delay()?;
        self.flag(
            "hints",
            "After the line of a refusal, prints to standard\n\
error what it means and what to do, as at a terminal",
        )?;
        self.flag(
            "json",
            "Prints the report as one JSON object, which has the\n\
keys of the report's lines",
        )?;
        self.quiet()
    }

    /// When each input takes its second level, as an option.
    pub(crate) fn moments(&mut self) -> Result<(), AllocError>
        ensures { OnOk result (TellsRule (option (codes "at")) self.old self.new) }
    {
        self.option(
            "at",
            "TIMES",
            "When each input takes its second level: a number of\n\
steps for each in order, separated by commas; all 0\n\
if left out. Or NAME=T, the time of the input of\n\
this name, as often as needed",
        )
    }

    /// Where the waves of a pair's run go, as an option.
    pub(crate) fn vcd(&mut self) -> Result<(), AllocError>
        ensures { OnOk result (TellsRule (option (codes "vcd")) self.old self.new) }
    {
        self.option(
            "vcd",
            "OUT",
            "Writes the waves of the pair to this file, as a\n\
value change dump",
        )
    }

    /// Which nets these waves have, as an option that may be given any number of times.
    pub(crate) fn nets(&mut self) -> Result<(), AllocError>
        ensures { OnOk result (TellsRule nets_rule self.old self.new) }
    {
        let net = option(self.alloc, "net", "NAME", NET_HELP);
        self.add(net.action(ArgAction::Append))
    }

    /// After how many seconds a run ends, as an option.
    pub(crate) fn seconds(&mut self) -> Result<(), AllocError>
        ensures { OnOk result (TellsRule seconds_rule self.old self.new) }
    {
        self.count("seconds", SECONDS_HELP)
    }

    /// Which output's path is asked for, as an option.
    pub(crate) fn output(&mut self, help: &'a str) -> Result<(), AllocError>
        ensures { OnOk result (TellsRule (option (codes "output")) self.old self.new) }
    {
        self.option("output", "NAME", help)
    }

    /// Which outputs are asked about, as an option that may be given any number of times.
    pub(crate) fn asked_outputs(&mut self) -> Result<(), AllocError>
        ensures { OnOk result (TellsRule outputs_rule self.old self.new) }
    {
        let output = option(self.alloc, "output", "NAME", OUTPUT_HELP);
        self.add(output.action(ArgAction::Append))
    }

    /// Whether it is asked which output changes last, or has the bound, as a flag.
    pub(crate) fn outputs(&mut self, help: &'a str) -> Result<(), AllocError>
        ensures { OnOk result (TellsRule (flag (codes "outputs")) self.old self.new) }
    {
        self.flag("outputs", help)
    }

    /// Which table is asked for, of each output in turn, as flags.
    pub(crate) fn tables(&mut self) -> Result<(), AllocError>
        ensures { OnOk result (TellsRules table_rules self.old self.new) }
    {
        self.flag(
            "each",
            "Asks about every output by itself, one after\n\
another, and prints a line for each: its worst\n\
delay, and its bound by edges",
        )?;
        self.flag(
            "changes",
            "With --each: also the latest rise and the latest\n\
fall of the output, and whether it can glitch",
        )?;
        self.flag(
            "figures",
            "With --each --changes: also how late the output can\n\
glitch",
        )?;
        self.flag(
            "vectors",
            "With --each: also a pair of vectors that has the\n\
worst delay, or the lower figure",
        )?;
        self.flag(
            "hazards",
            "Asks of every output, one after another, whether it\n\
can glitch where it settles at 0 under both vectors,\n\
and where at 1, and prints a line for each",
        )
    }

    /// The netlist and a pair of vectors, as three words.
    pub(crate) fn pair(&mut self) -> Result<(), AllocError>
        ensures { OnOk result (TellsRules pair_rules self.old self.new) }
    {
        self.file()?;
        self.needed(
            "FROM",
            "The first vector: 0, 1 or x for each input in the\n\
order that `info` shows, or `none` if there are no\n\
inputs",
        )?;
        self.needed(
            "TO",
            "The second vector, which the inputs take from time 0\n\
or those of --at on",
        )
    }

    /// The pairs of a cube, as two options, and an option that pins inputs by their names.
    pub(crate) fn cube(&mut self) -> Result<(), AllocError>
        ensures { OnOk result (TellsRules cube_rules self.old self.new) }
    {
        self.option(
            "first",
            "TRITS",
            "The first vector: 0, 1 or . (free) for each input in\n\
the order that `info` shows; all free if left out",
        )?;
        self.option(
            "second",
            "TRITS",
            "The second vector, which the inputs take from time 0\n\
or those of --at on",
        )?;
        self.named(
            "pin",
            "NAME=VALUE",
            "Both vectors have this level, 0 or 1, at the input\n\
of this name; `.` leaves it free. Of a vector the\n\
value is a number, as 8'hff. Any number of times",
        )
    }

    /// Whether the bounds by edges are asked for, as a flag.
    pub(crate) fn edges(&mut self) -> Result<(), AllocError>
        ensures { OnOk result (TellsRule (flag (codes "edges")) self.old self.new) }
    {
        self.flag(
            "edges",
            "Bounds by edges too, each net's rise and fall apart\n\
(e), and by edges and possible levels at once (n)",
        )
    }

    /// Whether the earliest change of an output is asked for, as a flag.
    pub(crate) fn earliest(&mut self) -> Result<(), AllocError>
        ensures { OnOk result (TellsRule (flag (codes "earliest")) self.old self.new) }
    {
        self.flag(
            "earliest",
            "The time before which no pair changes an output, by\n\
edges; none if no pair changes one",
        )
    }

    /// Whether the chain of the given pair is asked for, how far the search is, what it took, and
    /// which output changes last, as flags.
    pub(crate) fn reported(&mut self) -> Result<(), AllocError>
        ensures { OnOk result (TellsRules (flag (codes "path") ∷ flag (codes "progress") ∷ flag (codes "verbose") ∷ flag (codes "outputs") ∷ []) self.old self.new) }
    {
        self.flag(
            "path",
            "After the other lines, the changes that lead to the\n\
last change of the given pair, as `path` prints them",
        )?;
        self.flag(
            "progress",
            "Writes to standard error how far the search is, each\n\
time that the nodes handled pass 1, 2, 5, 10, 20, ..\n\
thousand, and every ten seconds; with --each, each\n\
output as it is begun, and its line once it is found",
        )?;
        self.flag(
            "verbose",
            "After the nodes, how many units of work searches by\n\
spans took; always with --json",
        )?;
        self.outputs(LATEST_HELP)
    }

    /// Which inputs are held, as two options.
    pub(crate) fn held(&mut self) -> Result<(), AllocError>
        ensures { OnOk result (TellsRules held_rules self.old self.new) }
    {
        self.option(
            "hold",
            "MASK",
            "The inputs whose two levels are the same: = (held)\n\
or . for each in order; none held if left out",
        )?;
        self.named(
            "hold-input",
            "NAME",
            "The two levels of the input of this name are the\n\
same. Any number of times",
        )
    }

    /// The most flips, as an option.
    pub(crate) fn flips(&mut self) -> Result<(), AllocError>
        ensures { OnOk result (TellsRule flips_rule self.old self.new) }
    {
        self.count(
            "flips",
            "The most inputs whose two levels differ; any number\n\
of them if left out",
        )
    }

    /// By which moment outputs are to settle, as an option.
    pub(crate) fn required(&mut self, help: &'a str) -> Result<(), AllocError>
        ensures { OnOk result (TellsRule required_rule self.old self.new) }
    {
        self.count("required", help)
    }

    /// The pairs that a search admits, as options.
    pub(crate) fn admitted(&mut self) -> Result<(), AllocError>
        ensures { OnOk result (TellsRules admitted_rules self.old self.new) }
    {
        self.cube()?;
        self.held()?;
        self.named(
            "keep",
            "NET=FS",
            "Admits only pairs under which the net of this name\n\
settles at F under the first vector and at S under\n\
the second, each 0, 1 or . (either); with NET==, at\n\
the same level under both. Any number of times",
        )?;
        self.option(
            "keep-file",
            "FILE",
            "A file with more conditions as of --keep, a line for\n\
each: NET FS or NET ==; `#` begins a comment",
        )?;
        self.flips()
    }

    /// By which strategy a search goes, as an option.
    pub(crate) fn strategy(&mut self, names: &'a [&'a str]) -> Result<(), AllocError>
        ensures { OnOk result (TellsRule (strategy_rule names.entry) self.old self.new) }
    {
        self.name(
            "strategy",
            "NAME",
            names,
            "auto",
            "How the search goes. `least` and `lead` split cubes\n\
of pairs; `lead` climbs to a first pair and bounds\n\
by edges. `refute` asks a solver how long nets keep\n\
their levels. Certificates of `lead` and `refute` are\n\
of version 4. `auto`, if left out, is a short\n\
`least`, a short `refute`, then `lead` and `refute`\n\
by turns, until one of them ends\n",
        )
    }

    /// How many threads search, as an option.
    fn workers(&mut self) -> Result<(), AllocError>
        ensures { OnOk result (TellsRule (with_letter workers_letter (number_option (codes "workers") 1 64 (codes "1"))) self.old self.new) }
    {
        let workers = number(
            self.alloc,
            "workers",
            1,
            MOST_WORKERS,
            "1",
            "How many threads search, from 1 to 64",
        );
        self.add(workers.short('j'))
    }

    /// Where a certificate goes, as an option.
    fn certificate_out(&mut self, help: &'a str) -> Result<(), AllocError>
        ensures { OnOk result (TellsRule certificate_rule self.old self.new) }
    {
        self.add(option(self.alloc, "cert", "OUT", help).short('o'))
    }

    /// When an answer is enough, and where the certificate goes, as options.
    fn aims(&mut self) -> Result<(), AllocError>
        ensures { OnOk result (TellsRules (required_rule ∷ certificate_rule ∷ flag (codes "cert-between") ∷ []) self.old self.new) }
    {
        self.required(REQUIRED_HELP)?;
        self.certificate_out(
            "Writes the certificate of an exact answer to this\n\
file, or of whether --required is met",
        )?;
        self.flag(
            "cert-between",
            "With --cert, an answer that stays open has a\n\
certificate of both figures",
        )
    }

    /// How much a search may do, and what ends it before, as options.
    fn limits(&mut self) -> Result<(), AllocError>
        ensures { OnOk result (TellsRules limit_rules self.old self.new) }
    {
        self.number(
            "budget",
            0,
            MOST_NODES,
            "1000000",
            "The most nodes of trees of cubes that are handled,\n\
and the most work of `refute`, in\n\
units",
        )?;
        self.seconds()?;
        self.count(
            "memory",
            "The search ends before its search by spans takes\n\
about this much memory, in MiB; what it leaves open\n\
then lies between two figures",
        )?;
        self.option(
            "stop",
            "FILE",
            "Ends the search as soon as a file of this name is\n\
there; the answer then lies between two figures",
        )
    }

    /// How a search goes, when its answer is enough, and where its certificate goes, as options.
    fn search(&mut self, strategies: &'a [&'a str]) -> Result<(), AllocError>
        ensures { OnOk result (TellsRules (search_rules strategies.entry) self.old self.new) }
    {
        self.workers()?;
        self.strategy(strategies)?;
        self.limits()?;
        self.aims()
    }

    /// The netlist, the pairs that a search of its worst delay admits, and how the search goes.
    pub(crate) fn searched(&mut self, strategies: &'a [&'a str]) -> Result<(), AllocError>
        ensures { OnOk result (TellsRules (needed (codes "FILE") ∷ admitted_rules ++ option (codes "at") ∷ search_rules strategies.entry) self.old self.new) }
    {
        self.file()?;
        self.admitted()?;
        self.moments()?;
        self.search(strategies)
    }

    /// How many parts a question has, as an option that has to be given.
    pub(crate) fn parts(&mut self) -> Result<(), AllocError>
        ensures { OnOk result (TellsRule (needed_number (codes "parts") 1 65536) self.old self.new) }
    {
        self.needed_number(
            "parts",
            1,
            MOST_PARTS,
            "How many parts the question is cut into, from 1 to\n\
65536",
        )
    }

    /// The certificates that are joined, by which moment outputs are to settle, where theirs goes,
    /// and whether each is checked, which is said or left out.
    pub(crate) fn joined(&mut self) -> Result<(), AllocError>
        ensures { OnOk result (TellsRules (needed_words (codes "CERT") ∷ count_option (codes "required") ∷ certificate_rule ∷ flag (codes "check") ∷ flag (codes "no-check") ∷ []) self.old self.new) }
    {
        self.needed_words(
            "CERT",
            "The certificates of the parts, each a path, or `-`\n\
or `stdin` for standard input",
        )?;
        self.count(
            "required",
            "Whether all outputs settle by this moment, in steps.\n\
Status 0 where they do, 6 where a pair is later, 3\n\
where it stays open",
        )?;
        self.certificate_out(
            "Writes the certificate of the whole question to this\n\
file",
        )?;
        self.flag(
            "check",
            "Checks the certificate of each part before it is\n\
joined, as `check` does; so it is without this too",
        )?;
        self.flag(
            "no-check",
            "Joins certificates that aren't checked, which is\n\
quicker: the report says `unchecked T` in place of\n\
`exact T`",
        )
    }

    /// A certificate, as a word.
    pub(crate) fn certificate(&mut self) -> Result<(), AllocError>
        ensures { OnOk result (TellsRule (needed (codes "CERT")) self.old self.new) }
    {
        self.needed(
            "CERT",
            "The certificate, a path, or `-` or `stdin` for standard input",
        )
    }
}
