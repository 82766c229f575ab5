//! What the arguments of a command say, as a request.

ghost use Rattle.std.specs.Prelude.{◌≡◌, List, codes, IfOk};
ghost use Rattle.clap.specs.Words.{found_of, rows_of, subcommand_rows_of};
ghost use Rattle.td_inputs.specs.declared.scanning.Taken.{Taken};
ghost use Rattle.td_command.specs.CommandLine.{HasWords, IsAnswered, words_of};
ghost use Rattle.td_command.specs.Saying.{SaysInputs, SaysQuestion, SaysStrategy, SaysEffort, SaysShown, SaysForm, is_about_all, SaysReading, SaysCommon, SaysCommand, SaysRequest, EntersRequest};

use crate::options::{
    budget, count, files, flag_given, flag_left_out, needed, outputs, parts as parts_number,
    reading, told, whole_reading, word, workers,
};
use crate::tables::{Tables, tables_in};
use clap::ArgMatches;
use std::alloc::{AllocError, Global};
use td_inputs::{Given, Taken};
use td_reading::{Outputs, Reading};
use td_request::{
    Bound, Check, Command, Count, Effort, Files, Form, Inputs, Join, Parts, Path, Question,
    Request, Search, Shown, Sim, Strategy,
};

/// What is said of inputs.
fn inputs<'a>(matches: &ArgMatches<'a>, named: &'a [Taken<'a>]) -> Inputs<'a>
    ensures { SaysInputs (rows_of (found_of matches.now)) named.entry.now result }
{
    let first = word(matches, "first");
    let second = word(matches, "second");
    let hold = word(matches, "hold");
    let at = word(matches, "at");
    let given = Given {
        first,
        second,
        hold,
        at,
    };
    Inputs { given, named }
}

/// The question of a search.
fn question<'a>(matches: &ArgMatches<'a>, named: &'a [Taken<'a>]) -> Option<Question<'a>>
    ensures { IsAnswered (SaysQuestion (rows_of (found_of matches.now)) named.entry.now) result }
{
    let flips = count(matches, "flips")?;
    let inputs = inputs(matches, named);
    let keep_file = word(matches, "keep-file");
    Some(Question {
        inputs,
        flips,
        keep_file,
        keep_text: None,
    })
}

fn strategy(matches: &ArgMatches<'_>) -> Option<Strategy>
    ensures { IsAnswered (SaysStrategy (rows_of (found_of matches.now))) result }
{
    let name = needed(matches, "strategy")?;
    match name {
        "least" => Some(Strategy::Least),
        "lead" => Some(Strategy::Lead),
        "refute" => Some(Strategy::Refute),
        "auto" => Some(Strategy::Auto),
        _ => None,
    }
}

fn effort(matches: &ArgMatches<'_>) -> Option<Effort>
    ensures { IsAnswered (SaysEffort (rows_of (found_of matches.now))) result }
{
    let workers = workers(matches)?;
    let budget = budget(matches)?;
    let seconds = count(matches, "seconds")?;
    let memory = count(matches, "memory")?;
    Some(Effort {
        workers,
        budget,
        seconds,
        memory,
    })
}

fn shown(matches: &ArgMatches<'_>) -> Option<Shown>
    ensures { IsAnswered (SaysShown (rows_of (found_of matches.now))) result }
{
    let path = flag_given(matches, "path")?;
    let outputs = flag_given(matches, "outputs")?;
    let progress = flag_given(matches, "progress")?;
    let verbose = flag_given(matches, "verbose")?;
    let json = flag_given(matches, "json")?;
    let vectors = flag_given(matches, "vectors")?;
    Some(Shown {
        path,
        outputs,
        progress,
        work: verbose || json,
        vectors,
    })
}

/// `sim` with the waves of these nets.
fn sim_of<'a>(
    matches: &ArgMatches<'a>,
    named: &'a [Taken<'a>],
    nets: Outputs<'a>,
) -> Option<Command<'a>>
    requires { nets ≡ words_of (codes "net") (rows_of (found_of matches.now)) }
    ensures { IsAnswered (SaysCommand (codes "sim") (rows_of (found_of matches.now)) named.entry.now) result }
{
    let from = needed(matches, "FROM")?;
    let to = needed(matches, "TO")?;
    let outputs = flag_given(matches, "outputs")?;
    let seconds = count(matches, "seconds")?;
    let dump = word(matches, "vcd");
    let inputs = inputs(matches, named);
    Some(Command::Sim(Sim {
        from,
        to,
        inputs,
        outputs,
        dump,
        nets,
        seconds,
    }))
}

fn sim<'a>(
    alloc: Global,
    matches: &ArgMatches<'a>,
    named: &'a [Taken<'a>],
) -> Result<Option<Command<'a>>, AllocError>
    ensures { IfOk result (IsAnswered (SaysCommand (codes "sim") (rows_of (found_of matches.now)) named.entry.now)) }
{
    let nets = outputs(alloc, matches, "net")?;
    Ok(sim_of(matches, named, nets))
}

fn path<'a>(matches: &ArgMatches<'a>, named: &'a [Taken<'a>]) -> Option<Command<'a>>
    ensures { IsAnswered (SaysCommand (codes "path") (rows_of (found_of matches.now)) named.entry.now) result }
{
    let from = needed(matches, "FROM")?;
    let to = needed(matches, "TO")?;
    let seconds = count(matches, "seconds")?;
    let output = word(matches, "output");
    let inputs = inputs(matches, named);
    Some(Command::Path(Path {
        from,
        to,
        inputs,
        output,
        seconds,
    }))
}

fn bound<'a>(matches: &ArgMatches<'a>, named: &'a [Taken<'a>]) -> Option<Command<'a>>
    ensures { IsAnswered (SaysCommand (codes "bound") (rows_of (found_of matches.now)) named.entry.now) result }
{
    let edges = flag_given(matches, "edges")?;
    let outputs = flag_given(matches, "outputs")?;
    let earliest = flag_given(matches, "earliest")?;
    let flips = count(matches, "flips")?;
    let required = count(matches, "required")?;
    let inputs = inputs(matches, named);
    Some(Command::Bound(Bound {
        inputs,
        flips,
        required,
        edges,
        outputs,
        earliest,
    }))
}

fn worst<'a>(matches: &ArgMatches<'a>, named: &'a [Taken<'a>]) -> Option<Command<'a>>
    ensures { IsAnswered (SaysCommand (codes "worst") (rows_of (found_of matches.now)) named.entry.now) result }
{
    let question = question(matches, named)?;
    let strategy = strategy(matches)?;
    let effort = effort(matches)?;
    let shown = shown(matches)?;
    let required = count(matches, "required")?;
    let between = flag_given(matches, "cert-between")?;
    let Tables { table, stray } = tables_in(matches)?;
    let stop = word(matches, "stop");
    let certificate = word(matches, "cert");
    let dump = word(matches, "vcd");
    Some(Command::Worst(Search {
        question,
        strategy,
        effort,
        stop,
        required,
        certificate,
        between,
        dump,
        shown,
        table,
        stray,
    }))
}

fn parts<'a>(matches: &ArgMatches<'a>, named: &'a [Taken<'a>]) -> Option<Command<'a>>
    ensures { IsAnswered (SaysCommand (codes "parts") (rows_of (found_of matches.now)) named.entry.now) result }
{
    let question = question(matches, named)?;
    let strategy = strategy(matches)?;
    let parts = parts_number(matches)?;
    let required = count(matches, "required")?;
    let count = Count { parts };
    Some(Command::Parts(Parts {
        question,
        strategy,
        count,
        required,
    }))
}

/// `join` of these certificates.
fn joined<'a>(
    matches: &ArgMatches<'a>,
    named: &'a [Taken<'a>],
    parts: Files<'a>,
) -> Option<Command<'a>>
    requires { HasWords (codes "CERT") (rows_of (found_of matches.now)) parts }
    ensures { IsAnswered (SaysCommand (codes "join") (rows_of (found_of matches.now)) named.entry.now) result }
{
    let question = question(matches, named)?;
    let required = count(matches, "required")?;
    let check = flag_left_out(matches, "no-check")?;
    let certificate = word(matches, "cert");
    Some(Command::Join(Join {
        parts,
        question,
        required,
        certificate,
        check,
    }))
}

fn join<'a>(
    alloc: Global,
    matches: &ArgMatches<'a>,
    named: &'a [Taken<'a>],
) -> Result<Option<Command<'a>>, AllocError>
    ensures { IfOk result (IsAnswered (SaysCommand (codes "join") (rows_of (found_of matches.now)) named.entry.now)) }
{
    match files(alloc, matches, "CERT") {
        Ok(Some(parts)) => Ok(joined(matches, named, parts)),
        Ok(None) => Ok(None),
        Err(error) => Err(error),
    }
}

fn check<'a>(matches: &ArgMatches<'a>) -> Option<Command<'a>>
    ensures { (named : List Taken) → IsAnswered (SaysCommand (codes "check") (rows_of (found_of matches.now)) named) result }
{
    let certificate = needed(matches, "CERT")?;
    let seconds = count(matches, "seconds")?;
    let told = told(matches);
    Some(Command::Check(Check {
        certificate,
        told,
        seconds,
    }))
}

/// In which form the report goes out.
fn form(matches: &ArgMatches<'_>) -> Option<Form>
    ensures { IsAnswered (SaysForm (rows_of (found_of matches.now))) result }
{
    let quiet = flag_given(matches, "quiet")?;
    let json = flag_given(matches, "json")?;
    if quiet {
        return Some(Form::Quiet);
    }
    if json {
        return Some(Form::Json);
    }
    Some(Form::Text)
}

/// What the command of this name is asked.
fn command_of<'a>(
    alloc: Global,
    name: &str,
    matches: &ArgMatches<'a>,
    named: &'a [Taken<'a>],
) -> Result<Option<Command<'a>>, AllocError>
    ensures { IfOk result (IsAnswered (SaysCommand name.now (rows_of (found_of matches.now)) named.entry.now)) }
{
    match name {
        "sim" => sim(alloc, matches, named),
        "path" => Ok(path(matches, named)),
        "bound" => Ok(bound(matches, named)),
        "worst" => Ok(worst(matches, named)),
        "parts" => Ok(parts(matches, named)),
        "join" => join(alloc, matches, named),
        "check" => Ok(check(matches)),
        "info" => Ok(Some(Command::Info)),
        _ => Ok(None),
    }
}

/// Whether the command of this name is about all outputs.
fn is_about_all(name: &str) -> bool
    ensures { result ≡ is_about_all name.now }
{
    name == "sim" || (name == "path" || name == "info")
}

/// How the command of this name reads the netlist's text.
fn reading_of<'a>(
    alloc: Global,
    name: &str,
    matches: &ArgMatches<'a>,
) -> Result<Option<Reading<'a>>, AllocError>
    ensures { IfOk result (IsAnswered (SaysReading name.now (rows_of (found_of matches.now)))) }
{
    if is_about_all(name) {
        return Ok(whole_reading(alloc, matches));
    }
    reading(alloc, matches)
}

/// What each command says: its file, how its text is read, in which form the report goes out, and
/// whether hints are asked for.
#[derive(Drop)]
struct Common<'a> {
    file: &'a str,
    reading: Reading<'a>,
    form: Form,
    hints: bool,
}

/// What each command says, of a netlist's text that is read so.
fn common_by<'a>(name: &str, matches: &ArgMatches<'a>, reading: Reading<'a>) -> Option<Common<'a>>
    requires { SaysReading name.now (rows_of (found_of matches.now)) reading }
    ensures { IsAnswered (SaysCommon name.now (rows_of (found_of matches.now))) result }
{
    let file = needed(matches, "FILE")?;
    let form = form(matches)?;
    let hints = flag_given(matches, "hints")?;
    Some(Common {
        file,
        reading,
        form,
        hints,
    })
}

fn common_of<'a>(
    alloc: Global,
    name: &str,
    matches: &ArgMatches<'a>,
) -> Result<Option<Common<'a>>, AllocError>
    ensures { IfOk result (IsAnswered (SaysCommon name.now (rows_of (found_of matches.now)))) }
{
    match reading_of(alloc, name, matches)? {
        Some(reading) => Ok(common_by(name, matches, reading)),
        None => Ok(None),
    }
}

/// The request of the command of this name.
fn request<'a>(
    alloc: Global,
    name: &str,
    matches: &ArgMatches<'a>,
    named: &'a [Taken<'a>],
) -> Result<Option<Request<'a>>, AllocError>
    ensures { IfOk result (IsAnswered (SaysRequest name.now (rows_of (found_of matches.now)) named.entry.now)) }
{
    let Some(common) = common_of(alloc, name, matches)? else {
        return Ok(None);
    };
    match command_of(alloc, name, matches, named)? {
        Some(command) => Ok(Some(Request {
            file: common.file,
            reading: common.reading,
            command,
            form: common.form,
            hints: common.hints,
        })),
        None => Ok(None),
    }
}

/// What the command that was entered is asked.
pub(crate) fn entered<'a>(
    alloc: Global,
    matches: &ArgMatches<'a>,
    named: &'a [Taken<'a>],
) -> Result<Option<Request<'a>>, AllocError>
    ensures { IfOk result (IsAnswered (EntersRequest (subcommand_rows_of matches.now) named.entry.now)) }
{
    match matches.subcommand() {
        Some((name, matches)) => request(alloc, name, matches, named),
        None => Ok(None),
    }
}
