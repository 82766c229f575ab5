//! The program.

ghost use Rattle.std.specs.Prelude.{◌≡◌, ◌⊎◌, map, IfOk, IfErr, IfSome, IfNone, OnOk};
ghost use Rattle.td_command.specs.Parting.{AreParted};
ghost use Rattle.td_command.specs.Saying.{AskFor};
ghost use Rattle.td_answer.specs.Outcomes.{IsPlain};
ghost use Rattle.td_answer.specs.Statuses.{status_of};
ghost use Rattle.td_answer.specs.Writing.{CanBeWritten};
ghost use Rattle.td_answer.specs.declared.status.Status.TheVariants as ending;
ghost use Rattle.td_cli.specs.Carrying.{Carries, IsUnreported, Prints};
ghost use Rattle.td_cli.specs.Clashes.{fault_status};
ghost use Rattle.td_cli.specs.Ends.{Ends, Refuses, Shows, words_status};

use crate::advice::{Advice, NoAdvice};
use crate::bytes::bytes_for;
use crate::delivery::deliver;
use crate::fault::Fault;
use crate::hint::{advise, ending_hint, fault_hint, refusal_hint, warn};
use crate::judging::{judged, shows_progress};
use crate::message::{fault_sentence, refusal_sentence, say, tell, tell_fault};
use crate::origin::Origin;
use crate::trouble::{Trouble, show_trouble};
use crate::usage::tell_usage;
use std::alloc::Global;
use std::convert::AsStr;
use std::sync::Wait;
use std::thread::Threads;
use std::time::Clock;
use td_answer::{Outcome, Refusal, Status, answer_plain};
use td_command::{Words, asked};
use td_files::{Files, ReadFault};
use td_request::{Command, Request};
use td_stop::Stop;
use td_text::Sink;

/// The program: carries out what the words of a command line ask for, and answers how it ends. The
/// first word is the program's name.
///
/// Each file that the words name is read once, before anything is judged. What is answered goes to
/// `out` in the form that the words ask for (text, JSON or nothing), and then the certificate and
/// the waves go to their files. Why it is refused goes to `err`, and where JSON is asked for to `out`
/// too; a hint follows where the words or `advice` ask for one. Help and the version go to `out`.
///
/// What goes out is the print of an outcome that is true of what the files hold, or a beginning of
/// it where a device fails or memory runs out; or no outcome, for a reason that holds. `Status::code`
/// is the exit status.
pub fn program<
    R: Threads + Wait + Clock + Sync,
    S: AsStr,
    F: Files,
    O: Sink,
    E: Sink,
    A: Advice + Sync,
>(rt: &R, alloc: Global, words: &[S], files: &mut F, out: &mut O, err: &mut E, advice: &A) -> Status
    ensures { Ends (F.disk files.old) (map S.text words.now) result (O.output out.old) (O.output out.new) }
{
    let words = match words_of(alloc, words, err) {
        Ok(words) => words,
        Err(status) => return status,
    };
    match request_of(alloc, &words, out, err) {
        Ok(request) => carry_out(rt, alloc, &request, files, out, err, advice),
        Err(status) => status,
    }
}

/// As `program`, with no hint and no file of `--stop`, whatever the words ask for.
pub fn run<R: Threads + Wait + Clock + Sync, S: AsStr, F: Files, O: Sink, E: Sink>(
    rt: &R,
    alloc: Global,
    words: &[S],
    files: &mut F,
    out: &mut O,
    err: &mut E,
) -> Status
    ensures { Ends (F.disk files.old) (map S.text words.now) result (O.output out.old) (O.output out.new) }
{
    program(rt, alloc, words, files, out, err, &NoAdvice)
}

/// As `run`, without threads, so that no `--seconds` ends it. None, with nothing read or written,
/// where the words ask for `worst`, whose search needs threads.
pub fn run_plain<S: AsStr, F: Files, O: Sink, E: Sink>(
    alloc: Global,
    words: &[S],
    files: &mut F,
    out: &mut O,
    err: &mut E,
) -> Option<Status>
    ensures ends { IfSome result (λ status. Ends (F.disk files.old) (map S.text words.now) status (O.output out.old) (O.output out.new)) }
    ensures untouched { IfNone result ((files.new ≡ files.old) × (out.new ≡ out.old) × (err.new ≡ err.old)) }
{
    let words = match words_of(alloc, words, err) {
        Ok(words) => words,
        Err(status) => return Some(status),
    };
    match request_of(alloc, &words, out, err) {
        Ok(request) => match request.command {
            Command::Worst(_) => None,
            _ => Some(carry_out_plain(alloc, &request, files, out, err)),
        },
        Err(status) => Some(status),
    }
}

/// Says on `err` that the words of the command line can't be read: memory ran out, or a device
/// failed, as where a word isn't text in UTF-8.
pub fn refuse_words<E: Sink>(fault: ReadFault, err: &mut E) -> Status
    ensures { result ≡ words_status fault }
{
    match fault {
        ReadFault::OutOfMemory => {
            tell(err, b"tdelay: out of memory\n");
            Status::Device
        }
        ReadFault::Device => {
            tell(err, b"tdelay: bad command line\n");
            Status::BadCommand
        }
    }
}

/// The words of a command line, or how the program ends where memory runs out.
fn words_of<'w, S: AsStr, E: Sink>(
    alloc: Global,
    words: &'w [S],
    err: &mut E,
) -> Result<Words<'w>, Status>
    ensures parted { IfOk result (AreParted (map S.text words.entry.now)) }
    ensures untouched { OnOk result (err.new ≡ err.old) }
    ensures memory { IfErr result (λ status. status ≡ ending.Device) }
{
    match Words::new(alloc, words) {
        Ok(words) => Ok(words),
        Err(_) => Err(tell_fault(alloc, Fault::OutOfMemory, err)),
    }
}

/// What the words ask for, or how the program ends once it has said what is wrong with them, or
/// shown help.
fn request_of<'w, 'x, O: Sink, E: Sink>(
    alloc: Global,
    words: &'w Words<'x>,
    out: &mut O,
    err: &mut E,
) -> Result<Request<'w>, Status>
    ensures asked { IfOk result (AskFor words.entry.now) }
    ensures untouched { OnOk result ((out.new ≡ out.old) × (err.new ≡ err.old)) }
    ensures ends { IfErr result (λ status. Shows words.entry.now status (O.output out.old) (O.output out.new) ⊎ Refuses words.entry.now status (O.output out.old) (O.output out.new)) }
{
    match asked(alloc, words) {
        Ok(Some(request)) => Ok(request),
        Ok(None) => Err(refuse_words(ReadFault::Device, err)),
        Err(error) => Err(tell_usage(alloc, &error, words.all(), out, err)),
    }
}

/// Carries out a request: reads each file that it names once, and prints the outcome of these
/// texts.
pub fn carry_out<R: Threads + Wait + Clock + Sync, F: Files, O: Sink, E: Sink, A: Advice + Sync>(
    rt: &R,
    alloc: Global,
    request: &Request<'_>,
    files: &mut F,
    out: &mut O,
    err: &mut E,
    advice: &A,
) -> Status
    ensures { Carries (F.disk files.old) request.now result (O.output out.old) (O.output out.new) }
{
    let bytes = match bytes_for(alloc, request, files) {
        Ok(bytes) => bytes,
        Err(fault) => return stop(alloc, request, fault, out, err, advice),
    };
    if advice.is_wanted(request.hints) || shows_progress(request) {
        warn(alloc, request, err, advice);
    }
    let texts = bytes.texts();
    let Some(found) = judged(rt, alloc, request, &texts, err, advice) else {
        return stop(alloc, request, Fault::NoTimer, out, err, advice);
    };
    match found {
        Ok(outcome) => finish(alloc, request, &outcome, files, out, err, advice),
        Err(refusal) => refuse(alloc, request, &bytes.netlist, &refusal, out, err, advice),
    }
}

/// Carries out a request that is no search.
fn carry_out_plain<F: Files, O: Sink, E: Sink>(
    alloc: Global,
    request: &Request<'_>,
    files: &mut F,
    out: &mut O,
    err: &mut E,
) -> Status
    requires { IsPlain request.now.command }
    ensures { Carries (F.disk files.old) request.now result (O.output out.old) (O.output out.new) }
{
    let bytes = match bytes_for(alloc, request, files) {
        Ok(bytes) => bytes,
        Err(fault) => return stop(alloc, request, fault, out, err, &NoAdvice),
    };
    let texts = bytes.texts();
    match answer_plain(alloc, request, &texts, &Stop::never()) {
        Ok(outcome) => finish(alloc, request, &outcome, files, out, err, &NoAdvice),
        Err(refusal) => refuse(
            alloc,
            request,
            &bytes.netlist,
            &refusal,
            out,
            err,
            &NoAdvice,
        ),
    }
}

/// Hands an outcome over. Answers how the program ends.
fn finish<F: Files, O: Sink, E: Sink, A: Advice>(
    alloc: Global,
    request: &Request<'_>,
    outcome: &Outcome,
    files: &mut F,
    out: &mut O,
    err: &mut E,
    advice: &A,
) -> Status
    requires { CanBeWritten outcome.now }
    ensures { Prints request.now outcome.now result (O.output out.old) (O.output out.new) }
{
    match deliver(alloc, request, outcome, files, out) {
        Ok(()) => {
            if advice.is_wanted(request.hints) {
                advise(&ending_hint(alloc, request, outcome), err);
            }
            outcome.status
        }
        Err(fault) => break_off(alloc, request, fault, err, advice),
    }
}

/// Says what a fault is, before anything went out. Answers how the program ends.
fn stop<O: Sink, E: Sink, A: Advice>(
    alloc: Global,
    request: &Request<'_>,
    fault: Fault<'_>,
    out: &mut O,
    err: &mut E,
    advice: &A,
) -> Status
    ensures ends { (result ≡ fault_status fault.entry) ⊎ (result ≡ ending.Device) }
    ensures shown { IsUnreported request.now result (O.output out.old) (O.output out.new) }
{
    let trouble = Trouble {
        origin: Origin::of_fault(fault),
        sentence: fault_sentence(alloc, fault),
        hint: fault_hint(alloc, fault, advice),
    };
    let status = say(&trouble.sentence, fault.status(), err);
    end(alloc, request, trouble, status, out, err, advice)
}

/// Says what a fault is, once a report is begun. Answers how the program ends.
fn break_off<E: Sink, A: Advice>(
    alloc: Global,
    request: &Request<'_>,
    fault: Fault<'_>,
    err: &mut E,
    advice: &A,
) -> Status
    ensures { (result ≡ fault_status fault.entry) ⊎ (result ≡ ending.Device) }
{
    let status = tell_fault(alloc, fault, err);
    if advice.is_wanted(request.hints) {
        advise(&fault_hint(alloc, fault, advice), err);
    }
    status
}

/// Says why there is no outcome. Answers how the program ends.
fn refuse<O: Sink, E: Sink, A: Advice>(
    alloc: Global,
    request: &Request<'_>,
    netlist: &[u8],
    refusal: &Refusal<'_, '_>,
    out: &mut O,
    err: &mut E,
    advice: &A,
) -> Status
    ensures ends { (result ≡ status_of refusal.now) ⊎ (result ≡ ending.Device) }
    ensures shown { IsUnreported request.now result (O.output out.old) (O.output out.new) }
{
    if let Refusal::Unread(name) = refusal {
        return stop(alloc, request, Fault::Unread(name), out, err, advice);
    }
    let trouble = Trouble {
        origin: Origin::of_refusal(refusal),
        sentence: refusal_sentence(alloc, refusal),
        hint: refusal_hint(alloc, request, netlist, refusal),
    };
    let status = say(&trouble.sentence, refusal.status(), err);
    end(alloc, request, trouble, status, out, err, advice)
}

/// A hint, where one is wanted, and the JSON of why there is no outcome, where that is asked for.
/// Answers this status.
fn end<O: Sink, E: Sink, A: Advice>(
    alloc: Global,
    request: &Request<'_>,
    trouble: Trouble,
    status: Status,
    out: &mut O,
    err: &mut E,
    advice: &A,
) -> Status
    ensures ends { result ≡ status }
    ensures shown { IsUnreported request.now result (O.output out.old) (O.output out.new) }
{
    if advice.is_wanted(request.hints) {
        advise(&trouble.hint, err);
    }
    show_trouble(alloc, request, trouble, status, out);
    status
}
