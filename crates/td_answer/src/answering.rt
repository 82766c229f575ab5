//! The outcome of a request.

ghost use Rattle.std.specs.Prelude.{◌≡◌, ◌⊎◌, slice_get, IfOk, IfErr, None as Nothing};
ghost use Rattle.td_search.specs.Problems.{Problem};
ghost use Rattle.td_question.specs.Asking.{IsAsked};
ghost use Rattle.td_answer.specs.Searches.{IsRefusedSearch};
ghost use Rattle.td_answer.specs.Filled.{filled};
ghost use Rattle.td_answer.specs.Answered.{IsPrintOfTable};
ghost use Rattle.td_answer.specs.Ends.{EndsByStop};
ghost use Rattle.td_answer.specs.Outcomes.{IsPlain, IsCheckedTrue, IsRefusedChecked, IsSearchedTrue, IsCertifiedSearch, IsSearched, IsTrueOutcome, IsPrintOf, HasCertificate, IsRefused};
ghost use Rattle.td_answer.specs.Writing.{CanBeWritten};

use crate::bound::bounds;
use crate::check::verdict_on;
use crate::each::table;
use crate::filled::{filled_parts, filled_search};
use crate::hazards::hazards;
use crate::info::info;
use crate::join::join;
use crate::outcome::Outcome;
use crate::parts::parts;
use crate::path::path;
use crate::refusal::Refusal;
use crate::sim::sim;
use crate::texts::Texts;
use crate::watch::TableWatch;
use crate::worst::worst;
use std::alloc::Global;
use std::sync::Wait;
use std::thread::Threads;
use td_reading::Reading;
use td_request::{Check, Command, Request, Search, Table};
use td_stop::Stop;

/// The outcome of a request on the texts of its files. Once the stop is set, a search ends, and its
/// outcome says what is known by then; the report gives `stop` as the cause where somebody asked
/// for it, and `time` where nobody did. The watch gets the progress of a search, and hears the
/// rows of a table with worst delays.
///
/// # Errors
///
/// Why there is none.
pub fn answer<'n, 'w, 'c, W: TableWatch, R: Threads + Wait + Sync>(
    rt: &R,
    alloc: Global,
    request: &Request<'w>,
    texts: &Texts<'n, 'c, 'w>,
    stop: &Stop,
    watch: &mut W,
) -> Result<Outcome, Refusal<'n, 'w>>
    ensures says { IfOk result (IsTrueOutcome request.now texts.now) }
    ensures answered { IfOk result (IsPrintOf stop.now.can_be_set request.now texts.now) }
    ensures certified { IfOk result (HasCertificate request.now texts.now) }
    ensures written { IfOk result CanBeWritten }
    ensures refusal { IfErr result (IsRefused request.now texts.now) }
    ensures stopped { IfErr result (EndsByStop stop.now.can_be_set) }
    // The progress that the watch got, if any, is true of what is asked.
    ensures reported { (watch.new ≡ watch.old)
        ⊎ ((asked : Problem) × IsSearched (filled texts.now.keep request.now.command) texts.now.netlist.now request.now.reading asked × W.reported asked watch.old watch.new) }
{
    match &request.command {
        Command::Worst(search) => {
            let search = filled_search(search, texts.keep);
            searched(
                rt,
                alloc,
                texts.netlist,
                &request.reading,
                &search,
                stop,
                watch,
            )
        }
        _ => answer_plain(alloc, request, texts, stop),
    }
}

/// As `answer`, without threads, of a request that is no search. Once the stop is set, the run of a
/// pair and the check of a certificate end without an outcome.
pub fn answer_plain<'n, 'w, 'c>(
    alloc: Global,
    request: &Request<'w>,
    texts: &Texts<'n, 'c, 'w>,
    stop: &Stop,
) -> Result<Outcome, Refusal<'n, 'w>>
    requires { IsPlain request.now.command }
    ensures says { IfOk result (IsTrueOutcome request.now texts.now) }
    ensures answered { IfOk result (IsPrintOf stop.now.can_be_set request.now texts.now) }
    ensures certified { IfOk result (HasCertificate request.now texts.now) }
    ensures written { IfOk result CanBeWritten }
    ensures refusal { IfErr result (IsRefused request.now texts.now) }
    ensures stopped { IfErr result (EndsByStop stop.now.can_be_set) }
{
    let text = texts.netlist;
    let reading = &request.reading;
    match &request.command {
        Command::Check(asked) => return checked(
            alloc,
            text,
            reading,
            asked,
            texts.certificates,
            stop,
        ),
        Command::Sim(asked) => return sim(alloc, text, reading, asked, stop),
        Command::Path(asked) => return path(alloc, text, reading, asked, stop),
        Command::Bound(asked) => return bounds(alloc, text, reading, asked),
        Command::Parts(asked) => {
            let asked = filled_parts(asked, texts.keep);
            return parts(alloc, text, reading, &asked);
        }
        Command::Join(asked) => return join(alloc, reading, asked, texts),
        Command::Info => return info(alloc, text, reading),
        Command::Worst(_) => unreachable!(),
    }
}

fn searched<'n, 'w, W: TableWatch, R: Threads + Wait + Sync>(
    rt: &R,
    alloc: Global,
    text: &'n [u8],
    reading: &Reading<'_>,
    search: &Search<'w>,
    stop: &Stop,
    watch: &mut W,
) -> Result<Outcome, Refusal<'n, 'w>>
    ensures says { IfOk result (IsSearchedTrue search.now.table text.now reading.now search.now) }
    ensures answered { IfOk result (IsPrintOfTable search.now.table stop.now.can_be_set text.now reading.now search.now) }
    ensures certified { IfOk result (IsCertifiedSearch search.now.table text.now reading.now search.now) }
    ensures written { IfOk result CanBeWritten }
    ensures refusal { IfErr result (IsRefusedSearch text.now reading.now search.now) }
    ensures reported { (watch.new ≡ watch.old)
        ⊎ ((asked : Problem) × IsAsked text.now reading.now search.now.question asked.setting asked.admit × W.reported asked watch.old watch.new) }
{
    match search.table {
        None => worst(rt, alloc, text, reading, search, stop, watch),
        Some(Table::Hazards) => hazards(rt, alloc, text, reading, search, stop),
        Some(Table::Delays | Table::Changes { .. }) => {
            table(rt, alloc, text, reading, search, stop, watch)
        }
    }
}

/// The verdict on the certificate's text, if it is there, unless the stop is set before it is
/// known.
fn checked<'n, 'w>(
    alloc: Global,
    text: &'n [u8],
    reading: &Reading<'_>,
    asked: &Check<'w>,
    certificates: &[Vec<u8>],
    stop: &Stop,
) -> Result<Outcome, Refusal<'n, 'w>>
    ensures says { IfOk result (IsCheckedTrue text.now reading.now asked.now (slice_get certificates.now 0)) }
    ensures certified { IfOk result (λ outcome. outcome.certificate ≡ Nothing) }
    ensures written { IfOk result CanBeWritten }
    ensures refusal { IfErr result (IsRefusedChecked text.now reading.now asked.now (slice_get certificates.now 0)) }
    ensures stopped { IfErr result (EndsByStop stop.now.can_be_set) }
{
    let Some(certificate) = certificates.first() else {
        return Err(Refusal::Unread(asked.certificate));
    };
    verdict_on(alloc, text, reading, asked.told, certificate, stop)
}
