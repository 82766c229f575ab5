//! What is known of each output before it is searched.

ghost use Rattle.std.specs.Prelude.{◌≡◌, ◌<◌, ℕ, Option as Maybe, true, length, option_map, Some, IfOk, IfErr, IfSome};
ghost use Rattle.std.specs.List.{AllZip};
ghost use Rattle.td_circuit.specs.Settings.{Setting};
ghost use Rattle.td_circuit.specs.Numbering.{nets, setting};
ghost use Rattle.td_domain.specs.Pairs.{Pair as PairModel};
ghost use Rattle.td_domain.specs.Admits.{Admitted, IsAdmitted};
ghost use Rattle.td_domain.specs.FirstSignals.{AreFirstSignals};
ghost use Rattle.td_edges.specs.Coverage.{span_reach};
ghost use Rattle.td_edges.specs.EdgeSignals.{edge_functions};
ghost use Rattle.td_source.specs.Each.{alone};
ghost use Rattle.td_refutation.specs.Asking.{Asking, all_admitted};
ghost use Rattle.td_lines.specs.declared.line.Found.{Found as FoundModel};
ghost use Rattle.td_answer.specs.declared.refusal.Refusal.TheVariants as RefusalAs;
ghost use Rattle.td_answer.specs.Columns.{pairs_of};
ghost use Rattle.td_answer.specs.Findings.{IsTrueFound};
ghost use Rattle.td_answer.specs.Outlooks.{HasLow, IsLow, IsOutlookAt, IsSample, IsTrueLow, IsTrueOutlook, shown};
ghost use Rattle.td_answer.specs.Sightings.{HasFigure, PairHas, shown_by};
ghost use Rattle.td_answer.specs.Tables.{IsTrueBound, IsUnanswered};

use crate::alone::Inquiry;
use crate::changes::is_closed;
use crate::sample::Sample;
use std::alloc::{AllocError, Global};
use td_circuit::Circuit;
use td_domain::{Admit, Domain, Pair, signals};
use td_edges::{Edges, Signal};
use td_lines::Found;
use td_refutation::NamedCondition;
use td_request::{Search, Strategy};
use td_search::SearchFault;
use td_stop::Stop;

/// After how many nodes, at most, `auto` bounds by edges.
const FIRST_NODES: u32 = 10_000;

/// What is known of an output before it is searched: its bound by edges, and the delay of an
/// admitted pair, with that pair, where one is known.
#[derive(Clone, Copy)]
pub(crate) struct Outlook<'a> {
    pub(crate) edges: Option<u64>,
    pub(crate) low: Option<u64>,
    pub(crate) pair: Option<&'a Pair>,
}

impl<'a> Outlook<'a> {
    /// The bound, once the stop is set: then the output isn't searched any more.
    pub(crate) fn at_the_end(self, stop: &Stop) -> Option<u64>
        ensures { (high : ℕ) → result ≡ Some high → self.entry.edges ≡ Some high }
    {
        if stop.is_set() {
            return self.edges;
        }
        None
    }
}

/// What an admitted pair and a bound say.
fn closer(low: u64, high: u64) -> Found
    ensures found { (given : Setting) (admit : Admitted) → IsTrueBound given admit (Some high) → IsTrueLow given admit (Some low)
        → IsTrueFound given (all_admitted admit) result }
    ensures pair { (given : Setting) (asking : Asking) (pair : Maybe PairModel) → PairHas given asking low pair
        → HasFigure given asking result (shown_by result pair) }
{
    if high <= low {
        return Found::Exact(low);
    }
    Found::Between { low, high }
}

/// What these figures say of the pairs that are asked about.
fn figure(keep: &[NamedCondition], low: Option<u64>, high: u64) -> Found
    ensures found { (given : Setting) (admit : Admitted) → IsTrueBound given admit (Some high) → IsTrueLow given admit low
        → IsTrueFound given (record { admit = admit; keep = keep.now }) result }
    ensures pair { (given : Setting) (admit : Admitted) (pair : Maybe PairModel) → HasLow given admit pair low
        → HasFigure given (record { admit = admit; keep = keep.now }) result (shown_by result pair) }
{
    if !keep.is_empty() {
        return Found::AtMost(high);
    }
    match low {
        None => Found::AtMost(high),
        Some(low) => closer(low, high),
    }
}

/// Whether a search would end with this figure: it bounds by edges, and leaves nothing open.
fn ends_so(search: &Search<'_>, found: Found) -> bool {
    match search.strategy {
        Strategy::Auto => FIRST_NODES < search.effort.budget && is_closed(found),
        Strategy::Least | Strategy::Lead | Strategy::Refute => false,
    }
}

/// A figure, where the output isn't searched: its search would end so, or the stop is set.
fn chosen(found: Found, is_set: bool, ends: bool) -> Option<Found>
    ensures { (other : FoundModel) → result ≡ Some other → other ≡ found }
{
    if is_set || ends {
        return Some(found);
    }
    None
}

/// What is found of an output that isn't searched.
pub(crate) fn unsearched(outlook: Outlook<'_>, inquiry: Inquiry<'_, '_>) -> Option<Found>
    ensures found { (given : Setting) (found : FoundModel) → IsTrueOutlook given inquiry.entry.admit.now outlook.entry → result ≡ Some found
        → IsTrueFound given (pairs_of inquiry.entry) found }
    ensures pair { (given : Setting) (found : FoundModel) → IsTrueOutlook given inquiry.entry.admit.now outlook.entry → result ≡ Some found
        → HasFigure given (pairs_of inquiry.entry) found (shown_by found (shown outlook.entry.pair)) }
{
    match outlook.edges {
        None => None,
        Some(high) => {
            let found = figure(inquiry.keep, outlook.low, high);
            let is_set = inquiry.limits.stop.is_set();
            let ends = ends_so(inquiry.search, found);
            chosen(found, is_set, ends)
        }
    }
}

/// When the output with this net changes last in the run of a sample, if there is one: 0 where it
/// never does.
fn low_in(sample: &Option<Sample>, net: u32) -> Option<u64>
    requires { IfSome sample.now (λ sample. net < length sample.run.waves) }
    ensures { IsLow sample.now net result }
{
    match sample {
        Some(sample) => Some(sample.run.wave(net).last().unwrap_or(0)),
        None => None,
    }
}

/// The pair of a sample, if there is one.
fn pair_in(sample: &Option<Sample>) -> Option<&Pair>
    ensures { shown result ≡ option_map (λ sample. sample.pair) sample.now }
{
    match sample {
        Some(sample) => Some(&sample.pair),
        None => None,
    }
}

/// What is known of the output with this net, by the signals of edges and a sample, if there is one.
fn outlook_at<'a>(signals: &[Signal], sample: &'a Option<Sample>, net: u32) -> Outlook<'a>
    requires net { net < length signals.now }
    requires run { IfSome sample.now (λ sample. net < length sample.run.waves) }
    ensures { IsOutlookAt signals.now sample.now net result }
{
    let signal = &signals[net as usize];
    let edges = Edges::last(signal);
    let low = low_in(sample, net);
    let pair = pair_in(sample);
    Outlook { edges, low, pair }
}

/// What is known of each output, in order, by the signals of edges and a sample, if there is one.
fn listed<'a>(
    alloc: Global,
    circuit: &Circuit,
    admit: &Admit,
    signals: &[Signal],
    sample: &'a Option<Sample>,
) -> Result<Vec<Outlook<'a>>, AllocError>
    requires held { length admit.now.held ≡ length circuit.now.netlist.inputs }
    requires all { length signals.now ≡ length (nets circuit.now) }
    requires front { AreFirstSignals edge_functions (λ signal. span_reach signal.changes) circuit.now admit.now.pins signals.now }
    requires sample { IfSome sample.now (IsSample circuit.now admit.now) }
    ensures { IfOk result (λ outlooks. AllZip (λ output. IsTrueOutlook (alone (setting circuit.now) output) admit.now)
        circuit.now.netlist.outputs outlooks.items) }
{
    // For the prover: the circuit's numbering and moments, and the pins' positions.
    let _gates = circuit.gates();
    let _moments = circuit.moments();
    let _pins = admit.pins();
    let mut outlooks = Vec::new(alloc);
    for net in circuit.outputs() {
        let outlook = outlook_at(signals, sample, *net);
        outlooks.push(outlook)?;
    }
    Ok(outlooks)
}

/// What is known of each output, in order, by one evaluation of edges and a sample.
fn known<'a>(
    alloc: Global,
    circuit: &Circuit,
    admit: &Admit,
    sample: &'a Option<Sample>,
) -> Result<Vec<Outlook<'a>>, AllocError>
    requires held { length admit.now.held ≡ length circuit.now.netlist.inputs }
    requires sample { IfSome sample.now (IsSample circuit.now admit.now) }
    ensures { IfOk result (λ outlooks. AllZip (λ output. IsTrueOutlook (alone (setting circuit.now) output) admit.now)
        circuit.now.netlist.outputs outlooks.items) }
{
    let signals = signals::<Edges>(alloc, circuit, admit.pins())?;
    listed(alloc, circuit, admit, &signals, sample)
}

/// Whether no pair is admitted.
fn admits_none(admit: &Admit) -> bool
    ensures { result ≡ true → (pair : PairModel) → ¬ IsAdmitted admit.now pair }
{
    !admit.any(admit.pins())
}

/// What is known of each output, in order, with the help of a sample, if there is one. Where there is
/// an output, some pair has to be admitted.
pub(crate) fn outlooks<'a>(
    alloc: Global,
    circuit: &Circuit,
    admit: &Admit,
    sample: &'a Option<Sample>,
) -> Result<Vec<Outlook<'a>>, SearchFault>
    requires held { length admit.now.held ≡ length circuit.now.netlist.inputs }
    requires sample { IfSome sample.now (IsSample circuit.now admit.now) }
    ensures outlooks { IfOk result (λ outlooks. AllZip (λ output. IsTrueOutlook (alone (setting circuit.now) output) admit.now)
        circuit.now.netlist.outputs outlooks.items) }
    ensures fault { IfErr result (λ fault. IsUnanswered admit.now (RefusalAs.Search fault)) }
{
    if !circuit.outputs().is_empty() && admits_none(admit) {
        return Err(SearchFault::NoPair);
    }
    let outlooks = known(alloc, circuit, admit, sample)?;
    Ok(outlooks)
}
