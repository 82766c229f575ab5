//! The certificate of an answer that stays open.

ghost use Rattle.std.specs.Prelude.{◌≡◌, ◌+◌, ◌≤◌, true, length, Some, IfSome};
ghost use Rattle.td_circuit.specs.Numbering.{setting};
ghost use Rattle.td_certificate.specs.Accepts.{are_fit};
ghost use Rattle.td_refute.specs.Kept.{IsTimedAmong};
ghost use Rattle.td_worst.specs.Kept.{asking_by};
ghost use Rattle.td_worst.specs.Supports.{IsSupportAmong};
ghost use Rattle.td_answer.specs.Certified.{wants_open};
ghost use Rattle.td_answer.specs.OpenCertificates.{IsOpenCertificate};

use crate::kept_certificate::{Told, kept_certificate};
use crate::requirement::is_decided;
use std::alloc::Global;
use td_certificate::{Certificate, Claim};
use td_circuit::Circuit;
use td_domain::Admit;
use td_lead::Timed;
use td_request::Search;
use td_worst::{KeptQuestion, Support, tree_of_high};

/// What an open answer knows: the best pair, a moment that none passes, and what may show it.
#[derive(Drop)]
pub(crate) struct Open {
    pub best: Timed,
    pub high: u64,
    pub support: Support,
}

/// Whether an open answer with these figures has a certificate, where there is one.
fn wants_open(search: &Search<'_>, low: u64, high: u64) -> bool
    ensures { result ≡ wants_open search.now low high }
{
    search.between || is_decided(search.required, low, high)
}

/// The certificate of both figures of an open answer, where it is wanted and its file is named.
/// None where nothing shows the upper figure, or memory runs out.
pub(crate) fn open_certificate(
    alloc: Global,
    circuit: &Circuit,
    admit: Admit,
    told: Told,
    known: Open,
    search: &Search<'_>,
) -> Option<Certificate>
    requires held { length admit.held ≡ length circuit.now.netlist.inputs }
    requires flips { admit.flips ≤ length admit.held }
    requires fit { are_fit (2 + length circuit.now.netlist.inputs + length circuit.now.netlist.gates) told.keep.items ≡ true }
    requires timed { IsTimedAmong (setting circuit.now) (asking_by admit told.keep.items) known.best }
    requires ordered { known.best.time ≤ known.high }
    requires shown { IsSupportAmong (setting circuit.now) (asking_by admit told.keep.items) known.support }
    ensures is { IfSome result (IsOpenCertificate (setting circuit.now) admit told known.best known.high) }
    ensures wanted { IfSome result (λ certificate. wants_open search.now known.best.time known.high ≡ true) }
{
    let Open {
        best,
        high,
        support,
    } = known;
    if search.certificate.is_none() || !wants_open(search, best.time, high) {
        return None;
    }
    let question = KeptQuestion {
        circuit,
        admit: &admit,
        keep: &told.keep,
        required: None,
    };
    let tree = tree_of_high(alloc, question, &best, high, support)?;
    let Timed { pair, time } = best;
    let claim = Claim { time, high, pair };
    match kept_certificate(alloc, circuit, admit, told, Some(claim), tree) {
        Ok(certificate) => Some(certificate),
        Err(_) => None,
    }
}
