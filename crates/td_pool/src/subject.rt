//! What a search whose workers share a lock is about.

use std::marker::Brand;
use std::sync::ledger::Ledger;

/// A ledger of a search, and what the search is asked.
pub trait Subject: Ledger {
    ghost use Rattle.td_search.specs.Problems.{Problem};

    ghost asked: { Problem };
}

impl Subject for Brand {
    ghost use Rattle.td_pool.specs.Subjects.{nothing_asked};

    ghost asked = { nothing_asked };
}
