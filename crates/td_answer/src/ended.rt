//! How a search ended, and what a report says of that.

ghost use Rattle.std.specs.Prelude.{◌≡◌, ◌++◌, OnOk};
ghost use Rattle.td_answer.specs.Ends.{has_used_up, cause_of, work_lines};

use std::alloc::AllocError;
use td_lines::{Cause, Line, Report};
use td_request::Search;

/// What a search was asked, whether somebody asked for its end, and how many units of work its
/// searches by spans took.
#[derive(Clone, Copy)]
pub(crate) struct Ended<'a, 'w> {
    pub search: &'a Search<'w>,
    pub was_asked: bool,
    pub work: u64,
}

impl<'a, 'w> Ended<'a, 'w> {
    ghost use Rattle.std.specs.Prelude.{◌≡◌, ◌++◌, OnOk};
    ghost use Rattle.td_answer.specs.Ends.{has_used_up, cause_of, work_lines};

    /// Whether this many nodes and the units of work reach the budget together.
    fn has_used_up(self, nodes: u64) -> bool
        ensures { result ≡ has_used_up self.entry nodes }
    {
        u64::from(self.search.effort.budget).saturating_sub(nodes) <= self.work
    }

    /// Why the search ended, which handled so many nodes: for its budget only where that was used
    /// up; else it had nothing more to try. Where its stop was set, this tells whether somebody
    /// asked for that.
    pub fn cause(self, cause: td_search::Cause, nodes: u64) -> Cause
        ensures { result ≡ cause_of self.entry nodes cause }
    {
        match cause {
            td_search::Cause::Budget => {
                if self.has_used_up(nodes) {
                    Cause::Budget
                } else {
                    Cause::Effort
                }
            }
            td_search::Cause::Memory => Cause::Memory,
            td_search::Cause::Time => {
                if self.was_asked {
                    Cause::Stop
                } else {
                    Cause::Time
                }
            }
        }
    }

    /// Appends how many units of work the search took, where it is asked for.
    pub fn push_work(self, report: &mut Report) -> Result<(), AllocError>
        ensures { OnOk result (report.new ≡ report.old ++ work_lines self.entry) }
    {
        if self.search.shown.work {
            report.add(Line::Units(self.work))
        } else {
            Ok(())
        }
    }
}
