//! What those who work on a search have in common.

ghost use Rattle.std.specs.Prelude.{◌≡◌};

use crate::problem::Problem;
use crate::rule::Rule;
use std::alloc::Global;
use td_stop::Stop;

/// What those who work on a search have in common: where memory comes from, what is asked, the rule
/// of its strategy, and the stop that ends the search once it is set.
#[derive(Drop)]
pub struct Task<'a, R: Rule> {
    pub alloc: Global,
    pub problem: &'a Problem<'a>,
    pub rule: &'a R,
    pub stop: &'a Stop,
    pub ghost by: { R.by ≡ problem.now.strategy },
}
