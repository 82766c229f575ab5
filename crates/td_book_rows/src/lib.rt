//! Books whose leaves are claimed, split, closed, released and grafted, and one that threads share.
//! There are tests here, and nothing else.
#![tactic(auto)]

#[cfg(test)]
mod claims;
#[cfg(test)]
mod runs;
#[cfg(test)]
mod steps;
#[cfg(test)]
mod totals;
