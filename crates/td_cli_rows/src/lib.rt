//! Requests about small netlists, as values and as words. There are tests here, and nothing else.
#![tactic(auto)]

#[cfg(test)]
mod answers;
#[cfg(test)]
mod commands;
#[cfg(test)]
mod lines;
#[cfg(test)]
mod questions;
#[cfg(test)]
mod required;
#[cfg(test)]
mod stops;
#[cfg(test)]
mod tables;
