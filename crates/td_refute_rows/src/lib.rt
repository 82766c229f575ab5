//! Searches for refutations beside all pairs of small circuits. There are tests here, and nothing
//! else.
#![tactic(auto)]

#[cfg(test)]
mod lines;
#[cfg(test)]
mod questions;
#[cfg(test)]
mod searches;
