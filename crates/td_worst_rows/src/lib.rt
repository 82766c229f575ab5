//! Worst delays of small circuits, by each method. There are tests here, and nothing else.
#![tactic(auto)]

#[cfg(test)]
mod methods;
#[cfg(test)]
mod opened;
#[cfg(test)]
mod required;
#[cfg(test)]
mod stops;
