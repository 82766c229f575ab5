//! Searches of worked circuits by several workers. There are tests here, and nothing else.
#![tactic(auto)]

#[cfg(test)]
mod circuits;
#[cfg(test)]
mod decks;
#[cfg(test)]
mod opened;
#[cfg(test)]
mod prober;
#[cfg(test)]
mod refusals;
#[cfg(test)]
mod searches;
#[cfg(test)]
mod stops;
