//! The event queue, sheets, sinks and kept waves, and calls that no command makes. There are tests
//! here, and nothing else.
#![tactic(auto)]

#[cfg(test)]
mod circuits;
#[cfg(test)]
mod counting;
#[cfg(test)]
mod keeping;
#[cfg(test)]
mod kept;
#[cfg(test)]
mod narrowings;
#[cfg(test)]
mod queue;
#[cfg(test)]
mod settled;
#[cfg(test)]
mod sheets;
#[cfg(test)]
mod sinks;
#[cfg(test)]
mod spans;
#[cfg(test)]
mod stopped;
#[cfg(test)]
mod texts;
#[cfg(test)]
mod together;
