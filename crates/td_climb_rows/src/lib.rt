//! What the lanes of a climb say beside the event queue, and where climbs lead. There are tests
//! here, and nothing else.
#![tactic(auto)]

#[cfg(test)]
mod circuits;
#[cfg(test)]
mod climbs;
#[cfg(test)]
mod lanes;
#[cfg(test)]
mod texts;
