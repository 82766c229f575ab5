//! What a checker is told.

/// What a checker is told, of a reading: whether the delay of the rise of gates that state none,
/// that of their fall, and which outputs are asked about. What it isn't told, it compares with
/// nothing.
#[derive(Clone, Copy, Debug, PartialEq, Eq, Drop)]
pub struct Told {
    pub rise: bool,
    pub fall: bool,
    pub outputs: bool,
}
