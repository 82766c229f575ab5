//! What is known of the pins before a search begins.

/// The delay of the pair that stands for the pins, and the strongest domain's bound of the pins, in
/// steps.
#[derive(Clone, Copy, Debug, Drop)]
pub struct Root {
    pub first: u64,
    pub bound: u64,
}
