//! A leaf that is left.

use td_domain::Cube;

/// A leaf that is open or held: its number in the shared tree, its cube, and a bound of that in
/// steps.
#[derive(Debug, Drop)]
pub struct OpenLeaf {
    pub number: u32,
    pub cube: Cube,
    pub bound: u64,
}
