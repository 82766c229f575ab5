//! At how many nodes a watch gets the progress of a search.

ghost use Rattle.std.specs.Prelude.{◌+◌, ◌<◌};

/// The milestones up to the greatest budget.
const MILESTONES: [u64; 13] = [
    1_000, 2_000, 5_000, 10_000, 20_000, 50_000, 100_000, 200_000, 500_000, 1_000_000, 2_000_000,
    5_000_000, 10_000_000,
];

/// The first milestone above `nodes`: 1, 2 or 5 times 1,000, 10,000 and so on to 10,000,000. After
/// the last one, a number of nodes that no search comes to.
pub fn milestone_above(nodes: u64) -> u64
    ensures { nodes < result + 1 }
{
    for milestone in MILESTONES {
        if milestone > nodes {
            return milestone;
        }
    }
    u64::MAX
}
