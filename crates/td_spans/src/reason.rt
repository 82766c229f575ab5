//! Why a clause is true of every run.

/// Why a clause is true of every run of a pair of the cube that is asked about. Of which net, or
/// input, it is stands in the clause.
#[derive(Clone, Copy, Debug, PartialEq, Eq, Drop)]
pub enum Reason {
    /// By what the others say when they are denied, the output of a gate surely is at a level at
    /// all places that the first literal says.
    Gate,
    /// By the table of a gate, on levels at the start or in the end.
    Table,
    /// A net has one level at a place.
    Net,
    /// No admitted pair of the cube makes all literals false.
    Pairs,
    /// A condition says it.
    Keep,
}
