//! What lines of a refutation do.

/// What a line does. The first four kinds are of variables, which come before all steps.
#[derive(Clone, Copy, Debug, PartialEq, Eq, Drop)]
pub enum StepKind {
    /// Has a variable for the level at which a net starts.
    First,
    /// Has a variable for the level at which a net ends.
    Last,
    /// Has a variable for a net's level at all places of a span.
    Span,
    /// Has a variable for how many of the first inputs differ.
    Flips,
    /// Adds the clause of a gate: by what is known of its inputs, its output surely is at a level
    /// at all places of a span.
    Gate,
    /// Adds the clause of a gate's table, on levels at the start or in the end.
    Table,
    /// Adds the clause that a net has one level at a place.
    Net,
    /// Adds a clause whose literals no admitted pair of the cube makes false at once.
    Pairs,
    /// Adds the clause of a condition.
    Keep,
    /// Adds a clause that hints show.
    Lemma,
    /// Lowers a net's end for a level, by a clause that hints show.
    End,
    /// Takes the ends of a gate's output again from those of its inputs.
    Again,
}
