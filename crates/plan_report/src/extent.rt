// How much of a report is wanted.

/// How much of a report is wanted.
#[derive(Clone, Copy, Debug, PartialEq, Eq)]
pub enum Extent {
    /// A line for each listed fault, then the totals.
    Lines,
    /// The line of the totals alone.
    Totals,
}
