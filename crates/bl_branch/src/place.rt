//! Places of a split.

/// Where a box is split: the column is at most `at` on one side, and at least `at` + 1 on the
/// other.
#[derive(Clone, Copy, Debug, PartialEq, Eq)]
pub struct Place {
    /// The number of the column, from 0.
    pub column: u32,
    /// The greatest value of the first side.
    pub at: i64,
}
