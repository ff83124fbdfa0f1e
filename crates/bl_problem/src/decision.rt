//! Bound decisions.

/// Which bound of a column a decision speaks of.
#[derive(Clone, Copy, Debug, PartialEq, Eq)]
pub enum Side {
    AtLeast,
    AtMost,
}

/// A bound decision: the column's entry is at least, or at most, the value.
#[derive(Clone, Copy, Debug, PartialEq, Eq)]
pub struct Decision {
    /// The number of the column, from 0.
    pub column: u32,
    pub side: Side,
    pub value: i64,
}
