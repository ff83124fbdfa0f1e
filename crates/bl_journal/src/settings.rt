//! The settings of a search.

use bl_pool::Order;

/// What a search may use, and how it stores its nodes.
#[derive(Clone, Copy, Debug, PartialEq, Eq)]
pub struct Settings {
    /// How many nodes may be taken: at most `MOST_NODES`.
    pub nodes: u32,
    /// Each node whose depth the span divides is stored whole: 1 to `MOST_SPAN`.
    pub span: u32,
    /// In which order the waiting nodes are taken.
    pub order: Order,
    /// By how much a best point may fail to be optimal, in units of 10^-scale of the objective: 0
    /// to `LARGEST_GAP`. What could better the best point by no more than this is passed over.
    pub gap: i128,
}
