//! What a tree keeps of its nodes.
use crate::record::Record;
use bl_pool::Pool;

/// The nodes of a tree, with the pools, the counts and the best point that are kept of them.
#[derive(Drop)]
pub struct NodeStore {
    /// Each node that was born, by its number.
    pub records: Vec<Record>,
    /// The keys of the waiting nodes, but for some that aren't live any more.
    pub waiting: Pool,
    /// Each node that may be freed is one of these; or it waits, and `fell` is set.
    pub candidates: Pool,
    /// The best value fell since all nodes were looked at.
    pub fell: bool,
    /// How many nodes are out.
    pub outs: u32,
    /// How many nodes are used.
    pub used: u32,
    /// The best value, in units of 10^-scale.
    pub best: Option<i128>,
    /// The place in the journal of the entry that found the best point.
    pub best_place: usize,
}
